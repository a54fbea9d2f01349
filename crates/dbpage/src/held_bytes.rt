// What the cells and freeblocks of a page hold of it (Database File Format, 1.6).
ghost use Rattle.std.specs.Prelude.{◌≡◌, ℕ, false, Some, ◌+◌, ◌<◌, ◌≤◌, length, MatchOption, MatchResult};
ghost use Rattle.dbformat.specs.Head.{content_start};
ghost use Rattle.dbformat.specs.Cell.{count};
ghost use Rattle.dbformat.specs.Coverage.{coverage, first_overlap, items};
ghost use Rattle.dbpage.specs.Marking.{AreMarked, Holds, HoldsNothing, cell_spans, is_claimed};
ghost use Rattle.dbformat.specs.declared.Coverage.TheVariants.{Unheld};

use crate::mark_count::MarkCount;
use crate::mark_table::{claim, clear};
use crate::view::{PageView, by_kind};
use dbformat::{Coverage, PageKind};
use std::marker::Brand;
use std::sync::ledger::{Blank, Ledger};

/// What the items of a page hold of it: the first that shares a byte with an item before it, or how many bytes of the
/// content area are in none. Items are the cells, readable or not, and then the good freeblocks.
///
/// `table` is room to work in, at least as many bytes as the page has usable ones. Its contents do not matter, and are
/// unspecified afterwards. `mark_count` counts each byte that is marked for an item, and the finding that an item's byte is marked.
pub fn coverage<L: Ledger>(
    view: &PageView<'_>,
    table: &mut [u8],
    mark_count: &mut MarkCount<L>,
) -> Coverage
    requires { view.now.usable ≤ length table.old }
    ensures items { result ≡ coverage view.now }
    // No byte is marked twice, and one finding ends the call.
    ensures few { mark_count.new ≤ mark_count.old + view.now.usable + 1 }
    // Each held byte is marked.
    ensures each { (n : ℕ) → result ≡ Unheld n → mark_count.new + n + content_start view.now.number view.now.bytes ≡ mark_count.old + view.now.usable }
{
    let content = view.usable - view.start;
    clear(table, view.usable);
    let in_cells = match mark_cells(view, table, mark_count) {
        Ok(held) => held,
        Err(overlap) => return Coverage::Overlap(overlap.item),
    };
    match mark_freeblocks(view, in_cells, table, mark_count) {
        Ok(held) => Coverage::Unheld(content - held),
        Err(overlap) => Coverage::Overlap(overlap.item),
    }
}

/// `coverage` for a caller that counts nothing.
pub fn uncounted_coverage(view: &PageView<'_>, table: &mut [u8]) -> Coverage
    requires { view.now.usable ≤ length table.old }
    ensures { result ≡ coverage view.now }
{
    coverage_from::<Brand>(view, table, Blank::new(1))
}

// `coverage`, counted from 0 in the ledger that `blank` opens.
#[inline(always)]
fn coverage_from<L: Ledger>(view: &PageView<'_>, table: &mut [u8], blank: Blank) -> Coverage
    requires room { view.now.usable ≤ length table.old }
    requires name { blank.name ≡ L.name }
    requires parts { blank.parts ≡ L.parts }
    requires some { 0 < blank.parts }
    ensures { result ≡ coverage view.now }
{
    let mut mark_count = MarkCount::<L>::new(blank);
    coverage(view, table, &mut mark_count)
}

// The number of an item that shares a byte with one before it.
#[derive(Drop)]
pub(crate) struct Overlap {
    pub(crate) item: u32,
}

// Marks what the cells hold, and counts it.
fn mark_cells<L: Ledger>(
    view: &PageView<'_>,
    table: &mut [u8],
    mark_count: &mut MarkCount<L>,
) -> Result<u32, Overlap>
    requires room { view.now.usable ≤ length table.old }
    requires free { (byte : ℕ) → byte < view.now.usable → is_claimed table.old byte ≡ false }
    ensures marked { MatchResult result
        (λ held. (mark_count.new ≡ mark_count.old + held)
        × AreMarked (cell_spans view.now) (content_start view.now.number view.now.bytes) view.now.usable table.new held)
        (λ overlap. (mark_count.new ≤ mark_count.old + view.now.usable + 1) × (first_overlap (items view.now) ≡ Some overlap.item)) }
{
    by_kind!(view.kind, kind => mark_cells_of(view, kind, table, mark_count))
}

// `mark_cells` of a page of this kind.
#[inline(always)]
fn mark_cells_of<L: Ledger>(
    view: &PageView<'_>,
    kind: PageKind,
    table: &mut [u8],
    mark_count: &mut MarkCount<L>,
) -> Result<u32, Overlap>
    requires kind { kind ≡ view.now.kind }
    requires room { view.now.usable ≤ length table.old }
    requires free { (byte : ℕ) → byte < view.now.usable → is_claimed table.old byte ≡ false }
    ensures marked { MatchResult result
        (λ held. (mark_count.new ≡ mark_count.old + held)
        × AreMarked (cell_spans view.now) (content_start view.now.number view.now.bytes) view.now.usable table.new held)
        (λ overlap. (mark_count.new ≤ mark_count.old + view.now.usable + 1) × (first_overlap (items view.now) ≡ Some overlap.item)) }
{
    let mut held = 0;
    for i in 0..view.cells {
        if let Some((offset, len)) = held_by_cell(view, kind, i) {
            if !claim(table, offset, len, mark_count) {
                return Err(Overlap { item: i });
            }
            held += len;
        }
    }
    Ok(held)
}

// Where cell `i` begins and how many bytes it holds, four at least, if it is readable.
#[inline(always)]
fn held_by_cell(view: &PageView<'_>, kind: PageKind, i: u32) -> Option<(u32, u32)>
    requires within { i < count view.now }
    requires kind { kind ≡ view.now.kind }
    ensures { MatchOption result (HoldsNothing view.now i) (λ held. Holds view.now i held.0 held.1) }
{
    match view.read_cell(kind, i) {
        Ok(cell) => Some((cell.offset, cell.len.max(4))),
        Err(_) => None,
    }
}

// Marks what the good freeblocks hold, after the `held` bytes of the cells, and counts it all.
pub(crate) fn mark_freeblocks<L: Ledger>(
    view: &PageView<'_>,
    held: u32,
    table: &mut [u8],
    mark_count: &mut MarkCount<L>,
) -> Result<u32, Overlap>
    requires room { view.now.usable ≤ length table.old }
    requires cells { AreMarked (cell_spans view.now) (content_start view.now.number view.now.bytes) view.now.usable table.old held }
    ensures marked { MatchResult result
        (λ all. (mark_count.new + held ≡ mark_count.old + all)
        × AreMarked (items view.now) (content_start view.now.number view.now.bytes) view.now.usable table.new all)
        (λ overlap. (mark_count.new + held ≤ mark_count.old + view.now.usable + 1) × (first_overlap (items view.now) ≡ Some overlap.item)) }
{
    let mut all = held;
    let mut item = view.cells;
    for freeblock in view.freeblocks() {
        if !claim(table, freeblock.offset, freeblock.size, mark_count) {
            return Err(Overlap { item });
        }
        all += freeblock.size;
        item += 1;
    }
    Ok(all)
}
