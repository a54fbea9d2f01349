// Leaves of tables whose cells come in no order, as rows that were not inserted by rising rowids: each item is noted, and a walk from
// each to the next says whether two share a byte.
ghost use Rattle.std.specs.Prelude.{◌≡◌, ℕ, None, Ok, ◌+◌, ◌<◌, ◌≤◌, ◌^◌, length, MatchBool, MatchOption};
ghost use Rattle.dbformat.specs.Head.{content_start};
ghost use Rattle.dbformat.specs.Cell.{cell, count};
ghost use Rattle.dbformat.specs.Coverage.{items};
ghost use Rattle.dbformat.specs.declared.PageKind.TheVariants.{LeafTable};
ghost use Rattle.dbpage.specs.Five.{IsLast};
ghost use Rattle.dbpage.specs.Marking.{cell_spans};
ghost use Rattle.dbpage.specs.Notes.{AreNotedIn, HaveNotes, end_at};
ghost use Rattle.dbpage.specs.Packed.{AddUpTo, IsAboveLast, IsPacked, IsUnpacked, key_at};

use crate::cell::Cell;
use crate::common_cells::MarkedCells;
use crate::notes::{clear_notes, held_in_order, note};
use crate::packed::{CellSums, Packed, is_rising};
use crate::view::PageView;
use crate::whole_cells::key_of_five;
use dbformat::PageKind;

impl<'a> PageView<'a> {
    // `packed` of a leaf of a table whose first key is this, by notes of all items.
    #[inline(never)]
    pub(crate) fn packed_by_notes(&self, first: Option<i64>, table: &mut [u8]) -> Option<Packed>
        requires kind { self.now.kind ≡ LeafTable }
        requires room { self.now.usable ≤ length table.old }
        requires short { self.now.usable < 16384 }
        requires some { 0 < count self.now → key_at self.now 0 ≡ first }
        requires none { count self.now ≡ 0 → first ≡ None }
        ensures { MatchOption result (IsUnpacked self.now) (IsPacked self.now) }
    {
        self.copied().packed_by_notes_in_place(first, table)
    }

    // `packed_by_notes` of a view that no write can change.
    #[inline(always)]
    fn packed_by_notes_in_place(&self, first: Option<i64>, table: &mut [u8]) -> Option<Packed>
        requires kind { self.now.kind ≡ LeafTable }
        requires room { self.now.usable ≤ length table.old }
        requires short { self.now.usable < 16384 }
        requires some { 0 < count self.now → key_at self.now 0 ≡ first }
        requires none { count self.now ≡ 0 → first ≡ None }
        ensures { MatchOption result (IsUnpacked self.now) (IsPacked self.now) }
    {
        clear_notes(table, self.start, self.usable);
        let (sums, in_cells) = self.note_cells(first, table)?;
        let held = self.note_freeblocks(in_cells, table)?;
        if held_in_order(table, self.start, self.usable) != held {
            return None;
        }
        Some(self.packed_from(sums, held))
    }

    // Notes what the cells hold, where nothing is noted yet. `None` where one is not readable, a key does not rise, or two share a byte.
    #[inline(always)]
    fn note_cells(&self, first: Option<i64>, table: &mut [u8]) -> Option<(CellSums, u32)>
        requires kind { self.now.kind ≡ LeafTable }
        requires room { self.now.usable ≤ length table.old }
        requires short { self.now.usable < 16384 }
        requires some { 0 < count self.now → key_at self.now 0 ≡ first }
        requires none { count self.now ≡ 0 → first ≡ None }
        requires free { (at : ℕ) → end_at table.old (content_start self.now.number self.now.bytes) self.now.usable at ≡ 0 }
        ensures { MatchOption result (IsUnpacked self.now)
            (λ r. AddUpTo self.now (count self.now) r.0 × AreNotedIn self.now (cell_spans self.now) table.new r.1 × (r.1 < 2 ^ 28)) }
    {
        let far = self.note_far_cells(first, table)?;
        let noted = self.note_whole_cells(far, table)?;
        let mut sums = noted.sums;
        let mut held = noted.held;
        for i in noted.cells..self.cells {
            let (offset, len) = self.add_cell(PageKind::LeafTable, i, &mut sums)?;
            if !note(table, self.start, offset, len) {
                return None;
            }
            held += len;
        }
        Some((sums, held))
    }

    // `note_cells` of the first cells, while they are whole and their rowids have five bytes, which are compared as they are.
    #[inline(always)]
    fn note_far_cells(&self, first: Option<i64>, table: &mut [u8]) -> Option<MarkedCells>
        requires kind { self.now.kind ≡ LeafTable }
        requires room { self.now.usable ≤ length table.old }
        requires short { self.now.usable < 16384 }
        requires some { 0 < count self.now → key_at self.now 0 ≡ first }
        requires none { count self.now ≡ 0 → first ≡ None }
        requires free { (at : ℕ) → end_at table.old (content_start self.now.number self.now.bytes) self.now.usable at ≡ 0 }
        ensures { MatchOption result (IsUnpacked self.now) (HaveNotes self.now table.new) }
    {
        let mut noted = MarkedCells {
            cells: 0,
            sums: CellSums::new(first),
            held: 0,
        };
        // Where the first rowid has fewer bytes or more, the loop would end at once.
        let Some(268435456..=34359738367) = first else {
            return Some(noted);
        };
        let mut last = 0;
        for i in 0..self.cells {
            if !self.note_far_cell(i, &mut noted, &mut last, table)? {
                return Some(with_last(noted, last));
            }
        }
        Some(with_last(noted, last))
    }

    // Notes cell `i`, after those before it, if it is whole and its rowid has five bytes: and answers whether it is.
    #[inline(always)]
    fn note_far_cell(
        &self,
        i: u32,
        noted: &mut MarkedCells,
        last: &mut u64,
        table: &mut [u8],
    ) -> Option<bool>
        requires kind { self.now.kind ≡ LeafTable }
        requires room { self.now.usable ≤ length table.old }
        requires short { self.now.usable < 16384 }
        requires within { i < count self.now }
        requires next { noted.old.cells ≡ i }
        requires before { HaveNotes self.now table.old noted.old }
        requires last { IsLast i last.old noted.old.sums.last }
        ensures { MatchOption result (IsUnpacked self.now) (λ is_far. HaveNotes self.now table.new noted.new
            × IsLast noted.new.cells last.new noted.new.sums.last × MatchBool is_far (noted.new.cells ≡ i + 1) (noted.new.cells ≡ i)) }
    {
        let Some((cell, five)) = self.far_leaf_cell(i) else {
            return Some(false);
        };
        if five <= *last {
            return None;
        }
        if !self.note_read(i, &cell, noted, table) {
            return None;
        }
        *last = five;
        Some(true)
    }

    // `note_cells` of the next cells, while they are whole.
    #[inline(always)]
    fn note_whole_cells(&self, begun: MarkedCells, table: &mut [u8]) -> Option<MarkedCells>
        requires kind { self.now.kind ≡ LeafTable }
        requires room { self.now.usable ≤ length table.old }
        requires short { self.now.usable < 16384 }
        requires before { HaveNotes self.now table.old begun }
        ensures { MatchOption result (IsUnpacked self.now) (HaveNotes self.now table.new) }
    {
        let mut noted = begun;
        // The first has a turn of its own: after it, each cell has one before it.
        if begun.cells == self.cells {
            return Some(noted);
        }
        if !self.note_whole_cell(begun.cells, &mut noted, table)? {
            return Some(noted);
        }
        for i in begun.cells + 1..self.cells {
            if !self.note_whole_cell(i, &mut noted, table)? {
                break;
            }
        }
        Some(noted)
    }

    // Notes cell `i`, after those before it, if it is whole: and answers whether it is.
    #[inline(always)]
    fn note_whole_cell(&self, i: u32, noted: &mut MarkedCells, table: &mut [u8]) -> Option<bool>
        requires kind { self.now.kind ≡ LeafTable }
        requires room { self.now.usable ≤ length table.old }
        requires short { self.now.usable < 16384 }
        requires within { i < count self.now }
        requires next { noted.old.cells ≡ i }
        requires before { HaveNotes self.now table.old noted.old }
        ensures { MatchOption result (IsUnpacked self.now) (λ is_whole. HaveNotes self.now table.new noted.new
            × MatchBool is_whole (noted.new.cells ≡ i + 1) (noted.new.cells ≡ i)) }
    {
        let Some(cell) = self.whole_leaf_cell(i) else {
            return Some(false);
        };
        if !is_rising(noted.sums.last, cell.key) {
            return None;
        }
        if !self.note_read(i, &cell, noted, table) {
            return None;
        }
        Some(true)
    }

    // Notes cell `i`, which was read and whose key rises, after those before it. False where it shares a byte with one of them.
    #[inline(always)]
    fn note_read(&self, i: u32, found: &Cell<'a>, noted: &mut MarkedCells, table: &mut [u8]) -> bool
        requires room { self.now.usable ≤ length table.old }
        requires short { self.now.usable < 16384 }
        requires within { i < count self.now }
        requires next { noted.old.cells ≡ i }
        requires before { HaveNotes self.now table.old noted.old }
        requires read { cell self.now i ≡ Ok found.now }
        requires rising { IsAboveLast noted.old.sums.last found.now.key }
        ensures { MatchBool result (HaveNotes self.now table.new noted.new × (noted.new.cells ≡ i + 1)
            × (noted.new.sums.last ≡ found.now.key)) (IsUnpacked self.now) }
    {
        // This gives the proof what is known of the view.
        let _ = &self.usable;
        self.add_above(i, found, &mut noted.sums);
        let len = found.len.max(4);
        if !note(table, self.start, found.offset, len) {
            return false;
        }
        noted.held += len;
        noted.cells = i + 1;
        true
    }

    // Notes what the good freeblocks hold, after the `held` bytes of the cells.
    #[inline(always)]
    fn note_freeblocks(&self, held: u32, table: &mut [u8]) -> Option<u32>
        requires room { self.now.usable ≤ length table.old }
        requires short { self.now.usable < 16384 }
        requires few { held < 2 ^ 28 }
        requires cells { AreNotedIn self.now (cell_spans self.now) table.old held }
        ensures { MatchOption result (IsUnpacked self.now) (AreNotedIn self.now (items self.now) table.new) }
    {
        let mut all = held;
        for freeblock in self.freeblocks() {
            if !note(table, self.start, freeblock.offset, freeblock.size) {
                return None;
            }
            all += freeblock.size;
        }
        Some(all)
    }
}

// The same, with the key of the last cell made of its five bytes: a loop that is followed by this makes no other.
#[inline(always)]
fn with_last(noted: MarkedCells, last: u64) -> MarkedCells
    requires { IsLast noted.cells last noted.sums.last }
    ensures { result ≡ noted }
{
    let mut keyed = noted;
    keyed.sums.last = if noted.cells == 0 {
        None
    } else {
        Some(key_of_five(last))
    };
    keyed
}
