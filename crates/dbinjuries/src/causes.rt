// Whether two faults go back to the same, and how many of a code are listed.
ghost use Rattle.std.specs.Prelude.{◌≡◌, ◌≤◌, ◌&&◌, ◌==◌};
ghost use Rattle.dbinjuries.specs.Kept.{look_cells};
ghost use Rattle.dbinjuries.specs.Listing.{most, same_cause, same_kind, same_look};

use dbformat::{FaultCode, Look, PageKind};
use dbtrace::{Cause, CellKey};

// Whether two causes are the same: the same cell or page, or pages that look alike. Where a file has many faults, most go back to keys.
pub(crate) fn same_cause(one: &Cause, other: &Cause) -> bool
    ensures { result ≡ same_cause one.now other.now }
{
    match (one, other) {
        (Cause::Key(a, _), Cause::Key(b, _)) => same_cell(a, b),
        _ => same_source(one, other),
    }
}

// Whether two keys are of one cell.
fn same_cell(one: &CellKey, other: &CellKey) -> bool
    ensures { result ≡ ((one.now.page == other.now.page) && (one.now.item == other.now.item)) }
{
    one.page == other.page && one.item == other.item
}

// The same, of causes of any kind.
#[inline(never)]
fn same_source(one: &Cause, other: &Cause) -> bool
    ensures { result ≡ same_cause one.now other.now }
{
    match (one, other) {
        (Cause::Key(a, _), Cause::Key(b, _)) => same_cell(a, b),
        (Cause::Leaf(a, _), Cause::Leaf(b, _)) => *a == *b,
        (Cause::Page(a, _), Cause::Page(b, _)) => *a == *b,
        (Cause::Look(a, _), Cause::Look(b, _)) => same_look(a, b),
        _ => false,
    }
}

// Whether two pages look alike: both are blank with one byte, or pages of trees of one kind, or neither.
fn same_look(one: &Look, other: &Look) -> bool
    ensures { result ≡ same_look one.now other.now }
{
    match (one, other) {
        (Look::Blank(a), Look::Blank(b)) => *a == *b,
        (Look::Other(_), Look::Other(_)) => true,
        (Look::Tree(a), Look::Tree(b)) => same_kind(a.kind, b.kind),
        _ => false,
    }
}

fn same_kind(one: PageKind, other: PageKind) -> bool
    ensures { result ≡ same_kind one other }
{
    matches!(
        (one, other),
        (PageKind::LeafTable, PageKind::LeafTable)
            | (PageKind::InteriorTable, PageKind::InteriorTable)
            | (PageKind::LeafIndex, PageKind::LeafIndex)
            | (PageKind::InteriorIndex, PageKind::InteriorIndex)
    )
}

// How many cells a page has if it looks like one of a tree, else 0.
pub(crate) fn cells_of(cause: &Cause) -> u64
    ensures { result ≡ look_cells cause.now }
{
    match cause {
        Cause::Look(Look::Tree(look), _) => u64::from(look.cells),
        _ => 0,
    }
}

// The most injuries that a code has in one part.
pub(crate) fn most(code: FaultCode) -> usize
    ensures most { result ≡ most code }
    ensures few { (1 ≤ result) × (result ≤ 6) }
{
    match code {
        FaultCode::N01 => 6,
        _ => 3,
    }
}
