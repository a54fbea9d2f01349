// What a cell's pointer may have been: where a cell is that no other item holds.
use crate::fit::Fit;
use crate::gaps::{Gap, cell_after, cell_bytes, gaps, longest_gaps, most_fragmented};
use crate::key::Key;
use crate::lengths::is_whole;
use crate::numbers::head;
use crate::ordered::Rank;
use crate::ranked::Ranked;
use crate::reading::Paper;
use arrayvec::ArrayVec;
use dbpage::PageView;
use std::alloc::Allocator;

// Where a page has the pointer of a cell.
fn pointer_place<A: Allocator>(paper: &Paper<A>, view: &PageView<'_>, cell: u32) -> u32 {
    let begins = head(paper) + if view.kind().is_interior() { 12 } else { 8 };
    cell.saturating_mul(2).saturating_add(begins)
}

// Adds an offset as the pointer of a cell.
fn add_offset<A: Allocator>(tries: &mut Ranked, paper: &Paper<A>, cell: u32, to: u32, fit: Fit) {
    let Some(view) = paper.view() else {
        return;
    };
    let at = u64::from(pointer_place(paper, &view, cell));
    if let Some(offset) = paper.begins().checked_add(at) {
        let pointer = u16::try_from(to).unwrap_or(0);
        tries.add(offset, &pointer.to_be_bytes(), fit);
    }
}

// How many cells are looked for in a run of bytes.
const MOST_IN_GAP: u32 = 16;

// A cell that no pointer leads to: its bytes, its key, and whether its record is as long as it says.
#[derive(Clone, Copy)]
struct Found {
    bytes: Gap,
    key: Key,
    is_whole: bool,
}

// What is in an unused place of a list.
impl Default for Found {
    fn default() -> Found {
        Found {
            bytes: Gap { at: 0, len: 0 },
            key: Key::Unknown,
            is_whole: false,
        }
    }
}

type AllFound = ArrayVec<Found, 32>;

impl Found {
    // That of a cell of a page.
    fn of(view: &PageView<'_>, cell: u32) -> Option<Found> {
        let bytes = cell_bytes(view, cell)?;
        let key = Key::of(view, cell);
        let is_whole = is_whole(view, cell);
        Some(Found {
            bytes,
            key,
            is_whole,
        })
    }

    // With fewer points if its record is not whole.
    fn less_if_cut(&self, fit: Fit) -> Fit {
        if self.is_whole { fit } else { fit.less(8) }
    }
}

// What a cell is if it begins at an offset.
fn cell_from<A: Allocator>(paper: &mut Paper<A>, cell: u32, at: u32) -> Option<Found> {
    let place = pointer_place(paper, &paper.view()?, cell);
    let stated = paper.replace_short(place, at)?;
    let found = paper.view().and_then(|view| Found::of(&view, cell));
    paper.put_short(place, stated);
    found
}

// The first cell from an offset on, after at most as many fragmented bytes as there are at one place: one that the page may have had there
// by its key, or else what is at the offset.
fn next_found<A: Allocator>(
    paper: &mut Paper<A>,
    cell: u32,
    gap: &Gap,
    rank: &Rank,
) -> Option<Found> {
    let most = most_fragmented(&paper.view()?);
    for skipped in 0..most + 1 {
        let from = gap.at.saturating_add(skipped);
        if let Some(found) = cell_from(paper, cell, from)
            && found.bytes.len.saturating_add(skipped) <= gap.len
            && found.is_whole
            && rank.accepts(&found.key)
        {
            return Some(found);
        }
    }
    cell_from(paper, cell, gap.at)
}

// Adds the cells that are in a run of bytes, one after another.
fn add_found<A: Allocator>(
    found: &mut AllFound,
    paper: &mut Paper<A>,
    cell: u32,
    gap: &Gap,
    rank: &Rank,
) {
    let end = gap.at.saturating_add(gap.len);
    let mut rest = *gap;
    for _ in 0..MOST_IN_GAP {
        if rest.len < 4 {
            return;
        }
        let Some(next) = next_found(paper, cell, &rest, rank) else {
            return;
        };
        rest.at = next.bytes.at.saturating_add(next.bytes.len);
        rest.len = end.saturating_sub(rest.at);
        let _ = found.try_push(next);
    }
}

// The cells in the longest runs of bytes that no item but this cell holds.
fn all_found<A: Allocator>(paper: &mut Paper<A>, cell: u32, rank: &Rank) -> AllFound {
    let mut found = ArrayVec::new();
    let longest = match paper.view() {
        Some(view) => gaps(&view, cell, paper.start(), paper.usable()),
        None => return found,
    };
    for gap in longest.iter() {
        add_found(&mut found, paper, cell, gap, rank);
    }
    found
}

// How many of the cells that were found come before a key.
fn number_before(rank: &Rank, found: &[Found], key: &Key) -> u32 {
    let mut number = 0u32;
    for other in found {
        if rank.leads(&other.key, key) {
            number = number.saturating_add(1);
        }
    }
    number
}

// Adds where a cell may begin: at each cell that no other item holds, if its key may be there.
fn add_cell<A: Allocator>(tries: &mut Ranked, paper: &mut Paper<A>, cell: u32) {
    let rank = match paper.view() {
        Some(view) => Rank::of(&view, cell),
        None => return,
    };
    let found = all_found(paper, cell, &rank);
    for one in found.as_slice() {
        if !rank.refuses(&one.key) {
            let fit = rank.fit(&one.key, number_before(&rank, found.as_slice(), &one.key));
            add_offset(tries, paper, cell, one.bytes.at, one.less_if_cut(fit));
        }
    }
}

// The bytes of an item: a cell, or a freeblock after all cells.
fn item_bytes(view: &PageView<'_>, item: u32) -> Option<Gap> {
    if item < view.cells() {
        return cell_bytes(view, item);
    }
    let mut number = view.cells();
    for block in view.freeblocks() {
        if number == item {
            return Some(Gap {
                at: block.offset,
                len: block.size,
            });
        }
        number = number.saturating_add(1);
    }
    None
}

// Whether two runs of bytes overlap.
fn overlap(a: &Gap, b: &Gap) -> bool {
    a.at < b.at.saturating_add(b.len) && b.at < a.at.saturating_add(a.len)
}

// The first cells that overlap an item.
fn overlapping(view: &PageView<'_>, item: u32) -> ArrayVec<u32, 3> {
    let mut cells = ArrayVec::new();
    let Some(bytes) = item_bytes(view, item) else {
        return cells;
    };
    for i in 0..view.cells() {
        let overlaps = cell_bytes(view, i).is_some_and(|other| overlap(&bytes, &other));
        if i != item && overlaps && cells.try_push(i).is_err() {
            return cells;
        }
    }
    cells
}

// Adds where a cell may begin, and where those may that overlap it.
pub(crate) fn add_pointer<A: Allocator>(tries: &mut Ranked, paper: &mut Paper<A>, item: u32) {
    let (is_cell, others) = match paper.view() {
        Some(view) => (item < view.cells(), overlapping(&view, item)),
        None => return,
    };
    if is_cell {
        add_cell(tries, paper, item);
    }
    for cell in others.as_slice() {
        add_cell(tries, paper, *cell);
    }
}

// Adds of each long run of bytes that no item holds, that the cell after it begins with it, unless its record is whole and would be cut. If it is
// whole only then, that goes before the other numbers by which the run is shorter.
pub(crate) fn add_gaps<A: Allocator>(tries: &mut Ranked, paper: &mut Paper<A>) {
    let longest = match paper.view() {
        Some(view) => longest_gaps(paper, &view),
        None => return,
    };
    for gap in longest {
        let (cell, was_whole) = match paper.view() {
            Some(view) if gap.len > 0 => match cell_after(&view, gap.at) {
                Some(cell) => (cell, is_whole(&view, cell)),
                None => continue,
            },
            _ => continue,
        };
        if let Some(found) = cell_from(paper, cell, gap.at)
            && (found.is_whole || !was_whole)
        {
            let points = if found.is_whole && !was_whole { 40 } else { 32 };
            let fit = found.less_if_cut(Fit::new(points, 0));
            add_offset(tries, paper, cell, gap.at, fit);
        }
    }
}
