// Where no item of a page is: the runs of bytes between its cells and freeblocks.
ghost use Rattle.std.specs.Prelude.{◌≤◌};

use crate::reading::Paper;
use dbpage::PageView;
use std::alloc::Allocator;

// The most bytes of a fragment. If more are free at one place, another number is wrong.
pub(crate) const MOST_FRAGMENT: u32 = 3;

// How many fragmented bytes may be at one place.
pub(crate) fn most_fragmented(view: &PageView<'_>) -> u32
    ensures { result ≤ 3 }
{
    u32::from(view.fragments()).min(MOST_FRAGMENT)
}

// A run of bytes.
#[derive(Clone, Copy)]
pub(crate) struct Gap {
    pub(crate) at: u32,
    pub(crate) len: u32,
}

impl Gap {
    // What is of it from an offset on.
    fn from(&self, from: u32) -> Gap {
        let at = self.at.max(from);
        let end = self.at.saturating_add(self.len);
        Gap {
            at,
            len: end.saturating_sub(at),
        }
    }
}

// Notes a run among the four longest, the longest first.
fn note(longest: &mut [Gap; 4], gap: Gap) {
    let mut gap = gap;
    for kept in longest.iter_mut() {
        if gap.len > kept.len {
            let shorter = *kept;
            *kept = gap;
            gap = shorter;
        }
    }
}

// The bytes of a cell.
pub(crate) fn cell_bytes(view: &PageView<'_>, cell: u32) -> Option<Gap> {
    if cell >= view.cells() {
        return None;
    }
    let found = view.cell(cell).ok()?;
    Some(Gap {
        at: found.offset,
        len: found.len.max(4),
    })
}

// Adds an item to how many more items begin at each offset than end there.
fn add_item(begun: &mut [u16], item: &Gap) {
    if let Some(count) = begun.get_mut(item.at as usize) {
        *count = count.wrapping_add(1);
    }
    if let Some(count) = begun.get_mut(item.at.saturating_add(item.len) as usize) {
        *count = count.wrapping_sub(1);
    }
}

// Gives each run of bytes of the content area where no item is.
fn each_run<F: FnMut(Gap)>(begun: &[u16], start: u32, end: u32, mut give: F)
    requires { F.IsAlwaysCallable give }
{
    let mut run = Gap { at: start, len: 0 };
    let mut held = 0u16;
    for at in start..end {
        held = held.wrapping_add(begun.get(at as usize).copied().unwrap_or(0));
        if held == 0 {
            run.len = run.len.saturating_add(1);
        } else {
            give(run);
            run = Gap {
                at: at.saturating_add(1),
                len: 0,
            };
        }
    }
    give(run);
}

// Adds all cells but one, and the first freeblocks.
fn add_items(begun: &mut [u16], view: &PageView<'_>, cell: u32, blocks: u32) {
    for i in 0..view.cells() {
        if i == cell {
            continue;
        }
        if let Some(bytes) = cell_bytes(view, i) {
            add_item(begun, &bytes);
        }
    }
    let mut left = blocks;
    for block in view.freeblocks() {
        if left == 0 {
            return;
        }
        left -= 1;
        let bytes = Gap {
            at: block.offset,
            len: block.size,
        };
        add_item(begun, &bytes);
    }
}

// The four longest runs of bytes that no item but this cell holds.
pub(crate) fn gaps(view: &PageView<'_>, cell: u32, start: u32, end: u32) -> [Gap; 4] {
    let mut begun = [0u16; 65537];
    add_items(&mut begun, view, cell, u32::MAX);
    let mut longest = [Gap { at: 0, len: 0 }; 4];
    each_run(&begun, start, end, |run| note(&mut longest, run));
    longest
}

// No cell of a page.
const NO_CELL: u32 = u32::MAX;

// The four longest runs of bytes that no item holds.
pub(crate) fn longest_gaps<A: Allocator>(paper: &Paper<A>, view: &PageView<'_>) -> [Gap; 4] {
    gaps(view, NO_CELL, paper.start(), paper.usable())
}

// The longest of them.
pub(crate) fn longest_gap<A: Allocator>(paper: &Paper<A>) -> u32 {
    match paper.view() {
        Some(view) => longest_gaps(paper, &view)[0].len,
        None => 0,
    }
}

// Gives each run of bytes that no item holds.
pub(crate) fn each_gap<A: Allocator, F: FnMut(Gap)>(paper: &Paper<A>, view: &PageView<'_>, give: F)
    requires { F.IsAlwaysCallable give }
{
    let mut begun = [0u16; 65537];
    add_items(&mut begun, view, NO_CELL, u32::MAX);
    each_run(&begun, paper.start(), paper.usable(), give);
}

// Where the freeblock begins that ends at an offset.
pub(crate) fn block_before(view: &PageView<'_>, end: u32) -> Option<u32> {
    for block in view.freeblocks() {
        if block.offset.saturating_add(block.size) == end {
            return Some(block.offset);
        }
    }
    None
}

// Whether such a run is beside free bytes: those before the content area, or a freeblock. SQLite leaves fragments there seldom, so the area may
// begin with the next cell, or the freeblock be longer.
pub(crate) fn is_beside_free<A: Allocator>(paper: &Paper<A>, view: &PageView<'_>) -> bool {
    let mut is_found = false;
    each_gap(paper, view, |gap| {
        if gap.len > 0 && (gap.at == paper.start() || block_before(view, gap.at).is_some()) {
            is_found = true;
        }
    });
    is_found
}

// The first run of four bytes or more, from an offset on, that no cell and none of the first freeblocks holds.
pub(crate) fn first_gap<A: Allocator>(
    paper: &Paper<A>,
    view: &PageView<'_>,
    blocks: u32,
    from: u32,
) -> Option<Gap> {
    let mut begun = [0u16; 65537];
    add_items(&mut begun, view, NO_CELL, blocks);
    let mut first = None;
    each_run(&begun, paper.start(), paper.usable(), |run| {
        let rest = run.from(from);
        if first.is_none() && rest.len >= 4 {
            first = Some(rest);
        }
    });
    first
}

// The first cell from an offset on.
pub(crate) fn cell_after(view: &PageView<'_>, from: u32) -> Option<u32> {
    let mut next = None;
    let mut least = u32::MAX;
    for i in 0..view.cells() {
        if let Ok(cell) = view.cell(i)
            && cell.offset >= from
            && cell.offset < least
        {
            least = cell.offset;
            next = Some(i);
        }
    }
    next
}
