// What the numbers of a freeblock may have been: its size, and the link to it (Database File Format, 1.6).
use crate::gaps::{
    MOST_FRAGMENT, block_before, cell_after, each_gap, first_gap, longest_gaps, most_fragmented,
};
use crate::numbers::{add_short, are_cells, head};
use crate::ranked::Ranked;
use crate::reading::Paper;
use dbpage::PageView;
use std::alloc::Allocator;

// The link to a freeblock: which it is, from 0, and where the link is and the freeblock before it ends.
#[derive(Clone, Copy)]
struct Link {
    number: u32,
    place: u32,
    from: u32,
}

impl Link {
    // The one of this number, or the last.
    fn of<A: Allocator>(paper: &Paper<A>, view: &PageView<'_>, number: u32) -> Link {
        let mut link = Link {
            number: 0,
            place: head(paper) + 1,
            from: paper.start(),
        };
        for block in view.freeblocks() {
            if link.number == number {
                return link;
            }
            link = Link {
                number: link.number.saturating_add(1),
                place: block.offset,
                from: block.offset.saturating_add(block.size),
            };
        }
        link
    }
}

// Adds the sizes that a freeblock may have, where the bytes up to an offset are its own but for a fragment.
fn add_sizes<A: Allocator>(
    tries: &mut Ranked,
    paper: &Paper<A>,
    view: &PageView<'_>,
    at: u32,
    end: u32,
    points: u32,
) {
    for fragment in 0..most_fragmented(view) + 1 {
        let size = end.saturating_sub(at).saturating_sub(fragment);
        if size >= 4 {
            let points = points.saturating_sub(fragment);
            add_short(tries, paper, at.saturating_add(2), size, points);
        }
    }
}

// Adds where a freeblock may begin: with the first run of bytes that no item holds, after at most a fragment, or with the longest one, if the
// first are fragments side by side. Or there is none.
fn add_link<A: Allocator>(tries: &mut Ranked, paper: &Paper<A>, view: &PageView<'_>, link: Link) {
    if let Some(gap) = first_gap(paper, view, link.number, link.from) {
        for fragment in 0..most_fragmented(view) + 1 {
            let at = gap.at.saturating_add(fragment);
            add_short(tries, paper, link.place, at, 28 - fragment);
        }
    }
    let longest = longest_gaps(paper, view)[0];
    if longest.at >= link.from && longest.len >= 4 {
        add_short(tries, paper, link.place, longest.at, 24);
    }
    add_short(tries, paper, link.place, 0, 22);
}

// Where the bytes end that a freeblock at an offset may have: where the next cell begins, or with the usable bytes.
fn end_of<A: Allocator>(paper: &Paper<A>, view: &PageView<'_>, at: u32) -> u32 {
    match cell_after(view, at) {
        Some(cell) => view.item_offset(cell),
        None => paper.usable(),
    }
}

// Adds what the size of the freeblock of this number may have been, and the link to it, which leads to an offset.
pub(crate) fn add_block<A: Allocator>(tries: &mut Ranked, paper: &Paper<A>, number: u32, at: u32) {
    if let Some(view) = paper.view() {
        add_sizes(tries, paper, &view, at, end_of(paper, &view, at), 30);
        add_link(tries, paper, &view, Link::of(paper, &view, number));
    }
}

// The freeblock that holds the byte at an offset: its number, and where it begins.
fn block_over(view: &PageView<'_>, at: u32) -> Option<(u32, u32)> {
    let mut number = 0u32;
    for block in view.freeblocks() {
        if block.offset <= at && at < block.offset.saturating_add(block.size) {
            return Some((number, block.offset));
        }
        number = number.saturating_add(1);
    }
    None
}

// The same of the freeblock that is an item, or overlaps its first byte.
pub(crate) fn add_block_over<A: Allocator>(tries: &mut Ranked, paper: &Paper<A>, item: u32) {
    let over = match paper.view() {
        Some(view) => block_over(&view, view.item_offset(item)),
        None => None,
    };
    if let Some((number, at)) = over {
        add_block(tries, paper, number, at);
    }
}

// Adds that a freeblock has the run of bytes after it that no item holds, or that one more begins with such a run. A run of a few bytes is tried
// early, if each pointer leads to a cell: otherwise it may be the beginning of the next one.
pub(crate) fn add_longer<A: Allocator>(tries: &mut Ranked, paper: &Paper<A>) {
    let Some(view) = paper.view() else {
        return;
    };
    let has_cells = are_cells(&view);
    each_gap(paper, &view, |gap| {
        if gap.len > 0
            && let Some(block) = block_before(&view, gap.at)
        {
            let end = gap.at.saturating_add(gap.len);
            let is_near = has_cells && gap.len <= MOST_FRAGMENT;
            let points = if is_near { 38 } else { 30 };
            add_sizes(tries, paper, &view, block, end, points);
        }
    });
    add_link(tries, paper, &view, Link::of(paper, &view, u32::MAX));
}
