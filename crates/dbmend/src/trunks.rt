// What may have been in a trunk of the freelist (Database File Format, 1.5).
use crate::fit::Around;
use crate::lost::{Kind, Lost, leaf_at};
use crate::numbers::add_at;
use crate::places::Place;
use crate::ranked::Ranked;
use crate::reading::Paper;
use dbscan::{Desk, Mark};
use std::alloc::Allocator;

// Where a trunk states how many leaves it has.
const LEAVES: u32 = 4;

// How many leaves a trunk has room for.
fn room<A: Allocator>(paper: &Paper<A>) -> u32 {
    (paper.usable() / 4).saturating_sub(2)
}

// How many leaves it states, if it has room for them.
pub(crate) fn stated<A: Allocator>(paper: &Paper<A>) -> u32 {
    match paper.number_at(LEAVES) {
        Some(leaves) if leaves <= room(paper) => leaves,
        _ => 0,
    }
}

// The page of a leaf, if there is such a leaf, and it is another page.
fn other_leaf<A: Allocator>(paper: &Paper<A>, leaf: Option<u32>, page: u32) -> Option<u32> {
    let other = leaf.filter(|leaf| *leaf < stated(paper))?;
    leaf_at(paper, other).filter(|other| *other != page)
}

// A leaf of it. The pages of the leaves beside it are often near, and in order.
fn leaf_place<A: Allocator>(paper: &Paper<A>, leaf: u32) -> Option<Place> {
    let at = leaf.checked_mul(4)?.checked_add(8)?;
    let page = leaf_at(paper, leaf)?;
    let before = other_leaf(paper, leaf.checked_sub(1), page);
    let behind = other_leaf(paper, leaf.checked_add(1), page);
    let around = match (before, behind) {
        (Some(one), Some(other)) => Around::between(Kind::Free, [one.min(other), one.max(other)]),
        _ => Around::beside(Kind::Free, before.or(behind).unwrap_or(paper.page())),
    };
    Some(Place { at, around })
}

// The reference of an item: to a leaf, or to the next trunk.
pub(crate) fn trunk_place<A: Allocator>(paper: &Paper<A>, item: u32) -> Option<Place> {
    if item < stated(paper) {
        leaf_place(paper, item)
    } else {
        Some(Place::next(paper.page()))
    }
}

// The reference to this leaf.
pub(crate) fn trunk_place_of<A: Allocator>(paper: &Paper<A>, page: u32) -> Option<Place> {
    for leaf in 0..stated(paper) {
        if leaf_at(paper, leaf) == Some(page) {
            return leaf_place(paper, leaf);
        }
    }
    None
}

// Whether a page may be the leaf of a trunk: it is one, or lost.
fn may_be_leaf<A: Allocator>(desk: &Desk<A>, page: u32) -> bool {
    page > 0
        && page <= desk.marks().pages()
        && matches!(desk.marks().get(page), Mark::FreeLeaf | Mark::Unmarked)
}

// Adds a count of leaves: those of its first numbers that may all be leaves, up to `most`.
pub(crate) fn add_leaves<A: Allocator>(
    tries: &mut Ranked,
    desk: &Desk<A>,
    paper: &Paper<A>,
    most: u32,
) {
    let mut count = 0;
    for leaf in 0..room(paper).min(most) {
        match leaf_at(paper, leaf) {
            Some(page) if may_be_leaf(desk, page) => count = leaf.saturating_add(1),
            _ => break,
        }
    }
    if paper.number_at(LEAVES) == Some(count) {
        return;
    }
    add_at(tries, paper, LEAVES, &count.to_be_bytes(), 34);
}

// Adds the lost pages that may be the next trunk: where there is none, and those that lead to the one that is named.
pub(crate) fn add_next<A: Allocator>(tries: &mut Ranked, lost: &Lost<A>, paper: &Paper<A>) {
    let next = paper.number_at(0).unwrap_or(0);
    for root in lost.roots() {
        if next == 0 || root.next == next {
            add_at(tries, paper, 0, &root.page.to_be_bytes(), 14);
        }
    }
}

// Adds the count of leaves that a trunk states, plus `missing`. (SQLite leaves old numbers after the last leaf, and they look like leaves.)
pub(crate) fn add_more<A: Allocator>(tries: &mut Ranked, paper: &Paper<A>, missing: i64) {
    let count = i64::from(stated(paper)).saturating_add(missing);
    if let Ok(count) = u32::try_from(count)
        && count <= room(paper)
    {
        add_at(tries, paper, LEAVES, &count.to_be_bytes(), 36);
    }
}
