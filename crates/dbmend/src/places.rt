// Where a page names another one, and what may have been there.
use crate::blocks::{add_block, add_block_over, add_longer};
use crate::fit::{Around, Span, fit_of};
use crate::lengths::add_lengths;
use crate::lost::{Kind, Lost};
use crate::numbers::{add_count, add_fragments, add_leaf, add_start, add_types};
use crate::pointers::{add_gaps, add_pointer};
use crate::ranked::{Ranked, add_try};
use crate::reading::Paper;
use crate::schema_rows::{RowAt, add_root};
use crate::trunks::{add_leaves, add_more, add_next, trunk_place, trunk_place_of};
use crate::wanted::{Number, Want, mark};
use dbpage::PageView;
use dbscan::{Desk, Mark, PageKind};
use std::alloc::Allocator;

// A reference: where it is in its page, and what is around the page that it names.
#[derive(Clone, Copy)]
pub(crate) struct Place {
    pub(crate) at: u32,
    pub(crate) around: Around,
}

impl Place {
    // That of the page after an overflow page, or of the next trunk.
    pub(crate) fn next(page: u32) -> Place {
        Place {
            at: 0,
            around: Around::beside(Kind::Other, page.saturating_add(1)),
        }
    }
}

// The kind of the children of a page.
fn child_kind(view: &PageView<'_>) -> Kind {
    match view.kind() {
        PageKind::LeafTable | PageKind::InteriorTable => Kind::Table,
        PageKind::LeafIndex | PageKind::InteriorIndex => Kind::Index,
    }
}

// The page of a child, or 0.
pub(crate) fn child(view: &PageView<'_>, item: u32) -> u32 {
    if item > view.cells() {
        return 0;
    }
    view.child(item).unwrap_or(0)
}

// The reference to a child: the keys around this are those of the cells beside it.
fn child_place(view: &PageView<'_>, at: u32, item: u32) -> Place {
    let behind = child(view, item.saturating_add(1));
    let before = match item.checked_sub(1) {
        Some(before) => child(view, before),
        None => behind,
    };
    Place {
        at,
        around: Around {
            kind: child_kind(view),
            keys: Span::beside(view, item),
            own: Span::of(view),
            near: [before, if behind == 0 { before } else { behind }],
            order: None,
        },
    }
}

// The first overflow page of a cell, if no other cell is wrong that names it.
fn chain<A: Allocator>(desk: &Desk<A>, view: &PageView<'_>, number: u32, cell: u32) -> Option<u32> {
    if cell >= view.cells() {
        return None;
    }
    let page = view.cell(cell).ok()?.overflow?;
    match mark(desk, page) {
        Mark::FirstOverflow(from) if from == number => Some(page),
        _ => None,
    }
}

// The chains of the nearest rows before and after a cell, where there is such a row.
fn chains<A: Allocator>(
    desk: &Desk<A>,
    view: &PageView<'_>,
    number: u32,
    cell: u32,
) -> Option<[u32; 2]> {
    let mut around = [0, u32::MAX];
    for i in 0..view.cells() {
        match chain(desk, view, number, i) {
            Some(page) if i < cell => around[0] = page,
            Some(page) if i > cell => {
                around[1] = page;
                break;
            }
            _ => {}
        }
    }
    (around != [0, u32::MAX]).then_some(around)
}

// The reference of an item of a page of a tree, if it names this page.
fn tree_place<A: Allocator>(
    desk: &Desk<A>,
    view: &PageView<'_>,
    number: u32,
    item: u32,
    page: u32,
) -> Option<Place> {
    if item > view.cells() {
        return None;
    }
    if item == view.cells() {
        let at = if number == 1 { 108 } else { 8 };
        return (view.child(item) == Some(page)).then(|| child_place(view, at, item));
    }
    let cell = view.cell(item).ok()?;
    if cell.left == Some(page) {
        return Some(child_place(view, cell.offset, item));
    }
    if cell.overflow != Some(page) {
        return None;
    }
    let at = cell.offset.checked_add(cell.len)?.checked_sub(4)?;
    let around = match chains(desk, view, number, item) {
        Some(chains) => Around::between(Kind::Other, chains),
        None => Around::beside(Kind::Other, number),
    };
    Some(Place { at, around })
}

// Any reference of a page of a tree that names this page.
fn tree_place_of<A: Allocator>(
    desk: &Desk<A>,
    view: &PageView<'_>,
    number: u32,
    page: u32,
) -> Option<Place> {
    for item in 0..view.cells().saturating_add(1) {
        if let Some(place) = tree_place(desk, view, number, item, page) {
            return Some(place);
        }
    }
    None
}

// The place that is wanted of a page, as it is used.
fn place_of<A: Allocator>(desk: &Desk<A>, want: &Want, paper: &Paper<A>) -> Option<Place> {
    if want.page == 0 || want.page > desk.marks().pages() {
        return None;
    }
    match (desk.marks().get(want.page), want.number) {
        (Mark::Root | Mark::Child(_), Number::Reference(item, page)) => {
            tree_place(desk, &paper.view()?, want.page, item, page)
        }
        (Mark::Root | Mark::Child(_), Number::Any(page) | Number::Before(page, _)) => {
            tree_place_of(desk, &paper.view()?, want.page, page)
        }
        (Mark::FirstOverflow(_) | Mark::LaterOverflow(_), _) => Some(Place::next(want.page)),
        (Mark::Trunk, Number::Reference(item, _)) => trunk_place(paper, item),
        (Mark::Trunk, Number::Any(page)) => trunk_place_of(paper, page),
        _ => None,
    }
}

// The page that a place names, if it is in use.
fn used_page<A: Allocator>(desk: &Desk<A>, paper: &Paper<A>, place: &Place) -> Option<u32> {
    let page = paper.number_at(place.at)?;
    match mark(desk, page) {
        Mark::Unmarked | Mark::Fixed => None,
        _ => Some(page),
    }
}

// Adds what may have been at a place: the lost pages that no other one names, and the end of a list. Where the page that it names is in use
// and fits as well as a lost one, another reference to that is more likely wrong; so this one is tried later.
fn add_values<A: Allocator>(
    tries: &mut Ranked,
    desk: &Desk<A>,
    lost: &Lost<A>,
    paper: &Paper<A>,
    place: &Place,
) {
    let Some(offset) = paper.begins().checked_add(u64::from(place.at)) else {
        return;
    };
    let used = used_page(desk, paper, place);
    for root in lost.roots() {
        let fit = fit_of(&place.around, root);
        let doubt = used.map_or(0, |page| place.around.doubt(page, root.page));
        tries.add(offset, &root.page.to_be_bytes(), fit.less(doubt));
    }
    if place.at == 0 {
        add_try(tries, offset, &[0, 0, 0, 0], 1);
    }
}

// Adds a lost page at the reference to the page that it names.
fn add_before<A: Allocator>(
    tries: &mut Ranked,
    desk: &Desk<A>,
    want: &Want,
    paper: &Paper<A>,
    lost: u32,
) {
    if let Some(place) = place_of(desk, want, paper)
        && let Some(offset) = paper.begins().checked_add(u64::from(place.at))
    {
        add_try(tries, offset, &lost.to_be_bytes(), 16);
    }
}

// Adds what may have been the root page in a row of the schema.
fn add_row<A: Allocator>(tries: &mut Ranked, lost: &Lost<A>, paper: &Paper<A>, item: u32) {
    if let Some(view) = paper.view() {
        let row = RowAt {
            view: &view,
            item,
            last: 0,
        };
        add_root(tries, lost, paper, &row, true);
    }
}

// Adds what may have been at a place that is wanted of a page, around which these keys are.
pub(crate) fn add_places<A: Allocator>(
    tries: &mut Ranked,
    found: (&Desk<A>, &Lost<A>),
    want: &Want,
    outer: &Span,
    paper: &mut Paper<A>,
) {
    let (desk, lost) = found;
    match want.number {
        Number::Type => add_types(tries, paper),
        Number::Leaf => add_leaf(tries, paper),
        Number::Start => add_start(tries, paper),
        Number::Fragments(count) => {
            add_fragments(tries, paper, count);
            add_gaps(tries, paper);
            add_longer(tries, paper);
        }
        Number::Block(number, at) => add_block(tries, paper, number, at),
        Number::Cells => add_count(tries, paper),
        Number::Pointer(item) => {
            add_pointer(tries, paper, item);
            add_block_over(tries, paper, item);
        }
        Number::Lengths => add_lengths(tries, paper),
        Number::Leaves(most) => add_leaves(tries, desk, paper, most),
        Number::More(missing) => add_more(tries, paper, missing),
        Number::NextTrunk => add_next(tries, lost, paper),
        Number::End => add_try(tries, paper.begins(), &[0, 0, 0, 0], 40),
        Number::Row(item) => add_row(tries, lost, paper, item),
        Number::Root(_) => {}
        Number::Before(_, page) => add_before(tries, desk, want, paper, page),
        Number::Reference(_, _) | Number::Any(_) => {
            if let Some(place) = place_of(desk, want, paper) {
                let around = place.around.within(outer);
                add_values(tries, desk, lost, paper, &Place { around, ..place });
            }
        }
    }
}
