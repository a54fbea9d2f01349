// The pages that may have a wrong number, by the faults that were noted.
use crate::counter::Noted;
use crate::fit::Root;
use crate::header_edits::{FIRST_TRUNK, FREE_PAGES};
use arrayvec::ArrayVec;
use dbformat::{FREELIST_START, Fault, FaultCode, u32_at};
use dbscan::{Desk, Mark};
use std::alloc::Allocator;

// Which number of a page may be wrong.
#[derive(Clone, Copy, PartialEq, Eq)]
pub(crate) enum Number {
    // The reference of this item that names this page.
    Reference(u32, u32),
    // Any reference that names this page.
    Any(u32),
    // The type of the page.
    Type,
    // Whether the page is a leaf, where it is of the right kind of tree.
    Leaf,
    // Where its content area begins.
    Start,
    // How many fragmented bytes it has, and how many there are.
    Fragments(i64),
    // How many cells it has.
    Cells,
    // The pointer of this cell, or of those that overlap this item.
    Pointer(u32),
    // The size of the freeblock of this number, or the link to it, and where that leads.
    Block(u32, u32),
    // The lengths of payloads of a page.
    Lengths,
    // How many leaves a trunk has: this many at most.
    Leaves(u32),
    // How many leaves a trunk has: as many as it states, plus this number of pages.
    More(i64),
    // The trunk after a trunk, if pages are missing from the freelist.
    NextTrunk,
    // The page after the last overflow page, which is 0.
    End,
    // The root page in the row of the schema at this cell.
    Row(u32),
    // The root page in each row of the schema that names this page.
    Root(u32),
    // The reference that names the first of these pages, where it may have named the second, which leads to it.
    Before(u32, u32),
}

// A page, and which of its numbers may be wrong.
#[derive(Clone, Copy, PartialEq, Eq)]
pub(crate) struct Want {
    pub(crate) page: u32,
    pub(crate) number: Number,
}

// What is in an unused place of a list.
impl Default for Want {
    fn default() -> Want {
        Want {
            page: 1,
            number: Number::Any(0),
        }
    }
}

pub(crate) type Wanted = ArrayVec<Want, 96>;

// Adds one, where there is room, and it is not there yet.
fn add_want(wanted: &mut Wanted, page: u32, number: Number) {
    let want = Want { page, number };
    if !wanted.as_slice().iter().any(|other| *other == want) {
        let _ = wanted.try_push(want);
    }
}

// The mark of a page in use, if it is a page.
pub(crate) fn mark<A: Allocator>(desk: &Desk<A>, page: u32) -> Mark {
    if page == 0 || page > desk.marks().pages() {
        return Mark::Unmarked;
    }
    desk.marks().get(page)
}

// Adds what refers to this page: another page, or a row of the schema.
fn want_owner<A: Allocator>(desk: &Desk<A>, page: u32, wanted: &mut Wanted) {
    match mark(desk, page) {
        Mark::Child(from) | Mark::FirstOverflow(from) | Mark::LaterOverflow(from) => {
            add_want(wanted, from, Number::Any(page));
        }
        Mark::Root => add_want(wanted, 1, Number::Root(page)),
        _ => {}
    }
}

// Adds the reference to the page to which a lost one leads: the lost one may be missing before it.
fn want_before<A: Allocator>(desk: &Desk<A>, lost: &Root, wanted: &mut Wanted) {
    match mark(desk, lost.next) {
        Mark::Child(from) | Mark::FirstOverflow(from) | Mark::LaterOverflow(from) => {
            add_want(wanted, from, Number::Before(lost.next, lost.page));
        }
        _ => {}
    }
}

// A number of four bytes of the header.
fn header_number<A: Allocator>(desk: &Desk<A>, at: u64) -> u32 {
    let header = desk.header().bytes();
    if header.len() < 100 || at > 96 {
        return 0;
    }
    u32_at(header, at as u32)
}

// How many free pages the header states beyond those that were reached, by H10.
fn missing<A: Allocator>(desk: &Desk<A>, faults: &[Noted]) -> i64 {
    let stated = i64::from(header_number(desk, FREE_PAGES));
    for noted in faults {
        if let FaultCode::H10 = noted.fault.code {
            return stated.saturating_sub(noted.fault.value);
        }
    }
    0
}

// How many trunks are looked at, if pages are missing.
const MOST_TRUNKS: u32 = 16;

// Adds the numbers of a page, if it is a trunk.
fn want_trunk<A: Allocator>(desk: &Desk<A>, page: u32, missing: i64, wanted: &mut Wanted) -> bool {
    let is_trunk = matches!(mark(desk, page), Mark::Trunk);
    if is_trunk {
        add_want(wanted, page, Number::Leaves(u32::MAX));
        add_want(wanted, page, Number::More(missing));
        add_want(wanted, page, Number::NextTrunk);
    }
    is_trunk
}

// Adds the numbers of some trunks, if pages are missing from the freelist, or are too many. The first of the list goes first: SQLite fills
// each one before it makes the next.
fn want_trunks<A: Allocator>(desk: &Desk<A>, missing: i64, wanted: &mut Wanted) {
    if missing == 0 {
        return;
    }
    want_trunk(desk, header_number(desk, FIRST_TRUNK), missing, wanted);
    let mut left = MOST_TRUNKS;
    for index in 0..desk.marks().pages() {
        if left == 0 {
            return;
        }
        if want_trunk(desk, index + 1, missing, wanted) {
            left -= 1;
        }
    }
}

// The page that a fault says to be wrongly named, if it is one.
pub(crate) fn named(fault: &Fault) -> u32 {
    u32::try_from(fault.value).unwrap_or(0)
}

// Adds the count of leaves of a trunk, of which a fault names a leaf, if it is the first such fault.
fn want_leaves(fault: &Fault, wanted: &mut Wanted) {
    let is_there = |want: &Want| want.page == fault.page
        && matches!(want.number, Number::Leaves(_));
    if !wanted.as_slice().iter().any(is_there) {
        add_want(wanted, fault.page, Number::Leaves(fault.item));
    }
}

// The page of the row that has an overflow page, or another page itself.
fn page_of_row<A: Allocator>(desk: &Desk<A>, page: u32) -> u32 {
    let mut at = page;
    for _ in 0..desk.marks().pages() {
        match mark(desk, at) {
            Mark::FirstOverflow(from) => return from,
            Mark::LaterOverflow(from) => at = from,
            _ => return at,
        }
    }
    at
}

// What may be wrong by a fault of a reference.
fn add_reference<A: Allocator>(desk: &Desk<A>, fault: &Fault, wanted: &mut Wanted) {
    if fault.page == 0 {
        if fault.item < FREELIST_START {
            add_want(wanted, 1, Number::Root(named(fault)));
        }
    } else {
        let number = Number::Reference(fault.item, named(fault));
        add_want(wanted, fault.page, number);
        add_want(wanted, page_of_row(desk, fault.page), Number::Lengths);
    }
    if let Mark::Trunk = mark(desk, fault.page) {
        add_want(wanted, fault.page, Number::Any(named(fault)));
        want_leaves(fault, wanted);
    }
    if let FaultCode::R03 = fault.code {
        want_owner(desk, named(fault), wanted);
    }
}

// Adds the numbers of the head of a page. Page 1 and a child have no P02, so they are of the right kind of tree.
fn want_head<A: Allocator>(desk: &Desk<A>, page: u32, wanted: &mut Wanted) {
    add_want(wanted, page, Number::Cells);
    add_want(wanted, page, Number::Start);
    let kind = match mark(desk, page) {
        Mark::Child(_) => Number::Leaf,
        _ if page == 1 => Number::Leaf,
        _ => Number::Type,
    };
    add_want(wanted, page, kind);
}

// What may be wrong by a key out of order: a pointer of its page, or of that of the greater key, or how one of these was reached.
fn add_keys<A: Allocator>(desk: &Desk<A>, noted: &Noted, wanted: &mut Wanted) {
    add_want(wanted, noted.fault.page, Number::Pointer(noted.fault.item));
    if noted.key_page > 0 {
        add_want(wanted, noted.key_page, Number::Pointer(noted.key_item));
        want_owner(desk, noted.key_page, wanted);
    }
}

// What may be wrong by a fault.
fn add_wanted<A: Allocator>(desk: &Desk<A>, noted: &Noted, wanted: &mut Wanted) {
    let fault = &noted.fault;
    let page = fault.page;
    match fault.code {
        FaultCode::R01 | FaultCode::R02 | FaultCode::R03 | FaultCode::T04 => {
            add_reference(desk, fault, wanted);
            return;
        }
        FaultCode::P01 | FaultCode::P02 => add_want(wanted, page, Number::Type),
        FaultCode::P03 => want_head(desk, page, wanted),
        FaultCode::P05 | FaultCode::P06 | FaultCode::P08 => {
            add_want(wanted, page, Number::Lengths);
            add_want(wanted, page, Number::Pointer(fault.item));
            want_head(desk, page, wanted);
        }
        FaultCode::P07 => add_want(wanted, page, Number::Block(fault.item, named(fault))),
        FaultCode::P09 => {
            add_want(wanted, page, Number::Lengths);
            add_want(wanted, page, Number::Fragments(fault.value));
            want_head(desk, page, wanted);
        }
        FaultCode::P10 => add_want(wanted, page, Number::Cells),
        FaultCode::T06 => add_keys(desk, noted, wanted),
        FaultCode::O01 => {
            add_want(wanted, page, Number::End);
            add_want(wanted, page_of_row(desk, page), Number::Lengths);
        }
        FaultCode::L01 => add_want(wanted, page, Number::Leaves(u32::MAX)),
        FaultCode::S03 => add_want(wanted, page, Number::Row(fault.item)),
        _ => {}
    }
    want_owner(desk, page, wanted);
}

// What may be wrong by some faults, and by some lost pages.
pub(crate) fn wanted_of<A: Allocator>(desk: &Desk<A>, faults: &[Noted], lost: &[Root]) -> Wanted {
    let mut wanted = ArrayVec::new();
    for root in lost {
        want_before(desk, root, &mut wanted);
    }
    for noted in faults {
        add_wanted(desk, noted, &mut wanted);
    }
    want_trunks(desk, missing(desk, faults), &mut wanted);
    wanted
}
