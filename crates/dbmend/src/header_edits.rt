// What may have been in the header, by its faults (Database File Format, 1.3).
use crate::fit::{Around, fit_of};
use crate::lost::{Kind, Lost};
use crate::ranked::{Ranked, add_try};
use crate::refused::{PAGE_SIZE, RESERVED, SIZES};
use dbformat::{FREELIST_START, Fault, FaultCode};
use dbscan::Desk;
use std::alloc::Allocator;

// Where the numbers of the header are.
const PAGES: u64 = 28;

pub(crate) const FIRST_TRUNK: u64 = 32;

pub(crate) const FREE_PAGES: u64 = 36;

const SCHEMA_FORMAT: u64 = 44;

const GREATEST_ROOT: u64 = 52;

const ENCODING: u64 = 56;

const INCREMENTAL: u64 = 64;

const RESERVED_END: u32 = 92;

// The points of a number with one right value, or a few.
const SURE: u32 = 40;

// Adds a number of four bytes.
fn add_number(tries: &mut Ranked, offset: u64, number: u32) {
    add_try(tries, offset, &number.to_be_bytes(), SURE);
}

// Adds each of some numbers.
fn add_numbers(tries: &mut Ranked, offset: u64, numbers: &[u32]) {
    for number in numbers {
        add_number(tries, offset, *number);
    }
}

// The number of pages that the file has room for.
fn whole_pages<A: Allocator>(desk: &Desk<A>) -> u32 {
    let size = u64::from(desk.geometry().page_size);
    if size == 0 {
        return 0;
    }
    u32::try_from(desk.header().file_len() / size).unwrap_or(0)
}

// The greatest root page that the schema names.
fn greatest_root<A: Allocator>(desk: &Desk<A>) -> u32 {
    let mut greatest = 1;
    for index in 0..desk.roots().len() {
        greatest = desk.roots().root_page(index + 1).max(greatest);
    }
    greatest
}

// The fraction that belongs at an offset.
fn fraction(offset: u32) -> u8 {
    if offset == 21 { 64 } else { 32 }
}

// Adds the other one of the two version numbers, and both that there are.
fn add_versions<A: Allocator>(tries: &mut Ranked, desk: &Desk<A>, offset: u32) {
    let other = if offset == 18 { 19 } else { 18 };
    if let Some(version) = desk.header().bytes().get(other) {
        add_try(tries, u64::from(offset), &[*version], SURE);
    }
    add_try(tries, u64::from(offset), &[1], SURE);
    add_try(tries, u64::from(offset), &[2], SURE);
}

// Adds zeros for reserved bytes, eight at most.
fn add_zeros(tries: &mut Ranked, offset: u32) {
    let zeros = [0u8; 8];
    let count = RESERVED_END.saturating_sub(offset).min(8) as usize;
    if count > 0 {
        add_try(tries, u64::from(offset), &zeros[..count], SURE);
    }
}

// Adds what the first trunk may have been.
fn add_first_trunk<A: Allocator>(tries: &mut Ranked, lost: &Lost<A>) {
    let around = Around::beside(Kind::Other, 0);
    for root in lost.roots() {
        tries.add(FIRST_TRUNK, &root.page.to_be_bytes(), fit_of(&around, root));
    }
    add_try(tries, FIRST_TRUNK, &[0, 0, 0, 0], 1);
}

// Adds the size of the file, if it has a page that it does not state.
fn add_size<A: Allocator>(tries: &mut Ranked, desk: &Desk<A>, page: i64) {
    let whole = whole_pages(desk);
    if page > i64::from(desk.geometry().pages) && page <= i64::from(whole) {
        add_number(tries, PAGES, whole);
    }
}

// Adds that no bytes are reserved at the end of each page, if some are.
fn add_reserved<A: Allocator>(tries: &mut Ranked, desk: &Desk<A>) {
    let geometry = desk.geometry();
    if geometry.usable < geometry.page_size {
        add_try(tries, RESERVED, &[0], 30);
    }
}

// Adds that the bytes that are in no cell at the end of each page are reserved.
fn add_more_reserved<A: Allocator>(tries: &mut Ranked, desk: &Desk<A>, value: u32) {
    let geometry = desk.geometry();
    let reserved = geometry.page_size.saturating_sub(geometry.usable);
    if let Ok(stored) = u8::try_from(reserved.saturating_add(value)) {
        add_try(tries, RESERVED, &[stored], 24);
    }
}

// Adds the greatest root page, if there is no pointer map, and a lost page looks like the first one of it.
pub(crate) fn add_map<A: Allocator>(tries: &mut Ranked, desk: &Desk<A>, lost: &Lost<A>) {
    if !desk.geometry().has_map && lost.has_map() {
        add_number(tries, GREATEST_ROOT, greatest_root(desk));
    }
}

// Adds that there is no pointer map, if a page has the place of one that something refers to.
fn add_unmapped<A: Allocator>(tries: &mut Ranked, desk: &Desk<A>, code: FaultCode) {
    if matches!(code, FaultCode::R02) && desk.geometry().has_map {
        add_number(tries, GREATEST_ROOT, 0);
    }
}

// Adds the page size with which the file is as long as it states, if it is not so with its own.
pub(crate) fn add_page_size<A: Allocator>(tries: &mut Ranked, desk: &Desk<A>) {
    let stated = u64::from(desk.header().stated_pages());
    let len = desk.header().file_len();
    if stated * u64::from(desk.geometry().page_size) == len {
        return;
    }
    for size in SIZES {
        let bytes = if size == 1 { 65536 } else { u64::from(size) };
        if stated * bytes == len {
            add_try(tries, PAGE_SIZE, &size.to_be_bytes(), SURE);
        }
    }
}

// Adds what may have been in the header, by a fault.
pub(crate) fn add_header<A: Allocator>(
    tries: &mut Ranked,
    desk: &Desk<A>,
    lost: &Lost<A>,
    fault: &Fault,
) {
    let value = u32::try_from(fault.value).unwrap_or(0);
    match fault.code {
        FaultCode::H01 => add_versions(tries, desk, fault.item),
        FaultCode::H02 => add_try(tries, u64::from(fault.item), &[fraction(fault.item)], SURE),
        FaultCode::H03 => add_numbers(tries, SCHEMA_FORMAT, &[4, 1, 2, 3]),
        FaultCode::H04 => add_numbers(tries, ENCODING, &[1, 2, 3]),
        FaultCode::H05 => add_zeros(tries, fault.item),
        FaultCode::H06 => add_number(tries, PAGES, whole_pages(desk)),
        FaultCode::H07 => {
            add_number(tries, INCREMENTAL, 0);
            add_number(tries, GREATEST_ROOT, greatest_root(desk));
        }
        FaultCode::H08 => {
            add_numbers(tries, SCHEMA_FORMAT, &[4, 1]);
            add_numbers(tries, ENCODING, &[1, 2, 3]);
        }
        FaultCode::H09 => add_numbers(tries, GREATEST_ROOT, &[value, 0]),
        FaultCode::H10 => {
            add_number(tries, FREE_PAGES, value);
            add_first_trunk(tries, lost);
        }
        FaultCode::R01 | FaultCode::R02 | FaultCode::R03 => {
            if fault.page == 0 && fault.item == FREELIST_START {
                add_first_trunk(tries, lost);
            }
            add_unmapped(tries, desk, fault.code);
            add_size(tries, desk, fault.value);
        }
        FaultCode::P03 | FaultCode::P05 | FaultCode::P06 | FaultCode::P07 | FaultCode::P08 => {
            add_reserved(tries, desk);
        }
        FaultCode::P09 => add_more_reserved(tries, desk, value),
        FaultCode::S03 => add_numbers(tries, ENCODING, &[1, 2, 3]),
        _ => {}
    }
}
