// The length of a payload, which its record says too (Database File Format, 1.6 and 2.1).
use crate::key::after;
use crate::numbers::add_at;
use crate::ranked::Ranked;
use crate::reading::Paper;
use arrayvec::ArrayVec;
use dbbytes::{local_len, serial_len, varint};
use dbformat::PayloadKind;
use dbpage::PageView;
use dbscan::PageKind;
use std::alloc::Allocator;

// How many bytes a length takes at most that is tried, and what it is at most.
const MOST_BYTES: usize = 3;

const MOST_LEN: u64 = 2097151;

// Of how many cells of a page the length is tried at most. If those of more are wrong, another number is.
const MOST_CUT: u32 = 8;

// How long the record is that these bytes begin with, as its header says, if that is all there. It has one column at least.
fn record_len(bytes: &[u8]) -> Option<u64> {
    let (size, first) = varint(bytes)?;
    if size < 2 {
        return None;
    }
    let mut at = first as u64;
    let mut len = size;
    for _ in 0..bytes.len() {
        if at >= size {
            break;
        }
        let (kind, more) = varint(after(bytes, at))?;
        at = at.saturating_add(more as u64);
        len = len.saturating_add(serial_len(kind)?);
    }
    (at == size).then_some(len)
}

// Whether a cell can be read, and its record is as long as the cell says. A cell of an interior page of a table has none.
pub(crate) fn is_whole(view: &PageView<'_>, cell: u32) -> bool {
    if cell >= view.cells() {
        return false;
    }
    match view.cell(cell) {
        Ok(_) if view.kind() == PageKind::InteriorTable => true,
        Ok(cell) => match record_len(cell.local) {
            Some(len) => len == u64::from(cell.size),
            None => cell.overflow.is_some(),
        },
        Err(_) => false,
    }
}

// How many cells of a page have a whole record.
pub(crate) fn whole_records(view: &PageView<'_>) -> u32 {
    let mut count = 0u32;
    for cell in 0..view.cells() {
        if is_whole(view, cell) {
            count = count.saturating_add(1);
        }
    }
    count
}

// A number as a varint, if that takes at most three bytes.
fn stored(number: u64) -> ArrayVec<u8, 3> {
    let mut bytes = ArrayVec::new();
    if number > MOST_LEN {
        return bytes;
    }
    if number >= 16384 {
        let _ = bytes.try_push(128 | (number / 16384 % 128) as u8);
    }
    if number >= 128 {
        let _ = bytes.try_push(128 | (number / 128 % 128) as u8);
    }
    let _ = bytes.try_push((number % 128) as u8);
    bytes
}

// Whether the first `count` bytes of a payload are in its cell.
#[tactic(auto, unfolding(dbformat::specs::Payload::most_payload))]
fn is_local(kind: PayloadKind, usable: u32, count: u64, len: u64) -> bool {
    if usable < 480 || usable > 65536 || len > MOST_LEN {
        return false;
    }
    count <= u64::from(local_len(kind, usable, len as u32))
}

// The length of the record after a payload length of `taken` bytes, and after the rowid if the cell has one. Its header has to be in the cell.
fn len_after(bytes: &[u8], taken: usize, kind: PayloadKind, usable: u32) -> Option<u64> {
    let rest = after(bytes, taken as u64);
    let skipped = match kind {
        PayloadKind::TableLeaf => varint(rest)?.1,
        PayloadKind::Index => 0,
    };
    let record = after(rest, skipped as u64);
    let len = record_len(record)?;
    is_local(kind, usable, varint(record)?.0, len).then_some(len)
}

// Adds the length that belongs at an offset of the page, where the record there says another one. Whether it does so.
fn add_length<A: Allocator>(
    tries: &mut Ranked,
    paper: &Paper<A>,
    at: u32,
    kind: PayloadKind,
    points: u32,
) -> bool {
    let rest = after(paper.bytes(), u64::from(at));
    let Some((stated, taken)) = varint(rest) else {
        return false;
    };
    let usable = paper.usable();
    if len_after(rest, taken, kind, usable) == Some(stated) {
        return false;
    }
    for count in 1..MOST_BYTES + 1 {
        let bytes = match len_after(rest, count, kind, usable) {
            Some(len) => stored(len),
            None => continue,
        };
        if bytes.len() == count {
            add_at(tries, paper, at, bytes.as_slice(), points);
        }
    }
    true
}

// Adds the length of each payload of the page that is another one than that of its record, of the first such cells. If it is one, it goes before
// other numbers. What is before the content area is no cell.
pub(crate) fn add_lengths<A: Allocator>(tries: &mut Ranked, paper: &Paper<A>) {
    let Some(view) = paper.view() else {
        return;
    };
    let (before, kind) = match view.kind() {
        PageKind::LeafTable => (0, PayloadKind::TableLeaf),
        PageKind::LeafIndex => (0, PayloadKind::Index),
        PageKind::InteriorIndex => (4, PayloadKind::Index),
        PageKind::InteriorTable => return,
    };
    let is_one = whole_records(&view).saturating_add(1) == view.cells();
    let points = if is_one { 40 } else { 31 };
    let mut left = MOST_CUT;
    for cell in 0..view.cells() {
        let offset = view.item_offset(cell);
        if left > 0
            && offset >= paper.start()
            && add_length(tries, paper, offset.saturating_add(before), kind, points)
        {
            left -= 1;
        }
    }
}
