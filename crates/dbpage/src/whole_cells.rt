// The commonest cells, each wholly on its page, read in the shortest way: `None` also where another way is needed.
ghost use Rattle.std.specs.Prelude.{◌≡◌, ◌+◌, ◌<◌, ◌≤◌, IfSome, IsTrue, Ok, Some, length, slice_index};
ghost use Rattle.dbformat.specs.Cell.{bytes_from, cell, cell_at, count};
ghost use Rattle.dbformat.specs.Head.{content_start};
ghost use Rattle.dbformat.specs.Varint.{signed, varint};
ghost use Rattle.dbpage.specs.Beginning.{EndsAt, IsShort};
ghost use Rattle.dbpage.specs.Five.{IsFive, value_of_five};
ghost use Rattle.dbformat.specs.declared.PageKind.TheVariants.{LeafIndex, LeafTable};

use crate::cell::{Cell, CellStart};
use crate::view::PageView;
use byteorder::{BigEndian, ByteOrder};
use dbbytes::{most_local, short_varint, varint_of_nine};
use dbformat::PayloadKind;

// Of each of five bytes, the bit that says that more follow.
const MORE_BITS: u64 = 0x80_8080_8080;

// What these bits are in a number of five bytes.
const FIVE_BYTES: u64 = 0x80_8080_8000;

// The bytes of the number that `bytes` begin with, if they are five, as one number.
#[inline(always)]
fn five_bytes(bytes: &[u8]) -> Option<u64>
    requires { 8 ≤ length bytes.now }
    ensures value { IfSome result (λ five. varint bytes.now ≡ Some (value_of_five five, 5)) }
    ensures five { IfSome result IsFive }
{
    let five = BigEndian::read_u64(bytes) / 16777216;
    if five & MORE_BITS != FIVE_BYTES {
        return None;
    }
    Some(five)
}

// The rowid that these five bytes spell.
#[inline(always)]
pub(crate) fn key_of_five(five: u64) -> i64
    ensures { result ≡ signed (value_of_five five) }
{
    let first = five / 4294967296 % 128 * 268435456 + five / 16777216 % 128 * 2097152;
    let value = first + five / 65536 % 128 * 16384 + five / 256 % 128 * 128 + five % 128;
    value.cast_signed()
}

impl<'a> PageView<'a> {
    // `cell` of a leaf of a table, if all of it is on the page and it ends at `end`.
    #[inline(always)]
    pub(crate) fn cell_up_to(&self, i: u32, end: u32) -> Option<Cell<'a>>
        requires within { i < count self.now }
        requires kind { self.now.kind ≡ LeafTable }
        requires far { 33 ≤ content_start self.now.number self.now.bytes }
        requires end { end ≤ self.now.usable }
        ensures { IfSome result (λ c. (cell self.now i ≡ Ok c) × EndsAt c end) }
    {
        let offset = self.pointer(i);
        // A size and a rowid of four bytes each are before the end.
        if offset < self.start || u64::from(offset) + 8 > u64::from(end) {
            return None;
        }
        self.table_leaf_cell_up_to(offset, end)
    }

    // `table_leaf_cell`, as `cell_up_to` has it.
    #[inline(always)]
    fn table_leaf_cell_up_to(&self, offset: u32, end: u32) -> Option<Cell<'a>>
        requires far { 33 ≤ offset }
        requires room { offset + 8 ≤ end }
        requires end { end ≤ self.now.usable }
        requires most { self.now.usable ≤ 65536 }
        ensures { IfSome result (λ c. (cell_at LeafTable self.now offset ≡ Some c) × EndsAt c end) }
    {
        let (size, size_len) = self.short_varint_at(offset)?;
        // Most sizes have one byte or two. With this length as a constant, less is to be kept.
        if size_len == 1 {
            return self.sized_leaf_cell_up_to(CellStart { offset, before: 1 }, size, end);
        }
        if size_len == 2 {
            return self.sized_leaf_cell_up_to(CellStart { offset, before: 2 }, size, end);
        }
        let start = CellStart {
            offset,
            before: size_len,
        };
        self.sized_leaf_cell_up_to(start, size, end)
    }

    // `table_leaf_cell_up_to` after its size, which `before` bytes give.
    #[inline(always)]
    fn sized_leaf_cell_up_to(&self, start: CellStart, size: u64, end: u32) -> Option<Cell<'a>>
        requires far { 33 ≤ start.offset }
        requires room { start.offset + 8 ≤ end }
        requires end { end ≤ self.now.usable }
        requires most { self.now.usable ≤ 65536 }
        requires some { (0 < start.before) × (start.before ≤ 4) }
        requires size { varint (bytes_from self.now start.offset) ≡ Some (size, start.before) }
        ensures { IfSome result (λ c. (cell_at LeafTable self.now start.offset ≡ Some c) × EndsAt c end) }
    {
        let offset = start.offset;
        let (rowid, rowid_len) = self.short_varint_at(offset + start.before)?;
        let before = start.before + rowid_len;
        // It begins so far from the start of the page that no payload up to the end is too long to be here.
        if size != u64::from(end - offset - before) {
            return None;
        }
        let key = Some(rowid.cast_signed());
        let whole = CellStart { offset, before };
        Some(self.whole_cell(PayloadKind::TableLeaf, whole, size as u32, None, key))
    }

    // `cell` of a leaf of a table, if all of it is on the page, its size has at most four bytes, and it does not begin right before
    // the end of the page. Rowids that come in no order are often long: so all of one is read in the caller.
    #[inline(always)]
    pub(crate) fn whole_leaf_cell(&self, i: u32) -> Option<Cell<'a>>
        requires within { i < count self.now }
        requires kind { self.now.kind ≡ LeafTable }
        ensures { IfSome result (λ c. cell self.now i ≡ Ok c) }
    {
        let offset = self.pointer(i);
        // A size of four bytes and a rowid of nine are before the end.
        if offset < self.start || offset > self.usable - 13 {
            return None;
        }
        self.whole_table_leaf_cell(offset)
    }

    // `table_leaf_cell`, as `whole_leaf_cell` has it.
    #[inline(always)]
    fn whole_table_leaf_cell(&self, offset: u32) -> Option<Cell<'a>>
        requires room { offset + 13 ≤ self.now.usable }
        requires most { self.now.usable ≤ 65536 }
        ensures { IfSome result (λ c. cell_at LeafTable self.now offset ≡ Some c) }
    {
        let (size, size_len) = self.short_varint_at(offset)?;
        let (rowid, rowid_len) = self.near_varint_at(offset + size_len);
        let before = size_len + rowid_len;
        if size > u64::from(most_local(PayloadKind::TableLeaf, self.usable)) {
            return None;
        }
        let size = size as u32;
        if offset + before + size > self.usable {
            return None;
        }
        let start = CellStart { offset, before };
        let key = Some(rowid.cast_signed());
        Some(self.whole_cell(PayloadKind::TableLeaf, start, size, None, key))
    }

    // `whole_leaf_cell` whose size has one byte or two and whose rowid has five, and these five bytes as a number, for a loop that
    // compares rowids and needs none of their values.
    #[inline(always)]
    pub(crate) fn far_leaf_cell(&self, i: u32) -> Option<(Cell<'a>, u64)>
        requires within { i < count self.now }
        requires kind { self.now.kind ≡ LeafTable }
        ensures { IfSome result (λ r. (cell self.now i ≡ Ok r.0) × (r.0.key ≡ Some (signed (value_of_five r.1))) × IsFive r.1) }
    {
        let offset = self.pointer(i);
        // A size of two bytes, the eight that are read of the rowid, and more are before the end.
        if offset < self.start || offset > self.usable - 13 {
            return None;
        }
        let (found, five) = self.far_table_leaf_cell(offset)?;
        Some((found, five))
    }

    // `table_leaf_cell`, as `far_leaf_cell` has it.
    #[inline(always)]
    fn far_table_leaf_cell(&self, offset: u32) -> Option<(Cell<'a>, u64)>
        requires room { offset + 13 ≤ self.now.usable }
        requires most { self.now.usable ≤ 65536 }
        ensures { IfSome result (λ r. (cell_at LeafTable self.now offset ≡ Some r.0) × (r.0.key ≡ Some (signed (value_of_five r.1))) × IsFive r.1) }
    {
        let (size, size_len) = self.short_varint_at(offset)?;
        // With this length as a constant, less is to be kept.
        if size_len == 1 {
            return self.sized_far_leaf_cell(CellStart { offset, before: 1 }, size);
        }
        if size_len == 2 {
            return self.sized_far_leaf_cell(CellStart { offset, before: 2 }, size);
        }
        None
    }

    // `far_table_leaf_cell` after its size, which `before` bytes give.
    #[inline(always)]
    fn sized_far_leaf_cell(&self, start: CellStart, size: u64) -> Option<(Cell<'a>, u64)>
        requires room { start.offset + 13 ≤ self.now.usable }
        requires most { self.now.usable ≤ 65536 }
        requires some { (0 < start.before) × (start.before ≤ 2) }
        requires size { varint (bytes_from self.now start.offset) ≡ Some (size, start.before) }
        ensures { IfSome result (λ r. (cell_at LeafTable self.now start.offset ≡ Some r.0) × (r.0.key ≡ Some (signed (value_of_five r.1))) × IsFive r.1) }
    {
        let offset = start.offset;
        let five = self.five_bytes_at(offset + start.before)?;
        let before = start.before + 5;
        if size > u64::from(most_local(PayloadKind::TableLeaf, self.usable)) {
            return None;
        }
        let size = size as u32;
        if offset + before + size > self.usable {
            return None;
        }
        let key = Some(key_of_five(five));
        let whole = CellStart { offset, before };
        Some((
            self.whole_cell(PayloadKind::TableLeaf, whole, size, None, key),
            five,
        ))
    }

    // The bytes of the number at `offset`, if they are five.
    #[inline(always)]
    fn five_bytes_at(&self, offset: u32) -> Option<u64>
        requires { offset + 8 ≤ self.now.usable }
        ensures value { IfSome result (λ five. varint (bytes_from self.now offset) ≡ Some (value_of_five five, 5)) }
        ensures five { IfSome result IsFive }
    {
        five_bytes(&self.bytes[offset as usize..self.usable as usize])
    }

    // `cell` of a leaf of an index, if all of it is on the page and it has 4 to 53 bytes.
    #[inline(always)]
    pub(crate) fn short_index_cell(&self, i: u32) -> Option<Cell<'a>>
        requires within { i < count self.now }
        requires kind { self.now.kind ≡ LeafIndex }
        ensures { IfSome result (λ c. (cell self.now i ≡ Ok c) × IsShort c) }
    {
        let offset = self.pointer(i);
        if offset < self.start {
            return None;
        }
        // One that begins so far before the end fits, however long it is.
        if offset > self.usable - 53 && !self.ends_short_cell(offset) {
            return None;
        }
        self.short_index_leaf_cell(offset)
    }

    // Whether a cell that begins here, with a size of one byte, ends on the page.
    #[inline(always)]
    fn ends_short_cell(&self, offset: u32) -> bool
        ensures { IsTrue result → (offset + 4 ≤ self.now.usable) × (offset + 1 + slice_index self.now.bytes offset ≤ self.now.usable) }
    {
        offset <= self.usable - 4
            && offset + 1 + u32::from(self.bytes[offset as usize]) <= self.usable
    }

    // `index_leaf_cell`, as `short_index_cell` has it.
    #[inline(always)]
    fn short_index_leaf_cell(&self, offset: u32) -> Option<Cell<'a>>
        requires room { offset + 4 ≤ self.now.usable }
        requires near { self.now.usable < offset + 53 → offset + 1 + slice_index self.now.bytes offset ≤ self.now.usable }
        requires most { self.now.usable ≤ 65536 }
        ensures { IfSome result (λ c. (cell_at LeafIndex self.now offset ≡ Some c) × IsShort c) }
    {
        // Each page has room for as much. So small a size has one byte.
        let size = u32::from(self.bytes[offset as usize]);
        if size < 3 || size > 52 {
            return None;
        }
        let start = CellStart { offset, before: 1 };
        Some(self.whole_cell(PayloadKind::Index, start, size, None, None))
    }

    // `first_varint_at`, where the number has at most four bytes.
    #[inline(always)]
    fn short_varint_at(&self, offset: u32) -> Option<(u64, u32)>
        requires { offset + 4 ≤ self.now.usable }
        ensures value { IfSome result (λ r. varint (bytes_from self.now offset) ≡ Some r) }
        ensures within { IfSome result (λ r. (0 < r.1) × (r.1 ≤ 4)) }
    {
        match short_varint(&self.bytes[offset as usize..self.usable as usize]) {
            Ok((value, len)) => Some((value, len as u32)),
            Err(_) => None,
        }
    }

    // The number at `offset` and its length, where nine bytes or more are left.
    #[inline(always)]
    fn near_varint_at(&self, offset: u32) -> (u64, u32)
        requires { offset + 9 ≤ self.now.usable }
        ensures value { varint (bytes_from self.now offset) ≡ Some result }
        ensures within { result.1 ≤ 9 }
    {
        let (value, len) = varint_of_nine(&self.bytes[offset as usize..self.usable as usize]);
        (value, len as u32)
    }
}
