// Cells (Database File Format, 1.6, "B-tree Cell Format").
ghost use Rattle.std.specs.Prelude.{◌≡◌, ◌+◌, ◌<◌, ◌≤◌, IfSome, None, Ok, Some, length};
ghost use Rattle.dbformat.specs.Cell.{bytes_from, cell, cell_at, cell_pointer, child_number, count, overflow_size, payload_cell, right_child};
ghost use Rattle.dbformat.specs.NamedPages.{named_page};
ghost use Rattle.dbformat.specs.Varint.{varint};
ghost use Rattle.dbformat.specs.Payload.{most_local};
ghost use Rattle.dbformat.specs.declared.PageKind.TheVariants.{InteriorIndex, InteriorTable, LeafIndex, LeafTable};

use crate::view::PageView;
use dbbytes::{local_len, most_local, varint, varint_of_four};
use dbformat::{CellFault, PageKind, PayloadKind, u16_at, u32_at};
use std::marker::Model;

/// A readable cell.
#[derive(Drop)]
pub struct Cell<'a> {
    /// Where it begins, in bytes from the start of the page.
    pub offset: u32,
    /// Its length in bytes. It holds 4 bytes of its page at least, though it may be shorter.
    pub len: u32,
    /// The size of its payload in bytes, here and on overflow pages: 2147483647 at most, and 0 without a payload.
    pub size: u32,
    /// The bytes of the payload that are in the cell.
    pub local: &'a [u8],
    /// The page of its left child, on an interior page.
    pub left: Option<u32>,
    /// Its rowid or key, if its page is of a table.
    pub key: Option<i64>,
    /// The first overflow page, if the payload is not wholly in the cell.
    pub overflow: Option<u32>,
}

impl<'a> Model for Cell<'a> {
    ghost use Rattle.dbformat.specs.Cell.{Cell};

    ghost Value = { Cell };

    ghost view = { λ c. record { offset = c.offset; len = c.len; size = c.size; local = c.local.now; left = c.left; key = c.key; overflow = c.overflow } };
}

// Where a cell with a payload begins, and how many of its bytes are before the payload.
#[derive(Clone, Copy)]
pub(crate) struct CellStart {
    pub(crate) offset: u32,
    pub(crate) before: u32,
}

impl<'a> Cell<'a> {
    /// How many bytes of its payload are on overflow pages.
    pub fn overflow_size(&self) -> u32
        ensures { result ≡ overflow_size self.now }
    {
        u64::from(self.size).saturating_sub(self.local.len() as u64) as u32
    }
}

impl<'a> PageView<'a> {
    /// Cell `i`. It is an error ([`CellFault::Offset`]) where its pointer leads out of the content area, and else
    /// ([`CellFault::Unreadable`]) where it does not end within the usable bytes or its payload is too long.
    // Inlined, so that only what its caller uses is read.
    #[inline(always)]
    pub fn cell(&self, i: u32) -> Result<Cell<'a>, CellFault>
        requires { i < count self.now }
        ensures { result ≡ cell self.now i }
    {
        self.read_cell(self.kind, i)
    }

    // `cell`. If the caller has the kind as a constant, no cell tests it.
    #[inline(always)]
    pub(crate) fn read_cell(&self, kind: PageKind, i: u32) -> Result<Cell<'a>, CellFault>
        requires within { i < count self.now }
        requires kind { kind ≡ self.now.kind }
        ensures { result ≡ cell self.now i }
    {
        let offset = self.pointer(i);
        if offset < self.start || offset > self.usable - 4 {
            return Err(CellFault::Offset);
        }
        self.cell_at(kind, offset).ok_or(CellFault::Unreadable)
    }

    /// The page of child `i`: left of cell `i`, if this is readable, and the right child after the last cell. `None` on
    /// a leaf.
    pub fn child(&self, i: u32) -> Option<u32>
        requires { i ≤ count self.now }
        ensures { result ≡ child_number self.now i }
    {
        if i == self.cells {
            return self.right_child();
        }
        match self.read_cell(self.kind, i) {
            Ok(cell) => cell.left,
            Err(_) => None,
        }
    }

    /// Page `i` that an interior page names, whether the cell can be read or not: left of cell `i`, if this begins in the content
    /// area, and the right child after the last cell. `None` on a leaf.
    pub fn named_page(&self, i: u32) -> Option<u32>
        requires { i ≤ count self.now }
        ensures { result ≡ named_page self.now i }
    {
        if i == self.cells {
            return self.right_child();
        }
        let at = self.pointer(i);
        if self.kind.is_interior() && at >= self.start && at <= self.usable - 4 {
            Some(u32_at(self.bytes, at))
        } else {
            None
        }
    }

    /// The pointer of cell `i`: the offset at which it should begin.
    #[inline(always)]
    #[tactic(auto, unfolding(dbformat::specs::Cell::cell_pointer))]
    pub fn pointer(&self, i: u32) -> u32
        requires { i < count self.now }
        ensures { result ≡ cell_pointer self.now i }
    {
        // Added up as a usize, so that a loop over the cells needs no second counter.
        let at = self.pointers as usize + 2 * i as usize;
        u32::from(u16::from_be_bytes([self.bytes[at], self.bytes[at + 1]]))
    }

    // The page right of all cells, on an interior page.
    #[tactic(auto, unfolding(dbformat::specs::Head::right_number))]
    fn right_child(&self) -> Option<u32>
        ensures { result ≡ right_child self.now }
    {
        if self.kind.is_interior() {
            Some(u32_at(self.bytes, self.pointers - 4))
        } else {
            None
        }
    }

    // The cell at `offset` of a page of this kind.
    #[inline(always)]
    fn cell_at(&self, kind: PageKind, offset: u32) -> Option<Cell<'a>>
        requires room { offset + 4 ≤ self.now.usable }
        requires most { self.now.usable ≤ 65536 }
        ensures { result ≡ cell_at kind self.now offset }
    {
        match kind {
            PageKind::LeafTable => self.table_leaf_cell(offset),
            PageKind::InteriorTable => self.table_interior_cell(offset),
            PageKind::LeafIndex => self.index_leaf_cell(offset),
            PageKind::InteriorIndex => self.index_interior_cell(offset),
        }
    }

    #[inline(always)]
    fn table_leaf_cell(&self, offset: u32) -> Option<Cell<'a>>
        requires room { offset + 4 ≤ self.now.usable }
        requires most { self.now.usable ≤ 65536 }
        ensures { result ≡ cell_at LeafTable self.now offset }
    {
        let (size, size_len) = self.first_varint_at(offset)?;
        let (rowid, rowid_len) = self.varint_at(offset + size_len)?;
        let before = size_len + rowid_len;
        let key = Some(rowid.cast_signed());
        self.payload_cell(
            PayloadKind::TableLeaf,
            CellStart { offset, before },
            size,
            None,
            key,
        )
    }

    #[inline(always)]
    fn table_interior_cell(&self, offset: u32) -> Option<Cell<'a>>
        requires room { offset + 4 ≤ self.now.usable }
        requires most { self.now.usable ≤ 65536 }
        ensures { result ≡ cell_at InteriorTable self.now offset }
    {
        let (key, key_len) = self.varint_at(offset + 4)?;
        Some(Cell {
            offset,
            len: 4 + key_len,
            size: 0,
            local: &[],
            left: Some(u32_at(self.bytes, offset)),
            key: Some(key.cast_signed()),
            overflow: None,
        })
    }

    #[inline(always)]
    fn index_leaf_cell(&self, offset: u32) -> Option<Cell<'a>>
        requires room { offset + 4 ≤ self.now.usable }
        requires most { self.now.usable ≤ 65536 }
        ensures { result ≡ cell_at LeafIndex self.now offset }
    {
        let (size, before) = self.first_varint_at(offset)?;
        self.payload_cell(
            PayloadKind::Index,
            CellStart { offset, before },
            size,
            None,
            None,
        )
    }

    #[inline(always)]
    fn index_interior_cell(&self, offset: u32) -> Option<Cell<'a>>
        requires room { offset + 4 ≤ self.now.usable }
        requires most { self.now.usable ≤ 65536 }
        ensures { result ≡ cell_at InteriorIndex self.now offset }
    {
        let (size, size_len) = self.varint_at(offset + 4)?;
        let left = Some(u32_at(self.bytes, offset));
        let before = 4 + size_len;
        self.payload_cell(
            PayloadKind::Index,
            CellStart { offset, before },
            size,
            left,
            None,
        )
    }

    // The number at `offset` and its length, where it ends within the usable bytes.
    #[inline(always)]
    pub(crate) fn varint_at(&self, offset: u32) -> Option<(u64, u32)>
        requires { offset ≤ self.now.usable }
        ensures value { result ≡ varint (bytes_from self.now offset) }
        ensures within { IfSome result (λ r. (r.1 ≤ 9) × (offset + r.1 ≤ self.now.usable)) }
    {
        let (value, len) = varint(&self.bytes[offset as usize..self.usable as usize])?;
        Some((value, len as u32))
    }

    // `varint_at`, where four bytes or more are left.
    #[inline(always)]
    fn first_varint_at(&self, offset: u32) -> Option<(u64, u32)>
        requires { offset + 4 ≤ self.now.usable }
        ensures value { result ≡ varint (bytes_from self.now offset) }
        ensures within { IfSome result (λ r. (r.1 ≤ 9) × (offset + r.1 ≤ self.now.usable)) }
    {
        let (value, len) = varint_of_four(&self.bytes[offset as usize..self.usable as usize])?;
        Some((value, len as u32))
    }

    // The cell that begins so, and has a payload of `size` bytes.
    #[inline(always)]
    #[tactic(auto, unfolding(dbformat::specs::Payload::local_len))]
    fn payload_cell(
        &self,
        kind: PayloadKind,
        start: CellStart,
        size: u64,
        left: Option<u32>,
        key: Option<i64>,
    ) -> Option<Cell<'a>>
        requires place { start.offset + start.before ≤ self.now.usable }
        requires most { self.now.usable ≤ 65536 }
        ensures { result ≡ payload_cell self.now kind start.offset start.before size left key }
    {
        let payload = start.offset + start.before;
        // Most payloads are wholly in their cells.
        if size <= u64::from(most_local(kind, self.usable)) {
            let size = size as u32;
            if payload + size > self.usable {
                return None;
            }
            return Some(self.whole_cell(kind, start, size, left, key));
        }
        if size > 2147483647 {
            return None;
        }
        let size = size as u32;
        let here = local_len(kind, self.usable, size);
        let end = payload + here;
        let overflow_len = if here < size { 4 } else { 0 };
        if end + overflow_len > self.usable {
            return None;
        }
        Some(Cell {
            offset: start.offset,
            len: start.before + here + overflow_len,
            size,
            local: &self.bytes[payload as usize..end as usize],
            left,
            key,
            overflow: if here < size {
                Some(u32_at(self.bytes, end))
            } else {
                None
            },
        })
    }

    // The cell that begins so, and has a payload of `size` bytes, which is wholly in it.
    #[inline(always)]
    #[tactic(auto, unfolding(dbformat::specs::Payload::local_len))]
    pub(crate) fn whole_cell(
        &self,
        kind: PayloadKind,
        start: CellStart,
        size: u32,
        left: Option<u32>,
        key: Option<i64>,
    ) -> Cell<'a>
        requires here { size ≤ most_local kind self.now.usable }
        requires place { start.offset + start.before + size ≤ self.now.usable }
        requires most { self.now.usable ≤ 65536 }
        ensures cell { payload_cell self.now kind start.offset start.before size left key ≡ Some result }
        ensures span { (result.offset ≡ start.offset) × (result.len ≡ start.before + size) }
        ensures local { (length result.local ≡ size) × (result.key ≡ key) × (result.overflow ≡ None) }
    {
        let payload = start.offset + start.before;
        Cell {
            offset: start.offset,
            len: start.before + size,
            size,
            local: &self.bytes[payload as usize..(payload + size) as usize],
            left,
            key,
            overflow: None,
        }
    }
}
