// Freeblocks (Database File Format, 1.6).
ghost use Rattle.std.specs.Prelude.{◌≡◌, ◌+◌, ◌-◌, ◌≤◌, true, false, slice_index_or, MatchOption, IfSome};
ghost use Rattle.std.specs.Iterator.{item_count};
ghost use Rattle.dbpage.specs.Freeblocks.{Walks};
ghost use Rattle.dbformat.specs.Coverage.{items, freeblocks, freeblock_at, is_good_freeblock, bad_freeblock, unused};

use crate::view::{PageView, first_freeblock};
use dbformat::u16_at;
use std::marker::Model;

/// A good freeblock of a page.
#[derive(Clone, Copy)]
pub struct Freeblock {
    /// Where it begins, in bytes from the start of the page.
    pub offset: u32,
    /// Its size in bytes, 4 at least.
    pub size: u32,
}

impl Model for Freeblock {
    ghost use Rattle.dbformat.specs.Coverage.{Span};

    ghost Value = { Span };

    ghost view = { λ f. record { offset = f.offset; len = f.size } };

    ghost inverse = { λ s. record { offset = s.offset; size = s.len } };
}

/// The good freeblocks of a page, in the order of their list. The list ends at the first that is not good, so it ends
/// on every page.
#[derive(Drop)]
pub struct Freeblocks<'v, 'a> {
    page: &'v PageView<'a>,
    // How many were given.
    number: u32,
    // Where the last of them ended.
    end: u32,
    // Where the next is, or 0.
    offset: u32,
}

impl<'v, 'a> Model for Freeblocks<'v, 'a> {
    ghost use Rattle.dbpage.specs.Freeblocks.{Left};

    ghost Value = { Left };

    ghost use Rattle.dbformat.specs.Coverage.{freeblocks_from};
    ghost use Rattle.dbpage.specs.Freeblocks.{HasPassed};

    ghost view = { λ f. record { page = f.page.now; left = freeblocks_from f.page.now.usable f.page.now f.end f.offset } };

    ghost invariant = { λ f. HasPassed f.page.now f.number f.end f.offset };
}

impl<'v, 'a> Iterator for Freeblocks<'v, 'a> {
    type Item = Freeblock;

    ghost next_gives = { Walks };

    ghost remaining = { item_count (λ f. f.left) };

    fn next(&mut self) -> Option<Freeblock> {
        let page = self.page;
        let freeblock = page.good_freeblock(self.end, self.offset)?;
        self.offset = u32::from(u16_at(page.bytes, freeblock.offset));
        self.end = freeblock.offset + freeblock.size;
        self.number += 1;
        Some(freeblock)
    }
}

impl<'v, 'a> Freeblocks<'v, 'a> {
    /// The number and the offset in bytes of the first freeblock that is not good, or `None` where all are. Numbers
    /// begin at 0. It may be called before the end of the iterator.
    pub fn bad(&self) -> Option<(u32, u32)>
        ensures { result ≡ bad_freeblock self.now.page }
    {
        let mut rest = Freeblocks {
            page: self.page,
            number: self.number,
            end: self.end,
            offset: self.offset,
        };
        while let Some(_) = rest.next() {}
        if rest.offset == 0 {
            None
        } else {
            Some((rest.number, rest.offset))
        }
    }
}

impl<'a> PageView<'a> {
    /// The good freeblocks.
    pub fn freeblocks(&self) -> Freeblocks<'_, 'a>
        ensures page { result.page ≡ self.now }
        ensures all { result.left ≡ freeblocks self.now }
    {
        Freeblocks {
            page: self,
            number: 0,
            end: 0,
            offset: u32::from(first_freeblock(self.bytes, self.number)),
        }
    }

    /// Where item `item` of the coverage begins, in bytes from the start of the page, or 0 where there is none. Cells
    /// are the first items, readable or not, and the good freeblocks follow.
    pub fn item_offset(&self, item: u32) -> u32
        ensures { result ≡ (slice_index_or (items self.now) item (record { offset = 0; len = 0 })).offset }
    {
        if item < self.cells {
            return self.pointer(item);
        }
        let number = item - self.cells;
        let mut left = number;
        for freeblock in self.freeblocks() {
            if left == 0 {
                return freeblock.offset;
            }
            left -= 1;
        }
        0
    }

    /// How many bytes are free: between the cell pointers and the content area, in good freeblocks and in fragments.
    pub fn unused(&self) -> u32
        ensures { result ≡ unused self.now }
    {
        let gap = self.start - (self.pointers + 2 * self.cells);
        let mut total = gap + u32::from(self.fragments());
        for freeblock in self.freeblocks() {
            total += freeblock.size;
        }
        total
    }

    // The freeblock at `offset`, if it is good after one that ended at `end`.
    #[inline(always)]
    fn good_freeblock(&self, end: u32, offset: u32) -> Option<Freeblock>
        ensures good { MatchOption result (is_good_freeblock self.now end offset ≡ false)
            (λ f. (is_good_freeblock self.now end offset ≡ true) × (f ≡ freeblock_at self.now offset)) }
        ensures inside { IfSome result (λ f. f.offset + f.len ≤ 65536) }
    {
        if offset < self.start || offset > self.usable - 4 || offset < end {
            return None;
        }
        let size = u32::from(u16_at(self.bytes, offset + 2));
        if size < 4 || offset + size > self.usable {
            return None;
        }
        Some(Freeblock { offset, size })
    }
}
