// A bit for each page.
ghost use Rattle.std.specs.Prelude.{◌≡◌, ℕ, false, IfOk};
ghost use Rattle.dbinjuries.specs.Bits.{bit_set, has_bit, HasPageBit};

use dbsource::NoMemory;
use dbsource::memory::filled;
use std::alloc::{Allocator, Global};
use std::marker::Model;

/// A bit for each page of a file.
#[derive(Drop)]
pub struct PageBits<A: Allocator = Global> {
    words: Vec<u64, A>,
}

impl<A: Allocator> Model for PageBits<A> {
    ghost use Rattle.std.specs.Prelude.{ℕ, List};

    ghost Value = { List ℕ };

    ghost view = { λ bits. bits.words.items };
}

impl<A: Allocator + Copy> PageBits<A> {
    /// A bit for each of this many pages, none of them set: one growth from any allocator. After that it takes no memory.
    ///
    /// # Errors
    ///
    /// [`NoMemory`] where the growth was refused.
    pub fn new_in(alloc: A, pages: u32) -> Result<PageBits<A>, NoMemory>
        ensures room { IfOk result (λ bits. HasPageBit bits pages) }
        ensures none { IfOk result (λ bits. (page : ℕ) → has_bit bits page ≡ false) }
    {
        let words = filled(alloc, 0u64, pages as usize / 64 + 1)?;
        Ok(PageBits { words })
    }
}

impl<A: Allocator> PageBits<A> {
    /// Sets the bit of a page, if it has one.
    pub fn set(&mut self, page: u32)
        ensures { self.new ≡ bit_set page self.old }
    {
        let word = page as usize / 64;
        if word < self.words.len() {
            self.words[word] |= 1u64 << (page % 64);
        }
    }

    /// Whether a page has a bit, and it is set.
    pub fn has(&self, page: u32) -> bool
        ensures { result ≡ has_bit self.now page }
    {
        match self.words.get(page as usize / 64) {
            Some(word) => (*word >> (page % 64)) & 1 == 1,
            None => false,
        }
    }
}
