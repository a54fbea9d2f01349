// Which squares and pages have a fault, and which are framed.
ghost use Rattle.std.specs.Prelude.{◌≡◌, ℕ, [], ◌∷◌, ◌++◌, List, IfOk, count_by, slice_set};
ghost use Rattle.std.specs.List.{range_with_len};
ghost use Rattle.dbinjuries.specs.Bits.{has_bit};
ghost use Rattle.dbpicture.specs.declared.faults.Sign.{Sign};
ghost use Rattle.dbpicture.specs.Keeping.{AreNoted, bits_if, noted_at, square_at};
ghost use Rattle.dbpicture.specs.Faults.{is_weak, shown, sign_added};
ghost use Rattle.dbpicture.specs.Grids.{square_of};

use crate::faults::{Sign, SquareFaults};
use crate::grid::{Grid, Outside};
use dbinjuries::PageBits;
use dbsource::NoMemory;
use dbsource::memory::filled;
use std::alloc::{Allocator, Global};

/// What is noted of faults: what each square shows of them, and of each page whether it has a fault, and whether it has the strong frame.
#[derive(Drop)]
pub(crate) struct FaultNotes<A: Allocator = Global> {
    pages: u32,
    // How many pages a square covers.
    group: u32,
    squares: Vec<SquareFaults, A>,
    faulty: PageBits<A>,
    framed: PageBits<A>,
}

impl<A: Allocator + Copy> FaultNotes<A> {
    /// Those of a file of `pages` pages without a fault, in three growths.
    ///
    /// # Errors
    ///
    /// [`NoMemory`] where a growth was refused.
    pub(crate) fn new_in(alloc: A, pages: u32) -> Result<FaultNotes<A>, NoMemory>
        ensures { IfOk result (AreNoted pages []) }
    {
        let grid = Grid::new(pages, Outside::NONE);
        let squares = filled(alloc, SquareFaults::default(), grid.squares as usize)?;
        let faulty = PageBits::new_in(alloc, pages)?;
        let framed = PageBits::new_in(alloc, pages)?;
        Ok(FaultNotes {
            pages,
            group: grid.group,
            squares,
            faulty,
            framed,
        })
    }
}

impl<A: Allocator> FaultNotes<A> {
    // The square of a page.
    fn square_of(&self, page: u32) -> usize
        ensures { result ≡ square_of self.now.group page }
    {
        (page.saturating_sub(1) / self.group.max(1)) as usize
    }

    /// Notes that a page has a sign, if there is one with this number.
    pub(crate) fn note(&mut self, page: u32, sign: Sign)
        ensures { (count : ℕ) (signs : List (ℕ × Sign)) → AreNoted count signs self.old → AreNoted count (signs ++ (page, sign) ∷ []) self.new }
    {
        if page == 0 || page > self.pages {
            return;
        }
        let square = self.square_of(page);
        add_at(&mut self.squares, square, sign);
        set_if(&mut self.faulty, page, sign.is(Sign::Faulty));
        set_if(&mut self.framed, page, sign.is(Sign::Framed));
    }

    /// What a square shows.
    pub(crate) fn of_square(&self, index: u32) -> SquareFaults
        ensures { shown result.bits ≡ noted_at self.now index }
    {
        match self.squares.get(index as usize) {
            Some(faults) => *faults,
            None => SquareFaults::default(),
        }
    }

    /// How many pages have the strong frame, and how many the weak one.
    pub(crate) fn framed(&self) -> (u32, u32)
        ensures strong { result.0 ≡ count_by (has_bit self.now.framed) (range_with_len 1 self.now.pages) }
        ensures weak { result.1 ≡ count_by (is_weak (has_bit self.now.faulty) (has_bit self.now.framed)) (range_with_len 1 self.now.pages) }
    {
        let mut strong = 0u32;
        let mut weak = 0u32;
        for index in 0..self.pages {
            let is_strong = self.framed.has(index + 1);
            let is_faulty = self.faulty.has(index + 1);
            strong += u32::from(is_strong);
            weak += u32::from(is_faulty & !is_strong);
        }
        (strong, weak)
    }
}

// Adds a sign to what a square shows, if there is one with this number.
fn add_at<A: Allocator>(squares: &mut Vec<SquareFaults, A>, index: usize, sign: Sign)
    ensures { squares.new.items ≡ slice_set squares.old.items index (sign_added sign (square_at squares.old.items index)) }
{
    if index < squares.len() {
        squares[index].add(sign);
    }
}

// Sets the bit of a page, or does not.
fn set_if<A: Allocator>(bits: &mut PageBits<A>, page: u32, is_set: bool)
    ensures { bits.new ≡ bits_if is_set page bits.old }
{
    if is_set {
        bits.set(page);
    }
}
