// The marks of all pages.
ghost use Rattle.std.specs.Prelude.{ℕ, List, ◌≡◌, ◌-◌, ◌+◌, ◌<◌, ◌≤◌, ◌^◌, [], Some, None, IfOk, length, map, slice_set};
ghost use Rattle.dbformat.specs.FixedPages.{most_pages, IsPageNumber, IsInRange};
ghost use Rattle.dbmarks.specs.Marking.{cleared, followed, mark_of, marks_of, named_page, page_mark, refusal_by, unpacked};
ghost use Rattle.dbformat.specs.declared.Geometry.{Geometry};
ghost use Rattle.dbmarks.specs.EndMarks.{MarksGiveTheEnd};
ghost use Rattle.dbmarks.specs.Reads.{ReadsEachPageOnce};

use dbformat::{FaultCode, Geometry};
use dbsource::NoMemory;
use dbsource::memory::filled;
use std::alloc::{Allocator, Global};
use std::marker::Model;

/// How a page is used, with the page that it is reached from where a pointer map would name it.
#[derive(Clone, Copy, Debug, PartialEq, Eq)]
pub enum Mark {
    /// It was not reached, and has no fixed use.
    Unmarked,
    /// It has a fixed use: the lock-byte page, or a pointer-map page.
    Fixed,
    /// The root of a tree.
    Root,
    /// A trunk of the freelist.
    Trunk,
    /// A leaf of a trunk.
    FreeLeaf,
    /// The first overflow page of a cell of this page.
    FirstOverflow(u32),
    /// The overflow page after this one.
    LaterOverflow(u32),
    /// A child of this page of a tree.
    Child(u32),
}

/// One mark a page, in four bytes each.
#[derive(Drop)]
pub struct Marks<A: Allocator = Global> {
    words: Vec<u32, A>,
}

impl<A: Allocator> Model for Marks<A> {
    ghost use Rattle.std.specs.Prelude.{List, map, vec_len, ◌≤◌};
    ghost use Rattle.dbmarks.specs.declared.marks.Mark.{Mark};

    ghost Value = { List Mark };

    ghost use Rattle.dbformat.specs.FixedPages.{most_pages};
    ghost use Rattle.dbmarks.specs.Marking.{unpacked};

    ghost view = { λ m. map unpacked m.words.items };

    ghost invariant = { λ m. vec_len m.words ≤ most_pages };
}

// A mark as it is stored.
fn pack(mark: Mark) -> u32
    requires { named_page mark < 2 ^ 29 }
    ensures { unpacked result ≡ mark }
{
    match mark {
        Mark::Unmarked => 0,
        Mark::Fixed => 1,
        Mark::Root => 2,
        Mark::Trunk => 3,
        Mark::FreeLeaf => 4,
        Mark::FirstOverflow(from) => from * 8 + 5,
        Mark::LaterOverflow(from) => from * 8 + 6,
        Mark::Child(from) => from * 8 + 7,
    }
}

// The mark that a stored word says.
#[tactic(auto, unfolding(crate::specs::Marking::unpacked))]
fn unpack(word: u32) -> Mark
    ensures { result ≡ unpacked word }
{
    let from = word / 8;
    match word % 8 {
        0 => Mark::Unmarked,
        1 => Mark::Fixed,
        2 => Mark::Root,
        3 => Mark::Trunk,
        4 => Mark::FreeLeaf,
        5 => Mark::FirstOverflow(from),
        6 => Mark::LaterOverflow(from),
        _ => Mark::Child(from),
    }
}

// The word of a page that is not visited yet.
#[tactic(auto, unfolding(crate::specs::Marking::mark_of))]
fn first_word(geometry: &Geometry, page: u32) -> u32
    requires { IsInRange geometry.now }
    ensures { unpacked result ≡ mark_of geometry.now [] page }
{
    match geometry.fixed(page) {
        Some(_) => pack(Mark::Fixed),
        None => pack(Mark::Unmarked),
    }
}

// The word of a page without its visit.
fn cleared_word(word: u32) -> u32
    ensures { unpacked result ≡ cleared (unpacked word) }
{
    match unpack(word) {
        Mark::Fixed => pack(Mark::Fixed),
        _ => pack(Mark::Unmarked),
    }
}

impl<A: Allocator> Marks<A> {
    /// The marks of a file's pages, where none is visited yet, in one growth from any allocator.
    ///
    /// # Errors
    ///
    /// [`NoMemory`] where the growth was refused.
    pub fn new_in(alloc: A, geometry: &Geometry) -> Result<Marks<A>, NoMemory>
        requires { IsInRange geometry.now }
        ensures { IfOk result (λ marks. marks ≡ marks_of geometry.now []) }
    {
        let mut words = filled(alloc, 0u32, geometry.pages as usize)?;
        for index in 0..geometry.pages {
            words[index as usize] = first_word(geometry, index + 1);
        }
        Ok(Marks { words })
    }

    /// How many pages there are.
    pub fn pages(&self) -> u32
        ensures count { result ≡ length self.now }
        ensures most { IsPageNumber result }
    {
        self.words.len() as u32
    }

    /// The mark of a page.
    pub fn get(&self, page: u32) -> Mark
        requires { (1 ≤ page) × (page ≤ length self.now) }
        ensures { page_mark self.now page ≡ Some result }
    {
        unpack(self.words[page as usize - 1])
    }

    // Gives a page a mark.
    fn put(&mut self, page: u32, mark: Mark)
        requires page { (1 ≤ page) × (page ≤ length self.old) }
        requires mark { IsPageNumber (named_page mark) }
        ensures { self.new ≡ slice_set self.old (page - 1) mark }
    {
        self.words[page as usize - 1] = pack(mark);
    }

    // Why a reference to a page may not be followed, where it may not.
    fn refusal(&self, page: u32, is_too_deep: bool) -> Option<FaultCode>
        ensures why { result ≡ refusal_by (page_mark self.now page) is_too_deep }
        ensures page { result ≡ None → (1 ≤ page) × (page ≤ most_pages) × (page ≤ length self.now) }
    {
        if page == 0 || page > self.pages() {
            return Some(FaultCode::R01);
        }
        match self.get(page) {
            Mark::Fixed => Some(FaultCode::R02),
            _ if is_too_deep => Some(FaultCode::T04),
            Mark::Unmarked => None,
            _ => Some(FaultCode::R03),
        }
    }

    /// Marks the page of a reference, where it may be followed: it is a page without a mark, and not too deep in its tree.
    /// Otherwise it answers why it may not be, and no mark changes.
    pub fn follow(&mut self, page: u32, mark: Mark, is_too_deep: bool) -> Option<FaultCode>
        requires { IsPageNumber (named_page mark) }
        ensures why { result ≡ refusal_by (page_mark self.old page) is_too_deep }
        ensures marks { self.new ≡ followed self.old page mark result }
        ensures page { result ≡ None → (1 ≤ page) × (page ≤ most_pages) }
    {
        let refusal = self.refusal(page, is_too_deep);
        if refusal.is_none() {
            self.put(page, mark);
        }
        refusal
    }

    /// Takes away all marks but those of fixed use.
    pub fn clear(&mut self)
        ensures { self.new ≡ map cleared self.old }
    {
        for index in 0..self.words.len() {
            self.words[index] = cleared_word(self.words[index]);
        }
    }
}

impl Marks {
    /// The marks of a file's pages, where none is visited yet, in one growth.
    ///
    /// # Errors
    ///
    /// [`NoMemory`] where the growth was refused.
    pub fn new(alloc: Global, geometry: &Geometry) -> Result<Marks, NoMemory>
        requires { IsInRange geometry.now }
        ensures { IfOk result (λ marks. marks ≡ marks_of geometry.now []) }
    {
        Marks::new_in(alloc, geometry)
    }
}

/// Marks alone decide what is reported at the end of a run: the faults of each page, the count of the freelist and the
/// greatest root.
pub fn marks_give_the_end()
    ensures { (file : List ℕ) → MarksGiveTheEnd file }
{}

/// What walks read, one call after another, are pages of the file, none twice, and none of fixed use.
pub fn walks_read_each_page_once()
    ensures { (g : Geometry) → ReadsEachPageOnce g }
{}
