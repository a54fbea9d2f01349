// What a page is.
ghost use Rattle.std.specs.Prelude.{◌≡◌, ℕ, List};
ghost use Rattle.dbformat.specs.Reference.{Reference};
ghost use Rattle.dbformat.specs.Survey.{Survey};
ghost use Rattle.dbmarks.specs.Marking.{AreMarksOf, page_mark};
ghost use Rattle.dbscan.specs.Owners as owners;
ghost use Rattle.dbscan.specs.Trees.{place_by};

use dbwalk::{Mark, Marks};
use std::alloc::Allocator;

/// What a page of a file is, and which page it is reached from.
#[derive(Clone, Copy)]
pub enum Place {
    /// The root of a tree.
    Root,
    /// A child of this page of a tree.
    ChildOf(u32),
    /// The first overflow page of a cell of this page.
    OverflowOf(u32),
    /// The overflow page after this one.
    OverflowAfter(u32),
    /// A trunk of the freelist.
    Trunk,
    /// A leaf of a trunk of the freelist.
    FreeLeaf,
    /// A page of fixed use: the lock-byte page, or a pointer-map page.
    Fixed,
    /// In no tree, overflow chain or freelist.
    Nowhere,
}

/// What a page is, by its mark; a number that no page has is nowhere.
pub fn place_of<A: Allocator>(marks: &Marks<A>, page: u32) -> Place
    ensures mark { result ≡ place_by (page_mark marks.now page) }
    // Where the marks are those of a survey's visits.
    ensures visit { (file : List ℕ) (V : List Reference) → Survey file V → AreMarksOf file V marks.now → result ≡ owners.place_of file V page }
{
    by_mark(mark_of(marks, page))
}

// What a page with this mark is.
fn by_mark(mark: Option<Mark>) -> Place
    ensures { result ≡ place_by mark }
{
    match mark {
        Some(Mark::Fixed) => Place::Fixed,
        Some(Mark::Root) => Place::Root,
        Some(Mark::Trunk) => Place::Trunk,
        Some(Mark::FreeLeaf) => Place::FreeLeaf,
        Some(Mark::FirstOverflow(from)) => Place::OverflowOf(from),
        Some(Mark::LaterOverflow(from)) => Place::OverflowAfter(from),
        Some(Mark::Child(from)) => Place::ChildOf(from),
        Some(Mark::Unmarked) | None => Place::Nowhere,
    }
}

/// The mark of a page, if there is such a page.
pub fn mark_of<A: Allocator>(marks: &Marks<A>, page: u32) -> Option<Mark>
    ensures { result ≡ page_mark marks.now page }
{
    if page == 0 || page > marks.pages() {
        return None;
    }
    Some(marks.get(page))
}
