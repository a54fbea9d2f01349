// The tree that each page belongs to.
ghost use Rattle.std.specs.Prelude.{◌≡◌, ◌+◌, ℕ, List, IfOk, length, slice_get};
ghost use Rattle.dbformat.specs.FixedPages.{IsInRange};
ghost use Rattle.dbformat.specs.Reference.{Reference};
ghost use Rattle.dbformat.specs.Starts.{start_at};
ghost use Rattle.dbformat.specs.Survey.{Survey};
ghost use Rattle.dbmarks.specs.Marking.{AreMarksOf};
ghost use Rattle.dbscan.specs.Trees.{AreTrees, row_noted, start_by};
ghost use Rattle.dbwalk.specs.Rows.{row_of};

use crate::place::mark_of;
use dbformat::{FREELIST_START, Geometry};
use dbsource::NoMemory;
use dbsource::memory::filled;
use dbwalk::{Mark, Marks, Row};
use std::alloc::{Allocator, Global};
use std::marker::Model;

/// Keeps four bytes for each page: for a page of a tree or an overflow chain the start of its tree, noted as rows are received.
#[derive(Drop)]
pub struct PageTrees<A: Allocator = Global> {
    // By the number of the page: there is one of page 0 too.
    starts: Vec<u32, A>,
}

impl<A: Allocator> Model for PageTrees<A> {
    ghost use Rattle.dbscan.specs.Trees.{Trees};

    ghost Value = { Trees };

    ghost use Rattle.dbscan.specs.Trees.{trees};

    ghost view = { trees };
}

impl<A: Allocator> PageTrees<A> {
    /// A table in which nothing is noted yet of the pages of a file. It takes one growth, from any allocator.
    ///
    /// # Errors
    ///
    /// [`NoMemory`] where the growth was refused.
    pub fn new_in(alloc: A, geometry: &Geometry) -> Result<PageTrees<A>, NoMemory>
        requires { IsInRange geometry.now }
        ensures { IfOk result (λ trees. length trees.known ≡ geometry.now.pages + 1) }
    {
        let starts = filled(alloc, 0u32, geometry.pages as usize + 1)?;
        Ok(PageTrees { starts })
    }

    /// Notes the start of a row of its page.
    pub fn note(&mut self, row: &Row<'_>)
        ensures { self.new.known ≡ row_noted self.old.known (row_of row.now) }
    {
        let page = row.page as usize;
        if page < self.starts.len() {
            self.starts[page] = row.start;
        }
    }

    /// The start of the tree that a page belongs to, or the freelist's: 0 is the schema, 1 to 65536 are the rows of the list of roots, and
    /// 65537 is the freelist. `None` for a page that belongs to no start, and for a number that no page has.
    pub fn start_of<B: Allocator>(&self, marks: &Marks<B>, page: u32) -> Option<u32>
        // Where all rows of a file were received, and the marks are those of its visits.
        ensures { (file : List ℕ) (V : List Reference) → Survey file V → AreMarksOf file V marks.now → AreTrees V self.now.known
            → result ≡ start_at V page }
    {
        self.by_mark(mark_of(marks, page), page)
    }

    // The start of a page with this mark.
    fn by_mark(&self, mark: Option<Mark>, page: u32) -> Option<u32>
        ensures { result ≡ start_by mark (slice_get self.now.known page) }
    {
        match mark? {
            Mark::Unmarked | Mark::Fixed => None,
            Mark::Trunk | Mark::FreeLeaf => Some(FREELIST_START),
            _ => self.starts.get(page as usize).copied(),
        }
    }
}
