// The squares of the picture, row by row.
ghost use Rattle.std.specs.Prelude.{◌≡◌, ◌+◌, ◌-◌, ◌<◌, ◌≤◌, ℕ, List};
ghost use Rattle.dbformat.specs.Reference.{Reference};
ghost use Rattle.dbformat.specs.Starts.{start_at};
ghost use Rattle.dblines.specs.Writing.{WroteOf};
ghost use Rattle.dbpicture.specs.Keeping.{AreOf, blank_by, drawn_by, HoldsTreeName, marked_place, tree_named};
ghost use Rattle.dbpicture.specs.Owners.{capped_pages, owner_by, shares_by};
ghost use Rattle.dbpicture.specs.Squares.{group_square, page_square, page_tree, row_text, rows_text};

use crate::fault_notes::FaultNotes;
use crate::grid::Grid;
use crate::group::GroupSquare;
use crate::labels::Labels;
use crate::outlines::draw_outlines;
use crate::owner_shares::{FIXED, FREELIST, NOBODY, OwnerShares, is_lighter, shown_owner};
use crate::page::PageSquare;
use crate::picture::LEFT;
use crate::pieces::{Piece, WritePieces};
use crate::tally::{COLOURED, rank_of};
use crate::tree_text::NamedTree;
use arrayvec::ArrayVec;
use dbinjuries::PageBits;
use dblines::Writer;
use dbscan::{PageTrees, Place, TreeNames, place_of, place_tree};
use dbsource::{Header, Out};
use dbwalk::Marks;
use std::alloc::Allocator;

/// How many columns of a name are shown.
pub(crate) const NAME_WIDTH: u32 = 72;

/// What the squares are made of: what each page is, which are one byte throughout, and what is noted of faults.
#[derive(Drop)]
pub(crate) struct Squares<'a, A: Allocator> {
    pub(crate) header: &'a Header,
    pub(crate) marks: &'a Marks<A>,
    pub(crate) trees: &'a PageTrees<A>,
    pub(crate) blank: &'a PageBits<A>,
    pub(crate) names: TreeNames<'a, A>,
    pub(crate) notes: &'a FaultNotes<A>,
    pub(crate) largest: ArrayVec<u32, COLOURED>,
    pub(crate) grid: Grid,
    pub(crate) labels: Labels,
}

impl<'a, A: Allocator> Squares<'a, A> {
    // The owner of a page, by what it is and the start that it belongs to.
    fn owner(&self, place: Place, start: Option<u32>) -> usize
        ensures owner { result ≡ owner_by self.now.largest.items place start }
        ensures within { result < 16 }
    {
        match place {
            Place::Fixed => FIXED,
            Place::Nowhere => NOBODY,
            Place::Trunk | Place::FreeLeaf => FREELIST,
            Place::Root | Place::ChildOf(_) | Place::OverflowOf(_) | Place::OverflowAfter(_) => {
                rank_of(self.largest.as_slice(), start)
            }
        }
    }

    // Whether a page is one byte throughout.
    fn is_blank(&self, page: u32) -> bool
        ensures { result ≡ blank_by self.now page }
    {
        if page == 0 || page > self.grid.pages {
            return false;
        }
        self.blank.has(page)
    }

    // What each owner has of some pages.
    fn shares(&self, first: u32, last: u32) -> OwnerShares
        ensures { (file : List ℕ) (V : List Reference) → AreOf self.now file V
            → result ≡ shares_by self.now.largest.items (marked_place self.now.marks.now) (start_at V) (blank_by self.now) first
            (capped_pages (last + 1) - first) }
    {
        let mut shares = OwnerShares::new();
        for page in first..last.saturating_add(1) {
            let place = place_of(self.marks, page);
            let start = self.trees.start_of(self.marks, page);
            let blank = self.is_blank(page);
            let owner = shown_owner(blank, self.owner(place, start));
            shares.add(owner, is_lighter(blank, place));
        }
        shares
    }

    /// Draws all squares.
    pub(crate) fn draw<O: Out>(&self, writer: &mut Writer<'_, O>)
        ensures { WroteOf O.held writer.old (AreOf self.now) (λ file V. rows_text (drawn_by self.now V)) writer.new }
    {
        for row in 0..self.grid.rows() {
            self.draw_row(writer, row);
        }
    }

    // Draws a row: its squares, and the outlines of pages that are not in the file.
    fn draw_row<O: Out>(&self, writer: &mut Writer<'_, O>, row: u32)
        ensures { WroteOf O.held writer.old (AreOf self.now) (λ file V. row_text (drawn_by self.now V) row) writer.new }
    {
        let grid = &self.grid;
        writer.write_all(&[
            Piece::Markup("<g transform=\"translate("),
            Piece::Number(LEFT),
            Piece::Markup(","),
            Piece::Number(grid.top_of(row)),
            Piece::Markup(")\">\n"),
        ]);
        let mut tree = NamedTree::none();
        let (first, end) = self.grid.places_of(row, self.grid.squares);
        for index in first..end {
            let faults = self.notes.of_square(index);
            if grid.group == 1 {
                let square = self.page_square(&mut tree, index);
                square.draw(writer, grid.width, &tree.name, faults);
            } else {
                let square = self.group_square(index);
                square.draw(writer, grid.width, &self.labels, faults);
            }
        }
        draw_outlines(writer, grid, row);
        writer.write_all(&[Piece::Markup("</g>\n")]);
    }

    // The square that is a page. `tree` becomes the tree of that page, or none.
    fn page_square(&self, tree: &mut NamedTree, index: u32) -> PageSquare
        requires { HoldsTreeName self.now.names tree.old }
        ensures square { (file : List ℕ) (V : List Reference) → AreOf self.now file V → result ≡ page_square (drawn_by self.now V) index }
        ensures x { result.x ≤ 3556 }
        ensures owner { result.owner < 16 }
        ensures named { (file : List ℕ) (V : List Reference) → AreOf self.now file V
            → tree.new ≡ tree_named self.now.names (page_tree (drawn_by self.now V) index) }
        ensures tree { HoldsTreeName self.now.names tree.new }
    {
        let grid = &self.grid;
        let (page, _) = grid.group_of(index, grid.pages);
        let place = place_of(self.marks, page);
        let start = self.trees.start_of(self.marks, page);
        tree.turn_to(&self.names, place_tree(place, start));
        PageSquare {
            x: grid.x_of(index),
            page,
            owner: self.owner(place, start),
            place,
            fixed: self.header.geometry().fixed(page),
        }
    }

    // The square that is a group of pages.
    fn group_square(&self, index: u32) -> GroupSquare
        ensures { (file : List ℕ) (V : List Reference) → AreOf self.now file V → result ≡ group_square (drawn_by self.now V) index }
    {
        let grid = &self.grid;
        let (first, last) = grid.group_of(index, grid.pages);
        GroupSquare {
            x: grid.x_of(index),
            first,
            last,
            shares: self.shares(first, last),
        }
    }
}
