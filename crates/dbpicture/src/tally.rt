// How many pages each tree has.
ghost use Rattle.std.specs.Prelude.{◌≡◌, ◌==◌, ◌≤◌, ℕ, List, position};
ghost use Rattle.dbformat.specs.Reference.{Reference};
ghost use Rattle.dbpicture.specs.Owners.{IsOf, rank_of};
ghost use Rattle.dbpicture.specs.Tallies.{largest_trees, left_pages, next_start, none_tallied, others};
ghost use Rattle.dbpicture.specs.Tallies.{page_counted, pages_at, share_at, start_counted, tally_of};

use crate::owner_shares::{Share, is_overflow};
use arrayvec::ArrayVec;
use dbscan::{PageTrees, Place, StartTable, place_of};
use dbsource::NoMemory;
use dbwalk::Marks;
use std::alloc::{Allocator, Global};
use std::marker::Model;

/// How many trees have a colour of their own.
pub(crate) const COLOURED: usize = 12;

/// How many pages each start has, how many have a fixed use, and how many are nobody's.
#[derive(Drop)]
pub struct PageTally<A: Allocator = Global> {
    starts: StartTable<Share, A>,
    fixed: u32,
    nobody: u32,
}

impl<A: Allocator> Model for PageTally<A> {
    ghost use Rattle.dbpicture.specs.Tallies.{PagesTallied};

    ghost Value = { PagesTallied };

    ghost use Rattle.dbpicture.specs.Tallies.{pages_tallied};

    ghost view = { pages_tallied };
}

impl<A: Allocator> PageTally<A> {
    /// One without pages, in one growth.
    ///
    /// # Errors
    ///
    /// [`NoMemory`] where the growth was refused.
    pub(crate) fn new_in(alloc: A) -> Result<PageTally<A>, NoMemory> {
        let starts = StartTable::new_in(alloc, Share::default())?;
        Ok(PageTally {
            starts,
            fixed: 0,
            nobody: 0,
        })
    }

    // Sets all counts to 0.
    fn clear(&mut self)
        ensures { self.new ≡ none_tallied }
    {
        self.starts.fill(Share::default());
        self.fixed = 0;
        self.nobody = 0;
    }

    /// Counts all pages, and none that was counted before.
    pub(crate) fn count<B: Allocator>(&mut self, marks: &Marks<B>, trees: &PageTrees<B>)
        ensures { (file : List ℕ) (V : List Reference) → IsOf marks.now trees.now.known file V → self.new ≡ tally_of file V }
    {
        self.clear();
        for index in 0..marks.pages() {
            let page = index + 1;
            let start = trees.start_of(marks, page);
            self.add(place_of(marks, page), start);
        }
    }

    // Counts a page.
    fn add(&mut self, place: Place, start: Option<u32>)
        ensures { self.new ≡ page_counted place start self.old }
    {
        match (place, start) {
            (Place::Fixed, _) => self.fixed = self.fixed.saturating_add(1),
            (_, Some(start)) => self.add_to(start, is_overflow(place)),
            (_, None) => self.nobody = self.nobody.saturating_add(1),
        }
    }

    // Counts a page of a start.
    fn add_to(&mut self, start: u32, is_overflow: bool)
        ensures { self.new ≡ start_counted start is_overflow self.old }
    {
        let mut share = self.share(start);
        share.add(is_overflow);
        self.starts.set(start, share);
    }

    /// What a start has.
    pub(crate) fn share(&self, start: u32) -> Share
        ensures { result ≡ share_at self.now.starts start }
    {
        self.starts.get(start).unwrap_or(Share::default())
    }

    /// How many pages have a fixed use.
    pub(crate) fn fixed(&self) -> u32
        ensures { result ≡ self.now.fixed }
    {
        self.fixed
    }

    /// How many pages are nobody's.
    pub(crate) fn nobody(&self) -> u32
        ensures { result ≡ self.now.nobody }
    {
        self.nobody
    }

    // How many pages a start has that is not among some, and else 0.
    fn left(&self, taken: &[u32], start: u32) -> u32
        ensures { result ≡ left_pages (pages_at self.now.starts) taken.now start }
    {
        if rank_of(taken, Some(start)) == COLOURED {
            self.share(start).pages
        } else {
            0
        }
    }

    // Of the first `trees` starts that are not among some, the one with the most pages; of several the least.
    fn next(&self, taken: &[u32], trees: u32) -> u32
        ensures { result ≡ next_start (pages_at self.now.starts) trees taken.now }
    {
        let mut next = 0;
        let mut most = self.left(taken, 0);
        for start in 0..trees {
            let pages = self.left(taken, start);
            if pages > most {
                next = start;
                most = pages;
            }
        }
        next
    }

    /// The starts of the largest trees, by how many pages they have, and then by their starts. Trees have the first `trees` starts.
    pub(crate) fn largest(&self, trees: u32) -> ArrayVec<u32, COLOURED>
        ensures { result.items ≡ largest_trees (pages_at self.now.starts) trees 12 }
    {
        let mut largest = ArrayVec::new();
        for _ in 0..COLOURED {
            let next = self.next(largest.as_slice(), trees);
            if self.left(largest.as_slice(), next) != 0 {
                largest.push(next);
            }
        }
        largest
    }

    /// How many trees with pages there are beside the largest, and what they have.
    pub(crate) fn others(&self, largest: &[u32], trees: u32) -> (u32, Share)
        ensures { result ≡ others self.now.starts largest.now trees }
    {
        let mut count = 0u32;
        let mut all = Share::default();
        for start in 0..trees {
            if self.left(largest, start) != 0 {
                count = count.saturating_add(1);
                all.join(self.share(start));
            }
        }
        (count, all)
    }
}

/// The rank of a start among the largest trees, or that of all others.
pub(crate) fn rank_of(largest: &[u32], start: Option<u32>) -> usize
    ensures rank { result ≡ rank_of largest.now start }
    ensures most { result ≤ 12 }
{
    match start {
        Some(start) => match place_among(largest, start) {
            Some(rank) => rank.min(COLOURED),
            None => COLOURED,
        },
        None => COLOURED,
    }
}

// The place of a start among some.
fn place_among(starts: &[u32], start: u32) -> Option<usize>
    ensures { result ≡ position (λ other. other == start) starts.now }
{
    starts.iter().position(|other| *other == start)
}
