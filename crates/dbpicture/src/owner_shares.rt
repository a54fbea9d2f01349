// Whose the pages of a square are.
ghost use Rattle.std.specs.Prelude.{◌≡◌, ◌<◌};
ghost use Rattle.dbpicture.specs.Owners.{has_pages, is_lighter, is_overflow, is_shaded, no_shares, one_page, owner_counted, share_of, share_sum};
ghost use Rattle.dbpicture.specs.Owners.{shown_owner};

use dbscan::Place;

/// How many owners a square keeps apart, in the order in which they are drawn and named: first the twelve largest trees, by their ranks.
pub(crate) const OWNERS: usize = 17;

/// The number of all other trees.
pub(crate) const OTHER_TREES: usize = 12;

pub(crate) const FREELIST: usize = 13;

/// The number of the owner of pages of fixed use.
pub(crate) const FIXED: usize = 14;

pub(crate) const NOBODY: usize = 15;

/// Pages of one byte throughout are shown as those of an owner with this number.
pub(crate) const BLANK: usize = 16;

/// A number of pages, and how many of them are overflow pages.
#[derive(Clone, Copy, Default)]
pub(crate) struct Share {
    pub(crate) pages: u32,
    pub(crate) overflow: u32,
}

impl Share {
    /// Counts a page.
    pub(crate) fn add(&mut self, is_overflow: bool)
        ensures { self.new ≡ one_page is_overflow self.old }
    {
        self.pages = self.pages.saturating_add(1);
        self.overflow = self.overflow.saturating_add(u32::from(is_overflow));
    }

    /// Adds another share.
    pub(crate) fn join(&mut self, other: Share)
        ensures { self.new ≡ share_sum self.old other }
    {
        self.pages = self.pages.saturating_add(other.pages);
        self.overflow = self.overflow.saturating_add(other.overflow);
    }

    /// Whether most of them are overflow pages.
    pub(crate) fn is_overflow(self) -> bool
        ensures { result ≡ is_shaded self }
    {
        self.overflow > self.pages / 2
    }
}

/// Whether a page of a tree is an overflow page.
pub(crate) fn is_overflow(place: Place) -> bool
    ensures { result ≡ is_overflow place }
{
    matches!(&place, Place::OverflowOf(_) | Place::OverflowAfter(_))
}

/// The number of the owner that a page is shown for, by whether it is one byte throughout.
pub(crate) fn shown_owner(blank: bool, owner: usize) -> usize
    requires { owner < 16 }
    ensures owner { result ≡ shown_owner blank owner }
    ensures within { result < 17 }
{
    if blank { BLANK } else { owner }
}

/// Whether a page is shown in the shade of overflow pages.
pub(crate) fn is_lighter(blank: bool, place: Place) -> bool
    ensures { result ≡ is_lighter blank place }
{
    is_overflow(place) & !blank
}

/// The pages of a square, by their owners.
#[derive(Clone, Copy)]
pub(crate) struct OwnerShares {
    shares: [Share; OWNERS],
}

impl OwnerShares {
    /// Shares of no page.
    pub(crate) fn new() -> OwnerShares
        ensures { result ≡ no_shares }
    {
        OwnerShares {
            shares: [Share::default(); OWNERS],
        }
    }

    /// Counts a page of the owner with a number.
    pub(crate) fn add(&mut self, owner: usize, is_overflow: bool)
        requires { owner < 17 }
        ensures { self.new ≡ owner_counted owner is_overflow self.old }
    {
        let share = &mut self.shares[owner];
        share.add(is_overflow);
    }

    /// The pages of the owner with a number.
    pub(crate) fn share(&self, number: usize) -> Share
        requires { number < 17 }
        ensures { result ≡ share_of self.now number }
    {
        self.shares[number]
    }

    /// Whether the owner with a number has one of the pages.
    pub(crate) fn has(&self, number: usize) -> bool
        requires { number < 17 }
        ensures { result ≡ has_pages self.now number }
    {
        self.share(number).pages != 0
    }
}
