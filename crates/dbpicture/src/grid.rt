// How the squares of the picture are laid out.
ghost use Rattle.std.specs.Prelude.{◌≡◌, ◌+◌, ◌*◌, ◌-◌, ◌%◌, ◌≤◌, ◌^◌, min};
ghost use Rattle.std.specs.Int.{div_ceil};
ghost use Rattle.dbformat.specs.FixedPages.{IsInRange};
ghost use Rattle.dbpicture.specs.Grids as grids;

use dbformat::Geometry;

// Where the first row of squares begins.
const TOP: u64 = 64;

// How many pixels a row has.
const ROW: u32 = 896;

// How many squares there are at most.
const MOST_SQUARES: u32 = 16384;

// How many squares are in a row: the fewer, the larger they are.
#[derive(Clone, Copy)]
pub(crate) enum Width {
    Narrow,
    Medium,
    Wide,
}

/// The last page that is outlined, and whether these pages are in the file, after the end that its header states; else the header states
/// them, and the file does not have them.
#[derive(Clone, Copy)]
pub(crate) struct Outside {
    pub(crate) last: u32,
    pub(crate) are_after: bool,
}

/// The squares of a file, and the outlines of pages that only its header states, or only the file has.
#[derive(Clone, Copy)]
pub(crate) struct Grid {
    pub(crate) pages: u32,
    pub(crate) outside: Outside,
    pub(crate) group: u32,
    pub(crate) squares: u32,
    pub(crate) width: Width,
}

// How many squares are in a row, by how many there are.
fn width_of(squares: u32) -> Width
    ensures { result ≡ grids.width_of squares }
{
    match squares {
        0..=512 => Width::Narrow,
        513..=2048 => Width::Medium,
        _ => Width::Wide,
    }
}

// The smallest power of two of pages that keeps the squares of a file within [`MOST_SQUARES`]: it has fewer than 2^32 pages.
fn group_for(pages: u32) -> u32
    ensures group { result ≡ grids.group_for pages }
    ensures some { 1 ≤ result }
{
    let mut group = 1u32;
    for _ in 0..18u32 {
        if pages.div_ceil(group) > MOST_SQUARES {
            group *= 2;
        }
    }
    group
}

impl Outside {
    /// No page is outlined.
    pub(crate) const NONE: Outside = Outside {
        last: 0,
        are_after: false,
    };

    /// Those of a file of this shape and length whose header states `stated` pages.
    pub(crate) fn of(shape: Geometry, stated: u32, len: u64) -> Outside
        requires { IsInRange shape }
        ensures { result ≡ grids.outside_by shape stated len }
    {
        let whole = (len / u64::from(shape.page_size)).min(u64::from(u32::MAX)) as u32;
        if shape.pages < whole {
            Outside {
                last: whole,
                are_after: true,
            }
        } else {
            Outside {
                last: stated,
                are_after: false,
            }
        }
    }
}

impl Grid {
    /// The grid of a file of `pages` pages, with these outlines.
    pub(crate) fn new(pages: u32, outside: Outside) -> Grid
        ensures { result ≡ grids.grid_of pages outside }
    {
        let group = group_for(pages);
        let squares = pages.div_ceil(group);
        Grid {
            pages,
            outside,
            group,
            squares,
            width: width_of(squares),
        }
    }

    // How many squares are in a row.
    fn columns(&self) -> u32
        ensures columns { result ≡ grids.columns_of self.now.width }
        ensures range { (1 ≤ result) × (result ≤ 128) }
    {
        match self.width {
            Width::Narrow => 32,
            Width::Medium => 64,
            Width::Wide => 128,
        }
    }

    /// How many pixels a square takes with the room after it.
    pub(crate) fn side(&self) -> u32
        ensures side { result ≡ grids.side_of self.now.width }
        ensures range { (7 ≤ result) × (result ≤ 28) }
    {
        ROW / self.columns()
    }

    /// How many pages are outlined.
    pub(crate) fn missing(&self) -> u32
        ensures { result ≡ self.now.outside.last - self.now.pages }
    {
        self.outside.last.saturating_sub(self.pages)
    }

    /// How many squares and outlines there are. Where a page is outlined there is an outline, and there are no more rows of outlines alone
    /// than the file has rows.
    pub(crate) fn places(&self) -> u32
        ensures { result ≡ grids.places self.now }
    {
        let rows = self.squares.div_ceil(self.columns());
        let most = u64::from(rows) * 2 * u64::from(self.columns());
        let ends = self.outside.last.div_ceil(self.group.max(1));
        let least = self.squares.saturating_add(u32::from(self.missing() != 0));
        (u64::from(ends).min(most) as u32).max(least)
    }

    /// How many rows there are.
    pub(crate) fn rows(&self) -> u32
        ensures { result ≡ grids.rows self.now }
    {
        self.places().div_ceil(self.columns())
    }

    /// Where a square begins in its row, in pixels.
    pub(crate) fn x_of(&self, index: u32) -> u32
        ensures x { result ≡ grids.x_of self.now index }
        ensures most { result ≤ 3556 }
    {
        index % self.columns() * self.side()
    }

    /// The places of a row among `most` places, the first and the one after the last.
    pub(crate) fn places_of(&self, row: u32, most: u32) -> (u32, u32)
        ensures { result ≡ grids.places_of self.now row most }
    {
        let most = u64::from(most);
        let first = u64::from(row) * u64::from(self.columns());
        let end = first + u64::from(self.columns());
        (first.min(most) as u32, end.min(most) as u32)
    }

    /// The first and the last page of a place, of this number of pages at most.
    pub(crate) fn group_of(&self, place: u32, pages: u32) -> (u32, u32)
        ensures { result ≡ grids.group_of self.now place pages }
    {
        let most = u64::from(pages);
        let before = u64::from(place) * u64::from(self.group);
        let first = (before + 1).min(most);
        let last = (before + u64::from(self.group)).min(most);
        (first as u32, last as u32)
    }

    /// The pages of an outline, the first and the last. The first outline also has those that the last square would cover.
    pub(crate) fn missing_of(&self, place: u32) -> (u32, u32)
        ensures { result ≡ grids.missing_of self.now place }
    {
        let (first, last) = self.group_of(place, self.outside.last);
        if place == self.squares {
            (self.pages.saturating_add(1), last)
        } else {
            (first, last)
        }
    }

    /// Where a row begins, in pixels from the top.
    pub(crate) fn top_of(&self, row: u32) -> u64
        ensures top { result ≡ grids.top_of self.now row }
        ensures most { result ≤ 2 ^ 40 }
    {
        TOP + u64::from(row) * u64::from(self.side())
    }

    /// The first page of a row.
    pub(crate) fn page_of_row(&self, row: u32) -> u64
        ensures { result ≡ grids.page_of_row self.now row }
    {
        let before = u64::from(row) * u64::from(self.columns());
        before
            .saturating_mul(u64::from(self.group))
            .saturating_add(1)
    }
}
