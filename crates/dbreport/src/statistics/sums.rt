// What the row of a tree adds up.
ghost use Rattle.std.specs.Prelude.{◌≡◌, List, [], ◌∷◌, ◌++◌};
ghost use Rattle.dbformat.specs.Rows.{StatRow};
ghost use Rattle.dbwalk.specs.Rows.{row_of};
ghost use Rattle.dbreport.specs.Sums.{sums_of};

use dbformat::Counts;
use dbwalk::Row;

// How many pages there are, which stops at the greatest number of 64 bits, and what they count together.
#[derive(Clone, Copy)]
pub(crate) struct Sums {
    pub(crate) pages: u64,
    pub(crate) counts: Counts,
}

impl Sums {
    // Those of no row.
    pub(crate) fn new() -> Sums
        ensures { result ≡ sums_of [] }
    {
        Sums {
            pages: 0,
            counts: Counts::NONE,
        }
    }

    // Adds the row of a page.
    pub(crate) fn add(&mut self, row: &Row<'_>)
        ensures { (rows : List StatRow) → self.old ≡ sums_of rows → self.new ≡ sums_of (rows ++ row_of row.now ∷ []) }
    {
        self.pages = self.pages.saturating_add(1);
        self.counts.add(&row.counts);
    }
}
