// A fault that leads, and what is kept of those that belong to it.
ghost use Rattle.std.specs.Prelude.{◌≡◌};
ghost use Rattle.dbinjuries.specs.Kept.{injury_added, lone_injury};

use crate::causes::cells_of;
use crate::page_runs::{NO_RUNS, PageRuns};
use dbtrace::TracedFault;

/// What is kept of the faults that belong to another.
#[derive(Clone, Copy)]
pub struct Others {
    /// How many there are, up to the greatest number of 64 bits.
    pub count: u64,
    /// The page of the last one.
    pub page: u32,
    /// The item of the last one.
    pub item: u32,
    /// The pages that they are of.
    pub runs: PageRuns,
    /// How many cells these pages have, if they look like pages of a tree.
    pub cells: u64,
}

/// A fault that leads, and the faults that belong to it.
#[derive(Clone, Copy)]
pub struct Injury {
    /// The fault that leads.
    pub first: TracedFault,
    /// Those that belong to it.
    pub others: Others,
}

impl Injury {
    // An injury of this fault alone.
    pub(crate) fn of(first: &TracedFault) -> Injury
        ensures { result ≡ lone_injury first.now }
    {
        Injury {
            first: *first,
            others: Others {
                count: 0,
                page: 0,
                item: 0,
                runs: NO_RUNS,
                cells: 0,
            },
        }
    }

    /// Adds a fault that belongs to it.
    #[inline(always)]
    pub(crate) fn add(&mut self, reported: &TracedFault)
        ensures { self.new ≡ injury_added self.old reported.now }
    {
        let others = &mut self.others;
        others.count = others.count.saturating_add(1);
        others.page = reported.fault.page;
        others.item = reported.fault.item;
        others.runs.add(reported.fault.page);
        others.cells = others.cells.saturating_add(cells_of(&reported.cause));
    }
}
