// What `explain` keeps of a file beside what a check keeps.
ghost use Rattle.std.specs.Prelude.{◌≡◌, [], None, IfOk, replicate};
ghost use Rattle.dbformat.specs.FixedPages.{IsInRange};
ghost use Rattle.dbexplain.specs.Keeping.{IsEmpty};

use crate::indexes::no_indexes;
use crate::ranges::RowRanges;
use crate::tally::Tally;
use dbinjuries::Listing;
use dbscan::{PageTrees, StartTable};
use dbsource::{Geometry, NoMemory};
use std::alloc::{Allocator, Global};

/// What is listed of its faults, the counts of the summary, the tree of each page, and the rows of the faults.
#[derive(Drop)]
pub(crate) struct Kept<A: Allocator = Global> {
    pub(crate) listing: Listing<A>,
    pub(crate) tally: Tally<A>,
    pub(crate) trees: PageTrees<A>,
    /// The rows that the faults are of.
    pub(crate) ranges: RowRanges<A>,
    /// Of each start, whether a page of its tree is one of an index.
    pub(crate) indexes: StartTable<bool, A>,
}

impl<A: Allocator + Copy> Kept<A> {
    // For a file of this shape, before it is read, with room for `limit` injuries. It takes no memory after this.
    pub(crate) fn new_in(alloc: A, limit: u32, geometry: &Geometry) -> Result<Kept<A>, NoMemory>
        requires { IsInRange geometry.now }
        ensures { IfOk result (IsEmpty limit geometry.now) }
    {
        Ok(Kept {
            listing: Listing::new_in(alloc, limit, geometry)?,
            tally: Tally::new_in(alloc, geometry)?,
            trees: PageTrees::new_in(alloc, geometry)?,
            ranges: RowRanges::new_in(alloc)?,
            indexes: no_indexes(alloc)?,
        })
    }
}
