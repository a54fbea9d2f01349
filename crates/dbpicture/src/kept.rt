// What a map keeps of a file beside what a check keeps.
ghost use Rattle.std.specs.Prelude.{IfOk};
ghost use Rattle.dbformat.specs.FixedPages.{IsInRange};
ghost use Rattle.dbwalk.specs.Rows.{row_of};
ghost use Rattle.dbpicture.specs.Keeping.{Adds, ReceivesNone, Notes};

use crate::fault_notes::FaultNotes;
use crate::faults::Sign;
use crate::tally::PageTally;
use dbinjuries::{Listing, TracedFault};
use dbscan::PageTrees;
use dbsource::{Geometry, NoMemory};
use dbwalk::Row;
use std::alloc::{Allocator, Global};

// How many injuries are kept: as many as `explain` lists where no other number is given.
const INJURIES: u32 = 100;

/// What a map keeps of a file beside what a check keeps.
#[derive(Drop)]
pub struct KeptFaults<A: Allocator = Global> {
    // The tree of each page.
    pub(crate) trees: PageTrees<A>,
    // The pages of each tree.
    pub(crate) tally: PageTally<A>,
    // The pages that faults are found at, and those of the injuries that are listed, and of their causes.
    pub(crate) notes: FaultNotes<A>,
    /// What is listed of the faults.
    pub listing: Listing<A>,
    /// How many faults were noted.
    pub faults: u64,
}

impl<A: Allocator + Copy> KeptFaults<A> {
    /// Nothing yet, with room for a file of this shape: a number of four bytes and four bits for each page, eight bytes for each
    /// square, the counts of 65538 starts, and 100 injuries of faults. Each of these is one growth, and the four bits are four.
    ///
    /// # Errors
    ///
    /// [`NoMemory`] where a growth was refused.
    pub fn new_in(alloc: A, geometry: &Geometry) -> Result<KeptFaults<A>, NoMemory>
        requires { IsInRange geometry.now }
        ensures { IfOk result (ReceivesNone geometry.now) }
    {
        let trees = PageTrees::new_in(alloc, geometry)?;
        let tally = PageTally::new_in(alloc)?;
        let notes = FaultNotes::new_in(alloc, geometry.pages)?;
        let listing = Listing::new_in(alloc, INJURIES, geometry)?;
        Ok(KeptFaults {
            trees,
            tally,
            notes,
            listing,
            faults: 0,
        })
    }
}

impl<A: Allocator> KeptFaults<A> {
    /// Counts a fault, notes its page, and lists it.
    pub fn note(&mut self, reported: &TracedFault)
        ensures { Adds reported.now self.old self.new }
    {
        self.faults = self.faults.saturating_add(1);
        let fault = &reported.fault;
        self.notes.note(fault.page, Sign::Code(fault.code));
        self.notes.note(fault.page, Sign::Faulty);
        self.listing.receive(reported);
    }

    /// Notes the tree of the page of a row.
    pub fn note_row(&mut self, row: &Row<'_>)
        ensures { Notes (row_of row.now) self.old self.new }
    {
        self.trees.note(row);
    }
}
