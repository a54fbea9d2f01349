// The tally of the faults that were reported.
ghost use Rattle.std.specs.Prelude.{◌≡◌, [], IfOk};
ghost use Rattle.dbexplain.specs.Tallies.{code_reported, count_at, count_of, fault_reported, IsTallyOf, one_reached_page, part_reported, start_reached};

use crate::start_counts::StartCounts;
use dbformat::{FaultCode, Geometry};
use dbinjuries::PageBits;
use dbsource::NoMemory;
use dbtrace::{Part, TracedFault};
use std::alloc::{Allocator, Global};
use std::marker::Model;

/// What is counted of a start: the faults that were reported there; and then the pages that were reached from it, and those of them
/// that have a fault.
#[derive(Clone, Copy, Default)]
pub struct StartCount {
    pub faults: u64,
    pub reached: u32,
    pub faulty: u32,
}

/// How many faults were reported in all, with each code, at each start, and of the whole file; and of each page whether a fault of
/// it was reported at a start. A count of faults stops at the greatest number of 64 bits.
#[derive(Drop)]
pub struct Tally<A: Allocator = Global> {
    all: u64,
    // By the index of the code.
    codes: [u64; FaultCode::COUNT],
    starts: StartCounts<StartCount, A>,
    whole: u64,
    pages: PageBits<A>,
}

impl<A: Allocator> Model for Tally<A> {
    ghost use Rattle.dbexplain.specs.Tallies.{Tallied};

    ghost Value = { Tallied };

    ghost use Rattle.dbexplain.specs.Tallies.{tallied};

    ghost view = { tallied };
}

// The counts of a start with one page more, which has a fault or has none.
fn with_page(count: StartCount, faulty: bool) -> StartCount
    ensures { result ≡ one_reached_page faulty count }
{
    StartCount {
        faults: count.faults,
        reached: count.reached.saturating_add(1),
        faulty: count.faulty.saturating_add(u32::from(faulty)),
    }
}

impl<A: Allocator + Copy> Tally<A> {
    /// A tally of no faults of a file, in two growths from any allocator. After that it takes no memory.
    ///
    /// # Errors
    ///
    /// [`NoMemory`] where a growth was refused.
    pub fn new_in(alloc: A, geometry: &Geometry) -> Result<Tally<A>, NoMemory>
        ensures { IfOk result (IsTallyOf geometry.now.pages []) }
    {
        let starts = StartCounts::new_in(alloc, StartCount::default())?;
        let pages = PageBits::new_in(alloc, geometry.pages)?;
        Ok(Tally {
            all: 0,
            codes: [0; FaultCode::COUNT],
            starts,
            whole: 0,
            pages,
        })
    }
}

impl<A: Allocator> Tally<A> {
    // Counts a fault of a page at a start, and notes the page; or a fault of the whole file.
    fn count_part(&mut self, part: Part, page: u32)
        ensures { self.new ≡ part_reported part page self.old }
    {
        match part {
            Part::Header | Part::End => self.whole = self.whole.saturating_add(1),
            Part::Start(start) => {
                self.pages.set(page);
                let mut count = self.start(start);
                count.faults = count.faults.saturating_add(1);
                self.starts.set(start, count);
            }
        }
    }

    // Counts a fault with this code.
    fn count_code(&mut self, code: FaultCode)
        ensures { self.new ≡ code_reported code self.old }
    {
        let index = code.index();
        self.all = self.all.saturating_add(1);
        self.codes[index] = self.codes[index].saturating_add(1);
    }

    /// Counts a fault, with its code and at its start, and notes its page.
    pub fn add(&mut self, reported: &TracedFault)
        ensures { self.new ≡ fault_reported self.old reported.now }
    {
        self.count_code(reported.fault.code);
        self.count_part(reported.part, reported.fault.page);
    }

    /// How many faults were reported.
    pub fn all(&self) -> u64
        ensures { result ≡ self.now.all }
    {
        self.all
    }

    /// How many faults were reported with a code.
    pub(crate) fn with_code(&self, code: FaultCode) -> u64
        ensures { result ≡ count_of self.now code }
    {
        self.codes[code.index()]
    }

    /// What is counted of a start: nothing of a number after the last one.
    pub(crate) fn start(&self, start: u32) -> StartCount
        ensures { result ≡ count_at self.now start }
    {
        self.starts.get(start).unwrap_or(StartCount::default())
    }

    /// How many faults were reported of the whole file.
    pub(crate) fn whole(&self) -> u64
        ensures { result ≡ self.now.whole }
    {
        self.whole
    }

    // Counts a page that was reached from a start.
    pub(crate) fn count_page(&mut self, start: u32, page: u32)
        ensures { self.new ≡ start_reached start page self.old }
    {
        let count = with_page(self.start(start), self.pages.has(page));
        self.starts.set(start, count);
    }
}
