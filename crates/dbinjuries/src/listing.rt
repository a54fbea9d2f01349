// The injuries of the reported faults, and which pages are zeros.
ghost use Rattle.std.specs.Prelude.{◌≡◌, ℕ, ◌≤◌, ◌<◌, IfOk, false, filter, fold, length};
ghost use Rattle.std.specs.List.{range_with_len};
ghost use Rattle.dbinjuries.specs.Bits.{has_bit};
ghost use Rattle.dbinjuries.specs.Kept.{no_runs, run_added};
ghost use Rattle.dbinjuries.specs.Listing.{is_beside, rank};
ghost use Rattle.dbinjuries.specs.Lists.{added, HasBits, IsUnused};
ghost use Rattle.dbinjuries.specs.Store.{home_kept, put_kept, put_new, turned_to};
ghost use Rattle.dbinjuries.specs.Zeros.{is_of_one_byte, is_of_zeros, is_whole, noted};

use crate::causes::{most, same_cause};
use crate::injury::Injury;
use crate::page_bits::PageBits;
use crate::page_runs::{NO_RUNS, PageRuns};
use dbformat::{ByteRun, Fault, FaultCode, Geometry, Look};
use dbsource::NoMemory;
use dbsource::memory::filled;
use dbtrace::{Cause, Part, TracedFault};
use std::alloc::{Allocator, Global};
use std::marker::Model;

/// The injuries of the reported faults: the first ones, as many as there is room for, and how many faults belong to the others; and
/// of each page whether it is zeros, and whether it is one byte throughout, by a fault of it.
#[derive(Drop)]
pub struct Listing<A: Allocator = Global> {
    injuries: Vec<Injury, A>,
    shown: usize,
    rest: u64,
    // The part of the last fault, and where its injuries begin.
    part: u64,
    begins: usize,
    // How many bytes of a page are usable.
    usable: u32,
    zeros: PageBits<A>,
    blank: PageBits<A>,
}

impl<A: Allocator> Model for Listing<A> {
    ghost use Rattle.dbinjuries.specs.Lists.{Held};

    ghost Value = { Held };

    ghost use Rattle.dbinjuries.specs.Lists.{held, IsHeld};

    ghost view = { held };

    ghost invariant = { IsHeld };
}

// Fills the places where no injury is kept yet.
const NO_INJURY: TracedFault = TracedFault {
    part: Part::Header,
    fault: Fault {
        code: FaultCode::H01,
        page: 0,
        item: 0,
        value: 0,
    },
    cause: Cause::Itself,
};

// The number of the end, greater than that of each start.
const END: u64 = 4294967297;

// The number of a part in the order of a report.
fn rank(part: Part) -> u64
    ensures { result ≡ rank part }
{
    match part {
        Part::Header => 0,
        Part::Start(start) => u64::from(start) + 1,
        Part::End => END,
    }
}

// Whether two faults are of one code.
fn is_beside(reported: &TracedFault, first: &TracedFault) -> bool
    ensures { result ≡ is_beside reported.now first.now }
{
    first.fault.code.index() == reported.fault.code.index()
}

// Whether the page of a fault with this cause is zeros.
fn is_of_zeros(cause: &Cause) -> bool
    ensures { result ≡ is_of_zeros cause.now }
{
    match cause {
        Cause::Look(Look::Blank(byte), _) => *byte == 0,
        Cause::Chain(chain) => chain.seen.are_zeros,
        _ => false,
    }
}

// Whether the longest run of one byte in a page is all of its usable bytes.
fn is_whole(usable: u32, run: Option<ByteRun>) -> bool
    ensures { result ≡ is_whole usable run }
{
    match run {
        Some(run) => run.len == usable,
        None => false,
    }
}

// Whether the page of a fault with this cause is one byte throughout.
fn is_of_one_byte(usable: u32, cause: &Cause) -> bool
    ensures { result ≡ is_of_one_byte usable cause.now }
{
    match cause {
        Cause::Look(Look::Blank(_), _) => true,
        Cause::Page(_, facts) => is_whole(usable, facts.run),
        Cause::Chain(chain) => chain.seen.are_zeros || is_whole(usable, chain.seen.run),
        _ => false,
    }
}

// Whether a fault with this cause may be of a page of one byte throughout.
fn shows_bytes(cause: &Cause) -> bool
    ensures zeros { result ≡ false → is_of_zeros cause.now ≡ false }
    ensures one_byte { result ≡ false → (usable : ℕ) → is_of_one_byte usable cause.now ≡ false }
{
    match cause {
        Cause::Page(_, _) | Cause::Look(_, _) | Cause::Chain(_) => true,
        _ => false,
    }
}

impl<A: Allocator + Copy> Listing<A> {
    /// No injuries, with room for `limit`, and two bits for each page of a file of this shape: three growths from any allocator. After
    /// that it takes no memory.
    ///
    /// # Errors
    ///
    /// [`NoMemory`] where a growth was refused.
    pub fn new_in(alloc: A, limit: u32, geometry: &Geometry) -> Result<Listing<A>, NoMemory>
        ensures none { IfOk result (IsUnused limit) }
        ensures room { IfOk result (HasBits geometry.now) }
    {
        let injuries = filled(alloc, Injury::of(&NO_INJURY), limit as usize)?;
        let zeros = PageBits::new_in(alloc, geometry.pages)?;
        let blank = PageBits::new_in(alloc, geometry.pages)?;
        Ok(Listing {
            injuries,
            shown: 0,
            rest: 0,
            part: 0,
            begins: 0,
            usable: geometry.usable,
            zeros,
            blank,
        })
    }
}

impl<A: Allocator> Listing<A> {
    // Adds a fault, which comes after the earlier ones of its part.
    #[inline(always)]
    pub(crate) fn add(&mut self, reported: &TracedFault)
        ensures { self.new ≡ added self.old reported.now }
    {
        self.note_bytes(reported);
        self.turn_to(rank(reported.part));
        match self.home(reported) {
            Some(slot) => self.put_kept(slot, reported),
            None => self.put_new(reported),
        }
    }

    /// The injuries that are kept, in their order.
    pub fn listed(&self) -> &[Injury]
        ensures { result.now ≡ self.now.injuries.listed }
    {
        &self.injuries[..self.shown]
    }

    /// How many faults are in the injuries that are not kept, those that lead included.
    pub fn rest(&self) -> u64
        ensures { result ≡ self.now.injuries.rest }
    {
        self.rest
    }

    /// The bits of the pages that are zeros.
    pub fn zeros(&self) -> &PageBits<A>
        ensures { result.now ≡ self.now.zeros }
    {
        &self.zeros
    }

    /// The bits of the pages that are one byte throughout, zero or another.
    pub fn blank(&self) -> &PageBits<A>
        ensures { result.now ≡ self.now.blank }
    {
        &self.blank
    }

    /// The runs of the pages that are zeros, of the first `pages`.
    pub fn zero_runs(&self, pages: u32) -> PageRuns
        ensures { result ≡ fold run_added no_runs (filter (has_bit self.now.zeros) (range_with_len 1 pages)) }
    {
        let mut runs = NO_RUNS;
        for index in 0..pages {
            if self.zeros.has(index + 1) {
                runs.add(index + 1);
            }
        }
        runs
    }

    // The injuries from here on are of this part.
    fn turn_to(&mut self, part: u64)
        ensures { self.new ≡ record self.old { injuries = turned_to part self.old.injuries } }
    {
        if self.part != part {
            self.part = part;
            self.begins = self.shown;
        }
    }

    // The injury that a fault of the last part belongs to, if one is kept: there are at most three of each code, and six of lost pages.
    fn home(&self, reported: &TracedFault) -> Option<usize>
        ensures { result ≡ home_kept reported.now self.now.injuries }
    {
        let mut left = most(reported.fault.code);
        for slot in self.begins..self.shown {
            let first = &self.injuries[slot].first;
            if is_beside(reported, first) {
                if left <= 1 || same_cause(&reported.cause, &first.cause) {
                    return Some(slot);
                }
                left -= 1;
            }
        }
        None
    }

    // Adds a fault to an injury that is kept.
    fn put_kept(&mut self, slot: usize, reported: &TracedFault)
        requires { slot < length self.old.injuries.listed }
        ensures { self.new ≡ record self.old { injuries = put_kept slot reported.now self.old.injuries } }
    {
        self.injuries[slot].add(reported);
    }

    // Adds an injury, where there is room. Most faults belong to one that is kept, and do not reach this call.
    #[cold]
    #[inline(never)]
    fn put_new(&mut self, reported: &TracedFault)
        ensures { self.new ≡ record self.old { injuries = put_new reported.now self.old.injuries } }
    {
        if self.shown < self.injuries.len() {
            self.injuries[self.shown] = Injury::of(reported);
            self.shown += 1;
        } else {
            self.rest = self.rest.saturating_add(1);
        }
    }

    // Notes whether the page of a fault is zeros, and whether it is one byte throughout.
    #[inline(always)]
    fn note_bytes(&mut self, reported: &TracedFault)
        ensures { self.new ≡ record self.old {
          zeros = noted is_of_zeros self.old.zeros reported.now;
          blank = noted (is_of_one_byte self.old.usable) self.old.blank reported.now;
        } }
    {
        if shows_bytes(&reported.cause) {
            self.note_zeros(reported);
            self.note_blank(reported);
        }
    }

    // Notes of the page of a fault that it is zeros, if it is.
    fn note_zeros(&mut self, reported: &TracedFault)
        ensures { self.new ≡ record self.old { zeros = noted is_of_zeros self.old.zeros reported.now } }
    {
        if is_of_zeros(&reported.cause) {
            self.zeros.set(reported.fault.page);
        }
    }

    // Notes of the page of a fault that it is one byte throughout, if it is.
    fn note_blank(&mut self, reported: &TracedFault)
        ensures { self.new ≡ record self.old { blank = noted (is_of_one_byte self.old.usable) self.old.blank reported.now } }
    {
        if is_of_one_byte(self.usable, &reported.cause) {
            self.blank.set(reported.fault.page);
        }
    }
}
