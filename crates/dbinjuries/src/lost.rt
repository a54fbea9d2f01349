// The faults of a file, as they are received, and those of the pages to which nothing refers, when these are looked at.
ghost use Rattle.std.specs.Prelude.{◌≡◌, ◌≤◌, List};
ghost use Rattle.dbformat.specs.File.{geometry};
ghost use Rattle.dbformat.specs.Reference.{Reference};
ghost use Rattle.dbsource.specs.Failures.{is_any};
ghost use Rattle.dbsource.specs.Sources.{Asks};
ghost use Rattle.dbscan.specs.Desks.{shape_of};
ghost use Rattle.dbscan.specs.Finishes.{IsDeskOf};
ghost use Rattle.dbscan.specs.Looks.{IsUnmarked, ReadsOrNot, ReadsRising};
ghost use Rattle.dbinjuries.specs.Listed.{is_lost};
ghost use Rattle.dbinjuries.specs.Lists.{received};
ghost use Rattle.dbinjuries.specs.Lost.{AddsLost, HasLooked};

use crate::listing::Listing;
use dbformat::{Fault, FaultCode};
use dbscan::Desk;
use dbsource::{ReadFailed, Source};
use dbtrace::{Part, TracedFault};
use std::alloc::Allocator;

// Whether a fault is that of a lost page.
fn is_lost(reported: &TracedFault) -> bool
    ensures { result ≡ is_lost reported.now }
{
    matches!(reported.part, Part::End) && matches!(reported.fault.code, FaultCode::N01)
}

impl<A: Allocator> Listing<A> {
    /// Lists a fault, but for that of a lost page, which is listed when its page is looked at. The faults of one part come one after
    /// another.
    pub fn receive(&mut self, reported: &TracedFault)
        ensures { self.new ≡ received self.old reported.now }
    {
        if !is_lost(reported) {
            self.add(reported);
        }
    }

    // Looks at a page of the file, if nothing refers to it, and lists its fault.
    fn look_at_page<S: Source>(
        &mut self,
        desk: &mut Desk<A>,
        source: &mut S,
        page: u32,
    ) -> Result<(), ReadFailed>
        ensures desk { desk.new ≡ record desk.old { pages = desk.new.pages } }
        ensures asks { Asks S.step (ReadsOrNot (shape_of desk.old).page_size (IsUnmarked desk.old.marks) page) (λ file. (V : List Reference)
            → IsDeskOf desk.old file V → 1 ≤ page → page ≤ (geometry file).pages → AddsLost file V page result self.old self.new)
            is_any result (S.held source.old) (S.held source.new) }
    {
        if !desk.is_lost(page) {
            return Ok(());
        }
        let cause = desk.look_at(source, page)?;
        self.add(&TracedFault {
            part: Part::End,
            fault: Fault {
                code: FaultCode::N01,
                page,
                item: 0,
                value: 0,
            },
            cause,
        });
        Ok(())
    }

    /// Looks at each page to which nothing refers, in their order, and lists their faults after all others.
    ///
    /// # Errors
    ///
    /// [`ReadFailed`] exactly where the source failed. Then the faults of the pages before are listed.
    pub fn look_at_lost<S: Source>(
        &mut self,
        desk: &mut Desk<A>,
        source: &mut S,
    ) -> Result<(), ReadFailed>
        ensures desk { desk.new ≡ record desk.old { pages = desk.new.pages } }
        ensures asks { Asks S.step (ReadsRising (shape_of desk.old).page_size (IsUnmarked desk.old.marks)) (λ file. (V : List Reference)
            → IsDeskOf desk.old file V → HasLooked file V result self.old self.new)
            is_any result (S.held source.old) (S.held source.new) }
    {
        let pages = desk.geometry().pages;
        for index in 0..pages {
            self.look_at_page(desk, source, index + 1)?;
        }
        Ok(())
    }
}
