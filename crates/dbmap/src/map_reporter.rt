// The reporter of a map.
use dbformat::Verdict;
use dbpicture::{KeptFaults, put_map};
use dbscan::{Desk, Finish, Notice, Reporter};
use dbsource::{Out, RunError, Source};
use std::alloc::Allocator;

// Counts faults, notes the pages that they are found at, and lists those that lead; and notes the starts of pages. When the file has
// been received it looks at the lost pages, and puts the picture.
#[derive(Drop)]
pub(crate) struct MapReporter<'n, 'k, 'o, A: Allocator, O> {
    pub(crate) name: &'n str,
    pub(crate) kept: &'k mut KeptFaults<A>,
    pub(crate) out: &'o mut O,
}

impl<A: Allocator, O: Out> Reporter for MapReporter<'_, '_, '_, A, O> {
    ghost use Rattle.dbmap.specs.MapRuns.{Receives, map_held};

    ghost receives = { Receives };

    ghost held = { map_held O.held };

    fn receive(&mut self, notice: &Notice<'_>) {
        match notice {
            Notice::Fault(reported) => self.kept.note(reported),
            Notice::Row(_, row) => self.kept.note_row(row),
            Notice::Ended(_) | Notice::Page(_, _, _) => {}
        }
    }

    fn is_shut(&self) -> bool {
        false
    }
}

impl<A: Allocator, O: Out> Finish<Desk<A>> for MapReporter<'_, '_, '_, A, O> {
    ghost use Rattle.dbmap.specs.MapRuns.{LeavesMap};

    ghost leaves = { LeavesMap O.held };

    fn finish<S: Source>(
        &mut self,
        desk: &mut Desk<A>,
        source: &mut S,
    ) -> Result<Verdict, RunError> {
        self.kept.listing.look_at_lost(desk, source)?;
        let verdict = Verdict::of(self.kept.faults);
        put_map(self.name, desk, self.kept, self.out)?;
        Ok(verdict)
    }
}
