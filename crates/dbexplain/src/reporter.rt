// The reporter of `explain`.
ghost use Rattle.std.specs.Prelude.{◌≡◌};
ghost use Rattle.dbwalk.specs.Rows.{row_of};
ghost use Rattle.dbexplain.specs.Reporting.{Adds, Ends, Notes, explain_held};

use crate::after_end::AfterEnd;
use crate::indexes::note_index;
use crate::kept::Kept;
use crate::report::{put_found, put_report};
use dbformat::Verdict;
use dbinjuries::TracedFault;
use dblines::put_ok;
use dbscan::{Desk, Finish, Notice, Reporter};
use dbsource::{Out, RunError, Source};
use dbwalk::Row;
use std::alloc::Allocator;

/// Counts and lists the faults of a file, and notes the starts of its pages. When all of it has been received it looks at the
/// lost pages, and puts the report.
#[derive(Drop)]
pub(crate) struct ExplainReporter<'a, A: Allocator, O> {
    pub(crate) kept: &'a mut Kept<A>,
    pub(crate) out: &'a mut O,
    /// The references to pages after the stated end.
    pub(crate) after_end: AfterEnd,
}

impl<'a, A: Allocator, O: Out> ExplainReporter<'a, A, O> {
    // One that has received nothing.
    pub(crate) fn new(
        kept: &'a mut Kept<A>,
        out: &'a mut O,
        after_end: AfterEnd,
    ) -> ExplainReporter<'a, A, O>
        ensures same_out { result.out.ghost_name ≡ out.entry.ghost_name }
        ensures out { result.out.now ≡ out.old }
        ensures kept { result.kept.now ≡ kept.old }
        ensures after_end { result.after_end ≡ after_end }
    {
        ExplainReporter {
            kept,
            out,
            after_end,
        }
    }

    // Counts a fault, lists it, and notes its rows, and whether it leads to a page after the stated end.
    fn add(&mut self, reported: &TracedFault)
        ensures added { Adds reported.now self.old self.new }
        ensures held { explain_held O.held self.new ≡ explain_held O.held self.old }
    {
        self.kept.tally.add(reported);
        self.kept.listing.receive(reported);
        self.kept.ranges.receive(reported);
        self.after_end.receive(reported);
    }

    // Notes the start of the page of a row, and whether it is one of an index.
    fn note(&mut self, row: &Row<'_>)
        ensures noted { Notes (row_of row.now) self.old self.new }
        ensures held { explain_held O.held self.new ≡ explain_held O.held self.old }
    {
        self.kept.trees.note(row);
        note_index(&mut self.kept.indexes, row);
    }

    /// After a failed read, puts the lines of the injuries found so far. That the Out fails then too is not reported.
    pub(crate) fn end(&mut self, answer: &Result<Verdict, RunError>)
        ensures lines { Ends O.held answer.now self.old self.new }
        ensures same_out { self.new.out.ghost_name ≡ self.old.out.ghost_name }
        ensures after_end { self.new.after_end ≡ self.old.after_end }
    {
        if let Err(RunError::ReadFailed) = answer {
            let _ = put_found(self.kept, self.out);
        }
    }
}

impl<A: Allocator, O: Out> Reporter for ExplainReporter<'_, A, O> {
    ghost use Rattle.dbexplain.specs.Reporting.{Receives, explain_held};

    ghost receives = { Receives };

    ghost held = { explain_held O.held };

    fn receive(&mut self, notice: &Notice<'_>) {
        match notice {
            Notice::Fault(reported) => self.add(reported),
            Notice::Row(_, row) => self.note(row),
            Notice::Ended(_) | Notice::Page(_, _, _) => {}
        }
    }

    fn is_shut(&self) -> bool {
        false
    }
}

impl<A: Allocator, O: Out> Finish<Desk<A>> for ExplainReporter<'_, A, O> {
    ghost use Rattle.dbexplain.specs.Reporting.{LeavesExplained};

    ghost leaves = { LeavesExplained O.held };

    fn finish<S: Source>(
        &mut self,
        desk: &mut Desk<A>,
        source: &mut S,
    ) -> Result<Verdict, RunError> {
        let faults = self.kept.tally.all();
        let verdict = Verdict::of(faults);
        if faults == 0 {
            put_ok(self.out)?;
            return Ok(verdict);
        }
        self.kept.listing.look_at_lost(desk, source)?;
        put_report(desk, self.kept, self.out)?;
        Ok(verdict)
    }
}
