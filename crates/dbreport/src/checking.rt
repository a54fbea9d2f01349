// A check of a file: what it writes of the notices that it receives.
ghost use Rattle.std.specs.Prelude.{◌≡◌, IfOk, false};
ghost use Rattle.dbsource.specs.Outs.{Puts};
ghost use Rattle.dbreport.specs.CheckReporter.{end_text, found_verdict};

use dbformat::Verdict;
use dblines::{put_fault, put_ok, put_rest};
use dbscan::{Desk, Finish, Notice, Reporter};
use dbsource::{Out, RunError, Source, WriteFailed};
use std::alloc::Allocator;

// Writes the lines of the first faults as they come, and counts the others. It holds no list. Its Out is a writer's: nothing is put to
// it after it failed. A `Writer` in a field would hide from contracts what the Out holds in the end.
#[derive(Drop)]
pub(crate) struct CheckReporter<'a, O> {
    out: &'a mut O,
    has_failed: bool,
    limit: u32,
    shown: u32,
    more: u64,
}

impl<'a, O: Out> CheckReporter<'a, O> {
    // One that received nothing, and shows `limit` faults at most.
    pub(crate) fn new(out: &'a mut O, limit: u32) -> CheckReporter<'a, O>
        ensures same_out { result.out.ghost_name ≡ out.entry.ghost_name }
        ensures out { result.out.now ≡ out.old }
        ensures open { result.has_failed ≡ false }
        ensures limit { result.limit ≡ limit }
        ensures shown { result.shown ≡ 0 }
        ensures more { result.more ≡ 0 }
    {
        CheckReporter {
            out,
            has_failed: false,
            limit,
            shown: 0,
            more: 0,
        }
    }

    // Puts the last line, that there is no fault or how many there are beside those shown, and answers what was found.
    fn end(&mut self) -> Result<Verdict, WriteFailed>
        ensures same_out { self.new.out.ghost_name ≡ self.old.out.ghost_name }
        ensures text { Puts result (O.held self.old.out.now) (O.held self.new.out.now) (end_text self.old.shown self.old.more) }
        ensures failed { self.new.has_failed ≡ self.old.has_failed }
        ensures verdict { IfOk result (λ v. v ≡ found_verdict self.old.shown self.old.more) }
    {
        let count = u64::from(self.shown).saturating_add(self.more);
        if count == 0 {
            put_ok(self.out)?;
        } else {
            put_rest(self.out, self.more)?;
        }
        Ok(Verdict::of(count))
    }
}

// Where a fault is found is nothing to a check.
impl<O: Out> Reporter for CheckReporter<'_, O> {
    ghost use Rattle.dbscan.specs.Notices.{ReceivesFaults};
    ghost use Rattle.dbreport.specs.CheckReporter.{ShowsFault, check_held};

    ghost receives = { ReceivesFaults (ShowsFault O.held) };

    ghost held = { check_held O.held };

    // Puts the line of a fault, unless the Out failed before, or counts it.
    #[tactic(auto, using(dblines::proofs::Writing::wrote_nothing))]
    fn receive(&mut self, notice: &Notice<'_>) {
        let Notice::Fault(reported) = notice else {
            return;
        };
        if self.shown >= self.limit {
            self.more = self.more.saturating_add(1);
            return;
        }
        if !self.has_failed {
            self.has_failed = put_fault(self.out, &reported.fault).is_err();
        }
        self.shown += 1;
    }

    fn is_shut(&self) -> bool {
        self.has_failed
    }
}

impl<O: Out, A: Allocator> Finish<Desk<A>> for CheckReporter<'_, O> {
    ghost use Rattle.dbreport.specs.CheckReporter.{LeavesCheck};

    ghost leaves = { LeavesCheck O.held };

    fn finish<S: Source>(
        &mut self,
        _desk: &mut Desk<A>,
        _source: &mut S,
    ) -> Result<Verdict, RunError> {
        Ok(self.end()?)
    }
}
