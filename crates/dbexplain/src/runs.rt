// A run of `explain`: from the bytes of a database to what is written of them.
ghost use Rattle.std.specs.Prelude.{◌≡◌, OnOk};
ghost use Rattle.dbformat.specs.Log.{IsSomeRunLog};
ghost use Rattle.dbscan.specs.DeskSizes.{DeskFitsInMemory};
ghost use Rattle.dbsource.specs.Snapshots.{HasRead};
ghost use Rattle.dbreport.specs.Runs.{IsUntouched, SaysOk};
ghost use Rattle.dbexplain.specs.Runs.{ExplainFails, HasExplained, answer_with, verdict_in};

use crate::after_end::AfterEnd;
use crate::kept::Kept;
use crate::reporter::ExplainReporter;
use dbformat::Verdict;
use dbreport::open_in;
use dbscan::run_over;
use dbsource::{Out, RunError, Source};
use std::alloc::Allocator;

/// What [`explain`] finds in a database.
#[derive(Clone, Copy)]
pub struct Explanation {
    pub verdict: Verdict,
    /// How many references lead to pages that are whole in the file, but after the end that its header states: of all faults, not only
    /// of those that are listed. It stops at the greatest number of 64 bits.
    pub after_end: u64,
}

// The answer of a run, with this number of references.
fn answer_with(answer: Result<Verdict, RunError>, after_end: u64) -> Result<Explanation, RunError>
    ensures { result ≡ answer_with answer after_end }
{
    match answer {
        Ok(verdict) => Ok(Explanation { verdict, after_end }),
        Err(error) => Err(error),
    }
}

/// Reads the database that `source` gives, and writes to `out` the faults that lead, `limit` at most: of each its line, where it is,
/// what it goes back to, and how many faults belong to it. Then how many faults there are by code and by tree. It reads what a
/// check reads, and then each page to which nothing refers, once, for what it looks like.
///
/// What it keeps is in memory from `alloc`, which may be any allocator: a [`Desk`](dbscan::Desk), `limit` injuries, 1000 ranges of rows,
/// counts for each start, and for each page four bytes and three bits. All of this is there before the first page is read; only the list of roots grows
/// after that.
///
/// # Errors
///
/// [`RunError::Refused`] where the file is not read at all: then nothing but its header was asked for, and nothing was written.
/// [`RunError::ReadFailed`] where the source failed: then the fault lines of the injuries found so far were written.
/// [`RunError::OutOfMemory`] where a growth was refused, and [`RunError::WriteFailed`] where the Out failed: then it holds what
/// it had and a beginning of the report.
pub fn explain<A: Allocator + Copy, S: Source, O: Out>(
    alloc: A,
    limit: u32,
    source: &mut S,
    out: &mut O,
) -> Result<Explanation, RunError>
    // The desk fits in memory, as it does unless the allocator itself is nearly that large.
    requires fits { DeskFitsInMemory A.row A.Allocator }
    // Whatever the source answers: there is a file, of the length that it answered, that agrees with every byte that the run
    // used, and of each such file this was the run, and these are its references to pages after its stated end.
    ensures read { HasExplained S.Source O.Out limit result (source.old, out.old) (source.new, out.new) }
    // At a verdict the line `ok` was written, and nothing else, exactly where the file is sound.
    ensures ok { HasRead S.step S.lengths IsSomeRunLog
        (λ file ranges. OnOk result (SaysOk file (O.held out.old).bytes (O.held out.new).bytes)) (S.held source.old) (S.held source.new) }
    ensures failed { ExplainFails S.Source O.Out (verdict_in result) (source.old, out.old) (source.new, out.new) }
    ensures refused { IsUntouched S.Source O.Out (verdict_in result) (source.old, out.old) (source.new, out.new) }
{
    let mut desk = open_in(alloc, source)?;
    let mut kept = Kept::new_in(alloc, limit, &desk.geometry())?;
    let after_end = AfterEnd::new(desk.header());
    let mut reporter = ExplainReporter::new(&mut kept, out, after_end);
    let answer = run_over(&mut desk, source, &mut reporter);
    reporter.end(&answer);
    answer_with(answer, reporter.after_end.references)
}
