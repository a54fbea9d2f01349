// A run: from the bytes of a database to what is written of them.
ghost use Rattle.std.specs.Prelude.{◌≡◌, ◌↔◌, IfOk, IfSome, OnOk};
ghost use Rattle.dbformat.specs.FixedPages.{geometry_of};
ghost use Rattle.dbformat.specs.Log.{IsPageLog, IsSomeRunLog};
ghost use Rattle.dbformat.specs.Sound.{Sound};
ghost use Rattle.dbscan.specs.DeskSizes.{DeskFitsInMemory};
ghost use Rattle.dbscan.specs.Kept.{HasUsed};
ghost use Rattle.dbreport.specs.Runs.{FailsAsAnswered, HasRun, HasRunAfterHeader, IsCheck, IsLeftAlone, SaysOkWhereSound};
ghost use Rattle.dbreport.specs.Runs.{ToldReportsAreRead, ToldRunsAreRead, ToldRunsOnAreRead};
ghost use Rattle.dbsource.specs.Headers.{IsHeaderOf};
ghost use Rattle.dbsource.specs.Snapshots.{HasRead, HasReadAfterHeader};

use crate::checking::CheckReporter;
use crate::opening::open_in;
use crate::statistics::{Form, StatReporter};
use dbformat::{Command, Verdict};
use dbscan::{Desk, run_over};
use dbsource::{Out, RunError, Source};
use std::alloc::Allocator;

/// Writes what `command` asks of the file whose header is on the desk: for a check the fault lines to `out`, and nothing to
/// `err`; for the statistics the rows to `out`, and all fault lines to `err`. The header is not read again, and a desk may be
/// used any number of times. Only the list of roots takes memory.
///
/// # Errors
///
/// [`RunError::ReadFailed`] exactly where the source failed, [`RunError::WriteFailed`] exactly where an out failed, and
/// [`RunError::OutOfMemory`] exactly where the list of roots was refused memory: then each out holds what it had and a
/// beginning of its part of the report.
pub fn run_on<A: Allocator, S: Source, O: Out, E: Out>(
    command: Command,
    desk: &mut Desk<A>,
    source: &mut S,
    out: &mut O,
    err: &mut E,
) -> Result<Verdict, RunError>
    // Whatever the source answers: there is a file of the desk's header that agrees with what was read after it, and of each
    // such file this was the run.
    ensures read { HasRunAfterHeader S.Source O.Out E.Out desk.old.header command result (source.old, out.old, err.old) (source.new, out.new, err.new) }
    // The verdict is `Clean` exactly where such a file is sound, and so where told bytes are, if the header is theirs.
    ensures sound { HasReadAfterHeader S.step (IsPageLog (geometry_of desk.old.header.bytes desk.old.header.file_len)) desk.old.header
        (λ file. IfOk result (λ v. v ≡ Verdict.Clean ↔ Sound file)) (S.held source.old) (S.held source.new) }
    ensures told { IfSome (S.held source.old).bytes (λ file. IsHeaderOf desk.old.header file → IfOk result (λ v. v ≡ Verdict.Clean ↔ Sound file)) }
    // A check wrote the line `ok` exactly where such a file is sound.
    ensures ok { HasReadAfterHeader S.step (IsPageLog (geometry_of desk.old.header.bytes desk.old.header.file_len)) desk.old.header
        (λ file. OnOk result (SaysOkWhereSound command file (O.held out.old).bytes (O.held out.new).bytes)) (S.held source.old) (S.held source.new) }
    ensures failed { FailsAsAnswered S.Source O.Out E.Out command result (source.old, out.old, err.old) (source.new, out.new, err.new) }
    ensures second { IsCheck command → err.new ≡ err.old }
    ensures desk { HasUsed result desk.old desk.new }
{
    match command {
        Command::Check { limit } => {
            let mut reporter = CheckReporter::new(out, limit);
            run_over(desk, source, &mut reporter)
        }
        Command::Stat { aggregate, all } => {
            let form = Form { aggregate, all };
            let encoding = desk.header().encoding();
            let page_size = desk.geometry().page_size;
            let mut reporter = StatReporter::new(out, err, encoding, page_size, form);
            run_over(desk, source, &mut reporter)
        }
    }
}

/// Reads the database that `source` gives, and writes what `command` asks of it: for a check the fault lines to `out`,
/// and nothing to `err`; for the statistics the rows to `out`, and all fault lines to `err`. What it keeps of the file
/// is on a [`Desk`], in memory from `alloc`, which may be any allocator.
///
/// The statistics flush the one Out before they put to the other, so that rows and faults come in the order of the report
/// where both lead to one place. What was put last may be pending at the end: a caller flushes both.
///
/// # Errors
///
/// [`RunError::Refused`] where the file is not read at all: then nothing but its header was asked for, and nothing was
/// written. [`RunError::ReadFailed`] where the source failed, [`RunError::OutOfMemory`] where a growth was refused, and
/// [`RunError::WriteFailed`] where an out failed: then each out holds what it had and a beginning of its part of the report.
pub fn run<A: Allocator + Copy, S: Source, O: Out, E: Out>(
    alloc: A,
    command: Command,
    source: &mut S,
    out: &mut O,
    err: &mut E,
) -> Result<Verdict, RunError>
    // The desk fits in memory, as it does unless the allocator itself is nearly that large.
    requires fits { DeskFitsInMemory A.row A.Allocator }
    // Whatever the source answers: there is a file, of the length that it answered, that agrees with every byte that the run
    // used, and of each such file this was the run.
    ensures read { HasRun S.Source O.Out E.Out command result (source.old, out.old, err.old) (source.new, out.new, err.new) }
    // The verdict is `Clean` exactly where the file is sound: each file that agrees with what was read, and so told bytes.
    ensures sound { HasRead S.step S.lengths IsSomeRunLog (λ file ranges. IfOk result (λ v. v ≡ Verdict.Clean ↔ Sound file))
        (S.held source.old) (S.held source.new) }
    ensures told { IfSome (S.held source.old).bytes (λ file. IfOk result (λ v. v ≡ Verdict.Clean ↔ Sound file)) }
    // A check wrote the line `ok` exactly where the file is sound.
    ensures ok { HasRead S.step S.lengths IsSomeRunLog
        (λ file ranges. OnOk result (SaysOkWhereSound command file (O.held out.old).bytes (O.held out.new).bytes)) (S.held source.old) (S.held source.new) }
    ensures failed { FailsAsAnswered S.Source O.Out E.Out command result (source.old, out.old, err.old) (source.new, out.new, err.new) }
    ensures refused { IsLeftAlone S.Source O.Out E.Out result (source.old, out.old, err.old) (source.new, out.new, err.new) }
    ensures second { IsCheck command → err.new ≡ err.old }
{
    match open_in(alloc, source) {
        Ok(mut desk) => run_on(command, &mut desk, source, out, err),
        Err(error) => Err(error),
    }
}

/// What [`run`] says of each file that agrees with what was read is so of the bytes that a source tells, as memory does: by any
/// survey of them each Out got its part of the report, `Clean` is the answer exactly where they are sound, and so on. The same
/// holds of [`run_on`], where the desk's header is theirs, and of a run that writes another report.
pub fn told_files_are_run<S: Source>()
    ensures runs { ToldRunsAreRead S.step S.lengths }
    ensures runs_on { ToldRunsOnAreRead S.step }
    ensures reports { ToldReportsAreRead S.step S.lengths }
{}
