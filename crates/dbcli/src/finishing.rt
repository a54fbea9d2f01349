// From an opened file to an exit status.
ghost use Rattle.std.specs.Prelude.{◌≡◌, [], IfErr, OnOk};
ghost use Rattle.dbreport.specs.Runs.{IsUnwritten};
ghost use Rattle.dbcli.specs.ErrorLines.{error_line, unrun_line};
ghost use Rattle.dbcli.specs.Exit.{EndsWithLine, IsKnown};
ghost use Rattle.dbcli.specs.Finishing.{FailsByStatus, IsFinished, LeavesFirst, LeavesSecond, RunsInside, ToldFilesAreFinished};
ghost use Rattle.dbcli.specs.Handing.{IsHanded, IsMendHanded};
ghost use Rattle.dbcli.specs.Status.{exit_status};
ghost use Rattle.dbcli.specs.Tasks.{Does, LeavesMend};

use crate::command_line::Line;
use crate::error_lines::{Unrun, error_line, unrun_line};
use crate::request::{Request, run_request};
use crate::status::status_of;
use crate::task::Task;
use dbmend::mend;
use dbreport::Verdict;
use dbsource::{Changes, Out, RunError, Source};
use std::alloc::Global;

/// Learns of a run, and reports what does not go to its two Outs, which it does not touch.
pub trait Notes {
    /// The run begins, over the file with these changes.
    fn begin(&mut self, changes: &Changes);

    /// Called with the number of references that lead to pages after the stated end, before the outcome is reported.
    fn report_references(&mut self, count: u64);

    /// The run has this outcome. The line of an error is not yet put.
    fn report_outcome(&mut self, outcome: &Result<Verdict, RunError>);

    /// There is no run, for this reason. The line of that is not yet put.
    fn report_unrun(&mut self, why: Unrun);
}

// Ends a run by a line: hands on what is pending, lets the notes be put, puts the line, and hands that on, as far as it can. If handing
// on and the line both fail, no more is tried.
fn put_last<E: Out, F: FnOnce()>(err: &mut E, line: &str, put_notes: F)
    requires { F.pre put_notes }
    ensures { EndsWithLine line.now 2 (E.held err.old) (E.held err.new) }
{
    let is_flushed = err.flush().is_ok();
    put_notes();
    let is_put = err.put(line.as_bytes()).is_ok();
    if is_flushed || is_put {
        let _ = err.flush();
    }
}

// Ends a line of which there is no run.
pub(crate) fn put_unrun<E: Out, N: Notes>(err: &mut E, why: Unrun, notes: &mut N)
    ensures { EndsWithLine (unrun_line why) 2 (E.held err.old) (E.held err.new) }
{
    put_last(err, unrun_line(why), || notes.report_unrun(why));
}

/// Ends a run: gives the notes the outcome; at an error puts its line to `err`, after the notes, and hands it on, as
/// far as it can. Answers the status of the outcome.
pub fn end<E: Out, N: Notes>(err: &mut E, outcome: Result<Verdict, RunError>, notes: &mut N) -> u8
    ensures status { result ≡ exit_status outcome }
    ensures quiet { OnOk outcome (E.held err.new ≡ E.held err.old) }
    ensures line { IfErr outcome (λ error. EndsWithLine (error_line error) 2 (E.held err.old) (E.held err.new)) }
{
    match outcome {
        Ok(_) => notes.report_outcome(&outcome),
        Err(error) => put_last(err, error_line(error), || notes.report_outcome(&outcome)),
    }
    status_of(&outcome)
}

/// Hands on what is pending: after a verdict that of both Outs; after an error that is no refusal that of `out` alone, and the error stays
/// even if that fails. At a refusal nothing was written.
///
/// # Errors
///
/// The error of `outcome`, and [`RunError::WriteFailed`] where an Out fails after a verdict.
pub fn hand_on<O: Out, E: Out>(
    out: &mut O,
    err: &mut E,
    outcome: Result<Verdict, RunError>,
) -> Result<Verdict, RunError>
    ensures handed { IsHanded outcome result (O.held out.old) (O.held out.new) (E.held err.old) (E.held err.new) }
    ensures refused { IsUnwritten outcome out.old out.new }
{
    match outcome {
        Ok(verdict) => {
            out.flush()?;
            err.flush()?;
            Ok(verdict)
        }
        Err(RunError::Refused(_)) => outcome,
        Err(error) => {
            let _ = out.flush();
            Err(error)
        }
    }
}

/// Runs the request on the source, and answers the exit status. What was put to `out` and then what was put to `err` is
/// handed on before the status is decided. After an error, unless the file is refused, only `out` is tried; then the
/// line of the error is put to `err` and handed on, if it can be.
pub fn finish<S: Source, O: Out, E: Out, N: Notes>(
    alloc: Global,
    request: Request<'_>,
    source: &mut S,
    out: &mut O,
    err: &mut E,
    notes: &mut N,
) -> u8
    ensures read { IsFinished S.Source O.Out E.Out [] request.entry result (source.old, out.old, err.old) (source.new, out.new, err.new) }
    ensures status { IsKnown result }
    ensures failed { FailsByStatus S.Source O.Out E.Out result (source.old, out.old, err.old) (source.new, out.new, err.new) }
    ensures first { LeavesFirst S.Source O.Out E.Out request.entry result out.old out.new }
    ensures second { LeavesSecond S.Source O.Out E.Out request.entry result err.old err.new }
{
    let outcome = run_request(alloc, request, source, out, err, notes);
    let outcome = hand_on(out, err, outcome);
    end(err, outcome, notes)
}

// Hands on what a mend wrote, as `hand_on` does of a run. At a refusal all of its text was written, so `out` is flushed then, too.
fn hand_on_mend<O: Out, E: Out>(
    out: &mut O,
    err: &mut E,
    answer: Result<Verdict, RunError>,
) -> Result<Verdict, RunError>
    ensures { IsMendHanded answer result (O.held out.old) (O.held out.new) (E.held err.old) (E.held err.new) }
{
    match answer {
        Ok(_) => hand_on(out, err, answer),
        Err(error) => match error {
            RunError::Refused(_) => {
                out.flush()?;
                answer
            }
            _ => hand_on(out, err, answer),
        },
    }
}

/// Mends the file that the source gives, with at most `limit` changes, and answers the exit status, which is that of the file as it is.
/// The text is handed on before the status is decided; after an error the line of it is put to `err` and handed on, if it can be.
pub(crate) fn finish_mend<S: Source, O: Out, E: Out, N: Notes>(
    alloc: Global,
    limit: u32,
    source: &mut S,
    out: &mut O,
    err: &mut E,
    notes: &mut N,
) -> u8
    ensures { LeavesMend S.Source O.Out E.Out limit result (source.old, out.old, err.old) (source.new, out.new, err.new) }
{
    let answer = mend(alloc, limit, source, out);
    let outcome = hand_on_mend(out, err, answer);
    end(err, outcome, notes)
}

// Does what a line asks for.
fn do_task<S: Source, O: Out, E: Out, N: Notes>(
    alloc: Global,
    task: Task<'_>,
    source: &mut S,
    out: &mut O,
    err: &mut E,
    notes: &mut N,
) -> u8
    ensures { Does S.Source O.Out E.Out task.entry result (source.old, out.old, err.old) (source.new, out.new, err.new) }
{
    match task {
        Task::Run(request) => finish(alloc, request, source, out, err, notes),
        Task::Mend { limit } => finish_mend(alloc, limit, source, out, err, notes),
    }
}

/// Does what a line asks for, with a source that gives the file with the changes of the line. Where the line has changes, the length of
/// the file is asked for first, and there is a run only if all changes are inside it.
pub(crate) fn finish_line<S: Source, O: Out, E: Out, N: Notes>(
    alloc: Global,
    line: &Line<'_>,
    source: &mut S,
    out: &mut O,
    err: &mut E,
    notes: &mut N,
) -> u8
    ensures { RunsInside S.Source O.Out E.Out line.now.changes (Does S.Source O.Out E.Out line.now.task result) result
        (source.old, out.old, err.old) (source.new, out.new, err.new) }
{
    let changes = &line.changes;
    if changes.as_slice().is_empty() {
        return do_task(alloc, line.task, source, out, err, notes);
    }
    match source.len() {
        Ok(len) if changes.are_inside(len) => {
            notes.begin(changes);
            do_task(alloc, line.task, source, out, err, notes)
        }
        Ok(_) => {
            put_unrun(err, Unrun::PastEnd, notes);
            3
        }
        Err(error) => end(err, Err(RunError::from(error)), notes),
    }
}

/// What [`finish`] says of each file that agrees with what was read is so of the bytes that a source tells, as memory does:
/// what was written is theirs, and of the statuses 0 and 1 it is 0 exactly where they are sound.
pub fn told_files_are_finished<S: Source>()
    ensures { ToldFilesAreFinished S.step S.lengths }
{}
