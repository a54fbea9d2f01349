// What is asked of a file, and the run that answers it.
ghost use Rattle.std.specs.Prelude.{◌≡◌};
ghost use Rattle.dbformat.specs.File.{geometry};
ghost use Rattle.dbformat.specs.Log.{IsRunLog, IsSomeRunLog};
ghost use Rattle.dbreport.specs.Runs.{IsLeftAlone};
ghost use Rattle.dbsource.specs.Errors.{is_read_failed};
ghost use Rattle.dbsource.specs.Failures.{failures_after};
ghost use Rattle.dbsource.specs.Snapshots.{HasRead};
ghost use Rattle.dbexplain.specs.Runs.{verdict_in};
ghost use Rattle.dbcli.specs.Requests.{IsRunFor, OutsFail, WritesToFirst};

use crate::finishing::Notes;
use dbexplain::{Explanation, explain};
use dbmap::map;
use dbreport::{Command, Verdict, run};
use dbsource::{Out, RunError, Source};
use std::alloc::Global;

/// What is asked of a file.
#[derive(Clone, Copy)]
pub enum Request<'a> {
    /// Its faults, or its rows.
    Report(Command),
    /// The first `limit` injuries, from 1 to 10000, with what is known of their pages, and how many faults there are of
    /// each code and tree.
    Explain { limit: u32 },
    /// A picture of its pages, under this name.
    Map { name: &'a str },
}

// The verdict of an explanation, whose count of references goes to the notes.
fn reported_verdict<N: Notes>(
    answer: Result<Explanation, RunError>,
    notes: &mut N,
) -> Result<Verdict, RunError>
    ensures { result ≡ verdict_in answer }
{
    let explanation = answer?;
    notes.report_references(explanation.after_end);
    Ok(explanation.verdict)
}

/// Runs the request on the file that `source` gives, as [`run`], [`explain`] and [`map`] do.
///
/// # Errors
///
/// Those of these functions.
pub(crate) fn run_request<S: Source, O: Out, E: Out, N: Notes>(
    alloc: Global,
    request: Request<'_>,
    source: &mut S,
    out: &mut O,
    err: &mut E,
    notes: &mut N,
) -> Result<Verdict, RunError>
    ensures read { HasRead S.step S.lengths IsSomeRunLog
        (λ file ranges. IsRunLog (geometry file) ranges × IsRunFor request.entry file result
        (O.held out.old) (O.held out.new) (E.held err.old) (E.held err.new)) (S.held source.old) (S.held source.new) }
    ensures reads { (S.held source.new).failures ≡ failures_after is_read_failed result (S.held source.old).failures }
    ensures writes { OutsFail result request.entry (O.held out.old) (O.held out.new) (E.held err.old) (E.held err.new) }
    ensures refused { IsLeftAlone S.Source O.Out E.Out result (source.old, out.old, err.old) (source.new, out.new, err.new) }
    ensures second { WritesToFirst request.entry → err.new ≡ err.old }
{
    match request {
        Request::Report(command) => run(alloc, command, source, out, err),
        Request::Explain { limit } => reported_verdict(explain(alloc, limit, source, out), notes),
        Request::Map { name } => map(alloc, name, source, out),
    }
}
