// A file, and the write-ahead log beside it.
ghost use Rattle.std.specs.Prelude.{◌≡◌, IfSome, OnOk};
ghost use Rattle.dbsource.specs.Sources.{AreBytes};
ghost use Rattle.dbcli.specs.Beside.{FindsLog, FitsError, LooksAtHeader, LooksWith, RunsBase, RunsBeside, RunsLogged, is_used, log_line, log_status};
ghost use Rattle.dbcli.specs.Exit.{EndsWithLine};
ghost use Rattle.dbcli.specs.Finishing.{RunsInside};
ghost use Rattle.dbcli.specs.Tasks.{DoesWith};

use crate::command_line::Line;
use crate::error_lines::Unrun;
use crate::finishing::{Notes, end, finish_line, put_unrun};
use crate::lookup::Lookup;
use crate::notes::FileNotes;
use crate::progress::Progress;
use crate::watched::Watched;
use dblog::{Index, LogError, Logged};
use dbsource::{Header, OpenError, Out, Patched, ReadFailed, RunError, Source};
use std::alloc::Global;

// Runs a line over a source, and answers the exit status, and the source.
fn run_over<R: Lookup + AllocGlobal, S: Source + Drop, O: Out, E: Out, N: Out, W: Print>(
    line: &Line<'_>,
    source: S,
    out: &mut O,
    err: &mut E,
    notes: &mut FileNotes<'_, R, N>,
    progress: &Progress<W>,
) -> (u8, S)
    ensures { RunsInside S.Source O.Out E.Out line.now.changes (DoesWith S.Source O.Out E.Out line.now.changes line.now.task result.0) result.0
        (source, out.old, err.old) (result.1, out.new, err.new) }
{
    let patched = Patched::new(&line.changes, source);
    let mut watched = Watched::new(patched, notes.watch(), progress);
    let status = finish_line(notes.alloc(), line, &mut watched, out, err, notes);
    progress.wipe();
    (status, watched.into_inner().into_inner())
}

// Reads a log, and then asks for the length of its file.
fn find_log<B: Source, L: Source>(
    alloc: Global,
    base: &mut B,
    log: &mut L,
) -> Result<(Index, u64), LogError>
    ensures found { FindsLog B.Source L.Source result (base.old, log.old) (base.new, log.new) }
    ensures log { IfSome (L.held log.new).bytes AreBytes }
    ensures base { OnOk result (IfSome (B.held base.new).bytes AreBytes) }
{
    let index = Index::read(alloc, log)?;
    match base.len() {
        Ok(len) => Ok((index, len)),
        Err(error) => Err(LogError::from(error)),
    }
}

// Puts the line of a log that was not read, and answers its status.
fn end_log<E: Out, N: Notes>(err: &mut E, error: LogError, notes: &mut N) -> u8
    ensures status { result ≡ log_status error }
    ensures line { EndsWithLine (log_line error) 2 (E.held err.old) (E.held err.new) }
{
    match error {
        LogError::ReadFailed => end(err, Err(RunError::ReadFailed), notes),
        LogError::OutOfMemory(refused) => end(err, Err(RunError::from(refused)), notes),
        LogError::Version => {
            put_unrun(err, Unrun::Version, notes);
            3
        }
    }
}

// That a header fits that is refused.
fn unless_unread(error: OpenError) -> Result<bool, ReadFailed>
    ensures { FitsError error result }
{
    match error {
        OpenError::Refused(_) => Ok(true),
        OpenError::ReadFailed => Err(ReadFailed),
    }
}

// Whether the header of a database states this size of a page. One that is refused is left to the run.
fn has_size<S: Source>(size: u32, source: &mut S) -> Result<bool, ReadFailed>
    ensures { LooksAtHeader S.Source size result source.old source.new }
{
    match Header::read(source) {
        Ok(header) => Ok(header.geometry().page_size == size),
        Err(error) => unless_unread(error),
    }
}

// Whether the header of the database, with the changes of a line, states the page size of the log. Gives both back.
pub(crate) fn fits<B: Source + Drop, L: Source + Drop>(
    line: &Line<'_>,
    both: Logged<B, L>,
) -> (Result<bool, ReadFailed>, Logged<B, L>)
    ensures { LooksWith B.Source L.Source line.now.changes result.0 both result.1 }
{
    let size = both.page_size();
    let mut patched = Patched::new(&line.changes, both);
    let looked = has_size(size, &mut patched);
    (looked, patched.into_inner())
}

// Runs a line over a file and its log as one, if they fit.
fn run_logged<
    R: Lookup + AllocGlobal,
    B: Source + Drop,
    L: Source + Drop,
    O: Out,
    E: Out,
    N: Out,
    W: Print,
>(
    line: &Line<'_>,
    both: Logged<B, L>,
    out: &mut O,
    err: &mut E,
    notes: &mut FileNotes<'_, R, N>,
    progress: &Progress<W>,
) -> (u8, Logged<B, L>)
    ensures { RunsLogged B.Source L.Source O.Out E.Out line.now.changes line.now.task result.0 (both, out.old, err.old) (result.1, out.new, err.new) }
{
    let (looked, both) = fits(line, both);
    match looked {
        Ok(is_fit) => {
            if is_fit {
                notes.joined(line.task);
                return run_over(line, both, out, err, notes, progress);
            }
            put_unrun(err, Unrun::PageSize, notes);
            (3, both)
        }
        Err(error) => (end(err, Err(RunError::from(error)), notes), both),
    }
}

// Whether something of a log with this index is used beside a file of this length.
fn is_used(index: &Index, len: u64) -> bool
    ensures { result ≡ is_used index.now len }
{
    index.pages() > 0 && len > 0
}

// Runs a line over a file and its log: over both as one, if something of the log is used.
fn run_beside<
    R: Lookup + AllocGlobal,
    B: Source + Drop,
    L: Source + Drop,
    O: Out,
    E: Out,
    N: Out,
    W: Print,
>(
    line: &Line<'_>,
    opened: (B, L),
    out: &mut O,
    err: &mut E,
    notes: &mut FileNotes<'_, R, N>,
    progress: &Progress<W>,
) -> (u8, (B, L))
    ensures { RunsBeside B.Source L.Source O.Out E.Out line.now.changes line.now.task result.0 (opened, out.old, err.old) (result.1, out.new, err.new) }
{
    let (mut base, mut log) = opened;
    let found = find_log(notes.alloc(), &mut base, &mut log);
    notes.log_read(&found);
    match found {
        Ok((index, len)) => {
            if is_used(&index, len) {
                let both = Logged::new(index.into_pages(), base, len, log);
                let (status, both) = run_logged(line, both, out, err, notes, progress);
                return (status, both.into_inner());
            }
            let (status, base) = run_over(line, base, out, err, notes, progress);
            (status, (base, log))
        }
        Err(error) => (end_log(err, error, notes), (base, log)),
    }
}

/// Runs a line over a file and its write-ahead log, if it has one. Answers the exit status, and gives back the file and the log.
pub(crate) fn run_base<
    R: Lookup + AllocGlobal,
    B: Source + Drop,
    L: Source + Drop,
    O: Out,
    E: Out,
    N: Out,
    W: Print,
>(
    line: &Line<'_>,
    opened: (B, Option<L>),
    out: &mut O,
    err: &mut E,
    notes: &mut FileNotes<'_, R, N>,
    progress: &Progress<W>,
) -> (u8, (B, Option<L>))
    ensures { RunsBase B.Source L.Source O.Out E.Out line.now.changes line.now.task result.0 (opened, out.old, err.old) (result.1, out.new, err.new) }
{
    let (base, log) = opened;
    match log {
        None => {
            let (status, base) = run_over(line, base, out, err, notes, progress);
            (status, (base, None))
        }
        Some(log) => {
            let (status, (base, log)) = run_beside(line, (base, log), out, err, notes, progress);
            (status, (base, Some(log)))
        }
    }
}
