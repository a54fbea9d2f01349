// A file, the rollback journal beside it, and its write-ahead log.
ghost use Rattle.std.specs.Prelude.{◌≡◌, IfSome};
ghost use Rattle.dbsource.specs.Sources.{AreBytes};
ghost use Rattle.dbcli.specs.Beside.{RunsFiles, RunsJournal, RunsRolled, journal_run_error};

use crate::beside::{fits, run_base};
use crate::command_line::Line;
use crate::error_lines::Unrun;
use crate::finishing::{end, put_unrun};
use crate::lookup::Lookup;
use crate::notes::FileNotes;
use crate::progress::Progress;
use dblog::{JournalError, Logged, Rollback};
use dbsource::{Out, RunError, Source};

// The error that ends a run where a journal was not read.
fn run_error(error: JournalError) -> RunError
    ensures { result ≡ journal_run_error error }
{
    match error {
        JournalError::OutOfMemory(refused) => RunError::from(refused),
        JournalError::ReadFailed | JournalError::TooLong => RunError::ReadFailed,
    }
}

// Runs a line over what a journal makes of a file, if they fit, and over the write-ahead log, if there is one.
fn run_rolled<R: Lookup + AllocGlobal, S: Source + Drop, O: Out, E: Out, N: Out, W: Print>(
    line: &Line<'_>,
    opened: (Logged<S, S>, Option<S>),
    out: &mut O,
    err: &mut E,
    notes: &mut FileNotes<'_, R, N>,
    progress: &Progress<W>,
) -> (u8, (Logged<S, S>, Option<S>))
    ensures { RunsRolled S.Source O.Out E.Out line.now.changes line.now.task result.0 (opened, out.old, err.old) (result.1, out.new, err.new) }
{
    let (rolled, wal) = opened;
    let (looked, rolled) = fits(line, rolled);
    match looked {
        Ok(is_fit) => {
            if is_fit {
                notes.joined(line.task);
                return run_base(line, (rolled, wal), out, err, notes, progress);
            }
            put_unrun(err, Unrun::PageSize, notes);
            (3, (rolled, wal))
        }
        Err(error) => (end(err, Err(RunError::from(error)), notes), (rolled, wal)),
    }
}

// Runs a line over a file and its journal: over what it makes of the file, if it is rolled back.
fn run_journal<R: Lookup + AllocGlobal, S: Source + Drop, O: Out, E: Out, N: Out, W: Print>(
    line: &Line<'_>,
    opened: (S, S, Option<S>),
    out: &mut O,
    err: &mut E,
    notes: &mut FileNotes<'_, R, N>,
    progress: &Progress<W>,
) -> (u8, (S, S, Option<S>))
    ensures { RunsJournal S.Source O.Out E.Out (R.finds notes.old.rt.now) line.now.changes line.now.task result.0 (opened, out.old, err.old)
        (result.1, out.new, err.new) }
{
    let (mut base, mut journal, wal) = opened;
    let found = Rollback::find(notes.alloc(), &mut base, &mut journal);
    match found {
        Ok(found) => {
            let is_there = notes.has_super(&found);
            notes.journal_read(&found, is_there);
            let len = found.len();
            match found.into_pages(is_there) {
                Some(pages) => {
                    let rolled = Logged::new(pages, base, len, journal);
                    let (status, (rolled, wal)) = run_rolled(
                        line,
                        (rolled, wal),
                        out,
                        err,
                        notes,
                        progress,
                    );
                    let (base, journal) = rolled.into_inner();
                    (status, (base, journal, wal))
                }
                None => {
                    let (status, (base, wal)) = run_base(
                        line,
                        (base, wal),
                        out,
                        err,
                        notes,
                        progress,
                    );
                    (status, (base, journal, wal))
                }
            }
        }
        Err(error) => {
            notes.journal_unread(error);
            let status = end(err, Err(run_error(error)), notes);
            (status, (base, journal, wal))
        }
    }
}

/// Runs a line over what was opened, and answers the exit status, and what is to be given back.
pub(crate) fn run_files<
    R: Lookup + AllocGlobal,
    S: Source + Drop,
    O: Out,
    E: Out,
    N: Out,
    W: Print,
>(
    line: &Line<'_>,
    opened: (S, Option<S>, Option<S>),
    out: &mut O,
    err: &mut E,
    notes: &mut FileNotes<'_, R, N>,
    progress: &Progress<W>,
) -> (u8, (S, Option<S>, Option<S>))
    ensures { RunsFiles S.Source O.Out E.Out (R.finds notes.old.rt.now) line.now.changes line.now.task result.0 opened result.1 (out.old, err.old)
        (out.new, err.new) }
{
    let (base, journal, wal) = opened;
    match journal {
        None => {
            let (status, (base, wal)) = run_base(line, (base, wal), out, err, notes, progress);
            (status, (base, None, wal))
        }
        Some(journal) => {
            let (status, (base, journal, wal)) = run_journal(
                line,
                (base, journal, wal),
                out,
                err,
                notes,
                progress,
            );
            (status, (base, Some(journal), wal))
        }
    }
}
