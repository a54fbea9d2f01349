// From the words of a command line to an exit status.
ghost use Rattle.std.specs.Prelude.{◌≡◌, map};
ghost use Rattle.dbcli.specs.Running.{AnswersWords, IsErrorStatus, RunsLine};

use crate::command_line::{Line, LineError, line_of};
use crate::error_lines::{error_line, no_memory_line};
use crate::finishing::end;
use crate::lookup::Lookup;
use crate::notes::FileNotes;
use crate::opened_files::{close_files, open_files};
use crate::opening::Opener;
use crate::progress::Progress;
use crate::rolled::run_files;
use crate::status::line_status;
use crate::unread::FailedReads;
use crate::unwritten::{FailedWrite, FailedWrites, StreamName};
use crate::watched::Watch;
use crate::words_error::WordsError;
use clap::error::ErrorKind;
use dbsource::{Out, RunError};
use std::io;

/// The system of a run: its memory, what it looks paths up by, its streams, and the opener of its files.
#[derive(Drop)]
pub struct System<'a, R, F> {
    /// Gives memory, and what is known of a path, for the notes.
    pub rt: &'a R,
    /// What failed of the streams that are written to, for the notes.
    pub writes: &'a FailedWrites,
    /// Which read of a file failed, for the notes.
    pub reads: &'a FailedReads,
    /// Opens the file of the run.
    pub files: F,
}

impl<'a, R, F> System<'a, R, F> {
    /// A system of these four.
    pub fn new(
        rt: &'a R,
        writes: &'a FailedWrites,
        reads: &'a FailedReads,
        files: F,
    ) -> System<'a, R, F>
        ensures { result.files ≡ files }
    {
        System {
            rt,
            writes,
            reads,
            files,
        }
    }
}

/// Runs what a line asks for, on its file, with its logs if the line asks for that, and with its changes, and answers the exit status.
/// What is reported of the file beside the report is put to `notes`, and the progress is wiped at the end.
pub fn run_line<R: Lookup + AllocGlobal, F: Opener, O: Out, E: Out, N: Out, W: Print>(
    system: &mut System<'_, R, F>,
    line: Line<'_>,
    out: &mut O,
    err: &mut E,
    notes: &mut N,
    progress: &Progress<W>,
) -> u8
    ensures { RunsLine F.opens F.opens_log F.closes F.File.Source O.Out E.Out (R.finds system.old.rt.now) line.entry.recovered line.entry.changes
        line.entry.task line.entry.file.now result (system.old.files, out.old, err.old) (system.new.files, out.new, err.new) }
{
    let watch = Watch::new();
    let (writes, reads) = (system.writes, system.reads);
    let mut notes = FileNotes::new(system.rt, line.file, &watch, writes, reads, notes);
    if !line.progress {
        progress.turn_off();
    }
    match open_files(&mut system.files, &line) {
        Ok(opened) => {
            notes.opened(line.recovered);
            let (status, left) = run_files(&line, opened, out, err, &mut notes, progress);
            close_files(&mut system.files, left);
            status
        }
        Err(error) => {
            notes.unopened(system.files.reason());
            end(err, Err(error), &mut notes)
        }
    }
}

/// Runs what the words ask for, or prints why they are not taken or the help that they ask for, and answers the exit
/// status. The first of them is the program's name. What is printed is the error of [`line_of`]; then nothing was opened,
/// and nothing was put to an Out or to the notes.
pub fn answer_words<
    'a,
    R: Lookup + AllocGlobal + Print + Eprint,
    F: Opener,
    O: Out,
    E: Out,
    N: Out,
    W: Print,
>(
    system: &mut System<'_, R, F>,
    words: &'a [&'a str],
    out: &mut O,
    err: &mut E,
    notes: &mut N,
    progress: &Progress<W>,
) -> u8
    ensures { AnswersWords F.opens F.opens_log F.closes F.File.Source O.Out E.Out (R.finds system.old.rt.now) N.Out
        (map (λ word. word.now) words.entry.now) result
        (system.old.files, out.old, err.old, notes.old) (system.new.files, out.new, err.new, notes.new) }
{
    let rt = system.rt;
    match line_of(rt.alloc(), words) {
        Ok(line) => run_line(system, line, out, err, notes, progress),
        Err(error) => report_error(rt, &error),
    }
}

// Prints what is wrong with the words, with the program's own name before it.
fn print_error<R: Eprint + AllocGlobal>(rt: &R, words: &WordsError) -> io::Result<()> {
    let Ok(text) = words.to_string(rt.alloc()) else {
        return rt.eprint(words);
    };
    match text.as_str().strip_prefix("error: ") {
        Some(said) => eprint!(rt; "dbck: {said}"),
        None => rt.eprint(words),
    }
}

// Prints that standard output cannot be written, after a note that says why, if the system said so.
fn print_unwritten<R: Eprint + AllocGlobal>(rt: &R, error: &io::Error) {
    if let Some(failed) = FailedWrite::of(StreamName::Output, error)
        && let Ok(said) = failed.text(rt.alloc())
    {
        let _ = eprint!(rt; "dbck: note: {said}\n");
    }
    let _ = rt.eprint(error_line(RunError::WriteFailed));
}

/// Prints why the words are no command line, or the help that they ask for, and answers the exit status: 6 where the
/// help cannot be printed.
pub fn report_error<R: Print + Eprint + AllocGlobal>(rt: &R, error: &LineError) -> u8
    ensures { IsErrorStatus result error.now }
{
    let status = line_status(error);
    let printed = match error {
        LineError::Words(words) => match words.kind() {
            ErrorKind::OutOfMemory => rt.eprint(no_memory_line()),
            ErrorKind::DisplayHelp | ErrorKind::DisplayVersion => rt.print(words),
            _ => print_error(rt, words),
        },
        _ => rt.eprintln(error),
    };
    match printed {
        Err(error) if status == 0 => {
            print_unwritten(rt, &error);
            6
        }
        _ => status,
    }
}
