// The logs of SQLite beside a database that are not read.
use crate::log::Log;
use crate::lookup::{LOGS_UNKNOWN, Lookup, is_nothing};
use crate::note::{NoteOut, Piece};
use crate::shown::Shown;
use dbsource::Out;
use std::alloc::AllocError;
use std::io;

// The logs, and what is said of each: a -wal has changes, and a -journal what undoes some.
const LOGS: [(Log, &str); 2] = [
    (
        Log::Wal,
        " is not read, and may hold changes; --recovered reads it",
    ),
    (
        Log::Journal,
        " is not read, and may undo changes; --recovered reads it",
    ),
];

// Whether there is a file at this path that is not empty, or something that cannot be seen.
fn has_bytes<R: Lookup>(rt: &R, path: &str) -> bool {
    match rt.metadata(path) {
        Ok(metadata) => metadata.is_file() && metadata.len() > 0,
        Err(error) => !is_nothing(path, &error) && error.kind() != io::ErrorKind::OutOfMemory,
    }
}

// Puts a note on the log that is named so beside a database, if it is not empty.
fn put_note<R: Lookup + AllocGlobal, N: Out>(
    rt: &R,
    database: &str,
    log: (Log, &'static str),
    notes: &mut NoteOut<'_, N>,
) -> Result<(), AllocError> {
    let (log, said) = log;
    let path = log.beside(rt.alloc(), database)?;
    if has_bytes(rt, path.as_str()) {
        let name = Shown::of(rt.alloc(), path.as_str())?;
        notes.put(&name, &[Piece::Words(said)]);
    }
    Ok(())
}

/// Puts a note for each log of the database at `file` that is not empty, or cannot be looked at. If `file` is a link, the logs are those
/// beside what it leads to; if that is not known, a note says so. A line that cannot be put is left out.
pub(crate) fn put_log_notes<R: Lookup + AllocGlobal, N: Out>(
    rt: &R,
    file: &str,
    notes: &mut NoteOut<'_, N>,
) {
    match rt.link_target(file) {
        Ok(target) => {
            let database = target.as_deref().unwrap_or(file);
            for log in LOGS {
                let _ = put_note(rt, database, log, notes);
            }
        }
        Err(_) => {
            if let Ok(name) = Shown::of(rt.alloc(), file) {
                notes.put(&name, &[Piece::Words(": "), Piece::Words(LOGS_UNKNOWN)]);
            }
        }
    }
}
