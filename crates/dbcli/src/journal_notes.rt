// The notes on a rollback journal that was read.
use crate::lookup::super_path;
use crate::note::{NoteOut, Piece, by_number};
use crate::shown::Shown;
use dblog::{Cold, Journal, JournalError, Rollback};
use dbsource::Out;
use std::alloc::Global;

// How many pages the journal gives.
fn given_pages(journal: &Journal) -> u64 {
    let mut count = 0u64;
    for entry in journal.entries() {
        if entry.page() <= journal.pages() {
            count = count.saturating_add(1);
        }
    }
    count
}

// Puts the note on what is read.
fn put_given<N: Out>(notes: &mut NoteOut<'_, N>, name: &Shown, journal: &Journal) {
    let given = given_pages(journal);
    let had = u64::from(journal.pages());
    notes.put(
        name,
        &[
            Piece::Words(": "),
            Piece::Number(given),
            by_number(given, " page is read from it", " pages are read from it"),
            Piece::Words("; the database had "),
            Piece::Number(had),
            by_number(had, " page", " pages"),
        ],
    );
}

// Puts the note on a journal that names a super-journal which is not there.
fn put_absent<N: Out>(alloc: Global, notes: &mut NoteOut<'_, N>, label: &str, path: &str) {
    if let Ok(text) = format!(in alloc; "{label} names the super-journal {path}")
        && let Ok(text) = Shown::of(alloc, text.as_str())
    {
        notes.put(
            &text,
            &[Piece::Words(", which is not here, and is not rolled back (see the manual)")],
        );
    }
}

// What is said of a journal whose super-journal cannot be looked up.
const NOT_LOOKED_UP: &str =
    " names a super-journal whose name is not UTF-8: it is not known whether that is here, and it is not rolled back (see the manual)";

// What is said of a journal of which nothing is used.
fn cold_text(cold: Cold) -> &'static str {
    match cold {
        Cold::Short => " has fewer than 512 bytes, and is not rolled back: ask for all of it",
        Cold::Zeroed => " begins with 0, and is not rolled back: SQLite does not need it",
        Cold::NoMagic => {
            " does not begin as a journal does, and is not rolled back: ask for it again"
        }
        Cold::Sizes => {
            " states a size of a page or sector that cannot be, and is not rolled back: ask for it again"
        }
    }
}

// Puts the note on a journal that was read, and is rolled back if anything of it is used.
fn put_read<N: Out>(notes: &mut NoteOut<'_, N>, name: &Shown, found: &Rollback) {
    match found.journal() {
        Ok(journal) if found.len() > 0 => put_given(notes, name, journal),
        Ok(_) => notes.put(
            name,
            &[Piece::Words(" holds nothing that SQLite would read")],
        ),
        Err(cold) => notes.put(name, &[Piece::Words(cold_text(*cold))]),
    }
}

/// Puts the note on a journal of this name: what was found in it, and whether the super-journal is there that it names.
pub(crate) fn put_journal<N: Out>(
    alloc: Global,
    notes: &mut NoteOut<'_, N>,
    label: &str,
    found: &Rollback,
    is_there: bool,
) {
    let Ok(name) = Shown::of(alloc, label) else {
        return;
    };
    match found.name() {
        Some(named) if !is_there => match super_path(named.bytes()) {
            Some(path) => put_absent(alloc, notes, label, path),
            None => notes.put(&name, &[Piece::Words(NOT_LOOKED_UP)]),
        },
        _ => put_read(notes, &name, found),
    }
}

/// Puts the note on a journal of this name that was not read, or whose database could not be read before it.
pub(crate) fn put_unread<N: Out>(notes: &mut NoteOut<'_, N>, name: &Shown, error: JournalError) {
    match error {
        JournalError::ReadFailed => {
            notes.put(name, &[Piece::Words(" or its database cannot be read")]);
        }
        JournalError::TooLong => notes.put(
            name,
            &[Piece::Words(" has 32 GiB or more, and is not read")],
        ),
        JournalError::OutOfMemory(_) => {}
    }
}
