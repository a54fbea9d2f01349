// The notes on a write-ahead log that was read.

use crate::note::{NoteOut, Piece, by_number};
use crate::shown::Shown;
use dblog::{Counts, Index, LogError};
use dbsource::Out;

// How many pages the log gives.
fn given_pages(index: &Index) -> u64 {
    let mut count = 0u64;
    for entry in index.entries() {
        if entry.page() <= index.pages() {
            count = count.saturating_add(1);
        }
    }
    count
}

// Puts the note on what is read.
fn put_given<N: Out>(notes: &mut NoteOut<'_, N>, name: &Shown, index: &Index) {
    let pages = given_pages(index);
    let transactions = u64::from(index.counts().transactions);
    notes.put(
        name,
        &[
            Piece::Words(": "),
            Piece::Number(pages),
            by_number(pages, " page of ", " pages of "),
            Piece::Number(transactions),
            by_number(transactions, " transaction", " transactions"),
            by_number(pages, " is read from it", " are read from it"),
        ],
    );
}

// Puts the note on frames after the last transaction, if there are some.
fn put_uncommitted<N: Out>(notes: &mut NoteOut<'_, N>, name: &Shown, counts: Counts) {
    let left = u64::from(counts.frames.saturating_sub(counts.committed));
    if left > 0 {
        let noun = by_number(left, " frame", " frames");
        let said = by_number(
            left,
            " of a transaction that was not committed is left out",
            " of a transaction that was not committed are left out",
        );
        notes.put(name, &[Piece::Words(": "), Piece::Number(left), noun, said]);
    }
}

// Puts the note on the first frame that is not valid, if there is one.
fn put_broken<N: Out>(notes: &mut NoteOut<'_, N>, name: &Shown, counts: Counts) {
    let Some(at) = counts.broken else {
        return;
    };
    let later = u64::from(counts.later);
    let frame = u64::from(counts.frames).saturating_add(1);
    let left = by_number(
        later,
        " frame after it has the log's salts, and is left out",
        " frames after it have the log's salts, and are left out",
    );
    notes.put(
        name,
        &[
            Piece::Words(": frame "),
            Piece::Number(frame),
            Piece::Words(" is not valid, at byte "),
            Piece::Number(at),
            Piece::Words("; "),
            Piece::Number(later),
            left,
        ],
    );
}

// Puts the notes on a log with this index.
fn put_index<N: Out>(notes: &mut NoteOut<'_, N>, name: &Shown, index: &Index, len: u64) {
    if index.pages() > 0 && len > 0 {
        put_given(notes, name, index);
    } else {
        notes.put(
            name,
            &[Piece::Words(" holds nothing that SQLite would read")],
        );
    }
    put_uncommitted(notes, name, index.counts());
    put_broken(notes, name, index.counts());
}

/// Puts the notes on a log: what was found in it, or why it is not read.
pub(crate) fn put_found<N: Out>(
    notes: &mut NoteOut<'_, N>,
    name: &Shown,
    found: &Result<(Index, u64), LogError>,
) {
    match found {
        Ok((index, len)) => put_index(notes, name, index, *len),
        Err(LogError::ReadFailed) => notes.put(
            name,
            &[Piece::Words(" cannot be read, or the length of its database is not known")],
        ),
        Err(LogError::Version) => notes.put(
            name,
            &[Piece::Words(" has a version that SQLite does not open")],
        ),
        Err(LogError::OutOfMemory(_)) => {}
    }
}
