// Which read of a file failed.
ghost use Rattle.std.specs.Prelude.{◌≡◌, [], ◌∷◌, codes, decimal};
ghost use Rattle.dbcli.specs.NoteLines.{PutsIfRoom, said_line};

use crate::log::Log;
use crate::note::{NoteOut, Piece};
use crate::shown::Shown;
use dbsource::{ByteRange, Out, ReadFailed, Source};
use std::cell::Cell;

/// A read that failed: which bytes were asked for, and of which file, the database or a log of it.
#[derive(Clone, Copy)]
pub struct FailedRead {
    pub(crate) log: Option<Log>,
    pub(crate) range: ByteRange,
}

/// The last read that failed, of all files of a run.
#[derive(Drop)]
pub struct FailedReads {
    last: Cell<Option<FailedRead>>,
}

impl FailedReads {
    /// None yet.
    pub fn new() -> FailedReads {
        FailedReads {
            last: Cell::new(None),
        }
    }

    /// The last one.
    pub fn last(&self) -> Option<FailedRead> {
        self.last.get()
    }

    // Keeps one.
    fn keep(&self, log: Option<Log>, offset: u64, len: u64) {
        let range = ByteRange { offset, len };
        self.last.set(Some(FailedRead { log, range }));
    }
}

/// A source over a file, which answers what that answers, and keeps which read of it failed.
#[derive(Drop)]
pub struct Traced<'r, S> {
    source: S,
    log: Option<Log>,
    reads: &'r FailedReads,
}

impl<'r, S: Source> Traced<'r, S> {
    /// One over `source`, the database or a log of it.
    pub fn new(source: S, log: Option<Log>, reads: &'r FailedReads) -> Traced<'r, S>
        ensures { result.source ≡ source }
    {
        Traced { source, log, reads }
    }
}

impl<S: Source> Source for Traced<'_, S> {
    ghost held = { λ s. S.held s.source };

    ghost step = { S.step };

    ghost lengths = { S.lengths };

    fn len(&mut self) -> Result<u64, ReadFailed> {
        self.source.len()
    }

    fn read_at(&mut self, offset: u64, buf: &mut [u8]) -> Result<(), ReadFailed> {
        let read = self.source.read_at(offset, buf);
        if read.is_err() {
            self.reads.keep(self.log, offset, buf.len() as u64);
        }
        read
    }
}

/// Puts the note on a read of these bytes of a file, which failed.
pub(crate) fn put_failed<N: Out>(notes: &mut NoteOut<'_, N>, name: &Shown, range: ByteRange)
    ensures { PutsIfRoom (N.held notes.old.out.now) (N.held notes.new.out.now)
        (said_line name.now (codes ": the " ∷ decimal range.len ∷ codes " bytes at " ∷ decimal range.offset ∷ codes " cannot be read" ∷ [])) }
{
    notes.put(
        name,
        &[
            Piece::Words(": the "),
            Piece::Number(range.len),
            Piece::Words(" bytes at "),
            Piece::Number(range.offset),
            Piece::Words(" cannot be read"),
        ],
    );
}
