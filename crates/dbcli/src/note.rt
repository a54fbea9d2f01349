// The lines of notes.
ghost use Rattle.std.specs.Prelude.{◌≡◌, ◌++◌, IfOk, Some, codes};
ghost use Rattle.dbsource.specs.Outs.{Puts, at_once};
ghost use Rattle.dbcli.specs.NoteLines.{PutsIfRoom, first_bytes_text, note_line, piece_text};

use crate::shown::Shown;
use arrayvec::ArrayVec;
use dblines::{append, append_first_bytes, append_number};
use dbsource::{MemOut, Out, WriteFailed};
use std::alloc::Global;

/// A piece of a note. None is a text of the command line or of the system; of a file one may have the first bytes, shown harmless.
#[derive(Clone, Copy)]
pub(crate) enum Piece {
    /// Words of the program.
    Words(&'static str),
    /// A number.
    Number(u64),
    /// The first bytes of a file, after a blank.
    First([u8; 16]),
}

/// One of two words, by a number.
pub(crate) fn by_number(number: u64, one: &'static str, more: &'static str) -> Piece {
    Piece::Words(if number == 1 { one } else { more })
}

/// An Out for notes alone.
#[derive(Drop)]
pub(crate) struct NoteOut<'a, N> {
    alloc: Global,
    out: &'a mut N,
}

// Adds what a file begins with.
fn add_first(line: &mut MemOut, first: [u8; 16]) -> Result<(), WriteFailed>
    ensures { Puts result (at_once line.old) (at_once line.new) (first_bytes_text first) }
{
    let mut text: ArrayVec<u8, 80> = ArrayVec::new();
    append(&mut text, " ");
    append_first_bytes(&mut text, &first);
    line.put(text.as_slice())
}

// Adds a number in decimal.
fn add_number(line: &mut MemOut, number: u64) -> Result<(), WriteFailed>
    ensures { Puts result (at_once line.old) (at_once line.new) (piece_text (Piece.Number number)) }
{
    let mut text: ArrayVec<u8, 20> = ArrayVec::new();
    append_number(&mut text, number);
    line.put(text.as_slice())
}

// Adds the text of a piece.
fn add_piece(line: &mut MemOut, piece: &Piece) -> Result<(), WriteFailed>
    ensures { Puts result (at_once line.old) (at_once line.new) (piece_text piece.now) }
{
    match piece {
        Piece::Words(words) => line.put(words.as_bytes()),
        Piece::Number(number) => add_number(line, *number),
        Piece::First(first) => add_first(line, *first),
    }
}

// The line of a note.
fn note_line(alloc: Global, name: &Shown, pieces: &[Piece]) -> Result<MemOut, WriteFailed>
    ensures { IfOk result (λ line. line.bytes ≡ Some (note_line name.now pieces.now)) }
{
    let mut line = MemOut::new(alloc);
    line.put(b"dbck: note: ")?;
    line.put(name.as_str().as_bytes())?;
    for piece in pieces {
        add_piece(&mut line, piece)?;
    }
    line.put(b"\n")?;
    Ok(line)
}

impl<'a, N: Out> NoteOut<'a, N> {
    /// One over `out`.
    pub(crate) fn new(alloc: Global, out: &'a mut N) -> NoteOut<'a, N>
        ensures same_out { result.out.ghost_name ≡ out.entry.ghost_name }
        ensures out { result.out.now ≡ out.old }
    {
        NoteOut { alloc, out }
    }

    /// Puts a note of a name as it is shown, or of none, and of what is said of it, as one piece. Where there is no memory for it,
    /// nothing is put; and if the Out fails, no more is tried.
    pub(crate) fn put(&mut self, name: &Shown, pieces: &[Piece])
        ensures { PutsIfRoom (N.held self.old.out.now) (N.held self.new.out.now) (note_line name.now pieces.now) }
    {
        if let Ok(line) = note_line(self.alloc, name, pieces) {
            let _ = self.out.put(line.bytes());
        }
    }
}
