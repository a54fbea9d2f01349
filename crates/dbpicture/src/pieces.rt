// What an XML text is put together of.
ghost use Rattle.std.specs.Prelude.{◌≡◌, [], decimal, OnOk};
ghost use Rattle.dblines.specs.Writing.{Wrote};
ghost use Rattle.dbsource.specs.Outs.{Puts};
ghost use Rattle.dbpicture.specs.Pieces.{piece_text, pieces_text, shown_text, tenths_text};
ghost use Rattle.dbpicture.specs.Puts.{Takes};

use crate::shown::{Shown, put_shown};
use arrayvec::ArrayVec;
use dblines::Writer;
use dbsource::{Out, WriteFailed};
use itoa::Buffer;

/// A piece of an XML text. None is a text of a file or of the command line: its markup stands in the program.
#[derive(Clone, Copy)]
pub(crate) enum Piece {
    /// Markup, or plain words.
    Markup(&'static str),
    /// A number.
    Number(u64),
    /// A number of tenths, with one decimal.
    Tenths(u64),
}

// How many bytes are put at a time.
const ROOM: usize = 192;

// Bytes that wait to be put together.
type Waiting = ArrayVec<u8, ROOM>;

// Puts the waiting bytes, so that none waits.
fn put_waiting<O: Out>(out: &mut O, waiting: &mut Waiting) -> Result<(), WriteFailed>
    ensures puts { Puts result (O.held out.old) (O.held out.new) waiting.old.items }
    ensures empty { OnOk result (waiting.new.items ≡ []) }
{
    out.put(waiting.as_slice())?;
    waiting.clear();
    Ok(())
}

// Adds bytes to those that wait, which are put where there is no room for more.
fn add<O: Out>(out: &mut O, waiting: &mut Waiting, bytes: &[u8]) -> Result<(), WriteFailed>
    ensures { Takes result (O.held out.old) (O.held out.new) waiting.old.items waiting.new.items bytes.now }
{
    match waiting.try_extend_from_slice(bytes) {
        Ok(()) => Ok(()),
        Err(_) => {
            put_waiting(out, waiting)?;
            out.put(bytes)
        }
    }
}

// Adds a number in decimal.
fn add_number<O: Out>(out: &mut O, waiting: &mut Waiting, number: u64) -> Result<(), WriteFailed>
    ensures { Takes result (O.held out.old) (O.held out.new) waiting.old.items waiting.new.items (decimal number) }
{
    let mut buffer = Buffer::new();
    add(out, waiting, buffer.format(number).as_bytes())
}

// Adds a number of tenths.
fn add_tenths<O: Out>(out: &mut O, waiting: &mut Waiting, tenths: u64) -> Result<(), WriteFailed>
    ensures { Takes result (O.held out.old) (O.held out.new) waiting.old.items waiting.new.items (tenths_text tenths) }
{
    add_number(out, waiting, tenths / 10)?;
    add(out, waiting, b".")?;
    add_number(out, waiting, tenths % 10)
}

// Adds the bytes of a piece.
fn add_piece<O: Out>(out: &mut O, waiting: &mut Waiting, piece: &Piece) -> Result<(), WriteFailed>
    ensures { Takes result (O.held out.old) (O.held out.new) waiting.old.items waiting.new.items (piece_text piece.now) }
{
    match piece {
        Piece::Markup(text) => add(out, waiting, text.as_bytes()),
        Piece::Number(number) => add_number(out, waiting, *number),
        Piece::Tenths(tenths) => add_tenths(out, waiting, *tenths),
    }
}

/// A writer of an XML text.
pub(crate) trait WritePieces {
    /// Writes some pieces, one after another, many at a time.
    fn write_all(&mut self, pieces: &[Piece]);

    /// Writes a text in at most `width` columns, escaped: a longer one is cut at a character, and ends with an ellipsis.
    fn write_shown(&mut self, text: &Shown, width: u32);
}

impl<O: Out> WritePieces for Writer<'_, O> {
    fn write_all(&mut self, pieces: &[Piece])
        ensures { Wrote O.held self.old (pieces_text pieces.now) self.new }
    {
        if !self.has_failed {
            self.has_failed = put_all(self.out, pieces).is_err();
        }
    }

    fn write_shown(&mut self, text: &Shown, width: u32)
        ensures { Wrote O.held self.old (shown_text text.now width) self.new }
    {
        if !self.has_failed {
            self.has_failed = put_shown(self.out, text, width).is_err();
        }
    }
}

// Puts some pieces. Where the Out fails, it takes a beginning of their texts.
fn put_all<O: Out>(out: &mut O, pieces: &[Piece]) -> Result<(), WriteFailed>
    ensures { Puts result (O.held out.old) (O.held out.new) (pieces_text pieces.now) }
{
    let mut waiting = ArrayVec::new();
    for piece in pieces {
        add_piece(out, &mut waiting, piece)?;
    }
    put_waiting(out, &mut waiting)
}
