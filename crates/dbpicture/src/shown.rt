// Texts of a file and of the command line, as an XML text shows them.
ghost use Rattle.std.specs.Prelude.{◌≡◌, ◌⊎◌, ◌≤◌, [], length, Some};
ghost use Rattle.dbsource.specs.Outs.{Puts};
ghost use Rattle.dbpicture.specs.Names.{shown_file};
ghost use Rattle.dbpicture.specs.Pieces.{shown_text};
ghost use Rattle.dbpicture.specs.Widths as widths;

use crate::kept_bytes::{KEPT, KeptBytes};
use crate::xml::put_escaped;
use arrayvec::ArrayVec;
use dbbytes::plain_name_text;
use dbformat::Encoding;
use dbsource::{Out, WriteFailed};
use std::marker::Model;

/// A text, or its beginning. It is meant to be UTF-8, in which control characters, and those that turn a text around or that XML forbids, are
/// written by their codes: who makes one sees to that ([`Shown::of`]).
#[derive(Drop)]
pub(crate) struct Shown {
    bytes: ArrayVec<u8, KEPT>,
}

impl Model for Shown {
    ghost use Rattle.std.specs.Prelude.{ℕ, List};

    ghost Value = { List ℕ };

    ghost view = { λ s. s.bytes.items };
}

impl Default for Shown {
    fn default() -> Shown {
        Shown::new()
    }
}

impl Shown {
    /// An empty text.
    pub(crate) fn new() -> Shown
        ensures { result ≡ [] }
    {
        Shown {
            bytes: ArrayVec::new(),
        }
    }

    /// The text that was put, or its first 320 bytes. The caller puts UTF-8 in which control characters, and others that turn a text around
    /// or that XML forbids, are written by their codes already, as `plain_name_text` does.
    pub(crate) fn of(kept: KeptBytes) -> Shown
        ensures bytes { kept.bytes ≡ Some result }
        ensures full { (kept.failures ≡ 0) ⊎ (length result ≡ 320) }
        ensures most { length result ≤ 320 }
    {
        Shown {
            bytes: kept.into_bytes(),
        }
    }
}

/// The name of a file, or its first 320 bytes.
pub(crate) fn shown_file(name: &str) -> Shown
    ensures { result ≡ shown_file name.now }
{
    let mut kept = KeptBytes::new();
    let _ = plain_name_text(name.as_bytes(), Encoding::Utf8, &mut kept);
    Shown::of(kept)
}

// How many columns a character takes, by its first byte: those that are written in three or four bytes are mostly wide.
fn columns(byte: u8) -> u32
    ensures columns { result ≡ widths.char_columns byte }
    ensures most { result ≤ 2 }
{
    match byte {
        0x80..=0xBF => 0,
        0xE0..=0xFF => 2,
        _ => 1,
    }
}

// How many bytes of a text fit in `width` columns.
fn fitting(text: &[u8], width: u32) -> usize
    ensures fit { result ≡ widths.fitting width text.now }
    ensures bound { result ≤ length text.now }
{
    let mut taken = 0u32;
    for (at, byte) in text.iter().enumerate() {
        let more = columns(*byte);
        if more > width - taken {
            return at;
        }
        taken += more;
    }
    text.len()
}

/// Puts a text, in at most `width` columns: a longer one is cut at a character, and ends with an ellipsis.
///
/// # Errors
///
/// [`WriteFailed`] where the Out failed: it took a beginning of the text.
pub(crate) fn put_shown<O: Out>(out: &mut O, shown: &Shown, width: u32) -> Result<(), WriteFailed>
    ensures { Puts result (O.held out.old) (O.held out.new) (shown_text shown.now width) }
{
    let text = shown.bytes.as_slice();
    let fitting = fitting(text, width);
    if fitting == text.len() {
        return put_escaped(out, text);
    }
    put_escaped(out, &text[..fitting])?;
    put_escaped(out, "…".as_bytes())
}
