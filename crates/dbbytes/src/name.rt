// How a name is shown.
ghost use Rattle.std.specs.Prelude.{◌≡◌, ◌<◌, ◌≤◌, false, ◌∷◌, ◌++◌, length, take, drop, slice_index, IsTrue};
ghost use Rattle.std.specs.Fmt.{digit_glyph};
ghost use Rattle.std.specs.List.{flat_map};
ghost use Rattle.dbformat.specs.Text.{escape_byte, hex_text, shown_name};
ghost use Rattle.dbsource.specs.Outs.{Puts};
ghost use Rattle.dbbytes.specs.Escapes.{is_escaped};
ghost use Rattle.dbbytes.specs.Units.{text_of};

use crate::text::{Order, first_char_lossy, is_well_formed};
use arrayvec::ArrayVec;
use dbformat::{Encoding, hex_byte};
use dbsource::{Out, WriteFailed};

// How many bytes of a text in UTF-16 are turned into UTF-8 before they are put.
const CHUNK: usize = 64;

/// Puts the name, whose stored bytes are of this encoding, in UTF-8. A control character, a delete and a backslash are
/// put as `\x` and two lower-case hexadecimal digits. Of bytes that are not well-formed it puts `?` alone.
///
/// # Errors
///
/// [`WriteFailed`] where a put failed. What was put before it stays, and nothing is put after it.
#[tactic(auto, unfolding(dbformat::specs::Text::shown_name))]
pub fn name_text<O: Out>(name: &[u8], encoding: Encoding, out: &mut O) -> Result<(), WriteFailed>
    ensures { Puts result (O.held out.old) (O.held out.new) (shown_name encoding name.now) }
{
    if !is_well_formed(encoding, name) {
        return out.put(b"?");
    }
    match encoding {
        Encoding::Utf8 => put_escaped(name, out),
        Encoding::Utf16le => put_utf16(Order::LowFirst, name, out),
        Encoding::Utf16be => put_utf16(Order::HighFirst, name, out),
    }
}

// Puts a text in UTF-16, with its escapes. A well-formed text has no unpaired surrogate, so no character is lost.
fn put_utf16<O: Out>(order: Order, name: &[u8], out: &mut O) -> Result<(), WriteFailed>
    ensures { Puts result (O.held out.old) (O.held out.new) (flat_map escape_byte (text_of order name.now)) }
{
    let mut at = 0;
    while name.len() - at >= 2 {
        let (text, taken) = next_text(order, &name[at..]);
        put_escaped(text.as_slice(), out)?;
        at += taken;
    }
    Ok(())
}

// Some characters of a text in UTF-16, in UTF-8, and how many bytes they take there.
fn next_text(order: Order, bytes: &[u8]) -> (ArrayVec<u8, CHUNK>, usize)
    ensures text { text_of order bytes.now ≡ result.0.items ++ text_of order (drop result.1 bytes.now) }
    ensures some { 2 ≤ length bytes.now → 0 < result.1 }
    ensures within { result.1 ≤ length bytes.now }
{
    let mut text = ArrayVec::new();
    let mut at = 0;
    while bytes.len() - at >= 2 && text.len() + 4 <= CHUNK {
        let (char, len) = first_char_lossy(order, &bytes[at..]);
        let mut encoded = [0; 4];
        text.try_extend_from_slice(char.encode_utf8(&mut encoded).as_bytes())
            .unwrap();
        at += len;
    }
    (text, at)
}

// Puts a text in UTF-8, with its escapes. What comes between two of them is one put.
fn put_escaped<O: Out>(text: &[u8], out: &mut O) -> Result<(), WriteFailed>
    ensures { Puts result (O.held out.old) (O.held out.new) (flat_map escape_byte text.now) }
{
    let mut at = 0;
    while at < text.len() {
        let plain = plain_len(&text[at..]);
        if plain == 0 {
            out.put(&escape(text[at]))?;
            at += 1;
        } else {
            out.put(&text[at..at + plain])?;
            at += plain;
        }
    }
    Ok(())
}

// The number of bytes before the first that is written by its code.
fn plain_len(text: &[u8]) -> usize
    ensures within { result ≤ length text.now }
    ensures plain { flat_map escape_byte (take result text.now) ≡ take result text.now }
    ensures next { result < length text.now → IsTrue (is_escaped (slice_index text.now result)) }
{
    for (i, byte) in text.iter().enumerate() {
        if is_escaped(*byte) {
            return i;
        }
    }
    text.len()
}

// Whether a byte is written by its code.
fn is_escaped(byte: u8) -> bool
    ensures { result ≡ is_escaped byte }
{
    byte < 32 || byte == 127 || byte == b'\\'
}

// A byte by its code.
pub(crate) fn escape(byte: u8) -> [u8; 4]
    ensures { result ≡ 92 ∷ 120 ∷ hex_text 2 byte }
{
    let [high, low] = hex_byte(byte);
    [b'\\', b'x', high, low]
}
