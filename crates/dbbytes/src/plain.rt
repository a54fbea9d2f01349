// How a name is shown on a line that it must not turn around.
ghost use Rattle.std.specs.Prelude.{◌≡◌, ◌<◌, ℕ, true, length, slice_index, encode_utf8, IsTrue};
ghost use Rattle.std.specs.Char.Utf16.{utf16_lossy_chars};
ghost use Rattle.std.specs.List.{flat_map};
ghost use Rattle.std.specs.Str.{chars};
ghost use Rattle.dbformat.specs.PlainNames.{byte_code, is_coded, plain_char, plain_name};
ghost use Rattle.dbsource.specs.Outs.{Puts};
ghost use Rattle.dbbytes.specs.Escapes.{IsPlainByte};
ghost use Rattle.dbbytes.specs.Units.{units};

use crate::name::escape;
use crate::text::{Order, first_char_lossy, is_well_formed};
use dbformat::Encoding;
use dbsource::{Out, WriteFailed};
use std::str;

/// Puts the name as [`name_text`](crate::name_text) does, for a line that the name must not turn around: each byte of a control
/// character beyond ASCII, of a character that turns the text around it (U+202A to U+202E, U+2066 to U+2069), and of the two
/// that end the first plane and are none (U+FFFE, U+FFFF) is put as `\x` and two lower-case hexadecimal digits too.
///
/// # Errors
///
/// [`WriteFailed`] where a put failed. What was put before it stays, and nothing is put after it.
#[tactic(auto, unfolding(dbformat::specs::PlainNames::plain_name))]
pub fn plain_name_text<O: Out>(
    name: &[u8],
    encoding: Encoding,
    out: &mut O,
) -> Result<(), WriteFailed>
    ensures { Puts result (O.held out.old) (O.held out.new) (plain_name encoding name.now) }
{
    if !is_well_formed(encoding, name) {
        return out.put(b"?");
    }
    match encoding {
        Encoding::Utf8 => put_chars(str::from_utf8(name).unwrap(), out),
        Encoding::Utf16le => put_units(Order::LowFirst, name, out),
        Encoding::Utf16be => put_units(Order::HighFirst, name, out),
    }
}

// Whether all bytes are characters of ASCII, none of which is written by its code.
fn are_plain(bytes: &[u8]) -> bool
    ensures { result ≡ true → (k : ℕ) → k < length bytes.now → IsPlainByte (slice_index bytes.now k) }
{
    for byte in bytes {
        if *byte < 32 || *byte > 126 || *byte == b'\\' {
            return false;
        }
    }
    true
}

// Puts the characters of a text: all at once, where they are plain.
fn put_chars<O: Out>(text: &str, out: &mut O) -> Result<(), WriteFailed>
    ensures { Puts result (O.held out.old) (O.held out.new) (flat_map plain_char (chars text.now)) }
{
    if are_plain(text.as_bytes()) {
        return out.put(text.as_bytes());
    }
    for char in text.chars() {
        put_char(char, out)?;
    }
    Ok(())
}

// Puts the characters of a text in UTF-16.
fn put_units<O: Out>(order: Order, name: &[u8], out: &mut O) -> Result<(), WriteFailed>
    ensures { Puts result (O.held out.old) (O.held out.new) (flat_map plain_char (utf16_lossy_chars (units order name.now))) }
{
    let mut at = 0;
    while name.len() - at >= 2 {
        let (char, len) = first_char_lossy(order, &name[at..]);
        put_char(char, out)?;
        at += len;
    }
    Ok(())
}

// Puts a character, by its code if need be.
fn put_char<O: Out>(char: char, out: &mut O) -> Result<(), WriteFailed>
    ensures { Puts result (O.held out.old) (O.held out.new) (plain_char char) }
{
    let mut encoded = [0; 4];
    let bytes = char.encode_utf8(&mut encoded).as_bytes();
    if is_coded(char) {
        put_codes(bytes, out)
    } else {
        out.put(bytes)
    }
}

// Puts the codes of some bytes.
fn put_codes<O: Out>(bytes: &[u8], out: &mut O) -> Result<(), WriteFailed>
    ensures { Puts result (O.held out.old) (O.held out.new) (flat_map byte_code bytes.now) }
{
    for byte in bytes {
        out.put(&escape(*byte))?;
    }
    Ok(())
}

// Whether a character is written by its code.
fn is_coded(char: char) -> bool
    ensures { result ≡ is_coded char }
{
    matches!(
        char,
        '\0'..='\x1f'
            | '\x7f'..='\u{9f}'
            | '\\'
            | '\u{202a}'..='\u{202e}'
            | '\u{2066}'..='\u{2069}'
            | '\u{fffe}'..='\u{ffff}'
    )
}
