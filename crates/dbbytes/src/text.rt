// Texts in the three encodings (Database File Format, 1.3.13).
ghost use Rattle.std.specs.Prelude.{◌≡◌, ◌<◌, ◌≤◌, ◌%◌, ◌==◌, ◌&&◌, not, ◌∷◌, length, drop, MatchOption};
ghost use Rattle.std.specs.Char.Utf16.{has_unpaired_surrogate, utf16_lossy_chars};
ghost use Rattle.dbformat.specs.Text.{is_well_formed};
ghost use Rattle.dbbytes.specs.Units.{BeginsUnpaired, BeginsWith, unit_of, units};

use dbformat::Encoding;
use std::str;

// Which byte of a 16-bit unit comes first.
#[derive(Clone, Copy)]
pub(crate) enum Order {
    LowFirst,
    HighFirst,
}

// Whether the bytes are a text of the encoding.
pub(crate) fn is_well_formed(encoding: Encoding, bytes: &[u8]) -> bool
    ensures { result ≡ is_well_formed encoding bytes.now }
{
    match encoding {
        Encoding::Utf8 => str::from_utf8(bytes).is_ok(),
        Encoding::Utf16le => is_utf16(Order::LowFirst, bytes),
        Encoding::Utf16be => is_utf16(Order::HighFirst, bytes),
    }
}

fn is_utf16(order: Order, bytes: &[u8]) -> bool
    ensures { result ≡ ((length bytes.now % 2 == 0) && not (has_unpaired_surrogate (units order bytes.now))) }
{
    if bytes.len() % 2 != 0 {
        return false;
    }
    let mut at = 0;
    while at < bytes.len() {
        match first_char(order, &bytes[at..]) {
            Some((_, len)) => at += len,
            None => return false,
        }
    }
    true
}

// The character that the units begin with, and its length in bytes. `None` where that is a surrogate with no partner.
pub(crate) fn first_char(order: Order, bytes: &[u8]) -> Option<(char, usize)>
    requires { 2 ≤ length bytes.now }
    ensures { MatchOption result (BeginsUnpaired order bytes.now) (λ r. BeginsWith order bytes.now r.0 r.1) }
{
    let first = unit(order, bytes[0], bytes[1]);
    if let Some(char) = char::from_u32(u32::from(first)) {
        return Some((char, 2));
    }
    if 0xDC00 <= first || bytes.len() < 4 {
        return None;
    }
    let second = unit(order, bytes[2], bytes[3]);
    if second < 0xDC00 || 0xE000 <= second {
        return None;
    }
    let over = (u32::from(first) - 0xD800) * 0x400 + (u32::from(second) - 0xDC00);
    Some((char::from_u32(0x1_0000 + over).unwrap(), 4))
}

// The same, with U+FFFD for a surrogate with no partner.
pub(crate) fn first_char_lossy(order: Order, bytes: &[u8]) -> (char, usize)
    requires { 2 ≤ length bytes.now }
    ensures chars { utf16_lossy_chars (units order bytes.now) ≡ result.0 ∷ utf16_lossy_chars (units order (drop result.1 bytes.now)) }
    ensures some { 0 < result.1 }
    ensures within { result.1 ≤ length bytes.now }
{
    first_char(order, bytes).unwrap_or((char::REPLACEMENT_CHARACTER, 2))
}

fn unit(order: Order, first: u8, second: u8) -> u16
    ensures { result ≡ unit_of order first second }
{
    match order {
        Order::LowFirst => u16::from(second) * 256 + u16::from(first),
        Order::HighFirst => u16::from(first) * 256 + u16::from(second),
    }
}
