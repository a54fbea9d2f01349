// Bytes that a text spells, and the other way round.
use crate::Text;
use arrayvec::ArrayVec;
use std::fmt::Write;

pub(crate) type Bytes = ArrayVec<u8, 2048>;

/// The bytes that a text spells: two hexadecimal digits a byte, perhaps with a star and how often they come, and letters between two of '.
/// None where it has anything else, or too many bytes.
pub(crate) fn bytes_of(text: &str) -> Option<Bytes> {
    let mut bytes = Bytes::new();
    let mut are_letters = false;
    for piece in text.split('\'') {
        if are_letters {
            bytes.try_extend_from_slice(piece.as_bytes()).ok()?;
        } else {
            add_words(&mut bytes, piece)?;
        }
        are_letters = !are_letters;
    }
    if are_letters { Some(bytes) } else { None }
}

fn add_words(bytes: &mut Bytes, words: &str) -> Option<()> {
    for word in words.split(' ') {
        let (digits, count) = match word.split_once('*') {
            Some((digits, count)) => (digits, count.parse::<u32>().ok()?),
            None => (word, 1),
        };
        for _ in 0..count {
            add_digits(bytes, digits)?;
        }
    }
    Some(())
}

fn add_digits(bytes: &mut Bytes, digits: &str) -> Option<()> {
    let mut high = None;
    for letter in digits.as_bytes() {
        let digit = digit_of(*letter)?;
        if let Some(first) = high {
            let first: u8 = first;
            bytes.try_push(digit.wrapping_add(first << 4)).ok()?;
            high = None;
        } else {
            high = Some(digit);
        }
    }
    if high.is_none() { Some(()) } else { None }
}

fn digit_of(letter: u8) -> Option<u8> {
    match letter {
        b'0'..=b'9' => Some(letter - b'0'),
        b'a'..=b'f' => Some(letter - b'a' + 10),
        _ => None,
    }
}

/// Writes bytes over others from a place on. None where one of them has no place.
pub(crate) fn write_at(place: &mut [u8], at: usize, bytes: &[u8]) -> Option<()> {
    let mut at = at;
    for byte in bytes {
        *place.get_mut(at)? = *byte;
        at = at.wrapping_add(1);
    }
    Some(())
}

/// Adds the bytes of a name, a long one of a single byte by this byte and how often it comes.
pub(crate) fn add_name(name: &[u8], text: &mut Text) {
    let _ = text.try_push_str(" named");
    if let Some(first) = name.first()
        && name.len() > 99
        && is_run_of(*first, name)
    {
        let _ = write!(text, " {first:02x}*{}", name.len());
        return;
    }
    for byte in name {
        let _ = write!(text, " {byte:02x}");
    }
}

fn is_run_of(byte: u8, bytes: &[u8]) -> bool {
    for other in bytes {
        if *other != byte {
            return false;
        }
    }
    true
}
