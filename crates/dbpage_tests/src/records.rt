// Rows of the schema by the bytes of their records.
use crate::Text;
use crate::spelled::{add_name, bytes_of};
use dbbytes::{RowFault, RowSieve, SchemaRow};
use dbformat::Encoding;
use std::fmt::Write;

/// The encoding of a word: UTF-8, or UTF-16 with the low or the high byte first.
pub(crate) fn encoding_of(word: &str) -> Option<Encoding> {
    match word {
        "utf8" => Some(Encoding::Utf8),
        "le" => Some(Encoding::Utf16le),
        "be" => Some(Encoding::Utf16be),
        _ => None,
    }
}

/// Adds the row after each piece of a record.
pub(crate) fn add_rows(of: &str, text: &mut Text) -> Option<()> {
    let (of, pieces) = of.split_once(':')?;
    let (size, encoding) = record_of(of)?;
    match pieces.split_once('|') {
        Some(_) => add_row_after_each(size, encoding, pieces, text),
        None => {
            let bytes = bytes_of(pieces)?;
            add_row_in_pieces(size, encoding, bytes.as_slice(), text);
            Some(())
        }
    }
}

// The size and the encoding of a record.
fn record_of(of: &str) -> Option<(u32, Encoding)> {
    let (encoding, size) = of.split_once(' ')?;
    Some((size.parse::<u32>().ok()?, encoding_of(encoding)?))
}

// Adds the row after each of several pieces.
fn add_row_after_each(size: u32, encoding: Encoding, pieces: &str, text: &mut Text) -> Option<()> {
    let mut sieve = RowSieve::new(size, encoding);
    for (i, piece) in pieces.split('|').enumerate() {
        if i > 0 {
            let _ = text.try_push_str(" |");
        }
        sieve.feed(bytes_of(piece)?.as_slice());
        add_row(&sieve.finish(), text);
    }
    Some(())
}

fn add_row(row: &Result<SchemaRow<'_>, RowFault>, text: &mut Text) {
    match row {
        Ok(row) => {
            let _ = write!(text, " {:?} {}", row.kind, row.root);
            if let Some(name) = row.name {
                add_name(name, text);
            }
        }
        Err(fault) => drop(write!(text, " {fault:?}")),
    }
}

// Adds the row of a record. Feeds its bytes one by one too, and in two pieces, cut anywhere, and adds each row that is another then.
fn add_row_in_pieces(size: u32, encoding: Encoding, bytes: &[u8], text: &mut Text) {
    let mut whole = RowSieve::new(size, encoding);
    whole.feed(bytes);
    add_row(&whole.finish(), text);
    let mut one_by_one = RowSieve::new(size, encoding);
    for cut in 0..bytes.len() {
        one_by_one.feed(&bytes[cut..cut + 1]);
        let mut halves = RowSieve::new(size, encoding);
        halves.feed(&bytes[..cut]);
        halves.feed(&bytes[cut..]);
        if halves.finish() != whole.finish() {
            let _ = write!(text, ", and cut at {cut}");
            add_row(&halves.finish(), text);
        }
    }
    if one_by_one.finish() != whole.finish() {
        let _ = text.try_push_str(", and byte by byte");
        add_row(&one_by_one.finish(), text);
    }
}
