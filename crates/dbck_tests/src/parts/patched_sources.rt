// Sources with changes over their bytes.
use crate::support::stops::holds;
use dbsource::{ByteRange, Change, ChangeError, Changes, LogSource, MemSource, Patched, Source};
use std::test::Fail;

// Changes, an offset, and what is read there of the letters from a to j.
const READS: [(&str, u64, &str); 12] = [
    ("2 XY, 6 Z", 0, "abXYefZhij"),
    // None of a change.
    ("2 XY, 6 Z", 0, "ab"),
    ("2 XY, 6 Z", 4, "ef"),
    ("2 XY, 6 Z", 7, "hij"),
    // The first of its bytes, and the last.
    ("2 XY", 1, "bX"),
    ("2 XY", 3, "Ye"),
    // Those between.
    ("1 PQRSTUVW", 3, "RST"),
    ("1 PQRSTUVW", 1, "PQRSTUVW"),
    // Each byte of the file, and the last.
    ("0 0123456789", 0, "0123456789"),
    ("9 Z", 8, "iZ"),
    // Past the end there is nothing.
    ("9 XYZ", 8, "iX"),
    ("10 X", 8, "ij"),
];

// The changes that a text has: of each the offset and then the bytes.
fn changes_of(text: &str) -> Option<Changes> {
    let mut changes = Changes::new();
    for part in text.split(", ") {
        let (offset, bytes) = part.split_once(' ')?;
        let change = Change::new(offset.parse::<u64>().ok()?, bytes.as_bytes()).ok()?;
        changes.add(change).ok()?;
    }
    Some(changes)
}

// Whether a source gives these bytes at an offset, and then fails where they would pass its end.
fn gives<S: Source>(source: &mut S, offset: u64, wanted: &str) -> bool {
    let mut buf = [0u8; 16];
    let count = wanted.len().min(16);
    let is_read = source.len() == Ok(10) && source.read_at(offset, &mut buf[..count]).is_ok();
    let is_given = is_read && &buf[..count] == wanted.as_bytes();
    is_given && source.read_at(10, &mut buf[..1]).is_err()
}

// Whether these are two ranges: this one, and then the byte past the end.
fn are_asked(ranges: &[ByteRange], offset: u64, len: u64) -> bool {
    match ranges {
        [first, last] => {
            first.offset == offset && first.len == len && last.offset == 10 && last.len == 1
        }
        _ => false,
    }
}

// The source below is asked for the same ranges, and for no other.
#[test]
fn gives_the_changes_in_what_is_asked_for(rt: HostRuntime) {
    for (text, offset, wanted) in READS {
        let Some(changes) = changes_of(text) else {
            holds!(rt; false, text);
            continue;
        };
        let mut source = Patched::new(&changes, LogSource::new(b"abcdefghij"));
        holds!(rt; gives(&mut source, offset, wanted), (text, offset));
        let len = wanted.len() as u64;
        holds!(rt; are_asked(source.into_inner().ranges(), offset, len), (text, offset));
        let mut source = Patched::new(&changes, MemSource::new(b"abcdefghij"));
        holds!(rt; gives(&mut source, offset, wanted), (text, offset));
    }
}

// What adding a change of two bytes to those of a text answers.
fn added(text: &str, offset: u64) -> Option<Result<(), ChangeError>> {
    let mut changes = changes_of(text)?;
    Some(changes.add(Change::new(offset, b"XY").ok()?))
}

#[test]
fn changes_do_not_overlap(rt: HostRuntime) {
    let overlaps = Some(Err(ChangeError::Overlaps));
    for (text, offset, wanted) in [
        ("4 PQR", 2, Some(Ok(()))),
        ("4 PQR", 3, overlaps),
        ("4 PQR", 4, overlaps),
        ("4 PQR", 6, overlaps),
        ("4 PQR", 7, Some(Ok(()))),
        ("4 P", 3, overlaps),
        ("0 P, 20 P", 19, overlaps),
        // The last offsets of all, where a sum would wrap.
        ("0 P", u64::MAX, Some(Ok(()))),
        ("18446744073709551615 P", u64::MAX - 1, overlaps),
        ("18446744073709551615 P", u64::MAX - 2, Some(Ok(()))),
    ] {
        holds!(rt; added(text, offset) == wanted, (text, offset));
    }
}

// How many changes of one byte are taken, one beside the other, and what the next answers.
fn most_taken() -> (usize, Option<ChangeError>) {
    let mut changes = Changes::new();
    for at in 0..20u64 {
        match Change::new(at, b"X").and_then(|change| changes.add(change)) {
            Ok(()) => {}
            Err(error) => return (changes.as_slice().len(), Some(error)),
        }
    }
    (changes.as_slice().len(), None)
}

#[test]
fn changes_are_few_and_short(rt: HostRuntime) {
    holds!(rt; most_taken() == (16, Some(ChangeError::TooMany)));
    let bytes = [7u8; 17];
    holds!(rt; Change::new(0, &bytes[..0]).err() == Some(ChangeError::NoBytes));
    holds!(rt; Change::new(0, &bytes).err() == Some(ChangeError::TooLong));
    holds!(rt; Change::new(0, &bytes[..16]).is_ok_and(|change| change.count() == 16));
}

// Whether the changes of a text are inside a length.
fn is_inside(text: &str, len: u64) -> bool {
    changes_of(text).is_some_and(|changes| changes.are_inside(len))
}

#[test]
fn changes_are_inside_a_length(rt: HostRuntime) {
    for (text, len) in [("2 XY, 8 PQ", 10), ("2 XY, 0 P", 4), ("0 P", 1)] {
        holds!(rt; is_inside(text, len) && !is_inside(text, len - 1), text);
    }
    holds!(rt; !is_inside("18446744073709551615 P", u64::MAX));
    holds!(rt; !is_inside("18446744073709551610 PQRSTUVW", u64::MAX));
    holds!(rt; is_inside("18446744073709551613 PQ", u64::MAX));
}
