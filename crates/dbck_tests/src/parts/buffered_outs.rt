// In how many writes an Out that gathers bytes hands them on, and when; what it gathers and writes is said by its clauses. And a buffer
// that is refused.
use crate::support::stops::holds;
use dbsource::{BufferedOut, Out};
use linked_list_allocator::LocalHeap;
use std::alloc::{AllocError, Allocator, Global};
use std::io::{self, Write};
use std::test::Fail;

/// A writer that counts its writes, and takes all bytes.
#[derive(Drop)]
struct CountingWriter {
    writes: u64,
}

impl Write for CountingWriter {
    fn write(&mut self, buf: &[u8]) -> io::Result<usize> {
        self.writes = self.writes.wrapping_add(1);
        Ok(buf.len())
    }

    fn flush(&mut self) -> io::Result<()> {
        Ok(())
    }
}

// Pieces by their lengths, an `n` after those that end with a line feed, and how many writes there were by then.
const PUTS: [(&str, u64); 21] = [
    ("1 2 3", 0),
    ("0 0 0", 0),
    ("65535 1 0", 0),
    ("65536 0 0", 0),
    ("65536 1 2", 1),
    ("65535 2 0", 1),
    ("65537 0 0", 1),
    ("65537 5 0", 1),
    ("7 65537 5", 2),
    ("65536 65536 65536", 2),
    ("100000 100000 100000", 3),
    // The line that was begun stays, where the piece has room after it, also just so.
    ("10n 65520 7 0", 1),
    ("10n 65526 10 0", 1),
    // And goes where it has none.
    ("10n 65526 11 0", 1),
    // All lines go, up to the last line feed.
    ("1n 1n 65534 1", 1),
    ("65535 1n 1 1", 1),
    ("65536n 65536n 1n 5", 2),
    // A line of 65536 bytes is written at once, and one of 65537 is not.
    ("10n 65535 1n 1", 2),
    ("10n 65535 2n 1", 2),
    // A piece that is longer than the buffer is written after all that was gathered.
    ("10n 5 65537n 3", 2),
    ("10n 70000 70000 6n", 3),
];

// Puts a piece, and says whether it was taken.
fn is_put<A: Allocator>(
    alloc: Global,
    out: &mut BufferedOut<CountingWriter, A>,
    piece: &str,
) -> Result<bool, AllocError> {
    let digits = piece.strip_suffix('n');
    let len = digits.unwrap_or(piece).parse::<usize>().unwrap_or(0);
    let mut bytes = Vec::from_elem(alloc, b'x', len)?;
    if digits.is_some() {
        let _ = bytes.pop();
        bytes.push(b'\n')?;
    }
    Ok(out.put(bytes.as_slice()) == Ok(()))
}

// How many writes pieces take, if all are taken.
fn writes_of(alloc: Global, pieces: &str) -> Result<Option<u64>, AllocError> {
    let Ok(mut out) = BufferedOut::new(alloc, CountingWriter { writes: 0 }) else {
        return Ok(None);
    };
    for piece in pieces.split(' ') {
        if !is_put(alloc, &mut out, piece)? {
            return Ok(None);
        }
    }
    Ok(Some(out.writer().writes))
}

#[test]
fn pieces_take_few_writes(rt: HostRuntime) -> Result<(), Fail> {
    for (pieces, writes) in &PUTS {
        let found = writes_of(rt.alloc(), pieces)?;
        holds!(rt; found == Some(*writes), pieces);
    }
    Ok(())
}

// A row of 100 bytes, put in pieces.
const PIECES: [&str; 4] = [
    "table t1 at page 1 holds the rows of a tree, and this is one of them:",
    " cells 12 depth 3",
    " unused 1234",
    "6\n",
];

// Whether the writes before this row, from 0, are as many as the buffer was full: 655 rows find room in it.
fn is_row_put(out: &mut BufferedOut<CountingWriter>, row: u64) -> bool {
    let mut is_put = true;
    for piece in PIECES {
        is_put = out.put(piece.as_bytes()) == Ok(()) && is_put;
    }
    is_put && out.writer().writes == row / 655
}

#[test]
fn rows_of_several_puts_are_not_torn(rt: HostRuntime) -> Result<(), Fail> {
    let mut out = BufferedOut::new(rt.alloc(), CountingWriter { writes: 0 })?;
    for row in 0..2000u64 {
        holds!(rt; is_row_put(&mut out, row), row);
    }
    Ok(())
}

// Whether an out finds room in this many bytes of memory, and writes.
fn is_written_in(alloc: Global, room: usize) -> Result<bool, AllocError> {
    let heap = LocalHeap::new(alloc, room)?;
    let Ok(mut out) = BufferedOut::new_in(&heap, CountingWriter { writes: 0 }) else {
        return Ok(false);
    };
    Ok(is_put(alloc, &mut out, "3n")? && out.flush() == Ok(()) && out.writer().writes == 1)
}

#[test]
fn a_buffer_that_is_refused(rt: HostRuntime) -> Result<(), Fail> {
    let is_refused = !is_written_in(rt.alloc(), 0)?;
    let is_written = is_written_in(rt.alloc(), 70000)?;
    holds!(rt; is_refused && is_written);
    Ok(())
}
