// A source whose file is written while it is read.
ghost use Rattle.dbsource.specs.Sources.{any_length, no_step, untold_source};

use crate::support::bytes::patch;
use dbsource::{Failures, ReadFailed, Source};
use std::alloc::{AllocError, Global};

/// What a read answered from an offset on.
#[derive(Drop)]
pub(crate) struct Answer {
    pub(crate) offset: u64,
    pub(crate) bytes: Vec<u8>,
}

// What writes the file meanwhile, drawn from a counter. It is calm `calm` times out of `calm + 1`.
#[derive(Drop)]
struct Writer {
    drawn: u32,
    calm: usize,
}

impl Writer {
    // The next number below `end`.
    fn below(&mut self, end: usize) -> usize {
        self.drawn = self.drawn.wrapping_mul(1664525).wrapping_add(1013904223);
        ((self.drawn >> 16) as usize).checked_rem(end).unwrap_or(0)
    }

    // The next byte below `end`, which is at most 256.
    fn byte_below(&mut self, end: usize) -> u8 {
        u8::try_from(self.below(end)).unwrap_or(0)
    }

    // Writes a byte over another, in every other case within 16 bytes from `head_at` on. Half of the bytes are small numbers.
    fn write_byte(&mut self, buf: &mut [u8], head_at: usize) {
        let at = if self.below(2) == 0 {
            self.below(16).wrapping_add(head_at)
        } else {
            self.below(buf.len())
        };
        let end = if self.below(2) == 0 { 24 } else { 256 };
        let byte = self.byte_below(end);
        patch(buf, at, &[byte]);
    }

    // Makes of the first version of some bytes this one. Each page has the version's number in its middle, and page 1 another
    // byte in its header. Where the writer is not calm, the header has up to one byte more that is new, and a page three.
    fn write(&mut self, offset: u64, version: u32, buf: &mut [u8]) {
        let is_page = buf.len() > 100;
        let is_first = offset == 0;
        if is_page {
            patch(buf, 256, &version.to_be_bytes());
        }
        if is_page && is_first {
            let at = self.below(100);
            let old = buf.get(at).copied().unwrap_or(0);
            let more = self.byte_below(255).wrapping_add(1);
            patch(buf, at, &[old.wrapping_add(more)]);
        }
        let calm = self.calm.wrapping_add(1);
        if self.below(calm) == 0 {
            let head_at = if is_page && is_first { 100 } else { 0 };
            for _ in 0..self.below(if is_page { 4 } else { 2 }) {
                self.write_byte(buf, head_at);
            }
        }
    }
}

/// A file of which each read answers another version, drawn from a counter that goes on. It keeps what it answered. The read
/// number `fails_at`, from 0, fails, and all after it. Its bytes are not known.
#[derive(Drop)]
pub(crate) struct ChangingSource<'a> {
    alloc: Global,
    bytes: &'a [u8],
    writer: Writer,
    fails_at: usize,
    lens: u32,
    reads: usize,
    answers: Vec<Answer>,
    failures: Failures,
}

impl<'a> ChangingSource<'a> {
    /// No read fails where `fails_at` is greater than any number of reads.
    pub(crate) fn new(
        alloc: Global,
        bytes: &'a [u8],
        seed: u32,
        fails_at: usize,
    ) -> ChangingSource<'a> {
        ChangingSource {
            alloc,
            bytes,
            writer: Writer {
                drawn: seed.wrapping_mul(2654435761),
                calm: (seed % 16) as usize,
            },
            fails_at,
            lens: 0,
            reads: 0,
            answers: Vec::new(alloc),
            failures: Failures::new(),
        }
    }

    /// How often it was asked for its length.
    pub(crate) fn lens(&self) -> u32 {
        self.lens
    }

    /// How many reads were asked for, Ok or not.
    pub(crate) fn reads(&self) -> usize {
        self.reads
    }

    /// What the reads answered, in their order.
    pub(crate) fn answers(&self) -> &[Answer] {
        self.answers.as_slice()
    }
}

// Keeps an answer.
fn keep(
    alloc: Global,
    answers: &mut Vec<Answer>,
    offset: u64,
    buf: &[u8],
) -> Result<(), AllocError> {
    let bytes = Vec::from_slice(alloc, buf)?;
    answers.push(Answer { offset, bytes })?;
    Ok(())
}

impl Source for ChangingSource<'_> {
    ghost held = { λ s. record untold_source { failures = s.failures } };

    ghost step = { no_step };

    ghost lengths = { any_length };

    fn len(&mut self) -> Result<u64, ReadFailed> {
        self.lens = self.lens.wrapping_add(1);
        Ok(self.bytes.len() as u64)
    }

    fn read_at(&mut self, offset: u64, buf: &mut [u8]) -> Result<(), ReadFailed> {
        let number = self.reads;
        self.reads = self.reads.wrapping_add(1);
        buf.fill(0);
        let from = usize::try_from(offset).ok();
        let first = from.and_then(|at| self.bytes.get(at..)).unwrap_or(&[]);
        patch(buf, 0, first);
        let version = u32::try_from(number).unwrap_or(0);
        self.writer.write(offset, version, buf);
        let is_kept = number < self.fails_at
            && keep(self.alloc, &mut self.answers, offset, buf).is_ok();
        if is_kept {
            return Ok(());
        }
        self.failures.add();
        Err(ReadFailed)
    }
}
