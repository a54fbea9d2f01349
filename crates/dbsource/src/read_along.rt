// Reading along: reads that follow one another are answered from one longer read.
use crate::memory_source::copy_range;
use std::alloc::Global;
use std::fs::File;
use std::os::unix::fs::FileExt;

// After this many reads in a row the next one is a longer one. Fewer often follow one another by chance.
const ROW: u32 = 2;

// The sizes of longer reads in bytes: each in a row is twice as long as the one before, up to the greatest. Beyond that
// the calls are few, and what is read is no longer near in the processor's caches when it is copied.
const LEAST: usize = 16_384;

const GREATEST: usize = 262_144;

// The longest page that is read so. A longer one costs more to copy than a call of the system takes.
const LONGEST: usize = 4096;

/// The bytes of the last longer read, which answer later reads that they cover.
#[derive(Drop)]
pub(crate) struct ReadAlong {
    buffer: Vec<u8>,
    // Where in the file the bytes begin, and how many there are.
    start: u64,
    held: usize,
    // Where the last read ended, and how many reads before it followed one another.
    end: u64,
    row: u32,
    // The size of the next longer read.
    size: usize,
}

impl ReadAlong {
    /// No bytes yet. Memory is taken by the first longer read, and where it is refused there is none.
    pub fn new(alloc: Global) -> ReadAlong {
        ReadAlong {
            buffer: Vec::new(alloc),
            start: 0,
            held: 0,
            end: 0,
            row: 0,
            size: LEAST,
        }
    }

    /// Reads from `offset` on, from the bytes that are held or by a longer read. Answers `false` where no longer read
    /// is due or it does not return all of them; the contents of `buf` are then unspecified.
    pub fn read(&mut self, file: &File, offset: u64, buf: &mut [u8]) -> bool {
        if buf.len() > LONGEST {
            return false;
        }
        let follows = offset == self.end;
        self.end = offset.saturating_add(buf.len() as u64);
        if self.gives(offset, buf) {
            return true;
        }
        if !self.goes_on(offset) {
            if !follows {
                self.row = 0;
                return false;
            }
            if self.row < ROW {
                self.row += 1;
                return false;
            }
            self.size = LEAST;
        }
        self.fill(file, offset);
        self.gives(offset, buf)
    }

    // Whether a read begins where the bytes that are held end. Others may have come between: each leaf comes between the
    // overflow chains of its cells, which follow one another.
    fn goes_on(&self, offset: u64) -> bool {
        self.held > 0 && offset == self.start.saturating_add(self.held as u64)
    }

    // Copies the bytes from `offset` on, if all of them are held.
    fn gives(&self, offset: u64, buf: &mut [u8]) -> bool {
        match (
            offset.checked_sub(self.start),
            self.buffer.as_slice().get(..self.held),
        ) {
            (Some(from), Some(bytes)) => copy_range(bytes, from, buf),
            _ => false,
        }
    }

    // Makes the longer read that is due from `offset` on, which may return fewer bytes. Where it fails none are held.
    fn fill(&mut self, file: &File, offset: u64) {
        self.held = 0;
        if self
            .buffer
            .try_reserve_exact(GREATEST.saturating_sub(self.buffer.len()))
            .is_err()
            || self.buffer.len() < self.size && self.buffer.resize(self.size, 0).is_err()
        {
            return;
        }
        if let Some(room) = self.buffer.as_mut_slice().get_mut(..self.size)
            && let Ok(count) = file.read_at(room, offset)
        {
            self.start = offset;
            self.held = count;
            self.size = GREATEST.min(self.size.saturating_mul(2));
        }
    }
}
