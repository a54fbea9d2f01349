// A change of a file.
ghost use Rattle.std.specs.Prelude.{◌≡◌, ◌+◌, ◌≤◌, length, IsTrue, ◌↔◌};
ghost use Rattle.std.specs.List.{list_any};
ghost use Rattle.dbsource.specs.Changes.{IsChange, IsInside, change_at, overlaps, with_change};

use arrayvec::ArrayVec;
use std::marker::Model;
use thiserror::Error;

/// Why a change is not taken.
#[derive(Clone, Copy, Debug, Error, PartialEq, Eq)]
pub enum ChangeError {
    /// It has no byte.
    #[error("there is no byte")]
    NoBytes,
    /// It has more than 16 bytes.
    #[error("there are more than 16 bytes")]
    TooLong,
    /// It has a byte where another change has one.
    #[error("two changes overlap")]
    Overlaps,
    /// There are 16 changes already.
    #[error("there are more than 16 changes")]
    TooMany,
}

/// 1 to 16 bytes, and the offset in a file at which they stand in the place of the file's own.
#[derive(Drop)]
pub struct Change {
    offset: u64,
    bytes: ArrayVec<u8, 16>,
}

impl Model for Change {
    ghost use Rattle.dbsource.specs.Changes.{Change as At, IsChange};

    ghost Value = { At };

    ghost view = { λ c. record { offset = c.offset; bytes = c.bytes.items } };

    ghost invariant = { λ c. IsChange (record { offset = c.offset; bytes = c.bytes.items }) };
}

// What is in an unused place of a list of changes.
impl Default for Change {
    fn default() -> Change {
        let mut bytes = ArrayVec::new();
        bytes.push(0);
        Change { offset: 0, bytes }
    }
}

impl Change {
    /// These bytes at this offset.
    ///
    /// # Errors
    ///
    /// [`ChangeError::NoBytes`] and [`ChangeError::TooLong`], for no byte and for more than 16.
    pub fn new(offset: u64, bytes: &[u8]) -> Result<Change, ChangeError>
        ensures { result ≡ change_at offset bytes.now }
    {
        if bytes.is_empty() {
            return Err(ChangeError::NoBytes);
        }
        let mut kept = ArrayVec::new();
        match kept.try_extend_from_slice(bytes) {
            Ok(()) => Ok(Change {
                offset,
                bytes: kept,
            }),
            Err(_) => Err(ChangeError::TooLong),
        }
    }

    /// How many bytes it has, from 1 to 16.
    pub fn count(&self) -> usize
        ensures { result ≡ length self.now.bytes }
    {
        self.bytes.len()
    }

    // Whether all its bytes are among the first `len` of a file.
    pub(crate) fn is_inside(&self, len: u64) -> bool
        ensures { IsTrue result ↔ IsInside len self.now }
    {
        self.offset <= len && self.bytes.len() as u64 <= len - self.offset
    }

    // Whether this change and another have a place in common.
    pub(crate) fn overlaps(&self, other: &Change) -> bool
        ensures { result ≡ overlaps self.now other.now }
    {
        if self.offset < other.offset {
            other.offset - self.offset < self.bytes.len() as u64
        } else {
            self.offset - other.offset < other.bytes.len() as u64
        }
    }

    // Whether one of these overlaps it.
    pub(crate) fn overlaps_any(&self, others: &[Change]) -> bool
        ensures value { result ≡ list_any (overlaps self.now) others.now }
        ensures right { IsChange self.now }
    {
        let _known = &self.bytes;
        others.iter().any(|other| self.overlaps(other))
    }

    // Puts its bytes over those that were read at `offset`.
    pub(crate) fn put_over(&self, offset: u64, buf: &mut [u8])
        ensures { buf.new ≡ with_change offset buf.old self.now }
    {
        let bytes = self.bytes.as_slice();
        let skipped = self.offset.saturating_sub(offset);
        let passed = offset.saturating_sub(self.offset);
        if skipped < buf.len() as u64 && passed < bytes.len() as u64 {
            let at = skipped as usize;
            let from = passed as usize;
            let count = (bytes.len() - from).min(buf.len() - at);
            buf[at..at + count].copy_from_slice(&bytes[from..from + count]);
        }
    }
}
