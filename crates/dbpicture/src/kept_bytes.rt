// An Out that keeps the beginning of what is put.
ghost use Rattle.std.specs.Prelude.{◌≡◌, ◌⊎◌, ◌≤◌, Some, length};
ghost use Rattle.dbsource.specs.Outs.{at_once, empty_out};

use arrayvec::ArrayVec;
use dbsource::{Failures, Out, WriteFailed};
use std::marker::Model;

/// How many bytes of a text are kept: more than the widest that is shown.
pub(crate) const KEPT: usize = 320;

/// An Out that keeps the first 320 bytes that are put. A put for which there is no room takes what there is room for, and fails.
#[derive(Drop)]
pub(crate) struct KeptBytes {
    bytes: ArrayVec<u8, KEPT>,
    failures: Failures,
}

impl Model for KeptBytes {
    ghost use Rattle.std.specs.Prelude.{Some, ◌≡◌, ◌⊎◌, length};
    ghost use Rattle.dbsource.specs.Outs.{Holding};

    ghost Value = { Holding };

    ghost view = { λ s. record { bytes = Some s.bytes.items; failures = s.failures } };

    // A put failed only where all room was taken.
    ghost invariant = { λ s. (s.failures ≡ 0) ⊎ (length s.bytes.items ≡ 320) };
}

impl KeptBytes {
    /// No bytes yet.
    pub(crate) fn new() -> KeptBytes
        ensures { result ≡ empty_out }
    {
        KeptBytes {
            bytes: ArrayVec::new(),
            failures: Failures::new(),
        }
    }

    /// The bytes that are kept.
    pub(crate) fn into_bytes(self) -> ArrayVec<u8, KEPT>
        ensures bytes { self.bytes ≡ Some result.items }
        ensures full { (self.failures ≡ 0) ⊎ (length result.items ≡ 320) }
        ensures most { length result.items ≤ 320 }
    {
        self.bytes
    }
}

impl Out for KeptBytes {
    ghost held = { at_once };

    fn put(&mut self, piece: &[u8]) -> Result<(), WriteFailed> {
        let taken = piece.len().min(KEPT - self.bytes.len());
        let _ = self.bytes.try_extend_from_slice(&piece[..taken]);
        if taken == piece.len() {
            return Ok(());
        }
        self.failures.add();
        Err(WriteFailed)
    }

    fn flush(&mut self) -> Result<(), WriteFailed> {
        Ok(())
    }
}
