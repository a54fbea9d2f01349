// An out and writers that fail where a test asks for it. Their bytes are not known to a proof.
ghost use Rattle.std.specs.Prelude.{[], None};

use arrayvec::ArrayVec;
use dbsource::{Failures, Out, WriteFailed};
use std::io::{self, ErrorKind, Write};

/// An out that takes some bytes in all, 2048 at most, and no memory.
#[derive(Drop)]
pub(crate) struct SmallOut {
    held: ArrayVec<u8, 2048>,
    room: usize,
    failures: Failures,
}

impl SmallOut {
    pub(crate) fn new(room: usize) -> SmallOut {
        SmallOut {
            held: ArrayVec::new(),
            room,
            failures: Failures::new(),
        }
    }

    pub(crate) fn bytes(&self) -> &[u8] {
        self.held.as_slice()
    }
}

impl Out for SmallOut {
    ghost held = { λ s. record { bytes = None; pending = []; failures = s.failures } };

    fn put(&mut self, piece: &[u8]) -> Result<(), WriteFailed> {
        let taken = piece.len().min(self.room);
        self.room -= taken;
        let fits = self.held.try_extend_from_slice(&piece[..taken]).is_ok();
        if fits && taken == piece.len() {
            return Ok(());
        }
        self.failures.add();
        Err(WriteFailed)
    }

    fn flush(&mut self) -> Result<(), WriteFailed> {
        Ok(())
    }
}

/// What a writer answers to each write.
#[derive(Clone, Copy, PartialEq, Eq)]
pub(crate) enum Manner {
    /// It takes one byte.
    OneByte,
    /// It takes nothing.
    Nothing,
    /// It fails.
    Fails,
}

/// A writer that answers each write so, and keeps the first 64 bytes that it took.
#[derive(Drop)]
pub(crate) struct FakeWriter {
    manner: Manner,
    taken: ArrayVec<u8, 64>,
}

impl FakeWriter {
    pub(crate) fn new(manner: Manner) -> FakeWriter {
        FakeWriter {
            manner,
            taken: ArrayVec::new(),
        }
    }

    /// The bytes that it took.
    pub(crate) fn taken(&self) -> &[u8] {
        self.taken.as_slice()
    }
}

impl Write for FakeWriter {
    fn write(&mut self, buf: &[u8]) -> io::Result<usize> {
        match (self.manner, buf.first()) {
            (Manner::OneByte, Some(byte)) => {
                let _ = self.taken.try_push(*byte);
                Ok(1)
            }
            (Manner::Fails, _) => Err(io::Error::from(ErrorKind::Other)),
            _ => Ok(0),
        }
    }

    fn flush(&mut self) -> io::Result<()> {
        Ok(())
    }
}
