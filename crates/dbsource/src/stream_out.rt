// An Out over a writer.
ghost use Rattle.std.specs.Prelude.{◌≡◌, ◌≤◌, length, take, OnOk};
ghost use Rattle.std.specs.Io.KnownBytes.{Appends};
ghost use Rattle.dbsource.specs.Outs.{Writes, at_once};

use crate::{Failures, Out, WriteFailed};
use std::io::Write;
use std::marker::Model;

/// A writer, called until it has taken the whole piece. An error of it, or a write that takes nothing, fails the put.
#[derive(Drop)]
pub struct StreamOut<W: Write> {
    writer: W,
    failures: Failures,
}

impl<W: Write> Model for StreamOut<W> {
    ghost use Rattle.dbsource.specs.Outs.{Holding};

    ghost Value = { Holding };

    ghost view = { λ s. record { bytes = W.contents s.writer; failures = s.failures } };
}

impl<W: Write> StreamOut<W> {
    /// An Out over `writer`. A put does not flush it, so the writer has to hand on what it takes by itself.
    pub fn new(writer: W) -> StreamOut<W>
        ensures { result ≡ record { bytes = W.contents writer; failures = 0 } }
    {
        StreamOut {
            writer,
            failures: Failures::new(),
        }
    }
}

// Writes the piece in as many writes as it takes. The first result is how many bytes of it were taken.
pub(crate) fn write_whole<W: Write>(
    writer: &mut W,
    piece: &[u8],
) -> (usize, Result<(), WriteFailed>)
    ensures bound { result.0 ≤ length piece.now }
    ensures whole { OnOk result.1 (result.0 ≡ length piece.now) }
    ensures taken { Appends (W.contents writer.old) (W.contents writer.new) (take result.0 piece.now) }
    ensures writes { Writes result.1 (W.contents writer.old) (W.contents writer.new) piece.now }
{
    let mut at = 0;
    while at < piece.len() {
        match writer.write(&piece[at..]) {
            Ok(0) => return (at, Err(WriteFailed)),
            Ok(count) => at += count,
            Err(_) => return (at, Err(WriteFailed)),
        }
    }
    (at, Ok(()))
}

impl<W: Write> Out for StreamOut<W> {
    ghost held = { at_once };

    fn put(&mut self, piece: &[u8]) -> Result<(), WriteFailed> {
        let (_, written) = write_whole(&mut self.writer, piece);
        if written.is_err() {
            self.failures.add();
        }
        written
    }

    #[tactic(auto, using(crate::proofs::Puts::keeps_same))]
    fn flush(&mut self) -> Result<(), WriteFailed> {
        Ok(())
    }
}
