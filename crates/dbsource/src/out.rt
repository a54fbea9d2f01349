// What takes the bytes of a report.
ghost use Rattle.dbsource.specs.Outs.{Flushes, Puts};

use thiserror::Error;

/// A put or a flush that was not taken whole.
#[derive(Clone, Copy, Debug, Error, PartialEq, Eq)]
#[error("the output cannot be written")]
pub struct WriteFailed;

/// Where the bytes of a report are put, piece by piece.
pub trait Out {
    ghost use Rattle.dbsource.specs.Outs.{OutState};

    // The bytes that it holds, where they are known, those of them that it has not yet handed on, and its failures.
    ghost held: { Self → OutState };

    /// Appends the bytes of `piece`.
    ///
    /// # Errors
    ///
    /// [`WriteFailed`] where the piece was not taken whole. A beginning of it, perhaps nothing, was appended then, and
    /// one failure is counted.
    fn put(&mut self, piece: &[u8]) -> Result<(), WriteFailed>
        ensures { Puts result (held self.old) (held self.new) piece.now };

    /// Hands on what was put and is still pending.
    ///
    /// # Errors
    ///
    /// [`WriteFailed`] where not all of it was taken. No byte is lost then, and one failure is counted.
    fn flush(&mut self) -> Result<(), WriteFailed>
        ensures { Flushes result (held self.old) (held self.new) };
}
