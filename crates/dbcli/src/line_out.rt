// An Out that hands on each line at its end.
ghost use Rattle.std.specs.Prelude.{◌≡◌, ◌-◌, [], true, OnOk};
ghost use Rattle.dbsource.specs.Outs.{Puts};
ghost use Rattle.dbcli.specs.Handing.{EndsLine};

use crate::progress::Progress;
use dbsource::{Out, WriteFailed};

/// An Out over another Out. If that leads to a terminal, a line is handed on with its last piece, so that it is seen as
/// soon as it is found, and the progress that is shown is wiped before; else lines stay with the inner Out.
#[derive(Drop)]
pub struct LineOut<'a, O, W> {
    out: O,
    is_terminal: bool,
    progress: &'a Progress<W>,
}

impl<'a, O: Out, W: Print> LineOut<'a, O, W> {
    /// One over `out`.
    pub fn new(out: O, is_terminal: bool, progress: &'a Progress<W>) -> LineOut<'a, O, W>
        ensures out { result.out ≡ out }
        ensures terminal { result.is_terminal ≡ is_terminal }
    {
        LineOut {
            out,
            is_terminal,
            progress,
        }
    }
}

impl<O: Out, W: Print> Out for LineOut<'_, O, W> {
    ghost held = { λ s. O.held s.out };

    fn put(&mut self, piece: &[u8]) -> Result<(), WriteFailed>
        ensures puts { Puts result (O.held self.old.out) (O.held self.new.out) piece.now }
        ensures line { self.old.is_terminal ≡ true → EndsLine piece.now → OnOk result ((O.held self.new.out).pending ≡ []) }
    {
        if self.is_terminal {
            self.progress.wipe();
        }
        self.out.put(piece)?;
        if self.is_terminal && piece.last() == Some(&b'\n') {
            self.out.flush()?;
        }
        Ok(())
    }

    fn flush(&mut self) -> Result<(), WriteFailed> {
        self.out.flush()
    }
}
