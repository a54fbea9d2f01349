// What texts are written to, one after another.
ghost use Rattle.std.specs.Prelude.{◌≡◌, false};
ghost use Rattle.dbformat.specs.Lines.{fault_line};
ghost use Rattle.dbformat.specs.Report.{more_text};
ghost use Rattle.dblines.specs.Writing.{Wrote, answer_of};

use crate::lines::{put_fault, put_rest};
use dbformat::Fault;
use dbsource::{Out, WriteFailed};

/// An Out, until it fails: nothing is put to it after that. So a text is written piece by piece, and who began it asks once, at its end.
#[derive(Drop)]
pub struct Writer<'o, O> {
    pub out: &'o mut O,
    pub has_failed: bool,
}

impl<'o, O: Out> Writer<'o, O> {
    /// One to which nothing was written.
    pub fn new(out: &'o mut O) -> Writer<'o, O>
        ensures same_out { result.out.ghost_name ≡ out.entry.ghost_name }
        ensures out { result.out.now ≡ out.old }
        ensures fresh { result.has_failed ≡ false }
    {
        Writer {
            out,
            has_failed: false,
        }
    }

    /// Writes some bytes.
    pub fn put(&mut self, bytes: &[u8])
        ensures { Wrote O.held self.old bytes.now self.new }
    {
        if !self.has_failed {
            self.has_failed = self.out.put(bytes).is_err();
        }
    }

    /// Writes the line of a fault.
    pub fn put_fault(&mut self, fault: &Fault)
        ensures { Wrote O.held self.old (fault_line fault.now) self.new }
    {
        if !self.has_failed {
            self.has_failed = put_fault(self.out, fault).is_err();
        }
    }

    /// Writes the line that says how many faults are not shown, if there are any.
    pub fn put_rest(&mut self, count: u64)
        ensures { Wrote O.held self.old (more_text count) self.new }
    {
        if !self.has_failed {
            self.has_failed = put_rest(self.out, count).is_err();
        }
    }

    /// Whether all was put that was written.
    ///
    /// # Errors
    ///
    /// [`WriteFailed`] where the Out failed: it took a beginning of what was written.
    pub fn end(&self) -> Result<(), WriteFailed>
        ensures { answer_of result ≡ self.now.has_failed }
    {
        if self.has_failed {
            Err(WriteFailed)
        } else {
            Ok(())
        }
    }
}
