// Who receives what is found in a file.
ghost use Rattle.std.specs.Prelude.{◌≡◌, if◌then◌else◌, Ok, Err};
ghost use Rattle.dbsource.specs.declared.error.RunError.TheVariants as run_error;
ghost use Rattle.dbwalk.specs.Reporting.{SinkMoves};
ghost use Rattle.dbscan.specs.Notices.{IsGiven, notice_of};

use crate::notice::Notice;
use dbsource::RunError;

/// Receives what is found in a file, one notice after another. Once a notice was not taken whole it is shut, for good: it takes nothing after
/// that. Before each further page a run asks whether it is shut.
///
/// # A quiet reporter
///
/// A reporter of which nothing is claimed, and which takes every notice. It proves with any body of `receive`:
///
/// ```
/// #[derive(Drop)]
/// struct Quiet {
///     received: u64,
/// }
///
/// impl Reporter for Quiet {
///     ghost use Rattle.std.specs.Prelude.{[], false, ⊤};
///
///     ghost receives = { λ _ _ _. ⊤ };
///
///     ghost held = { λ _. record { lent = []; failures = []; is_shut = false } };
///
///     fn receive(&mut self, _notice: &Notice<'_>) {
///         self.received = self.received.saturating_add(1);
///     }
///
///     fn is_shut(&self) -> bool {
///         false
///     }
/// }
/// ```
///
/// One that writes keeps its Out and a flag. After a failed put it sets the flag, puts nothing more and is shut, as `CheckReporter` (of
/// `dbreport`) does.
pub trait Reporter {
    ghost use Rattle.dbwalk.specs.Reporting.{SinkState};
    ghost use Rattle.dbscan.specs.Notices.{Notice as Received};

    // The state after a notice: it was taken, or not whole, or it came to a reporter that was shut.
    ghost receives: { Self → Received → Self → Type 0 };
    // What it borrows, how many calls of each Out failed, in 64 bits, and whether it is shut.
    ghost held: { Self → SinkState };

    /// Takes a notice. A reporter that is shut takes nothing. Where the notice is not taken whole, this counts as one failure, and the
    /// reporter is shut.
    fn receive(&mut self, notice: &Notice<'_>)
        requires { IsGiven (notice_of notice.now) }
        ensures notice { receives self.old (notice_of notice.now) self.new }
        ensures count { SinkMoves (held self.old) (held self.new) };

    /// Whether a notice was not taken whole. It stays so.
    fn is_shut(&self) -> bool
        ensures { result ≡ (held self.now).is_shut };
}

// Whether a run may go on: the reporter is open.
#[inline(always)]
pub(crate) fn ask<K: Reporter>(reporter: &K) -> Result<(), RunError>
    ensures { result ≡ (if (K.held reporter.now).is_shut then Err run_error.WriteFailed else Ok tt) }
{
    if reporter.is_shut() {
        Err(RunError::WriteFailed)
    } else {
        Ok(())
    }
}
