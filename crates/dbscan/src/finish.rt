// A run over a desk: a reporter receives all of a file, and ends its report.
ghost use Rattle.std.specs.Prelude.{◌≡◌, false};
ghost use Rattle.dbscan.specs.Finishes.{HasFinished, HasReported, Leaves};

use crate::Desk;
use crate::reporter::Reporter;
use crate::scans::scan;
use dbformat::Verdict;
use dbsource::{HeadedSource, RunError, Source};
use std::alloc::Allocator;

/// A desk, as the contract of [`Finish`] sees it. It is a trait, since a trait's method with a `&mut Desk<A>` gets no clauses yet.
pub trait Viewed {
    ghost use Rattle.dbscan.specs.Desks.{DeskView};

    // What is on it.
    ghost desk_view: { Self → DeskView };
}

impl<A: Allocator> Viewed for Desk<A> {
    ghost desk_view = { λ d. d };
}

/// A reporter that ends its report when it has received all of a file, and answers what was found. `D` is a [`Desk`].
pub trait Finish<D: Viewed>: Reporter {
    ghost use Rattle.std.specs.Prelude.{ℕ, List, Result};
    ghost use Rattle.dbformat.specs.Reference.{Reference};
    ghost use Rattle.dbformat.specs.declared.Verdict.{Verdict};
    ghost use Rattle.dbsource.specs.declared.error.RunError.{RunError};

    // What a run over a file makes of a reporter: by a survey of the file and the answer, from the state before to the one after.
    ghost leaves: { List ℕ → List Reference → Result Verdict RunError → Self → Self → Type 0 };

    /// Ends the report of a file, when all of it has been received, by what the walks left on the desk. It may read pages that were not
    /// visited, each once.
    ///
    /// # Errors
    ///
    /// [`RunError::ReadFailed`] exactly where the source failed, and [`RunError::WriteFailed`] exactly where an Out failed.
    fn finish<S: Source>(&mut self, desk: &mut D, source: &mut S) -> Result<Verdict, RunError>
        requires { (Self.held self.old).is_shut ≡ false }
        ensures { HasFinished S.Source Self.receives Self.held leaves result (D.desk_view desk.old) (D.desk_view desk.new)
            (source.old, self.old) (source.new, self.new) };
}

/// Reports to a reporter all that is found in the file whose header is on the desk, and has it end its report. The header is not
/// read again, and a desk may be used any number of times. Only the list of roots takes memory.
///
/// # Errors
///
/// [`RunError::ReadFailed`] exactly where the source failed, [`RunError::WriteFailed`] exactly where an Out of the reporter failed,
/// and [`RunError::OutOfMemory`] exactly where the list of roots was refused memory.
pub fn run_over<A: Allocator, S: Source, K: Finish<Desk<A>>>(
    desk: &mut Desk<A>,
    source: &mut S,
    reporter: &mut K,
) -> Result<Verdict, RunError>
    requires { (K.held reporter.old).is_shut ≡ false }
    ensures { HasReported S.Source K.held (Leaves K.receives K.leaves) result desk.old desk.new (source.old, reporter.old) (source.new, reporter.new) }
{
    desk.renew();
    let header = *desk.header();
    let mut headed = HeadedSource::new(&header, source);
    scan(desk, &mut headed, reporter)?;
    reporter.finish(desk, &mut headed)
}
