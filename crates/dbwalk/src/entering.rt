// Entering a page: it is marked, if its reference may be followed.
ghost use Rattle.std.specs.Prelude.{◌≡◌, ◌-◌, ◌≤◌, ℕ, List, IfOk, IfErr, IsTrue, false, true, Some, slice_set, if◌then◌else◌, Ok, Err};
ghost use Rattle.dbformat.specs.FixedPages.{most_pages, IsPageNumber};
ghost use Rattle.dbformat.specs.Reference.{Reference};
ghost use Rattle.dbsource.specs.declared.error.RunError.TheVariants as run_error;
ghost use Rattle.dbmarks.specs.declared.marks.Mark.TheVariants as use_mark;
ghost use Rattle.dbmarks.specs.Marking.{AreMarksOf, page_mark, named_page};
ghost use Rattle.dbwalk.specs.Entered.{IsNext, IsStepOf, Enters};
ghost use Rattle.dbtrace.specs.Causes.{no_rowids};
ghost use Rattle.dbtrace.specs.declared.Cause.{Cause};
ghost use Rattle.dbtrace.specs.declared.Cause.TheVariants as cause;
ghost use Rattle.dbwalk.specs.Reporting.{SinkWalks};

use crate::{Cause, Fault, Mark, Marks, RowidBounds, Sink};
use dbsource::RunError;
use std::alloc::Allocator;

/// A reference to a page.
#[derive(Clone, Copy)]
pub(crate) struct Step {
    /// The page that it names.
    pub(crate) page: u32,
    /// The mark that the page gets, if the reference is followed.
    pub(crate) mark: Mark,
    /// The page with the reference, or 0 for a start.
    pub(crate) from: u32,
    /// The item of that page.
    pub(crate) item: u32,
    /// Whether the reference leads too deep into a tree.
    pub(crate) is_too_deep: bool,
}

/// The cause of a fault that goes back to nothing else, made where it is asked for.
pub(crate) fn itself() -> Cause
    ensures { result ≡ cause.Itself }
{
    Cause::Itself
}

/// The cause of the fault of a root, made where it is asked for: any row may be below it.
pub(crate) fn all_rows() -> Cause
    ensures { result ≡ cause.Rows no_rowids }
{
    Cause::Rows(RowidBounds::NONE)
}

/// Whether a walk may go on: the sink is open.
///
/// # Errors
///
/// [`RunError::WriteFailed`] exactly where the sink is shut.
#[inline(always)]
pub(crate) fn ask<K: Sink>(sink: &K) -> Result<(), RunError>
    ensures { result ≡ (if (K.held sink.now).is_shut then Err run_error.WriteFailed else Ok tt) }
{
    if sink.is_shut() {
        Err(RunError::WriteFailed)
    } else {
        Ok(())
    }
}

/// Asks whether the sink is shut. If it is open, marks the page of a reference that may be followed, or reports why it may not, with
/// the cause, which is made only then. True if the page was marked.
///
/// # Errors
///
/// [`RunError::WriteFailed`] exactly where the sink was shut: nothing was marked or reported then.
pub(crate) fn enter<K: Sink, A: Allocator, F: FnOnce() -> Cause>(
    marks: &mut Marks<A>,
    step: Step,
    cause: F,
    sink: &mut K,
) -> Result<bool, RunError>
    requires named { IsPageNumber (named_page step.mark) }
    requires caused { F.pre cause }
    ensures marked { IfOk result (λ yes. IsTrue yes → (page_mark marks.old step.page ≡ Some use_mark.Unmarked)
        × (marks.new ≡ slice_set marks.old (step.page - 1) step.mark)) }
    ensures page { IfOk result (λ yes. IsTrue yes → (1 ≤ step.page) × (step.page ≤ most_pages)) }
    ensures shallow { IfOk result (λ yes. IsTrue yes → step.is_too_deep ≡ false) }
    ensures unmarked { IfOk result (λ yes. yes ≡ false → marks.new ≡ marks.old) }
    ensures after_error { IfErr result (λ e. (e ≡ run_error.WriteFailed) × (marks.new ≡ marks.old)) }
    ensures writes { SinkWalks result (K.held sink.old) (K.held sink.new) }
    ensures open { IfOk result (λ yes. IsTrue yes → (K.held sink.new).is_shut ≡ false) }
    ensures entered { (file : List ℕ) (W : List Reference) (c : Reference) (why : Cause) → IsStepOf step c → IsNext W c → AreMarksOf file W marks.old
        → ((made : _) → F.post cause made → why ≡ made) → Enters K.takes file W c why result marks.new sink.old sink.new }
{
    ask(sink)?;
    match marks.follow(step.page, step.mark, step.is_too_deep) {
        None => Ok(true),
        Some(code) => {
            let fault = Fault::new(code, step.from, step.item, step.page);
            sink.fault(&fault, &cause());
            Ok(false)
        }
    }
}
