// Entering a page beside the pages of a tree: of an overflow chain, or a trunk of the freelist.
ghost use Rattle.std.specs.Prelude.{◌≡◌, ◌+◌, ◌≤◌, ◌<◌, length, IfOk, IfSome, IsTrue};
ghost use Rattle.dbformat.specs.FixedPages.{IsPageNumber};
ghost use Rattle.dbformat.specs.Payload.{most_payload};
ghost use Rattle.dbmarks.specs.Marking.{IsUse, named_page, unmarked_pages};
ghost use Rattle.dbwalk.specs.Beside.{EntersBeside, IsPageBuffer, WalksBeside};
ghost use Rattle.dbwalk.specs.Chains.{known_cause};

use crate::chain::ChainPage;
use crate::entering::{Step, enter};
use crate::overflow::{chain_cause, seen_before};
use crate::{Cause, Marks, Sink};
use dbsource::{RunError, Source, load_page};
use std::alloc::Allocator;

// What the fault of a reference goes back to, by the bytes of the page that was read before.
fn known_cause(at: Option<ChainPage<'_>>, here: &[u8]) -> Cause
    requires { IfSome at (λ at. IsPageBuffer at.chain.now.usable here.now × (at.place.number + at.place.left ≤ most_payload)) }
    ensures { result ≡ known_cause at.entry here.now }
{
    match at {
        None => Cause::Itself,
        Some(at) => {
            let (usable, number) = (at.chain.usable, at.place.number);
            chain_cause(at, usable, number, seen_before(here, usable, number))
        }
    }
}

/// Enters a page of no tree: marks it and then reads it, if its reference may be followed, or reports why it may not. True if
/// the page was read, into the buffer. `at` is the place along a chain, if there is one.
///
/// # Errors
///
/// [`RunError::ReadFailed`] exactly where the source failed, [`RunError::WriteFailed`] where the sink was found shut: nothing
/// was reported then.
pub(crate) fn enter_beside<S: Source, K: Sink, A: Allocator>(
    source: &mut S,
    buffer: &mut [u8],
    marks: &mut Marks<A>,
    step: Step,
    at: Option<ChainPage<'_>>,
    sink: &mut K,
) -> Result<bool, RunError>
    requires named { IsPageNumber (named_page step.mark) × IsUse step.mark }
    requires size { length buffer.old ≤ 65536 }
    requires chain { IfSome at (λ at. IsPageBuffer at.chain.now.usable buffer.old × (at.place.number + at.place.left ≤ most_payload)) }
    ensures walks { WalksBeside S.step result (S.held source.old) (S.held source.new) (K.held sink.old) (K.held sink.new) (length buffer.old)
        marks.old marks.new (λ file. EntersBeside K.takes file step (known_cause at.entry buffer.old) marks.old sink.old result marks.new sink.new buffer.new) }
    ensures page { IfOk result (λ yes. IsTrue yes → IsPageNumber step.page) }
    ensures less { IfOk result (λ yes. IsTrue yes → unmarked_pages marks.new < unmarked_pages marks.old) }
{
    let here = &*buffer;
    let cause = ||
        requires { IfSome at (λ at. IsPageBuffer at.chain.now.usable here.now × (at.place.number + at.place.left ≤ most_payload)) }
        ensures { result ≡ known_cause at.entry here.entry.now }
    { known_cause(at, here) };
    if !enter(marks, step, cause, sink)? {
        return Ok(false);
    }
    load_page(source, step.page, buffer)?;
    Ok(true)
}
