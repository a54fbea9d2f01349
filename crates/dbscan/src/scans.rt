// A scan: all that is found in a file.
ghost use Rattle.std.specs.Prelude.{◌≡◌, List, false};
ghost use Rattle.dbformat.specs.Reference.{Reference};
ghost use Rattle.dbformat.specs.Survey.{Survey};
ghost use Rattle.dbsource.specs.Errors.{is_read_failed};
ghost use Rattle.dbsource.specs.Headers.{IsHeaderOf};
ghost use Rattle.dbsource.specs.Sources.{Asks};
ghost use Rattle.dbscan.specs.Desks.{IsFresh, shape_of};
ghost use Rattle.dbscan.specs.Kept.{KeepsHeader};
ghost use Rattle.dbscan.specs.Looks.{ReadsMarked};
ghost use Rattle.dbscan.specs.Scans.{IsScanned};

use crate::Desk;
use crate::end_pass::report_end;
use crate::notifier::Notifier;
use crate::report::report_header;
use crate::reporter::Reporter;
use crate::start::Start;
use crate::walks::{walk_roots, walk_schema, walk_trunks};
use dbsource::{RunError, Source};
use std::alloc::Allocator;

/// Reports all that is found in a file: the faults of its header; what is found from its starts, which are the schema's tree, the trees that
/// it names, and the freelist; and what is left at the end. The list takes the rows of the schema. The reporter is notified that a tree has ended
/// before the next page is read.
///
/// # Errors
///
/// [`RunError::ReadFailed`] exactly where the source failed, [`RunError::WriteFailed`] exactly where the reporter failed, and
/// [`RunError::OutOfMemory`] exactly where the list of roots was refused memory. After any of them the reporter has received a prefix of
/// the notices.
pub fn scan<A: Allocator, S: Source, K: Reporter>(
    desk: &mut Desk<A>,
    source: &mut S,
    reporter: &mut K,
) -> Result<(), RunError>
    requires fresh { IsFresh desk.old }
    requires open { (K.held reporter.old).is_shut ≡ false }
    ensures asks { Asks S.step (ReadsMarked (shape_of desk.old) desk.new.marks) (λ file. IsHeaderOf desk.old.header file
        → (V : List Reference) → Survey file V
        → IsScanned K.receives file V result desk.new.marks desk.new.roots.rows reporter.old reporter.new)
        is_read_failed result (S.held source.old) (S.held source.new) }
    ensures keeps { KeepsHeader result desk.old desk.new (K.held reporter.old) (K.held reporter.new) }
{
    report_header(desk.header(), reporter)?;
    let any_rows = walk_schema(desk, source, reporter)?;
    walk_roots(desk, source, reporter)?;
    let start = Start::freelist();
    walk_trunks(desk, source, &mut Notifier::new(reporter, &start))?;
    report_end(desk, source, any_rows, reporter)
}
