// The report, when all of a file is known, and what is put of it after a failed read.
ghost use Rattle.std.specs.Prelude.{◌≡◌};
ghost use Rattle.dblines.specs.Writing.{PutsOf};
ghost use Rattle.dbsource.specs.Outs.{Puts};
ghost use Rattle.dbinjuries.specs.Listed.{listed_injuries};
ghost use Rattle.dbexplain.specs.Explained.{explain_text};
ghost use Rattle.dbexplain.specs.Keeping.{HasAll, lines_of};

use crate::injury_lines::{put_fault_lines, put_injuries};
use crate::kept::Kept;
use crate::owners::Owners;
use crate::starts::RowNotes;
use crate::summary::put_summary;
use dblines::Writer;
use dbscan::Desk;
use dbsource::{Out, WriteFailed};
use std::alloc::Allocator;

/// Puts the report of a file in which faults were found: the first injuries, how many faults belong to none of them, and the
/// summary.
///
/// # Errors
///
/// [`WriteFailed`] where the Out failed: it took a beginning of the report.
pub(crate) fn put_report<A: Allocator, O: Out>(
    desk: &Desk<A>,
    kept: &mut Kept<A>,
    out: &mut O,
) -> Result<(), WriteFailed>
    ensures { PutsOf result (O.held out.old) (O.held out.new) (HasAll desk.now kept.old)
        (λ file V. explain_text kept.old.listing.injuries.limit file V (listed_injuries file V)) }
{
    let mut writer = Writer::new(out);
    let owners = Owners {
        header: desk.header(),
        marks: desk.marks(),
        roots: desk.roots(),
        trees: &kept.trees,
    };
    put_injuries(&mut writer, &owners, kept.listing.listed());
    writer.put_rest(kept.listing.rest());
    kept.ranges.close();
    let rows = RowNotes {
        ranges: &kept.ranges,
        indexes: &kept.indexes,
    };
    put_summary(&mut writer, &owners, &mut kept.tally, &kept.listing, &rows);
    writer.end()
}

/// Puts the fault lines of the injuries found so far.
///
/// # Errors
///
/// [`WriteFailed`] where the Out failed: it took a beginning of the lines.
pub(crate) fn put_found<A: Allocator, O: Out>(
    kept: &Kept<A>,
    out: &mut O,
) -> Result<(), WriteFailed>
    ensures { Puts result (O.held out.old) (O.held out.new) (lines_of kept.now.listing.injuries.listed) }
{
    let mut writer = Writer::new(out);
    put_fault_lines(&mut writer, kept.listing.listed());
    writer.end()
}
