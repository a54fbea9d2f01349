// The summary after the last fault.
ghost use Rattle.dblines.specs.Writing.{WroteOf};
ghost use Rattle.dbscan.specs.Placed.{reported_faults};
ghost use Rattle.dbexplain.specs.Keeping.{IsCounted};
ghost use Rattle.dbexplain.specs.Summary.{summary};

use crate::owners::Owners;
use crate::reached::count_pages;
use crate::starts::{RowNotes, put_start_sum, put_start_sums};
use crate::sums::{count_text, put_code_sums, put_sum};
use crate::tally::Tally;
use crate::trees::put_trees;
use crate::zeros::put_zeros;
use dbformat::{FREELIST_START, FaultCode};
use dbinjuries::Listing;
use dblines::Writer;
use dbsource::Out;
use std::alloc::Allocator;

/// Writes the summary of all faults of a file: how many there are in all, of each code, from each start and of the whole file; of a start
/// also on how many of its pages they are, and of which rows; then which pages are zeros, and how many tables and indexes have no fault.
/// The pages of each start are counted here, in one pass over the marks.
pub(crate) fn put_summary<A: Allocator, O: Out>(
    writer: &mut Writer<'_, O>,
    owners: &Owners<'_, A>,
    tally: &mut Tally<A>,
    listing: &Listing<A>,
    rows: &RowNotes<'_, A>,
)
    // Where all faults of the file were added.
    ensures { WroteOf O.held writer.old (IsCounted owners.now tally.old listing.now.zeros rows.now) (λ file V.
        summary file V (reported_faults file V)) writer.new }
{
    count_pages(tally, owners);
    let shape = owners.header.geometry();
    let names = owners.names();
    let all = tally.all();
    writer.put(count_text(all).as_slice());
    put_code_sums(writer, tally, &FaultCode::all());
    put_start_sums(writer, &names, tally, rows);
    put_start_sum(writer, &names, tally, rows, FREELIST_START);
    put_sum(writer, all, tally.whole(), "in the whole file");
    put_zeros(writer, shape, &listing.zero_runs(shape.pages));
    put_trees(writer, names.roots, tally);
}
