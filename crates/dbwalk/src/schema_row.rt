// A row of the schema: who takes it, and what is reported of it (Database File Format, 2.6).
ghost use Rattle.std.specs.Prelude.{◌≡◌, ℕ, List, None, Ok, IfErr, ◌<◌, ◌≤◌};
ghost use Rattle.std.specs.Result.{result_ok};
ghost use Rattle.dbformat.specs.Cell.{cell, count};
ghost use Rattle.dbformat.specs.Faults.{fault};
ghost use Rattle.dbformat.specs.SchemaRow.{schema_row};
ghost use Rattle.dbformat.specs.Tests.{reported_if};
ghost use Rattle.dbformat.specs.declared.Encoding.{Encoding};
ghost use Rattle.dbbytes.specs.Row.{seen};
ghost use Rattle.dbwalk.specs.Reporting.{IsWriteOrMemory, IsReportedTo, findings, SinkWalks};
ghost use Rattle.dbwalk.specs.Rows.{schema_row_of};
ghost use Rattle.dbwalk.specs.Taking.{row_place, fault_of, taken_faults, ReportsRow, HasFed, HoldsCell};
ghost use Rattle.dbsource.specs.Errors.{is_out_of_memory};
ghost use Rattle.dbsource.specs.Failures.{failures_after};
ghost use Rattle.dbformat.specs.Address.{schema_start};

use crate::entering::ask;
use crate::{Cause, Sink, Taken, Taker};
use dbbytes::{RowSieve, SchemaRow};
use dbformat::{Encoding, Fault, FaultCode, RowFault, SCHEMA_START};
use dbpage::PageView;
use dbsource::RunError;

/// The place of a row of the schema: its page, the number of its cell, and its rowid.
#[derive(Clone, Copy, Drop)]
pub(crate) struct RowPlace {
    pub(crate) page: u32,
    pub(crate) item: u32,
    pub(crate) rowid: i64,
}

impl RowPlace {
    /// The place of the row of cell `item` of a page. The key is the rowid; 0 if the cell has none.
    pub(crate) fn new(page: u32, item: u32, key: Option<i64>) -> RowPlace
        ensures { result ≡ row_place page item key }
    {
        RowPlace {
            page,
            item,
            rowid: key.unwrap_or(0),
        }
    }

    // A fault at the place of the row.
    fn fault(self, code: FaultCode, value: i64) -> Fault
        ensures { result ≡ fault code self.page self.item value }
    {
        Fault {
            code,
            page: self.page,
            item: self.item,
            value,
        }
    }

    // The fault of a row that cannot be read, or whose root page is wrong.
    fn row_fault(self, fault: RowFault) -> Fault
        ensures { result ≡ fault_of self fault }
    {
        match fault {
            RowFault::Malformed => self.fault(FaultCode::S01, self.rowid),
            RowFault::Root(value) => self.fault(FaultCode::S03, value),
        }
    }
}

// Reports a fault, if there is one.
fn report_if<K: Sink>(is_fault: bool, fault: &Fault, sink: &mut K)
    ensures { IsReportedTo K.takes K.held sink.old (findings (reported_if is_fault fault.now)) sink.new }
{
    if is_fault {
        sink.fault(fault, &Cause::Itself);
    }
}

// Reports what is wrong with a row that was taken.
fn report_taken<K: Sink>(row: &SchemaRow<'_>, taken: Taken, place: RowPlace, sink: &mut K)
    ensures { IsReportedTo K.takes K.held sink.old (findings (taken_faults place (schema_row_of row.now) taken)) sink.new }
{
    let nameless = place.fault(FaultCode::S02, place.rowid);
    report_if(row.name.is_none(), &nameless, sink);
    let left_out = place.fault(FaultCode::S04, i64::from(row.root));
    report_if(taken == Taken::Full, &left_out, sink);
}

// While the sink is open, hands a row to the taker, and then reports what is wrong with it. Of a row that cannot be read, only the
// fault is reported.
fn take_row<K: Sink, T: Taker>(
    row: Result<SchemaRow<'_>, RowFault>,
    place: RowPlace,
    taker: &mut T,
    sink: &mut K,
) -> Result<(), RunError>
    ensures writes { SinkWalks result (K.held sink.old) (K.held sink.new) }
    ensures refusals { T.refusals taker.new ≡ failures_after is_out_of_memory result (T.refusals taker.old) }
    ensures only { IfErr result IsWriteOrMemory }
    ensures reported { ReportsRow K.takes T.takes T.refuses (place, seen row.entry) result (sink.old, taker.old) (sink.new, taker.new) }
{
    ask(sink)?;
    match row {
        Err(fault) => sink.fault(&place.row_fault(fault), &Cause::Itself),
        Ok(row) => {
            let taken = taker.take(&row)?;
            report_taken(&row, taken, place, sink);
        }
    }
    Ok(())
}

/// While the sink is open, hands the row that a sieve has taken to the taker, and then reports what is wrong with it. Without a
/// sieve it does nothing.
///
/// # Errors
///
/// [`RunError::OutOfMemory`] exactly where the taker was refused memory, [`RunError::WriteFailed`] exactly where there is a sieve
/// and the sink was shut: nothing was reported then.
pub(crate) fn report_row<K: Sink, T: Taker>(
    sieve: &Option<RowSieve>,
    place: RowPlace,
    taker: &mut T,
    sink: &mut K,
) -> Result<(), RunError>
    ensures writes { SinkWalks result (K.held sink.old) (K.held sink.new) }
    ensures refusals { T.refusals taker.new ≡ failures_after is_out_of_memory result (T.refusals taker.old) }
    ensures only { IfErr result IsWriteOrMemory }
    ensures none { sieve.now ≡ None → (result ≡ Ok tt) × (sink.new ≡ sink.old) × (taker.new ≡ taker.old) }
    ensures reported { (size : ℕ) (e : Encoding) (bytes : List ℕ) → HasFed sieve.now size e bytes
        → ReportsRow K.takes T.takes T.refuses (place, schema_row bytes size e) result (sink.old, taker.old) (sink.new, taker.new) }
{
    match sieve {
        None => Ok(()),
        Some(sieve) => take_row(sieve.finish(), place, taker, sink),
    }
}

// A sieve that has taken the payload bytes in cell `i` of a leaf; none for a cell that cannot be read.
fn row_sieve(view: &PageView<'_>, i: u32, encoding: Encoding) -> Option<RowSieve>
    requires { i < count view.now }
    ensures { HoldsCell result encoding (result_ok (cell view.now i)) }
{
    match view.cell(i) {
        Ok(cell) => {
            let mut sieve = RowSieve::new(cell.size, encoding);
            sieve.feed(cell.local);
            Some(sieve)
        }
        Err(_) => None,
    }
}

// Puts that sieve into its place. It is a function of its own so that the sieve takes room on the stack a second time only for a row
// of the schema.
#[inline(never)]
fn put_sieve(view: &PageView<'_>, i: u32, encoding: Encoding, sieve: &mut Option<RowSieve>)
    requires { i < count view.now }
    ensures { HoldsCell sieve.new encoding (result_ok (cell view.now i)) }
{
    *sieve = row_sieve(view, i, encoding);
}

/// In the tree of the schema, sets the sieve to one that has taken the payload bytes in cell `i` of a leaf, or to none for a cell
/// that cannot be read. In other trees the sieve does not change.
pub(crate) fn begin_row(
    view: &PageView<'_>,
    start: u32,
    i: u32,
    encoding: Encoding,
    sieve: &mut Option<RowSieve>,
)
    requires { i < count view.now }
    ensures schema { start ≡ schema_start → HoldsCell sieve.new encoding (result_ok (cell view.now i)) }
    ensures other { 1 ≤ start → sieve.new ≡ sieve.old }
{
    if start == SCHEMA_START {
        put_sieve(view, i, encoding, sieve);
    }
}
