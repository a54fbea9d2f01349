// What a walk from a start reports, handed on with that start.
ghost use Rattle.std.specs.Prelude.{◌≡◌, IfErr, false};
ghost use Rattle.dbsource.specs.Errors.{is_write_failed};
ghost use Rattle.dbsource.specs.declared.error.RunError.TheVariants as run_error;
ghost use Rattle.dbwalk.specs.Rows.{row_of};
ghost use Rattle.dbwalk.specs.Reporting.{SinkAfter};
ghost use Rattle.dbscan.specs.Findings.{is_schema_leaf};
ghost use Rattle.dbscan.specs.Notices.{ended};

use crate::notice::Notice;
use crate::reporter::{Reporter, ask};
use crate::start::Start;
use dbformat::SCHEMA_START;
use dbsource::RunError;
use dbtrace::{Part, TracedFault};
use dbwalk::{Cause, Fault, PageType, Row, Sink};

// Hands on what it receives, and notes whether the schema has a row.
#[derive(Drop)]
pub(crate) struct Notifier<'a, K> {
    reporter: &'a mut K,
    start: &'a Start<'a>,
    has_rows: bool,
}

impl<'a, K: Reporter> Notifier<'a, K> {
    // One that received nothing.
    pub(crate) fn new(reporter: &'a mut K, start: &'a Start<'a>) -> Notifier<'a, K>
        ensures same_reporter { result.reporter.ghost_name ≡ reporter.entry.ghost_name }
        ensures reporter { result.reporter.now ≡ reporter.old }
        ensures start { result.start.now ≡ start.now }
        ensures none { result.has_rows ≡ false }
    {
        Notifier {
            reporter,
            start,
            has_rows: false,
        }
    }

    // Whether the schema has a row.
    pub(crate) fn has_rows(&self) -> bool
        ensures { result ≡ self.now.has_rows }
    {
        self.has_rows
    }

    // Hands on that the tree has ended, and asks whether all was taken.
    pub(crate) fn end(&mut self) -> Result<(), RunError>
        requires { (K.held self.old.reporter.now).is_shut ≡ false }
        ensures same_reporter { self.new.reporter.ghost_name ≡ self.old.reporter.ghost_name }
        ensures rows { self.new.has_rows ≡ self.old.has_rows }
        ensures ends { K.receives self.old.reporter.now (ended self.old.start.now) self.new.reporter.now }
        ensures count { SinkAfter is_write_failed result (K.held self.old.reporter.now) (K.held self.new.reporter.now) }
        ensures only { IfErr result (λ e. e ≡ run_error.WriteFailed) }
    {
        self.reporter.receive(&Notice::Ended(self.start));
        ask(self.reporter)
    }
}

impl<K: Reporter> Sink for Notifier<'_, K> {
    ghost use Rattle.dbscan.specs.Notifiers.{HandsOn, lent_by};

    ghost takes = { HandsOn K.receives };

    ghost held = { lent_by K.held };

    fn fault(&mut self, fault: &Fault, cause: &Cause) {
        self.reporter.receive(&Notice::Fault(&TracedFault {
            part: Part::Start(self.start.number()),
            fault: *fault,
            cause: *cause,
        }));
    }

    fn row(&mut self, row: &Row<'_>) {
        self.has_rows = self.has_rows || is_schema_leaf(row);
        self.reporter.receive(&Notice::Row(self.start, row));
    }

    fn is_shut(&self) -> bool {
        self.reporter.is_shut()
    }
}

// Whether a row is of a leaf of the schema with a cell.
fn is_schema_leaf(row: &Row<'_>) -> bool
    ensures { result ≡ is_schema_leaf (row_of row.now) }
{
    let is_leaf = match row.pagetype {
        PageType::Tree(kind) => !kind.is_interior(),
        _ => false,
    };
    row.start == SCHEMA_START && is_leaf && row.counts.ncell != 0
}
