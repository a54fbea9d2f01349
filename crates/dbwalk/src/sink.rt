// The sink of rows and faults.
ghost use Rattle.std.specs.Prelude.{◌≡◌};
ghost use Rattle.dbtrace.specs.Finding.{Finding, reported_row, reported_fault};
ghost use Rattle.dbwalk.specs.Rows.{row_of};
ghost use Rattle.dbwalk.specs.Reporting.{SinkMoves};

use crate::{Cause, Fault, PageType};
use dbformat::Counts;

/// A row of the statistics: a page of a tree or of an overflow chain.
#[derive(Clone, Copy, Drop)]
pub struct Row<'a> {
    /// The number of the tree's start.
    pub start: u32,
    /// The children on the way from the root, by number.
    pub path: &'a [u32],
    /// The cell of an overflow page, and its number in the chain, from 0.
    pub chain: Option<(u32, u32)>,
    /// The page.
    pub page: u32,
    /// The type of the page.
    pub pagetype: PageType,
    /// What is counted of the page: cells, payload and unused bytes.
    pub counts: Counts,
}

/// Takes the rows and faults that a walk reports, one after another. Once an item was not taken whole it is shut, for good: it takes
/// nothing after that. Before each further page a walk asks whether it is shut.
///
/// # A quiet sink
///
/// A sink of which nothing is claimed, and which takes every item. It proves with any bodies of `fault` and `row`:
///
/// ```
/// #[derive(Drop)]
/// struct Quiet {
///     faults: u64,
///     rows: u64,
/// }
///
/// impl Sink for Quiet {
///     ghost use Rattle.std.specs.Prelude.{[], false, ⊤};
///
///     ghost takes = { λ _ _ _. ⊤ };
///
///     ghost held = { λ _. record { lent = []; failures = []; is_shut = false } };
///
///     fn fault(&mut self, _fault: &Fault, _cause: &Cause) {
///         self.faults = self.faults.saturating_add(1);
///     }
///
///     fn row(&mut self, _row: &Row<'_>) {
///         self.rows = self.rows.saturating_add(1);
///     }
///
///     fn is_shut(&self) -> bool {
///         false
///     }
/// }
/// ```
///
/// One that can fail has fields `failures: Failures` (of `dbsource`) and `is_shut: bool`. Where an item is not taken whole it calls
/// `self.failures.add()` and sets `is_shut`; where `is_shut` is set it does nothing. It writes
/// `held = { λ s. record { lent = []; failures = s.failures ∷ []; is_shut = s.is_shut } }`, where `◌∷◌` is brought in beside `[]`.
pub trait Sink {
    ghost use Rattle.dbtrace.specs.Finding.{Finding};
    ghost use Rattle.dbwalk.specs.Reporting.{SinkState};

    // The state after an item: it was taken, or not whole, or it came to a sink that was shut.
    ghost takes: { Self → Finding → Self → Type 0 };
    // What it borrows, how many calls of each Out failed, in 64 bits, and whether it is shut.
    ghost held: { Self → SinkState };

    /// Takes a fault, with its cause. A sink that is shut takes nothing. Where the fault is not taken whole, this counts as one
    /// failure, and the sink is shut.
    fn fault(&mut self, fault: &Fault, cause: &Cause)
        ensures item { takes self.old (reported_fault fault.now cause.now) self.new }
        ensures count { SinkMoves (held self.old) (held self.new) };

    /// Takes a row of the statistics. A sink that is shut takes nothing. Where the row is not taken whole, this counts as one
    /// failure, and the sink is shut.
    fn row(&mut self, row: &Row<'_>)
        ensures item { takes self.old (reported_row (row_of row.now)) self.new }
        ensures count { SinkMoves (held self.old) (held self.new) };

    /// Whether an item was not taken whole. It stays so.
    fn is_shut(&self) -> bool
        ensures { result ≡ (held self.now).is_shut };
}
