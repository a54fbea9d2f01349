// The taker of the rows of the schema.
ghost use Rattle.std.specs.Prelude.{◌≡◌, ℕ, MatchResult};
ghost use Rattle.dbwalk.specs.Rows.{schema_row_of};
ghost use Rattle.dbsource.specs.Failures.{failures_after, is_any};

use dbbytes::SchemaRow;
use dbsource::NoMemory;

/// What the taker did with a row of the schema.
#[derive(Clone, Copy)]
pub enum Taken {
    /// Its root page was taken.
    Taken,
    /// It has no root page.
    NoRoot,
    /// It has a root page, but there is no room for it.
    Full,
}

/// Takes the rows of the schema, one after another.
///
/// # A quiet taker
///
/// A taker of which nothing is claimed, and which is never refused memory. It proves with any body that answers `Ok`:
///
/// ```
/// impl Taker for Quiet {
///     ghost use Rattle.std.specs.Prelude.{⊤};
///
///     ghost takes = { λ _ _ _ _. ⊤ };
///
///     ghost refuses = { λ _ _ _. ⊤ };
///
///     ghost refusals = { λ _. 0 };
///
///     fn take(&mut self, row: &SchemaRow<'_>) -> Result<Taken, NoMemory> {
///         if row.root == 0 {
///             return Ok(Taken::NoRoot);
///         }
///         self.roots = self.roots.saturating_add(1);
///         Ok(Taken::Taken)
///     }
/// }
/// ```
///
/// One that keeps the rows has a field `refusals: Failures` (of `dbsource`), calls `self.refusals.add()` before each `Err`, and
/// writes `refusals = { λ s. s.refusals }`.
pub trait Taker {
    ghost use Rattle.dbformat.specs.SchemaRow.{SchemaRow};
    ghost use Rattle.dbwalk.specs.declared.taker.Taken.{Taken};

    // The state after a row, with this answer.
    ghost takes: { Self → SchemaRow → Taken → Self → Type 0 };
    // The state after a row for which memory was refused.
    ghost refuses: { Self → SchemaRow → Self → Type 0 };
    // How many calls were refused memory, in 64 bits.
    ghost refusals: { Self → ℕ };

    /// Takes a row, and answers what was done with its root page.
    ///
    /// # Errors
    ///
    /// [`NoMemory`] where memory was refused; this counts as one refusal.
    fn take(&mut self, row: &SchemaRow<'_>) -> Result<Taken, NoMemory>
        ensures row { MatchResult result (λ answer. takes self.old (schema_row_of row.now) answer self.new)
            (λ _. refuses self.old (schema_row_of row.now) self.new) }
        ensures count { refusals self.new ≡ failures_after is_any result (refusals self.old) };
}
