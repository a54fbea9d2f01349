// A taker for the trees that are not the schema's.
use dbbytes::SchemaRow;
use dbsource::NoMemory;
use dbwalk::{Taken, Taker};

// Takes no row. Only the walk over the schema's tree gives any.
#[derive(Drop)]
pub(crate) struct NoRows;

impl Taker for NoRows {
    ghost use Rattle.std.specs.Prelude.{⊤};

    ghost takes = { λ _ _ _ _. ⊤ };

    ghost refuses = { λ _ _ _. ⊤ };

    ghost refusals = { λ _. 0 };

    fn take(&mut self, _row: &SchemaRow<'_>) -> Result<Taken, NoMemory> {
        Ok(Taken::NoRoot)
    }
}
