// A table, weighed.
ghost use Rattle.std.specs.Prelude.{◌≡◌};
ghost use Rattle.cells.specs.Weight.{table_weight};
ghost use Rattle.values.specs.TableView.{table_of};

use crate::Table;

/// A table, and what its rows weigh.
#[derive(Drop)]
pub struct WeighedTable {
    pub table: Table,
    pub weight: u64,
    ghost weighs: { weight ≡ table_weight (table_of table).schema (table_of table).rows },
}
