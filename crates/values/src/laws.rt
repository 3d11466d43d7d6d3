// Laws about the definitions. The functions do nothing: their contracts are the laws.
ghost use Rattle.std.specs.Prelude.{◌≡◌, ◌≤◌, ◌++◌, List, Ok};
ghost use Rattle.arrow_schema.specs.Column.{PlainSchema};
ghost use Rattle.arrow_schema.specs.Limits.{IsWithinLimits};
ghost use Rattle.cells.specs.Cell.{Cell, PlainTable};
ghost use Rattle.values.specs.Table.{IsTable, table_from};
ghost use Rattle.cells.specs.Weight.{table_weight};

use cells::MAX_TABLE_WEIGHT;

/// Rows of a schema within the limits are accepted exactly if they are a table, and the table is made of them.
pub fn accepted_rows_are_a_table()
    ensures accepted { (t : PlainTable) → IsTable t → table_from t.schema t.rows ≡ Ok t }
    ensures kept { (s : PlainSchema) (rows : List (List Cell)) (t : PlainTable) → IsWithinLimits s
        → table_from s rows ≡ Ok t → (t ≡ record { schema = s; rows = rows }) × IsTable t }
{}

/// The rows of two tables of one schema are a table if they are not too heavy together, and the first and the last rows of a
/// table are tables.
pub fn tables_are_joined_and_cut()
    ensures joined { (s : PlainSchema) (a b : List (List Cell)) → IsTable (record { schema = s; rows = a }) → IsTable (record { schema = s; rows = b })
        → table_weight s (a ++ b) ≤ MAX_TABLE_WEIGHT → IsTable (record { schema = s; rows = a ++ b }) }
    ensures cut { (s : PlainSchema) (a b : List (List Cell)) → IsTable (record { schema = s; rows = a ++ b })
        → IsTable (record { schema = s; rows = a }) × IsTable (record { schema = s; rows = b }) }
{}
