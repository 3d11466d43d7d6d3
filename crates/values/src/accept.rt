// Which rows a table accepts, and what they weigh.
ghost use Rattle.std.specs.Prelude.{◌≡◌, true, map, IfOk, IfErr, None};
ghost use Rattle.arrow_schema.specs.Column.{columns_of};
ghost use Rattle.arrow_schema.specs.View.{schema_of};
ghost use Rattle.cells.specs.Dictionary.{is_any_limited};
ghost use Rattle.cells.specs.Weight.{table_weight, capped_weight};
ghost use Rattle.values.specs.Table.{first_unfit, table_from};
ghost use Rattle.values.specs.TableView.{Reports};
ghost use Rattle.values.specs.declared.errors.TableError.TheVariants.{OutOfMemory};
ghost use Rattle.cells.specs.Row.{row_of};

use crate::errors::TableError;
use arrow_schema::Schema;
use cells::{Row, accepted_weight, add_weights, has_limits};
use std::alloc::Global;

// Returns the weight of the rows if a table accepts them, or else the first row that it does not accept.
pub(crate) fn weigh_rows(schema: &Schema, rows: &[Row], alloc: Global) -> Result<u64, TableError>
    ensures taken { IfOk result (λ _. first_unfit (schema_of schema.now) (map row_of rows.now) ≡ None) }
    ensures weight { IfOk result (λ w. w ≡ capped_weight (table_weight (schema_of schema.now) (map row_of rows.now))) }
    ensures refused { IfErr result (λ e. Reports e (table_from (schema_of schema.now) (map row_of rows.now))) }
    ensures memory { IfErr result (λ e. e ≡ OutOfMemory → is_any_limited (columns_of (schema_of schema.now).columns) ≡ true) }
{
    let limited = has_limits(schema);
    let mut total = 0;
    for (i, row) in rows.iter().enumerate() {
        match accepted_weight(schema, &row.cells, limited, alloc)? {
            None => return Err(TableError::Unfit(i)),
            Some(weight) => total = add_weights(total, weight),
        }
    }
    Ok(total)
}
