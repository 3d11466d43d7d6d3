// The first row that another schema does not take.
ghost use Rattle.std.specs.Prelude.{◌≡◌, ◌∷◌, [], false, IfOk, IsOk};
ghost use Rattle.arrow_schema.specs.Column.{columns_of};
ghost use Rattle.arrow_schema.specs.Shape.{HaveOneShape};
ghost use Rattle.arrow_schema.specs.View.{schema_of};
ghost use Rattle.cells.specs.Dictionary.{is_any_limited};
ghost use Rattle.values.specs.Table.{first_unfit};
ghost use Rattle.values.specs.TableView.{table_of};

use crate::filling::can_rows_fill;
use crate::piece::row_at;
use crate::seen::fits_dictionaries;
use arrow_schema::Schema;
use std::alloc::{AllocError, Global};
use values::Table;

/// Returns the first row of a table, counted from 0, that tables of another schema of its shape do not take; `None` if they take all. Such a row fills a
/// dictionary of that schema: what fits and what it weighs does not depend on dictionaries.
///
/// # Errors
/// `AllocError` if memory was refused. None is taken if no dictionary of that schema has a limit.
#[tactic(auto, using(crate::proofs::FillingLemmas::filled_is_limited))]
pub fn first_unfit_row(
    alloc: Global,
    schema: &Schema,
    table: &Table,
) -> Result<Option<usize>, AllocError>
    requires { HaveOneShape (schema_of schema.now) (table_of table.now).schema }
    ensures first { IfOk result (λ found. found ≡ first_unfit (schema_of schema.now) (table_of table.now).rows) }
    ensures unlimited { is_any_limited (columns_of (schema_of schema.now).columns) ≡ false → IsOk result }
{
    // For the proof: this call states what is true of every table.
    table.schema();
    if !can_rows_fill(schema, 1) {
        return Ok(None);
    }
    for place in 0..table.len() {
        if !fits_dictionaries(alloc, schema, row_at(table, place))? {
            return Ok(Some(place));
        }
    }
    Ok(None)
}
