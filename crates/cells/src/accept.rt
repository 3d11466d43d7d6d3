// Which rows a table accepts.
ghost use Rattle.std.specs.Prelude.{◌≡◌, false, [], ◌∷◌, map, is_some, IfOk, IfSome, IsOk};
ghost use Rattle.arrow_schema.specs.Column.{columns_of};
ghost use Rattle.arrow_schema.specs.View.{schema_of};
ghost use Rattle.cells.specs.View.{cell};
ghost use Rattle.cells.specs.Row.{accepted_weight, row_fits};
ghost use Rattle.cells.specs.Weight.{capped_weight, row_weight};
ghost use Rattle.cells.specs.Dictionary.{is_any_limited, dictionaries_fit};

use crate::fit::each_fits;
use crate::flat::flat_row_weight;
use crate::holding::row_entries_fit;
use crate::limits::MAX_ROW_WEIGHT;
use crate::value::Value;
use crate::weigh::row_weight;
use arrow_schema::Schema;
use std::alloc::{AllocError, Global};

/// Returns whether a row leaves each dictionary within its index type. `limited` is the result of [`crate::has_limits`] for the schema, which is
/// computed once for many rows.
///
/// # Errors
/// `AllocError` if memory was refused. None is taken unless the schema is limited.
#[tactic(auto, using(crate::specs::laws::Unlimited::from_unlimited))]
pub fn dictionaries_fit(
    schema: &Schema,
    row: &[Value],
    limited: bool,
    alloc: Global,
) -> Result<bool, AllocError>
    requires { limited ≡ is_any_limited (columns_of (schema_of schema.now).columns) }
    ensures fit { IfOk result (λ b. b ≡ dictionaries_fit (schema_of schema.now) (map cell row.now ∷ [])) }
    ensures unlimited { limited ≡ false → IsOk result }
{
    if !limited {
        return Ok(true);
    }
    row_entries_fit(&schema.fields, row, alloc)
}

// Returns the weight of a row if it fits.
fn fitting_weight(schema: &Schema, row: &[Value]) -> Option<u64>
    ensures fits { is_some result ≡ row_fits (schema_of schema.now) (map cell row.now) }
    ensures weight { IfSome result (λ w. w ≡ capped_weight (row_weight (schema_of schema.now) (map cell row.now))) }
{
    if let Some(weight) = flat_row_weight(&schema.fields, row) {
        return Some(weight);
    }
    if !each_fits(&schema.fields, row) {
        return None;
    }
    Some(row_weight(schema, row))
}

/// Returns the weight of a row if a table accepts it. `limited` is the result of [`crate::has_limits`] for the schema, which is computed once for
/// many rows.
///
/// # Errors
/// `AllocError` if memory was refused. None is taken unless the schema is limited.
#[tactic(auto, using(crate::specs::laws::Unlimited::from_unlimited), unfolding(crate::specs::Row::is_row))]
pub fn accepted_weight(
    schema: &Schema,
    row: &[Value],
    limited: bool,
    alloc: Global,
) -> Result<Option<u64>, AllocError>
    requires { limited ≡ is_any_limited (columns_of (schema_of schema.now).columns) }
    ensures weight { IfOk result (λ w. w ≡ accepted_weight (schema_of schema.now) (map cell row.now)) }
    ensures unlimited { limited ≡ false → IsOk result }
{
    let Some(weight) = fitting_weight(schema, row) else {
        return Ok(None);
    };
    if weight > MAX_ROW_WEIGHT {
        return Ok(None);
    }
    if !dictionaries_fit(schema, row, limited, alloc)? {
        return Ok(None);
    }
    Ok(Some(weight))
}
