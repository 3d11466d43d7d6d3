// The fields and the schema of the columns asked for.
ghost use Rattle.std.specs.Prelude.{◌≡◌, IfOk, map};
ghost use Rattle.arrow_schema.specs.View.{column_of, schema_of};
ghost use Rattle.query.specs.Selection.{pick};

use arrow_schema::{Field, Schema};
use std::alloc::{AllocError, Global};

/// Returns the fields at some places.
///
/// # Errors
/// `AllocError` if memory is refused.
pub(crate) fn pick_fields(
    alloc: Global,
    fields: &[Field],
    places: &[usize],
) -> Result<Vec<Field>, AllocError>
    ensures { IfOk result (λ v. map column_of v.items ≡ pick places.now (map column_of fields.now)) }
{
    let mut picked = Vec::with_capacity(alloc, places.len())?;
    for place in places {
        if *place >= fields.len() {
            continue;
        }
        picked.push_reserved(fields[*place].copy(alloc)?);
    }
    Ok(picked)
}

/// Returns a schema of the columns at some places.
///
/// # Errors
/// `AllocError` if memory is refused.
pub(crate) fn pick_schema(
    alloc: Global,
    schema: &Schema,
    places: &[usize],
) -> Result<Schema, AllocError>
    ensures { IfOk result (λ s. schema_of s ≡ record { columns = pick places.now (schema_of schema.now).columns; pairs = (schema_of schema.now).pairs }) }
{
    let mut picked = schema.copy(alloc)?;
    picked.fields = pick_fields(alloc, &schema.fields, places)?;
    Ok(picked)
}
