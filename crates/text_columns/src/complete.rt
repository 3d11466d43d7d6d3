// Rows of which some columns have no cell yet.
ghost use Rattle.std.specs.Prelude.{◌≡◌, ◌≤◌, ℕ, Option, Some, None, length, slice_get, IfOk, IfSome};
ghost use Rattle.civil_days.specs.declared.date_form.DateForm.{DateForm};
ghost use Rattle.text_columns.specs.inner.Lines.{Completes, CompletesRow};

use crate::builder::ColumnBuilder;
use cells::MAX_ROW_WEIGHT;
use std::alloc::AllocError;

// Returns the weight of the cell that a column has of a row. If it has none, appends a null; `None` if it takes no null.
fn complete(builder: &mut ColumnBuilder, weight: Option<u64>) -> Result<Option<u64>, AllocError>
    ensures { (date_form : DateForm) → IfOk result (λ taken. IfSome taken (λ weighs. Completes date_form weight weighs builder.old builder.new)) }
{
    match weight {
        Some(weight) => Ok(Some(weight)),
        None => builder.push_null(),
    }
}

/// Appends a null to each column that has no cell of a row, and returns the weight of the row; `None` if a column takes no null, or the row is too heavy.
pub(crate) fn complete_row(
    builders: &mut [ColumnBuilder],
    weights: &[Option<u64>],
) -> Result<Option<u64>, AllocError>
    requires { length weights.now ≡ length builders.old }
    ensures few { IfOk result (λ taken. IfSome taken (λ weight. weight ≤ MAX_ROW_WEIGHT)) }
    ensures kept { (date_form : DateForm) → IfOk result (λ taken. IfSome taken (λ weight. CompletesRow date_form weights.now weight builders.old builders.new)) }
{
    let mut weight = 1;
    for i in 0..builders.len() {
        let builder = &mut builders[i];
        let Some(cell_weight) = complete(builder, weights[i])? else {
            return Ok(None);
        };
        if cell_weight > MAX_ROW_WEIGHT - weight {
            return Ok(None);
        }
        weight += cell_weight;
    }
    Ok(Some(weight))
}

/// Forgets the weights: no column has a cell of the next row.
pub(crate) fn clear(weights: &mut [Option<u64>])
    ensures { (j : ℕ) (w : Option ℕ) → slice_get weights.new j ≡ Some w → w ≡ None }
{
    for i in 0..weights.len() {
        weights[i] = None;
    }
}
