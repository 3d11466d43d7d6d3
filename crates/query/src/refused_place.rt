// Finds the condition of a query that a table refuses.
ghost use Rattle.std.specs.Prelude.{◌≡◌, map, Err, List, IfOk};
ghost use Rattle.arrow_schema.specs.Column.{Column};
ghost use Rattle.arrow_schema.specs.View.{column_of, schema_of};
ghost use Rattle.civil_days.specs.declared.date_form.DateForm.{DateForm};
ghost use Rattle.query.specs.Bound.{SelectionRefusal, bound};
ghost use Rattle.query.specs.Query.{PlainCondition};
ghost use Rattle.query.specs.RefusedPlace.{is_refused, first_refused, IsRefusedAtPlace};
ghost use Rattle.query.specs.Selection.{all_ok};
ghost use Rattle.query.specs.View.{condition_in};

use crate::bound::bind;
use crate::condition::Condition;
use crate::errors::QueryError;
use arrow_schema::{Field, Schema};
use civil_days::DateForm;
use std::alloc::{AllocError, Global};

fn is_refused(
    alloc: Global,
    dates: DateForm,
    fields: &[Field],
    condition: &Condition,
) -> Result<bool, AllocError>
    ensures { IfOk result (λ refused. refused ≡ is_refused (bound dates (map column_of fields.now) (condition_in condition.now))) }
{
    match bind(alloc, dates, fields, condition) {
        Ok(_) => Ok(false),
        Err(QueryError::UnknownColumn) => Ok(true),
        Err(QueryError::BadCondition) => Ok(true),
        Err(QueryError::NotComparable) => Ok(true),
        Err(QueryError::OutOfMemory) => Err(AllocError),
    }
}

fn first_refused(
    alloc: Global,
    dates: DateForm,
    fields: &[Field],
    conditions: &[Condition],
) -> Result<Option<usize>, AllocError>
    ensures { IfOk result (λ place. place ≡ first_refused dates (map column_of fields.now) 0 (map condition_in conditions.now)) }
{
    for (i, condition) in conditions.iter().enumerate() {
        if is_refused(alloc, dates, fields, condition)? {
            return Ok(Some(i));
        }
    }
    Ok(None)
}

/// Returns the place of the first condition that a table of the schema refuses, where dates stand in the literals in this form.
///
/// # Errors
/// `AllocError` if memory is refused.
pub fn refused_condition(
    alloc: Global,
    dates: DateForm,
    schema: &Schema,
    conditions: &[Condition],
) -> Result<Option<usize>, AllocError>
    ensures { IfOk result (λ place. place ≡ first_refused dates (schema_of schema.now).columns 0 (map condition_in conditions.now)) }
{
    first_refused(alloc, dates, &schema.fields, conditions)
}

/// If conditions are refused, the one at the place that [`refused_condition`] returns is refused with the same refusal.
pub fn conditions_are_refused_there()
    ensures { (form : DateForm) (cs : List Column) (conditions : List PlainCondition) (r : SelectionRefusal) → all_ok (map (bound form cs) conditions) ≡ Err r
        → IsRefusedAtPlace form cs conditions r }
{}
