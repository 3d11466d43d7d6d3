// A condition that is bound to the columns of a table.
ghost use Rattle.std.specs.Prelude.{◌≡◌, IfOk, IfErr, map, option_map, position, count_by, slice_get};
ghost use Rattle.std.specs.Option.{option_copied};
ghost use Rattle.arrow_schema.specs.View.{kind_of, column_of};
ghost use Rattle.cells.specs.View.{cell};
ghost use Rattle.columns.specs.Borrowed.{borrowed_cell, borrowed_cells};
ghost use Rattle.query.specs.Bound.{has_name, place_of, predicate_of, bound, order, meets, holds};
ghost use Rattle.query.specs.View.{test_in, condition_in, Reports};
ghost use Rattle.query.specs.inner.BoundView.{predicate_in, bound_in};

use crate::condition::{Condition, Test};
use crate::errors::QueryError;
use crate::literal::{is_comparable, literal_of};
use crate::operator::{Operator, accepts};
use arrow_schema::{DataType, Field};
use cells::Value;
use civil_days::DateForm;
use std::alloc::Global;
use std::cmp::Ordering;
use values::{ValueRef, Values};

/// What a condition asks of a value.
#[derive(Drop)]
pub(crate) enum Predicate {
    IsNull,
    IsValue,
    Compares(Operator, Value),
}

/// A condition with the place of its column and the value of its literal.
#[derive(Drop)]
pub(crate) struct Bound {
    pub(crate) place: usize,
    pub(crate) predicate: Predicate,
}

fn has_name(field: &Field, name: &str) -> bool
    ensures { result ≡ has_name name.now (column_of field.now) }
{
    field.name.as_str() == name
}

pub(crate) fn count_named(fields: &[Field], name: &str) -> usize
    ensures { result ≡ count_by (λ f. has_name name.now (column_of f)) fields.now }
{
    fields.iter().filter(|field| has_name(field, name)).count()
}

fn first_named(fields: &[Field], name: &str) -> Option<usize>
    ensures { result ≡ position (λ f. has_name name.now (column_of f)) fields.now }
{
    fields.iter().position(|field| has_name(field, name))
}

/// Returns the place of the only column that has this name.
pub(crate) fn place_of(fields: &[Field], name: &str) -> Option<usize>
    ensures { result ≡ place_of (map column_of fields.now) name.now }
{
    if count_named(fields, name) == 1 {
        first_named(fields, name)
    } else {
        None
    }
}

fn get_field(fields: &[Field], place: usize) -> Option<&Field>
    ensures { option_copied result ≡ slice_get fields.now place }
{
    fields.get(place)
}

/// Returns the field at a place.
pub(crate) fn field_at(fields: &[Field], place: usize) -> Option<&Field>
    ensures { option_map (λ f. column_of f.now) result ≡ slice_get (map column_of fields.now) place }
{
    get_field(fields, place)
}

fn predicate_of(
    alloc: Global,
    dates: DateForm,
    data_type: &DataType,
    test: &Test,
) -> Result<Predicate, QueryError>
    ensures ok { IfOk result (λ d. predicate_of dates (kind_of data_type.now) (test_in test.now) ≡ Ok (predicate_in d)) }
    ensures refused { IfErr result (λ e. Reports e (predicate_of dates (kind_of data_type.now) (test_in test.now))) }
{
    match test {
        Test::IsNull => Ok(Predicate::IsNull),
        Test::IsNotNull => Ok(Predicate::IsValue),
        Test::Compared(operator, literal) => {
            if !is_comparable(data_type) {
                return Err(QueryError::NotComparable);
            }
            match literal_of(alloc, dates, data_type, literal.as_str())? {
                None => Err(QueryError::BadCondition),
                Some(literal) => Ok(Predicate::Compares(*operator, literal)),
            }
        }
    }
}

/// Binds a condition to the columns of a table, where dates stand in its literal in this form.
#[tactic(auto, unfolding(crate::specs::Bound::bound))]
pub(crate) fn bind(
    alloc: Global,
    dates: DateForm,
    fields: &[Field],
    condition: &Condition,
) -> Result<Bound, QueryError>
    ensures ok { IfOk result (λ b. bound dates (map column_of fields.now) (condition_in condition.now) ≡ Ok (bound_in b)) }
    ensures refused { IfErr result (λ e. Reports e (bound dates (map column_of fields.now) (condition_in condition.now))) }
{
    let Some(place) = place_of(fields, condition.column.as_str()) else {
        return Err(QueryError::UnknownColumn);
    };
    let Some(field) = field_at(fields, place) else {
        return Err(QueryError::UnknownColumn);
    };
    let predicate = predicate_of(alloc, dates, &field.data_type, &condition.test)?;
    Ok(Bound { place, predicate })
}

// Returns how a value compares with a literal, if both are of one form.
fn order(value: ValueRef<'_>, literal: &Value) -> Option<Ordering>
    ensures { result ≡ order (borrowed_cell value.entry) (cell literal.now) }
{
    match (value, literal) {
        (ValueRef::Bool(a), Value::Bool(b)) => Some(a.cmp(b)),
        (ValueRef::Int(a), Value::Int(b)) => Some(a.cmp(b)),
        (ValueRef::Text(a), Value::Text(b)) => Some(a.cmp(b.as_str())),
        (ValueRef::Bytes(a), Value::Bytes(b)) => Some(a.cmp(b.as_slice())),
        _ => None,
    }
}

fn meets(predicate: &Predicate, value: ValueRef<'_>) -> bool
    ensures { result ≡ meets (predicate_in predicate.now) (borrowed_cell value.entry) }
{
    match predicate {
        Predicate::IsNull => matches!(value, ValueRef::Null),
        Predicate::IsValue => !matches!(value, ValueRef::Null),
        Predicate::Compares(operator, literal) => match order(value, literal) {
            None => false,
            Some(order) => accepts(*operator, order),
        },
    }
}

/// Returns whether a condition holds for a row.
pub(crate) fn holds(bound: &Bound, row: Values<'_>) -> bool
    ensures { result ≡ holds (bound_in bound.now) (borrowed_cells row.entry) }
{
    match row.get(bound.place) {
        None => false,
        Some(value) => meets(&bound.predicate, value),
    }
}
