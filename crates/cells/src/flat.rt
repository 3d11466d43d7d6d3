// A single pass that tests and weighs the cells of most rows: integers, strings and nulls.
ghost use Rattle.std.specs.Prelude.{◌≡◌, ◌+◌, true, map, IfSome};
ghost use Rattle.arrow_schema.specs.Column.{columns_of};
ghost use Rattle.arrow_schema.specs.View.{kind_of, column_of};
ghost use Rattle.cells.specs.Cell.{cells_of, null, number, text};
ghost use Rattle.cells.specs.View.{cell};
ghost use Rattle.cells.specs.Fit.{each_fits, fits, fits_kind};
ghost use Rattle.cells.specs.Weight.{capped_weight, kind_weight, parts_weight, weight};

use crate::fit::{date_fits, integer_fits, is_utf8, number_fits};
use crate::value::Value;
use crate::weigh::add_weights;
use arrow_schema::{DataType, Field};

// Returns the weight of an integer if it fits the type.
#[inline(always)]
#[tactic(auto, unfolding(crate::specs::Fit::fits_kind, crate::specs::Weight::kind_weight))]
fn number_weight(data_type: &DataType, n: i128) -> Option<u64>
    ensures fits { IfSome result (λ w. fits_kind (kind_of data_type.now) (number n) ≡ true) }
    ensures weight { IfSome result (λ w. w ≡ capped_weight (kind_weight (kind_of data_type.now) (number n))) }
{
    let fits = match data_type {
        DataType::Int(integer) => integer_fits(*integer, n),
        DataType::Date(unit) => date_fits(*unit, n),
        DataType::Timestamp(_, _) => number_fits(64, true, n),
        _ => false,
    };
    if fits { Some(1) } else { None }
}

// Returns the weight of a string if it fits the type.
#[inline(always)]
#[tactic(auto, unfolding(crate::specs::Fit::fits_kind, crate::specs::Weight::kind_weight))]
fn text_weight(data_type: &DataType, value: &str) -> Option<u64>
    ensures fits { IfSome result (λ w. fits_kind (kind_of data_type.now) (text value.now) ≡ true) }
    ensures weight { IfSome result (λ w. w ≡ capped_weight (kind_weight (kind_of data_type.now) (text value.now))) }
{
    let holds_texts = match data_type {
        DataType::Utf8 => is_utf8(value),
        DataType::LargeUtf8 => is_utf8(value),
        _ => false,
    };
    if holds_texts {
        Some(add_weights(1, value.len() as u64))
    } else {
        None
    }
}

// Returns the weight of a null, for types whose nulls take no space of their own.
#[inline(always)]
#[tactic(auto, unfolding(crate::specs::Weight::kind_weight))]
fn null_weight(data_type: &DataType) -> Option<u64>
    ensures { IfSome result (λ w. w ≡ capped_weight (kind_weight (kind_of data_type.now) null)) }
{
    match data_type {
        DataType::Bool => Some(1),
        DataType::Int(_) => Some(1),
        DataType::Date(_) => Some(1),
        DataType::Timestamp(_, _) => Some(1),
        DataType::Utf8 => Some(1),
        DataType::LargeUtf8 => Some(1),
        DataType::Binary => Some(1),
        DataType::LargeBinary => Some(1),
        _ => None,
    }
}

// Returns the weight of a value that fits the field and is an integer, a string or such a null.
#[inline(always)]
#[tactic(auto, unfolding(crate::specs::Fit::fits, crate::specs::Weight::weight))]
fn flat_weight(field: &Field, value: &Value) -> Option<u64>
    ensures fits { IfSome result (λ w. fits (column_of field.now) (cell value.now) ≡ true) }
    ensures weight { IfSome result (λ w. w ≡ capped_weight (weight (column_of field.now) (cell value.now))) }
{
    match value {
        Value::Int(n) => number_weight(&field.data_type, *n),
        Value::Text(text) => text_weight(&field.data_type, text.as_str()),
        Value::Null => {
            if field.nullable {
                null_weight(&field.data_type)
            } else {
                None
            }
        }
        _ => None,
    }
}

/// Returns the weight of a row if it consists of such values and each fits its field.
#[tactic(auto, unfolding(crate::specs::Fit::each_fits, crate::specs::Weight::parts_weight))]
pub(crate) fn flat_row_weight(fields: &[Field], row: &[Value]) -> Option<u64>
    ensures fits { IfSome result (λ w. each_fits (columns_of (map column_of fields.now)) (cells_of (map cell row.now)) ≡ true) }
    ensures weight { IfSome result (λ w. w ≡ capped_weight (1 + parts_weight (columns_of (map column_of fields.now)) (cells_of (map cell row.now)))) }
{
    if fields.len() != row.len() {
        return None;
    }
    let mut total = 1;
    for (i, value) in row.iter().enumerate() {
        match flat_weight(&fields[i], value) {
            None => return None,
            Some(weight) => total = add_weights(total, weight),
        }
    }
    Some(total)
}
