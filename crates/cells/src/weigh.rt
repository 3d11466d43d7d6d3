// The weights of values and rows.
ghost use Rattle.std.specs.Prelude.{◌≡◌, ◌+◌, ◌*◌, map, IfSome};
ghost use Rattle.arrow_schema.specs.Column.{columns_of};
ghost use Rattle.arrow_schema.specs.View.{kind_of, column_of, schema_of};
ghost use Rattle.cells.specs.Cell.{cells_of, null};
ghost use Rattle.cells.specs.View.{cell};
ghost use Rattle.cells.specs.Weight.{weight, row_weight, kind_weight, parts_weight, sum_of, fixed_sum, byte_count, items_in, parts_in, capped_weight};

use crate::limits::TOO_HEAVY;
use crate::value::Value;
use arrow_schema::{DataType, Field, Schema};

/// Adds two weights, capped at `TOO_HEAVY`.
pub fn add_weights(a: u64, b: u64) -> u64
    ensures { result ≡ capped_weight (a + b) }
{
    a.saturating_add(b).min(TOO_HEAVY)
}

/// Multiplies a weight, capped at `TOO_HEAVY`.
pub fn multiply_weight(count: u64, weight: u64) -> u64
    ensures { result ≡ capped_weight (count * weight) }
{
    count.saturating_mul(weight).min(TOO_HEAVY)
}

#[inline(always)]
fn byte_count(value: &Value) -> u64
    ensures { result ≡ byte_count (cell value.now) }
{
    match value {
        Value::Text(text) => text.len() as u64,
        Value::Bytes(bytes) => bytes.len() as u64,
        _ => 0,
    }
}

// Returns the weight of a value of the most common types. It is tried first, since it makes no calls.
#[inline(always)]
#[tactic(auto, unfolding(crate::specs::Weight::weight, crate::specs::Weight::kind_weight))]
fn light_weight(field: &Field, value: &Value) -> Option<u64>
    ensures { IfSome result (λ w. w ≡ capped_weight (weight (column_of field.now) (cell value.now))) }
{
    match &field.data_type {
        DataType::Bool => Some(1),
        DataType::Int(_) => Some(1),
        DataType::Date(_) => Some(1),
        DataType::Timestamp(_, _) => Some(1),
        DataType::Utf8 => Some(add_weights(1, byte_count(value))),
        DataType::LargeUtf8 => Some(add_weights(1, byte_count(value))),
        _ => None,
    }
}

pub(crate) fn items_in(value: &Value) -> &[Value]
    ensures { cells_of (map cell result.now) ≡ items_in (cell value.now) }
{
    match value {
        Value::List(items) => items,
        _ => &[],
    }
}

pub(crate) fn parts_in(value: &Value) -> &[Value]
    ensures { cells_of (map cell result.now) ≡ parts_in (cell value.now) }
{
    match value {
        Value::Struct(parts) => parts,
        _ => &[],
    }
}

/// Returns the weight of a value by the type of its field: exact up to `MAX_TABLE_WEIGHT`, and `TOO_HEAVY` above. It does not allocate, and its time
/// is bounded by the weight, not by the lengths that a type states.
#[tactic(auto, unfolding(crate::specs::Weight::weight))]
#[cycle(weight)]
pub fn weight(field: &Field, value: &Value) -> u64
    ensures { result ≡ capped_weight (weight (column_of field.now) (cell value.now)) }
{
    type_weight(&field.data_type, value)
}

#[tactic(auto, unfolding(crate::specs::Weight::kind_weight))]
#[cycle(weight)]
fn type_weight(data_type: &DataType, value: &Value) -> u64
    ensures { result ≡ capped_weight (kind_weight (kind_of data_type.now) (cell value.now)) }
{
    match data_type {
        DataType::Null => 1,
        DataType::Bool => 1,
        DataType::Int(_) => 1,
        DataType::Date(_) => 1,
        DataType::Timestamp(_, _) => 1,
        DataType::Utf8 => add_weights(1, byte_count(value)),
        DataType::LargeUtf8 => add_weights(1, byte_count(value)),
        DataType::Binary => add_weights(1, byte_count(value)),
        DataType::LargeBinary => add_weights(1, byte_count(value)),
        DataType::FixedSizeBinary(width) => add_weights(1, u64::from(*width)),
        DataType::List(item) => add_weights(1, items_weight(item, items_in(value))),
        DataType::LargeList(item) => add_weights(1, items_weight(item, items_in(value))),
        DataType::FixedSizeList(size, item) => add_weights(1, fixed_weight(*size, item, value)),
        DataType::Struct(fields) => add_weights(1, parts_weight(fields, parts_in(value))),
    }
}

#[cycle(weight)]
fn items_weight(item: &Field, values: &[Value]) -> u64
    ensures { result ≡ capped_weight (sum_of (weight (column_of item.now)) (cells_of (map cell values.now))) }
{
    let mut total = 0;
    for value in values {
        if total == TOO_HEAVY {
            return TOO_HEAVY;
        }
        total = add_weights(total, weight(item, value));
    }
    total
}

// A null fixed-size list is not iterated over: its size is only what the type states.
#[tactic(auto, using(crate::specs::laws::Weights::capped_product))]
#[cycle(weight)]
fn fixed_weight(size: u32, item: &Field, value: &Value) -> u64
    ensures { result ≡ capped_weight (fixed_sum size (weight (column_of item.now)) (cell value.now)) }
{
    match value {
        Value::Null => match size {
            0 => 0,
            _ => multiply_weight(u64::from(size), weight(item, &Value::Null)),
        },
        _ => items_weight(item, items_in(value)),
    }
}

// An absent part weighs as much as a null.
#[tactic(auto, unfolding(crate::specs::Weight::parts_weight))]
#[cycle(weight)]
pub(crate) fn parts_weight(fields: &[Field], parts: &[Value]) -> u64
    ensures { result ≡ capped_weight (parts_weight (columns_of (map column_of fields.now)) (cells_of (map cell parts.now))) }
{
    let mut total = 0;
    for (i, field) in fields.iter().enumerate() {
        let part_weight = match parts.get(i) {
            Some(part) => match light_weight(field, part) {
                Some(known) => known,
                None => weight(field, part),
            },
            None => weight(field, &Value::Null),
        };
        total = add_weights(total, part_weight);
    }
    total
}

/// Returns the weight of a row: 1 plus its cells, where an absent cell weighs as much as a null. It is exact up to `MAX_TABLE_WEIGHT`, and
/// `TOO_HEAVY` above.
pub fn row_weight(schema: &Schema, row: &[Value]) -> u64
    ensures { result ≡ capped_weight (row_weight (schema_of schema.now) (map cell row.now)) }
{
    add_weights(1, parts_weight(&schema.fields, row))
}
