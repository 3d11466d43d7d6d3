// The weights of borrowed values and rows, capped at `TOO_HEAVY` as all weights are.
ghost use Rattle.std.specs.Prelude.{◌≡◌, map, get_or};
ghost use Rattle.arrow_schema.specs.Column.{columns_of};
ghost use Rattle.arrow_schema.specs.View.{kind_of, column_of, schema_of};
ghost use Rattle.cells.specs.Cell.{cells_of, no_cell, null};
ghost use Rattle.cells.specs.Weight.{weight, row_weight, kind_weight, parts_weight, sum_of, fixed_sum, byte_count, items_in, parts_in, capped_weight};
ghost use Rattle.columns.specs.Borrowed.{borrowed_cell, borrowed_cells};

use arrow_schema::{DataType, Field, Schema};
use cells::{add_weights, multiply_weight};
use values::{ValueRef, Values};

fn byte_count(value: ValueRef<'_>) -> u64
    ensures { result ≡ byte_count (borrowed_cell value.entry) }
{
    match value {
        ValueRef::Text(text) => text.len() as u64,
        ValueRef::Bytes(bytes) => bytes.len() as u64,
        _ => 0,
    }
}

// Returns the weight of a field's value.
#[tactic(auto, unfolding(cells::specs::Weight::weight))]
#[cycle(weight)]
fn weight(field: &Field, value: ValueRef<'_>) -> u64
    ensures { result ≡ capped_weight (weight (column_of field.now) (borrowed_cell value.entry)) }
{
    type_weight(&field.data_type, value)
}

#[tactic(auto, using(arrow_schema::specs::declared::types::Field::the_lemmas), unfolding(cells::specs::Weight::kind_weight))]
#[cycle(weight)]
fn type_weight(data_type: &DataType, value: ValueRef<'_>) -> u64
    ensures { result ≡ capped_weight (kind_weight (kind_of data_type.now) (borrowed_cell value.entry)) }
{
    match data_type {
        DataType::Null => 1,
        DataType::Bool => 1,
        DataType::Int(_) => 1,
        DataType::Date(_) => 1,
        DataType::Timestamp(_, _) => 1,
        DataType::Utf8 => add_weights(1, byte_count(value)),
        DataType::LargeUtf8 => add_weights(1, byte_count(value)),
        DataType::Binary => add_weights(1, byte_count(value)),
        DataType::LargeBinary => add_weights(1, byte_count(value)),
        DataType::FixedSizeBinary(width) => add_weights(1, u64::from(*width)),
        DataType::List(item) => add_weights(1, list_weight(item, value)),
        DataType::LargeList(item) => add_weights(1, list_weight(item, value)),
        DataType::FixedSizeList(size, item) => add_weights(1, fixed_weight(*size, item, value)),
        DataType::Struct(fields) => add_weights(1, struct_weight(fields, value)),
    }
}

#[cycle(weight)]
fn list_weight(item: &Field, value: ValueRef<'_>) -> u64
    ensures { result ≡ capped_weight (sum_of (weight (column_of item.now)) (items_in (borrowed_cell value.entry))) }
{
    match value {
        ValueRef::List(items) => items_weight(item, items),
        _ => 0,
    }
}

#[cycle(weight)]
fn items_weight(item: &Field, items: Values<'_>) -> u64
    ensures { result ≡ capped_weight (sum_of (weight (column_of item.now)) (cells_of (borrowed_cells items.entry))) }
{
    let mut total = 0;
    for value in items.iter() {
        total = add_weights(total, weight(item, value));
    }
    total
}

// Returns the weight of the items of a fixed list. Those of a null one are not visited: their number is in the type.
#[tactic(auto, using(cells::specs::laws::Weights::capped_product))]
#[cycle(weight)]
fn fixed_weight(size: u32, item: &Field, value: ValueRef<'_>) -> u64
    ensures { result ≡ capped_weight (fixed_sum size (weight (column_of item.now)) (borrowed_cell value.entry)) }
{
    match value {
        ValueRef::Null => match size {
            0 => 0,
            _ => multiply_weight(u64::from(size), weight(item, ValueRef::Null)),
        },
        _ => list_weight(item, value),
    }
}

#[cycle(weight)]
fn struct_weight(fields: &[Field], value: ValueRef<'_>) -> u64
    ensures { result ≡ capped_weight (parts_weight (columns_of (map column_of fields.now)) (parts_in (borrowed_cell value.entry))) }
{
    match value {
        ValueRef::Struct(parts) => parts_weight(fields, parts),
        _ => nulls_weight(fields),
    }
}

// Returns the weight of the parts of a null struct: all of them are null.
#[tactic(auto, unfolding(cells::specs::Weight::parts_weight))]
#[cycle(weight)]
fn nulls_weight(fields: &[Field]) -> u64
    ensures { result ≡ capped_weight (parts_weight (columns_of (map column_of fields.now)) no_cell) }
{
    let mut total = 0;
    for field in fields {
        total = add_weights(total, weight(field, ValueRef::Null));
    }
    total
}

// Returns a part, or null if it is not there.
fn part_or_null<'a>(parts: Values<'a>, i: usize) -> ValueRef<'a>
    ensures { borrowed_cell result ≡ get_or (borrowed_cells parts.entry) i null }
{
    match parts.get(i) {
        Some(part) => part,
        None => ValueRef::Null,
    }
}

#[tactic(auto, unfolding(cells::specs::Weight::parts_weight))]
#[cycle(weight)]
fn parts_weight(fields: &[Field], parts: Values<'_>) -> u64
    ensures { result ≡ capped_weight (parts_weight (columns_of (map column_of fields.now)) (cells_of (borrowed_cells parts.entry))) }
{
    let mut total = 0;
    for (i, field) in fields.iter().enumerate() {
        total = add_weights(total, weight(field, part_or_null(parts, i)));
    }
    total
}

/// Returns the weight of a row.
pub(crate) fn row_weight(schema: &Schema, row: Values<'_>) -> u64
    ensures { result ≡ capped_weight (row_weight (schema_of schema.now) (borrowed_cells row.entry)) }
{
    match row.as_cells() {
        Some(cells) => cells::row_weight(schema, cells),
        None => add_weights(1, parts_weight(&schema.fields, row)),
    }
}
