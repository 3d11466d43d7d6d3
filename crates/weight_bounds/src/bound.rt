// The bound of a schema, by its types.
ghost use Rattle.std.specs.Prelude.{◌≡◌, ◌≤◌, ◌+◌, ◌*◌, ℕ, true, Some, IfSome};
ghost use Rattle.cells.specs.Cell.{null};
ghost use Rattle.cells.specs.Weight.{weight};
ghost use Rattle.arrow_schema.specs.View.{column_of, kind_of, schema_of};
ghost use Rattle.cells.specs.declared.limits.TheConstants.{MAX_TABLE_WEIGHT};
ghost use Rattle.columns.specs.View.{fields_of};
ghost use Rattle.weight_bounds.specs.Bound.{slots_of_width, slots_in_eight, kind_slots_in_eight, part_slots_in_eight, of_items, more_of_entries, more_in_eight, kind_more_in_eight, parts_more_in_eight, row_more_in_eight, most_in_eight};

use arrow_schema::{DataType, DateUnit, Field, Schema};
use cells::{MAX_TABLE_WEIGHT, TOO_HEAVY, Value, add_weights, multiply_weight, row_weight, weight};

// Values of one width.
fn slots_of_width(width: usize) -> Option<u64>
    ensures { result ≡ slots_of_width width }
{
    if width >= 8 {
        Some(1)
    } else if width >= 4 {
        Some(2)
    } else if width >= 2 {
        Some(4)
    } else if width >= 1 {
        Some(8)
    } else {
        None
    }
}

#[tactic(auto, unfolding(crate::specs::Bound::slots_in_eight))]
#[cycle(slots)]
fn slots_in_eight(field: &Field) -> Option<u64>
    ensures { result ≡ slots_in_eight (column_of field.now) }
{
    match &field.dictionary {
        None => kind_slots_in_eight(&field.data_type),
        Some(spec) => slots_of_width(spec.index.width.bytes()),
    }
}

#[tactic(auto, unfolding(crate::specs::Bound::kind_slots_in_eight))]
#[cycle(slots)]
fn kind_slots_in_eight(data_type: &DataType) -> Option<u64>
    ensures { result ≡ kind_slots_in_eight (kind_of data_type.now) }
{
    match data_type {
        DataType::Null => None,
        DataType::Bool => Some(64),
        DataType::Int(integer) => slots_of_width(integer.width.bytes()),
        DataType::Date(unit) => match unit {
            DateUnit::Day => Some(2),
            DateUnit::Millisecond => Some(1),
        },
        DataType::Timestamp(_, _) => Some(1),
        DataType::Utf8 => Some(2),
        DataType::LargeUtf8 => Some(1),
        DataType::Binary => Some(2),
        DataType::LargeBinary => Some(1),
        DataType::FixedSizeBinary(width) => slots_of_width(*width as usize),
        DataType::List(_) => Some(2),
        DataType::LargeList(_) => Some(1),
        DataType::FixedSizeList(size, item) => {
            if *size >= 1 {
                slots_in_eight(item)
            } else {
                None
            }
        }
        DataType::Struct(fields) => part_slots_in_eight(fields),
    }
}

#[tactic(auto, unfolding(crate::specs::Bound::part_slots_in_eight))]
#[cycle(slots)]
fn part_slots_in_eight(fields: &[Field]) -> Option<u64>
    ensures { result ≡ part_slots_in_eight (fields_of fields.now) }
{
    match fields.first() {
        Some(field) => slots_in_eight(field),
        None => None,
    }
}

// Values that may have a dictionary.
fn more_of_entries(data_type: &DataType) -> Option<u64>
    ensures { result ≡ more_of_entries (kind_of data_type.now) }
{
    match data_type {
        DataType::Null => Some(0),
        DataType::Bool => Some(0),
        DataType::Int(_) => Some(0),
        DataType::Date(_) => Some(0),
        DataType::Timestamp(_, _) => Some(0),
        DataType::FixedSizeBinary(_) => Some(0),
        _ => None,
    }
}

fn product_and_sum(count: u64, unit: u64, more: u64) -> Option<u64>
    ensures { IfSome result (λ m. m ≡ count * unit + more) }
{
    match count.checked_mul(unit) {
        Some(product) => product.checked_add(more),
        None => None,
    }
}

#[tactic(auto, unfolding(crate::specs::Bound::more_in_eight))]
#[cycle(more)]
fn more_in_eight(field: &Field) -> Option<u64>
    ensures { IfSome result (λ m. more_in_eight (column_of field.now) ≡ Some m) }
{
    match &field.dictionary {
        None => kind_more_in_eight(&field.data_type),
        Some(_) => more_of_entries(&field.data_type),
    }
}

#[tactic(auto, unfolding(crate::specs::Bound::kind_more_in_eight))]
#[cycle(more)]
fn kind_more_in_eight(data_type: &DataType) -> Option<u64>
    ensures { IfSome result (λ m. kind_more_in_eight (kind_of data_type.now) ≡ Some m) }
{
    match data_type {
        DataType::Null => Some(0),
        DataType::Bool => Some(0),
        DataType::Int(_) => Some(0),
        DataType::Date(_) => Some(0),
        DataType::Timestamp(_, _) => Some(0),
        DataType::Utf8 => Some(8),
        DataType::LargeUtf8 => Some(8),
        DataType::Binary => Some(8),
        DataType::LargeBinary => Some(8),
        DataType::FixedSizeBinary(_) => Some(0),
        DataType::List(item) => items_more_in_eight(item),
        DataType::LargeList(item) => items_more_in_eight(item),
        DataType::FixedSizeList(_, item) => more_in_eight(item),
        DataType::Struct(fields) => parts_more_in_eight(fields),
    }
}

#[cycle(more)]
fn items_more_in_eight(item: &Field) -> Option<u64>
    ensures { IfSome result (λ m. of_items (slots_in_eight (column_of item.now)) (more_in_eight (column_of item.now)) (weight (column_of item.now) null) ≡ Some m) }
{
    let unit = weight(item, &Value::Null);
    if unit == TOO_HEAVY {
        return None;
    }
    match slots_in_eight(item) {
        Some(slots) => match more_in_eight(item) {
            Some(more) => product_and_sum(slots, unit, more),
            None => None,
        },
        None => None,
    }
}

#[tactic(auto, unfolding(crate::specs::Bound::parts_more_in_eight))]
#[cycle(more)]
fn parts_more_in_eight(fields: &[Field]) -> Option<u64>
    ensures { IfSome result (λ m. parts_more_in_eight (fields_of fields.now) ≡ Some m) }
{
    let mut total: u64 = 0;
    for field in fields {
        match more_in_eight(field) {
            Some(more) => match total.checked_add(more) {
                Some(sum) => total = sum,
                None => return None,
            },
            None => return None,
        }
    }
    Some(total)
}

/// Returns whether rows of this weight and as many rows as these, in streams that have so many bytes together, are surely no heavier than a table may be. It
/// does not look at the streams.
pub fn stays_light(schema: &Schema, rows: u64, bytes: u64, new: u64) -> bool
    ensures { result ≡ true → (more : ℕ) × (row_more_in_eight (schema_of schema.now) ≡ Some more)
        × (most_in_eight (schema_of schema.now) more rows bytes + 8 * new ≤ 8 * MAX_TABLE_WEIGHT) }
{
    match parts_more_in_eight(&schema.fields) {
        Some(more) => {
            let nulls = multiply_weight(rows, row_weight(schema, &[]));
            let all = add_weights(nulls, new);
            all <= MAX_TABLE_WEIGHT && more.saturating_mul(bytes) <= 8 * (MAX_TABLE_WEIGHT - all)
        }
        None => false,
    }
}
