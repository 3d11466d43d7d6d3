// Tests whether a value fits a field.
ghost use Rattle.std.specs.Prelude.{◌≡◌, ◌≤◌, ◌<◌, ◌==◌, ◌&&◌, true, map};
ghost use Rattle.std.specs.Str.{is_utf8};
ghost use Rattle.arrow_schema.specs.Column.{columns_of};
ghost use Rattle.arrow_schema.specs.View.{kind_of, column_of, bits_of, date_kind};
ghost use Rattle.cells.specs.Cell.{cells_of};
ghost use Rattle.cells.specs.View.{cell};
ghost use Rattle.cells.specs.Fit.{fits, fits_kind, text_where, each_fits, all_cells, in_range, date_bits, count_of};

use crate::value::Value;
use arrow_schema::{BitWidth, DataType, DateUnit, Field, IntegerType};

#[inline(always)]
pub(crate) fn number_fits(bits: u32, signed: bool, n: i128) -> bool
    requires low { 1 ≤ bits }
    requires high { bits ≤ 64 }
    ensures { result ≡ in_range bits signed n }
{
    if signed {
        let limit = 1i128 << (bits - 1);
        -limit <= n && n < limit
    } else {
        0 <= n && n < 1i128 << bits
    }
}

// One test for each width: with a constant number of bits it compiles to two comparisons.
#[inline(always)]
pub(crate) fn integer_fits(integer: IntegerType, n: i128) -> bool
    ensures { result ≡ in_range (bits_of integer.width) integer.signed n }
{
    match integer.width {
        BitWidth::Eight => number_fits(8, integer.signed, n),
        BitWidth::Sixteen => number_fits(16, integer.signed, n),
        BitWidth::ThirtyTwo => number_fits(32, integer.signed, n),
        BitWidth::SixtyFour => number_fits(64, integer.signed, n),
    }
}

pub(crate) fn date_fits(unit: DateUnit, n: i128) -> bool
    ensures { result ≡ in_range (date_bits (date_kind unit)) true n }
{
    match unit {
        DateUnit::Day => number_fits(32, true, n),
        DateUnit::Millisecond => number_fits(64, true, n),
    }
}

// A `str` is always UTF-8.
pub(crate) fn is_utf8(text: &str) -> bool
    ensures { result ≡ is_utf8 text.now }
{
    true
}

fn text_fits(value: &Value) -> bool
    ensures { result ≡ text_where is_utf8 (cell value.now) }
{
    match value {
        Value::Text(text) => is_utf8(text.as_str()),
        _ => false,
    }
}

fn width_matches(width: u32, count: usize) -> bool
    ensures { result ≡ (count == width) }
{
    count == width as usize
}

/// Returns whether a value fits a field: it is a null and the field is nullable, or it has the kind of the field's type, is in range, has the exact
/// width or length, and its items or parts fit.
#[tactic(auto, unfolding(crate::specs::Fit::fits))]
#[cycle(fits)]
pub fn fits(field: &Field, value: &Value) -> bool
    ensures { result ≡ fits (column_of field.now) (cell value.now) }
{
    match value {
        Value::Null => field.nullable,
        _ => fits_type(&field.data_type, value),
    }
}

#[tactic(auto, unfolding(crate::specs::Fit::fits_kind))]
#[cycle(fits)]
fn fits_type(data_type: &DataType, value: &Value) -> bool
    ensures { result ≡ fits_kind (kind_of data_type.now) (cell value.now) }
{
    match data_type {
        DataType::Null => false,
        DataType::Bool => matches!(value, Value::Bool(_)),
        DataType::Int(integer) => match value {
            Value::Int(n) => integer_fits(*integer, *n),
            _ => false,
        },
        DataType::Date(unit) => match value {
            Value::Int(n) => date_fits(*unit, *n),
            _ => false,
        },
        DataType::Timestamp(_, _) => match value {
            Value::Int(n) => number_fits(64, true, *n),
            _ => false,
        },
        DataType::Utf8 => text_fits(value),
        DataType::LargeUtf8 => text_fits(value),
        DataType::Binary => matches!(value, Value::Bytes(_)),
        DataType::LargeBinary => matches!(value, Value::Bytes(_)),
        DataType::FixedSizeBinary(width) => match value {
            Value::Bytes(bytes) => width_matches(*width, bytes.len()),
            _ => false,
        },
        DataType::List(item) => match value {
            Value::List(values) => all_fit(item, values),
            _ => false,
        },
        DataType::LargeList(item) => match value {
            Value::List(values) => all_fit(item, values),
            _ => false,
        },
        DataType::FixedSizeList(size, item) => match value {
            Value::List(values) => fixed_fit(*size, item, values),
            _ => false,
        },
        DataType::Struct(fields) => match value {
            Value::Struct(parts) => each_fits(fields, parts),
            _ => false,
        },
    }
}

#[cycle(fits)]
fn all_fit(item: &Field, values: &[Value]) -> bool
    ensures { result ≡ all_cells (fits (column_of item.now)) (cells_of (map cell values.now)) }
{
    for value in values {
        if !fits(item, value) {
            return false;
        }
    }
    true
}

#[tactic(auto, using(crate::proofs::CellLemmas::count_cells))]
#[cycle(fits)]
fn fixed_fit(size: u32, item: &Field, values: &[Value]) -> bool
    ensures { result ≡ (count_of (cells_of (map cell values.now)) == size && all_cells (fits (column_of item.now)) (cells_of (map cell values.now))) }
{
    width_matches(size, values.len()) && all_fit(item, values)
}

// Returns whether there is exactly one value for each field, and each fits its own.
#[tactic(auto, using(crate::proofs::CellLemmas::each_of_other_length), unfolding(crate::specs::Fit::each_fits))]
#[cycle(fits)]
pub(crate) fn each_fits(fields: &[Field], parts: &[Value]) -> bool
    ensures { result ≡ each_fits (columns_of (map column_of fields.now)) (cells_of (map cell parts.now)) }
{
    if fields.len() != parts.len() {
        return false;
    }
    for (i, part) in parts.iter().enumerate() {
        if !fits(&fields[i], part) {
            return false;
        }
    }
    true
}
