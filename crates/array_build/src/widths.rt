// The width of the values or of the offsets of a type.
ghost use Rattle.std.specs.Prelude.{◌≡◌, ◌/◌, option_map};
ghost use Rattle.array_build.specs.inner.Runs.{fixed_width, offsets_width};
ghost use Rattle.arrow_schema.specs.View.{date_kind, kind_of};
ghost use Rattle.cells.specs.Fit.{date_bits};
ghost use Rattle.columns.specs.Offsets.{width_of};

use arrow_schema::{DataType, DateUnit};
use columns::OffsetWidth;

fn date_width(unit: DateUnit) -> usize
    ensures { result ≡ date_bits (date_kind unit) / 8 }
{
    match unit {
        DateUnit::Day => 4,
        DateUnit::Millisecond => 8,
    }
}

/// Returns the number of bytes of a value, for a type whose values all have the same.
pub(crate) fn value_width(data_type: &DataType) -> Option<usize>
    ensures { result ≡ fixed_width (kind_of data_type.now) }
{
    match data_type {
        DataType::Int(integer) => Some(integer.width.bytes()),
        DataType::Date(unit) => Some(date_width(*unit)),
        DataType::Timestamp(_, _) => Some(8),
        DataType::FixedSizeBinary(width) => Some(*width as usize),
        _ => None,
    }
}

/// Returns the width of the offsets of a string, binary or list type.
pub(crate) fn offsets_width(data_type: &DataType) -> Option<OffsetWidth>
    ensures { option_map width_of result ≡ offsets_width (kind_of data_type.now) }
{
    match data_type {
        DataType::Utf8 | DataType::Binary | DataType::List(_) => Some(OffsetWidth::Four),
        DataType::LargeUtf8 | DataType::LargeBinary | DataType::LargeList(_) => Some(
            OffsetWidth::Eight,
        ),
        _ => None,
    }
}
