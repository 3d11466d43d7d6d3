// Columns of dates and times.
ghost use Rattle.std.specs.Prelude.{◌≡◌};
ghost use Rattle.arrow_schema.specs.View.{kind_of, time_kind};
ghost use Rattle.civil_days.specs.Typed.{unit_of, is_utc, zone_of_column, date_column};

use crate::unit::Unit;
use arrow_schema::{DataType, DateUnit, TimeUnit};

/// The zone of a column of timestamps: none, UTC by one of its names, or another one.
#[derive(Clone, Copy, Debug, PartialEq, Eq)]
pub enum ColumnZone {
    Absent,
    Universal,
    Other,
}

/// What the numbers of a column count: days, milliseconds of a date, or the units of a timestamp.
#[derive(Clone, Copy, Debug, PartialEq, Eq)]
pub enum DateColumn {
    Days,
    Milliseconds,
    Times(Unit, ColumnZone),
}

/// Why the text of a date or a time is refused in a column.
#[derive(Clone, Copy, Debug, PartialEq, Eq)]
pub enum DateFault {
    /// No date or time, or more digits behind the second than the unit has.
    NotADate,
    /// An offset in a column without a zone, or none in a column of a zone other than UTC.
    WrongOffset,
}

fn unit_of(unit: TimeUnit) -> Unit
    ensures { result ≡ unit_of (time_kind unit) }
{
    match unit {
        TimeUnit::Second => Unit::Second,
        TimeUnit::Millisecond => Unit::Millisecond,
        TimeUnit::Microsecond => Unit::Microsecond,
        TimeUnit::Nanosecond => Unit::Nanosecond,
    }
}

// Returns whether a time zone is UTC, by one of its names or as an offset of nothing.
fn is_utc(timezone: &str) -> bool
    ensures { result ≡ is_utc timezone.now }
{
    (timezone == "UTC")
        | (timezone == "Z")
        | (timezone == "Etc/UTC")
        | (timezone == "+00:00")
        | (timezone == "-00:00")
        | (timezone == "+00")
}

fn zone_of(timezone: &str) -> ColumnZone
    ensures { result ≡ zone_of_column timezone.now }
{
    if timezone.is_empty() {
        ColumnZone::Absent
    } else if is_utc(timezone) {
        ColumnZone::Universal
    } else {
        ColumnZone::Other
    }
}

/// Returns what the numbers of a column of this type count, or `None` if they are no dates or times.
pub fn date_column_of(data_type: &DataType) -> Option<DateColumn>
    ensures { result ≡ date_column (kind_of data_type.now) }
{
    match data_type {
        DataType::Date(DateUnit::Day) => Some(DateColumn::Days),
        DataType::Date(DateUnit::Millisecond) => Some(DateColumn::Milliseconds),
        DataType::Timestamp(unit, timezone) => {
            Some(DateColumn::Times(unit_of(*unit), zone_of(timezone)))
        }
        _ => None,
    }
}
