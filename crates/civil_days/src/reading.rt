// Reads the number that a text states in a column.
ghost use Rattle.std.specs.Prelude.{◌≡◌, Result};
ghost use Rattle.civil_days.specs.TimeRead.{IsZone, time_value};
ghost use Rattle.civil_days.specs.Unit.{places_of};
ghost use Rattle.civil_days.specs.Read.{time_in};
ghost use Rattle.civil_days.specs.Typed.{is_unzoned, takes, spelled_in, stated_time};

use crate::date_column::{ColumnZone, DateColumn, DateFault};
use crate::parse::parse_date;
use crate::read_time::parse_time;
use crate::unit::Unit;
use crate::value::time_number;
use crate::zone::Zone;

fn takes(column: ColumnZone, zone: Zone) -> bool
    ensures { result ≡ takes column zone }
{
    match column {
        ColumnZone::Absent => matches!(zone, Zone::Unzoned),
        ColumnZone::Universal => true,
        ColumnZone::Other => !matches!(zone, Zone::Unzoned),
    }
}

fn places_of(unit: Unit) -> usize
    ensures { result ≡ places_of unit }
{
    match unit {
        Unit::Second => 0,
        Unit::Millisecond => 3,
        Unit::Microsecond => 6,
        Unit::Nanosecond => 9,
    }
}

fn read_moment(unit: Unit, zone: ColumnZone, text: &[u8]) -> Result<i128, DateFault>
    ensures { result ≡ stated_time zone (places_of unit) (time_in (places_of unit) text.now) }
{
    let Some(read) = parse_time(text, places_of(unit)) else {
        return Err(DateFault::NotADate);
    };
    if !takes(zone, read.zone) {
        return Err(DateFault::WrongOffset);
    }
    Ok(time_number(read, unit))
}

/// Returns the number that a text states in a column, which its type may not hold.
///
/// # Errors
/// `NotADate` for a text of no date or time, or with more digits behind the second than the unit has; `WrongOffset` for an
/// offset in a column without a zone, or none in a column of a zone other than UTC.
pub fn read_value(column: DateColumn, text: &[u8]) -> Result<i128, DateFault>
    ensures { result ≡ spelled_in column text.now }
{
    match column {
        DateColumn::Days => match parse_date(text) {
            Some(day) => Ok(i128::from(day)),
            None => Err(DateFault::NotADate),
        },
        DateColumn::Milliseconds => read_moment(Unit::Millisecond, ColumnZone::Absent, text),
        DateColumn::Times(unit, zone) => read_moment(unit, zone, text),
    }
}
