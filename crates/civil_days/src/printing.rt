// Prints the numbers of columns.
ghost use Rattle.std.specs.Prelude.{◌≡◌, ◌++◌, OnOk, ℤ, pos, unsigned_abs, ◌==◌, if◌then◌else◌};
ghost use Rattle.std.specs.Int.{IsInRange, int_div_euclid, int_rem_euclid};
ghost use Rattle.std.specs.List.{AllByRecursion};
ghost use Rattle.civil_days.specs.Text.{text_of_day};
ghost use Rattle.civil_days.specs.Time.{time_text};
ghost use Rattle.civil_days.specs.Typed.{has_zone, shown_in};
ghost use Rattle.civil_days.specs.declared.date_column.DateColumn.{DateColumn};
ghost use Rattle.civil_days.specs.declared.date_column.DateColumn.TheVariants.{Milliseconds};

use crate::date_column::{ColumnZone, DateColumn};
use crate::print::push_date;
use crate::time::push_time;
use crate::unit::Unit;
use std::alloc::AllocError;

// The milliseconds of a day.
const DAY: i64 = 86_400_000;

fn has_zone(zone: ColumnZone) -> bool
    ensures { result ≡ has_zone zone }
{
    match zone {
        ColumnZone::Absent => false,
        ColumnZone::Universal => true,
        ColumnZone::Other => true,
    }
}

// Appends the text of a date in milliseconds: of its day alone, if it is a midnight.
fn push_milliseconds(out: &mut Vec<u8>, value: i64) -> Result<(), AllocError>
    ensures { OnOk result (out.new.items ≡ out.old.items ++ shown_in Milliseconds value) }
{
    if value.rem_euclid(DAY) == 0 {
        return push_date(out, value.div_euclid(DAY));
    }
    push_time(out, Unit::Millisecond, false, value)
}

/// Appends the text of a number of a column, as people write it.
///
/// # Errors
/// `AllocError` if memory is refused: part of the text may be appended.
pub fn push_value(out: &mut Vec<u8>, column: DateColumn, value: i64) -> Result<(), AllocError>
    ensures { OnOk result (out.new.items ≡ out.old.items ++ shown_in column value) }
{
    match column {
        DateColumn::Days => push_date(out, value),
        DateColumn::Milliseconds => push_milliseconds(out, value),
        DateColumn::Times(unit, zone) => push_time(out, unit, has_zone(zone), value),
    }
}

/// Each byte of the text of a number is one from `+` to `Z`: none of them needs an escape in a JSON string.
pub fn texts_need_no_escape()
    ensures { (column : DateColumn) (n : ℤ) → AllByRecursion (IsInRange 43 90) (shown_in column n) }
{}
