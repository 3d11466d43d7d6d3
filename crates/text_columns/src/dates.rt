// Dates and times as people write them, in columns of the integers that count them.
ghost use Rattle.std.specs.Prelude.{◌≡◌, ℕ, List, Some, IfOk, IfSome};
ghost use Rattle.arrow_schema.specs.View.{bits_of};
ghost use Rattle.cells.specs.Typed.{typed_integer};
ghost use Rattle.text_columns.specs.inner.Kept.{AppendsRead, AppendsStated, dates_in};

use crate::integers;
use crate::short_integers::ShortInteger;
use arrow_schema::IntegerType;
use civil_days::{DateColumn, DateForm, read_value};
use std::alloc::AllocError;

/// Returns the dates or times that texts are in this form, of integers that count them; `None` if the texts are numbers.
#[inline(always)]
pub(crate) fn dates_in(date_form: DateForm, counted: Option<DateColumn>) -> Option<DateColumn>
    ensures { result ≡ dates_in date_form counted }
{
    match date_form {
        DateForm::Numbers => None,
        DateForm::Iso => counted,
    }
}

/// Appends the bytes of the number that the text of a date or a time states, and returns its weight; `None` if it states none, or the type does not hold it.
pub(crate) fn push_date(
    values: &mut Vec<u8>,
    integer: IntegerType,
    column: DateColumn,
    text: &[u8],
) -> Result<Option<u64>, AllocError>
    ensures { IfOk result (λ taken. IfSome taken (λ weight. (weight ≡ 1)
        × AppendsStated column (bits_of integer.width) integer.signed text.now values.old.items values.new.items)) }
{
    let Ok(number) = read_value(column, text) else {
        return Ok(None);
    };
    if integers::push_number(values, integer, number)? {
        Ok(Some(1))
    } else {
        Ok(None)
    }
}

/// Appends the bytes of the integer that a field is, and returns its weight; `None` if it is none, or the type does not hold it. It is a number, unless
/// `dates` says which dates or times the texts are.
pub(crate) fn push_counted(
    values: &mut Vec<u8>,
    integer: IntegerType,
    dates: Option<DateColumn>,
    text: &[u8],
) -> Result<Option<u64>, AllocError>
    ensures { IfOk result (λ taken. IfSome taken (λ weight. (weight ≡ 1)
        × AppendsRead dates (bits_of integer.width) integer.signed text.now values.old.items values.new.items)) }
{
    match dates {
        None => integers::push_integer(values, integer, text),
        Some(column) => push_date(values, integer, column, text),
    }
}

/// Appends the bytes of a short integer, and returns its weight; `None` if the type does not hold it, or the texts are dates or times.
pub(crate) fn push_number(
    values: &mut Vec<u8>,
    integer: IntegerType,
    dates: Option<DateColumn>,
    short: ShortInteger,
) -> Result<Option<u64>, AllocError>
    ensures { (text : List ℕ) → typed_integer text ≡ Some short.number → IfOk result (λ taken. IfSome taken (λ weight. (weight ≡ 1)
        × AppendsRead dates (bits_of integer.width) integer.signed text values.old.items values.new.items)) }
{
    match dates {
        None => integers::push_short(values, integer, short),
        Some(_) => Ok(None),
    }
}
