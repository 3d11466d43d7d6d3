// Parses literals by the type of their column.
ghost use Rattle.std.specs.Prelude.{◌≡◌, ◌==◌, slice_index, IfOk, option_map};
ghost use Rattle.arrow_schema.specs.View.{kind_of};
ghost use Rattle.cells.specs.Cell.{number};
ghost use Rattle.cells.specs.View.{cell};
ghost use Rattle.query.specs.Literal.{boolean_in, number_in, date_in, number_or_date, bytes_in, is_of_64_bits, is_comparable, literal_of};
ghost use Rattle.query.specs.Shown.{dated};

use crate::shown::dated;
use arrow_schema::DataType;
use cells::Value;
use civil_days::{DateColumn, DateForm, read_value};
use hex::FromHexError;
use std::alloc::{AllocError, Global};

// The least number that a literal may be, and the first that is too large.
const LEAST: i128 = -0x8000_0000_0000_0000;

const END: i128 = 0x1_0000_0000_0000_0000;

#[tactic(auto, unfolding(crate::specs::Literal::boolean_in))]
fn boolean_in(text: &str) -> Option<Value>
    ensures { option_map cell result ≡ boolean_in text.now }
{
    if text == "true" {
        Some(Value::Bool(true))
    } else if text == "false" {
        Some(Value::Bool(false))
    } else {
        None
    }
}

fn is_of_64_bits(number: i128) -> bool
    ensures { result ≡ is_of_64_bits number }
{
    LEAST <= number && number < END
}

fn begins_with_plus(text: &str) -> bool
    ensures { result ≡ (slice_index text.now 0 == 43) }
{
    let bytes = text.as_bytes();
    !bytes.is_empty() && bytes[0] == b'+'
}

// `parse` would accept a plus sign.
#[tactic(auto, unfolding(crate::specs::Literal::number_in))]
fn number_in(text: &str) -> Option<i128>
    ensures { option_map (λ n. number n) result ≡ number_in text.now }
{
    if begins_with_plus(text) {
        return None;
    }
    match text.parse::<i128>() {
        Err(_) => None,
        Ok(number) => {
            if is_of_64_bits(number) {
                Some(number)
            } else {
                None
            }
        }
    }
}

#[tactic(auto, unfolding(crate::specs::Literal::date_in))]
fn date_in(column: DateColumn, text: &str) -> Option<i128>
    ensures { option_map (λ n. number n) result ≡ date_in column text.now }
{
    match read_value(column, text.as_bytes()) {
        Err(_) => None,
        Ok(number) => {
            if is_of_64_bits(number) {
                Some(number)
            } else {
                None
            }
        }
    }
}

fn number_literal(text: &str) -> Option<Value>
    ensures { option_map cell result ≡ number_in text.now }
{
    match number_in(text) {
        None => None,
        Some(number) => Some(Value::Int(number)),
    }
}

fn date_literal(column: DateColumn, text: &str) -> Option<Value>
    ensures { option_map cell result ≡ date_in column text.now }
{
    match date_in(column, text) {
        None => None,
        Some(number) => Some(Value::Int(number)),
    }
}

fn number_or_date(dates: DateForm, data_type: &DataType, text: &str) -> Option<Value>
    ensures { option_map cell result ≡ number_or_date (dated dates (kind_of data_type.now)) text.now }
{
    match dated(dates, data_type) {
        None => number_literal(text),
        Some(column) => date_literal(column, text),
    }
}

fn bytes_in(alloc: Global, text: &str) -> Result<Option<Value>, AllocError>
    ensures { IfOk result (λ v. option_map cell v ≡ bytes_in text.now) }
{
    match hex::decode(alloc, text) {
        Ok(bytes) => Ok(Some(Value::Bytes(bytes))),
        Err(FromHexError::OutOfMemory) => Err(AllocError),
        Err(_) => Ok(None),
    }
}

pub(crate) fn is_comparable(data_type: &DataType) -> bool
    ensures { result ≡ is_comparable (kind_of data_type.now) }
{
    !matches!(
        data_type,
        DataType::Null
            | DataType::List(_)
            | DataType::LargeList(_)
            | DataType::FixedSizeList(_, _)
            | DataType::Struct(_)
    )
}

// Returns the value of a literal that values of a type are compared with.
pub(crate) fn literal_of(
    alloc: Global,
    dates: DateForm,
    data_type: &DataType,
    text: &str,
) -> Result<Option<Value>, AllocError>
    ensures { IfOk result (λ v. option_map cell v ≡ literal_of dates (kind_of data_type.now) text.now) }
{
    match data_type {
        DataType::Null => Ok(None),
        DataType::Bool => Ok(boolean_in(text)),
        DataType::Int(_) => Ok(number_literal(text)),
        DataType::Date(_) => Ok(number_or_date(dates, data_type, text)),
        DataType::Timestamp(_, _) => Ok(number_or_date(dates, data_type, text)),
        DataType::Utf8 => Ok(Some(Value::Text(String::from_str(alloc, text)?))),
        DataType::LargeUtf8 => Ok(Some(Value::Text(String::from_str(alloc, text)?))),
        DataType::Binary => bytes_in(alloc, text),
        DataType::LargeBinary => bytes_in(alloc, text),
        DataType::FixedSizeBinary(_) => bytes_in(alloc, text),
        DataType::List(_) => Ok(None),
        DataType::LargeList(_) => Ok(None),
        DataType::FixedSizeList(_, _) => Ok(None),
        DataType::Struct(_) => Ok(None),
    }
}
