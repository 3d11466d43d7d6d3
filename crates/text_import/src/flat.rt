// Numbers, and cells of flat types.
ghost use Rattle.std.specs.Prelude.{◌≡◌, ◌≤◌, ℕ, Bool, pos, neg_ℤ, true, false, length, option_map, IfOk};
ghost use Rattle.arrow_schema.specs.Column as kinds;
ghost use Rattle.arrow_schema.specs.Column.{integers};
ghost use Rattle.arrow_schema.specs.Parts.{kind_of_column};
ghost use Rattle.arrow_schema.specs.View.{column_of, kind_of};
ghost use Rattle.civil_days.specs.Typed.{spelled};
ghost use Rattle.cells.specs.Cell as plain;
ghost use Rattle.cells.specs.Nulls.{is_there};
ghost use Rattle.cells.specs.Typed.{typed_number, typed_integer, typed_boolean};
ghost use Rattle.cells.specs.View.{cell};
ghost use Rattle.text_import.specs.declared.refusal.Refusal.TheVariants.{NotUtf8};
ghost use Rattle.text_import.specs.Refusals.{refusal_of};
ghost use Rattle.facts.specs.Outcomes.{Gives};
ghost use Rattle.text_import.specs.Flat.{fitting, number_cell, spelled_cell, dated_cell, boolean_cell, hex_cell, cell_of_text, field_cell};
ghost use Rattle.text_import.specs.inner.Capped.{capped, capped_integer, holds_numbers, number_behind};
ghost use Rattle.text_import.specs.FieldForm.{field_form};

use crate::form::FieldForm;
use crate::refusal::{CellError, Refusal};
use crate::texts::text_of;
use arrow_schema::{DataType, Field};
use cells::{Value, fits};
use civil_days::{DateFault, DateForm, date_column_of, read_value};
use hex::FromHexError;
use std::alloc::{AllocError, Global};

// Out of range for every integer type.
const TOO_LARGE: u128 = 1 << 64;

// The maximum number of digits whose value always fits in 64 bits.
const SHORT: usize = 19;

// Parses at most 19 digits.
fn short_digits(text: &[u8]) -> Option<u128>
    requires { length text.now ≤ 19 }
    ensures { result ≡ option_map capped (number_behind 0 text.now) }
{
    let mut number = 0u64;
    for byte in text {
        if !byte.is_ascii_digit() {
            return None;
        }
        number = number * 10 + u64::from(*byte - b'0');
    }
    Some(u128::from(number))
}

// Parses digits, and returns `TOO_LARGE` for any larger number.
fn digits(text: &[u8]) -> Option<u128>
    ensures { result ≡ option_map capped (typed_number text.now) }
{
    if text.is_empty() {
        return None;
    }
    if text.len() <= SHORT {
        return short_digits(text);
    }
    let mut number = 0u128;
    for byte in text {
        if !byte.is_ascii_digit() {
            return None;
        }
        number = (number * 10 + u128::from(*byte - b'0')).min(TOO_LARGE);
    }
    Some(number)
}

fn negative(text: &[u8]) -> Option<i128>
    ensures { result ≡ option_map (λ n. neg_ℤ (pos n)) (option_map capped (typed_number text.now)) }
{
    match digits(text) {
        None => None,
        Some(number) => Some(-(number as i128)),
    }
}

fn positive(text: &[u8]) -> Option<i128>
    ensures { result ≡ option_map pos (option_map capped (typed_number text.now)) }
{
    match digits(text) {
        None => None,
        Some(number) => Some(number as i128),
    }
}

// Parses an integer, or returns `None` if the text is none.
fn integer(text: &[u8]) -> Option<i128>
    ensures { result ≡ capped_integer text.now }
{
    match text.first() {
        None => None,
        Some(b'-') => negative(&text[1..]),
        Some(_) => positive(text),
    }
}

/// Parses an integer, or returns `None` if the text is none. If no type holds the integer, the result is some integer that no type holds.
#[tactic(auto, using(crate::proofs::NumberLemmas::integers_capped))]
pub fn spelled_integer(text: &[u8]) -> Option<i128>
    ensures { (bits : ℕ) (signed : Bool) → bits ≤ 64 → number_cell (integers bits signed) result
        ≡ number_cell (integers bits signed) (typed_integer text.now) }
{
    integer(text)
}

// Returns the value if it is one of the field's type, and the refusal if not.
fn fitting(field: &Field, value: Value, refusal: Refusal) -> Result<Value, CellError>
    requires { is_there (cell value) ≡ true }
    ensures { Gives refusal_of cell result (fitting (kind_of_column (column_of field.now)) refusal (cell value)) }
{
    if fits(field, &value) {
        Ok(value)
    } else {
        Err(CellError::Refused(refusal))
    }
}

pub(crate) fn number_cell(field: &Field, number: Option<i128>) -> Result<Value, CellError>
    ensures { Gives refusal_of cell result (number_cell (kind_of_column (column_of field.now)) number) }
{
    match number {
        None => Err(CellError::Refused(Refusal::NotANumber)),
        Some(number) => fitting(field, Value::Int(number), Refusal::OutOfRange),
    }
}

fn integer_cell(field: &Field, text: &[u8]) -> Result<Value, CellError>
    requires { holds_numbers (kind_of_column (column_of field.now)) ≡ true }
    ensures { Gives refusal_of cell result (number_cell (kind_of_column (column_of field.now)) (typed_integer text.now)) }
{
    number_cell(field, integer(text))
}

// Returns the number that a text states in a column of this type.
fn spelled(data_type: &DataType, text: &[u8]) -> Result<i128, DateFault>
    ensures { result ≡ spelled (kind_of data_type.now) text.now }
{
    match date_column_of(data_type) {
        Some(column) => read_value(column, text),
        None => Err(DateFault::NotADate),
    }
}

// Returns the cell of the date or the time that a text spells.
#[tactic(auto, using(arrow_schema::specs::declared::types::Field::the_lemmas))]
pub(crate) fn spelled_cell(field: &Field, text: &[u8]) -> Result<Value, CellError>
    ensures { Gives refusal_of cell result (spelled_cell (kind_of_column (column_of field.now)) (spelled (kind_of_column (column_of field.now)) text.now)) }
{
    match spelled(&field.data_type, text) {
        Ok(number) => fitting(field, Value::Int(number), Refusal::OutOfRange),
        Err(DateFault::NotADate) => Err(CellError::Refused(Refusal::NotADate)),
        Err(DateFault::WrongOffset) => Err(CellError::Refused(Refusal::WrongOffset)),
    }
}

// Returns the cell of a date or a time.
fn dated_cell(date_form: DateForm, field: &Field, text: &[u8]) -> Result<Value, CellError>
    requires { holds_numbers (kind_of_column (column_of field.now)) ≡ true }
    ensures { Gives refusal_of cell result (dated_cell date_form (kind_of_column (column_of field.now)) text.now) }
{
    match date_form {
        DateForm::Numbers => integer_cell(field, text),
        DateForm::Iso => spelled_cell(field, text),
    }
}

/// Parses a boolean, or returns `None` if the text is none.
pub fn spelled_boolean(text: &[u8]) -> Option<bool>
    ensures { result ≡ typed_boolean text.now }
{
    if text == b"true".as_slice() {
        Some(true)
    } else if text == b"false".as_slice() {
        Some(false)
    } else {
        None
    }
}

fn boolean_cell(text: &[u8]) -> Result<Value, CellError>
    ensures { Gives refusal_of cell result (boolean_cell (typed_boolean text.now)) }
{
    match spelled_boolean(text) {
        Some(value) => Ok(Value::Bool(value)),
        None => Err(CellError::Refused(Refusal::NotABool)),
    }
}

fn copy_text(alloc: Global, text: &str) -> Result<Value, AllocError>
    ensures { IfOk result (λ value. cell value ≡ plain.text text.now) }
{
    Ok(Value::Text(String::from_str(alloc, text)?))
}

// A string is UTF-8 by its type.
pub(crate) fn own_text(alloc: Global, text: &str) -> Result<Value, CellError>
    ensures { Gives refusal_of cell result (fitting kinds.texts NotUtf8 (plain.text text.now)) }
{
    let value = copy_text(alloc, text)?;
    Ok(value)
}

#[tactic(auto, unfolding(cells::specs::Fit::fits_kind))]
fn text_cell(alloc: Global, text: &[u8]) -> Result<Value, CellError>
    ensures { Gives refusal_of cell result (fitting kinds.texts NotUtf8 (plain.text text.now)) }
{
    match text_of(text) {
        Some(text) => own_text(alloc, text),
        None => Err(CellError::Refused(Refusal::NotUtf8)),
    }
}

pub(crate) fn hex_cell(alloc: Global, field: &Field, digits: &[u8]) -> Result<Value, CellError>
    ensures { Gives refusal_of cell result (hex_cell (kind_of_column (column_of field.now)) digits.now) }
{
    match hex::decode(alloc, digits) {
        Ok(bytes) => fitting(field, Value::Bytes(bytes), Refusal::FixedWidth),
        Err(FromHexError::OutOfMemory) => Err(CellError::OutOfMemory),
        Err(_) => Err(CellError::Refused(Refusal::NotHex)),
    }
}

#[tactic(auto, using(arrow_schema::specs::declared::types::Field::the_lemmas), unfolding(crate::specs::Flat::cell_of_text, cells::specs::Fit::fits_kind))]
fn typed_cell(
    alloc: Global,
    date_form: DateForm,
    field: &Field,
    text: &[u8],
) -> Result<Value, CellError>
    ensures { Gives refusal_of cell result (cell_of_text date_form (kind_of_column (column_of field.now)) text.now) }
{
    match &field.data_type {
        DataType::Null => Err(CellError::Refused(Refusal::NullMismatch)),
        DataType::Bool => boolean_cell(text),
        DataType::Int(_) => integer_cell(field, text),
        DataType::Date(_) => dated_cell(date_form, field, text),
        DataType::Timestamp(_, _) => dated_cell(date_form, field, text),
        DataType::Utf8 => text_cell(alloc, text),
        DataType::LargeUtf8 => text_cell(alloc, text),
        DataType::Binary => hex_cell(alloc, field, text),
        DataType::LargeBinary => hex_cell(alloc, field, text),
        DataType::FixedSizeBinary(_) => hex_cell(alloc, field, text),
        DataType::List(_) => Err(CellError::Refused(Refusal::Nested)),
        DataType::LargeList(_) => Err(CellError::Refused(Refusal::Nested)),
        DataType::FixedSizeList(_, _) => Err(CellError::Refused(Refusal::Nested)),
        DataType::Struct(_) => Err(CellError::Refused(Refusal::Nested)),
    }
}

// Parses a field of a CSV record.
#[tactic(auto, using(arrow_schema::specs::declared::types::Field::the_lemmas), unfolding(crate::specs::Flat::field_cell))]
pub(crate) fn field_cell(
    alloc: Global,
    field: &Field,
    form: &FieldForm<'_>,
    text: &[u8],
) -> Result<Value, CellError>
    ensures { Gives refusal_of cell result (field_cell (field_form form.now) (column_of field.now) text.now) }
{
    if field.nullable && text == form.null_text {
        Ok(Value::Null)
    } else {
        typed_cell(alloc, form.dates, field, text)
    }
}
