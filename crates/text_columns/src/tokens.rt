// Cells of JSON tokens.
ghost use Rattle.std.specs.Prelude.{◌≡◌, ◌==◌, ◌++◌, ◌∷◌, ◌^◌, ◌≤◌, ◌<◌, [], true, false, length, slice_index, IfOk, IfSome, Some};
ghost use Rattle.fast_float.specs.Text.{Parts};
ghost use Rattle.civil_days.specs.declared.date_form.DateForm.{DateForm};
ghost use Rattle.json.specs.Reads.{token_of};
ghost use Rattle.text_columns.specs.declared.builder.ColumnBuilder.{Flat};
ghost use Rattle.text_columns.specs.inner.Kept.{has_texts};
ghost use Rattle.text_columns.specs.inner.Plain.{AreDigits};
ghost use Rattle.text_columns.specs.inner.Lines.{AppendsBinary, AppendsBit, AppendsCounted, AppendsDate, AppendsFixedBinary, AppendsNumber, AppendsString, TakesCellToken, TakesCodedToken, TakesNumber, TakesToken, integer_after, integer_in};

use crate::bytes::{push_bytes, push_fixed};
use crate::coding::Coding;
use crate::column_values::ColumnValues;
use crate::dates::{dates_in, push_date};
use crate::flat::FlatBuilder;
use crate::integers::{push_number, push_small};
use crate::short_integers::read_digits;
use crate::texts::push_utf8;
use arrow_schema::IntegerType;
use civil_days::{DateColumn, DateForm};
use columns::OffsetWidth;
use fast_float::Numeral;
use json::Token;
use std::alloc::AllocError;

// Returns the integer that digits without a sign spell; `None` if no 64 bits hold it.
fn unsigned(numeral: &Numeral<'_>) -> Option<i128>
    ensures { IfSome result (λ n. integer_after false numeral.now ≡ Some n) }
{
    match numeral.to_u64() {
        Some(number) => Some(number as i128),
        None => None,
    }
}

// Returns the integer that digits after a minus spell; `None` if no 64 bits hold it, or for `-0`, which is a float.
fn negative(numeral: &Numeral<'_>) -> Option<i128>
    ensures { IfSome result (λ n. integer_after true numeral.now ≡ Some n) }
{
    match numeral.to_i64(true) {
        Some(number) => if number < 0 {
            Some(number as i128)
        } else {
            None
        },
        None => None,
    }
}

fn has_minus(bytes: &[u8]) -> bool
    ensures { result ≡ (slice_index bytes.now 0 == 45) }
{
    !bytes.is_empty() && bytes[0] == b'-'
}

// Returns the integer that a number of JSON is; `None` if it is none of 64 bits.
fn integer_of(text: &str) -> Option<i128>
    ensures { IfSome result (λ n. integer_in text.now ≡ Some n) }
{
    let bytes = text.as_bytes();
    if has_minus(bytes) {
        negative(&Numeral::scan(&bytes[1..]))
    } else {
        unsigned(&Numeral::scan(bytes))
    }
}

// Returns the number that the rest of a text from `from` on spells; `None` if that is anything but 1 to 18 digits.
fn digits_from(text: &[u8], from: usize) -> Option<u64>
    ensures { IfSome result (λ number. (from < length text.now) × (number < 2 ^ 63) × AreDigits text.now from (length text.now) number) }
{
    if text.len() <= from {
        return None;
    }
    if text.len() - from > 18 {
        return None;
    }
    let (end, number) = read_digits(text, from);
    if end < text.len() {
        return None;
    }
    Some(number)
}

// Returns the integer that a number without a sign is; `None` if it is none of at most 18 digits.
fn short_unsigned(text: &[u8]) -> Option<i64>
    ensures { IfSome result (λ n. integer_in text.now ≡ Some n) }
{
    let digits = digits_from(text, 0)?;
    let number = digits as i64;
    Some(number)
}

// Returns the integer that a number with a minus is; `None` if it is none of at most 18 digits, or is `-0`.
fn short_negative(text: &[u8]) -> Option<i64>
    requires { slice_index text.now 0 ≡ 45 }
    ensures { IfSome result (λ n. integer_in text.now ≡ Some n) }
{
    let digits = digits_from(text, 1)?;
    if digits == 0 {
        return None;
    }
    let number = -(digits as i64);
    Some(number)
}

fn short_integer(text: &[u8]) -> Option<i64>
    ensures { IfSome result (λ n. integer_in text.now ≡ Some n) }
{
    if has_minus(text) {
        short_negative(text)
    } else {
        short_unsigned(text)
    }
}

// Appends the bytes of the integer that a number of any length is. Returns false if the type does not hold it.
fn push_any_integer(
    values: &mut Vec<u8>,
    integer: IntegerType,
    text: &str,
) -> Result<bool, AllocError>
    ensures { IfOk result (λ pushed. pushed ≡ true → TakesNumber integer text.now values.old.items values.new.items) }
{
    match integer_of(text) {
        Some(number) => push_number(values, integer, number),
        None => Ok(false),
    }
}

// Appends the bytes of the integer that a number is. Returns false if the type does not hold it. At most 18 digits are read once.
fn push_integer_of(
    values: &mut Vec<u8>,
    integer: IntegerType,
    text: &str,
) -> Result<bool, AllocError>
    ensures { IfOk result (λ pushed. pushed ≡ true → TakesNumber integer text.now values.old.items values.new.items) }
{
    match short_integer(text.as_bytes()) {
        Some(number) => push_small(values, integer, number),
        None => push_any_integer(values, integer, text),
    }
}

// Appends the integer that a number is, and returns its weight; `None` if the token is no number, or the type does not hold it.
fn push_number_token(
    values: &mut Vec<u8>,
    integer: IntegerType,
    token: Token<'_>,
) -> Result<Option<u64>, AllocError>
    ensures { IfOk result (λ taken. IfSome taken (λ weight. (weight ≡ 1)
        × AppendsNumber integer (token_of token.entry) values.old.items values.new.items)) }
{
    let Token::Number(text) = token else {
        return Ok(None);
    };
    if push_integer_of(values, integer, text)? {
        Ok(Some(1))
    } else {
        Ok(None)
    }
}

// Appends the number that the text of a date or a time states, and returns its weight; `None` if the token is no such text, or the type does not hold it.
fn push_date_token(
    values: &mut Vec<u8>,
    integer: IntegerType,
    column: DateColumn,
    token: Token<'_>,
) -> Result<Option<u64>, AllocError>
    ensures { IfOk result (λ taken. IfSome taken (λ weight. (weight ≡ 1)
        × AppendsDate column integer (token_of token.entry) values.old.items values.new.items)) }
{
    let Token::String(text) = token else {
        return Ok(None);
    };
    push_date(values, integer, column, text.as_bytes())
}

// Appends the integer that a token is, and returns its weight; `None` if it is none, or the type does not hold it. It is a number, unless `dates` says which
// dates or times the texts are.
fn push_integer(
    values: &mut Vec<u8>,
    integer: IntegerType,
    dates: Option<DateColumn>,
    token: Token<'_>,
) -> Result<Option<u64>, AllocError>
    ensures { IfOk result (λ taken. IfSome taken (λ weight. (weight ≡ 1)
        × AppendsCounted dates integer (token_of token.entry) values.old.items values.new.items)) }
{
    match dates {
        None => push_number_token(values, integer, token),
        Some(column) => push_date_token(values, integer, column, token),
    }
}

// Appends the boolean that a token is, and returns its weight; `None` if it is none.
fn push_boolean(bits: &mut Vec<bool>, token: Token<'_>) -> Result<Option<u64>, AllocError>
    ensures { IfOk result (λ taken. IfSome taken (λ weight. (weight ≡ 1) × AppendsBit (token_of token.entry) bits.old.items bits.new.items)) }
{
    let Token::Bool(bit) = token else {
        return Ok(None);
    };
    bits.push(bit)?;
    Ok(Some(1))
}

// Appends the string that a token is and where it ends, and returns its weight; `None` if it is none.
fn push_text(
    offsets: &mut Vec<u8>,
    contents: &mut Vec<u8>,
    width: OffsetWidth,
    token: Token<'_>,
) -> Result<Option<u64>, AllocError>
    ensures { IfOk result (λ taken. IfSome taken (λ weight.
        AppendsString width (token_of token.entry) weight offsets.old.items contents.old.items offsets.new.items contents.new.items)) }
{
    let Token::String(text) = token else {
        return Ok(None);
    };
    push_utf8(offsets, contents, width, text.as_bytes())
}

// Appends the binary that the digits of a token spell and where it ends, and returns its weight; `None` if they spell none.
fn push_binary(
    offsets: &mut Vec<u8>,
    contents: &mut Vec<u8>,
    width: OffsetWidth,
    token: Token<'_>,
) -> Result<Option<u64>, AllocError>
    ensures { IfOk result (λ taken. IfSome taken (λ weight.
        AppendsBinary width (token_of token.entry) weight offsets.old.items contents.old.items offsets.new.items contents.new.items)) }
{
    let Token::String(digits) = token else {
        return Ok(None);
    };
    push_bytes(offsets, contents, width, digits.as_bytes())
}

// Appends the binary of `width` bytes that the digits of a token spell, and returns its weight; `None` if they spell none.
fn push_fixed_binary(
    values: &mut Vec<u8>,
    width: u32,
    token: Token<'_>,
) -> Result<Option<u64>, AllocError>
    ensures { IfOk result (λ taken. IfSome taken (λ weight. AppendsFixedBinary width (token_of token.entry) weight values.old.items values.new.items)) }
{
    let Token::String(digits) = token else {
        return Ok(None);
    };
    push_fixed(values, width, digits.as_bytes())
}

impl ColumnValues {
    /// Appends the cell that a token is, and returns its weight; `None` if it is none of the type, or a null.
    pub(crate) fn push_token(
        &mut self,
        date_form: DateForm,
        token: Token<'_>,
    ) -> Result<Option<u64>, AllocError>
        ensures { IfOk result (λ taken. IfSome taken (λ weight. TakesToken date_form (token_of token.entry) weight self.old self.new)) }
    {
        match self {
            ColumnValues::Nulls => Ok(None),
            ColumnValues::Booleans(bits) => push_boolean(bits, token),
            ColumnValues::Integers(integer, counted, values) => {
                push_integer(values, *integer, dates_in(date_form, *counted), token)
            }
            ColumnValues::Texts(width, offsets, contents) => push_text(
                offsets, contents, *width, token,
            ),
            ColumnValues::Binaries(width, offsets, contents) => {
                push_binary(offsets, contents, *width, token)
            }
            ColumnValues::FixedBinaries(width, values) => push_fixed_binary(values, *width, token),
        }
    }
}

impl Coding {
    // Appends the index of the string that a token is, and returns its weight; `None` if it is none, or no index can name it. The string is looked up in place,
    // without a copy.
    fn push_string(
        &mut self,
        entries: &mut ColumnValues,
        token: Token<'_>,
    ) -> Result<Option<u64>, AllocError>
        requires { has_texts entries.old ≡ true }
        ensures { (date_form : DateForm) → IfOk result (λ taken. IfSome taken (λ weight. TakesCodedToken date_form (token_of token.entry) weight self.old entries.old self.new entries.new)) }
    {
        let Token::String(text) = token else {
            return Ok(None);
        };
        self.push_utf8(entries, text.as_bytes())
    }

    // Appends the index of the value that a token is, and returns its weight; `None` if it is none of the type, or a null, or no index can name it.
    fn push_token(
        &mut self,
        entries: &mut ColumnValues,
        date_form: DateForm,
        token: Token<'_>,
    ) -> Result<Option<u64>, AllocError>
        ensures { IfOk result (λ taken. IfSome taken (λ weight. TakesCodedToken date_form (token_of token.entry) weight self.old entries.old self.new entries.new)) }
    {
        if entries.has_texts() {
            return self.push_string(entries, token);
        }
        self.one.clear()?;
        let Some(weight) = self.one.push_token(date_form, token)? else {
            return Ok(None);
        };
        if self.code(entries)? {
            Ok(Some(weight))
        } else {
            Ok(None)
        }
    }
}

// Appends the cell that a token is, or its index, and returns its weight; `None` if it is none of the type, or a null, or no index can name it.
fn push_token(
    values: &mut ColumnValues,
    coding: &mut Option<Coding>,
    date_form: DateForm,
    token: Token<'_>,
) -> Result<Option<u64>, AllocError>
    ensures { IfOk result (λ taken. IfSome taken (λ weight.
        TakesCellToken date_form (token_of token.entry) weight values.old coding.old values.new coding.new)) }
{
    match coding {
        None => values.push_token(date_form, token),
        Some(coding) => coding.push_token(values, date_form, token),
    }
}

impl FlatBuilder {
    ghost use Rattle.text_columns.specs.inner.Lines.{KeepsToken};

    // Appends the cell of a token that is no null, and returns its weight; `None` if it is no cell of the column.
    fn push_there(
        &mut self,
        date_form: DateForm,
        token: Token<'_>,
    ) -> Result<Option<u64>, AllocError>
        ensures { IfOk result (λ taken. IfSome taken (λ weight. KeepsToken date_form (token_of token.entry) weight (Flat self.old) (Flat self.new))) }
    {
        let taken = push_token(&mut self.values, &mut self.coding, date_form, token)?;
        self.valid.push(true)?;
        Ok(taken)
    }

    /// Appends the cell that a token is, and returns its weight; `None` if it is no cell of the column.
    pub(crate) fn push_token(
        &mut self,
        date_form: DateForm,
        token: Token<'_>,
    ) -> Result<Option<u64>, AllocError>
        ensures { IfOk result (λ taken. IfSome taken (λ weight. KeepsToken date_form (token_of token.entry) weight (Flat self.old) (Flat self.new))) }
    {
        match token {
            Token::Null => self.push_null(),
            _ => self.push_there(date_form, token),
        }
    }
}
