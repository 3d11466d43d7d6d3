// Short integers, read in place.
ghost use Rattle.std.specs.Prelude.{◌≡◌, ◌+◌, ◌≤◌, ◌<◌, true, Some, length, drop, slice_index, IfOk, IfSome};
ghost use Rattle.cells.specs.Typed.{typed_integer};
ghost use Rattle.text_columns.specs.declared.builder.ColumnBuilder.{Flat};
ghost use Rattle.text_columns.specs.inner.Kept.{KeepsField};
ghost use Rattle.text_columns.specs.inner.Plain.{AreDigits, IsShortInteger, begins_with, ends_field};
ghost use Rattle.text_import.specs.FieldForm.{field_form};

use crate::builder::ColumnBuilder;
use crate::coding;
use crate::column_values::ColumnValues;
use crate::dates::dates_in;
use crate::flat::FlatBuilder;
use crate::plain::ends_field;
use civil_days::DateForm;
use std::alloc::AllocError;
use text_import::FieldForm;

/// An integer of at most 18 digits, and where its field ends.
#[derive(Clone, Copy)]
pub(crate) struct ShortInteger {
    pub(crate) end: usize,
    pub(crate) number: i64,
}

// Returns where the digits from `from` on end, at the latest at `limit`, and the number that they spell. Those before `at` spell `read`.
#[inline(never)]
fn read_on(text: &[u8], from: usize, at: usize, read: u64, limit: usize) -> (usize, u64)
    requires read { AreDigits text.now from at read }
    requires low { at ≤ limit }
    requires high { limit ≤ length text.now }
    requires few { limit ≤ from + 18 }
    ensures digits { AreDigits text.now from result.0 result.1 }
    ensures few { result.0 ≤ from + 18 }
{
    let mut number = read;
    for i in at..limit {
        if !text[i].is_ascii_digit() {
            return (i, number);
        }
        number = number * 10 + u64::from(text[i] - b'0');
    }
    (limit, number)
}

// Returns where the digits from `from` on end, at the latest after ten, which numbers of 32 bits have at most, and the number that they spell. The compiler
// unrolls a loop of so many rounds, without a count or a test for the limit.
fn read_ten(text: &[u8], from: usize) -> (usize, u64)
    requires { from + 10 ≤ length text.now }
    ensures digits { AreDigits text.now from result.0 result.1 }
    ensures few { result.0 ≤ from + 10 }
{
    let mut number = 0;
    for k in 0..10 {
        let byte = text[from + k];
        if !byte.is_ascii_digit() {
            return (from + k, number);
        }
        number = number * 10 + u64::from(byte - b'0');
    }
    (from + 10, number)
}

// Returns where the last of 18 digits from `from` on can end.
fn digits_limit(text: &[u8], from: usize) -> usize
    requires { from ≤ length text.now }
    ensures many { from + 10 ≤ length text.now → from + 10 ≤ result }
    ensures high { result ≤ length text.now }
    ensures few { result ≤ from + 18 }
{
    if text.len() - from > 18 {
        from + 18
    } else {
        text.len()
    }
}

/// Returns where the digits from `from` on end, at the latest after 18, and the number that they spell.
pub(crate) fn read_digits(text: &[u8], from: usize) -> (usize, u64)
    requires { from ≤ length text.now }
    ensures digits { AreDigits text.now from result.0 result.1 }
    ensures few { result.0 ≤ from + 18 }
{
    if text.len() - from < 10 {
        return read_on(text, from, from, 0, text.len());
    }
    let (end, number) = read_ten(text, from);
    if end < from + 10 {
        return (end, number);
    }
    read_on(text, from, end, number, digits_limit(text, from))
}

fn has_minus(text: &[u8], at: usize) -> bool
    requires { at ≤ length text.now }
    ensures { result ≡ begins_with 45 (drop at text.now) }
{
    at < text.len() && text[at] == b'-'
}

// Returns whether a field ends at `at`.
fn ends_at(text: &[u8], at: usize) -> bool
    requires { at ≤ length text.now }
    ensures { result ≡ true → at < length text.now → ends_field (slice_index text.now at) ≡ true }
{
    at == text.len() || ends_field(text[at])
}

// Returns the integer without a sign at `from`; `None` if the field is none of at most 18 digits.
fn unsigned(text: &[u8], from: usize) -> Option<ShortInteger>
    requires { from ≤ length text.now }
    ensures { IfSome result (IsShortInteger text.now from) }
{
    let (end, number) = read_digits(text, from);
    if end == from || !ends_at(text, end) {
        return None;
    }
    let number = number as i64;
    Some(ShortInteger { end, number })
}

// Returns the integer with a minus at `from`; `None` if the field is none of at most 18 digits.
fn negative(text: &[u8], from: usize) -> Option<ShortInteger>
    requires { begins_with 45 (drop from text.now) ≡ true }
    ensures { IfSome result (IsShortInteger text.now from) }
{
    let first = from + 1;
    let (end, number) = read_digits(text, first);
    if end == first || !ends_at(text, end) {
        return None;
    }
    let number = -(number as i64);
    Some(ShortInteger { end, number })
}

// Returns the integer at `from`; `None` if the field is none of at most 18 digits.
fn short_integer(text: &[u8], from: usize) -> Option<ShortInteger>
    requires { from ≤ length text.now }
    ensures { IfSome result (IsShortInteger text.now from) }
{
    if has_minus(text, from) {
        negative(text, from)
    } else {
        unsigned(text, from)
    }
}

impl FlatBuilder {
    // Returns the short integer at `from`; `None` if the field is none, or the column has no integers, or has a dictionary, or the texts of dates or times.
    fn short_integer(&self, date_form: DateForm, text: &[u8], from: usize) -> Option<ShortInteger>
        requires { from ≤ length text.now }
        ensures { IfSome result (IsShortInteger text.now from) }
    {
        if self.coding.is_some() {
            return None;
        }
        match &self.values {
            ColumnValues::Integers(_, counted, _) => match dates_in(date_form, *counted) {
                None => short_integer(text, from),
                Some(_) => None,
            },
            _ => None,
        }
    }

    // Appends the cell of a field that spells a short integer, and returns its weight; `None` if the field is no cell of the column.
    fn push_short(
        &mut self,
        form: &FieldForm<'_>,
        text: &[u8],
        short: ShortInteger,
    ) -> Result<Option<u64>, AllocError>
        requires { typed_integer text.now ≡ Some short.number }
        ensures { IfOk result (λ taken. IfSome taken (λ weight. KeepsField (field_form form.now) text.now weight (Flat self.old) (Flat self.new))) }
    {
        if self.is_null(form.null_text, text) {
            return self.push_null();
        }
        let Some(weight) = coding::push_short(
            &mut self.values,
            &mut self.coding,
            form.dates,
            short,
        )?
        else {
            return Ok(None);
        };
        self.valid.push(true)?;
        Ok(Some(weight))
    }
}

impl ColumnBuilder {
    /// Returns the short integer at `from`; `None` if the field is none, or the column has no integers, or has a dictionary, or the texts of dates or times.
    pub(crate) fn short_integer(
        &self,
        date_form: DateForm,
        text: &[u8],
        from: usize,
    ) -> Option<ShortInteger>
        requires { from ≤ length text.now }
        ensures { IfSome result (IsShortInteger text.now from) }
    {
        match self {
            ColumnBuilder::Flat(flat) => flat.short_integer(date_form, text, from),
            _ => None,
        }
    }

    /// Appends the cell of a field that spells a short integer, and returns its weight; `None` if the field is no cell of the column.
    pub(crate) fn push_short(
        &mut self,
        form: &FieldForm<'_>,
        text: &[u8],
        short: ShortInteger,
    ) -> Result<Option<u64>, AllocError>
        requires { typed_integer text.now ≡ Some short.number }
        ensures { IfOk result (λ taken. IfSome taken (λ weight. KeepsField (field_form form.now) text.now weight self.old self.new)) }
    {
        match self {
            ColumnBuilder::Flat(flat) => flat.push_short(form, text, short),
            _ => Ok(None),
        }
    }
}
