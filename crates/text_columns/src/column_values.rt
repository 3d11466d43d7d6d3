// The values of one column.
ghost use Rattle.std.specs.Prelude.{◌≡◌, ◌++◌, ◌/◌, ◌∷◌, [], IfOk, IfSome, OnOk, true, replicate};
ghost use Rattle.std.specs.Str.{is_utf8};
ghost use Rattle.arrow_schema.specs.View.{bits_of};
ghost use Rattle.civil_days.specs.declared.date_form.DateForm.{DateForm};
ghost use Rattle.text_columns.specs.inner.Kept.{AppendsBoolean, Clears, HoldContents, TakesKey, TakesNull, TakesSpelled, TakesText, first_key, has_texts, null_weight, value_bytes};

use crate::bytes::{push_bytes, push_fixed};
use crate::dates::{dates_in, push_counted, push_number};
use crate::short_integers::ShortInteger;
use crate::texts::{extend, push_contents, push_utf8};
use arrow_schema::{BitWidth, IntegerType};
use civil_days::{DateColumn, DateForm};
use columns::{OffsetWidth, push_offset};
use std::alloc::AllocError;
use text_import::spelled_boolean;

/// What the cells of a column are written as, apart from the places of nulls: nothing, bits, the bytes of integers or of binaries of one width, or where
/// strings or binaries end and their bytes. Integers may count the days or the units of dates or times.
#[derive(Drop)]
pub(crate) enum ColumnValues {
    Nulls,
    Booleans(Vec<bool>),
    Integers(IntegerType, Option<DateColumn>, Vec<u8>),
    Texts(OffsetWidth, Vec<u8>, Vec<u8>),
    Binaries(OffsetWidth, Vec<u8>, Vec<u8>),
    FixedBinaries(u32, Vec<u8>),
}

// Appends the bytes of the integer 0.
fn push_zeros(values: &mut Vec<u8>, width: BitWidth) -> Result<(), AllocError>
    ensures { OnOk result (values.new.items ≡ values.old.items ++ replicate (bits_of width / 8) 0) }
{
    match width {
        BitWidth::Eight => values.extend_from_slice(&[0; 1]),
        BitWidth::Sixteen => values.extend_from_slice(&[0; 2]),
        BitWidth::ThirtyTwo => values.extend_from_slice(&[0; 4]),
        BitWidth::SixtyFour => values.extend_from_slice(&[0; 8]),
    }
}

// Appends a binary of zeros.
fn push_empty(values: &mut Vec<u8>, width: u32) -> Result<(), AllocError>
    ensures { OnOk result (values.new.items ≡ values.old.items ++ replicate width 0) }
{
    match values.len().checked_add(width as usize) {
        Some(end) => values.resize(end, 0),
        None => Err(AllocError),
    }
}

// Appends the boolean that a field spells, and returns its weight; `None` if it spells none.
fn push_boolean(bits: &mut Vec<bool>, text: &[u8]) -> Result<Option<u64>, AllocError>
    ensures { IfOk result (λ taken. IfSome taken (λ weight. (weight ≡ 1) × AppendsBoolean text.now bits.old.items bits.new.items)) }
{
    match spelled_boolean(text) {
        None => Ok(None),
        Some(value) => {
            bits.push(value)?;
            Ok(Some(1))
        }
    }
}

// Removes all strings or binaries. The offset 0 is before the first one.
fn clear_contents(
    offsets: &mut Vec<u8>,
    contents: &mut Vec<u8>,
    width: OffsetWidth,
) -> Result<(), AllocError>
    ensures { OnOk result (HoldContents width [] offsets.new.items contents.new.items) }
{
    contents.clear();
    offsets.clear();
    push_offset(offsets, width, 0)
}

// Returns the byte for the first of some booleans: 1 if it is true, otherwise 0.
fn bit_key(bits: &[bool]) -> &[u8]
    ensures { result.now ≡ first_key bits.now }
{
    if !bits.is_empty() && bits[0] {
        &[1]
    } else {
        &[0]
    }
}

impl ColumnValues {
    /// Returns the weight of a null: a binary of one width weighs the same if it is null.
    pub(crate) fn null_weight(&self) -> u64
        ensures { result ≡ null_weight self.now }
    {
        match self {
            ColumnValues::FixedBinaries(width, _) => 1 + *width as u64,
            _ => 1,
        }
    }

    /// Returns whether the values are strings.
    pub(crate) fn has_texts(&self) -> bool
        ensures { result ≡ has_texts self.now }
    {
        match self {
            ColumnValues::Texts(_, _, _) => true,
            _ => false,
        }
    }

    /// Appends a null: zeros, or no bytes.
    pub(crate) fn push_null(&mut self) -> Result<(), AllocError>
        ensures { OnOk result (TakesNull self.old self.new) }
    {
        match self {
            ColumnValues::Nulls => {}
            ColumnValues::Booleans(bits) => bits.push(false)?,
            ColumnValues::Integers(integer, _, values) => push_zeros(values, integer.width)?,
            ColumnValues::Texts(width, offsets, contents) => {
                push_offset(offsets, *width, contents.len() as u64)?;
            }
            ColumnValues::Binaries(width, offsets, contents) => {
                push_offset(offsets, *width, contents.len() as u64)?;
            }
            ColumnValues::FixedBinaries(width, values) => push_empty(values, *width)?,
        }
        Ok(())
    }

    /// Removes all cells. The type stays.
    pub(crate) fn clear(&mut self) -> Result<(), AllocError>
        ensures { OnOk result (Clears self.old self.new) }
    {
        match self {
            ColumnValues::Nulls => {}
            ColumnValues::Booleans(bits) => bits.clear(),
            ColumnValues::Integers(_, _, values) => values.clear(),
            ColumnValues::Texts(width, offsets, contents) => {
                clear_contents(offsets, contents, *width)?;
            }
            ColumnValues::Binaries(width, offsets, contents) => {
                clear_contents(offsets, contents, *width)?;
            }
            ColumnValues::FixedBinaries(_, values) => values.clear(),
        }
        Ok(())
    }

    /// Returns the bytes of the only cell, by which it is looked up.
    pub(crate) fn key(&self) -> &[u8]
        ensures { result.now ≡ value_bytes self.now }
    {
        match self {
            ColumnValues::Nulls => &[],
            ColumnValues::Booleans(bits) => bit_key(bits),
            ColumnValues::Integers(_, _, values) => values,
            ColumnValues::Texts(_, _, contents) => contents,
            ColumnValues::Binaries(_, _, contents) => contents,
            ColumnValues::FixedBinaries(_, values) => values,
        }
    }

    /// Appends the cell with the bytes `key`.
    pub(crate) fn push_key(&mut self, key: &[u8]) -> Result<(), AllocError>
        ensures { OnOk result (TakesKey key.now self.old self.new) }
    {
        match self {
            ColumnValues::Nulls => {}
            ColumnValues::Booleans(bits) => bits.push(key == [1].as_slice())?,
            ColumnValues::Integers(_, _, values) => values.extend_from_slice(key)?,
            ColumnValues::Texts(width, offsets, contents) => extend(
                offsets, contents, *width, key,
            )?,
            ColumnValues::Binaries(width, offsets, contents) => extend(
                offsets, contents, *width, key,
            )?,
            ColumnValues::FixedBinaries(_, values) => values.extend_from_slice(key)?,
        }
        Ok(())
    }

    /// Appends the cell that a field spells, and returns its weight; `None` if it is none of the type.
    #[inline(always)]
    pub(crate) fn push_text(
        &mut self,
        date_form: DateForm,
        text: &[u8],
    ) -> Result<Option<u64>, AllocError>
        ensures { IfOk result (λ taken. IfSome taken (λ weight. TakesText date_form text.now weight self.old self.new)) }
    {
        match self {
            ColumnValues::Nulls => Ok(None),
            ColumnValues::Booleans(bits) => push_boolean(bits, text),
            ColumnValues::Integers(integer, counted, values) => {
                push_counted(values, *integer, dates_in(date_form, *counted), text)
            }
            ColumnValues::Texts(width, offsets, contents) => {
                push_contents(offsets, contents, *width, text)
            }
            ColumnValues::Binaries(width, offsets, contents) => {
                push_bytes(offsets, contents, *width, text)
            }
            ColumnValues::FixedBinaries(width, values) => push_fixed(values, *width, text),
        }
    }

    /// Appends an integer, and returns its weight; `None` if the type does not hold it, or its texts are those of dates or times.
    pub(crate) fn push_short(
        &mut self,
        date_form: DateForm,
        short: ShortInteger,
    ) -> Result<Option<u64>, AllocError>
        ensures { TakesSpelled date_form short.number result self.old self.new }
    {
        match self {
            ColumnValues::Integers(integer, counted, values) => {
                push_number(values, *integer, dates_in(date_form, *counted), short)
            }
            _ => Ok(None),
        }
    }

    /// Appends a string of UTF-8, and returns its weight; `None` if the type has no strings.
    pub(crate) fn push_utf8(&mut self, text: &[u8]) -> Result<Option<u64>, AllocError>
        requires { is_utf8 text.now ≡ true }
        ensures { (date_form : DateForm) → IfOk result (λ taken. IfSome taken (λ weight. TakesText date_form text.now weight self.old self.new)) }
    {
        match self {
            ColumnValues::Texts(width, offsets, contents) => push_utf8(
                offsets, contents, *width, text,
            ),
            _ => Ok(None),
        }
    }
}
