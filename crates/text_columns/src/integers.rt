// Integers as bytes.
ghost use Rattle.std.specs.Prelude.{◌≡◌, ◌/◌, ◌++◌, ℕ, List, Some, true, false, IfOk, IfSome};
ghost use Rattle.arrow_schema.specs.View.{bits_of};
ghost use Rattle.cells.specs.Typed.{typed_integer};
ghost use Rattle.text_columns.specs.inner.Kept.{AppendsInteger, AppendsSpelled};

use crate::short_integers::ShortInteger;
use arrow_schema::{BitWidth, IntegerType};
use std::alloc::AllocError;
use text_import::spelled_integer;

// Appends the bytes of a number as an integer without a sign. Returns false if this width does not hold it.
#[inline(always)]
#[tactic(auto, using(crate::proofs::IntegerBytes::unsigned_appended))]
fn push_unsigned(values: &mut Vec<u8>, width: BitWidth, number: i64) -> Result<bool, AllocError>
    ensures { IfOk result (λ pushed. pushed ≡ true → AppendsInteger (bits_of width) false number values.old.items values.new.items) }
{
    match width {
        BitWidth::Eight => match u8::try_from(number) {
            Ok(value) => values.extend_from_slice(&value.to_le_bytes())?,
            Err(_) => return Ok(false),
        },
        BitWidth::Sixteen => match u16::try_from(number) {
            Ok(value) => values.extend_from_slice(&value.to_le_bytes())?,
            Err(_) => return Ok(false),
        },
        BitWidth::ThirtyTwo => match u32::try_from(number) {
            Ok(value) => values.extend_from_slice(&value.to_le_bytes())?,
            Err(_) => return Ok(false),
        },
        BitWidth::SixtyFour => match u64::try_from(number) {
            Ok(value) => values.extend_from_slice(&value.to_le_bytes())?,
            Err(_) => return Ok(false),
        },
    }
    Ok(true)
}

// Appends the bytes of a number as an integer with a sign. Returns false if this width does not hold it.
#[inline(always)]
#[tactic(auto, using(crate::proofs::IntegerBytes::signed_appended))]
fn push_signed(values: &mut Vec<u8>, width: BitWidth, number: i64) -> Result<bool, AllocError>
    ensures { IfOk result (λ pushed. pushed ≡ true → AppendsInteger (bits_of width) true number values.old.items values.new.items) }
{
    match width {
        BitWidth::Eight => match i8::try_from(number) {
            Ok(value) => values.extend_from_slice(&value.to_le_bytes())?,
            Err(_) => return Ok(false),
        },
        BitWidth::Sixteen => match i16::try_from(number) {
            Ok(value) => values.extend_from_slice(&value.to_le_bytes())?,
            Err(_) => return Ok(false),
        },
        BitWidth::ThirtyTwo => match i32::try_from(number) {
            Ok(value) => values.extend_from_slice(&value.to_le_bytes())?,
            Err(_) => return Ok(false),
        },
        BitWidth::SixtyFour => values.extend_from_slice(&number.to_le_bytes())?,
    }
    Ok(true)
}

/// Appends the bytes of a number of 64 bits. Returns false if the type does not hold it.
#[inline(always)]
pub(crate) fn push_small(
    values: &mut Vec<u8>,
    integer: IntegerType,
    number: i64,
) -> Result<bool, AllocError>
    ensures { IfOk result (λ pushed. pushed ≡ true → AppendsInteger (bits_of integer.width) integer.signed number values.old.items values.new.items) }
{
    if integer.signed {
        push_signed(values, integer.width, number)
    } else {
        push_unsigned(values, integer.width, number)
    }
}

// Appends the bytes of a number that no `i64` holds. Returns false if the type does not hold it.
#[tactic(auto, using(crate::proofs::IntegerBytes::unsigned_appended))]
fn push_large(values: &mut Vec<u8>, integer: IntegerType, number: i128) -> Result<bool, AllocError>
    ensures { IfOk result (λ pushed. pushed ≡ true → AppendsInteger (bits_of integer.width) integer.signed number values.old.items values.new.items) }
{
    if integer.signed {
        return Ok(false);
    }
    match integer.width {
        BitWidth::SixtyFour => match u64::try_from(number) {
            Ok(value) => values.extend_from_slice(&value.to_le_bytes())?,
            Err(_) => return Ok(false),
        },
        _ => return Ok(false),
    }
    Ok(true)
}

/// Appends the bytes of a number of any size. Returns false if the type does not hold it.
pub(crate) fn push_number(
    values: &mut Vec<u8>,
    integer: IntegerType,
    number: i128,
) -> Result<bool, AllocError>
    ensures { IfOk result (λ pushed. pushed ≡ true → AppendsInteger (bits_of integer.width) integer.signed number values.old.items values.new.items) }
{
    match i64::try_from(number) {
        Ok(small) => push_small(values, integer, small),
        Err(_) => push_large(values, integer, number),
    }
}

/// Appends the bytes of the integer that a field spells, and returns its weight; `None` if it spells none, or the type does not hold it.
pub(crate) fn push_integer(
    values: &mut Vec<u8>,
    integer: IntegerType,
    text: &[u8],
) -> Result<Option<u64>, AllocError>
    ensures { IfOk result (λ taken. IfSome taken (λ weight. (weight ≡ 1)
        × AppendsSpelled (bits_of integer.width) integer.signed text.now values.old.items values.new.items)) }
{
    let Some(number) = spelled_integer(text) else {
        return Ok(None);
    };
    if push_number(values, integer, number)? {
        Ok(Some(1))
    } else {
        Ok(None)
    }
}

/// Appends the bytes of a short integer, and returns its weight; `None` if the type does not hold it.
pub(crate) fn push_short(
    values: &mut Vec<u8>,
    integer: IntegerType,
    short: ShortInteger,
) -> Result<Option<u64>, AllocError>
    ensures { (text : List ℕ) → typed_integer text ≡ Some short.number → IfOk result (λ taken. IfSome taken (λ weight. (weight ≡ 1)
        × AppendsSpelled (bits_of integer.width) integer.signed text values.old.items values.new.items)) }
{
    if push_small(values, integer, short.number)? {
        Ok(Some(1))
    } else {
        Ok(None)
    }
}
