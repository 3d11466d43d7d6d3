// What is said of the field of the table that a refused part is for.
ghost use Rattle.std.specs.Prelude.{◌≡◌, ◌-◌, ◌^◌, map, option_map, string_bytes, IfOk, Some};
ghost use Rattle.arrow_schema.specs.Parts.{kind_of_column};
ghost use Rattle.arrow_schema.specs.View.{bits_of, column_of, kind_of, schema_of};
ghost use Rattle.text_import.specs.Part.{part_of};
ghost use Rattle.cli_reports.specs.AboutPart.{greatest, range_text, integers_of, about_range, about_type, about_text, about_column, about_part};

use crate::shown::shown;
use arrow_schema::{BitWidth, DataType, DateUnit, Field, Schema};
use field_texts::field_text;
use std::alloc::{AllocError, Global};
use text_import::{Refusal, RefusedPart, field_of_part};

// Returns how many integers of a signed type are negative.
fn negatives_of(width: BitWidth) -> u64
    ensures { result ≡ 2 ^ (bits_of width - 1) }
{
    match width {
        BitWidth::Eight => 0x80,
        BitWidth::Sixteen => 0x8000,
        BitWidth::ThirtyTwo => 0x8000_0000,
        BitWidth::SixtyFour => 0x8000_0000_0000_0000,
    }
}

fn greatest_of(width: BitWidth, signed: bool) -> u64
    ensures { result ≡ greatest (bits_of width) signed }
{
    match (width, signed) {
        (BitWidth::Eight, true) => 0x7f,
        (BitWidth::Eight, false) => 0xff,
        (BitWidth::Sixteen, true) => 0x7fff,
        (BitWidth::Sixteen, false) => 0xffff,
        (BitWidth::ThirtyTwo, true) => 0x7fff_ffff,
        (BitWidth::ThirtyTwo, false) => 0xffff_ffff,
        (BitWidth::SixtyFour, true) => 0x7fff_ffff_ffff_ffff,
        (BitWidth::SixtyFour, false) => 0xffff_ffff_ffff_ffff,
    }
}

fn range_text(alloc: Global, width: BitWidth, signed: bool) -> Result<String, AllocError>
    ensures { IfOk result (λ text. string_bytes text ≡ range_text (bits_of width) signed) }
{
    let greatest = greatest_of(width, signed);
    if signed {
        let negatives = negatives_of(width);
        format!(in alloc; "-{negatives} to {greatest}")
    } else {
        format!(in alloc; "0 to {greatest}")
    }
}

// Returns the width of the integers of a type, and whether they are signed.
fn integers_of(data_type: &DataType) -> Option<(BitWidth, bool)>
    ensures { option_map (λ i. (bits_of i.0, i.1)) result ≡ integers_of (kind_of data_type.now) }
{
    match data_type {
        DataType::Int(integer) => Some((integer.width, integer.signed)),
        DataType::Date(DateUnit::Day) => Some((BitWidth::ThirtyTwo, true)),
        DataType::Date(DateUnit::Millisecond) | DataType::Timestamp(_, _) => {
            Some((BitWidth::SixtyFour, true))
        }
        _ => None,
    }
}

fn about_range(
    alloc: Global,
    text: &str,
    integers: Option<(BitWidth, bool)>,
) -> Result<String, AllocError>
    ensures { IfOk result (λ about. string_bytes about ≡ about_range text.now (option_map (λ i. (bits_of i.0, i.1)) integers)) }
{
    match integers {
        Some((width, signed)) => {
            let range = range_text(alloc, width, signed)?;
            format!(in alloc; "`{text}` holds {range}. ")
        }
        None => Ok(String::new(alloc)),
    }
}

fn about_type(alloc: Global, text: &str) -> Result<String, AllocError>
    ensures { IfOk result (λ about. string_bytes about ≡ about_type text.now) }
{
    format!(in alloc; "The table has `{text}` there. ")
}

fn about_text(
    alloc: Global,
    text: Option<&str>,
    data_type: &DataType,
    refusal: Refusal,
) -> Result<String, AllocError>
    ensures { IfOk result (λ about. string_bytes about ≡ about_text (kind_of data_type.now) refusal (option_map (λ t. t.now) text.entry)) }
{
    match (text, refusal) {
        (Some(text), Refusal::OutOfRange) => about_range(alloc, text, integers_of(data_type)),
        (
            Some(text),
            Refusal::FixedWidth
            | Refusal::NullMismatch
            | Refusal::WrongKind
            | Refusal::NotADate
            | Refusal::WrongOffset,
        ) => about_type(alloc, text),
        _ => Ok(String::new(alloc)),
    }
}

fn about_field(alloc: Global, field: &Field, refusal: Refusal) -> Result<String, AllocError>
    ensures { IfOk result (λ about. string_bytes about ≡ about_column refusal (Some (column_of field.now))) }
{
    let text = field_text(alloc, field)?;
    about_text(alloc, shown(text.as_bytes()), &field.data_type, refusal)
}

/// Returns what is to be said of the field of the table that a refused part is for, in a sentence with a space after it: its range, or its type. Nothing,
/// if this is not why the part is refused, or if a terminal may not be shown the field.
///
/// # Errors
/// `AllocError` if memory is refused.
pub fn about_part(
    alloc: Global,
    schema: &Schema,
    part: &RefusedPart,
    refusal: Refusal,
) -> Result<String, AllocError>
    ensures { IfOk result (λ about. string_bytes about ≡ about_part (schema_of schema.now).columns (part_of part.now) refusal) }
{
    match field_of_part(schema, part) {
        Some(field) => about_field(alloc, field, refusal),
        None => Ok(String::new(alloc)),
    }
}
