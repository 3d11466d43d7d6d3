// Prints field texts, as `schema` prints them and as they are typed in.
ghost use Rattle.std.specs.Prelude.{◌≡◌, ◌++◌, IfOk, OnOk, string_bytes, map, option_map, codes};
ghost use Rattle.json.specs.Print.{quoted};
ghost use Rattle.arrow_schema.specs.Column.{columns_of};
ghost use Rattle.arrow_schema.specs.View.{kind_of, column_of, index_of};
ghost use Rattle.arrow_schema.specs.declared.types.Field.{out-Field};
ghost use Rattle.field_texts.specs.Keywords.{number_text, keyword_text};
ghost use Rattle.field_texts.specs.inner.Printed.{front_text, rest_text, bare_text, style_of};
ghost use Rattle.field_texts.specs.FieldText.{plain, printed, timezone_text, dictionary_text, with_dictionary, type_text, field_text, item_text, fields_text};

use crate::keyword::Keyword;
use arrow_schema::{DataType, DictSpec, Field};
use serde_json::Value;
use std::alloc::{AllocError, Global};
use std::fmt::Write;

// How names and timezones are written.
#[derive(Clone, Copy)]
pub(crate) enum Form {
    // As JSON strings, of items too.
    Printed,
    // As they are; items without their names.
    Typed,
}

// Appends a part as a JSON string.
fn push_json(alloc: Global, text: &mut String, part: &str) -> Result<(), AllocError>
    ensures { OnOk result (string_bytes text.new ≡ string_bytes text.old ++ quoted part.now) }
{
    let json = Value::try_from_str(alloc, part)?.to_string(alloc)?;
    text.push_str(json.as_str())
}

/// Returns the text that `schema` prints: names, the names of items, and timezones are JSON strings. Pairs are not printed.
///
/// # Errors
/// `AllocError` if memory was refused.
pub fn field_text(alloc: Global, field: &Field) -> Result<String, AllocError>
    ensures { IfOk result (λ text. string_bytes text ≡ field_text printed (column_of field.now)) }
{
    let mut text = String::new(alloc);
    push_field(alloc, &mut text, field, Form::Printed)?;
    Ok(text)
}

// Returns the text by which a field is typed in, if it can be.
pub(crate) fn typed_form(alloc: Global, field: &Field) -> Result<String, AllocError>
    ensures { IfOk result (λ text. string_bytes text ≡ field_text plain (column_of field.now)) }
{
    let mut text = String::new(alloc);
    push_field(alloc, &mut text, field, Form::Typed)?;
    Ok(text)
}

#[tactic(auto, using(crate::proofs::Numerals::decimal_is))]
fn push_number(text: &mut String, number: u32) -> Result<(), AllocError>
    ensures { OnOk result (string_bytes text.new ≡ string_bytes text.old ++ number_text number) }
{
    write!(text, "{number}")
}

// Returns the keyword at the start of a type.
#[tactic(auto, unfolding(crate::specs::Keywords::keyword_text))]
fn keyword_of(data_type: &DataType) -> Keyword
    ensures { keyword_text result ≡ front_text (kind_of data_type.now) }
{
    match data_type {
        DataType::Null => Keyword::Null,
        DataType::Bool => Keyword::Bool,
        DataType::Int(integer) => Keyword::Int(*integer),
        DataType::Date(unit) => Keyword::Date(*unit),
        DataType::Timestamp(unit, _) => Keyword::Timestamp(*unit),
        DataType::Utf8 => Keyword::Utf8,
        DataType::LargeUtf8 => Keyword::LargeUtf8,
        DataType::Binary => Keyword::Binary,
        DataType::LargeBinary => Keyword::LargeBinary,
        DataType::FixedSizeBinary(_) => Keyword::FixedBinary,
        DataType::List(_) => Keyword::List,
        DataType::LargeList(_) => Keyword::LargeList,
        DataType::FixedSizeList(_, _) => Keyword::FixedList,
        DataType::Struct(_) => Keyword::Struct,
    }
}

// Appends the text before the type of a dictionary's values.
#[tactic(auto, unfolding(crate::specs::Keywords::keyword_text))]
fn push_dictionary(text: &mut String, dictionary: DictSpec) -> Result<(), AllocError>
    ensures { OnOk result (string_bytes text.new ≡ string_bytes text.old ++ dictionary_text (index_of dictionary)) }
{
    text.push_str(Keyword::Dictionary.text())?;
    text.push_str(Keyword::Int(dictionary.index).text())?;
    text.push_str(",")
}

fn push_zone_name(
    alloc: Global,
    text: &mut String,
    timezone: &str,
    form: Form,
) -> Result<(), AllocError>
    ensures { OnOk result (string_bytes text.new ≡ string_bytes text.old ++ (style_of form).timezone timezone.now) }
{
    match form {
        Form::Printed => push_json(alloc, text, timezone),
        Form::Typed => text.push_str(timezone),
    }
}

// Appends a timezone in parentheses, if there is one.
fn push_timezone(
    alloc: Global,
    text: &mut String,
    timezone: &str,
    form: Form,
) -> Result<(), AllocError>
    ensures { OnOk result (string_bytes text.new ≡ string_bytes text.old ++ timezone_text (style_of form) timezone.now) }
{
    if timezone.is_empty() {
        return Ok(());
    }
    text.push_str("(")?;
    push_zone_name(alloc, text, timezone, form)?;
    text.push_str(")")
}

fn push_name(alloc: Global, text: &mut String, name: &str, form: Form) -> Result<(), AllocError>
    ensures { OnOk result (string_bytes text.new ≡ string_bytes text.old ++ (style_of form).field name.now) }
{
    match form {
        Form::Printed => push_json(alloc, text, name)?,
        Form::Typed => text.push_str(name)?,
    }
    text.push_str(":")
}

fn push_item_name(
    alloc: Global,
    text: &mut String,
    name: &str,
    form: Form,
) -> Result<(), AllocError>
    ensures { OnOk result (string_bytes text.new ≡ string_bytes text.old ++ (style_of form).item name.now) }
{
    match form {
        Form::Printed => push_name(alloc, text, name, form),
        Form::Typed => Ok(()),
    }
}

// Appends the name of a field, and its type.
#[tactic(auto, unfolding(crate::specs::FieldText::field_text))]
#[cycle(print)]
fn push_field(alloc: Global, text: &mut String, field: &Field, form: Form) -> Result<(), AllocError>
    ensures { OnOk result (string_bytes text.new ≡ string_bytes text.old ++ field_text (style_of form) (column_of field.now)) }
{
    push_name(alloc, text, field.name.as_str(), form)?;
    push_bare(alloc, text, field, form)
}

// Appends the type of a field or an item, and the mark of a nullable one.
#[cycle(print)]
fn push_bare(alloc: Global, text: &mut String, field: &Field, form: Form) -> Result<(), AllocError>
    ensures { OnOk result (string_bytes text.new ≡ string_bytes text.old ++ bare_text (style_of form) (column_of field.now)) }
{
    push_with_dictionary(alloc, text, field, form)?;
    if field.nullable {
        return text.push_str("?");
    }
    Ok(())
}

#[cycle(print)]
fn push_with_dictionary(
    alloc: Global,
    text: &mut String,
    field: &Field,
    form: Form,
) -> Result<(), AllocError>
    ensures { OnOk result (string_bytes text.new ≡ string_bytes text.old
        ++ with_dictionary (option_map index_of (out-Field field.now).dictionary) (type_text (style_of form) (kind_of (out-Field field.now).data_type))) }
{
    match field.dictionary {
        None => push_type(alloc, text, &field.data_type, form),
        Some(dictionary) => {
            push_dictionary(text, dictionary)?;
            push_type(alloc, text, &field.data_type, form)?;
            text.push_str(">")
        }
    }
}

#[cycle(print)]
fn push_type(
    alloc: Global,
    text: &mut String,
    data_type: &DataType,
    form: Form,
) -> Result<(), AllocError>
    ensures { OnOk result (string_bytes text.new ≡ string_bytes text.old ++ type_text (style_of form) (kind_of data_type.now)) }
{
    text.push_str(keyword_of(data_type).text())?;
    push_rest(alloc, text, data_type, form)
}

// Appends the text after the keyword of a type.
#[cycle(print)]
fn push_rest(
    alloc: Global,
    text: &mut String,
    data_type: &DataType,
    form: Form,
) -> Result<(), AllocError>
    ensures { OnOk result (string_bytes text.new ≡ string_bytes text.old ++ rest_text (style_of form) (kind_of data_type.now)) }
{
    match data_type {
        DataType::Timestamp(_, timezone) => push_timezone(alloc, text, timezone.as_str(), form),
        DataType::FixedSizeBinary(width) => {
            push_number(text, *width)?;
            text.push_str(")")
        }
        DataType::List(item) => push_list_item(alloc, text, item, form),
        DataType::LargeList(item) => push_list_item(alloc, text, item, form),
        DataType::FixedSizeList(size, item) => {
            push_number(text, *size)?;
            text.push_str(",")?;
            push_item(alloc, text, item, form)?;
            text.push_str(")")
        }
        DataType::Struct(fields) => {
            push_fields(alloc, text, fields, form)?;
            text.push_str(">")
        }
        _ => Ok(()),
    }
}

// Appends the name of an item, if it is written, and its type.
#[tactic(auto, unfolding(crate::specs::FieldText::item_text))]
#[cycle(print)]
fn push_item(alloc: Global, text: &mut String, item: &Field, form: Form) -> Result<(), AllocError>
    ensures { OnOk result (string_bytes text.new ≡ string_bytes text.old ++ item_text (style_of form) (column_of item.now)) }
{
    push_item_name(alloc, text, item.name.as_str(), form)?;
    push_bare(alloc, text, item, form)
}

// Appends the item of a list.
#[cycle(print)]
fn push_list_item(
    alloc: Global,
    text: &mut String,
    item: &Field,
    form: Form,
) -> Result<(), AllocError>
    ensures { OnOk result (string_bytes text.new ≡ string_bytes text.old ++ (item_text (style_of form) (column_of item.now) ++ codes ">")) }
{
    push_item(alloc, text, item, form)?;
    text.push_str(">")
}

#[tactic(auto, unfolding(crate::specs::FieldText::fields_text, crate::specs::FieldText::more_text))]
#[cycle(print)]
fn push_fields(
    alloc: Global,
    text: &mut String,
    fields: &[Field],
    form: Form,
) -> Result<(), AllocError>
    ensures { OnOk result (string_bytes text.new ≡ string_bytes text.old ++ fields_text (style_of form) (columns_of (map column_of fields.now))) }
{
    let Some((first, others)) = fields.split_first() else {
        return Ok(());
    };
    push_field(alloc, text, first, form)?;
    for field in others {
        text.push_str(",")?;
        push_field(alloc, text, field, form)?;
    }
    Ok(())
}
