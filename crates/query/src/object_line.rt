// Prints a row as a JSON object.
ghost use Rattle.std.specs.Prelude.{◌≡◌, ◌++◌, OnOk, codes, map};
ghost use Rattle.arrow_schema.specs.Parts.{name_of_column};
ghost use Rattle.arrow_schema.specs.View.{column_of};
ghost use Rattle.columns.specs.Borrowed.{borrowed_cell, borrowed_cells, values_left};
ghost use Rattle.query.specs.ObjectLine.{member, members, other_members, object_line, is_of_one, are_named_apart, line_of_shape, line_in};

use crate::bound::count_named;
use crate::line::{push_array, push_bytes, push_text, push_value};
use crate::row_form::{RowForm, RowShape};
use crate::shown::push_dated_row;
use arrow_schema::Field;
use civil_days::DateForm;
use std::alloc::{AllocError, Global};
use values::{ValueRef, Values, ValuesIter};

fn is_of_one(fields: &[Field], name: &str) -> bool
    ensures { result ≡ is_of_one (map column_of fields.now) name.now }
{
    count_named(fields, name) == 1
}

// Returns whether no other field has the name of this one.
fn is_alone(fields: &[Field], field: &Field) -> bool
    ensures { result ≡ is_of_one (map column_of fields.now) (name_of_column (column_of field.now)) }
{
    is_of_one(fields, field.name.as_str())
}

/// Returns whether no two fields have the same name: only then does an object have a member for each.
pub fn are_named_apart(fields: &[Field]) -> bool
    ensures { result ≡ are_named_apart (map column_of fields.now) }
{
    for field in fields {
        if !is_alone(fields, field) {
            return false;
        }
    }
    true
}

fn push_member(
    alloc: Global,
    out: &mut Vec<u8>,
    field: &Field,
    value: ValueRef<'_>,
) -> Result<(), AllocError>
    ensures { OnOk result (out.new.items ≡ out.old.items ++ member (name_of_column (column_of field.now)) (borrowed_cell value.entry)) }
{
    push_text(alloc, out, field.name.as_str())?;
    push_bytes(out, b":")?;
    push_value(alloc, out, value)
}

#[tactic(auto, unfolding(crate::specs::ObjectLine::other_members))]
fn push_other_members(
    alloc: Global,
    out: &mut Vec<u8>,
    fields: &[Field],
    mut values: ValuesIter<'_>,
) -> Result<(), AllocError>
    ensures { OnOk result (out.new.items ≡ out.old.items
        ++ other_members (map name_of_column (map column_of fields.now)) (values_left values.entry)) }
{
    for field in fields {
        let Some(value) = values.next() else {
            return Ok(());
        };
        push_bytes(out, b",")?;
        push_member(alloc, out, field, value)?;
    }
    Ok(())
}

#[tactic(auto, unfolding(crate::specs::ObjectLine::members))]
fn push_members(
    alloc: Global,
    out: &mut Vec<u8>,
    fields: &[Field],
    row: Values<'_>,
) -> Result<(), AllocError>
    ensures { OnOk result (out.new.items ≡ out.old.items ++ members (map name_of_column (map column_of fields.now)) (borrowed_cells row.entry)) }
{
    let mut values = row.iter();
    let Some((field, others)) = fields.split_first() else {
        return Ok(());
    };
    let Some(value) = values.next() else {
        return Ok(());
    };
    push_member(alloc, out, field, value)?;
    push_other_members(alloc, out, others, values)
}

fn push_object(
    alloc: Global,
    out: &mut Vec<u8>,
    fields: &[Field],
    row: Values<'_>,
) -> Result<(), AllocError>
    ensures { OnOk result (out.new.items ≡ out.old.items ++ object_line (map name_of_column (map column_of fields.now)) (borrowed_cells row.entry)) }
{
    push_bytes(out, b"{")?;
    push_members(alloc, out, fields, row)?;
    push_bytes(out, b"}")
}

// Appends the line of a row with its dates as numbers.
fn push_plain_row(
    alloc: Global,
    out: &mut Vec<u8>,
    shape: RowShape,
    fields: &[Field],
    row: Values<'_>,
) -> Result<(), AllocError>
    ensures { OnOk result (out.new.items ≡ out.old.items ++ line_of_shape shape (map column_of fields.now) (borrowed_cells row.entry)) }
{
    match shape {
        RowShape::Array => push_array(alloc, out, row),
        RowShape::Object => push_object(alloc, out, fields, row),
    }
}

/// Appends the line of a row of these fields in this form, without its line feed: a JSON array of its values, or a JSON object of them with the
/// names of the fields, in their order, without spaces. Bytes are strings of hexadecimal digits in lower case; lists and structs are arrays; dates and
/// timestamps are numbers, or strings as people write them.
/// Neither the line nor a value takes memory of its own, except a string with an escape.
///
/// # Errors
/// `AllocError` if memory is refused: part of the line may be appended.
pub fn push_line_in(
    alloc: Global,
    text: &mut Vec<u8>,
    form: RowForm,
    fields: &[Field],
    row: Values<'_>,
) -> Result<(), AllocError>
    ensures { OnOk result (text.new.items ≡ text.old.items ++ line_in form (map column_of fields.now) (borrowed_cells row.entry)) }
{
    match form.dates {
        DateForm::Numbers => push_plain_row(alloc, text, form.shape, fields, row),
        DateForm::Iso => push_dated_row(alloc, text, form.shape, fields, row),
    }
}
