// Finds the part of a text that is refused.
ghost use Rattle.std.specs.Prelude.{◌≡◌, ◌<◌, ◌==◌, length, map, option_map, None, Some, IfOk, slice_get, if◌then◌else◌};
ghost use Rattle.std.specs.Option.{option_and_then};
ghost use Rattle.csv.specs.Records.{fields_of};
ghost use Rattle.serde_json.specs.View.{view, items_view, members_view};
ghost use Rattle.arrow_schema.specs.Column.{columns_of};
ghost use Rattle.arrow_schema.specs.Parts.{name_of_column};
ghost use Rattle.arrow_schema.specs.View.{column_of, schema_of};
ghost use Rattle.text_import.specs.Records.{records_of};
ghost use Rattle.text_import.specs.Objects.{lines_of, line_value};
ghost use Rattle.text_import.specs.ValuePart.{value_part_of};
ghost use Rattle.text_import.specs.Part.{part_of, line_part_of, nested_part, other_name, refused_names, header_of, refused_header, refused_field, refused_in_record, refused_in_items, refused_in_members, refused_in_value, refused_in_read, refused_in_line, numbered_part, refused_part};
ghost use Rattle.text_import.specs.Part as plain;
ghost use Rattle.text_import.specs.FieldForm.{field_form};

use crate::flat::field_cell;
use crate::form::{FieldForm, TextForm};
use crate::jsonl::{line_at, line_value};
use crate::objects::{first_repeated, first_unknown};
use crate::records::{is_nested, record_at, record_field};
use crate::refusal::CellError;
use crate::texts::{is_name_of, name_of};
use crate::value_part::{ValuePart, is_refused, part_by_name, part_by_place};
use arrow_schema::{Field, Schema};
use civil_days::DateForm;
use csv::ByteRecord;
use serde_json::{Map, Value as Json};
use std::alloc::{AllocError, Global};

/// The part of a line of JSON Lines that is refused.
#[derive(Drop)]
pub enum LinePart {
    /// A part of the value of a column. Its path begins with the name of the column.
    Value(ValuePart),
    /// An array whose number of items differs from the number of columns.
    Count { items: usize, columns: usize },
    /// A name that is not that of a column.
    Name { name: String },
    /// A name that two columns have. No line can be an object then.
    RepeatedName { name: String },
}

/// The part of a text that is refused.
#[derive(Drop)]
pub enum RefusedPart {
    /// A column that is a list or a struct, which CSV cannot express.
    NestedColumn {
        name: String,
    },
    /// A name in a CSV header, and the different name of the column at its place.
    HeaderName {
        found: Vec<u8>,
        wanted: String,
    },
    /// A CSV header whose number of names differs from the number of columns.
    HeaderCount {
        names: usize,
        columns: usize,
    },
    /// A CSV record whose number of fields differs from the number of columns.
    RecordCount {
        fields: usize,
        columns: usize,
    },
    /// A field of a CSV record, the place of its column, and its text.
    Field {
        name: String,
        place: usize,
        text: Vec<u8>,
    },
    /// A line of JSON Lines, and the part of it that is refused, if it is a part.
    Line {
        part: Option<LinePart>,
        text: Vec<u8>,
    },
}

fn nested_column(alloc: Global, field: &Field) -> Result<RefusedPart, AllocError>
    ensures { IfOk result (λ part. part_of part ≡ plain.nested_column (name_of_column (column_of field.now))) }
{
    let name = String::from_str(alloc, name_of(field))?;
    Ok(RefusedPart::NestedColumn { name })
}

// Returns the first column that is a list or a struct.
fn nested_part(alloc: Global, fields: &[Field]) -> Result<Option<RefusedPart>, AllocError>
    ensures { IfOk result (λ part. option_map part_of part ≡ nested_part (map column_of fields.now)) }
{
    for field in fields {
        if is_nested(field) {
            return Ok(Some(nested_column(alloc, field)?));
        }
    }
    Ok(None)
}

fn name_part(alloc: Global, found: &[u8], field: &Field) -> Result<RefusedPart, AllocError>
    ensures { IfOk result (λ part. part_of part ≡ plain.header_name found.now (name_of_column (column_of field.now))) }
{
    let found = Vec::from_slice(alloc, found)?;
    let wanted = String::from_str(alloc, name_of(field))?;
    Ok(RefusedPart::HeaderName { found, wanted })
}

// Returns the first name of a header that differs from that of its field.
fn other_name(
    alloc: Global,
    fields: &[Field],
    header: &ByteRecord,
) -> Result<Option<RefusedPart>, AllocError>
    ensures { IfOk result (λ part. option_map part_of part ≡ other_name (fields_of header.now) (map column_of fields.now)) }
{
    for (i, field) in fields.iter().enumerate() {
        match header.get(i) {
            None => return Ok(None),
            Some(name) => {
                if !is_name_of(field, name) {
                    return Ok(Some(name_part(alloc, name, field)?));
                }
            }
        }
    }
    Ok(None)
}

fn header_count(names: usize, columns: usize) -> Option<RefusedPart>
    ensures { option_map part_of result ≡ (if names == columns then None else Some (plain.header_count names columns)) }
{
    if names == columns {
        None
    } else {
        Some(RefusedPart::HeaderCount { names, columns })
    }
}

fn refused_names(
    alloc: Global,
    fields: &[Field],
    header: &ByteRecord,
) -> Result<Option<RefusedPart>, AllocError>
    ensures { IfOk result (λ part. option_map part_of part ≡ refused_names (map column_of fields.now) (fields_of header.now)) }
{
    match other_name(alloc, fields, header)? {
        Some(part) => Ok(Some(part)),
        None => Ok(header_count(header.len(), fields.len())),
    }
}

// Returns the refused part of the header of a CSV text.
fn part_of_header(
    alloc: Global,
    fields: &[Field],
    text: &[u8],
) -> Result<Option<RefusedPart>, AllocError>
    ensures { IfOk result (λ part. option_map part_of part ≡ refused_names (map column_of fields.now) (header_of text.now)) }
{
    let mut header = ByteRecord::new(alloc);
    if record_at(alloc, text, &mut header, 0)? {
        refused_names(alloc, fields, &header)
    } else {
        Ok(header_count(0, fields.len()))
    }
}

// Returns the first column that no CSV text has, or else the refused part of the header.
fn refused_header(
    alloc: Global,
    fields: &[Field],
    text: &[u8],
) -> Result<Option<RefusedPart>, AllocError>
    ensures { IfOk result (λ part. option_map part_of part ≡ refused_header (map column_of fields.now) text.now) }
{
    match nested_part(alloc, fields)? {
        Some(part) => Ok(Some(part)),
        None => part_of_header(alloc, fields, text),
    }
}

fn field_part(
    alloc: Global,
    field: &Field,
    place: usize,
    text: &[u8],
) -> Result<RefusedPart, AllocError>
    ensures { IfOk result (λ part. part_of part ≡ plain.field (name_of_column (column_of field.now)) place text.now) }
{
    let name = String::from_str(alloc, name_of(field))?;
    let text = Vec::from_slice(alloc, text)?;
    Ok(RefusedPart::Field { name, place, text })
}

// Returns the first field whose text is refused.
fn refused_field(
    alloc: Global,
    fields: &[Field],
    form: &FieldForm<'_>,
    row: &ByteRecord,
) -> Result<Option<RefusedPart>, AllocError>
    requires { length (fields_of row.now) ≡ length fields.now }
    ensures { IfOk result (λ part. option_map part_of part ≡ refused_field (field_form form.now) 0 (map column_of fields.now) (fields_of row.now)) }
{
    for (i, field) in fields.iter().enumerate() {
        let text = record_field(row, i);
        if is_refused(field_cell(alloc, field, form, text))? {
            return Ok(Some(field_part(alloc, field, i, text)?));
        }
    }
    Ok(None)
}

fn refused_in_record(
    alloc: Global,
    fields: &[Field],
    form: &FieldForm<'_>,
    row: &ByteRecord,
) -> Result<Option<RefusedPart>, AllocError>
    ensures { IfOk result (λ part. option_map part_of part ≡ refused_in_record (field_form form.now) (map column_of fields.now) (fields_of row.now)) }
{
    if row.len() != fields.len() {
        return Ok(Some(RefusedPart::RecordCount {
            fields: row.len(),
            columns: fields.len(),
        }));
    }
    refused_field(alloc, fields, form, row)
}

// Returns the refused part of the record at this place of a CSV text, whose header has the place 0.
fn part_of_record(
    alloc: Global,
    schema: &Schema,
    form: &FieldForm<'_>,
    text: &[u8],
    place: u64,
) -> Result<Option<RefusedPart>, AllocError>
    ensures { IfOk result (λ part. option_map part_of part
        ≡ option_and_then (refused_in_record (field_form form.now) (schema_of schema.now).columns) (slice_get (records_of text.now) place)) }
{
    let mut row = ByteRecord::new(alloc);
    if record_at(alloc, text, &mut row, place)? {
        refused_in_record(alloc, &schema.fields, form, &row)
    } else {
        Ok(None)
    }
}

fn value_part(part: Option<ValuePart>) -> Option<LinePart>
    ensures { option_map line_part_of result ≡ option_map plain.value_part (option_map value_part_of part) }
{
    match part {
        None => None,
        Some(part) => Some(LinePart::Value(part)),
    }
}

#[tactic(auto, using(crate::proofs::PartLemmas::counted_rules))]
fn refused_in_items(
    alloc: Global,
    date_form: DateForm,
    fields: &[Field],
    values: &[Json],
) -> Result<Option<LinePart>, AllocError>
    ensures { IfOk result (λ part. option_map line_part_of part ≡ refused_in_items date_form (columns_of (map column_of fields.now)) (items_view values.now)) }
{
    if values.len() != fields.len() {
        return Ok(Some(LinePart::Count {
            items: values.len(),
            columns: fields.len(),
        }));
    }
    Ok(value_part(part_by_place(alloc, date_form, "", fields, values)?))
}

#[tactic(auto, using(crate::proofs::PartLemmas::named_rules))]
fn refused_in_members(
    alloc: Global,
    date_form: DateForm,
    fields: &[Field],
    members: &Map<String, Json>,
) -> Result<Option<LinePart>, AllocError>
    ensures { IfOk result (λ part. option_map line_part_of part
        ≡ refused_in_members date_form (columns_of (map column_of fields.now)) (members_view members.now.entries)) }
{
    if let Some(name) = first_repeated(fields) {
        return Ok(Some(LinePart::RepeatedName {
            name: String::from_str(alloc, name)?,
        }));
    }
    if let Some(name) = first_unknown(fields, members) {
        return Ok(Some(LinePart::Name {
            name: String::from_str(alloc, name)?,
        }));
    }
    Ok(value_part(part_by_name(alloc, date_form, "", fields, members)?))
}

fn refused_in_value(
    alloc: Global,
    date_form: DateForm,
    fields: &[Field],
    value: &Json,
) -> Result<Option<LinePart>, AllocError>
    ensures { IfOk result (λ part. option_map line_part_of part ≡ refused_in_value date_form (columns_of (map column_of fields.now)) (view value.now)) }
{
    match value {
        Json::Array(values) => refused_in_items(alloc, date_form, fields, values),
        Json::Object(members) => refused_in_members(alloc, date_form, fields, members),
        _ => Ok(None),
    }
}

fn refused_in_read(
    alloc: Global,
    date_form: DateForm,
    fields: &[Field],
    line: &[u8],
) -> Result<Option<LinePart>, AllocError>
    ensures { IfOk result (λ part. option_map line_part_of part ≡ refused_in_read date_form (columns_of (map column_of fields.now)) (line_value line.now)) }
{
    match line_value(alloc, line) {
        Ok(value) => refused_in_value(alloc, date_form, fields, &value),
        Err(CellError::Refused(_)) => Ok(None),
        Err(CellError::OutOfMemory) => Err(AllocError),
    }
}

fn refused_in_line(
    alloc: Global,
    date_form: DateForm,
    schema: &Schema,
    line: &[u8],
) -> Result<RefusedPart, AllocError>
    ensures { IfOk result (λ part. part_of part ≡ refused_in_line date_form (schema_of schema.now) line.now) }
{
    let part = refused_in_read(alloc, date_form, &schema.fields, line)?;
    let text = Vec::from_slice(alloc, line)?;
    Ok(RefusedPart::Line { part, text })
}

// Returns the refused part of the line at this place of a text of JSON Lines, counted from 0.
fn part_of_line(
    alloc: Global,
    date_form: DateForm,
    schema: &Schema,
    text: &[u8],
    place: u64,
) -> Result<Option<RefusedPart>, AllocError>
    ensures { IfOk result (λ part. option_map part_of part ≡ option_map (refused_in_line date_form (schema_of schema.now)) (slice_get (lines_of text.now) place)) }
{
    match line_at(alloc, text, place)? {
        None => Ok(None),
        Some(line) => Ok(Some(refused_in_line(alloc, date_form, schema, line)?)),
    }
}

// Returns the refused part of the record with this number, which is not 0.
fn numbered_part(
    alloc: Global,
    form: &TextForm<'_>,
    schema: &Schema,
    text: &[u8],
    number: u64,
) -> Result<Option<RefusedPart>, AllocError>
    requires { 0 < number }
    ensures { IfOk result (λ part. option_map part_of part ≡ numbered_part form.now (schema_of schema.now) text.now number) }
{
    match form {
        TextForm::Csv(form) => part_of_record(alloc, schema, form, text, number),
        TextForm::JsonLines(date_form) => {
            part_of_line(alloc, *date_form, schema, text, number - 1)
        },
    }
}

/// Returns the part of a text that is refused, for the number in the refusal of its rows.
///
/// For CSV and the number 0, this is the first column that is a list or a struct, or else the first name of the header that differs from that of the
/// column at its place, or the number of names if those that both have are equal. For another number it is the number of fields in the record if it differs from
/// the number of columns, or the first field whose text is refused for its column; `None` if every text is a cell. For JSON Lines it is the line with
/// its refused part: the number of its items, the first name that two columns have if it is an object, its first unknown name, or the first part of a
/// value that is refused for its column, with the path to it.
///
/// # Errors
/// `AllocError` if memory was refused.
pub fn refused_part(
    alloc: Global,
    form: &TextForm<'_>,
    schema: &Schema,
    text: &[u8],
    number: u64,
) -> Result<Option<RefusedPart>, AllocError>
    ensures { IfOk result (λ part. option_map part_of part ≡ refused_part form.now (schema_of schema.now) text.now number) }
{
    if number > 0 {
        return numbered_part(alloc, form, schema, text, number);
    }
    match form {
        TextForm::Csv(_) => refused_header(alloc, &schema.fields, text),
        TextForm::JsonLines(_) => Ok(None),
    }
}
