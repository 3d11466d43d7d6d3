// Reads rows of CSV texts.
ghost use Rattle.std.specs.Prelude.{◌≡◌, ℕ, ◌<◌, ◌≤◌, true, false, List, [], ◌∷◌, Some, None, Err, IfOk, IfErr, map, length, slice_get, slice_index_or};
ghost use Rattle.std.specs.List.{list_any};
ghost use Rattle.csv.specs.Machine.{next_record};
ghost use Rattle.csv.specs.Reading.{default_config};
ghost use Rattle.csv.specs.Records.{fields_of, field_at};
ghost use Rattle.csv.specs.declared.parser.State.{State};
ghost use Rattle.arrow_schema.specs.Column.{columns_of};
ghost use Rattle.arrow_schema.specs.Parts.{name_of_column};
ghost use Rattle.arrow_schema.specs.View.{column_of, schema_of};
ghost use Rattle.cells.specs.View.{cell};
ghost use Rattle.cells.specs.Row.{row_of};
ghost use Rattle.cells.specs.Dictionary.{is_any_limited};
ghost use Rattle.text_import.specs.Refusals.{numbered, refusal_of, refused_by};
ghost use Rattle.facts.specs.Outcomes.{Gives, Reports};
ghost use Rattle.text_import.specs.Rows.{rows_from};
ghost use Rattle.text_import.specs.Records.{whole, are_names, is_nested_column, field_cells, record_cells, record_row, records_of, rows_behind_header, csv_rows_of};
ghost use Rattle.text_import.specs.Stands.{HasLeft, Stands, Reads, TakesNext, is_text};
ghost use Rattle.text_import.specs.FieldForm.{PlainFieldForm, field_form};

use crate::flat::field_cell;
use crate::form::FieldForm;
use crate::refusal::{CellError, Refusal, Refused, TextError};
use crate::rows::{accepted, numbered};
use crate::texts::is_name_of;
use arrow_schema::{Field, Schema};
use cells::{Row, Value, has_limits};
use csv::{ByteRecord, Reader, ReaderBuilder};
use std::alloc::{AllocError, Global};

// Returns a refusal without a record.
fn whole(refusal: Refusal) -> TextError
    ensures { refused_by result ≡ Some (whole refusal) }
{
    TextError::Refused(Refused { refusal, number: 0 })
}

// Creates a reader of records of any width at the start of a text.
#[tactic(auto, using(crate::specs::laws::Left::left_first))]
fn reader_of(alloc: Global, text: &[u8]) -> Reader<&[u8]>
    ensures { HasLeft result (records_of text.now) }
{
    ReaderBuilder::new()
        .has_headers(false)
        .flexible(true)
        .from_reader(alloc, text)
}

// Reads the next record, if there is one. Reading a slice fails only if memory is refused.
fn read_record(reader: &mut Reader<&[u8]>, row: &mut ByteRecord) -> Result<bool, AllocError>
    ensures next { IfOk result (λ found. (s : State) (xs : List ℕ) → Stands reader.old s xs
        → Reads (next_record default_config s [] [] xs) found (fields_of row.new) reader.new) }
{
    match reader.read_byte_record(row) {
        Ok(found) => Ok(found),
        Err(_) => Err(AllocError),
    }
}

/// Reads the next record, if there is one.
///
/// # Errors
/// `AllocError` if memory was refused; the reader and the record are then unspecified.
#[tactic(auto, using(crate::proofs::RecordLemmas::taken))]
pub fn read_next(reader: &mut Reader<&[u8]>, row: &mut ByteRecord) -> Result<bool, AllocError>
    ensures { IfOk result (λ found. (records : List (List (List ℕ))) → HasLeft reader.old records
        → TakesNext records found (fields_of row.new) reader.new) }
{
    let found = read_record(reader, row)?;
    Ok(found)
}

pub(crate) fn is_nested(field: &Field) -> bool
    ensures { result ≡ is_nested_column (column_of field.now) }
{
    field.data_type.is_nested()
}

fn has_nested(fields: &[Field]) -> bool
    ensures { result ≡ list_any is_nested_column (map column_of fields.now) }
{
    for field in fields {
        if is_nested(field) {
            return true;
        }
    }
    false
}

fn is_field(row: &ByteRecord, i: usize, field: &Field) -> bool
    ensures { result ≡ is_text (field_at (fields_of row.now) i) (name_of_column (column_of field.now)) }
{
    match row.get(i) {
        None => false,
        Some(text) => is_name_of(field, text),
    }
}

// Returns whether a record has the names of the fields in order.
fn are_names(row: &ByteRecord, fields: &[Field]) -> bool
    ensures { result ≡ are_names (fields_of row.now) (map column_of fields.now) }
{
    if row.len() != fields.len() {
        return false;
    }
    for (i, field) in fields.iter().enumerate() {
        if !is_field(row, i, field) {
            return false;
        }
    }
    true
}

/// Returns the text of a field.
pub fn record_field(row: &ByteRecord, i: usize) -> &[u8]
    requires { i < length (fields_of row.now) }
    ensures { result.now ≡ slice_index_or (fields_of row.now) i [] }
{
    row.get(i).unwrap_or(&[])
}

#[tactic(auto, unfolding(crate::specs::Records::field_cells))]
fn field_cells(
    alloc: Global,
    fields: &[Field],
    form: &FieldForm<'_>,
    row: &ByteRecord,
) -> Result<Vec<Value>, CellError>
    requires { length (fields_of row.now) ≡ length fields.now }
    ensures { Gives refusal_of (λ v. map cell v.items) result (field_cells (field_form form.now) (map column_of fields.now) (fields_of row.now)) }
{
    let mut cells = Vec::with_capacity(alloc, fields.len())?;
    for (i, field) in fields.iter().enumerate() {
        cells.push_reserved(field_cell(alloc, field, form, record_field(row, i))?);
    }
    Ok(cells)
}

fn record_cells(
    alloc: Global,
    fields: &[Field],
    form: &FieldForm<'_>,
    row: &ByteRecord,
) -> Result<Vec<Value>, CellError>
    ensures { Gives refusal_of (λ v. map cell v.items) result (record_cells (field_form form.now) (map column_of fields.now) (fields_of row.now)) }
{
    if row.len() != fields.len() {
        return Err(CellError::Refused(Refusal::Width));
    }
    field_cells(alloc, fields, form, row)
}

fn record_row(
    alloc: Global,
    schema: &Schema,
    limited: bool,
    form: &FieldForm<'_>,
    row: &ByteRecord,
) -> Result<Row, CellError>
    requires { limited ≡ is_any_limited (columns_of (schema_of schema.now).columns) }
    ensures { Gives refusal_of row_of result (record_row (schema_of schema.now) (field_form form.now) (fields_of row.now)) }
{
    let cells = record_cells(alloc, &schema.fields, form, row)?;
    accepted(alloc, schema, limited, cells)
}

/// Reads the row of a record. `limited` is the result of `cells::has_limits` for the schema, and `number` is that of the record.
///
/// # Errors
/// `Refused` with the refusal and this number; `OutOfMemory`.
pub fn numbered_row(
    alloc: Global,
    schema: &Schema,
    limited: bool,
    form: &FieldForm<'_>,
    row: &ByteRecord,
    number: u64,
) -> Result<Row, TextError>
    requires { limited ≡ is_any_limited (columns_of (schema_of schema.now).columns) }
    ensures { Gives refused_by row_of result (numbered number (record_row (schema_of schema.now) (field_form form.now) (fields_of row.now))) }
{
    numbered(number, record_row(alloc, schema, limited, form, row))
}

// Reads the rows of the remaining records, of which there are at most `most`, through one reused record.
fn record_rows(
    alloc: Global,
    schema: &Schema,
    form: &FieldForm<'_>,
    reader: &mut Reader<&[u8]>,
    row: &mut ByteRecord,
    most: usize,
) -> Result<Vec<Row>, TextError>
    ensures { (records : List (List (List ℕ))) → HasLeft reader.old records → length records ≤ most
        → Gives refused_by (λ v. map row_of v.items) result (rows_from (record_row (schema_of schema.now) (field_form form.now)) 1 records) }
{
    let limited = has_limits(schema);
    let mut rows = Vec::new(alloc);
    for index in 0..most {
        if !read_next(reader, row)? {
            return Ok(rows);
        }
        let number = index as u64 + 1;
        let read = match numbered_row(alloc, schema, limited, form, row, number) {
            Ok(read) => read,
            Err(error) => return Err(error),
        };
        rows.push(read)?;
    }
    Ok(rows)
}

// Reads the header into a record, and refuses one that does not have the names of the columns.
fn pass_header(
    schema: &Schema,
    reader: &mut Reader<&[u8]>,
    row: &mut ByteRecord,
) -> Result<(), TextError>
    ensures behind { IfOk result (λ _. (all : List (List (List ℕ))) → HasLeft reader.old all
        → (header : List (List ℕ)) × (records : List (List (List ℕ))) × (all ≡ header ∷ records) × HasLeft reader.new records
        × ((form : PlainFieldForm) → rows_behind_header (schema_of schema.now) form all
        ≡ rows_from (record_row (schema_of schema.now) form) 1 records)) }
    ensures refused { IfErr result (λ e. (all : List (List (List ℕ))) → HasLeft reader.old all
        → (form : PlainFieldForm) → Reports (refused_by e) (rows_behind_header (schema_of schema.now) form all)) }
{
    if !read_next(reader, row)? {
        return Err(whole(Refusal::Header));
    }
    if are_names(row, &schema.fields) {
        Ok(())
    } else {
        Err(whole(Refusal::Header))
    }
}

/// Returns a reader that has read the header, which has the names of the columns. The text has no more records after it than bytes.
///
/// # Errors
/// `Refused` with the refusal of a schema with lists or structs, or of the header; the rows of the text are refused in the same way for every null
/// text. `OutOfMemory`.
pub fn csv_records<'a>(
    alloc: Global,
    schema: &Schema,
    text: &'a [u8],
) -> Result<Reader<&'a [u8]>, TextError>
    ensures behind { IfOk result (λ reader. (records : List (List (List ℕ))) × HasLeft reader records × (length records ≤ length text.now)
        × ((header : List (List ℕ)) × (records_of text.now ≡ header ∷ records))
        × ((form : PlainFieldForm) → csv_rows_of (schema_of schema.now) form text.now
        ≡ rows_from (record_row (schema_of schema.now) form) 1 records)) }
    ensures refused { IfErr result (λ e. (form : PlainFieldForm) → Reports (refused_by e) (csv_rows_of (schema_of schema.now) form text.now)) }
{
    if has_nested(&schema.fields) {
        return Err(whole(Refusal::Nested));
    }
    let mut row = ByteRecord::new(alloc);
    let mut reader = reader_of(alloc, text);
    match pass_header(schema, &mut reader, &mut row) {
        Ok(()) => Ok(reader),
        Err(error) => Err(error),
    }
}

// Reads the record at this place, counted from the next one, if there is one.
fn read_at(reader: &mut Reader<&[u8]>, row: &mut ByteRecord, place: u64) -> Result<bool, AllocError>
    ensures { IfOk result (λ found. (records : List (List (List ℕ))) → HasLeft reader.old records
        → (found ≡ true → slice_get records place ≡ Some (fields_of row.new)) × (found ≡ false → slice_get records place ≡ None)) }
{
    for _i in 0..place {
        if !read_next(reader, row)? {
            return Ok(false);
        }
    }
    let found = read_next(reader, row)?;
    Ok(found)
}

// Reads the record at this place, if there is one; the header has the place 0.
pub(crate) fn record_at(
    alloc: Global,
    text: &[u8],
    row: &mut ByteRecord,
    place: u64,
) -> Result<bool, AllocError>
    ensures there { IfOk result (λ found. found ≡ true → slice_get (records_of text.now) place ≡ Some (fields_of row.new)) }
    ensures none { IfOk result (λ found. found ≡ false → slice_get (records_of text.now) place ≡ None) }
{
    let mut reader = reader_of(alloc, text);
    read_at(&mut reader, row, place)
}

/// Reads the rows of a CSV text: the records after the header, which has the names of the columns. A field with the null text is a null if the column
/// is nullable.
///
/// ```
/// let form = FieldForm { null_text: b"", dates: DateForm::Numbers };
/// let rows = csv_rows(alloc, &schema, b"a,s\n1,x\n,\n", &form)?;
/// ```
///
/// # Errors
/// `Refused` with the first refusal of a schema with lists or structs, of the header, or of a record, and the number of the record. `OutOfMemory`.
pub fn csv_rows(
    alloc: Global,
    schema: &Schema,
    text: &[u8],
    form: &FieldForm<'_>,
) -> Result<Vec<Row>, TextError>
    ensures exact { Gives refused_by (λ v. map row_of v.items) result (csv_rows_of (schema_of schema.now) (field_form form.now) text.now) }
{
    match csv_records(alloc, schema, text) {
        Ok(mut reader) => {
            let mut row = ByteRecord::new(alloc);
            record_rows(alloc, schema, form, &mut reader, &mut row, text.len())
        }
        Err(error) => Err(error),
    }
}
