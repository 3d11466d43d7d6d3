// Records, field by field into the buffers of their columns.
ghost use Rattle.std.specs.Prelude.{◌≡◌, ◌≤◌, [], ℕ, List, None, map, length, IfOk, IfSome, MatchResult};
ghost use Rattle.csv.specs.Records.{fields_of};
ghost use Rattle.arrow_schema.specs.View.{column_of, schema_of};
ghost use Rattle.facts.specs.Outcomes.{Reports};
ghost use Rattle.text_import.specs.Records.{csv_rows_of, record_row};
ghost use Rattle.text_import.specs.Refusals.{numbered, refused_by};
ghost use Rattle.text_import.specs.Rows.{rows_from};
ghost use Rattle.text_import.specs.Stands.{HasLeft};
ghost use Rattle.text_columns.specs.inner.Batches.{AddsRow, HoldRows, ReadsRows};
ghost use Rattle.text_columns.specs.inner.Kept.{KeepsFields, KeepsRecord};
ghost use Rattle.text_import.specs.FieldForm.{field_form};

use crate::batches::Batches;
use crate::builder::ColumnBuilder;
use arrow_schema::Schema;
use cells::{MAX_ROW_WEIGHT, MAX_TABLE_WEIGHT, has_limits};
use csv::{ByteRecord, Reader};
use std::alloc::{AllocError, Global};
use text_import::{FieldForm, TextError, csv_records, numbered_row, read_next, record_field};

// Appends the cells of as many fields as columns, and returns the weight of their row; `None` if a field is no cell of its column, or the row is too heavy.
fn push_fields(
    builders: &mut [ColumnBuilder],
    form: &FieldForm<'_>,
    row: &ByteRecord,
) -> Result<Option<u64>, AllocError>
    requires { length (fields_of row.now) ≡ length builders.old }
    ensures few { IfOk result (λ taken. IfSome taken (λ weight. weight ≤ MAX_ROW_WEIGHT)) }
    ensures kept { IfOk result (λ taken. IfSome taken (λ weight. KeepsFields (field_form form.now) (fields_of row.now) weight builders.old builders.new)) }
{
    let mut weight = 1;
    for i in 0..builders.len() {
        let builder = &mut builders[i];
        let Some(cell_weight) = builder.push_field(form, record_field(row, i))? else {
            return Ok(None);
        };
        if cell_weight > MAX_ROW_WEIGHT - weight {
            return Ok(None);
        }
        weight += cell_weight;
    }
    Ok(Some(weight))
}

// Appends the cells of a record, and returns the weight of its row; `None` if it is no row of the columns.
fn push_record(
    builders: &mut [ColumnBuilder],
    form: &FieldForm<'_>,
    row: &ByteRecord,
) -> Result<Option<u64>, AllocError>
    ensures few { IfOk result (λ taken. IfSome taken (λ weight. weight ≤ MAX_ROW_WEIGHT)) }
    ensures kept { IfOk result (λ taken. IfSome taken (λ weight. KeepsRecord (field_form form.now) (fields_of row.now) weight builders.old builders.new)) }
{
    if row.len() != builders.len() {
        return Ok(None);
    }
    push_fields(builders, form, row)
}

// Adds a record to the record batch that is being read, and returns the weight of its row; `None` if it is no row of the columns.
fn push_row(
    batches: &mut Batches,
    form: &FieldForm<'_>,
    row: &ByteRecord,
) -> Result<Option<u64>, AllocError>
    ensures few { IfOk result (λ taken. IfSome taken (λ weight. weight ≤ MAX_ROW_WEIGHT)) }
    ensures kept { IfOk result (λ taken. IfSome taken (λ weight.
        KeepsRecord (field_form form.now) (fields_of row.now) weight batches.old.builders.items batches.new.builders.items)) }
    ensures adds { IfOk result (λ taken. IfSome taken (λ weight. AddsRow batches.old batches.new)) }
{
    batches.count_row()?;
    push_record(batches.builders.as_mut_slice(), form, row)
}

// Reports why a record is refused. `None` if it is a row by itself: then a dictionary is full.
fn refuse(
    alloc: Global,
    schema: &Schema,
    form: &FieldForm<'_>,
    row: &ByteRecord,
    number: u64,
) -> Result<Option<u64>, TextError>
    ensures { MatchResult result (λ read. read ≡ None)
        (λ e. Reports (refused_by e) (numbered number (record_row (schema_of schema.now) (field_form form.now) (fields_of row.now)))) }
{
    let _row = numbered_row(alloc, schema, has_limits(schema), form, row, number)?;
    Ok(None)
}

// Appends the rows of the records that a reader has left, of which there are at most `most`, and returns their weight; `None` if a dictionary is full, or they
// are too heavy for a table. Each record is read into `row`, whose memory is used again.
fn push_records(
    alloc: Global,
    schema: &Schema,
    form: &FieldForm<'_>,
    reader: &mut Reader<&[u8]>,
    row: &mut ByteRecord,
    batches: &mut Batches,
    ends: bool,
    most: usize,
) -> Result<Option<u64>, TextError>
    ensures { (records : List (List (List ℕ))) → HasLeft reader.old records → length records ≤ most
        → HoldRows (schema_of schema.now) [] batches.old
        → ReadsRows (schema_of schema.now) (rows_from (record_row (schema_of schema.now) (field_form form.now)) 1 records) result batches.new }
{
    let mut weight = 0;
    for index in 0..most {
        if !read_next(reader, row)? {
            return Ok(Some(weight));
        }
        if !batches.make_room(alloc, schema, ends)? {
            return Ok(None);
        }
        let Some(row_weight) = push_row(batches, form, row)? else {
            return refuse(alloc, schema, form, row, index as u64 + 1);
        };
        if row_weight > MAX_TABLE_WEIGHT - weight {
            return Ok(None);
        }
        weight += row_weight;
    }
    Ok(Some(weight))
}

/// Appends the rows of a text, and returns their weight; `None` if a dictionary is full, or they are too heavy for a table. `ends` is whether a record batch
/// ends if a dictionary is full.
///
/// # Errors
///
/// The refusal of the schema, of the header, or of the first record that is refused.
pub(crate) fn push_rows(
    alloc: Global,
    schema: &Schema,
    text: &[u8],
    form: &FieldForm<'_>,
    batches: &mut Batches,
    ends: bool,
) -> Result<Option<u64>, TextError>
    ensures { HoldRows (schema_of schema.now) [] batches.old
        → ReadsRows (schema_of schema.now) (csv_rows_of (schema_of schema.now) (field_form form.now) text.now) result batches.new }
{
    match csv_records(alloc, schema, text) {
        Ok(mut reader) => {
            let mut row = ByteRecord::new(alloc);
            push_records(
                alloc,
                schema,
                form,
                &mut reader,
                &mut row,
                batches,
                ends,
                text.len(),
            )
        }
        Err(error) => Err(error),
    }
}
