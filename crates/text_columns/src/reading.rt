// Reads a text into record batches: CSV in place, or else with the reader of the kit; JSON Lines line by line.
ghost use Rattle.std.specs.Prelude.{◌≡◌, false, IfOk, IfSome};
ghost use Rattle.arrow_schema.specs.Column.{columns_of};
ghost use Rattle.arrow_schema.specs.View.{schema_of};
ghost use Rattle.text_import.specs.Records.{csv_rows_of};
ghost use Rattle.text_import.specs.Objects.{jsonl_rows_of, names_of, repeats};
ghost use Rattle.text_columns.specs.inner.Batches.{HasRows, ReadsBatches};
ghost use Rattle.text_columns.specs.inner.Kept.{key_list};
ghost use Rattle.text_import.specs.FieldForm.{field_form};

use crate::batches::{Batches, begin_batches};
use crate::lines::push_lines;
use crate::members::names_of;
use crate::plain::push_plain_text;
use crate::records::push_rows;
use arrow_schema::Schema;
use civil_days::DateForm;
use indexmap::IndexSet;
use simdutf8::basic::from_utf8;
use std::alloc::{AllocError, Global};
use text_import::{FieldForm, TextError, csv_records};

/// The record batches of a text, and the weight of their rows.
#[derive(Drop)]
pub(crate) struct WeighedBatches {
    pub(crate) batches: Batches,
    pub(crate) weight: u64,
}

// Reads records in place, once the header was tested; `None` if they can't be read so. If a dictionary is full, the text is read again, and a record batch
// ends before each row for which a dictionary might have no room.
fn read_plain(
    alloc: Global,
    schema: &Schema,
    text: &[u8],
    form: &FieldForm<'_>,
) -> Result<Option<WeighedBatches>, TextError>
    ensures { ReadsBatches (schema_of schema.now) (csv_rows_of (schema_of schema.now) (field_form form.now) text.now) result }
{
    drop(csv_records(alloc, schema, text)?);
    for ends in [false, true] {
        let Some(mut batches) = begin_batches(alloc, schema)? else {
            return Ok(None);
        };
        if let Some(weight) = push_plain_text(alloc, schema, &mut batches, ends, form, text)? {
            return Ok(Some(WeighedBatches { batches, weight }));
        }
        if batches.has_room() {
            return Ok(None);
        }
    }
    Ok(None)
}

// Reads records with the reader of the kit, or reports why the text is refused; `None` if the rows are too heavy for a table. If a dictionary is full, the text
// is read again, and a record batch ends before each row for which a dictionary might have no room.
fn read_records(
    alloc: Global,
    schema: &Schema,
    text: &[u8],
    form: &FieldForm<'_>,
) -> Result<Option<WeighedBatches>, TextError>
    ensures { ReadsBatches (schema_of schema.now) (csv_rows_of (schema_of schema.now) (field_form form.now) text.now) result }
{
    for ends in [false, true] {
        let Some(mut batches) = begin_batches(alloc, schema)? else {
            return Ok(None);
        };
        if let Some(weight) = push_rows(alloc, schema, text, form, &mut batches, ends)? {
            return Ok(Some(WeighedBatches { batches, weight }));
        }
        if batches.has_room() {
            return Ok(None);
        }
    }
    Ok(None)
}

/// Reads a text into record batches of at most `MAX_PIECE_ROWS` rows, or into one if a column has parts or a dictionary and none is full; `None` if no columns
/// can be begun for the schema, or the rows are too heavy for a table.
///
/// # Errors
///
/// The refusal of the schema, of the header, or of the first record that is refused.
pub(crate) fn read_csv(
    alloc: Global,
    schema: &Schema,
    text: &[u8],
    form: &FieldForm<'_>,
) -> Result<Option<WeighedBatches>, TextError>
    ensures { ReadsBatches (schema_of schema.now) (csv_rows_of (schema_of schema.now) (field_form form.now) text.now) result }
{
    match read_plain(alloc, schema, text, form)? {
        Some(found) => Ok(Some(found)),
        None => read_records(alloc, schema, text, form),
    }
}

// Reads lines of UTF-8 by the names of the columns; `None` if one is refused, or the rows are too heavy for a table. If a dictionary is full, the text is read
// again, and a record batch ends before each row for which a dictionary might have no room.
fn read_text(
    alloc: Global,
    date_form: DateForm,
    schema: &Schema,
    names: &IndexSet<Vec<u8>>,
    text: &str,
) -> Result<Option<WeighedBatches>, AllocError>
    requires { repeats (key_list names.now.keys) ≡ false }
    ensures { names_of (columns_of (schema_of schema.now).columns) ≡ key_list names.now.keys → IfOk result (λ found. IfSome found (λ c.
        HasRows (schema_of schema.now) (jsonl_rows_of date_form (schema_of schema.now) text.now) c.weight c.batches)) }
{
    for ends in [false, true] {
        let Some(mut batches) = begin_batches(alloc, schema)? else {
            return Ok(None);
        };
        if let Some(weight) = push_lines(
            alloc,
            date_form,
            schema,
            names,
            text,
            &mut batches,
            ends,
        )? {
            return Ok(Some(WeighedBatches { batches, weight }));
        }
        if batches.has_room() {
            return Ok(None);
        }
    }
    Ok(None)
}

/// Reads a text of JSON Lines into record batches, as `read_csv` does; `None` also if two columns have one name, or a line is refused.
pub(crate) fn read_jsonl(
    alloc: Global,
    date_form: DateForm,
    schema: &Schema,
    text: &[u8],
) -> Result<Option<WeighedBatches>, AllocError>
    ensures { IfOk result (λ found. IfSome found (λ c.
        HasRows (schema_of schema.now) (jsonl_rows_of date_form (schema_of schema.now) text.now) c.weight c.batches)) }
{
    let Some(names) = names_of(alloc, &schema.fields)? else {
        return Ok(None);
    };
    let Ok(text) = from_utf8(text) else {
        return Ok(None);
    };
    let found = read_text(alloc, date_form, schema, &names, text)?;
    Ok(found)
}
