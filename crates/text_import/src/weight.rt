// The weight of the rows of a text. Each row is made, weighed and let go before the next one.
ghost use Rattle.std.specs.Prelude.{◌≡◌, ◌≤◌, ℕ, List, [], ◌∷◌, ◌++◌, not, nat_le, length, Ok, IfOk, IfErr};
ghost use Rattle.arrow_schema.specs.View.{schema_of};
ghost use Rattle.cells.specs.Cell.{Cell};
ghost use Rattle.cells.specs.Row.{row_of};
ghost use Rattle.cells.specs.Weight.{capped_weight, table_weight};
ghost use Rattle.cells.specs.declared.limits.TheConstants.{MAX_TABLE_WEIGHT};
ghost use Rattle.facts.specs.Outcomes.{Reports};
ghost use Rattle.text_import.specs.Form.{rows_of_text};
ghost use Rattle.text_import.specs.Objects.{jsonl_rows_of};
ghost use Rattle.text_import.specs.Records.{record_row, csv_rows_of};
ghost use Rattle.text_import.specs.Refusals.{refused_by};
ghost use Rattle.text_import.specs.Rows.{rows_from};
ghost use Rattle.text_import.specs.Stands.{HasLeft};
ghost use Rattle.text_import.specs.inner.Weight.{Weighs};
ghost use Rattle.text_import.specs.FieldForm.{field_form};

use crate::form::{FieldForm, TextForm};
use crate::jsonl::{is_blank, line_row};
use crate::lines::{FirstLine, first_line};
use crate::records::{csv_records, numbered_row, read_next};
use crate::refusal::TextError;
use crate::rows::numbered;
use arrow_schema::Schema;
use cells::{MAX_TABLE_WEIGHT, Row, add_weights, has_limits, row_weight};
use civil_days::DateForm;
use csv::{ByteRecord, Reader};
use std::alloc::Global;

// Returns the weight of some rows and one more, from the weight of the former.
fn weight_with(schema: &Schema, weight: u64, row: &Row) -> u64
    ensures { (rows : List (List Cell)) → weight ≡ capped_weight (table_weight (schema_of schema.now) rows)
        → result ≡ capped_weight (table_weight (schema_of schema.now) (rows ++ row_of row.now ∷ [])) }
{
    add_weights(weight, row_weight(schema, &row.cells))
}

// Returns the weight of the rows of the remaining records, of which there are at most `most`, through one reused record.
fn records_weight(
    alloc: Global,
    schema: &Schema,
    form: &FieldForm<'_>,
    reader: &mut Reader<&[u8]>,
    row: &mut ByteRecord,
    most: usize,
) -> Result<u64, TextError>
    ensures { (records : List (List (List ℕ))) → HasLeft reader.old records → length records ≤ most
        → Weighs (schema_of schema.now) (rows_from (record_row (schema_of schema.now) (field_form form.now)) 1 records) result }
{
    let limited = has_limits(schema);
    let mut weight = 0;
    for index in 0..most {
        if !read_next(reader, row)? {
            return Ok(weight);
        }
        let number = index as u64 + 1;
        match numbered_row(alloc, schema, limited, form, row, number) {
            Ok(read) => weight = weight_with(schema, weight, &read),
            Err(error) => return Err(error),
        }
    }
    Ok(weight)
}

fn csv_weight(
    alloc: Global,
    schema: &Schema,
    text: &[u8],
    form: &FieldForm<'_>,
) -> Result<u64, TextError>
    ensures { Weighs (schema_of schema.now) (csv_rows_of (schema_of schema.now) (field_form form.now) text.now) result }
{
    match csv_records(alloc, schema, text) {
        Ok(mut reader) => {
            let mut row = ByteRecord::new(alloc);
            records_weight(alloc, schema, form, &mut reader, &mut row, text.len())
        }
        Err(error) => Err(error),
    }
}

fn jsonl_weight(
    alloc: Global,
    date_form: DateForm,
    schema: &Schema,
    text: &[u8],
) -> Result<u64, TextError>
    ensures { Weighs (schema_of schema.now) (jsonl_rows_of date_form (schema_of schema.now) text.now) result }
{
    let limited = has_limits(schema);
    let mut count = 0;
    let mut weight = 0;
    let mut left = Some(text);
    while let Some(rest) = left {
        let FirstLine { line, behind } = first_line(rest);
        left = behind;
        if is_blank(line) {
            continue;
        }
        count += 1;
        match numbered(count, line_row(alloc, date_form, schema, limited, line)) {
            Ok(row) => weight = weight_with(schema, weight, &row),
            Err(error) => return Err(error),
        }
    }
    Ok(weight)
}

fn text_weight(
    alloc: Global,
    form: &TextForm<'_>,
    schema: &Schema,
    text: &[u8],
) -> Result<u64, TextError>
    ensures { Weighs (schema_of schema.now) (rows_of_text form.now (schema_of schema.now) text.now) result }
{
    match form {
        TextForm::Csv(form) => csv_weight(alloc, schema, text, form),
        TextForm::JsonLines(date_form) => jsonl_weight(alloc, *date_form, schema, text),
    }
}

/// Returns whether the rows of a text are too heavy for one table. No row is kept, so it takes the memory of one record.
///
/// # Errors
/// Those of [`crate::rows_of_text`]: the first refusal, and the number of its record.
pub fn are_too_heavy(
    alloc: Global,
    form: &TextForm<'_>,
    schema: &Schema,
    text: &[u8],
) -> Result<bool, TextError>
    ensures weighed { IfOk result (λ heavy. (rows : List (List Cell)) × (rows_of_text form.now (schema_of schema.now) text.now ≡ Ok rows)
        × (heavy ≡ not (nat_le (table_weight (schema_of schema.now) rows) MAX_TABLE_WEIGHT))) }
    ensures refused { IfErr result (λ e. Reports (refused_by e) (rows_of_text form.now (schema_of schema.now) text.now)) }
{
    match text_weight(alloc, form, schema, text) {
        Ok(weight) => Ok(weight > MAX_TABLE_WEIGHT),
        Err(error) => Err(error),
    }
}
