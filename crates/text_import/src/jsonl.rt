// Reads rows of JSON Lines.
ghost use Rattle.std.specs.Prelude.{◌≡◌, ◌==◌, not, map, option_map, slice_get, IfOk};
ghost use Rattle.std.specs.List.{filter, slice_split};
ghost use Rattle.serde_json.specs.View.{view};
ghost use Rattle.arrow_schema.specs.Column.{columns_of};
ghost use Rattle.arrow_schema.specs.View.{schema_of};
ghost use Rattle.cells.specs.Row.{row_of};
ghost use Rattle.cells.specs.Dictionary.{is_any_limited};
ghost use Rattle.text_import.specs.Refusals.{refusal_of, refused_by};
ghost use Rattle.facts.specs.Outcomes.{Gives};
ghost use Rattle.text_import.specs.Rows.{rows_from};
ghost use Rattle.text_import.specs.Objects.{is_blank, line_value, line_row, lines_of, jsonl_rows_of};
ghost use Rattle.facts.specs.Texts.{text_list};

use crate::objects::value_row;
use crate::refusal::{CellError, Refusal, TextError};
use crate::rows::numbered;
use crate::texts::text_of;
use arrow_schema::Schema;
use cells::{Row, has_limits};
use civil_days::DateForm;
use serde_json::Value;
use std::alloc::{AllocError, Global};

/// Splits a text at its line feeds. The last part is empty if the text ends with a line feed.
///
/// # Errors
/// `AllocError` if memory was refused.
pub fn split_lines(alloc: Global, text: &[u8]) -> Result<Vec<&[u8]>, AllocError>
    ensures { IfOk result (λ v. text_list v.items ≡ slice_split (λ b. b == 10) text.now) }
{
    text.split(|byte| *byte == b'\n').collect(alloc)
}

/// Returns whether a line has only spaces, tabs and carriage returns.
pub fn is_blank(line: &[u8]) -> bool
    ensures { result ≡ is_blank line.now }
{
    for byte in line {
        if *byte != b' ' && *byte != b'\t' && *byte != b'\r' {
            return false;
        }
    }
    true
}

pub(crate) fn line_value(alloc: Global, line: &[u8]) -> Result<Value, CellError>
    ensures { Gives refusal_of view result (line_value line.now) }
{
    let text = match text_of(line) {
        Some(text) => text,
        None => return Err(CellError::Refused(Refusal::NotUtf8)),
    };
    match Value::from_str(alloc, text) {
        Ok(value) => Ok(value),
        Err(error) => Err(if error.is_memory() {
            CellError::OutOfMemory
        } else {
            CellError::Refused(Refusal::Json)
        }),
    }
}

pub(crate) fn line_row(
    alloc: Global,
    date_form: DateForm,
    schema: &Schema,
    limited: bool,
    line: &[u8],
) -> Result<Row, CellError>
    requires { limited ≡ is_any_limited (columns_of (schema_of schema.now).columns) }
    ensures { Gives refusal_of row_of result (line_row date_form (schema_of schema.now) line.now) }
{
    let value = line_value(alloc, line)?;
    value_row(alloc, date_form, schema, limited, &value)
}

// Returns the line at this place among those that are not blank, counted from 0.
pub(crate) fn line_at(alloc: Global, text: &[u8], place: u64) -> Result<Option<&[u8]>, AllocError>
    ensures { IfOk result (λ line. option_map (λ t. t.now) line ≡ slice_get (lines_of text.now) place) }
{
    let parts = split_lines(alloc, text)?;
    let mut before = place;
    for line in &parts {
        if is_blank(line) {
            continue;
        }
        if before == 0 {
            return Ok(Some(*line));
        }
        before -= 1;
    }
    Ok(None)
}

// Reads the rows of lines. Blank lines are skipped and not counted.
fn line_rows(
    alloc: Global,
    date_form: DateForm,
    schema: &Schema,
    lines: &[&[u8]],
) -> Result<Vec<Row>, TextError>
    ensures { Gives refused_by (λ v. map row_of v.items) result
        (rows_from (line_row date_form (schema_of schema.now)) 1 (filter (λ line. not (is_blank line)) (text_list lines.now))) }
{
    let limited = has_limits(schema);
    let mut rows = Vec::new(alloc);
    for line in lines {
        if is_blank(line) {
            continue;
        }
        let number = rows.len() as u64 + 1;
        let row = match numbered(number, line_row(alloc, date_form, schema, limited, line)) {
            Ok(row) => row,
            Err(error) => return Err(error),
        };
        rows.push(row)?;
    }
    Ok(rows)
}

/// Reads the rows of JSON Lines: each line is a row, an array by position or an object by name. Blank lines are skipped and not counted.
///
/// # Errors
/// `Refused` with the first refused line and its number; `OutOfMemory`.
pub fn jsonl_rows(
    alloc: Global,
    date_form: DateForm,
    schema: &Schema,
    text: &[u8],
) -> Result<Vec<Row>, TextError>
    ensures exact { Gives refused_by (λ v. map row_of v.items) result (jsonl_rows_of date_form (schema_of schema.now) text.now) }
{
    let parts = split_lines(alloc, text)?;
    line_rows(alloc, date_form, schema, &parts)
}
