// Texts of rows in either form.
ghost use Rattle.std.specs.Prelude.{map};
ghost use Rattle.facts.specs.Outcomes.{Gives};
ghost use Rattle.arrow_schema.specs.View.{schema_of};
ghost use Rattle.cells.specs.Row.{row_of};
ghost use Rattle.text_import.specs.Form.{rows_of_text};
ghost use Rattle.text_import.specs.Refusals.{refused_by};

use crate::{TextError, csv_rows, jsonl_rows};
use arrow_schema::Schema;
use cells::Row;
use civil_days::DateForm;
use std::alloc::Global;

/// How the fields of a CSV text are read.
#[derive(Clone, Copy)]
pub struct FieldForm<'a> {
    /// The text that means a null where nulls are allowed.
    pub null_text: &'a [u8],
    /// How dates and times stand.
    pub dates: DateForm,
}

/// The form of a text of rows.
#[derive(Clone, Copy)]
pub enum TextForm<'a> {
    /// CSV.
    Csv(FieldForm<'a>),
    /// JSON Lines, with a line for each row, and how dates and times stand.
    JsonLines(DateForm),
}

/// Returns the rows of a text in this form for a schema.
///
/// # Errors
/// `Refused` with the first refusal and the number of its record; `OutOfMemory`.
pub fn rows_of_text(
    alloc: Global,
    form: &TextForm<'_>,
    schema: &Schema,
    text: &[u8],
) -> Result<Vec<Row>, TextError>
    ensures { Gives refused_by (λ v. map row_of v.items) result (rows_of_text form.now (schema_of schema.now) text.now) }
{
    match form {
        TextForm::Csv(form) => csv_rows(alloc, schema, text, form),
        TextForm::JsonLines(date_form) => jsonl_rows(alloc, *date_form, schema, text),
    }
}
