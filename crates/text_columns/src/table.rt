// The table of a text.
ghost use Rattle.std.specs.Prelude.{◌≡◌, true, Ok, List, length, IfOk, IfErr, IfSome};
ghost use Rattle.arrow_schema.specs.Column.{PlainSchema};
ghost use Rattle.arrow_schema.specs.Limits.{IsWithinLimits};
ghost use Rattle.arrow_schema.specs.View.{schema_of};
ghost use Rattle.cells.specs.Cell.{Cell};
ghost use Rattle.cells.specs.Weight.{table_weight};
ghost use Rattle.facts.specs.Outcomes.{Reports};
ghost use Rattle.text_import.specs.Objects.{jsonl_rows_of};
ghost use Rattle.text_import.specs.Records.{csv_rows_of};
ghost use Rattle.text_import.specs.Refusals.{refused_by};
ghost use Rattle.values.specs.Parts.{part_rows};
ghost use Rattle.values.specs.TableView.{table_of, is_in_parts};
ghost use Rattle.text_columns.specs.inner.Tables.{HasTable, MakesRows};
ghost use Rattle.text_import.specs.FieldForm.{field_form};

use crate::batches::{Batches, end_batches};
use crate::reading::{WeighedBatches, read_csv, read_jsonl};
use arrow_schema::Schema;
use civil_days::DateForm;
use std::alloc::{AllocError, Global};
use text_import::{FieldForm, TextError, rows_of_texts_are_rows};
use values::{Table, WeighedTable};

// Returns the table of the rows of record batches.
fn build_table(alloc: Global, schema: &Schema, batches: Batches) -> Result<Table, AllocError>
    requires { MakesRows (schema_of schema.now) batches }
    ensures rows { IfOk result (λ table. HasTable (schema_of schema.now) batches (table_of table)) }
    ensures in_parts { IfOk result (λ table. is_in_parts table ≡ true) }
{
    let parts = end_batches(alloc, batches)?;
    let table = Table::from_parts(alloc, schema.copy(alloc)?, parts)?;
    Ok(table)
}

/// Returns the table of the rows of a CSV text, and their weight. It is kept in record batches with the rows of a piece; in one, if a column has parts or a
/// dictionary; or in several, if such a column has more entries than its indices can name. `None` for some schemas with lists or structs, or if the rows
/// are too heavy for a table: the rows are then those of `text_import::csv_rows`, or its refusal.
///
/// # Errors
///
/// Those of `csv_rows`: the first refusal, of the header or of a record, with its number.
pub fn csv_table(
    alloc: Global,
    schema: &Schema,
    text: &[u8],
    form: &FieldForm<'_>,
) -> Result<Option<WeighedTable>, TextError>
    requires { IsWithinLimits (schema_of schema.now) }
    ensures read { IfOk result (λ found. IfSome found (λ w. csv_rows_of (schema_of schema.now) (field_form form.now) text.now ≡ Ok (table_of w.table).rows)) }
    ensures schema { IfOk result (λ found. IfSome found (λ w. (table_of w.table).schema ≡ schema_of schema.now)) }
    ensures weight { IfOk result (λ found. IfSome found (λ w. w.weight ≡ table_weight (schema_of schema.now) (table_of w.table).rows)) }
    ensures in_parts { IfOk result (λ found. IfSome found (λ w. is_in_parts w.table ≡ true)) }
    ensures refused { IfErr result (λ e. Reports (refused_by e) (csv_rows_of (schema_of schema.now) (field_form form.now) text.now)) }
{
    rows_of_texts_are_rows();
    let Some(read) = read_csv(alloc, schema, text, form)? else {
        return Ok(None);
    };
    let WeighedBatches { batches, weight } = read;
    let table = build_table(alloc, schema, batches)?;
    Ok(Some(WeighedTable { table, weight }))
}

/// Returns the table of the rows of a text of JSON Lines, and their weight. It is kept in record batches as that of `csv_table` is. `None` if a line is
/// refused or has a member twice, if two columns, or two fields of a struct, have one name (even if all lines are arrays), if a dictionary below a list or
/// a struct has indices of fewer than 32 bits, or if the rows are too heavy for a table: the rows are then those of `text_import::jsonl_rows`, or its
/// refusal.
///
/// # Errors
/// `AllocError` if memory was refused. For a text that is refused, `None` is returned.
pub fn jsonl_table(
    alloc: Global,
    date_form: DateForm,
    schema: &Schema,
    text: &[u8],
) -> Result<Option<WeighedTable>, AllocError>
    requires { IsWithinLimits (schema_of schema.now) }
    ensures read { IfOk result (λ found. IfSome found (λ w. jsonl_rows_of date_form (schema_of schema.now) text.now ≡ Ok (table_of w.table).rows)) }
    ensures schema { IfOk result (λ found. IfSome found (λ w. (table_of w.table).schema ≡ schema_of schema.now)) }
    ensures weight { IfOk result (λ found. IfSome found (λ w. w.weight ≡ table_weight (schema_of schema.now) (table_of w.table).rows)) }
    ensures in_parts { IfOk result (λ found. IfSome found (λ w. is_in_parts w.table ≡ true)) }
{
    rows_of_texts_are_rows();
    let Some(read) = read_jsonl(alloc, date_form, schema, text)? else {
        return Ok(None);
    };
    let WeighedBatches { batches, weight } = read;
    let table = build_table(alloc, schema, batches)?;
    Ok(Some(WeighedTable { table, weight }))
}
