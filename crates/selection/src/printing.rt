// Prints the selection of a part of a table from its arrays, without making a table of it.
ghost use Rattle.std.specs.Prelude.{◌≡◌, ◌++◌, ◌≤◌, ◌<◌, ◌*◌, ◌^◌, true, length, map, take, sum_by, IfOk, OnErr, OnOk};
ghost use Rattle.std.specs.List.{flat_map, list_all};
ghost use Rattle.arrow_schema.specs.View.{column_of};
ghost use Rattle.cells.specs.Cell.{PlainTable};
ghost use Rattle.columns.specs.View.{fields_of};
ghost use Rattle.query.specs.BoundQuery.{bound_query_in, rows_selected};
ghost use Rattle.query.specs.Choice.{rows_set};
ghost use Rattle.query.specs.ObjectLine.{lines_text};
ghost use Rattle.query.specs.Printed.{is_printable};
ghost use Rattle.query.specs.Selection.{pick};
ghost use Rattle.selection.specs.inner.Picked.{picked_rows, is_picked_readable};
ghost use Rattle.values.specs.TableView.{table_of};

use crate::picked::{PickedBatch, arrays_of, pick_batches};
use crate::table_parts::parts_of;
use arrow_schema::Field;
use query::{BoundQuery, RowForm, RowShape, are_named_apart, choose_rows, push_set_lines};
use std::alloc::{AllocError, Global};
use values::Table;

// Appends the lines of the rows of batches whose bits are set, at most `most`, and returns their number.
fn push_batches(
    alloc: Global,
    text: &mut Vec<u8>,
    form: RowForm,
    fields: &[Field],
    batches: &[PickedBatch<'_>],
    mask: &[u8],
    most: u64,
) -> Result<u64, AllocError>
    requires readable { list_all (is_picked_readable (fields_of fields.now)) batches.now ≡ true }
    requires within { sum_by (λ b. b.rows) batches.now ≤ 8 * length mask.now }
    requires few { sum_by (λ b. b.rows) batches.now < 2 ^ 64 }
    ensures lines { OnOk result (text.new.items ≡ text.old.items
        ++ lines_text form (map column_of fields.now) (take most (rows_set mask.now 0 (flat_map (picked_rows (fields_of fields.now)) batches.now)))) }
    ensures count { IfOk result (λ n. n ≡ length (take most (rows_set mask.now 0 (flat_map (picked_rows (fields_of fields.now)) batches.now)))) }
{
    let mut start = 0;
    let mut left = most;
    for batch in batches {
        left -= push_set_lines(
            alloc,
            text,
            form,
            fields,
            arrays_of(batch),
            mask,
            start,
            left,
        )?;
        start += batch.rows;
    }
    Ok(most - left)
}

/// Appends the lines of the rows that a query selects from a part of a table, and returns their number. The fields are those of the columns asked for.
pub(crate) fn push_part(
    alloc: Global,
    text: &mut Vec<u8>,
    form: RowForm,
    fields: &[Field],
    part: &Table,
    query: &BoundQuery,
) -> Result<u64, AllocError>
    requires columns { pick query.now.places.items (table_of part.now).schema.columns ≡ map column_of fields.now }
    ensures lines { OnOk result (text.new.items ≡ text.old.items
        ++ lines_text form (map column_of fields.now) (rows_selected (bound_query_in query.now) (table_of part.now).rows)) }
    ensures count { IfOk result (λ n. n ≡ length (rows_selected (bound_query_in query.now) (table_of part.now).rows)) }
{
    // For the proof: the number of rows is below 2^64, so that the limit 2^64 - 1 cuts off none.
    let _rows = part.len();
    let schema = part.schema();
    let most = query.limit.unwrap_or(u64::MAX);
    if most == 0 {
        return Ok(0);
    }
    let mask = choose_rows(alloc, part, query)?;
    let parts = parts_of(alloc, part)?;
    let batches = pick_batches(alloc, &schema.fields, parts.as_slice(), &query.places)?;
    push_batches(alloc, text, form, fields, &batches, &mask, most)
}

/// Appends lines: where there is no text before them, they are the text.
pub(crate) fn append(text: &mut Vec<u8>, lines: Vec<u8>) -> Result<(), AllocError>
    ensures ok { OnOk result (text.new.items ≡ text.old.items ++ lines.items) }
    ensures err { OnErr result (text.new.items ≡ text.old.items) }
{
    if text.is_empty() {
        *text = lines;
        return Ok(());
    }
    text.extend_from_slice(&lines)
}

/// Returns whether rows of these columns can be printed: an object has a member for each column, so the names of the columns must differ.
pub(crate) fn can_be_printed(form: RowForm, fields: &[Field]) -> bool
    ensures { (t : PlainTable) → t.schema.columns ≡ map column_of fields.now → result ≡ is_printable form t }
{
    match form.shape {
        RowShape::Array => true,
        RowShape::Object => are_named_apart(fields),
    }
}
