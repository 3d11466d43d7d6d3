// Makes a table of what a query selects from a part of a table.
ghost use Rattle.std.specs.Prelude.{◌≡◌, true, [], length, IfOk, IfSome, IfNone};
ghost use Rattle.arrow_schema.specs.Column.{columns_of};
ghost use Rattle.arrow_schema.specs.View.{schema_of};
ghost use Rattle.query.specs.BoundQuery.{bound_query_in, selected_by};
ghost use Rattle.table_cut.specs.Rows.{runs_rows, runs_table, are_runs_sound};
ghost use Rattle.values.specs.Table.{IsTable};
ghost use Rattle.values.specs.TableView.{is_in_parts, table_of};

use crate::kept::{KeptRuns, keep_batches};
use crate::picked::pick_batches;
use crate::table_parts::{parts_of, table_of_stream};
use arrow_schema::Schema;
use ipc_encode::encode_runs;
use query::{BoundQuery, choose_rows};
use std::alloc::{AllocError, Global};
use values::Table;

// Makes the table of rows that are runs of slots: they are written as one stream, which is read again.
fn table_of_runs(alloc: Global, schema: &Schema, kept: KeptRuns<'_>) -> Result<Table, AllocError>
    requires table { IsTable (runs_table (schema_of schema.now) kept.runs.items) }
    requires sound { are_runs_sound (columns_of (schema_of schema.now).columns) kept.runs.items ≡ true }
    requires count { kept.rows ≡ length (runs_rows (columns_of (schema_of schema.now).columns) kept.runs.items) }
    ensures ok { IfOk result (λ t. table_of t ≡ runs_table (schema_of schema.now) kept.entry.runs.items) }
    ensures in_parts { IfOk result (λ t. is_in_parts t ≡ true) }
{
    let KeptRuns { runs, rows } = kept;
    let bytes = encode_runs(alloc, schema, runs, rows)?;
    table_of_stream(alloc, bytes)
}

/// Makes the table of what a query selects from a part of a table, in memory of its own; `None` if that is no row. `picked` is the schema of the
/// selection.
///
/// # Errors
/// `AllocError` if memory is refused.
pub(crate) fn select_part(
    alloc: Global,
    picked: &Schema,
    part: &Table,
    query: &BoundQuery,
) -> Result<Option<Table>, AllocError>
    requires schema { schema_of picked.now ≡ (selected_by (bound_query_in query.now) (table_of part.now)).schema }
    requires table { IsTable (selected_by (bound_query_in query.now) (table_of part.now)) }
    ensures ok { IfOk result (λ found. IfSome found (λ t. table_of t ≡ selected_by (bound_query_in query.now) (table_of part.now))) }
    ensures none { IfOk result (λ found. IfNone found ((selected_by (bound_query_in query.now) (table_of part.now)).rows ≡ [])) }
    ensures in_parts { IfOk result (λ found. IfSome found (λ t. is_in_parts t ≡ true)) }
{
    // For the proof: the number of rows is below 2^64, so that the limit 2^64 - 1 cuts off none.
    let _rows = part.len();
    let schema = part.schema();
    let most = query.limit.unwrap_or(u64::MAX);
    if most == 0 {
        return Ok(None);
    }
    let mask = choose_rows(alloc, part, query)?;
    let parts = parts_of(alloc, part)?;
    let batches = pick_batches(alloc, &schema.fields, parts.as_slice(), &query.places)?;
    let kept = keep_batches(alloc, &batches, &mask, most)?;
    if kept.rows == 0 {
        return Ok(None);
    }
    let selected = table_of_runs(alloc, picked, kept)?;
    Ok(Some(selected))
}
