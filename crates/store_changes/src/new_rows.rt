// New rows for an existing table: the tests that need only its entry.
ghost use Rattle.std.specs.Prelude.{◌≡◌, ◌⊎◌, map, Ok, Err, None, Some, IfOk, IfErr, OnOk};
ghost use Rattle.arrow_schema.specs.Limits.{IsWithinLimits};
ghost use Rattle.arrow_schema.specs.Shape.{HaveOneShape};
ghost use Rattle.arrow_schema.specs.View.{schema_of};
ghost use Rattle.cells.specs.Row.{row_of};
ghost use Rattle.cells.specs.Weight.{table_weight};
ghost use Rattle.catalogue.specs.Entries.{plain_entry};
ghost use Rattle.tables.specs.Verdict.{unfit_row};
ghost use Rattle.values.specs.Table.{IsTable};
ghost use Rattle.values.specs.TableView.{table_of};
ghost use Rattle.store_runs.specs.Changes.{rows_under};
ghost use Rattle.store_runs.specs.Deciding.{streamed_rows, given_rows};
ghost use Rattle.store_changes.specs.Appending.{added_to, ArePassed};

use crate::deciding::{test_bytes, test_shape};
use arrow_schema::{Schema, one_shape_is_decided};
use catalogue::TableEntry;
use cells::Row;
use ipc_stream::decode_weighed;
use std::alloc::{AllocError, Global};
use table_cut::first_unfit_row;
use tables::Refusal;
use values::{Table, TableError, WeighedTable, accepted_rows_are_a_table, copy_row};

/// New rows: those of a stream, those that a caller gives, or those of a table.
#[derive(Drop)]
pub enum NewRows {
    Stream(Vec<u8>),
    Given(Vec<Row>),
    OfTable(WeighedTable),
}

// S6: a new row does not fit the table.
fn test_rows(alloc: Global, own: &Schema, new: &Table) -> Result<(), Refusal>
    requires { HaveOneShape (schema_of own.now) (table_of new.now).schema }
    ensures ok { OnOk result (unfit_row (schema_of own.now) (table_of new.now).rows ≡ None) }
    ensures err { IfErr result (λ e. (e ≡ Refusal.OutOfMemory) ⊎ (unfit_row (schema_of own.now) (table_of new.now).rows ≡ Some e)) }
{
    match first_unfit_row(alloc, own, new) {
        Ok(None) => Ok(()),
        Ok(Some(row)) => Err(Refusal::RowUnfit(row)),
        Err(_) => Err(Refusal::OutOfMemory),
    }
}

// Returns the rows of a stream and their weight in an entry's table, if they pass all tests but that of the total weight.
fn pass_stream(alloc: Global, entry: &TableEntry, stream: Vec<u8>) -> Result<WeighedTable, Refusal>
    requires { IsWithinLimits (plain_entry entry.now).schema }
    ensures tested { IfOk result (λ new. streamed_rows stream.items (plain_entry entry.now)
        ≡ Ok (record { entry = plain_entry entry.now; rows = (table_of new.table).rows })) }
    ensures weight { IfOk result (λ new. new.weight ≡ table_weight (plain_entry entry.now).schema (table_of new.table).rows) }
    ensures table { IfOk result (λ new. IsTable (rows_under (plain_entry entry.now).schema (table_of new.table).rows)) }
    ensures refused { IfErr result (λ e. (e ≡ Refusal.OutOfMemory) ⊎ (streamed_rows stream.items (plain_entry entry.now) ≡ Err e)) }
{
    accepted_rows_are_a_table();
    one_shape_is_decided();
    test_bytes(&stream)?;
    let new = decode_weighed(alloc, stream)?;
    let own = entry.schema();
    test_shape(own, new.table.schema())?;
    test_rows(alloc, own, &new.table)?;
    Ok(new)
}

// Returns the same for rows that a caller gives, if they are not too heavy for any table.
fn pass_rows(
    alloc: Global,
    entry: &TableEntry,
    rows: Vec<Row>,
) -> Result<Option<WeighedTable>, Refusal>
    requires { IsWithinLimits (plain_entry entry.now).schema }
    ensures passed { IfOk result (ArePassed (plain_entry entry.now) (given_rows (map row_of rows.items) (plain_entry entry.now))) }
    ensures refused { IfErr result (λ e. (e ≡ Refusal.OutOfMemory) ⊎ (given_rows (map row_of rows.items) (plain_entry entry.now) ≡ Err e)) }
{
    accepted_rows_are_a_table();
    match Table::weighed(alloc, entry.schema().copy(alloc)?, rows) {
        Ok((table, weight)) => Ok(Some(WeighedTable { table, weight })),
        Err(TableError::Unfit(row)) => Err(Refusal::RowUnfit(row)),
        Err(TableError::Weight) => Ok(None),
        Err(TableError::OutOfMemory) => Err(Refusal::OutOfMemory),
    }
}

// Copies the rows of a table.
fn own_rows(alloc: Global, table: &Table) -> Result<Vec<Row>, AllocError>
    ensures { IfOk result (λ rows. map row_of rows.items ≡ (table_of table.now).rows) }
{
    let mut rows = Vec::with_capacity(alloc, table.len())?;
    for row in table.rows() {
        rows.push(copy_row(alloc, row)?)?;
    }
    Ok(rows)
}

// Returns the same for the rows of a table. If its schema is that of the entry, the table is used as it is. Otherwise its rows are copied and tested.
fn pass_table(
    alloc: Global,
    entry: &TableEntry,
    new: WeighedTable,
) -> Result<Option<WeighedTable>, Refusal>
    requires { IsWithinLimits (plain_entry entry.now).schema }
    ensures passed { IfOk result (ArePassed (plain_entry entry.now) (given_rows (table_of new.table).rows (plain_entry entry.now))) }
    ensures refused { IfErr result (λ e. (e ≡ Refusal.OutOfMemory) ⊎ (given_rows (table_of new.table).rows (plain_entry entry.now) ≡ Err e)) }
{
    accepted_rows_are_a_table();
    let own = entry.schema();
    if new.table.schema().equals(own) {
        return Ok(Some(new));
    }
    let rows = own_rows(alloc, &new.table)?;
    pass_rows(alloc, entry, rows)
}

/// Returns new rows that pass all tests of an entry's table but that of the total weight, as a table and its weight; `None` if they are too heavy for any
/// table.
///
/// # Errors
/// Those of the tests, in their order; `OutOfMemory`.
pub(crate) fn pass_new(
    alloc: Global,
    entry: &TableEntry,
    new: NewRows,
) -> Result<Option<WeighedTable>, Refusal>
    requires { IsWithinLimits (plain_entry entry.now).schema }
    ensures passed { IfOk result (ArePassed (plain_entry entry.now) (added_to new (plain_entry entry.now))) }
    ensures refused { IfErr result (λ e. (e ≡ Refusal.OutOfMemory) ⊎ (added_to new (plain_entry entry.now) ≡ Err e)) }
{
    match new {
        NewRows::Stream(stream) => match pass_stream(alloc, entry, stream) {
            Ok(weighed) => Ok(Some(weighed)),
            Err(refusal) => Err(refusal),
        },
        NewRows::Given(rows) => pass_rows(alloc, entry, rows),
        NewRows::OfTable(table) => pass_table(alloc, entry, table),
    }
}
