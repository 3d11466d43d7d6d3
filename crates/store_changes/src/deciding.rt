// How the catalogue decides on a command: its tests in order, and then its change.
ghost use Rattle.std.specs.Prelude.{◌≡◌, [], Bool, IfOk, string_bytes};
ghost use Rattle.sector_dev.specs.Disk.{Image};
ghost use Rattle.arrow_schema.specs.View.{schema_of};
ghost use Rattle.catalogue.specs.Entries.{IsCatalogue};
ghost use Rattle.catalogue.specs.View.{catalogue_of};
ghost use Rattle.tables.specs.Commands.{create, import_stream, rename, drop_table};
ghost use Rattle.tables.specs.Verdict.{bad_name, too_many_bytes, other_shape, import_tests};
ghost use Rattle.store_changes.specs.Change.{change_of, edit_of, IsPut};
ghost use Rattle.store_runs.specs.Changes.{CanChange};
ghost use Rattle.store_runs.specs.Deciding.{IsAnswered, has_entry, missing_in, taken_in, full_in, create_tests, rename_tests};
ghost use Rattle.values.specs.TableView.{table_of};
ghost use Rattle.store_changes.specs.Tests.{Tests, decision_of};

use crate::change::{Change, Edit, NewSegments, SegmentRows};
use arrow_schema::{Schema, one_shape_is_decided, same_shape};
use catalogue::{Catalogue, MAX_TABLES, counts_after_changes, is_name};
use ipc_encode::pieces_are_tables;
use ipc_stream::decode;
use std::alloc::{AllocError, Global};
use tables::{Limit, MAX_IMPORT_BYTES, NewTable, Refusal};
use values::Table;

/// Returns whether a catalogue has a table with this name.
pub fn has_table(catalogue: &Catalogue, name: &str) -> bool
    ensures has { result ≡ has_entry (catalogue_of catalogue.now) name.now }
    ensures kept { IsCatalogue (catalogue_of catalogue.now) }
{
    catalogue.get(name).is_some()
}

// S3: no table may have the name.
fn test_name(name: &str) -> Result<(), Refusal>
    ensures { Tests result (bad_name name.now) }
{
    if is_name(name) {
        Ok(())
    } else {
        Err(Refusal::BadName)
    }
}

// S1: no table has the name.
fn test_there(catalogue: &Catalogue, name: &str) -> Result<(), Refusal>
    ensures { Tests result (missing_in (catalogue_of catalogue.now) name.now) }
{
    if has_table(catalogue, name) {
        Ok(())
    } else {
        Err(Refusal::NoTable)
    }
}

// S2: a table has the name.
fn test_free(catalogue: &Catalogue, name: &str) -> Result<(), Refusal>
    ensures { Tests result (taken_in (catalogue_of catalogue.now) name.now) }
{
    if has_table(catalogue, name) {
        Err(Refusal::NameTaken)
    } else {
        Ok(())
    }
}

// S7 Tables: there are as many tables as a store may have.
fn test_room(catalogue: &Catalogue, name: &str) -> Result<(), Refusal>
    ensures test { Tests result (full_in (catalogue_of catalogue.now) name.now) }
    ensures kept { IsCatalogue (catalogue_of catalogue.now) }
{
    if !has_table(catalogue, name) && catalogue.len() >= MAX_TABLES {
        Err(Refusal::TooMany(Limit::Tables))
    } else {
        Ok(())
    }
}

// S7 Bytes: the stream is longer than an import may be.
pub(crate) fn test_bytes(bytes: &[u8]) -> Result<(), Refusal>
    ensures { Tests result (too_many_bytes bytes.now) }
{
    if bytes.len() > MAX_IMPORT_BYTES {
        Err(Refusal::TooMany(Limit::Bytes))
    } else {
        Ok(())
    }
}

// S4: names, nullability or types differ.
pub(crate) fn test_shape(own: &Schema, new: &Schema) -> Result<(), Refusal>
    ensures { Tests result (other_shape (schema_of own.now) (schema_of new.now)) }
{
    one_shape_is_decided();
    if same_shape(own, new) {
        Ok(())
    } else {
        Err(Refusal::SchemaMismatch)
    }
}

/// Tests a new name: it is valid, no table has it, and there is room for one more table.
///
/// # Errors
/// `BadName`, `NameTaken`, `TooMany(Tables)`, in this order.
pub fn test_create(catalogue: &Catalogue, name: &str) -> Result<(), Refusal>
    ensures test { Tests result (create_tests (catalogue_of catalogue.now) name.now) }
    ensures kept { IsCatalogue (catalogue_of catalogue.now) }
{
    test_name(name)?;
    test_free(catalogue, name)?;
    test_room(catalogue, name)
}

fn test_import(table: &str, bytes: &[u8]) -> Result<(), Refusal>
    ensures { Tests result (import_tests table.now bytes.now) }
{
    test_name(table)?;
    test_bytes(bytes)
}

fn test_rename(catalogue: &Catalogue, from: &str, to: &str) -> Result<(), Refusal>
    ensures { Tests result (rename_tests (catalogue_of catalogue.now) from.now to.now) }
{
    test_there(catalogue, from)?;
    test_name(to)?;
    test_free(catalogue, to)
}

// Returns a change without new segments.
fn change_of_names(edit: Edit) -> Change
    ensures { change_of result ≡ record { edit = edit_of edit; streams = []; counts = [] } }
{
    Change { edit, new: None }
}

/// Returns the change that sets the table with this name. The pieces of its rows are the new segments.
///
/// # Errors
/// `AllocError` if memory was refused.
pub fn put_table(alloc: Global, name: String, table: Table) -> Result<Change, AllocError>
    ensures { IfOk result (λ change. IsPut (string_bytes name) (table_of table) (change_of change)) }
{
    let schema = table.schema().copy(alloc)?;
    let rows = SegmentRows {
        table,
        schema: None,
    };
    Ok(Change {
        edit: Edit::Put { name, schema },
        new: Some(NewSegments::Rows(rows)),
    })
}

/// Returns the change that creates a table without rows.
///
/// # Errors
/// Those of [`test_create`].
pub fn decide_create(catalogue: &Catalogue, new: NewTable) -> Result<Change, Refusal>
    ensures ok { IfOk result (λ change. CanChange (catalogue_of catalogue.now) (change_of change)) }
    ensures answers { (tells : Bool) (image : Image) → IsAnswered tells image (catalogue_of catalogue.now)
        (create (string_bytes new.name) (schema_of new.schema)) (decision_of result) }
{
    counts_after_changes();
    test_create(catalogue, &new.name)?;
    let NewTable { name, schema } = new;
    Ok(change_of_names(Edit::Put { name, schema }))
}

/// Returns the change that imports the table of a stream. It replaces a table with the same name.
///
/// # Errors
/// `BadName`; `TooMany(Bytes)`; those of the stream; `TooMany(Tables)`; in this order. `OutOfMemory`.
pub fn decide_import(
    alloc: Global,
    catalogue: &Catalogue,
    name: String,
    bytes: Vec<u8>,
) -> Result<Change, Refusal>
    ensures ok { IfOk result (λ change. CanChange (catalogue_of catalogue.now) (change_of change)) }
    ensures answers { (tells : Bool) (image : Image) → IsAnswered tells image (catalogue_of catalogue.now)
        (import_stream (string_bytes name) bytes.items) (decision_of result) }
{
    counts_after_changes();
    pieces_are_tables();
    test_import(&name, &bytes)?;
    let table = decode(alloc, bytes)?;
    test_room(catalogue, &name)?;
    Ok(put_table(alloc, name, table)?)
}

/// Returns the change that renames a table.
///
/// # Errors
/// `NoTable`, `BadName`, `NameTaken`, in this order.
pub fn decide_rename(catalogue: &Catalogue, from: String, to: String) -> Result<Change, Refusal>
    ensures ok { IfOk result (λ change. CanChange (catalogue_of catalogue.now) (change_of change)) }
    ensures answers { (tells : Bool) (image : Image) → IsAnswered tells image (catalogue_of catalogue.now)
        (rename (string_bytes from) (string_bytes to)) (decision_of result) }
{
    test_rename(catalogue, &from, &to)?;
    Ok(change_of_names(Edit::Move { from, to }))
}

/// Returns the change that removes a table.
///
/// # Errors
/// `NoTable`.
pub fn decide_drop(catalogue: &Catalogue, name: String) -> Result<Change, Refusal>
    ensures ok { IfOk result (λ change. CanChange (catalogue_of catalogue.now) (change_of change)) }
    ensures answers { (tells : Bool) (image : Image) → IsAnswered tells image (catalogue_of catalogue.now)
        (drop_table (string_bytes name)) (decision_of result) }
{
    test_there(catalogue, &name)?;
    Ok(change_of_names(Edit::Remove { name }))
}
