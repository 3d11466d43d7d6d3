// Arrays of any type, each before its child arrays.
ghost use Rattle.std.specs.Prelude.{◌≡◌, true, OnOk, IfOk, Some, None, map};
ghost use Rattle.arrow_schema.specs.Column.{columns_of, fixed_lists, structs};
ghost use Rattle.arrow_schema.specs.View.{kind_of, column_of, index_of};
ghost use Rattle.batch_build.specs.Batch.{batch_in, batch_of, dictionary_in, built_at, built_below, plain_column, with_arrays};
ghost use Rattle.batch_build.specs.Coded.{values_batch};
ghost use Rattle.batch_build.specs.Nodes.{list_kind};
ghost use Rattle.cells.specs.Dictionary.{part_list};
ghost use Rattle.columns.specs.Buildable.{can_build, can_build_parts, can_build_rows};
ghost use Rattle.columns.specs.Borrowed.{borrowed_cell, borrowed_cells};

use crate::batch::{BuiltBatch, BuiltDictionary, empty_batch, push_buffer, push_slots};
use crate::coded_cells::{push_dictionary, push_indices, values_of};
use crate::content_bytes::item_offsets;
use crate::flat::{
    build_binaries, build_booleans, build_dates, build_fixed_binaries, build_integers, build_nulls,
    build_texts, build_timestamps,
};
use crate::item_cells::items_of_size;
use crate::part_cells::{cells_at, parts};
use arrow_schema::{DataType, DictSpec, Field};
use columns::OffsetWidth;
use std::alloc::{AllocError, Global};
use values::{ValueRef, Values, items};

/// Adds the array of a field's cells, and its child arrays.
#[tactic(auto, using(crate::specs::laws::Fields::plain_field, crate::specs::laws::Fields::dictionary_field))]
#[cycle(building)]
pub(crate) fn build_column(
    alloc: Global,
    batch: &mut BuiltBatch<'_>,
    field: &Field,
    cells: &[ValueRef<'_>],
) -> Result<(), AllocError>
    requires { can_build (column_of field.now) (map borrowed_cell cells.now) ≡ true }
    ensures { OnOk result (batch_in batch.new ≡ with_arrays (batch_in batch.old) (built_at (column_of field.now) (map borrowed_cell cells.now))) }
{
    match field.dictionary {
        None => build_kind(alloc, batch, &field.data_type, cells),
        Some(dictionary) => build_dictionary(alloc, batch, &field.data_type, dictionary, cells),
    }
}

// The same, for a column of this type without a dictionary, whatever its name.
#[tactic(auto, using(arrow_schema::specs::declared::types::Field::the_lemmas))]
#[cycle(building)]
fn build_kind(
    alloc: Global,
    batch: &mut BuiltBatch<'_>,
    data_type: &DataType,
    cells: &[ValueRef<'_>],
) -> Result<(), AllocError>
    requires { can_build (plain_column (kind_of data_type.now) None) (map borrowed_cell cells.now) ≡ true }
    ensures { OnOk result (batch_in batch.new ≡ with_arrays (batch_in batch.old)
        (built_at (plain_column (kind_of data_type.now) None) (map borrowed_cell cells.now))) }
{
    match data_type {
        DataType::Null => build_nulls(batch, cells),
        DataType::Bool => build_booleans(alloc, batch, cells),
        DataType::Int(integer) => build_integers(alloc, batch, *integer, cells),
        DataType::Date(unit) => build_dates(alloc, batch, *unit, cells),
        DataType::Timestamp(_, _) => build_timestamps(alloc, batch, cells),
        DataType::Utf8 => build_texts(alloc, batch, OffsetWidth::Four, cells),
        DataType::LargeUtf8 => build_texts(alloc, batch, OffsetWidth::Eight, cells),
        DataType::Binary => build_binaries(alloc, batch, OffsetWidth::Four, cells),
        DataType::LargeBinary => build_binaries(alloc, batch, OffsetWidth::Eight, cells),
        DataType::FixedSizeBinary(width) => {
            build_fixed_binaries(alloc, batch, *width as usize, cells)
        }
        DataType::List(item) => build_lists(alloc, batch, OffsetWidth::Four, item, cells),
        DataType::LargeList(item) => build_lists(alloc, batch, OffsetWidth::Eight, item, cells),
        DataType::FixedSizeList(size, item) => {
            build_fixed_lists(alloc, batch, *size as usize, item, cells)
        }
        DataType::Struct(fields) => build_structs(alloc, batch, fields, cells),
    }
}

#[tactic(auto, using(crate::specs::laws::Arrays::lists_are, crate::specs::laws::Premises::lists_fit, crate::specs::laws::Premises::items_can_be_built))]
#[cycle(building)]
fn build_lists(
    alloc: Global,
    batch: &mut BuiltBatch<'_>,
    width: OffsetWidth,
    item: &Field,
    cells: &[ValueRef<'_>],
) -> Result<(), AllocError>
    requires { can_build (plain_column (list_kind width (column_of item.now)) None) (map borrowed_cell cells.now) ≡ true }
    ensures { OnOk result (batch_in batch.new ≡ with_arrays (batch_in batch.old)
        (built_at (plain_column (list_kind width (column_of item.now)) None) (map borrowed_cell cells.now))) }
{
    push_slots(alloc, batch, cells)?;
    push_buffer(batch, item_offsets(alloc, width, cells)?)?;
    let listed = items(alloc, cells)?;
    build_column(alloc, batch, item, &listed)
}

#[tactic(auto, using(crate::specs::laws::Arrays::fixed_lists_are, crate::specs::laws::Premises::fixed_items_can_be_built))]
#[cycle(building)]
fn build_fixed_lists(
    alloc: Global,
    batch: &mut BuiltBatch<'_>,
    size: usize,
    item: &Field,
    cells: &[ValueRef<'_>],
) -> Result<(), AllocError>
    requires { can_build (plain_column (fixed_lists size (column_of item.now)) None) (map borrowed_cell cells.now) ≡ true }
    ensures { OnOk result (batch_in batch.new ≡ with_arrays (batch_in batch.old)
        (built_at (plain_column (fixed_lists size (column_of item.now)) None) (map borrowed_cell cells.now))) }
{
    push_slots(alloc, batch, cells)?;
    let items = items_of_size(alloc, size, cells)?;
    build_column(alloc, batch, item, &items)
}

#[tactic(auto, using(crate::specs::laws::Arrays::structs_are, crate::specs::laws::Premises::parts_can_be_built))]
#[cycle(building)]
fn build_structs(
    alloc: Global,
    batch: &mut BuiltBatch<'_>,
    fields: &[Field],
    cells: &[ValueRef<'_>],
) -> Result<(), AllocError>
    requires { can_build (plain_column (structs (columns_of (map column_of fields.now))) None) (map borrowed_cell cells.now) ≡ true }
    ensures { OnOk result (batch_in batch.new ≡ with_arrays (batch_in batch.old)
        (built_at (plain_column (structs (columns_of (map column_of fields.now))) None) (map borrowed_cell cells.now))) }
{
    push_slots(alloc, batch, cells)?;
    build_parts(alloc, batch, fields, cells)
}

// Adds the arrays of the parts of structs, and their child arrays; all parts of a null struct are nulls.
#[cycle(building)]
fn build_parts(
    alloc: Global,
    batch: &mut BuiltBatch<'_>,
    fields: &[Field],
    cells: &[ValueRef<'_>],
) -> Result<(), AllocError>
    requires { can_build_parts (columns_of (map column_of fields.now)) (map part_list (map borrowed_cell cells.now)) ≡ true }
    ensures { OnOk result (batch_in batch.new ≡ with_arrays (batch_in batch.old)
        (built_below (columns_of (map column_of fields.now)) (map part_list (map borrowed_cell cells.now)))) }
{
    for (place, field) in fields.iter().enumerate() {
        let parts = parts(alloc, place, cells)?;
        build_column(alloc, batch, field, &parts)?;
    }
    Ok(())
}

/// Makes the batch of a dictionary's values, which are of this type (Arrow columnar format, "DictionaryBatch message").
///
/// # Errors
/// `AllocError` if memory was refused.
#[cycle(building)]
pub fn build_values<'a>(
    alloc: Global,
    data_type: &DataType,
    entries: &[ValueRef<'_>],
) -> Result<BuiltDictionary<'a>, AllocError>
    requires { can_build (plain_column (kind_of data_type.now) None) (map borrowed_cell entries.now) ≡ true }
    ensures { IfOk result (λ dictionary. dictionary_in dictionary ≡ values_batch (kind_of data_type.now) (map borrowed_cell entries.now)) }
{
    let mut batch = empty_batch(alloc);
    build_kind(alloc, &mut batch, data_type, entries)?;
    Ok(values_of(entries.len(), batch))
}

// Adds the indices of cells, and the batch of the dictionary that they name.
#[cycle(building)]
fn build_dictionary<'a>(
    alloc: Global,
    batch: &mut BuiltBatch<'a>,
    data_type: &DataType,
    dictionary: DictSpec,
    cells: &[ValueRef<'_>],
) -> Result<(), AllocError>
    requires { can_build (plain_column (kind_of data_type.now) (Some (index_of dictionary))) (map borrowed_cell cells.now) ≡ true }
    ensures { OnOk result (batch_in batch.new ≡ with_arrays (batch_in batch.old)
        (built_at (plain_column (kind_of data_type.now) (Some (index_of dictionary))) (map borrowed_cell cells.now))) }
{
    let entries = push_indices(alloc, batch, dictionary.index, cells)?;
    let values = build_values(alloc, data_type, &entries)?;
    push_dictionary(batch, values)
}

/// Makes the nodes and buffers of a batch of rows, and of the dictionaries of its columns: those of the one array that each column is written as
/// (Arrow columnar format, "RecordBatch message"). Each array is before its child arrays.
///
/// # Errors
/// `AllocError` if memory was refused.
pub fn build<'a>(
    alloc: Global,
    fields: &[Field],
    rows: &[Values<'_>],
) -> Result<BuiltBatch<'a>, AllocError>
    requires { can_build_rows (columns_of (map column_of fields.now)) (map borrowed_cells rows.now) ≡ true }
    ensures { IfOk result (λ batch. batch_in batch ≡ batch_of (built_below (columns_of (map column_of fields.now)) (map borrowed_cells rows.now))) }
{
    let mut batch = empty_batch(alloc);
    for (place, field) in fields.iter().enumerate() {
        let cells = cells_at(alloc, place, rows)?;
        build_column(alloc, &mut batch, field, &cells)?;
    }
    Ok(batch)
}
