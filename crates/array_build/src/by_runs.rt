// Arrays of columns that are given as runs of slots: bytes of slots stay where they are or are copied; a cell is made only for an entry of a dictionary.
ghost use Rattle.std.specs.Prelude.{◌≡◌, true, OnOk, IfOk, List, Some, None, is_some, length, map};
ghost use Rattle.arrow_schema.specs.Column.{columns_of, fixed_lists, structs};
ghost use Rattle.arrow_schema.specs.View.{kind_of, column_of};
ghost use Rattle.batch_build.specs.Batch.{batch_in, batch_of, built_at, built_below, plain_column, with_arrays};
ghost use Rattle.batch_build.specs.Nodes.{list_kind};
ghost use Rattle.array_build.specs.inner.Masked.{AddsMasked, masked_kind, masked_parts};
ghost use Rattle.dictionary_codes.specs.Masks.{IsMask, masked_cells};
ghost use Rattle.array_build.specs.inner.RunItems.{fixed_column, list_column};
ghost use Rattle.array_build.specs.inner.Runs.{AddsRuns, AreAsWritten, are_runs_as_written, built_columns, fixed_width, offsets_width};
ghost use Rattle.columns.specs.Runs.{HaveRuns, are_columns_sound, are_runs_sound, can_build_columns, runs_cells};
ghost use Rattle.cells.specs.Cell.{Cell};
ghost use Rattle.columns.specs.Buildable.{can_build, can_build_parts};
ghost use Rattle.columns.specs.Offsets.{contents_width};

use crate::as_written::are_as_written;
use crate::entry_arrays::build_entries;
use crate::flat_runs::{build_run_bits, build_run_contents, build_run_nulls, build_run_values};
use crate::kept_buffers::{kept_buffer, own_offsets};
use crate::masked_contents::build_masked_contents;
use crate::masked_lists::push_masked_lists;
use crate::run_fixed_items::{fixed_item_runs, item_mask};
use crate::run_indices::push_run_indices;
use crate::run_items::{item_runs, run_list_offsets};
use crate::run_parts::field_runs;
use crate::run_slots::push_run_slots;
use crate::slot_masks::push_masked_slots;
use crate::widths::{offsets_width, value_width};
use arrow_schema::{DataType, DictSpec, Field};
use batch_build::{BuiltBatch, empty_batch, offset_size, push_any_buffer, push_dictionary};
use columns::{OffsetWidth, SlotRun, contents_width};
use dictionary_codes::{KnownEntries, count_slots};
use std::alloc::{AllocError, Global};

// Adds the indices of a dictionary column under a mask, and its entries.
fn build_coded_column<'k, 'a: 'k>(
    alloc: Global,
    batch: &mut BuiltBatch<'a>,
    entries: &mut KnownEntries<'k>,
    field: &'k Field,
    spec: DictSpec,
    runs: &[SlotRun<'a>],
    mask: &[u8],
) -> Result<(), AllocError>
    requires spec { field.now.dictionary ≡ Some spec }
    requires sound { are_runs_sound (column_of field.now) runs.now ≡ true }
    requires mask { IsMask mask.now runs.now }
    requires fits { can_build (column_of field.now) (masked_cells (column_of field.now) mask.now runs.now) ≡ true }
    ensures { OnOk result (batch_in batch.new ≡ with_arrays (batch_in batch.old)
        (built_at (column_of field.now) (masked_cells (column_of field.now) mask.now runs.now))) }
{
    let named = push_run_indices(alloc, batch, entries, field, spec, runs, mask)?;
    let values = build_entries(alloc, &field.data_type, &named)?;
    push_dictionary(batch, values)
}

// Adds the array of lists that are already as they are written, and the array of their items.
#[cycle(by_runs)]
fn build_list_kind<'k, 'a: 'k>(
    alloc: Global,
    batch: &mut BuiltBatch<'a>,
    entries: &mut KnownEntries<'k>,
    data_type: &'k DataType,
    runs: &[SlotRun<'a>],
) -> Result<(), AllocError>
    requires contents { contents_width (kind_of data_type.now) ≡ None }
    requires offsets { is_some (offsets_width (kind_of data_type.now)) ≡ true }
    requires ready { AreAsWritten (kind_of data_type.now) runs.now }
    ensures { OnOk result (AddsRuns (kind_of data_type.now) runs.now batch.old batch.new) }
{
    match data_type {
        DataType::List(item) => build_run_lists(
            alloc,
            batch,
            entries,
            OffsetWidth::Four,
            item,
            runs,
        ),
        DataType::LargeList(item) => build_run_lists(
            alloc,
            batch,
            entries,
            OffsetWidth::Eight,
            item,
            runs,
        ),
        _ => unreachable!(),
    }
}

// Adds lists that are already as they are written: a node, a validity bitmap and offsets, followed by the array of all items.
#[cycle(by_runs)]
fn build_run_lists<'k, 'a: 'k>(
    alloc: Global,
    batch: &mut BuiltBatch<'a>,
    entries: &mut KnownEntries<'k>,
    width: OffsetWidth,
    item: &'k Field,
    runs: &[SlotRun<'a>],
) -> Result<(), AllocError>
    requires ready { AreAsWritten (list_kind width (column_of item.now)) runs.now }
    ensures { OnOk result (AddsRuns (list_kind width (column_of item.now)) runs.now batch.old batch.new) }
{
    push_run_slots(alloc, batch, runs)?;
    let offsets = run_list_offsets(alloc, item, width, runs)?;
    let own = own_offsets(runs, offset_size(width), offsets.len());
    push_any_buffer(batch, kept_buffer(own, offsets))?;
    let items = item_runs(alloc, item, width, runs)?;
    build_run_column(alloc, batch, entries, item, &items, &[])
}

// Adds the array of runs that are already as they are written, and its child arrays, for a type with offsets.
#[cycle(by_runs)]
fn build_written_kind<'k, 'a: 'k>(
    alloc: Global,
    batch: &mut BuiltBatch<'a>,
    entries: &mut KnownEntries<'k>,
    data_type: &'k DataType,
    runs: &[SlotRun<'a>],
) -> Result<(), AllocError>
    requires offsets { is_some (offsets_width (kind_of data_type.now)) ≡ true }
    requires ready { AreAsWritten (kind_of data_type.now) runs.now }
    ensures { OnOk result (AddsRuns (kind_of data_type.now) runs.now batch.old batch.new) }
{
    match contents_width(data_type) {
        Some(width) => build_run_contents(alloc, batch, data_type, width, runs),
        None => build_list_kind(alloc, batch, entries, data_type, runs),
    }
}

// Returns whether runs under a mask can be copied as they are.
fn are_copied(data_type: &DataType, runs: &[SlotRun<'_>], mask: &[u8]) -> bool
    requires { are_runs_sound (plain_column (kind_of data_type.now) None) runs.now ≡ true }
    ensures mask { result ≡ true → length mask.now ≡ 0 }
    ensures written { result ≡ true → are_runs_as_written (kind_of data_type.now) runs.now ≡ true }
{
    if mask.is_empty() {
        return are_as_written(data_type, runs);
    }
    false
}

// Adds lists under a mask, whatever is below their nulls, and the array of their items.
#[cycle(by_runs)]
fn build_masked_lists<'k, 'a: 'k>(
    alloc: Global,
    batch: &mut BuiltBatch<'a>,
    entries: &mut KnownEntries<'k>,
    width: OffsetWidth,
    item: &'k Field,
    runs: &[SlotRun<'a>],
    mask: &[u8],
) -> Result<(), AllocError>
    requires sound { are_runs_sound (list_column width (column_of item.now)) runs.now ≡ true }
    requires mask { IsMask mask.now runs.now }
    requires fits { can_build (list_column width (column_of item.now)) (masked_kind (list_kind width (column_of item.now)) mask.now runs.now) ≡ true }
    ensures { OnOk result (AddsMasked (list_kind width (column_of item.now)) runs.now mask.now batch.old batch.new) }
{
    let items = push_masked_lists(alloc, batch, item, width, runs, mask)?;
    build_run_column(alloc, batch, entries, item, &items, &[])
}

#[cycle(by_runs)]
fn build_masked_list_kind<'k, 'a: 'k>(
    alloc: Global,
    batch: &mut BuiltBatch<'a>,
    entries: &mut KnownEntries<'k>,
    data_type: &'k DataType,
    runs: &[SlotRun<'a>],
    mask: &[u8],
) -> Result<(), AllocError>
    requires contents { contents_width (kind_of data_type.now) ≡ None }
    requires offsets { is_some (offsets_width (kind_of data_type.now)) ≡ true }
    requires sound { are_runs_sound (plain_column (kind_of data_type.now) None) runs.now ≡ true }
    requires mask { IsMask mask.now runs.now }
    requires fits { can_build (plain_column (kind_of data_type.now) None) (masked_kind (kind_of data_type.now) mask.now runs.now) ≡ true }
    ensures { OnOk result (AddsMasked (kind_of data_type.now) runs.now mask.now batch.old batch.new) }
{
    match data_type {
        DataType::List(item) => build_masked_lists(
            alloc,
            batch,
            entries,
            OffsetWidth::Four,
            item,
            runs,
            mask,
        ),
        DataType::LargeList(item) => build_masked_lists(
            alloc,
            batch,
            entries,
            OffsetWidth::Eight,
            item,
            runs,
            mask,
        ),
        _ => unreachable!(),
    }
}

// Adds the array of runs under a mask, and its child arrays, for a type with offsets.
#[cycle(by_runs)]
fn build_offsets_kind<'k, 'a: 'k>(
    alloc: Global,
    batch: &mut BuiltBatch<'a>,
    entries: &mut KnownEntries<'k>,
    data_type: &'k DataType,
    runs: &[SlotRun<'a>],
    mask: &[u8],
) -> Result<(), AllocError>
    requires offsets { is_some (offsets_width (kind_of data_type.now)) ≡ true }
    requires sound { are_runs_sound (plain_column (kind_of data_type.now) None) runs.now ≡ true }
    requires mask { IsMask mask.now runs.now }
    requires fits { can_build (plain_column (kind_of data_type.now) None) (masked_kind (kind_of data_type.now) mask.now runs.now) ≡ true }
    ensures { OnOk result (AddsMasked (kind_of data_type.now) runs.now mask.now batch.old batch.new) }
{
    if are_copied(data_type, runs, mask) {
        return build_written_kind(alloc, batch, entries, data_type, runs);
    }
    match contents_width(data_type) {
        Some(width) => build_masked_contents(alloc, batch, data_type, width, runs, mask),
        None => build_masked_list_kind(alloc, batch, entries, data_type, runs, mask),
    }
}

// Adds fixed lists: a node and a validity bitmap, followed by the array of all items. The items of a null list are nulls.
#[cycle(by_runs)]
fn build_run_fixed_lists<'k, 'a: 'k>(
    alloc: Global,
    batch: &mut BuiltBatch<'a>,
    entries: &mut KnownEntries<'k>,
    size: usize,
    item: &'k Field,
    runs: &[SlotRun<'a>],
    mask: &[u8],
) -> Result<(), AllocError>
    requires sound { are_runs_sound (fixed_column size (column_of item.now)) runs.now ≡ true }
    requires mask { IsMask mask.now runs.now }
    requires fits { can_build (fixed_column size (column_of item.now)) (masked_kind (fixed_lists size (column_of item.now)) mask.now runs.now) ≡ true }
    ensures { OnOk result (AddsMasked (fixed_lists size (column_of item.now)) runs.now mask.now batch.old batch.new) }
{
    let below = push_masked_slots(alloc, batch, runs, mask)?;
    let items = fixed_item_runs(alloc, item, size, runs)?;
    let slots = count_slots(runs)?;
    let items_mask = item_mask(alloc, &below, slots, size)?;
    build_run_column(alloc, batch, entries, item, &items, &items_mask)
}

// Adds structs: a node and a validity bitmap, followed by the array of each field with the same slots. The fields of a null struct are nulls.
#[cycle(by_runs)]
fn build_run_structs<'k, 'a: 'k>(
    alloc: Global,
    batch: &mut BuiltBatch<'a>,
    entries: &mut KnownEntries<'k>,
    fields: &'k [Field],
    runs: &[SlotRun<'a>],
    mask: &[u8],
) -> Result<(), AllocError>
    requires sound { are_runs_sound (plain_column (structs (columns_of (map column_of fields.now))) None) runs.now ≡ true }
    requires mask { IsMask mask.now runs.now }
    requires fits { can_build (plain_column (structs (columns_of (map column_of fields.now))) None)
        (masked_kind (structs (columns_of (map column_of fields.now))) mask.now runs.now) ≡ true }
    ensures { OnOk result (AddsMasked (structs (columns_of (map column_of fields.now))) runs.now mask.now batch.old batch.new) }
{
    let below = push_masked_slots(alloc, batch, runs, mask)?;
    build_struct_parts(alloc, batch, entries, fields, runs, &below)
}

// Adds the arrays of the fields of structs. The runs of a field are dropped before those of the next one are made.
#[cycle(by_runs)]
fn build_struct_parts<'k, 'a: 'k>(
    alloc: Global,
    batch: &mut BuiltBatch<'a>,
    entries: &mut KnownEntries<'k>,
    fields: &'k [Field],
    runs: &[SlotRun<'a>],
    mask: &[u8],
) -> Result<(), AllocError>
    requires sound { are_runs_sound (plain_column (structs (columns_of (map column_of fields.now))) None) runs.now ≡ true }
    requires mask { IsMask mask.now runs.now }
    requires fits { can_build_parts (columns_of (map column_of fields.now)) (masked_parts (columns_of (map column_of fields.now)) mask.now runs.now) ≡ true }
    ensures { OnOk result (batch_in batch.new ≡ with_arrays (batch_in batch.old) (built_below (columns_of (map column_of fields.now))
        (masked_parts (columns_of (map column_of fields.now)) mask.now runs.now))) }
{
    for (place, field) in fields.iter().enumerate() {
        let part = field_runs(alloc, field, runs, place)?;
        build_run_column(alloc, batch, entries, field, &part, mask)?;
    }
    Ok(())
}

// Adds the array of runs under a mask, and its child arrays, for a type with neither values of one width nor offsets.
#[cycle(by_runs)]
fn build_other_kind<'k, 'a: 'k>(
    alloc: Global,
    batch: &mut BuiltBatch<'a>,
    entries: &mut KnownEntries<'k>,
    data_type: &'k DataType,
    runs: &[SlotRun<'a>],
    mask: &[u8],
) -> Result<(), AllocError>
    requires values { fixed_width (kind_of data_type.now) ≡ None }
    requires offsets { offsets_width (kind_of data_type.now) ≡ None }
    requires sound { are_runs_sound (plain_column (kind_of data_type.now) None) runs.now ≡ true }
    requires mask { IsMask mask.now runs.now }
    requires fits { can_build (plain_column (kind_of data_type.now) None) (masked_kind (kind_of data_type.now) mask.now runs.now) ≡ true }
    ensures { OnOk result (AddsMasked (kind_of data_type.now) runs.now mask.now batch.old batch.new) }
{
    match data_type {
        DataType::Null => build_run_nulls(batch, data_type, runs, mask),
        DataType::Bool => build_run_bits(alloc, batch, data_type, runs, mask),
        DataType::FixedSizeList(size, item) => build_run_fixed_lists(
            alloc,
            batch,
            entries,
            *size as usize,
            item,
            runs,
            mask,
        ),
        DataType::Struct(fields) => build_run_structs(alloc, batch, entries, fields, runs, mask),
        _ => unreachable!(),
    }
}

// Adds the array of runs under a mask, and its child arrays, for a type without values of one width.
#[cycle(by_runs)]
fn build_wide_kind<'k, 'a: 'k>(
    alloc: Global,
    batch: &mut BuiltBatch<'a>,
    entries: &mut KnownEntries<'k>,
    data_type: &'k DataType,
    runs: &[SlotRun<'a>],
    mask: &[u8],
) -> Result<(), AllocError>
    requires values { fixed_width (kind_of data_type.now) ≡ None }
    requires sound { are_runs_sound (plain_column (kind_of data_type.now) None) runs.now ≡ true }
    requires mask { IsMask mask.now runs.now }
    requires fits { can_build (plain_column (kind_of data_type.now) None) (masked_kind (kind_of data_type.now) mask.now runs.now) ≡ true }
    ensures { OnOk result (AddsMasked (kind_of data_type.now) runs.now mask.now batch.old batch.new) }
{
    match offsets_width(data_type) {
        Some(_) => build_offsets_kind(alloc, batch, entries, data_type, runs, mask),
        None => build_other_kind(alloc, batch, entries, data_type, runs, mask),
    }
}

// Adds the array of runs under a mask, and its child arrays, for any type.
#[cycle(by_runs)]
fn build_run_kind<'k, 'a: 'k>(
    alloc: Global,
    batch: &mut BuiltBatch<'a>,
    entries: &mut KnownEntries<'k>,
    data_type: &'k DataType,
    runs: &[SlotRun<'a>],
    mask: &[u8],
) -> Result<(), AllocError>
    requires sound { are_runs_sound (plain_column (kind_of data_type.now) None) runs.now ≡ true }
    requires mask { IsMask mask.now runs.now }
    requires fits { can_build (plain_column (kind_of data_type.now) None) (masked_kind (kind_of data_type.now) mask.now runs.now) ≡ true }
    ensures { OnOk result (AddsMasked (kind_of data_type.now) runs.now mask.now batch.old batch.new) }
{
    match value_width(data_type) {
        Some(width) => build_run_values(alloc, batch, data_type, width, runs, mask),
        None => build_wide_kind(alloc, batch, entries, data_type, runs, mask),
    }
}

// Adds the array of a field's runs under a mask, and its child arrays.
#[cycle(by_runs)]
fn build_run_column<'k, 'a: 'k>(
    alloc: Global,
    batch: &mut BuiltBatch<'a>,
    entries: &mut KnownEntries<'k>,
    field: &'k Field,
    runs: &[SlotRun<'a>],
    mask: &[u8],
) -> Result<(), AllocError>
    requires sound { are_runs_sound (column_of field.now) runs.now ≡ true }
    requires mask { IsMask mask.now runs.now }
    requires fits { can_build (column_of field.now) (masked_cells (column_of field.now) mask.now runs.now) ≡ true }
    ensures { OnOk result (batch_in batch.new ≡ with_arrays (batch_in batch.old)
        (built_at (column_of field.now) (masked_cells (column_of field.now) mask.now runs.now))) }
{
    match field.dictionary {
        None => build_run_kind(alloc, batch, entries, &field.data_type, runs, mask),
        Some(spec) => build_coded_column(alloc, batch, entries, field, spec, runs, mask),
    }
}

// Adds the arrays of columns, and their child arrays.
fn build_run_parts<'k, 'a: 'k>(
    alloc: Global,
    batch: &mut BuiltBatch<'a>,
    entries: &mut KnownEntries<'k>,
    fields: &'k [Field],
    columns: &[Vec<SlotRun<'a>>],
) -> Result<(), AllocError>
    requires sound { are_columns_sound (columns_of (map column_of fields.now)) (map (λ v. v.items) columns.now) ≡ true }
    requires fits { can_build_columns (columns_of (map column_of fields.now)) (map (λ v. v.items) columns.now) ≡ true }
    ensures { OnOk result (batch_in batch.new ≡ with_arrays (batch_in batch.old)
        (built_columns (columns_of (map column_of fields.now)) (map (λ v. v.items) columns.now))) }
{
    for (place, field) in fields.iter().enumerate() {
        build_run_column(alloc, batch, entries, field, &columns[place], &[])?;
    }
    Ok(())
}

/// Makes the batch of rows whose columns are runs of slots. A buffer of a single run stays where it is, if it is already as it is written; otherwise bytes are
/// copied run by run. Only nulls and entries of dictionaries are handled one by one; what is known of the entries is kept for the next rows.
///
/// # Errors
/// `AllocError` if memory was refused. Entries may have been added to the known ones; all of them are correct, so the next rows can be built with them.
pub fn build_runs<'k, 'a: 'k>(
    alloc: Global,
    entries: &mut KnownEntries<'k>,
    fields: &'k [Field],
    columns: &[Vec<SlotRun<'a>>],
) -> Result<BuiltBatch<'a>, AllocError>
    requires sound { are_columns_sound (columns_of (map column_of fields.now)) (map (λ v. v.items) columns.now) ≡ true }
    requires fits { can_build_columns (columns_of (map column_of fields.now)) (map (λ v. v.items) columns.now) ≡ true }
    ensures { IfOk result (λ batch. (rows : List (List Cell)) → HaveRuns (columns_of (map column_of fields.now)) (map (λ v. v.items) columns.now) rows
        → batch_in batch ≡ batch_of (built_below (columns_of (map column_of fields.now)) rows)) }
{
    let mut batch = empty_batch(alloc);
    build_run_parts(alloc, &mut batch, entries, fields, columns)?;
    Ok(batch)
}
