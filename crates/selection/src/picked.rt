// The arrays of record batches for the columns asked for.
ghost use Rattle.std.specs.Prelude.{◌≡◌, ◌++◌, ℕ, List, true, map, drop, IfOk, OnOk};
ghost use Rattle.std.specs.List.{flat_map, list_all};
ghost use Rattle.arrow_schema.specs.Column.{Columns};
ghost use Rattle.columns.specs.Array.{first_array};
ghost use Rattle.columns.specs.View.{array_in, arrays_in, placed_arrays, fields_of};
ghost use Rattle.columns.specs.declared.array.Dictionary.{Dictionary};
ghost use Rattle.query.specs.BatchArrays.{rows_of, is_readable};
ghost use Rattle.query.specs.Selection.{pick};
ghost use Rattle.table_cut.specs.Rows.{run_rows, is_run_sound};
ghost use Rattle.selection.specs.inner.Picked.{first_arrays, picked_columns, picked_rows, is_picked_sound, is_picked_readable};
ghost use Rattle.values.specs.Parts.{batch_rows, part_rows, parts_rows, is_batch_sound, are_parts_sound};

use crate::copying::copy_array;
use arrow_schema::Field;
use columns::{Dictionary, PlacedArray, array_or, no_array};
use query::BatchArrays;
use std::alloc::{AllocError, Global};
use table_cut::RowRun;
use values::{Batch, TablePart};

/// The arrays of a record batch for the columns asked for, in the bytes of its part, and the number of its rows.
#[derive(Drop)]
pub(crate) struct PickedBatch<'a> {
    pub(crate) arrays: Vec<PlacedArray>,
    pub(crate) bytes: &'a [u8],
    pub(crate) dictionaries: &'a [Dictionary],
    pub(crate) rows: usize,
}

// Copies the array at a place, or one without slots if there is none.
fn copy_at(alloc: Global, arrays: &[PlacedArray], place: usize) -> Result<PlacedArray, AllocError>
    ensures { IfOk result (λ a. (bytes : List ℕ) (all : List Dictionary)
        → array_in bytes (arrays_in bytes all) a ≡ first_array (placed_arrays bytes all (drop place arrays.now))) }
{
    let none = no_array();
    copy_array(alloc, array_or(arrays, place, &none))
}

// Copies the arrays at some places, among those of `columns` columns.
fn pick_arrays(
    alloc: Global,
    arrays: &[PlacedArray],
    columns: usize,
    places: &[usize],
) -> Result<Vec<PlacedArray>, AllocError>
    ensures { IfOk result (λ v. (bytes : List ℕ) (all : List Dictionary)
        → map (array_in bytes (arrays_in bytes all)) v.items ≡ pick places.now (first_arrays columns (placed_arrays bytes all arrays.now))) }
{
    let mut picked = Vec::with_capacity(alloc, places.len())?;
    for place in places {
        if *place < columns {
            picked.push(copy_at(alloc, arrays, *place)?)?;
        }
    }
    Ok(picked)
}

fn pick_batch<'a>(
    alloc: Global,
    fields: &[Field],
    part: &'a TablePart,
    batch: &Batch,
    places: &[usize],
) -> Result<PickedBatch<'a>, AllocError>
    ensures rows { IfOk result (λ b. picked_rows (picked_columns fields.now places.now) b
        ≡ map (pick places.now) (batch_rows (fields_of fields.now) part.now batch.now)) }
    ensures sound { IfOk result (λ b. is_batch_sound (fields_of fields.now) part.now batch.now ≡ true
        → is_picked_sound (picked_columns fields.now places.now) b ≡ true) }
{
    Ok(PickedBatch {
        arrays: pick_arrays(alloc, &batch.arrays, fields.len(), places)?,
        bytes: &part.bytes,
        dictionaries: &part.dictionaries,
        rows: batch.rows,
    })
}

// Appends the batches of a part.
fn pick_part<'a>(
    alloc: Global,
    picked: &mut Vec<PickedBatch<'a>>,
    fields: &[Field],
    part: &'a TablePart,
    places: &[usize],
) -> Result<(), AllocError>
    ensures rows { OnOk result (flat_map (picked_rows (picked_columns fields.now places.now)) picked.new.items
        ≡ flat_map (picked_rows (picked_columns fields.now places.now)) picked.old.items
        ++ map (pick places.now) (part_rows (fields_of fields.now) part.now)) }
    ensures sound { OnOk result (list_all (is_picked_sound (picked_columns fields.now places.now)) picked.old.items ≡ true
        → list_all (is_batch_sound (fields_of fields.now) part.now) part.now.batches.items ≡ true
        → list_all (is_picked_sound (picked_columns fields.now places.now)) picked.new.items ≡ true) }
{
    for batch in &part.batches {
        picked.push(pick_batch(alloc, fields, part, batch, places)?)?;
    }
    Ok(())
}

/// Returns the arrays at some places of all record batches.
pub(crate) fn pick_batches<'a>(
    alloc: Global,
    fields: &[Field],
    parts: &'a [TablePart],
    places: &[usize],
) -> Result<Vec<PickedBatch<'a>>, AllocError>
    ensures rows { IfOk result (λ v. flat_map (picked_rows (picked_columns fields.now places.now)) v.items
        ≡ map (pick places.now) (parts_rows (fields_of fields.now) parts.now)) }
    ensures sound { IfOk result (λ v. are_parts_sound (fields_of fields.now) parts.now ≡ true
        → list_all (is_picked_sound (picked_columns fields.now places.now)) v.items ≡ true) }
{
    let mut picked = Vec::new(alloc);
    for part in parts {
        pick_part(alloc, &mut picked, fields, part, places)?;
    }
    Ok(picked)
}

/// Returns all rows of a batch, of which there are `rows`, as a run.
pub(crate) fn whole_run<'a>(batch: &'a PickedBatch<'a>, rows: usize) -> RowRun<'a>
    requires { rows ≡ batch.now.rows }
    ensures rows { (columns : Columns) → run_rows columns result ≡ picked_rows columns batch.now }
    ensures sound { (columns : Columns) → is_picked_sound columns batch.now ≡ true → is_run_sound columns result ≡ true }
    ensures len { result.len ≡ batch.now.rows }
{
    RowRun {
        arrays: &batch.arrays,
        bytes: batch.bytes,
        dictionaries: batch.dictionaries,
        from: 0,
        len: rows,
    }
}

/// Borrows the arrays of a batch.
pub(crate) fn arrays_of<'a>(batch: &'a PickedBatch<'a>) -> BatchArrays<'a>
    ensures rows { (columns : Columns) → rows_of columns result ≡ picked_rows columns batch.now }
    ensures readable { (columns : Columns) → is_picked_readable columns batch.now ≡ true → is_readable columns result ≡ true }
    ensures count { result.rows ≡ batch.now.rows }
{
    BatchArrays {
        arrays: &batch.arrays,
        bytes: batch.bytes,
        dictionaries: batch.dictionaries,
        rows: batch.rows,
    }
}
