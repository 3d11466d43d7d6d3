// The slots that each column has in runs of rows.
ghost use Rattle.std.specs.Prelude.{◌≡◌, true, map, IfOk};
ghost use Rattle.arrow_schema.specs.Column.{Column};
ghost use Rattle.columns.specs.Runs.{run_cells, is_run_sound, HaveRuns, are_columns_sound};
ghost use Rattle.columns.specs.View.{fields_of};
ghost use Rattle.table_cut.specs.Rows.{runs_rows, are_runs_sound};
ghost use Rattle.table_cut.specs.inner.Columns.{cells_at_place, has_sound_array, IsColumn};

use crate::row_run::RowRun;
use arrow_schema::Field;
use columns::{ArrayView, SlotRun};
use std::alloc::{AllocError, Global};

/// Returns the slots that the column at a place has in a run of rows. A batch without an array for the column has no row.
pub(crate) fn slots_at<'a>(run: RowRun<'a>, place: usize) -> SlotRun<'a>
    ensures cells { (c : Column) → has_sound_array place c run.entry ≡ true → run_cells c result ≡ cells_at_place place c run.entry }
    ensures sound { (c : Column) → has_sound_array place c run.entry ≡ true → is_run_sound c result ≡ true }
{
    match run.arrays.get(place) {
        Some(array) => SlotRun::Slots {
            array: ArrayView {
                array,
                bytes: run.bytes,
                dictionaries: run.dictionaries,
            },
            from: run.from,
            len: run.len,
        },
        None => SlotRun::Nulls(0),
    }
}

/// Returns the runs of slots that the column at a place has in runs of rows.
pub(crate) fn column_at<'a>(
    alloc: Global,
    runs: &[RowRun<'a>],
    place: usize,
) -> Result<Vec<SlotRun<'a>>, AllocError>
    ensures { IfOk result (λ v. IsColumn place runs.now v.items) }
{
    let mut slots = Vec::with_capacity(alloc, runs.len())?;
    for run in runs {
        slots.push_reserved(slots_at(*run, place));
    }
    Ok(slots)
}

/// Returns for each column the runs of slots that it has in runs of rows.
///
/// # Errors
/// `AllocError` if memory was refused.
pub fn column_runs<'a>(
    alloc: Global,
    fields: &[Field],
    runs: &[RowRun<'a>],
) -> Result<Vec<Vec<SlotRun<'a>>>, AllocError>
    requires { are_runs_sound (fields_of fields.now) runs.now ≡ true }
    ensures have { IfOk result (λ columns. HaveRuns (fields_of fields.now) (map (λ v. v.items) columns.items) (runs_rows (fields_of fields.now) runs.now)) }
    ensures sound { IfOk result (λ columns. are_columns_sound (fields_of fields.now) (map (λ v. v.items) columns.items) ≡ true) }
{
    let mut columns = Vec::with_capacity(alloc, fields.len())?;
    for place in 0..fields.len() {
        columns.push_reserved(column_at(alloc, runs, place)?);
    }
    Ok(columns)
}
