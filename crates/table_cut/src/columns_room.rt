// For how many rows of a run the dictionaries of columns have room, column by column, if no column is a list or a struct.
ghost use Rattle.std.specs.Prelude.{◌≡◌, ◌≤◌, ◌++◌, ◌∷◌, [], ℕ, true, Some, IfOk, OnOk, length, map};
ghost use Rattle.std.specs.List.{flat_map};
ghost use Rattle.arrow_schema.specs.Column.{Column};
ghost use Rattle.arrow_schema.specs.View.{column_of, index_of};
ghost use Rattle.cells.specs.Dictionary.{entries_of};
ghost use Rattle.columns.specs.View.{fields_of};
ghost use Rattle.dictionary_codes.specs.Named.{named_cells};
ghost use Rattle.table_cut.specs.inner.Columns.{cells_at_place};
ghost use Rattle.table_cut.specs.inner.Fit.{are_flat, column_fits, entries_fit, fit_with, AreCounted, HaveRoom, HasRoomFor, IsCounted};

use crate::columns_of_runs::slots_at;
use crate::row_run::RowRun;
use arrow_schema::{DictSpec, Field};
use cells::entry_limit;
use dictionary_codes::{KnownEntries, name_slots};
use std::alloc::{AllocError, Global};

/// Returns whether no field is a list or a struct.
#[tactic(auto, unfolding(crate::specs::inner::Fit::are_flat))]
pub(crate) fn are_flat(fields: &[Field]) -> bool
    ensures { result ≡ are_flat (fields_of fields.now) }
{
    for field in fields {
        if field.data_type.is_nested() {
            return false;
        }
    }
    true
}

// Returns whether runs have at most `most` rows together.
fn are_few(runs: &[RowRun<'_>], most: usize) -> bool
    ensures { result ≡ true → (place : ℕ) (c : Column) → length (flat_map (cells_at_place place c) runs.now) ≤ most }
{
    let mut left = most;
    for run in runs {
        if run.len > left {
            return false;
        }
        left -= run.len;
    }
    true
}

// Names the entries, at most `most`, that the column at a place has in the rows of a piece, and no others.
fn name_piece<'a>(
    alloc: Global,
    entries: &mut KnownEntries<'a>,
    field: &'a Field,
    spec: DictSpec,
    place: usize,
    piece: &[RowRun<'a>],
    most: usize,
) -> Result<(), AllocError>
    requires spec { field.now.dictionary ≡ Some spec }
    requires counted { IsCounted place (column_of field.now) piece.now }
    requires fits { length (entries_of (flat_map (cells_at_place place (column_of field.now)) piece.now)) ≤ most }
    ensures { OnOk result (named_cells entries.new ≡ entries_of (flat_map (cells_at_place place (column_of field.now)) piece.now)) }
{
    entries.end();
    for run in piece {
        name_slots(alloc, entries, field, spec, slots_at(*run, place), most)?;
    }
    Ok(())
}

// Returns for how many rows of a run, which follows a piece, the dictionary of the column at a place has room. If they are few together, no slot is visited:
// they have no more values than rows.
fn coded_column_room<'a>(
    alloc: Global,
    entries: &mut KnownEntries<'a>,
    field: &'a Field,
    spec: DictSpec,
    place: usize,
    piece: &[RowRun<'a>],
    run: RowRun<'a>,
) -> Result<usize, AllocError>
    requires spec { field.now.dictionary ≡ Some spec }
    requires before { IsCounted place (column_of field.now) piece.now }
    requires own { IsCounted place (column_of field.now) (run ∷ []) }
    requires fits { entries_fit (index_of spec) (flat_map (cells_at_place place (column_of field.now)) piece.now) ≡ true }
    ensures { IfOk result (λ n. HasRoomFor (entries_fit (index_of spec)) (flat_map (cells_at_place place (column_of field.now)) piece.now)
        (cells_at_place place (column_of field.now) run.entry) n) }
{
    match entry_limit(spec.index) {
        None => Ok(run.len),
        Some(most) => {
            if run.len <= most && are_few(piece, most - run.len) {
                return Ok(run.len);
            }
            name_piece(alloc, entries, field, spec, place, piece, most)?;
            name_slots(alloc, entries, field, spec, slots_at(run, place), most)
        }
    }
}

// Returns for how many rows of a run, which follows a piece, the column at a place has room.
fn column_room<'a>(
    alloc: Global,
    entries: &mut KnownEntries<'a>,
    field: &'a Field,
    place: usize,
    piece: &[RowRun<'a>],
    run: RowRun<'a>,
) -> Result<usize, AllocError>
    requires before { IsCounted place (column_of field.now) piece.now }
    requires own { IsCounted place (column_of field.now) (run ∷ []) }
    requires fits { column_fits (column_of field.now) (flat_map (cells_at_place place (column_of field.now)) piece.now) ≡ true }
    ensures { IfOk result (λ n. HasRoomFor (column_fits (column_of field.now)) (flat_map (cells_at_place place (column_of field.now)) piece.now)
        (cells_at_place place (column_of field.now) run.entry) n) }
{
    match field.dictionary {
        None => Ok(run.len),
        Some(spec) => coded_column_room(alloc, entries, field, spec, place, piece, run),
    }
}

/// Returns for how many rows of a run, which follows a piece, the dictionaries of all columns have room. What is known of the entries of one column's dictionary
/// is kept for the next column, which may have the same.
pub(crate) fn columns_room<'a>(
    alloc: Global,
    fields: &'a [Field],
    piece: &[RowRun<'a>],
    run: RowRun<'a>,
) -> Result<usize, AllocError>
    requires before { AreCounted 0 (fields_of fields.now) piece.now }
    requires own { AreCounted 0 (fields_of fields.now) (run ∷ []) }
    requires fits { fit_with 0 (fields_of fields.now) piece.now run 0 ≡ true }
    ensures { IfOk result (λ n. HaveRoom 0 (fields_of fields.now) piece.now run.entry n) }
{
    let mut entries = KnownEntries::none(alloc);
    let mut rows = run.len;
    for (place, field) in fields.iter().enumerate() {
        rows = rows.min(column_room(alloc, &mut entries, field, place, piece, run)?);
    }
    Ok(rows)
}
