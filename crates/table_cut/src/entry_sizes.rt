// How many bytes the entries of dictionaries of texts or binaries have at most.
ghost use Rattle.std.specs.Prelude.{◌≡◌, ◌∷◌, [], ◌≤◌, ◌<◌, ◌+◌, ◌-◌, ◌*◌, ℕ, true, not, IfSome, Some, length, slice_get};
ghost use Rattle.std.specs.List.{list_all};
ghost use Rattle.arrow_schema.specs.Column.{columns_of};
ghost use Rattle.arrow_schema.specs.View.{column_of, schema_of};
ghost use Rattle.cells.specs.Weight.{weight};
ghost use Rattle.columns.specs.Array.{array_list, arrays_of, dictionary_in};
ghost use Rattle.columns.specs.CellAt.{cell_at, number_at};
ghost use Rattle.columns.specs.Offsets.{width_of};
ghost use Rattle.columns.specs.Sound.{are_sound, is_sound};
ghost use Rattle.columns.specs.Tests.{are_few_offsets};
ghost use Rattle.columns.specs.View.{IsNoArray, fields_of, view_array};
ghost use Rattle.table_cut.specs.Rows.{is_run_sound};
ghost use Rattle.table_cut.specs.inner.Columns.{array_at, arrays_from_place};
ghost use Rattle.table_cut.specs.inner.EntrySizes.{AreNoLonger, AreSizesOf, IsSizeOf};

use crate::bound::Weighed;
use crate::row_run::RowRun;
use arrow_schema::{Field, Schema};
use cells::{MAX_PIECE_ROWS, MAX_PIECE_WEIGHT};
use columns::{ArrayView, OffsetWidth, PlacedArray, array_or, contents_width, no_array, offset_at};
use std::alloc::AllocError;

// For each row of a run, how many entries may be visited to find the longest. They are visited in order. To weigh the row, an entry would be looked up.
const ENTRIES_PER_ROW: usize = 2;

/// How many bytes an entry of a dictionary has at most, if its offsets have this width.
#[derive(Clone, Copy)]
pub(crate) struct EntrySize {
    pub(crate) width: OffsetWidth,
    pub(crate) size: u64,
}

// Returns how many bytes the longest text or binary of an array has, by its offsets.
fn longest(offsets: &[u8], width: OffsetWidth, slots: usize) -> u64
    requires { (slots + 1) * width_of width ≤ length offsets.now }
    ensures { (i : ℕ) → i < slots → number_at (width_of width) offsets.now (i + 1) - number_at (width_of width) offsets.now i ≤ result }
{
    let mut longest: u64 = 0;
    for i in 0..slots {
        let start = offset_at(offsets, width, i);
        let size = offset_at(offsets, width, i + 1).saturating_sub(start);
        longest = longest.max(size);
    }
    longest
}

// Returns how many bytes an entry of one array has at most: as many as all together, if these are at most `short`, or if there are too many entries for `rows`
// rows; otherwise the size of the longest, which is searched.
fn entry_size(width: OffsetWidth, entries: ArrayView<'_>, rows: usize, short: u64) -> u64
    requires { not (are_few_offsets (width_of width) (view_array entries)) ≡ true }
    ensures { AreNoLonger (width_of width) result (arrays_of (view_array entries.entry ∷ [])) }
{
    let together = entries.contents().len() as u64;
    let count = entries.slots();
    if together <= short || count == 0 || count / ENTRIES_PER_ROW > rows {
        return together;
    }
    longest(entries.offsets(), width, count)
}

// Returns the size of the entries of a dictionary; `None` unless they are in one array.
fn dictionary_size(
    width: OffsetWidth,
    view: ArrayView<'_>,
    rows: usize,
    short: u64,
) -> Option<EntrySize>
    requires { list_all (λ a. not (are_few_offsets (width_of width) a)) (array_list (dictionary_in (view_array view))) ≡ true }
    ensures { IfSome result (λ known. IsSizeOf (dictionary_in (view_array view.entry)) known) }
{
    match view.dictionary().arrays {
        [array] => {
            let entries = ArrayView {
                array,
                bytes: view.bytes,
                dictionaries: &[],
            };
            let size = entry_size(width, entries, rows, short);
            Some(EntrySize { width, size })
        }
        _ => None,
    }
}

// Returns the size of the entries of the column at a place; `None` unless it has a dictionary of texts or binaries, in one array.
fn column_size(
    field: &Field,
    run: RowRun<'_>,
    place: usize,
    short: u64,
    none: &PlacedArray,
) -> Option<EntrySize>
    requires empty { IsNoArray none.now }
    requires sound { is_sound (column_of field.now) (array_at place run) ≡ true }
    ensures { IfSome result (λ known. IsSizeOf (dictionary_in (array_at place run.entry)) known) }
{
    let view = ArrayView {
        array: array_or(run.arrays, place, none),
        bytes: run.bytes,
        dictionaries: run.dictionaries,
    };
    match (&field.dictionary, contents_width(&field.data_type)) {
        (Some(_), Some(width)) => dictionary_size(width, view, run.len, short),
        _ => None,
    }
}

// Appends the sizes of the entries of each column of a run, in order.
fn add_sizes(
    sizes: &mut Vec<Option<EntrySize>>,
    fields: &[Field],
    run: RowRun<'_>,
) -> Result<(), AllocError>
    requires none { sizes.old.items ≡ [] }
    requires sound { are_sound (fields_of fields.now) (run.from + run.len) (arrays_from_place 0 run) ≡ true }
    ensures { AreSizesOf run.entry sizes.new.items }
{
    let none = no_array();
    for (place, field) in fields.iter().enumerate() {
        let share = MAX_PIECE_WEIGHT / MAX_PIECE_ROWS as u64 / fields.len() as u64;
        sizes.push(column_size(field, run, place, share, &none))?;
    }
    Ok(())
}

/// Finds the sizes for each column of a run, unless they are known or the rows are weighed without them. So they are found once for all pieces into which the
/// run is cut, and an entry is visited only if its dictionary has at most [`ENTRIES_PER_ROW`] entries for each row of the run.
pub(crate) fn keep_sizes(
    sizes: &mut Vec<Option<EntrySize>>,
    schema: &Schema,
    run: RowRun<'_>,
    weighed: Weighed,
) -> Result<(), AllocError>
    requires sound { is_run_sound (columns_of (schema_of schema.now).columns) run ≡ true }
    requires known { AreSizesOf run sizes.old.items }
    ensures { AreSizesOf run.entry sizes.new.items }
{
    match weighed {
        Weighed::AtMost(_) if sizes.is_empty() => add_sizes(sizes, &schema.fields, run),
        _ => Ok(()),
    }
}

fn are_same(a: OffsetWidth, b: OffsetWidth) -> bool
    ensures { result ≡ true → width_of a ≡ width_of b }
{
    match (a, b) {
        (OffsetWidth::Four, OffsetWidth::Four) | (OffsetWidth::Eight, OffsetWidth::Eight) => true,
        _ => false,
    }
}

/// Returns the size that is known for the entries of the column at a place; `None` unless it has a dictionary of texts or binaries.
pub(crate) fn size_at(field: &Field, sizes: &[Option<EntrySize>], place: usize) -> Option<u64>
    ensures { IfSome result (λ size. (run : RowRun) → AreSizesOf run sizes.now
        → (i : ℕ) → weight (column_of field.now) (cell_at (column_of field.now) (array_at place run) i) ≤ 1 + size) }
{
    if place >= sizes.len() {
        return None;
    }
    let known = sizes[place];
    match (&field.dictionary, contents_width(&field.data_type), known) {
        (Some(_), Some(width), Some(own)) if are_same(width, own.width) => Some(own.size),
        _ => None,
    }
}
