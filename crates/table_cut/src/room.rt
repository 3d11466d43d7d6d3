// How many rows of a run the dictionaries of a piece have room for.
ghost use Rattle.std.specs.Prelude.{◌≡◌, ◌<◌, ◌≤◌, ◌+◌, ◌++◌, [], true, List, length, IfOk, OnOk};
ghost use Rattle.arrays.specs.Shared.{ShareEntries, AreRowsSharing};
ghost use Rattle.arrow_schema.specs.Column.{columns_of};
ghost use Rattle.arrow_schema.specs.Limits.{IsWithinLimits};
ghost use Rattle.arrow_schema.specs.View.{schema_of};
ghost use Rattle.cells.specs.Cell.{Cell};
ghost use Rattle.cells.specs.Dictionary.{is_any_limited, dictionaries_fit};
ghost use Rattle.cells.specs.declared.limits.TheConstants.{MAX_PIECE_ROWS};
ghost use Rattle.columns.specs.CellAt.{row_at};
ghost use Rattle.facts.specs.Bytes.{AreBytes};
ghost use Rattle.table_cut.specs.Rows.{arrays_of_run, run_rows, runs_rows};
ghost use Rattle.table_cut.specs.inner.Filling.{can_rows_fill};
ghost use Rattle.table_cut.specs.inner.Fit.{are_flat};
ghost use Rattle.table_cut.specs.inner.Room.{IsRunOf, AreRunsOf, IsRunAfter, IsSeen, IsSeenWithin, HasRoom, IsRoom};
ghost use Rattle.table_cut.specs.SeenRows.{HaveSeen};
ghost use Rattle.columns.specs.Borrowed.{borrowed_cells};

use crate::columns_room::{are_flat, columns_room};
use crate::row_run::RowRun;
use crate::seen_rows::SeenRows;
use crate::shared::runs_share_entries;
use arrays::shared_entries_fit;
use arrow_schema::Schema;
use columns::row;
use std::alloc::{AllocError, Global};
use values::Values;

// For how many runs of a piece its columns are visited, each time from its first row on. After that its rows are visited.
const MOST_TRIED: usize = 16;

/// What is known of the entries that dictionaries have in the rows of a piece.
#[derive(Drop)]
pub(crate) enum Seen<'a> {
    /// The piece has no row.
    Nothing,
    /// In each dictionary whose indices can name only some entries, all rows have the entries of this run's dictionary.
    Shared(RowRun<'a>),
    /// The columns of all rows were visited, for so many runs.
    Columns(usize),
    /// Each row was visited.
    Rows(SeenRows<'a>),
}

/// How many rows of a run there is room for, and what is known of the entries if that is all of them.
#[derive(Drop)]
pub(crate) struct Room<'a> {
    pub(crate) rows: usize,
    pub(crate) seen: Seen<'a>,
}

// States that each byte is below 256, which a contract knows of a slice that is passed.
fn are_bytes(bytes: &[u8])
    ensures { AreBytes bytes.now }
{}

fn row_of<'a>(schema: &'a Schema, run: RowRun<'a>, i: usize) -> Values<'a>
    requires run { IsRunOf (schema_of schema.now) run }
    requires within { i < run.len }
    ensures { borrowed_cells result ≡ row_at (columns_of (schema_of schema.now).columns) (arrays_of_run run.entry) (run.entry.from + i) }
{
    row(
        &schema.fields,
        run.arrays,
        run.bytes,
        run.dictionaries,
        run.from + run.len,
        run.from + i,
    )
}

// Adds the entries of the rows of a run.
fn see_rows<'a>(
    alloc: Global,
    schema: &'a Schema,
    seen: &mut SeenRows<'a>,
    run: RowRun<'a>,
) -> Result<(), AllocError>
    requires limited { is_any_limited (columns_of (schema_of schema.now).columns) ≡ true }
    requires run { IsRunOf (schema_of schema.now) run }
    requires seen { (rows : List (List Cell)) × HaveSeen (schema_of schema.now) rows seen.old }
    ensures { OnOk result ((rows : List (List Cell)) → HaveSeen (schema_of schema.now) rows seen.old
        → HaveSeen (schema_of schema.now) (rows ++ run_rows (columns_of (schema_of schema.now).columns) run.entry) seen.new) }
{
    for i in 0..run.len {
        seen.take(alloc, schema, row_of(schema, run, i))?;
    }
    Ok(())
}

// Returns the entries of the rows of runs.
fn see_runs<'a>(
    alloc: Global,
    schema: &'a Schema,
    runs: &[RowRun<'a>],
) -> Result<SeenRows<'a>, AllocError>
    requires limited { is_any_limited (columns_of (schema_of schema.now).columns) ≡ true }
    requires runs { AreRunsOf (schema_of schema.now) runs.now }
    ensures { IfOk result (λ seen. HaveSeen (schema_of schema.now) (runs_rows (columns_of (schema_of schema.now).columns) runs.now) seen) }
{
    let mut seen = SeenRows::none();
    for run in runs {
        see_rows(alloc, schema, &mut seen, *run)?;
    }
    Ok(seen)
}

// Adds the entries of the rows of a run, up to the first row for which there is no room; returns how many rows there is room for.
fn take_rows<'a>(
    alloc: Global,
    schema: &'a Schema,
    seen: &mut SeenRows<'a>,
    run: RowRun<'a>,
) -> Result<usize, AllocError>
    requires limited { is_any_limited (columns_of (schema_of schema.now).columns) ≡ true }
    requires run { IsRunOf (schema_of schema.now) run }
    requires seen { (rows : List (List Cell)) × HaveSeen (schema_of schema.now) rows seen.old }
    ensures room { IfOk result (λ n. (rows : List (List Cell)) → HaveSeen (schema_of schema.now) rows seen.old
        → dictionaries_fit (schema_of schema.now) rows ≡ true → HasRoom (schema_of schema.now) rows run.entry n) }
    ensures seen { IfOk result (λ n. (rows : List (List Cell)) → HaveSeen (schema_of schema.now) rows seen.old → n ≡ run.entry.len
        → HaveSeen (schema_of schema.now) (rows ++ run_rows (columns_of (schema_of schema.now).columns) run.entry) seen.new) }
{
    for i in 0..run.len {
        if !seen.take(alloc, schema, row_of(schema, run, i))? {
            return Ok(i);
        }
    }
    Ok(run.len)
}

// Returns for how many rows of a run there is room after rows that were visited.
fn room_after<'a>(
    alloc: Global,
    schema: &'a Schema,
    before: SeenRows<'a>,
    run: RowRun<'a>,
) -> Result<Room<'a>, AllocError>
    requires limited { is_any_limited (columns_of (schema_of schema.now).columns) ≡ true }
    requires run { IsRunOf (schema_of schema.now) run }
    requires seen { (rows : List (List Cell)) × HaveSeen (schema_of schema.now) rows before }
    ensures { IfOk result (λ room. (rows : List (List Cell)) → HaveSeen (schema_of schema.now) rows before.entry
        → dictionaries_fit (schema_of schema.now) rows ≡ true → IsRoom (schema_of schema.now) rows run.entry room) }
{
    let mut seen = before;
    let rows = take_rows(alloc, schema, &mut seen, run)?;
    Ok(Room {
        rows,
        seen: Seen::Rows(seen),
    })
}

// Returns that there is room for all rows of a run, if these and all rows before have the entries of one run: its indices can name them.
fn room_sharing<'a>(schema: &Schema, first: RowRun<'a>, run: RowRun<'a>) -> Room<'a>
    requires schema { IsWithinLimits (schema_of schema.now) }
    requires shares { let columns = columns_of (schema_of schema.now).columns in ShareEntries columns (arrays_of_run first) (arrays_of_run run) }
    ensures { (rows : List (List Cell)) → AreRowsSharing (columns_of (schema_of schema.now).columns) (arrays_of_run first.entry) rows
        → IsRoom (schema_of schema.now) rows run.entry result }
{
    shared_entries_fit();
    are_bytes(run.bytes);
    Room {
        rows: run.len,
        seen: Seen::Shared(first),
    }
}

// Returns that there is room for all rows of a run by itself: it has the entries of its own dictionaries.
fn room_alone<'a>(schema: &Schema, run: RowRun<'a>) -> Room<'a>
    requires schema { IsWithinLimits (schema_of schema.now) }
    ensures { IsRoom (schema_of schema.now) [] run.entry result }
{
    shared_entries_fit();
    room_sharing(schema, run, run)
}

// Returns for how many rows of a run there is room after a piece, if no column is a list or a struct.
fn rows_after<'a>(
    alloc: Global,
    schema: &'a Schema,
    piece: &[RowRun<'a>],
    run: RowRun<'a>,
) -> Result<usize, AllocError>
    requires flat { are_flat (columns_of (schema_of schema.now).columns) ≡ true }
    requires after { IsRunAfter (schema_of schema.now) piece.now run }
    ensures { IfOk result (λ n. HasRoom (schema_of schema.now) (runs_rows (columns_of (schema_of schema.now).columns) piece.now) run.entry n) }
{
    columns_room(alloc, &schema.fields, piece, run)
}

// Returns for how many rows of a run there is room after a piece. Its columns are visited for that, or its rows if a column is nested, or if its columns were
// visited for many runs.
fn room_anew<'a>(
    alloc: Global,
    schema: &'a Schema,
    tried: usize,
    piece: &[RowRun<'a>],
    run: RowRun<'a>,
) -> Result<Room<'a>, AllocError>
    requires limited { is_any_limited (columns_of (schema_of schema.now).columns) ≡ true }
    requires after { IsRunAfter (schema_of schema.now) piece.now run }
    ensures { IfOk result (λ room. IsRoom (schema_of schema.now) (runs_rows (columns_of (schema_of schema.now).columns) piece.now) run.entry room) }
{
    if tried < MOST_TRIED && are_flat(&schema.fields) {
        let rows = rows_after(alloc, schema, piece, run)?;
        return Ok(Room {
            rows,
            seen: Seen::Columns(tried + 1),
        });
    }
    let seen = see_runs(alloc, schema, piece)?;
    room_after(alloc, schema, seen, run)
}

// Returns for how many rows of a run there is room after a piece, all of whose rows have the entries of run `first`.
fn room_after_shared<'a>(
    alloc: Global,
    schema: &'a Schema,
    first: RowRun<'a>,
    piece: &[RowRun<'a>],
    run: RowRun<'a>,
) -> Result<Room<'a>, AllocError>
    requires limited { is_any_limited (columns_of (schema_of schema.now).columns) ≡ true }
    requires after { IsRunAfter (schema_of schema.now) piece.now run }
    requires seen { let columns = columns_of (schema_of schema.now).columns in AreRowsSharing columns (arrays_of_run first) (runs_rows columns piece.now) }
    ensures { IfOk result (λ room. IsRoom (schema_of schema.now) (runs_rows (columns_of (schema_of schema.now).columns) piece.now) run.entry room) }
{
    if runs_share_entries(&schema.fields, first, run) {
        return Ok(room_sharing(schema, first, run));
    }
    room_anew(alloc, schema, 0, piece, run)
}

// Returns for how many rows of a run there is room after a piece whose rows can fill a dictionary.
fn room_for<'a>(
    alloc: Global,
    schema: &'a Schema,
    seen: Seen<'a>,
    piece: &[RowRun<'a>],
    run: RowRun<'a>,
) -> Result<Room<'a>, AllocError>
    requires limited { is_any_limited (columns_of (schema_of schema.now).columns) ≡ true }
    requires after { IsRunAfter (schema_of schema.now) piece.now run }
    requires seen { IsSeen (schema_of schema.now) (runs_rows (columns_of (schema_of schema.now).columns) piece.now) seen }
    ensures { IfOk result (λ room. IsRoom (schema_of schema.now) (runs_rows (columns_of (schema_of schema.now).columns) piece.now) run.entry room) }
{
    match seen {
        Seen::Nothing => Ok(room_alone(schema, run)),
        Seen::Shared(first) => room_after_shared(alloc, schema, first, piece, run),
        Seen::Columns(tried) => room_anew(alloc, schema, tried, piece, run),
        Seen::Rows(rows) => room_after(alloc, schema, rows, run),
    }
}

/// Returns for how many rows of a run the dictionaries have room after a piece. If the rows of a piece can fill no dictionary, or the run has no row, no row is
/// visited.
pub(crate) fn room_within<'a>(
    alloc: Global,
    schema: &'a Schema,
    can_fill: bool,
    seen: Seen<'a>,
    piece: &[RowRun<'a>],
    run: RowRun<'a>,
) -> Result<Room<'a>, AllocError>
    requires can_fill { can_fill ≡ can_rows_fill MAX_PIECE_ROWS (columns_of (schema_of schema.now).columns) }
    requires after { IsRunAfter (schema_of schema.now) piece.now run }
    requires few { length (runs_rows (columns_of (schema_of schema.now).columns) piece.now) + run.len ≤ MAX_PIECE_ROWS }
    requires seen { IsSeenWithin (schema_of schema.now) (runs_rows (columns_of (schema_of schema.now).columns) piece.now) seen }
    ensures room { IfOk result (λ room. let columns = columns_of (schema_of schema.now).columns in
        HasRoom (schema_of schema.now) (runs_rows columns piece.now) run.entry room.rows) }
    ensures seen { IfOk result (λ room. let columns = columns_of (schema_of schema.now).columns in room.rows ≡ run.entry.len
        → IsSeenWithin (schema_of schema.now) (runs_rows columns piece.now ++ run_rows columns run.entry) room.seen) }
{
    if run.len == 0 {
        return Ok(Room { rows: 0, seen });
    }
    if can_fill {
        return room_for(alloc, schema, seen, piece, run);
    }
    Ok(Room {
        rows: run.len,
        seen,
    })
}
