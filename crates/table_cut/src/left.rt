// The rows that are left of a table, and the next piece of them.
ghost use Rattle.std.proofs.Props.{props};
ghost use Rattle.std.specs.Prelude.{◌≡◌, ◌≢◌, ◌++◌, [], ◌∷◌, true, false, length, IfOk, OnOk};
ghost use Rattle.std.specs.List.{list_all};
ghost use Rattle.arrow_schema.specs.Column.{Columns, columns_of};
ghost use Rattle.arrow_schema.specs.Limits.{IsWithinLimits};
ghost use Rattle.arrow_schema.specs.View.{schema_of};
ghost use Rattle.cells.specs.Row.{is_row};
ghost use Rattle.columns.specs.CellAt.{rows_in};
ghost use Rattle.columns.specs.Sound.{are_sound};
ghost use Rattle.columns.specs.View.{placed_arrays};
ghost use Rattle.table_cut.specs.Rows.{run_rows, runs_rows, is_run_sound, are_runs_sound};
ghost use Rattle.table_cut.specs.Cut.{pieces};
ghost use Rattle.table_cut.specs.Piece.{within_piece};
ghost use Rattle.table_cut.specs.inner.EntrySizes.{AreSizesAt};
ghost use Rattle.values.specs.Parts.{part_rows, parts_rows, is_batch_sound, are_parts_sound};

use crate::bound::nothing_weighed;
use crate::entry_sizes::{EntrySize, keep_sizes};
use crate::filling::can_rows_fill;
use crate::fitting::fitting;
use crate::longest_fronts_are_pieces;
use crate::room::{Seen, room_within};
use crate::row_run::RowRun;
use arrays::shared_entries_fit;
use arrow_schema::Schema;
use cells::MAX_PIECE_ROWS;
use columns::PlacedArray;
use std::alloc::{AllocError, Global};
use values::TablePart;

/// The rows of a table kept in record batches that are in no piece yet.
#[derive(Drop)]
pub struct RowsLeft<'a> {
    pub(crate) runs: Vec<RowRun<'a>>,
    pub(crate) next: usize,
    // The sizes of the entries of the next run's dictionaries, once a piece was begun with it.
    pub(crate) sizes: Vec<Option<EntrySize>>,
    ghost known: { AreSizesAt next runs.items sizes.items } by { Prim.hlevel props },
}

/// The rows of a piece as runs, and how many rows these are.
#[derive(Drop)]
pub struct RunPiece<'a> {
    pub runs: Vec<RowRun<'a>>,
    pub rows: usize,
}

// Appends a run, unless it has no row.
fn push_run<'a>(runs: &mut Vec<RowRun<'a>>, run: RowRun<'a>) -> Result<(), AllocError>
    ensures rows { OnOk result ((columns : Columns) → runs_rows columns runs.new.items ≡ runs_rows columns runs.old.items ++ run_rows columns run.entry) }
    ensures sound { OnOk result ((columns : Columns) → are_runs_sound columns runs.old.items ≡ true → is_run_sound columns run.entry ≡ true
        → are_runs_sound columns runs.new.items ≡ true) }
{
    if run.len > 0 {
        runs.push(run)?;
    }
    Ok(())
}

// Returns all rows of a batch, of which there are `rows`, as a run.
fn whole_batch<'a>(part: &'a TablePart, arrays: &'a [PlacedArray], rows: usize) -> RowRun<'a>
    ensures rows { (columns : Columns)
        → run_rows columns result ≡ rows_in columns (placed_arrays part.now.bytes.items part.now.dictionaries.items arrays.now) rows }
    ensures sound { (columns : Columns) → are_sound columns rows (placed_arrays part.now.bytes.items part.now.dictionaries.items arrays.now) ≡ true
        → is_run_sound columns result ≡ true }
{
    RowRun {
        arrays,
        bytes: &part.bytes,
        dictionaries: &part.dictionaries,
        from: 0,
        len: rows,
    }
}

fn add_part<'a>(runs: &mut Vec<RowRun<'a>>, part: &'a TablePart) -> Result<(), AllocError>
    ensures rows { OnOk result ((columns : Columns) → runs_rows columns runs.new.items ≡ runs_rows columns runs.old.items ++ part_rows columns part.now) }
    ensures sound { OnOk result ((columns : Columns) → are_runs_sound columns runs.old.items ≡ true
        → list_all (is_batch_sound columns part.now) part.now.batches.items ≡ true → are_runs_sound columns runs.new.items ≡ true) }
{
    for batch in &part.batches {
        push_run(runs, whole_batch(part, &batch.arrays, batch.rows))?;
    }
    Ok(())
}

impl<'a> RowsLeft<'a> {
    ghost use Rattle.table_cut.specs.Left.{runs_left, rows_left};

    /// Returns all rows of the parts, none of them in a piece yet.
    ///
    /// # Errors
    /// `AllocError` if memory was refused.
    pub fn new(alloc: Global, parts: &'a [TablePart]) -> Result<RowsLeft<'a>, AllocError>
        ensures rows { IfOk result (λ left. (columns : Columns) → rows_left columns left ≡ parts_rows columns parts.now) }
        ensures sound { IfOk result (λ left. (columns : Columns) → are_parts_sound columns parts.now ≡ true
            → are_runs_sound columns (runs_left left) ≡ true) }
    {
        let mut runs = Vec::new(alloc);
        for part in parts {
            add_part(&mut runs, part)?;
        }
        Ok(RowsLeft::of_runs(runs))
    }

    /// Returns the rows of runs, none of them in a piece yet.
    pub fn of_runs(runs: Vec<RowRun<'a>>) -> RowsLeft<'a>
        ensures { runs_left result ≡ runs.entry.items }
    {
        let alloc = *runs.allocator();
        RowsLeft {
            runs,
            next: 0,
            sizes: Vec::new(alloc),
        }
    }

    /// Returns the rows of the next piece: the longest front of the rows that are left which is within the limits of a piece. A row must be left, and
    /// all that are left must be rows of this schema.
    ///
    /// It takes time linear in the runs of the piece; if one more run makes the piece too heavy, also in the rows of that run; and once for each run, for the
    /// entries of its dictionaries, in its rows. If the rows of a piece have several dictionaries and can fill one (with 8-bit indices, or with 16-bit ones
    /// below a list), it also takes time linear in the cells of all its rows, for each of its first such runs anew.
    ///
    /// # Errors
    /// `AllocError` if memory was refused. Then it is not promised which rows are left: a caller that tries again begins with [`RowsLeft::new`].
    pub fn next_piece(&mut self, alloc: Global, schema: &Schema) -> Result<RunPiece<'a>, AllocError>
        requires schema { IsWithinLimits (schema_of schema.now) }
        requires sound { are_runs_sound (columns_of (schema_of schema.now).columns) (runs_left self.old) ≡ true }
        requires rows { list_all (is_row (schema_of schema.now)) (rows_left (columns_of (schema_of schema.now).columns) self.old) ≡ true }
        requires some { rows_left (columns_of (schema_of schema.now).columns) self.old ≢ [] }
        ensures piece { IfOk result (λ piece. let columns = columns_of (schema_of schema.now).columns in
            pieces (within_piece (schema_of schema.now)) (rows_left columns self.old)
            ≡ runs_rows columns piece.runs.items ∷ pieces (within_piece (schema_of schema.now)) (rows_left columns self.new)) }
        ensures front { IfOk result (λ piece. let columns = columns_of (schema_of schema.now).columns in
            rows_left columns self.old ≡ runs_rows columns piece.runs.items ++ rows_left columns self.new) }
        ensures count { IfOk result (λ piece. piece.rows ≡ length (runs_rows (columns_of (schema_of schema.now).columns) piece.runs.items)) }
        ensures sound { IfOk result (λ piece. are_runs_sound (columns_of (schema_of schema.now).columns) piece.runs.items ≡ true) }
        ensures left { IfOk result (λ _. are_runs_sound (columns_of (schema_of schema.now).columns) (runs_left self.new) ≡ true) }
    {
        longest_fronts_are_pieces();
        shared_entries_fit();
        let can_fill = can_rows_fill(schema, MAX_PIECE_ROWS);
        let mut runs = Vec::new(alloc);
        let mut rows = 0;
        let mut weight = nothing_weighed(schema);
        let mut seen = Seen::Nothing;
        while self.next < self.runs.len() && rows < MAX_PIECE_ROWS {
            let run = self.runs[self.next];
            keep_sizes(&mut self.sizes, schema, run, weight)?;
            let taken = fitting(
                schema,
                &runs,
                run,
                &self.sizes,
                MAX_PIECE_ROWS - rows,
                weight,
            );
            let most = run.front(taken.rows);
            let room = room_within(alloc, schema, can_fill, seen, &runs, most)?;
            push_run(&mut runs, run.front(room.rows))?;
            rows += room.rows;
            weight = taken.weight;
            seen = room.seen;
            if room.rows < run.len {
                self.runs[self.next] = run.skip(room.rows);
                return Ok(RunPiece { runs, rows });
            }
            self.sizes.clear();
            self.next += 1;
        }
        Ok(RunPiece { runs, rows })
    }
}
