// How many rows of a run a piece has room for.
ghost use Rattle.std.specs.Prelude.{◌≡◌, ◌+◌, ◌<◌, ◌≤◌, ◌⊎◌, true};
ghost use Rattle.arrow_schema.specs.View.{schema_of};
ghost use Rattle.arrow_schema.specs.Column.{columns_of};
ghost use Rattle.cells.specs.Weight.{capped_weight};
ghost use Rattle.table_cut.specs.Rows.{are_runs_sound, is_run_sound};
ghost use Rattle.table_cut.specs.inner.Bounds.{Weighs};
ghost use Rattle.table_cut.specs.inner.EntrySizes.{AreSizesOf};
ghost use Rattle.table_cut.specs.inner.Weights.{front_weight, piece_weight, weight_at};

use crate::bound::{Weighed, front_bound};
use crate::entry_sizes::EntrySize;
use crate::row_run::RowRun;
use arrays::row_span_weight;
use arrow_schema::Schema;
use cells::{MAX_PIECE_WEIGHT, add_weights};

/// How many rows, and the weight of a piece with them.
#[derive(Clone, Copy)]
pub(crate) struct Taken {
    pub(crate) rows: usize,
    pub(crate) weight: Weighed,
}

// Returns the weight of the first `rows` rows of a run.
fn front_weight(schema: &Schema, run: RowRun<'_>, rows: usize) -> u64
    requires sound { is_run_sound (columns_of (schema_of schema.now).columns) run ≡ true }
    requires within { rows ≤ run.len }
    ensures { result ≡ capped_weight (front_weight (schema_of schema.now) run.entry rows) }
{
    row_span_weight(
        &schema.fields,
        run.arrays,
        run.bytes,
        run.dictionaries,
        run.from,
        rows,
    )
}

// Returns the weight of row `i` of a run.
fn weight_at(schema: &Schema, run: RowRun<'_>, i: usize) -> u64
    requires sound { is_run_sound (columns_of (schema_of schema.now).columns) run ≡ true }
    requires within { i < run.len }
    ensures { result ≡ capped_weight (weight_at (schema_of schema.now) run.entry i) }
{
    row_span_weight(
        &schema.fields,
        run.arrays,
        run.bytes,
        run.dictionaries,
        run.from + i,
        1,
    )
}

// Returns how many rows of a run fit into a piece that weighs exactly `before` and may get `room` more rows. They are weighed together first, and one by one
// only if that is too heavy.
fn fitting_exactly(schema: &Schema, run: RowRun<'_>, room: usize, before: u64) -> Taken
    requires sound { is_run_sound (columns_of (schema_of schema.now).columns) run ≡ true }
    requires light { before ≤ MAX_PIECE_WEIGHT }
    ensures within { result.rows ≤ run.entry.len }
    ensures few { result.rows ≤ room }
    ensures weight { Weighs result.weight (before + front_weight (schema_of schema.now) run.entry result.rows) }
    ensures light { before + front_weight (schema_of schema.now) run.entry result.rows ≤ MAX_PIECE_WEIGHT }
    ensures full { let weight = before + front_weight (schema_of schema.now) run.entry result.rows in
        let more = weight_at (schema_of schema.now) run.entry result.rows in
        result.rows < run.entry.len → (result.rows ≡ room) ⊎ (MAX_PIECE_WEIGHT < weight + more) }
{
    let most = run.len.min(room);
    let together = add_weights(before, front_weight(schema, run, most));
    if together <= MAX_PIECE_WEIGHT {
        return Taken {
            rows: most,
            weight: Weighed::Exactly(together),
        };
    }
    let mut weight = before;
    for i in 0..most {
        let more = add_weights(weight, weight_at(schema, run, i));
        if more > MAX_PIECE_WEIGHT {
            return Taken {
                rows: i,
                weight: Weighed::Exactly(weight),
            };
        }
        weight = more;
    }
    Taken {
        rows: most,
        weight: Weighed::Exactly(weight),
    }
}

// Returns the weight of the rows of runs.
fn runs_weight(schema: &Schema, runs: &[RowRun<'_>]) -> u64
    requires { are_runs_sound (columns_of (schema_of schema.now).columns) runs.now ≡ true }
    ensures { result ≡ capped_weight (piece_weight (schema_of schema.now) runs.now) }
{
    let mut total = 0;
    for run in runs {
        total = add_weights(total, front_weight(schema, *run, run.len));
    }
    total
}

// Returns the weight of a piece. If only a bound is known, its rows are weighed.
fn exact_weight(schema: &Schema, piece: &[RowRun<'_>], known: Weighed) -> u64
    requires sound { are_runs_sound (columns_of (schema_of schema.now).columns) piece.now ≡ true }
    requires weighed { Weighs known (piece_weight (schema_of schema.now) piece.now) }
    requires light { piece_weight (schema_of schema.now) piece.now ≤ MAX_PIECE_WEIGHT }
    ensures { result ≡ piece_weight (schema_of schema.now) piece.now }
{
    match known {
        Weighed::Exactly(weight) => weight,
        Weighed::AtMost(_) => runs_weight(schema, piece),
    }
}

/// Returns how many rows of a run fit into a piece that may get `room` more rows. While a bound shows that the piece is light enough, no slot of a dictionary
/// is visited. From the first run on for which it does not, the rows are weighed.
pub(crate) fn fitting(
    schema: &Schema,
    piece: &[RowRun<'_>],
    run: RowRun<'_>,
    sizes: &[Option<EntrySize>],
    room: usize,
    before: Weighed,
) -> Taken
    requires sound { is_run_sound (columns_of (schema_of schema.now).columns) run ≡ true }
    requires sizes { AreSizesOf run sizes.now }
    requires piece { are_runs_sound (columns_of (schema_of schema.now).columns) piece.now ≡ true }
    requires weighed { Weighs before (piece_weight (schema_of schema.now) piece.now) }
    requires light { piece_weight (schema_of schema.now) piece.now ≤ MAX_PIECE_WEIGHT }
    ensures within { result.rows ≤ run.entry.len }
    ensures few { result.rows ≤ room }
    ensures weight { Weighs result.weight (piece_weight (schema_of schema.now) piece.now + front_weight (schema_of schema.now) run.entry result.rows) }
    ensures light { piece_weight (schema_of schema.now) piece.now + front_weight (schema_of schema.now) run.entry result.rows ≤ MAX_PIECE_WEIGHT }
    ensures full { let weight = piece_weight (schema_of schema.now) piece.now + front_weight (schema_of schema.now) run.entry result.rows in
        let more = weight_at (schema_of schema.now) run.entry result.rows in
        result.rows < run.entry.len → (result.rows ≡ room) ⊎ (MAX_PIECE_WEIGHT < weight + more) }
{
    if let Weighed::AtMost(weight) = before {
        let most = run.len.min(room);
        let together = add_weights(weight, front_bound(schema, run, sizes, most));
        if together <= MAX_PIECE_WEIGHT {
            return Taken {
                rows: most,
                weight: Weighed::AtMost(together),
            };
        }
    }
    fitting_exactly(schema, run, room, exact_weight(schema, piece, before))
}
