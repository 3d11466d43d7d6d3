// A bound on the weight of rows, for which no slot of a dictionary of texts or binaries is visited.
ghost use Rattle.std.specs.Prelude.{◌≡◌, ◌∷◌, ◌≤◌, ◌+◌, [], true, drop};
ghost use Rattle.arrow_schema.specs.Column.{columns_of};
ghost use Rattle.arrow_schema.specs.View.{column_of, schema_of};
ghost use Rattle.cells.specs.Weight.{capped_weight};
ghost use Rattle.columns.specs.Sound.{are_sound};
ghost use Rattle.columns.specs.View.{fields_of};
ghost use Rattle.table_cut.specs.Rows.{is_run_sound};
ghost use Rattle.table_cut.specs.inner.Bounds.{Weighs, column_weight, columns_weight};
ghost use Rattle.table_cut.specs.inner.Columns.{arrays_from_place};
ghost use Rattle.table_cut.specs.inner.EntrySizes.{AreSizesOf};
ghost use Rattle.table_cut.specs.inner.Weights.{front_weight};

use crate::entry_sizes::{EntrySize, size_at};
use crate::row_run::RowRun;
use arrays::row_span_weight;
use arrow_schema::{Field, Schema};
use cells::{TOO_HEAVY, add_weights, multiply_weight};
use columns::contents_width;

/// The weight of rows, or a weight that they do not exceed.
#[derive(Clone, Copy)]
pub(crate) enum Weighed {
    Exactly(u64),
    AtMost(u64),
}

/// Returns the weight of no rows: a bound if a column has a dictionary of texts or binaries, otherwise exact. For other columns a bound takes no less time.
pub(crate) fn nothing_weighed(schema: &Schema) -> Weighed
    ensures { Weighs result 0 }
{
    for field in &schema.fields {
        if field.dictionary.is_some() && contents_width(&field.data_type).is_some() {
            return Weighed::AtMost(0);
        }
    }
    Weighed::Exactly(0)
}

// Returns the weight of the column at a place in the first `rows` rows of a run. If it is too heavy together with 1 for each row, returns `TOO_HEAVY`.
fn exact_column(fields: &[Field], field: &Field, run: RowRun<'_>, place: usize, rows: usize) -> u64
    requires field { drop place fields.now ≡ field.now ∷ drop (place + 1) fields.now }
    requires sound { are_sound (fields_of (field.now ∷ [])) (run.from + rows) (arrays_from_place place run) ≡ true }
    ensures { capped_weight (column_weight place (column_of field.now) run.entry rows) ≤ result }
{
    let arrays = &run.arrays[place.min(run.arrays.len())..];
    let weight = row_span_weight(
        &fields[place..place + 1],
        arrays,
        run.bytes,
        run.dictionaries,
        run.from,
        rows,
    );
    // Without the 1 that each row weighs besides its cells.
    if weight < TOO_HEAVY {
        weight - rows as u64
    } else {
        TOO_HEAVY
    }
}

// Returns a weight that the column at a place does not exceed in the first `rows` rows of a run. Each value that has a dictionary of texts or binaries is taken
// to be as long as the longest entry may be.
fn column_bound(
    fields: &[Field],
    field: &Field,
    run: RowRun<'_>,
    sizes: &[Option<EntrySize>],
    place: usize,
    rows: usize,
) -> u64
    requires field { drop place fields.now ≡ field.now ∷ drop (place + 1) fields.now }
    requires sizes { AreSizesOf run sizes.now }
    requires sound { are_sound (fields_of (field.now ∷ [])) (run.from + rows) (arrays_from_place place run) ≡ true }
    ensures { capped_weight (column_weight place (column_of field.now) run.entry rows) ≤ result }
{
    match size_at(field, sizes, place) {
        Some(size) => add_weights(rows as u64, multiply_weight(rows as u64, size)),
        None => exact_column(fields, field, run, place, rows),
    }
}

// Returns a weight that the first `rows` rows of a run do not exceed: the sum of 1 for each row and of a bound for each column.
fn columns_bound(fields: &[Field], run: RowRun<'_>, sizes: &[Option<EntrySize>], rows: usize) -> u64
    requires sizes { AreSizesOf run sizes.now }
    requires sound { are_sound (fields_of fields.now) (run.from + run.len) (arrays_from_place 0 run) ≡ true }
    requires within { rows ≤ run.len }
    ensures { capped_weight (rows + columns_weight 0 (fields_of fields.now) run.entry rows) ≤ result }
{
    let mut total = rows as u64;
    for (place, field) in fields.iter().enumerate() {
        total = add_weights(total, column_bound(fields, field, run, sizes, place, rows));
    }
    total
}

/// Returns a weight that the first `rows` rows of a run do not exceed. No slot of a dictionary of texts or binaries is visited, if the sizes of its entries are
/// known.
pub(crate) fn front_bound(
    schema: &Schema,
    run: RowRun<'_>,
    sizes: &[Option<EntrySize>],
    rows: usize,
) -> u64
    requires sizes { AreSizesOf run sizes.now }
    requires sound { is_run_sound (columns_of (schema_of schema.now).columns) run ≡ true }
    requires within { rows ≤ run.len }
    ensures { capped_weight (front_weight (schema_of schema.now) run.entry rows) ≤ result }
{
    columns_bound(&schema.fields, run, sizes, rows)
}
