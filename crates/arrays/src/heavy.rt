// What rows weigh, and whether that is too much (docs/definitions/arrays.md).
ghost use Rattle.std.specs.Prelude.{◌≡◌, ℕ, ◌+◌, ◌^◌, ◌<◌, true, map, nat_lt};
ghost use Rattle.std.specs.List.{list_any, range_with_len};
ghost use Rattle.arrow_schema.specs.Column.{columns_of, PlainSchema};
ghost use Rattle.arrow_schema.specs.View.{column_of};
ghost use Rattle.cells.specs.Weight.{capped_weight, table_weight};
ghost use Rattle.columns.specs.CellAt.{row_at, rows_in};
ghost use Rattle.columns.specs.Sound.{are_sound};
ghost use Rattle.columns.specs.View.{IsNoArray, fields_of, placed_arrays};
ghost use Rattle.arrays.specs.inner.Read.{placed_in};
ghost use Rattle.arrays.specs.inner.Weights.{rows_weight, weight_within};

use crate::batch_arrays::Placed;
use crate::weights::parts_weight;
use arrow_schema::Field;
use cells::{MAX_ROW_WEIGHT, MAX_TABLE_WEIGHT, TOO_HEAVY, add_weights};
use columns::{Dictionary, PlacedArray, no_array};

// How many rows are weighed at once. Of as many columns as there may be, whose cells have no bytes, n rows weigh no more than one may.
const ROWS_AT_ONCE: usize = 8192;

// n rows, from one on.
fn rows_weight(placed: Placed<'_>, from: usize, count: usize, none: &PlacedArray) -> u64
    requires empty { IsNoArray none.now }
    requires sound { are_sound (columns_of (map column_of placed.fields.now)) (from + count) (placed_in placed) ≡ true }
    ensures { result ≡ capped_weight (rows_weight (columns_of (map column_of placed.entry.fields.now)) (placed_in placed.entry) from count) }
{
    let parts = parts_weight(
        placed.fields,
        placed.arrays,
        placed.bytes,
        placed.dictionaries,
        from,
        count,
        none,
    );
    add_weights(count as u64, parts)
}

// Whether one of n rows, from one on, weighs too much, by what all of them weigh: none does where that is no more than one may, and others are looked at
// by halves.
fn has_heavy_row(
    placed: Placed<'_>,
    from: usize,
    count: usize,
    total: u64,
    none: &PlacedArray,
) -> bool
    requires empty { IsNoArray none.now }
    requires sound { are_sound (columns_of (map column_of placed.fields.now)) (from + count) (placed_in placed) ≡ true }
    requires counted { from + count < 2 ^ 64 }
    requires total { total ≡ rows_weight (columns_of (map column_of placed.fields.now)) (placed_in placed) from count }
    requires exact { total < TOO_HEAVY }
    ensures { let columns = columns_of (map column_of placed.entry.fields.now) in
        result ≡ list_any (λ i. nat_lt MAX_ROW_WEIGHT (rows_weight columns (placed_in placed.entry) i 1)) (range_with_len from count) }
{
    if total <= MAX_ROW_WEIGHT {
        return false;
    }
    if count < 2 {
        return true;
    }
    let half = count / 2;
    let front = rows_weight(placed, from, half, none);
    has_heavy_row(placed, from, half, front, none)
        || has_heavy_row(placed, from + half, count - half, total - front, none)
}

// Some rows after others: where they weigh no more than one may, as most do, they are visited once.
fn weigh(before: u64, placed: Placed<'_>, rows: usize, none: &PlacedArray) -> Option<u64>
    requires empty { IsNoArray none.now }
    requires sound { are_sound (columns_of (map column_of placed.fields.now)) rows (placed_in placed) ≡ true }
    ensures { (s : PlainSchema) → s.columns ≡ map column_of placed.entry.fields.now
        → result ≡ weight_within s before (rows_in (columns_of s.columns) (placed_in placed.entry) rows) }
{
    if before > MAX_TABLE_WEIGHT {
        return None;
    }
    let mut total = 0;
    let mut start = 0;
    while start < rows {
        let count = (rows - start).min(ROWS_AT_ONCE);
        let part = rows_weight(placed, start, count, none);
        if add_weights(before + total, part) > MAX_TABLE_WEIGHT {
            return None;
        }
        if has_heavy_row(placed, start, count, part, none) {
            return None;
        }
        total += part;
        start += count;
    }
    Some(total)
}

/// What n rows weigh. F28, which is None: one of them weighs too much, or all of them do with the rows before them, which weigh so much.
/// It makes no value for a cell.
pub(crate) fn weigh_rows(before: u64, placed: Placed<'_>, rows: usize) -> Option<u64>
    requires { are_sound (columns_of (map column_of placed.fields.now)) rows (placed_in placed) ≡ true }
    ensures { (s : PlainSchema) → s.columns ≡ map column_of placed.entry.fields.now
        → result ≡ weight_within s before (rows_in (columns_of s.columns) (placed_in placed.entry) rows) }
{
    let none = no_array();
    weigh(before, placed, rows, &none)
}

/// What `count` rows of a record batch weigh, from row `from` on, as weights are reported. It makes no value for a cell.
#[tactic(auto, using(crate::proofs::RowWeights::rows_spanned_from))]
pub fn row_span_weight(
    fields: &[Field],
    arrays: &[PlacedArray],
    bytes: &[u8],
    dictionaries: &[Dictionary],
    from: usize,
    count: usize,
) -> u64
    requires { are_sound (fields_of fields.now) (from + count) (placed_arrays bytes.now dictionaries.now arrays.now) ≡ true }
    ensures { (s : PlainSchema) → s.columns ≡ map column_of fields.now
        → result ≡ capped_weight (table_weight s (map (row_at (columns_of s.columns) (placed_arrays bytes.now dictionaries.now arrays.now))
        (range_with_len from count))) }
{
    let none = no_array();
    let placed = Placed {
        fields,
        arrays,
        bytes,
        dictionaries,
    };
    rows_weight(placed, from, count, &none)
}
