// Whether a table stays light enough with new rows, by the catalogue alone: whatever its segments hold, they have no more bytes than it says.
ghost use Rattle.std.specs.Prelude.{◌≡◌, true, List, None, sum_by, IfSome};
ghost use Rattle.cells.specs.Cell.{Cell};
ghost use Rattle.cells.specs.Weight.{table_weight};
ghost use Rattle.catalogue.specs.Entries.{is_entry, plain_entry};
ghost use Rattle.store_runs.specs.Deciding.{IsSurelyLight};

use crate::appending::Known;
use catalogue::{Segment, TableEntry};
use ipc_write::schema_message_is_read_again;
use weight_bounds::streams_weigh_at_most;

// A table of so many bytes is read anyway: that takes a few milliseconds, and shows segments that are damaged.
const FEW_BYTES: u64 = 1 << 20;

// Returns how many rows and bytes some segments have together, if 64 bits can count them.
fn sizes_of(segments: &[Segment]) -> Option<(u64, u64)>
    ensures { IfSome result (λ sizes. (sizes.0 ≡ sum_by (λ g. g.rows) segments.now) × (sizes.1 ≡ sum_by (λ g. g.place.bytes) segments.now)) }
{
    let mut rows: u64 = 0;
    let mut bytes: u64 = 0;
    for segment in segments {
        if u64::MAX - rows < segment.rows || u64::MAX - bytes < segment.place.bytes {
            return None;
        }
        rows += segment.rows;
        bytes += segment.place.bytes;
    }
    Some((rows, bytes))
}

// Returns whether the table of an entry, which has so many rows and bytes, is surely light enough together with new rows of this weight. Reads nothing.
fn is_surely_light(entry: &TableEntry, rows: u64, bytes: u64, new: u64) -> bool
    requires sound { is_entry (plain_entry entry.now) ≡ true }
    requires rows { rows ≡ sum_by (λ g. g.rows) (plain_entry entry.now).segments }
    requires bytes { bytes ≡ sum_by (λ g. g.place.bytes) (plain_entry entry.now).segments }
    ensures { result ≡ true → (rows : List (List Cell)) → new ≡ table_weight (plain_entry entry.now).schema rows
        → IsSurelyLight (record { entry = plain_entry entry.now; rows = rows }) }
{
    streams_weigh_at_most();
    schema_message_is_read_again();
    weight_bounds::stays_light(entry.schema(), rows, bytes, new)
}

/// Returns the same for a table that is not read anyway, and whose weight is not known.
pub(crate) fn stays_light(entry: &TableEntry, new: u64, known: &Known) -> bool
    requires sound { is_entry (plain_entry entry.now) ≡ true }
    ensures light { result ≡ true → (rows : List (List Cell)) → new ≡ table_weight (plain_entry entry.now).schema rows
        → IsSurelyLight (record { entry = plain_entry entry.now; rows = rows }) }
    ensures unknown { result ≡ true → known.now.weight ≡ None }
{
    if known.weight.is_some() {
        return false;
    }
    match sizes_of(entry.segments()) {
        Some((rows, bytes)) => {
            (known.is_read || bytes > FEW_BYTES) && is_surely_light(entry, rows, bytes, new)
        }
        None => false,
    }
}
