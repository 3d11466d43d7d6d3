// Appends rows to the table of an entry, which is read for its weight unless its segments are short enough.
ghost use Rattle.std.specs.Prelude.{◌≡◌, ◌≢◌, ◌⊎◌, ◌++◌, List, Option, Some, Result, Ok, Err, IfOk, IfErr, IfSome, ◌≤◌, false, true, not, nat_le, string_bytes};
ghost use Rattle.facts.specs.Checks.{when};
ghost use Rattle.sector_dev.specs.Disk.{now, shown_image};
ghost use Rattle.cells.specs.Cell.{Cell};
ghost use Rattle.cells.specs.Weight.{table_weight};
ghost use Rattle.catalogue.specs.Edits.{entry_of};
ghost use Rattle.catalogue.specs.Entries.{plain_entry, is_entry, PlainCatalogue};
ghost use Rattle.commit.specs.Standing.{is_size};
ghost use Rattle.values.specs.Table.{IsTable};
ghost use Rattle.values.specs.TableView.{table_of};
ghost use Rattle.store_runs.specs.Calls.{is_failure};
ghost use Rattle.store_changes.specs.Change.{change_of};
ghost use Rattle.store_runs.specs.Changes.{CanChange, extend, rows_under};
ghost use Rattle.store_runs.specs.Deciding.{Addition, decided_extension, pieces_put};
ghost use Rattle.store_runs.specs.Reading.{OnlyReadsDevice, Unreads, ended};
ghost use Rattle.store_changes.specs.Appending.{added_to, ArePassed, IsAppended};
ghost use Rattle.store_changes.specs.Source.{AreReadable};
ghost use Rattle.store_changes.specs.Tests.{Tests, decision_of};
ghost use Rattle.store_changes.specs.Weights.{Weighs, WeighsAfter};

use crate::change::{Change, Edit, NewSegments, SegmentRows};
use crate::laws::laws_below;
use crate::lightness::stays_light;
use crate::new_rows::{NewRows, pass_new};
use crate::source::SegmentSource;
use crate::weighing::weigh_entry;
use catalogue::TableEntry;
use cells::MAX_TABLE_WEIGHT;
use ipc_encode::pieces_are_tables;
use std::alloc::{AllocError, Global};
use tables::{Limit, Refusal};
use values::{Table, WeighedTable};

// S7 Weight: the table and its new rows would be too heavy.
fn test_weight(weight: u64) -> Result<(), Refusal>
    ensures { Tests result (when (not (nat_le weight MAX_TABLE_WEIGHT)) (Refusal.TooMany Limit.Weight)) }
{
    if weight > MAX_TABLE_WEIGHT {
        Err(Refusal::TooMany(Limit::Weight))
    } else {
        Ok(())
    }
}

// Returns the change that appends new rows to an entry's table. The pieces have the schema of the entry.
fn extension(
    alloc: Global,
    entry: &TableEntry,
    name: String,
    new: Table,
) -> Result<Change, AllocError>
    requires table { IsTable (rows_under (plain_entry entry.now).schema (table_of new).rows) }
    ensures ok { IfOk result (λ change. (c : PlainCatalogue) → entry_of c (string_bytes name) ≡ Some (plain_entry entry.now)
        → CanChange c (change_of change)) }
    ensures change { IfOk result (λ change. change_of change
        ≡ pieces_put (extend (string_bytes name)) (rows_under (plain_entry entry.now).schema (table_of new).rows)) }
{
    pieces_are_tables();
    let schema = entry.schema().copy(alloc)?;
    let rows = SegmentRows {
        table: new,
        schema: Some(schema),
    };
    Ok(Change {
        edit: Edit::Extend { name },
        new: Some(NewSegments::Rows(rows)),
    })
}

// Returns the same if the rows together with those of the table have this weight.
fn decide_extension(
    alloc: Global,
    entry: &TableEntry,
    name: String,
    new: Table,
    weight: u64,
) -> Result<Change, Refusal>
    requires table { IsTable (rows_under (plain_entry entry.now).schema (table_of new).rows) }
    ensures ok { IfOk result (λ change. (c : PlainCatalogue) → entry_of c (string_bytes name) ≡ Some (plain_entry entry.now)
        → CanChange c (change_of change)) }
    ensures answers { (decision_of result ≡ Err Refusal.OutOfMemory) ⊎ ((standing : List (List Cell))
        → weight ≡ table_weight (plain_entry entry.now).schema (standing ++ (table_of new).rows)
        → decision_of result ≡ decided_extension (string_bytes name) (record { entry = plain_entry entry.now; rows = (table_of new).rows }) standing) }
    ensures light { IfOk result (λ change. (weight ≤ MAX_TABLE_WEIGHT) × (change_of change
        ≡ pieces_put (extend (string_bytes name)) (rows_under (plain_entry entry.now).schema (table_of new).rows))) }
    ensures no_device { IfErr result (λ e. is_failure e ≡ false) }
    ensures not_halted { IfErr result (λ e. e ≢ Refusal.Halted) }
{
    match test_weight(weight) {
        Ok(()) => match extension(alloc, entry, name, new) {
            Ok(change) => Ok(change),
            Err(_) => Err(Refusal::OutOfMemory),
        },
        Err(refusal) => Err(refusal),
    }
}

// Returns the change that appends rows, without reading the table of the entry: whatever it holds, it stays light enough.
fn append_unread(
    alloc: Global,
    entry: &TableEntry,
    name: String,
    new: Table,
) -> Result<Change, Refusal>
    requires table { IsTable (rows_under (plain_entry entry.now).schema (table_of new).rows) }
    ensures ok { IfOk result (λ change. (c : PlainCatalogue) → entry_of c (string_bytes name) ≡ Some (plain_entry entry.now)
        → CanChange c (change_of change)) }
    ensures answers { (decision_of result ≡ Err Refusal.OutOfMemory)
        ⊎ (decision_of result ≡ Ok (pieces_put (extend (string_bytes name)) (rows_under (plain_entry entry.now).schema (table_of new).rows))) }
    ensures no_device { IfErr result (λ e. is_failure e ≡ false) }
    ensures not_halted { IfErr result (λ e. e ≢ Refusal.Halted) }
{
    match extension(alloc, entry, name, new) {
        Ok(change) => Ok(change),
        Err(_) => Err(Refusal::OutOfMemory),
    }
}

// Returns the weight of the table of an entry. It is read unless its weight is known.
fn standing_weight<D: SegmentSource>(
    alloc: Global,
    device: &mut D,
    entry: &TableEntry,
    known: Option<u64>,
) -> Result<u64, Refusal>
    requires size { is_size (D.size device.old) ≡ true }
    requires readable { AreReadable (D.can_read device.old) (plain_entry entry.now).segments }
    requires sound { is_entry (plain_entry entry.now) ≡ true }
    requires known { IfSome known (Weighs D.tells (shown_image (now (D.story device.old))) (plain_entry entry.now)) }
    ensures reads { OnlyReadsDevice D.size D.story D.failed D.tells (ended result) device.old device.new }
    ensures goes_on { D.goes_on device.old device.new }
    ensures weight { IfOk result (Weighs D.tells (shown_image (now (D.story device.old))) (plain_entry entry.now)) }
    ensures unread { IfErr result (Unreads D.tells (shown_image (now (D.story device.old))) (plain_entry entry.now)) }
{
    match known {
        Some(weight) => Ok(weight),
        None => weigh_entry(alloc, device, entry),
    }
}

// The same where the table is weighed, for which it is read unless its weight is known. Then its weight with the new rows is. Rows that are too heavy for any
// table are not kept.
fn append_weighed<D: SegmentSource>(
    alloc: Global,
    device: &mut D,
    entry: &TableEntry,
    name: String,
    passed: Option<WeighedTable>,
    known: &mut Option<u64>,
) -> Result<Change, Refusal>
    requires size { is_size (D.size device.old) ≡ true }
    requires readable { AreReadable (D.can_read device.old) (plain_entry entry.now).segments }
    requires sound { is_entry (plain_entry entry.now) ≡ true }
    requires passed { IfSome passed (λ w. IsTable (rows_under (plain_entry entry.now).schema (table_of w.table).rows)) }
    requires known { IfSome known.old (Weighs D.tells (shown_image (now (D.story device.old))) (plain_entry entry.now)) }
    ensures reads { OnlyReadsDevice D.size D.story D.failed D.tells (ended result) device.old device.new }
    ensures goes_on { D.goes_on device.old device.new }
    ensures ok { IfOk result (λ change. (c : PlainCatalogue) → entry_of c (string_bytes name) ≡ Some (plain_entry entry.now)
        → CanChange c (change_of change)) }
    ensures answers { (tested : Result Addition Refusal) → ArePassed (plain_entry entry.now) tested passed
        → IsAppended D.tells (shown_image (now (D.story device.old))) (string_bytes name) tested (decision_of result) }
    ensures known { (tested : Result Addition Refusal) → ArePassed (plain_entry entry.now) tested passed → IfOk result (λ change. IfSome known.new
        (WeighsAfter D.tells (shown_image (now (D.story device.old))) (plain_entry entry.now) (string_bytes name) (change_of change))) }
    ensures not_halted { IfErr result (λ e. e ≢ Refusal.Halted) }
{
    laws_below();
    let standing = match standing_weight(alloc, device, entry, *known) {
        Ok(standing) => standing,
        Err(refusal) => {
            // Dropped by a call, since its inlined drop is long.
            drop(passed);
            return Err(refusal);
        }
    };
    match passed {
        Some(WeighedTable { table, weight }) => {
            let together = standing + weight;
            *known = Some(together);
            decide_extension(alloc, entry, name, table, together)
        }
        None => Err(Refusal::TooMany(Limit::Weight)),
    }
}

/// What is known of a table before rows are appended to it.
#[derive(Clone, Copy)]
pub struct Known {
    /// A command before this one had to read it, or made it: then a small table is not read either.
    pub is_read: bool,
    /// What it weighs.
    pub weight: Option<u64>,
}

/// Decides on an append to the table of an entry: its tests in order. For the last one the table is read, unless its weight is known, or it is surely light
/// enough with the new rows. After a change `known` is what is known then.
///
/// # Errors
/// Those of the new rows, in their order; those of reading the table; `TooMany(Weight)`; `OutOfMemory`.
pub fn append_to_entry<D: SegmentSource>(
    alloc: Global,
    device: &mut D,
    entry: &TableEntry,
    name: String,
    new: NewRows,
    known: &mut Known,
) -> Result<Change, Refusal>
    requires size { is_size (D.size device.old) ≡ true }
    requires readable { AreReadable (D.can_read device.old) (plain_entry entry.now).segments }
    requires sound { is_entry (plain_entry entry.now) ≡ true }
    requires known { IfSome known.old.weight (Weighs D.tells (shown_image (now (D.story device.old))) (plain_entry entry.now)) }
    ensures reads { OnlyReadsDevice D.size D.story D.failed D.tells (ended result) device.old device.new }
    ensures goes_on { D.goes_on device.old device.new }
    ensures ok { IfOk result (λ change. (c : PlainCatalogue) → entry_of c (string_bytes name) ≡ Some (plain_entry entry.now)
        → CanChange c (change_of change)) }
    ensures answers { IsAppended D.tells (shown_image (now (D.story device.old))) (string_bytes name) (added_to new (plain_entry entry.now))
        (decision_of result) }
    ensures known { IfOk result (λ change. IfSome known.new.weight
        (WeighsAfter D.tells (shown_image (now (D.story device.old))) (plain_entry entry.now) (string_bytes name) (change_of change))) }
    ensures not_halted { IfErr result (λ e. e ≢ Refusal.Halted) }
{
    match pass_new(alloc, entry, new) {
        Ok(Some(weighed)) => {
            if stays_light(entry, weighed.weight, known) {
                append_unread(alloc, entry, name, weighed.table)
            } else {
                append_weighed(alloc, device, entry, name, Some(weighed), &mut known.weight)
            }
        }
        Ok(None) => append_weighed(alloc, device, entry, name, None, &mut known.weight),
        Err(refusal) => Err(refusal),
    }
}
