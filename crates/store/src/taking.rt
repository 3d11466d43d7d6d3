// Reads the table of an entry for what takes its rows. One segment is decoded at a time.
ghost use Rattle.std.specs.Prelude.{◌≡◌, ◌≤◌, ◌+◌, ◌++◌, ℕ, true, List, [], Option, IfOk, IfErr};
ghost use Rattle.std.specs.List.{list_all};
ghost use Rattle.sector_dev.specs.Disk.{now, shown_image};
ghost use Rattle.segments.specs.declared.extent.Extent.{Extent};
ghost use Rattle.arrow_schema.specs.Column.{PlainSchema};
ghost use Rattle.arrow_schema.specs.Limits.{IsWithinLimits};
ghost use Rattle.cells.specs.Cell.{Cell, PlainTable};
ghost use Rattle.cells.specs.Weight.{table_weight};
ghost use Rattle.cells.specs.declared.limits.TheConstants.{MAX_TABLE_WEIGHT};
ghost use Rattle.values.specs.Table.{IsTable};
ghost use Rattle.values.specs.TableView.{table_of};
ghost use Rattle.ipc_write.specs.Written.{schema_message};
ghost use Rattle.catalogue.specs.Entries.{is_segment, is_entry, plain_entry};
ghost use Rattle.commit.specs.Standing.{is_size};
ghost use Rattle.store_runs.specs.Changes.{rows_under};
ghost use Rattle.store_runs.specs.Reading.{IsRead, Unreads, OnlyReadsDevice, ended};
ghost use Rattle.store_changes.specs.Ahead.{segments_ahead, segment_ahead, IsAhead, IsNext};
ghost use Rattle.store_changes.specs.ReadSegment.{UnreadsSegment};
ghost use Rattle.store_changes.specs.Source.{AreReadable};
ghost use Rattle.store_changes.specs.inner.ReadRows.{ReadsRows, ReadsNext};
ghost use Rattle.store.specs.inner.Taking.{TakesUnder};

use catalogue::{Segment, TableEntry};
use ipc_write::encode_schema;
use std::alloc::{AllocError, Global};
use store_changes::{ReadAhead, SegmentSource, read_next_segment, table_laws};
use tables::Refusal;
use values::Table;

/// What is made of the rows of a table, which come one segment after another.
pub(crate) trait TakesRows: Drop {
    /// It takes rows of tables of this schema.
    ghost takes: { Self → PlainSchema → Type 0 };

    /// It is what `start` is after these rows.
    ghost has_taken: { (start : Self) → List (List Cell) → Self → Type 0 };

    /// Takes the rows of one segment more.
    ///
    /// # Errors
    /// `AllocError` if memory is refused.
    fn take(self, alloc: Global, next: &Table) -> Result<Self, AllocError>
        requires { takes self (table_of next.now).schema }
        ensures takes { IfOk result (λ more. takes more (table_of next.now).schema) }
        ensures taken { IfOk result (λ more. (start : Self) (rows : List (List Cell)) → has_taken start rows self
            → has_taken start (rows ++ (table_of next.now).rows) more) };

    /// Before the first row.
    ghost begins: { (start : Self) → has_taken start [] start };
}

// Reads the segment at this place, whose table has rows before it that weigh `weight`, and gives its rows. Returns the weight of all of them too.
fn take_segment<D: SegmentSource, T: TakesRows>(
    alloc: Global,
    device: &mut D,
    front: &[u8],
    taker: T,
    weight: u64,
    ahead: &mut ReadAhead<'_>,
    place: usize,
) -> Result<(T, u64), Refusal>
    requires size { is_size (D.size device.old) ≡ true }
    requires next { IsNext (D.can_read device.old) D.tells (shown_image (now (D.story device.old))) place ahead.old }
    requires light { weight ≤ MAX_TABLE_WEIGHT }
    requires takes { TakesUnder (T.takes taker) front.now }
    ensures reads { OnlyReadsDevice D.size D.story D.failed D.tells (ended result) device.old device.new }
    ensures goes_on { D.goes_on device.old device.new }
    ensures light { IfOk result (λ more. more.1 ≤ MAX_TABLE_WEIGHT) }
    ensures takes { IfOk result (λ more. TakesUnder (T.takes more.0) front.now) }
    ensures taken { IfOk result (λ more. (start : T) (s : PlainSchema) (rows : List (List Cell)) → front.now ≡ schema_message s
        → IsTable (rows_under s rows) → weight ≡ table_weight s rows → T.has_taken start rows taker → (all : List (List Cell))
        × ReadsNext D.tells (shown_image (now (D.story device.old))) s rows (segment_ahead ahead.old place) all
        × T.has_taken start all more.0 × (more.1 ≡ table_weight s all)) }
    ensures unread { IfErr result (λ e. (s : PlainSchema) (rows : List (List Cell)) → IsWithinLimits s → front.now ≡ schema_message s
        → weight ≡ table_weight s rows → UnreadsSegment D.tells (shown_image (now (D.story device.old))) s rows (segment_ahead ahead.old place) place e) }
    ensures ahead { IfOk result (λ more.
        IsAhead D.tells (shown_image (now (D.story device.new))) (segments_ahead ahead.old) (place + 1) ahead.new) }
{
    table_laws();
    match read_next_segment(alloc, device, front, ahead, place, weight) {
        Ok(next) => {
            // For the proof: the rows of the segment are a table.
            next.table.schema();
            match taker.take(alloc, &next.table) {
                Ok(more) => Ok((more, weight + next.weight)),
                Err(_) => Err(Refusal::OutOfMemory),
            }
        }
        Err(refusal) => Err(refusal),
    }
}

// Gives the rows of all segments, in order.
fn take_segments<D: SegmentSource, T: TakesRows>(
    alloc: Global,
    device: &mut D,
    front: &[u8],
    segments: &[Segment],
    start: T,
) -> Result<T, Refusal>
    requires size { is_size (D.size device.old) ≡ true }
    requires readable { AreReadable (D.can_read device.old) segments.now }
    requires sound { list_all is_segment segments.now ≡ true }
    requires takes { TakesUnder (T.takes start) front.now }
    ensures reads { OnlyReadsDevice D.size D.story D.failed D.tells (ended result) device.old device.new }
    ensures goes_on { D.goes_on device.old device.new }
    ensures taken { IfOk result (λ taker. (s : PlainSchema) → IsWithinLimits s → front.now ≡ schema_message s → (rows : List (List Cell))
        × ReadsRows D.tells (shown_image (now (D.story device.old))) s segments.now rows × T.has_taken start rows taker) }
    ensures unread { IfErr result (λ e. (s : PlainSchema) (name : List ℕ) (page : Option Extent) → IsWithinLimits s → front.now ≡ schema_message s
        → Unreads D.tells (shown_image (now (D.story device.old))) (record { name = name; schema = s; segments = segments.now; page = page }) e) }
{
    let mut ahead = ReadAhead::new(segments);
    let mut taker = start;
    let mut weight = 0;
    for place in 0..segments.len() {
        match take_segment(alloc, device, front, taker, weight, &mut ahead, place) {
            Ok((more, all)) => {
                taker = more;
                weight = all;
            }
            Err(refusal) => return Err(refusal),
        }
    }
    Ok(taker)
}

/// Gives the rows of the table of an entry to what takes them.
///
/// # Errors
/// `SegmentUnread` or `SegmentDamaged` with the place of the first segment that fails; `Device`; `OutOfMemory`.
pub(crate) fn take_entry<D: SegmentSource, T: TakesRows>(
    alloc: Global,
    device: &mut D,
    entry: &TableEntry,
    start: T,
) -> Result<T, Refusal>
    requires size { is_size (D.size device.old) ≡ true }
    requires readable { AreReadable (D.can_read device.old) (plain_entry entry.now).segments }
    requires sound { is_entry (plain_entry entry.now) ≡ true }
    requires takes { T.takes start (plain_entry entry.now).schema }
    ensures reads { OnlyReadsDevice D.size D.story D.failed D.tells (ended result) device.old device.new }
    ensures goes_on { D.goes_on device.old device.new }
    ensures taken { IfOk result (λ taker. (t : PlainTable) × IsRead D.tells (shown_image (now (D.story device.old))) (plain_entry entry.now) t
        × T.has_taken start t.rows taker) }
    ensures unread { IfErr result (Unreads D.tells (shown_image (now (D.story device.old))) (plain_entry entry.now)) }
{
    table_laws();
    match encode_schema(alloc, entry.schema()) {
        Ok(front) => match take_segments(alloc, device, &front, entry.segments(), start) {
            Ok(taker) => Ok(taker),
            Err(refusal) => Err(refusal),
        },
        Err(_) => Err(Refusal::OutOfMemory),
    }
}
