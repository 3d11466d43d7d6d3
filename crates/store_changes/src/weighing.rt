// Weighs the rows of an entry's segments. One segment is decoded at a time.
ghost use Rattle.std.specs.Prelude.{◌≡◌, ◌≤◌, ◌+◌, ℕ, true, List, Option, IfOk, IfErr};
ghost use Rattle.std.specs.List.{list_all};
ghost use Rattle.sector_dev.specs.Disk.{now, shown_image};
ghost use Rattle.arrow_schema.specs.Column.{PlainSchema};
ghost use Rattle.arrow_schema.specs.Limits.{IsWithinLimits};
ghost use Rattle.cells.specs.Cell.{Cell, PlainTable};
ghost use Rattle.cells.specs.Weight.{table_weight};
ghost use Rattle.cells.specs.declared.limits.TheConstants.{MAX_TABLE_WEIGHT};
ghost use Rattle.values.specs.Table.{IsTable};
ghost use Rattle.ipc_write.specs.Written.{schema_message};
ghost use Rattle.segments.specs.declared.extent.Extent.{Extent};
ghost use Rattle.catalogue.specs.Entries.{is_segment, is_entry, plain_entry};
ghost use Rattle.commit.specs.Standing.{is_size};
ghost use Rattle.store_runs.specs.Changes.{rows_under};
ghost use Rattle.store_runs.specs.Reading.{IsRead, Unreads, OnlyReadsDevice, ended};
ghost use Rattle.store_changes.specs.Ahead.{segments_ahead, segment_ahead, IsAhead, IsNext};
ghost use Rattle.store_changes.specs.ReadSegment.{UnreadsSegment};
ghost use Rattle.store_changes.specs.Source.{AreReadable};
ghost use Rattle.store_changes.specs.Weights.{Weighs};
ghost use Rattle.store_changes.specs.inner.ReadRows.{WeighsRows, WeighsNext};

use crate::ahead::ReadAhead;
use crate::kept_message::message_of;
use crate::laws::table_laws;
use crate::reading::read_next_segment;
use crate::source::SegmentSource;
use catalogue::{Segment, TableEntry};
use std::alloc::Global;
use tables::Refusal;

// Reads the segment at this place of a table, whose rows before it weigh `before`. Returns the weight of all rows up to its end.
fn weigh_next<D: SegmentSource>(
    alloc: Global,
    device: &mut D,
    front: &[u8],
    ahead: &mut ReadAhead<'_>,
    place: usize,
    before: u64,
) -> Result<u64, Refusal>
    requires size { is_size (D.size device.old) ≡ true }
    requires next { IsNext (D.can_read device.old) D.tells (shown_image (now (D.story device.old))) place ahead.old }
    requires light { before ≤ MAX_TABLE_WEIGHT }
    ensures reads { OnlyReadsDevice D.size D.story D.failed D.tells (ended result) device.old device.new }
    ensures goes_on { D.goes_on device.old device.new }
    ensures light { IfOk result (λ w. w ≤ MAX_TABLE_WEIGHT) }
    ensures weight { IfOk result (λ w. (s : PlainSchema) (rows : List (List Cell)) → front.now ≡ schema_message s → IsTable (rows_under s rows)
        → before ≡ table_weight s rows → WeighsNext D.tells (shown_image (now (D.story device.old))) s rows (segment_ahead ahead.old place) w) }
    ensures unread { IfErr result (λ e. (s : PlainSchema) (rows : List (List Cell)) → IsWithinLimits s → front.now ≡ schema_message s
        → before ≡ table_weight s rows → UnreadsSegment D.tells (shown_image (now (D.story device.old))) s rows (segment_ahead ahead.old place) place e) }
    ensures ahead { IfOk result (λ w.
        IsAhead D.tells (shown_image (now (D.story device.new))) (segments_ahead ahead.old) (place + 1) ahead.new) }
{
    table_laws();
    match read_next_segment(alloc, device, front, ahead, place, before) {
        Ok(next) => {
            next.table.schema();
            Ok(before + next.weight)
        }
        Err(refusal) => Err(refusal),
    }
}

// Weighs the rows of all segments.
fn weigh_segments<D: SegmentSource>(
    alloc: Global,
    device: &mut D,
    front: &[u8],
    segments: &[Segment],
) -> Result<u64, Refusal>
    requires size { is_size (D.size device.old) ≡ true }
    requires readable { AreReadable (D.can_read device.old) segments.now }
    requires sound { list_all is_segment segments.now ≡ true }
    ensures reads { OnlyReadsDevice D.size D.story D.failed D.tells (ended result) device.old device.new }
    ensures goes_on { D.goes_on device.old device.new }
    ensures weight { IfOk result (λ w. (s : PlainSchema) → IsWithinLimits s → front.now ≡ schema_message s
        → WeighsRows D.tells (shown_image (now (D.story device.old))) s segments.now w) }
    ensures unread { IfErr result (λ e. (s : PlainSchema) (name : List ℕ) (page : Option Extent) → IsWithinLimits s → front.now ≡ schema_message s
        → Unreads D.tells (shown_image (now (D.story device.old))) (record { name = name; schema = s; segments = segments.now; page = page }) e) }
{
    let mut ahead = ReadAhead::new(segments);
    let mut weight = 0;
    for place in 0..segments.len() {
        match weigh_next(alloc, device, front, &mut ahead, place, weight) {
            Ok(more) => weight = more,
            Err(refusal) => return Err(refusal),
        }
    }
    Ok(weight)
}

/// Reads the table of an entry segment by segment, keeps none, and returns what its rows weigh.
///
/// # Errors
/// `SegmentUnread` or `SegmentDamaged` with the place of the first segment that fails; `Device`; `OutOfMemory`.
pub fn weigh_entry<D: SegmentSource>(
    alloc: Global,
    device: &mut D,
    entry: &TableEntry,
) -> Result<u64, Refusal>
    requires size { is_size (D.size device.old) ≡ true }
    requires readable { AreReadable (D.can_read device.old) (plain_entry entry.now).segments }
    requires sound { is_entry (plain_entry entry.now) ≡ true }
    ensures reads { OnlyReadsDevice D.size D.story D.failed D.tells (ended result) device.old device.new }
    ensures goes_on { D.goes_on device.old device.new }
    ensures weight { IfOk result (Weighs D.tells (shown_image (now (D.story device.old))) (plain_entry entry.now)) }
    ensures unread { IfErr result (Unreads D.tells (shown_image (now (D.story device.old))) (plain_entry entry.now)) }
{
    table_laws();
    let segments = entry.segments();
    // Such a table weighs nothing, and no message of its schema is made.
    if segments.is_empty() {
        return Ok(0);
    }
    match message_of(alloc, device.kept_message(), entry.schema()) {
        Ok(front) => match weigh_segments(alloc, device, &front, segments) {
            Ok(weight) => Ok(weight),
            Err(refusal) => Err(refusal),
        },
        Err(_) => Err(Refusal::OutOfMemory),
    }
}
