// Moves the segment with the greatest start to a lower free run.
ghost use Rattle.std.specs.Prelude.{◌≡◌, ◌≤◌, ◌<◌, ◌+◌, ◌∷◌, [], Some, true, false, length, map, slice_get, IfOk, IfErr};
ghost use Rattle.sector_dev.specs.Disk.{now, shown_image};
ghost use Rattle.segments.specs.Runs.{IsLowest};
ghost use Rattle.segments.specs.Usages.{IsUsedIn};
ghost use Rattle.segments.specs.declared.run.Run.{Run};
ghost use Rattle.catalogue.specs.Entries.{PlainCatalogue, plain_entry, runs_of, IsCatalogue};
ghost use Rattle.commit.specs.Standing.{is_size, all_on_device};
ghost use Rattle.store_changes.specs.Change.{change_of};
ghost use Rattle.store_runs.specs.Changes.{exchange};
ghost use Rattle.store_runs.specs.Reading.{OnlyReadsDevice, ended};
ghost use Rattle.store_runs.specs.Compacting.{UnreadsMoving};
ghost use Rattle.store_changes.specs.Finding.{later_of, IsLastIn, IsLastOf, FindsMove};

use crate::change::{Change, Edit, NewSegments};
use crate::reading::read_bytes;
use catalogue::{Segment, TableEntry};
use sector_dev::SectorDevice;
use segments::FreeMap;
use std::alloc::{AllocError, Global};
use tables::Refusal;

/// A segment, by the number of its table and its place in that table.
#[derive(Clone, Copy)]
pub(crate) struct Last {
    pub(crate) table: usize,
    pub(crate) place: usize,
    pub(crate) segment: Segment,
}

// Returns the one with the greater start.
fn later(last: Option<Last>, other: Last) -> Last
    ensures { result ≡ later_of last other }
{
    match last {
        Some(one) => {
            if one.segment.place.run.start < other.segment.place.run.start {
                other
            } else {
                one
            }
        }
        None => other,
    }
}

// Returns the segment of a table with the greatest start.
fn last_in(table: usize, segments: &[Segment]) -> Option<Last>
    ensures { IsLastIn table segments.now (length segments.now) result }
{
    let mut last = None;
    for (place, segment) in segments.iter().enumerate() {
        let other = Last {
            table,
            place,
            segment: *segment,
        };
        last = Some(later(last, other));
    }
    last
}

// Returns the segment with the greatest start of the tables before and of this table.
fn later_in(last: Option<Last>, table: usize, entry: &TableEntry) -> Option<Last>
    ensures { (c : PlainCatalogue) → slice_get c table ≡ Some (plain_entry entry.now) → IsLastOf c table last → IsLastOf c (table + 1) result }
{
    match last_in(table, entry.segments()) {
        Some(other) => Some(later(last, other)),
        None => last,
    }
}

// Returns the segment of all tables with the greatest start.
fn last_segment(entries: &[TableEntry]) -> Option<Last>
    ensures { IsLastOf (map plain_entry entries.now) (length (map plain_entry entries.now)) result }
{
    let mut last = None;
    for (table, entry) in entries.iter().enumerate() {
        last = later_in(last, table, entry);
    }
    last
}

// Returns the table of a segment.
fn entry_at(entries: &[TableEntry], table: usize) -> &TableEntry
    requires { table < length entries.now }
    ensures { slice_get (map plain_entry entries.now) table ≡ Some (plain_entry result.now) }
{
    &entries[table]
}

// Returns the change that writes the bytes of a segment as a new segment in its place.
fn copy_of(
    alloc: Global,
    entry: &TableEntry,
    last: Last,
    bytes: Vec<u8>,
) -> Result<Change, AllocError>
    ensures { IfOk result (λ change. change_of change ≡ record {
      edit = exchange (plain_entry entry.now).name last.place 1;
      streams = bytes.items ∷ [];
      counts = last.segment.rows ∷ [];
    }) }
{
    let name = String::from_str(alloc, entry.name())?;
    let rows = last.segment.rows;
    Ok(Change {
        edit: Edit::Exchange {
            name,
            place: last.place,
            count: 1,
        },
        new: Some(NewSegments::Copied { bytes, rows }),
    })
}

// Returns whether the lowest free run that fits a segment starts before it.
fn fits_below(free: &FreeMap, segment: Segment) -> bool
    requires { 1 ≤ segment.place.run.count }
    ensures below { result ≡ true → (run : Run) × IsLowest free.now.size (IsUsedIn free.now.entries) segment.place.run.count (Some run)
        × (run.start < segment.place.run.start) }
    ensures still { result ≡ false → (run : Run) → IsLowest free.now.size (IsUsedIn free.now.entries) segment.place.run.count (Some run)
        → segment.place.run.start ≤ run.start }
{
    match free.find(segment.place.run.count) {
        Some(run) => run.start < segment.place.run.start,
        None => false,
    }
}

/// Returns the change that moves the segment with the greatest start to the lowest free run that fits it, if that run starts before it. Only reads.
///
/// # Errors
/// `SegmentUnread` if a sector can't be read; `SegmentDamaged` if its bytes have another digest than the one in the catalogue; `Device`; `OutOfMemory`.
pub(crate) fn decide_move<D: SectorDevice>(
    alloc: Global,
    device: &mut D,
    free: &FreeMap,
    entries: &[TableEntry],
) -> Result<Option<Change>, Refusal>
    requires size { is_size (D.size device.old) ≡ true }
    requires placed { all_on_device (D.size device.old) (runs_of (map plain_entry entries.now)) ≡ true }
    requires stands { IsCatalogue (map plain_entry entries.now) }
    ensures reads { OnlyReadsDevice D.size D.story D.failed D.tells (ended result) device.old device.new }
    ensures found { IfOk result (FindsMove D.tells (shown_image (now (D.story device.old))) free.now.size (IsUsedIn free.now.entries)
        (map plain_entry entries.now)) }
    ensures unread { IfErr result (UnreadsMoving D.tells (shown_image (now (D.story device.old))) (map plain_entry entries.now)) }
{
    let last = match last_segment(entries) {
        Some(last) => last,
        None => return Ok(None),
    };
    if !fits_below(free, last.segment) {
        return Ok(None);
    }
    match read_bytes(alloc, device, last.segment, last.place) {
        Ok(bytes) => match copy_of(alloc, entry_at(entries, last.table), last, bytes) {
            Ok(change) => Ok(Some(change)),
            Err(_) => Err(Refusal::OutOfMemory),
        },
        Err(refusal) => Err(refusal),
    }
}
