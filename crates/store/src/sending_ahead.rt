// Reads the segments that are sent ahead of their turn, so that four digests are computed at once, and writes their members.
ghost use Rattle.std.specs.Prelude.{◌≡◌, ◌≢◌, ℕ, Bool, List, length, true, false, Some, slice_get, map, flat_map, IfOk, IfErr, OnOk};
ghost use Rattle.std.specs.Io.KnownBytes.{Appends};
ghost use Rattle.std.specs.List.{list_all};
ghost use Rattle.sha2.specs.Sha256.{sha256};
ghost use Rattle.sector_dev.specs.Disk.{Image, now, shown_image};
ghost use Rattle.catalogue.specs.Entries.{is_segment, plain_entry};
ghost use Rattle.catalogue.specs.View.{catalogue_of};
ghost use Rattle.commit.specs.Standing.{is_size};
ghost use Rattle.table_archive.specs.Archive.{segment_member};
ghost use Rattle.store_runs.specs.Calls.{is_failure, refused};
ghost use Rattle.store_runs.specs.Held.{is_undamaged};
ghost use Rattle.store_runs.specs.Reading.{IsCopy, OnlyReadsDevice, ended};
ghost use Rattle.store_changes.specs.Source.{AreReadable};
ghost use Rattle.store.specs.Sending.{IsSent, AreSent};
ghost use Rattle.store.specs.inner.Sending.{plain_item, IsSegmentOf, ArePicked};

use crate::segment_streams::{copy_of, has_rows, tested_digest};
use crate::sending::{Item, write_member};
use catalogue::{Catalogue, Segment, TableEntry};
use ipc_write::encode_schema;
use std::alloc::Global;
use std::io::Write;
use store_changes::{ReadAhead, SegmentSource, next_bytes};
use tables::Refusal;

// Returns the segment at a place of an entry.
fn segment_in(entry: &TableEntry, place: usize) -> Result<Segment, Refusal>
    ensures segment { IfOk result (λ segment. slice_get (plain_entry entry.now).segments place ≡ Some segment) }
    ensures quiet { IfErr result (λ e. is_failure e ≡ false) }
    ensures awake { IfErr result (λ e. e ≢ Refusal.Halted) }
{
    match entry.segments().get(place) {
        Some(segment) => Ok(*segment),
        None => Err(Refusal::SegmentUnread(place)),
    }
}

// Returns the segment of an item.
fn segment_of(list: &Catalogue, item: &Item<'_>) -> Result<Segment, Refusal>
    ensures segment { IfOk result (IsSegmentOf (catalogue_of list.now) (plain_item item.now)) }
    ensures quiet { IfErr result (λ e. is_failure e ≡ false) }
    ensures awake { IfErr result (λ e. e ≢ Refusal.Halted) }
{
    match list.get(item.name) {
        Some(entry) => segment_in(entry, item.place),
        None => Err(Refusal::NoTable),
    }
}

/// Returns the segments of items, in their order.
pub(crate) fn picked_segments(
    alloc: Global,
    list: &Catalogue,
    items: &[Item<'_>],
) -> Result<Vec<Segment>, Refusal>
    ensures picked { IfOk result (λ segments. ArePicked (catalogue_of list.now) (map plain_item items.now) segments.items) }
    ensures quiet { IfErr result (λ e. is_failure e ≡ false) }
    ensures awake { IfErr result (λ e. e ≢ Refusal.Halted) }
{
    let mut segments = Vec::new(alloc);
    for item in items {
        let segment = segment_of(list, item)?;
        segments.push(segment)?;
    }
    Ok(segments)
}

// Returns why the bytes of an item's segment are not read, with its place in its table: they were read at another place of a list.
fn at_place(refusal: Refusal, place: usize) -> Refusal
    ensures kind { is_failure result ≡ is_failure refusal }
    ensures awake { refusal ≢ Refusal.Halted → result ≢ Refusal.Halted }
{
    match refusal {
        Refusal::SegmentUnread(_) => Refusal::SegmentUnread(place),
        Refusal::SegmentDamaged(_) => Refusal::SegmentDamaged(place),
        other => other,
    }
}

// Returns whether the digest that is listed is that of the bytes that were read of a segment.
fn is_listed(segment: Segment, listed: &[u8; 32], bytes: &[u8]) -> bool
    requires { is_undamaged segment.digest (Some bytes.now) ≡ true }
    ensures { result ≡ true → listed.now ≡ sha256 bytes.now }
{
    let digest = tested_digest(segment, bytes);
    digest.as_slice() == listed.as_slice()
}

// Writes the member of the bytes that were read of an item's segment, if they are its stream.
fn write_read<W: Write>(
    alloc: Global,
    list: &Catalogue,
    item: &Item<'_>,
    segment: Segment,
    bytes: Vec<u8>,
    writer: &mut W,
) -> Result<(), Refusal>
    requires undamaged { is_undamaged segment.digest (Some bytes.items) ≡ true }
    requires named { IsSegmentOf (catalogue_of list.now) (plain_item item.now) segment }
    ensures sent { OnOk result ((tells : Bool) (image : Image) → IsCopy tells image segment bytes.items
        → IsSent tells image (catalogue_of list.now) (plain_item item.now) bytes.items) }
    ensures written { OnOk result (Appends (W.contents writer.old) (W.contents writer.new) (segment_member bytes.items)) }
    ensures quiet { IfErr result (λ e. is_failure e ≡ false) }
    ensures awake { IfErr result (λ e. e ≢ Refusal.Halted) }
{
    let Some(entry) = list.get(item.name) else {
        return Err(Refusal::NoTable);
    };
    let Ok(front) = encode_schema(alloc, entry.schema()) else {
        return Err(Refusal::OutOfMemory);
    };
    if !is_listed(segment, &item.digest, &bytes) {
        return Err(Refusal::SegmentDamaged(item.place));
    }
    let copy = copy_of(alloc, &bytes)?;
    match has_rows(alloc, &front, segment.rows, copy) {
        Ok(true) => write_member(alloc, &item.digest, bytes, writer),
        Ok(false) => Err(Refusal::SegmentUnread(item.place)),
        Err(refusal) => Err(refusal),
    }
}

/// Reads the segments of items ahead, and writes the member of the stream of each.
pub(crate) fn send_picked<D: SegmentSource, W: Write>(
    alloc: Global,
    device: &mut D,
    list: &Catalogue,
    items: &[Item<'_>],
    segments: &[Segment],
    writer: &mut W,
) -> Result<(), Refusal>
    requires size { is_size (D.size device.old) ≡ true }
    requires readable { AreReadable (D.can_read device.old) segments.now }
    requires sound { list_all is_segment segments.now ≡ true }
    requires picked { ArePicked (catalogue_of list.now) (map plain_item items.now) segments.now }
    requires each { length segments.now ≡ length items.now }
    ensures reads { OnlyReadsDevice D.size D.story D.failed D.tells (ended result) device.old device.new }
    ensures sent { OnOk result ((streams : List (List ℕ)) × AreSent D.tells (shown_image (now (D.story device.old))) (catalogue_of list.now)
        (map plain_item items.now) streams × Appends (W.contents writer.old) (W.contents writer.new) (flat_map segment_member streams)) }
    ensures awake { IfErr result (λ e. e ≢ Refusal.Halted) }
{
    let mut ahead = ReadAhead::new(segments);
    for place in 0..segments.len() {
        let item = &items[place];
        match next_bytes(alloc, device, &mut ahead, place) {
            Ok(bytes) => match write_read(alloc, list, item, segments[place], bytes, writer) {
                Ok(()) => {}
                Err(refusal) => return Err(refusal),
            },
            Err(refusal) => return Err(at_place(refusal, item.place)),
        }
    }
    Ok(())
}
