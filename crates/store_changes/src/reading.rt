// Reads a table from the segments of its entry.
ghost use Rattle.std.specs.Prelude.{◌≡◌, ◌≤◌, ◌+◌, ℕ, Bool, true, false, List, [], Option, Some, None, length, option_map, IfOk, IfErr, IfSome};
ghost use Rattle.std.specs.List.{list_all};
ghost use Rattle.sha2.specs.Sha256.{sha256};
ghost use Rattle.sector_dev.specs.Disk.{Image, now, shown_image};
ghost use Rattle.arrow_schema.specs.Column.{PlainSchema};
ghost use Rattle.arrow_schema.specs.Limits.{IsWithinLimits};
ghost use Rattle.arrow_schema.specs.View.{schema_of};
ghost use Rattle.cells.specs.Cell.{Cell};
ghost use Rattle.values.specs.TableView.{table_of, is_in_parts};
ghost use Rattle.cells.specs.Weight.{table_weight};
ghost use Rattle.ipc_write.specs.Written.{schema_message};
ghost use Rattle.segments.specs.declared.extent.Extent.{Extent};
ghost use Rattle.catalogue.specs.Entries.{is_segment, is_entry, plain_entry, runs_in_segments};
ghost use Rattle.commit.specs.Standing.{is_size, is_on_device, all_on_device};
ghost use Rattle.store_runs.specs.Calls.{is_failure};
ghost use Rattle.store_runs.specs.Held.{is_undamaged, rows_in_bytes};
ghost use Rattle.store_runs.specs.Reading.{IsCopy, LacksBytes, HasRead, LacksRows, IsRead, Unreads, OnlyReadsDevice, ended};
ghost use Rattle.store_changes.specs.inner.ReadRows.{ReadsRows, ReadsNext};
ghost use Rattle.store_changes.specs.inner.TableBuilder.{table_so_far};
ghost use Rattle.store_changes.specs.Source.{AreReadable};
ghost use Rattle.store_changes.specs.Ahead.{segments_ahead, segment_ahead, HasBytes, IsAhead, IsNext};
ghost use Rattle.store_changes.specs.ReadSegment.{table_in_bytes, HasReadTable, IsPast, LacksTable, UnreadsSegment};

use crate::ahead::{ReadAhead, next_bytes};
use crate::laws::table_laws;
use crate::source::SegmentSource;
use crate::table_builder::TableBuilder;
use arrow_schema::Schema;
use catalogue::{Segment, TableEntry};
use cells::MAX_TABLE_WEIGHT;
use ipc_message::ImportError;
use ipc_stream::decode_weighed;
use ipc_write::{encode_schema, schema_message_is_read_again};
use sector_dev::SectorDevice;
use segments::ReadError;
use sha2::{Digest, Sha256};
use std::alloc::{AllocError, Global};
use tables::Refusal;
use values::{Table, WeighedTable};

// Returns whether this is the digest in the entry of a segment, if it has one.
pub(crate) fn has_digest(segment: Segment, digest: &[u8; 32]) -> bool
    ensures { (bytes : List ℕ) → digest.now ≡ sha256 bytes → result ≡ is_undamaged segment.digest (Some bytes) }
{
    match segment.digest {
        Some(own) => digest.as_slice() == own.as_slice(),
        None => true,
    }
}

// Returns whether bytes of a segment have the digest of its entry, if it has one.
fn is_undamaged(segment: Segment, bytes: &[u8]) -> bool
    ensures { result ≡ is_undamaged segment.digest (Some bytes.now) }
{
    segment.digest.is_none() || has_digest(segment, &Sha256::digest(bytes))
}

// Reads the bytes of the segment at this place, whatever their digest.
pub(crate) fn read_untested<D: SegmentSource>(
    alloc: Global,
    device: &mut D,
    segment: Segment,
    place: usize,
) -> Result<Vec<u8>, Refusal>
    requires size { is_size (D.size device.old) ≡ true }
    requires readable { D.can_read device.old segment.place }
    requires sound { is_segment segment ≡ true }
    ensures reads { OnlyReadsDevice D.size D.story D.failed D.tells (ended result) device.old device.new }
    ensures goes_on { D.goes_on device.old device.new }
    ensures bytes { IfOk result (λ bytes. HasBytes D.tells (shown_image (now (D.story device.old))) segment bytes.items) }
    ensures told { IfErr result (LacksBytes D.tells (shown_image (now (D.story device.old))) segment place) }
{
    match device.read_extent(alloc, segment.place) {
        Ok(bytes) => Ok(bytes),
        Err(ReadError::Unreadable) => Err(Refusal::SegmentUnread(place)),
        Err(ReadError::Failed) => Err(Refusal::Device),
        Err(ReadError::OutOfMemory) => Err(Refusal::OutOfMemory),
    }
}

// Reads the bytes of the segment at this place, and tests their digest.
pub(crate) fn read_bytes<D: SegmentSource>(
    alloc: Global,
    device: &mut D,
    segment: Segment,
    place: usize,
) -> Result<Vec<u8>, Refusal>
    requires size { is_size (D.size device.old) ≡ true }
    requires readable { D.can_read device.old segment.place }
    requires sound { is_segment segment ≡ true }
    ensures reads { OnlyReadsDevice D.size D.story D.failed D.tells (ended result) device.old device.new }
    ensures goes_on { D.goes_on device.old device.new }
    ensures copy { IfOk result (λ bytes. IsCopy D.tells (shown_image (now (D.story device.old))) segment bytes.items) }
    ensures told { IfErr result (LacksBytes D.tells (shown_image (now (D.story device.old))) segment place) }
{
    match read_untested(alloc, device, segment, place) {
        Ok(bytes) => {
            if is_undamaged(segment, &bytes) {
                Ok(bytes)
            } else {
                Err(Refusal::SegmentDamaged(place))
            }
        }
        Err(refusal) => Err(refusal),
    }
}

// Returns the table of this number of rows in some bytes, if they begin with `front`, the message of its schema.
fn table_in_bytes(
    alloc: Global,
    front: &[u8],
    rows: u64,
    bytes: Vec<u8>,
) -> Result<Option<WeighedTable>, Refusal>
    ensures means { IfOk result (λ found. option_map (λ w. table_of w.table) found ≡ table_in_bytes front.now rows (Some bytes.items)) }
    ensures rows { IfOk result (λ found. (s : PlainSchema) → front.now ≡ schema_message s
        → option_map (λ w. (table_of w.table).rows) found ≡ rows_in_bytes s rows (Some bytes.items)) }
    ensures schema { IfOk result (λ found. IfSome found (λ w. (s : PlainSchema) → IsWithinLimits s → front.now ≡ schema_message s
        → (table_of w.table).schema ≡ s)) }
    ensures weight { IfOk result (λ found. IfSome found (λ w. w.weight ≡ table_weight (table_of w.table).schema (table_of w.table).rows)) }
    ensures count { IfOk result (λ found. IfSome found (λ w. length (table_of w.table).rows ≡ rows)) }
    ensures in_parts { IfOk result (λ found. IfSome found (λ w. is_in_parts w.table ≡ true)) }
    ensures memory { IfErr result (λ e. e ≡ Refusal.OutOfMemory) }
{
    schema_message_is_read_again();
    if !bytes.starts_with(front) {
        return Ok(None);
    }
    match decode_weighed(alloc, bytes) {
        Ok(weighed) => {
            if weighed.table.len() as u64 == rows {
                Ok(Some(weighed))
            } else {
                Ok(None)
            }
        }
        Err(ImportError::Fault(_)) => Ok(None),
        Err(ImportError::OutOfMemory) => Err(Refusal::OutOfMemory),
    }
}

// Returns the table in bytes that were read of the segment at this place, if they begin with `front`.
fn segment_in_bytes(
    alloc: Global,
    front: &[u8],
    segment: Segment,
    place: usize,
    bytes: Vec<u8>,
) -> Result<WeighedTable, Refusal>
    ensures means { IfOk result (λ w. table_in_bytes front.now segment.rows (Some bytes.items)
        ≡ Some (table_of w.table)) }
    ensures rows { IfOk result (λ w. (s : PlainSchema) → front.now ≡ schema_message s
        → rows_in_bytes s segment.rows (Some bytes.items) ≡ Some (table_of w.table).rows) }
    ensures schema { IfOk result (λ w. (s : PlainSchema) → IsWithinLimits s → front.now ≡ schema_message s
        → (table_of w.table).schema ≡ s) }
    ensures weight { IfOk result (λ w. w.weight ≡ table_weight (table_of w.table).schema (table_of w.table).rows) }
    ensures count { IfOk result (λ w. length (table_of w.table).rows ≡ segment.rows) }
    ensures in_parts { IfOk result (λ w. is_in_parts w.table ≡ true) }
    // Of these bytes alone: no device has failed.
    ensures quiet { IfErr result (λ e. is_failure e ≡ false) }
    ensures lacks { IfErr result (λ e. (tells : Bool) (image : Image) → IsCopy tells image segment bytes.items
        → LacksTable (λ found. found ≡ None) tells image front.now segment place e) }
    ensures told { IfErr result (λ e. (tells : Bool) (image : Image) (s : PlainSchema)
        → IsCopy tells image segment bytes.items → front.now ≡ schema_message s → LacksRows tells image s segment place e) }
{
    match table_in_bytes(alloc, front, segment.rows, bytes) {
        Ok(Some(weighed)) => Ok(weighed),
        Ok(None) => Err(Refusal::SegmentUnread(place)),
        Err(refusal) => Err(refusal),
    }
}

/// Reads the table of the segment at this place, if it begins with `front`: the message of its schema, or any bytes.
///
/// # Errors
/// `SegmentUnread`, also if its bytes begin otherwise or mean no table of its rows, and `SegmentDamaged` with its place; `Device`; `OutOfMemory`.
pub fn read_segment<D: SectorDevice>(
    alloc: Global,
    device: &mut D,
    front: &[u8],
    segment: Segment,
    place: usize,
) -> Result<WeighedTable, Refusal>
    requires size { is_size (D.size device.old) ≡ true }
    requires placed { is_on_device (D.size device.old) segment.place.run ≡ true }
    requires sound { is_segment segment ≡ true }
    ensures reads { OnlyReadsDevice D.size D.story D.failed D.tells (ended result) device.old device.new }
    // With any front: the bytes that were read begin with it and mean the table.
    ensures means { IfOk result (λ w. HasReadTable D.tells (shown_image (now (D.story device.old))) front.now segment (table_of w.table)) }
    ensures lacks { IfErr result (LacksTable (λ found. found ≡ None) D.tells (shown_image (now (D.story device.old))) front.now segment place) }
    ensures rows { IfOk result (λ w. (s : PlainSchema) → front.now ≡ schema_message s
        → HasRead D.tells (shown_image (now (D.story device.old))) s segment (table_of w.table).rows) }
    ensures schema { IfOk result (λ w. (s : PlainSchema) → IsWithinLimits s → front.now ≡ schema_message s → (table_of w.table).schema ≡ s) }
    ensures weight { IfOk result (λ w. w.weight ≡ table_weight (table_of w.table).schema (table_of w.table).rows) }
    ensures count { IfOk result (λ w. length (table_of w.table).rows ≡ segment.rows) }
    ensures in_parts { IfOk result (λ w. is_in_parts w.table ≡ true) }
    ensures told { IfErr result (λ e. (s : PlainSchema) → front.now ≡ schema_message s
        → LacksRows D.tells (shown_image (now (D.story device.old))) s segment place e) }
{
    match read_bytes(alloc, device, segment, place) {
        Ok(bytes) => segment_in_bytes(alloc, front, segment, place, bytes),
        Err(refusal) => Err(refusal),
    }
}

// Returns the table in bytes that were read of the segment at this place of a table, whose rows before it weigh `before`.
// All rows up to its end have to be light enough for a table.
pub(crate) fn next_in_bytes(
    alloc: Global,
    front: &[u8],
    segment: Segment,
    place: usize,
    before: u64,
    bytes: Vec<u8>,
) -> Result<WeighedTable, Refusal>
    requires light { before ≤ MAX_TABLE_WEIGHT }
    ensures means { IfOk result (λ w. table_in_bytes front.now segment.rows (Some bytes.items)
        ≡ Some (table_of w.table)) }
    ensures rows { IfOk result (λ w. (s : PlainSchema) → front.now ≡ schema_message s
        → rows_in_bytes s segment.rows (Some bytes.items) ≡ Some (table_of w.table).rows) }
    ensures schema { IfOk result (λ w. (s : PlainSchema) → IsWithinLimits s → front.now ≡ schema_message s
        → (table_of w.table).schema ≡ s) }
    ensures weight { IfOk result (λ w. w.weight ≡ table_weight (table_of w.table).schema (table_of w.table).rows) }
    ensures count { IfOk result (λ w. length (table_of w.table).rows ≡ segment.rows) }
    ensures in_parts { IfOk result (λ w. is_in_parts w.table ≡ true) }
    ensures light { IfOk result (λ w. before + w.weight ≤ MAX_TABLE_WEIGHT) }
    // Of these bytes alone: no device has failed.
    ensures quiet { IfErr result (λ e. is_failure e ≡ false) }
    ensures lacks { IfErr result (λ e. (tells : Bool) (image : Image) → IsCopy tells image segment bytes.items
        → LacksTable (IsPast before) tells image front.now segment place e) }
    ensures unread { IfErr result (λ e. (tells : Bool) (image : Image) (s : PlainSchema) (rows : List (List Cell))
        → IsCopy tells image segment bytes.items → IsWithinLimits s → front.now ≡ schema_message s
        → before ≡ table_weight s rows → UnreadsSegment tells image s rows segment place e) }
{
    match segment_in_bytes(alloc, front, segment, place, bytes) {
        Ok(weighed) => {
            if weighed.weight > MAX_TABLE_WEIGHT - before {
                Err(Refusal::SegmentUnread(place))
            } else {
                Ok(weighed)
            }
        }
        Err(refusal) => Err(refusal),
    }
}

/// Reads the table of the segment at this place of a table, the next of those that are read in order. The rows before it weigh `before`. All rows up to its
/// end have to be light enough for a table. Segments behind it may be read too, and are kept ahead: at most three, and 4 MB together with this one.
///
/// # Errors
/// `SegmentUnread`, also if they are too heavy, and `SegmentDamaged` with its place; `Device`, also if it fails while a segment behind it is read;
/// `OutOfMemory`.
pub fn read_next_segment<D: SegmentSource>(
    alloc: Global,
    device: &mut D,
    front: &[u8],
    ahead: &mut ReadAhead<'_>,
    place: usize,
    before: u64,
) -> Result<WeighedTable, Refusal>
    requires size { is_size (D.size device.old) ≡ true }
    requires next { IsNext (D.can_read device.old) D.tells (shown_image (now (D.story device.old))) place ahead.old }
    requires light { before ≤ MAX_TABLE_WEIGHT }
    ensures reads { OnlyReadsDevice D.size D.story D.failed D.tells (ended result) device.old device.new }
    ensures goes_on { D.goes_on device.old device.new }
    // With any front: the bytes that were read begin with it and mean the table.
    ensures means { IfOk result (λ w. HasReadTable D.tells (shown_image (now (D.story device.old))) front.now
        (segment_ahead ahead.old place) (table_of w.table)) }
    ensures lacks { IfErr result (LacksTable (IsPast before) D.tells (shown_image (now (D.story device.old))) front.now
        (segment_ahead ahead.old place) place) }
    ensures rows { IfOk result (λ w. (s : PlainSchema) → front.now ≡ schema_message s
        → HasRead D.tells (shown_image (now (D.story device.old))) s (segment_ahead ahead.old place) (table_of w.table).rows) }
    ensures schema { IfOk result (λ w. (s : PlainSchema) → IsWithinLimits s → front.now ≡ schema_message s → (table_of w.table).schema ≡ s) }
    ensures weight { IfOk result (λ w. w.weight ≡ table_weight (table_of w.table).schema (table_of w.table).rows) }
    ensures count { IfOk result (λ w. length (table_of w.table).rows ≡ (segment_ahead ahead.old place).rows) }
    ensures in_parts { IfOk result (λ w. is_in_parts w.table ≡ true) }
    ensures light { IfOk result (λ w. before + w.weight ≤ MAX_TABLE_WEIGHT) }
    ensures unread { IfErr result (λ e. (s : PlainSchema) (rows : List (List Cell)) → IsWithinLimits s → front.now ≡ schema_message s
        → before ≡ table_weight s rows → UnreadsSegment D.tells (shown_image (now (D.story device.old))) s rows (segment_ahead ahead.old place) place e) }
    ensures ahead { IfOk result (λ w.
        IsAhead D.tells (shown_image (now (D.story device.new))) (segments_ahead ahead.old) (place + 1) ahead.new) }
{
    let segment = ahead.segments[place];
    match next_bytes(alloc, device, ahead, place) {
        Ok(bytes) => next_in_bytes(alloc, front, segment, place, before, bytes),
        Err(refusal) => Err(refusal),
    }
}

// Appends the rows of the segment at this place to those before it.
fn append_segment<D: SegmentSource>(
    alloc: Global,
    device: &mut D,
    front: &[u8],
    gathered: TableBuilder,
    ahead: &mut ReadAhead<'_>,
    place: usize,
) -> Result<TableBuilder, Refusal>
    requires size { is_size (D.size device.old) ≡ true }
    requires next { IsNext (D.can_read device.old) D.tells (shown_image (now (D.story device.old))) place ahead.old }
    requires limits { IsWithinLimits (table_so_far gathered).schema }
    requires message { front.now ≡ schema_message (table_so_far gathered).schema }
    ensures reads { OnlyReadsDevice D.size D.story D.failed D.tells (ended result) device.old device.new }
    ensures goes_on { D.goes_on device.old device.new }
    ensures schema { IfOk result (λ g. (table_so_far g).schema ≡ (table_so_far gathered).schema) }
    ensures read { IfOk result (λ g. ReadsNext D.tells (shown_image (now (D.story device.old)))
        (table_so_far gathered).schema (table_so_far gathered).rows (segment_ahead ahead.old place) (table_so_far g).rows) }
    ensures unread { IfErr result (UnreadsSegment D.tells (shown_image (now (D.story device.old)))
        (table_so_far gathered).schema (table_so_far gathered).rows (segment_ahead ahead.old place) place) }
    ensures ahead { IfOk result (λ g.
        IsAhead D.tells (shown_image (now (D.story device.new))) (segments_ahead ahead.old) (place + 1) ahead.new) }
{
    match read_next_segment(alloc, device, front, ahead, place, gathered.weight) {
        Ok(weighed) => match gathered.append(weighed) {
            Ok(more) => Ok(more),
            Err(_) => Err(Refusal::OutOfMemory),
        },
        Err(refusal) => Err(refusal),
    }
}

// Appends the rows of all segments, in order.
fn read_segments<D: SegmentSource>(
    alloc: Global,
    device: &mut D,
    front: &[u8],
    empty: TableBuilder,
    segments: &[Segment],
) -> Result<TableBuilder, Refusal>
    requires size { is_size (D.size device.old) ≡ true }
    requires readable { AreReadable (D.can_read device.old) segments.now }
    requires sound { list_all is_segment segments.now ≡ true }
    requires limits { IsWithinLimits (table_so_far empty).schema }
    requires message { front.now ≡ schema_message (table_so_far empty).schema }
    requires none { (table_so_far empty).rows ≡ [] }
    ensures reads { OnlyReadsDevice D.size D.story D.failed D.tells (ended result) device.old device.new }
    ensures goes_on { D.goes_on device.old device.new }
    ensures schema { IfOk result (λ g. (table_so_far g).schema ≡ (table_so_far empty).schema) }
    ensures read { IfOk result (λ g. ReadsRows D.tells (shown_image (now (D.story device.old))) (table_so_far empty).schema segments.now
        (table_so_far g).rows) }
    ensures unread { IfErr result (λ e. (name : List ℕ) (page : Option Extent) → Unreads D.tells (shown_image (now (D.story device.old)))
        (record { name = name; schema = (table_so_far empty).schema; segments = segments.now; page = page }) e) }
{
    let mut ahead = ReadAhead::new(segments);
    let mut gathered = empty;
    for place in 0..segments.len() {
        match append_segment(alloc, device, front, gathered, &mut ahead, place) {
            Ok(more) => gathered = more,
            Err(refusal) => return Err(refusal),
        }
    }
    Ok(gathered)
}

// Returns the message of a schema, and a builder without rows.
fn start_table(alloc: Global, schema: &Schema) -> Result<(Vec<u8>, TableBuilder), AllocError>
    requires limits { IsWithinLimits (schema_of schema.now) }
    ensures message { IfOk result (λ r. r.0.items ≡ schema_message (schema_of schema.now)) }
    ensures empty { IfOk result (λ r. table_so_far r.1 ≡ record { schema = schema_of schema.now; rows = [] }) }
{
    let front = encode_schema(alloc, schema)?;
    let empty = TableBuilder::empty(alloc, schema.copy(alloc)?);
    Ok((front, empty))
}

// Returns the table of the rows so far.
fn finish_table(alloc: Global, gathered: TableBuilder) -> Result<Table, Refusal>
    ensures table { IfOk result (λ t. table_of t ≡ table_so_far gathered) }
    ensures memory { IfErr result (λ e. e ≡ Refusal.OutOfMemory) }
{
    match gathered.finish(alloc) {
        Ok(table) => Ok(table),
        Err(_) => Err(Refusal::OutOfMemory),
    }
}

// Reads the rows of an entry's segments.
fn gather_entry<D: SectorDevice>(
    alloc: Global,
    device: &mut D,
    entry: &TableEntry,
) -> Result<TableBuilder, Refusal>
    requires size { is_size (D.size device.old) ≡ true }
    requires placed { all_on_device (D.size device.old) (runs_in_segments (plain_entry entry.now).segments) ≡ true }
    requires sound { is_entry (plain_entry entry.now) ≡ true }
    ensures reads { OnlyReadsDevice D.size D.story D.failed D.tells (ended result) device.old device.new }
    ensures table { IfOk result (λ g. IsRead D.tells (shown_image (now (D.story device.old))) (plain_entry entry.now) (table_so_far g)) }
    ensures unread { IfErr result (Unreads D.tells (shown_image (now (D.story device.old))) (plain_entry entry.now)) }
{
    table_laws();
    match start_table(alloc, entry.schema()) {
        Ok((front, empty)) => {
            match read_segments(alloc, device, &front, empty, entry.segments()) {
                Ok(gathered) => Ok(gathered),
                Err(refusal) => Err(refusal),
            }
        }
        Err(_) => Err(Refusal::OutOfMemory),
    }
}

/// Reads the table of an entry.
///
/// # Errors
/// `SegmentUnread` or `SegmentDamaged` with the place of the first segment that fails; `Device`; `OutOfMemory`.
pub fn read_entry<D: SectorDevice>(
    alloc: Global,
    device: &mut D,
    entry: &TableEntry,
) -> Result<Table, Refusal>
    requires size { is_size (D.size device.old) ≡ true }
    requires placed { all_on_device (D.size device.old) (runs_in_segments (plain_entry entry.now).segments) ≡ true }
    requires sound { is_entry (plain_entry entry.now) ≡ true }
    ensures reads { OnlyReadsDevice D.size D.story D.failed D.tells (ended result) device.old device.new }
    ensures table { IfOk result (λ t. IsRead D.tells (shown_image (now (D.story device.old))) (plain_entry entry.now) (table_of t)) }
    ensures unread { IfErr result (Unreads D.tells (shown_image (now (D.story device.old))) (plain_entry entry.now)) }
{
    match gather_entry(alloc, device, entry) {
        Ok(gathered) => finish_table(alloc, gathered),
        Err(refusal) => Err(refusal),
    }
}
