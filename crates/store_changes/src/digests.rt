// Computes the digests of all segments, from the bytes whose rows are read.
ghost use Rattle.std.specs.Prelude.{◌≡◌, ◌≤◌, ℕ, true, List, Option, map, IfOk, IfErr};
ghost use Rattle.std.specs.List.{list_all};
ghost use Rattle.sha2.specs.Sha256.{sha256};
ghost use Rattle.sector_dev.specs.Disk.{now, shown_image};
ghost use Rattle.arrow_schema.specs.Column.{PlainSchema};
ghost use Rattle.arrow_schema.specs.Limits.{IsWithinLimits};
ghost use Rattle.cells.specs.Cell.{Cell};
ghost use Rattle.cells.specs.Weight.{table_weight};
ghost use Rattle.cells.specs.declared.limits.TheConstants.{MAX_TABLE_WEIGHT};
ghost use Rattle.values.specs.Table.{IsTable};
ghost use Rattle.ipc_write.specs.Written.{schema_message};
ghost use Rattle.segments.specs.declared.extent.Extent.{Extent};
ghost use Rattle.catalogue.specs.Entries.{plain_entry, is_segment, is_entry, runs_of, IsCatalogue, runs_in_segments};
ghost use Rattle.commit.specs.Standing.{is_size, is_on_device, all_on_device};
ghost use Rattle.store_runs.specs.Changes.{rows_under};
ghost use Rattle.store_runs.specs.Reading.{Unreads, OnlyReadsDevice, ended};
ghost use Rattle.store_runs.specs.Digesting.{IsDigested, AllDigested, StopsReading};
ghost use Rattle.store_changes.specs.ReadSegment.{UnreadsSegment};
ghost use Rattle.store_changes.specs.inner.Digesting.{DigestsRows, DigestsNext};

use crate::laws::table_laws;
use crate::reading::{next_in_bytes, read_bytes};
use catalogue::{Segment, TableEntry};
use ipc_write::encode_schema;
use sector_dev::SectorDevice;
use sha2::{Digest, Sha256};
use std::alloc::Global;
use tables::Refusal;

// A segment that was read: what all rows up to its end weigh, and the digest of its bytes.
#[derive(Clone, Copy)]
struct DigestedSegment {
    weight: u64,
    digest: [u8; 32],
}

fn digest_of(bytes: &[u8]) -> [u8; 32]
    ensures { result ≡ sha256 bytes.now }
{
    Sha256::digest(bytes)
}

// Reads the segment at this place of a table, whose rows before it weigh `before`, once: the digest is that of the bytes
// whose rows are read.
fn digest_next<D: SectorDevice>(
    alloc: Global,
    device: &mut D,
    front: &[u8],
    segment: Segment,
    place: usize,
    before: u64,
) -> Result<DigestedSegment, Refusal>
    requires size { is_size (D.size device.old) ≡ true }
    requires placed { is_on_device (D.size device.old) segment.place.run ≡ true }
    requires sound { is_segment segment ≡ true }
    requires light { before ≤ MAX_TABLE_WEIGHT }
    ensures reads { OnlyReadsDevice D.size D.story D.failed D.tells (ended result) device.old device.new }
    ensures light { IfOk result (λ next. next.weight ≤ MAX_TABLE_WEIGHT) }
    ensures digested { IfOk result (λ next. (s : PlainSchema) (rows : List (List Cell)) → front.now ≡ schema_message s
        → IsTable (rows_under s rows) → before ≡ table_weight s rows
        → DigestsNext D.tells (shown_image (now (D.story device.old))) s rows segment next.weight next.digest) }
    ensures unread { IfErr result (λ e. (s : PlainSchema) (rows : List (List Cell)) → IsWithinLimits s
        → front.now ≡ schema_message s → before ≡ table_weight s rows
        → UnreadsSegment D.tells (shown_image (now (D.story device.old))) s rows segment place e) }
{
    table_laws();
    match read_bytes(alloc, device, segment, place) {
        Ok(bytes) => {
            let digest = digest_of(&bytes);
            match next_in_bytes(alloc, front, segment, place, before, bytes) {
                Ok(next) => {
                    next.table.schema();
                    Ok(DigestedSegment {
                        weight: before + next.weight,
                        digest,
                    })
                }
                Err(refusal) => Err(refusal),
            }
        }
        Err(refusal) => Err(refusal),
    }
}

// Returns the digests of the segments of a table. One segment is kept at a time.
fn segment_digests<D: SectorDevice>(
    alloc: Global,
    device: &mut D,
    front: &[u8],
    segments: &[Segment],
) -> Result<Vec<[u8; 32]>, Refusal>
    requires size { is_size (D.size device.old) ≡ true }
    requires placed { all_on_device (D.size device.old) (runs_in_segments segments.now) ≡ true }
    requires sound { list_all is_segment segments.now ≡ true }
    ensures reads { OnlyReadsDevice D.size D.story D.failed D.tells (ended result) device.old device.new }
    ensures found { IfOk result (λ digests. (s : PlainSchema) → IsWithinLimits s → front.now ≡ schema_message s
        → (weight : ℕ)
        × DigestsRows D.tells (shown_image (now (D.story device.old))) s segments.now weight digests.items) }
    ensures unread { IfErr result (λ e. (s : PlainSchema) (name : List ℕ) (page : Option Extent) → IsWithinLimits s
        → front.now ≡ schema_message s → Unreads D.tells (shown_image (now (D.story device.old)))
        (record { name = name; schema = s; segments = segments.now; page = page }) e) }
{
    let mut digests = Vec::new(alloc);
    let mut weight = 0;
    for (place, segment) in segments.iter().enumerate() {
        match digest_next(alloc, device, front, *segment, place, weight) {
            Ok(next) => {
                weight = next.weight;
                match digests.push(next.digest) {
                    Ok(()) => {}
                    Err(_) => return Err(Refusal::OutOfMemory),
                }
            }
            Err(refusal) => return Err(refusal),
        }
    }
    Ok(digests)
}

// Returns the digests of the segments of a table, each of which is read once.
fn entry_digests<D: SectorDevice>(
    alloc: Global,
    device: &mut D,
    entry: &TableEntry,
) -> Result<Vec<[u8; 32]>, Refusal>
    requires size { is_size (D.size device.old) ≡ true }
    requires placed { all_on_device (D.size device.old) (runs_in_segments (plain_entry entry.now).segments) ≡ true }
    requires sound { is_entry (plain_entry entry.now) ≡ true }
    ensures reads { OnlyReadsDevice D.size D.story D.failed D.tells (ended result) device.old device.new }
    ensures found { IfOk result (λ digests. IsDigested D.tells (shown_image (now (D.story device.old)))
        (plain_entry entry.now) digests.items) }
    ensures unread { IfErr result (Unreads D.tells (shown_image (now (D.story device.old))) (plain_entry entry.now)) }
{
    table_laws();
    match encode_schema(alloc, entry.schema()) {
        Ok(front) => match segment_digests(alloc, device, &front, entry.segments()) {
            Ok(digests) => Ok(digests),
            Err(refusal) => Err(refusal),
        },
        Err(_) => Err(Refusal::OutOfMemory),
    }
}

/// Returns the digests of the segments of all tables, in order. Each segment is read once: its digest is that of the
/// bytes whose rows are read, and one that can't be read is reported as by a read of the table. Only reads.
///
/// # Errors
/// `SegmentUnread` or `SegmentDamaged` with the place of the segment, for the first table that can't be read; `Device`; `OutOfMemory`.
pub fn all_digests<D: SectorDevice>(
    alloc: Global,
    device: &mut D,
    entries: &[TableEntry],
) -> Result<Vec<[u8; 32]>, Refusal>
    requires size { is_size (D.size device.old) ≡ true }
    requires placed { all_on_device (D.size device.old) (runs_of (map plain_entry entries.now)) ≡ true }
    requires stands { IsCatalogue (map plain_entry entries.now) }
    ensures reads { OnlyReadsDevice D.size D.story D.failed D.tells (ended result) device.old device.new }
    ensures found { IfOk result (λ digests. AllDigested D.tells (shown_image (now (D.story device.old)))
        (map plain_entry entries.now) digests.items) }
    ensures stops { IfErr result (StopsReading D.tells (shown_image (now (D.story device.old))) (map plain_entry entries.now)) }
{
    let mut digests = Vec::new(alloc);
    for entry in entries {
        match entry_digests(alloc, device, entry) {
            Ok(own) => match digests.extend_from_slice(&own) {
                Ok(()) => {}
                Err(_) => return Err(Refusal::OutOfMemory),
            },
            Err(refusal) => return Err(refusal),
        }
    }
    Ok(digests)
}
