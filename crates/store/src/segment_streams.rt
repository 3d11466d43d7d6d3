// The segments of a table, and the stream of one of them, byte for byte.
ghost use Rattle.std.specs.Prelude.{◌≡◌, ℕ, List, Bool, true, false, Some, is_some, map, option_map, IfOk, IfErr, IfSome};
ghost use Rattle.sha2.specs.Sha256.{sha256};
ghost use Rattle.sector_dev.specs.Disk.{Image, now, shown_image};
ghost use Rattle.arrow_schema.specs.Column.{PlainSchema};
ghost use Rattle.arrow_schema.specs.Limits.{IsWithinLimits};
ghost use Rattle.arrow_schema.specs.View.{schema_of};
ghost use Rattle.cells.specs.Cell.{Cell};
ghost use Rattle.ipc_write.specs.Written.{schema_message};
ghost use Rattle.catalogue.specs.declared.entry.Segment as segments;
ghost use Rattle.catalogue.specs.Entries.{is_segment, is_entry, plain_entry, runs_in_segments};
ghost use Rattle.commit.specs.Standing.{is_size, is_on_device, all_on_device};
ghost use Rattle.store_changes.specs.Ahead.{HasBytes};
ghost use Rattle.store_runs.specs.Calls.{is_failure};
ghost use Rattle.store_runs.specs.Held.{is_undamaged, rows_in_bytes, rows_held};
ghost use Rattle.store_runs.specs.Reading.{IsCopy, LacksBytes, LacksRows, OnlyReadsDevice, ended};
ghost use Rattle.store.specs.SegmentStreams.{info_of, HasStream, HaveStreams, EntryHasStream, RefusesPlace};

use crate::Store;
use crate::reading::halts;
use catalogue::{Segment, TableEntry};
use ipc_message::ImportError;
use ipc_stream::decode;
use ipc_write::encode_schema;
use sector_dev::SectorDevice;
use segments::ReadError;
use sha2::{Digest, Sha256};
use std::alloc::Global;
use store_changes::SegmentSource;
use tables::Refusal;

/// A segment as the catalogue lists it: the SHA-256 of its bytes (FIPS 180-4) if the store keeps digests, and the numbers of its bytes and its rows.
#[derive(Clone, Copy)]
pub struct SegmentInfo {
    pub digest: Option<[u8; 32]>,
    pub bytes: u64,
    pub rows: u64,
}

/// The bytes of a segment, which are a whole stream, and their SHA-256 (FIPS 180-4).
#[derive(Drop)]
pub struct SegmentStream {
    pub digest: [u8; 32],
    pub bytes: Vec<u8>,
}

fn digest_of(bytes: &[u8]) -> [u8; 32]
    ensures { result ≡ sha256 bytes.now }
{
    Sha256::digest(bytes)
}

/// Returns the digest of bytes that have that of a segment, if its entry has one: then it is not computed again.
pub(crate) fn tested_digest(segment: Segment, bytes: &[u8]) -> [u8; 32]
    requires { is_undamaged segment.digest (Some bytes.now) ≡ true }
    ensures { result ≡ sha256 bytes.now }
{
    match segment.digest {
        Some(own) => own,
        None => digest_of(bytes),
    }
}

// Returns whether this is the digest in the entry of a segment, if it has one.
fn has_digest(segment: Segment, digest: &[u8; 32]) -> bool
    ensures { (bytes : List ℕ) → digest.now ≡ sha256 bytes → result ≡ is_undamaged segment.digest (Some bytes) }
{
    match segment.digest {
        Some(own) => digest.as_slice() == own.as_slice(),
        None => true,
    }
}

/// Returns whether some bytes are a stream of this number of rows that begins with `front`, the message of its schema.
pub(crate) fn has_rows(
    alloc: Global,
    front: &[u8],
    rows: u64,
    bytes: Vec<u8>,
) -> Result<bool, Refusal>
    ensures means { IfOk result (λ has. (s : PlainSchema) → front.now ≡ schema_message s
        → has ≡ is_some (rows_in_bytes s rows (Some bytes.items))) }
    ensures memory { IfErr result (λ e. e ≡ Refusal.OutOfMemory) }
{
    if !bytes.starts_with(front) {
        return Ok(false);
    }
    match decode(alloc, bytes) {
        Ok(table) => Ok(table.len() as u64 == rows),
        Err(ImportError::Fault(_)) => Ok(false),
        Err(ImportError::OutOfMemory) => Err(Refusal::OutOfMemory),
    }
}

// Reads the bytes of the segment at this place, whatever they are.
fn read_untested<D: SectorDevice>(
    alloc: Global,
    device: &mut D,
    place: usize,
    segment: Segment,
) -> Result<Vec<u8>, Refusal>
    requires size { is_size (D.size device.old) ≡ true }
    requires placed { is_on_device (D.size device.old) segment.place.run ≡ true }
    requires sound { is_segment segment ≡ true }
    ensures reads { OnlyReadsDevice D.size D.story D.failed D.tells (ended result) device.old device.new }
    ensures bytes { IfOk result (λ bytes. HasBytes D.tells (shown_image (now (D.story device.old))) segment bytes.items) }
    ensures told { IfErr result (LacksBytes D.tells (shown_image (now (D.story device.old))) segment place) }
{
    match device.read_extent(alloc, segment.place) {
        Ok(bytes) => Ok(bytes),
        Err(ReadError::Unreadable) => Err(Refusal::SegmentUnread(place)),
        Err(ReadError::Failed) => Err(Refusal::Device),
        Err(ReadError::OutOfMemory) => Err(Refusal::OutOfMemory),
    }
}

pub(crate) fn copy_of(alloc: Global, bytes: &[u8]) -> Result<Vec<u8>, Refusal>
    ensures copy { IfOk result (λ copy. copy.items ≡ bytes.now) }
    ensures memory { IfErr result (λ e. e ≡ Refusal.OutOfMemory) }
{
    let mut copy = Vec::new(alloc);
    match copy.extend_from_slice(bytes) {
        Ok(()) => Ok(copy),
        Err(_) => Err(Refusal::OutOfMemory),
    }
}

// Returns the bytes of the segment at this place with their digest, if they are a stream of its rows.
fn tested(
    alloc: Global,
    front: &[u8],
    place: usize,
    segment: Segment,
    bytes: Vec<u8>,
) -> Result<SegmentStream, Refusal>
    ensures stream { IfOk result (λ stream. (tells : Bool) (image : Image) (s : PlainSchema) → front.now ≡ schema_message s
        → HasBytes tells image segment bytes.items → HasStream tells image s segment stream.digest stream.bytes.items) }
    // Of these bytes alone: no device has failed.
    ensures quiet { IfErr result (λ e. is_failure e ≡ false) }
    ensures told { IfErr result (λ e. (tells : Bool) (image : Image) (s : PlainSchema) → front.now ≡ schema_message s
        → HasBytes tells image segment bytes.items → LacksRows tells image s segment place e) }
{
    let digest = digest_of(&bytes);
    if !has_digest(segment, &digest) {
        return Err(Refusal::SegmentDamaged(place));
    }
    let copy = copy_of(alloc, &bytes)?;
    match has_rows(alloc, front, segment.rows, copy) {
        Ok(true) => Ok(SegmentStream { digest, bytes }),
        Ok(false) => Err(Refusal::SegmentUnread(place)),
        Err(refusal) => Err(refusal),
    }
}

// Reads the stream of the segment at this place.
fn read_stream<D: SectorDevice>(
    alloc: Global,
    device: &mut D,
    front: &[u8],
    place: usize,
    segment: Segment,
) -> Result<SegmentStream, Refusal>
    requires size { is_size (D.size device.old) ≡ true }
    requires placed { is_on_device (D.size device.old) segment.place.run ≡ true }
    requires sound { is_segment segment ≡ true }
    ensures reads { OnlyReadsDevice D.size D.story D.failed D.tells (ended result) device.old device.new }
    ensures stream { IfOk result (λ stream. (s : PlainSchema) → front.now ≡ schema_message s
        → HasStream D.tells (shown_image (now (D.story device.old))) s segment stream.digest stream.bytes.items) }
    ensures told { IfErr result (λ e. (s : PlainSchema) → front.now ≡ schema_message s
        → LacksRows D.tells (shown_image (now (D.story device.old))) s segment place e) }
{
    match read_untested(alloc, device, place, segment) {
        Ok(bytes) => tested(alloc, front, place, segment, bytes),
        Err(refusal) => Err(refusal),
    }
}

// Reads the stream of the segment at this place of an entry.
fn stream_in_entry<D: SectorDevice>(
    alloc: Global,
    device: &mut D,
    entry: &TableEntry,
    place: usize,
) -> Result<SegmentStream, Refusal>
    requires size { is_size (D.size device.old) ≡ true }
    requires placed { all_on_device (D.size device.old) (runs_in_segments (plain_entry entry.now).segments) ≡ true }
    requires sound { is_entry (plain_entry entry.now) ≡ true }
    ensures reads { OnlyReadsDevice D.size D.story D.failed D.tells (ended result) device.old device.new }
    ensures stream { IfOk result (EntryHasStream D.tells (shown_image (now (D.story device.old))) (plain_entry entry.now) place) }
    ensures told { IfErr result (RefusesPlace D.tells (shown_image (now (D.story device.old))) (plain_entry entry.now) place) }
{
    let Some(segment) = entry.segments().get(place) else {
        return Err(Refusal::SegmentUnread(place));
    };
    let Ok(front) = encode_schema(alloc, entry.schema()) else {
        return Err(Refusal::OutOfMemory);
    };
    read_stream(alloc, device, &front, place, *segment)
}

fn info_of(segment: Segment) -> SegmentInfo
    ensures { result ≡ info_of segment }
{
    SegmentInfo {
        digest: segment.digest,
        bytes: segment.place.bytes,
        rows: segment.rows,
    }
}

fn infos_of(alloc: Global, segments: &[Segment]) -> Result<Vec<SegmentInfo>, Refusal>
    ensures infos { IfOk result (λ infos. infos.items ≡ map info_of segments.now) }
    ensures memory { IfErr result (λ e. e ≡ Refusal.OutOfMemory) }
{
    let Ok(mut infos) = Vec::with_capacity(alloc, segments.len()) else {
        return Err(Refusal::OutOfMemory);
    };
    for segment in segments {
        match infos.push(info_of(*segment)) {
            Ok(()) => {}
            Err(_) => return Err(Refusal::OutOfMemory),
        }
    }
    Ok(infos)
}

/// The streams of the segments of a table, one after another, have its rows: those that an image holds.
pub fn streams_have_their_rows()
    ensures { (image : Image) (s : PlainSchema) (segments : List segments.Segment) (streams : List (List ℕ)) (rows : List (List Cell))
        → HaveStreams image s segments streams rows → rows_held s segments image ≡ Some rows }
{}

impl<D: SectorDevice> Store<D> {
    ghost use Rattle.std.specs.Prelude.{MatchResult};
    ghost use Rattle.catalogue.specs.Edits.{entry_of};
    ghost use Rattle.store.specs.Fits.{device_of, listed_in, is_halted};
    ghost use Rattle.store.specs.Listing.{RefusesSchema};
    ghost use Rattle.store.specs.Reading.{OnlyReadsStore};
    ghost use Rattle.store.specs.SegmentStreams.{StreamsAt, RefusesStream};

    /// Returns the segments of the table with this name, in order, as the catalogue lists them. Makes no call of the device.
    ///
    /// # Errors
    /// `Halted` after a failure of the device; `NoTable` if no table has the name; `OutOfMemory`.
    pub fn segments(&self, alloc: Global, name: &str) -> Result<Vec<SegmentInfo>, Refusal>
        ensures { MatchResult result
            (λ infos. (is_halted self.now ≡ false)
            × (option_map (λ e. map info_of e.segments) (entry_of (listed_in self.now) name.now) ≡ Some infos.items))
            (λ e. RefusesSchema (is_halted self.now) (entry_of (listed_in self.now) name.now) e) }
    {
        if self.halted {
            return Err(Refusal::Halted);
        }
        match self.opened.catalogue.list.get(name) {
            Some(entry) => infos_of(alloc, entry.segments()),
            None => Err(Refusal::NoTable),
        }
    }

    /// Returns the bytes of the segment at this place of the table with this name, counted from 0. They are a whole stream of its rows: the streams of all
    /// segments, one after another, have the rows of the table. Only reads.
    ///
    /// # Errors
    /// `Halted` after a failure of the device; `NoTable` if no table has the name; `SegmentUnread` if the table has no such segment, or it can't be read, or
    /// is not a stream of the table's schema and of its number of rows, and `SegmentDamaged` if its bytes have another digest than the one in the catalogue; `Device`, after which
    /// the store is halted; `OutOfMemory`.
    pub fn segment_stream(
        &mut self,
        alloc: Global,
        name: &str,
        place: usize,
    ) -> Result<SegmentStream, Refusal>
        ensures found { IfOk result (StreamsAt (is_halted self.old) D.tells (shown_image (now (D.story (device_of self.old))))
            (entry_of (listed_in self.old) name.now) place) }
        ensures told { IfErr result (RefusesStream (is_halted self.old) D.tells (shown_image (now (D.story (device_of self.old))))
            (entry_of (listed_in self.old) name.now) place) }
        ensures reads { OnlyReadsStore D.size D.story D.failed D.tells (ended result) self.old self.new }
    {
        if self.halted {
            return Err(Refusal::Halted);
        }
        let opened = &self.opened;
        match opened.catalogue.list.get(name) {
            Some(entry) => {
                let stream = stream_in_entry(alloc, &mut self.device, entry, place);
                self.halted = halts(&stream);
                stream
            }
            None => Err(Refusal::NoTable),
        }
    }
}
