// The digests of all segments, and archives of all tables without the segments that a receiver has.
ghost use Rattle.std.specs.Prelude.{◌≡◌, ◌++◌, ℕ, List, map, flat_map, string_bytes, IfOk, IfErr, OnOk};
ghost use Rattle.std.specs.Io.KnownBytes.{Appends};
ghost use Rattle.arrow_schema.specs.Limits.{IsWithinLimits};
ghost use Rattle.arrow_schema.specs.View.{schema_of};
ghost use Rattle.sha2.specs.Sha256.{sha256};
ghost use Rattle.table_archive.specs.Archive.{lacked_by, archive_of, manifest_member, segment_member, archive_end};
ghost use Rattle.table_archive.specs.Manifest.{plain_listed, manifest, AreWithin};
ghost use Rattle.table_archive.specs.declared.manifest.ArchiveVersion.TheVariants.{Two};
ghost use Rattle.store.specs.Sending.{Located, located_in, digests_of};
ghost use Rattle.store.specs.inner.Sending.{plain_item, FailsMaking, FailsSending};

use crate::Store;
use crate::reading::halts;
use crate::segment_streams::SegmentInfo;
use crate::sending_ahead::{picked_segments, send_picked};
use arrow_schema::Schema;
use sector_dev::SectorDevice;
use std::alloc::Global;
use std::io::Write;
use table_archive::{
    ArchiveError, ArchiveFrame, ArchiveVersion, ListedSegment, ListedTable, WantedDigests,
    archive_frame, push_padding, segment_header, typed_fields,
};
use tables::{Limit, Refusal};

// A segment that may be sent: the name of its table, its place, and its digest as it is listed.
#[derive(Clone, Copy)]
pub(crate) struct Item<'a> {
    pub(crate) name: &'a str,
    pub(crate) place: usize,
    pub(crate) digest: [u8; 32],
}

// Appends the segments of a table.
fn push_items<'a>(items: &mut Vec<Item<'a>>, table: &'a ListedTable) -> Result<(), Refusal>
    ensures items { OnOk result (map plain_item items.new.items ≡ map plain_item items.old.items ++ located_in (plain_listed table.now)) }
    ensures memory { IfErr result (λ e. e ≡ Refusal.OutOfMemory) }
{
    let name = table.name.as_str();
    for place in 0..table.segments.len() {
        items.push(Item {
            name,
            place,
            digest: table.segments[place].digest,
        })?;
    }
    Ok(())
}

fn items_of(alloc: Global, tables: &[ListedTable]) -> Result<Vec<Item<'_>>, Refusal>
    ensures items { IfOk result (λ items. map plain_item items.items ≡ flat_map located_in (map plain_listed tables.now)) }
    ensures memory { IfErr result (λ e. e ≡ Refusal.OutOfMemory) }
{
    let mut items = Vec::new(alloc);
    for table in tables {
        push_items(&mut items, table)?;
    }
    Ok(items)
}

// Returns those of the segments that the receiver lacks.
fn lacked_items<'a>(
    alloc: Global,
    had: &[[u8; 32]],
    items: &[Item<'a>],
) -> Result<Vec<Item<'a>>, Refusal>
    ensures lacked { IfOk result (λ lacked. map plain_item lacked.items ≡ lacked_by (λ (x : Located). x.digest) had.now (map plain_item items.now)) }
    ensures memory { IfErr result (λ e. e ≡ Refusal.OutOfMemory) }
{
    let mut wanted = WantedDigests::beside(alloc, had)?;
    let mut lacked = Vec::new(alloc);
    for item in items {
        if wanted.take(item.digest)? {
            lacked.push(*item)?;
        }
    }
    Ok(lacked)
}

// Returns the digests of the segments of tables, each once.
fn digests_of(alloc: Global, tables: &[ListedTable]) -> Result<Vec<[u8; 32]>, Refusal>
    ensures digests { IfOk result (λ digests. digests.items ≡ digests_of (map plain_listed tables.now)) }
    ensures memory { IfErr result (λ e. e ≡ Refusal.OutOfMemory) }
{
    let items = lacked_items(alloc, &[], &items_of(alloc, tables)?)?;
    let mut digests = Vec::with_capacity(alloc, items.len())?;
    for item in &items {
        digests.push(item.digest)?;
    }
    Ok(digests)
}

// A member that no header can state exceeds a limit of bytes.
fn refusal_of(error: ArchiveError) -> Refusal
    ensures { FailsMaking result }
{
    match error {
        ArchiveError::TooLong => Refusal::TooMany(Limit::Bytes),
        ArchiveError::OutOfMemory => Refusal::OutOfMemory,
    }
}

// Returns what stands before and behind the members of segments in an archive of these tables.
fn frame_of(alloc: Global, epoch: u64, tables: &[ListedTable]) -> Result<ArchiveFrame, Refusal>
    requires { AreWithin tables.now }
    ensures front { IfOk result (λ frame. frame.front.items ≡ manifest_member Two epoch (map plain_listed tables.now)) }
    ensures end { IfOk result (λ frame. frame.end.items ≡ archive_end Two (manifest Two epoch (map plain_listed tables.now))) }
    ensures fails { IfErr result FailsMaking }
{
    match archive_frame(alloc, ArchiveVersion::Two, epoch, tables) {
        Ok(frame) => Ok(frame),
        Err(error) => Err(refusal_of(error)),
    }
}

fn write_bytes<W: Write>(writer: &mut W, bytes: &[u8]) -> Result<(), Refusal>
    ensures written { OnOk result (Appends (W.contents writer.old) (W.contents writer.new) bytes.now) }
    ensures fails { IfErr result (λ e. e ≡ Refusal.Write) }
{
    writer.write_all(bytes).map_err(|_| Refusal::Write)
}

/// Writes the member of a stream.
pub(crate) fn write_member<W: Write>(
    alloc: Global,
    digest: &[u8; 32],
    mut bytes: Vec<u8>,
    writer: &mut W,
) -> Result<(), Refusal>
    requires { digest.now ≡ sha256 bytes.items }
    ensures written { OnOk result (Appends (W.contents writer.old) (W.contents writer.new) (segment_member bytes.items)) }
    ensures fails { IfErr result FailsSending }
{
    let size = bytes.len() as u64;
    let header = match segment_header(alloc, digest, size) {
        Ok(header) => header,
        Err(error) => return Err(refusal_of(error)),
    };
    push_padding(&mut bytes, size)?;
    write_bytes(writer, &header)?;
    write_bytes(writer, &bytes)
}

// Writes what ends an archive, and flushes.
fn write_last<W: Write>(writer: &mut W, end: &[u8]) -> Result<(), Refusal>
    ensures written { OnOk result (Appends (W.contents writer.old) (W.contents writer.new) end.now) }
    ensures fails { IfErr result FailsSending }
{
    write_bytes(writer, end)?;
    writer.flush().map_err(|_| Refusal::Write)
}

impl<D: SectorDevice> Store<D> {
    ghost use Rattle.std.specs.Prelude.{◌≢◌, false, Some, slice_get};
    ghost use Rattle.sector_dev.specs.Disk.{now, shown_image};
    ghost use Rattle.catalogue.specs.declared.entry.Segment.{Segment};
    ghost use Rattle.catalogue.specs.Edits.{entry_of};
    ghost use Rattle.catalogue.specs.Entries.{PlainEntry};
    ghost use Rattle.store_runs.specs.Reading.{ended};
    ghost use Rattle.store.specs.Fits.{commit_of, device_of, listed_in, is_halted};
    ghost use Rattle.store.specs.Reading.{OnlyReadsStore};
    ghost use Rattle.store.specs.SegmentStreams.{info_of};
    ghost use Rattle.store.specs.Sending.{ListsSegment, ListsSegments, ListsTable, ListsTables, AreSent, SendsAt, HasDigestsAt, SaysHalted};

    // Returns the segment at this place of a table as it is listed. One without a digest is read.
    fn list_segment(
        &mut self,
        alloc: Global,
        name: &str,
        place: usize,
        info: SegmentInfo,
    ) -> Result<ListedSegment, Refusal>
        requires on { is_halted self.old ≡ false }
        ensures listed { IfOk result (λ l. (e : PlainEntry) (g : Segment) → entry_of (listed_in self.old) name.now ≡ Some e
            → slice_get e.segments place ≡ Some g → info ≡ info_of g → ListsSegment D.tells (shown_image (now (D.story (device_of self.old)))) e.schema g l) }
        ensures awake { IfErr result (λ e. e ≢ Refusal.Halted) }
        ensures reads { OnlyReadsStore D.size D.story D.failed D.tells (ended result) self.old self.new }
    {
        let digest = match info.digest {
            Some(digest) => digest,
            None => self.segment_stream(alloc, name, place)?.digest,
        };
        Ok(ListedSegment {
            digest,
            bytes: info.bytes,
            rows: info.rows,
        })
    }

    fn list_segments(&mut self, alloc: Global, name: &str) -> Result<Vec<ListedSegment>, Refusal>
        requires on { is_halted self.old ≡ false }
        ensures listed { IfOk result (λ ls. (e : PlainEntry) × (entry_of (listed_in self.old) name.now ≡ Some e)
            × ListsSegments D.tells (shown_image (now (D.story (device_of self.old)))) e.schema e.segments ls.items) }
        ensures awake { IfErr result (λ e. e ≢ Refusal.Halted) }
        ensures reads { OnlyReadsStore D.size D.story D.failed D.tells (ended result) self.old self.new }
    {
        let infos = self.segments(alloc, name)?;
        let mut listed = Vec::new(alloc);
        for place in 0..infos.len() {
            match self.list_segment(alloc, name, place, infos[place]) {
                Ok(segment) => listed.push(segment)?,
                Err(refusal) => return Err(refusal),
            }
        }
        Ok(listed)
    }

    fn list_table(&mut self, alloc: Global, name: &str) -> Result<ListedTable, Refusal>
        requires on { is_halted self.old ≡ false }
        ensures listed { IfOk result (λ t. ListsTable D.tells (shown_image (now (D.story (device_of self.old)))) (listed_in self.old) name.now
            (plain_listed t)) }
        ensures within { IfOk result (λ t. IsWithinLimits (schema_of t.schema)) }
        ensures awake { IfErr result (λ e. e ≢ Refusal.Halted) }
        ensures reads { OnlyReadsStore D.size D.story D.failed D.tells (ended result) self.old self.new }
    {
        let schema = self.schema(alloc, name)?;
        let fields = typed_fields(alloc, &schema)?;
        let owned = String::from_str(alloc, name)?;
        let segments = self.list_segments(alloc, name)?;
        Ok(ListedTable {
            name: owned,
            schema,
            fields,
            segments,
        })
    }

    fn list_tables(
        &mut self,
        alloc: Global,
        names: &[(String, u64)],
    ) -> Result<Vec<ListedTable>, Refusal>
        requires on { is_halted self.old ≡ false }
        ensures listed { IfOk result (λ ts. ListsTables D.tells (shown_image (now (D.story (device_of self.old)))) (listed_in self.old)
            (map (λ t. (string_bytes t.0, t.1)) names.now) (map plain_listed ts.items)) }
        ensures within { IfOk result (λ ts. AreWithin ts.items) }
        ensures awake { IfErr result (λ e. e ≢ Refusal.Halted) }
        ensures reads { OnlyReadsStore D.size D.story D.failed D.tells (ended result) self.old self.new }
    {
        let mut tables = Vec::new(alloc);
        for name in names {
            match self.list_table(alloc, name.0.as_str()) {
                Ok(table) => tables.push(table)?,
                Err(refusal) => return Err(refusal),
            }
        }
        Ok(tables)
    }

    // Writes the members of these segments, which are read ahead.
    fn send_items<W: Write>(
        &mut self,
        alloc: Global,
        items: &[Item<'_>],
        writer: &mut W,
    ) -> Result<(), Refusal>
        requires on { is_halted self.old ≡ false }
        ensures sent { OnOk result ((streams : List (List ℕ)) × AreSent D.tells (shown_image (now (D.story (device_of self.old)))) (listed_in self.old)
            (map plain_item items.now) streams × Appends (W.contents writer.old) (W.contents writer.new) (flat_map segment_member streams)) }
        ensures awake { IfErr result (λ e. e ≢ Refusal.Halted) }
        ensures reads { OnlyReadsStore D.size D.story D.failed D.tells (ended result) self.old self.new }
    {
        let list = &self.opened.catalogue.list;
        let segments = match picked_segments(alloc, list, items) {
            Ok(segments) => segments,
            Err(refusal) => return Err(refusal),
        };
        let sent = send_picked(alloc, &mut self.device, list, items, &segments, writer);
        self.halted = halts(&sent);
        sent
    }

    // Writes the archive of these tables.
    fn send_tables<W: Write>(
        &mut self,
        alloc: Global,
        tables: &[ListedTable],
        had: &[[u8; 32]],
        writer: &mut W,
    ) -> Result<(), Refusal>
        requires on { is_halted self.old ≡ false }
        requires within { AreWithin tables.now }
        ensures sent { OnOk result ((streams : List (List ℕ)) × AreSent D.tells (shown_image (now (D.story (device_of self.old)))) (listed_in self.old)
            (lacked_by (λ (x : Located). x.digest) had.now (flat_map located_in (map plain_listed tables.now))) streams
            × Appends (W.contents writer.old) (W.contents writer.new) (archive_of Two (commit_of self.old).epoch (map plain_listed tables.now) streams)) }
        ensures awake { IfErr result (λ e. e ≢ Refusal.Halted) }
        ensures reads { OnlyReadsStore D.size D.story D.failed D.tells (ended result) self.old self.new }
    {
        let items = lacked_items(alloc, had, &items_of(alloc, tables)?)?;
        let frame = frame_of(alloc, self.opened.commit.epoch, tables)?;
        write_bytes(writer, &frame.front)?;
        self.send_items(alloc, &items, writer)?;
        write_last(writer, &frame.end)
    }

    /// Returns the digest of each segment of all tables, in the order of the tables and of their rows, each once: the SHA-256 of its stream (FIPS 180-4).
    /// Only reads the store: each segment without a digest.
    ///
    /// # Errors
    /// `Halted` after a failure of the device, and only then; those of [`Store::segment_stream`] for a segment without a digest; `OutOfMemory`.
    pub fn digests(&mut self, alloc: Global) -> Result<Vec<[u8; 32]>, Refusal>
        // The tables are those of the catalogue, with the digests of their entries, or of the streams that were read.
        ensures has { IfOk result (λ digests. HasDigestsAt (is_halted self.old) D.tells (shown_image (now (D.story (device_of self.old))))
            (listed_in self.old) digests.items) }
        ensures told { IfErr result (SaysHalted (is_halted self.old)) }
        ensures reads { OnlyReadsStore D.size D.story D.failed D.tells (ended result) self.old self.new }
    {
        let names = self.tables(alloc)?;
        let tables = self.list_tables(alloc, &names)?;
        digests_of(alloc, &tables)
    }

    /// Writes an archive, of version 2, of all tables of the ruling commit, without the segments with the digests that its receiver has, and flushes: a POSIX
    /// tape archive (docs/definitions/archive.md). Only reads the store. At most four segments and 4 MB of them, or one longer segment, are read
    /// ahead. A store without digests is read twice.
    ///
    /// # Errors
    /// `Halted` after a failure of the device, and only then; those of [`Store::segment_stream`]; `TooMany(Bytes)` if the manifest or a stream has 8 GiB or
    /// more; `Write` if the writer fails; `OutOfMemory`. Part of the archive may then be written; it has no end.
    pub fn send<W: Write>(
        &mut self,
        alloc: Global,
        had: &[[u8; 32]],
        writer: &mut W,
    ) -> Result<(), Refusal>
        // The tables are those of the catalogue, and each stream that is sent was read of its segment.
        ensures sent { OnOk result (SendsAt (is_halted self.old) D.tells (shown_image (now (D.story (device_of self.old)))) (listed_in self.old)
            (commit_of self.old).epoch had.now (W.contents writer.old) (W.contents writer.new)) }
        ensures told { IfErr result (SaysHalted (is_halted self.old)) }
        ensures reads { OnlyReadsStore D.size D.story D.failed D.tells (ended result) self.old self.new }
    {
        let names = self.tables(alloc)?;
        let tables = self.list_tables(alloc, &names)?;
        self.send_tables(alloc, &tables, had, writer)
    }
}
