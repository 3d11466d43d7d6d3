// Writes the rows of a table that may have lost some segments.
ghost use Rattle.std.specs.Prelude.{◌≡◌, ◌++◌, true, IfOk, IfErr, OnOk, option_map};
ghost use Rattle.std.specs.List.{list_all};
ghost use Rattle.std.specs.Io.KnownBytes.{Appends};
ghost use Rattle.sector_dev.specs.Disk.{now, shown_image};
ghost use Rattle.arrow_schema.specs.Column.{PlainSchema};
ghost use Rattle.arrow_schema.specs.Limits.{IsWithinLimits};
ghost use Rattle.arrow_schema.specs.View.{schema_of};
ghost use Rattle.ipc_write.specs.Written.{schema_message, end_of_stream};
ghost use Rattle.catalogue.specs.Entries.{is_segment, is_entry, plain_entry, runs_in_segments};
ghost use Rattle.commit.specs.Standing.{is_size, is_on_device, all_on_device};
ghost use Rattle.store_runs.specs.Reading.{OnlyReadsDevice, ended};
ghost use Rattle.store.specs.Salvaging.{Salvages, BreaksOff, plain_left};
ghost use Rattle.store_changes.specs.ReadSegment.{FailsReading};
ghost use Rattle.store.specs.inner.Salvaging.{is_of_segment, FailsWriting, FindsMessages, SalvagesOne, SalvagesEach};

use crate::Store;
use crate::exports::read_piece;
use crate::reading::halts;
use arrow_schema::Schema;
use catalogue::{Segment, TableEntry};
use ipc_write::{encode_schema, write_end};
use sector_dev::SectorDevice;
use std::alloc::Global;
use std::io::Write;
use tables::Refusal;

/// A segment whose rows are left out.
#[derive(Clone, Copy)]
pub struct LeftOut {
    /// Its place among the segments of the table, counted from 0.
    pub place: u64,
    /// Its number of rows in the catalogue.
    pub rows: u64,
}

// Returns whether the refusal is about a single segment, so that the others may still be read.
fn is_of_segment(refusal: Refusal) -> bool
    ensures { result ≡ is_of_segment refusal }
{
    matches!(
        refusal,
        Refusal::SegmentUnread(_) | Refusal::SegmentDamaged(_)
    )
}

// Returns the messages of the rows of the segment at this place, or `None` if it does not hold them.
fn messages_of<D: SectorDevice>(
    alloc: Global,
    device: &mut D,
    front: &[u8],
    place: usize,
    segment: Segment,
) -> Result<Option<Vec<u8>>, Refusal>
    requires size { is_size (D.size device.old) ≡ true }
    requires placed { is_on_device (D.size device.old) segment.place.run ≡ true }
    requires sound { is_segment segment ≡ true }
    ensures reads { OnlyReadsDevice D.size D.story D.failed D.tells (ended result) device.old device.new }
    ensures found { IfOk result (λ messages. (s : PlainSchema) → IsWithinLimits s → front.now ≡ schema_message s
        → FindsMessages D.tells (shown_image (now (D.story device.old))) s segment (option_map (λ v. v.items) messages)) }
    ensures fails { IfErr result (λ e. (s : PlainSchema) → front.now ≡ schema_message s → FailsReading e) }
{
    match read_piece(alloc, device, front, place, segment) {
        Ok(messages) => Ok(messages),
        Err(refusal) => {
            if is_of_segment(refusal) {
                Ok(None)
            } else {
                Err(refusal)
            }
        }
    }
}

fn write_bytes<W: Write>(writer: &mut W, bytes: &[u8]) -> Result<(), Refusal>
    ensures written { OnOk result (Appends (W.contents writer.old) (W.contents writer.new) bytes.now) }
    ensures fails { IfErr result (λ e. e ≡ Refusal.Write) }
{
    writer.write_all(bytes).map_err(|_| Refusal::Write)
}

// Writes the rows of the segment at this place, or adds it to those that are left out. One segment is in memory at a time.
fn salvage_segment<D: SectorDevice, W: Write>(
    alloc: Global,
    device: &mut D,
    front: &[u8],
    place: usize,
    segment: Segment,
    writer: &mut W,
    left_out: &mut Vec<LeftOut>,
) -> Result<(), Refusal>
    requires size { is_size (D.size device.old) ≡ true }
    requires placed { is_on_device (D.size device.old) segment.place.run ≡ true }
    requires sound { is_segment segment ≡ true }
    ensures reads { OnlyReadsDevice D.size D.story D.failed D.tells (ended result) device.old device.new }
    ensures salvaged { OnOk result ((s : PlainSchema) → IsWithinLimits s → front.now ≡ schema_message s
        → SalvagesOne D.tells (shown_image (now (D.story device.old))) s place segment (W.contents writer.old) (W.contents writer.new)
        (plain_left left_out.old.items) (plain_left left_out.new.items)) }
    ensures fails { IfErr result (λ e. (s : PlainSchema) → front.now ≡ schema_message s → BreaksOff e) }
{
    match messages_of(alloc, device, front, place, segment) {
        Ok(Some(messages)) => write_bytes(writer, &messages),
        Ok(None) => match left_out.push(LeftOut {
            place: place as u64,
            rows: segment.rows,
        }) {
            Ok(()) => Ok(()),
            Err(_) => Err(Refusal::OutOfMemory),
        },
        Err(refusal) => Err(refusal),
    }
}

// Writes the rows of each segment, in order.
fn salvage_segments<D: SectorDevice, W: Write>(
    alloc: Global,
    device: &mut D,
    front: &[u8],
    segments: &[Segment],
    writer: &mut W,
) -> Result<Vec<LeftOut>, Refusal>
    requires size { is_size (D.size device.old) ≡ true }
    requires placed { all_on_device (D.size device.old) (runs_in_segments segments.now) ≡ true }
    requires sound { list_all is_segment segments.now ≡ true }
    ensures reads { OnlyReadsDevice D.size D.story D.failed D.tells (ended result) device.old device.new }
    ensures salvaged { IfOk result (λ left. (s : PlainSchema) → IsWithinLimits s → front.now ≡ schema_message s
        → SalvagesEach D.tells (shown_image (now (D.story device.old))) s segments.now (W.contents writer.old) (W.contents writer.new)
        (plain_left left.items)) }
    ensures fails { IfErr result (λ e. (s : PlainSchema) → front.now ≡ schema_message s → BreaksOff e) }
{
    let mut left_out = Vec::new(alloc);
    for (place, segment) in segments.iter().enumerate() {
        match salvage_segment(alloc, device, front, place, *segment, writer, &mut left_out) {
            Ok(()) => {}
            Err(refusal) => return Err(refusal),
        }
    }
    Ok(left_out)
}

// Writes the message of the schema, and returns it.
fn write_front<W: Write>(alloc: Global, schema: &Schema, writer: &mut W) -> Result<Vec<u8>, Refusal>
    requires { IsWithinLimits (schema_of schema.now) }
    ensures message { IfOk result (λ front. front.items ≡ schema_message (schema_of schema.now)) }
    ensures written { OnOk result (Appends (W.contents writer.old) (W.contents writer.new) (schema_message (schema_of schema.now))) }
    ensures fails { IfErr result FailsWriting }
{
    match encode_schema(alloc, schema) {
        Ok(front) => match write_bytes(writer, &front) {
            Ok(()) => Ok(front),
            Err(refusal) => Err(refusal),
        },
        Err(_) => Err(Refusal::OutOfMemory),
    }
}

// Writes the end of stream, and flushes.
fn write_last<W: Write>(alloc: Global, writer: &mut W) -> Result<(), Refusal>
    ensures written { OnOk result (Appends (W.contents writer.old) (W.contents writer.new) end_of_stream) }
    ensures fails { IfErr result FailsWriting }
{
    let mut last = Vec::new(alloc);
    match write_end(&mut last) {
        Ok(()) => {
            write_bytes(writer, &last)?;
            writer.flush().map_err(|_| Refusal::Write)
        }
        Err(_) => Err(Refusal::OutOfMemory),
    }
}

// Writes the stream of the table of this entry.
fn salvage_entry<D: SectorDevice, W: Write>(
    alloc: Global,
    device: &mut D,
    entry: &TableEntry,
    writer: &mut W,
) -> Result<Vec<LeftOut>, Refusal>
    requires size { is_size (D.size device.old) ≡ true }
    requires placed { all_on_device (D.size device.old) (runs_in_segments (plain_entry entry.now).segments) ≡ true }
    requires sound { is_entry (plain_entry entry.now) ≡ true }
    ensures reads { OnlyReadsDevice D.size D.story D.failed D.tells (ended result) device.old device.new }
    ensures salvaged { IfOk result (λ left. Salvages D.tells (shown_image (now (D.story device.old))) (plain_entry entry.now)
        (W.contents writer.old) (W.contents writer.new) (plain_left left.items)) }
    ensures fails { IfErr result BreaksOff }
{
    let own = entry.schema();
    match write_front(alloc, own, writer) {
        Ok(front) => match salvage_segments(alloc, device, &front, entry.segments(), writer) {
            Ok(left_out) => match write_last(alloc, writer) {
                Ok(()) => Ok(left_out),
                Err(refusal) => Err(refusal),
            },
            Err(refusal) => Err(refusal),
        },
        Err(refusal) => Err(refusal),
    }
}

impl<D: SectorDevice> Store<D> {
    ghost use Rattle.std.specs.Prelude.{None};
    ghost use Rattle.catalogue.specs.Edits.{entry_of};
    ghost use Rattle.store.specs.Fits.{device_of, listed_in, is_halted};
    ghost use Rattle.store.specs.Reading.{OnlyReadsStore};
    ghost use Rattle.store.specs.Salvaging.{SalvagesAt, RefusesSalvage};

    /// Writes a stream of all rows that can be read of a damaged table, flushes, and returns the segments that are left out. Only reads the store, and keeps
    /// one segment in memory at a time. If the table is not damaged, the stream means that table.
    ///
    /// # Errors
    /// `Halted` after a failure of the device; `NoTable` if no table has the name; `Device`, after which the store is halted; `OutOfMemory`; `Write` if the
    /// writer fails. After the last three a part of the stream may be written.
    pub fn salvage<W: Write>(
        &mut self,
        alloc: Global,
        name: &str,
        writer: &mut W,
    ) -> Result<Vec<LeftOut>, Refusal>
        // Written are the rows of each segment that holds its rows, as reads show them, and no others. Each refusal has one reason.
        ensures salvaged { IfOk result (λ left. SalvagesAt (is_halted self.old) D.tells (shown_image (now (D.story (device_of self.old))))
            (entry_of (listed_in self.old) name.now) (W.contents writer.old) (W.contents writer.new) (plain_left left.items)) }
        ensures told { IfErr result (RefusesSalvage (is_halted self.old) (entry_of (listed_in self.old) name.now)) }
        ensures halted { is_halted self.old ≡ true → writer.new ≡ writer.old }
        ensures no_table { entry_of (listed_in self.old) name.now ≡ None → writer.new ≡ writer.old }
        ensures reads { OnlyReadsStore D.size D.story D.failed D.tells (ended result) self.old self.new }
    {
        if self.halted {
            return Err(Refusal::Halted);
        }
        let opened = &self.opened;
        match opened.catalogue.list.get(name) {
            Some(entry) => {
                let left_out = salvage_entry(alloc, &mut self.device, entry, writer);
                self.halted = halts(&left_out);
                left_out
            }
            None => Err(Refusal::NoTable),
        }
    }
}
