// Exports that give the pieces of a table one after another, as the table was when the export was opened.
ghost use Rattle.std.specs.Prelude.{◌≡◌, true, false, Some, None, if◌then◌else◌, option_map, IfOk, IfErr};
ghost use Rattle.sector_dev.specs.Disk.{now, shown_image};
ghost use Rattle.arrow_schema.specs.Column.{PlainSchema};
ghost use Rattle.arrow_schema.specs.Limits.{IsWithinLimits};
ghost use Rattle.arrow_schema.specs.View.{schema_of};
ghost use Rattle.values.specs.TableView.{table_of};
ghost use Rattle.ipc_write.specs.Written.{schema_message, end_of_stream};
ghost use Rattle.ipc_canonical.specs.Canonical.{rows_messages};
ghost use Rattle.catalogue.specs.Entries.{is_segment, plain_entry};
ghost use Rattle.commit.specs.Standing.{is_size, is_on_device};
ghost use Rattle.export_book.specs.Plain.{plain_export};
ghost use Rattle.store.specs.Exported.{IsExportable};
ghost use Rattle.store_runs.specs.Reading.{HasRows, LacksRows, OnlyReadsDevice, ended};
ghost use Rattle.store.specs.Exporting.{PieceIs, RefusesNumber};

use crate::Store;
use crate::reading::halts;
use arrow_schema::Schema;
use catalogue::{Segment, TableEntry};
use export_book::OpenExport;
use ipc_canonical::joined_parts_mean_their_table;
use ipc_encode::encode_messages;
use ipc_write::{encode_schema, write_end};
use sector_dev::SectorDevice;
use std::alloc::Global;
use store_changes::{read_segment, table_laws};
use tables::{Limit, Refusal};
use values::Table;

// Returns the first piece: the message of the schema.
fn first_piece(alloc: Global, schema: &Schema) -> Result<Option<Vec<u8>>, Refusal>
    requires { IsWithinLimits (schema_of schema.now) }
    ensures message { IfOk result (λ piece. option_map (λ v. v.items) piece ≡ Some (schema_message (schema_of schema.now))) }
    ensures memory { IfErr result (λ e. e ≡ Refusal.OutOfMemory) }
{
    match encode_schema(alloc, schema) {
        Ok(piece) => Ok(Some(piece)),
        Err(_) => Err(Refusal::OutOfMemory),
    }
}

// Returns the piece after those of the segments: the end of stream, and then none.
fn last_piece(alloc: Global, ends: bool) -> Result<Option<Vec<u8>>, Refusal>
    ensures end { IfOk result (λ piece. option_map (λ v. v.items) piece ≡ (if ends then Some end_of_stream else None)) }
    ensures memory { IfErr result (λ e. (ends ≡ true) × (e ≡ Refusal.OutOfMemory)) }
{
    if !ends {
        return Ok(None);
    }
    let mut piece = Vec::new(alloc);
    match write_end(&mut piece) {
        Ok(()) => Ok(Some(piece)),
        Err(_) => Err(Refusal::OutOfMemory),
    }
}

// Returns the messages of a table's rows.
fn rows_piece(alloc: Global, table: &Table) -> Result<Option<Vec<u8>>, Refusal>
    ensures messages { IfOk result (λ piece. option_map (λ v. v.items) piece ≡ Some (rows_messages (table_of table.now).schema (table_of table.now).rows)) }
    ensures memory { IfErr result (λ e. e ≡ Refusal.OutOfMemory) }
{
    match encode_messages(alloc, table) {
        Ok(piece) => Ok(Some(piece)),
        Err(_) => Err(Refusal::OutOfMemory),
    }
}

// Returns the messages of the rows of the segment at this place, if it begins with `front`, the message of its schema.
pub(crate) fn read_piece<D: SectorDevice>(
    alloc: Global,
    device: &mut D,
    front: &[u8],
    place: usize,
    segment: Segment,
) -> Result<Option<Vec<u8>>, Refusal>
    requires size { is_size (D.size device.old) ≡ true }
    requires placed { is_on_device (D.size device.old) segment.place.run ≡ true }
    requires sound { is_segment segment ≡ true }
    ensures reads { OnlyReadsDevice D.size D.story D.failed D.tells (ended result) device.old device.new }
    ensures piece { IfOk result (λ piece. (s : PlainSchema) → IsWithinLimits s → front.now ≡ schema_message s
        → HasRows D.tells (shown_image (now (D.story device.old))) s segment (option_map (λ v. v.items) piece)) }
    ensures told { IfErr result (λ e. (s : PlainSchema) → front.now ≡ schema_message s
        → LacksRows D.tells (shown_image (now (D.story device.old))) s segment place e) }
{
    match read_segment(alloc, device, front, segment, place) {
        Ok(weighed) => rows_piece(alloc, &weighed.table),
        Err(refusal) => Err(refusal),
    }
}

// Returns the piece of the segment at this place.
fn segment_piece<D: SectorDevice>(
    alloc: Global,
    device: &mut D,
    schema: &Schema,
    place: usize,
    segment: Segment,
) -> Result<Option<Vec<u8>>, Refusal>
    requires size { is_size (D.size device.old) ≡ true }
    requires placed { is_on_device (D.size device.old) segment.place.run ≡ true }
    requires sound { is_segment segment ≡ true }
    requires limits { IsWithinLimits (schema_of schema.now) }
    ensures reads { OnlyReadsDevice D.size D.story D.failed D.tells (ended result) device.old device.new }
    ensures piece { IfOk result (λ piece. HasRows D.tells (shown_image (now (D.story device.old))) (schema_of schema.now) segment
        (option_map (λ v. v.items) piece)) }
    ensures told { IfErr result (LacksRows D.tells (shown_image (now (D.story device.old))) (schema_of schema.now) segment place) }
{
    match encode_schema(alloc, schema) {
        Ok(front) => read_piece(alloc, device, &front, place, segment),
        Err(_) => Err(Refusal::OutOfMemory),
    }
}

// Returns the next piece of an export. At most one segment is read.
fn next_piece<D: SectorDevice>(
    alloc: Global,
    device: &mut D,
    export: &OpenExport,
) -> Result<Option<Vec<u8>>, Refusal>
    requires size { is_size (D.size device.old) ≡ true }
    requires sound { IsExportable (D.size device.old) (plain_export export.now) }
    ensures reads { OnlyReadsDevice D.size D.story D.failed D.tells (ended result) device.old device.new }
    ensures piece { IfOk result (λ piece. PieceIs D.tells (shown_image (now (D.story device.old))) (plain_export export.now) export.now.given
        (option_map (λ v. v.items) piece)) }
    ensures told { IfErr result (RefusesNumber D.tells (shown_image (now (D.story device.old))) (plain_export export.now) export.now.given) }
{
    if export.given == 0 {
        return first_piece(alloc, export.entry.schema());
    }
    let place = (export.given - 1) as usize;
    match export.entry.segments().get(place) {
        Some(segment) => segment_piece(alloc, device, export.entry.schema(), place, *segment),
        None => last_piece(alloc, place == export.entry.segments().len()),
    }
}

impl<D: SectorDevice> Store<D> {
    ghost use Rattle.std.specs.Prelude.{OnOk, OnErr};
    ghost use Rattle.catalogue.specs.Edits.{entry_of};
    ghost use Rattle.export_book.specs.Book.{is_full, open_at};
    ghost use Rattle.tables.specs.Tables.{Tables};
    ghost use Rattle.store_runs.specs.Calls.{open_export_call, export_next_call, close_export_call, done, export_is, piece_is, refused};
    ghost use Rattle.store_runs.specs.Machine.{Machine};
    ghost use Rattle.store.specs.Fits.{StoreFits, device_of, listed_in, book_of, is_halted};
    ghost use Rattle.store.specs.Applying.{GoesOn};
    ghost use Rattle.store.specs.Exporting.{RefusesExport, OpensAt, GivesPiece, after_giving, RefusesPiece, ReadsForExport, RefusesClosing, ClosesAt};
    ghost use Rattle.store.specs.Reading.{OnlyReadsStore};

    // Returns a copy of the entry of the table with this name, if an export of it can be opened.
    fn entry_to_export(&self, name: &str) -> Result<TableEntry, Refusal>
        ensures entry { IfOk result (λ e. entry_of (listed_in self.now) name.now ≡ Some (plain_entry e)) }
        ensures room { OnOk result (is_full (book_of self.now) ≡ false) }
        ensures on { OnOk result (is_halted self.now ≡ false) }
        ensures told { IfErr result (RefusesExport (is_halted self.now) (entry_of (listed_in self.now) name.now) (book_of self.now)) }
    {
        if self.halted {
            return Err(Refusal::Halted);
        }
        match self.opened.catalogue.list.get(name) {
            Some(entry) => {
                let full = self.book.is_full();
                if full {
                    return Err(Refusal::TooMany(Limit::Exports));
                }
                match entry.copy() {
                    Ok(copy) => Ok(copy),
                    Err(_) => Err(Refusal::OutOfMemory),
                }
            }
            None => Err(Refusal::NoTable),
        }
    }

    // Opens an export of the table with this name, on any store.
    fn open_named(&mut self, alloc: Global, name: &str) -> Result<u64, Refusal>
        ensures opened { IfOk result (λ id. OpensAt (is_halted self.old) (entry_of (listed_in self.old) name.now) self.old id self.new) }
        ensures told { IfErr result (RefusesExport (is_halted self.old) (entry_of (listed_in self.old) name.now) (book_of self.old)) }
        ensures kept { IfErr result (λ e. OnlyReadsStore D.size D.story D.failed D.tells (refused e) self.old self.new) }
        ensures device { device_of self.new ≡ device_of self.old }
    {
        match self.entry_to_export(name) {
            Ok(entry) => match self.book.open(alloc, entry) {
                Ok(id) => {
                    let export = self.book.get(id).unwrap();
                    self.opened.map.pin_each(&export.runs);
                    Ok(id)
                }
                Err(_) => Err(Refusal::OutOfMemory),
            },
            Err(refusal) => Err(refusal),
        }
    }

    /// Opens an export of the table with this name, and returns its id. The export gives the table as it is now, whatever changes the table until the
    /// export is closed. Until then the sectors of the table are not written. Ids count from 0 since the store was opened, and none is used twice.
    ///
    /// ```
    /// let id = store.open_export(alloc, "readings")?;
    /// // A failed write must not leave the export open, so its error waits.
    /// let sent = send_pieces(alloc, &mut store, id, &mut file);
    /// store.close_export(id)?;
    /// sent?;
    /// ```
    ///
    /// Here `send_pieces` calls `export_next` in a loop `for _ in 0..65_539` until there is no piece: a table has at most 65,536 segments.
    ///
    /// # Errors
    /// `Halted` after a failure of the device; `NoTable` if no table has the name; `TooMany(Exports)` if 64 exports are open, or the last id is used;
    /// `OutOfMemory`. After any error nothing has changed.
    pub fn open_export(&mut self, alloc: Global, name: &str) -> Result<u64, Refusal>
        // On a store that represents a machine, its pieces are a stream of the table of the settled commands, and none was given yet.
        ensures goes { IfOk result (λ id. D.tells ≡ true → (base : Tables) (m : Machine) → StoreFits D.size D.story base m self.old
            → GoesOn D.size D.story D.failed base m (open_export_call name.now) (export_is id) self.old self.new) }
        ensures refused { IfErr result (λ e. D.tells ≡ true → (base : Tables) (m : Machine) → StoreFits D.size D.story base m self.old
            → GoesOn D.size D.story D.failed base m (open_export_call name.now) (refused e) self.old self.new) }
        // On any store, the entry of the catalogue goes into the book, and its runs are pinned. Each refusal has one reason.
        ensures opened { IfOk result (λ id. OpensAt (is_halted self.old) (entry_of (listed_in self.old) name.now) self.old id self.new) }
        ensures told { IfErr result (RefusesExport (is_halted self.old) (entry_of (listed_in self.old) name.now) (book_of self.old)) }
        ensures kept { IfErr result (λ e. OnlyReadsStore D.size D.story D.failed D.tells (refused e) self.old self.new) }
        ensures device { device_of self.new ≡ device_of self.old }
    {
        table_laws();
        joined_parts_mean_their_table();
        match self.open_named(alloc, name) {
            Ok(id) => Ok(id),
            Err(refusal) => Err(refusal),
        }
    }

    // Gives the next piece of an export, on any store.
    fn give_piece(&mut self, alloc: Global, id: u64) -> Result<Option<Vec<u8>>, Refusal>
        ensures given { IfOk result (λ piece. GivesPiece (is_halted self.old) D.tells (shown_image (now (D.story (device_of self.old))))
            (open_at (book_of self.old) id) (option_map (λ v. v.items) piece)) }
        ensures counted { IfOk result (λ piece. book_of self.new ≡ after_giving (option_map (λ v. v.items) piece) id (book_of self.old)) }
        ensures told { IfErr result (RefusesPiece (is_halted self.old) D.tells (shown_image (now (D.story (device_of self.old))))
            (open_at (book_of self.old) id)) }
        ensures kept { OnErr result (book_of self.new ≡ book_of self.old) }
        ensures reads { ReadsForExport D.size D.story D.failed D.tells (ended result) self.old self.new }
    {
        if self.halted {
            return Err(Refusal::Halted);
        }
        match self.book.get(id) {
            Some(export) => {
                let piece = next_piece(alloc, &mut self.device, export);
                self.halted = halts(&piece);
                if let Ok(given) = &piece {
                    if given.is_some() {
                        self.book.give(id);
                    }
                }
                piece
            }
            None => Err(Refusal::NoExport),
        }
    }

    /// Returns the next piece of an export: the message of the schema, the messages of the rows of each segment, the end of stream, and `None` from then on.
    /// Joined, the pieces are a stream of the table. One segment at a time is read and kept in memory.
    ///
    /// # Errors
    /// `Halted` after a failure of the device; `NoExport` if no export has the id; `OutOfMemory`. For the piece of a segment, `Device`, after which the
    /// store is halted; `SegmentUnread` with its place, counted from 0, if it can't be read or is not a stream of the schema and the number of rows;
    /// `SegmentDamaged` with its place if its bytes have another digest than the one in the catalogue when the export was opened. After any error the same
    /// piece is still the next one.
    pub fn export_next(&mut self, alloc: Global, id: u64) -> Result<Option<Vec<u8>>, Refusal>
        // On a store that represents a machine, it is the piece after those that were given.
        ensures goes { IfOk result (λ piece. D.tells ≡ true → (base : Tables) (m : Machine) → StoreFits D.size D.story base m self.old
            → GoesOn D.size D.story D.failed base m (export_next_call id) (piece_is (option_map (λ v. v.items) piece)) self.old self.new) }
        ensures refused { IfErr result (λ e. D.tells ≡ true → (base : Tables) (m : Machine) → StoreFits D.size D.story base m self.old
            → GoesOn D.size D.story D.failed base m (export_next_call id) (refused e) self.old self.new) }
        // On any store, it is the piece with this number of what the book keeps, as reads show it. Each refusal has one reason.
        ensures given { IfOk result (λ piece. GivesPiece (is_halted self.old) D.tells (shown_image (now (D.story (device_of self.old))))
            (open_at (book_of self.old) id) (option_map (λ v. v.items) piece)) }
        ensures counted { IfOk result (λ piece. book_of self.new ≡ after_giving (option_map (λ v. v.items) piece) id (book_of self.old)) }
        ensures told { IfErr result (RefusesPiece (is_halted self.old) D.tells (shown_image (now (D.story (device_of self.old))))
            (open_at (book_of self.old) id)) }
        ensures kept { OnErr result (book_of self.new ≡ book_of self.old) }
        ensures reads { ReadsForExport D.size D.story D.failed D.tells (ended result) self.old self.new }
    {
        match self.give_piece(alloc, id) {
            Ok(piece) => Ok(piece),
            Err(refusal) => Err(refusal),
        }
    }

    // Closes an export, on any store.
    fn close_by_id(&mut self, id: u64) -> Result<(), Refusal>
        ensures closed { OnOk result (ClosesAt (is_halted self.old) (open_at (book_of self.old) id) self.old id self.new) }
        ensures told { IfErr result (RefusesClosing (is_halted self.old) (open_at (book_of self.old) id)) }
        ensures kept { IfErr result (λ e. OnlyReadsStore D.size D.story D.failed D.tells (refused e) self.old self.new) }
        ensures device { device_of self.new ≡ device_of self.old }
    {
        if self.halted {
            return Err(Refusal::Halted);
        }
        match self.book.close(id) {
            Some(export) => {
                self.opened.map.unpin_each(&export.runs);
                Ok(())
            }
            None => Err(Refusal::NoExport),
        }
    }

    /// Closes an export. The sectors that only it kept become free. Allocates nothing, and makes no call of the device.
    ///
    /// # Errors
    /// `Halted` after a failure of the device; `NoExport` if no export has the id. After any error nothing has changed.
    pub fn close_export(&mut self, id: u64) -> Result<(), Refusal>
        // On a store that represents a machine.
        ensures goes { OnOk result (D.tells ≡ true → (base : Tables) (m : Machine) → StoreFits D.size D.story base m self.old
            → GoesOn D.size D.story D.failed base m (close_export_call id) done self.old self.new) }
        ensures refused { IfErr result (λ e. D.tells ≡ true → (base : Tables) (m : Machine) → StoreFits D.size D.story base m self.old
            → GoesOn D.size D.story D.failed base m (close_export_call id) (refused e) self.old self.new) }
        // On any store, the book loses the export, and each of its runs loses one pin. Each refusal has one reason.
        ensures closed { OnOk result (ClosesAt (is_halted self.old) (open_at (book_of self.old) id) self.old id self.new) }
        ensures told { IfErr result (RefusesClosing (is_halted self.old) (open_at (book_of self.old) id)) }
        ensures kept { IfErr result (λ e. OnlyReadsStore D.size D.story D.failed D.tells (refused e) self.old self.new) }
        ensures device { device_of self.new ≡ device_of self.old }
    {
        match self.close_by_id(id) {
            Ok(()) => Ok(()),
            Err(refusal) => Err(refusal),
        }
    }
}
