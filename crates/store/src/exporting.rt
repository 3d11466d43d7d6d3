// Exports a table, as the bytes of its canonical stream or to a writer.
ghost use Rattle.std.specs.Prelude.{◌≡◌, ◌≢◌, ℕ, List, true, IfOk, IfErr, OnOk};
ghost use Rattle.std.specs.Io.KnownBytes.{Appends};
ghost use Rattle.sector_dev.specs.Disk.{now, shown_image};
ghost use Rattle.cells.specs.Cell.{PlainTable};
ghost use Rattle.catalogue.specs.Edits.{entry_of};
ghost use Rattle.ipc_canonical.specs.Canonical.{canonical};
ghost use Rattle.tables.specs.Tables.{Tables};
ghost use Rattle.store_runs.specs.Calls.{export_call, bytes_are, refused};
ghost use Rattle.store_runs.specs.Machine.{Machine};
ghost use Rattle.store.specs.Fits.{StoreFits, device_of, listed_in, is_halted};
ghost use Rattle.store.specs.Applying.{GoesOn};
ghost use Rattle.store_runs.specs.Reading.{RefusesRead, ReadsTable, ended};
ghost use Rattle.store.specs.Reading.{OnlyReadsStore};
ghost use Rattle.values.specs.TableView.{table_of};

use crate::Store;
use ipc_canonical::canonical_means_its_table;
use ipc_encode::{WriteError, encode, encode_to};
use sector_dev::SectorDevice;
use std::alloc::Global;
use std::io::Write;
use store_changes::table_laws;
use tables::Refusal;
use values::Table;

impl<D: SectorDevice> Store<D> {
    // Reads the table with this name for an export.
    fn read_to_export(&mut self, alloc: Global, name: &str) -> Result<Table, Refusal>
        ensures goes { IfOk result (λ table. D.tells ≡ true → (base : Tables) (m : Machine) → StoreFits D.size D.story base m self.old
            → GoesOn D.size D.story D.failed base m (export_call name.now) (bytes_are (canonical (table_of table))) self.old self.new) }
        // Memory may be refused for its stream.
        ensures without_memory { IfOk result (λ table. D.tells ≡ true → (base : Tables) (m : Machine) → StoreFits D.size D.story base m self.old
            → GoesOn D.size D.story D.failed base m (export_call name.now) (refused Refusal.OutOfMemory) self.old self.new) }
        ensures refused { IfErr result (λ e. D.tells ≡ true → (base : Tables) (m : Machine) → StoreFits D.size D.story base m self.old
            → GoesOn D.size D.story D.failed base m (export_call name.now) (refused e) self.old self.new) }
        ensures found { IfOk result (λ table. ReadsTable (is_halted self.old) D.tells (shown_image (now (D.story (device_of self.old))))
            (entry_of (listed_in self.old) name.now) (table_of table)) }
        ensures told { IfErr result (RefusesRead (is_halted self.old) D.tells (shown_image (now (D.story (device_of self.old))))
            (entry_of (listed_in self.old) name.now)) }
        ensures reads { OnlyReadsStore D.size D.story D.failed D.tells (ended result) self.old self.new }
    {
        table_laws();
        canonical_means_its_table();
        match self.read_named(alloc, name) {
            Ok(table) => Ok(table),
            Err(refusal) => Err(refusal),
        }
    }

    /// Returns the canonical stream of the table with this name. Only reads. The whole stream is in memory.
    ///
    /// # Errors
    /// Those of [`Store::read`]; `OutOfMemory` also if memory is refused for the stream.
    pub fn export_bytes(&mut self, alloc: Global, name: &str) -> Result<Vec<u8>, Refusal>
        // On a store that represents a machine, it is a stream of the table of the settled commands.
        ensures goes { IfOk result (λ bytes. D.tells ≡ true → (base : Tables) (m : Machine) → StoreFits D.size D.story base m self.old
            → GoesOn D.size D.story D.failed base m (export_call name.now) (bytes_are bytes.items) self.old self.new) }
        ensures refused { IfErr result (λ e. D.tells ≡ true → (base : Tables) (m : Machine) → StoreFits D.size D.story base m self.old
            → GoesOn D.size D.story D.failed base m (export_call name.now) (refused e) self.old self.new) }
        // On any store, it is the stream of what reads show of the entry in the catalogue.
        ensures found { IfOk result (λ bytes. (t : PlainTable) × ReadsTable (is_halted self.old) D.tells (shown_image (now (D.story (device_of self.old))))
            (entry_of (listed_in self.old) name.now) t × (bytes.items ≡ canonical t)) }
        ensures told { IfErr result (RefusesRead (is_halted self.old) D.tells (shown_image (now (D.story (device_of self.old))))
            (entry_of (listed_in self.old) name.now)) }
        ensures reads { OnlyReadsStore D.size D.story D.failed D.tells (ended result) self.old self.new }
    {
        match self.read_to_export(alloc, name) {
            Ok(table) => match encode(alloc, &table) {
                Ok(bytes) => Ok(bytes),
                Err(_) => Err(Refusal::OutOfMemory),
            },
            Err(refusal) => Err(refusal),
        }
    }

    /// Writes the canonical stream of the table with this name, and flushes. All parts are made before the first byte is written, except those that are
    /// borrowed from the table's bytes.
    ///
    /// ```
    /// store.export(alloc, "readings", &mut file)?;
    /// ```
    ///
    /// # Errors
    /// Those of [`Store::export_bytes`], and then nothing is written; `Write` if the writer fails, as a `Vec` does if memory is refused, and then a part of
    /// the stream may be written.
    pub fn export<W: Write>(
        &mut self,
        alloc: Global,
        name: &str,
        writer: &mut W,
    ) -> Result<(), Refusal>
        // On a store that represents a machine, it is a stream of the table of the settled commands.
        ensures goes { OnOk result (D.tells ≡ true → (base : Tables) (m : Machine) → StoreFits D.size D.story base m self.old → (bytes : List ℕ)
            × Appends (W.contents writer.old) (W.contents writer.new) bytes
            × GoesOn D.size D.story D.failed base m (export_call name.now) (bytes_are bytes) self.old self.new) }
        ensures refused { IfErr result (λ e. e ≢ Refusal.Write → D.tells ≡ true → (base : Tables) (m : Machine)
            → StoreFits D.size D.story base m self.old
            → GoesOn D.size D.story D.failed base m (export_call name.now) (refused e) self.old self.new) }
        // A failure of the writer is not one of the store, which has made the stream nevertheless.
        ensures unwritten { IfErr result (λ e. e ≡ Refusal.Write → D.tells ≡ true → (base : Tables) (m : Machine)
            → StoreFits D.size D.story base m self.old
            → (bytes : List ℕ) × GoesOn D.size D.story D.failed base m (export_call name.now) (bytes_are bytes) self.old self.new) }
        // On any store, it is the stream of what reads show of the entry in the catalogue.
        ensures written { OnOk result ((t : PlainTable) × ReadsTable (is_halted self.old) D.tells (shown_image (now (D.story (device_of self.old))))
            (entry_of (listed_in self.old) name.now) t × Appends (W.contents writer.old) (W.contents writer.new) (canonical t)) }
        ensures told { IfErr result (λ e. e ≢ Refusal.Write → RefusesRead (is_halted self.old) D.tells
            (shown_image (now (D.story (device_of self.old)))) (entry_of (listed_in self.old) name.now) e) }
        // The writer fails only if there is something to write.
        ensures failed { IfErr result (λ e. e ≡ Refusal.Write → (t : PlainTable) × ReadsTable (is_halted self.old) D.tells
            (shown_image (now (D.story (device_of self.old)))) (entry_of (listed_in self.old) name.now) t) }
        ensures silent { IfErr result (λ e. e ≢ Refusal.Write → writer.new ≡ writer.old) }
        ensures reads { OnlyReadsStore D.size D.story D.failed D.tells (ended result) self.old self.new }
    {
        match self.read_to_export(alloc, name) {
            Ok(table) => match encode_to(alloc, &table, writer) {
                Ok(()) => Ok(()),
                Err(WriteError::Io) => Err(Refusal::Write),
                Err(WriteError::OutOfMemory) => Err(Refusal::OutOfMemory),
            },
            Err(refusal) => Err(refusal),
        }
    }
}
