// Reads a table of an open store, whole or segment by segment.
ghost use Rattle.std.specs.Prelude.{◌≡◌, true, Some, None, IfOk, IfErr};
ghost use Rattle.sector_dev.specs.Disk.{now, shown_image};
ghost use Rattle.cells.specs.Cell.{PlainTable};
ghost use Rattle.cells.specs.Weight.{table_weight};
ghost use Rattle.values.specs.TableView.{table_of};
ghost use Rattle.store_runs.specs.Reading.{ended};
ghost use Rattle.values.specs.Table.{IsTable};
ghost use Rattle.store_runs.specs.Calls.{is_device_reply};

use crate::Store;
use sector_dev::SectorDevice;
use std::alloc::Global;
use store_changes::{read_entry, table_laws, weigh_entry};
use tables::Refusal;
use values::Table;

// Returns whether a read with this result halts the store, since its device failed.
pub(crate) fn halts<T>(read: &Result<T, Refusal>) -> bool
    ensures { result ≡ is_device_reply (ended read.now) }
{
    matches!(read, Err(Refusal::Device))
}

impl<D: SectorDevice> Store<D> {
    ghost use Rattle.catalogue.specs.Edits.{entry_of};
    ghost use Rattle.tables.specs.Tables.{Tables};
    ghost use Rattle.store_runs.specs.Calls.{read_call, table_is, refused};
    ghost use Rattle.store_runs.specs.Machine.{Machine};
    ghost use Rattle.store.specs.Fits.{StoreFits, device_of, listed_in, is_halted};
    ghost use Rattle.store.specs.Applying.{GoesOn};
    ghost use Rattle.store_runs.specs.Reading.{RefusesRead, ReadsTable};
    ghost use Rattle.store.specs.Reading.{OnlyReadsStore};

    // Reads the table with this name, on any store.
    pub(crate) fn read_named(&mut self, alloc: Global, name: &str) -> Result<Table, Refusal>
        ensures reads { OnlyReadsStore D.size D.story D.failed D.tells (ended result) self.old self.new }
        ensures found { IfOk result (λ t. ReadsTable (is_halted self.old) D.tells (shown_image (now (D.story (device_of self.old))))
            (entry_of (listed_in self.old) name.now) (table_of t)) }
        ensures told { IfErr result (RefusesRead (is_halted self.old) D.tells (shown_image (now (D.story (device_of self.old))))
            (entry_of (listed_in self.old) name.now)) }
        ensures kept { IfOk result (λ t. IsTable (table_of t)) }
    {
        if self.halted {
            return Err(Refusal::Halted);
        }
        let opened = &self.opened;
        match opened.catalogue.list.get(name) {
            Some(entry) => {
                let table = read_entry(alloc, &mut self.device, entry);
                self.halted = halts(&table);
                table
            }
            None => Err(Refusal::NoTable),
        }
    }

    /// Returns the table with this name: the rows of its segments, in order. Only reads.
    ///
    /// ```
    /// let rows = store.read(alloc, "readings")?.len();
    /// ```
    ///
    /// # Errors
    /// `Halted` after a failure of the device; `NoTable` if no table has the name; for the first segment that fails, counted from 0, `SegmentUnread` if it
    /// can't be read, is not a stream of the table's schema and number of rows, or takes the table over its maximum weight, and `SegmentDamaged` if its
    /// bytes have another digest than the one in the catalogue; `Device`, after which the store is halted; `OutOfMemory`.
    pub fn read(&mut self, alloc: Global, name: &str) -> Result<Table, Refusal>
        // On a store that represents a machine, it is the table of the settled commands.
        ensures goes { IfOk result (λ t. D.tells ≡ true → (base : Tables) (m : Machine) → StoreFits D.size D.story base m self.old
            → GoesOn D.size D.story D.failed base m (read_call name.now) (table_is (table_of t)) self.old self.new) }
        ensures refused { IfErr result (λ e. D.tells ≡ true → (base : Tables) (m : Machine) → StoreFits D.size D.story base m self.old
            → GoesOn D.size D.story D.failed base m (read_call name.now) (refused e) self.old self.new) }
        // On any store, it is what reads show of the entry in the catalogue. Each refusal has one reason.
        ensures found { IfOk result (λ t. ReadsTable (is_halted self.old) D.tells (shown_image (now (D.story (device_of self.old))))
            (entry_of (listed_in self.old) name.now) (table_of t)) }
        ensures told { IfErr result (RefusesRead (is_halted self.old) D.tells (shown_image (now (D.story (device_of self.old))))
            (entry_of (listed_in self.old) name.now)) }
        ensures reads { OnlyReadsStore D.size D.story D.failed D.tells (ended result) self.old self.new }
    {
        table_laws();
        match self.read_named(alloc, name) {
            Ok(table) => Ok(table),
            Err(refusal) => Err(refusal),
        }
    }

    // Weighs the table with this name, on any store.
    fn weigh_named(&mut self, alloc: Global, name: &str) -> Result<u64, Refusal>
        ensures found { IfOk result (λ weight. (t : PlainTable) × ReadsTable (is_halted self.old) D.tells
            (shown_image (now (D.story (device_of self.old)))) (entry_of (listed_in self.old) name.now) t × (weight ≡ table_weight t.schema t.rows)) }
        ensures told { IfErr result (RefusesRead (is_halted self.old) D.tells (shown_image (now (D.story (device_of self.old))))
            (entry_of (listed_in self.old) name.now)) }
        ensures reads { OnlyReadsStore D.size D.story D.failed D.tells (ended result) self.old self.new }
    {
        if self.halted {
            return Err(Refusal::Halted);
        }
        let opened = &self.opened;
        match opened.catalogue.list.get(name) {
            Some(entry) => {
                let weight = weigh_entry(alloc, &mut self.device, entry);
                self.halted = halts(&weight);
                weight
            }
            None => Err(Refusal::NoTable),
        }
    }

    /// Reads the table with this name segment by segment, keeps none, and returns its weight: what its values and rows count towards the limit of a table
    /// (`MAX_TABLE_WEIGHT` of `cells`). Only reads.
    ///
    /// # Errors
    /// As [`Store::read`].
    pub fn weigh(&mut self, alloc: Global, name: &str) -> Result<u64, Refusal>
        // On a store that represents a machine, it is the weight of the table of the settled commands, which a read returns.
        ensures goes { IfOk result (λ weight. D.tells ≡ true → (base : Tables) (m : Machine) → StoreFits D.size D.story base m self.old
            → (t : PlainTable) × (weight ≡ table_weight t.schema t.rows)
            × GoesOn D.size D.story D.failed base m (read_call name.now) (table_is t) self.old self.new) }
        ensures refused { IfErr result (λ e. D.tells ≡ true → (base : Tables) (m : Machine) → StoreFits D.size D.story base m self.old
            → GoesOn D.size D.story D.failed base m (read_call name.now) (refused e) self.old self.new) }
        // On any store, it is the weight of the table that reads show. Each refusal has one reason, the same as for a read of the table.
        ensures found { IfOk result (λ weight. (t : PlainTable) × ReadsTable (is_halted self.old) D.tells
            (shown_image (now (D.story (device_of self.old)))) (entry_of (listed_in self.old) name.now) t × (weight ≡ table_weight t.schema t.rows)) }
        ensures told { IfErr result (RefusesRead (is_halted self.old) D.tells (shown_image (now (D.story (device_of self.old))))
            (entry_of (listed_in self.old) name.now)) }
        ensures reads { OnlyReadsStore D.size D.story D.failed D.tells (ended result) self.old self.new }
    {
        table_laws();
        match self.weigh_named(alloc, name) {
            Ok(weight) => Ok(weight),
            Err(refusal) => Err(refusal),
        }
    }
}
