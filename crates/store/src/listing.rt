// Queries of the catalogue in memory, without a call of the device.
ghost use Rattle.std.specs.Prelude.{◌≡◌, false, option_map, Some, IfOk, MatchResult};
ghost use Rattle.arrow_schema.specs.Limits.{IsWithinLimits};
ghost use Rattle.arrow_schema.specs.View.{schema_of};
ghost use Rattle.catalogue.specs.Edits.{entry_of};
ghost use Rattle.catalogue.specs.View.{catalogue_of};
ghost use Rattle.store.specs.Listing.{RefusesSchema};

use crate::Store;
use arrow_schema::Schema;
use catalogue::Catalogue;
use sector_dev::SectorDevice;
use std::alloc::Global;
use tables::Refusal;

/// Returns the schema of the table with this name in a catalogue.
pub(crate) fn schema_named(alloc: Global, list: &Catalogue, name: &str) -> Result<Schema, Refusal>
    ensures found { MatchResult result
        (λ found. option_map (λ e. e.schema) (entry_of (catalogue_of list.now) name.now) ≡ Some (schema_of found))
        (RefusesSchema false (entry_of (catalogue_of list.now) name.now)) }
    ensures within { IfOk result (λ found. IsWithinLimits (schema_of found)) }
{
    match list.get(name) {
        Some(entry) => Ok(entry.schema().copy(alloc)?),
        None => Err(Refusal::NoTable),
    }
}

impl<D: SectorDevice> Store<D> {
    ghost use Rattle.std.specs.Prelude.{true, map, string_bytes, IfErr};
    ghost use Rattle.catalogue.specs.Edits.{tables_of};
    ghost use Rattle.tables.specs.Tables.{Tables};
    ghost use Rattle.store_runs.specs.Calls.{tables_call, schema_call, counts, schema_is, refused};
    ghost use Rattle.store_runs.specs.Machine.{Machine};
    ghost use Rattle.store.specs.Fits.{StoreFits, listed_in, is_halted};
    ghost use Rattle.store.specs.Applying.{GoesOn};
    ghost use Rattle.store.specs.Listing.{RefusesTables};

    // Returns the catalogue, unless the store is halted.
    fn listed(&self) -> Result<&Catalogue, Refusal>
        ensures { MatchResult result
            (λ list. (list.now ≡ self.now.opened.catalogue.list) × (self.now.halted ≡ false))
            (λ e. (e ≡ Refusal.Halted) × (self.now.halted ≡ true)) }
    {
        if self.halted {
            Err(Refusal::Halted)
        } else {
            Ok(&self.opened.catalogue.list)
        }
    }

    /// Returns the name and the number of rows of each table, in the byte order of the names.
    ///
    /// ```
    /// for (name, rows) in store.tables(alloc)? {
    ///     println!(rt; "{name} {rows}")?;
    /// }
    /// ```
    ///
    /// # Errors
    /// `Halted` after a failure of the device; `OutOfMemory`.
    pub fn tables(&self, alloc: Global) -> Result<Vec<(String, u64)>, Refusal>
        // On a store that represents a machine, they are those of the settled commands.
        ensures goes { IfOk result (λ found. D.tells ≡ true → (base : Tables) (m : Machine) → StoreFits D.size D.story base m self.now
            → GoesOn D.size D.story D.failed base m tables_call (counts (map (λ t. (string_bytes t.0, t.1)) found.items)) self.now self.now) }
        ensures refused { IfErr result (λ e. D.tells ≡ true → (base : Tables) (m : Machine) → StoreFits D.size D.story base m self.now
            → GoesOn D.size D.story D.failed base m tables_call (refused e) self.now self.now) }
        // On any store, they are those of its catalogue.
        ensures listed { MatchResult result
            (λ found. (is_halted self.now ≡ false) × (map (λ t. (string_bytes t.0, t.1)) found.items ≡ tables_of (listed_in self.now)))
            (λ e. RefusesTables (is_halted self.now) e) }
    {
        let list = self.listed()?;
        Ok(list.tables(alloc)?)
    }

    /// Returns the schema of the table with this name.
    ///
    /// # Errors
    /// `Halted` after a failure of the device; `NoTable` if no table has the name; `OutOfMemory`.
    pub fn schema(&self, alloc: Global, name: &str) -> Result<Schema, Refusal>
        ensures goes { IfOk result (λ found. D.tells ≡ true → (base : Tables) (m : Machine) → StoreFits D.size D.story base m self.now
            → GoesOn D.size D.story D.failed base m (schema_call name.now) (schema_is (schema_of found)) self.now self.now) }
        ensures refused { IfErr result (λ e. D.tells ≡ true → (base : Tables) (m : Machine) → StoreFits D.size D.story base m self.now
            → GoesOn D.size D.story D.failed base m (schema_call name.now) (refused e) self.now self.now) }
        ensures found { MatchResult result
            (λ found. (is_halted self.now ≡ false)
            × (option_map (λ e. e.schema) (entry_of (listed_in self.now) name.now) ≡ Some (schema_of found)))
            (λ e. RefusesSchema (is_halted self.now) (entry_of (listed_in self.now) name.now) e) }
        ensures within { IfOk result (λ found. IsWithinLimits (schema_of found)) }
    {
        let list = self.listed()?;
        schema_named(alloc, list, name)
    }
}
