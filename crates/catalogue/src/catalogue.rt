// The list of the tables, and its changes.
ghost use Rattle.std.specs.Prelude.{◌≡◌, true, map};
ghost use Rattle.catalogue.specs.Entries.{plain_entry, is_catalogue};

use crate::edits::{
    append_to, copy_entries, digested_entries, exchange_in, put_entry, put_entry_runs,
    rename_entry, take_entry,
};
use crate::limits::MAX_TABLES;
use crate::places::place_of;
use crate::testing::{are_in_order, are_sound, have_few_segments};
use crate::{Segment, TableEntry};
use segments::Run;
use std::alloc::{AllocError, Global};

/// The tables of a store, in byte order of their names.
#[derive(Drop)]
pub struct Catalogue {
    entries: Vec<TableEntry>,
    ghost kept: { is_catalogue (map plain_entry entries.items) ≡ true },
}

impl Catalogue {
    ghost use Rattle.std.specs.Prelude.{◌≤◌, ◌+◌, [], Some, None, if◌then◌else◌, length, option_map, string_bytes, OnOk, OnErr, IfOk};
    ghost use Rattle.std.specs.List.{list_all};
    ghost use Rattle.catalogue.specs.declared.limits.TheConstants.{MAX_TABLES, MAX_SEGMENTS};
    ghost use Rattle.catalogue.specs.Entries.{is_name, is_digest, is_segment, is_entry, IsCatalogue, segment_count, runs_of};
    ghost use Rattle.catalogue.specs.Edits.{entry_of, with_entry, without, renamed, with_more, with_exchanged, digested, tables_of};
    ghost use Rattle.catalogue.specs.View.{catalogue_of};

    /// Creates a catalogue without tables.
    pub fn empty(alloc: Global) -> Self
        ensures { catalogue_of result ≡ [] }
    {
        Catalogue {
            entries: Vec::new(alloc),
        }
    }

    // Returns a catalogue of these entries, or `None` if they break its invariant.
    pub(crate) fn of(entries: Vec<TableEntry>) -> Option<Self>
        ensures { option_map catalogue_of result ≡ (if is_catalogue (map plain_entry entries.items) then Some (map plain_entry entries.items) else None) }
    {
        if are_sound(&entries)
            && are_in_order(&entries)
            && entries.len() <= MAX_TABLES
            && have_few_segments(&entries)
        {
            Some(Catalogue { entries })
        } else {
            None
        }
    }

    /// Creates a catalogue of these entries, whose order, names, schemas, segments and pages are already known to be valid.
    pub fn of_entries(entries: Vec<TableEntry>) -> Self
        requires { is_catalogue (map plain_entry entries.items) ≡ true }
        ensures { catalogue_of result ≡ map plain_entry entries.items }
    {
        Catalogue { entries }
    }

    /// Returns the number of tables.
    pub fn len(&self) -> usize
        ensures tables { result ≡ length (catalogue_of self.now) }
        ensures kept { IsCatalogue (catalogue_of self.now) }
    {
        self.entries.len()
    }

    /// Returns the tables in order.
    pub fn entries(&self) -> &[TableEntry]
        ensures entries { map plain_entry result.now ≡ catalogue_of self.now }
        ensures kept { IsCatalogue (catalogue_of self.now) }
    {
        &self.entries
    }

    /// Returns the tables in order, without copying them.
    pub fn into_entries(self) -> Vec<TableEntry>
        ensures { map plain_entry result.items ≡ catalogue_of self }
    {
        self.entries
    }

    /// Returns the table of this name, if there is one.
    pub fn get(&self, name: &str) -> Option<&TableEntry>
        ensures entry { option_map (λ e. plain_entry e.now) result ≡ entry_of (catalogue_of self.now) name.now }
        ensures kept { IsCatalogue (catalogue_of self.now) }
    {
        match place_of(&self.entries, name) {
            Some(place) => Some(&self.entries[place]),
            None => None,
        }
    }

    /// Inserts a table, replacing one of the same name, and returns the replaced one. `TableEntry::is_sound` and the laws of
    /// [`crate::counts_after_changes`] help to show the preconditions.
    ///
    /// # Errors
    /// `AllocError` if memory was refused. The catalogue is then unchanged, and the entry is freed.
    pub fn put(&mut self, entry: TableEntry) -> Result<Option<TableEntry>, AllocError>
        requires entry { is_entry (plain_entry entry) ≡ true }
        requires tables { length (with_entry (catalogue_of self.old) (plain_entry entry)) ≤ MAX_TABLES }
        requires most { segment_count (with_entry (catalogue_of self.old) (plain_entry entry)) ≤ MAX_SEGMENTS }
        ensures put { OnOk result (catalogue_of self.new ≡ with_entry (catalogue_of self.old) (plain_entry entry)) }
        ensures stood { IfOk result (λ stood. option_map plain_entry stood ≡ entry_of (catalogue_of self.old) (plain_entry entry).name) }
        ensures err { OnErr result (catalogue_of self.new ≡ catalogue_of self.old) }
    {
        put_entry(&mut self.entries, entry)
    }

    /// Removes the table of this name and returns it. Allocates no memory.
    pub fn remove(&mut self, name: &str) -> Option<TableEntry>
        ensures removed { catalogue_of self.new ≡ without (catalogue_of self.old) name.now }
        ensures stood { option_map plain_entry result ≡ entry_of (catalogue_of self.old) name.now }
    {
        take_entry(&mut self.entries, name)
    }

    /// Renames a table, which moves to its new place in the order and keeps its page.
    ///
    /// # Errors
    /// `AllocError` if memory was refused. The catalogue is then unchanged.
    pub fn rename(&mut self, from: &str, to: String) -> Result<(), AllocError>
        requires name { is_name (string_bytes to) ≡ true }
        ensures renamed { OnOk result (catalogue_of self.new ≡ renamed (catalogue_of self.old) from.now (string_bytes to)) }
        ensures err { OnErr result (catalogue_of self.new ≡ catalogue_of self.old) }
    {
        rename_entry(&mut self.entries, from, to)
    }

    /// Appends segments to a table, which then has no page. Does nothing if there are no segments, or no table of this name.
    ///
    /// # Errors
    /// `AllocError` if memory was refused. The catalogue is then unchanged.
    pub fn append_segments(&mut self, name: &str, more: &[Segment]) -> Result<(), AllocError>
        requires segments { list_all is_segment more.now ≡ true }
        requires most { segment_count (catalogue_of self.old) + length more.now ≤ MAX_SEGMENTS }
        ensures appended { OnOk result (catalogue_of self.new ≡ with_more (catalogue_of self.old) name.now more.now) }
        ensures err { OnErr result (catalogue_of self.new ≡ catalogue_of self.old) }
    {
        append_to(&mut self.entries, name, more)
    }

    /// Replaces `count` segments of a table from `place` on; the table then has no page. Does nothing if there is no table of this name.
    ///
    /// # Errors
    /// `AllocError` if memory was refused. The catalogue is then unchanged.
    pub fn exchange_segments(
        &mut self,
        name: &str,
        place: usize,
        count: usize,
        others: &[Segment],
    ) -> Result<(), AllocError>
        requires { IsCatalogue (with_exchanged (catalogue_of self.old) name.now place count others.now) }
        ensures exchanged { OnOk result (catalogue_of self.new ≡ with_exchanged (catalogue_of self.old) name.now place count others.now) }
        ensures err { OnErr result (catalogue_of self.new ≡ catalogue_of self.old) }
    {
        exchange_in(&mut self.entries, name, place, count, others)
    }

    /// Sets the digest of each segment, in the order of the tables and of their segments. A table that has segments then has no page.
    ///
    /// # Errors
    /// `AllocError` if memory was refused. The catalogue is then unchanged.
    pub fn set_digests(&mut self, digests: &[[u8; 32]]) -> Result<(), AllocError>
        requires count { segment_count (catalogue_of self.old) ≡ length digests.now }
        requires digests { list_all (λ digest. is_digest (Some digest)) digests.now ≡ true }
        ensures digested { OnOk result (catalogue_of self.new ≡ digested (catalogue_of self.old) digests.now) }
        ensures err { OnErr result (catalogue_of self.new ≡ catalogue_of self.old) }
    {
        let alloc = *self.entries.allocator();
        self.entries = digested_entries(alloc, &self.entries, digests)?;
        Ok(())
    }

    /// Returns the number of segments of all tables.
    pub fn segment_count(&self) -> u64
        ensures { result ≡ segment_count (catalogue_of self.now) }
    {
        let mut count = 0;
        for entry in &self.entries {
            count += entry.segments().len() as u64;
        }
        count
    }

    /// Returns the name and the number of rows of each table, in order.
    ///
    /// # Errors
    /// `AllocError` if memory was refused.
    pub fn tables(&self, alloc: Global) -> Result<Vec<(String, u64)>, AllocError>
        ensures { IfOk result (λ tables. map (λ t. (string_bytes t.0, t.1)) tables.items ≡ tables_of (catalogue_of self.now)) }
    {
        let mut tables = Vec::with_capacity(alloc, self.entries.len())?;
        for entry in &self.entries {
            let name = String::from_str(alloc, entry.name())?;
            tables.push((name, entry.rows()))?;
        }
        Ok(tables)
    }

    /// Returns the runs that the catalogue names, table by table: the run of its page, if it has one, and those of its segments.
    ///
    /// # Errors
    /// `AllocError` if memory was refused.
    pub fn runs(&self, alloc: Global) -> Result<Vec<Run>, AllocError>
        ensures { IfOk result (λ runs. runs.items ≡ runs_of (catalogue_of self.now)) }
    {
        let mut runs = Vec::new(alloc);
        for entry in &self.entries {
            put_entry_runs(&mut runs, entry)?;
        }
        Ok(runs)
    }

    /// Copies the catalogue: the list is new, its entries are shared.
    ///
    /// # Errors
    /// `AllocError` if memory was refused.
    pub fn copy(&self, alloc: Global) -> Result<Catalogue, AllocError>
        ensures { IfOk result (λ c. catalogue_of c ≡ catalogue_of self.now) }
    {
        let entries = copy_entries(alloc, &self.entries)?;
        Ok(Catalogue { entries })
    }
}
