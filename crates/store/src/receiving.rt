// Makes the tables of an archive those of a store.
ghost use Rattle.std.specs.Prelude.{◌≡◌, ◌⊎◌, ◌++◌, ◌∷◌, [], ℕ, false, List, map, string_bytes, Some, None, Ok, IfOk, IfErr, OnOk};
ghost use Rattle.sha2.specs.Sha256.{sha256};
ghost use Rattle.arrow_schema.specs.Limits.{IsWithinLimits};
ghost use Rattle.arrow_schema.specs.View.{schema_of};
ghost use Rattle.cells.specs.Cell.{PlainTable};
ghost use Rattle.table_archive.specs.Manifest.{PlainListed, plain_listed, empty_stream};
ghost use Rattle.table_archive.specs.Archive.{IsStreamOf, AreStreamsOf, Collision};
ghost use Rattle.table_archive.specs.declared.manifest.ListedSegment as manifests;
ghost use Rattle.tables.specs.Commands.{PlainCommand, import_stream, all_of, commands_of};
ghost use Rattle.tables.specs.Tables.{Tables, table_at};
ghost use Rattle.tables.specs.Verdict.{verdict, empty_table};
ghost use Rattle.store.specs.ReceivedRows.{HasRowsBehind};
ghost use Rattle.tables.specs.View.{command_of};
ghost use Rattle.store_runs.specs.Calls.{is_failure, is_device_reply};
ghost use Rattle.store.specs.Receiving.{same_schema, has_digest, begin_with, is_listed, drops, drops_if, ended_receiving};
ghost use Rattle.store.specs.Receiving.{received_by, Append, ArePart};

use crate::Store;
use crate::applying_all::ListRefusal;
use crate::segment_streams::{SegmentInfo, SegmentStream, copy_of};
use arrow_schema::Schema;
use indexmap::IndexMap;
use ipc_canonical::canonical_means_its_table;
use ipc_write::{encode_schema, write_end};
use sector_dev::SectorDevice;
use std::alloc::{AllocError, AllocFailed, Global};
use table_archive::{Archive, ListedSegment, ListedTable};
use tables::{Command, Refusal};

/// Why the tables of an archive are not made those of a store.
#[derive(Clone, Copy, Debug, PartialEq, Eq)]
pub enum ReceiveRefusal {
    /// Neither the archive nor the store has the stream with this digest, which a listed segment has.
    Lacks([u8; 32]),
    Store(Refusal),
}

impl From<Refusal> for ReceiveRefusal {
    ghost use Rattle.store.specs.declared.receiving.ReceiveRefusal.TheVariants as receives;

    ghost from_gives = { λ e r. r ≡ receives.Store e };

    fn from(refusal: Refusal) -> ReceiveRefusal {
        ReceiveRefusal::Store(refusal)
    }
}

impl From<AllocError> for ReceiveRefusal {
    ghost use Rattle.tables.specs.declared.refusal.Refusal.TheVariants.{OutOfMemory};
    ghost use Rattle.store.specs.declared.receiving.ReceiveRefusal.TheVariants as receives;

    ghost from_gives = { λ _ r. r ≡ receives.Store OutOfMemory };

    fn from(_: AllocError) -> ReceiveRefusal {
        ReceiveRefusal::Store(Refusal::OutOfMemory)
    }
}

impl<T: Drop> From<AllocFailed<T>> for ReceiveRefusal {
    ghost use Rattle.tables.specs.declared.refusal.Refusal.TheVariants.{OutOfMemory};
    ghost use Rattle.store.specs.declared.receiving.ReceiveRefusal.TheVariants as receives;

    ghost from_gives = { λ _ r. r ≡ receives.Store OutOfMemory };

    fn from(_: AllocFailed<T>) -> ReceiveRefusal {
        ReceiveRefusal::Store(Refusal::OutOfMemory)
    }
}

// A segment of the store: the name of its table, and its place there.
#[derive(Clone, Copy)]
struct OwnPlace<'a> {
    name: &'a str,
    place: usize,
}

// Where the streams of listed segments are: in the archive, or in the segments of the store with these digests.
#[derive(Drop)]
struct Sources<'a, 'b, 'n> {
    archive: &'a Archive<'b>,
    own: IndexMap<[u8; 32], OwnPlace<'n>>,
}

// Adds the segments of a table that have digests.
fn push_places<'a>(
    own: &mut IndexMap<[u8; 32], OwnPlace<'a>>,
    name: &'a str,
    infos: &[SegmentInfo],
) -> Result<(), Refusal>
    ensures memory { IfErr result (λ e. e ≡ Refusal.OutOfMemory) }
{
    for place in 0..infos.len() {
        if let Some(digest) = infos[place].digest {
            match own.insert(digest, OwnPlace { name, place }) {
                Ok(_) => {}
                Err(_) => return Err(Refusal::OutOfMemory),
            }
        }
    }
    Ok(())
}

// Returns the segments of a table that have no digests.
fn undigested_places<'a>(
    alloc: Global,
    name: &'a str,
    infos: &[SegmentInfo],
) -> Result<Vec<OwnPlace<'a>>, Refusal>
    ensures memory { IfErr result (λ e. e ≡ Refusal.OutOfMemory) }
{
    let mut places = Vec::new(alloc);
    for place in 0..infos.len() {
        if infos[place].digest.is_none() {
            places.push(OwnPlace { name, place })?;
        }
    }
    Ok(places)
}

// Returns whether there is a listed segment whose stream neither the archive has nor a segment with its digest.
fn lacks_any(
    archive: &Archive<'_>,
    own: &IndexMap<[u8; 32], OwnPlace<'_>>,
    segments: &[ListedSegment],
) -> bool {
    for listed in segments {
        if archive.stream(&listed.digest).is_none() && !own.contains_key(&listed.digest) {
            return true;
        }
    }
    false
}

// Returns whether a listed table has such a segment.
fn lacks_streams(archive: &Archive<'_>, own: &IndexMap<[u8; 32], OwnPlace<'_>>) -> bool {
    for table in &archive.tables {
        if lacks_any(archive, own, &table.segments) {
            return true;
        }
    }
    false
}

fn has_digest(own: Option<[u8; 32]>, listed: &ListedSegment) -> bool
    ensures { result ≡ has_digest own listed.now }
{
    match own {
        Some(own) => own.as_slice() == listed.digest.as_slice(),
        None => false,
    }
}

// Returns whether the segments of a table are the first ones of those that are listed.
fn begin_with(own: &[SegmentInfo], listed: &[ListedSegment]) -> bool
    ensures { result ≡ begin_with (map (λ (i : SegmentInfo). i.digest) own.now) listed.now }
{
    if own.len() > listed.len() {
        return false;
    }
    for i in 0..own.len() {
        if !has_digest(own[i].digest, &listed[i]) {
            return false;
        }
    }
    true
}

fn is_same_schema(alloc: Global, own: &Schema, listed: &Schema) -> Result<bool, AllocError>
    requires own { IsWithinLimits (schema_of own.now) }
    requires listed { IsWithinLimits (schema_of listed.now) }
    ensures { IfOk result (λ same. same ≡ same_schema (schema_of own.now) (schema_of listed.now)) }
{
    let own = encode_schema(alloc, own)?;
    let listed = encode_schema(alloc, listed)?;
    Ok(own.as_slice() == listed.as_slice())
}

// Returns a copy of the bytes, if they have the size of the segment.
fn archived(alloc: Global, stream: &[u8], listed: &ListedSegment) -> Result<Vec<u8>, ReceiveRefusal>
    requires { listed.now.digest ≡ sha256 stream.now }
    ensures stream { IfOk result (λ bytes. IsStreamOf listed.now bytes.items) }
    ensures quiet { is_device_reply (ended_receiving result) ≡ false }
{
    if stream.len() as u64 != listed.bytes {
        return Err(ReceiveRefusal::Lacks(listed.digest));
    }
    Ok(copy_of(alloc, stream)?)
}

// Returns the bytes of a stream that was read, if it is that of the segment.
fn tested_stream(stream: SegmentStream, listed: &ListedSegment) -> Result<Vec<u8>, ReceiveRefusal>
    requires { stream.digest ≡ sha256 stream.bytes.items }
    ensures stream { IfOk result (λ bytes. IsStreamOf listed.now bytes.items) }
    ensures quiet { is_device_reply (ended_receiving result) ≡ false }
{
    let SegmentStream { digest, bytes } = stream;
    if digest != listed.digest || bytes.len() as u64 != listed.bytes {
        return Err(ReceiveRefusal::Lacks(listed.digest));
    }
    Ok(bytes)
}

// Returns the command that makes a listed table anew, without rows.
fn import_of(alloc: Global, table: &ListedTable) -> Result<Command, AllocError>
    requires { IsWithinLimits (schema_of table.now.schema) }
    ensures { IfOk result (λ command. command_of command
        ≡ import_stream (string_bytes table.now.name) (empty_stream (schema_of table.now.schema))) }
{
    let name = String::from_str(alloc, table.name.as_str())?;
    let mut bytes = encode_schema(alloc, &table.schema)?;
    write_end(&mut bytes)?;
    Ok(Command::ImportStream { name, bytes })
}

fn is_listed(name: &str, tables: &[ListedTable]) -> bool
    ensures { result ≡ is_listed name.now (map plain_listed tables.now) }
{
    for table in tables {
        if table.name.as_str() == name {
            return true;
        }
    }
    false
}

// Adds the commands that drop each table that is not listed.
fn push_drops(
    alloc: Global,
    names: &[(String, u64)],
    tables: &[ListedTable],
    commands: &mut Vec<Command>,
) -> Result<(), AllocError>
    ensures { OnOk result (map command_of commands.new.items
        ≡ map command_of commands.old.items ++ drops (map (λ t. (string_bytes t.0, t.1)) names.now) (map plain_listed tables.now)) }
{
    for name in names {
        if !is_listed(name.0.as_str(), tables) {
            let name = String::from_str(alloc, name.0.as_str())?;
            commands.push(Command::Drop { name })?;
        }
    }
    Ok(())
}

fn drops_for(
    alloc: Global,
    delete: bool,
    names: &[(String, u64)],
    tables: &[ListedTable],
) -> Result<Vec<Command>, AllocError>
    ensures { IfOk result (λ commands. map command_of commands.items
        ≡ drops_if delete (map (λ t. (string_bytes t.0, t.1)) names.now) (map plain_listed tables.now)) }
{
    let mut commands = Vec::new(alloc);
    if delete {
        push_drops(alloc, names, tables, &mut commands)?;
    }
    Ok(commands)
}

fn received_by(answer: Result<(), ListRefusal>) -> Result<(), ReceiveRefusal>
    ensures { result ≡ received_by answer }
{
    match answer {
        Ok(()) => Ok(()),
        Err(ListRefusal::At { refusal, .. }) => Err(ReceiveRefusal::Store(refusal)),
        Err(ListRefusal::Whole(refusal)) => Err(ReceiveRefusal::Store(refusal)),
    }
}

/// Streams that have the digests and sizes of the same listed segments are the same, or two different byte strings have one SHA-256. So what
/// [`Store::receive`] appends to a table are the streams of the sender.
pub fn digests_tell_streams()
    ensures { (segments : List manifests.ListedSegment) (one other : List (List ℕ))
        → AreStreamsOf segments one → AreStreamsOf segments other → (one ≡ other) ⊎ Collision }
{}

/// The rows of a listed table after its commands, where they are accepted: those that it had, or none if it is made anew, and then those of a stream of each
/// segment that is appended, one after another.
pub fn received_rows_are_of_the_streams()
    ensures behind { (t u : Tables) (table : PlainTable) (name : List ℕ) (segments : List manifests.ListedSegment) (commands : List PlainCommand)
        → table_at t name ≡ Some table → Append name segments commands → verdict t (all_of (commands_of commands)) ≡ Ok u
        → HasRowsBehind u name segments table }
    ensures anew { (t u : Tables) (listed : PlainListed) (commands : List PlainCommand) → IsWithinLimits listed.schema → ArePart listed None commands
        → verdict t (all_of (commands_of commands)) ≡ Ok u → HasRowsBehind u listed.name listed.segments (empty_table listed.schema) }
{
    canonical_means_its_table();
}

impl<D: SectorDevice> Store<D> {
    ghost use Rattle.std.specs.Prelude.{◌≤◌, option_map, drop, length, IfSome, Err};
    ghost use Rattle.catalogue.specs.Edits.{entry_of};
    ghost use Rattle.table_archive.specs.Manifest.{AreWithin};
    ghost use Rattle.tables.specs.Commands.{append_stream};
    ghost use Rattle.store.specs.Fits.{listed_in};
    ghost use Rattle.store.specs.Reading.{OnlyReadsStore};
    ghost use Rattle.store.specs.Receiving.{left_of, AreParts, AreReceived, Receives};
    ghost use Rattle.store_runs.specs.Reading.{ended};

    fn own_places<'a>(
        &self,
        alloc: Global,
        names: &'a [(String, u64)],
    ) -> Result<IndexMap<[u8; 32], OwnPlace<'a>>, Refusal>
        ensures quiet { IfErr result (λ e. is_failure e ≡ false) }
    {
        let mut own = IndexMap::new(alloc);
        for name in names {
            match self.segments(alloc, name.0.as_str()) {
                Ok(infos) => push_places(&mut own, name.0.as_str(), &infos)?,
                Err(refusal) => return Err(refusal),
            }
        }
        Ok(own)
    }

    // Reads a segment without a digest, and adds it by the digest of its stream. One whose stream can't be read is left out.
    fn read_place<'a>(
        &mut self,
        alloc: Global,
        found: OwnPlace<'a>,
        own: &mut IndexMap<[u8; 32], OwnPlace<'a>>,
    ) -> Result<(), Refusal>
        ensures reads { OnlyReadsStore D.size D.story D.failed D.tells (ended result) self.old self.new }
    {
        match self.segment_stream(alloc, found.name, found.place) {
            Ok(stream) => match own.insert(stream.digest, found) {
                Ok(_) => Ok(()),
                Err(_) => Err(Refusal::OutOfMemory),
            },
            Err(Refusal::SegmentUnread(_)) => Ok(()),
            Err(refusal) => Err(refusal),
        }
    }

    // The same of all segments of a table that have no digests.
    fn read_table_places<'a>(
        &mut self,
        alloc: Global,
        name: &'a str,
        own: &mut IndexMap<[u8; 32], OwnPlace<'a>>,
    ) -> Result<(), Refusal>
        ensures reads { OnlyReadsStore D.size D.story D.failed D.tells (ended result) self.old self.new }
    {
        let infos = self.segments(alloc, name)?;
        let places = undigested_places(alloc, name, &infos)?;
        for found in &places {
            match self.read_place(alloc, *found, own) {
                Ok(()) => {}
                Err(refusal) => return Err(refusal),
            }
        }
        Ok(())
    }

    // The same of all tables, if the archive leaves out a stream that no segment with a digest has: a store without digests is read only then.
    fn read_places<'a>(
        &mut self,
        alloc: Global,
        archive: &Archive<'_>,
        names: &'a [(String, u64)],
        own: &mut IndexMap<[u8; 32], OwnPlace<'a>>,
    ) -> Result<(), Refusal>
        ensures reads { OnlyReadsStore D.size D.story D.failed D.tells (ended result) self.old self.new }
    {
        if !lacks_streams(archive, own) {
            return Ok(());
        }
        for name in names {
            match self.read_table_places(alloc, name.0.as_str(), own) {
                Ok(()) => {}
                Err(refusal) => return Err(refusal),
            }
        }
        Ok(())
    }

    // Reads the stream of a segment of the store, for a listed one.
    fn own_stream(
        &mut self,
        alloc: Global,
        own: OwnPlace<'_>,
        listed: &ListedSegment,
    ) -> Result<Vec<u8>, ReceiveRefusal>
        ensures stream { IfOk result (λ bytes. IsStreamOf listed.now bytes.items) }
        ensures reads { OnlyReadsStore D.size D.story D.failed D.tells (ended_receiving result) self.old self.new }
    {
        match self.segment_stream(alloc, own.name, own.place) {
            Ok(stream) => tested_stream(stream, listed),
            Err(refusal) => Err(ReceiveRefusal::Store(refusal)),
        }
    }

    fn stream_for(
        &mut self,
        alloc: Global,
        sources: &Sources<'_, '_, '_>,
        listed: &ListedSegment,
    ) -> Result<Vec<u8>, ReceiveRefusal>
        ensures stream { IfOk result (λ bytes. IsStreamOf listed.now bytes.items) }
        ensures reads { OnlyReadsStore D.size D.story D.failed D.tells (ended_receiving result) self.old self.new }
    {
        if let Some(stream) = sources.archive.stream(&listed.digest) {
            return archived(alloc, stream, listed);
        }
        match sources.own.get(&listed.digest) {
            Some(own) => self.own_stream(alloc, *own, listed),
            None => Err(ReceiveRefusal::Lacks(listed.digest)),
        }
    }

    fn push_append(
        &mut self,
        alloc: Global,
        sources: &Sources<'_, '_, '_>,
        name: &str,
        listed: &ListedSegment,
        commands: &mut Vec<Command>,
    ) -> Result<(), ReceiveRefusal>
        ensures pushed { OnOk result ((stream : List ℕ) × IsStreamOf listed.now stream
            × (map command_of commands.new.items ≡ map command_of commands.old.items ++ append_stream name.now stream ∷ [])) }
        ensures reads { OnlyReadsStore D.size D.story D.failed D.tells (ended_receiving result) self.old self.new }
    {
        let bytes = match self.stream_for(alloc, sources, listed) {
            Ok(bytes) => bytes,
            Err(refusal) => return Err(refusal),
        };
        let name = String::from_str(alloc, name)?;
        commands.push(Command::AppendStream { name, bytes })?;
        Ok(())
    }

    // Adds the commands that append streams of these segments to a table.
    fn push_appends(
        &mut self,
        alloc: Global,
        sources: &Sources<'_, '_, '_>,
        name: &str,
        segments: &[ListedSegment],
        commands: &mut Vec<Command>,
    ) -> Result<(), ReceiveRefusal>
        ensures pushed { OnOk result ((cs : List PlainCommand) × Append name.now segments.now cs
            × (map command_of commands.new.items ≡ map command_of commands.old.items ++ cs)) }
        ensures reads { OnlyReadsStore D.size D.story D.failed D.tells (ended_receiving result) self.old self.new }
    {
        for listed in segments {
            match self.push_append(alloc, sources, name, listed, commands) {
                Ok(()) => {}
                Err(refusal) => return Err(refusal),
            }
        }
        Ok(())
    }

    // Returns how many of the segments of a listed table the store has, if it has the first ones and no others, in a table of this name and schema.
    fn begun(&self, alloc: Global, table: &ListedTable) -> Result<Option<usize>, Refusal>
        requires { IsWithinLimits (schema_of table.now.schema) }
        ensures left { IfOk result (λ found. option_map (λ n. drop n table.now.segments.items) found
            ≡ left_of (entry_of (listed_in self.now) (string_bytes table.now.name)) (plain_listed table.now)) }
        ensures within { IfOk result (λ found. IfSome found (λ n. n ≤ length table.now.segments.items)) }
        ensures quiet { IfErr result (λ e. is_failure e ≡ false) }
    {
        let name = table.name.as_str();
        let own = match self.schema(alloc, name) {
            Ok(schema) => schema,
            Err(Refusal::NoTable) => return Ok(None),
            Err(refusal) => return Err(refusal),
        };
        let same = is_same_schema(alloc, &own, &table.schema)?;
        if !same {
            return Ok(None);
        }
        let infos = self.segments(alloc, name)?;
        if begin_with(&infos, &table.segments) {
            Ok(Some(infos.len()))
        } else {
            Ok(None)
        }
    }

    fn push_part(
        &mut self,
        alloc: Global,
        sources: &Sources<'_, '_, '_>,
        table: &ListedTable,
        commands: &mut Vec<Command>,
    ) -> Result<(), ReceiveRefusal>
        requires { IsWithinLimits (schema_of table.now.schema) }
        ensures pushed { OnOk result ((cs : List PlainCommand)
            × ArePart (plain_listed table.now) (left_of (entry_of (listed_in self.old) (string_bytes table.now.name)) (plain_listed table.now)) cs
            × (map command_of commands.new.items ≡ map command_of commands.old.items ++ cs)) }
        ensures reads { OnlyReadsStore D.size D.story D.failed D.tells (ended_receiving result) self.old self.new }
    {
        let name = table.name.as_str();
        match self.begun(alloc, table)? {
            Some(count) => {
                self.push_appends(alloc, sources, name, &table.segments[count..], commands)
            }
            None => {
                commands.push(import_of(alloc, table)?)?;
                self.push_appends(alloc, sources, name, &table.segments, commands)
            }
        }
    }

    fn push_parts(
        &mut self,
        alloc: Global,
        sources: &Sources<'_, '_, '_>,
        tables: &[ListedTable],
        commands: &mut Vec<Command>,
    ) -> Result<(), ReceiveRefusal>
        requires { AreWithin tables.now }
        ensures pushed { OnOk result ((cs : List PlainCommand) × AreParts (listed_in self.old) (map plain_listed tables.now) cs
            × (map command_of commands.new.items ≡ map command_of commands.old.items ++ cs)) }
        ensures reads { OnlyReadsStore D.size D.story D.failed D.tells (ended_receiving result) self.old self.new }
    {
        for table in tables {
            match self.push_part(alloc, sources, table, commands) {
                Ok(()) => {}
                Err(refusal) => return Err(refusal),
            }
        }
        Ok(())
    }

    // Returns the commands that make the tables of an archive those of the store. They hold a copy of each stream that is appended.
    fn commands_for(
        &mut self,
        alloc: Global,
        archive: &Archive<'_>,
        delete: bool,
    ) -> Result<Vec<Command>, ReceiveRefusal>
        requires { AreWithin archive.now.tables.items }
        ensures commands { IfOk result (λ commands.
            AreReceived (listed_in self.old) (map plain_listed archive.now.tables.items) delete (map command_of commands.items)) }
        ensures reads { OnlyReadsStore D.size D.story D.failed D.tells (ended_receiving result) self.old self.new }
    {
        let names = self.tables(alloc)?;
        let mut own = self.own_places(alloc, &names)?;
        match self.read_places(alloc, archive, &names, &mut own) {
            Ok(()) => {}
            Err(refusal) => return Err(ReceiveRefusal::Store(refusal)),
        }
        let sources = Sources {
            archive: &*archive,
            own,
        };
        let mut commands = drops_for(alloc, delete, &names, &archive.tables)?;
        match self.push_parts(alloc, &sources, &archive.tables, &mut commands) {
            Ok(()) => Ok(commands),
            Err(refusal) => Err(refusal),
        }
    }

    /// Makes the tables of an archive those of the store, by one commit: all of it is done, or none. Where the segments of a table of the same name and schema
    /// are the first ones that are listed, by their digests, the others are appended; else the table is made anew. With `delete`, tables that are not listed
    /// are dropped; without it they stay. A stream that the archive does not have is read of a segment of the store with its digest; for one that no entry
    /// has, the segments without digests are read too. Where nothing differs the store is only read. The streams that are appended are in memory, beside the
    /// archive.
    ///
    /// ```
    /// let archive = read_archive(alloc, &bytes)?;
    /// store.receive(alloc, &archive, false)?;
    /// ```
    ///
    /// # Errors
    /// `Lacks` with the digest of the first listed segment that neither the archive nor the store has, with the listed size; that neither has it is not proved.
    /// `Store` with a refusal of [`Store::tables`], of [`Store::segment_stream`] or of [`Store::apply_all`]. After `Store(Device)` the store is halted, and
    /// only opening the device again shows whether the tables were made. After any other error nothing has changed.
    pub fn receive(
        &mut self,
        alloc: Global,
        archive: &Archive<'_>,
        delete: bool,
    ) -> Result<(), ReceiveRefusal>
        requires { AreWithin archive.now.tables.items }
        // The commands are those that `AreReceived` lists, and the store has done all of them as one, as `apply_all` does.
        ensures received { OnOk result (Receives D.size D.story D.failed D.tells self.old (map plain_listed archive.now.tables.items) delete result self.new) }
        // Or it answers them as `apply_all` refuses them, or is only read.
        ensures refused { IfErr result (λ e. OnlyReadsStore D.size D.story D.failed D.tells (ended_receiving result) self.old self.new
            ⊎ Receives D.size D.story D.failed D.tells self.old (map plain_listed archive.now.tables.items) delete (Err e) self.new) }
    {
        let commands = match self.commands_for(alloc, archive, delete) {
            Ok(commands) => commands,
            Err(refusal) => return Err(refusal),
        };
        if commands.is_empty() {
            return Ok(());
        }
        received_by(self.apply_all(alloc, commands))
    }
}
