// Commands whose bytes come from a reader.
use crate::Store;
use crate::input::named_input;
use catalogue::is_name;
use sector_dev::SectorDevice;
use std::alloc::Global;
use std::io::Read;
use store_changes::has_table;
use tables::{Command, Refusal};

impl<D: SectorDevice> Store<D> {
    ghost use Rattle.std.specs.Prelude.{◌≡◌};
    ghost use Rattle.catalogue.specs.Entries.{is_name};
    ghost use Rattle.tables.specs.Commands.{import_stream, append_stream};
    ghost use Rattle.store_runs.specs.Calls.{counted};
    ghost use Rattle.store.specs.Fits.{device_of, is_halted, listed_in};
    ghost use Rattle.store_runs.specs.Reading.{ended};
    ghost use Rattle.store_runs.specs.Deciding.{has_entry};
    ghost use Rattle.store.specs.Input.{ReadsFrom};
    ghost use Rattle.store.specs.Answering.{TakesInput};

    /// Imports the stream that a reader has left, as [`Store::apply`] does with `ImportStream` and these bytes. It replaces a table with this name.
    ///
    /// ```
    /// let mut reader = stream.as_slice();
    /// store.import_from(alloc, "readings", &mut reader)?;
    /// ```
    ///
    /// # Errors
    /// `Halted`, then `BadName`, before anything is read; `Read` if a read fails; `TooMany(Bytes)` if the input is longer than
    /// [`tables::MAX_IMPORT_BYTES`]. After these nothing has changed. Otherwise those of the command.
    pub fn import_from<R: Read>(
        &mut self,
        alloc: Global,
        name: &str,
        reader: &mut R,
    ) -> Result<(), Refusal>
        ensures takes { TakesInput D.size D.story D.failed D.tells (R.remaining reader.old) (import_stream name.now) self.old result self.new }
        ensures reads { ReadsFrom R.remaining (is_halted self.old) (is_name name.now) Refusal.BadName reader.old reader.new (self.new ≡ self.old)
            result }
        ensures size { D.size (device_of self.new) ≡ D.size (device_of self.old) }
        ensures count { D.failed (device_of self.new) ≡ counted (ended result) (D.failed (device_of self.old)) }
    {
        if self.halted {
            return Err(Refusal::Halted);
        }
        if !is_name(name) {
            return Err(Refusal::BadName);
        }
        match named_input(alloc, name, reader) {
            Ok((name, bytes)) => self.apply(alloc, Command::ImportStream { name, bytes }),
            Err(refusal) => Err(refusal),
        }
    }

    /// Appends the rows of the stream that a reader has left to a table, as [`Store::apply`] does with `AppendStream` and these bytes.
    ///
    /// ```
    /// let mut reader = more.as_slice();
    /// store.append_from(alloc, "readings", &mut reader)?;
    /// ```
    ///
    /// # Errors
    /// `Halted`, then `NoTable`, before anything is read; `Read` if a read fails; `TooMany(Bytes)` if the input is longer than
    /// [`tables::MAX_IMPORT_BYTES`]. After these nothing has changed. Otherwise those of the command.
    pub fn append_from<R: Read>(
        &mut self,
        alloc: Global,
        name: &str,
        reader: &mut R,
    ) -> Result<(), Refusal>
        ensures takes { TakesInput D.size D.story D.failed D.tells (R.remaining reader.old) (append_stream name.now) self.old result self.new }
        ensures reads { ReadsFrom R.remaining (is_halted self.old) (has_entry (listed_in self.old) name.now) Refusal.NoTable reader.old reader.new
            (self.new ≡ self.old) result }
        ensures size { D.size (device_of self.new) ≡ D.size (device_of self.old) }
        ensures count { D.failed (device_of self.new) ≡ counted (ended result) (D.failed (device_of self.old)) }
    {
        if self.halted {
            return Err(Refusal::Halted);
        }
        if !has_table(&self.opened.catalogue.list, name) {
            return Err(Refusal::NoTable);
        }
        match named_input(alloc, name, reader) {
            Ok((name, bytes)) => self.apply(alloc, Command::AppendStream { name, bytes }),
            Err(refusal) => Err(refusal),
        }
    }
}
