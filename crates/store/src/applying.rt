// Applies a command to an open store.
ghost use Rattle.std.specs.Prelude.{◌≡◌, ◌≢◌, false, IfOk, IfErr};
ghost use Rattle.sector_dev.specs.Disk.{now, shown_image};
ghost use Rattle.sector_dev.specs.Time.{OnlyReads};
ghost use Rattle.tables.specs.Tables.{Tables};
ghost use Rattle.tables.specs.View.{command_of};
ghost use Rattle.store_changes.specs.Change.{change_of};
ghost use Rattle.store_runs.specs.Changes.{CanChange};
ghost use Rattle.store_runs.specs.Deciding.{IsAnswered, reads_device};
ghost use Rattle.store.specs.Fits.{listed_in};
ghost use Rattle.store.specs.Reading.{OnlyReadsStore};
ghost use Rattle.store_runs.specs.Reading.{ended};
ghost use Rattle.store_changes.specs.Tests.{decision_of};

use crate::Store;
use sector_dev::SectorDevice;
use std::alloc::Global;
use store_changes::{
    Change, NewRows, decide_create, decide_drop, decide_import, decide_rename,
    decisions_are_verdicts,
};
use tables::{Command, Refusal, commands_bring_tables};

impl<D: SectorDevice> Store<D> {
    ghost use Rattle.std.specs.Prelude.{◌↔◌, true, Err, OnOk};
    ghost use Rattle.store_runs.specs.Calls.{apply_call, counted};
    ghost use Rattle.store_runs.specs.Machine.{Machine};
    ghost use Rattle.store.specs.Fits.{StoreFits, device_of, is_halted, book_of, IsOnDisk};
    ghost use Rattle.store.specs.Applying.{GoesOn, IsApplied, IsKept, IsApplyingAtEachMoment, IsDoneOnDisk};

    // Returns the change that a command makes. Only an append and a saved query read the device.
    fn decide(&mut self, alloc: Global, command: Command) -> Result<Change, Refusal>
        requires on { is_halted self.old ≡ false }
        ensures reads { OnlyReadsStore D.size D.story D.failed D.tells (ended result) self.old self.new }
        ensures still { reads_device (command_of command) ≡ false → self.new ≡ self.old }
        ensures ok { IfOk result (λ change. CanChange (listed_in self.old) (change_of change)) }
        ensures not_halted { IfErr result (λ e. e ≢ Refusal.Halted) }
        ensures answers { IsAnswered D.tells (shown_image (now (D.story (device_of self.old)))) (listed_in self.old) (command_of command)
            (decision_of result) }
    {
        let catalogue = &self.opened.catalogue.list;
        match command {
            Command::Create(new) => decide_create(catalogue, new),
            Command::ImportStream { name, bytes } => decide_import(alloc, catalogue, name, bytes),
            Command::AppendStream { name, bytes } => {
                self.decide_append(alloc, name, NewRows::Stream(bytes))
            }
            Command::AppendRows { name, rows } => {
                self.decide_append(alloc, name, NewRows::Given(rows))
            }
            Command::AppendTable { name, new } => {
                self.decide_append(alloc, name, NewRows::OfTable(new))
            }
            Command::SaveAs { from, to, query } => self.decide_save(alloc, from, to, query),
            Command::Rename { from, to } => decide_rename(catalogue, from, to),
            Command::Drop { name } => decide_drop(catalogue, name),
        }
    }

    /// Applies a command, or refuses it. After `Ok` the change is safe: no later stop undoes it.
    ///
    /// ```
    /// let name = String::from_str(alloc, "readings")?;
    /// store.apply(alloc, Command::Drop { name })?;
    /// ```
    ///
    /// # Errors
    /// `Halted` if the store is halted, before any other test. Then the refusals of the command, in the order of its tests. An append reads its table for
    /// the last test, and a saved query reads its table after all tests: `SegmentUnread` and `SegmentDamaged` as in [`Store::read`], and `Device`. Then
    /// `TooMany(Epochs)`, `TooMany(Segments)`, `NoRoom` and `Device`. `OutOfMemory` at any time. After `Device` the store is halted, and only opening the
    /// device again shows whether the command was applied. After any other error nothing has changed.
    pub fn apply(&mut self, alloc: Global, command: Command) -> Result<(), Refusal>
        // On a store that represents a machine, it does what the command does to the tables of the settled commands, or gives the refusal that they require.
        ensures goes { D.tells ≡ true → (base : Tables) (m : Machine) → StoreFits D.size D.story base m self.old
            → GoesOn D.size D.story D.failed base m (apply_call (command_of command)) (ended result) self.old self.new }
        // On any store and any device, the catalogue decides on the command, and so does the table that an append or a saved query reads. The decision
        // is carried out or reported. Each refusal has one reason.
        ensures applied { is_halted self.old ≡ false → IsApplied D.size D.story D.tells self.old (command_of command) result self.new }
        ensures refused { IfErr result (λ e. IsKept self.old self.new) }
        ensures quiet { IfErr result (λ e. e ≢ Refusal.Device → reads_device (command_of command) ≡ false
            → D.story (device_of self.new) ≡ D.story (device_of self.old)) }
        ensures reads { IfErr result (λ e. e ≢ Refusal.Device → D.tells ≡ true
            → OnlyReads (D.story (device_of self.old)) (D.story (device_of self.new))) }
        ensures halted { (result ≡ Err Refusal.Halted) ↔ (is_halted self.old ≡ true) }
        ensures still { is_halted self.old ≡ true → self.new ≡ self.old }
        ensures halts { is_halted self.old ≡ false → (is_halted self.new ≡ true) ↔ (result ≡ Err Refusal.Device) }
        // On a store that lies on its disk, whatever its segments hold, a stop at any moment leaves the old state or the command applied. Outside the runs
        // that the command takes, only the sector of the next commit is written.
        ensures writes { is_halted self.old ≡ false → D.tells ≡ true → IsOnDisk D.size D.story self.old
            → IsApplyingAtEachMoment D.size D.story self.old (command_of command) self.new }
        ensures written { OnOk result (D.tells ≡ true → IsOnDisk D.size D.story self.old
            → IsDoneOnDisk D.size D.story self.old (command_of command) self.new) }
        ensures size { D.size (device_of self.new) ≡ D.size (device_of self.old) }
        ensures count { D.failed (device_of self.new) ≡ counted (ended result) (D.failed (device_of self.old)) }
        // No command opens or closes an export.
        ensures book { book_of self.new ≡ book_of self.old }
    {
        // Dropped by calls, since inlined drops would be most of the function.
        if self.halted {
            drop(command);
            return Err(Refusal::Halted);
        }
        commands_bring_tables(&command);
        decisions_are_verdicts();
        match self.decide(alloc, command) {
            Ok(change) => {
                let ended = self.carry_out(alloc, &change);
                drop(change);
                ended
            }
            Err(refusal) => Err(refusal),
        }
    }
}
