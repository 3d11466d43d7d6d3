// Carries out a change. Only here does a command write.
ghost use Rattle.std.specs.Prelude.{◌≡◌, ◌≢◌, Ok, Err, IfErr, true};
ghost use Rattle.store_changes.specs.Change.{change_of};
ghost use Rattle.store_runs.specs.Changes.{CanChange};

use crate::Store;
use commit::publish;
use sector_dev::SectorDevice;
use std::alloc::Global;
use store_changes::{Change, prepare, settle};
use tables::Refusal;

impl<D: SectorDevice> Store<D> {
    ghost use Rattle.std.specs.Prelude.{false, ◌↔◌, OnOk};
    ghost use Rattle.store_runs.specs.Calls.{counted};
    ghost use Rattle.store.specs.Fits.{device_of, listed_in, book_of, IsOnDisk};
    ghost use Rattle.store_runs.specs.Reading.{ended};
    ghost use Rattle.store.specs.Applying.{EndsAs, IsKept, IsCarryingAtEachMoment, IsCarriedOnDisk};

    /// Carries out a change of the catalogue: makes the streams of the new segments, takes runs, writes the streams and the new catalogue, and publishes them.
    ///
    /// # Errors
    /// `TooMany(Epochs)`, `TooMany(Segments)`, `NoRoom` and `OutOfMemory`; then nothing has changed. `Device`; then the store is halted.
    pub(crate) fn carry_out(&mut self, alloc: Global, change: &Change) -> Result<(), Refusal>
        requires sound { CanChange (listed_in self.old) (change_of change.now) }
        requires on { self.old.halted ≡ false }
        ensures size { D.size (device_of self.new) ≡ D.size (device_of self.old) }
        ensures count { D.failed (device_of self.new) ≡ counted (ended result) (D.failed (device_of self.old)) }
        ensures carried { EndsAs D.size self.old (Ok (change_of change.now)) result self.new }
        ensures halts { (self.new.halted ≡ true) ↔ (result ≡ Err Refusal.Device) }
        ensures not_halted { IfErr result (λ e. e ≢ Refusal.Halted) }
        ensures kept { IfErr result (λ e. IsKept self.old self.new) }
        ensures book { book_of self.new ≡ book_of self.old }
        ensures quiet { IfErr result (λ e. e ≢ Refusal.Device → D.story (device_of self.new) ≡ D.story (device_of self.old)) }
        // On a store that lies on its disk, a stop at any moment leaves the old state or the change carried out. Outside the runs that the change takes,
        // only the sector of the next commit is written.
        ensures carries { D.tells ≡ true → IsOnDisk D.size D.story self.old
            → IsCarryingAtEachMoment D.size D.story self.old (change_of change.now) self.new }
        ensures done { OnOk result (D.tells ≡ true → IsOnDisk D.size D.story self.old
            → IsCarriedOnDisk D.size D.story self.old (change_of change.now) self.new) }
    {
        let pieces = change.pieces(alloc)?;
        let prepared = prepare(
            alloc,
            &mut self.opened.map,
            self.opened.commit,
            &self.opened.catalogue,
            change,
            &pieces,
        )?;
        match publish(&mut self.device, &self.opened, &prepared.plan) {
            Ok(()) => {
                settle(&mut self.opened, prepared);
                Ok(())
            }
            Err(_) => {
                self.opened.map.give_each(&prepared.plan.runs);
                self.halted = true;
                Err(Refusal::Device)
            }
        }
    }
}
