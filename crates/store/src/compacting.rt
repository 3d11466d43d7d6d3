// Compaction in steps: two neighbouring segments are joined, or the last segment is moved to a lower start.
ghost use Rattle.std.specs.Prelude.{◌≡◌, ◌≢◌, ◌↔◌, true, false, map, Ok, Err, IfOk, IfErr};
ghost use Rattle.sector_dev.specs.Disk.{now, shown_image};
ghost use Rattle.sector_dev.specs.Time.{OnlyReads};
ghost use Rattle.segments.specs.Usages.{IsUsedIn};
ghost use Rattle.store_runs.specs.Reading.{ended};
ghost use Rattle.store_runs.specs.Compacting.{UnreadsStep};
ghost use Rattle.store_changes.specs.Finding.{FindsStep};

use crate::Store;
use crate::reading::halts;
use ipc_encode::pieces_are_tables;
use sector_dev::SectorDevice;
use std::alloc::Global;
use store_changes::{Step, decide_step, laws_below};
use store_runs::Compaction;
use tables::Refusal;

impl<D: SectorDevice> Store<D> {
    ghost use Rattle.tables.specs.Tables.{Tables};
    ghost use Rattle.store_runs.specs.Calls.{compact_call, refused, nothing, counted};
    ghost use Rattle.store_runs.specs.Machine.{Machine};
    ghost use Rattle.store_runs.specs.Held.{each_listed};
    ghost use Rattle.store_changes.specs.Exchanging.{Shrinks};
    ghost use Rattle.store.specs.Fits.{StoreFits, device_of, listed_in, book_of, is_halted, IsOnDisk};
    ghost use Rattle.store.specs.Reading.{OnlyReadsStore};
    ghost use Rattle.store.specs.Applying.{GoesOn, IsKept, KeepsEachTable};
    ghost use Rattle.store.specs.Compacting.{reply_of, step_reply, HasStepped, RefusesStep, IsSteppingAtEachMoment, HasSteppedOnDisk};

    // Returns what the next step does. Only reads.
    fn find_step(&mut self, alloc: Global) -> Result<Option<Step>, Refusal>
        requires on { self.old.halted ≡ false }
        ensures reads { OnlyReadsStore D.size D.story D.failed D.tells (ended result) self.old self.new }
        ensures found { IfOk result (FindsStep D.tells (shown_image (now (D.story (device_of self.old)))) (D.size (device_of self.old))
            (IsUsedIn self.old.opened.map.entries) (listed_in self.old)) }
        ensures unread { IfErr result (UnreadsStep D.tells (shown_image (now (D.story (device_of self.old)))) (listed_in self.old)) }
    {
        let opened = &self.opened;
        let entries = opened.catalogue.list.entries();
        let step = decide_step(alloc, &mut self.device, &opened.map, entries);
        self.halted = halts(&step);
        step
    }

    /// Takes one step of a compaction. Tables are searched in the byte order of their names for the first two neighbouring segments whose rows fit into one
    /// piece; these are joined. If there are none, the segment with the greatest start is moved to the lowest free run that fits it, if that run has a lower
    /// start. Otherwise there is nothing to do. The tables stay the same at each moment. After some steps there is nothing more to do
    /// ([`crate::compactions_end`]).
    ///
    /// # Errors
    /// `Halted` after a failure of the device; `SegmentUnread` and `SegmentDamaged`, as in [`Store::read`], for a pair that is read, or for the segment to
    /// be moved if one of its sectors can't be read or its bytes have another digest; `Device`, after which the store is halted; `TooMany(Epochs)`; `NoRoom`
    /// if there is no free run for the new segment or the catalogue, and then no other segment is moved instead; `OutOfMemory`. After any error but
    /// `Device` nothing has changed.
    pub fn compact_step(&mut self, alloc: Global) -> Result<Compaction, Refusal>
        // On a store that represents a machine, the tables stay those of the settled commands at each moment.
        ensures goes { IfOk result (λ done. D.tells ≡ true → (base : Tables) (m : Machine) → StoreFits D.size D.story base m self.old
            → GoesOn D.size D.story D.failed base m compact_call (reply_of done) self.old self.new) }
        ensures refused { IfErr result (λ e. D.tells ≡ true → (base : Tables) (m : Machine) → StoreFits D.size D.story base m self.old
            → GoesOn D.size D.story D.failed base m compact_call (refused e) self.old self.new) }
        // On any store and any device, its catalogue, its free runs and what reads show decide what is joined or moved. Each refusal has one reason.
        ensures step { IfOk result (λ done. HasStepped D.size D.story D.tells self.old done self.new) }
        ensures told { IfErr result (λ e. RefusesStep D.size D.story D.tells (is_halted self.old) self.old e self.new) }
        ensures shrinks { IfOk result (λ done. done ≢ Compaction.Nothing → Shrinks (listed_in self.old) (listed_in self.new)) }
        ensures still { result ≡ Ok Compaction.Nothing → OnlyReadsStore D.size D.story D.failed D.tells nothing self.old self.new }
        ensures kept { IfErr result (λ e. IsKept self.old self.new) }
        ensures reads { IfErr result (λ e. e ≢ Refusal.Device → D.tells ≡ true
            → OnlyReads (D.story (device_of self.old)) (D.story (device_of self.new))) }
        ensures halted { (result ≡ Err Refusal.Halted) ↔ (is_halted self.old ≡ true) }
        ensures same { is_halted self.old ≡ true → self.new ≡ self.old }
        ensures halts { is_halted self.old ≡ false → (is_halted self.new ≡ true) ↔ (result ≡ Err Refusal.Device) }
        // On a store that lies on its disk, whatever its segments hold, a stop at any moment leaves the old state or the step's change carried out. Outside
        // the runs that it takes, only the sector of the next commit is written.
        ensures writes { D.tells ≡ true → IsOnDisk D.size D.story self.old → IsSteppingAtEachMoment D.size D.story D.tells self.old self.new }
        ensures written { IfOk result (λ done. done ≢ Compaction.Nothing → D.tells ≡ true → IsOnDisk D.size D.story self.old
            → HasSteppedOnDisk D.size D.story D.tells self.old done self.new) }
        // Each table stays with all its rows, also one that can't be read. On any device the catalogue lists each as before.
        ensures tables { D.tells ≡ true → IsOnDisk D.size D.story self.old → KeepsEachTable D.size D.story self.old self.new }
        ensures listed { each_listed (listed_in self.new) ≡ each_listed (listed_in self.old) }
        ensures size { D.size (device_of self.new) ≡ D.size (device_of self.old) }
        ensures count { D.failed (device_of self.new) ≡ counted (step_reply result) (D.failed (device_of self.old)) }
        ensures book { book_of self.new ≡ book_of self.old }
    {
        if self.halted {
            return Err(Refusal::Halted);
        }
        laws_below();
        pieces_are_tables();
        match self.find_step(alloc) {
            Ok(Some(step)) => match self.carry_out(alloc, &step.change) {
                Ok(()) => Ok(step.done),
                Err(refusal) => Err(refusal),
            },
            Ok(None) => Ok(Compaction::Nothing),
            Err(refusal) => Err(refusal),
        }
    }
}
