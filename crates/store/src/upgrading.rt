// Upgrades a store of version 1 to version 2: its segments get digests.
ghost use Rattle.std.specs.Prelude.{◌≡◌, ◌≢◌, ◌↔◌, true, false, Ok, Err, IfOk, IfErr};
ghost use Rattle.sector_dev.specs.Disk.{now, shown_image};
ghost use Rattle.sector_dev.specs.Time.{OnlyReads};
ghost use Rattle.store_runs.specs.Reading.{ended};
ghost use Rattle.store_runs.specs.Digesting.{AllDigested, StopsReading};

use crate::Store;
use crate::reading::halts;
use commit::FormatVersion;
use sector_dev::SectorDevice;
use std::alloc::Global;
use store_changes::{Change, Edit, all_digests, table_laws};
use tables::Refusal;

/// What an upgrade did.
#[derive(Clone, Copy, Debug, PartialEq, Eq)]
pub enum Upgraded {
    /// The store is now of version 2: each segment has a digest.
    Done,
    /// The store was already of version 2.
    Already,
}

impl<D: SectorDevice> Store<D> {
    ghost use Rattle.commit.specs.declared.sector.FormatVersion.TheVariants.{Two};
    ghost use Rattle.tables.specs.Tables.{Tables};
    ghost use Rattle.store_runs.specs.Calls.{upgrade_call, refused, counted};
    ghost use Rattle.store_runs.specs.Machine.{Machine};
    ghost use Rattle.store_runs.specs.Held.{each_listed};
    ghost use Rattle.store.specs.Fits.{StoreFits, device_of, commit_of, listed_in, book_of, is_halted, IsOnDisk};
    ghost use Rattle.store.specs.Reading.{OnlyReadsStore};
    ghost use Rattle.store.specs.Applying.{GoesOn, IsKept, KeepsEachTable};
    ghost use Rattle.store.specs.Upgrading.{upgrade_reply, upgrade_ended, HasUpgraded, RefusesUpgrade, IsUpgradingAtEachMoment, HasUpgradedOnDisk};

    // Returns the digests of all segments, each of which is read once. Only reads.
    fn find_digests(&mut self, alloc: Global) -> Result<Vec<[u8; 32]>, Refusal>
        requires on { self.old.halted ≡ false }
        ensures reads { OnlyReadsStore D.size D.story D.failed D.tells (ended result) self.old self.new }
        ensures found { IfOk result (λ digests. AllDigested D.tells (shown_image (now (D.story (device_of self.old))))
            (listed_in self.old) digests.items) }
        ensures stops { IfErr result (StopsReading D.tells (shown_image (now (D.story (device_of self.old)))) (listed_in self.old)) }
    {
        let opened = &self.opened;
        let entries = opened.catalogue.list.entries();
        let digests = all_digests(alloc, &mut self.device, entries);
        self.halted = halts(&digests);
        digests
    }

    /// Upgrades a store of version 1 to version 2: reads all tables, each segment once, computes the SHA-256 of the bytes
    /// of each segment, and publishes a catalogue with these digests. No segment is moved or written again. The tables
    /// stay the same at each moment. A store of version 2 stays as it is, without a call of the device.
    ///
    /// # Errors
    /// `Halted` after a failure of the device; `SegmentUnread` for the first table that can't be read, as in [`Store::read`]; `Device`, after which the
    /// store is halted; `TooMany(Epochs)`; `NoRoom` if there is no free run for the catalogue; `OutOfMemory`. After any error but `Device` nothing has
    /// changed.
    pub fn upgrade(&mut self, alloc: Global) -> Result<Upgraded, Refusal>
        // On a store that represents a machine, the tables stay those of the settled commands at each moment.
        ensures goes { IfOk result (λ upgraded. D.tells ≡ true → (base : Tables) (m : Machine) → StoreFits D.size D.story base m self.old
            → GoesOn D.size D.story D.failed base m upgrade_call (upgrade_reply upgraded) self.old self.new) }
        ensures refused { IfErr result (λ e. D.tells ≡ true → (base : Tables) (m : Machine) → StoreFits D.size D.story base m self.old
            → GoesOn D.size D.story D.failed base m upgrade_call (refused e) self.old self.new) }
        // On any store and any device, the digests are those of the bytes that the rows of its tables were read from.
        // Each refusal has one reason.
        ensures upgraded { IfOk result (λ upgraded. HasUpgraded D.size D.story D.tells self.old upgraded self.new) }
        ensures told { IfErr result (λ e. RefusesUpgrade D.size D.story D.tells (is_halted self.old) self.old e self.new) }
        ensures already { is_halted self.old ≡ false → (commit_of self.old).version ≡ Two → result ≡ Ok Upgraded.Already }
        ensures kept { IfErr result (λ e. IsKept self.old self.new) }
        ensures reads { IfErr result (λ e. e ≢ Refusal.Device → D.tells ≡ true
            → OnlyReads (D.story (device_of self.old)) (D.story (device_of self.new))) }
        ensures halted { (result ≡ Err Refusal.Halted) ↔ (is_halted self.old ≡ true) }
        ensures same { is_halted self.old ≡ true → self.new ≡ self.old }
        ensures halts { is_halted self.old ≡ false → (is_halted self.new ≡ true) ↔ (result ≡ Err Refusal.Device) }
        // On a store that lies on its disk, whatever its segments hold, a stop at any moment leaves the old state or the upgrade carried out. Outside the runs
        // that it takes, only the sector of the next commit is written.
        ensures writes { D.tells ≡ true → IsOnDisk D.size D.story self.old → IsUpgradingAtEachMoment D.size D.story D.tells self.old self.new }
        ensures written { IfOk result (λ upgraded. upgraded ≡ Upgraded.Done → D.tells ≡ true → IsOnDisk D.size D.story self.old
            → HasUpgradedOnDisk D.size D.story D.tells self.old self.new) }
        // Each table stays. On any device the catalogue lists each as before.
        ensures tables { D.tells ≡ true → IsOnDisk D.size D.story self.old → KeepsEachTable D.size D.story self.old self.new }
        ensures listed { each_listed (listed_in self.new) ≡ each_listed (listed_in self.old) }
        ensures size { D.size (device_of self.new) ≡ D.size (device_of self.old) }
        ensures count { D.failed (device_of self.new) ≡ counted (upgrade_ended result) (D.failed (device_of self.old)) }
        ensures book { book_of self.new ≡ book_of self.old }
    {
        if self.halted {
            return Err(Refusal::Halted);
        }
        match self.opened.commit.version {
            FormatVersion::Two => Ok(Upgraded::Already),
            FormatVersion::One => {
                table_laws();
                match self.find_digests(alloc) {
                    Ok(digests) => {
                        let change = Change {
                            edit: Edit::Digest { digests },
                            new: None,
                        };
                        match self.carry_out(alloc, &change) {
                            Ok(()) => Ok(Upgraded::Done),
                            Err(refusal) => Err(refusal),
                        }
                    }
                    Err(refusal) => Err(refusal),
                }
            }
        }
    }
}
