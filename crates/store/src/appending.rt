// Appends rows, or refuses them. The existing table is read for its weight.
ghost use Rattle.std.specs.Prelude.{◌≡◌, ◌≢◌, List, Some, Err, IfOk, IfErr, false, string_bytes};
ghost use Rattle.sector_dev.specs.Disk.{now, shown_image};
ghost use Rattle.cells.specs.Cell.{Cell};
ghost use Rattle.catalogue.specs.Edits.{entry_of};
ghost use Rattle.tables.specs.Commands.{append_rows};
ghost use Rattle.store_runs.specs.Calls.{refused};
ghost use Rattle.store_changes.specs.Change.{change_of};
ghost use Rattle.store_runs.specs.Changes.{CanChange};
ghost use Rattle.store_runs.specs.Reading.{ended};
ghost use Rattle.store_changes.specs.Appending.{append_of};
ghost use Rattle.store_changes.specs.Tests.{decision_of};

use crate::Store;
use crate::reading::halts;
use sector_dev::SectorDevice;
use std::alloc::Global;
use store_changes::{Change, Known, NewRows, append_to_entry, decisions_are_verdicts};
use tables::{Limit, Refusal};

impl<D: SectorDevice> Store<D> {
    ghost use Rattle.std.specs.Prelude.{◌↔◌, true};
    ghost use Rattle.sector_dev.specs.Time.{OnlyReads};
    ghost use Rattle.tables.specs.Tables.{Tables};
    ghost use Rattle.store_runs.specs.Calls.{apply_call, counted};
    ghost use Rattle.store_runs.specs.Deciding.{IsAnswered};
    ghost use Rattle.store_runs.specs.Machine.{Machine};
    ghost use Rattle.store.specs.Applying.{AreTooHeavy, GoesOn, IsApplied, IsKept, IsApplyingAtEachMoment};
    ghost use Rattle.store.specs.Fits.{StoreFits, device_of, listed_in, is_halted, book_of, IsOnDisk};
    ghost use Rattle.store.specs.Reading.{OnlyReadsStore};

    // Returns the change that appends rows to a table.
    pub(crate) fn decide_append(
        &mut self,
        alloc: Global,
        name: String,
        new: NewRows,
    ) -> Result<Change, Refusal>
        requires on { self.old.halted ≡ false }
        ensures reads { OnlyReadsStore D.size D.story D.failed D.tells (ended result) self.old self.new }
        ensures ok { IfOk result (λ change. CanChange (listed_in self.old) (change_of change)) }
        ensures answers { IsAnswered D.tells (shown_image (now (D.story (device_of self.old)))) (listed_in self.old)
            (append_of (string_bytes name) new) (decision_of result) }
        ensures not_halted { IfErr result (λ e. e ≢ Refusal.Halted) }
    {
        let opened = &self.opened;
        match opened.catalogue.list.get(&name) {
            Some(entry) => {
                let mut known = Known {
                    is_read: false,
                    weight: None,
                };
                let change = append_to_entry(alloc, &mut self.device, entry, name, new, &mut known);
                self.halted = halts(&change);
                change
            }
            None => {
                // Dropped by a call, since the drop of each variant would be inlined here.
                drop(new);
                Err(Refusal::NoTable)
            }
        }
    }

    // Returns why rows that are too heavy for any table are not appended to a table of a store that is not halted.
    fn refusal_of_heavy_rows(&mut self, alloc: Global, name: &str) -> Refusal
        requires on { self.old.halted ≡ false }
        ensures reads { OnlyReadsStore D.size D.story D.failed D.tells (refused result) self.old self.new }
        ensures answers { (rows : List (List Cell)) → AreTooHeavy (entry_of (listed_in self.old) name.now) rows
            → IsAnswered D.tells (shown_image (now (D.story (device_of self.old)))) (listed_in self.old) (append_rows name.now rows) (Err result) }
        ensures not_halted { result ≢ Refusal.Halted }
    {
        match self.weigh(alloc, name) {
            Ok(_) => Refusal::TooMany(Limit::Weight),
            Err(refusal) => refusal,
        }
    }

    /// Refuses to append rows that are too heavy for any table, as [`Store::apply`] refuses them, without the rows. Only reads: the table is read for the
    /// last test, and none of it is kept.
    ///
    /// Returns `Halted` if the store is halted; `NoTable` if no table has the name; `SegmentUnread` and `SegmentDamaged` as [`Store::read`]; `Device`,
    /// after which the store is halted; `OutOfMemory`; else `TooMany(Weight)`.
    pub fn refuse_heavy_rows(&mut self, alloc: Global, name: &str) -> Refusal
        // Whatever the rows are, of which each fits the table, this is an answer of `apply` to the command that appends them: on a store that represents
        // a machine, and on any store and any device.
        ensures goes { D.tells ≡ true → (base : Tables) (m : Machine) → StoreFits D.size D.story base m self.old
            → (rows : List (List Cell)) → AreTooHeavy (entry_of (listed_in self.old) name.now) rows
            → GoesOn D.size D.story D.failed base m (apply_call (append_rows name.now rows)) (refused result) self.old self.new }
        ensures applied { is_halted self.old ≡ false → (rows : List (List Cell)) → AreTooHeavy (entry_of (listed_in self.old) name.now) rows
            → IsApplied D.size D.story D.tells self.old (append_rows name.now rows) (Err result) self.new }
        ensures kept { IsKept self.old self.new }
        ensures reads { result ≢ Refusal.Device → D.tells ≡ true
            → OnlyReads (D.story (device_of self.old)) (D.story (device_of self.new)) }
        ensures halted { (result ≡ Refusal.Halted) ↔ (is_halted self.old ≡ true) }
        ensures still { is_halted self.old ≡ true → self.new ≡ self.old }
        ensures halts { is_halted self.old ≡ false → (is_halted self.new ≡ true) ↔ (result ≡ Refusal.Device) }
        ensures writes { is_halted self.old ≡ false → D.tells ≡ true → IsOnDisk D.size D.story self.old
            → (rows : List (List Cell)) → IsApplyingAtEachMoment D.size D.story self.old (append_rows name.now rows) self.new }
        ensures size { D.size (device_of self.new) ≡ D.size (device_of self.old) }
        ensures count { D.failed (device_of self.new) ≡ counted (refused result) (D.failed (device_of self.old)) }
        ensures book { book_of self.new ≡ book_of self.old }
    {
        if self.halted {
            return Refusal::Halted;
        }
        decisions_are_verdicts();
        self.refusal_of_heavy_rows(alloc, name)
    }
}
