// Applies several commands as one.
ghost use Rattle.std.specs.Prelude.{◌≡◌, true, map, IfErr};
ghost use Rattle.sector_dev.specs.Disk.{now, shown_image};
ghost use Rattle.tables.specs.Tables.{Tables};
ghost use Rattle.tables.specs.View.{command_of, list_of};
ghost use Rattle.store_runs.specs.Reading.{ended};
ghost use Rattle.store.specs.Lists.{refusal_of, as_one, ended_list, refusal_at, NamesLine};

use crate::Store;
use sector_dev::SectorDevice;
use std::alloc::Global;
use store_changes::decisions_are_verdicts;
use tables::{Command, Refusal, lists_bring_tables};

/// Why several commands as one are refused.
#[derive(Clone, Copy, Debug, PartialEq, Eq)]
pub enum ListRefusal {
    /// The command at this place, counted from 0, is refused. Those before it are accepted.
    At { place: usize, refusal: Refusal },
    /// They are refused together.
    Whole(Refusal),
}

// Returns the refusal of a list that ends at this place. Where memory was refused or the device failed, no command is to blame.
fn list_refusal(place: usize, refusal: Refusal) -> ListRefusal
    ensures { result ≡ refusal_at place refusal }
{
    match refusal {
        Refusal::Device | Refusal::OutOfMemory => ListRefusal::Whole(refusal),
        refusal => ListRefusal::At { place, refusal },
    }
}

// Returns how all commands together end.
fn as_whole(all: Result<(), Refusal>) -> Result<(), ListRefusal>
    ensures one { as_one result ≡ all }
    ensures reply { ended_list result ≡ ended all }
    ensures no_line { IfErr result (λ e. e ≡ ListRefusal.Whole (refusal_of e)) }
{
    match all {
        Ok(()) => Ok(()),
        Err(refusal) => Err(ListRefusal::Whole(refusal)),
    }
}

impl<D: SectorDevice> Store<D> {
    ghost use Rattle.store_runs.specs.Calls.{apply_call, counted};
    ghost use Rattle.store_runs.specs.Machine.{Machine};
    ghost use Rattle.store.specs.Answering.{Applies};
    ghost use Rattle.store.specs.Applying.{GoesOn};
    ghost use Rattle.store.specs.Fits.{StoreFits, device_of, listed_in};

    /// Applies several commands as one, or refuses them: all of them are done by one commit, or none. Each sees what those before it did. After `Ok` the
    /// changes are safe: no later stop undoes any of them.
    ///
    /// ```
    /// let drop = Command::Drop { name: String::from_str(alloc, "t")? };
    /// let rename = Command::Rename { from: String::from_str(alloc, "kept")?, to: String::from_str(alloc, "t")? };
    /// store.apply_all(alloc, vec![in alloc; drop, rename]?)?;
    /// ```
    ///
    /// # Errors
    /// `Halted` if the store is halted, before any other test. Then the refusal of the first command that is refused, with its place: those of
    /// [`Store::apply`]; `TooMany(Segments)` if there are too many after it. Then `TooMany(Epochs)`, `NoRoom` and `Device` for all together. `Device` and
    /// `OutOfMemory` are told without a place. After `Device` the store is halted, and only opening the device again shows whether the commands were applied.
    /// After any other error nothing has changed.
    pub fn apply_all(&mut self, alloc: Global, commands: Vec<Command>) -> Result<(), ListRefusal>
        // On a store that represents a machine, it does what the list of commands does to the tables of the settled commands, as one command.
        ensures goes { D.tells ≡ true → (base : Tables) (m : Machine) → StoreFits D.size D.story base m self.old
            → GoesOn D.size D.story D.failed base m (apply_call (list_of commands.items)) (ended_list result) self.old self.new }
        // On any store and any device, it is applied or refused as one command.
        ensures applies { Applies D.size D.story D.tells self.old (list_of commands.items) (as_one result) self.new }
        ensures line { IfErr result (NamesLine D.tells (shown_image (now (D.story (device_of self.old)))) (listed_in self.old) (map command_of commands.items)) }
        ensures size { D.size (device_of self.new) ≡ D.size (device_of self.old) }
        ensures count { D.failed (device_of self.new) ≡ counted (ended_list result) (D.failed (device_of self.old)) }
    {
        lists_bring_tables(&commands);
        decisions_are_verdicts();
        let mut transaction = match self.begin(alloc) {
            Ok(transaction) => transaction,
            Err(refusal) => return Err(ListRefusal::Whole(refusal)),
        };
        let mut place = 0;
        for command in commands {
            match self.add(alloc, transaction, command) {
                Ok(next) => transaction = next,
                Err(refusal) => return Err(list_refusal(place, refusal)),
            }
            place += 1;
        }
        as_whole(self.commit(alloc, transaction))
    }
}
