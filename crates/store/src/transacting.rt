// Decides on commands one by one before anything is written, and carries them out as one.
ghost use Rattle.std.specs.Prelude.{◌≡◌, ◌++◌, ◌∷◌, [], List, IfOk, IfErr};
ghost use Rattle.cells.specs.Cell.{Cell};
ghost use Rattle.catalogue.specs.Edits.{entry_of};
ghost use Rattle.tables.specs.Commands.{PlainCommand, all_of, append_rows, commands_of};
ghost use Rattle.tables.specs.Tables.{Tables};
ghost use Rattle.tables.specs.View.{command_of};
ghost use Rattle.store_runs.specs.Calls.{refused, is_device_reply};
ghost use Rattle.store_runs.specs.Machine.{Machine};
ghost use Rattle.store_runs.specs.Reading.{ended};

use crate::Store;
use crate::applying_all::ListRefusal;
use crate::drafting::{NamedWeight, add_line, heavy_line};
use crate::listing::schema_named;
use arrow_schema::Schema;
use sector_dev::SectorDevice;
use std::alloc::Global;
use store_changes::{Draft, decisions_are_verdicts};
use tables::{Command, Refusal, commands_bring_tables};

/// Commands that a store has accepted one after another. They are held in memory: nothing of them is written before [`Store::commit`], and to drop them undoes
/// them.
#[derive(Drop)]
pub struct Transaction {
    pub(crate) draft: Draft,
    pub(crate) weighed: Option<NamedWeight>,
}

// Returns whether a refusal halts the store, since its device failed.
fn fails(refusal: Refusal) -> bool
    ensures { result ≡ is_device_reply (refused refusal) }
{
    matches!(refusal, Refusal::Device)
}

impl<D: SectorDevice> Store<D> {
    ghost use Rattle.std.specs.Prelude.{true, option_map, Some, MatchResult};
    ghost use Rattle.arrow_schema.specs.Limits.{IsWithinLimits};
    ghost use Rattle.arrow_schema.specs.View.{schema_of};
    ghost use Rattle.store_runs.specs.Calls.{apply_call, counted};
    ghost use Rattle.store.specs.Answering.{Applies};
    ghost use Rattle.store.specs.Applying.{AreTooHeavy, GoesOn};
    ghost use Rattle.store.specs.Fits.{StoreFits, device_of, is_halted};
    ghost use Rattle.store.specs.Listing.{RefusesTables, RefusesSchema};
    ghost use Rattle.store.specs.Reading.{OnlyReadsStore};
    ghost use Rattle.store.specs.Transactions.{drafted, Drafts, IsBegun, WhereBegun, RefusesAsOne, EndsBehind, RefusesNext};

    /// Begins a transaction on the tables as they are. [`Store::add`] adds commands to it, and [`Store::commit`] carries them out. Until then no other call
    /// may change the store.
    ///
    /// ```
    /// let mut transaction = store.begin(alloc)?;
    /// transaction = store.add(alloc, transaction, Command::Rename { from, to })?;
    /// let schema = store.schema_in(alloc, &transaction, "new")?;
    /// let rows = rows_of_text(alloc, &form, &schema, text)?;
    /// transaction = store.add(alloc, transaction, Command::AppendRows { name, rows })?;
    /// store.commit(alloc, transaction)?;
    /// ```
    ///
    /// # Errors
    /// `Halted` after a failure of the device; `OutOfMemory`.
    pub fn begin(&self, alloc: Global) -> Result<Transaction, Refusal>
        ensures drafts { IfOk result (λ transaction. Drafts D.size D.story D.failed D.tells self.now self.now transaction []) }
        ensures told { IfErr result (RefusesTables (is_halted self.now)) }
        // Commands that are not begun are refused together, whatever they are.
        ensures refused { IfErr result (λ e. (commands : List PlainCommand)
            → RefusesAsOne D.size D.story D.failed D.tells self.now commands (ListRefusal.Whole e) self.now) }
    {
        if self.halted {
            return Err(Refusal::Halted);
        }
        let list = &self.opened.catalogue.list;
        match Draft::begin(alloc, list, self.opened.commit.device_sectors) {
            Ok(draft) => Ok(Transaction {
                draft,
                weighed: None,
            }),
            Err(_) => Err(Refusal::OutOfMemory),
        }
    }

    /// Adds a command to a transaction that was begun on this store, or refuses it, and so all commands of the transaction. It sees what those before it did.
    /// Only reads.
    ///
    /// # Errors
    /// Those of [`Store::apply`] before anything is written; `TooMany(Segments)` if there are too many after it. After `Device` the store is halted. After any
    /// other error nothing has changed.
    pub fn add(
        &mut self,
        alloc: Global,
        transaction: Transaction,
        command: Command,
    ) -> Result<Transaction, Refusal>
        requires { IsBegun D.size D.story D.failed D.tells self.old transaction }
        ensures reads { OnlyReadsStore D.size D.story D.failed D.tells (ended result) self.old self.new }
        // It is accepted behind those before it.
        ensures drafts { IfOk result (λ next. WhereBegun D.size D.story D.failed D.tells self.old transaction
            (λ first commands. Drafts D.size D.story D.failed D.tells first self.new next (commands ++ command_of command ∷ []))) }
        // Or the list of them and of it is refused for its last command. All of them are answered as `apply_all` answers them.
        ensures told { IfErr result (λ e. WhereBegun D.size D.story D.failed D.tells self.old transaction
            (λ first commands. EndsBehind D.story D.tells first commands (command_of command) e)) }
        ensures refused { IfErr result (λ e. WhereBegun D.size D.story D.failed D.tells self.old transaction
            (λ first commands. RefusesNext D.size D.story D.failed D.tells first commands (command_of command) e self.new)) }
    {
        commands_bring_tables(&command);
        decisions_are_verdicts();
        let Transaction { draft, mut weighed } = transaction;
        match add_line(alloc, &mut self.device, draft, command, &mut weighed) {
            Ok(draft) => Ok(Transaction { draft, weighed }),
            Err(refusal) => {
                self.halted = fails(refusal);
                Err(refusal)
            }
        }
    }

    /// Returns the schema that the table with this name has after the commands of a transaction.
    ///
    /// # Errors
    /// `Halted` after a failure of the device; `NoTable` if no table has the name then; `OutOfMemory`.
    pub fn schema_in(
        &self,
        alloc: Global,
        transaction: &Transaction,
        name: &str,
    ) -> Result<Schema, Refusal>
        ensures found { MatchResult result
            (λ found. option_map (λ e. e.schema) (entry_of (drafted transaction.now) name.now) ≡ Some (schema_of found))
            (λ e. RefusesSchema (is_halted self.now) (entry_of (drafted transaction.now) name.now) e) }
        ensures within { IfOk result (λ found. IsWithinLimits (schema_of found)) }
        // The store that the transaction was begun on stands for the same machine still.
        ensures fits { WhereBegun D.size D.story D.failed D.tells self.now transaction.now (λ first commands.
            D.tells ≡ true → (base : Tables) (m : Machine) → StoreFits D.size D.story base m first → StoreFits D.size D.story base m self.now) }
        // Without a schema, an append of any rows to the table is refused so, behind the commands of the transaction.
        ensures refused { IfErr result (λ e. WhereBegun D.size D.story D.failed D.tells self.now transaction.now (λ first commands.
            (rows : List (List Cell)) → RefusesNext D.size D.story D.failed D.tells first commands (append_rows name.now rows) e self.now)) }
    {
        if self.halted {
            return Err(Refusal::Halted);
        }
        decisions_are_verdicts();
        schema_named(alloc, &transaction.draft.made, name)
    }

    /// Refuses to append rows that are too heavy for any table, and so all commands of a transaction that was begun on this store, as [`Store::add`] refuses
    /// them, without the rows. Only reads: the table is read for the last test, and none of it is kept.
    ///
    /// Returns `NoTable` if no table has the name after the commands of the transaction; `SegmentUnread` and `SegmentDamaged` as [`Store::read`]; `Device`,
    /// after which the store is halted; `OutOfMemory`; else `TooMany(Weight)`.
    pub fn refuse_heavy_rows_in(
        &mut self,
        alloc: Global,
        transaction: Transaction,
        name: &str,
    ) -> Refusal
        requires { IsBegun D.size D.story D.failed D.tells self.old transaction }
        // Whatever the rows are, of which each fits the table, this is an answer of `add` to the command that appends them.
        ensures refused { WhereBegun D.size D.story D.failed D.tells self.old transaction (λ first commands. (rows : List (List Cell))
            → AreTooHeavy (entry_of (drafted transaction) name.now) rows
            → RefusesNext D.size D.story D.failed D.tells first commands (append_rows name.now rows) result self.new) }
        ensures reads { OnlyReadsStore D.size D.story D.failed D.tells (refused result) self.old self.new }
    {
        decisions_are_verdicts();
        let refusal = heavy_line(alloc, &mut self.device, &transaction.draft, name);
        self.halted = fails(refusal);
        refusal
    }

    /// Carries out the commands of a transaction that was begun on this store, or refuses them: all of them are done by one commit, or none. After `Ok` the
    /// changes are safe: no later stop undoes any of them.
    ///
    /// # Errors
    /// `TooMany(Epochs)`, `NoRoom`, `Device`; `OutOfMemory` at any time. After `Device` the store is halted, and only opening the device again shows whether
    /// the commands were applied. After any other error nothing has changed.
    pub fn commit(&mut self, alloc: Global, transaction: Transaction) -> Result<(), Refusal>
        requires { IsBegun D.size D.story D.failed D.tells self.old transaction }
        // All of this is said of the store that the transaction was begun on, and of the commands that were accepted: it is what `apply_all` does with them.
        // On a store that represents a machine, the list of commands is done to the tables of the settled commands, as one command.
        ensures goes { WhereBegun D.size D.story D.failed D.tells self.old transaction (λ first commands.
            D.tells ≡ true → (base : Tables) (m : Machine) → StoreFits D.size D.story base m first
            → GoesOn D.size D.story D.failed base m (apply_call (all_of (commands_of commands))) (ended result) first self.new) }
        // On any store and any device, it is applied or refused as one command.
        ensures applies { WhereBegun D.size D.story D.failed D.tells self.old transaction (λ first commands.
            Applies D.size D.story D.tells first (all_of (commands_of commands)) result self.new) }
        ensures size { D.size (device_of self.new) ≡ D.size (device_of self.old) }
        ensures count { D.failed (device_of self.new) ≡ counted (ended result) (D.failed (device_of self.old)) }
    {
        decisions_are_verdicts();
        let Transaction { draft, weighed } = transaction;
        // Dropped by a call, since its drop would be inlined at each end.
        drop(weighed);
        match draft.finish(alloc) {
            Ok(change) => {
                let all = self.carry_out(alloc, &change);
                drop(change);
                all
            }
            Err(_) => Err(Refusal::OutOfMemory),
        }
    }
}
