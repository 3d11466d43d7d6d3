// Applies several commands to an open store as one.
ghost use Rattle.std.specs.Prelude.{◌≡◌, ◌≢◌, true, codes, List, Ok, IfOk, IfErr, OnOk};
ghost use Rattle.std.specs.Io.KnownBytes.{Appends};
ghost use Rattle.sector_dev.specs.Disk.{now, shown_image};
ghost use Rattle.sector_dev.specs.Time.{OnlyReads};
ghost use Rattle.arrow_schema.specs.Limits.{IsWithinLimits};
ghost use Rattle.arrow_schema.specs.View.{schema_of};
ghost use Rattle.cells.specs.Cell.{Cell};
ghost use Rattle.facts.specs.Outcomes.{Reports};
ghost use Rattle.text_import.specs.Form.{rows_of_text};
ghost use Rattle.text_import.specs.Refusals.{refused_by};
ghost use Rattle.tables.specs.Commands.{all_of, commands_of};
ghost use Rattle.tables.specs.Tables.{Tables};
ghost use Rattle.store.specs.Applying.{GoesOn};
ghost use Rattle.store_runs.specs.Calls.{apply_call, done};
ghost use Rattle.store.specs.Fits.{StoreFits, device_of, listed_in};
ghost use Rattle.store.specs.Lists.{ended_list};
ghost use Rattle.store.specs.Reading.{OnlyReadsStore};
ghost use Rattle.store_runs.specs.Machine.{Machine};
ghost use Rattle.store.specs.Transactions.{drafted, IsBegun, WhereBegun};
ghost use Rattle.cli_commands.specs.Applying.{AnswersList, HandsLines, RefusesLines};
ghost use Rattle.cli_commands.specs.inner.Applying.{at_line, AddsLine, EndsLine};
ghost use Rattle.cli_commands.specs.inner.TextRows.{AppendsRows};

use crate::text_rows::read_command;
use arrow_schema::Schema;
use cli_reports::{Refusal, Side, write_whole};
use sector_dev::SectorDevice;
use std::alloc::Global;
use std::io::Write;
use store::{Store, Transaction};
use tables::Command;
use text_import::{TextError, TextForm};

/// A command of a list, as far as it is known before the tables are.
#[derive(Drop)]
pub enum ListedCommand<'a> {
    Known(Command),
    /// Appends the rows of a text, which is read for the schema that the table has when its turn comes.
    Text {
        name: &'a str,
        form: TextForm<'a>,
        text: Vec<u8>,
    },
}

// Returns a refusal with the number of its line. Where memory was refused or the device failed, no line is to blame.
fn at_line(number: u64, refusal: Refusal) -> Refusal
    ensures { result ≡ at_line number refusal }
{
    match refusal {
        Refusal::Store(tables::Refusal::Device | tables::Refusal::OutOfMemory) => refusal,
        Refusal::Store(refusal) => Refusal::Line(number, refusal),
        Refusal::Text(refused) => Refusal::TextLine(number, refused),
        refusal => refusal,
    }
}

// Returns the command that appends the rows of a text, or `None` if they are too heavy for any table. The text is freed.
fn take_rows(
    alloc: Global,
    form: &TextForm<'_>,
    schema: &Schema,
    text: Vec<u8>,
    name: &str,
) -> Result<Option<Command>, TextError>
    requires { IsWithinLimits (schema_of schema.now) }
    ensures read { IfOk result (λ found. (rows : List (List Cell)) × (rows_of_text form.now (schema_of schema.now) text.items ≡ Ok rows)
        × AppendsRows name.now (schema_of schema.now) rows found) }
    ensures refused { IfErr result (λ e. Reports (refused_by e) (rows_of_text form.now (schema_of schema.now) text.items)) }
{
    let own_name = String::from_str(alloc, name)?;
    read_command(alloc, form, schema, &text, own_name)
}

// Adds the command that appends the rows of a text, which is read for the schema that its table has by now.
fn add_text<D: SectorDevice>(
    alloc: Global,
    store: &mut Store<D>,
    transaction: Transaction,
    name: &str,
    form: &TextForm<'_>,
    text: Vec<u8>,
) -> Result<Transaction, Refusal>
    requires { IsBegun D.size D.story D.failed D.tells store.old transaction }
    ensures adds { IfOk result (λ next. WhereBegun D.size D.story D.failed D.tells store.old transaction (λ first given.
        AddsLine D.size D.story D.failed D.tells (drafted transaction) (ListedCommand.Text name.entry form.now text) first given next store.new)) }
    ensures ends { IfErr result (λ e. WhereBegun D.size D.story D.failed D.tells store.old transaction (λ first given.
        EndsLine D.size D.story D.failed D.tells (drafted transaction) (ListedCommand.Text name.entry form.now text) first given e store.new)) }
{
    match store.schema_in(alloc, &transaction, name) {
        Ok(schema) => match take_rows(alloc, form, &schema, text, name)? {
            Some(command) => Ok(store.add(alloc, transaction, command)?),
            None => {
                let refusal = store.refuse_heavy_rows_in(alloc, transaction, name);
                Err(Refusal::Store(refusal))
            }
        },
        Err(tables::Refusal::NoTable) => Err(Refusal::Store(tables::Refusal::NoTable)),
        // A store with a transaction is not halted.
        Err(_) => Err(Refusal::OutOfMemory),
    }
}

// Adds the command of a line.
fn add_listed<D: SectorDevice>(
    alloc: Global,
    store: &mut Store<D>,
    transaction: Transaction,
    line: ListedCommand<'_>,
) -> Result<Transaction, Refusal>
    requires { IsBegun D.size D.story D.failed D.tells store.old transaction }
    ensures adds { IfOk result (λ next. WhereBegun D.size D.story D.failed D.tells store.old transaction (λ first given.
        AddsLine D.size D.story D.failed D.tells (drafted transaction) line.entry first given next store.new)) }
    ensures ends { IfErr result (λ e. WhereBegun D.size D.story D.failed D.tells store.old transaction (λ first given.
        EndsLine D.size D.story D.failed D.tells (drafted transaction) line.entry first given e store.new)) }
{
    match line {
        ListedCommand::Known(command) => Ok(store.add(alloc, transaction, command)?),
        ListedCommand::Text { name, form, text } => {
            add_text(alloc, store, transaction, name, &form, text)
        }
    }
}

/// Executes several commands as one and writes `ok` once they are done: all of them are done by one commit, or none. A text is read when its turn comes, and
/// freed once its rows are read.
///
/// # Errors
/// `Line` with the number of the first command that is refused, counted from 1, as [`Store::add`] refuses it; `TextLine` with the number of a text that is
/// refused; `Store` if they are refused together: nothing is written, and the tables are unchanged; after `Store(Device)` the store is halted, and all commands
/// or none may be done. `OutOfMemory`. `Io` if the output fails: the commands are done all the same.
pub fn apply_listed<D: SectorDevice, W: Write>(
    alloc: Global,
    store: &mut Store<D>,
    commands: Vec<ListedCommand<'_>>,
    output: &mut W,
) -> Result<(), Refusal>
    // The answer is the store's: `Ok` only if the store has done the commands of all lines, and else its refusal. While a text is refused nothing is changed.
    ensures goes { D.tells ≡ true → (base : Tables) (m : Machine) → StoreFits D.size D.story base m store.old
        → HandsLines D.tells (shown_image (now (D.story (device_of store.old)))) (listed_in store.old) commands.entry.items
        (OnlyReads (D.story (device_of store.old)) (D.story (device_of store.new)))
        (λ given answer. GoesOn D.size D.story D.failed base m (apply_call (all_of (commands_of given))) (ended_list answer) store.old store.new)
        (λ refusal. StoreFits D.size D.story base m store.new) result }
    // On every store and every device: the store was given the commands of the lines, and its answer is reported; or a line could not be read, and nothing is
    // changed or written.
    ensures told { HandsLines D.tells (shown_image (now (D.story (device_of store.old)))) (listed_in store.old) commands.entry.items
        (D.tells ≡ true → OnlyReads (D.story (device_of store.old)) (D.story (device_of store.new)))
        (λ given answer. AnswersList D.size D.story D.failed D.tells given answer store.old store.new)
        (λ refusal. RefusesLines D.tells (shown_image (now (D.story (device_of store.old)))) (listed_in store.old) commands.entry.items refusal
        × OnlyReadsStore D.size D.story D.failed D.tells done store.old store.new × (output.new ≡ output.old)) result }
    ensures written { OnOk result (Appends (W.contents output.old) (W.contents output.new) (codes "ok\n")) }
    ensures silent { IfErr result (λ refusal. refusal ≢ Refusal.Io Side.Output → output.new ≡ output.old) }
{
    let mut transaction = store.begin(alloc)?;
    let mut number = 0;
    for command in commands {
        number += 1;
        match add_listed(alloc, store, transaction, command) {
            Ok(next) => transaction = next,
            Err(refusal) => return Err(at_line(number, refusal)),
        }
    }
    store.commit(alloc, transaction)?;
    write_whole(output, b"ok\n")
}
