// Commands that change the tables of an open store.
ghost use Rattle.std.specs.Prelude.{◌≡◌, ◌≢◌, true, false, codes, IfErr, IsErrAnd, MatchResult, OnOk};
ghost use Rattle.std.specs.Io.KnownBytes.{Appends};
ghost use Rattle.catalogue.specs.Edits.{entry_of};
ghost use Rattle.catalogue.specs.Entries.{is_name};
ghost use Rattle.tables.specs.Commands.{create, import_stream, append_stream};
ghost use Rattle.tables.specs.Tables.{Tables};
ghost use Rattle.tables.specs.declared.refusal.Refusal.TheVariants.{BadName, NoTable, OutOfMemory};
ghost use Rattle.tables.specs.View.{command_of};
ghost use Rattle.store.specs.Applying.{GoesOn};
ghost use Rattle.store_runs.specs.Calls.{apply_call};
ghost use Rattle.store_runs.specs.Deciding.{has_entry};
ghost use Rattle.store.specs.Fits.{StoreFits, is_halted, listed_in};
ghost use Rattle.store_runs.specs.Machine.{Machine};
ghost use Rattle.store_runs.specs.Reading.{ended};
ghost use Rattle.cli_commands.specs.Changing.{Answered, AnswersCommand, AnswersInput, HandsSchema, RefusesHanding, RefusesTaken, is_listed};

use cli_reports::{Refusal, Side, write_whole};
use sector_dev::SectorDevice;
use std::alloc::Global;
use std::io::{Read, Write};
use store::Store;
use tables::{Command, NewTable};

/// Executes a command and writes `ok` once it is done.
///
/// # Errors
/// `Store` if the store refuses: nothing is written, and the tables are unchanged; after `Store(Device)` the store is halted, and the command may
/// or may not be done. `Io` if the output fails: the command is done all the same.
pub fn apply_command<D: SectorDevice, W: Write>(
    alloc: Global,
    store: &mut Store<D>,
    command: Command,
    output: &mut W,
) -> Result<(), Refusal>
    // The answer is the store's: `Ok` only if the store has done the command, and else its refusal.
    ensures goes { D.tells ≡ true → (base : Tables) (m : Machine) → StoreFits D.size D.story base m store.old
        → Answered (λ answer. GoesOn D.size D.story D.failed base m (apply_call (command_of command)) (ended answer) store.old store.new) result }
    // On every store and every device: the store was given the command, and its answer is reported.
    ensures told { Answered (λ answer. AnswersCommand D.size D.story D.failed D.tells (command_of command) answer store.old store.new) result }
    ensures written { OnOk result (Appends (W.contents output.old) (W.contents output.new) (codes "ok\n")) }
    ensures silent { IfErr result (λ refusal. refusal ≢ Refusal.Io Side.Output → output.new ≡ output.old) }
{
    store.apply(alloc, command)?;
    write_whole(output, b"ok\n")
}

/// Makes a table without rows, with the schema of the table `like` of the same store, and writes `ok`.
///
/// # Errors
/// `Store`, as [`Store::schema`] refuses for the table `like`, and then as the command to create a table is refused; `OutOfMemory`. Nothing is written
/// then, and the tables are unchanged; after `Store(Device)` the store is halted, and the command may or may not be done. `Io` if the output fails: the
/// command is done all the same.
pub fn create_like<D: SectorDevice, W: Write>(
    alloc: Global,
    store: &mut Store<D>,
    name: &str,
    like: &str,
    output: &mut W,
) -> Result<(), Refusal>
    // The store was given the command that creates a table of this name with the schema that it has for the other one.
    ensures goes { D.tells ≡ true → (base : Tables) (m : Machine) → StoreFits D.size D.story base m store.old
        → HandsSchema (entry_of (listed_in store.old) like.now)
        (λ schema answer. GoesOn D.size D.story D.failed base m (apply_call (create name.now schema)) (ended answer) store.old store.new)
        (λ _. store.new ≡ store.old) result }
    // On any store, its answer is reported; or there was a reason before that, and nothing is changed or written.
    ensures told { HandsSchema (entry_of (listed_in store.old) like.now)
        (λ schema answer. AnswersCommand D.size D.story D.failed D.tells (create name.now schema) answer store.old store.new)
        (λ refusal. RefusesHanding (is_halted store.old) (entry_of (listed_in store.old) like.now) refusal × (store.new ≡ store.old)
        × (output.new ≡ output.old)) result }
    ensures written { OnOk result (Appends (W.contents output.old) (W.contents output.new) (codes "ok\n")) }
    ensures silent { IfErr result (λ refusal. refusal ≢ Refusal.Io Side.Output → output.new ≡ output.old) }
{
    let schema = store.schema(alloc, like)?;
    let name = String::from_str(alloc, name)?;
    apply_command(
        alloc,
        store,
        Command::Create(NewTable { name, schema }),
        output,
    )
}

/// Reads the whole input as a stream, makes its table in place of one of this name, and writes `ok`.
///
/// A halted store, and then a bad name, is reported before anything is read.
///
/// # Errors
/// `Store`, as [`Store::import_from`] refuses: nothing is written, and the tables are unchanged; after `Store(Device)` the store is halted, and the
/// command may or may not be done. `Io` if the output fails: the command is done all the same.
pub fn import_input<D: SectorDevice, R: Read, W: Write>(
    alloc: Global,
    store: &mut Store<D>,
    name: &str,
    input: &mut R,
    output: &mut W,
) -> Result<(), Refusal>
    // The answer is the store's, which was given the whole input; or there was a reason before that, and nothing is changed.
    ensures told { Answered (λ answer. AnswersInput D.size D.story D.failed D.tells R.remaining (import_stream name.now) (is_name name.now) BadName
        input.old input.new answer store.old store.new) result }
    ensures written { OnOk result (Appends (W.contents output.old) (W.contents output.new) (codes "ok\n")) }
    ensures silent { IfErr result (λ refusal. refusal ≢ Refusal.Io Side.Output → output.new ≡ output.old) }
{
    store.import_from(alloc, name, input)?;
    write_whole(output, b"ok\n")
}

// Returns whether the store has a table of this name. A halted store has none.
pub(crate) fn is_listed<D: SectorDevice>(
    alloc: Global,
    store: &Store<D>,
    name: &str,
) -> Result<bool, tables::Refusal>
    ensures { MatchResult result
        (λ listed. listed ≡ is_listed (is_halted store.now) (listed_in store.now) name.now)
        (λ e. (e ≡ OutOfMemory) × (is_listed (is_halted store.now) (listed_in store.now) name.now ≡ true)) }
{
    match store.schema(alloc, name) {
        Ok(_) => Ok(true),
        Err(tables::Refusal::OutOfMemory) => Err(tables::Refusal::OutOfMemory),
        Err(_) => Ok(false),
    }
}

/// Reads the whole input as a stream, makes its table if no table has this name, and writes `ok`.
///
/// A halted store, then a table of this name, and then a bad name is reported before anything is read.
///
/// # Errors
/// `Store` with `NameTaken` if a table has the name, or else as [`import_input`].
pub fn import_new<D: SectorDevice, R: Read, W: Write>(
    alloc: Global,
    store: &mut Store<D>,
    name: &str,
    input: &mut R,
    output: &mut W,
) -> Result<(), Refusal>
    // If a table has the name, that is reported, unless memory is refused: nothing is read or changed.
    ensures taken { is_listed (is_halted store.old) (listed_in store.old) name.now ≡ true
        → IsErrAnd result RefusesTaken × (input.new ≡ input.old) × (store.new ≡ store.old) }
    // If none has it, or the store is halted, the answer is that of an import.
    ensures told { is_listed (is_halted store.old) (listed_in store.old) name.now ≡ false
        → Answered (λ answer. AnswersInput D.size D.story D.failed D.tells R.remaining (import_stream name.now) (is_name name.now) BadName
        input.old input.new answer store.old store.new) result }
    ensures written { OnOk result (Appends (W.contents output.old) (W.contents output.new) (codes "ok\n")) }
    ensures silent { IfErr result (λ refusal. refusal ≢ Refusal.Io Side.Output → output.new ≡ output.old) }
{
    if is_listed(alloc, store, name)? {
        return Err(Refusal::Store(tables::Refusal::NameTaken));
    }
    import_input(alloc, store, name, input, output)
}

/// Reads the whole input as a stream, appends its rows to a table, and writes `ok`.
///
/// A halted store, and then a missing table, is reported before anything is read.
///
/// # Errors
/// `Store`, as [`Store::append_from`] refuses: nothing is written, and the tables are unchanged; after `Store(Device)` the store is halted, and the
/// command may or may not be done. `Io` if the output fails: the command is done all the same.
pub fn append_input<D: SectorDevice, R: Read, W: Write>(
    alloc: Global,
    store: &mut Store<D>,
    name: &str,
    input: &mut R,
    output: &mut W,
) -> Result<(), Refusal>
    ensures told { Answered (λ answer. AnswersInput D.size D.story D.failed D.tells R.remaining (append_stream name.now)
        (has_entry (listed_in store.old) name.now) NoTable input.old input.new answer store.old store.new) result }
    ensures written { OnOk result (Appends (W.contents output.old) (W.contents output.new) (codes "ok\n")) }
    ensures silent { IfErr result (λ refusal. refusal ≢ Refusal.Io Side.Output → output.new ≡ output.old) }
{
    store.append_from(alloc, name, input)?;
    write_whole(output, b"ok\n")
}
