// Imports and appends a stream that must have its end.
ghost use Rattle.std.specs.Prelude.{◌≡◌, ◌≢◌, ◌↔◌, ◌≤◌, ◌⊎◌, true, false, codes, length, Ok};
ghost use Rattle.std.specs.Prelude.{IfErr, IfOk, IfSome, IsErrAnd, IsNone, IsTrue, OnOk};
ghost use Rattle.std.specs.Io.KnownBytes.{Appends};
ghost use Rattle.ipc_message.specs.Framing.{Envelope, message, next_message, taken};
ghost use Rattle.catalogue.specs.Entries.{is_name};
ghost use Rattle.tables.specs.Commands.{import_stream, append_stream};
ghost use Rattle.tables.specs.Tables.{Tables};
ghost use Rattle.tables.specs.declared.refusal.Refusal.TheVariants.{BadName, NoTable};
ghost use Rattle.store.specs.Applying.{GoesOn};
ghost use Rattle.store_runs.specs.Calls.{apply_call};
ghost use Rattle.store_runs.specs.Deciding.{has_entry};
ghost use Rattle.store.specs.Fits.{StoreFits, is_halted, listed_in};
ghost use Rattle.store.specs.Input.{HasGivenAtMost};
ghost use Rattle.store_runs.specs.Machine.{Machine};
ghost use Rattle.store_runs.specs.Reading.{ended};
ghost use Rattle.cli_commands.specs.Changing.{AnswersCommand, RefusesTaken};
ghost use Rattle.cli_commands.specs.Complete.{HandsWhole, LacksEnd, RefusesStream, RefusesWhole};
ghost use Rattle.cli_commands.specs.Given.{IsWholeInput};
ghost use Rattle.cli_commands.specs.Unread.{RefusesUnread, is_taken};

use crate::apply_command;
use crate::input::{LARGEST_INPUT, read_input};
use crate::unread::{test_append, test_import};
use cli_reports::{Refusal, Side};
use ipc_message::{NextMessage, next_message_is_framed, read_message};
use sector_dev::SectorDevice;
use std::alloc::Global;
use std::io::{Read, Write};
use store::Store;
use tables::Command;

// Returns the number of bytes of the message at the start, or `None` if there is no whole message, or the end of stream.
fn message_length(bytes: &[u8]) -> Option<usize>
    ensures found { IfSome result (λ n. (m : Envelope) × (next_message bytes.now ≡ Ok (message m)) × (n ≡ taken (message m))) }
    ensures within { IfSome result (λ n. n ≤ length bytes.now) }
    ensures none { IsNone result → (m : Envelope) → next_message bytes.now ≢ Ok (message m) }
{
    match read_message(bytes) {
        Ok((NextMessage::Message(_), taken)) => Some(taken),
        Ok((NextMessage::EndOfStream, _)) => None,
        Err(_) => None,
    }
}

/// Returns whether the bytes are whole messages, one after another, and nothing is after them: a stream without its end.
pub fn lacks_end(bytes: &[u8]) -> bool
    ensures { IsTrue result ↔ LacksEnd bytes.now }
{
    next_message_is_framed();
    let mut start = 0;
    while start < bytes.len() {
        let Some(taken) = message_length(&bytes[start..]) else {
            return false;
        };
        start += taken;
    }
    true
}

// Reads the whole input as a stream, and refuses one without its end.
fn read_stream<R: Read>(alloc: Global, input: &mut R) -> Result<Vec<u8>, Refusal>
    ensures whole { IfOk result (λ bytes. IsWholeInput (R.remaining input.old) bytes.items) }
    ensures ended { IfOk result (λ bytes. ¬ LacksEnd bytes.items) }
    ensures few { OnOk result (HasGivenAtMost (R.remaining input.old) (R.remaining input.new) LARGEST_INPUT) }
    ensures refused { IfErr result (RefusesStream (R.remaining input.old) (R.remaining input.new)) }
{
    let bytes = read_input(alloc, input)?;
    if lacks_end(&bytes) {
        return Err(Refusal::NoEnd);
    }
    Ok(bytes)
}

/// Reads the whole input as a stream that must have its end, makes its table in place of one of this name, and writes `ok`.
///
/// A halted store, then a table of this name if the new one must be new, and then a bad name is reported before anything is read.
///
/// # Errors
/// `Store` with `Halted`, `NameTaken`, `BadName` or `OutOfMemory` before anything is read; `NoEnd` if the input is whole messages without the end of stream after them;
/// `TooManyBytes` if it is longer than `LARGEST_INPUT`; `OutOfMemory`; `Store` if the store refuses: nothing is written, and the tables are unchanged;
/// after `Store(Device)` the store is halted, and the command may or may not be done. `Io` of the input if that can't be read, and then nothing is
/// changed, or of the output if that fails: the command is done all the same.
pub fn import_complete<D: SectorDevice, R: Read, W: Write>(
    alloc: Global,
    store: &mut Store<D>,
    name: &str,
    is_new: bool,
    input: &mut R,
    output: &mut W,
) -> Result<(), Refusal>
    // If a table has the name and must not, that is reported, unless memory is refused: nothing is read or changed.
    ensures taken { is_taken is_new (is_halted store.old) (listed_in store.old) name.now ≡ true
        → IsErrAnd result RefusesTaken × (input.new ≡ input.old) × (store.new ≡ store.old) }
    // Or else a halted store and a bad name are reported so.
    ensures unread { is_taken is_new (is_halted store.old) (listed_in store.old) name.now ≡ false
        → (is_halted store.old ≡ true) ⊎ (is_name name.now ≡ false)
        → IsErrAnd result (RefusesUnread (is_halted store.old) (is_name name.now) BadName) × (input.new ≡ input.old) × (store.new ≡ store.old) }
    // Or else the store was given the command that imports the whole input.
    ensures goes { is_taken is_new (is_halted store.old) (listed_in store.old) name.now ≡ false
        → D.tells ≡ true → (base : Tables) (m : Machine) → StoreFits D.size D.story base m store.old → HandsWhole (R.remaining input.old)
        (λ bytes answer. GoesOn D.size D.story D.failed base m (apply_call (import_stream name.now bytes)) (ended answer) store.old store.new)
        (λ _. store.new ≡ store.old) result }
    // On any store, its answer is reported; or there was a reason before that, and nothing is changed or written.
    ensures told { is_taken is_new (is_halted store.old) (listed_in store.old) name.now ≡ false → HandsWhole (R.remaining input.old)
        (λ bytes answer. AnswersCommand D.size D.story D.failed D.tells (import_stream name.now bytes) answer store.old store.new)
        (λ refusal. RefusesWhole R.remaining (is_halted store.old) (is_name name.now) BadName input.old input.new refusal
        × (store.new ≡ store.old) × (output.new ≡ output.old)) result }
    ensures written { OnOk result (Appends (W.contents output.old) (W.contents output.new) (codes "ok\n")) }
    ensures silent { IfErr result (λ refusal. refusal ≢ Refusal.Io Side.Output → output.new ≡ output.old) }
{
    test_import(alloc, store, name, is_new)?;
    let bytes = read_stream(alloc, input)?;
    let name = String::from_str(alloc, name)?;
    apply_command(alloc, store, Command::ImportStream { name, bytes }, output)
}

/// Reads the whole input as a stream that must have its end, appends its rows to a table, and writes `ok`.
///
/// A halted store, and then a missing table, is reported before anything is read.
///
/// # Errors
/// `Store` with `Halted`, `NoTable` or `OutOfMemory` before anything is read; then those of [`import_complete`].
pub fn append_complete<D: SectorDevice, R: Read, W: Write>(
    alloc: Global,
    store: &mut Store<D>,
    name: &str,
    input: &mut R,
    output: &mut W,
) -> Result<(), Refusal>
    // A halted store and a missing table are reported, unless memory is refused: nothing is read or changed.
    ensures unread { (is_halted store.old ≡ true) ⊎ (has_entry (listed_in store.old) name.now ≡ false)
        → IsErrAnd result (RefusesUnread (is_halted store.old) (has_entry (listed_in store.old) name.now) NoTable)
        × (input.new ≡ input.old) × (store.new ≡ store.old) }
    // Or else the store was given the command that appends the rows of the whole input.
    ensures goes { D.tells ≡ true → (base : Tables) (m : Machine) → StoreFits D.size D.story base m store.old
        → HandsWhole (R.remaining input.old)
        (λ bytes answer. GoesOn D.size D.story D.failed base m (apply_call (append_stream name.now bytes)) (ended answer) store.old store.new)
        (λ _. store.new ≡ store.old) result }
    // On any store, its answer is reported; or there was a reason before that, and nothing is changed or written.
    ensures told { HandsWhole (R.remaining input.old)
        (λ bytes answer. AnswersCommand D.size D.story D.failed D.tells (append_stream name.now bytes) answer store.old store.new)
        (λ refusal. RefusesWhole R.remaining (is_halted store.old) (has_entry (listed_in store.old) name.now) NoTable input.old input.new refusal
        × (store.new ≡ store.old) × (output.new ≡ output.old)) result }
    ensures written { OnOk result (Appends (W.contents output.old) (W.contents output.new) (codes "ok\n")) }
    ensures silent { IfErr result (λ refusal. refusal ≢ Refusal.Io Side.Output → output.new ≡ output.old) }
{
    test_append(alloc, store, name)?;
    let bytes = read_stream(alloc, input)?;
    let name = String::from_str(alloc, name)?;
    apply_command(alloc, store, Command::AppendStream { name, bytes }, output)
}
