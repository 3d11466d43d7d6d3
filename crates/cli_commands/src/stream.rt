// Reads a stream and writes its canonical form.
ghost use Rattle.std.specs.Prelude.{◌≡◌, ◌≢◌, ◌+◌, ◌≤◌, ◌<◌, length, IfSome, IfOk, IfErr, OnOk, IsErr, IsErrOf};
ghost use Rattle.std.specs.Io.KnownBytes.{Appends, IsAtEnd};
ghost use Rattle.ipc_message.specs.Header.{supported_codes};
ghost use Rattle.ipc_stream.specs.Meaning.{meaning};
ghost use Rattle.values.specs.TableView.{table_of};
ghost use Rattle.store.specs.Input.{HasGiven, HasGivenAtMost};
ghost use Rattle.cli_commands.specs.Given.{UnlessTooManyBytes};
ghost use Rattle.cli_commands.specs.Recode.{IsVerdict, AppendsCanonical, IsTrueFault};

use crate::LARGEST_INPUT;
use crate::input::read_input;
use cli_reports::{Refusal, Side};
use ipc_encode::{WriteError, encode_to};
use ipc_stream::decode;
use std::alloc::Global;
use std::io::{Read, Write};
use values::Table;

/// Reads a stream to its end, and writes the canonical stream of its table and nothing else.
///
/// # Errors
/// `TooManyBytes` if the input has more than `LARGEST_INPUT` bytes, and `Fault` if the stream has no meaning: nothing is written. `OutOfMemory`
/// only if memory was refused, before anything is written and before the first byte too many is read. `Io` of the input or of the output if that fails:
/// some bytes may be written, but none for an input without a meaning.
pub fn recode<R: Read, W: Write>(
    alloc: Global,
    reader: &mut R,
    writer: &mut W,
) -> Result<(), Refusal>
    // What is written is the canonical stream of what the input means, and nothing else.
    ensures written { OnOk result (IfSome (R.remaining reader.old) (AppendsCanonical (W.contents writer.old) (W.contents writer.new))) }
    // A reported fault is the fault of the input, and every other refusal is about the input, the output or memory.
    ensures fault { IfErr result (λ refusal. IsTrueFault refusal (R.remaining reader.old)) }
    // A verdict comes only after the input was read to its end and is not too long.
    ensures end { IsVerdict result → IsAtEnd (R.remaining reader.new) }
    ensures within { IsVerdict result → IfSome (R.remaining reader.old) (λ input. length input ≤ LARGEST_INPUT) }
    // Too many bytes: one more than the maximum was read.
    ensures too_many { IsErrOf result Refusal.TooManyBytes
        → HasGiven (R.remaining reader.old) (R.remaining reader.new) (LARGEST_INPUT + 1) }
    // Any other answer comes before the first byte too many is read.
    ensures few { UnlessTooManyBytes result (HasGivenAtMost (R.remaining reader.old) (R.remaining reader.new) LARGEST_INPUT) }
    // For an input that has no meaning or too many bytes nothing is written, whatever fails.
    ensures meaningless { IfSome (R.remaining reader.old) (λ input. IsErr (meaning supported_codes input) → writer.new ≡ writer.old) }
    ensures too_long { IfSome (R.remaining reader.old) (λ input. LARGEST_INPUT < length input → writer.new ≡ writer.old) }
    // A refusal writes nothing, unless a write failed.
    ensures silent { IfErr result (λ refusal. refusal ≢ Refusal.Io Side.Output → writer.new ≡ writer.old) }
{
    let table = read_table(alloc, reader)?;
    match encode_to(alloc, &table, writer) {
        Ok(()) => Ok(()),
        Err(WriteError::Io) => Err(Refusal::Io(Side::Output)),
        Err(WriteError::OutOfMemory) => Err(Refusal::OutOfMemory),
    }
}

// Reads the whole input and returns the table that it means.
fn read_table<R: Read>(alloc: Global, reader: &mut R) -> Result<Table, Refusal>
    ensures meaning { IfOk result (λ table. IfSome (R.remaining reader.old) (λ input. meaning supported_codes input ≡ Ok (table_of table))) }
    ensures fault { IfErr result (λ refusal. IsTrueFault refusal (R.remaining reader.old)) }
    ensures end { IsVerdict result → IsAtEnd (R.remaining reader.new) }
    ensures within { IsVerdict result → IfSome (R.remaining reader.old) (λ input. length input ≤ LARGEST_INPUT) }
    ensures too_many { IsErrOf result Refusal.TooManyBytes
        → HasGiven (R.remaining reader.old) (R.remaining reader.new) (LARGEST_INPUT + 1) }
    ensures few { UnlessTooManyBytes result (HasGivenAtMost (R.remaining reader.old) (R.remaining reader.new) LARGEST_INPUT) }
{
    let input = read_input(alloc, reader)?;
    Ok(decode(alloc, input)?)
}
