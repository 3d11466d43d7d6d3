// Reads a whole input of limited length.
ghost use Rattle.std.specs.Prelude.{◌≡◌, ◌+◌, ◌≤◌, IfSome, IfOk, IfErr, OnOk, IsErrOf, vec_len};
ghost use Rattle.std.specs.Io.KnownBytes.{IsAtEnd};
ghost use Rattle.store.specs.Input.{HasGiven, HasGivenAtMost};
ghost use Rattle.cli_commands.specs.Given.{UnlessTooManyBytes, IsOfInput};

use cli_reports::{Refusal, Side};
use std::alloc::Global;
use std::io::Read;
use store::read_at_most;
use tables::{Limit, MAX_IMPORT_BYTES};

/// The maximum length of an input in bytes: that of the longest stream that can be imported.
pub const LARGEST_INPUT: usize = MAX_IMPORT_BYTES;

/// Reads to the end, but at most one byte more than an input may have.
///
/// # Errors
/// `TooManyBytes` if it is longer than `LARGEST_INPUT`; `Io` of the input if a read fails; `OutOfMemory`.
pub fn read_input<R: Read>(alloc: Global, reader: &mut R) -> Result<Vec<u8>, Refusal>
    ensures all { IfOk result (λ bytes. IfSome (R.remaining reader.old) (λ input. bytes.items ≡ input)) }
    ensures end { OnOk result (IsAtEnd (R.remaining reader.new)) }
    ensures within { IfOk result (λ bytes. vec_len bytes ≤ LARGEST_INPUT) }
    ensures too_many { IsErrOf result Refusal.TooManyBytes
        → HasGiven (R.remaining reader.old) (R.remaining reader.new) (LARGEST_INPUT + 1) }
    // Any other refusal comes before the first byte too many is read.
    ensures few { UnlessTooManyBytes result (HasGivenAtMost (R.remaining reader.old) (R.remaining reader.new) LARGEST_INPUT) }
    ensures told { IfErr result IsOfInput }
{
    match read_at_most(alloc, reader, LARGEST_INPUT) {
        Ok(bytes) => Ok(bytes),
        Err(tables::Refusal::TooMany(Limit::Bytes)) => Err(Refusal::TooManyBytes),
        Err(tables::Refusal::OutOfMemory) => Err(Refusal::OutOfMemory),
        Err(_) => Err(Refusal::Io(Side::Input)),
    }
}
