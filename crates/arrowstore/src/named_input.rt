// Reads a file that the command line names, or the input for `-`.
ghost use Rattle.std.specs.Prelude.{◌≡◌, false, IfOk, IfErr};
ghost use Rattle.arrowstore.specs.OnFiles.{IsNamedInput, RefusesReading, is_input};

use cli_commands::read_input;
use cli_replay::read_whole_file;
use cli_reports::Refusal;
use std::alloc::Global;
use std::fs::OpenFile;
use std::io::Read;
use std::rt::Files;

fn is_input(name: &str) -> bool
    ensures { result ≡ is_input name.now }
{
    name == "-"
}

/// Reads the whole file at a path, or the whole input for `-`.
///
/// # Errors
/// `TooManyBytes` if it is too long; `Io` of the file or the input if a read fails; `OutOfMemory`.
pub(crate) fn read_named<F: Read + OpenFile + Drop, H: Files<File = F> + AllocGlobal, R: Read>(
    rt: &H,
    name: &str,
    input: &mut R,
) -> Result<Vec<u8>, Refusal>
    ensures read { IfOk result (λ bytes. IsNamedInput F.remaining (R.remaining input.old) (is_input name.now) bytes.items) }
    ensures told { IfErr result (RefusesReading (R.remaining input.old) (R.remaining input.new) (is_input name.now)) }
    ensures unread { is_input name.now ≡ false → input.new ≡ input.old }
{
    if is_input(name) {
        read_input(rt.alloc(), input)
    } else {
        read_whole_file(rt, name)
    }
}
