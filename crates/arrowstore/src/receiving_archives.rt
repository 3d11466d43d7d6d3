// Receives an archive into the store in a file.
ghost use Rattle.std.specs.Prelude.{◌≡◌, ◌≢◌, IfOk, IfErr};
ghost use Rattle.cli_commands.specs.Given.{IsWholeInput, RefusesInput};
ghost use Rattle.arrowstore.specs.OnFiles.{IsOpenedFile, ReceivesArchive};

use crate::applying_scripts::open_to_change;
use crate::serving::reserve_standard_descriptors;
use cli_commands::{archive_in, read_input, receive_archive};
use cli_reports::{Refusal, Side};
use sector_dev::{FileDevice, LockFile, SectorDevice, SystemFile};
use std::alloc::Global;
use std::fs::OpenFile;
use std::io::{Read, Seek, Write};
use std::rt::Files;

/// Reads the whole input.
pub(crate) fn whole_input<R: Read>(alloc: Global, input: &mut R) -> Result<Vec<u8>, Refusal>
    ensures read { IfOk result (λ bytes. IsWholeInput (R.remaining input.old) bytes.items) }
    ensures told { IfErr result (RefusesInput (R.remaining input.old) (R.remaining input.new)) }
{
    read_input(alloc, input)
}

/// Makes the tables of the archive that the whole input is those of the store, as one commit, and writes `ok`. The archive is read before the store is opened.
pub(crate) fn serve_receive<
    F: Read + Write + Seek + OpenFile + LockFile + Drop,
    H: Files<File = F> + AllocGlobal,
    R: Read,
    W: Write,
>(rt: &H, path: &str, delete: bool, input: &mut R, output: &mut W) -> Result<(), Refusal>
    ensures receives { ReceivesArchive ⟦<FileDevice<SystemFile<F>> as SectorDevice>⟧ IsOpenedFile R.remaining W.contents delete input.old input.new
        output.old output.new result }
    ensures silent { IfErr result (λ refusal. refusal ≢ Refusal.Io Side.Output → output.new ≡ output.old) }
{
    let bytes = whole_input(rt.alloc(), input)?;
    let archive = archive_in(rt.alloc(), &bytes)?;
    let _places = reserve_standard_descriptors(rt)?;
    let mut store = open_to_change(rt, path)?;
    receive_archive(rt.alloc(), &mut store, &archive, delete, output)
}
