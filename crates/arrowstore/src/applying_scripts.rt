// Applies a script to the store in a file as one commit.
ghost use Rattle.std.specs.Prelude.{◌≡◌, ◌≢◌, IfOk, IfErr};
ghost use Rattle.arrowstore.specs.OnFiles.{AppliesScript, FailsToOpen, IsOpenedFile, OpensStore};

use crate::named_input::read_named;
use crate::serving::reserve_standard_descriptors;
use cli_commands::apply_listed;
use cli_replay::script_commands;
use cli_reports::{Refusal, Side};
use cli_scripts::script_words;
use sector_dev::{FileDevice, FileError, LockFile, SectorDevice, SystemFile};
use std::fs::OpenFile;
use std::io::{Read, Seek, Write};
use std::rt::Files;
use store::Store;

/// Opens the device in a file, and locks it exclusively.
pub(crate) fn device_to_change<
    F: Read + Write + Seek + OpenFile + LockFile + Drop,
    H: Files<File = F> + AllocGlobal,
>(rt: &H, path: &str) -> Result<FileDevice<SystemFile<F>>, FileError>
    ensures opened { IfOk result (λ device. IsOpenedFile device) }
{
    FileDevice::open(rt, path)
}

/// Opens the store in a file for changes.
pub(crate) fn open_to_change<
    F: Read + Write + Seek + OpenFile + LockFile + Drop,
    H: Files<File = F> + AllocGlobal,
>(rt: &H, path: &str) -> Result<Store<FileDevice<SystemFile<F>>>, Refusal>
    ensures opened { IfOk result (OpensStore ⟦<FileDevice<SystemFile<F>> as SectorDevice>⟧ IsOpenedFile) }
    ensures refused { IfErr result (FailsToOpen ⟦<FileDevice<SystemFile<F>> as SectorDevice>⟧ IsOpenedFile) }
{
    let device = device_to_change(rt, path)?;
    match Store::open(rt.alloc(), device) {
        Ok(store) => Ok(store),
        Err((refusal, _back)) => Err(Refusal::Opening(refusal)),
    }
}

/// Applies the lines of a script as one commit, and writes `ok`. The script and all files that its lines name are read before the store is opened.
pub(crate) fn serve_apply<
    F: Read + Write + Seek + OpenFile + LockFile + Drop,
    H: Files<File = F> + AllocGlobal,
    R: Read,
    W: Write,
>(rt: &H, path: &str, script: &str, input: &mut R, output: &mut W) -> Result<(), Refusal>
    ensures applies { AppliesScript ⟦<FileDevice<SystemFile<F>> as SectorDevice>⟧ IsOpenedFile F.remaining R.remaining W.contents script.now
        input.old input.new output.old output.new result }
    ensures silent { IfErr result (λ refusal. refusal ≢ Refusal.Io Side.Output → output.new ≡ output.old) }
{
    let script = read_named(rt, script, input)?;
    let words = script_words(rt.alloc(), &script)?;
    let commands = script_commands(rt, &script, &words)?;
    let _places = reserve_standard_descriptors(rt)?;
    let mut store = open_to_change(rt, path)?;
    apply_listed(rt.alloc(), &mut store, commands, output)
}
