// Salvages the readable rows of a table in the store of a file.
ghost use Rattle.std.specs.Prelude.{◌≡◌, IfErr};
ghost use Rattle.store.specs.Salvaging.{plain_left};
ghost use Rattle.cli_commands.specs.Salvaging.{IsBrokenOff};
ghost use Rattle.arrowstore.specs.OnFiles.{IsOpenedFile, SalvagesFile};

use crate::copying_files::open_to_read;
use crate::serving::reserve_standard_descriptors;
use cli_commands::salvage_table;
use cli_reports::Refusal;
use sector_dev::{FileDevice, LockFile, SectorDevice, SystemFile};
use std::fs::OpenFile;
use std::io::{Read, Seek, Write};
use std::rt::Files;
use store::LeftOut;

/// Writes the stream of all rows of a table that can be read. On success `left_out` holds the segments that can't be read.
pub(crate) fn serve_salvage<
    F: Read + Write + Seek + OpenFile + LockFile + Drop,
    H: Files<File = F> + AllocGlobal,
    W: Write,
>(
    rt: &H,
    path: &str,
    name: &str,
    output: &mut W,
    left_out: &mut Vec<LeftOut>,
) -> Result<(), Refusal>
    ensures salvages { SalvagesFile ⟦<FileDevice<SystemFile<F>> as SectorDevice>⟧ IsOpenedFile W.contents name.now output.old output.new
        (plain_left left_out.old.items) (plain_left left_out.new.items) result }
    ensures silent { IfErr result (λ refusal. ¬ IsBrokenOff refusal → output.new ≡ output.old) }
{
    let _places = reserve_standard_descriptors(rt)?;
    let mut store = open_to_read(rt, path)?;
    match salvage_table(rt.alloc(), &mut store, name, output) {
        Ok(segments) => {
            *left_out = segments;
            Ok(())
        }
        Err(refusal) => Err(refusal),
    }
}
