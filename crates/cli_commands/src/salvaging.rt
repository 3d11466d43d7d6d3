// Salvages the readable rows of a table as a stream.
ghost use Rattle.std.specs.Prelude.{◌≡◌, IsSome, IfOk, IfErr};
ghost use Rattle.sector_dev.specs.Disk.{now, shown_image};
ghost use Rattle.catalogue.specs.Edits.{entry_of};
ghost use Rattle.store.specs.Fits.{device_of, is_halted, listed_in};
ghost use Rattle.store.specs.Reading.{OnlyReadsStore};
ghost use Rattle.store.specs.Salvaging.{SalvagesAt, RefusesSalvage, plain_left};
ghost use Rattle.cli_commands.specs.Reading.{OfStore, store_ended};
ghost use Rattle.cli_commands.specs.Salvaging.{IsBrokenOff};

use cli_reports::{Refusal, Side};
use sector_dev::SectorDevice;
use std::alloc::Global;
use std::io::Write;
use store::{LeftOut, Store};

/// Writes the stream of all rows of a table that can be read, one segment after another, and returns the segments that are left out. One segment is
/// in memory at a time.
///
/// # Errors
/// `Store`, as [`Store::salvage`] refuses. `Io` if a write fails. After `Io`, and if the device fails or memory is refused, part of the stream may
/// be written.
pub fn salvage_table<D: SectorDevice, W: Write>(
    alloc: Global,
    store: &mut Store<D>,
    name: &str,
    output: &mut W,
) -> Result<Vec<LeftOut>, Refusal>
    // What is written is the stream of the rows that reads show, and nothing else.
    ensures salvaged { IfOk result (λ left. SalvagesAt (is_halted store.old) D.tells (shown_image (now (D.story (device_of store.old))))
        (entry_of (listed_in store.old) name.now) (W.contents output.old) (W.contents output.new) (plain_left left.items)) }
    ensures told { IfErr result (OfStore (RefusesSalvage (is_halted store.old) (entry_of (listed_in store.old) name.now))
        (IsSome (entry_of (listed_in store.old) name.now))) }
    // The store is only read.
    ensures reads { OnlyReadsStore D.size D.story D.failed D.tells (store_ended result) store.old store.new }
    // A refusal writes nothing, unless the salvage was interrupted.
    ensures silent { IfErr result (λ refusal. ¬ IsBrokenOff refusal → output.new ≡ output.old) }
{
    match store.salvage(alloc, name, output) {
        Ok(left_out) => Ok(left_out),
        Err(tables::Refusal::Write) => Err(Refusal::Io(Side::Output)),
        Err(refusal) => Err(Refusal::Store(refusal)),
    }
}
