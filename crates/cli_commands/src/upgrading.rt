// Gives the segments of an open store digests.
ghost use Rattle.std.specs.Prelude.{◌≡◌, ◌≢◌, true, codes, IfErr, OnOk};
ghost use Rattle.std.specs.Io.KnownBytes.{Appends};
ghost use Rattle.tables.specs.Tables.{Tables};
ghost use Rattle.store.specs.Applying.{GoesOn};
ghost use Rattle.store_runs.specs.Calls.{upgrade_call};
ghost use Rattle.store.specs.Fits.{StoreFits};
ghost use Rattle.store_runs.specs.Machine.{Machine};
ghost use Rattle.store.specs.Upgrading.{upgrade_ended};
ghost use Rattle.cli_commands.specs.Upgrading.{AnsweredUpgrade, AnswersUpgrade};

use cli_reports::{Refusal, Side, write_whole};
use sector_dev::SectorDevice;
use std::alloc::Global;
use std::io::Write;
use store::Store;

/// Gives each segment of a store of version 1 the digest of its bytes, and writes `ok` once it is done, also if the store had digests before.
///
/// The tables are the same at every moment.
///
/// # Errors
/// `Store` if the store refuses: nothing is written, and the store is unchanged; after `Store(Device)` it is halted. `Io` if the output fails: the
/// upgrade is done all the same.
pub fn upgrade_store<D: SectorDevice, W: Write>(
    alloc: Global,
    store: &mut Store<D>,
    output: &mut W,
) -> Result<(), Refusal>
    // The answer is the store's: `Ok` only if it has digests, and else its refusal.
    ensures goes { D.tells ≡ true → (base : Tables) (m : Machine) → StoreFits D.size D.story base m store.old
        → AnsweredUpgrade (λ answer. GoesOn D.size D.story D.failed base m upgrade_call (upgrade_ended answer) store.old store.new) result }
    // On every store and every device: the store was asked to upgrade, and its answer is reported.
    ensures told { AnsweredUpgrade (λ answer. AnswersUpgrade D.size D.story D.failed D.tells answer store.old store.new) result }
    ensures written { OnOk result (Appends (W.contents output.old) (W.contents output.new) (codes "ok\n")) }
    ensures silent { IfErr result (λ refusal. refusal ≢ Refusal.Io Side.Output → output.new ≡ output.old) }
{
    store.upgrade(alloc)?;
    write_whole(output, b"ok\n")
}
