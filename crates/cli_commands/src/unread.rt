// What refuses a command that reads the input before it is read.
ghost use Rattle.std.specs.Prelude.{◌≡◌, false, IfErr, IfOk, OnOk};
ghost use Rattle.store_runs.specs.Deciding.{has_entry};
ghost use Rattle.store.specs.Fits.{is_halted, listed_in};
ghost use Rattle.cli_commands.specs.Unread.{PassesAppending, PassesImport, RefusesAppending, RefusesImport, RefusesLooking};

use catalogue::is_name;
use cli_reports::Refusal;
use sector_dev::SectorDevice;
use std::alloc::Global;
use store::Store;

// Returns whether the store has a table of this name.
fn has_table<D: SectorDevice>(alloc: Global, store: &Store<D>, name: &str) -> Result<bool, Refusal>
    ensures looked { IfOk result (λ found. (is_halted store.now ≡ false) × (found ≡ has_entry (listed_in store.now) name.now)) }
    ensures refused { IfErr result (RefusesLooking (is_halted store.now)) }
{
    match store.schema(alloc, name) {
        Ok(_) => Ok(true),
        Err(tables::Refusal::NoTable) => Ok(false),
        Err(refusal) => Err(Refusal::Store(refusal)),
    }
}

/// Refuses an import whose input is not to be read.
///
/// # Errors
/// `Store` with `Halted`; with `NameTaken` if the table must be new and one has the name; with `BadName` if no table may have it; or `OutOfMemory`.
pub fn test_import<D: SectorDevice>(
    alloc: Global,
    store: &Store<D>,
    name: &str,
    is_new: bool,
) -> Result<(), Refusal>
    ensures passed { OnOk result (PassesImport is_new (is_halted store.now) (listed_in store.now) name.now) }
    ensures refused { IfErr result (RefusesImport is_new (is_halted store.now) (listed_in store.now) name.now) }
{
    let found = has_table(alloc, store, name)?;
    if is_new && found {
        return Err(Refusal::Store(tables::Refusal::NameTaken));
    }
    if !is_name(name) {
        return Err(Refusal::Store(tables::Refusal::BadName));
    }
    Ok(())
}

/// Refuses an append whose input is not to be read.
///
/// # Errors
/// `Store` with `Halted`; with `NoTable` if no table has the name; or `OutOfMemory`.
pub fn test_append<D: SectorDevice>(
    alloc: Global,
    store: &Store<D>,
    name: &str,
) -> Result<(), Refusal>
    ensures passed { OnOk result (PassesAppending (is_halted store.now) (listed_in store.now) name.now) }
    ensures refused { IfErr result (RefusesAppending (is_halted store.now) (listed_in store.now) name.now) }
{
    if !has_table(alloc, store, name)? {
        return Err(Refusal::Store(tables::Refusal::NoTable));
    }
    Ok(())
}
