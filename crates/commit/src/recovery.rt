// Opens a store.
ghost use Rattle.std.specs.Prelude.{◌≡◌, ◌≢◌, ◌∷◌, [], true, false, None, Some, Ok, Err, OnOk, OnErr, IfOk, IfErr};
ghost use Rattle.sector_dev.specs.Disk.{now, flushed, Flushes, Passes};
ghost use Rattle.sector_dev.specs.Time.{Grows, OnlyReads};
ghost use Rattle.commit.specs.Placing.{Uses};
ghost use Rattle.commit.specs.Standing.{is_size, is_on_device, used_runs, runs_fault, rules, Stands};
ghost use Rattle.commit.specs.Opening.{CountsOpen, IsOpening, SyncsOnce, named_shown, standing_shown, TellsCause, TellsStanding};

use crate::entering::occupy_runs;
use crate::opening::read_ruling;
use crate::reading::read_text;
use crate::{Cause, Commit, OpenError, ReadCatalogue};
use sector_dev::{LEAST_SECTORS, MOST_SECTORS, SectorDevice};
use segments::{FreeMap, Run};
use std::alloc::Global;

/// The result of opening a store: the commit that rules, its catalogue, and the runs in use.
#[derive(Drop)]
pub struct Opened<C: ReadCatalogue> {
    pub commit: Commit,
    pub catalogue: C,
    pub map: FreeMap,
}

// Reads the catalogue that a commit names.
fn read_catalogue<C: ReadCatalogue, D: SectorDevice>(
    alloc: Global,
    device: &mut D,
    commit: Commit,
) -> Result<C, OpenError>
    requires { is_size (D.size device.old) ≡ true }
    ensures size { D.size device.new ≡ D.size device.old }
    ensures count { CountsOpen (D.failed device.old) (D.failed device.new) result }
    ensures moments { D.tells ≡ true → OnlyReads (D.story device.old) (D.story device.new) }
    ensures found { IfOk result
        (λ catalogue. D.tells ≡ true → named_shown C.reading (D.size device.old) (D.story device.old) commit ≡ Ok (C.plain_of catalogue)) }
    ensures damaged { IfErr result (λ e. D.tells ≡ true → TellsCause e (named_shown C.reading (D.size device.old) (D.story device.old) commit)) }
    ensures a_store { IfErr result (λ e. e ≢ OpenError.NotAStore) }
    ensures device { OnOk result (commit.device_sectors ≡ D.size device.old) }
    ensures placed { OnOk result (is_on_device (D.size device.old) commit.catalogue.run ≡ true) }
    ensures form { IfOk result (λ catalogue. C.fits_commit commit (C.plain_of catalogue)) }
{
    let text = read_text(alloc, device, commit)?;
    C::read(alloc, device, commit, &text)
}

// Returns the map in which the runs of a catalogue are in use.
fn map_of<C: ReadCatalogue>(
    alloc: Global,
    sectors: u64,
    text: Run,
    catalogue: &C,
) -> Result<FreeMap, OpenError>
    requires { is_on_device sectors text ≡ true }
    ensures size { IfOk result (λ map. map.size ≡ sectors) }
    ensures uses { IfOk result (λ map. Uses map.entries (text ∷ C.reading.runs (C.plain_of catalogue.now)) []) }
    ensures fit { OnOk result (runs_fault sectors text (C.reading.runs (C.plain_of catalogue.now)) ≡ None) }
    ensures damaged { IfErr result
        (λ e. (cause : Cause) → e ≡ OpenError.Damaged cause → runs_fault sectors text (C.reading.runs (C.plain_of catalogue.now)) ≡ Some cause) }
    ensures errors { IfErr result (λ e. (e ≢ OpenError.NotAStore) × (e ≢ OpenError.Device)) }
{
    let runs = catalogue.runs(alloc)?;
    occupy_runs(alloc, sectors, text, &runs)
}

// Reads the store on the device. Changes nothing.
fn read_store<C: ReadCatalogue, D: SectorDevice>(
    alloc: Global,
    device: &mut D,
) -> Result<Opened<C>, OpenError>
    requires { is_size (D.size device.old) ≡ true }
    ensures size { D.size device.new ≡ D.size device.old }
    ensures count { CountsOpen (D.failed device.old) (D.failed device.new) result }
    ensures moments { D.tells ≡ true → OnlyReads (D.story device.old) (D.story device.new) }
    ensures found { IfOk result
        (λ store. D.tells ≡ true → standing_shown C.reading (D.size device.old) (D.story device.old) ≡ rules store.commit (C.plain_of store.catalogue)) }
    ensures refused { IfErr result (λ e. D.tells ≡ true → TellsStanding e (standing_shown C.reading (D.size device.old) (D.story device.old))) }
    ensures device { IfOk result (λ store. store.commit.device_sectors ≡ D.size device.old) }
    ensures placed { IfOk result (λ store. is_on_device (D.size device.old) store.commit.catalogue.run ≡ true) }
    ensures fit { IfOk result (λ store. runs_fault (D.size device.old) store.commit.catalogue.run (C.reading.runs (C.plain_of store.catalogue)) ≡ None) }
    ensures map_size { IfOk result (λ store. store.map.size ≡ D.size device.old) }
    ensures uses { IfOk result (λ store. Uses store.map.entries (used_runs C.reading store.commit (C.plain_of store.catalogue)) []) }
    ensures form { IfOk result (λ store. C.fits_commit store.commit (C.plain_of store.catalogue)) }
{
    let Some(commit) = read_ruling(device)? else {
        return Err(OpenError::NotAStore);
    };
    let catalogue = read_catalogue::<C, D>(alloc, device, commit)?;
    let map = map_of(alloc, device.sectors(), commit.catalogue.run, &catalogue)?;
    Ok(Opened {
        commit,
        catalogue,
        map,
    })
}

// Syncs what was read of a store.
fn make_safe<C: ReadCatalogue, D: SectorDevice>(
    device: &mut D,
    store: Opened<C>,
) -> Result<Opened<C>, OpenError>
    ensures size { D.size device.new ≡ D.size device.old }
    ensures count { CountsOpen (D.failed device.old) (D.failed device.new) result }
    ensures error { IfErr result (λ e. e ≡ OpenError.Device) }
    ensures kept { IfOk result (λ s. s ≡ store) }
    ensures synced { OnOk result (D.tells ≡ true → Flushes (D.story device.old) (D.story device.new)) }
    ensures err { OnErr result (D.tells ≡ true → Passes (D.story device.old) (D.story device.new)) }
{
    device.sync()?;
    Ok(store)
}

/// Opens a store: reads both commit sectors and the catalogue that the ruling commit names, and syncs what was read.
///
/// # Errors
/// `NotAStore` if no commit rules; `Damaged` with the first cause; `Device` if the device failed; `OutOfMemory`. A device whose size no store has is
/// reported before any read. After any error nothing has changed.
pub fn recover<C: ReadCatalogue, D: SectorDevice>(
    alloc: Global,
    device: &mut D,
) -> Result<Opened<C>, OpenError>
    ensures size { D.size device.new ≡ D.size device.old }
    ensures count { CountsOpen (D.failed device.old) (D.failed device.new) result }
    ensures limits { is_size (D.size device.old) ≡ false → (result ≡ Err (OpenError.Damaged Cause.DeviceSize))
        × (D.story device.new ≡ D.story device.old) }
    ensures moments { D.tells ≡ true → Grows (IsOpening (now (D.story device.old))) (D.story device.old) (D.story device.new) }
    ensures found { IfOk result
        (λ store. D.tells ≡ true → standing_shown C.reading (D.size device.old) (D.story device.old) ≡ rules store.commit (C.plain_of store.catalogue)) }
    ensures synced { OnOk result (D.tells ≡ true → now (D.story device.new) ≡ flushed (now (D.story device.old))) }
    // One sync succeeds, after all reads, or none does.
    ensures once { OnOk result (D.tells ≡ true → SyncsOnce (D.story device.old) (D.story device.new)) }
    ensures unsynced { OnErr result (D.tells ≡ true → OnlyReads (D.story device.old) (D.story device.new)) }
    ensures stands { IfOk result
        (λ store. D.tells ≡ true → Stands C.reading (D.size device.old) (now (D.story device.new)) store.commit (C.plain_of store.catalogue)) }
    ensures refused { IfErr result (λ e. D.tells ≡ true → TellsStanding e (standing_shown C.reading (D.size device.old) (D.story device.old))) }
    ensures quiet { IfErr result (λ e. e ≢ OpenError.Device → D.tells ≡ true → now (D.story device.new) ≡ now (D.story device.old)) }
    // These also hold for a device that does not tell its story.
    ensures in_limits { OnOk result (is_size (D.size device.old) ≡ true) }
    ensures device { IfOk result (λ store. store.commit.device_sectors ≡ D.size device.old) }
    ensures placed { IfOk result (λ store. is_on_device (D.size device.old) store.commit.catalogue.run ≡ true) }
    ensures fit { IfOk result (λ store. runs_fault (D.size device.old) store.commit.catalogue.run (C.reading.runs (C.plain_of store.catalogue)) ≡ None) }
    ensures map_size { IfOk result (λ store. store.map.size ≡ D.size device.old) }
    ensures uses { IfOk result (λ store. Uses store.map.entries (used_runs C.reading store.commit (C.plain_of store.catalogue)) []) }
    ensures form { IfOk result (λ store. C.fits_commit store.commit (C.plain_of store.catalogue)) }
{
    let sectors = device.sectors();
    if sectors < LEAST_SECTORS || sectors > MOST_SECTORS {
        return Err(OpenError::Damaged(Cause::DeviceSize));
    }
    let store = read_store::<C, D>(alloc, device)?;
    make_safe(device, store)
}
