// The device that a script is played on, and what a crash leaves of it.
ghost use Rattle.std.specs.Prelude.{◌≡◌, ℕ, string_bytes, true, IfOk, IfErr, OnOk};
ghost use Rattle.sector_dev.specs.Disk.{now, shown_image};
ghost use Rattle.sector_dev.specs.Chosen.{IsChosen};
ghost use Rattle.sector_dev.specs.Faults.{no_faults};
ghost use Rattle.sector_dev.specs.View.{size_of, failed_of, faults_of, history_of};
ghost use Rattle.store.specs.Beginning.{IsLeftOf};
ghost use Rattle.store_runs.specs.Calls.{done};
ghost use Rattle.store.specs.Answering.{AnswersCall};
ghost use Rattle.store.specs.Places.{reply_in};
ghost use Rattle.cli_replay.specs.Playing.{AreOfListing, FoundText, IsOfListing};
ghost use Rattle.commit.specs.Standing.{is_size};
ghost use Rattle.cli_replay.specs.Replay.{IsEmptyStore, IsFound, after_opening, FailsToFormat, IsOfPlaying};
ghost use Rattle.store.specs.declared.call.StoreOrDevice.TheVariants.{Shut};
ghost use Rattle.store.specs.declared.call.Call.TheVariants as calls;

use crate::playing::push_refusal;
use cli_commands::lines_of_tables;
use cli_reports::Refusal;
use commit::FormatVersion;
use sector_dev::{CrashChoice, ModelDevice, SectorDevice};
use std::alloc::{AllocError, Global};
use std::io::{Empty, Read};
use store::{Call, Reply, Store, StoreOrDevice, answer, devices_fit, left_devices_fit};

/// Returns a device of `sectors` sectors with an empty store of this version. No call on it is set to fail.
pub(crate) fn empty_store(
    alloc: Global,
    sectors: u64,
    version: FormatVersion,
) -> Result<ModelDevice, Refusal>
    ensures empty { IfOk result (IsEmptyStore ⟦<ModelDevice as SectorDevice>⟧ sectors version) }
    ensures faults { IfOk result (λ device. faults_of device ≡ no_faults) }
    ensures in_limits { OnOk result (is_size sectors ≡ true) }
    ensures told { IfErr result (FailsToFormat sectors) }
{
    let device = ModelDevice::new(alloc, sectors)?;
    devices_fit(&device);
    match Store::format_version(alloc, device, version) {
        Ok(store) => {
            let formatted = store.close();
            let left = formatted.crash(CrashChoice::New)?;
            left_devices_fit(&formatted, &left);
            Ok(left)
        }
        Err((refusal, _)) => Err(Refusal::Opening(refusal)),
    }
}

// Opening the store makes one call on the device, so later calls are numbered from 2.
fn after_opening(k: u64) -> u64
    ensures { result ≡ after_opening k }
{
    if k == 0 {
        return 0;
    }
    k.saturating_add(1)
}

/// Sets the calls that fail and stop the device, counted after the opening; 0 means none.
pub(crate) fn with_faults(device: ModelDevice, fail: u64, stop: u64) -> ModelDevice
    ensures fail { (faults_of result).fail ≡ after_opening fail }
    ensures stop { (faults_of result).stop ≡ after_opening stop }
    ensures others { (faults_of result) ≡ record (faults_of device) { fail = after_opening fail; stop = after_opening stop } }
    ensures size { size_of result ≡ size_of device }
    ensures history { history_of result ≡ history_of device }
    ensures failed { failed_of result ≡ failed_of device }
{
    let mut device = device;
    device.fail_at(after_opening(fail));
    device.stop_at(after_opening(stop));
    device
}

/// Opens the store on a device.
#[tactic(auto, using(crate::proofs::Opening::opening_answers))]
pub(crate) fn open(
    alloc: Global,
    device: ModelDevice,
) -> Result<StoreOrDevice<ModelDevice>, Refusal>
    ensures opened { IfOk result (λ place. AnswersCall ⟦<ModelDevice as SectorDevice>⟧.size ⟦<ModelDevice as SectorDevice>⟧.story
        ⟦<ModelDevice as SectorDevice>⟧.failed ⟦<ModelDevice as SectorDevice>⟧.tells ⟦<Empty as Read>⟧.remaining (Shut device) calls.Open done place) }
    ensures told { IfErr result (λ refusal. (sectors : ℕ) (version : FormatVersion)
        → IsEmptyStore ⟦<ModelDevice as SectorDevice>⟧ sectors version device
        → IsOfPlaying refusal) }
{
    let call: Call = Call::Open;
    let (place, reply) = answer(alloc, StoreOrDevice::Shut(device), call);
    match reply {
        Reply::Done => Ok(place),
        Reply::NotOpened(refusal) => Err(Refusal::Opening(refusal)),
        _ => unreachable!(),
    }
}

// Returns a line for each table that was listed.
fn listed_text(alloc: Global, listing: &Reply) -> Result<String, Refusal>
    requires { IsOfListing (reply_in listing.now) }
    ensures found { IfOk result (λ text. FoundText done (reply_in listing.now) (string_bytes text)) }
    ensures told { IfErr result (λ refusal. refusal ≡ Refusal.OutOfMemory) }
{
    match listing {
        Reply::Tables(tables) => Ok(lines_of_tables(alloc, tables)?),
        // Listing the tables of an open store fails only if memory is refused.
        Reply::Refused(_) => Err(Refusal::OutOfMemory),
        _ => unreachable!(),
    }
}

// Returns what is printed of an opening and of the list of tables after it.
fn found_text(alloc: Global, opened: &Reply, listing: &Reply) -> Result<String, Refusal>
    requires { AreOfListing (reply_in opened.now) (reply_in listing.now) }
    ensures found { IfOk result (λ text. FoundText (reply_in opened.now) (reply_in listing.now) (string_bytes text)) }
    ensures told { IfErr result (λ refusal. refusal ≡ Refusal.OutOfMemory) }
{
    match opened {
        Reply::Done => listed_text(alloc, listing),
        Reply::NotOpened(refusal) => {
            let mut text = String::new(alloc);
            push_refusal(&mut text, Refusal::Opening(*refusal))?;
            Ok(text)
        }
        _ => unreachable!(),
    }
}

/// Opens the store on a device and returns what is printed of it.
pub(crate) fn found_on(alloc: Global, device: ModelDevice) -> Result<String, Refusal>
    ensures found { IfOk result (λ text. IsFound ⟦<ModelDevice as SectorDevice>⟧ ⟦<Empty as Read>⟧.remaining device (string_bytes text)) }
    ensures told { IfErr result (λ refusal. refusal ≡ Refusal.OutOfMemory) }
{
    let open: Call = Call::Open;
    let list: Call = Call::Tables;
    let (place, opened) = answer(alloc, StoreOrDevice::Shut(device), open);
    let (_place, listing) = answer(alloc, place, list);
    found_text(alloc, &opened, &listing)
}

/// Returns what a crash leaves of a device under this choice.
pub(crate) fn left_by_crash(
    device: &ModelDevice,
    choice: CrashChoice,
) -> Result<ModelDevice, AllocError>
    ensures left { IfOk result (λ left. IsLeftOf size_of history_of device.now left) }
    ensures chosen { IfOk result (λ left. IsChosen choice (now (history_of device.now)) (size_of device.now) (shown_image (now (history_of left)))) }
{
    device.crash(choice)
}
