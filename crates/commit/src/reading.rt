// Reads the text of a catalogue.
ghost use Rattle.std.specs.Prelude.{◌≡◌, ◌≢◌, ◌≤◌, ◌+◌, ◌*◌, ◌<◌, ◌^◌, true, false, Ok, Err, OnOk, IfOk, IfErr, vec_len};
ghost use Rattle.sector_dev.specs.Time.{OnlyReads};
ghost use Rattle.sector_dev.specs.declared.file.TheConstants.{MOST_SECTORS};
ghost use Rattle.commit.specs.Standing.{is_extent};
ghost use Rattle.commit.specs.Opening.{CountsOpen, extent_shown, text_shown, TellsCause};

use crate::{Cause, Commit};
use sector_dev::{DevError, SectorDevice};
use segments::{Extent, ReadError, read_run};
use std::alloc::{AllocError, Global};
use thiserror::Error;

/// Why a store was not opened.
#[derive(Clone, Copy, Debug, PartialEq, Eq, Error)]
pub enum OpenError {
    /// C1: no commit rules.
    #[error("no store")]
    NotAStore,
    /// C3: the store is damaged.
    #[error("a damaged store")]
    Damaged(Cause),
    /// C4: the device failed.
    #[error("the device failed")]
    Device,
    #[error("out of memory")]
    OutOfMemory,
}

// Returns whether the extent lies on the device, has at least `least` bytes, and exactly the sectors that they need.
fn is_extent(size: u64, least: u64, extent: Extent) -> bool
    ensures { result ≡ is_extent size least extent }
{
    extent.bytes >= least && extent.fills_its_run() && extent.run.is_on_device(size)
}

/// Reads the bytes of an extent, which must be at least `least`. Changes nothing.
///
/// # Errors
/// `Damaged` if the extent can't be that of a text, or if a sector of it can't be read; `Device`; `OutOfMemory`.
pub fn read_extent<D: SectorDevice>(
    alloc: Global,
    device: &mut D,
    least: u64,
    extent: Extent,
) -> Result<Vec<u8>, OpenError>
    requires { D.size device.old ≤ MOST_SECTORS }
    ensures size { D.size device.new ≡ D.size device.old }
    ensures count { CountsOpen (D.failed device.old) (D.failed device.new) result }
    ensures moments { D.tells ≡ true → OnlyReads (D.story device.old) (D.story device.new) }
    ensures found { IfOk result (λ bytes. D.tells ≡ true → extent_shown (D.size device.old) (D.story device.old) least extent ≡ Ok bytes.items) }
    ensures damaged { IfErr result (λ e. D.tells ≡ true → TellsCause e (extent_shown (D.size device.old) (D.story device.old) least extent)) }
    ensures a_store { IfErr result (λ e. e ≢ OpenError.NotAStore) }
    // These also hold for a device that does not tell its story.
    ensures extent { OnOk result (is_extent (D.size device.old) least extent ≡ true) }
    ensures length { IfOk result (λ bytes. vec_len bytes ≡ extent.bytes) }
{
    if !is_extent(device.sectors(), least, extent) {
        return Err(OpenError::Damaged(Cause::CatalogueRange));
    }
    match read_run(alloc, device, extent.run.start, extent.bytes as usize) {
        Ok(bytes) => Ok(bytes),
        Err(ReadError::Unreadable) => Err(OpenError::Damaged(Cause::CatalogueUnreadable)),
        Err(ReadError::Failed) => Err(OpenError::Device),
        Err(ReadError::OutOfMemory) => Err(OpenError::OutOfMemory),
    }
}

/// Reads the text of the catalogue that a commit names. Changes nothing.
///
/// # Errors
/// `Damaged` if the commit is that of another device, its run can't be that of a catalogue, or a sector of it can't be read; `Device`; `OutOfMemory`.
pub fn read_text<D: SectorDevice>(
    alloc: Global,
    device: &mut D,
    commit: Commit,
) -> Result<Vec<u8>, OpenError>
    requires { D.size device.old ≤ MOST_SECTORS }
    ensures size { D.size device.new ≡ D.size device.old }
    ensures count { CountsOpen (D.failed device.old) (D.failed device.new) result }
    ensures moments { D.tells ≡ true → OnlyReads (D.story device.old) (D.story device.new) }
    ensures found { IfOk result (λ text. D.tells ≡ true → text_shown (D.size device.old) (D.story device.old) commit ≡ Ok text.items) }
    ensures damaged { IfErr result (λ e. D.tells ≡ true → TellsCause e (text_shown (D.size device.old) (D.story device.old) commit)) }
    ensures a_store { IfErr result (λ e. e ≢ OpenError.NotAStore) }
    // These also hold for a device that does not tell its story.
    ensures device { OnOk result (commit.device_sectors ≡ D.size device.old) }
    ensures extent { OnOk result (is_extent (D.size device.old) 4 commit.catalogue ≡ true) }
    ensures length { IfOk result (λ text. vec_len text ≡ commit.catalogue.bytes) }
{
    if commit.device_sectors != device.sectors() {
        return Err(OpenError::Damaged(Cause::DeviceSize));
    }
    match read_extent(alloc, device, 4, commit.catalogue) {
        Ok(text) => Ok(text),
        Err(error) => Err(error),
    }
}

impl From<DevError> for OpenError {
    ghost use Rattle.std.specs.Prelude.{◌≡◌};
    ghost use Rattle.commit.specs.declared.reading.OpenError.TheVariants.{Device};

    ghost from_gives = { λ _ e. e ≡ Device };

    fn from(_: DevError) -> Self {
        OpenError::Device
    }
}

impl From<AllocError> for OpenError {
    ghost use Rattle.std.specs.Prelude.{◌≡◌};
    ghost use Rattle.commit.specs.declared.reading.OpenError.TheVariants.{OutOfMemory};

    ghost from_gives = { λ _ e. e ≡ OutOfMemory };

    fn from(_: AllocError) -> Self {
        OpenError::OutOfMemory
    }
}
