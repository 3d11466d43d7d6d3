// Formats a device as an empty store.
ghost use Rattle.std.specs.Prelude.{◌≡◌, ◌≢◌, ◌≤◌, ◌+◌, ◌∷◌, [], true, false, None, Err, OnOk, OnErr, IfOk, IfErr, IsErrOf};
ghost use Rattle.sector_dev.specs.Disk.{now, shown_image, Counts};
ghost use Rattle.sector_dev.specs.Time.{Grows, OnlyReads};
ghost use Rattle.commit.specs.Ruling.{ruling};
ghost use Rattle.commit.specs.Agreeing.{commits_agree};
ghost use Rattle.commit.specs.Standing.{is_size};
ghost use Rattle.commit.specs.Formatting.{HasNoCommit, IsFormatting, IsFormatted, IsMadeEmpty, CountsFormat, first_commit};
ghost use Rattle.commit.specs.Placing.{Uses};
ghost use Rattle.commit.specs.InOrder.{AreDone, OneFails, clearing_calls, beginning_calls, formatting_calls, FormatsInOrder, FailsInOrder};
ghost use Rattle.commit.specs.inner.Prepared.{IsPrepared, HasZeros, HasFirst, Begins, EndsBegun, Clears, EndsCleared};

use crate::opening::read_ruling;
use crate::sector::commit_sector;
use crate::{CatalogueKind, Cause, Commit, FormatVersion};
use sector_dev::{DevError, LEAST_SECTORS, MOST_SECTORS, SECTOR_BYTES, SectorDevice};
use segments::{Extent, FreeMap, Run};
use std::alloc::Global;
use thiserror::Error;

/// Why a device was not formatted.
#[derive(Clone, Copy, Debug, PartialEq, Eq, Error)]
pub enum FormatError {
    /// C2: a commit already rules.
    #[error("a store already")]
    AlreadyAStore,
    /// C3: no store has a device of this size.
    #[error("a device of a size that no store has")]
    Damaged(Cause),
    /// C4: the device failed.
    #[error("the device failed")]
    Device,
    #[error("out of memory")]
    OutOfMemory,
}

const FIRST_RUN: Run = Run { start: 2, count: 1 };

fn first_commit(sectors: u64, version: FormatVersion) -> Commit
    ensures { result ≡ first_commit sectors version }
{
    Commit {
        epoch: 1,
        catalogue: Extent {
            run: FIRST_RUN,
            bytes: 4,
        },
        device_sectors: sectors,
        version,
        kind: CatalogueKind::Whole,
    }
}

// Writes zeros over the first commit sector and over the sector of the empty catalogue, whose text is zeros, and syncs.
fn prepare<D: SectorDevice>(device: &mut D) -> Result<(), DevError>
    requires room { LEAST_SECTORS ≤ D.size device.old }
    ensures size { D.size device.new ≡ D.size device.old }
    ensures count { Counts (D.failed device.old) (D.failed device.new) result }
    ensures error { IfErr result (λ e. e ≡ DevError.Failed) }
    ensures moments { D.tells ≡ true → HasNoCommit (now (D.story device.old)) → Grows HasNoCommit (D.story device.old) (D.story device.new) }
    ensures prepared { OnOk result (D.tells ≡ true → HasNoCommit (now (D.story device.old)) → IsPrepared (now (D.story device.new))) }
    ensures begun { OnOk result (D.tells ≡ true → (now (D.story device.old)).writes ≤ (now (D.story device.new)).writes) }
    ensures zeros { OnOk result (D.tells ≡ true → HasZeros (shown_image (now (D.story device.old))) (shown_image (now (D.story device.new)))) }
    ensures order { OnOk result (D.tells ≡ true → AreDone clearing_calls (D.story device.old) (D.story device.new)) }
    ensures cut_short { OnErr result (D.tells ≡ true → OneFails clearing_calls (D.story device.old) (D.story device.new)) }
{
    let zeros = [0u8; SECTOR_BYTES];
    device.write(0, &zeros)?;
    device.write(2, &zeros)?;
    device.sync()?;
    Ok(())
}

// Writes the first commit and syncs.
fn begin<D: SectorDevice>(device: &mut D, version: FormatVersion) -> Result<(), DevError>
    requires room { LEAST_SECTORS ≤ D.size device.old }
    requires most { D.size device.old ≤ MOST_SECTORS }
    ensures size { D.size device.new ≡ D.size device.old }
    ensures count { Counts (D.failed device.old) (D.failed device.new) result }
    ensures error { IfErr result (λ e. e ≡ DevError.Failed) }
    ensures moments { D.tells ≡ true → Begins (D.size device.old) version (D.story device.old) (D.story device.new) }
    ensures formatted { OnOk result (D.tells ≡ true → EndsBegun (D.size device.old) version (D.story device.old) (D.story device.new)) }
    ensures first { OnOk result
        (D.tells ≡ true → HasFirst (D.size device.old) version (shown_image (now (D.story device.old))) (shown_image (now (D.story device.new)))) }
    ensures order { OnOk result (D.tells ≡ true → AreDone (beginning_calls (D.size device.old) version) (D.story device.old) (D.story device.new)) }
    ensures cut_short { OnErr result (D.tells ≡ true → OneFails (beginning_calls (D.size device.old) version) (D.story device.old) (D.story device.new)) }
{
    let first = first_commit(device.sectors(), version);
    let sector = commit_sector(first);
    device.write(1, &sector)?;
    device.sync()?;
    Ok(())
}

// Syncs what reads return, so that no crash brings back an older commit, and then writes the empty store.
fn clear_and_begin<D: SectorDevice>(device: &mut D, version: FormatVersion) -> Result<(), DevError>
    requires room { LEAST_SECTORS ≤ D.size device.old }
    requires most { D.size device.old ≤ MOST_SECTORS }
    ensures size { D.size device.new ≡ D.size device.old }
    ensures count { Counts (D.failed device.old) (D.failed device.new) result }
    ensures error { IfErr result (λ e. e ≡ DevError.Failed) }
    ensures moments { D.tells ≡ true → Clears (D.size device.old) version (D.story device.old) (D.story device.new) }
    ensures formatted { OnOk result (D.tells ≡ true → EndsCleared (D.size device.old) version (D.story device.old) (D.story device.new)) }
    ensures made { OnOk result
        (D.tells ≡ true → IsMadeEmpty (D.size device.old) version (shown_image (now (D.story device.old))) (shown_image (now (D.story device.new)))) }
    ensures order { OnOk result (D.tells ≡ true → AreDone (formatting_calls (D.size device.old) version) (D.story device.old) (D.story device.new)) }
    ensures cut_short { OnErr result (D.tells ≡ true → OneFails (formatting_calls (D.size device.old) version) (D.story device.old) (D.story device.new)) }
{
    device.sync()?;
    prepare(device)?;
    begin(device, version)?;
    Ok(())
}

// Returns a map in which the first catalogue's run is in use.
fn first_map(alloc: Global, sectors: u64, version: FormatVersion) -> Result<FreeMap, FormatError>
    requires { LEAST_SECTORS ≤ sectors }
    ensures size { IfOk result (λ map. map.size ≡ sectors) }
    ensures uses { IfOk result (λ map. Uses map.entries ((first_commit sectors version).catalogue.run ∷ []) []) }
    ensures err { IfErr result (λ e. e ≡ FormatError.OutOfMemory) }
{
    let mut map = FreeMap::new(alloc, sectors);
    match map.occupy(FIRST_RUN) {
        Ok(()) => Ok(map),
        Err(_) => Err(FormatError::OutOfMemory),
    }
}

/// Formats a device without a store as an empty store of this version, and returns its commit and the runs in use.
///
/// At each moment a crash leaves the disk as it was, no store, or the empty one.
///
/// # Errors
/// `Damaged(DeviceSize)`, before any read; `AlreadyAStore` if a commit rules; `Device` if the device failed; `OutOfMemory`. After any error but
/// `Device` nothing has changed.
pub fn format<D: SectorDevice>(
    alloc: Global,
    device: &mut D,
    version: FormatVersion,
) -> Result<(Commit, FreeMap), FormatError>
    ensures size { D.size device.new ≡ D.size device.old }
    ensures count { CountsFormat (D.failed device.old) (D.failed device.new) result }
    ensures limits { is_size (D.size device.old) ≡ false → (result ≡ Err (FormatError.Damaged Cause.DeviceSize))
        × (D.story device.new ≡ D.story device.old) }
    ensures damaged { IfErr result (λ e. (cause : Cause) → e ≡ FormatError.Damaged cause → is_size (D.size device.old) ≡ false) }
    ensures already { IsErrOf result FormatError.AlreadyAStore → D.tells ≡ true → ruling (shown_image (now (D.story device.old))) ≢ None }
    ensures none_before { OnOk result (D.tells ≡ true → ruling (shown_image (now (D.story device.old))) ≡ None) }
    ensures memory { IsErrOf result FormatError.OutOfMemory → D.tells ≡ true → ruling (shown_image (now (D.story device.old))) ≡ None }
    ensures untouched { D.tells ≡ true → ruling (shown_image (now (D.story device.old))) ≢ None → OnlyReads (D.story device.old) (D.story device.new) }
    ensures moments { D.tells ≡ true → Grows (IsFormatting (D.size device.old) version (now (D.story device.old))) (D.story device.old) (D.story device.new) }
    ensures quiet { IfErr result (λ e. e ≢ FormatError.Device → D.tells ≡ true → now (D.story device.new) ≡ now (D.story device.old)) }
    ensures commit { IfOk result (λ store. store.0 ≡ first_commit (D.size device.old) version) }
    ensures formatted { OnOk result (D.tells ≡ true → IsFormatted (D.size device.old) version (now (D.story device.old)) (now (D.story device.new))) }
    ensures made { OnOk result
        (D.tells ≡ true → IsMadeEmpty (D.size device.old) version (shown_image (now (D.story device.old))) (shown_image (now (D.story device.new)))) }
    ensures agree { OnOk result (D.tells ≡ true → commits_agree (shown_image (now (D.story device.new))) ≡ true) }
    // After reads come a sync, the writes of zeros, a sync, the write of the first commit and a sync, and no other call; after a failure of the device,
    // those before the call that failed.
    ensures order { OnOk result (D.tells ≡ true → FormatsInOrder (D.size device.old) version (D.story device.old) (D.story device.new)) }
    ensures cut_short { IsErrOf result FormatError.Device → D.tells ≡ true → FailsInOrder (D.size device.old) version (D.story device.old) (D.story device.new) }
    ensures map_size { IfOk result (λ store. store.1.size ≡ D.size device.old) }
    ensures uses { IfOk result (λ store. Uses store.1.entries (store.0.catalogue.run ∷ []) []) }
{
    let sectors = device.sectors();
    if sectors < LEAST_SECTORS || sectors > MOST_SECTORS {
        return Err(FormatError::Damaged(Cause::DeviceSize));
    }
    let Ok(ruling) = read_ruling(device) else {
        return Err(FormatError::Device);
    };
    if ruling.is_some() {
        return Err(FormatError::AlreadyAStore);
    }
    let Ok(map) = first_map(alloc, sectors, version) else {
        return Err(FormatError::OutOfMemory);
    };
    match clear_and_begin(device, version) {
        Ok(()) => Ok((first_commit(sectors, version), map)),
        Err(_) => Err(FormatError::Device),
    }
}
