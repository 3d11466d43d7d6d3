// A file in memory that a failed sync has left in doubt, opened anew as a file of the system is.
use crate::calls::{fill_sector, filling};
use sector_dev::{ConfirmedFile, CrashChoice, FileDevice, ModelFile, SectorDevice, SectorFile};
use std::alloc::Global;

// The sectors that are written: the two ruling ones, and another one.
const PLACES: [u64; 3] = [0, 1, 5];

// What a crash that keeps the synced contents leaves in these sectors, which held 1 and were to hold 2: once the file was opened, read and synced, and
// once it was opened and synced without a read.
const CONFIRMED: [u8; 3] = [2, 2, 1];

const UNREAD: [u8; 3] = [1, 1, 1];

fn fill_places<D: SectorDevice>(device: &mut D, byte: u8) -> bool {
    let mut well = true;
    for n in PLACES {
        well = well && fill_sector(device, n, byte).is_ok();
    }
    well
}

fn are_filled<D: SectorDevice>(device: &mut D, bytes: [u8; 3]) -> bool {
    let mut well = true;
    for (n, byte) in PLACES.iter().zip(bytes) {
        well = well && filling(device, *n) == Some(Ok(byte));
    }
    well
}

// Returns a file of which reads show what its disk does not have: its sixth call, the second sync, has failed.
fn doubted_file(alloc: Global) -> Option<ModelFile> {
    let mut file = ModelFile::new(alloc, 64).ok()?;
    file.fail_at(6);
    let mut device = FileDevice::over(alloc, file);
    let well = fill_places(&mut device, 1)
        && device.sync().is_ok()
        && fill_places(&mut device, 2)
        && device.sync().is_err();
    if well { Some(device.into_file()) } else { None }
}

// Opens the file, reads it if asked to, syncs it, and returns what is below.
fn reopened(alloc: Global, file: ModelFile, reads: bool) -> Option<ModelFile> {
    if file.sectors() < 2 {
        return None;
    }
    let mut device = FileDevice::over(alloc, ConfirmedFile::over(file, true));
    let well = (!reads || are_filled(&mut device, [2; 3])) && device.sync().is_ok();
    if well {
        Some(device.into_file().into_inner())
    } else {
        None
    }
}

fn is_left(alloc: Global, reads: bool, bytes: [u8; 3]) -> Option<bool> {
    let file = reopened(alloc, doubted_file(alloc)?, reads)?;
    let left = file.crash(CrashChoice::Old).ok()?;
    Some(are_filled(&mut FileDevice::over(alloc, left), bytes))
}

fn is_confirmed(alloc: Global) -> bool {
    is_left(alloc, true, CONFIRMED) == Some(true) && is_left(alloc, false, UNREAD) == Some(true)
}

// The first sync of a file that another program has left in doubt makes safe what was read of its first sectors, and nothing else.
#[test]
fn the_first_sync_makes_safe_what_was_read_of_the_first_sectors(rt: HostRuntime) {
    assert!(&rt; is_confirmed(rt.alloc()));
}
