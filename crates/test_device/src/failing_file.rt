// A device in a file of which one call fails.
use crate::calls::{fill_sector, filling};
use crate::faulty_file::{Fault, FaultyFile};
use sector_dev::{DevError, FileDevice, FileError, SectorDevice, SystemFile};
use std::alloc::Global;

// The number of sectors in the file.
const SMALL: usize = 16;

const BYTES: usize = SMALL * 512;

type Faulty = FaultyFile<BYTES>;

type Device = FileDevice<SystemFile<Faulty>>;

// The sectors that are written, in order. No sector is written twice between two syncs.
const WRITES: [usize; 13] = [3, 4, 5, 6, 9, 10, 3, 11, 12, 0, 15, 14, 13];

// What each sector must hold.
#[derive(Clone, Copy)]
struct Expected {
    // after the last sync
    old: [u8; SMALL],
    // after the last write
    new: [u8; SMALL],
}

// Returns whether the device has stopped: each call fails and is counted.
fn has_stopped(device: &mut Device) -> bool {
    let before = device.failures();
    let failed = Err(DevError::Failed);
    fill_sector(device, 3, 1) == failed
        && filling(device, 3) == Some(Err(DevError::Failed))
        && device.sync() == failed
        && device.failures() == before.wrapping_add(3)
}

// Returns whether a sector is read as this byte, or its read fails and is counted.
fn is_read_or_fails(device: &mut Device, n: u64, byte: u8) -> bool {
    let before = device.failures();
    match filling(device, n) {
        Some(Ok(found)) => found == byte,
        Some(Err(_)) => device.failures() == before.wrapping_add(1),
        None => false,
    }
}

// Writes a sector, and syncs every fourth time. Returns `None` if both succeed and the sector is read, and else whether all is as it must be.
fn write_and_sync(
    device: &mut Device,
    expected: &mut Expected,
    i: usize,
    n: u64,
    byte: u8,
) -> Option<bool> {
    if fill_sector(device, n, byte).is_err() {
        return Some(has_stopped(device));
    }
    if i % 4 == 3 {
        if device.sync().is_err() {
            return Some(has_stopped(device));
        }
        expected.old = expected.new;
    }
    if is_read_or_fails(device, n, byte) {
        None
    } else {
        Some(false)
    }
}

// Makes the writes and some syncs, of which one call of the file fails. Returns `None` if the device does not stop, and
// else whether all is as it must be.
fn run_flaky(device: &mut Device, expected: &mut Expected) -> Option<bool> {
    for (i, n) in WRITES.iter().enumerate() {
        let byte = (i % 100) as u8 + 1;
        expected.new[*n] = byte;
        if let Some(well) = write_and_sync(device, expected, i, *n as u64, byte) {
            return Some(well);
        }
    }
    if device.sync().is_err() {
        return Some(has_stopped(device));
    }
    expected.old = expected.new;
    None
}

// Returns whether each sector has its old or its new content.
fn holds(device: &mut Device, expected: &Expected) -> bool {
    let mut well = true;
    for (n, (old, new)) in expected.old.iter().zip(expected.new.iter()).enumerate() {
        let found = filling(device, n as u64);
        well = well && (found == Some(Ok(*old)) || found == Some(Ok(*new)));
    }
    well
}

// Returns whether a device that is made of the file anew holds what it must.
fn is_left(alloc: Global, file: Faulty, expected: &Expected) -> bool {
    match FileDevice::from_file(alloc, file) {
        Ok(mut device) => holds(&mut device, expected),
        Err(_) => false,
    }
}

// Uses the device, although up to one call of the file fails.
fn loses_nothing(alloc: Global, device: Device) -> bool {
    let mut device = device;
    let mut expected = Expected {
        old: [0; SMALL],
        new: [0; SMALL],
    };
    let stopped = run_flaky(&mut device, &mut expected);
    let few = device.failures() <= 1;
    let mut file = device.into_file().into_file();
    let well = match stopped {
        Some(well) => well,
        None => few,
    };
    file.heal();
    well && is_left(alloc, file, &expected)
}

// Tests a failure of the call with this number, counted from the opening, which makes one.
fn survives(alloc: Global, fails_at: u64) -> bool {
    match FileDevice::from_file(alloc, Faulty::new(Fault::Call(fails_at))) {
        Ok(device) => loses_nothing(alloc, device),
        Err(error) => error == FileError::Io && fails_at == 1,
    }
}

// Returns the first call whose failure loses something.
fn wrong_call(alloc: Global) -> Option<u64> {
    for fails_at in 0..60 {
        if !survives(alloc, fails_at) {
            return Some(fails_at);
        }
    }
    None
}

// Each call of the file fails in turn. A failed write or sync stops the device, and a failed read does not; the file that is opened anew has each sector
// as it was last synced, or as it was written since.
#[test]
fn a_failed_call_loses_nothing(rt: HostRuntime) {
    assert!(&rt; wrong_call(rt.alloc()).is_none());
}

fn is_sync_refused(alloc: Global) -> bool {
    match FileDevice::from_file(alloc, Faulty::new(Fault::Syncs)) {
        Ok(mut device) => {
            fill_sector(&mut device, 3, 7).is_ok()
                && device.sync() == Err(DevError::Failed)
                && device.failures() == 1
                && has_stopped(&mut device)
        }
        Err(_) => false,
    }
}

// A sync must reach the system: if the system refuses it, it fails.
#[test]
fn a_sync_that_the_system_refuses_fails(rt: HostRuntime) {
    assert!(&rt; is_sync_refused(rt.alloc()));
}

// Syncs a device over this file twice, after a read of sector 0 if that is asked for, and gives the file back.
fn synced(alloc: Global, file: Faulty, reads: bool) -> Option<Faulty> {
    let Ok(mut device) = FileDevice::from_file(alloc, file) else {
        return None;
    };
    if reads && filling(&mut device, 0) != Some(Ok(0)) {
        return None;
    }
    if device.sync().is_err() || device.sync().is_err() {
        return None;
    }
    Some(device.into_file().into_file())
}

// Returns whether the first sync writes each of the first two sectors again that was read before it, as it was, and no other sync does.
fn is_renewed(alloc: Global) -> bool {
    let Some(unread) = synced(alloc, Faulty::new(Fault::Nothing), false) else {
        return false;
    };
    let before = unread.first_writes();
    match synced(alloc, unread, true) {
        Some(file) => before == 0 && file.first_writes() == 2,
        None => false,
    }
}

// Returns whether a sector that was written since it was read keeps its new content.
fn is_kept(alloc: Global) -> bool {
    let Ok(mut device) = FileDevice::from_file(alloc, Faulty::new(Fault::Nothing)) else {
        return false;
    };
    let read = filling(&mut device, 0) == Some(Ok(0));
    let written = fill_sector(&mut device, 1, 7).is_ok() && device.sync().is_ok();
    let Ok(mut device) = FileDevice::from_file(alloc, device.into_file().into_file()) else {
        return false;
    };
    read && written
        && filling(&mut device, 1) == Some(Ok(7))
        && filling(&mut device, 0) == Some(Ok(0))
}

// What an earlier program could not write may be what reads show, and the system would not write it again.
#[test]
fn the_first_sync_writes_what_was_read_of_the_ruling_sectors(rt: HostRuntime) {
    assert!(&rt; is_renewed(rt.alloc()));
    assert!(&rt; is_kept(rt.alloc()));
}
