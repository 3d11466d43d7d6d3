// A device in a file that writes the start of a long row, and then fails once.
use crate::calls::{filling, write_row};
use crate::faulty_file::{Fault, FaultyFile};
use sector_dev::{DevError, FileDevice, SectorDevice, SystemFile};
use std::alloc::Global;

// The file has 400 sectors.
const BYTES: usize = 204_800;

type Faulty = FaultyFile<BYTES>;

type Device = FileDevice<SystemFile<Faulty>>;

fn is_filled(device: &mut Device, n: u64, byte: u8) -> bool {
    filling(device, n) == Some(Ok(byte))
}

// Some sectors are written, and some that the row overwrites were read ahead. Then the row fails, and from then on each call.
fn is_cut_short(device: &mut Device) -> bool {
    write_row(device, 5, &[[3; 512]; 20]).is_ok()
        && is_filled(device, 160, 0)
        && write_row(device, 150, &[[9; 512]; 200]) == Err(DevError::Failed)
        && device.failures() == 1
        && filling(device, 0) == Some(Err(DevError::Failed))
        && device.sync() == Err(DevError::Failed)
        && device.failures() == 3
}

// Returns whether the sectors from `start` to `end` have this old or this new content.
fn are_either(device: &mut Device, start: u64, end: u64, old: u8, new: u8) -> bool {
    let mut well = true;
    for n in start..end {
        let found = filling(device, n);
        well = well && (found == Some(Ok(old)) || found == Some(Ok(new)));
    }
    well
}

// Returns whether a device that is made of the file anew has what was written before the row, and in the row each sector old or new.
fn is_left(alloc: Global, file: Faulty) -> bool {
    match FileDevice::from_file(alloc, file) {
        Ok(mut device) => {
            is_filled(&mut device, 4, 0)
                && are_either(&mut device, 5, 25, 3, 3)
                && are_either(&mut device, 25, 150, 0, 0)
                && are_either(&mut device, 150, 350, 0, 9)
                && are_either(&mut device, 350, 400, 0, 0)
        }
        Err(_) => false,
    }
}

fn survives(alloc: Global) -> bool {
    let Ok(mut device) = FileDevice::from_file(alloc, Faulty::new(Fault::LongWrite)) else {
        return false;
    };
    let cut_short = is_cut_short(&mut device);
    let file = device.into_file().into_file();
    cut_short && is_left(alloc, file)
}

// A long row is written to the file without a copy: if this fails, the device stops, and only sectors of the row may have changed.
#[test]
fn a_long_row_that_fails_stops_the_device(rt: HostRuntime) {
    assert!(&rt; survives(rt.alloc()));
}
