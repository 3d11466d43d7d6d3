// A device in a file of the system. Its size limits are tested by the commands of a store (tests/stores).
use crate::calls::{are_same, filling, read_sector, write_row, write_sector};
use sector_dev::{FileDevice, FileError, SectorDevice, SystemFile};
use std::env;
use std::fs::{self, File};

// Returns an unused path for this test, or `None` if memory was refused.
fn path_of(rt: &HostRuntime, name: &str) -> Option<String> {
    let dir = env::temp_dir(rt).ok()?;
    let id = std::process::id(rt.process());
    let dir = dir.as_str();
    let path = format!(in rt.alloc(); "{dir}/sector_dev_{id}_{name}").ok()?;
    let _removed = fs::remove_file(rt, path.as_str());
    Some(path)
}

// Returns the content of a sector: its number, and how often it was written.
fn content(n: u64, times: u8) -> [u8; 512] {
    let mut content = [times; 512];
    content[0] = (n % 251) as u8;
    content[511] = (n / 251 % 251) as u8;
    content
}

fn is_written<D: SectorDevice>(device: &mut D, n: u64, times: u8) -> bool {
    write_sector(device, n, &content(n, times)).is_ok()
}

fn is_read<D: SectorDevice>(device: &mut D, n: u64, times: u8) -> bool {
    let mut sector = [255; 512];
    read_sector(device, n, &mut sector).is_ok() && are_same(&sector, &content(n, times))
}

// Writes 20 sectors from `start` on.
fn is_row_written<D: SectorDevice>(device: &mut D, start: u64, times: u8) -> bool {
    let mut row = [[0; 512]; 20];
    for (i, sector) in row.iter_mut().enumerate() {
        *sector = content(start.wrapping_add(i as u64), times);
    }
    write_row(device, start, &row).is_ok()
}

// Writes the 200 sectors from 2000 on, which are too many to be buffered.
fn is_long_row_written<D: SectorDevice>(device: &mut D) -> bool {
    let mut row = [[0; 512]; 200];
    for (i, sector) in row.iter_mut().enumerate() {
        *sector = content(2000 + i as u64, 5);
    }
    write_row(device, 2000, &row).is_ok()
}

// Returns the number of the last write of a sector by `is_used`.
fn times_of(n: u64) -> u8 {
    match n {
        1000 | 1001 | 4990 | 4999 => 2,
        112 | 200 => 3,
        2100..=2119 => 6,
        2000..=2199 => 5,
        2200..=2219 => 4,
        _ => 1,
    }
}

// Writes 5,000 sectors, more than are kept in memory.
fn are_written<D: SectorDevice>(device: &mut D) -> bool {
    let mut well = true;
    for n in 0..5000 {
        well = well && is_written(device, n, 1);
    }
    well
}

// Writes sectors again and reads them, before and after they are in the file.
fn are_written_again<D: SectorDevice>(device: &mut D) -> bool {
    let mut well = true;
    for n in [4990, 4999, 1000, 1001] {
        well = well && is_written(device, n, 2) && is_read(device, n, 2);
    }
    well
}

// Sectors that were read ahead are outdated after a write.
fn are_read_ahead<D: SectorDevice>(device: &mut D) -> bool {
    let mut well = true;
    for n in 100..110 {
        well = well && is_read(device, n, 1);
    }
    well && is_written(device, 112, 3) && is_written(device, 200, 3)
}

// Reads each sector, in steps of `step`.
fn are_read<D: SectorDevice>(device: &mut D, step: u64) -> bool {
    let mut well = true;
    for i in 0..5000u64 {
        let n = i.wrapping_mul(step) % 5000;
        well = well && is_read(device, n, times_of(n));
    }
    well
}

// A long row with nothing buffered, over sectors that were read ahead.
fn is_read_anew<D: SectorDevice>(device: &mut D) -> bool {
    device.sync().is_ok()
        && is_read(device, 2000, 1)
        && is_long_row_written(device)
        && is_read(device, 2002, 5)
}

// A row that is not yet in the file, a long one over part of it, and one over part of that.
fn are_rows_written<D: SectorDevice>(device: &mut D) -> bool {
    is_row_written(device, 2180, 4)
        && is_row_written(device, 2200, 4)
        && is_long_row_written(device)
        && is_read(device, 2190, 5)
        && is_row_written(device, 2100, 6)
}

// Longer runs than are kept in memory, and reads between writes.
fn is_used<D: SectorDevice>(device: &mut D) -> bool {
    are_written(device)
        && are_written_again(device)
        && are_read_ahead(device)
        && is_read_anew(device)
        && are_rows_written(device)
        && are_read(device, 1)
        && device.sync().is_ok()
        && device.failures() == 0
        && is_read(device, 112, 3)
}

// Creates a device, at the second try if memory is refused once; nothing must be left of the first try.
fn create_twice(rt: &HostRuntime, path: &str) -> Option<FileDevice<SystemFile<File>>> {
    match FileDevice::create(rt, path, 6000) {
        Ok(device) => Some(device),
        Err(FileError::Io) if fs::exists(rt, path).ok() == Some(false) => {
            FileDevice::create(rt, path, 6000).ok()
        }
        Err(_) => None,
    }
}

// Opens a device, at the second try if memory is refused once.
fn open_twice(rt: &HostRuntime, path: &str) -> Option<FileDevice<SystemFile<File>>> {
    match FileDevice::open(rt, path) {
        Ok(device) => Some(device),
        Err(FileError::Io) => FileDevice::open(rt, path).ok(),
        Err(_) => None,
    }
}

// Creates a device, uses it, opens it again, and reads its sectors in another order.
fn is_made_and_used(rt: &HostRuntime, path: &str) -> bool {
    let used = match create_twice(rt, path) {
        Some(mut device) => is_used(&mut device),
        None => false,
    };
    let read = match open_twice(rt, path) {
        Some(mut device) => {
            are_read(&mut device, 1237) && filling(&mut device, 5999) == Some(Ok(0))
        }
        None => false,
    };
    used && read
}

fn is_removed(rt: &HostRuntime, path: &str) -> bool {
    fs::remove_file(rt, path).is_ok() || fs::remove_file(rt, path).is_ok()
}

// tests/refused_memory_in_crates refuses at most one allocation: `create` and `open` may fail because of it, and then `create` leaves no file; no
// call of a device fails.
#[test]
fn a_file_is_made_and_used_also_without_memory(rt: HostRuntime) {
    let well = match path_of(&rt, "memory") {
        Some(path) => is_made_and_used(&rt, path.as_str()) && is_removed(&rt, path.as_str()),
        None => true,
    };
    assert!(&rt; well);
}
