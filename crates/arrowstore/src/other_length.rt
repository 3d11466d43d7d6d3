// Finds which length the file of a store should have, if it has another one: the commit sectors say so, and are at the start of a file of any length.
use crate::in_place_of_store::is_size_of_store;
use cli_reports::{FileReason, OtherLength};
use commit::read_ruling;
use sector_dev::{ModelDevice, SECTOR_BYTES, SectorDevice};
use std::alloc::Global;
use std::fs::{self, OpenFile};
use std::io::{Read, Seek, SeekFrom};
use std::rt::Files;

// Reads the next sector of a file, if the file has it.
fn next_sector<R: Read>(file: &mut R) -> Option<[u8; SECTOR_BYTES]> {
    let mut sector = [0; SECTOR_BYTES];
    file.read_exact(&mut sector).ok()?;
    Some(sector)
}

// Returns the number of sectors in the commit that rules, if one of these two sectors is well formed and a store may have that number.
fn sectors_in(
    alloc: Global,
    zeroth: &[u8; SECTOR_BYTES],
    first: &[u8; SECTOR_BYTES],
) -> Option<u32> {
    let mut device = ModelDevice::new(alloc, 2).ok()?;
    device.write(0, zeroth).ok()?;
    device.write(1, first).ok()?;
    let sectors = read_ruling(&mut device).ok()??.device_sectors;
    if is_size_of_store(sectors) {
        u32::try_from(sectors).ok()
    } else {
        None
    }
}

/// Opens the file at `path`, and returns it with its first two sectors, if it has them.
pub(crate) fn first_sectors<F: Read + OpenFile + Drop, H: Files<File = F>>(
    rt: &H,
    path: &str,
) -> Option<(F, [u8; SECTOR_BYTES], [u8; SECTOR_BYTES])> {
    let mut file = fs::open(rt, path).ok()?;
    let zeroth = next_sector(&mut file)?;
    let first = next_sector(&mut file)?;
    Some((file, zeroth, first))
}

/// Returns the length of the file at `path` and the number of sectors of the store that it begins with, if these disagree.
pub(crate) fn reason_of_other_length<
    F: Read + Seek + OpenFile + Drop,
    H: Files<File = F> + AllocGlobal,
>(rt: &H, path: &str) -> Option<FileReason> {
    let (mut file, zeroth, first) = first_sectors(rt, path)?;
    let sectors = sectors_in(rt.alloc(), &zeroth, &first)?;
    let bytes = file.seek(SeekFrom::End(0)).ok()?;
    if bytes == u64::from(sectors) * SECTOR_BYTES as u64 {
        None
    } else {
        Some(FileReason::OtherLength(OtherLength { bytes, sectors }))
    }
}
