// Calls of a device, with sectors that are filled with one byte.
use sector_dev::{DevError, SectorDevice};

// Returns whether the bytes are equal. Uses a loop, because the first comparison of slices costs as much proof time as ten functions.
pub(crate) fn are_same(found: &[u8], want: &[u8]) -> bool {
    let mut same = found.len() == want.len();
    for (place, byte) in want.iter().enumerate() {
        same = same && matches!(found.get(place), Some(one) if *one == *byte);
    }
    same
}

// Reads a sector, if the device has it.
pub(crate) fn read_sector<D: SectorDevice>(
    device: &mut D,
    n: u64,
    to: &mut [u8; 512],
) -> Result<(), DevError> {
    if n < device.sectors() {
        device.read(n, to)
    } else {
        Err(DevError::Unreadable)
    }
}

// Writes a sector, if the device has it.
pub(crate) fn write_sector<D: SectorDevice>(
    device: &mut D,
    n: u64,
    from: &[u8; 512],
) -> Result<(), DevError> {
    if n < device.sectors() {
        device.write(n, from)
    } else {
        Err(DevError::Unreadable)
    }
}

// Writes neighbouring sectors, if the device has them.
pub(crate) fn write_row<D: SectorDevice>(
    device: &mut D,
    start: u64,
    contents: &[[u8; 512]],
) -> Result<(), DevError> {
    let sectors = device.sectors();
    if start < sectors && contents.len() as u64 <= sectors - start {
        device.write_sectors(start, contents)
    } else {
        Err(DevError::Unreadable)
    }
}

// Fills a sector with a byte, if the device has it.
pub(crate) fn fill_sector<D: SectorDevice>(
    device: &mut D,
    n: u64,
    byte: u8,
) -> Result<(), DevError> {
    write_sector(device, n, &[byte; 512])
}

// Returns the byte that fills a sector, or `None` if its bytes are not all equal.
pub(crate) fn filling<D: SectorDevice>(device: &mut D, n: u64) -> Option<Result<u8, DevError>> {
    let mut sector = [255; 512];
    match read_sector(device, n, &mut sector) {
        Ok(()) if are_same(&sector, &[sector[0]; 512]) => Some(Ok(sector[0])),
        Ok(()) => None,
        Err(error) => Some(Err(error)),
    }
}
