// The commit sectors of the two versions (commit). The bytes were written by hand according to docs/formats/store.md.
ghost use Rattle.std.specs.Prelude.{◌≡◌};
ghost use Rattle.sector_dev.specs.View.{size_of};

use crate::calls::{are_same, read_sector, write_sector};
use commit::{FormatVersion, format, read_ruling};
use sector_dev::{ModelDevice, SectorDevice};
use std::alloc::Global;

/// The commit sector of an empty store on 16 sectors in version 1, without the zeros after its fields.
const FIRST: [u8; 56] = [
    0x41, 0x52, 0x57, 0x53, 0x54, 0x4f, 0x52, 0x31, 0x01, 0x00, 0x00, 0x00, 0x00, 0x00, 0x00, 0x00,
    0x02, 0x00, 0x00, 0x00, 0x00, 0x00, 0x00, 0x00, 0x01, 0x00, 0x00, 0x00, 0x00, 0x00, 0x00, 0x00,
    0x04, 0x00, 0x00, 0x00, 0x00, 0x00, 0x00, 0x00, 0x10, 0x00, 0x00, 0x00, 0x00, 0x00, 0x00, 0x00,
    0x01, 0x00, 0x00, 0x00, 0x00, 0x00, 0x00, 0x00,
];

const VERSIONS: &[(u8, FormatVersion)] = &[(1, FormatVersion::One), (2, FormatVersion::Two)];

/// Bytes that make an invalid version: the offset, and the byte that is written there.
const NO_VERSIONS: &[(usize, u8)] = &[(48, 0), (48, 3), (49, 1), (51, 1)];

// Returns the commit sector with this number as its version.
fn sector_of(number: u8) -> [u8; 512] {
    let mut sector = [0; 512];
    sector[..56].copy_from_slice(&FIRST);
    sector[48] = number;
    sector
}

// Returns the version that rules, if a commit does.
fn version_on(device: &mut ModelDevice) -> Option<FormatVersion>
    ensures { size_of device.new ≡ size_of device.old }
{
    if device.sectors() != 16 {
        return None;
    }
    match read_ruling(device) {
        Ok(Some(commit)) => Some(commit.version),
        _ => None,
    }
}

// Returns whether this version is read from a sector with its number.
fn is_read(device: &mut ModelDevice, number: u8, version: FormatVersion) -> bool {
    write_sector(device, 1, &sector_of(number)).is_ok() && version_on(device) == Some(version)
}

// Returns whether formatting writes these bytes, and they are read back.
fn is_written(alloc: Global, number: u8, version: FormatVersion) -> bool {
    let Ok(mut device) = ModelDevice::new(alloc, 16) else {
        return false;
    };
    let mut sector = [255; 512];
    format(alloc, &mut device, version).is_ok()
        && read_sector(&mut device, 1, &mut sector).is_ok()
        && are_same(&sector, &sector_of(number))
        && is_read(&mut device, number, version)
}

// Returns whether no commit is found if the version has this byte.
fn is_none(alloc: Global, at: usize, byte: u8) -> bool {
    let Ok(mut device) = ModelDevice::new(alloc, 16) else {
        return false;
    };
    let mut sector = sector_of(1);
    if let Some(own) = sector.get_mut(at) {
        *own = byte;
    }
    write_sector(&mut device, 1, &sector).is_ok() && version_on(&mut device).is_none()
}

#[test]
fn each_version_is_written_and_read(rt: HostRuntime) {
    for (number, version) in VERSIONS {
        assert!(&rt; is_written(rt.alloc(), *number, *version));
    }
}

#[test]
fn no_other_version_is_read(rt: HostRuntime) {
    for (at, byte) in NO_VERSIONS {
        assert!(&rt; is_none(rt.alloc(), *at, *byte));
    }
}
