// Finds whether a file has a store of a version that this program does not know, which it takes for none.
use crate::in_place_of_store::store_of;
use crate::other_length::first_sectors;
use cli_reports::{FailedFile, FileReason};
use cli_requests::StoreRequest;
use commit::FormatVersion;
use sector_dev::SECTOR_BYTES;
use std::fs::OpenFile;
use std::io::{Read, Seek};
use std::rt::Files;

// The first bytes of a commit sector.
const LETTERS: &[u8] = b"ARWSTOR1";

// Returns the version in a sector, if it begins as a commit and has a later version.
fn later_version(sector: &[u8; SECTOR_BYTES]) -> Option<u32> {
    if !sector.starts_with(LETTERS) {
        return None;
    }
    let version = u32::from_le_bytes([sector[48], sector[49], sector[50], sector[51]]);
    if version > FormatVersion::Two.number() {
        Some(version)
    } else {
        None
    }
}

/// Returns the file at the path of the request's store, if it has a store of a later version.
pub(crate) fn file_of_later_version<
    F: Read + Seek + OpenFile + Drop,
    H: Files<File = F> + AllocGlobal,
>(rt: &H, request: &StoreRequest<'_>) -> Option<FailedFile> {
    let path = store_of(request)?;
    let (_, zeroth, first) = first_sectors(rt, path)?;
    let version = match later_version(&zeroth) {
        Some(version) => version,
        None => later_version(&first)?,
    };
    FailedFile::new(rt.alloc(), path, FileReason::LaterVersion(version))
}
