// Why no store can be made on a block device.
use crate::in_place_of_store::is_size_of_store;
use cli_reports::{FailedFile, FileReason};
use cli_requests::StoreRequest;
use sector_dev::SECTOR_BYTES;
use std::fs::{self, OpenFile};
use std::io::{Seek, SeekFrom};
use std::os::unix::fs::FileTypeExt;
use std::rt::Files;

/// Returns whether a block device is at the path.
pub(crate) fn is_device_at<H: Files>(rt: &H, path: &str) -> bool {
    match fs::metadata(rt, path) {
        Ok(found) => found.file_type().is_block_device(),
        Err(_) => false,
    }
}

// Returns the number of bytes of the block device at the path, if there is one.
fn bytes_of_device<F: Seek + OpenFile + Drop, H: Files<File = F>>(
    rt: &H,
    path: &str,
) -> Option<u64> {
    if !is_device_at(rt, path) {
        return None;
    }
    let mut device = fs::open(rt, path).ok()?;
    device.seek(SeekFrom::End(0)).ok()
}

// Returns where a request makes a store, the number of sectors that it gives, and whether it needs a blank device.
fn new_store_of<'a>(request: &StoreRequest<'a>) -> Option<(&'a str, Option<u64>, bool)> {
    match request {
        StoreRequest::Format { path, sectors, .. } => Some((path, Some(*sectors), true)),
        StoreRequest::FormatDevice {
            path,
            sectors,
            over,
            ..
        } => Some((path, *sectors, !*over)),
        _ => None,
    }
}

// Returns whether a store that is made with this number of sectors, if one is given, can have all sectors of a device.
fn fits(found: u64, sectors: Option<u64>) -> bool {
    match sectors {
        Some(sectors) => found == sectors,
        None => is_size_of_store(found),
    }
}

/// Returns the block device on which the request was to make a store: it has another number of sectors, or one that no store has, or something is at
/// its front.
pub(crate) fn unfit_device<F: Seek + OpenFile + Drop, H: Files<File = F> + AllocGlobal>(
    rt: &H,
    request: &StoreRequest<'_>,
) -> Option<FailedFile> {
    let (path, sectors, is_blank_needed) = new_store_of(request)?;
    let found = bytes_of_device(rt, path)? / SECTOR_BYTES as u64;
    let reason = match (fits(found, sectors), is_blank_needed) {
        (false, _) => FileReason::DeviceSize(found),
        (true, true) => FileReason::NotBlank,
        (true, false) => return None,
    };
    FailedFile::new(rt.alloc(), path, reason)
}
