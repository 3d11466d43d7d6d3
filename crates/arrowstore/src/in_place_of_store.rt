// What is found at the path of a store if it is neither a regular file nor a block device, or has a length that is not that of its store.
use crate::other_length::reason_of_other_length;
use crate::serving::has_sectors;
use cli_reports::{FailedFile, FileReason};
use cli_requests::StoreRequest;
use sector_dev::{LEAST_SECTORS, MOST_SECTORS, SECTOR_BYTES};
use std::fs::{self, OpenFile};
use std::io::{Read, Seek};
use std::rt::Files;

/// Returns the path of the existing store that a request opens.
pub(crate) fn store_of<'a>(request: &StoreRequest<'a>) -> Option<&'a str> {
    match request {
        StoreRequest::Copy { path, .. }
        | StoreRequest::Salvage { path, .. }
        | StoreRequest::Apply { path, .. }
        | StoreRequest::Send { path, .. }
        | StoreRequest::Receive { path, .. }
        | StoreRequest::Command { path, .. } => Some(path),
        StoreRequest::Format { .. } | StoreRequest::FormatDevice { .. } | StoreRequest::Replay(_) =>
            None,
    }
}

fn reason_of_kind<H: Files>(rt: &H, path: &str) -> Option<FileReason> {
    let found = fs::metadata(rt, path).ok()?;
    let kind = found.file_type();
    if kind.is_dir() {
        Some(FileReason::Folder)
    } else if has_sectors(&kind) {
        None
    } else {
        Some(FileReason::NotRegular)
    }
}

/// Returns why the file at `path` can't be a store, if the request opens a store there.
pub(crate) fn reason_in_place_of_store<H: Files>(
    rt: &H,
    request: &StoreRequest<'_>,
    path: &str,
) -> Option<FileReason> {
    match store_of(request) {
        Some(store) if store == path => reason_of_kind(rt, path),
        _ => None,
    }
}

/// Returns the file at the path of the request's store, if a file of its kind can't be a store.
pub(crate) fn file_in_place_of_store<H: Files + AllocGlobal>(
    rt: &H,
    request: &StoreRequest<'_>,
) -> Option<FailedFile> {
    let path = store_of(request)?;
    FailedFile::new(rt.alloc(), path, reason_of_kind(rt, path)?)
}

/// Returns whether a store may have this number of sectors.
pub(crate) fn is_size_of_store(sectors: u64) -> bool {
    (LEAST_SECTORS..=MOST_SECTORS).contains(&sectors)
}

// Returns whether the file of a store may have this length.
fn is_length_of_store(bytes: u64) -> bool {
    let sector = SECTOR_BYTES as u64;
    bytes % sector == 0 && is_size_of_store(bytes / sector)
}

/// Returns the number of sectors that a request gives to a new store or device, if no store can have it.
pub(crate) fn refused_sectors(request: &StoreRequest<'_>) -> Option<u64> {
    let sectors = match request {
        StoreRequest::Format { sectors, .. } | StoreRequest::Copy { sectors, .. } => *sectors,
        StoreRequest::Replay(words) => words.sectors,
        StoreRequest::FormatDevice { .. }
        | StoreRequest::Salvage { .. }
        | StoreRequest::Apply { .. }
        | StoreRequest::Send { .. }
        | StoreRequest::Receive { .. }
        | StoreRequest::Command { .. } => return None,
    };
    if is_size_of_store(sectors) {
        None
    } else {
        Some(sectors)
    }
}

fn reason_of_length<H: Files>(rt: &H, path: &str) -> Option<FileReason> {
    let found = fs::metadata(rt, path).ok()?;
    // The length of a block device is not among its metadata.
    if found.is_file() && !is_length_of_store(found.len()) {
        Some(FileReason::Length(found.len()))
    } else {
        None
    }
}

// The store in a file says which length it should have. A folder or a named pipe is not opened.
fn reason_of_size<F: Read + Seek + OpenFile + Drop, H: Files<File = F> + AllocGlobal>(
    rt: &H,
    path: &str,
) -> Option<FileReason> {
    if let Some(reason) = reason_of_kind(rt, path) {
        return Some(reason);
    }
    match reason_of_other_length(rt, path) {
        Some(reason) => Some(reason),
        None => reason_of_length(rt, path),
    }
}

/// Returns the file at the path of the request's store, if a file of its kind can't be a store, or its length is not that of its store.
pub(crate) fn file_of_bad_size<F: Read + Seek + OpenFile + Drop, H: Files<File = F> + AllocGlobal>(
    rt: &H,
    request: &StoreRequest<'_>,
) -> Option<FailedFile> {
    let path = store_of(request)?;
    FailedFile::new(rt.alloc(), path, reason_of_size(rt, path)?)
}
