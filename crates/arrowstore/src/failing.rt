// Explains the system call that failed while a request was served.
use crate::asking_again::{AskedAgain, Served};
use crate::block_devices::is_device_at;
use crate::in_place_of_store::reason_in_place_of_store;
use crate::noted::{Failure, FileCall};
use crate::streams_again::FoundOfStreams;
use cli_reports::{FailedFile, FileCause, FileReason, MOST_SHOWN, Refusal, Side, system_text};
use cli_requests::StoreRequest;
use commit::OpeningRefusal;
use std::alloc::Global;
use std::fs;
use std::io::{self, ErrorKind};
use std::rt::Files;

fn cause_of_opening(kind: ErrorKind) -> FileCause {
    match kind {
        ErrorKind::NotFound | ErrorKind::NotADirectory => FileCause::Missing,
        ErrorKind::AlreadyExists => FileCause::Exists,
        _ => FileCause::Other,
    }
}

// A lock that another program holds is answered as a call that would block.
fn cause_of_call(call: FileCall, kind: ErrorKind) -> FileCause {
    match (call, kind) {
        (_, ErrorKind::PermissionDenied | ErrorKind::ReadOnlyFilesystem) => FileCause::Denied,
        (FileCall::Lock, ErrorKind::WouldBlock) => FileCause::Locked,
        (FileCall::Open, kind) => cause_of_opening(kind),
        _ => FileCause::Other,
    }
}

/// Returns why a file could not be used, by the last failed call on one.
pub(crate) fn cause_of(failure: &Option<Failure>) -> FileCause {
    match failure {
        Some(failure) => cause_of_call(failure.call, failure.error.kind()),
        None => FileCause::Other,
    }
}

// Returns whether a script names the file at `path`, and not the command line.
fn is_of_script(request: &StoreRequest<'_>, path: &str) -> bool {
    match request {
        StoreRequest::Replay(words) => path != words.script,
        StoreRequest::Apply {
            path: store,
            script,
        } => path != *store && path != *script,
        _ => false,
    }
}

// A long path that a script names is not shown: it could hide the rest of the line.
fn may_be_shown(request: &StoreRequest<'_>, path: &str) -> bool {
    !is_of_script(request, path) || path.len() <= MOST_SHOWN
}

// Returns the path of a missing file as a script names it, without the carriage return at its end: the lines of the script may end with one.
fn path_before_return<'a>(request: &StoreRequest<'_>, failure: &'a Failure) -> Option<&'a str> {
    let path = failure.path.as_str();
    let before = path.strip_suffix('\r')?;
    let is_missing = failure.error.kind() == ErrorKind::NotFound;
    if matches!(failure.call, FileCall::Open) && is_missing && is_of_script(request, path) {
        Some(before)
    } else {
        None
    }
}

fn unopened(alloc: Global, error: &io::Error) -> Option<FileReason> {
    Some(FileReason::Unopened(system_text(alloc, error)?))
}

// Returns whether a request makes the file at `path`, unless a block device is there.
fn makes(request: &StoreRequest<'_>, path: &str) -> bool {
    match request {
        StoreRequest::Format { path: new, .. } | StoreRequest::Copy { new, .. } => *new == path,
        StoreRequest::FormatDevice { .. }
        | StoreRequest::Salvage { .. }
        | StoreRequest::Replay(_)
        | StoreRequest::Apply { .. }
        | StoreRequest::Send { .. }
        | StoreRequest::Receive { .. }
        | StoreRequest::Command { .. } => false,
    }
}

// Returns whether a request has made the file at `path` and removed it: a block device stays, and so does what another program has moved
// there.
fn has_removed<H: Files>(rt: &H, request: &StoreRequest<'_>, path: &str) -> bool {
    match fs::symlink_metadata(rt, path) {
        Ok(_) => false,
        Err(error) => makes(request, path) && error.kind() == ErrorKind::NotFound,
    }
}

fn reason_of_opening<H: Files + AllocGlobal>(
    rt: &H,
    request: &StoreRequest<'_>,
    path: &str,
    error: &io::Error,
) -> Option<FileReason> {
    if error.kind() == ErrorKind::AlreadyExists {
        return Some(FileReason::Exists);
    }
    if makes(request, path) && !is_device_at(rt, path) {
        return Some(FileReason::Unmade(system_text(rt.alloc(), error)?));
    }
    match reason_in_place_of_store(rt, request, path) {
        Some(reason) => Some(reason),
        None => unopened(rt.alloc(), error),
    }
}

fn reason_of_lock(alloc: Global, error: &io::Error) -> Option<FileReason> {
    if error.kind() == ErrorKind::WouldBlock {
        Some(FileReason::Locked)
    } else {
        unopened(alloc, error)
    }
}

fn reason_of_write(alloc: Global, is_removed: bool, error: &io::Error) -> Option<FileReason> {
    let text = system_text(alloc, error)?;
    Some(if is_removed {
        FileReason::NewUnwritten(text)
    } else {
        FileReason::Unwritten(text)
    })
}

fn reason_of_sync(alloc: Global, is_removed: bool, error: &io::Error) -> Option<FileReason> {
    let text = system_text(alloc, error)?;
    Some(if is_removed {
        FileReason::NewUnsynced(text)
    } else {
        FileReason::Unsynced(text)
    })
}

fn reason_of<H: Files + AllocGlobal>(
    rt: &H,
    request: &StoreRequest<'_>,
    path: &str,
    call: FileCall,
    error: &io::Error,
) -> Option<FileReason> {
    match call {
        FileCall::Open => reason_of_opening(rt, request, path, error),
        FileCall::Lock => reason_of_lock(rt.alloc(), error),
        FileCall::Read => Some(FileReason::Unread(system_text(rt.alloc(), error)?)),
        FileCall::Write => reason_of_write(rt.alloc(), has_removed(rt, request, path), error),
        FileCall::Sync => reason_of_sync(rt.alloc(), has_removed(rt, request, path), error),
    }
}

// Returns whether standard input is closed: nothing is at its path then, though something is at that of standard error.
fn is_input_closed<H: Files>(rt: &H) -> bool {
    fs::metadata(rt, "/dev/stdin").is_err() && fs::metadata(rt, "/dev/stderr").is_ok()
}

// The system's reason of a closed input would be that of the folder in its place.
fn reason_of_input<H: Files + AllocGlobal>(rt: &H, error: &io::Error) -> Option<String> {
    if is_input_closed(rt) {
        String::from_str(rt.alloc(), "it is closed").ok()
    } else {
        system_text(rt.alloc(), error)
    }
}

fn failed_file<H: Files + AllocGlobal>(
    rt: &H,
    request: &StoreRequest<'_>,
    failure: &Failure,
) -> Option<FailedFile> {
    let path = failure.path.as_str();
    if !may_be_shown(request, path) {
        return None;
    }
    if let Some(before) = path_before_return(request, failure) {
        return FailedFile::new(rt.alloc(), before, FileReason::NamedWithReturn);
    }
    let reason = reason_of(rt, request, path, failure.call, &failure.error)?;
    FailedFile::new(rt.alloc(), path, reason)
}

// Returns why the input can't be read.
fn unread_input<H: Files + AllocGlobal>(rt: &H, failure: Option<io::Error>) -> Option<AskedAgain> {
    let reason = reason_of_input(rt, &failure?)?;
    Some(AskedAgain::Streams(FoundOfStreams::Unread(reason)))
}

fn unwritten_output(alloc: Global, failure: Option<io::Error>) -> Option<AskedAgain> {
    let reason = system_text(alloc, &failure?)?;
    Some(AskedAgain::Streams(FoundOfStreams::Unwritten(reason)))
}

fn unused_file<H: Files + AllocGlobal>(
    rt: &H,
    request: &StoreRequest<'_>,
    failure: Option<&Failure>,
) -> Option<AskedAgain> {
    Some(AskedAgain::File(failed_file(rt, request, failure?)?))
}

/// Returns what to report of the call that failed, on the side of the refusal, or `None` if none is known, its path can't be shown, or memory is
/// refused.
pub(crate) fn report_of_failure<H: Files + AllocGlobal>(
    rt: &H,
    request: &StoreRequest<'_>,
    served: Served<'_>,
    failure: &Option<Failure>,
    refusal: &Refusal,
) -> Option<AskedAgain> {
    match refusal {
        Refusal::Io(Side::Input) | Refusal::Store(tables::Refusal::Read) => {
            unread_input(rt, served.input_failure)
        }
        Refusal::Io(Side::Output) | Refusal::Store(tables::Refusal::Write) => {
            unwritten_output(rt.alloc(), served.output_failure)
        }
        Refusal::Io(Side::File)
        | Refusal::Opening(OpeningRefusal::Device)
        | Refusal::Store(tables::Refusal::Device) => unused_file(rt, request, failure.as_ref()),
        _ => None,
    }
}
