// A file that can't be used, and why.
ghost use Rattle.std.specs.Prelude.{◌≡◌, false, IfSome};
ghost use Rattle.std.specs.List.{list_any};
ghost use Rattle.std.specs.Str.{chars};
ghost use Rattle.cli_reports.specs.FailedFile.{path_of, reason_of, length_remedy, unread_remedy, unwritten_remedy, reason_remedy};
ghost use Rattle.cli_reports.specs.Shown.{is_unshown};

use crate::Refusal;
use crate::remedies::{
    BLANK_DEVICE, FILE_OF_A_STORE, FOLDER_OF_A_NEW_FILE, LATER_PROGRAM, LENGTH_OF_THE_STORE,
    NEW_PATH, NO_FOLDER, PATH_AND_RIGHTS, READABLE_FILE, ROOM_FOR_THE_NEW_FILE, ROOM_ON_THE_DISK,
    SIZE_OF_THE_DEVICE, UNFINISHED_COPY, WAIT,
};
use crate::shown::has_unshown;
use std::alloc::Global;
use std::fmt;

/// The length of a file, and the number of sectors of the store in it, which needs another length.
#[derive(Clone, Copy)]
pub struct OtherLength {
    pub bytes: u64,
    pub sectors: u32,
}

impl OtherLength {
    // Returns what to do about the file, in a sentence. Until its end, a `copy` keeps its file one byte longer than its sectors.
    fn remedy(self) -> &'static str
        ensures { result.now ≡ length_remedy self }
    {
        if self.bytes == self.sectors as u64 * 512 + 1 {
            UNFINISHED_COPY
        } else {
            LENGTH_OF_THE_STORE
        }
    }
}

impl fmt::Display for OtherLength {
    ghost use Rattle.std.specs.Prelude.{Some};
    ghost use Rattle.cli_reports.specs.FailedFile.{other_length_text};

    ghost output = { λ other. Some (other_length_text other) };

    #[tactic(auto, unfolding(crate::specs::FailedFile::other_length_text))]
    fn fmt<W: fmt::Write>(&self, f: &mut fmt::Formatter<W>) -> fmt::Result {
        let whole = self.sectors as u64 * 512;
        write!(
            f,
            "has {} bytes, but its store was made with {} sectors ({whole} bytes)",
            self.bytes, self.sectors
        )
    }
}

/// Why a file can't be used.
#[derive(Drop)]
pub enum FileReason {
    /// Another program has locked it.
    Locked,
    /// It was to be made, but something is at its path.
    Exists,
    /// A script names it with a carriage return at the end, and no file has that name.
    NamedWithReturn,
    /// It is a script without lines.
    Empty,
    /// It is a folder.
    Folder,
    /// It is a named pipe or something else without stored bytes.
    NotRegular,
    /// It has this number of bytes, which no store has.
    Length(u64),
    /// It has another length than its store.
    OtherLength(OtherLength),
    /// It is a block device with this number of sectors, and not with that of the store to be made.
    DeviceSize(u64),
    /// It is a block device with something at its front.
    NotBlank,
    /// It has a store of this version, which is a later one than the program knows.
    LaterVersion(u32),
    /// It could not be opened, with the system's reason.
    Unopened(String),
    /// It could not be made, with the system's reason.
    Unmade(String),
    /// It could not be read, with the system's reason.
    Unread(String),
    /// It could not be written or given its length, with the system's reason.
    Unwritten(String),
    /// It could not be synced to the disk, with the system's reason.
    Unsynced(String),
    /// The command made it, could not write it or give it its length, and removed it, with the system's reason.
    NewUnwritten(String),
    /// The command made it, could not sync it to the disk, and removed it, with the system's reason.
    NewUnsynced(String),
}

// Returns what to do about a file that can't be read. A device has the remedy of its refusal, and so has one that can't be written.
fn unread_remedy(refusal: Refusal) -> &'static str
    ensures { result.now ≡ unread_remedy refusal }
{
    match refusal {
        Refusal::Io(_) => READABLE_FILE,
        _ => refusal.remedy(),
    }
}

fn unwritten_remedy(refusal: Refusal) -> &'static str
    ensures { result.now ≡ unwritten_remedy refusal }
{
    match refusal {
        Refusal::Io(_) => ROOM_ON_THE_DISK,
        _ => refusal.remedy(),
    }
}

impl FileReason {
    // Returns what to do about a refusal for this reason, in a sentence.
    pub(crate) fn remedy(&self, refusal: Refusal) -> &'static str
        ensures { result.now ≡ reason_remedy self.now refusal }
    {
        match self {
            FileReason::Locked => WAIT,
            FileReason::Exists => NEW_PATH,
            FileReason::NamedWithReturn => PATH_AND_RIGHTS,
            FileReason::Empty => refusal.remedy(),
            FileReason::Folder | FileReason::NotRegular => NO_FOLDER,
            FileReason::Length(_) => FILE_OF_A_STORE,
            FileReason::OtherLength(other) => other.remedy(),
            FileReason::DeviceSize(_) => SIZE_OF_THE_DEVICE,
            FileReason::NotBlank => BLANK_DEVICE,
            FileReason::LaterVersion(_) => LATER_PROGRAM,
            FileReason::Unopened(_) => PATH_AND_RIGHTS,
            FileReason::Unmade(_) => FOLDER_OF_A_NEW_FILE,
            FileReason::Unread(_) => unread_remedy(refusal),
            FileReason::Unwritten(_) | FileReason::Unsynced(_) => unwritten_remedy(refusal),
            FileReason::NewUnwritten(_) | FileReason::NewUnsynced(_) => ROOM_FOR_THE_NEW_FILE,
        }
    }
}

impl fmt::Display for FileReason {
    ghost use Rattle.std.specs.Prelude.{Some};
    ghost use Rattle.cli_reports.specs.FailedFile.{reason_text};

    ghost output = { λ reason. Some (reason_text reason) };

    fn fmt<W: fmt::Write>(&self, f: &mut fmt::Formatter<W>) -> fmt::Result {
        match self {
            FileReason::Locked => f.write_str("is locked by another program"),
            FileReason::Exists => f.write_str("exists already"),
            FileReason::NamedWithReturn => f.write_str(
                "is named with a carriage return at its end: `tr -d '\\r'` removes those of the script",
            ),
            FileReason::Empty => f.write_str("is empty"),
            FileReason::Folder => f.write_str("is a folder"),
            FileReason::NotRegular => f.write_str("is not a regular file"),
            FileReason::Length(bytes) => write!(f, "has {bytes} bytes"),
            FileReason::OtherLength(other) => write!(f, "{other}"),
            FileReason::DeviceSize(sectors) => {
                write!(f, "is a block device of {sectors} sectors of 512 bytes")
            }
            FileReason::NotBlank => {
                f.write_str("is a block device whose first 2048 sectors are not all zeros")
            }
            FileReason::LaterVersion(version) => write!(
                f,
                "is a store of version {version}, which this program does not know"
            ),
            FileReason::Unopened(text) => write!(f, "cannot be opened: {text}"),
            FileReason::Unmade(text) => write!(f, "cannot be made: {text}"),
            FileReason::Unread(text) => write!(f, "cannot be read: {text}"),
            FileReason::Unwritten(text) => write!(f, "cannot be written: {text}"),
            FileReason::Unsynced(text) => write!(f, "cannot be synced: {text}"),
            FileReason::NewUnwritten(text) => write!(f, "cannot be written: {text}"),
            FileReason::NewUnsynced(text) => write!(f, "cannot be synced: {text}"),
        }
    }
}

/// A file that the command line or a script names and that can't be used, and why.
#[derive(Drop)]
pub struct FailedFile {
    pub(crate) path: String,
    pub(crate) reason: FileReason,
}

impl FailedFile {
    /// Returns `None` if the path can't be shown on a terminal, or if memory for it is refused.
    pub fn new(alloc: Global, path: &str, reason: FileReason) -> Option<FailedFile>
        ensures path { IfSome result (λ file. path_of file ≡ path.now) }
        ensures reason { IfSome result (λ file. reason_of file ≡ reason) }
        ensures shown { IfSome result (λ file. list_any is_unshown (chars (path_of file)) ≡ false) }
    {
        if has_unshown(path) {
            return None;
        }
        Some(FailedFile {
            path: String::from_str(alloc, path).ok()?,
            reason,
        })
    }
}
