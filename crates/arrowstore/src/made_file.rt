// The new file of a command, by which it is known wherever another program moves it.
use sector_dev::{FileDevice, LockFile, SystemFile};
use std::fs::{self, Metadata, OpenFile};
use std::io::{Read, Seek, Write};
use std::os::unix::fs::MetadataExt;
use std::rt::Files;

/// A regular file, as its device and its inode name it as long as it is open.
#[derive(Clone, Copy, PartialEq, Eq)]
pub(crate) struct MadeFile {
    device: u64,
    inode: u64,
}

impl MadeFile {
    fn of(found: &Metadata) -> Option<MadeFile> {
        if found.is_file() {
            Some(MadeFile {
                device: found.dev(),
                inode: found.ino(),
            })
        } else {
            None
        }
    }

    /// Returns the regular file over which a device was made, whatever is at its path by now.
    pub(crate) fn of_device<F: Read + Write + Seek + OpenFile + LockFile + Drop>(
        device: &FileDevice<SystemFile<F>>,
    ) -> Option<MadeFile> {
        let handle = device.handle().ok()?;
        MadeFile::of(&handle.metadata().ok()?)
    }

    /// Returns whether the file is at this path.
    pub(crate) fn is_at<H: Files>(self, rt: &H, path: &str) -> bool {
        match fs::symlink_metadata(rt, path) {
            Ok(found) => MadeFile::of(&found) == Some(self),
            Err(_) => false,
        }
    }

    /// Returns whether an open file is a regular one, and another than the one that was made. Of one that the system does not describe that is
    /// assumed.
    pub(crate) fn is_other<F: OpenFile>(made: Option<MadeFile>, file: &F) -> bool {
        match file.metadata() {
            Ok(found) => found.is_file() && MadeFile::of(&found) != made,
            Err(_) => true,
        }
    }
}
