// A second handle of the file of a device.
use crate::LockFile;
use std::fs::{Metadata, OpenFile};
use std::io;

/// A second handle of the open file of a device. Both have the lock together, and the file stays open as long as one of them is.
#[derive(Drop)]
pub struct FileHandle<F: OpenFile + LockFile + Drop> {
    file: F,
}

impl<F: OpenFile + LockFile + Drop> FileHandle<F> {
    pub(crate) fn of(file: &F) -> io::Result<FileHandle<F>> {
        Ok(FileHandle {
            file: file.try_clone()?,
        })
    }

    /// Returns what the system says of the file itself, whatever is at its path by now.
    ///
    /// # Errors
    /// An error if the system refuses.
    pub fn metadata(&self) -> io::Result<Metadata> {
        self.file.metadata()
    }

    /// Gives back the lock. Others may then change the file, so the device may no longer be read or written.
    ///
    /// # Errors
    /// An error if the system refuses.
    pub fn give_back(&self) -> io::Result<()> {
        self.file.give_back()
    }
}
