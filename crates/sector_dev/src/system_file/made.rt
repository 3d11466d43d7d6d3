// Makes the sectors of a file of the system.
ghost use Rattle.std.specs.Prelude.{◌≡◌, ◌≤◌};
ghost use Rattle.sector_dev.specs.Confirming.{is_in_doubt};
ghost use Rattle.sector_dev.specs.View.{opened_file, sectors_in};
ghost use Rattle.sector_dev.specs.declared.file.TheConstants.{LEAST_SECTORS, MOST_SECTORS};

use super::{FileHandle, PlainFile};
use crate::{ConfirmedFile, LockFile};
use std::fs::OpenFile;
use std::io::{self, Read, Seek, Write};

impl<F: Read + Write + Seek + OpenFile + Drop> ConfirmedFile<PlainFile<F>> {
    // A file with this number of sectors. It is in doubt if another program may have left it so, and it can be written.
    pub(crate) fn of_system(file: F, sectors: u64, in_doubt: bool) -> ConfirmedFile<PlainFile<F>>
        requires least { LEAST_SECTORS ≤ sectors }
        requires most { sectors ≤ MOST_SECTORS }
        ensures sectors { sectors_in result ≡ sectors }
        ensures file { opened_file result ≡ file }
        ensures doubt { is_in_doubt result ≡ in_doubt }
    {
        ConfirmedFile::over(PlainFile { file, sectors }, in_doubt)
    }

    /// Gives back the open file.
    pub fn into_file(self) -> F
        ensures { result ≡ opened_file self }
    {
        self.into_inner().file
    }
}

impl<F: Read + Write + Seek + OpenFile + LockFile + Drop> ConfirmedFile<PlainFile<F>> {
    /// Returns a second handle of the open file.
    ///
    /// # Errors
    /// An error if the system refuses.
    pub(crate) fn handle(&self) -> io::Result<FileHandle<F>> {
        FileHandle::of(&self.inner().file)
    }
}
