// Makes a device over a file.
ghost use Rattle.std.specs.Prelude.{◌≡◌, true, false, []};
ghost use Rattle.sector_dev.specs.View.{file_of, story_over, failures_of, has_stopped, IsEmpty};

use super::FileDevice;
use crate::SectorFile;
use crate::buffer::SectorBuffer;
use std::alloc::Global;

impl<F: SectorFile + Drop> FileDevice<F> {
    /// Creates a device over a file, none of whose writes or syncs has failed.
    pub fn over(alloc: Global, file: F) -> FileDevice<F>
        requires { F.sound file ≡ true }
        ensures file { file_of result ≡ file }
        ensures story { story_over result ≡ F.story file }
        ensures failed { failures_of result ≡ 0 }
        ensures running { has_stopped result ≡ false }
        ensures empty { IsEmpty result }
    {
        FileDevice {
            file,
            failed: 0,
            stopped: false,
            writes: SectorBuffer::empty(alloc),
            ahead: SectorBuffer::empty(alloc),
        }
    }
    /// Gives back the file, which stays open and locked: after a failure a device can be made of it anew. Writes that wait in the buffer are lost.
    pub fn into_file(self) -> F
        ensures { result ≡ file_of self }
    {
        self.file
    }
}
