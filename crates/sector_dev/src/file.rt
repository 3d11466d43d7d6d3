// A device over a file.
ghost use Rattle.std.specs.Prelude.{◌≡◌, ◌≤◌, ◌+◌, Bool, true, false, length};
ghost use Rattle.std.specs.Coded.{Π_prop};
ghost use Rattle.sector_dev.specs.Disk.{now, AreContents};
ghost use Rattle.sector_dev.specs.Behind.{ReadsAs};
ghost use Rattle.sector_dev.specs.inner.Props.{contents_prop, reads_prop};
ghost use Rattle.sector_dev.specs.declared.file.FileError.TheVariants.{Io};

use crate::SectorFile;
use crate::buffer::SectorBuffer;
use std::io;
use thiserror::Error;

mod calls;
mod laws;
mod made;
mod opening;
mod transfer;

/// Why a file can't be opened as a device.
#[derive(Clone, Copy, Debug, PartialEq, Eq, Error)]
pub enum FileError {
    /// G1: the system refused, or `create` found something at the path.
    #[error("G1 Io")]
    Io,
    /// G2: the size of the file is not a whole number of sectors, or is too small or too large for a device.
    #[error("G2 BadSize")]
    BadSize,
}

/// The minimum number of sectors of a device in a file.
pub const LEAST_SECTORS: u64 = 16;

/// The maximum number of sectors of a device in a file.
pub const MOST_SECTORS: u64 = 4_194_304;

/// A device over a file, which holds its sectors in order: `FileDevice<SystemFile<File>>` is one in a file of the system.
///
/// A run of neighbouring sectors is written in pieces of 256 KiB, and read ahead in growing ones. More than 128 sectors in one call are written at
/// once, after the buffered ones. Written sectors are in the file after the next successful sync.
///
/// Once a write to the file or a sync of it has failed, the device has stopped: each later call fails, and the file has to be opened again. Nothing that
/// was written before is then written a second time: what a sync that failed has left is not known.
#[derive(Drop)]
pub struct FileDevice<F: SectorFile + Drop> {
    file: F,
    failed: u64,
    // a write that began or a sync has failed
    stopped: bool,
    // buffered writes, which are not yet in the file
    writes: SectorBuffer,
    // sectors that were read ahead; dropped as soon as the file is written
    ahead: SectorBuffer,
    ghost within: { writes.start + length writes.contents.items ≤ F.size file },
    ghost contents: { AreContents writes.contents.items } by { contents_prop writes.contents.items },
    ghost sound: { stopped ≡ false → F.sound file ≡ true },
    ghost reads: { stopped ≡ false → F.tells ≡ true → ReadsAs (now (F.story file)) ahead.start ahead.contents.items } by { Π_prop (λ _. Π_prop (λ _. reads_prop (now (F.story file)) ahead.start ahead.contents.items)) },
}

impl From<io::Error> for FileError {
    ghost from_gives = { λ _ e. e ≡ Io };

    fn from(_: io::Error) -> FileError {
        FileError::Io
    }
}
