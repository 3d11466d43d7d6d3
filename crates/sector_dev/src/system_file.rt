// A file of the system.
ghost use Rattle.std.specs.Prelude.{◌≡◌, ◌≤◌, ◌<◌, ◌*◌, ◌+◌, [], length, false, true, OnOk, is_ok};
ghost use Rattle.std.proofs.Common.{sym};
ghost use Rattle.std.proofs.lemmas.Bool.{true≢false};
ghost use Rattle.sector_dev.specs.laws.Crash.{blank_shows};
ghost use Rattle.sector_dev.specs.Written.{Writes};
ghost use Rattle.sector_dev.specs.declared.file.TheConstants.{MOST_SECTORS};

use crate::{ConfirmedFile, FileFault, SECTOR_BYTES, SectorFile};
use std::fs::OpenFile;
use std::io::{self, Read, Seek, SeekFrom, Write};

mod handle;
mod locking;
mod made;

pub use handle::FileHandle;
pub use locking::LockFile;

/// A file of the system, which another program may have left in doubt.
pub type SystemFile<F> = ConfirmedFile<PlainFile<F>>;

/// A file of the system as it is, which holds its sectors in order. It tells no story: that it keeps the laws of `SectorFile` is trusted
/// (docs/definitions/device.md).
#[derive(Drop)]
pub struct PlainFile<F: Read + Write + Seek + OpenFile + Drop> {
    file: F,
    sectors: u64,
    ghost within: { sectors ≤ MOST_SECTORS },
}

fn read_at<F: Read + Seek>(
    file: &mut F,
    start: u64,
    contents: &mut [[u8; SECTOR_BYTES]],
) -> io::Result<()>
    requires { start ≤ MOST_SECTORS }
    ensures { length contents.new ≡ length contents.old }
{
    file.seek(SeekFrom::Start(start * SECTOR_BYTES as u64))?;
    file.read_exact(contents.as_flattened_mut())
}

fn write_at<F: Write + Seek>(
    file: &mut F,
    start: u64,
    contents: &[[u8; SECTOR_BYTES]],
) -> io::Result<()>
    requires { start ≤ MOST_SECTORS }
    ensures { OnOk result (Writes ⟦<F as Write>⟧ ⟦<F as Seek>⟧ (start * 512) contents.now file.old file.new) }
{
    file.seek(SeekFrom::Start(start * SECTOR_BYTES as u64))?;
    file.write_all(contents.as_flattened())
}

fn answer(done: io::Result<()>) -> Result<(), FileFault>
    ensures { is_ok result ≡ is_ok done }
{
    match done {
        Ok(()) => Ok(()),
        Err(_) => Err(FileFault::Failed),
    }
}

impl<F: Read + Write + Seek + OpenFile + Drop> SectorFile for PlainFile<F> {
    ghost size = { λ f. f.sectors };

    ghost tells = { false };

    ghost story = { λ f. [] };

    ghost sound = { λ f. true };

    ghost changed = { λ f n. false };

    ghost shows = { λ f told. blank_shows };

    ghost begun = { λ f told. absurd (true≢false (sym told)) };

    ghost contents = { λ f told. tt };

    fn sectors(&self) -> u64 {
        self.sectors
    }

    fn read_at(&mut self, start: u64, to: &mut [[u8; SECTOR_BYTES]]) -> Result<(), FileFault> {
        answer(read_at(&mut self.file, start, to))
    }

    // A write that failed may have begun: whether it did is not known.
    fn write_at(&mut self, start: u64, contents: &[[u8; SECTOR_BYTES]]) -> Result<(), FileFault>
        requires { start + length contents.now ≤ self.old.sectors }
        ensures size { self.new.sectors ≡ self.old.sectors }
        ensures written { OnOk result (Writes ⟦<F as Write>⟧ ⟦<F as Seek>⟧ (start * 512) contents.now self.old.file self.new.file) }
    {
        answer(write_at(&mut self.file, start, contents))
    }

    fn sync_data(&mut self) -> Result<(), FileFault> {
        answer(self.file.sync_data())
    }
}
