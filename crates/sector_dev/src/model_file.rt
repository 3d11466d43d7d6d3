// A file in memory for tests.
ghost use Rattle.std.specs.Prelude.{◌≡◌, ℕ};
ghost use Rattle.sector_dev.specs.Disk.{now, Each, IsWhole};
ghost use Rattle.sector_dev.specs.FileHistory.{file_story};
ghost use Rattle.sector_dev.specs.inner.Props.{each_prop};
ghost use Rattle.sector_dev.specs.inner.Stored.{stored_at, stored_of};

use crate::SECTOR_BYTES;
use crate::file_log::FileEvent;
use crate::stored::StoredSector;

mod calls;
mod crash;
mod made;

/// A file in memory for tests, which keeps the laws of `SectorFile` and tells its story. A write or a sync of it can be made to fail, and it can crash.
///
/// Of a write that failed, a crash leaves each sector old, new or unreadable, as the choice says. A sync that follows a failed call makes safe only what was
/// written since that call and since the last sync, as a system may do that has forgotten what it could not write.
#[derive(Drop)]
pub struct ModelFile {
    sectors: u64,
    // the initial contents: zeros past the end
    start: Vec<Option<[u8; SECTOR_BYTES]>>,
    // every write and sync since then, which determines the story of the contracts
    log: Vec<FileEvent>,
    // the effect of these calls: a sector past the end was never written
    stored: Vec<StoredSector>,
    sound: bool,
    // which sectors were written since the last sync and since the last failed call: none past the end
    changed: Vec<bool>,
    // the write or sync that fails, counted from 1 for the next one; 0 if there is none
    fail: u64,
    ghost agrees: { (n : ℕ) → stored_at stored.items n ≡ stored_of ((now (file_story start.items log.items)).at n) },
    ghost contents: { Each IsWhole (file_story start.items log.items) } by { each_prop (file_story start.items log.items) },
}
