// The log of a file in memory.
ghost use Rattle.std.specs.Prelude.{◌≡◌, ◌∷◌, ℕ, List, Option};
ghost use Rattle.std.specs.Bool.{OnTrue, OnFalse};
ghost use Rattle.sector_dev.specs.Disk.{now, Each, IsWhole, Flushes};
ghost use Rattle.sector_dev.specs.Rows.{row_from, grown};
ghost use Rattle.sector_dev.specs.FileHistory.{file_story, flushed_where, marked_at};

use crate::SECTOR_BYTES;
use crate::contents::have_bytes;

// A write that began, or a sync that succeeded.
#[derive(Drop)]
pub(crate) enum FileEvent {
    // these sectors, from this one on, were written
    Wrote(u64, Vec<[u8; SECTOR_BYTES]>),
    // what reads returned was synced
    Synced,
    // what reads returned of these sectors was synced
    SyncedMarked(Vec<bool>),
}

// Records a write. Returns `false` if memory was refused.
pub(crate) fn record_row(
    log: &mut Vec<FileEvent>,
    start: u64,
    contents: &[[u8; SECTOR_BYTES]],
) -> bool
    ensures recorded { OnTrue result ((first : List (Option (List ℕ))) → file_story first log.new.items ≡ grown (row_from start contents.now) (file_story first log.old.items)) }
    ensures full { OnFalse result (log.new.items ≡ log.old.items) }
    ensures whole { (first : List (Option (List ℕ))) → Each IsWhole (file_story first log.old.items) → Each IsWhole (file_story first log.new.items) }
{
    have_bytes(contents);
    let mut row = Vec::new(*log.allocator());
    let copied = row.extend_from_slice(contents).is_ok();
    if !copied {
        return false;
    }
    log.push(FileEvent::Wrote(start, row)).is_ok()
}

// Records a sync. Returns `false` if memory was refused.
pub(crate) fn record_sync(log: &mut Vec<FileEvent>) -> bool
    ensures recorded { OnTrue result ((first : List (Option (List ℕ))) → Flushes (file_story first log.old.items) (file_story first log.new.items)) }
    ensures full { OnFalse result (log.new.items ≡ log.old.items) }
    ensures whole { (first : List (Option (List ℕ))) → Each IsWhole (file_story first log.old.items) → Each IsWhole (file_story first log.new.items) }
{
    log.push(FileEvent::Synced).is_ok()
}

// Records a sync of the marked sectors alone. Returns `false` if memory was refused.
pub(crate) fn record_marked_sync(log: &mut Vec<FileEvent>, marks: &[bool]) -> bool
    ensures recorded { OnTrue result ((first : List (Option (List ℕ))) → file_story first log.new.items
        ≡ flushed_where (marked_at marks.now) (now (file_story first log.old.items)) ∷ now (file_story first log.old.items) ∷ file_story first log.old.items) }
    ensures full { OnFalse result (log.new.items ≡ log.old.items) }
    ensures whole { (first : List (Option (List ℕ))) → Each IsWhole (file_story first log.old.items) → Each IsWhole (file_story first log.new.items) }
{
    match Vec::from_slice(*log.allocator(), marks) {
        Ok(marks) => log.push(FileEvent::SyncedMarked(marks)).is_ok(),
        Err(_) => false,
    }
}
