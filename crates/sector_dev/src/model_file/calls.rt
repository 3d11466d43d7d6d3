// The calls of a file in memory.
ghost use Rattle.std.specs.Prelude.{◌≡◌, ◌≤◌, ◌<◌, ◌+◌, ◌^◌, ℕ, List, Option, [], get_or, true, length, Some};
ghost use Rattle.std.specs.Bool.{OnTrue, OnFalse};
ghost use Rattle.sector_dev.specs.Disk.{now, Each, Flushes, IsSafe, IsWhole};
ghost use Rattle.sector_dev.specs.FileHistory.{SetsRow, file_story, marked_at};
ghost use Rattle.sector_dev.specs.Rows.{Marks, row_from, grown};
ghost use Rattle.sector_dev.specs.View.{history_of_file};
ghost use Rattle.sector_dev.specs.inner.Stored.{stored_at, shown_in};
ghost use Rattle.sector_dev.specs.laws.FileHistory.{file_shows, file_begun};

use super::ModelFile;
use crate::file_log::{FileEvent, record_marked_sync, record_row, record_sync};
use crate::stored::{StoredSector, make_durable, make_marked_durable, reach, read_stored};
use crate::{FileFault, SECTOR_BYTES, SectorFile};

// Reads sectors. Returns `false` if one is unreadable.
fn read_row(stored: &[StoredSector], start: usize, to: &mut [[u8; SECTOR_BYTES]]) -> bool
    requires { start + length to.old < 2 ^ 64 }
    ensures len { length to.new ≡ length to.old }
    ensures read { OnTrue result ((j : ℕ) → j < length to.new → shown_in (stored_at stored.now (start + j)) ≡ Some (get_or to.new j [])) }
{
    for i in 0..to.len() {
        if !read_stored(stored, start + i, &mut to[i]) {
            return false;
        }
    }
    true
}

// Writes sectors.
fn set_row(stored: &mut [StoredSector], start: usize, contents: &[[u8; SECTOR_BYTES]])
    requires { start + length contents.now ≤ length stored.old }
    ensures { SetsRow start contents.now stored.old stored.new }
{
    for (i, content) in contents.iter().enumerate() {
        stored[start + i].newest = Some(*content);
    }
}

// Makes room for the marks of the first `count` sectors. Returns `false` if memory was refused.
fn reach_marks(marks: &mut Vec<bool>, count: usize) -> bool
    ensures same { (n : ℕ) → marked_at marks.new.items n ≡ marked_at marks.old.items n }
    ensures reached { OnTrue result (count ≤ length marks.new.items) }
{
    let missing = count.saturating_sub(marks.len());
    for _ in 0..missing {
        if marks.push(false).is_err() {
            return false;
        }
    }
    true
}

// Marks `count` sectors from this one on. Returns `false` if memory was refused.
fn mark_row(marks: &mut Vec<bool>, start: usize, count: usize) -> bool
    requires { start + count < 2 ^ 64 }
    ensures { OnTrue result (Marks start count (marked_at marks.old.items) (marked_at marks.new.items)) }
{
    if !reach_marks(marks, start + count) {
        return false;
    }
    for n in start..start + count {
        marks[n] = true;
    }
    true
}

// Makes room for these sectors and records a write of them. Returns `false` if memory was refused.
fn make_room(
    stored: &mut Vec<StoredSector>,
    log: &mut Vec<FileEvent>,
    start: u64,
    contents: &[[u8; SECTOR_BYTES]],
) -> bool
    requires { start + length contents.now < 2 ^ 64 }
    ensures same { (n : ℕ) → stored_at stored.new.items n ≡ stored_at stored.old.items n }
    ensures reached { OnTrue result (start + length contents.now ≤ length stored.new.items) }
    ensures recorded { OnTrue result ((first : List (Option (List ℕ))) → file_story first log.new.items ≡ grown (row_from start contents.now) (file_story first log.old.items)) }
    ensures whole { (first : List (Option (List ℕ))) → Each IsWhole (file_story first log.old.items) → Each IsWhole (file_story first log.new.items) }
    ensures full { OnFalse result (log.new.items ≡ log.old.items) }
{
    reach(stored, start as usize + contents.len()) && record_row(log, start, contents)
}

// Counts down to 0, and returns whether this call reached it.
fn comes_now(left: &mut u64) -> bool {
    let comes = *left == 1;
    *left = left.saturating_sub(1);
    comes
}

impl ModelFile {
    // Writes these sectors. Returns `false` if memory was refused.
    fn put_row(&mut self, start: u64, contents: &[[u8; SECTOR_BYTES]]) -> bool
        requires { start + length contents.now ≤ self.old.sectors }
        ensures size { self.new.sectors ≡ self.old.sectors }
        ensures sound { self.new.sound ≡ self.old.sound }
        ensures changed { self.new.changed ≡ self.old.changed }
        ensures written { OnTrue result (history_of_file self.new ≡ grown (row_from start contents.now) (history_of_file self.old)) }
        ensures failed { OnFalse result (history_of_file self.new ≡ history_of_file self.old) }
    {
        // the number of sectors fits, so their places do
        let _sectors = self.sectors;
        if !make_room(&mut self.stored, &mut self.log, start, contents) {
            return false;
        }
        set_row(&mut self.stored, start as usize, contents);
        true
    }

    // Makes safe what reads return. Returns `false` if memory was refused.
    fn sync_all_sectors(&mut self) -> bool
        ensures size { self.new.sectors ≡ self.old.sectors }
        ensures sound { self.new.sound ≡ self.old.sound }
        ensures flushed { OnTrue result (Flushes (history_of_file self.old) (history_of_file self.new)) }
        ensures safe { OnTrue result ((n : ℕ) → IsSafe (now (history_of_file self.new)) n ((now (history_of_file self.old)).at n).shown) }
        ensures failed { OnFalse result (history_of_file self.new ≡ history_of_file self.old) }
    {
        if !record_sync(&mut self.log) {
            return false;
        }
        make_durable(&mut self.stored);
        true
    }

    // Makes safe what was written since the last sync. Returns `false` if memory was refused.
    fn sync_changed_sectors(&mut self) -> bool
        ensures size { self.new.sectors ≡ self.old.sectors }
        ensures sound { self.new.sound ≡ self.old.sound }
        ensures changed { OnTrue result ((n : ℕ) → marked_at self.old.changed.items n ≡ true
            → IsSafe (now (history_of_file self.new)) n ((now (history_of_file self.old)).at n).shown) }
        ensures failed { OnFalse result (history_of_file self.new ≡ history_of_file self.old) }
    {
        if !record_marked_sync(&mut self.log, &self.changed) {
            return false;
        }
        make_marked_durable(&mut self.stored, &self.changed);
        true
    }

    // Makes safe all that a sync can make so. Returns `false` if memory was refused.
    fn sync_known_sectors(&mut self) -> bool
        ensures size { self.new.sectors ≡ self.old.sectors }
        ensures sound { self.new.sound ≡ self.old.sound }
        ensures flushed { OnTrue result (self.old.sound ≡ true → Flushes (history_of_file self.old) (history_of_file self.new)) }
        ensures changed { OnTrue result ((n : ℕ) → marked_at self.old.changed.items n ≡ true
            → IsSafe (now (history_of_file self.new)) n ((now (history_of_file self.old)).at n).shown) }
        ensures failed { OnFalse result (history_of_file self.new ≡ history_of_file self.old) }
    {
        if self.sound {
            self.sync_all_sectors()
        } else {
            self.sync_changed_sectors()
        }
    }
}

impl SectorFile for ModelFile {
    ghost size = { λ f. f.sectors };

    ghost tells = { true };

    ghost story = { history_of_file };

    ghost sound = { λ f. f.sound };

    ghost changed = { λ f n. marked_at f.changed.items n };

    ghost shows = { λ f told. file_shows f.start.items f.log.items };

    ghost begun = { λ f told. file_begun f.start.items f.log.items };

    ghost contents = { λ f told. f.contents };

    fn sectors(&self) -> u64 {
        self.sectors
    }

    fn read_at(&mut self, start: u64, to: &mut [[u8; SECTOR_BYTES]]) -> Result<(), FileFault> {
        // the number of sectors fits, so their places do
        let _sectors = self.sectors;
        if read_row(&self.stored, start as usize, to) {
            Ok(())
        } else {
            Err(FileFault::Failed)
        }
    }

    fn write_at(&mut self, start: u64, contents: &[[u8; SECTOR_BYTES]]) -> Result<(), FileFault> {
        // the number of sectors fits, so their places do
        let _sectors = self.sectors;
        let fails = comes_now(&mut self.fail);
        if !mark_row(&mut self.changed, start as usize, contents.len())
            || !self.put_row(start, contents)
        {
            return Err(FileFault::NotBegun);
        }
        if fails {
            self.sound = false;
            self.changed.clear();
            return Err(FileFault::Failed);
        }
        Ok(())
    }

    fn sync_data(&mut self) -> Result<(), FileFault> {
        if comes_now(&mut self.fail) {
            self.sound = false;
            self.changed.clear();
            return Err(FileFault::Failed);
        }
        let synced = self.sync_known_sectors();
        self.changed.clear();
        if synced {
            Ok(())
        } else {
            self.sound = false;
            Err(FileFault::Failed)
        }
    }
}
