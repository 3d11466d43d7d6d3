// Reads and writes of a device over a file.
ghost use Rattle.std.specs.Prelude.{◌≡◌, ◌<◌, ◌≤◌, ◌+◌, ◌⊎◌, [], length, OnOk, OnErr, Some, None, true, false};
ghost use Rattle.std.specs.Bool.{OnTrue, OnFalse};
ghost use Rattle.std.specs.Option.{option_copied, option_or};
ghost use Rattle.sector_dev.specs.Buffer.{content_in};
ghost use Rattle.sector_dev.specs.Disk.{now, Passes, Flushes};
ghost use Rattle.sector_dev.specs.Rows.{row_from, grown};
ghost use Rattle.sector_dev.specs.Behind.{ReadsAs};
ghost use Rattle.sector_dev.specs.View.{story_over};

use super::FileDevice;
use crate::buffer::SectorBuffer;
use crate::contents::have_bytes;
use crate::{FileFault, SECTOR_BYTES, SectorFile};
use std::slice;

// Fills the buffer with this sector and some after it. Returns `false` if memory or the file did not allow it.
fn fill<F: SectorFile>(file: &mut F, ahead: &mut SectorBuffer, n: u64) -> bool
    requires inside { n < F.size file.old }
    ensures size { F.size file.new ≡ F.size file.old }
    ensures sound { F.sound file.new ≡ F.sound file.old }
    ensures story { F.tells ≡ true → F.story file.new ≡ F.story file.old }
    ensures reads { OnTrue result (F.sound file.old ≡ true → F.tells ≡ true → ReadsAs (now (F.story file.old)) ahead.new.start ahead.new.contents.items) }
{
    let most = file.sectors() - n;
    let count = ahead.count_from(n).min(most as usize);
    ahead.start = n;
    if ahead.contents.resize(count, [0; SECTOR_BYTES]).is_err() {
        return false;
    }
    file.read_at(n, &mut ahead.contents).is_ok()
}

// Reads this sector and some after it, as far as memory and the file allow.
fn read_ahead<F: SectorFile>(file: &mut F, ahead: &mut SectorBuffer, n: u64)
    requires inside { n < F.size file.old }
    ensures size { F.size file.new ≡ F.size file.old }
    ensures sound { F.sound file.new ≡ F.sound file.old }
    ensures story { F.tells ≡ true → F.story file.new ≡ F.story file.old }
    ensures reads { F.sound file.old ≡ true → F.tells ≡ true → ReadsAs (now (F.story file.old)) ahead.new.start ahead.new.contents.items }
{
    if !fill(file, ahead, n) {
        ahead.clear();
    }
}

// Returns the content of a sector, if it is buffered or was read ahead.
fn in_memory<'a>(
    writes: &'a SectorBuffer,
    ahead: &'a SectorBuffer,
    n: u64,
) -> Option<&'a [u8; SECTOR_BYTES]>
    ensures { option_copied result ≡ option_or (content_in writes.now n) (content_in ahead.now n) }
{
    writes.get(n).or(ahead.get(n))
}

// Copies the content of such a sector. Returns `false` if it is not in memory.
fn copy_from_memory(
    writes: &SectorBuffer,
    ahead: &SectorBuffer,
    n: u64,
    to: &mut [u8; SECTOR_BYTES],
) -> bool
    ensures there { OnTrue result (option_or (content_in writes.now n) (content_in ahead.now n) ≡ Some to.new) }
    ensures absent { OnFalse result (option_or (content_in writes.now n) (content_in ahead.now n) ≡ None) }
{
    match in_memory(writes, ahead, n) {
        Some(content) => {
            *to = *content;
            true
        }
        None => false,
    }
}

// Writes sectors to the file. If that fails after it began, the device has stopped.
fn write_through<F: SectorFile>(
    file: &mut F,
    stopped: &mut bool,
    start: u64,
    contents: &[[u8; SECTOR_BYTES]],
) -> Result<(), FileFault>
    requires { start + length contents.now ≤ F.size file.old }
    ensures size { F.size file.new ≡ F.size file.old }
    ensures ok { OnOk result ((stopped.new ≡ stopped.old) × (F.sound file.new ≡ F.sound file.old)) }
    ensures written { OnOk result (F.tells ≡ true → F.story file.new ≡ grown (row_from start contents.now) (F.story file.old)) }
    ensures err { OnErr result (((stopped.new ≡ stopped.old) × (F.sound file.new ≡ F.sound file.old) × (F.tells ≡ true → F.story file.new ≡ F.story file.old))
        ⊎ ((stopped.new ≡ true) × (F.tells ≡ true → F.story file.new ≡ grown (row_from start contents.now) (F.story file.old)))) }
{
    match file.write_at(start, contents) {
        Ok(()) => Ok(()),
        Err(FileFault::NotBegun) => Err(FileFault::NotBegun),
        Err(FileFault::Failed) => {
            *stopped = true;
            Err(FileFault::Failed)
        }
    }
}

impl<F: SectorFile + Drop> FileDevice<F> {
    // Writes the buffered writes to the file.
    fn flush(&mut self) -> Result<(), FileFault>
        requires running { self.old.stopped ≡ false }
        ensures size { F.size self.new.file ≡ F.size self.old.file }
        ensures failed { self.new.failed ≡ self.old.failed }
        ensures story { F.tells ≡ true → story_over self.new ≡ story_over self.old }
        ensures running { OnOk result (self.new.stopped ≡ false) }
        ensures none { OnOk result (self.new.writes.contents.items ≡ []) }
    {
        if self.writes.contents.is_empty() {
            return Ok(());
        }
        self.ahead.clear();
        match write_through(
            &mut self.file,
            &mut self.stopped,
            self.writes.start,
            &self.writes.contents,
        ) {
            Ok(()) => {
                self.writes.clear();
                Ok(())
            }
            Err(fault) => Err(fault),
        }
    }

    // Writes sectors to the file, with nothing buffered.
    fn write_now(&mut self, start: u64, contents: &[[u8; SECTOR_BYTES]]) -> Result<(), FileFault>
        requires inside { start + length contents.now ≤ F.size self.old.file }
        requires running { self.old.stopped ≡ false }
        requires none { self.old.writes.contents.items ≡ [] }
        ensures size { F.size self.new.file ≡ F.size self.old.file }
        ensures failed { self.new.failed ≡ self.old.failed }
        ensures ok { OnOk result (F.tells ≡ true → story_over self.new ≡ grown (row_from start contents.now) (story_over self.old)) }
        ensures err { OnErr result (F.tells ≡ true → (story_over self.new ≡ story_over self.old)
            ⊎ (story_over self.new ≡ grown (row_from start contents.now) (story_over self.old))) }
    {
        self.ahead.clear();
        write_through(&mut self.file, &mut self.stopped, start, contents)
    }

    // Buffers these sectors, or returns `false`.
    fn hold(&mut self, start: u64, contents: &[[u8; SECTOR_BYTES]]) -> bool
        requires inside { start + length contents.now ≤ F.size self.old.file }
        requires running { self.old.stopped ≡ false }
        ensures file { self.new.file ≡ self.old.file }
        ensures failed { self.new.failed ≡ self.old.failed }
        ensures running { self.new.stopped ≡ false }
        ensures held { OnTrue result (story_over self.new ≡ grown (row_from start contents.now) (story_over self.old)) }
        ensures same { OnFalse result (story_over self.new ≡ story_over self.old) }
        ensures items { OnFalse result (self.new.writes.contents.items ≡ self.old.writes.contents.items) }
    {
        have_bytes(contents);
        self.writes.append(start, contents)
    }

    // Buffers these sectors, or writes them after the buffered ones.
    pub(super) fn put(
        &mut self,
        start: u64,
        contents: &[[u8; SECTOR_BYTES]],
    ) -> Result<(), FileFault>
        requires inside { start + length contents.now ≤ F.size self.old.file }
        requires running { self.old.stopped ≡ false }
        ensures size { F.size self.new.file ≡ F.size self.old.file }
        ensures failed { self.new.failed ≡ self.old.failed }
        ensures ok { OnOk result (F.tells ≡ true → story_over self.new ≡ grown (row_from start contents.now) (story_over self.old)) }
        ensures err { OnErr result (F.tells ≡ true → (story_over self.new ≡ story_over self.old)
            ⊎ (story_over self.new ≡ grown (row_from start contents.now) (story_over self.old))) }
    {
        if self.hold(start, contents) {
            return Ok(());
        }
        match self.flush() {
            Ok(()) => {}
            Err(fault) => return Err(fault),
        }
        if self.hold(start, contents) {
            return Ok(());
        }
        // there are too many to buffer, or no memory for them
        self.write_now(start, contents)
    }

    pub(super) fn get(&mut self, n: u64, to: &mut [u8; SECTOR_BYTES]) -> Result<(), FileFault>
        requires inside { n < F.size self.old.file }
        requires running { self.old.stopped ≡ false }
        ensures size { F.size self.new.file ≡ F.size self.old.file }
        ensures failed { self.new.failed ≡ self.old.failed }
        ensures story { F.tells ≡ true → story_over self.new ≡ story_over self.old }
        ensures content { OnOk result (F.tells ≡ true → ((now (story_over self.old)).at n).shown ≡ Some to.new) }
    {
        if copy_from_memory(&self.writes, &self.ahead, n, to) {
            return Ok(());
        }
        read_ahead(&mut self.file, &mut self.ahead, n);
        if copy_from_memory(&self.writes, &self.ahead, n, to) {
            return Ok(());
        }
        self.file.read_at(n, slice::from_mut(to))
    }

    // Writes everything to the file and syncs it.
    pub(super) fn sync_file(&mut self) -> Result<(), FileFault>
        requires running { self.old.stopped ≡ false }
        ensures size { F.size self.new.file ≡ F.size self.old.file }
        ensures failed { self.new.failed ≡ self.old.failed }
        ensures ok { OnOk result (F.tells ≡ true → Flushes (story_over self.old) (story_over self.new)) }
        ensures err { OnErr result (F.tells ≡ true → Passes (story_over self.old) (story_over self.new)) }
    {
        match self.flush() {
            Ok(()) => {}
            Err(fault) => return Err(fault),
        }
        match self.file.sync_data() {
            Ok(()) => Ok(()),
            Err(fault) => {
                self.stopped = true;
                Err(fault)
            }
        }
    }
}
