// Shows how much of a store's file was read and written, and notes failed calls. The file of the output is not opened. A locked file is opened once more.
use super::{LONG_WORK, ProgressLine, Stage, Target};
use arrowstore::{Failures, NotedFile};
use sector_dev::LockFile;
use std::alloc::{Allocator, Global};
use std::cell::Cell;
use std::fs::{Metadata, OpenFile, OpenOptions, Permissions};
use std::io::{self, ErrorKind, PipeReader, PipeWriter, Read, Seek, SeekFrom, Write};
use std::os::fd::BorrowedFd;
use std::os::unix::fs::MetadataExt;
use std::os::unix::net::SocketAddr;
use std::path::PathBuf;
use std::rt::Files;
use std::time::Clock;

/// The files of `files`, except that of `output`. While one is read or written, the line shows how much; a failed call is noted in `failures`. If it
/// `waits`, the lock of a file is waited for. A file at one of the `paths` is opened once more when it is locked.
#[derive(Drop)]
pub struct ProgressFiles<'a, C: Clock, T, H> {
    files: &'a H,
    line: Option<&'a ProgressLine<'a, C, T>>,
    failures: Option<&'a Failures>,
    output: Target,
    waits: bool,
    // A file keeps its path as one of these, so that no memory is taken for it.
    paths: &'a [String],
}

impl<'a, C: Clock, T, H> ProgressFiles<'a, C, T, H> {
    pub fn new(
        files: &'a H,
        line: Option<&'a ProgressLine<'a, C, T>>,
        failures: Option<&'a Failures>,
        output: Target,
        waits: bool,
        paths: &'a [String],
    ) -> ProgressFiles<'a, C, T, H> {
        ProgressFiles {
            files,
            line,
            failures,
            output,
            waits,
            paths,
        }
    }

    fn kept_path(&self, path: &str) -> Option<&'a str> {
        let found = self.paths.iter().find(|kept| kept.as_str() == path)?;
        Some(found.as_str())
    }
}

impl<C: Clock, T, H: Files> ProgressFiles<'_, C, T, H> {
    // Opens a file, unless the output is written to it: that would spoil a store.
    fn open_unless_output(&self, how: &OpenOptions, path: &str) -> io::Result<H::File> {
        let file = self.files.open_file(how, path)?;
        if self.output.is_file(&file.metadata()?) {
            return Err(io::Error::other("it is the output"));
        }
        Ok(file)
    }
}

impl<C: Clock, T, H: Alloc<A = Global>> Alloc for ProgressFiles<'_, C, T, H> {
    type A = Global;

    fn alloc(&self) -> Global {
        self.files.alloc()
    }
}

// Every method delegates, also those with a default: the trait's default costs more to prove than a call.
impl<'a, C: Clock, T: Write + Copy, H: Files + AllocGlobal> Files for ProgressFiles<'a, C, T, H> {
    type File = NotedFile<'a, ProgressFile<'a, C, T, H::File, H>>;

    type Dir = H::Dir;

    fn open_file(&self, how: &OpenOptions, path: &str) -> io::Result<Self::File> {
        let opened = self.open_unless_output(how, path);
        if let Some(failures) = self.failures {
            failures.note_opening(self.files.alloc(), path, &opened);
        }
        let file = ProgressFile {
            file: opened?,
            files: self.files,
            path: self.kept_path(path),
            again: Cell::new(None),
            line: self.line,
            waits: self.waits,
            bytes_read: 0,
            bytes_written: 0,
        };
        Ok(NotedFile::new(self.files.alloc(), file, path, self.failures))
    }

    fn open_dir(&self, path: &str) -> io::Result<H::Dir> {
        self.files.open_dir(path)
    }

    fn metadata(&self, path: &str) -> io::Result<Metadata> {
        self.files.metadata(path)
    }

    fn symlink_metadata(&self, path: &str) -> io::Result<Metadata> {
        self.files.symlink_metadata(path)
    }

    fn copy(&self, from: &str, to: &str) -> io::Result<u64> {
        self.files.copy(from, to)
    }

    fn rename(&self, from: &str, to: &str) -> io::Result<()> {
        self.files.rename(from, to)
    }

    fn remove_file(&self, path: &str) -> io::Result<()> {
        self.files.remove_file(path)
    }

    fn create_dir(&self, path: &str) -> io::Result<()> {
        self.files.create_dir(path)
    }

    fn remove_dir(&self, path: &str) -> io::Result<()> {
        self.files.remove_dir(path)
    }

    fn remove_dir_all<B: Allocator>(&self, alloc: B, path: &str) -> io::Result<()> {
        self.files.remove_dir_all(alloc, path)
    }

    fn canonicalize<B: Allocator>(&self, alloc: B, path: &str) -> io::Result<PathBuf<B>> {
        self.files.canonicalize(alloc, path)
    }

    fn read_link<B: Allocator>(&self, alloc: B, path: &str) -> io::Result<PathBuf<B>> {
        self.files.read_link(alloc, path)
    }

    fn hard_link(&self, original: &str, link: &str) -> io::Result<()> {
        self.files.hard_link(original, link)
    }

    fn set_permissions(&self, path: &str, perm: Permissions) -> io::Result<()> {
        self.files.set_permissions(path, perm)
    }

    fn symlink(&self, original: &str, link: &str) -> io::Result<()> {
        self.files.symlink(original, link)
    }

    fn pipe(&self) -> io::Result<(PipeReader, PipeWriter)> {
        self.files.pipe()
    }

    fn chown(&self, path: &str, uid: Option<u32>, gid: Option<u32>) -> io::Result<()> {
        self.files.chown(path, uid, gid)
    }

    fn lchown(&self, path: &str, uid: Option<u32>, gid: Option<u32>) -> io::Result<()> {
        self.files.lchown(path, uid, gid)
    }

    fn create_dir_with_mode(&self, path: &str, mode: u32) -> io::Result<()> {
        self.files.create_dir_with_mode(path, mode)
    }

    fn bind_unix(&self, socket: BorrowedFd<'_>, addr: &SocketAddr) -> io::Result<()> {
        self.files.bind_unix(socket, addr)
    }
}

/// A file whose reads and writes are shown. It waits for its lock if it is to, and is opened once more behind the lock.
#[derive(Drop)]
pub struct ProgressFile<'a, C: Clock, T, F, H> {
    file: F,
    files: &'a H,
    path: Option<&'a str>,
    again: Cell<Option<F>>,
    line: Option<&'a ProgressLine<'a, C, T>>,
    waits: bool,
    bytes_read: u64,
    bytes_written: u64,
}

impl<C: Clock, T: Write + Copy, F, H> ProgressFile<'_, C, T, F, H> {
    // Shows how many bytes were read or written in all; up to now they were `before`.
    fn tell(&self, stage: Stage, before: u64, bytes: u64) {
        if let Some(line) = self.line {
            // The end of reading a store is not reported, and the work after it may take long.
            if before / LONG_WORK < bytes / LONG_WORK {
                line.show(stage, bytes);
            } else {
                line.tell(stage, bytes);
            }
        }
    }
}

impl<C: Clock, T: Write + Copy, F: Read, H> Read for ProgressFile<'_, C, T, F, H> {
    ghost remaining = { λ file. F.remaining file.file };

    fn read(&mut self, buf: &mut [u8]) -> io::Result<usize> {
        let read = self.file.read(buf);
        if let Ok(count) = &read {
            let before = self.bytes_read;
            self.bytes_read = before.saturating_add(*count as u64);
            self.tell(Stage::ReadingFile, before, self.bytes_read);
        }
        read
    }
}

impl<C: Clock, T: Write + Copy, F: Write, H> Write for ProgressFile<'_, C, T, F, H> {
    ghost contents = { λ file. F.contents file.file };

    fn write(&mut self, buf: &[u8]) -> io::Result<usize> {
        let written = self.file.write(buf);
        if let Ok(count) = &written {
            let before = self.bytes_written;
            self.bytes_written = before.saturating_add(*count as u64);
            self.tell(Stage::WritingFile, before, self.bytes_written);
        }
        written
    }

    fn flush(&mut self) -> io::Result<()> {
        self.file.flush()
    }
}

impl<C: Clock, T, F: Seek, H> Seek for ProgressFile<'_, C, T, F, H> {
    ghost stream_position = { λ file. F.stream_position file.file };

    ghost stream_bytes = { λ file. F.stream_bytes file.file };

    fn seek(&mut self, to: SeekFrom) -> io::Result<u64> {
        self.file.seek(to)
    }
}

// What a device asks of its file.
impl<C: Clock, T, F: OpenFile, H> OpenFile for ProgressFile<'_, C, T, F, H> {
    fn metadata(&self) -> io::Result<Metadata> {
        self.file.metadata()
    }

    fn set_len(&self, size: u64) -> io::Result<()> {
        self.file.set_len(size)
    }

    fn sync_all(&self) -> io::Result<()> {
        self.file.sync_all()
    }

    fn sync_data(&self) -> io::Result<()> {
        self.file.sync_data()
    }

    fn try_clone(&self) -> io::Result<Self> {
        Ok(ProgressFile {
            file: self.file.try_clone()?,
            files: self.files,
            path: self.path,
            again: Cell::new(None),
            line: self.line,
            waits: self.waits,
            bytes_read: 0,
            bytes_written: 0,
        })
    }
}

// Returns whether a lock was refused since another open file has one.
fn is_held(refused: &io::Result<()>) -> bool {
    match refused {
        Err(error) => error.kind() == ErrorKind::WouldBlock,
        Ok(()) => false,
    }
}

fn replaced() -> io::Error {
    io::Error::other("it was replaced or removed meanwhile")
}

impl<C: Clock, T: Write + Copy, F, H> ProgressFile<'_, C, T, F, H>
where
    F: OpenFile + Drop,
    H: Files<File = F>,
{
    // Returns whether to wait for a lock that was refused so, and says that.
    fn is_to_wait(&self, refused: &io::Result<()>) -> bool {
        if !self.waits || !is_held(refused) {
            return false;
        }
        if let Some(line) = self.line {
            line.say_waiting();
        }
        true
    }

    // Keeps the file that is at the path now, if it is the locked one. What is done to another one would be lost, as after a replacement.
    fn keep_again(&self, again: F) -> io::Result<()> {
        let (locked, found) = (self.file.metadata()?, again.metadata()?);
        if locked.dev() != found.dev() || locked.ino() != found.ino() {
            return Err(replaced());
        }
        self.again.set(Some(again));
        Ok(())
    }

    // A file system that asks its server only when a file is opened would show what it has kept from before the lock, so the file is opened once more.
    // A file that was made such that it can't be opened is used as it is.
    fn opened_again(&self, locked: io::Result<()>) -> io::Result<()> {
        locked?;
        let Some(path) = self.path else {
            return Ok(());
        };
        match self.files.open_file(OpenOptions::new().read(true), path) {
            Ok(again) => self.keep_again(again),
            Err(error) if error.kind() == ErrorKind::PermissionDenied => Ok(()),
            Err(error) if error.kind() == ErrorKind::NotFound => Err(replaced()),
            Err(error) => Err(error),
        }
    }
}

impl<C: Clock, T: Write + Copy, F, H> LockFile for ProgressFile<'_, C, T, F, H>
where
    F: LockFile + OpenFile + Drop,
    H: Files<File = F>,
{
    fn lock_to_write(&self) -> io::Result<()> {
        let locked = self.file.lock_to_write();
        if self.is_to_wait(&locked) {
            self.wait_to_write()
        } else {
            self.opened_again(locked)
        }
    }

    fn lock_to_read(&self) -> io::Result<()> {
        let locked = self.file.lock_to_read();
        if self.is_to_wait(&locked) {
            self.wait_to_read()
        } else {
            self.opened_again(locked)
        }
    }

    fn wait_to_write(&self) -> io::Result<()> {
        self.opened_again(self.file.wait_to_write())
    }

    fn wait_to_read(&self) -> io::Result<()> {
        self.opened_again(self.file.wait_to_read())
    }

    fn give_back(&self) -> io::Result<()> {
        self.file.give_back()
    }
}
