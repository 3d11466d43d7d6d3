// A wrapper of files that notes how the last system call on one failed.
ghost use Rattle.std.specs.Prelude.{◌≡◌};

use sector_dev::LockFile;
use std::alloc::Global;
use std::cell::Cell;
use std::fs::{Metadata, OpenFile};
use std::io::{self, Read, Seek, SeekFrom, Write};

/// A failed system call on the file at this path, with the system's error.
#[derive(Drop)]
pub(crate) struct Failure {
    pub(crate) path: String,
    pub(crate) call: FileCall,
    pub(crate) error: io::Error,
}

/// A kind of call on a file.
#[derive(Clone, Copy)]
pub(crate) enum FileCall {
    /// Opening or creating it.
    Open,
    /// Locking it.
    Lock,
    /// Reading it.
    Read,
    /// Writing it or changing its length.
    Write,
    /// Syncing it to the disk.
    Sync,
}

/// How the last noted system call on a file failed, if it did.
#[derive(Drop)]
pub struct Failures {
    last: Cell<Option<Failure>>,
}

impl Failures {
    /// Creates a note that nothing has failed.
    pub fn new() -> Failures {
        Failures {
            last: Cell::new(None),
        }
    }

    /// Takes the failure of the last noted call, or `None` if that call succeeded.
    pub(crate) fn take(&self) -> Option<Failure> {
        self.last.take()
    }

    fn note(&self, failure: Option<Failure>) {
        self.last.set(failure);
    }

    /// Notes how opening or creating the file at `path` ended. If memory for the path is refused, no failure is noted.
    pub fn note_opening<F>(&self, alloc: Global, path: &str, opened: &io::Result<F>) {
        self.note(match opened {
            Ok(_) => None,
            Err(error) => failed_opening(alloc, path, *error),
        });
    }
}

fn failed_opening(alloc: Global, path: &str, error: io::Error) -> Option<Failure> {
    Some(Failure {
        path: String::from_str(alloc, path).ok()?,
        call: FileCall::Open,
        error,
    })
}

// Where the failures of a file are noted, and the path at which it was opened, unless memory for it was refused.
#[derive(Drop)]
struct FileNote<'a> {
    failures: &'a Failures,
    path: Option<String>,
}

impl<'a> FileNote<'a> {
    // A note at the same place. If memory for the path is refused, it clears what was noted before.
    fn again(&self) -> FileNote<'a> {
        FileNote {
            failures: self.failures,
            path: match &self.path {
                Some(path) => path.clone().ok(),
                None => None,
            },
        }
    }

    // Returns `None` if memory for the path is refused.
    fn failure(&self, call: FileCall, error: io::Error) -> Option<Failure> {
        Some(Failure {
            path: self.path.as_ref()?.clone().ok()?,
            call,
            error,
        })
    }

    // A failure whose file can't be named clears the note, so that no older failure is named in its place.
    fn note<T>(&self, call: FileCall, done: &io::Result<T>) {
        self.failures.note(match done {
            Ok(_) => None,
            Err(error) => self.failure(call, *error),
        });
    }
}

/// A file that notes how its last lock, read, write or sync ended. If memory for its path is refused, each of these clears what was noted before.
#[derive(Drop)]
pub struct NotedFile<'a, F> {
    file: F,
    note: Option<FileNote<'a>>,
}

impl<'a, F> NotedFile<'a, F> {
    /// Wraps the file at `path`. Without `failures` it notes nothing.
    pub fn new(
        alloc: Global,
        file: F,
        path: &str,
        failures: Option<&'a Failures>,
    ) -> NotedFile<'a, F>
        ensures { result.file ≡ file }
    {
        let note = match failures {
            Some(failures) => Some(FileNote {
                failures,
                path: String::from_str(alloc, path).ok(),
            }),
            None => None,
        };
        NotedFile { file, note }
    }

    fn note<T>(&self, call: FileCall, done: &io::Result<T>) {
        if let Some(note) = &self.note {
            note.note(call, done);
        }
    }
}

impl<F: Read> Read for NotedFile<'_, F> {
    ghost remaining = { λ noted. F.remaining noted.file };

    fn read(&mut self, buf: &mut [u8]) -> io::Result<usize> {
        let read = self.file.read(buf);
        self.note(FileCall::Read, &read);
        read
    }
}

impl<F: Write> Write for NotedFile<'_, F> {
    ghost contents = { λ noted. F.contents noted.file };

    fn write(&mut self, buf: &[u8]) -> io::Result<usize> {
        let written = self.file.write(buf);
        self.note(FileCall::Write, &written);
        written
    }

    fn flush(&mut self) -> io::Result<()> {
        self.file.flush()
    }
}

impl<F: Seek> Seek for NotedFile<'_, F> {
    ghost stream_position = { λ noted. F.stream_position noted.file };

    ghost stream_bytes = { λ noted. F.stream_bytes noted.file };

    fn seek(&mut self, to: SeekFrom) -> io::Result<u64> {
        self.file.seek(to)
    }
}

impl<F: OpenFile> OpenFile for NotedFile<'_, F> {
    fn metadata(&self) -> io::Result<Metadata> {
        self.file.metadata()
    }

    fn set_len(&self, size: u64) -> io::Result<()> {
        let done = self.file.set_len(size);
        self.note(FileCall::Write, &done);
        done
    }

    fn sync_all(&self) -> io::Result<()> {
        let done = self.file.sync_all();
        self.note(FileCall::Sync, &done);
        done
    }

    fn sync_data(&self) -> io::Result<()> {
        let done = self.file.sync_data();
        self.note(FileCall::Sync, &done);
        done
    }

    fn try_clone(&self) -> io::Result<Self> {
        Ok(NotedFile {
            file: self.file.try_clone()?,
            note: match &self.note {
                Some(note) => Some(note.again()),
                None => None,
            },
        })
    }
}

impl<F: LockFile> LockFile for NotedFile<'_, F> {
    fn lock_to_write(&self) -> io::Result<()> {
        let locked = self.file.lock_to_write();
        self.note(FileCall::Lock, &locked);
        locked
    }

    fn lock_to_read(&self) -> io::Result<()> {
        let locked = self.file.lock_to_read();
        self.note(FileCall::Lock, &locked);
        locked
    }

    fn wait_to_write(&self) -> io::Result<()> {
        let locked = self.file.wait_to_write();
        self.note(FileCall::Lock, &locked);
        locked
    }

    fn wait_to_read(&self) -> io::Result<()> {
        let locked = self.file.wait_to_read();
        self.note(FileCall::Lock, &locked);
        locked
    }

    fn give_back(&self) -> io::Result<()> {
        let given = self.file.give_back();
        self.note(FileCall::Lock, &given);
        given
    }
}
