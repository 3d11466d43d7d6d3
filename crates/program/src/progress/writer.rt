// Shows how much of a long output was written to a file; an output on the terminal itself does not share a line with that.
ghost use Rattle.std.specs.Prelude.{◌≡◌};

use super::{LEAST_SHOWN, ProgressLine, Stage};
use std::fs::{self, Metadata};
use std::io::{self, Write};
use std::os::unix::fs::{FileTypeExt, MetadataExt};
use std::rt::Files;
use std::time::Clock;

// The maximum length of a write of which progress is shown: the number would lag behind a longer write.
const MOST_AT_ONCE: usize = 64 * 1024;

/// Where a stream of the process leads.
#[derive(Clone, Copy, Debug, PartialEq, Eq)]
pub enum Target {
    /// A regular file, as its device and its inode name it.
    File { device: u64, inode: u64 },
    /// A block device, as its number names it: several nodes may lead to one device.
    Device { number: u64 },
    /// A terminal, a pipe, whose reader may print on the same terminal, or anything else.
    Other,
}

impl Target {
    /// Where standard output leads.
    pub fn of_output<H: Files>(files: &H) -> Target {
        match fs::metadata(files, "/dev/stdout") {
            Ok(found) => Target::of(&found),
            Err(_) => Target::Other,
        }
    }

    fn of(found: &Metadata) -> Target {
        if found.is_file() {
            return Target::File {
                device: found.dev(),
                inode: found.ino(),
            };
        }
        if found.file_type().is_block_device() {
            return Target::Device {
                number: found.rdev(),
            };
        }
        Target::Other
    }

    /// Returns whether it is the file or the block device that was found.
    pub fn is_file(self, found: &Metadata) -> bool {
        self != Target::Other && self == Target::of(found)
    }
}

/// Writes to `output` and shows how much was written to a file. The first write clears the line; each write does so if `output` is no file.
#[derive(Drop)]
pub struct ProgressWriter<'a, C: Clock, T, W: Write> {
    output: W,
    line: Option<&'a ProgressLine<'a, C, T>>,
    target: Target,
    bytes_written: u64,
}

impl<'a, C: Clock, T: Write + Copy, W: Write> ProgressWriter<'a, C, T, W> {
    pub fn new(
        output: W,
        line: Option<&'a ProgressLine<'a, C, T>>,
        target: Target,
    ) -> ProgressWriter<'a, C, T, W>
        ensures { result.output ≡ output }
    {
        ProgressWriter {
            output,
            line,
            target,
            bytes_written: 0,
        }
    }
}

impl<C: Clock, T: Write + Copy, W: Write> Write for ProgressWriter<'_, C, T, W> {
    ghost contents = { λ writer. W.contents writer.output };

    fn write(&mut self, buf: &[u8]) -> io::Result<usize> {
        let Some(line) = self.line else {
            return self.output.write(buf);
        };
        if self.target == Target::Other {
            line.clear();
            return self.output.write(buf);
        }
        if self.bytes_written == 0 {
            line.clear();
        }
        let written = self.output.write(&buf[..buf.len().min(MOST_AT_ONCE)]);
        if let Ok(count) = &written {
            self.bytes_written = self.bytes_written.saturating_add(*count as u64);
            // The answer of a command, as `ok`, is not worth reporting.
            if self.bytes_written >= LEAST_SHOWN {
                line.tell(Stage::Writing, self.bytes_written);
            }
        }
        written
    }

    fn flush(&mut self) -> io::Result<()> {
        self.output.flush()
    }
}
