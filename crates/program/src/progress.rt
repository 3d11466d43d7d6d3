// The line of progress on a terminal, for work that takes more than a second.
use arrowstore::Audience;
use std::cell::Cell;
use std::io::{self, Write};
use std::time::{Clock, Instant};

mod files;
mod reader;
mod writer;

pub use files::ProgressFiles;
pub use reader::ProgressReader;
pub use writer::{ProgressWriter, Target};

// Fewer bytes would be shown as 0 MB.
const LEAST_SHOWN: u64 = 1_000_000;

// This many bytes are reported however fast they were read: what is made of them may take longer.
const LONG_WORK: u64 = 32_000_000;

// Said once, if the input comes from a terminal: the command would seem to do nothing. An Arrow stream can't be typed.
const TYPED_INPUT: &str =
    "The input is read from the terminal: Ctrl-D ends it, Ctrl-C stops the command. `< FILE` reads a file.\n";

// Said once, if a command waits for the lock of its store: it would seem to do nothing.
const WAITING: &str =
    "Waiting until another program is done with the store: without end if this command runs under `flock` on that file. Ctrl-C stops it.\n";

/// What the line reports.
#[derive(Clone, Copy, Debug, PartialEq, Eq)]
pub enum Stage {
    /// The input is being read.
    Reading,
    /// The whole input was read, and nothing is written yet.
    Working,
    /// A file is being read: that of a store, or one that a script names.
    ReadingFile,
    /// The file of a store is being written.
    WritingFile,
    /// The output is being written.
    Writing,
}

/// A line on a terminal that is overwritten about once a second, and cleared before anything else is written there.
///
/// A failure to write it or to read the clock does not fail the work: the line is not shown then.
#[derive(Drop)]
pub struct ProgressLine<'a, C: Clock, T> {
    clock: &'a C,
    terminal: T,
    // When the work began or the line was last written.
    last_written: Cell<Instant>,
    shown: Cell<Option<Stage>>,
}

impl<'a, C: Clock, T: Write + Copy> ProgressLine<'a, C, T> {
    /// Makes the line for a person at a terminal, which is `terminal`. Any other audience has none.
    pub fn begin(clock: &'a C, terminal: T, audience: Audience) -> Option<ProgressLine<'a, C, T>> {
        if audience != Audience::Terminal {
            return None;
        }
        let now = Instant::now(clock).ok()?;
        Some(ProgressLine {
            clock,
            terminal,
            last_written: Cell::new(now),
            shown: Cell::new(None),
        })
    }

    /// Shows a number of bytes, if a second has passed since the line was last written.
    pub fn tell(&self, stage: Stage, bytes: u64) {
        if self.is_due() {
            self.show(stage, bytes);
        }
    }

    /// Shows a number of bytes.
    pub fn show(&self, stage: Stage, bytes: u64) {
        let _ = self.write_line(stage, bytes / 1_000_000);
    }

    /// Says, in a line that stays, that the input is to be typed.
    pub fn ask_for_input(&self) {
        self.clear();
        let mut terminal = self.terminal;
        let _ = terminal.write_all(TYPED_INPUT.as_bytes());
    }

    /// Says, in a line that stays, that another command has the store.
    pub fn say_waiting(&self) {
        self.clear();
        let mut terminal = self.terminal;
        let _ = terminal.write_all(WAITING.as_bytes());
    }

    /// Counts the time of the work from now on.
    pub fn restart(&self) {
        if let Ok(now) = Instant::now(self.clock) {
            self.last_written.set(now);
        }
    }

    /// Returns whether the work has taken more than a second so far.
    pub fn is_long(&self) -> bool {
        self.shown.get().is_some() || self.is_due()
    }

    /// Clears the line.
    pub fn clear(&self) {
        let _ = self.write_blanks();
    }

    // Returns whether a second has passed since the line was last written.
    fn is_due(&self) -> bool {
        match Instant::now(self.clock) {
            Ok(now) => now.duration_since(self.last_written.get()).as_secs() > 0,
            Err(_) => false,
        }
    }

    fn write_line(&self, stage: Stage, megabytes: u64) -> io::Result<()> {
        if self.shown.get() != Some(stage) {
            self.write_blanks()?;
        }
        self.last_written.set(Instant::now(self.clock)?);
        self.shown.set(Some(stage));
        let mut terminal = self.terminal;
        match stage {
            Stage::Reading => write!(terminal, "read {megabytes} MB\r"),
            Stage::Working => write!(terminal, "working on {megabytes} MB that were read\r"),
            Stage::ReadingFile => write!(terminal, "read {megabytes} MB of the file\r"),
            Stage::WritingFile => write!(terminal, "written {megabytes} MB to the file\r"),
            Stage::Writing => write!(terminal, "written {megabytes} MB\r"),
        }
    }

    // As many blanks as the longest text has characters, `working on 2147 MB that were read`.
    fn write_blanks(&self) -> io::Result<()> {
        if self.shown.get().is_none() {
            return Ok(());
        }
        self.shown.set(None);
        let mut terminal = self.terminal;
        terminal.write_all(b"                                 \r")
    }
}
