// An input whose first bytes are kept, and how it ended.
ghost use Rattle.std.specs.Prelude.{◌≡◌};

use crate::open_quotation::QuotationWatch;
use cli_reports::{Audience, failure_of};
use std::alloc::Global;
use std::io::{self, Read};

/// The maximum number of bytes that are kept of an input. A stream begins with its schema.
pub const MOST_KEPT: usize = 65_536;

/// An input whose first bytes are known after it was read, and why it failed.
pub trait Input {
    /// Returns the first bytes that were read, as far as they were kept.
    fn start(&self) -> &[u8];

    /// Returns whether no byte was read.
    fn is_empty(&self) -> bool;

    /// Returns the line, counted from 1, on which the quotation begins that the bytes so far, as CSV, end within, if that is watched.
    fn open_quotation(&self) -> Option<u64>;

    /// Returns the system's error if the last read failed.
    fn failure(&self) -> Option<io::Error>;

    /// Returns whether its bytes may come at any time, as those of a terminal or a pipe do, and not those of a file.
    fn may_wait(&self) -> bool;
}

/// A reader that passes on what `input` gives, and keeps its first bytes, where quotation marks are open, and how the last read ended.
#[derive(Drop)]
pub struct KeptStart<R: Read> {
    input: R,
    start: Vec<u8>,
    room: usize,
    is_empty: bool,
    quotation: Option<QuotationWatch>,
    failure: Option<io::Error>,
    may_wait: bool,
}

impl<R: Read> KeptStart<R> {
    /// Keeps at most [`MOST_KEPT`] bytes for a terminal or a script, and none for any other audience. A text that may be CSV is watched for
    /// its quotation marks, also for those alone. If `may_wait`, the bytes of the input may come at any time.
    pub fn new(
        alloc: Global,
        input: R,
        audience: Audience,
        may_be_csv: bool,
        may_wait: bool,
    ) -> KeptStart<R>
        ensures { result.input ≡ input }
    {
        let room = match audience {
            Audience::Terminal | Audience::Script => MOST_KEPT,
            Audience::Program | Audience::Departed => 0,
        };
        KeptStart {
            input,
            start: Vec::new(alloc),
            room,
            is_empty: true,
            quotation: watch_for(audience, may_be_csv),
            failure: None,
            may_wait,
        }
    }
}

// Each byte of a text is looked at once more, so nothing is watched that nobody is told.
fn watch_for(audience: Audience, may_be_csv: bool) -> Option<QuotationWatch> {
    if may_be_csv && audience.is_advised() {
        Some(QuotationWatch::new())
    } else {
        None
    }
}

// Appends as many of the bytes as there is room for. Once memory is refused, no more are kept.
fn keep(start: &mut Vec<u8>, room: &mut usize, bytes: &[u8]) {
    let count = bytes.len().min(*room);
    match start.extend_from_slice(&bytes[..count]) {
        Ok(()) => *room -= count,
        Err(_) => *room = 0,
    }
}

impl<R: Read> Input for KeptStart<R> {
    fn start(&self) -> &[u8] {
        &self.start
    }

    fn is_empty(&self) -> bool {
        self.is_empty
    }

    fn open_quotation(&self) -> Option<u64> {
        self.quotation?.open_line()
    }

    fn failure(&self) -> Option<io::Error> {
        self.failure
    }

    fn may_wait(&self) -> bool {
        self.may_wait
    }
}

impl<R: Read> Read for KeptStart<R> {
    ghost remaining = { λ kept. R.remaining kept.input };

    fn read(&mut self, buf: &mut [u8]) -> io::Result<usize> {
        let read = self.input.read(buf);
        self.failure = failure_of(&read);
        if let Ok(count) = &read {
            self.is_empty = self.is_empty && *count == 0;
            keep(&mut self.start, &mut self.room, &buf[..*count]);
            if let Some(quotation) = &mut self.quotation {
                quotation.follow(&buf[..*count]);
            }
        }
        read
    }
}
