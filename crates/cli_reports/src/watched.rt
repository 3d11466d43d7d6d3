// An output that notices when its reader is gone, whether anything was written, and why it failed.
ghost use Rattle.std.specs.Prelude.{◌≡◌, ◌⊎◌, Bool, true, false, IsErrAnd};
ghost use Rattle.std.specs.IoError.{error_kind};
ghost use Rattle.std.specs.Io.{WritesAtMost};
ghost use Rattle.std.specs.Io.KnownBytes.{Keeps, WriteAppends};

use crate::{Output, failure_of};
use std::io::{self, ErrorKind, Write};

/// Writes to `output`, and notices when its reader is gone, whether anything was written, and how the last call ended.
#[derive(Drop)]
pub struct WatchedOutput<W: Write> {
    output: W,
    is_unread: bool,
    is_empty: bool,
    failure: Option<io::Error>,
}

impl<W: Write> WatchedOutput<W> {
    /// Wraps an output whose reader is taken to be there until a write says otherwise.
    pub fn new(output: W) -> WatchedOutput<W>
        ensures { (result.output ≡ output) × (result.is_unread ≡ false) }
    {
        WatchedOutput {
            output,
            is_unread: false,
            is_empty: true,
            failure: None,
        }
    }
}

// A pipe whose reader has closed it answers so.
fn finds_no_reader<T>(written: &io::Result<T>) -> bool
    ensures gone { result ≡ true → IsErrAnd written.now (λ e. error_kind e ≡ ErrorKind.BrokenPipe) }
    ensures found { IsErrAnd written.now (λ e. error_kind e ≡ ErrorKind.BrokenPipe) → result ≡ true }
{
    match written {
        Ok(_) => false,
        Err(error) => error.kind() == ErrorKind::BrokenPipe,
    }
}

impl<W: Write> Output for WatchedOutput<W> {
    ghost unread = { λ watched. watched.is_unread };

    fn is_unread(&self) -> bool {
        self.is_unread
    }

    fn is_empty(&self) -> bool {
        self.is_empty
    }

    fn failure(&self) -> Option<io::Error> {
        self.failure
    }
}

impl<W: Write> Write for WatchedOutput<W> {
    ghost contents = { λ watched. W.contents watched.output };

    fn write(&mut self, buf: &[u8]) -> io::Result<usize>
        ensures bound { WritesAtMost result buf.now }
        ensures bytes { WriteAppends (W.contents self.old.output) (W.contents self.new.output) result buf.now }
        // The reader is gone if a write was answered so, and for no other reason.
        ensures gone { self.new.is_unread ≡ true
            → (self.old.is_unread ≡ true) ⊎ IsErrAnd result (λ e. error_kind e ≡ ErrorKind.BrokenPipe) }
        ensures found { IsErrAnd result (λ e. error_kind e ≡ ErrorKind.BrokenPipe) → self.new.is_unread ≡ true }
        ensures stays { self.old.is_unread ≡ true → self.new.is_unread ≡ true }
    {
        let written = self.output.write(buf);
        self.failure = failure_of(&written);
        self.is_empty = self.is_empty && !matches!(&written, Ok(count) if *count > 0);
        if finds_no_reader(&written) {
            self.is_unread = true;
        }
        written
    }

    fn flush(&mut self) -> io::Result<()>
        ensures bytes { Keeps (W.contents self.old.output) (W.contents self.new.output) }
        ensures gone { self.new.is_unread ≡ true
            → (self.old.is_unread ≡ true) ⊎ IsErrAnd result (λ e. error_kind e ≡ ErrorKind.BrokenPipe) }
        ensures found { IsErrAnd result (λ e. error_kind e ≡ ErrorKind.BrokenPipe) → self.new.is_unread ≡ true }
        ensures stays { self.old.is_unread ≡ true → self.new.is_unread ≡ true }
    {
        let flushed = self.output.flush();
        self.failure = failure_of(&flushed);
        if finds_no_reader(&flushed) {
            self.is_unread = true;
        }
        flushed
    }
}
