// Shows how much of a long input was read, or that it is to be typed.
ghost use Rattle.std.specs.Prelude.{◌≡◌};

use super::{LEAST_SHOWN, LONG_WORK, ProgressLine, Stage};
use std::io::{self, IsTerminal, Read, Write};
use std::time::Clock;

/// Reads `input` and shows how much was read and, at the end of a long input, that it is being worked on; or, before the first read of an input that is
/// typed, how to end it. The time of typing is no work.
#[derive(Drop)]
pub struct ProgressReader<'a, C: Clock, T, R: Read> {
    input: R,
    line: Option<&'a ProgressLine<'a, C, T>>,
    // the line on the terminal where the input is typed, and the same until the input is asked for there
    typed_on: Option<&'a ProgressLine<'a, C, T>>,
    asked_on: Option<&'a ProgressLine<'a, C, T>>,
    bytes_read: u64,
}

impl<'a, C: Clock, T: Write + Copy, R: Read + IsTerminal> ProgressReader<'a, C, T, R> {
    /// Of an input that is typed on the terminal itself, progress is not shown: the line would appear within the typed text.
    pub fn new(input: R, line: Option<&'a ProgressLine<'a, C, T>>) -> ProgressReader<'a, C, T, R>
        ensures { result.input ≡ input }
    {
        let (line, typed_on) = if input.is_terminal() {
            (None, line)
        } else {
            (line, None)
        };
        ProgressReader {
            input,
            line,
            typed_on,
            asked_on: typed_on,
            bytes_read: 0,
        }
    }
}

impl<C: Clock, T: Write + Copy, R: Read> Read for ProgressReader<'_, C, T, R> {
    ghost remaining = { λ reader. R.remaining reader.input };

    fn read(&mut self, buf: &mut [u8]) -> io::Result<usize> {
        if let Some(line) = self.asked_on.take() {
            line.ask_for_input();
        }
        let read = self.input.read(buf);
        if let Some(line) = self.typed_on {
            line.restart();
        }
        if let Some(line) = self.line {
            match &read {
                Ok(0) => tell_end(line, self.bytes_read),
                Ok(count) => {
                    self.bytes_read = self.bytes_read.saturating_add(*count as u64);
                    line.tell(Stage::Reading, self.bytes_read);
                }
                Err(_) => line.clear(),
            }
        }
        read
    }
}

// Shows the end of an input of this many bytes.
fn tell_end<C: Clock, T: Write + Copy>(line: &ProgressLine<'_, C, T>, bytes: u64) {
    if bytes >= LONG_WORK || (bytes >= LEAST_SHOWN && line.is_long()) {
        line.show(Stage::Working, bytes);
    } else {
        line.clear();
    }
}
