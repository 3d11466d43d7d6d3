// An output that gives a terminal no control character.
ghost use Rattle.std.specs.Prelude.{◌≡◌, ◌≤◌, ◌<◌, ◌++◌, ℕ, List, true, drop, length, IfOk};
ghost use Rattle.std.specs.Io.{WritesAtMost};
ghost use Rattle.std.specs.Io.KnownBytes.{Appends};
ghost use Rattle.cli_reports.specs.Escaped.{are_clean, control_length, escape, escaped, hex_digit, shown_bytes};

use std::io::{self, Write};

/// Writes to `output`. If that is a terminal, the characters U+007F to U+009F, which control it, are written as `\u` escapes. JSON has such characters
/// only within strings, where the escapes mean the same (RFC 8259, section 7).
#[derive(Drop)]
pub struct ShownOutput<W: Write> {
    output: W,
    is_terminal: bool,
}

impl<W: Write> ShownOutput<W> {
    pub fn new(output: W, is_terminal: bool) -> ShownOutput<W>
        ensures { (result.output ≡ output) × (result.is_terminal ≡ is_terminal) }
    {
        ShownOutput {
            output,
            is_terminal,
        }
    }
}

/// What is written for a terminal has no such character.
pub fn escaped_bytes_are_clean()
    ensures { (bytes : List ℕ) → are_clean (escaped bytes) ≡ true }
{}

#[tactic(auto, unfolding(crate::specs::Escaped::control_length))]
fn control_length(bytes: &[u8]) -> usize
    ensures { result ≡ control_length bytes.now }
{
    match bytes {
        [0x7f, ..] => 1,
        [0xc2, 0x80..=0x9f, ..] => 2,
        _ => 0,
    }
}

// Returns how many bytes come before the first of these characters.
fn plain_length(bytes: &[u8]) -> usize
    ensures within { result ≤ length bytes.now }
    ensures plain { (k : ℕ) → k < result → control_length (drop k bytes.now) ≡ 0 }
{
    for place in 0..bytes.len() {
        if control_length(&bytes[place..]) > 0 {
            return place;
        }
    }
    bytes.len()
}

fn hex_digit(number: u8) -> u8
    requires { number < 16 }
    ensures { result ≡ hex_digit number }
{
    if number < 10 {
        b'0' + number
    } else {
        b'a' + (number - 10)
    }
}

fn escape_of(number: u8) -> [u8; 6]
    ensures { result ≡ escape number }
{
    [
        b'\\',
        b'u',
        b'0',
        b'0',
        hex_digit(number / 16),
        hex_digit(number % 16),
    ]
}

impl<W: Write> ShownOutput<W> {
    // Writes some bytes of a text for a terminal: those before the first of these characters, or that character.
    fn write_shown(&mut self, buf: &[u8]) -> io::Result<usize>
        ensures bound { IfOk result (λ n. n ≤ length buf.now) }
        ensures shown { IfOk result (λ n. (shown : List ℕ) × (escaped buf.now ≡ shown ++ escaped (drop n buf.now))
            × Appends (W.contents self.old.output) (W.contents self.new.output) shown) }
        ensures same { self.new.is_terminal ≡ self.old.is_terminal }
    {
        let plain = plain_length(buf);
        if plain > 0 {
            return self.output.write(&buf[..plain]);
        }
        match control_length(buf) {
            // There is no byte to write.
            0 => Ok(0),
            taken => {
                self.output.write_all(&escape_of(buf[taken - 1]))?;
                Ok(taken)
            }
        }
    }
}

impl<W: Write> Write for ShownOutput<W> {
    fn write(&mut self, buf: &[u8]) -> io::Result<usize>
        ensures bound { WritesAtMost result buf.now }
        // The output is given the bytes that were taken, with escapes if it is a terminal: what is written in several calls is what a text is in one.
        ensures shown { IfOk result (λ n. (shown : List ℕ)
            × (shown_bytes self.old.is_terminal buf.now ≡ shown ++ shown_bytes self.old.is_terminal (drop n buf.now))
            × Appends (W.contents self.old.output) (W.contents self.new.output) shown) }
        ensures same { self.new.is_terminal ≡ self.old.is_terminal }
    {
        if self.is_terminal {
            self.write_shown(buf)
        } else {
            self.output.write(buf)
        }
    }

    fn flush(&mut self) -> io::Result<()> {
        self.output.flush()
    }
}
