// Reads the files that a script needs.
ghost use Rattle.std.specs.Prelude.{◌≡◌, ◌≢◌, ◌⊎◌, string_bytes, IfOk, IfErr};
ghost use Rattle.cli_replay.specs.Replay.{IsOfFile, IsFrontOfFile, HasItsEnd, IsStreamOfLine, IsOfReading, IsOfStreams};

use cli_commands::{LARGEST_INPUT, lacks_end};
use cli_reports::{Refusal, Side};
use std::fs::{self, OpenFile};
use std::io::{self, ErrorKind, Read};
use std::rt::Files;

fn reading_refusal(error: &io::Error) -> Refusal
    ensures { IsOfReading result }
{
    match error.kind() {
        ErrorKind::OutOfMemory => Refusal::OutOfMemory,
        _ => Refusal::Io(Side::File),
    }
}

// Reads a file, but at most one byte more than a stream may have, so that a store refuses a longer one.
fn front_of_file<F: Read + OpenFile + Drop, H: Files<File = F> + AllocGlobal>(
    rt: &H,
    path: &str,
) -> Result<Vec<u8>, Refusal>
    ensures front { IfOk result (λ bytes. IsFrontOfFile F.remaining bytes.items) }
    ensures told { IfErr result IsOfReading }
{
    let Ok(file) = fs::open(rt, path) else {
        return Err(Refusal::Io(Side::File));
    };
    let mut front = file.take(LARGEST_INPUT as u64 + 1);
    let mut bytes = Vec::new(rt.alloc());
    match front.read_to_end(&mut bytes) {
        Ok(_) => Ok(bytes),
        Err(error) => Err(reading_refusal(&error)),
    }
}

/// Reads a whole file: a script, or the text that a line of one appends.
///
/// # Errors
/// `TooManyBytes` if it is longer than a stream may be; `Io` of a file if it can't be read; `OutOfMemory`.
pub fn read_whole_file<F: Read + OpenFile + Drop, H: Files<File = F> + AllocGlobal>(
    rt: &H,
    path: &str,
) -> Result<Vec<u8>, Refusal>
    ensures all { IfOk result (λ bytes. IsOfFile F.remaining bytes.items) }
    ensures told { IfErr result (λ refusal. (refusal ≡ Refusal.TooManyBytes) ⊎ IsOfReading refusal) }
{
    let bytes = front_of_file(rt, path)?;
    if bytes.len() > LARGEST_INPUT {
        return Err(Refusal::TooManyBytes);
    }
    Ok(bytes)
}

// Reads a file with a stream, which must have its end if it is to be complete.
fn stream_of_file<F: Read + OpenFile + Drop, H: Files<File = F> + AllocGlobal>(
    rt: &H,
    path: &str,
    is_complete: bool,
) -> Result<Vec<u8>, Refusal>
    ensures front { IfOk result (λ bytes. IsFrontOfFile F.remaining bytes.items) }
    ensures ended { IfOk result (λ bytes. HasItsEnd is_complete bytes.items) }
    ensures told { IfErr result IsOfStreams }
{
    let bytes = front_of_file(rt, path)?;
    if !is_complete {
        return Ok(bytes);
    }
    if lacks_end(&bytes) {
        return Err(Refusal::NoEnd);
    }
    Ok(bytes)
}

/// Returns an owned name and the stream in a file, for a command.
pub(crate) fn named_input<F: Read + OpenFile + Drop, H: Files<File = F> + AllocGlobal>(
    rt: &H,
    name: &str,
    path: &str,
    is_complete: bool,
) -> Result<(String, Vec<u8>), Refusal>
    ensures named { IfOk result (λ r. (string_bytes r.0 ≡ name.now) × IsStreamOfLine F.remaining is_complete r.1.items) }
    ensures told { IfErr result IsOfStreams }
{
    let bytes = stream_of_file(rt, path, is_complete)?;
    Ok((String::from_str(rt.alloc(), name)?, bytes))
}
