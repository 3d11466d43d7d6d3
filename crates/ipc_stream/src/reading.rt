// Reads the messages of a stream.
ghost use Rattle.std.specs.Prelude.{◌≡◌, ◌≤◌, ◌+◌, ℕ, suc, drop, length, List, Option, None, Ok};
ghost use Rattle.columns.specs.Places.{within};
ghost use Rattle.ipc_message.specs.Framing.{next_message, taken, message as framed_message};
ghost use Rattle.ipc_message.specs.Header.{supported_codes};
ghost use Rattle.ipc_message.specs.Messages.{envelope_of};
ghost use Rattle.ipc_stream.specs.Meaning.{read_from};
ghost use Rattle.ipc_stream.specs.Progress.{GivesFront};
ghost use Rattle.ipc_stream.specs.inner.Reached.{FindsNext, IsReadTo, Rests, GivesReading, EndsReading};

use crate::add::add_message;
use crate::front::Front;
use columns::Span;
use ipc_message::{Fault, ImportError, Message, NextMessage, next_message_is_framed, read_message};
use std::alloc::Global;

/// How far a stream was read: the state after its first messages, the number of these messages, the offset where they end, and the number of bytes
/// that wait for the rest of their message.
#[derive(Drop)]
pub(crate) struct Reading {
    pub(crate) front: Option<Front>,
    pub(crate) number: usize,
    pub(crate) start: usize,
    pub(crate) held: usize,
}

/// Why reading stopped, after how many messages, and the offset where they end.
#[derive(Clone, Copy)]
pub(crate) struct Stopped {
    pub(crate) error: ImportError,
    pub(crate) number: usize,
    pub(crate) start: usize,
}

// Reads the next message or the end of stream, with its size in bytes. Returns `None` if it is cut off.
fn find_next(bytes: &[u8]) -> Result<Option<(NextMessage<'_>, usize)>, Fault>
    ensures { FindsNext bytes.now result }
{
    match read_message(bytes) {
        Ok(found) => Ok(Some(found)),
        Err(Fault::Truncated) => Ok(None),
        Err(fault) => Err(fault),
    }
}

// Returns where the body of a message with this size in bytes lies.
fn body_at(bytes: &[u8], start: usize, size: usize, message: &Message) -> Span
    requires fits { start + size ≤ length bytes.now }
    requires next { next_message (drop start bytes.now) ≡ Ok (framed_message (envelope_of message.now)) }
    requires whole { size ≡ taken (framed_message (envelope_of message.now)) }
    ensures fits { result.start + result.len ≤ length bytes.now }
    ensures body { within bytes.now result ≡ (envelope_of message.now).body }
{
    next_message_is_framed();
    let len = message.body().len();
    Span {
        start: start + size - len,
        len,
    }
}

// Returns the state at the end of stream; `behind` bytes follow it.
fn end_of_stream(
    front: Option<Front>,
    number: usize,
    start: usize,
    behind: usize,
) -> Result<Reading, Stopped>
    ensures { (bytes : List ℕ) → IsReadTo bytes number start front → EndsReading bytes start behind → GivesReading bytes result }
{
    let Some(front) = front else {
        return Err(stop(ImportError::Fault(Fault::NoSchema), number, start));
    };
    if behind > 0 {
        return Err(stop(ImportError::Fault(Fault::AfterEnd), number, start));
    }
    Ok(Reading {
        front: Some(front),
        number,
        start,
        held: 0,
    })
}

fn stop(error: ImportError, number: usize, start: usize) -> Stopped
    ensures { result ≡ record { error = error; number = number; start = start } }
{
    Stopped {
        error,
        number,
        start,
    }
}

/// Reads messages up to the end of the bytes.
pub(crate) fn read_on(
    alloc: Global,
    front: Option<Front>,
    number: usize,
    start: usize,
    bytes: &[u8],
) -> Result<Reading, Stopped>
    requires { IsReadTo bytes.now number start front }
    ensures { GivesReading bytes.now result }
{
    let mut front = front;
    let mut number = number;
    let mut start = start;
    while start < bytes.len() {
        let found = match find_next(&bytes[start..]) {
            Ok(found) => found,
            Err(fault) => return Err(stop(ImportError::Fault(fault), number, start)),
        };
        let Some((next_message, taken)) = found else {
            let held = bytes.len() - start;
            return Ok(Reading {
                front,
                number,
                start,
                held,
            });
        };
        let NextMessage::Message(message) = next_message else {
            return end_of_stream(front, number, start, bytes.len() - start - taken);
        };
        let body = body_at(bytes, start, taken, &message);
        front = match add_message(alloc, front, &message, body, bytes) {
            Ok(front) => Some(front),
            Err(error) => return Err(stop(error, number, start)),
        };
        number += 1;
        start += taken;
    }
    Ok(Reading {
        front,
        number,
        start,
        held: 0,
    })
}

/// Returns the state if no more bytes follow, or the first fault.
pub(crate) fn at_end(reading: Reading) -> Result<Front, ImportError>
    ensures { (bytes : List ℕ) → Rests bytes reading → GivesFront bytes result (read_from supported_codes (suc (length bytes)) None bytes) }
{
    if reading.held > 0 {
        return Err(ImportError::Fault(Fault::Truncated));
    }
    match reading.front {
        None => Err(ImportError::Fault(Fault::NoSchema)),
        Some(front) => Ok(front),
    }
}

/// Reads messages up to the end of the bytes and returns the state there, or the first fault.
pub(crate) fn read_to_end(
    alloc: Global,
    front: Option<Front>,
    number: usize,
    start: usize,
    bytes: &[u8],
) -> Result<Front, ImportError>
    requires { IsReadTo bytes.now number start front }
    ensures { GivesFront bytes.now result (read_from supported_codes (suc (length bytes.now)) None bytes.now) }
{
    match read_on(alloc, front, number, start, bytes) {
        Ok(reading) => at_end(reading),
        Err(stopped) => Err(stopped.error),
    }
}

/// Returns the state at the end of a stream.
///
/// # Errors
/// `Fault` with the first fault of the stream; `OutOfMemory`.
pub fn read_front(alloc: Global, bytes: &[u8]) -> Result<Front, ImportError>
    ensures { GivesFront bytes.now result (read_from supported_codes (suc (length bytes.now)) None bytes.now) }
{
    read_to_end(alloc, None, 0, 0, bytes)
}
