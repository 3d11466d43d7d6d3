// Reads the first message of a stream.

ghost use Rattle.std.specs.Prelude.{◌≡◌, ◌≤◌, ◌+◌, length, IfOk, OnOk};
ghost use Rattle.ipc_message.specs.Framing.{next_message, taken, first_some, marker_faults, size_faults, metadata_size, fault_of};
ghost use Rattle.ipc_message.specs.Messages.{next_message_of, seen_by};

use crate::{Fault, Message, NextMessage};
use byteorder::{ByteOrder, LittleEndian};
use flatbuf::MAX_BUFFER_BYTES;

/// The bytes that every message begins with.
pub const CONTINUATION_MARKER: [u8; 4] = [0xff; 4];

/// Reads the message, or the end of stream, at the start of the bytes, and returns it with the number of bytes that it takes. It does not allocate.
/// Whatever follows the end of stream is ignored.
///
/// # Errors
/// The first fault: F1 if the bytes end within it, F2 if they do not begin with the continuation marker, F3 if the size of the metadata is negative
/// or exceeds its limit, F4 if the Message table or one of its first four slots lies outside the bytes, F6 if the version is not V5, F7 if the header
/// is none of the three kinds, F8 if the length of the body is negative.
#[tactic(auto, unfolding(crate::specs::Framing::next_message))]
pub fn read_message(bytes: &[u8]) -> Result<(NextMessage<'_>, usize), Fault>
    ensures exact { seen_by (λ r. next_message_of r.0) result ≡ next_message bytes.now }
    ensures taken { IfOk result (λ r. r.1 ≡ taken (next_message_of r.0)) }
    ensures within { IfOk result (λ r. r.1 ≤ length bytes.now) }
{
    let size = marker_size(bytes)?;
    if size == 0 {
        return Ok((NextMessage::EndOfStream, 8));
    }
    test_size(bytes, size)?;
    let message = Message::read(&bytes[8..8 + size], &bytes[8 + size..])?;
    Ok((
        NextMessage::Message(message),
        8 + size + message.body().len(),
    ))
}

/// Reads the size of the metadata, after the continuation marker.
#[tactic(auto, unfolding(crate::specs::Framing::marker_faults, crate::specs::Framing::metadata_size, flatbuf::specs::Lookup::number))]
fn marker_size(bytes: &[u8]) -> Result<usize, Fault>
    ensures faults { first_some (marker_faults bytes.now) ≡ fault_of result }
    ensures value { IfOk result (λ s. s ≡ metadata_size bytes.now) }
    ensures room { OnOk result (8 ≤ length bytes.now) }
{
    if bytes.len() < 4 {
        return Err(Fault::Truncated);
    }
    if !bytes.starts_with(&CONTINUATION_MARKER) {
        return Err(Fault::NoContinuation);
    }
    if bytes.len() < 8 {
        return Err(Fault::Truncated);
    }
    Ok(LittleEndian::read_u32(&bytes[4..]) as usize)
}

/// Tests whether metadata of this size may be read.
#[tactic(auto, unfolding(crate::specs::Framing::size_faults))]
fn test_size(bytes: &[u8], size: usize) -> Result<(), Fault>
    requires { size ≡ metadata_size bytes.now }
    ensures faults { first_some (size_faults bytes.now) ≡ fault_of result }
    ensures small { OnOk result (size ≤ MAX_BUFFER_BYTES) }
    ensures room { OnOk result (8 + size ≤ length bytes.now) }
{
    if size > MAX_BUFFER_BYTES {
        return Err(Fault::MetadataSize);
    }
    if bytes.len() < 8 + size {
        return Err(Fault::Truncated);
    }
    Ok(())
}
