// A decoder that is fed a stream in pieces.
ghost use Rattle.std.specs.Prelude.{◌≡◌, ◌++◌, [], ℕ, suc, List, None, length};
ghost use Rattle.ipc_message.specs.Header.{supported_codes};
ghost use Rattle.ipc_stream.specs.Fed.{fed, reading, held_of, settled_fault};
ghost use Rattle.ipc_stream.specs.Meaning.{meaning, read_from};
ghost use Rattle.ipc_stream.specs.Progress.{GivesFront};
ghost use Rattle.ipc_stream.specs.inner.Failing.{HasFailed};
ghost use Rattle.ipc_stream.specs.inner.Reached.{IsReadTo};
ghost use Rattle.ipc_stream.specs.inner.Decoding.{GivesFed, IsReading};

use crate::front::Front;
use crate::reading::{Reading, read_on, read_to_end};
use crate::whole::table_of_front;
use ipc_message::{Fault, ImportError};
use std::alloc::Global;
use std::fmt;
use std::marker::Model;
use thiserror::Error;
use values::Table;

/// Reads a stream that arrives in pieces, cut anywhere. It keeps all bytes so far, since the arrays of the table are places in them; after a fault it
/// keeps only the fault. Each message is read once, unless memory was refused.
#[derive(Drop)]
pub struct Decoder {
    bytes: Vec<u8>,
    reading: Reading,
    fault: Option<Fault>,
}

impl Model for Decoder {
    ghost use Rattle.ipc_stream.specs.Fed.{Fed, fed_with};

    ghost Value = { Fed };

    ghost use Rattle.ipc_stream.specs.inner.Decoding.{IsDecoding};

    ghost view = { λ d. fed_with d.fault d.bytes.items };

    ghost invariant = { λ d. IsDecoding d.fault d.bytes.items d.reading };
}

/// Why a decoder returns no table: its stream has a fault, or memory was refused. In the second case the decoder is returned unchanged.
#[derive(Drop, Error)]
pub enum FinishError {
    #[error(transparent)]
    Fault(Fault),
    #[error("OutOfMemory")]
    OutOfMemory(Decoder),
}

// The bytes of the decoder are not printed.
impl fmt::Debug for FinishError {
    fn fmt<W: fmt::Write>(&self, f: &mut fmt::Formatter<W>) -> fmt::Result {
        match self {
            FinishError::Fault(fault) => write!(f, "Fault({fault:?})"),
            FinishError::OutOfMemory(_) => f.write_str("OutOfMemory(..)"),
        }
    }
}

// The state before anything is read.
fn unread(held: usize) -> Reading
    ensures { result ≡ record { front = None; number = 0; start = 0; held = held } }
{
    Reading {
        front: None,
        number: 0,
        start: 0,
        held,
    }
}

// Returns a decoder that reads these bytes again from the start.
fn decoder_of(bytes: Vec<u8>, held: usize) -> Decoder
    requires settled { settled_fault supported_codes bytes.items ≡ None }
    requires held { held ≡ held_of supported_codes bytes.items }
    ensures { result ≡ reading bytes.items }
{
    Decoder {
        bytes,
        reading: unread(held),
        fault: None,
    }
}

// Returns why the bytes have no table. If memory was refused, the bytes come back in a decoder.
fn failed(error: ImportError, bytes: Vec<u8>, held: usize) -> FinishError
    requires settled { settled_fault supported_codes bytes.items ≡ None }
    requires held { held ≡ held_of supported_codes bytes.items }
    ensures { HasFailed error bytes.items result }
{
    match error {
        ImportError::Fault(fault) => FinishError::Fault(fault),
        ImportError::OutOfMemory => FinishError::OutOfMemory(decoder_of(bytes, held)),
    }
}

// Appends a piece and reads on. If memory is refused, the bytes are restored and will be read again from the start.
fn feed_bytes(
    alloc: Global,
    bytes: &mut Vec<u8>,
    reading: &mut Reading,
    piece: &[u8],
) -> Result<(), ImportError>
    requires { IsReading bytes.old.items reading.old }
    ensures { GivesFed bytes.old.items piece.now bytes.new.items reading.new result }
{
    let (before, held) = (bytes.len(), reading.held);
    bytes.extend_from_slice(piece)?;
    match read_on(
        alloc,
        reading.front.take(),
        reading.number,
        reading.start,
        bytes,
    ) {
        Ok(next) => {
            *reading = next;
            Ok(())
        }
        Err(stopped) => {
            bytes.truncate(before);
            *reading = unread(held);
            Err(stopped.error)
        }
    }
}

impl Decoder {
    ghost use Rattle.ipc_stream.specs.Feeding.{Tells, UnlessRefused, Finishes, GivesBack};

    /// Creates a decoder that was fed no bytes.
    pub fn new(alloc: Global) -> Decoder
        ensures { result ≡ fed supported_codes [] }
    {
        decoder_of(Vec::new(alloc), 0)
    }

    /// Appends the next bytes of the stream and reads on.
    ///
    /// # Errors
    /// `Fault` with the first fault of the bytes so far, as soon as no further bytes can change it; every later call returns it again. `OutOfMemory`:
    /// nothing has changed, and the piece may be fed again.
    pub fn feed(&mut self, alloc: Global, piece: &[u8]) -> Result<(), ImportError>
        ensures told { (bytes : List ℕ) → self.old ≡ fed supported_codes bytes → Tells result (settled_fault supported_codes (bytes ++ piece.now)) }
        ensures fed { (bytes : List ℕ) → self.old ≡ fed supported_codes bytes
            → UnlessRefused result (self.new ≡ fed supported_codes (bytes ++ piece.now)) (self.new ≡ self.old) }
    {
        if let Some(fault) = self.fault {
            return Err(ImportError::Fault(fault));
        }
        match feed_bytes(alloc, &mut self.bytes, &mut self.reading, piece) {
            Ok(()) => Ok(()),
            Err(ImportError::OutOfMemory) => Err(ImportError::OutOfMemory),
            Err(ImportError::Fault(fault)) => {
                self.bytes = Vec::new(alloc);
                self.reading = unread(0);
                self.fault = Some(fault);
                Err(ImportError::Fault(fault))
            }
        }
    }

    /// Returns the number of bytes after the last whole message, which wait for the rest of theirs; 0 after a fault or the end of stream.
    pub fn held(&self) -> usize
        ensures { (bytes : List ℕ) → self.now ≡ fed supported_codes bytes → result ≡ held_of supported_codes bytes }
    {
        self.reading.held
    }

    /// Returns the table that the bytes mean, the same one that [`crate::decode`] returns for all of them.
    ///
    /// # Errors
    /// `Fault` with the first fault of the bytes. `OutOfMemory` with the unchanged decoder.
    pub fn finish(self, alloc: Global) -> Result<Table, FinishError>
        ensures exact { (bytes : List ℕ) → self ≡ fed supported_codes bytes → Finishes result (meaning supported_codes bytes) }
        ensures back { GivesBack result self }
    {
        let Decoder {
            bytes,
            reading,
            fault,
        } = self;
        if let Some(fault) = fault {
            return Err(FinishError::Fault(fault));
        }
        let Reading {
            front,
            number,
            start,
            held,
        } = reading;
        let front = match read_to_end(alloc, front, number, start, &bytes) {
            Ok(front) => front,
            Err(error) => return Err(failed(error, bytes, held)),
        };
        match table_of_front(alloc, front, bytes) {
            Ok(table) => Ok(table),
            Err(bytes) => Err(FinishError::OutOfMemory(decoder_of(bytes, held))),
        }
    }
}
