// Writes the stream of a table to a writer.
ghost use Rattle.std.specs.Prelude.{◌≡◌, ◌≢◌, [], IfErr, OnOk};
ghost use Rattle.std.specs.Io.KnownBytes.{Appends};
ghost use Rattle.ipc_canonical.specs.Canonical.{canonical};
ghost use Rattle.ipc_encode.specs.declared.writing.WriteError.TheVariants.{Io, OutOfMemory};
ghost use Rattle.ipc_encode.specs.View.{joined_parts};
ghost use Rattle.ipc_encode.specs.inner.Stream.{stream_in};
ghost use Rattle.ipc_encode.specs.inner.Writing.{Gathers};
ghost use Rattle.values.specs.TableView.{table_of};

use crate::encoder::encode_table;
use crate::stream::Stream;
use batch_build::Buffer;
use std::alloc::{AllocError, Global};
use std::io::{self, Write};
use thiserror::Error;
use values::Table;

/// The most bytes that are gathered before they are written.
const MOST_GATHERED: usize = 65_536;

/// The minimum length of a part that is written alone: to copy a shorter one costs less than a call.
const LEAST_ALONE: usize = 4096;

/// Why a stream was not written.
#[derive(Clone, Copy, Debug, PartialEq, Eq, Error)]
pub enum WriteError {
    /// The writer failed, which includes a `Vec` that gets no memory. Part of the stream may be written.
    #[error("G1 Io")]
    Io,
    /// Memory was refused, before anything was written.
    #[error("OutOfMemory")]
    OutOfMemory,
}

impl From<io::Error> for WriteError {
    ghost from_gives = { λ _ e. e ≡ Io };

    fn from(_: io::Error) -> WriteError {
        WriteError::Io
    }
}

impl From<AllocError> for WriteError {
    ghost from_gives = { λ _ e. e ≡ OutOfMemory };

    fn from(_: AllocError) -> WriteError {
        WriteError::OutOfMemory
    }
}

fn write_part<W: Write>(writer: &mut W, bytes: &[u8]) -> Result<(), WriteError>
    ensures written { OnOk result (Appends (W.contents writer.old) (W.contents writer.new) bytes.now) }
    ensures io { IfErr result (λ e. e ≡ WriteError.Io) }
{
    writer.write_all(bytes)?;
    Ok(())
}

// Writes the bytes that were gathered.
fn write_gathered<W: Write>(writer: &mut W, gathered: &mut Vec<u8>) -> Result<(), WriteError>
    ensures written { OnOk result (Appends (W.contents writer.old) (W.contents writer.new) gathered.old.items) }
    ensures none { OnOk result (gathered.new.items ≡ []) }
    ensures io { IfErr result (λ e. e ≡ WriteError.Io) }
{
    write_part(writer, gathered)?;
    gathered.clear();
    Ok(())
}

// Writes a part, or adds it to those that are gathered.
fn put_part<W: Write>(
    writer: &mut W,
    gathered: &mut Vec<u8>,
    bytes: &[u8],
) -> Result<(), WriteError>
    ensures written { OnOk result (Gathers (W.contents writer.old) (W.contents writer.new) gathered.old.items gathered.new.items bytes.now) }
    ensures io { IfErr result (λ e. e ≡ WriteError.Io) }
{
    if bytes.len() >= LEAST_ALONE {
        write_gathered(writer, gathered)?;
        return write_part(writer, bytes);
    }
    if gathered.len().saturating_add(bytes.len()) > MOST_GATHERED {
        write_gathered(writer, gathered)?;
        return write_part(gathered, bytes);
    }
    write_part(gathered, bytes)
}

fn put_parts<W: Write>(
    writer: &mut W,
    gathered: &mut Vec<u8>,
    parts: &[Buffer<'_>],
) -> Result<(), WriteError>
    ensures written { OnOk result (Gathers (W.contents writer.old) (W.contents writer.new) gathered.old.items gathered.new.items (joined_parts parts.now)) }
    ensures io { IfErr result (λ e. e ≡ WriteError.Io) }
{
    for part in parts {
        put_part(writer, gathered, part.bytes())?;
    }
    Ok(())
}

// Writes a whole stream and nothing else, and flushes. Short parts are gathered in the room for `MOST_GATHERED` bytes, so that this takes no memory.
#[tactic(auto, unfolding(crate::specs::inner::Stream::stream_in))]
fn write_stream<W: Write>(
    writer: &mut W,
    gathered: &mut Vec<u8>,
    stream: &Stream<'_>,
) -> Result<(), WriteError>
    requires { gathered.old.items ≡ [] }
    ensures written { OnOk result (Appends (W.contents writer.old) (W.contents writer.new) (stream_in stream.now)) }
    ensures io { IfErr result (λ e. e ≡ WriteError.Io) }
{
    put_parts(writer, gathered, &stream.parts)?;
    put_part(writer, gathered, &stream.last)?;
    write_gathered(writer, gathered)?;
    writer.flush()?;
    Ok(())
}

/// Writes a table as one stream, that of [`crate::encode`], and flushes.
///
/// A buffer of a piece that the table's bytes contain as it is written is written from these bytes, without a copy unless it is small. All
/// others are made before the first byte is written: this takes their memory, and time linear in the stream and in the cells of the table.
///
/// # Errors
/// `OutOfMemory` only if memory was refused: nothing is written; `Io` if the writer fails.
pub fn encode_to<W: Write>(alloc: Global, table: &Table, writer: &mut W) -> Result<(), WriteError>
    ensures written { OnOk result (Appends (W.contents writer.old) (W.contents writer.new) (canonical (table_of table.now))) }
    ensures silent { IfErr result (λ e. e ≢ WriteError.Io → writer.new ≡ writer.old) }
{
    let stream = encode_table(alloc, table)?;
    let mut gathered = Vec::with_capacity(alloc, MOST_GATHERED)?;
    write_stream(writer, &mut gathered, &stream)
}
