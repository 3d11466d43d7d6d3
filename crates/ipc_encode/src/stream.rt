// A stream as it is written: large buffers are parts of their own, which are not copied, and everything else is joined.
ghost use Rattle.std.specs.Prelude.{◌≡◌, ◌+◌, ◌++◌, ◌<◌, ◌^◌, [], OnOk, IfOk, IfSome, length};
ghost use Rattle.batch_build.specs.Batch.{buffer_bytes, buffers_in, built_bytes, joined_slices};
ghost use Rattle.ipc_encode.specs.View.{joined_parts};
ghost use Rattle.ipc_encode.specs.inner.Stream.{stream_in};
ghost use Rattle.ipc_write.specs.Written.{body, end_of_stream, padded};

use batch_build::{Buffer, BuiltBuffer};
use ipc_write::{write_end, write_padding};
use std::alloc::{AllocError, Global};
use std::mem;

/// The minimum length of a part of its own: copying a shorter buffer costs less than a part.
const LEAST_PART: usize = 4096;

/// The parts so far, and the bytes after them.
#[derive(Drop)]
pub(crate) struct Stream<'a> {
    pub(crate) parts: Vec<Buffer<'a>>,
    pub(crate) last: Vec<u8>,
}

/// Begins a stream with these bytes.
#[tactic(auto, unfolding(crate::specs::inner::Stream::stream_in))]
pub(crate) fn begin_stream<'a>(alloc: Global, first: Vec<u8>) -> Stream<'a>
    ensures { stream_in result ≡ first.items }
{
    Stream {
        parts: Vec::new(alloc),
        last: first,
    }
}

/// Appends the end of stream.
#[tactic(auto, unfolding(crate::specs::inner::Stream::stream_in))]
pub(crate) fn end_stream(stream: &mut Stream<'_>) -> Result<(), AllocError>
    ensures { OnOk result (stream_in stream.new ≡ stream_in stream.old ++ end_of_stream) }
{
    write_end(&mut stream.last)
}

// Appends a part, after the bytes joined so far.
#[tactic(auto, unfolding(crate::specs::inner::Stream::stream_in))]
fn push_part<'a>(
    alloc: Global,
    stream: &mut Stream<'a>,
    buffer: Buffer<'a>,
) -> Result<(), AllocError>
    ensures { OnOk result (stream_in stream.new ≡ stream_in stream.old ++ buffer_bytes buffer.entry) }
{
    let last = mem::replace(&mut stream.last, Vec::new(alloc));
    stream.parts.push(Buffer::Made(last))?;
    stream.parts.push(buffer)?;
    Ok(())
}

// Appends the bytes of slices to those joined so far.
fn join_slices(last: &mut Vec<u8>, slices: &[&[u8]]) -> Result<(), AllocError>
    ensures { OnOk result (last.new.items ≡ last.old.items ++ joined_slices slices.now) }
{
    for slice in slices {
        last.extend_from_slice(slice)?;
    }
    Ok(())
}

// Appends a part for each slice.
fn push_each<'a>(parts: &mut Vec<Buffer<'a>>, slices: &[&'a [u8]]) -> Result<(), AllocError>
    ensures { OnOk result (joined_parts parts.new.items ≡ joined_parts parts.old.items ++ joined_slices slices.now) }
{
    for slice in slices {
        parts.push(Buffer::Borrowed(slice))?;
    }
    Ok(())
}

// Appends slices as a part each, after the bytes joined so far.
#[tactic(auto, unfolding(crate::specs::inner::Stream::stream_in))]
fn push_slices<'a>(
    alloc: Global,
    stream: &mut Stream<'a>,
    slices: &[&'a [u8]],
) -> Result<(), AllocError>
    ensures { OnOk result (stream_in stream.new ≡ stream_in stream.old ++ joined_slices slices.now) }
{
    let last = mem::replace(&mut stream.last, Vec::new(alloc));
    stream.parts.push(Buffer::Made(last))?;
    push_each(&mut stream.parts, slices)
}

// Appends a buffer of this length.
#[tactic(auto, unfolding(crate::specs::inner::Stream::stream_in))]
fn push_buffer<'a>(
    alloc: Global,
    stream: &mut Stream<'a>,
    buffer: BuiltBuffer<'a>,
    length: usize,
) -> Result<(), AllocError>
    ensures { OnOk result (stream_in stream.new ≡ stream_in stream.old ++ built_bytes buffer.entry) }
{
    match buffer {
        BuiltBuffer::Whole(buffer) if length < LEAST_PART => {
            stream.last.extend_from_slice(buffer.bytes())
        }
        BuiltBuffer::Whole(buffer) => push_part(alloc, stream, buffer),
        BuiltBuffer::Slices(slices) if length < LEAST_PART => {
            join_slices(&mut stream.last, &slices)
        }
        BuiltBuffer::Slices(slices) => push_slices(alloc, stream, &slices),
    }
}

// Appends a buffer, and zeros up to a multiple of 8. A length that does not fit into 64 bits is an `AllocError` too.
#[tactic(auto, unfolding(crate::specs::inner::Stream::stream_in))]
fn push_padded<'a>(
    alloc: Global,
    stream: &mut Stream<'a>,
    buffer: BuiltBuffer<'a>,
) -> Result<(), AllocError>
    ensures { OnOk result (stream_in stream.new ≡ stream_in stream.old ++ padded (built_bytes buffer.entry)) }
{
    let Some(length) = buffer.len() else {
        return Err(AllocError);
    };
    push_buffer(alloc, stream, buffer, length)?;
    write_padding(&mut stream.last, length)
}

/// Appends the body of a message.
pub(crate) fn push_body<'a>(
    alloc: Global,
    stream: &mut Stream<'a>,
    buffers: Vec<BuiltBuffer<'a>>,
) -> Result<(), AllocError>
    ensures { OnOk result (stream_in stream.new ≡ stream_in stream.old ++ body (buffers_in buffers.entry.items)) }
{
    for buffer in buffers {
        push_padded(alloc, stream, buffer)?;
    }
    Ok(())
}

// Returns how many bytes the parts have after `before` others, if that fits into 64 bits.
fn count_bytes(before: usize, parts: &[Buffer<'_>]) -> Option<usize>
    ensures { IfSome result (λ count. count ≡ before + length (joined_parts parts.now)) }
{
    let mut count = before;
    for part in parts {
        let Some(more) = count.checked_add(part.bytes().len()) else {
            return None;
        };
        count = more;
    }
    Some(count)
}

fn join(alloc: Global, parts: &[Buffer<'_>], last: &[u8]) -> Result<Vec<u8>, AllocError>
    ensures { IfOk result (λ bytes. bytes.items ≡ joined_parts parts.now ++ last.now) }
{
    let Some(size) = count_bytes(last.len(), parts) else {
        return Err(AllocError);
    };
    let mut bytes = Vec::with_capacity(alloc, size)?;
    for part in parts {
        bytes.extend_from_slice(part.bytes())?;
    }
    bytes.extend_from_slice(last)?;
    Ok(bytes)
}

/// Joins the whole stream.
#[tactic(auto, unfolding(crate::specs::inner::Stream::stream_in))]
pub(crate) fn into_bytes(alloc: Global, stream: Stream<'_>) -> Result<Vec<u8>, AllocError>
    ensures { IfOk result (λ bytes. bytes.items ≡ stream_in stream.entry) }
{
    let Stream { parts, last } = stream;
    if parts.is_empty() {
        return Ok(last);
    }
    join(alloc, &parts, &last)
}

/// Returns the parts of the whole stream, which comes after `before` other bytes. A length that does not fit into 64 bits is an `AllocError` too.
#[tactic(auto, unfolding(crate::specs::inner::Stream::stream_in))]
pub(crate) fn into_parts<'a>(
    before: usize,
    stream: Stream<'a>,
) -> Result<Vec<Buffer<'a>>, AllocError>
    ensures parts { IfOk result (λ parts. joined_parts parts.items ≡ stream_in stream.entry) }
    ensures short { IfOk result (λ parts. before + length (joined_parts parts.items) < 2 ^ 64) }
{
    let Stream { parts, last } = stream;
    let mut parts = parts;
    parts.push(Buffer::Made(last))?;
    match count_bytes(before, &parts) {
        Some(_) => Ok(parts),
        None => Err(AllocError),
    }
}
