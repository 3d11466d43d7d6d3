// The messages of a stream as bytes.
ghost use Rattle.std.specs.Prelude.{◌≡◌, ◌≤◌, ◌<◌, ◌+◌, ◌-◌, ◌%◌, ◌^◌, ◌++◌, [], ◌∷◌, ℕ, List, map, length, take, OnOk, OnErr, IfOk, replicate};
ghost use Rattle.byteorder.specs.Endian.{little_bytes};
ghost use Rattle.arrow_schema.specs.View.{schema_of};
ghost use Rattle.arrow_schema.specs.Limits.{IsWithinLimits};
ghost use Rattle.flatbuf.specs.Held.{Fits, FitsStructs};
ghost use Rattle.flatbuf.specs.Laid.{metadata};
ghost use Rattle.flatbuf.specs.View.{node_of};
ghost use Rattle.ipc_message.specs.Framing.{continuation_marker};
ghost use Rattle.ipc_write.specs.Contents.{CanBeWritten, HasRoomFor, nodes_in, buffers_in, shape_nodes};
ghost use Rattle.ipc_write.specs.inner.Zeros.{zeros};
ghost use Rattle.ipc_write.specs.Trees.{batch_tree, message_tree, buffer_pair};
ghost use Rattle.ipc_write.specs.Written.{framed, message_bytes, schema_message, dictionary_message, batch_message, batch_of, HasRoom, IsWritableBatch, end_of_stream, padded, body, placed};

use crate::contents::{BatchContents, BatchShape};
use crate::laws::metadata_is_within_its_limit;
use crate::trees::{batch_node, dictionary_node, message_node, schema_node};
use arrow_schema::Schema;
use flatbuf::{MAX_BUFFER_BYTES, Node, Writer};
use ipc_message::{CONTINUATION_MARKER, DICTIONARY_BATCH, RECORD_BATCH, SCHEMA};
use std::alloc::{AllocError, Global};

/// Appends the continuation marker, the size of the metadata, and the metadata.
fn put_metadata(out: &mut Vec<u8>, metadata: &[u8]) -> Result<(), AllocError>
    requires { length metadata.now < 2 ^ 31 }
    ensures appended { OnOk result (out.new.items ≡ out.old.items ++ (continuation_marker ++ (little_bytes 4 (length metadata.now) ++ metadata.now))) }
    ensures begins { take (length out.old.items) out.new.items ≡ out.old.items }
{
    out.extend_from_slice(&CONTINUATION_MARKER)?;
    out.extend_from_slice(&(metadata.len() as u32).to_le_bytes())?;
    out.extend_from_slice(metadata)
}

/// Appends the zeros that pad a buffer of `length` bytes to a multiple of 8.
///
/// # Errors
/// `AllocError` if memory was refused; then nothing is appended.
pub fn write_padding(out: &mut Vec<u8>, length: usize) -> Result<(), AllocError>
    ensures appended { OnOk result (out.new.items ≡ out.old.items ++ replicate ((8 - length % 8) % 8) 0) }
    ensures kept { OnErr result (out.new.items ≡ out.old.items) }
{
    out.resize(out.len() + (8 - length % 8) % 8, 0)
}

/// Appends bytes, padded with zeros to a multiple of 8.
fn put_padded(out: &mut Vec<u8>, bytes: &[u8]) -> Result<(), AllocError>
    ensures appended { OnOk result (out.new.items ≡ out.old.items ++ padded bytes.now) }
    ensures begins { take (length out.old.items) out.new.items ≡ out.old.items }
{
    out.extend_from_slice(bytes)?;
    write_padding(out, bytes.len())
}

/// Appends the body of a message: its buffers, each padded to a multiple of 8.
fn put_body(out: &mut Vec<u8>, buffers: &[&[u8]]) -> Result<(), AllocError>
    ensures appended { OnOk result (out.new.items ≡ out.old.items ++ body (map (λ b. b.now) buffers.now)) }
    ensures begins { take (length out.old.items) out.new.items ≡ out.old.items }
{
    for buffer in buffers {
        put_padded(out, buffer)?;
    }
    Ok(())
}

/// Appends the body of a message. If memory is refused, truncates `out` to `before` bytes.
fn put_body_or_cut(out: &mut Vec<u8>, buffers: &[&[u8]], before: usize) -> Result<(), AllocError>
    requires { before ≤ length out.old.items }
    ensures appended { OnOk result (out.new.items ≡ out.old.items ++ body (map (λ b. b.now) buffers.now)) }
    ensures cut { OnErr result (out.new.items ≡ take before out.old.items) }
{
    let put = put_body(out, buffers);
    if put.is_err() {
        out.truncate(before);
    }
    put
}

/// Appends a message without its body, or nothing if memory is refused.
fn put_front(out: &mut Vec<u8>, metadata: &[u8]) -> Result<(), AllocError>
    requires { length metadata.now < 2 ^ 31 }
    ensures appended { OnOk result (out.new.items ≡ out.old.items ++ framed metadata.now []) }
    ensures begins { take (length out.old.items) out.new.items ≡ out.old.items }
    ensures kept { OnErr result (out.new.items ≡ out.old.items) }
{
    let before = out.len();
    let front = put_metadata(out, metadata);
    if front.is_err() {
        out.truncate(before);
    }
    front
}

/// Appends a message without its body, whose length in bytes is `body_length`, or nothing if memory is refused.
fn write_front(
    alloc: Global,
    out: &mut Vec<u8>,
    header_type: u8,
    header: Node,
    body_length: u64,
) -> Result<(), AllocError>
    requires fits { Fits (message_tree header_type (node_of header) body_length) }
    requires small { length (metadata (message_tree header_type (node_of header) body_length)) ≤ MAX_BUFFER_BYTES }
    ensures appended { OnOk result (out.new.items ≡ out.old.items ++ framed (metadata (message_tree header_type (node_of header) body_length)) []) }
    ensures begins { take (length out.old.items) out.new.items ≡ out.old.items }
    ensures kept { OnErr result (out.new.items ≡ out.old.items) }
{
    let root = message_node(alloc, header_type, header, body_length)?;
    let metadata = Writer::new(alloc).write(&root)?;
    put_front(out, &metadata)
}

/// Appends the message of a schema (docs/formats/writing.md).
///
/// # Errors
/// `AllocError` if memory was refused; then nothing is appended.
pub fn write_schema(alloc: Global, out: &mut Vec<u8>, schema: &Schema) -> Result<(), AllocError>
    requires { IsWithinLimits (schema_of schema.now) }
    ensures appended { OnOk result (out.new.items ≡ out.old.items ++ schema_message (schema_of schema.now)) }
    ensures kept { OnErr result (out.new.items ≡ out.old.items) }
{
    metadata_is_within_its_limit();
    let header = schema_node(alloc, schema)?;
    write_front(alloc, out, SCHEMA, header, 0)
}

/// Returns the message of a schema, as [`write_schema`] appends it.
///
/// # Errors
/// `AllocError` if memory was refused.
pub fn encode_schema(alloc: Global, schema: &Schema) -> Result<Vec<u8>, AllocError>
    requires { IsWithinLimits (schema_of schema.now) }
    ensures message { IfOk result (λ bytes. bytes.items ≡ schema_message (schema_of schema.now)) }
    ensures short { IfOk result (λ bytes. length bytes.items < 2 ^ 32) }
{
    metadata_is_within_its_limit();
    let mut message = Vec::new(alloc);
    write_schema(alloc, &mut message, schema)?;
    Ok(message)
}

/// Returns the offset and length of each buffer in the body, and the length of the body.
#[tactic(auto, using(crate::proofs::BatchNode::fits_more))]
fn ranges_of(alloc: Global, lengths: &[usize]) -> Result<(Vec<(u64, u64)>, u64), AllocError>
    requires { length (body (zeros lengths.now)) < 2 ^ 62 }
    ensures ranges { IfOk result (λ r. r.0.items ≡ map buffer_pair (placed 0 (zeros lengths.now))) }
    ensures fits { IfOk result (λ r. FitsStructs r.0.items) }
    ensures end { IfOk result (λ r. r.1 ≡ length (body (zeros lengths.now))) }
{
    let mut ranges = Vec::new(alloc);
    let mut end: u64 = 0;
    for size in lengths {
        let length = *size as u64;
        ranges.push((end, length))?;
        end += length + (8 - length % 8) % 8;
    }
    Ok((ranges, end))
}

/// Gives a contract that the numbers of the nodes fit in 64 bits, as their type says.
fn numbers_fit(nodes: &[(u64, u64)])
    ensures { FitsStructs nodes.now }
{
    for node in nodes {
        let (_length, _null_count) = (node.0, node.1);
    }
}

/// Builds the RecordBatch of this shape, and returns it with the length of its body.
fn batch_header(alloc: Global, shape: BatchShape<'_>) -> Result<(Node, u64), AllocError>
    requires { HasRoom (length shape.nodes.items) (zeros shape.lengths.now) }
    ensures node { IfOk result (λ r. node_of r.0 ≡ batch_tree (batch_of shape.entry.rows (shape_nodes shape.entry) (zeros shape.entry.lengths.now))) }
    ensures length { IfOk result (λ r. r.1 ≡ length (body (zeros shape.entry.lengths.now))) }
    ensures writable { IfOk result (λ _. IsWritableBatch shape.entry.rows (shape_nodes shape.entry) (zeros shape.entry.lengths.now)) }
{
    let BatchShape {
        rows,
        nodes,
        lengths,
    } = shape;
    numbers_fit(&nodes);
    let (ranges, body_length) = ranges_of(alloc, lengths)?;
    let header = batch_node(alloc, rows, nodes, ranges)?;
    Ok((header, body_length))
}

// Returns how many bytes each buffer has.
fn lengths_of(alloc: Global, buffers: &[&[u8]]) -> Result<Vec<usize>, AllocError>
    ensures { IfOk result (λ lengths. lengths.items ≡ map length (map (λ b. b.now) buffers.now)) }
{
    let mut lengths = Vec::with_capacity(alloc, buffers.len())?;
    for buffer in buffers {
        lengths.push_reserved(buffer.len());
    }
    Ok(lengths)
}

/// Appends the message that [`write_dictionary`] appends for buffers of these lengths, without its body. The body is the buffers, each padded to a
/// multiple of 8 as [`write_padding`] does.
///
/// # Errors
/// `AllocError` if memory was refused; then nothing is appended.
pub fn write_dictionary_front(
    alloc: Global,
    out: &mut Vec<u8>,
    id: u64,
    is_delta: bool,
    shape: BatchShape<'_>,
) -> Result<(), AllocError>
    requires { HasRoomFor shape }
    ensures appended { OnOk result ((buffers : List (List ℕ)) → map length buffers ≡ shape.entry.lengths.now
        → out.new.items ++ body buffers ≡ out.old.items ++ dictionary_message id is_delta shape.entry.rows (shape_nodes shape.entry) buffers) }
    ensures begins { take (length out.old.items) out.new.items ≡ out.old.items }
    ensures kept { OnErr result (out.new.items ≡ out.old.items) }
{
    metadata_is_within_its_limit();
    let (batch, body_length) = batch_header(alloc, shape)?;
    let header = dictionary_node(alloc, id, batch, is_delta)?;
    write_front(alloc, out, DICTIONARY_BATCH, header, body_length)
}

/// Appends a dictionary batch of these contents. They replace the entries of this id, or, in a delta, are appended to them.
///
/// # Errors
/// `AllocError` if memory was refused; then nothing is appended.
pub fn write_dictionary(
    alloc: Global,
    out: &mut Vec<u8>,
    id: u64,
    is_delta: bool,
    contents: BatchContents<'_>,
) -> Result<(), AllocError>
    requires { CanBeWritten contents }
    ensures appended { OnOk result (out.new.items ≡ out.old.items
        ++ dictionary_message id is_delta contents.entry.rows (nodes_in contents.entry) (buffers_in contents.entry)) }
    ensures kept { OnErr result (out.new.items ≡ out.old.items) }
{
    let before = out.len();
    let BatchContents {
        rows,
        nodes,
        buffers,
    } = contents;
    let lengths = lengths_of(alloc, buffers)?;
    let shape = BatchShape {
        rows,
        nodes,
        lengths: &lengths,
    };
    write_dictionary_front(alloc, out, id, is_delta, shape)?;
    put_body_or_cut(out, buffers, before)
}

/// Appends the message that [`write_batch`] appends for buffers of these lengths, without its body. The body is the buffers, each padded to a multiple
/// of 8 as [`write_padding`] does.
///
/// # Errors
/// `AllocError` if memory was refused; then nothing is appended.
pub fn write_batch_front(
    alloc: Global,
    out: &mut Vec<u8>,
    shape: BatchShape<'_>,
) -> Result<(), AllocError>
    requires { HasRoomFor shape }
    ensures appended { OnOk result ((buffers : List (List ℕ)) → map length buffers ≡ shape.entry.lengths.now
        → out.new.items ++ body buffers ≡ out.old.items ++ batch_message shape.entry.rows (shape_nodes shape.entry) buffers) }
    ensures begins { take (length out.old.items) out.new.items ≡ out.old.items }
    ensures kept { OnErr result (out.new.items ≡ out.old.items) }
{
    metadata_is_within_its_limit();
    let (header, body_length) = batch_header(alloc, shape)?;
    write_front(alloc, out, RECORD_BATCH, header, body_length)
}

/// Appends a record batch of these contents.
///
/// # Errors
/// `AllocError` if memory was refused; then nothing is appended.
pub fn write_batch(
    alloc: Global,
    out: &mut Vec<u8>,
    contents: BatchContents<'_>,
) -> Result<(), AllocError>
    requires { CanBeWritten contents }
    ensures appended { OnOk result (out.new.items ≡ out.old.items
        ++ batch_message contents.entry.rows (nodes_in contents.entry) (buffers_in contents.entry)) }
    ensures kept { OnErr result (out.new.items ≡ out.old.items) }
{
    let before = out.len();
    let BatchContents {
        rows,
        nodes,
        buffers,
    } = contents;
    let lengths = lengths_of(alloc, buffers)?;
    let shape = BatchShape {
        rows,
        nodes,
        lengths: &lengths,
    };
    write_batch_front(alloc, out, shape)?;
    put_body_or_cut(out, buffers, before)
}

/// Appends the end of stream: the continuation marker and a size of 0.
///
/// # Errors
/// `AllocError` if memory was refused; then nothing is appended.
pub fn write_end(out: &mut Vec<u8>) -> Result<(), AllocError>
    ensures appended { OnOk result (out.new.items ≡ out.old.items ++ end_of_stream) }
    ensures kept { OnErr result (out.new.items ≡ out.old.items) }
{
    let [a, b, c, d] = CONTINUATION_MARKER;
    out.extend_from_slice(&[a, b, c, d, 0, 0, 0, 0])
}
