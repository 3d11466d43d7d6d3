// The front of a record batch's message: all of it but its body. Most pieces of a table have as many rows, the same nodes and buffers of the same
// lengths as the piece before, and so the same front.
ghost use Rattle.std.specs.Prelude.{◌≡◌, true, IfOk, length, map};
ghost use Rattle.batch_build.specs.Batch.{buffers_in, node_in};
ghost use Rattle.ipc_encode.specs.inner.Messages.{AreFew, AreFewFor, IsFront, IsFrontFor};

use batch_build::BuiltBuffer;
use ipc_write::{BatchShape, write_batch_front};
use std::alloc::{AllocError, Global};

/// Returns how many bytes each buffer has. A length that does not fit into 64 bits is an `AllocError` too.
pub(crate) fn lengths_of(
    alloc: Global,
    buffers: &[BuiltBuffer<'_>],
) -> Result<Vec<usize>, AllocError>
    ensures { IfOk result (λ lengths. lengths.items ≡ map length (buffers_in buffers.now)) }
{
    let mut lengths = Vec::with_capacity(alloc, buffers.len())?;
    for buffer in buffers {
        let Some(length) = buffer.len() else {
            return Err(AllocError);
        };
        lengths.push_reserved(length);
    }
    Ok(lengths)
}

fn have_lengths(buffers: &[BuiltBuffer<'_>], lengths: &[usize]) -> bool
    ensures { result ≡ true → map length (buffers_in buffers.now) ≡ lengths.now }
{
    if buffers.len() != lengths.len() {
        return false;
    }
    for (i, buffer) in buffers.iter().enumerate() {
        let Some(length) = buffer.len() else {
            return false;
        };
        if length != lengths[i] {
            return false;
        }
    }
    true
}

fn are_same_nodes(nodes: &[(u64, u64)], others: &[(u64, u64)]) -> bool
    ensures { result ≡ true → nodes.now ≡ others.now }
{
    nodes == others
}

// Returns all but the body of the record batch of `rows` rows.
fn front_bytes(
    alloc: Global,
    rows: usize,
    nodes: Vec<(u64, u64)>,
    lengths: &[usize],
) -> Result<Vec<u8>, AllocError>
    requires { AreFewFor (map node_in nodes.items) lengths.now }
    ensures { IfOk result (λ bytes. IsFrontFor bytes.items rows (map node_in nodes.items) lengths.now) }
{
    let shape = BatchShape {
        rows: rows as u64,
        nodes,
        lengths,
    };
    let mut bytes = Vec::new(alloc);
    write_batch_front(alloc, &mut bytes, shape)?;
    Ok(bytes)
}

/// The front of a record batch's message, and all that it depends on.
#[derive(Drop)]
pub(crate) struct BatchFront {
    pub(crate) bytes: Vec<u8>,
    rows: usize,
    nodes: Vec<(u64, u64)>,
    lengths: Vec<usize>,
    ghost begins: { IsFrontFor bytes.items rows (map node_in nodes.items) lengths.items },
}

impl BatchFront {
    /// Makes the front of the record batch of `rows` rows, with these nodes and buffers.
    pub(crate) fn new(
        alloc: Global,
        rows: usize,
        nodes: Vec<(u64, u64)>,
        buffers: &[BuiltBuffer<'_>],
    ) -> Result<BatchFront, AllocError>
        requires { AreFew (map node_in nodes.items) (buffers_in buffers.now) }
        ensures { IfOk result (λ front. IsFront front.bytes.items rows (map node_in nodes.items) (buffers_in buffers.now)) }
    {
        let own = Vec::from_slice(alloc, &nodes)?;
        let lengths = lengths_of(alloc, buffers)?;
        let bytes = front_bytes(alloc, rows, nodes, &lengths)?;
        Ok(BatchFront {
            bytes,
            rows,
            nodes: own,
            lengths,
        })
    }

    /// Returns whether this is the front of the record batch of `rows` rows, with these nodes and buffers.
    pub(crate) fn is_of(
        &self,
        rows: usize,
        nodes: &[(u64, u64)],
        buffers: &[BuiltBuffer<'_>],
    ) -> bool
        ensures { result ≡ true → IsFront self.now.bytes.items rows (map node_in nodes.now) (buffers_in buffers.now) }
    {
        self.rows == rows
            && are_same_nodes(&self.nodes, nodes)
            && have_lengths(buffers, &self.lengths)
    }
}
