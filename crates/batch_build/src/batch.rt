// The nodes and buffers of a batch, as they are built.
ghost use Rattle.std.specs.Prelude.{◌≡◌, ◌*◌, ◌||◌, ◌==◌, nat_le, true, OnOk, IfSome, map, length};
ghost use Rattle.batch_build.specs.Batch.{batch_in, buffer_bytes, built_bytes, joined_slices, no_batch, node_in};
ghost use Rattle.batch_build.specs.Nodes.{with_node, with_buffer, with_slots, with_validity};
ghost use Rattle.columns.specs.Borrowed.{borrowed_cell};

use crate::valid_bits::{unset_bits, validity};
use std::alloc::{AllocError, Global};
use values::ValueRef;

/// Bytes that were made, or that are borrowed from an array.
#[derive(Drop)]
pub enum Buffer<'a> {
    Made(Vec<u8>),
    Borrowed(&'a [u8]),
}

impl Buffer<'_> {
    /// Returns the bytes.
    pub fn bytes(&self) -> &[u8]
        ensures { result.now ≡ buffer_bytes self.now }
    {
        match self {
            Buffer::Made(bytes) => bytes,
            Buffer::Borrowed(bytes) => bytes,
        }
    }
}

/// A buffer of an array that was built: its bytes as a whole, or slices that are borrowed from several arrays, one after another.
#[derive(Drop)]
pub enum BuiltBuffer<'a> {
    Whole(Buffer<'a>),
    Slices(Vec<&'a [u8]>),
}

// Returns how many bytes slices have, if that fits into 64 bits.
fn count_bytes(slices: &[&[u8]]) -> Option<usize>
    ensures { IfSome result (λ count. count ≡ length (joined_slices slices.now)) }
{
    let mut count: usize = 0;
    for slice in slices {
        let Some(more) = count.checked_add(slice.len()) else {
            return None;
        };
        count = more;
    }
    Some(count)
}

impl BuiltBuffer<'_> {
    /// Returns how many bytes the buffer has, or nothing if that does not fit into 64 bits: slices may have bytes in common.
    pub fn len(&self) -> Option<usize>
        ensures { IfSome result (λ count. count ≡ length (built_bytes self.now)) }
    {
        match self {
            BuiltBuffer::Whole(buffer) => Some(buffer.bytes().len()),
            BuiltBuffer::Slices(slices) => count_bytes(slices),
        }
    }
}

/// The batch of a dictionary's values: how many there are, a node of each array (its slots and its null count), and all buffers.
#[derive(Drop)]
pub struct BuiltDictionary<'a> {
    pub slots: u64,
    pub nodes: Vec<(u64, u64)>,
    pub buffers: Vec<BuiltBuffer<'a>>,
}

/// A batch: a node of each array (its slots and its null count), all buffers, and the dictionaries of its columns, in the order of their columns
/// (Arrow columnar format, "RecordBatch message").
#[derive(Drop)]
pub struct BuiltBatch<'a> {
    pub nodes: Vec<(u64, u64)>,
    pub buffers: Vec<BuiltBuffer<'a>>,
    pub dictionaries: Vec<BuiltDictionary<'a>>,
}

/// A batch without columns.
#[tactic(auto, unfolding(crate::specs::Batch::batch_in))]
pub fn empty_batch<'a>(alloc: Global) -> BuiltBatch<'a>
    ensures { batch_in result ≡ no_batch }
{
    BuiltBatch {
        nodes: Vec::new(alloc),
        buffers: Vec::new(alloc),
        dictionaries: Vec::new(alloc),
    }
}

/// Adds the node of an array: its slots, and how many of them are null (Arrow columnar format, "RecordBatch message").
///
/// # Errors
/// `AllocError` if memory was refused: the batch must not be used then.
#[tactic(auto, unfolding(crate::specs::Batch::batch_in, crate::specs::Nodes::with_node))]
pub fn push_node(
    batch: &mut BuiltBatch<'_>,
    slots: usize,
    null_count: usize,
) -> Result<(), AllocError>
    ensures { OnOk result (batch_in batch.new ≡ with_node (batch_in batch.old) (node_in (slots, null_count))) }
{
    batch.nodes.push((slots as u64, null_count as u64))?;
    Ok(())
}

/// Adds a buffer in any form.
///
/// # Errors
/// `AllocError` if memory was refused: the batch must not be used then.
#[tactic(auto, unfolding(crate::specs::Batch::batch_in, crate::specs::Nodes::with_buffer))]
pub fn push_any_buffer<'a>(
    batch: &mut BuiltBatch<'a>,
    buffer: BuiltBuffer<'a>,
) -> Result<(), AllocError>
    ensures { OnOk result (batch_in batch.new ≡ with_buffer (batch_in batch.old) (built_bytes buffer.entry)) }
{
    batch.buffers.push(buffer)?;
    Ok(())
}

/// Adds a buffer that was made.
///
/// # Errors
/// `AllocError` if memory was refused: the batch must not be used then.
pub fn push_buffer(batch: &mut BuiltBatch<'_>, buffer: Vec<u8>) -> Result<(), AllocError>
    ensures { OnOk result (batch_in batch.new ≡ with_buffer (batch_in batch.old) buffer.items) }
{
    push_any_buffer(batch, BuiltBuffer::Whole(Buffer::Made(buffer)))
}

/// Adds the node and the validity bitmap of slots: it is empty if none is null, and else has a bit for each slot, which is set if it is not null
/// (Arrow columnar format, "Validity bitmaps").
///
/// # Errors
/// `AllocError` if memory was refused: the batch must not be used then.
pub fn push_validity(
    batch: &mut BuiltBatch<'_>,
    slots: usize,
    validity: Vec<u8>,
) -> Result<(), AllocError>
    requires long { (length validity.items == 0 || nat_le slots (8 * length validity.items)) ≡ true }
    ensures { OnOk result (batch_in batch.new ≡ with_validity (batch_in batch.old) slots validity.items) }
{
    let null_count = unset_bits(&validity, slots);
    push_node(batch, slots, null_count)?;
    push_buffer(batch, validity)
}

/// Adds the node and the validity bitmap of cells of any type except nulls.
pub(crate) fn push_slots(
    alloc: Global,
    batch: &mut BuiltBatch<'_>,
    cells: &[ValueRef<'_>],
) -> Result<(), AllocError>
    ensures { OnOk result (batch_in batch.new ≡ with_slots (batch_in batch.old) (map borrowed_cell cells.now)) }
{
    let validity = validity(alloc, cells)?;
    push_validity(batch, cells.len(), validity)
}
