// The checks of a batch's nodes and buffers, each by itself (docs/definitions/arrays.md).
ghost use Rattle.std.specs.Prelude.{◌≡◌, ℕ, List, map, not, ◌==◌};
ghost use Rattle.std.specs.List.{list_any};
ghost use Rattle.arrow_schema.specs.Column.{columns_of};
ghost use Rattle.arrow_schema.specs.View.{column_of};
ghost use Rattle.ipc_message.specs.Raw.{nodes_in, buffers_in};
ghost use Rattle.ipc_message.specs.View.{raw_batch_of};
ghost use Rattle.columns.specs.Array.{slots_in, array_list};
ghost use Rattle.columns.specs.View.{placed_arrays};
ghost use Rattle.columns.specs.declared.array.Dictionary.{Dictionary};
ghost use Rattle.arrays.specs.Checks.{has_other_layout, is_bad_length, is_negative, is_outside};

use crate::counts::counts_of;
use crate::limits::MAX_SLOTS;
use crate::raw::{count_of, pair_at};
use arrow_schema::Field;
use columns::PlacedArray;
use ipc_message::RawBatch;

/// F17: the columns take another number of nodes or buffers.
#[tactic(auto, using(crate::proofs::Layouts::layout_is))]
pub(crate) fn has_other_layout(fields: &[Field], batch: &RawBatch) -> bool
    ensures { result ≡ has_other_layout (columns_of (map column_of fields.now)) (raw_batch_of batch.now) }
{
    let needed = counts_of(fields);
    count_of(batch.nodes) != needed.nodes || count_of(batch.buffers) != needed.buffers
}

/// Whether a number of slots is negative, read with a sign, or over the limit.
pub(crate) fn is_bad_length(length: u64) -> bool
    ensures { result ≡ is_bad_length length }
{
    length > MAX_SLOTS
}

/// Whether one of the nodes has such a number.
pub(crate) fn any_bad_length(nodes: &[u8]) -> bool
    ensures { result ≡ list_any (λ n. is_bad_length n.length) (nodes_in nodes.now) }
{
    for i in 0..count_of(nodes) {
        if is_bad_length(pair_at(nodes, i).0) {
            return true;
        }
    }
    false
}

fn any_other(arrays: &[PlacedArray], length: u64) -> bool
    ensures { result ≡ list_any (λ array. not (array.slots == length)) arrays.now }
{
    arrays.iter().any(|array| array.slots as u64 != length)
}

/// Whether an array has another number of slots than the batch.
pub(crate) fn any_other_length(arrays: &[PlacedArray], length: u64) -> bool
    ensures { (bytes : List ℕ) (all : List Dictionary)
        → result ≡ list_any (λ a. not (slots_in a == length)) (array_list (placed_arrays bytes all arrays.now)) }
{
    any_other(arrays, length)
}

fn is_negative(number: u64) -> bool
    ensures { result ≡ is_negative number }
{
    number >= 1 << 63
}

fn is_outside(body: &[u8], offset: u64, length: u64) -> bool
    ensures { result ≡ is_outside body.now (record { offset = offset; length = length }) }
{
    is_negative(offset) || is_negative(length) || offset + length > body.len() as u64
}

/// F18: a buffer is not within the body.
pub(crate) fn any_outside(buffers: &[u8], body: &[u8]) -> bool
    ensures { result ≡ list_any (is_outside body.now) (buffers_in buffers.now) }
{
    for i in 0..count_of(buffers) {
        let (offset, length) = pair_at(buffers, i);
        if is_outside(body, offset, length) {
            return true;
        }
    }
    false
}
