// The arrays of a batch, or the first fault of the checks of its arrays (docs/definitions/arrays.md).
ghost use Rattle.std.specs.Prelude.{◌≡◌, ◌≤◌, ◌<◌, ◌+◌, ◌^◌, IfOk, map};
ghost use Rattle.arrow_schema.specs.Column.{columns_of};
ghost use Rattle.arrow_schema.specs.View.{column_of};
ghost use Rattle.facts.specs.Checks.{first_some};
ghost use Rattle.ipc_message.specs.Outcome.{Gives};
ghost use Rattle.ipc_message.specs.View.{raw_batch_of};
ghost use Rattle.columns.specs.Tests.{every_array};
ghost use Rattle.columns.specs.Places.{within};
ghost use Rattle.columns.specs.View.{arrays_in, placed_arrays};
ghost use Rattle.arrays.specs.Checks.{array_checks, has_bad_length, arrays_read};
ghost use Rattle.arrays.specs.Placed.{ArraysEndWithin};
ghost use Rattle.arrays.specs.inner.Every.{all_of};
ghost use Rattle.arrays.specs.inner.Read.{placed_in};

use crate::array_checks::{any_miscounted, any_short, any_short_child, any_unordered};
use crate::every::{TypedView, add_all};
use crate::lengths::{
    any_bad_length, any_other_length, any_outside, has_other_layout, is_bad_length,
};
use crate::place::place_all;
use crate::rest::Rest;
use arrow_schema::Field;
use columns::{Dictionary, DictionaryPart, PlacedArray, Span, bytes_at, no_array};
use ipc_message::{Fault, ImportError, RawBatch};
use std::alloc::{AllocError, Global};

/// Arrays with their fields and the bytes that they are in.
#[derive(Clone, Copy)]
pub(crate) struct Placed<'a> {
    pub(crate) fields: &'a [Field],
    pub(crate) arrays: &'a [PlacedArray],
    pub(crate) bytes: &'a [u8],
    pub(crate) dictionaries: &'a [Dictionary],
}

// F20: a length is not allowed, a column's is not the batch's, or a child is too short.
fn has_bad_length(placed: Placed<'_>, batch: &RawBatch, every: &[TypedView<'_>]) -> bool
    requires { all_of every.now ≡ every_array (columns_of (map column_of placed.fields.now)) (placed_in placed) }
    ensures { result ≡ has_bad_length (columns_of (map column_of placed.entry.fields.now)) (raw_batch_of batch.now) (placed_in placed.entry) }
{
    if is_bad_length(batch.length) {
        return true;
    }
    if any_bad_length(batch.nodes) {
        return true;
    }
    if any_other_length(placed.arrays, batch.length) {
        return true;
    }
    any_short_child(every)
}

#[tactic(auto, using(crate::proofs::Layouts::every_has_a_node))]
fn array_fault(
    placed: Placed<'_>,
    batch: &RawBatch,
    body: &[u8],
    every: &[TypedView<'_>],
) -> Option<Fault>
    requires { all_of every.now ≡ every_array (columns_of (map column_of placed.fields.now)) (placed_in placed) }
    ensures { let columns = columns_of (map column_of placed.entry.fields.now) in
        result ≡ first_some (array_checks columns (raw_batch_of batch.now) body.now (placed_in placed.entry)) }
{
    if batch.compressed {
        return Some(Fault::Compressed);
    }
    if has_other_layout(placed.fields, batch) {
        return Some(Fault::LayoutCount);
    }
    if has_bad_length(placed, batch, every) {
        return Some(Fault::RowCount);
    }
    if any_outside(batch.buffers, body) {
        return Some(Fault::BufferRange);
    }
    if any_short(every) {
        return Some(Fault::BufferShort);
    }
    if any_miscounted(batch.nodes, every) {
        return Some(Fault::NullCount);
    }
    if any_unordered(every) {
        return Some(Fault::Offsets);
    }
    None
}

fn first_fault(
    alloc: Global,
    placed: Placed<'_>,
    batch: &RawBatch,
    body: &[u8],
) -> Result<Option<Fault>, AllocError>
    ensures { let columns = columns_of (map column_of placed.entry.fields.now) in
        IfOk result (λ f. f ≡ first_some (array_checks columns (raw_batch_of batch.now) body.now (placed_in placed.entry))) }
{
    let none = no_array();
    let every = add_all(
        Vec::new(alloc),
        placed.fields,
        placed.arrays,
        placed.bytes,
        placed.dictionaries,
        &none,
    )?;
    Ok(array_fault(placed, batch, body, &every))
}

/// The arrays of a batch whose body is in some bytes, or the first fault of the checks of its arrays. A dictionary column takes the next
/// of `parts`. Nothing is copied: the arrays are places in the bytes.
///
/// # Errors
/// `Fault` with the first of these checks that fails; `OutOfMemory`.
#[tactic(auto, using(crate::proofs::Answered::read_err, crate::proofs::Answered::read_ok))]
pub fn read_arrays(
    alloc: Global,
    fields: &[Field],
    batch: &RawBatch,
    body: Span,
    bytes: &[u8],
    dictionaries: &[Dictionary],
    parts: &[DictionaryPart],
) -> Result<Vec<PlacedArray>, ImportError>
    requires { body.start + body.len < 2 ^ 64 }
    ensures arrays { let known = map (arrays_in bytes.now dictionaries.now) parts.now in
        let exact = arrays_read (columns_of (map column_of fields.now)) (raw_batch_of batch.now) (within bytes.now body) known in
        Gives (λ v. placed_arrays bytes.now dictionaries.now v.items) result exact }
    ensures placed { IfOk result (λ v. ArraysEndWithin body dictionaries.now parts.now v.items) }
{
    let rest = Rest {
        nodes: batch.nodes,
        buffers: batch.buffers,
        parts,
        body,
        bytes,
        dictionaries,
    };
    let arrays = place_all(alloc, fields, rest)?;
    let placed = Placed {
        fields,
        arrays: &arrays,
        bytes,
        dictionaries,
    };
    let fault = first_fault(alloc, placed, batch, bytes_at(bytes, body))?;
    match fault {
        Some(fault) => Err(ImportError::Fault(fault)),
        None => Ok(arrays),
    }
}
