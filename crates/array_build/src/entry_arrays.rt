// The array of a dictionary's entries, none of which is null.
ghost use Rattle.std.specs.Prelude.{◌≡◌, ◌≤◌, true, OnOk, IfOk, Some, None, length, map};
ghost use Rattle.std.specs.List.{flat_map};
ghost use Rattle.array_build.specs.inner.MaskedContents.{with_contents};
ghost use Rattle.array_build.specs.inner.Runs.{cell_sizes};
ghost use Rattle.arrow_schema.specs.View.{kind_of};
ghost use Rattle.batch_build.specs.Batch.{batch_in, dictionary_in, plain_column};
ghost use Rattle.batch_build.specs.Coded.{values_batch};
ghost use Rattle.batch_build.specs.Nodes.{with_slots};
ghost use Rattle.cells.specs.Entry.{entry_cell};
ghost use Rattle.columns.specs.Buildable.{can_build, large_offset};
ghost use Rattle.columns.specs.Built.{contents_of, offsets_of};
ghost use Rattle.columns.specs.Offsets.{contents_width, width_of};
ghost use Rattle.columns.specs.Borrowed.{borrowed_cell};

use crate::number_bytes::last_offset;
use arrow_schema::DataType;
use batch_build::{
    BuiltBatch, BuiltDictionary, build_values, empty_batch, offset_size, push_buffer,
    push_validity, values_of,
};
use cells::Entry;
use columns::{OffsetWidth, contents_width, push_offset};
use std::alloc::{AllocError, Global};
use values::ValueRef;

// Returns the bytes of a string or binary: none for any other value.
#[inline]
fn contents_of<'a>(entry: Entry<'a>) -> &'a [u8]
    ensures { result.now ≡ contents_of (entry_cell entry.entry) }
{
    match entry {
        Entry::Text(text) => text.as_bytes(),
        Entry::Bytes(bytes) => bytes,
        _ => &[],
    }
}

// Makes the offsets of strings or binaries: 0, and then the end of each.
fn entry_offsets(
    alloc: Global,
    width: OffsetWidth,
    entries: &[Entry<'_>],
) -> Result<Vec<u8>, AllocError>
    requires { length (flat_map contents_of (map entry_cell entries.now)) ≤ large_offset }
    ensures { IfOk result (λ bytes. bytes.items ≡ offsets_of (width_of width) (cell_sizes (map entry_cell entries.now))) }
{
    let size = entries
        .len()
        .saturating_add(1)
        .saturating_mul(offset_size(width));
    let mut offsets = Vec::with_capacity(alloc, size)?;
    let mut end = 0;
    for entry in entries {
        push_offset(&mut offsets, width, end)?;
        end += contents_of(*entry).len() as u64;
    }
    push_offset(&mut offsets, width, end)?;
    Ok(offsets)
}

// Makes the bytes of strings or binaries, one after another, in `room` bytes that are allocated at once.
fn entry_contents(alloc: Global, entries: &[Entry<'_>], room: usize) -> Result<Vec<u8>, AllocError>
    ensures { IfOk result (λ bytes. bytes.items ≡ flat_map contents_of (map entry_cell entries.now)) }
{
    let mut contents = Vec::with_capacity(alloc, room)?;
    for entry in entries {
        contents.extend_from_slice(contents_of(*entry))?;
    }
    Ok(contents)
}

// Adds the node, an empty validity bitmap, the offsets and the bytes of strings or binaries.
fn push_entry_contents(
    alloc: Global,
    batch: &mut BuiltBatch<'_>,
    width: OffsetWidth,
    entries: &[Entry<'_>],
) -> Result<(), AllocError>
    requires { length (flat_map contents_of (map entry_cell entries.now)) ≤ large_offset }
    ensures { OnOk result (batch_in batch.new
        ≡ with_contents (width_of width) (with_slots (batch_in batch.old) (map entry_cell entries.now)) (map entry_cell entries.now)) }
{
    push_validity(batch, entries.len(), Vec::new(alloc))?;
    let offsets = entry_offsets(alloc, width, entries)?;
    let room = last_offset(&offsets, width);
    push_buffer(batch, offsets)?;
    push_buffer(batch, entry_contents(alloc, entries, room)?)
}

// Makes the batch of strings or binaries.
fn build_entry_contents<'a>(
    alloc: Global,
    data_type: &DataType,
    width: OffsetWidth,
    entries: &[Entry<'_>],
) -> Result<BuiltDictionary<'a>, AllocError>
    requires width { contents_width (kind_of data_type.now) ≡ Some (width_of width) }
    requires fits { can_build (plain_column (kind_of data_type.now) None) (map entry_cell entries.now) ≡ true }
    ensures { IfOk result (λ dictionary. dictionary_in dictionary ≡ values_batch (kind_of data_type.now) (map entry_cell entries.now)) }
{
    let mut batch = empty_batch(alloc);
    push_entry_contents(alloc, &mut batch, width, entries)?;
    Ok(values_of(entries.len(), batch))
}

fn cell_of<'a>(entry: &Entry<'a>) -> ValueRef<'a>
    ensures { borrowed_cell result ≡ entry_cell entry.now }
{
    match entry {
        Entry::Bool(boolean) => ValueRef::Bool(*boolean),
        Entry::Int(number) => ValueRef::Int(*number),
        Entry::Text(text) => ValueRef::Text(text),
        Entry::Bytes(bytes) => ValueRef::Bytes(bytes),
    }
}

fn cells_of<'a>(alloc: Global, entries: &[Entry<'a>]) -> Result<Vec<ValueRef<'a>>, AllocError>
    ensures { IfOk result (λ cells. map borrowed_cell cells.items ≡ map entry_cell entries.now) }
{
    let mut cells = Vec::with_capacity(alloc, entries.len())?;
    for entry in entries {
        cells.push_reserved(cell_of(entry));
    }
    Ok(cells)
}

/// Makes the batch of a dictionary's entries, which are of this type. Strings and binaries are not made into cells, which take over three times the
/// memory of an entry.
pub(crate) fn build_entries<'a>(
    alloc: Global,
    data_type: &DataType,
    entries: &[Entry<'_>],
) -> Result<BuiltDictionary<'a>, AllocError>
    requires { can_build (plain_column (kind_of data_type.now) None) (map entry_cell entries.now) ≡ true }
    ensures { IfOk result (λ dictionary. dictionary_in dictionary ≡ values_batch (kind_of data_type.now) (map entry_cell entries.now)) }
{
    match contents_width(data_type) {
        Some(width) => build_entry_contents(alloc, data_type, width, entries),
        None => build_values(alloc, data_type, &cells_of(alloc, entries)?),
    }
}
