// The bytes and offsets of strings and binaries, for runs that are already as they are written.
ghost use Rattle.std.specs.Prelude.{◌≡◌, ◌≤◌, ◌+◌, ◌++◌, false, true, OnOk, IfOk, Some, None};
ghost use Rattle.std.specs.List.{flat_map};
ghost use Rattle.batch_build.specs.Batch.{batch_in, built_bytes, joined_slices, plain_column};
ghost use Rattle.array_build.specs.inner.MaskedContents.{with_contents};
ghost use Rattle.array_build.specs.inner.Runs.{AreAsWritten, cell_sizes, is_run_as_written, kind_cells, span_contents};
ghost use Rattle.columns.specs.Runs.{is_run_sound, run_cells};
ghost use Rattle.columns.specs.declared.slot_runs.SlotRun.TheVariants.{Slots};
ghost use Rattle.arrow_schema.specs.View.{kind_of};
ghost use Rattle.columns.specs.Array.{slots_in};
ghost use Rattle.columns.specs.Built.{contents_of, offsets_of};
ghost use Rattle.columns.specs.Offsets.{contents_width, width_of};
ghost use Rattle.columns.specs.Tests.{are_few_offsets};
ghost use Rattle.columns.specs.View.{view_array};

use crate::kept_buffers::{kept_buffer, own_offsets};
use crate::long_runs::are_long;
use crate::number_bytes::last_offset;
use crate::run_offsets::run_offsets;
use crate::run_slots::only_run;
use arrow_schema::DataType;
use batch_build::{Buffer, BuiltBatch, BuiltBuffer, offset_size, push_any_buffer};
use columns::{ArrayView, OffsetWidth, SlotRun, bytes_at};
use std::alloc::{AllocError, Global};

/// Returns the bytes of the strings or binaries of some slots.
pub(crate) fn slot_contents<'a>(
    array: ArrayView<'a>,
    width: OffsetWidth,
    from: usize,
    len: usize,
) -> &'a [u8]
    requires long { are_few_offsets (width_of width) (view_array array) ≡ false }
    requires within { from + len ≤ slots_in (view_array array) }
    ensures { result.now ≡ span_contents (width_of width) (view_array array.entry) from len }
{
    if len == 0 {
        return &[];
    }
    bytes_at(array.contents(), array.spanned(width, from, len))
}

// Returns the bytes of the slots of a run.
fn run_slice<'a>(
    data_type: &DataType,
    width: OffsetWidth,
    array: ArrayView<'a>,
    from: usize,
    len: usize,
) -> &'a [u8]
    requires width { contents_width (kind_of data_type.now) ≡ Some (width_of width) }
    requires sound { is_run_sound (plain_column (kind_of data_type.now) None) (Slots array from len) ≡ true }
    requires written { is_run_as_written (kind_of data_type.now) (Slots array from len) ≡ true }
    ensures { result.now ≡ flat_map contents_of (run_cells (plain_column (kind_of data_type.now) None) (Slots array.entry from len)) }
{
    slot_contents(array, width, from, len)
}

// Returns the bytes of a run, of which a null has none.
#[tactic(auto, using(crate::proofs::RunContents::no_contents))]
fn content_slice<'a>(data_type: &DataType, width: OffsetWidth, run: &SlotRun<'a>) -> &'a [u8]
    requires width { contents_width (kind_of data_type.now) ≡ Some (width_of width) }
    requires sound { is_run_sound (plain_column (kind_of data_type.now) None) run.now ≡ true }
    requires written { is_run_as_written (kind_of data_type.now) run.now ≡ true }
    ensures { result.now ≡ flat_map contents_of (run_cells (plain_column (kind_of data_type.now) None) run.now) }
{
    match run {
        SlotRun::Slots { array, from, len } => run_slice(data_type, width, *array, *from, *len),
        SlotRun::Nulls(_) => &[],
    }
}

// Copies the bytes of all strings or binaries into `room` bytes that are allocated at once.
fn copied_contents(
    alloc: Global,
    data_type: &DataType,
    width: OffsetWidth,
    runs: &[SlotRun<'_>],
    room: usize,
) -> Result<Vec<u8>, AllocError>
    requires width { contents_width (kind_of data_type.now) ≡ Some (width_of width) }
    requires ready { AreAsWritten (kind_of data_type.now) runs.now }
    ensures { IfOk result (λ bytes. bytes.items ≡ flat_map contents_of (kind_cells (kind_of data_type.now) runs.now)) }
{
    let mut contents = Vec::with_capacity(alloc, room)?;
    for run in runs {
        contents.extend_from_slice(content_slice(data_type, width, run))?;
    }
    Ok(contents)
}

// Returns the bytes of each run.
fn content_slices<'a>(
    alloc: Global,
    data_type: &DataType,
    width: OffsetWidth,
    runs: &[SlotRun<'a>],
) -> Result<Vec<&'a [u8]>, AllocError>
    requires width { contents_width (kind_of data_type.now) ≡ Some (width_of width) }
    requires ready { AreAsWritten (kind_of data_type.now) runs.now }
    ensures { IfOk result (λ slices. joined_slices slices.items ≡ flat_map contents_of (kind_cells (kind_of data_type.now) runs.now)) }
{
    let mut slices = Vec::with_capacity(alloc, runs.len())?;
    for run in runs {
        slices.push_reserved(content_slice(data_type, width, run));
    }
    Ok(slices)
}

// Returns the bytes of all strings or binaries, one after another, of which there are `room`. They are borrowed from one run, or from several if these
// are long.
fn run_contents<'a>(
    alloc: Global,
    data_type: &DataType,
    width: OffsetWidth,
    runs: &[SlotRun<'a>],
    room: usize,
) -> Result<BuiltBuffer<'a>, AllocError>
    requires width { contents_width (kind_of data_type.now) ≡ Some (width_of width) }
    requires ready { AreAsWritten (kind_of data_type.now) runs.now }
    ensures { IfOk result (λ buffer. built_bytes buffer ≡ flat_map contents_of (kind_cells (kind_of data_type.now) runs.now)) }
{
    if let Some(run) = only_run(runs) {
        let slice = content_slice(data_type, width, &run);
        return Ok(BuiltBuffer::Whole(Buffer::Borrowed(slice)));
    }
    if are_long(room, runs.len()) {
        return Ok(BuiltBuffer::Slices(content_slices(alloc, data_type, width, runs)?));
    }
    let contents = copied_contents(alloc, data_type, width, runs, room)?;
    Ok(BuiltBuffer::Whole(Buffer::Made(contents)))
}

// Makes the offsets of strings or binaries: 0, and then the end of each.
fn content_offsets(
    alloc: Global,
    data_type: &DataType,
    width: OffsetWidth,
    runs: &[SlotRun<'_>],
) -> Result<Vec<u8>, AllocError>
    requires width { contents_width (kind_of data_type.now) ≡ Some (width_of width) }
    requires ready { AreAsWritten (kind_of data_type.now) runs.now }
    ensures { IfOk result (λ bytes. bytes.items ≡ offsets_of (width_of width) (cell_sizes (kind_cells (kind_of data_type.now) runs.now))) }
{
    run_offsets(alloc, width, runs)
}

/// Adds the offsets and the bytes of strings or binaries.
pub(crate) fn push_written_contents<'a>(
    alloc: Global,
    batch: &mut BuiltBatch<'a>,
    data_type: &DataType,
    width: OffsetWidth,
    runs: &[SlotRun<'a>],
) -> Result<(), AllocError>
    requires width { contents_width (kind_of data_type.now) ≡ Some (width_of width) }
    requires ready { AreAsWritten (kind_of data_type.now) runs.now }
    ensures { OnOk result (batch_in batch.new
        ≡ with_contents (width_of width) (batch_in batch.old) (kind_cells (kind_of data_type.now) runs.now)) }
{
    let offsets = content_offsets(alloc, data_type, width, runs)?;
    let room = last_offset(&offsets, width);
    let own = own_offsets(runs, offset_size(width), offsets.len());
    push_any_buffer(batch, kept_buffer(own, offsets))?;
    push_any_buffer(batch, run_contents(alloc, data_type, width, runs, room)?)
}
