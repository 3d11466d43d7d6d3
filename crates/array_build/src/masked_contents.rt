// Strings and binaries under a mask: a slot whose bit is not set has no bytes, whatever the array has there.
ghost use Rattle.std.specs.Prelude.{◌≡◌, ◌≤◌, ◌<◌, ◌+◌, ◌-◌, ◌*◌, ◌^◌, ◌++◌, [], false, true, OnOk, IfOk, Some, None, length, if◌then◌else◌};
ghost use Rattle.std.specs.List.{flat_map};
ghost use Rattle.batch_build.specs.Batch.{batch_in, plain_column};
ghost use Rattle.array_build.specs.inner.Masked.{AddsMasked, are_below, masked_kind};
ghost use Rattle.dictionary_codes.specs.Masks.{IsMask, mask_bits, run_bits};
ghost use Rattle.array_build.specs.inner.MaskedContents.{AreUnder, masked_spans, run_under, runs_under, with_contents};
ghost use Rattle.array_build.specs.inner.Runs.{cell_sizes, span_contents};
ghost use Rattle.arrow_schema.specs.View.{kind_of};
ghost use Rattle.bitmap.specs.Bits.{bit};
ghost use Rattle.columns.specs.Array.{slots_in, contents_in};
ghost use Rattle.columns.specs.Buildable.{can_build};
ghost use Rattle.columns.specs.Built.{contents_of, offsets_of};
ghost use Rattle.columns.specs.Offsets.{contents_width, width_of};
ghost use Rattle.columns.specs.Runs.{are_runs_sound, is_run_sound};
ghost use Rattle.columns.specs.Tests.{are_few_offsets, are_unordered};
ghost use Rattle.columns.specs.View.{view_array};

use crate::number_bytes::last_offset;
use crate::run_contents::{push_written_contents, slot_contents};
use crate::run_offsets::masked_run_offsets;
use crate::slot_masks::push_masked_slots;
use crate::unset_slots::run_to;
use arrow_schema::DataType;
use batch_build::{BuiltBatch, push_buffer};
use bitmap::get;
use columns::{ArrayView, OffsetWidth, SlotRun};
use dictionary_codes::{count_slots, run_len};
use std::alloc::{AllocError, Global};

// Makes the offsets of strings or binaries under a mask: 0, and then the end of each.
fn masked_content_offsets(
    alloc: Global,
    data_type: &DataType,
    width: OffsetWidth,
    runs: &[SlotRun<'_>],
    mask: &[u8],
) -> Result<Vec<u8>, AllocError>
    requires width { contents_width (kind_of data_type.now) ≡ Some (width_of width) }
    requires under { AreUnder (kind_of data_type.now) mask.now runs.now }
    ensures { IfOk result (λ bytes. bytes.items
        ≡ offsets_of (width_of width) (cell_sizes (runs_under (kind_of data_type.now) mask.now 0 runs.now))) }
{
    masked_run_offsets(alloc, width, runs, mask)
}

// Appends the bytes of some slots if `is_there`.
fn push_span(
    contents: &mut Vec<u8>,
    array: ArrayView<'_>,
    width: OffsetWidth,
    from: usize,
    len: usize,
    is_there: bool,
) -> Result<(), AllocError>
    requires long { are_few_offsets (width_of width) (view_array array) ≡ false }
    requires within { from + len ≤ slots_in (view_array array) }
    ensures { OnOk result (contents.new.items ≡ contents.old.items
        ++ (if is_there then span_contents (width_of width) (view_array array.entry) from len else [])) }
{
    if is_there {
        contents.extend_from_slice(slot_contents(array, width, from, len))?;
    }
    Ok(())
}

// Appends the bytes of some slots under the mask bits from `at` up to `to`: those of consecutive set bits are copied at once.
fn push_slot_contents(
    contents: &mut Vec<u8>,
    array: ArrayView<'_>,
    width: OffsetWidth,
    from: usize,
    mask: &[u8],
    at: usize,
    to: usize,
) -> Result<(), AllocError>
    requires long { are_few_offsets (width_of width) (view_array array) ≡ false }
    requires ordered { are_unordered (width_of width) (length (contents_in (view_array array))) (view_array array) ≡ false }
    requires order { at ≤ to }
    requires bits { to ≤ 8 * length mask.now }
    requires within { from + (to - at) ≤ slots_in (view_array array) }
    ensures { OnOk result (contents.new.items ≡ contents.old.items
        ++ masked_spans (width_of width) (view_array array.entry) from (mask_bits mask.now at (to - at))) }
{
    // For the proof: the number is below 2^64, so that each index is too.
    let _slots = array.slots();
    let mut i = at;
    while i < to {
        let end = run_to(mask, i, to);
        push_span(
            contents,
            array,
            width,
            from + (i - at),
            end - i,
            get(mask, i),
        )?;
        i = end;
    }
    Ok(())
}

// Appends the bytes of a run under the mask bits from `at` on.
fn push_run_contents(
    contents: &mut Vec<u8>,
    data_type: &DataType,
    width: OffsetWidth,
    run: &SlotRun<'_>,
    mask: &[u8],
    at: usize,
) -> Result<(), AllocError>
    requires width { contents_width (kind_of data_type.now) ≡ Some (width_of width) }
    requires sound { is_run_sound (plain_column (kind_of data_type.now) None) run.now ≡ true }
    requires counted { at + length (run_bits run.now) < 2 ^ 64 }
    requires long { at + length (run_bits run.now) ≤ 8 * length mask.now }
    requires below { are_below (mask_bits mask.now at (length (run_bits run.now))) (run_bits run.now) ≡ true }
    ensures { OnOk result (contents.new.items ≡ contents.old.items ++ flat_map contents_of (run_under (kind_of data_type.now) mask.now at run.now)) }
{
    match run {
        SlotRun::Slots { array, from, len } => {
            push_slot_contents(contents, *array, width, *from, mask, at, at + *len)
        }
        SlotRun::Nulls(_) => Ok(()),
    }
}

// Makes the bytes of strings or binaries under a mask, one after another, in `room` bytes that are allocated at once.
fn masked_contents(
    alloc: Global,
    data_type: &DataType,
    width: OffsetWidth,
    runs: &[SlotRun<'_>],
    mask: &[u8],
    room: usize,
) -> Result<Vec<u8>, AllocError>
    requires width { contents_width (kind_of data_type.now) ≡ Some (width_of width) }
    requires under { AreUnder (kind_of data_type.now) mask.now runs.now }
    ensures { IfOk result (λ bytes. bytes.items ≡ flat_map contents_of (runs_under (kind_of data_type.now) mask.now 0 runs.now)) }
{
    // For the proof: the number of slots is below 2^64, so that each index is too.
    let _slots = count_slots(runs)?;
    let mut contents = Vec::with_capacity(alloc, room)?;
    let mut at = 0;
    for run in runs {
        push_run_contents(&mut contents, data_type, width, run, mask, at)?;
        at += run_len(run);
    }
    Ok(contents)
}

// Adds the offsets and the bytes of strings or binaries under a mask.
fn push_masked_contents(
    alloc: Global,
    batch: &mut BuiltBatch<'_>,
    data_type: &DataType,
    width: OffsetWidth,
    runs: &[SlotRun<'_>],
    mask: &[u8],
) -> Result<(), AllocError>
    requires width { contents_width (kind_of data_type.now) ≡ Some (width_of width) }
    requires under { AreUnder (kind_of data_type.now) mask.now runs.now }
    ensures { OnOk result (batch_in batch.new
        ≡ with_contents (width_of width) (batch_in batch.old) (runs_under (kind_of data_type.now) mask.now 0 runs.now)) }
{
    let offsets = masked_content_offsets(alloc, data_type, width, runs, mask)?;
    let room = last_offset(&offsets, width);
    push_buffer(batch, offsets)?;
    let contents = masked_contents(alloc, data_type, width, runs, mask, room)?;
    push_buffer(batch, contents)
}

/// Adds the array of strings or binaries under a mask, whatever is below their nulls.
pub(crate) fn build_masked_contents<'a>(
    alloc: Global,
    batch: &mut BuiltBatch<'a>,
    data_type: &DataType,
    width: OffsetWidth,
    runs: &[SlotRun<'a>],
    mask: &[u8],
) -> Result<(), AllocError>
    requires width { contents_width (kind_of data_type.now) ≡ Some (width_of width) }
    requires sound { are_runs_sound (plain_column (kind_of data_type.now) None) runs.now ≡ true }
    requires mask { IsMask mask.now runs.now }
    requires fits { can_build (plain_column (kind_of data_type.now) None) (masked_kind (kind_of data_type.now) mask.now runs.now) ≡ true }
    ensures { OnOk result (AddsMasked (kind_of data_type.now) runs.now mask.now batch.old batch.new) }
{
    let below = push_masked_slots(alloc, batch, runs, mask)?;
    if below.is_empty() {
        return push_written_contents(alloc, batch, data_type, width, runs);
    }
    push_masked_contents(alloc, batch, data_type, width, runs, &below)
}
