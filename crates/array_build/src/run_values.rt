// Values of one width.
ghost use Rattle.std.specs.Prelude.{◌≡◌, ◌≤◌, ◌+◌, ◌-◌, ◌*◌, ◌++◌, true, false, OnOk, IfOk, IfSome, Some, None, map, take, drop, replicate, length};
ghost use Rattle.std.specs.List.{flat_map, range_with_len};
ghost use Rattle.batch_build.specs.Batch.{built_bytes, joined_slices, plain_column};
ghost use Rattle.dictionary_codes.specs.Masks.{IsMask, masked_cells};
ghost use Rattle.array_build.specs.inner.Runs.{cleared, fixed_value, fixed_width, is_run_as_written, kind_cells};
ghost use Rattle.bitmap.specs.Bits.{bit};
ghost use Rattle.columns.specs.Runs.{are_runs_sound, is_run_sound, run_cells};
ghost use Rattle.columns.specs.declared.slot_runs.SlotRun.TheVariants.{Slots};
ghost use Rattle.arrow_schema.specs.View.{kind_of};
ghost use Rattle.columns.specs.Array.{slots_in, values_in};
ghost use Rattle.columns.specs.CellAt.{is_valid};
ghost use Rattle.columns.specs.Tests.{has_short_validity};
ghost use Rattle.columns.specs.View.{view_array};
ghost use Rattle.facts.specs.Bytes.{AreBytes};

use crate::as_written::are_slots_as_written;
use crate::long_runs::are_long;
use crate::run_slots::only_run;
use crate::slot_masks::are_bytes;
use crate::unset_slots::next_unset;
use arrow_schema::DataType;
use batch_build::{Buffer, BuiltBuffer};
use columns::{ArrayView, SlotRun};
use dictionary_codes::{count_slots, put_number};
use std::alloc::{AllocError, Global};

// Returns the values of some slots of an array.
fn slot_values<'a>(array: ArrayView<'a>, width: usize, from: usize, len: usize) -> &'a [u8]
    requires long { (from + len) * width ≤ length (values_in (view_array array)) }
    requires within { from + len ≤ slots_in (view_array array) }
    ensures values { result.now ≡ take (len * width) (drop (from * width) (values_in (view_array array.entry))) }
    ensures bytes { AreBytes (values_in (view_array array.entry)) }
{
    // For the proof: the number is below 2^64, so that the sum is too.
    let _slots = array.slots();
    let values = array.values();
    are_bytes(values);
    &values[from * width..(from + len) * width]
}

// Returns the values of the slots of a run.
fn run_slice<'a>(
    data_type: &DataType,
    width: usize,
    array: ArrayView<'a>,
    from: usize,
    len: usize,
) -> &'a [u8]
    requires width { fixed_width (kind_of data_type.now) ≡ Some width }
    requires sound { is_run_sound (plain_column (kind_of data_type.now) None) (Slots array from len) ≡ true }
    requires written { is_run_as_written (kind_of data_type.now) (Slots array from len) ≡ true }
    ensures { result.now ≡ flat_map (fixed_value (kind_of data_type.now))
        (run_cells (plain_column (kind_of data_type.now) None) (Slots array.entry from len)) }
{
    slot_values(array, width, from, len)
}

/// Appends zeros for `count` values. 2^64 bytes or more are refused, since no memory has room for them.
fn push_zeros(values: &mut Vec<u8>, width: usize, count: usize) -> Result<(), AllocError>
    ensures { OnOk result (values.new.items ≡ values.old.items ++ replicate (count * width) 0) }
{
    let end = match count.checked_mul(width) {
        Some(size) => values.len().checked_add(size),
        None => None,
    };
    match end {
        Some(end) => values.resize(end, 0),
        None => Err(AllocError),
    }
}

// Sets a value to zeros. A value of 4 or 8 bytes is written as a number.
#[inline]
fn clear_value(values: &mut [u8], at: usize, width: usize)
    requires { at + width ≤ length values.old }
    ensures { values.new ≡ take at values.old ++ (replicate width 0 ++ drop (at + width) values.old) }
{
    match width {
        4 => put_number::<4>(values, at, 0),
        8 => put_number::<8>(values, at, 0),
        _ => values[at..at + width].fill(0),
    }
}

// Sets each value to zeros whose bit is not set, from an index on: goes from one such bit to the next.
fn clear_unset(values: &mut [u8], start: usize, width: usize, bits: &[u8], from: usize, to: usize)
    requires order { from ≤ to }
    requires bits { to ≤ 8 * length bits.now }
    requires values { length values.old ≡ start + (to - from) * width }
    ensures { values.new ≡ take start values.old ++ cleared width (map (bit bits.now) (range_with_len from (to - from))) (drop start values.old) }
{
    let mut i = next_unset(bits, from, to);
    while i < to {
        clear_value(values, start + (i - from) * width, width);
        i = next_unset(bits, i + 1, to);
    }
}

// Appends the values of some slots, with zeros for nulls.
fn push_slots(
    values: &mut Vec<u8>,
    array: ArrayView<'_>,
    width: usize,
    from: usize,
    len: usize,
) -> Result<(), AllocError>
    requires short { has_short_validity (view_array array) ≡ false }
    requires long { (from + len) * width ≤ length (values_in (view_array array)) }
    requires within { from + len ≤ slots_in (view_array array) }
    ensures values { let a = view_array array.entry in OnOk result (values.new.items ≡ values.old.items
        ++ cleared width (map (is_valid a) (range_with_len from len)) (take (len * width) (drop (from * width) (values_in a)))) }
    ensures bytes { AreBytes (values_in (view_array array.entry)) }
{
    let start = values.len();
    values.extend_from_slice(slot_values(array, width, from, len))?;
    let validity = array.validity();
    if validity.is_empty() {
        return Ok(());
    }
    let _slots = array.slots();
    clear_unset(
        values.as_mut_slice(),
        start,
        width,
        validity,
        from,
        from + len,
    );
    Ok(())
}

// Appends the values of a run of a type.
#[tactic(auto, using(crate::proofs::RunValues::null_bytes))]
fn push_run(
    values: &mut Vec<u8>,
    data_type: &DataType,
    width: usize,
    run: &SlotRun<'_>,
) -> Result<(), AllocError>
    requires width { fixed_width (kind_of data_type.now) ≡ Some width }
    requires sound { is_run_sound (plain_column (kind_of data_type.now) None) run.now ≡ true }
    ensures { OnOk result (values.new.items
        ≡ values.old.items ++ flat_map (fixed_value (kind_of data_type.now)) (run_cells (plain_column (kind_of data_type.now) None) run.now)) }
{
    match run {
        SlotRun::Slots { array, from, len } => push_slots(values, *array, width, *from, *len),
        SlotRun::Nulls(count) => push_zeros(values, width, *count),
    }
}

// Copies the values of runs, with zeros for nulls.
fn copied_values(
    alloc: Global,
    data_type: &DataType,
    width: usize,
    runs: &[SlotRun<'_>],
) -> Result<Vec<u8>, AllocError>
    requires width { fixed_width (kind_of data_type.now) ≡ Some width }
    requires sound { are_runs_sound (plain_column (kind_of data_type.now) None) runs.now ≡ true }
    ensures { IfOk result (λ bytes. bytes.items ≡ flat_map (fixed_value (kind_of data_type.now)) (kind_cells (kind_of data_type.now) runs.now)) }
{
    let size = count_slots(runs)?.saturating_mul(width);
    let mut values = Vec::with_capacity(alloc, size)?;
    for run in runs {
        push_run(&mut values, data_type, width, run)?;
    }
    Ok(values)
}

// Returns the values of a run, if they already are as they are written.
fn written_slice<'a>(data_type: &DataType, width: usize, run: &SlotRun<'a>) -> Option<&'a [u8]>
    requires width { fixed_width (kind_of data_type.now) ≡ Some width }
    requires sound { is_run_sound (plain_column (kind_of data_type.now) None) run.now ≡ true }
    ensures { IfSome result (λ slice. slice.now
        ≡ flat_map (fixed_value (kind_of data_type.now)) (run_cells (plain_column (kind_of data_type.now) None) run.now)) }
{
    match run {
        SlotRun::Slots { array, from, len } => {
            if !are_slots_as_written(data_type, *array, *from, *len) {
                return None;
            }
            Some(run_slice(data_type, width, *array, *from, *len))
        }
        SlotRun::Nulls(_) => None,
    }
}

// Returns the values of each run, if all already are as they are written.
fn written_slices<'a>(
    alloc: Global,
    data_type: &DataType,
    width: usize,
    runs: &[SlotRun<'a>],
) -> Result<Option<Vec<&'a [u8]>>, AllocError>
    requires width { fixed_width (kind_of data_type.now) ≡ Some width }
    requires sound { are_runs_sound (plain_column (kind_of data_type.now) None) runs.now ≡ true }
    ensures { IfOk result (λ found. IfSome found (λ slices.
        joined_slices slices.items ≡ flat_map (fixed_value (kind_of data_type.now)) (kind_cells (kind_of data_type.now) runs.now))) }
{
    let mut slices = Vec::with_capacity(alloc, runs.len())?;
    for run in runs {
        let Some(slice) = written_slice(data_type, width, run) else {
            return Ok(None);
        };
        slices.push_reserved(slice);
    }
    Ok(Some(slices))
}

// Returns the values of several runs as slices, if these are long and already as they are written.
fn long_slices<'a>(
    alloc: Global,
    data_type: &DataType,
    width: usize,
    runs: &[SlotRun<'a>],
) -> Result<Option<Vec<&'a [u8]>>, AllocError>
    requires width { fixed_width (kind_of data_type.now) ≡ Some width }
    requires sound { are_runs_sound (plain_column (kind_of data_type.now) None) runs.now ≡ true }
    ensures { IfOk result (λ found. IfSome found (λ slices.
        joined_slices slices.items ≡ flat_map (fixed_value (kind_of data_type.now)) (kind_cells (kind_of data_type.now) runs.now))) }
{
    if !are_long(count_slots(runs)?.saturating_mul(width), runs.len()) {
        return Ok(None);
    }
    written_slices(alloc, data_type, width, runs)
}

// Returns the values of runs, with zeros for nulls. They are borrowed if they already are as they are written, and several runs are long.
fn run_values<'a>(
    alloc: Global,
    data_type: &DataType,
    width: usize,
    runs: &[SlotRun<'a>],
) -> Result<BuiltBuffer<'a>, AllocError>
    requires width { fixed_width (kind_of data_type.now) ≡ Some width }
    requires sound { are_runs_sound (plain_column (kind_of data_type.now) None) runs.now ≡ true }
    ensures { IfOk result (λ buffer. built_bytes buffer ≡ flat_map (fixed_value (kind_of data_type.now)) (kind_cells (kind_of data_type.now) runs.now)) }
{
    if let Some(run) = only_run(runs) {
        if let Some(slice) = written_slice(data_type, width, &run) {
            return Ok(BuiltBuffer::Whole(Buffer::Borrowed(slice)));
        }
    } else if let Some(slices) = long_slices(alloc, data_type, width, runs)? {
        return Ok(BuiltBuffer::Slices(slices));
    }
    Ok(BuiltBuffer::Whole(Buffer::Made(copied_values(alloc, data_type, width, runs)?)))
}

/// Returns the values of runs under a mask, with zeros for nulls.
pub(crate) fn masked_values<'a>(
    alloc: Global,
    data_type: &DataType,
    width: usize,
    runs: &[SlotRun<'a>],
    mask: &[u8],
) -> Result<BuiltBuffer<'a>, AllocError>
    requires width { fixed_width (kind_of data_type.now) ≡ Some width }
    requires sound { are_runs_sound (plain_column (kind_of data_type.now) None) runs.now ≡ true }
    requires mask { IsMask mask.now runs.now }
    ensures { IfOk result (λ buffer. built_bytes buffer
        ≡ flat_map (fixed_value (kind_of data_type.now)) (masked_cells (plain_column (kind_of data_type.now) None) mask.now runs.now)) }
{
    if mask.is_empty() {
        return run_values(alloc, data_type, width, runs);
    }
    let slots = count_slots(runs)?;
    let mut values = copied_values(alloc, data_type, width, runs)?;
    clear_unset(values.as_mut_slice(), 0, width, mask, 0, slots);
    Ok(BuiltBuffer::Whole(Buffer::Made(values)))
}
