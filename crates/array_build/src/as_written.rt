// Runs whose slots are already as they are written, even with nulls among them.
ghost use Rattle.std.specs.Prelude.{◌≡◌, ℕ, ◌≤◌, ◌<◌, ◌+◌, ◌-◌, ◌*◌, ◌^◌, ◌==◌, ◌||◌, false, true, None, length};
ghost use Rattle.batch_build.specs.Batch.{plain_column};
ghost use Rattle.array_build.specs.inner.Runs.{are_runs_as_written, are_zeros, is_run_as_written};
ghost use Rattle.columns.specs.Runs.{are_runs_sound, is_run_sound};
ghost use Rattle.columns.specs.declared.slot_runs.SlotRun.TheVariants.{Slots};
ghost use Rattle.arrow_schema.specs.View.{kind_of};
ghost use Rattle.bitmap.specs.Bits.{bit};
ghost use Rattle.columns.specs.Array.{slots_in, values_in};
ghost use Rattle.columns.specs.CellAt.{is_valid, number_at, span_size, value_at};
ghost use Rattle.columns.specs.Offsets.{width_of};
ghost use Rattle.columns.specs.Tests.{are_few_offsets, has_short_validity};
ghost use Rattle.columns.specs.View.{view_array};

use crate::run_slots::are_all_valid;
use crate::unset_slots::next_unset;
use crate::widths::{offsets_width, value_width};
use arrow_schema::DataType;
use byteorder::{ByteOrder, LittleEndian};
use columns::{ArrayView, OffsetWidth, SlotRun, offset_at};

fn are_zeros(bytes: &[u8]) -> bool
    ensures { result ≡ are_zeros bytes.now }
{
    for byte in bytes {
        if *byte != 0 {
            return false;
        }
    }
    true
}

fn value_at(values: &[u8], width: usize, i: usize) -> &[u8]
    requires within { (i + 1) * width ≤ length values.now }
    requires counted { i + 1 < 2 ^ 64 }
    ensures { result.now ≡ value_at width values.now i }
{
    &values[i * width..(i + 1) * width]
}

// Returns whether the value of a slot is all zeros. A value of 4 or 8 bytes is read as a number.
fn is_zero_at(values: &[u8], width: usize, i: usize) -> bool
    requires within { (i + 1) * width ≤ length values.now }
    requires counted { i + 1 < 2 ^ 64 }
    ensures { result ≡ true → are_zeros (value_at width values.now i) ≡ true }
{
    let value = value_at(values, width, i);
    match width {
        4 => LittleEndian::read_u32(value) == 0,
        8 => LittleEndian::read_u64(value) == 0,
        _ => are_zeros(value),
    }
}

// Returns whether the value of each null slot is all zeros.
fn have_zeros(array: ArrayView<'_>, width: usize, from: usize, len: usize) -> bool
    requires short { has_short_validity (view_array array) ≡ false }
    requires long { slots_in (view_array array) * width ≤ length (values_in (view_array array)) }
    requires within { from + len ≤ slots_in (view_array array) }
    ensures { let a = view_array array.entry in
        result ≡ true → (i : ℕ) → from ≤ i → i < from + len → (is_valid a i || are_zeros (value_at width (values_in a) i)) ≡ true }
{
    let validity = array.validity();
    if validity.is_empty() {
        return true;
    }
    let _slots = array.slots();
    have_zeros_at_unset(validity, array.values(), width, from, from + len)
}

// Returns whether the value of each slot whose bit is not set is all zeros. Goes from one unset bit to the next.
fn have_zeros_at_unset(validity: &[u8], values: &[u8], width: usize, from: usize, to: usize) -> bool
    requires order { from ≤ to }
    requires bits { to ≤ 8 * length validity.now }
    requires values { to * width ≤ length values.now }
    ensures { result ≡ true → (i : ℕ) → from ≤ i → i < to → (bit validity.now i || are_zeros (value_at width values.now i)) ≡ true }
{
    let mut i = next_unset(validity, from, to);
    while i < to {
        if !is_zero_at(values, width, i) {
            return false;
        }
        i = next_unset(validity, i + 1, to);
    }
    true
}

// Returns whether each null slot has two equal offsets.
fn have_no_bytes(array: ArrayView<'_>, width: OffsetWidth, from: usize, len: usize) -> bool
    requires short { has_short_validity (view_array array) ≡ false }
    requires long { are_few_offsets (width_of width) (view_array array) ≡ false }
    requires within { from + len ≤ slots_in (view_array array) }
    ensures { let a = view_array array.entry in
        result ≡ true → (i : ℕ) → from ≤ i → i < from + len → (is_valid a i || span_size (width_of width) a i == 0) ≡ true }
{
    if len == 0 {
        return true;
    }
    let validity = array.validity();
    if validity.is_empty() {
        return true;
    }
    let _slots = array.slots();
    have_no_bytes_at_unset(validity, array.offsets(), width, from, from + len)
}

// Returns whether each slot whose bit is not set has two equal offsets.
fn have_no_bytes_at_unset(
    validity: &[u8],
    offsets: &[u8],
    width: OffsetWidth,
    from: usize,
    to: usize,
) -> bool
    requires order { from ≤ to }
    requires bits { to ≤ 8 * length validity.now }
    requires offsets { (to + 1) * width_of width ≤ length offsets.now }
    ensures { result ≡ true → (i : ℕ) → from ≤ i → i < to
        → (bit validity.now i || (number_at (width_of width) offsets.now (i + 1) - number_at (width_of width) offsets.now i) == 0) ≡ true }
{
    let mut i = next_unset(validity, from, to);
    while i < to {
        if offset_at(offsets, width, i) < offset_at(offsets, width, i + 1) {
            return false;
        }
        i = next_unset(validity, i + 1, to);
    }
    true
}

/// Returns whether the slots of a run are already as they are written. Booleans, fixed lists and structs are so only without nulls.
pub(crate) fn are_slots_as_written(
    data_type: &DataType,
    array: ArrayView<'_>,
    from: usize,
    len: usize,
) -> bool
    requires { is_run_sound (plain_column (kind_of data_type.now) None) (Slots array from len) ≡ true }
    ensures { result ≡ true → is_run_as_written (kind_of data_type.now) (Slots array.entry from len) ≡ true }
{
    match (value_width(data_type), offsets_width(data_type)) {
        (Some(width), _) => have_zeros(array, width, from, len),
        (None, Some(width)) => have_no_bytes(array, width, from, len),
        (None, None) => are_all_valid(array, from, len),
    }
}

fn is_as_written(data_type: &DataType, run: &SlotRun<'_>) -> bool
    requires { is_run_sound (plain_column (kind_of data_type.now) None) run.now ≡ true }
    ensures { result ≡ true → is_run_as_written (kind_of data_type.now) run.now ≡ true }
{
    match run {
        SlotRun::Slots { array, from, len } => are_slots_as_written(data_type, *array, *from, *len),
        SlotRun::Nulls(_) => true,
    }
}

/// Returns whether all slots of the runs are already as they are written.
pub(crate) fn are_as_written(data_type: &DataType, runs: &[SlotRun<'_>]) -> bool
    requires { are_runs_sound (plain_column (kind_of data_type.now) None) runs.now ≡ true }
    ensures { result ≡ true → are_runs_as_written (kind_of data_type.now) runs.now ≡ true }
{
    for run in runs {
        if !is_as_written(data_type, run) {
            return false;
        }
    }
    true
}
