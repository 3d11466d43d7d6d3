// Offsets of consecutive slots, all of them or those under a mask, from a new start on.
ghost use Rattle.std.specs.Prelude.{◌≡◌, ◌≤◌, ◌<◌, ◌+◌, ◌-◌, ◌*◌, ◌^◌, ◌++◌, ℕ, List, false, IfOk, length, if◌then◌else◌};
ghost use Rattle.dictionary_codes.specs.Masks.{mask_bits};
ghost use Rattle.array_build.specs.inner.MaskedContents.{masked_sizes, total};
ghost use Rattle.array_build.specs.inner.Runs.{AreOffsetsAdded, slot_sizes, span_of};
ghost use Rattle.bitmap.specs.Bits.{bit};
ghost use Rattle.columns.specs.Array.{slots_in};
ghost use Rattle.columns.specs.Buildable.{large_offset};
ghost use Rattle.columns.specs.CellAt.{number_at};
ghost use Rattle.columns.specs.Offsets.{width_of};
ghost use Rattle.columns.specs.Tests.{are_few_offsets, are_unordered};
ghost use Rattle.columns.specs.View.{view_array};

use crate::number_bytes::put_offset;
use batch_build::offset_size;
use bitmap::get;
use columns::{ArrayView, OffsetWidth, offset_at};
use std::alloc::AllocError;

// Overwrites offsets with those at which the spans of slots begin, the first at `start`; returns the end of the last span.
fn put_slot_offsets(
    room: &mut [u8],
    width: OffsetWidth,
    array: ArrayView<'_>,
    from: usize,
    len: usize,
    start: u64,
) -> u64
    requires long { are_few_offsets (width_of width) (view_array array) ≡ false }
    requires ordered { (end : ℕ) × (are_unordered (width_of width) end (view_array array) ≡ false) }
    requires some { 0 < len }
    requires within { from + len ≤ slots_in (view_array array) }
    requires fits { start + span_of (width_of width) (view_array array) from len ≤ large_offset }
    requires room { length room.old ≡ width_of width * len }
    ensures offsets { (front : List ℕ) → AreOffsetsAdded (width_of width) front (front ++ room.new) start result
        (slot_sizes (width_of width) (view_array array.entry) from len) }
    ensures next { result ≡ start + span_of (width_of width) (view_array array.entry) from len }
{
    // For the proof: the number is below 2^64, so that the sum is too.
    let _slots = array.slots();
    let source = array.offsets();
    let first = offset_at(source, width, from);
    for i in from..from + len {
        let offset = start + (offset_at(source, width, i) - first);
        put_offset(room, width, i - from, offset);
    }
    start + (offset_at(source, width, from + len) - first)
}

/// Appends the offsets at which the spans of slots begin, the first at `start`; returns the end of the last span.
pub(crate) fn push_slot_offsets(
    offsets: &mut Vec<u8>,
    width: OffsetWidth,
    array: ArrayView<'_>,
    from: usize,
    len: usize,
    start: u64,
) -> Result<u64, AllocError>
    requires long { are_few_offsets (width_of width) (view_array array) ≡ false }
    requires ordered { (end : ℕ) × (are_unordered (width_of width) end (view_array array) ≡ false) }
    requires within { from + len ≤ slots_in (view_array array) }
    requires fits { start + span_of (width_of width) (view_array array) from len ≤ large_offset }
    ensures offsets { IfOk result (λ next. AreOffsetsAdded (width_of width) offsets.old.items offsets.new.items start next
        (slot_sizes (width_of width) (view_array array.entry) from len)) }
    ensures next { IfOk result (λ next. next ≡ start + span_of (width_of width) (view_array array.entry) from len) }
{
    if len == 0 {
        return Ok(start);
    }
    // For the proof: the number is below 2^64, so that the sum is too.
    let _slots = array.slots();
    let source = array.offsets();
    let size = offset_size(width);
    let begin = offsets.len();
    // The old offsets make room, and are then overwritten.
    offsets.extend_from_slice(&source[size * from..size * (from + len)])?;
    let next = put_slot_offsets(&mut offsets[begin..], width, array, from, len, start);
    Ok(next)
}

// Returns the difference of an offset and the next, or 0 if a bit is not set. Both are read in any case, which compiles without a jump.
fn masked_size(offsets: &[u8], width: OffsetWidth, i: usize, mask: &[u8], at: usize) -> u64
    requires within { (i + 1 + 1) * width_of width ≤ length offsets.now }
    requires counted { i + 1 < 2 ^ 64 }
    requires ordered { number_at (width_of width) offsets.now i ≤ number_at (width_of width) offsets.now (i + 1) }
    requires bit { at < 8 * length mask.now }
    ensures { result ≡ (if bit mask.now at then number_at (width_of width) offsets.now (i + 1) - number_at (width_of width) offsets.now i else 0) }
{
    let size = offset_at(offsets, width, i + 1) - offset_at(offsets, width, i);
    if get(mask, at) { size } else { 0 }
}

// Overwrites offsets with those at which the spans of slots begin, under the mask bits from `at` up to `to`; returns the end of the last span.
fn put_masked_slot_offsets(
    room: &mut [u8],
    width: OffsetWidth,
    array: ArrayView<'_>,
    from: usize,
    mask: &[u8],
    at: usize,
    to: usize,
    start: u64,
) -> u64
    requires long { are_few_offsets (width_of width) (view_array array) ≡ false }
    requires ordered { (end : ℕ) × (are_unordered (width_of width) end (view_array array) ≡ false) }
    requires order { at ≤ to }
    requires bits { to ≤ 8 * length mask.now }
    requires within { from + (to - at) ≤ slots_in (view_array array) }
    requires fits { start + total (masked_sizes (width_of width) (view_array array) from (mask_bits mask.now at (to - at))) ≤ large_offset }
    requires room { length room.old ≡ width_of width * (to - at) }
    ensures offsets { (front : List ℕ) → AreOffsetsAdded (width_of width) front (front ++ room.new) start result
        (masked_sizes (width_of width) (view_array array.entry) from (mask_bits mask.now at (to - at))) }
    ensures next { result ≡ start + total (masked_sizes (width_of width) (view_array array.entry) from (mask_bits mask.now at (to - at))) }
{
    // For the proof: the number is below 2^64, so that each index is too.
    let _slots = array.slots();
    let source = array.offsets();
    let mut next = start;
    for i in at..to {
        put_offset(room, width, i - at, next);
        next += masked_size(source, width, from + (i - at), mask, i);
    }
    next
}

/// Appends the offsets at which the spans of slots begin, the first at `start`, under the mask bits from `at` up to `to`: the span of a slot whose bit is
/// not set is empty. Returns the end of the last span.
pub(crate) fn push_masked_slot_offsets(
    offsets: &mut Vec<u8>,
    width: OffsetWidth,
    array: ArrayView<'_>,
    from: usize,
    mask: &[u8],
    at: usize,
    to: usize,
    start: u64,
) -> Result<u64, AllocError>
    requires long { are_few_offsets (width_of width) (view_array array) ≡ false }
    requires ordered { (end : ℕ) × (are_unordered (width_of width) end (view_array array) ≡ false) }
    requires order { at ≤ to }
    requires bits { to ≤ 8 * length mask.now }
    requires within { from + (to - at) ≤ slots_in (view_array array) }
    requires fits { start + total (masked_sizes (width_of width) (view_array array) from (mask_bits mask.now at (to - at))) ≤ large_offset }
    ensures offsets { IfOk result (λ next. AreOffsetsAdded (width_of width) offsets.old.items offsets.new.items start next
        (masked_sizes (width_of width) (view_array array.entry) from (mask_bits mask.now at (to - at)))) }
    ensures next { IfOk result (λ next. next
        ≡ start + total (masked_sizes (width_of width) (view_array array.entry) from (mask_bits mask.now at (to - at)))) }
{
    if at == to {
        return Ok(start);
    }
    // For the proof: the number is below 2^64, so that the sum is too.
    let _slots = array.slots();
    let source = array.offsets();
    let size = offset_size(width);
    let begin = offsets.len();
    // The old offsets make room, and are then overwritten.
    offsets.extend_from_slice(&source[size * from..size * (from + (to - at))])?;
    let next = put_masked_slot_offsets(
        &mut offsets[begin..],
        width,
        array,
        from,
        mask,
        at,
        to,
        start,
    );
    Ok(next)
}
