// The offsets of runs of strings, binaries or lists, all of them or those under a mask.
ghost use Rattle.std.specs.Prelude.{◌≡◌, ◌≤◌, ◌<◌, ◌+◌, ◌*◌, ◌^◌, OnOk, IfOk, length, replicate};
ghost use Rattle.array_build.specs.inner.MaskedContents.{total};
ghost use Rattle.array_build.specs.inner.RunOffsets.{HasOffsets, HaveOffsets, run_sizes, run_sizes_under, runs_sizes, runs_sizes_under};
ghost use Rattle.array_build.specs.inner.Runs.{AreOffsetsAdded};
ghost use Rattle.columns.specs.Buildable.{large_offset};
ghost use Rattle.columns.specs.Built.{offsets_of};
ghost use Rattle.columns.specs.Offsets.{width_of};
ghost use Rattle.dictionary_codes.specs.Masks.{run_bits, runs_bits};

use crate::slot_offsets::{push_masked_slot_offsets, push_slot_offsets};
use batch_build::offset_size;
use columns::{OffsetWidth, SlotRun, push_offset};
use dictionary_codes::{count_slots, run_len};
use std::alloc::{AllocError, Global};

// Appends the same offset for each of `count` nulls.
fn push_null_offsets(
    offsets: &mut Vec<u8>,
    width: OffsetWidth,
    count: usize,
    start: u64,
) -> Result<(), AllocError>
    ensures { OnOk result (AreOffsetsAdded (width_of width) offsets.old.items offsets.new.items start start (replicate count 0)) }
{
    for _ in 0..count {
        push_offset(offsets, width, start)?;
    }
    Ok(())
}

// Appends the offsets at which the spans of a run's slots begin, the first at `start`; returns the end of the last span.
fn push_run_offsets(
    offsets: &mut Vec<u8>,
    width: OffsetWidth,
    run: &SlotRun<'_>,
    start: u64,
) -> Result<u64, AllocError>
    requires has { HasOffsets (width_of width) run.now }
    requires room { start + total (run_sizes (width_of width) run.now) ≤ large_offset }
    ensures offsets { IfOk result (λ next. AreOffsetsAdded (width_of width) offsets.old.items offsets.new.items start next
        (run_sizes (width_of width) run.now)) }
    ensures next { IfOk result (λ next. next ≡ start + total (run_sizes (width_of width) run.now)) }
{
    match run {
        SlotRun::Slots { array, from, len } => {
            push_slot_offsets(offsets, width, *array, *from, *len, start)
        }
        SlotRun::Nulls(count) => {
            push_null_offsets(offsets, width, *count, start)?;
            Ok(start)
        }
    }
}

/// Makes the offsets of runs: 0, and then the end of each slot's span.
pub(crate) fn run_offsets(
    alloc: Global,
    width: OffsetWidth,
    runs: &[SlotRun<'_>],
) -> Result<Vec<u8>, AllocError>
    requires have { HaveOffsets (width_of width) runs.now }
    requires room { total (runs_sizes (width_of width) runs.now) ≤ large_offset }
    ensures { IfOk result (λ bytes. bytes.items ≡ offsets_of (width_of width) (runs_sizes (width_of width) runs.now)) }
{
    let size = count_slots(runs)?
        .saturating_add(1)
        .saturating_mul(offset_size(width));
    let mut offsets = Vec::with_capacity(alloc, size)?;
    let mut next = 0;
    for run in runs {
        next = push_run_offsets(&mut offsets, width, run, next)?;
    }
    push_offset(&mut offsets, width, next)?;
    Ok(offsets)
}

// Appends the offsets at which the spans of a run's slots begin, the first at `start`, under the mask bits from `at` on: the span of a slot whose bit is not
// set is empty. Returns the end of the last span.
fn push_masked_run_offsets(
    offsets: &mut Vec<u8>,
    width: OffsetWidth,
    run: &SlotRun<'_>,
    mask: &[u8],
    at: usize,
    start: u64,
) -> Result<u64, AllocError>
    requires has { HasOffsets (width_of width) run.now }
    requires counted { at + length (run_bits run.now) < 2 ^ 64 }
    requires long { at + length (run_bits run.now) ≤ 8 * length mask.now }
    requires room { start + total (run_sizes_under (width_of width) mask.now at run.now) ≤ large_offset }
    ensures offsets { IfOk result (λ next. AreOffsetsAdded (width_of width) offsets.old.items offsets.new.items start next
        (run_sizes_under (width_of width) mask.now at run.now)) }
    ensures next { IfOk result (λ next. next ≡ start + total (run_sizes_under (width_of width) mask.now at run.now)) }
{
    match run {
        SlotRun::Slots { array, from, len } => {
            push_masked_slot_offsets(offsets, width, *array, *from, mask, at, at + *len, start)
        }
        SlotRun::Nulls(count) => {
            push_null_offsets(offsets, width, *count, start)?;
            Ok(start)
        }
    }
}

/// Makes the offsets of runs under a mask: 0, and then the end of each slot's span, which is empty if the slot's bit is not set.
pub(crate) fn masked_run_offsets(
    alloc: Global,
    width: OffsetWidth,
    runs: &[SlotRun<'_>],
    mask: &[u8],
) -> Result<Vec<u8>, AllocError>
    requires have { HaveOffsets (width_of width) runs.now }
    requires long { length (runs_bits runs.now) ≤ 8 * length mask.now }
    requires room { total (runs_sizes_under (width_of width) mask.now 0 runs.now) ≤ large_offset }
    ensures { IfOk result (λ bytes. bytes.items ≡ offsets_of (width_of width) (runs_sizes_under (width_of width) mask.now 0 runs.now)) }
{
    let slots = count_slots(runs)?;
    let size = slots.saturating_add(1).saturating_mul(offset_size(width));
    let mut offsets = Vec::with_capacity(alloc, size)?;
    let mut next = 0;
    let mut at = 0;
    for run in runs {
        next = push_masked_run_offsets(&mut offsets, width, run, mask, at, next)?;
        at += run_len(run);
    }
    push_offset(&mut offsets, width, next)?;
    Ok(offsets)
}
