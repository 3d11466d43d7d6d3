// Masks of the slots below structs and fixed lists, as validity bitmaps: if a bit is not set, the cell is null, whatever the array has there. A mask is
// empty if all bits are set.
ghost use Rattle.std.specs.Prelude.{◌≡◌, ◌≤◌, ◌*◌, true, IfOk, OnOk, length};
ghost use Rattle.std.specs.List.{list_all};
ghost use Rattle.batch_build.specs.Batch.{batch_in};
ghost use Rattle.dictionary_codes.specs.Masks.{IsMask, bitmap_bits, joined, mask_bits, bitmap_of, runs_bits};
ghost use Rattle.array_build.specs.inner.Masked.{masked_slots};
ghost use Rattle.array_build.specs.inner.Runs.{with_run_slots};
ghost use Rattle.bitmap.specs.Bits.{packed};
ghost use Rattle.columns.specs.Runs.{has_validity};
ghost use Rattle.facts.specs.Bytes.{AreBytes};

use crate::run_slots::run_validity;
use batch_build::{BuiltBatch, push_validity};
use bitmap::{and, packed_reads_back};
use columns::SlotRun;
use dictionary_codes::count_slots;
use std::alloc::{AllocError, Global};

/// States that each byte is below 256, which a contract knows of a slice that is passed.
pub(crate) fn are_bytes(bytes: &[u8])
    ensures { AreBytes bytes.now }
{}

/// Makes the mask of the bits that are set in both masks. Each has a bit for each slot.
pub(crate) fn both_set(
    alloc: Global,
    mask: &[u8],
    other: &[u8],
    slots: usize,
) -> Result<Vec<u8>, AllocError>
    requires first { slots ≤ 8 * length mask.now }
    requires second { slots ≤ 8 * length other.now }
    ensures { IfOk result (λ bytes. bytes.items ≡ packed (joined (mask_bits mask.now 0 slots) (mask_bits other.now 0 slots))) }
{
    let bytes = and(alloc, mask, other, slots)?;
    are_bytes(&bytes);
    packed_reads_back();
    Ok(bytes)
}

// Makes the validity bitmap of runs under a mask.
fn masked_validity(
    alloc: Global,
    slots: usize,
    runs: &[SlotRun<'_>],
    mask: &[u8],
) -> Result<Vec<u8>, AllocError>
    requires count { slots ≡ length (runs_bits runs.now) }
    requires validity { list_all has_validity runs.now ≡ true }
    requires mask { IsMask mask.now runs.now }
    ensures { IfOk result (λ bytes. bytes.items ≡ bitmap_of (masked_slots mask.now runs.now)) }
{
    let own = run_validity(alloc, slots, runs)?;
    if mask.is_empty() {
        return Ok(own);
    }
    if own.is_empty() {
        return Vec::from_slice(alloc, mask);
    }
    packed_reads_back();
    both_set(alloc, mask, &own, slots)
}

/// Adds the node and the validity bitmap of runs under a mask.
pub(crate) fn push_slots_under(
    alloc: Global,
    batch: &mut BuiltBatch<'_>,
    runs: &[SlotRun<'_>],
    mask: &[u8],
) -> Result<(), AllocError>
    requires validity { list_all has_validity runs.now ≡ true }
    requires mask { IsMask mask.now runs.now }
    ensures { OnOk result (batch_in batch.new ≡ with_run_slots (batch_in batch.old) (masked_slots mask.now runs.now)) }
{
    let slots = count_slots(runs)?;
    let validity = masked_validity(alloc, slots, runs, mask)?;
    push_validity(batch, slots, validity)
}

/// Adds the node and the validity bitmap of runs under a mask, and returns the mask of the slots below them.
pub(crate) fn push_masked_slots(
    alloc: Global,
    batch: &mut BuiltBatch<'_>,
    runs: &[SlotRun<'_>],
    mask: &[u8],
) -> Result<Vec<u8>, AllocError>
    requires validity { list_all has_validity runs.now ≡ true }
    requires mask { IsMask mask.now runs.now }
    ensures batch { IfOk result (λ _. batch_in batch.new ≡ with_run_slots (batch_in batch.old) (masked_slots mask.now runs.now)) }
    ensures bits { IfOk result (λ below. bitmap_bits below.items (length (runs_bits runs.now)) ≡ masked_slots mask.now runs.now) }
    ensures below { IfOk result (λ below. IsMask below.items runs.now) }
{
    let slots = count_slots(runs)?;
    let validity = masked_validity(alloc, slots, runs, mask)?;
    packed_reads_back();
    let below = Vec::from_slice(alloc, &validity)?;
    push_validity(batch, slots, validity)?;
    Ok(below)
}
