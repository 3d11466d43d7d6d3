// Which slots of runs are valid.
ghost use Rattle.std.specs.Prelude.{◌≡◌, ◌≤◌, ◌+◌, ◌++◌, ◌∷◌, [], IfSome, ◌==◌, ◌||◌, ◌*◌, nat_le, false, true, OnOk, IfOk, length, map};
ghost use Rattle.std.specs.List.{list_all, range_with_len};
ghost use Rattle.batch_build.specs.Batch.{batch_in};
ghost use Rattle.dictionary_codes.specs.Masks.{bitmap_of, run_bits, runs_bits};
ghost use Rattle.array_build.specs.inner.Runs.{with_run_slots};
ghost use Rattle.columns.specs.Runs.{has_validity};
ghost use Rattle.columns.specs.Array.{slots_in};
ghost use Rattle.columns.specs.CellAt.{is_valid};
ghost use Rattle.columns.specs.Tests.{has_short_validity};
ghost use Rattle.columns.specs.View.{view_array};

use crate::mask_bits::push_mask_bits;
use crate::run_flags::{are_short, run_flags};
use batch_build::{BuiltBatch, push_validity};
use bitmap::{MaskBuilder, get, pack, run_end};
use columns::{ArrayView, SlotRun};
use dictionary_codes::count_slots;
use std::alloc::{AllocError, Global};

/// Returns the run, if there is only one.
pub(crate) fn only_run<'a>(runs: &[SlotRun<'a>]) -> Option<SlotRun<'a>>
    ensures { IfSome result (λ run. runs.now ≡ run ∷ []) }
{
    match runs {
        [run] => Some(*run),
        _ => None,
    }
}

/// Returns whether all of some slots are valid.
pub(crate) fn are_all_valid(array: ArrayView<'_>, from: usize, len: usize) -> bool
    requires long { has_short_validity (view_array array) ≡ false }
    requires within { from + len ≤ slots_in (view_array array) }
    ensures { result ≡ list_all (is_valid (view_array array.entry)) (range_with_len from len) }
{
    if len == 0 {
        return true;
    }
    let validity = array.validity();
    if validity.is_empty() {
        return true;
    }
    let _slots = array.slots();
    let to = from + len;
    if get(validity, from) {
        run_end(validity, from, to) == to
    } else {
        false
    }
}

fn has_no_null(run: &SlotRun<'_>) -> bool
    requires { has_validity run.now ≡ true }
    ensures { result ≡ list_all (λ b. b) (run_bits run.now) }
{
    match run {
        SlotRun::Slots { array, from, len } => are_all_valid(*array, *from, *len),
        SlotRun::Nulls(count) => *count == 0,
    }
}

// Returns whether there is no null.
fn have_no_null(runs: &[SlotRun<'_>]) -> bool
    requires { list_all has_validity runs.now ≡ true }
    ensures { result ≡ list_all (λ b. b) (runs_bits runs.now) }
{
    for run in runs {
        if !has_no_null(run) {
            return false;
        }
    }
    true
}

// Appends a bit for each of some slots, which is set if the slot is valid.
fn push_slot_bits(
    bits: &mut MaskBuilder,
    array: ArrayView<'_>,
    from: usize,
    len: usize,
) -> Result<(), AllocError>
    requires long { has_short_validity (view_array array) ≡ false }
    requires within { from + len ≤ slots_in (view_array array) }
    ensures { OnOk result (bits.new ≡ bits.old ++ map (is_valid (view_array array.entry)) (range_with_len from len)) }
{
    let validity = array.validity();
    if validity.is_empty() {
        return bits.push_alike(len, true);
    }
    let _slots = array.slots();
    push_mask_bits(bits, validity, from, from + len)
}

fn push_run_bits(bits: &mut MaskBuilder, run: &SlotRun<'_>) -> Result<(), AllocError>
    requires { has_validity run.now ≡ true }
    ensures { OnOk result (bits.new ≡ bits.old ++ run_bits run.now) }
{
    match run {
        SlotRun::Slots { array, from, len } => push_slot_bits(bits, *array, *from, *len),
        SlotRun::Nulls(count) => bits.push_alike(*count, false),
    }
}

/// Makes the validity bitmap of runs.
pub(crate) fn run_validity(
    alloc: Global,
    slots: usize,
    runs: &[SlotRun<'_>],
) -> Result<Vec<u8>, AllocError>
    requires count { slots ≡ length (runs_bits runs.now) }
    requires validity { list_all has_validity runs.now ≡ true }
    ensures bits { IfOk result (λ bytes. bytes.items ≡ bitmap_of (runs_bits runs.now)) }
    ensures long { IfOk result (λ bytes. (length bytes.items == 0 || nat_le slots (8 * length bytes.items)) ≡ true) }
{
    if have_no_null(runs) {
        return Ok(Vec::new(alloc));
    }
    if are_short(slots, runs) {
        return pack(alloc, &run_flags(alloc, slots, runs)?);
    }
    let mut bits = MaskBuilder::with_capacity(alloc, slots)?;
    for run in runs {
        push_run_bits(&mut bits, run)?;
    }
    Ok(bits.into_mask())
}

/// Adds the node and the validity bitmap of runs of any type except nulls.
pub(crate) fn push_run_slots(
    alloc: Global,
    batch: &mut BuiltBatch<'_>,
    runs: &[SlotRun<'_>],
) -> Result<(), AllocError>
    requires { list_all has_validity runs.now ≡ true }
    ensures { OnOk result (batch_in batch.new ≡ with_run_slots (batch_in batch.old) (runs_bits runs.now)) }
{
    let slots = count_slots(runs)?;
    let validity = run_validity(alloc, slots, runs)?;
    push_validity(batch, slots, validity)
}

// Returns whether all bits are set: each byte is tested, without an early return, so that the loop compiles to one over many bytes at once.
fn are_all_set(bits: &[bool]) -> bool
    ensures { result ≡ list_all (λ b. b) bits.now }
{
    let mut all = true;
    for bit in bits {
        all &= *bit;
    }
    all
}

// Makes the validity bitmap of slots that are valid if their bit is set.
fn bits_validity(alloc: Global, bits: &[bool]) -> Result<Vec<u8>, AllocError>
    ensures bits { IfOk result (λ bytes. bytes.items ≡ bitmap_of bits.now) }
    ensures long { IfOk result (λ bytes. (length bytes.items == 0 || nat_le (length bits.now) (8 * length bytes.items)) ≡ true) }
{
    if are_all_set(bits) {
        return Ok(Vec::new(alloc));
    }
    pack(alloc, bits)
}

/// Adds the node and the validity bitmap of slots that are valid if their bit is set.
pub(crate) fn push_bit_slots(
    alloc: Global,
    batch: &mut BuiltBatch<'_>,
    bits: &[bool],
) -> Result<(), AllocError>
    ensures { OnOk result (batch_in batch.new ≡ with_run_slots (batch_in batch.old) bits.now) }
{
    let validity = bits_validity(alloc, bits)?;
    push_validity(batch, bits.len(), validity)
}
