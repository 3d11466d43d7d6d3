// Values of booleans.
ghost use Rattle.std.specs.Prelude.{◌≡◌, ◌++◌, true, OnOk, IfOk, None, length};
ghost use Rattle.batch_build.specs.Batch.{plain_column};
ghost use Rattle.dictionary_codes.specs.Masks.{IsMask, joined, slots_mask, runs_bits};
ghost use Rattle.array_build.specs.inner.Runs.{run_values, runs_values};
ghost use Rattle.columns.specs.Runs.{are_runs_sound, is_run_sound};
ghost use Rattle.arrow_schema.specs.Column.{booleans};
ghost use Rattle.bitmap.specs.Bits.{packed};

use crate::mask_bits::push_mask_bits;
use crate::run_flags::{are_short, push_alike, push_booleans};
use crate::slot_masks::both_set;
use bitmap::{MaskBuilder, pack, packed_reads_back};
use columns::SlotRun;
use dictionary_codes::count_slots;
use std::alloc::{AllocError, Global};

// Appends the values of a run of booleans, whatever is below nulls.
#[tactic(auto, using(crate::proofs::RunBits::no_values))]
fn push_run(bits: &mut MaskBuilder, run: &SlotRun<'_>) -> Result<(), AllocError>
    requires { is_run_sound (plain_column booleans None) run.now ≡ true }
    ensures { OnOk result (bits.new ≡ bits.old ++ run_values run.now) }
{
    match run {
        SlotRun::Slots { array, from, len } => {
            let _slots = array.slots();
            push_mask_bits(bits, array.bits(), *from, *from + *len)
        }
        SlotRun::Nulls(count) => bits.push_alike(*count, false),
    }
}

// Appends the values of a run of booleans, whatever is below nulls, as a `bool` for each slot.
#[tactic(auto, using(crate::proofs::RunBits::no_values))]
fn push_flags(flags: &mut Vec<bool>, run: &SlotRun<'_>) -> Result<(), AllocError>
    requires { is_run_sound (plain_column booleans None) run.now ≡ true }
    ensures { OnOk result (flags.new.items ≡ flags.old.items ++ run_values run.now) }
{
    match run {
        SlotRun::Slots { array, from, len } => push_booleans(flags, *array, *from, *len),
        SlotRun::Nulls(count) => push_alike(flags, *count, false),
    }
}

// Makes a `bool` for each slot of the runs, which have about `slots` slots.
fn boolean_flags(alloc: Global, slots: usize, runs: &[SlotRun<'_>]) -> Result<Vec<bool>, AllocError>
    requires { are_runs_sound (plain_column booleans None) runs.now ≡ true }
    ensures { IfOk result (λ flags. flags.items ≡ runs_values runs.now) }
{
    let mut flags = Vec::with_capacity(alloc, slots)?;
    for run in runs {
        push_flags(&mut flags, run)?;
    }
    Ok(flags)
}

// Makes a bit for each slot of the runs, whatever is below nulls.
fn written_booleans(
    alloc: Global,
    slots: usize,
    runs: &[SlotRun<'_>],
) -> Result<Vec<u8>, AllocError>
    requires { are_runs_sound (plain_column booleans None) runs.now ≡ true }
    ensures { IfOk result (λ bytes. bytes.items ≡ packed (runs_values runs.now)) }
{
    if are_short(slots, runs) {
        return pack(alloc, &boolean_flags(alloc, slots, runs)?);
    }
    let mut bits = MaskBuilder::with_capacity(alloc, slots)?;
    for run in runs {
        push_run(&mut bits, run)?;
    }
    Ok(bits.into_mask())
}

/// Makes a bit for each slot under a mask, which is set if the slot is the boolean true.
pub(crate) fn run_booleans(
    alloc: Global,
    runs: &[SlotRun<'_>],
    mask: &[u8],
) -> Result<Vec<u8>, AllocError>
    requires sound { are_runs_sound (plain_column booleans None) runs.now ≡ true }
    requires mask { IsMask mask.now runs.now }
    ensures { IfOk result (λ bytes. bytes.items ≡ packed (joined (slots_mask mask.now runs.now) (runs_values runs.now))) }
{
    let slots = count_slots(runs)?;
    let bits = written_booleans(alloc, slots, runs)?;
    if mask.is_empty() {
        return Ok(bits);
    }
    packed_reads_back();
    both_set(alloc, mask, &bits, slots)
}
