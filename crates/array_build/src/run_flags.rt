// A `bool` for each slot of runs that have few slots each: many are packed at once, since adding bits run by run costs a call for each.
ghost use Rattle.std.specs.Prelude.{◌≡◌, ◌≤◌, ◌+◌, ◌-◌, ◌*◌, ◌++◌, false, true, OnOk, IfOk, length, map, replicate};
ghost use Rattle.std.specs.List.{list_all, range_with_len};
ghost use Rattle.dictionary_codes.specs.Masks.{run_bits, runs_bits};
ghost use Rattle.bitmap.specs.Bits.{bit};
ghost use Rattle.columns.specs.Array.{bits_in, slots_in};
ghost use Rattle.columns.specs.CellAt.{is_valid};
ghost use Rattle.columns.specs.Runs.{has_validity};
ghost use Rattle.columns.specs.Tests.{has_short_validity};
ghost use Rattle.columns.specs.View.{view_array};

use bitmap::get;
use columns::{ArrayView, SlotRun};
use std::alloc::{AllocError, Global};

// Runs that have no more slots than this, on average, are short.
const SHORT_RUN: usize = 16;

/// Returns whether the slots are in short runs.
pub(crate) fn are_short(slots: usize, runs: &[SlotRun<'_>]) -> bool {
    slots / SHORT_RUN < runs.len()
}

/// Appends the same value `count` times.
pub(crate) fn push_alike(flags: &mut Vec<bool>, count: usize, flag: bool) -> Result<(), AllocError>
    ensures { OnOk result (flags.new.items ≡ flags.old.items ++ replicate count flag) }
{
    flags.reserve(count)?;
    for _ in 0..count {
        flags.push_reserved(flag);
    }
    Ok(())
}

// Appends whether each of some bits is set.
fn push_bits(flags: &mut Vec<bool>, bits: &[u8], from: usize, to: usize) -> Result<(), AllocError>
    requires order { from ≤ to }
    requires within { to ≤ 8 * length bits.now }
    ensures { OnOk result (flags.new.items ≡ flags.old.items ++ map (bit bits.now) (range_with_len from (to - from))) }
{
    flags.reserve(to - from)?;
    for i in from..to {
        flags.push_reserved(get(bits, i));
    }
    Ok(())
}

// Appends whether each of some slots is valid.
fn push_slots(
    flags: &mut Vec<bool>,
    array: ArrayView<'_>,
    from: usize,
    len: usize,
) -> Result<(), AllocError>
    requires long { has_short_validity (view_array array) ≡ false }
    requires within { from + len ≤ slots_in (view_array array) }
    ensures { OnOk result (flags.new.items ≡ flags.old.items ++ map (is_valid (view_array array.entry)) (range_with_len from len)) }
{
    let validity = array.validity();
    if validity.is_empty() {
        return push_alike(flags, len, true);
    }
    // For the proof: the number is below 2^64, so that the sum is too.
    let _slots = array.slots();
    push_bits(flags, validity, from, from + len)
}

fn push_run(flags: &mut Vec<bool>, run: &SlotRun<'_>) -> Result<(), AllocError>
    requires { has_validity run.now ≡ true }
    ensures { OnOk result (flags.new.items ≡ flags.old.items ++ run_bits run.now) }
{
    match run {
        SlotRun::Slots { array, from, len } => push_slots(flags, *array, *from, *len),
        SlotRun::Nulls(count) => push_alike(flags, *count, false),
    }
}

/// Makes a `bool` for each slot of the runs, which have about `slots` slots: whether it is valid.
pub(crate) fn run_flags(
    alloc: Global,
    slots: usize,
    runs: &[SlotRun<'_>],
) -> Result<Vec<bool>, AllocError>
    requires { list_all has_validity runs.now ≡ true }
    ensures { IfOk result (λ flags. flags.items ≡ runs_bits runs.now) }
{
    let mut flags = Vec::with_capacity(alloc, slots)?;
    for run in runs {
        push_run(&mut flags, run)?;
    }
    Ok(flags)
}

/// Appends whether the value of each of some slots of booleans is set.
pub(crate) fn push_booleans(
    flags: &mut Vec<bool>,
    array: ArrayView<'_>,
    from: usize,
    len: usize,
) -> Result<(), AllocError>
    requires within { from + len ≤ slots_in (view_array array) }
    requires long { from + len ≤ 8 * length (bits_in (view_array array)) }
    ensures { OnOk result (flags.new.items ≡ flags.old.items ++ map (bit (bits_in (view_array array.entry))) (range_with_len from len)) }
{
    // For the proof: the number is below 2^64, so that the sum is too.
    let _slots = array.slots();
    push_bits(flags, array.bits(), from, from + len)
}
