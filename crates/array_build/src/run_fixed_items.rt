// The items of fixed-size lists, whatever is below nulls, and the mask of these items.
ghost use Rattle.std.specs.Prelude.{◌≡◌, ◌≤◌, ◌<◌, ◌-◌, ◌*◌, ◌++◌, true, IfOk, length, replicate};
ghost use Rattle.std.specs.List.{flat_map};
ghost use Rattle.std.specs.Simd.Lanes.{mask_l};
ghost use Rattle.dictionary_codes.specs.Masks.{bitmap_bits, mask_bits, bitmap_of};
ghost use Rattle.array_build.specs.inner.Masked.{repeated};
ghost use Rattle.array_build.specs.inner.RunItems.{AreFixedItems, fixed_below, fixed_column};
ghost use Rattle.bitmap.specs.Bits.{packed};
ghost use Rattle.columns.specs.Runs.{are_runs_sound, is_run_sound, runs_cells};
ghost use Rattle.arrow_schema.specs.View.{column_of};

use crate::item_slots::item_slots;
use arrow_schema::Field;
use bitmap::{MaskBuilder, get, packed_reads_back};
use columns::SlotRun;
use std::alloc::{AllocError, Global};

// Returns the items of a run: a null has `size` nulls. 2^64 items or more are refused, since no memory has room for them.
#[tactic(auto, using(crate::proofs::RunFixedItems::fixed_of_nulls))]
fn fixed_item_run<'a>(
    item: &Field,
    size: usize,
    run: &SlotRun<'a>,
) -> Result<SlotRun<'a>, AllocError>
    requires { is_run_sound (fixed_column size (column_of item.now)) run.now ≡ true }
    ensures { IfOk result (λ part. AreFixedItems size (column_of item.now) run.now part) }
{
    match run {
        SlotRun::Slots { array, from, len } => {
            // For the proof: the number is below 2^64, so that the products are too.
            let _most = array.item_slots();
            let start = *from * size;
            let count = *len * size;
            Ok(item_slots(*array, start, count))
        }
        SlotRun::Nulls(slots) => match slots.checked_mul(size) {
            Some(count) => Ok(SlotRun::Nulls(count)),
            None => Err(AllocError),
        },
    }
}

/// Makes the runs of the items of fixed-size lists, in order, whatever is below nulls.
pub(crate) fn fixed_item_runs<'a>(
    alloc: Global,
    item: &Field,
    size: usize,
    runs: &[SlotRun<'a>],
) -> Result<Vec<SlotRun<'a>>, AllocError>
    requires { are_runs_sound (fixed_column size (column_of item.now)) runs.now ≡ true }
    ensures cells { IfOk result (λ items. runs_cells (column_of item.now) items.items ≡ flat_map (fixed_below size (column_of item.now)) runs.now) }
    ensures sound { IfOk result (λ items. are_runs_sound (column_of item.now) items.items ≡ true) }
{
    let mut items = Vec::with_capacity(alloc, runs.len())?;
    for run in runs {
        items.push_reserved(fixed_item_run(item, size, run)?);
    }
    Ok(items)
}

// Returns a bit, repeated, as a number.
fn alike_word(set: bool, size: usize) -> u64
    requires { size ≤ 32 }
    ensures { result ≡ mask_l (replicate size set) }
{
    if set { (1 << size) - 1 } else { 0 }
}

// Returns some bits of a mask, each repeated, as a number.
fn repeated_word(mask: &[u8], from: usize, to: usize, size: usize) -> u64
    requires within { to ≤ 8 * length mask.now }
    requires order { from ≤ to }
    requires size { size ≤ 32 }
    requires count { (to - from) * size ≤ 64 }
    ensures { result ≡ mask_l (repeated size (mask_bits mask.now from (to - from))) }
{
    let mut word = 0;
    for i in (from..to).rev() {
        word = (word << size) + alike_word(get(mask, i), size);
    }
    word
}

// Appends the next bits of a mask, each repeated: those of one slot, or of all slots that fit into a number. Returns the index of the next bit.
fn push_repeated(
    bits: &mut MaskBuilder,
    mask: &[u8],
    from: usize,
    to: usize,
    size: usize,
) -> Result<usize, AllocError>
    requires within { to ≤ 8 * length mask.now }
    requires order { from < to }
    requires some { 0 < size }
    ensures more { IfOk result (λ next. from < next) }
    ensures ends { IfOk result (λ next. next ≤ to) }
    ensures bits { IfOk result (λ next. bits.new ≡ bits.old ++ repeated size (mask_bits mask.now from (next - from))) }
{
    if size > 32 {
        bits.push_alike(size, get(mask, from))?;
        return Ok(from + 1);
    }
    let next = from + (64 / size).min(to - from);
    bits.push_word(repeated_word(mask, from, next, size), (next - from) * size)?;
    Ok(next)
}

// Makes a mask with each of the bits of a mask repeated.
fn repeated_bits(
    alloc: Global,
    mask: &[u8],
    slots: usize,
    size: usize,
) -> Result<Vec<u8>, AllocError>
    requires within { slots ≤ 8 * length mask.now }
    requires some { 0 < size }
    ensures { IfOk result (λ bytes. bytes.items ≡ packed (repeated size (mask_bits mask.now 0 slots))) }
{
    let mut bits = MaskBuilder::with_capacity(alloc, slots.saturating_mul(size))?;
    let mut next = 0;
    while next < slots {
        next = push_repeated(&mut bits, mask, next, slots, size)?;
    }
    Ok(bits.into_mask())
}

// Makes a mask with each of the bits of a mask repeated, or an empty one for an empty mask.
fn repeated_mask(
    alloc: Global,
    mask: &[u8],
    slots: usize,
    size: usize,
) -> Result<Vec<u8>, AllocError>
    requires { mask.now ≡ bitmap_of (bitmap_bits mask.now slots) }
    ensures { IfOk result (λ bytes. bytes.items ≡ bitmap_of (repeated size (bitmap_bits mask.now slots))) }
{
    if size == 0 {
        return Ok(Vec::new(alloc));
    }
    if mask.is_empty() {
        return Ok(Vec::new(alloc));
    }
    repeated_bits(alloc, mask, slots, size)
}

/// Makes the mask of the items of fixed-size lists: each bit of the mask of the lists, repeated for each of its items.
pub(crate) fn item_mask(
    alloc: Global,
    mask: &[u8],
    slots: usize,
    size: usize,
) -> Result<Vec<u8>, AllocError>
    requires { mask.now ≡ bitmap_of (bitmap_bits mask.now slots) }
    ensures exact { IfOk result (λ bytes. bytes.items ≡ bitmap_of (repeated size (bitmap_bits mask.now slots))) }
    ensures bits { IfOk result (λ bytes. bitmap_bits bytes.items (slots * size) ≡ repeated size (bitmap_bits mask.now slots)) }
{
    let bytes = repeated_mask(alloc, mask, slots, size)?;
    packed_reads_back();
    Ok(bytes)
}
