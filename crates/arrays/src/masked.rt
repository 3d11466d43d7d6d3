// The weight of texts, binaries and lists of which some are null, or are below nulls, by their offsets alone.
ghost use Rattle.std.specs.Prelude.{◌≡◌, ◌==◌, ◌+◌, ◌*◌, ◌^◌, ◌≤◌, ◌<◌, ◌&&◌, ℕ, false, IfSome, Some, None, option_map, if◌then◌else◌};
ghost use Rattle.std.specs.Int.{bit_at};
ghost use Rattle.arrow_schema.specs.View.{column_of, kind_of};
ghost use Rattle.cells.specs.Cell.{null};
ghost use Rattle.cells.specs.Weight.{capped_weight, weight};
ghost use Rattle.columns.specs.Array.{slots_in};
ghost use Rattle.columns.specs.CellAt.{is_valid};
ghost use Rattle.columns.specs.Offsets.{contents_width, width_of};
ghost use Rattle.columns.specs.Tests.{are_few_offsets, are_unordered, has_short_validity};
ghost use Rattle.columns.specs.View.{view_array};
ghost use Rattle.arrays.specs.inner.Varying.{may_vary_in};
ghost use Rattle.arrays.specs.inner.Weights.{chosen_sizes, masked_sizes, sized_width, unit_weight};

use crate::sized_slots::{SLOTS_AT_ONCE, SizedSlots, ValidSlots};
use crate::varying::may_vary;
use arrow_schema::{DataType, Field};
use cells::{Value, add_weights, multiply_weight, weight};
use columns::{ArrayView, OffsetWidth, contents_width};

/// How much the slots of a type weigh: one each, and so much for each byte or item between their offsets, which are so wide.
#[derive(Clone, Copy)]
pub(crate) struct SizedType {
    width: OffsetWidth,
    unit: u64,
}

// Lists of items that weigh alike.
fn sized_lists(width: OffsetWidth, item: &Field) -> Option<SizedType>
    ensures width { option_map (λ t. width_of t.width) result ≡ (if may_vary_in (column_of item.now) then None else Some (width_of width)) }
    ensures unit { IfSome result (λ t. t.unit ≡ capped_weight (weight (column_of item.now) null)) }
{
    if may_vary(&item.data_type) {
        return None;
    }
    Some(SizedType {
        width,
        unit: weight(item, &Value::Null),
    })
}

// Texts or binaries.
fn sized_contents(data_type: &DataType) -> Option<SizedType>
    ensures width { option_map (λ t. width_of t.width) result ≡ contents_width (kind_of data_type.now) }
    ensures unit { IfSome result (λ t. t.unit ≡ 1) }
{
    let width = contents_width(data_type)?;
    Some(SizedType { width, unit: 1 })
}

/// What tells how much slots of a type weigh, if offsets do.
pub(crate) fn sized_type(data_type: &DataType) -> Option<SizedType>
    ensures width { option_map (λ t. width_of t.width) result ≡ sized_width (kind_of data_type.now) }
    ensures unit { IfSome result (λ t. t.unit ≡ capped_weight (unit_weight (kind_of data_type.now))) }
{
    match data_type {
        DataType::List(item) => sized_lists(OffsetWidth::Four, item),
        DataType::LargeList(item) => sized_lists(OffsetWidth::Eight, item),
        _ => sized_contents(data_type),
    }
}

// Which of the next slots are valid and are so in another array too: a bit for each, the first the lowest.
#[inline]
fn joined_bits(slots: SizedSlots<'_>, mask: ValidSlots<'_>, from: usize, count: usize) -> u64
    requires few { count ≤ SLOTS_AT_ONCE }
    requires some { 0 < count }
    requires within { from + count ≤ slots_in (view_array slots.view) }
    requires below { from + count ≤ slots_in (view_array mask.view) }
    ensures few { result < 2 ^ count }
    ensures bits { (j : ℕ) → j < count → (bit_at result j == 1)
        ≡ (is_valid (view_array mask.entry.view) (from + j) && is_valid (view_array slots.entry.view) (from + j)) }
{
    let both = mask.next_bits(from) & slots.valid().next_bits(from);
    both % (1 << count)
}

// The first run of bits that are set: where it begins and where it ends, and the bits after it.
#[inline]
fn first_run(bits: u64) -> (usize, usize, u64)
    requires some { 0 < bits }
    requires few { bits < 2 ^ SLOTS_AT_ONCE }
    ensures unset { (j : ℕ) → j < result.0 → bit_at bits j ≡ 0 }
    ensures set { (j : ℕ) → result.0 ≤ j → j < result.1 → bit_at bits j ≡ 1 }
    ensures some { result.0 < result.1 }
    ensures before { (j : ℕ) → j < result.1 → bit_at result.2 j ≡ 0 }
    ensures after { (j : ℕ) → result.1 ≤ j → bit_at result.2 j ≡ bit_at bits j }
    ensures fewer { result.2 < bits }
{
    // with the bits below the run set too, one more is carried to its end
    let filled = bits | (bits - 1);
    let carried = filled + 1;
    let begin = bits.trailing_zeros() as usize;
    let end = carried.trailing_zeros() as usize;
    (begin, end, bits & carried)
}

// The bytes of the slots whose bits are set, from one slot on: those of a run are between two offsets.
fn sizes_of(slots: SizedSlots<'_>, bits: u64, from: usize, count: usize) -> u64
    requires few { count ≤ SLOTS_AT_ONCE }
    requires bits { bits < 2 ^ count }
    requires within { from + count ≤ slots_in (view_array slots.view) }
    requires ordered { (most : ℕ) × (are_unordered (width_of slots.width) most (view_array slots.view) ≡ false) }
    ensures { result ≡ chosen_sizes (width_of slots.entry.width) bits from (view_array slots.entry.view) from count }
{
    // a number of the code is below 2^64, so that the sum is too
    let _slots = slots.slots();
    let mut left = bits;
    let mut total = 0;
    while left != 0 {
        let (begin, end, rest) = first_run(left);
        let first = slots.offset(from + begin);
        let last = slots.offset(from + end);
        total += last - first;
        left = rest;
    }
    total
}

// The bytes of slots that are valid and are so in another array too.
fn masked_sizes(slots: SizedSlots<'_>, mask: ValidSlots<'_>, from: usize, count: usize) -> u64
    requires within { from + count ≤ slots_in (view_array slots.view) }
    requires ordered { (most : ℕ) × (are_unordered (width_of slots.width) most (view_array slots.view) ≡ false) }
    requires below { from + count ≤ slots_in (view_array mask.view) }
    ensures { result
        ≡ capped_weight (masked_sizes (width_of slots.entry.width) (view_array mask.entry.view) (view_array slots.entry.view) from count) }
{
    // a number of the code is below 2^64, so that the sum is too
    let _slots = slots.slots();
    let end = from + count;
    let mut total = 0;
    let mut start = from;
    while start < end {
        let some = (end - start).min(SLOTS_AT_ONCE);
        let bits = joined_bits(slots, mask, start, some);
        total = add_weights(total, sizes_of(slots, bits, start, some));
        start += some;
    }
    total
}

/// One for each slot, and what its bytes or items weigh where it is valid and is so in another array too.
pub(crate) fn masked_sizes_weight(
    sized: SizedType,
    view: ArrayView<'_>,
    mask: ArrayView<'_>,
    from: usize,
    count: usize,
) -> u64
    requires short { has_short_validity (view_array view) ≡ false }
    requires few { are_few_offsets (width_of sized.width) (view_array view) ≡ false }
    requires ordered { (most : ℕ) × (are_unordered (width_of sized.width) most (view_array view) ≡ false) }
    requires within { from + count ≤ slots_in (view_array view) }
    requires long { has_short_validity (view_array mask) ≡ false }
    requires below { from + count ≤ slots_in (view_array mask) }
    ensures { result ≡ capped_weight
        (count + masked_sizes (width_of sized.width) (view_array mask.entry) (view_array view.entry) from count * sized.unit) }
{
    let slots = SizedSlots::new(sized.width, view);
    let sizes = masked_sizes(slots, ValidSlots::new(mask), from, count);
    add_weights(count as u64, multiply_weight(sizes, sized.unit))
}
