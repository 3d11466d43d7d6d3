// Indices that name no entry.
ghost use Rattle.std.specs.Prelude.{◌≡◌, ℕ, ℤ, Bool, List, length, ◌≤◌, ◌<◌, ◌+◌, ◌/◌, ◌&&◌, true, false};
ghost use Rattle.std.specs.List.{list_any, range_with_len};
ghost use Rattle.arrow_schema.specs.Column.{Kind};
ghost use Rattle.arrow_schema.specs.View.{column_of, index_of};
ghost use Rattle.cells.specs.Cell.{Cell};
ghost use Rattle.columns.specs.Array.{slots_in, indices_in, dictionary_in};
ghost use Rattle.columns.specs.CellAt.{is_valid, index_at, entries_of_kind, named_number};
ghost use Rattle.columns.specs.Sound.{is_sound};
ghost use Rattle.columns.specs.Tests.{are_few, has_short_validity};
ghost use Rattle.columns.specs.View.{view_array};
ghost use Rattle.columns.specs.Visible.{is_past, names_no_entry};
ghost use Rattle.arrays.specs.inner.VisibleSpans.{any_slot};

use arrow_schema::{BitWidth, Field};
use columns::{ArrayView, CodedSlots, entry_count};

// Whether the number of an index is that of no entry, where there are n.
#[inline]
fn is_past(number: Option<u64>, entries: u128) -> bool
    ensures { (index : ℤ) (cells : List Cell) → number ≡ named_number index → entries ≡ length cells → result ≡ is_past index cells }
{
    match number {
        None => true,
        Some(number) => entries <= number as u128,
    }
}

// The first test settles most: a number below a limit that is no more than the entries is that of one.
#[inline]
fn has_no_entry<const SIZE: usize, const SIGNED: bool>(
    slots: CodedSlots<'_>,
    limit: u64,
    entries: u128,
    i: usize,
) -> bool
    requires size { SIZE ≡ (index_of slots.spec).bits / 8 }
    requires signed { SIGNED ≡ (index_of slots.spec).signed }
    requires within { i < slots_in (view_array slots.view) }
    requires limit { limit ≤ entries }
    requires count { (kind : Kind) → entries ≡ length (entries_of_kind kind (dictionary_in (view_array slots.view))) }
    ensures { let a = view_array slots.entry.view in (kind : Kind)
        → result ≡ (is_valid a i && is_past (index_at (index_of slots.entry.spec) a i) (entries_of_kind kind (dictionary_in a))) }
{
    match slots.number_below::<SIZE, SIGNED>(i, limit) {
        Some(_) => false,
        None => slots.is_valid(i) && is_past(slots.sized_number::<SIZE, SIGNED>(i), entries),
    }
}

// The indices of a span, those of nulls included, are numbers below a limit. No branch depends on an index, so that
// several are compared at once.
fn are_below<const SIZE: usize, const SIGNED: bool>(
    slots: CodedSlots<'_>,
    limit: u64,
    from: usize,
    count: usize,
) -> bool
    requires size { SIZE ≡ (index_of slots.spec).bits / 8 }
    requires signed { SIGNED ≡ (index_of slots.spec).signed }
    requires within { from + count ≤ slots_in (view_array slots.view) }
    ensures { let a = view_array slots.entry.view in result ≡ true → (cells : List Cell) → limit ≤ length cells
        → list_any (λ i. is_past (index_at (index_of slots.entry.spec) a i) cells) (range_with_len from count) ≡ false }
{
    // a number of the code is below 2^64, so that the end is too
    let _slots = slots.view.slots();
    let mut below = true;
    for i in from..from + count {
        let number = slots.number_below::<SIZE, SIGNED>(i, limit);
        below = below & number.is_some();
    }
    below
}

// A valid slot of a span has an index that names no entry, of n bytes, with a sign or without.
fn any_sized_past<const SIZE: usize, const SIGNED: bool>(
    slots: CodedSlots<'_>,
    from: usize,
    count: usize,
) -> bool
    requires size { SIZE ≡ (index_of slots.spec).bits / 8 }
    requires signed { SIGNED ≡ (index_of slots.spec).signed }
    requires within { from + count ≤ slots_in (view_array slots.view) }
    ensures { let a = view_array slots.entry.view in (kind : Kind)
        → let past : ℕ → Bool = λ i. is_valid a i && is_past (index_at (index_of slots.entry.spec) a i) (entries_of_kind kind (dictionary_in a)) in
        result ≡ list_any past (range_with_len from count) }
{
    // a number of the code is below 2^64, so that the end is too
    let _slots = slots.view.slots();
    let entries = entry_count(slots.view.dictionary());
    let limit = entries.min(u128::from(u64::MAX)) as u64;
    if are_below::<SIZE, SIGNED>(slots, limit, from, count) {
        return false;
    }
    for i in from..from + count {
        if has_no_entry::<SIZE, SIGNED>(slots, limit, entries, i) {
            return true;
        }
    }
    false
}

/// The same, by a loop for each kind of index.
pub(crate) fn any_past(slots: CodedSlots<'_>, from: usize, count: usize) -> bool
    requires { from + count ≤ slots_in (view_array slots.view) }
    ensures { let a = view_array slots.entry.view in (kind : Kind)
        → let past : ℕ → Bool = λ i. is_valid a i && is_past (index_at (index_of slots.entry.spec) a i) (entries_of_kind kind (dictionary_in a)) in
        result ≡ list_any past (range_with_len from count) }
{
    match (slots.spec.index.width, slots.spec.index.signed) {
        (BitWidth::Eight, true) => any_sized_past::<1, true>(slots, from, count),
        (BitWidth::Eight, false) => any_sized_past::<1, false>(slots, from, count),
        (BitWidth::Sixteen, true) => any_sized_past::<2, true>(slots, from, count),
        (BitWidth::Sixteen, false) => any_sized_past::<2, false>(slots, from, count),
        (BitWidth::ThirtyTwo, true) => any_sized_past::<4, true>(slots, from, count),
        (BitWidth::ThirtyTwo, false) => any_sized_past::<4, false>(slots, from, count),
        (BitWidth::SixtyFour, true) => any_sized_past::<8, true>(slots, from, count),
        (BitWidth::SixtyFour, false) => any_sized_past::<8, false>(slots, from, count),
    }
}

/// F26: the index of a slot of a span names no entry.
#[tactic(auto, unfolding(columns::specs::Sound::is_sound))]
pub(crate) fn any_past_entry(field: &Field, view: ArrayView<'_>, from: usize, count: usize) -> bool
    requires sound { is_sound (column_of field.now) (view_array view) ≡ true }
    requires within { from + count ≤ slots_in (view_array view) }
    ensures { result ≡ any_slot names_no_entry (column_of field.now) (view_array view.entry) from count }
{
    match &field.dictionary {
        None => false,
        Some(spec) => {
            let slots = CodedSlots::new(*spec, view);
            any_past(slots, from, count)
        }
    }
}
