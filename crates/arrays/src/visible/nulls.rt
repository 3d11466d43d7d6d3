// Nulls in columns that take none.
ghost use Rattle.std.specs.Prelude.{◌≡◌, ◌≤◌, ◌<◌, ◌+◌, ◌/◌, ◌∷◌, [], IfSome, get_or, not, true, false};
ghost use Rattle.cells.specs.Cell.{null};
ghost use Rattle.std.specs.List.{list_all, list_any, range_with_len};
ghost use Rattle.arrow_schema.specs.View.{column_of, index_of, kind_of};
ghost use Rattle.columns.specs.Array.{slots_in, indices_in, dictionary_in, array_list, arrays_of};
ghost use Rattle.columns.specs.CellAt.{is_valid, kind_cell, unless_null, entries_of_kind, indexed_cell};
ghost use Rattle.columns.specs.Sound.{is_sound, is_kind_sound};
ghost use Rattle.columns.specs.Tests.{are_few, has_short_validity};
ghost use Rattle.columns.specs.View.{view_array};
ghost use Rattle.columns.specs.Visible.{is_forbidden, is_null};
ghost use Rattle.arrays.specs.inner.VisibleSpans.{any_slot, has_no_value};

use crate::null_type::is_of_nulls;
use crate::visible::indices::any_past;
use arrow_schema::{DataType, DictSpec, Field};
use columns::{ArrayView, CodedSlots, entry_count, indexed_entry};

// How many bits of the validity bitmaps of a dictionary are counted for each slot of a span at the most.
const MOST_BITS_EACH: u128 = 64;

// A slot of a span is not valid.
fn any_unset(view: ArrayView<'_>, from: usize, count: usize) -> bool
    requires validity { has_short_validity (view_array view) ≡ false }
    requires within { from + count ≤ slots_in (view_array view) }
    ensures { result ≡ list_any (λ i. not (is_valid (view_array view.entry) i)) (range_with_len from count) }
{
    let validity = view.validity();
    !validity.is_empty() && bitmap::count_set(validity, from, count) < count
}

// A slot of a span is null.
fn any_null(data_type: &DataType, view: ArrayView<'_>, from: usize, count: usize) -> bool
    requires validity { has_short_validity (view_array view) ≡ false }
    requires within { from + count ≤ slots_in (view_array view) }
    ensures { result ≡ list_any (λ i. is_null (unless_null (kind_cell (kind_of data_type.now)) (view_array view.entry) i)) (range_with_len from count) }
{
    if is_of_nulls(data_type) {
        count > 0
    } else {
        any_unset(view, from, count)
    }
}

// The array that has all entries of the dictionary of an array, if there is one.
fn only_array<'a>(data_type: &DataType, view: ArrayView<'a>) -> Option<ArrayView<'a>>
    requires { list_all (is_kind_sound (kind_of data_type.now)) (array_list (dictionary_in (view_array view))) ≡ true }
    ensures { IfSome result (λ e. (arrays_of (view_array e ∷ []) ≡ dictionary_in (view_array view.entry))
        × (has_short_validity (view_array e) ≡ false)) }
{
    match view.dictionary().arrays {
        [array] => Some(ArrayView {
            array,
            bytes: view.bytes,
            dictionaries: &[],
        }),
        _ => None,
    }
}

// An entry is a null, or there is no such entry, where all are in one array.
fn is_null_at(data_type: &DataType, entries: ArrayView<'_>, number: u64) -> bool
    requires { has_short_validity (view_array entries) ≡ false }
    ensures { result ≡ is_null (get_or (entries_of_kind (kind_of data_type.now) (arrays_of (view_array entries.entry ∷ []))) number null) }
{
    if number >= entries.slots() as u64 {
        return true;
    }
    is_of_nulls(data_type) || !entries.is_valid(number as usize)
}

// The index of a slot names a null, or no entry, where all entries are in one array.
fn is_null_in(data_type: &DataType, slots: CodedSlots<'_>, entries: ArrayView<'_>, i: usize) -> bool
    requires only { arrays_of (view_array entries ∷ []) ≡ dictionary_in (view_array slots.view) }
    requires validity { has_short_validity (view_array entries) ≡ false }
    requires within { i < slots_in (view_array slots.view) }
    ensures { result ≡ is_null (indexed_cell (index_of slots.entry.spec) (kind_of data_type.now) (view_array slots.entry.view) i) }
{
    match slots.number(i) {
        None => true,
        Some(number) => is_null_at(data_type, entries, number),
    }
}

// The same where they are in several.
fn is_null_found(data_type: &DataType, slots: CodedSlots<'_>, i: usize) -> bool
    requires sound { list_all (is_kind_sound (kind_of data_type.now)) (array_list (dictionary_in (view_array slots.view))) ≡ true }
    requires within { i < slots_in (view_array slots.view) }
    ensures { result ≡ is_null (indexed_cell (index_of slots.entry.spec) (kind_of data_type.now) (view_array slots.entry.view) i) }
{
    match indexed_entry(slots.spec, slots.view, i) {
        None => true,
        Some(entry) => is_of_nulls(data_type) || !entry.view.is_valid(entry.place),
    }
}

// A slot of a column with a dictionary has no value: it is not valid, or its entry is a null.
fn is_entry_null(
    data_type: &DataType,
    slots: CodedSlots<'_>,
    only: Option<ArrayView<'_>>,
    i: usize,
) -> bool
    requires only { IfSome only (λ e. (arrays_of (view_array e ∷ []) ≡ dictionary_in (view_array slots.view))
        × (has_short_validity (view_array e) ≡ false)) }
    requires sound { list_all (is_kind_sound (kind_of data_type.now)) (array_list (dictionary_in (view_array slots.view))) ≡ true }
    requires within { i < slots_in (view_array slots.view) }
    ensures { result ≡ has_no_value slots.entry.spec data_type.now slots.entry.view i }
{
    if !slots.is_valid(i) {
        return true;
    }
    match only {
        Some(entries) => is_null_in(data_type, slots, entries, i),
        None => is_null_found(data_type, slots, i),
    }
}

// Whether each slot of an array of a dictionary is valid. A validity bitmap is counted only if `counts` says so; one that
// is not counted is taken for one with a null.
fn is_surely_full(view: ArrayView<'_>, counts: bool) -> bool
    requires { has_short_validity (view_array view) ≡ false }
    ensures { let a = view_array view.entry in result ≡ true → list_any (λ i. not (is_valid a i)) (range_with_len 0 (slots_in a)) ≡ false }
{
    (counts || view.validity().is_empty()) && !any_unset(view, 0, view.slots())
}

// Whether no entry of the dictionary of an array is a null, as far as that costs no more than a test of `count` slots.
fn has_only_values(data_type: &DataType, view: ArrayView<'_>, count: usize) -> bool
    requires { list_all (is_kind_sound (kind_of data_type.now)) (array_list (dictionary_in (view_array view))) ≡ true }
    ensures { result ≡ true → list_any is_null (entries_of_kind (kind_of data_type.now) (dictionary_in (view_array view.entry))) ≡ false }
{
    let known = view.dictionary();
    if is_of_nulls(data_type) || known.arrays.len() > count {
        return false;
    }
    let counts = entry_count(known) / MOST_BITS_EACH <= count as u128;
    for array in known.arrays {
        let entries = ArrayView {
            array,
            bytes: view.bytes,
            dictionaries: &[],
        };
        if !is_surely_full(entries, counts) {
            return false;
        }
    }
    true
}

// A slot of a span has no value. Where no entry is a null, that is one that is not valid or names no entry.
fn any_null_entry(
    spec: DictSpec,
    data_type: &DataType,
    view: ArrayView<'_>,
    from: usize,
    count: usize,
) -> bool
    requires validity { has_short_validity (view_array view) ≡ false }
    requires long { are_few ((index_of spec).bits / 8) (view_array view) (indices_in (view_array view)) ≡ false }
    requires sound { list_all (is_kind_sound (kind_of data_type.now)) (array_list (dictionary_in (view_array view))) ≡ true }
    requires within { from + count ≤ slots_in (view_array view) }
    ensures { result ≡ list_any (has_no_value spec data_type.now view.entry) (range_with_len from count) }
{
    if has_only_values(data_type, view, count) {
        any_unset(view, from, count) || any_past(CodedSlots::new(spec, view), from, count)
    } else {
        any_null_found(spec, data_type, view, from, count)
    }
}

// The same, by the entry of each slot.
fn any_null_found(
    spec: DictSpec,
    data_type: &DataType,
    view: ArrayView<'_>,
    from: usize,
    count: usize,
) -> bool
    requires validity { has_short_validity (view_array view) ≡ false }
    requires long { are_few ((index_of spec).bits / 8) (view_array view) (indices_in (view_array view)) ≡ false }
    requires sound { list_all (is_kind_sound (kind_of data_type.now)) (array_list (dictionary_in (view_array view))) ≡ true }
    requires within { from + count ≤ slots_in (view_array view) }
    ensures { result ≡ list_any (has_no_value spec data_type.now view.entry) (range_with_len from count) }
{
    // a number of the code is below 2^64, so that the end is too
    let _slots = view.slots();
    let slots = CodedSlots::new(spec, view);
    let only = only_array(data_type, view);
    for i in from..from + count {
        if is_entry_null(data_type, slots, only, i) {
            return true;
        }
    }
    false
}

/// F23: a slot of a span is a null, in a column that takes none.
#[tactic(auto, unfolding(columns::specs::Sound::is_sound, columns::specs::CellAt::cell_at))]
pub(crate) fn any_forbidden(field: &Field, view: ArrayView<'_>, from: usize, count: usize) -> bool
    requires sound { is_sound (column_of field.now) (view_array view) ≡ true }
    requires within { from + count ≤ slots_in (view_array view) }
    ensures { result ≡ any_slot is_forbidden (column_of field.now) (view_array view.entry) from count }
{
    if field.nullable {
        return false;
    }
    match &field.dictionary {
        None => any_null(&field.data_type, view, from, count),
        Some(spec) => any_null_entry(*spec, &field.data_type, view, from, count),
    }
}
