// A test of all that is visible by spans of slots.
ghost use Rattle.std.specs.Prelude.{◌≡◌, ℕ, ◌≤◌, ◌<◌, ◌+◌, ◌*◌, ◌||◌, nat_le, length, true, false};
ghost use Rattle.arrow_schema.specs.Column.{lists, large_lists, fixed_lists, structs};
ghost use Rattle.arrow_schema.specs.Limits.{is_nested};
ghost use Rattle.arrow_schema.specs.View.{column_of, kind_of};
ghost use Rattle.columns.specs.Array.{slots_in, items_in, children_in};
ghost use Rattle.columns.specs.CellAt.{is_valid};
ghost use Rattle.columns.specs.Offsets.{width_of};
ghost use Rattle.columns.specs.Sound.{is_sound, is_kind_sound, are_sound};
ghost use Rattle.columns.specs.Tests.{are_few_offsets, are_unordered};
ghost use Rattle.columns.specs.View.{view_array, placed_arrays, fields_of, IsNoArray};
ghost use Rattle.arrays.specs.inner.SpanLists.{any_slot_of, any_visible_of, any_below_of, any_below_runs, any_part_of, are_within, is_run, are_runs, are_long_for};
ghost use Rattle.arrays.specs.inner.VisibleSpans.{any_slot, any_below, finds, has_below};

use crate::runs::run_to;
use crate::visible::indices::any_past_entry;
use crate::visible::joined_spans::joined_span;
use crate::visible::may_find::{may_find_below, may_find_own};
use crate::visible::nulls::any_forbidden;
use crate::visible::slot_test::SlotTest;
use crate::visible::span_list::{
    MOST_SPANS, SlotSpan, SpanList, fixed_item_spans, item_spans, no_spans,
};
use crate::visible::texts::{any_bad_text, are_short_texts};
use arrow_schema::{DataType, Field};
use columns::{ArrayView, Dictionary, OffsetWidth, PlacedArray, array_or};

// A test of the slots of a span, and of nothing below them.
fn any_slot(test: SlotTest, field: &Field, view: ArrayView<'_>, from: usize, count: usize) -> bool
    requires sound { is_sound (column_of field.now) (view_array view) ≡ true }
    requires within { from + count ≤ slots_in (view_array view) }
    ensures { result ≡ any_slot (finds test) (column_of field.now) (view_array view.entry) from count }
{
    match test {
        SlotTest::NoEntry => any_past_entry(field, view, from, count),
        SlotTest::NotUtf8 => any_bad_text(field, view, from, count),
        SlotTest::Forbidden => any_forbidden(field, view, from, count),
    }
}

// The same of each of some spans. The loops over slots are compiled into this one, since nothing else calls `any_slot`.
fn any_slot_in(test: SlotTest, field: &Field, view: ArrayView<'_>, spans: &[SlotSpan]) -> bool
    requires sound { is_sound (column_of field.now) (view_array view) ≡ true }
    requires within { are_within (slots_in (view_array view)) spans.now ≡ true }
    ensures { result ≡ any_slot_of (finds test) (column_of field.now) (view_array view.entry) spans.now }
{
    for span in spans {
        if any_slot(test, field, view, span.from, span.count) {
            return true;
        }
    }
    false
}

// Whether a test finds nothing in a span, hidden slots included, as far as that costs no more than a few visible slots do.
fn finds_none(test: SlotTest, field: &Field, view: ArrayView<'_>, whole: SlotSpan) -> bool
    requires sound { is_sound (column_of field.now) (view_array view) ≡ true }
    requires within { whole.from + whole.count ≤ slots_in (view_array view) }
    ensures { result ≡ true → any_slot (finds test) (column_of field.now) (view_array view.entry) whole.from whole.count ≡ false }
{
    match test {
        SlotTest::NotUtf8 => are_short_texts(field, view, whole.from, whole.count),
        SlotTest::NoEntry | SlotTest::Forbidden => !any_slot_in(test, field, view, &[whole]),
    }
}

// A test of the slots of several spans, as one span first where that is cheap.
fn any_slot_of(test: SlotTest, field: &Field, view: ArrayView<'_>, spans: &[SlotSpan]) -> bool
    requires sound { is_sound (column_of field.now) (view_array view) ≡ true }
    requires within { are_within (slots_in (view_array view)) spans.now ≡ true }
    ensures { result ≡ any_slot_of (finds test) (column_of field.now) (view_array view.entry) spans.now }
{
    // by the type alone, so that no span is visited in vain
    if !may_find_own(test, field) {
        return false;
    }
    if let Some(whole) = joined_span(view, spans) {
        if finds_none(test, field, view, whole) {
            return false;
        }
    }
    any_slot_in(test, field, view, spans)
}

fn has_below(field: &Field) -> bool
    ensures { result ≡ has_below (column_of field.now) }
{
    field.dictionary.is_none() && field.data_type.is_nested()
}

// A test of all that is visible by the slots of some spans. What is below them is looked at by runs of valid slots.
#[cycle(spans)]
fn any_visible(
    test: SlotTest,
    field: &Field,
    view: ArrayView<'_>,
    spans: &[SlotSpan],
    none: &PlacedArray,
) -> bool
    requires none { IsNoArray none.now }
    requires sound { is_sound (column_of field.now) (view_array view) ≡ true }
    requires within { are_within (slots_in (view_array view)) spans.now ≡ true }
    ensures { result ≡ any_visible_of (finds test) (column_of field.now) (view_array view.entry) spans.now }
{
    if any_slot_of(test, field, view, spans) {
        return true;
    }
    if !has_below(field) {
        return false;
    }
    if !may_find_below(test, &field.data_type) {
        return false;
    }
    any_below(test, field, view, spans, none)
}

// The same of what is below the slots: as many runs as can be are looked at together.
#[cycle(spans)]
fn any_below(
    test: SlotTest,
    field: &Field,
    view: ArrayView<'_>,
    spans: &[SlotSpan],
    none: &PlacedArray,
) -> bool
    requires none { IsNoArray none.now }
    requires nested { has_below (column_of field.now) ≡ true }
    requires sound { is_sound (column_of field.now) (view_array view) ≡ true }
    requires within { are_within (slots_in (view_array view)) spans.now ≡ true }
    ensures { result ≡ any_below_of (finds test) (column_of field.now) (view_array view.entry) spans.now }
{
    let mut runs = no_spans();
    for span in spans {
        if any_in_span(test, field, view, *span, &mut runs, none) {
            return true;
        }
    }
    any_valid_below(test, &field.data_type, view, runs.as_slice(), none)
}

// Adds the runs of valid slots of a span to some that are still to be looked at; where there are too many, those are looked at first.
#[cycle(spans)]
fn any_in_span(
    test: SlotTest,
    field: &Field,
    view: ArrayView<'_>,
    span: SlotSpan,
    runs: &mut SpanList,
    none: &PlacedArray,
) -> bool
    requires none { IsNoArray none.now }
    requires nested { has_below (column_of field.now) ≡ true }
    requires sound { is_sound (column_of field.now) (view_array view) ≡ true }
    requires within { span.from + span.count ≤ slots_in (view_array view) }
    requires runs { are_runs (slots_in (view_array view)) runs.old.items ≡ true }
    ensures found { let f = finds test in let a = view_array view.entry in let kind = kind_of field.now.data_type in
        (result || any_below_runs f kind a runs.new.items)
        ≡ (any_below_runs f kind a runs.old.items || any_below f (column_of field.now) a span.from span.count) }
    ensures runs { are_runs (slots_in (view_array view.entry)) runs.new.items ≡ true }
{
    // a number of the code is below 2^64, so that the end is too
    let _slots = view.slots();
    let to = span.from + span.count;
    let mut at = span.from;
    'runs: while at < to {
        let end = run_to(view, at, to);
        let run = SlotSpan {
            from: at,
            count: end - at,
        };
        if any_with_run(test, field, view, run, runs, none) {
            return true;
        }
        at = end;
    }
    false
}

// Adds a run to those that are still to be looked at, if its slots are valid.
#[cycle(spans)]
fn any_with_run(
    test: SlotTest,
    field: &Field,
    view: ArrayView<'_>,
    run: SlotSpan,
    runs: &mut SpanList,
    none: &PlacedArray,
) -> bool
    requires none { IsNoArray none.now }
    requires nested { has_below (column_of field.now) ≡ true }
    requires sound { is_sound (column_of field.now) (view_array view) ≡ true }
    requires run { is_run (slots_in (view_array view)) run ≡ true }
    requires alike { (i : ℕ) → run.from ≤ i → i < run.from + run.count → is_valid (view_array view) i ≡ is_valid (view_array view) run.from }
    requires runs { are_runs (slots_in (view_array view)) runs.old.items ≡ true }
    ensures found { let f = finds test in let a = view_array view.entry in let kind = kind_of field.now.data_type in
        (result || any_below_runs f kind a runs.new.items)
        ≡ (any_below_runs f kind a runs.old.items || any_below f (column_of field.now) a run.from run.count) }
    ensures runs { are_runs (slots_in (view_array view.entry)) runs.new.items ≡ true }
{
    if !view.is_valid(run.from) {
        return false;
    }
    if !runs.is_full() {
        runs.push(run);
        return false;
    }
    let found = any_valid_below(test, &field.data_type, view, runs.as_slice(), none);
    runs.clear();
    runs.push(run);
    found
}

// A test of what is below runs of slots that are all valid.
#[tactic(auto, using(columns::proofs::KindParts::kind_rules), unfolding(columns::specs::Sound::has_sound_children))]
#[cycle(spans)]
fn any_valid_below(
    test: SlotTest,
    data_type: &DataType,
    view: ArrayView<'_>,
    runs: &[SlotSpan],
    none: &PlacedArray,
) -> bool
    requires none { IsNoArray none.now }
    requires nested { is_nested (kind_of data_type.now) ≡ true }
    requires sound { is_kind_sound (kind_of data_type.now) (view_array view) ≡ true }
    requires few { length runs.now ≤ MOST_SPANS }
    requires runs { are_runs (slots_in (view_array view)) runs.now ≡ true }
    ensures { result ≡ any_below_runs (finds test) (kind_of data_type.now) (view_array view.entry) runs.now }
{
    match data_type {
        DataType::List(item) => any_item(test, OffsetWidth::Four, item, view, runs, none),
        DataType::LargeList(item) => any_item(test, OffsetWidth::Eight, item, view, runs, none),
        DataType::FixedSizeList(size, item) => {
            any_fixed_item(test, *size as usize, item, view, runs, none)
        }
        DataType::Struct(fields) => any_field(test, fields, view, runs, none),
        _ => unreachable!(),
    }
}

// The items of lists that follow one another are one span.
#[cycle(spans)]
fn any_item(
    test: SlotTest,
    width: OffsetWidth,
    item: &Field,
    view: ArrayView<'_>,
    runs: &[SlotSpan],
    none: &PlacedArray,
) -> bool
    requires none { IsNoArray none.now }
    requires long { are_few_offsets (width_of width) (view_array view) ≡ false }
    requires ordered { are_unordered (width_of width) (slots_in (items_in (view_array view))) (view_array view) ≡ false }
    requires sound { is_sound (column_of item.now) (items_in (view_array view)) ≡ true }
    requires few { length runs.now ≤ MOST_SPANS }
    requires runs { are_runs (slots_in (view_array view)) runs.now ≡ true }
    ensures lists { width_of width ≡ 4 → result ≡ any_below_runs (finds test) (lists (column_of item.now)) (view_array view.entry) runs.now }
    ensures large_lists { width_of width ≡ 8 → result ≡ any_below_runs (finds test) (large_lists (column_of item.now)) (view_array view.entry) runs.now }
{
    let items = item_spans(width, view, runs);
    any_visible(test, item, view.items_or(none), items.as_slice(), none)
}

#[cycle(spans)]
fn any_fixed_item(
    test: SlotTest,
    size: usize,
    item: &Field,
    view: ArrayView<'_>,
    runs: &[SlotSpan],
    none: &PlacedArray,
) -> bool
    requires none { IsNoArray none.now }
    requires long { nat_le (slots_in (view_array view) * size) (slots_in (items_in (view_array view))) ≡ true }
    requires sound { is_sound (column_of item.now) (items_in (view_array view)) ≡ true }
    requires few { length runs.now ≤ MOST_SPANS }
    requires runs { are_runs (slots_in (view_array view)) runs.now ≡ true }
    ensures { result ≡ any_below_runs (finds test) (fixed_lists size (column_of item.now)) (view_array view.entry) runs.now }
{
    let items = fixed_item_spans(size, view, runs);
    any_visible(test, item, view.items_or(none), items.as_slice(), none)
}

#[cycle(spans)]
fn any_field(
    test: SlotTest,
    fields: &[Field],
    view: ArrayView<'_>,
    runs: &[SlotSpan],
    none: &PlacedArray,
) -> bool
    requires none { IsNoArray none.now }
    requires sound { are_sound (fields_of fields.now) (slots_in (view_array view)) (children_in (view_array view)) ≡ true }
    requires runs { are_runs (slots_in (view_array view)) runs.now ≡ true }
    ensures { result ≡ any_below_runs (finds test) (structs (fields_of fields.now)) (view_array view.entry) runs.now }
{
    any_part(
        test,
        fields,
        view.children(),
        view.bytes,
        view.dictionaries,
        runs,
        none,
    )
}

/// A test of all that is visible by the slots of some spans of each of some arrays, which are those of fields.
#[cycle(spans)]
pub(crate) fn any_part(
    test: SlotTest,
    fields: &[Field],
    arrays: &[PlacedArray],
    bytes: &[u8],
    dictionaries: &[Dictionary],
    spans: &[SlotSpan],
    none: &PlacedArray,
) -> bool
    requires none { IsNoArray none.now }
    requires sound { are_sound (fields_of fields.now) 0 (placed_arrays bytes.now dictionaries.now arrays.now) ≡ true }
    requires long { are_long_for (fields_of fields.now) (placed_arrays bytes.now dictionaries.now arrays.now) spans.now ≡ true }
    ensures { result ≡ any_part_of (finds test) (fields_of fields.now) (placed_arrays bytes.now dictionaries.now arrays.now) spans.now }
{
    for (i, field) in fields.iter().enumerate() {
        let view = ArrayView {
            array: array_or(arrays, i, none),
            bytes,
            dictionaries,
        };
        if any_visible(test, field, view, spans, none) {
            return true;
        }
    }
    false
}
