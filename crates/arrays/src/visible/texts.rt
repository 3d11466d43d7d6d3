// Texts that are not UTF-8.
ghost use Rattle.std.specs.Prelude.{◌≡◌, ℕ, ◌≤◌, ◌<◌, ◌+◌, ◌-◌, ◌*◌, ◌&&◌, not, true, false, length, option_map};
ghost use Rattle.std.specs.List.{list_any, range_with_len};
ghost use Rattle.std.specs.Str.{IsCharBoundary, is_utf8};
ghost use Rattle.arrow_schema.specs.View.{column_of, kind_of};
ghost use Rattle.columns.specs.Array.{contents_in, slots_in};
ghost use Rattle.columns.specs.CellAt.{is_valid, contents_at, number_at};
ghost use Rattle.columns.specs.Offsets.{width_of};
ghost use Rattle.columns.specs.Sound.{is_sound};
ghost use Rattle.columns.specs.Tests.{are_few_offsets, are_unordered, has_short_validity};
ghost use Rattle.columns.specs.View.{view_array};
ghost use Rattle.arrays.specs.inner.VisibleSpans.{any_slot, is_no_plain_text, text_width};

use arrow_schema::{DataType, Field};
use columns::{ArrayView, OffsetWidth, bytes_at, offset_at};
use ipc_message::is_utf8;

// How many bytes a slot has on average where hidden slots are tested too.
const MOST_BYTES_EACH: usize = 32;

fn is_text_at(width: OffsetWidth, view: ArrayView<'_>, i: usize) -> bool
    requires long { are_few_offsets (width_of width) (view_array view) ≡ false }
    requires within { i < slots_in (view_array view) }
    ensures { result ≡ is_utf8 (contents_at (width_of width) (view_array view.entry) i) }
{
    is_utf8(bytes_at(view.contents(), view.spanned(width, i, 1)))
}

fn has_other_bytes(width: OffsetWidth, view: ArrayView<'_>, i: usize) -> bool
    requires validity { has_short_validity (view_array view) ≡ false }
    requires long { are_few_offsets (width_of width) (view_array view) ≡ false }
    requires within { i < slots_in (view_array view) }
    ensures { let a = view_array view.entry in
        result ≡ (is_valid a i && not (is_utf8 (contents_at (width_of width) a i))) }
{
    view.is_valid(i) && !is_text_at(width, view, i)
}

// At each of some offsets a character of a text begins, which itself begins at `start`.
fn are_boundaries(
    text: &str,
    offsets: &[u8],
    width: OffsetWidth,
    start: usize,
    from: usize,
    to: usize,
) -> bool
    requires { (to + 1) * width_of width ≤ length offsets.now }
    ensures { result ≡ true → (i : ℕ) → from ≤ i → i < to → IsCharBoundary text.now (number_at (width_of width) offsets.now i - start) }
{
    for i in from..to {
        if !text.is_char_boundary((offset_at(offsets, width, i) as usize).saturating_sub(start)) {
            return false;
        }
    }
    true
}

// The bytes of some slots are none, ASCII, or one text in which each slot begins at a character, so that each slot is a text. All bytes are read at once.
fn is_one_text(width: OffsetWidth, view: ArrayView<'_>, from: usize, count: usize) -> bool
    requires long { are_few_offsets (width_of width) (view_array view) ≡ false }
    requires ordered { are_unordered (width_of width) (length (contents_in (view_array view))) (view_array view) ≡ false }
    requires some { 0 < count }
    requires within { from + count ≤ slots_in (view_array view) }
    ensures { result ≡ true → (i : ℕ) → from ≤ i → i < from + count → is_utf8 (contents_at (width_of width) (view_array view.entry) i) ≡ true }
{
    // a number of the code is below 2^64, so that the end is too
    let _slots = view.slots();
    let span = view.spanned(width, from, count);
    if span.len == 0 {
        return true;
    }
    let bytes = bytes_at(view.contents(), span);
    // ASCII has no offset within a character, so that none is tested
    if bytes.is_ascii() {
        return true;
    }
    match simdutf8::basic::from_utf8(bytes) {
        Ok(text) => are_boundaries(text, view.offsets(), width, span.start, from, from + count),
        Err(_) => false,
    }
}

// A valid slot of a span has bytes that are no text.
fn any_not_utf8(width: OffsetWidth, view: ArrayView<'_>, from: usize, count: usize) -> bool
    requires validity { has_short_validity (view_array view) ≡ false }
    requires long { are_few_offsets (width_of width) (view_array view) ≡ false }
    requires ordered { are_unordered (width_of width) (length (contents_in (view_array view))) (view_array view) ≡ false }
    requires within { from + count ≤ slots_in (view_array view) }
    ensures { let a = view_array view.entry in
        result ≡ list_any (λ i. is_valid a i && not (is_utf8 (contents_at (width_of width) a i))) (range_with_len from count) }
{
    if count > 0 && is_one_text(width, view, from, count) {
        return false;
    }
    any_other_bytes(width, view, from, count)
}

// The same slot by slot.
fn any_other_bytes(width: OffsetWidth, view: ArrayView<'_>, from: usize, count: usize) -> bool
    requires validity { has_short_validity (view_array view) ≡ false }
    requires long { are_few_offsets (width_of width) (view_array view) ≡ false }
    requires within { from + count ≤ slots_in (view_array view) }
    ensures { let a = view_array view.entry in
        result ≡ list_any (λ i. is_valid a i && not (is_utf8 (contents_at (width_of width) a i))) (range_with_len from count) }
{
    // a number of the code is below 2^64, so that the end is too
    let _slots = view.slots();
    for i in from..from + count {
        if has_other_bytes(width, view, i) {
            return true;
        }
    }
    false
}

// How wide the offsets of texts are.
pub(crate) fn text_width(data_type: &DataType) -> Option<OffsetWidth>
    ensures { option_map width_of result ≡ text_width (kind_of data_type.now) }
{
    match data_type {
        DataType::Utf8 => Some(OffsetWidth::Four),
        DataType::LargeUtf8 => Some(OffsetWidth::Eight),
        _ => None,
    }
}

/// F15: a slot of a span is a text that is not UTF-8, in a column without a dictionary.
#[tactic(auto, unfolding(columns::specs::Sound::is_sound, columns::specs::CellAt::cell_at))]
pub(crate) fn any_bad_text(field: &Field, view: ArrayView<'_>, from: usize, count: usize) -> bool
    requires sound { is_sound (column_of field.now) (view_array view) ≡ true }
    requires within { from + count ≤ slots_in (view_array view) }
    ensures { result ≡ any_slot is_no_plain_text (column_of field.now) (view_array view.entry) from count }
{
    match (&field.dictionary, text_width(&field.data_type)) {
        (None, Some(width)) => any_not_utf8(width, view, from, count),
        _ => false,
    }
}

// Some slots have few bytes for their number, and each is a text.
fn is_one_short_text(width: OffsetWidth, view: ArrayView<'_>, from: usize, count: usize) -> bool
    requires long { are_few_offsets (width_of width) (view_array view) ≡ false }
    requires ordered { are_unordered (width_of width) (length (contents_in (view_array view))) (view_array view) ≡ false }
    requires within { from + count ≤ slots_in (view_array view) }
    ensures { let a = view_array view.entry in
        result ≡ true → list_any (λ i. is_valid a i && not (is_utf8 (contents_at (width_of width) a i))) (range_with_len from count) ≡ false }
{
    count > 0
        && view.spanned(width, from, count).len / MOST_BYTES_EACH <= count
        && is_one_text(width, view, from, count)
}

/// Whether the slots of a span, hidden ones included, are short texts in a column without a dictionary.
#[tactic(auto, unfolding(columns::specs::Sound::is_sound))]
pub(crate) fn are_short_texts(field: &Field, view: ArrayView<'_>, from: usize, count: usize) -> bool
    requires sound { is_sound (column_of field.now) (view_array view) ≡ true }
    requires within { from + count ≤ slots_in (view_array view) }
    ensures { result ≡ true → any_slot is_no_plain_text (column_of field.now) (view_array view.entry) from count ≡ false }
{
    match (&field.dictionary, text_width(&field.data_type)) {
        (None, Some(width)) => is_one_short_text(width, view, from, count),
        _ => false,
    }
}
