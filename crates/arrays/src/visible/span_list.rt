// Spans of slots that are looked at together, so that the fields of a struct are visited once for many of its runs.
ghost use Rattle.std.specs.Prelude.{◌≡◌, ◌≤◌, ◌*◌, [], length, map, nat_le, true, false};
ghost use Rattle.columns.specs.Array.{slots_in, items_in};
ghost use Rattle.columns.specs.Offsets.{width_of};
ghost use Rattle.columns.specs.Tests.{are_few_offsets};
ghost use Rattle.columns.specs.View.{view_array};
ghost use Rattle.arrays.specs.inner.SpanLists.{are_runs, item_span, fixed_item_span};

use arrayvec::ArrayVec;
use columns::{ArrayView, OffsetWidth};

/// Slots in a row: from one on, n.
#[derive(Clone, Copy, Default)]
pub(crate) struct SlotSpan {
    pub(crate) from: usize,
    pub(crate) count: usize,
}

/// How many spans are looked at together at the most.
pub(crate) const MOST_SPANS: usize = 256;

pub(crate) type SpanList = ArrayVec<SlotSpan, MOST_SPANS>;

pub(crate) fn no_spans() -> SpanList
    ensures { result.items ≡ [] }
{
    ArrayVec::new()
}

/// The items of each of some runs of lists.
pub(crate) fn item_spans(width: OffsetWidth, view: ArrayView<'_>, runs: &[SlotSpan]) -> SpanList
    requires few { length runs.now ≤ MOST_SPANS }
    requires long { are_few_offsets (width_of width) (view_array view) ≡ false }
    requires runs { are_runs (slots_in (view_array view)) runs.now ≡ true }
    ensures { result.items ≡ map (item_span (width_of width) (view_array view.entry)) runs.now }
{
    let mut items = no_spans();
    for run in runs {
        let span = view.spanned(width, run.from, run.count);
        items.push(SlotSpan {
            from: span.start,
            count: span.len,
        });
    }
    items
}

/// The same of fixed lists.
pub(crate) fn fixed_item_spans(size: usize, view: ArrayView<'_>, runs: &[SlotSpan]) -> SpanList
    requires few { length runs.now ≤ MOST_SPANS }
    requires long { nat_le (slots_in (view_array view) * size) (slots_in (items_in (view_array view))) ≡ true }
    requires runs { are_runs (slots_in (view_array view)) runs.now ≡ true }
    ensures { result.items ≡ map (fixed_item_span size) runs.now }
{
    // a number of the code is below 2^64, so that the products are too
    let _most = view.item_slots();
    let mut items = no_spans();
    for run in runs {
        let from = run.from * size;
        let count = run.count * size;
        items.push(SlotSpan { from, count });
    }
    items
}
