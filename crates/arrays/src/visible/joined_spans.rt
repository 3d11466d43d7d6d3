// Several spans that are tested as one.
ghost use Rattle.std.specs.Prelude.{◌≡◌, ◌+◌, ◌≤◌, true, IfSome};
ghost use Rattle.columns.specs.Array.{slots_in};
ghost use Rattle.columns.specs.View.{view_array};
ghost use Rattle.arrays.specs.inner.SpanLists.{are_inside};

use crate::visible::span_list::SlotSpan;
use columns::ArrayView;

// How many slots are tested for each span, with those between the spans: these cost about as much as a test of one span.
const MOST_SLOTS_EACH: usize = 8;

// Whether spans are parts of another one.
fn are_inside(whole: SlotSpan, spans: &[SlotSpan]) -> bool
    ensures { result ≡ true → are_inside whole spans.now ≡ true }
{
    for span in spans {
        if span.from < whole.from {
            return false;
        }
        let before = span.from - whole.from;
        if whole.count < before || whole.count - before < span.count {
            return false;
        }
    }
    true
}

/// The slots from the first of some spans to their last, if these are not many more than those of the spans.
pub(crate) fn joined_span(view: ArrayView<'_>, spans: &[SlotSpan]) -> Option<SlotSpan>
    ensures { IfSome result (λ s. (s.from + s.count ≤ slots_in (view_array view.entry)) × (are_inside s spans.now ≡ true)) }
{
    let (Some(first), Some(last)) = (spans.first(), spans.last()) else {
        return None;
    };
    let from = first.from;
    let to = last.from.saturating_add(last.count);
    if to <= from || view.slots() < to || (to - from) / MOST_SLOTS_EACH > spans.len() {
        return None;
    }
    let whole = SlotSpan {
        from,
        count: to - from,
    };
    if are_inside(whole, spans) {
        Some(whole)
    } else {
        None
    }
}
