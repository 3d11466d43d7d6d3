// Runs of slots that are all valid, or all not.
ghost use Rattle.std.specs.Prelude.{◌≡◌, ℕ, ◌<◌, ◌≤◌, true, false};
ghost use Rattle.columns.specs.Array.{slots_in};
ghost use Rattle.columns.specs.CellAt.{is_valid};
ghost use Rattle.columns.specs.Tests.{has_short_validity};
ghost use Rattle.columns.specs.View.{view_array};

use columns::ArrayView;

/// Where a run ends that begins at a slot, or `to` where it is longer.
pub(crate) fn run_to(view: ArrayView<'_>, from: usize, to: usize) -> usize
    requires long { has_short_validity (view_array view) ≡ false }
    requires some { from < to }
    requires within { to ≤ slots_in (view_array view) }
    ensures begins { from < result }
    ensures ends { result ≤ to }
    ensures alike { (i : ℕ) → from ≤ i → i < result → is_valid (view_array view.entry) i ≡ is_valid (view_array view.entry) from }
{
    let validity = view.validity();
    if validity.is_empty() {
        return to;
    }
    bitmap::run_end(validity, from, to)
}

/// Whether slots from one on up to another are one run, or less.
pub(crate) fn are_alike(view: ArrayView<'_>, from: usize, to: usize) -> bool
    requires long { has_short_validity (view_array view) ≡ false }
    requires within { to ≤ slots_in (view_array view) }
    ensures { result ≡ true → (i : ℕ) → from ≤ i → i < to → is_valid (view_array view.entry) i ≡ is_valid (view_array view.entry) from }
{
    if to <= from || to - from == 1 {
        return true;
    }
    run_to(view, from, to) == to
}
