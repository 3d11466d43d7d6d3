// Items of lists, as slots of the array that they are in.
ghost use Rattle.std.specs.Prelude.{◌≤◌, ◌+◌};
ghost use Rattle.array_build.specs.inner.RunItems.{HasSlots};
ghost use Rattle.columns.specs.Array.{items_in, slots_in};
ghost use Rattle.columns.specs.View.{view_array};

use columns::{ArrayView, SlotRun};

/// Returns `len` items of lists or fixed lists, from item `from` on. An array of another type has none.
#[tactic(auto, using(crate::proofs::RunItems::item_found, crate::proofs::RunItems::item_absent))]
pub(crate) fn item_slots<'a>(view: ArrayView<'a>, from: usize, len: usize) -> SlotRun<'a>
    requires { from + len ≤ slots_in (items_in (view_array view)) }
    ensures { HasSlots (items_in (view_array view.entry)) from len result }
{
    match view.items() {
        Some(items) => SlotRun::Slots {
            array: items,
            from,
            len,
        },
        None => SlotRun::Nulls(0),
    }
}
