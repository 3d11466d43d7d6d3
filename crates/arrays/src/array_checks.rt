// The checks of every array of a batch (docs/definitions/arrays.md).
ghost use Rattle.std.specs.Prelude.{◌≡◌, ◌≤◌, ◌*◌, false, length};
ghost use Rattle.std.specs.List.{list_any, zip};
ghost use Rattle.ipc_message.specs.Raw.{nodes_in};
ghost use Rattle.arrays.specs.Checks.{is_miscounted, typed_is_short, typed_is_unordered, typed_has_short_child};
ghost use Rattle.arrays.specs.inner.Every.{all_of};

use crate::every::TypedView;
use crate::raw::pair_at;
use columns::{counts_wrong, has_short_child, is_short, is_unordered};

/// A struct has a child that is shorter than it, or a fixed list too few items.
#[tactic(auto, using(crate::proofs::Everys::test_later, crate::proofs::Everys::test_here, crate::proofs::Everys::none_here))]
pub(crate) fn any_short_child(every: &[TypedView<'_>]) -> bool
    ensures { result ≡ list_any typed_has_short_child (all_of every.now) }
{
    for array in every {
        if has_short_child(array.field, array.view) {
            return true;
        }
    }
    false
}

/// F19: a buffer is too short.
#[tactic(auto, using(crate::proofs::Everys::test_later, crate::proofs::Everys::test_here, crate::proofs::Everys::none_here))]
pub(crate) fn any_short(every: &[TypedView<'_>]) -> bool
    ensures { result ≡ list_any typed_is_short (all_of every.now) }
{
    for array in every {
        if is_short(array.field, array.view) {
            return true;
        }
    }
    false
}

/// F21: the null count of a node is not that of its array.
pub(crate) fn any_miscounted(nodes: &[u8], every: &[TypedView<'_>]) -> bool
    requires count { length every.now ≡ length (nodes_in nodes.now) }
    requires long { list_any typed_is_short (all_of every.now) ≡ false }
    ensures { result ≡ list_any is_miscounted (zip (nodes_in nodes.now) (all_of every.now)) }
{
    for (i, array) in every.iter().enumerate() {
        let (_, null_count) = pair_at(nodes, i);
        if counts_wrong(null_count, array.field, array.view) {
            return true;
        }
    }
    false
}

/// F22: offsets fall, or pass what they speak of.
#[tactic(auto, using(crate::proofs::Everys::test_later, crate::proofs::Everys::test_here, crate::proofs::Everys::none_here))]
pub(crate) fn any_unordered(every: &[TypedView<'_>]) -> bool
    requires { list_any typed_is_short (all_of every.now) ≡ false }
    ensures { result ≡ list_any typed_is_unordered (all_of every.now) }
{
    for array in every {
        if is_unordered(array.field, array.view) {
            return true;
        }
    }
    false
}
