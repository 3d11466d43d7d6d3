// The slots of a dictionary-encoded column, with the buffers that each slot is read from.
ghost use Rattle.std.specs.Prelude.{◌≡◌, ◌<◌, ◌≤◌, ◌/◌, ℕ, IfSome, Some, None, false};
ghost use Rattle.arrow_schema.specs.View.{index_of};
ghost use Rattle.columns.specs.Array.{slots_in, validity_in, indices_in};
ghost use Rattle.columns.specs.CellAt.{is_valid, index_at, named_number};
ghost use Rattle.columns.specs.Tests.{are_few, has_short_validity};
ghost use Rattle.columns.specs.View.{view_array};

use crate::numbers::{named_at, named_below, width_of_bytes};
use crate::view::ArrayView;
use arrow_schema::{DictSpec, IntegerType};

/// The slots of an array that has indices. Its validity bitmap and indices buffer are looked up once, rather than for each slot.
#[derive(Clone, Copy)]
pub struct CodedSlots<'a> {
    pub view: ArrayView<'a>,
    pub spec: DictSpec,
    pub(crate) validity: &'a [u8],
    pub(crate) indices: &'a [u8],
    pub ghost bits: { validity.now ≡ validity_in (view_array view) },
    pub ghost numbers: { indices.now ≡ indices_in (view_array view) },
    pub ghost valid: { has_short_validity (view_array view) ≡ false },
    pub ghost long: { are_few ((index_of spec).bits / 8) (view_array view) (indices_in (view_array view)) ≡ false },
}

impl<'a> CodedSlots<'a> {
    /// Prepares the slots of an array for reading.
    pub fn new(spec: DictSpec, view: ArrayView<'a>) -> CodedSlots<'a>
        requires valid { has_short_validity (view_array view) ≡ false }
        requires long { are_few ((index_of spec).bits / 8) (view_array view) (indices_in (view_array view)) ≡ false }
        ensures view { result.view ≡ view.entry }
        ensures spec { result.spec ≡ spec }
    {
        CodedSlots {
            view,
            spec,
            validity: view.validity(),
            indices: view.indices(),
        }
    }

    /// Returns whether a slot is valid.
    #[inline]
    pub fn is_valid(self, i: usize) -> bool
        requires { i < slots_in (view_array self.view) }
        ensures { result ≡ is_valid (view_array self.entry.view) i }
    {
        self.validity.is_empty() || bitmap::get(self.validity, i)
    }

    /// Returns the index of a slot as an unsigned number, or `None` if it is negative.
    #[inline]
    pub fn number(self, i: usize) -> Option<u64>
        requires { i < slots_in (view_array self.view) }
        ensures { result ≡ named_number (index_at (index_of self.entry.spec) (view_array self.entry.view) i) }
    {
        named_at(self.spec.index, self.indices, self.view.slots(), i)
    }

    /// Like `number`, for indices of a size (in bytes) and signedness that are known when compiling, so that a loop does not test them at each slot.
    #[inline]
    pub fn sized_number<const SIZE: usize, const SIGNED: bool>(self, i: usize) -> Option<u64>
        requires size { SIZE ≡ (index_of self.spec).bits / 8 }
        requires signed { SIGNED ≡ (index_of self.spec).signed }
        requires within { i < slots_in (view_array self.view) }
        ensures { result ≡ named_number (index_at (index_of self.entry.spec) (view_array self.entry.view) i) }
    {
        let integer = IntegerType {
            width: width_of_bytes(SIZE),
            signed: SIGNED,
        };
        named_at(integer, self.indices, self.view.slots(), i)
    }

    /// Like `sized_number`, but `None` unless the number is below a limit. A loop that only needs such numbers makes one comparison for both tests.
    #[inline]
    pub fn number_below<const SIZE: usize, const SIGNED: bool>(
        self,
        i: usize,
        limit: u64,
    ) -> Option<u64>
        requires size { SIZE ≡ (index_of self.spec).bits / 8 }
        requires signed { SIGNED ≡ (index_of self.spec).signed }
        requires within { i < slots_in (view_array self.view) }
        ensures below { IfSome result (λ number. number < limit) }
        ensures named { IfSome result (λ number. named_number (index_at (index_of self.entry.spec) (view_array self.entry.view) i) ≡ Some number) }
        ensures none { result ≡ None → (number : ℕ)
            → named_number (index_at (index_of self.entry.spec) (view_array self.entry.view) i) ≡ Some number → limit ≤ number }
    {
        let integer = IntegerType {
            width: width_of_bytes(SIZE),
            signed: SIGNED,
        };
        named_below(integer, self.indices, self.view.slots(), i, limit)
    }
}
