// Slots of texts or binaries, with the buffers that each slot is read from.
ghost use Rattle.std.specs.Prelude.{◌≡◌, ◌==◌, ◌<◌, ◌≤◌, ◌+◌, ◌-◌, ◌*◌, ℕ, false, length, if◌then◌else◌};
ghost use Rattle.std.specs.Int.{bit_at};
ghost use Rattle.columns.specs.Array.{offsets_in, slots_in, validity_in};
ghost use Rattle.columns.specs.CellAt.{is_valid, number_at, span_size};
ghost use Rattle.columns.specs.Offsets.{width_of};
ghost use Rattle.columns.specs.Tests.{are_few_offsets, has_short_validity};
ghost use Rattle.columns.specs.View.{view_array};

use bitmap::next_bits;
use columns::{ArrayView, OffsetWidth, offset_at};

/// How many bits of validity are read as one number.
pub(crate) const SLOTS_AT_ONCE: usize = 56;

/// Which slots of an array are valid. Its validity bitmap is found once, and not again for each slot.
#[derive(Clone, Copy)]
pub(crate) struct ValidSlots<'a> {
    pub(crate) view: ArrayView<'a>,
    validity: &'a [u8],
    ghost bits: { validity.now ≡ validity_in (view_array view) },
    ghost long: { has_short_validity (view_array view) ≡ false },
}

impl<'a> ValidSlots<'a> {
    /// Those of an array.
    pub(crate) fn new(view: ArrayView<'a>) -> ValidSlots<'a>
        requires { has_short_validity (view_array view) ≡ false }
        ensures { result.view ≡ view.entry }
    {
        ValidSlots {
            view,
            validity: view.validity(),
        }
    }

    /// Which of the next slots are valid: a bit for each of 56, or of those that are left.
    #[inline]
    pub(crate) fn next_bits(self, from: usize) -> u64
        requires { from < slots_in (view_array self.view) }
        ensures { (j : ℕ) → j < 56 → from + j < slots_in (view_array self.entry.view)
            → (bit_at result j == 1) ≡ is_valid (view_array self.entry.view) (from + j) }
    {
        if self.validity.is_empty() {
            return u64::MAX;
        }
        next_bits(self.validity, from)
    }
}

/// The same of an array of texts or binaries, whose offsets are found once too.
#[derive(Clone, Copy)]
pub(crate) struct SizedSlots<'a> {
    pub(crate) view: ArrayView<'a>,
    pub(crate) width: OffsetWidth,
    validity: &'a [u8],
    offsets: &'a [u8],
    ghost bits: { validity.now ≡ validity_in (view_array view) },
    ghost long: { has_short_validity (view_array view) ≡ false },
    ghost numbers: { offsets.now ≡ offsets_in (view_array view) },
    ghost enough: { are_few_offsets (width_of width) (view_array view) ≡ false },
}

impl<'a> SizedSlots<'a> {
    /// Those of an array.
    pub(crate) fn new(width: OffsetWidth, view: ArrayView<'a>) -> SizedSlots<'a>
        requires short { has_short_validity (view_array view) ≡ false }
        requires few { are_few_offsets (width_of width) (view_array view) ≡ false }
        ensures view { result.view ≡ view.entry }
        ensures width { result.width ≡ width }
    {
        SizedSlots {
            view,
            width,
            validity: view.validity(),
            offsets: view.offsets(),
        }
    }

    /// How many slots there are.
    pub(crate) fn slots(self) -> usize
        ensures { result ≡ slots_in (view_array self.entry.view) }
    {
        self.view.slots()
    }

    /// Which of them are valid.
    #[inline]
    pub(crate) fn valid(self) -> ValidSlots<'a>
        ensures { result.view ≡ self.entry.view }
    {
        ValidSlots {
            view: self.view,
            validity: self.validity,
        }
    }

    /// The offset of a slot, or of the end.
    #[inline]
    pub(crate) fn offset(self, i: usize) -> u64
        requires some { 0 < slots_in (view_array self.view) }
        requires within { i ≤ slots_in (view_array self.view) }
        ensures { result ≡ number_at (width_of self.entry.width) (offsets_in (view_array self.entry.view)) i }
    {
        offset_at(self.offsets, self.width, i)
    }

    // How many bytes there are between the offsets of a slot.
    #[inline]
    fn span_size(self, i: usize) -> u64
        requires { i < slots_in (view_array self.view) }
        ensures { result ≡ span_size (width_of self.entry.width) (view_array self.entry.view) i }
    {
        // a number of the code is below 2^64, so that the sum is too
        let _slots = self.view.slots();
        let start = self.offset(i);
        self.offset(i + 1).saturating_sub(start)
    }

    /// How many bytes a slot has: a null has none.
    #[inline]
    pub(crate) fn size(self, i: usize) -> u64
        requires { i < slots_in (view_array self.view) }
        ensures { let own = view_array self.entry.view in
            result ≡ (if is_valid own i then span_size (width_of self.entry.width) own i else 0) }
    {
        if self.validity.is_empty() || bitmap::get(self.validity, i) {
            self.span_size(i)
        } else {
            0
        }
    }
}
