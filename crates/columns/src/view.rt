// Arrays together with the bytes of their buffers.
ghost use Rattle.std.specs.Prelude.{◌≡◌, ◌<◌, ◌≤◌, ◌+◌, ◌-◌, ℕ, List, false, take, drop};
ghost use Rattle.columns.specs.Array.{slots_in, validity_in, bits_in, values_in, offsets_in, contents_in, items_in, children_in, indices_in, dictionary_in, first_array};
ghost use Rattle.columns.specs.CellAt.{is_valid, number_at, span_start};
ghost use Rattle.columns.specs.Offsets.{width_of};
ghost use Rattle.columns.specs.Tests.{has_short_validity, are_few_offsets};
ghost use Rattle.columns.specs.declared.array.Dictionary.{Dictionary};
ghost use Rattle.columns.specs.View.{view_array, option_array, IsNoArray, array_in, arrays_in, arrays_numbered, placed_arrays, placed_dictionary};

use crate::array::{Dictionary, DictionaryPart, PlacedArray, PlacedLayout};
use crate::dictionary::KnownArrays;
use crate::numbers::{OffsetWidth, slot_offset};
use crate::span::{Span, bytes_at};

/// An array with the bytes that its buffers are in, and the dictionaries.
#[derive(Clone, Copy, Debug)]
pub struct ArrayView<'a> {
    pub array: &'a PlacedArray,
    pub bytes: &'a [u8],
    pub dictionaries: &'a [Dictionary],
}

/// Returns an array without slots. It takes the place of children that a layout does not have.
pub fn no_array() -> PlacedArray
    ensures { IsNoArray result }
{
    PlacedArray {
        slots: 0,
        validity: Span { start: 0, len: 0 },
        layout: PlacedLayout::Null,
    }
}

/// Returns the array at index `i`, or `none` if there is none.
pub fn array_or<'a>(arrays: &'a [PlacedArray], i: usize, none: &'a PlacedArray) -> &'a PlacedArray
    requires { IsNoArray none.now }
    ensures { (bytes : List ℕ) (all : List Dictionary)
        → array_in bytes (arrays_in bytes all) result.now ≡ first_array (placed_arrays bytes all (drop i arrays.now)) }
{
    match arrays.get(i) {
        Some(array) => array,
        None => none,
    }
}

/// Returns the arrays that a part of a dictionary knows. There are none if the dictionary does not exist.
pub fn known_arrays<'a>(dictionaries: &'a [Dictionary], part: &DictionaryPart) -> KnownArrays<'a>
    ensures { result.arrays.now ≡ take part.now.count (arrays_numbered dictionaries.now part.now.number) }
{
    match dictionaries.get(part.number) {
        Some(dictionary) => dictionary.first(part.count),
        None => KnownArrays::none(),
    }
}

impl<'a> ArrayView<'a> {
    /// Returns the number of slots.
    pub fn slots(self) -> usize
        ensures { result ≡ slots_in (view_array self.entry) }
    {
        self.array.slots
    }

    /// Returns the validity bitmap. It is empty if every slot is valid.
    pub fn validity(self) -> &'a [u8]
        ensures { result.now ≡ validity_in (view_array self.entry) }
    {
        bytes_at(self.bytes, self.array.validity)
    }

    /// Returns whether a slot is valid.
    pub fn is_valid(self, i: usize) -> bool
        requires long { has_short_validity (view_array self) ≡ false }
        requires within { i < slots_in (view_array self) }
        ensures { result ≡ is_valid (view_array self.entry) i }
    {
        let validity = self.validity();
        validity.is_empty() || bitmap::get(validity, i)
    }

    /// Returns the bits of a boolean array, or an empty slice for another layout.
    pub fn bits(self) -> &'a [u8]
        ensures { result.now ≡ bits_in (view_array self.entry) }
    {
        match &self.array.layout {
            PlacedLayout::Bits(bits) => bytes_at(self.bytes, *bits),
            _ => &[],
        }
    }

    /// Returns the values of a fixed-size layout, or an empty slice for another layout.
    pub fn values(self) -> &'a [u8]
        ensures { result.now ≡ values_in (view_array self.entry) }
    {
        match &self.array.layout {
            PlacedLayout::Fixed(values) => bytes_at(self.bytes, *values),
            _ => &[],
        }
    }

    /// Returns the offsets buffer of binaries, strings or lists, or an empty slice for another layout.
    pub fn offsets(self) -> &'a [u8]
        ensures { result.now ≡ offsets_in (view_array self.entry) }
    {
        match &self.array.layout {
            PlacedLayout::Binary(offsets, _) => bytes_at(self.bytes, *offsets),
            PlacedLayout::List(offsets, _) => bytes_at(self.bytes, *offsets),
            _ => &[],
        }
    }

    /// Returns the contents of all binaries or strings, or an empty slice for another layout.
    pub fn contents(self) -> &'a [u8]
        ensures { result.now ≡ contents_in (view_array self.entry) }
    {
        match &self.array.layout {
            PlacedLayout::Binary(_, contents) => bytes_at(self.bytes, *contents),
            _ => &[],
        }
    }

    /// Returns the indices of a dictionary-encoded array, or an empty slice for another layout.
    pub fn indices(self) -> &'a [u8]
        ensures { result.now ≡ indices_in (view_array self.entry) }
    {
        match &self.array.layout {
            PlacedLayout::Dictionary(indices, _) => bytes_at(self.bytes, *indices),
            _ => &[],
        }
    }

    fn with(self, array: &'a PlacedArray) -> ArrayView<'a>
        ensures { view_array result ≡ array_in self.entry.bytes.now (arrays_in self.entry.bytes.now self.entry.dictionaries.now) array.now }
    {
        ArrayView {
            array,
            bytes: self.bytes,
            dictionaries: self.dictionaries,
        }
    }

    /// Returns the span that `count` slots from slot `from` on have in the contents or items, by the offsets.
    pub fn spanned(self, width: OffsetWidth, from: usize, count: usize) -> Span
        requires long { are_few_offsets (width_of width) (view_array self) ≡ false }
        requires some { 0 < count }
        requires within { from + count ≤ slots_in (view_array self) }
        ensures start { result.start ≡ span_start (width_of width) (view_array self.entry) from }
        ensures size { result.len ≡ number_at (width_of width) (offsets_in (view_array self.entry)) (from + count)
            - span_start (width_of width) (view_array self.entry) from }
    {
        let offsets = self.offsets();
        let start = slot_offset(width, offsets, self.slots(), from);
        let end = slot_offset(width, offsets, self.slots(), from + count);
        Span {
            start,
            len: end.saturating_sub(start),
        }
    }

    /// Returns the items of lists or fixed-size lists, or `None` for another layout.
    pub fn items(self) -> Option<ArrayView<'a>>
        ensures { option_array result ≡ items_in (view_array self.entry) }
    {
        match &self.array.layout {
            PlacedLayout::List(_, items) => Some(self.with(items)),
            PlacedLayout::FixedList(items) => Some(self.with(items)),
            _ => None,
        }
    }

    /// Returns the items of lists or fixed-size lists, or `none` for another layout.
    pub fn items_or(self, none: &'a PlacedArray) -> ArrayView<'a>
        requires { IsNoArray none.now }
        ensures { view_array result ≡ items_in (view_array self.entry) }
    {
        match self.items() {
            Some(items) => items,
            None => self.with(none),
        }
    }

    /// Returns the number of items.
    pub fn item_slots(self) -> usize
        ensures { result ≡ slots_in (items_in (view_array self.entry)) }
    {
        match self.items() {
            Some(items) => items.slots(),
            None => 0,
        }
    }

    /// Returns the child arrays of a struct, or an empty slice for another layout.
    pub fn children(self) -> &'a [PlacedArray]
        ensures { placed_arrays self.entry.bytes.now self.entry.dictionaries.now result.now ≡ children_in (view_array self.entry) }
    {
        match &self.array.layout {
            PlacedLayout::Struct(children) => children,
            _ => &[],
        }
    }

    /// Returns the arrays of the dictionary that existed when the array was read.
    pub fn dictionary(self) -> KnownArrays<'a>
        ensures { placed_dictionary self.entry.bytes.now result.arrays.now ≡ dictionary_in (view_array self.entry) }
    {
        match &self.array.layout {
            PlacedLayout::Dictionary(_, part) => known_arrays(self.dictionaries, part),
            _ => KnownArrays::none(),
        }
    }
}
