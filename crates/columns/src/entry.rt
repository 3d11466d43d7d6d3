// The dictionary entry that an index names.
ghost use Rattle.std.specs.Prelude.{◌≡◌, ◌<◌, ◌≤◌, ◌/◌, true, false, not, nat_le, length, map, take, get_or, is_some, ℕ, List};
ghost use Rattle.std.specs.List.{list_all};
ghost use Rattle.arrow_schema.specs.Column.{Kind};
ghost use Rattle.arrow_schema.specs.View.{index_of};
ghost use Rattle.cells.specs.Cell.{null};
ghost use Rattle.columns.specs.Array.{slots_in, indices_in, dictionary_in, array_list};
ghost use Rattle.columns.specs.CellAt.{entries_of_kind, indexed_cell, index_at, named_number};
ghost use Rattle.columns.specs.Tests.{are_few};
ghost use Rattle.columns.specs.Sound.{is_kind_sound};
ghost use Rattle.columns.specs.Visible.{is_past};
ghost use Rattle.columns.specs.View.{view_array, array_in, no_dictionary, placed_dictionary};
ghost use Rattle.columns.specs.Located.{located_cell, IsSoundPlace};
ghost use Rattle.columns.specs.Ends.{entry_count};
ghost use Rattle.columns.specs.inner.ArrayPlaces.{IsArrayPlace};

use crate::array::PlacedArray;
use crate::dictionary::KnownArrays;
use crate::numbers::named_at;
use crate::view::ArrayView;
use arrow_schema::DictSpec;

/// The slot of an entry: the array that has it, and its place there.
#[derive(Clone, Copy)]
pub struct EntryPlace<'a> {
    pub view: ArrayView<'a>,
    pub place: usize,
}

fn flat_view<'a>(bytes: &'a [u8], array: &'a PlacedArray) -> ArrayView<'a>
    ensures { view_array result ≡ array_in bytes.now no_dictionary array.now }
{
    ArrayView {
        array,
        bytes,
        dictionaries: &[],
    }
}

// Finds the array that has an entry, by binary search.
fn array_place(known: KnownArrays, index: u128) -> usize
    ensures { IsArrayPlace known.entry.arrays.now index result }
{
    known.ends.partition_point(|end| *end <= index)
}

fn end_before(known: KnownArrays, i: usize) -> u128
    requires { i ≤ length known.arrays.now }
    ensures { result ≡ entry_count (take i known.entry.arrays.now) }
{
    if i == 0 { 0 } else { known.ends[i - 1] }
}

fn place_below(place: u128, slots: usize) -> usize
    requires { place < slots }
    ensures { result ≡ place }
{
    place as usize
}

/// Finds the slot of a dictionary entry, or `None` if there is no such entry. The index has 128 bits, as entry counts do.
pub fn entry_place<'a>(
    known: KnownArrays<'a>,
    bytes: &'a [u8],
    index: u128,
) -> Option<EntryPlace<'a>>
    ensures cell { (kind : Kind) → located_cell kind result
        ≡ get_or (entries_of_kind kind (placed_dictionary bytes.now known.entry.arrays.now)) index null }
    ensures present { (kind : Kind) → is_some result
        ≡ not (nat_le (length (entries_of_kind kind (placed_dictionary bytes.now known.entry.arrays.now))) index) }
    ensures sound { (kind : Kind) → list_all (is_kind_sound kind) (map (array_in bytes.now no_dictionary) known.entry.arrays.now) ≡ true
        → IsSoundPlace kind result }
{
    let i = array_place(known, index);
    match known.arrays.get(i) {
        None => None,
        Some(array) => Some(EntryPlace {
            view: flat_view(bytes, array),
            place: place_below(index - end_before(known, i), array.slots),
        }),
    }
}

/// Returns the number of entries of a dictionary.
pub fn entry_count(known: KnownArrays<'_>) -> u128
    ensures { (bytes : List ℕ) (kind : Kind) → result ≡ length (entries_of_kind kind (placed_dictionary bytes known.entry.arrays.now)) }
{
    end_before(known, known.arrays.len())
}

// Returns the index of a slot as an unsigned number, or `None` if it is negative.
fn index_number(spec: DictSpec, view: ArrayView<'_>, i: usize) -> Option<u64>
    requires long { are_few ((index_of spec).bits / 8) (view_array view) (indices_in (view_array view)) ≡ false }
    requires within { i < slots_in (view_array view) }
    ensures { result ≡ named_number (index_at (index_of spec) (view_array view.entry) i) }
{
    named_at(spec.index, view.indices(), view.slots(), i)
}

/// Finds the dictionary entry that the index of a slot names, if there is one.
pub fn indexed_entry<'a>(spec: DictSpec, view: ArrayView<'a>, i: usize) -> Option<EntryPlace<'a>>
    requires long { are_few ((index_of spec).bits / 8) (view_array view) (indices_in (view_array view)) ≡ false }
    requires within { i < slots_in (view_array view) }
    ensures cell { (kind : Kind) → located_cell kind result ≡ indexed_cell (index_of spec) kind (view_array view.entry) i }
    ensures present { let a = view_array view.entry in
        (kind : Kind) → is_some result ≡ not (is_past (index_at (index_of spec) a i) (entries_of_kind kind (dictionary_in a))) }
    ensures sound { (kind : Kind) → list_all (is_kind_sound kind) (array_list (dictionary_in (view_array view.entry))) ≡ true → IsSoundPlace kind result }
{
    match index_number(spec, view, i) {
        None => None,
        Some(number) => entry_place(view.dictionary(), view.bytes, number as u128),
    }
}
