// Reads the value at a slot (docs/definitions/columns.md).
ghost use Rattle.std.specs.Prelude.{◌≡◌, ◌≤◌, ◌<◌, ◌+◌, ◌*◌, ◌/◌, ◌-◌, nat_lt, nat_le, true, false, not, ◌==◌, ◌&&◌, length, map, ℕ};
ghost use Rattle.bitmap.specs.Bits.{bit, bytes_of};
ghost use Rattle.arrow_schema.specs.View.{kind_of, column_of, bits_of, index_of};
ghost use Rattle.cells.specs.Cell.{cells_of, null};
ghost use Rattle.columns.specs.Array.{slots_in, array_list, dictionary_in, bits_in, values_in, offsets_in, contents_in, items_in, children_in, indices_in};
ghost use Rattle.columns.specs.CellAt.{integer_at as plain_integer_at, indexed_cell, unless_null, row_at, cell_at, kind_cell, part_cells, contents_at, value_at, span_start, span_size, span_cells, item_at, cells_from};
ghost use Rattle.columns.specs.Tests.{are_few, are_few_offsets, are_unordered, has_short_validity};
ghost use Rattle.columns.specs.Sound.{is_sound, is_kind_sound, are_sound};
ghost use Rattle.columns.specs.Texts.{has_utf8_texts, have_utf8_texts};
ghost use Rattle.columns.specs.inner.Readable.{is_run_readable, are_parts_readable};
ghost use Rattle.columns.specs.Offsets.{width_of};
ghost use Rattle.columns.specs.View.{view_array, placed_arrays, fields_of};
ghost use Rattle.columns.specs.Borrowed.{borrowed_cell, borrowed_cells};
ghost use Rattle.columns.specs.Located.{located_cell, IsSoundPlace};
ghost use Rattle.std.specs.List.{list_all};
ghost use Rattle.std.specs.Str.{is_utf8};

use crate::array::{Dictionary, PlacedArray};
use crate::borrowed::{ArraySlice, Form, PartsAt, ValueRef, Values};
use crate::entry::{EntryPlace, indexed_entry};
use crate::numbers::{OffsetWidth, date_integer, from_place, integer_at, timestamp_integer};
use crate::span::bytes_at;
use crate::view::ArrayView;
use arrow_schema::{DataType, DictSpec, Field, IntegerType};

fn bit_at(view: ArrayView<'_>, i: usize) -> bool
    requires long { nat_lt (length (bits_in (view_array view))) (bytes_of (slots_in (view_array view))) ≡ false }
    requires within { i < slots_in (view_array view) }
    ensures { result ≡ bit (bits_in (view_array view.entry)) i }
{
    bitmap::get(view.bits(), i)
}

fn number_in(view: ArrayView<'_>, integer: IntegerType, i: usize) -> i128
    requires long { are_few (bits_of integer.width / 8) (view_array view) (values_in (view_array view)) ≡ false }
    requires within { i < slots_in (view_array view) }
    ensures { result ≡ plain_integer_at (bits_of integer.width / 8) integer.signed (values_in (view_array view.entry)) i }
{
    integer_at(integer, view.values(), view.slots(), i)
}

fn timestamp_at(view: ArrayView<'_>, i: usize) -> i128
    requires long { are_few 8 (view_array view) (values_in (view_array view)) ≡ false }
    requires within { i < slots_in (view_array view) }
    ensures { result ≡ plain_integer_at 8 true (values_in (view_array view.entry)) i }
{
    number_in(view, timestamp_integer(), i)
}

fn contents_at<'a>(width: OffsetWidth, view: ArrayView<'a>, i: usize) -> &'a [u8]
    requires long { are_few_offsets (width_of width) (view_array view) ≡ false }
    requires within { i < slots_in (view_array view) }
    ensures { result.now ≡ contents_at (width_of width) (view_array view.entry) i }
{
    bytes_at(view.contents(), view.spanned(width, i, 1))
}

fn fixed_bytes_at<'a>(width: usize, view: ArrayView<'a>, i: usize) -> &'a [u8]
    requires long { are_few width (view_array view) (values_in (view_array view)) ≡ false }
    requires within { i < slots_in (view_array view) }
    ensures { result.now ≡ value_at width (values_in (view_array view.entry)) i }
{
    let rest = from_place(view.values(), width, view.slots(), i);
    &rest[..width]
}

#[tactic(auto, using(crate::proofs::Texts::is_text))]
fn text_from(bytes: &[u8]) -> &str
    requires { is_utf8 bytes.now ≡ true }
    ensures { result.now ≡ bytes.now }
{
    unsafe { str::from_utf8_unchecked(bytes) }
}

fn text_at<'a>(width: OffsetWidth, view: ArrayView<'a>, i: usize) -> &'a str
    requires long { are_few_offsets (width_of width) (view_array view) ≡ false }
    requires within { i < slots_in (view_array view) }
    requires text { is_utf8 (contents_at (width_of width) (view_array view) i) ≡ true }
    ensures { result.now ≡ contents_at (width_of width) (view_array view.entry) i }
{
    text_from(contents_at(width, view, i))
}

// Returns consecutive items of lists.
fn items_from<'a>(item: &'a Field, view: ArrayView<'a>, start: usize, count: usize) -> Values<'a>
    requires within { start + count ≤ slots_in (items_in (view_array view)) }
    requires sound { is_sound (column_of item.now) (items_in (view_array view)) ≡ true }
    requires texts { have_utf8_texts (cells_of (cells_from (item_at (column_of item.now) (view_array view)) start count)) ≡ true }
    ensures { borrowed_cells result ≡ cells_from (item_at (column_of item.now) (view_array view.entry)) start count }
{
    let form = match view.items() {
        Some(items) => Form::Slots(ArraySlice {
            field: item,
            view: items,
            start,
            count,
        }),
        None => Form::Cells(&[]),
    };
    Values { form }
}

fn list_at<'a>(width: OffsetWidth, item: &'a Field, view: ArrayView<'a>, i: usize) -> Values<'a>
    requires long { are_few_offsets (width_of width) (view_array view) ≡ false }
    requires ordered { are_unordered (width_of width) (slots_in (items_in (view_array view))) (view_array view) ≡ false }
    requires within { i < slots_in (view_array view) }
    requires sound { is_sound (column_of item.now) (items_in (view_array view)) ≡ true }
    requires texts { have_utf8_texts (cells_of (span_cells (width_of width) (item_at (column_of item.now) (view_array view)) (view_array view) i)) ≡ true }
    ensures { borrowed_cells result ≡ span_cells (width_of width) (item_at (column_of item.now) (view_array view.entry)) (view_array view.entry) i }
{
    let span = view.spanned(width, i, 1);
    items_from(item, view, span.start, span.len)
}

fn fixed_list_at<'a>(size: usize, item: &'a Field, view: ArrayView<'a>, i: usize) -> Values<'a>
    requires long { nat_le (slots_in (view_array view) * size) (slots_in (items_in (view_array view))) ≡ true }
    requires within { i < slots_in (view_array view) }
    requires sound { is_sound (column_of item.now) (items_in (view_array view)) ≡ true }
    requires texts { have_utf8_texts (cells_of (cells_from (item_at (column_of item.now) (view_array view)) (i * size) size)) ≡ true }
    ensures { borrowed_cells result ≡ cells_from (item_at (column_of item.now) (view_array view.entry)) (i * size) size }
{
    // for the proof: a `usize` is below 2^64, so `i * size` does not overflow
    let _most = view.item_slots();
    let start = i * size;
    items_from(item, view, start, size)
}

#[tactic(auto, using(cells::specs::laws::Cells::cells_list))]
fn struct_at<'a>(fields: &'a [Field], view: ArrayView<'a>, i: usize) -> Values<'a>
    requires sound { are_sound (fields_of fields.now) (slots_in (view_array view)) (children_in (view_array view)) ≡ true }
    requires within { i < slots_in (view_array view) }
    requires texts { have_utf8_texts (part_cells (fields_of fields.now) (children_in (view_array view)) i) ≡ true }
    ensures { cells_of (borrowed_cells result) ≡ part_cells (fields_of fields.now) (children_in (view_array view.entry)) i }
{
    row(
        fields,
        view.children(),
        view.bytes,
        view.dictionaries,
        view.slots(),
        i,
    )
}

/// Returns the row at a slot of arrays with at least `slots` slots each, as values of these fields.
pub fn row<'a>(
    fields: &'a [Field],
    arrays: &'a [PlacedArray],
    bytes: &'a [u8],
    dictionaries: &'a [Dictionary],
    slots: usize,
    place: usize,
) -> Values<'a>
    requires sound { are_sound (fields_of fields.now) slots (placed_arrays bytes.now dictionaries.now arrays.now) ≡ true }
    requires within { place < slots }
    requires texts { have_utf8_texts (part_cells (fields_of fields.now) (placed_arrays bytes.now dictionaries.now arrays.now) place) ≡ true }
    ensures { borrowed_cells result ≡ row_at (fields_of fields.now) (placed_arrays bytes.now dictionaries.now arrays.now) place }
{
    let parts = PartsAt {
        fields,
        arrays,
        bytes,
        dictionaries,
        slots,
        place,
    };
    Values {
        form: Form::Parts(parts),
    }
}

// Reads a valid slot.
#[tactic(auto, using(crate::proofs::KindParts::kind_rules), unfolding(crate::specs::CellAt::kind_cell, crate::specs::Texts::has_utf8_texts, crate::specs::Sound::has_sound_children))]
fn valid_value<'a>(data_type: &'a DataType, view: ArrayView<'a>, i: usize) -> ValueRef<'a>
    requires sound { is_kind_sound (kind_of data_type.now) (view_array view) ≡ true }
    requires within { i < slots_in (view_array view) }
    requires texts { has_utf8_texts (kind_cell (kind_of data_type.now) (view_array view) i) ≡ true }
    ensures { borrowed_cell result ≡ kind_cell (kind_of data_type.now) (view_array view.entry) i }
{
    match data_type {
        DataType::Null => ValueRef::Null,
        DataType::Bool => ValueRef::Bool(bit_at(view, i)),
        DataType::Int(integer) => ValueRef::Int(number_in(view, *integer, i)),
        DataType::Date(unit) => ValueRef::Int(number_in(view, date_integer(*unit), i)),
        DataType::Timestamp(_, _) => ValueRef::Int(timestamp_at(view, i)),
        DataType::Utf8 => ValueRef::Text(text_at(OffsetWidth::Four, view, i)),
        DataType::LargeUtf8 => ValueRef::Text(text_at(OffsetWidth::Eight, view, i)),
        DataType::Binary => ValueRef::Bytes(contents_at(OffsetWidth::Four, view, i)),
        DataType::LargeBinary => ValueRef::Bytes(contents_at(OffsetWidth::Eight, view, i)),
        DataType::FixedSizeBinary(width) => {
            ValueRef::Bytes(fixed_bytes_at(*width as usize, view, i))
        }
        DataType::List(item) => ValueRef::List(list_at(OffsetWidth::Four, item, view, i)),
        DataType::LargeList(item) => ValueRef::List(list_at(OffsetWidth::Eight, item, view, i)),
        DataType::FixedSizeList(size, item) => {
            ValueRef::List(fixed_list_at(*size as usize, item, view, i))
        }
        DataType::Struct(fields) => ValueRef::Struct(struct_at(fields, view, i)),
    }
}

// Reads a slot of a column without a dictionary.
fn plain_value<'a>(data_type: &'a DataType, view: ArrayView<'a>, i: usize) -> ValueRef<'a>
    requires sound { is_kind_sound (kind_of data_type.now) (view_array view) ≡ true }
    requires within { i < slots_in (view_array view) }
    requires texts { has_utf8_texts (unless_null (kind_cell (kind_of data_type.now)) (view_array view) i) ≡ true }
    ensures { borrowed_cell result ≡ unless_null (kind_cell (kind_of data_type.now)) (view_array view.entry) i }
{
    if view.is_valid(i) {
        valid_value(data_type, view, i)
    } else {
        ValueRef::Null
    }
}

fn located_value<'a>(data_type: &'a DataType, found: Option<EntryPlace<'a>>) -> ValueRef<'a>
    requires sound { IsSoundPlace (kind_of data_type.now) found }
    requires texts { has_utf8_texts (located_cell (kind_of data_type.now) found) ≡ true }
    ensures { borrowed_cell result ≡ located_cell (kind_of data_type.now) found.entry }
{
    match found {
        Some(entry) => plain_value(data_type, entry.view, entry.place),
        None => ValueRef::Null,
    }
}

// Reads the dictionary entry that the index of a slot names.
fn entry_value<'a>(
    spec: DictSpec,
    data_type: &'a DataType,
    view: ArrayView<'a>,
    i: usize,
) -> ValueRef<'a>
    requires long { are_few ((index_of spec).bits / 8) (view_array view) (indices_in (view_array view)) ≡ false }
    requires within { i < slots_in (view_array view) }
    requires sound { list_all (is_kind_sound (kind_of data_type.now)) (array_list (dictionary_in (view_array view))) ≡ true }
    requires texts { has_utf8_texts (indexed_cell (index_of spec) (kind_of data_type.now) (view_array view) i) ≡ true }
    ensures { borrowed_cell result ≡ indexed_cell (index_of spec) (kind_of data_type.now) (view_array view.entry) i }
{
    located_value(data_type, indexed_entry(spec, view, i))
}

/// Returns the value of a field at slot `i` of an array.
#[tactic(auto, unfolding(crate::specs::CellAt::cell_at, crate::specs::Sound::is_sound))]
pub fn value<'a>(field: &'a Field, view: ArrayView<'a>, i: usize) -> ValueRef<'a>
    requires sound { is_sound (column_of field.now) (view_array view) ≡ true }
    requires within { i < slots_in (view_array view) }
    requires texts { has_utf8_texts (cell_at (column_of field.now) (view_array view) i) ≡ true }
    ensures { borrowed_cell result ≡ cell_at (column_of field.now) (view_array view.entry) i }
{
    match &field.dictionary {
        None => plain_value(&field.data_type, view, i),
        Some(spec) => {
            if view.is_valid(i) {
                entry_value(*spec, &field.data_type, view, i)
            } else {
                ValueRef::Null
            }
        }
    }
}
