// Tests that concern one array by itself (docs/definitions/columns.md).
ghost use Rattle.std.specs.Prelude.{◌≡◌, ◌+◌, ◌*◌, ◌≤◌, false, length, nat_lt};
ghost use Rattle.std.specs.List.{list_any, range_with_len};
ghost use Rattle.bitmap.specs.Bits.{bytes_of};
ghost use Rattle.arrow_schema.specs.View.{kind_of, column_of};
ghost use Rattle.columns.specs.Array.{slots_in, validity_in, values_in, bits_in, children_in, array_list};
ghost use Rattle.columns.specs.CellAt.{number_at};
ghost use Rattle.columns.specs.Tests.{is_short, is_unordered, counts_wrong, has_short_child, has_short_part, has_short_validity, has_short_buffer, has_bad_offsets, are_few, are_few_offsets, are_unordered, unset_bits, is_negative};
ghost use Rattle.columns.specs.Offsets.{width_of};
ghost use Rattle.columns.specs.View.{view_array};

use crate::array::PlacedArray;
use crate::numbers::{OffsetWidth, date_integer, slot_offset};
use crate::view::ArrayView;
use arrow_schema::{DataType, Field};
use byteorder::{ByteOrder, LittleEndian};

fn has_short_validity(view: ArrayView<'_>) -> bool
    ensures { result ≡ has_short_validity (view_array view.entry) }
{
    let validity = view.validity();
    !validity.is_empty() && validity.len() < bitmap::bytes_for(view.slots())
}

// In 128 bits the product can't overflow.
fn are_few(width: usize, count: usize, values: &[u8]) -> bool
    ensures { result ≡ nat_lt (length values.now) (count * width) }
{
    (values.len() as u128) < count as u128 * width as u128
}

fn are_few_offsets(width: OffsetWidth, view: ArrayView<'_>) -> bool
    ensures { result ≡ are_few_offsets (width_of width) (view_array view.entry) }
{
    let needed = (view.slots() as u128 + 1) * width.bytes() as u128;
    view.slots() != 0 && (view.offsets().len() as u128) < needed
}

fn has_few_bits(view: ArrayView<'_>) -> bool
    ensures { result ≡ nat_lt (length (bits_in (view_array view.entry))) (bytes_of (slots_in (view_array view.entry))) }
{
    view.bits().len() < bitmap::bytes_for(view.slots())
}

fn has_few_values(width: usize, view: ArrayView<'_>) -> bool
    ensures { result ≡ are_few width (view_array view.entry) (values_in (view_array view.entry)) }
{
    are_few(width, view.slots(), view.values())
}

fn has_short_buffer(data_type: &DataType, view: ArrayView<'_>) -> bool
    ensures { result ≡ has_short_buffer (kind_of data_type.now) (view_array view.entry) }
{
    match data_type {
        DataType::Null => false,
        DataType::Bool => has_few_bits(view),
        DataType::Int(integer) => has_few_values(integer.width.bytes(), view),
        DataType::Date(unit) => has_few_values(date_integer(*unit).width.bytes(), view),
        DataType::Timestamp(_, _) => has_few_values(8, view),
        DataType::Utf8 => are_few_offsets(OffsetWidth::Four, view),
        DataType::LargeUtf8 => are_few_offsets(OffsetWidth::Eight, view),
        DataType::Binary => are_few_offsets(OffsetWidth::Four, view),
        DataType::LargeBinary => are_few_offsets(OffsetWidth::Eight, view),
        DataType::FixedSizeBinary(width) => has_few_values(*width as usize, view),
        DataType::List(_) => are_few_offsets(OffsetWidth::Four, view),
        DataType::LargeList(_) => are_few_offsets(OffsetWidth::Eight, view),
        DataType::FixedSizeList(_, _) => false,
        DataType::Struct(_) => false,
    }
}

/// Returns whether a validity bitmap that is present, or another buffer of the array itself, has fewer bytes than its slots need.
pub fn is_short(field: &Field, view: ArrayView<'_>) -> bool
    ensures { result ≡ is_short (column_of field.now) (view_array view.entry) }
{
    let own = match &field.dictionary {
        None => has_short_buffer(&field.data_type, view),
        Some(spec) => are_few(spec.index.width.bytes(), view.slots(), view.indices()),
    };
    has_short_validity(view) || own
}

fn unset_bits(view: ArrayView<'_>) -> usize
    requires { has_short_validity (view_array view) ≡ false }
    ensures { result ≡ unset_bits (validity_in (view_array view.entry)) (slots_in (view_array view.entry)) }
{
    let validity = view.validity();
    if validity.is_empty() {
        return 0;
    }
    view.slots() - bitmap::count_set(validity, 0, view.slots())
}

/// Returns whether a null count differs from the number of slots that are not valid. The null type is exempt.
pub fn counts_wrong(null_count: u64, field: &Field, view: ArrayView<'_>) -> bool
    requires { has_short_validity (view_array view) ≡ false }
    ensures { result ≡ counts_wrong null_count (column_of field.now) (view_array view.entry) }
{
    match (&field.dictionary, &field.data_type) {
        (None, DataType::Null) => false,
        _ => null_count != unset_bits(view) as u64,
    }
}

// Returns whether an offset of this width is negative in two's complement.
fn is_negative(width: OffsetWidth, number: usize) -> bool
    ensures { result ≡ is_negative (width_of width) number }
{
    match width {
        OffsetWidth::Four => number >= 1 << 31,
        OffsetWidth::Eight => number >= 1 << 63,
    }
}

// Returns whether an offset is less than the one before it. There is no early exit, so that the compiler can vectorize the loop for a known width.
fn any_sized_falls<const SIZE: usize>(offsets: &[u8], slots: usize) -> bool
    requires least { 1 ≤ SIZE }
    requires most { SIZE ≤ 8 }
    requires long { (slots + 1) * SIZE ≤ length offsets.now }
    ensures { let offset = number_at SIZE offsets.now in result ≡ list_any (λ i. nat_lt (offset (i + 1)) (offset i)) (range_with_len 0 slots) }
{
    let mut falls = false;
    for i in 0..slots {
        let last = LittleEndian::read_uint(&offsets[i * SIZE..], SIZE);
        let next = LittleEndian::read_uint(&offsets[(i + 1) * SIZE..], SIZE);
        falls |= next < last;
    }
    falls
}

// One loop for each width.
fn any_falls(width: OffsetWidth, offsets: &[u8], slots: usize) -> bool
    requires { (slots + 1) * width_of width ≤ length offsets.now }
    ensures { let offset = number_at (width_of width) offsets.now in result ≡ list_any (λ i. nat_lt (offset (i + 1)) (offset i)) (range_with_len 0 slots) }
{
    match width {
        OffsetWidth::Four => any_sized_falls::<4>(offsets, slots),
        OffsetWidth::Eight => any_sized_falls::<8>(offsets, slots),
    }
}

// If the offsets never decrease, the last one is the largest.
fn are_unordered(width: OffsetWidth, most: usize, view: ArrayView<'_>) -> bool
    requires { are_few_offsets (width_of width) (view_array view) ≡ false }
    ensures { result ≡ are_unordered (width_of width) most (view_array view.entry) }
{
    let slots = view.slots();
    if slots == 0 {
        return false;
    }
    let offsets = view.offsets();
    if any_falls(width, offsets, slots) {
        return true;
    }
    let last = slot_offset(width, offsets, slots, slots);
    is_negative(width, last) || most < last
}

fn has_bad_offsets(data_type: &DataType, view: ArrayView<'_>) -> bool
    requires { has_short_buffer (kind_of data_type.now) (view_array view) ≡ false }
    ensures { result ≡ has_bad_offsets (kind_of data_type.now) (view_array view.entry) }
{
    match data_type {
        DataType::Utf8 => are_unordered(OffsetWidth::Four, view.contents().len(), view),
        DataType::LargeUtf8 => are_unordered(OffsetWidth::Eight, view.contents().len(), view),
        DataType::Binary => are_unordered(OffsetWidth::Four, view.contents().len(), view),
        DataType::LargeBinary => are_unordered(OffsetWidth::Eight, view.contents().len(), view),
        DataType::List(_) => are_unordered(OffsetWidth::Four, view.item_slots(), view),
        DataType::LargeList(_) => are_unordered(OffsetWidth::Eight, view.item_slots(), view),
        _ => false,
    }
}

/// Returns whether an array that has slots has a negative offset, an offset less than the one before it, or a last offset past the end of the
/// contents or items.
pub fn is_unordered(field: &Field, view: ArrayView<'_>) -> bool
    requires { is_short (column_of field.now) (view_array view) ≡ false }
    ensures { result ≡ is_unordered (column_of field.now) (view_array view.entry) }
{
    match &field.dictionary {
        None => has_bad_offsets(&field.data_type, view),
        Some(_) => false,
    }
}

fn any_fewer(slots: usize, children: &[PlacedArray]) -> bool
    ensures { result ≡ list_any (λ child. nat_lt child.slots slots) children.now }
{
    children.iter().any(|child| child.slots < slots)
}

// Returns whether a child of a struct is shorter than the struct.
fn has_shorter(view: ArrayView<'_>) -> bool
    ensures { let a = view_array view.entry in
        result ≡ list_any (λ child. nat_lt (slots_in child) (slots_in a)) (array_list (children_in a)) }
{
    any_fewer(view.slots(), view.children())
}

fn has_short_part(data_type: &DataType, view: ArrayView<'_>) -> bool
    ensures { result ≡ has_short_part (kind_of data_type.now) (view_array view.entry) }
{
    match data_type {
        DataType::FixedSizeList(size, _) => {
            (view.item_slots() as u128) < view.slots() as u128 * u128::from(*size)
        }
        DataType::Struct(_) => has_shorter(view),
        _ => false,
    }
}

/// Returns whether a struct has a child that is shorter than itself, or a fixed-size list has fewer items than its slots need.
pub fn has_short_child(field: &Field, view: ArrayView<'_>) -> bool
    ensures { result ≡ has_short_child (column_of field.now) (view_array view.entry) }
{
    match &field.dictionary {
        None => has_short_part(&field.data_type, view),
        Some(_) => false,
    }
}
