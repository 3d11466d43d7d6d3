// Little-endian numbers, as the elements of a buffer.
ghost use Rattle.std.specs.Prelude.{◌≡◌, ◌≤◌, ◌<◌, ◌+◌, ◌-◌, ◌*◌, ◌/◌, ◌^◌, ◌++◌, ℕ, OnOk, OnErr, IfSome, Some, None, min, true, false, length, drop, nat_lt, option_map};
ghost use Rattle.byteorder.specs.Endian.{little_bytes, little_number};
ghost use Rattle.arrow_schema.specs.View.{bits_of, date_kind, kind_of};
ghost use Rattle.arrow_schema.specs.declared.types.BitWidth.{BitWidth};
ghost use Rattle.cells.specs.Fit.{date_bits};
ghost use Rattle.cells.specs.Integers.{integer_of};
ghost use Rattle.columns.specs.CellAt.{number_at, integer_at, named_number};
ghost use Rattle.columns.specs.Offsets.{contents_width, width_of};

use arrow_schema::{BitWidth, DataType, DateUnit, IntegerType};
use byteorder::{ByteOrder, LittleEndian};
use std::alloc::AllocError;

/// The width of offsets: 32 bits, or 64 bits for the large types.
#[derive(Clone, Copy)]
pub enum OffsetWidth {
    Four,
    Eight,
}

impl OffsetWidth {
    pub(crate) fn bytes(self) -> usize
        ensures value { result ≡ width_of self }
        ensures low { 1 ≤ result }
        ensures high { result ≤ 8 }
    {
        match self {
            OffsetWidth::Four => 4,
            OffsetWidth::Eight => 8,
        }
    }
}

/// Returns the width of the offsets of a string or binary type.
pub fn contents_width(data_type: &DataType) -> Option<OffsetWidth>
    ensures { option_map width_of result ≡ contents_width (kind_of data_type.now) }
{
    match data_type {
        DataType::Utf8 | DataType::Binary => Some(OffsetWidth::Four),
        DataType::LargeUtf8 | DataType::LargeBinary => Some(OffsetWidth::Eight),
        _ => None,
    }
}

// Returns the values from slot `i` on, in a buffer with one value of `width` bytes for each slot.
pub(crate) fn from_place(values: &[u8], width: usize, slots: usize, i: usize) -> &[u8]
    requires long { nat_lt (length values.now) (slots * width) ≡ false }
    requires within { i < slots }
    ensures rest { result.now ≡ drop (i * width) values.now }
    ensures room { width ≤ length result.now }
{
    let start = i * width;
    &values[start..]
}

fn first_number(width: OffsetWidth, bytes: &[u8]) -> u64
    requires { width_of width ≤ length bytes.now }
    ensures { result ≡ little_number (width_of width) bytes.now }
{
    match width {
        OffsetWidth::Four => u64::from(LittleEndian::read_u32(bytes)),
        OffsetWidth::Eight => LittleEndian::read_u64(bytes),
    }
}

/// Appends an offset.
///
/// # Errors
/// `AllocError` if memory was refused: nothing is appended.
pub fn push_offset(offsets: &mut Vec<u8>, width: OffsetWidth, offset: u64) -> Result<(), AllocError>
    ensures ok { OnOk result (offsets.new.items ≡ offsets.old.items ++ little_bytes (width_of width) offset) }
    ensures err { OnErr result (offsets.new.items ≡ offsets.old.items) }
{
    let bytes = offset.to_le_bytes();
    match width {
        OffsetWidth::Four => offsets.extend_from_slice(&bytes[..4]),
        OffsetWidth::Eight => offsets.extend_from_slice(&bytes),
    }
}

// Reads an offset of an array. There is one more offset than slots.
pub(crate) fn slot_offset(width: OffsetWidth, offsets: &[u8], slots: usize, i: usize) -> usize
    requires long { nat_lt (length offsets.now) ((slots + 1) * width_of width) ≡ false }
    requires within { i ≤ slots }
    requires few { slots + 1 < 18446744073709551616 }
    ensures { result ≡ number_at (width_of width) offsets.now i }
{
    let rest = from_place(offsets, width.bytes(), slots + 1, i);
    first_number(width, rest) as usize
}

/// Reads the offset at index `i` as an unsigned number, in bytes or items.
#[inline]
pub fn offset_at(offsets: &[u8], width: OffsetWidth, i: usize) -> u64
    requires { (i + 1) * width_of width ≤ length offsets.now }
    ensures { result ≡ number_at (width_of width) offsets.now i }
{
    match width {
        OffsetWidth::Four => u64::from(LittleEndian::read_u32(&offsets[i * 4..])),
        OffsetWidth::Eight => LittleEndian::read_u64(&offsets[i * 8..]),
    }
}

/// Appends an index of a dictionary.
///
/// # Errors
/// `AllocError` if memory was refused: nothing is appended.
pub fn push_index(indices: &mut Vec<u8>, width: BitWidth, index: u64) -> Result<(), AllocError>
    ensures ok { OnOk result (indices.new.items ≡ indices.old.items ++ little_bytes (bits_of width / 8) index) }
    ensures err { OnErr result (indices.new.items ≡ indices.old.items) }
{
    let bytes = index.to_le_bytes();
    match width {
        BitWidth::Eight => indices.extend_from_slice(&bytes[..1]),
        BitWidth::Sixteen => indices.extend_from_slice(&bytes[..2]),
        BitWidth::ThirtyTwo => indices.extend_from_slice(&bytes[..4]),
        BitWidth::SixtyFour => indices.extend_from_slice(&bytes),
    }
}

fn first_signed(width: BitWidth, bytes: &[u8]) -> i128
    requires { bits_of width / 8 ≤ length bytes.now }
    ensures { result ≡ integer_of (bits_of width / 8) true (little_number (bits_of width / 8) bytes.now) }
{
    match width {
        BitWidth::Eight => i128::from(LittleEndian::read_int(bytes, 1)),
        BitWidth::Sixteen => i128::from(LittleEndian::read_i16(bytes)),
        BitWidth::ThirtyTwo => i128::from(LittleEndian::read_i32(bytes)),
        BitWidth::SixtyFour => i128::from(LittleEndian::read_i64(bytes)),
    }
}

#[inline]
fn first_unsigned(width: BitWidth, bytes: &[u8]) -> u64
    requires { bits_of width / 8 ≤ length bytes.now }
    ensures value { result ≡ little_number (bits_of width / 8) bytes.now }
    ensures small { result < 2 ^ bits_of width }
{
    match width {
        BitWidth::Eight => LittleEndian::read_uint(bytes, 1),
        BitWidth::Sixteen => u64::from(LittleEndian::read_u16(bytes)),
        BitWidth::ThirtyTwo => u64::from(LittleEndian::read_u32(bytes)),
        BitWidth::SixtyFour => LittleEndian::read_u64(bytes),
    }
}

// One read for each width: a read whose length is known only at run time compiles to a copy.
fn first_integer(integer: IntegerType, bytes: &[u8]) -> i128
    requires { bits_of integer.width / 8 ≤ length bytes.now }
    ensures { result ≡ integer_of (bits_of integer.width / 8) integer.signed (little_number (bits_of integer.width / 8) bytes.now) }
{
    if integer.signed {
        first_signed(integer.width, bytes)
    } else {
        i128::from(first_unsigned(integer.width, bytes))
    }
}

// Reads the integer of a slot.
pub(crate) fn integer_at(integer: IntegerType, values: &[u8], slots: usize, i: usize) -> i128
    requires long { nat_lt (length values.now) (slots * (bits_of integer.width / 8)) ≡ false }
    requires within { i < slots }
    ensures { result ≡ integer_at (bits_of integer.width / 8) integer.signed values.now i }
{
    let rest = from_place(values, integer.width.bytes(), slots, i);
    first_integer(integer, rest)
}

/// Returns the least unsigned number of a width that is negative as a signed integer: half the number of its values.
#[inline]
pub fn least_negative(width: BitWidth) -> u64
    ensures value { result ≡ 2 ^ (bits_of width - 1) }
    ensures half { 2 * result ≡ 256 ^ (bits_of width / 8) }
    ensures most { result ≤ 2 ^ 63 }
{
    match width {
        BitWidth::Eight => 0x80,
        BitWidth::Sixteen => 0x8000,
        BitWidth::ThirtyTwo => 0x8000_0000,
        BitWidth::SixtyFour => 0x8000_0000_0000_0000,
    }
}

// Returns the width of integers of this size in bytes.
#[inline]
pub(crate) fn width_of_bytes(size: usize) -> BitWidth
    ensures { (width : BitWidth) → size ≡ bits_of width / 8 → result ≡ width }
{
    match size {
        1 => BitWidth::Eight,
        2 => BitWidth::Sixteen,
        4 => BitWidth::ThirtyTwo,
        _ => BitWidth::SixtyFour,
    }
}

// Reads the integer of a slot as an unsigned number, or `None` if it is negative.
#[inline]
pub(crate) fn named_at(integer: IntegerType, values: &[u8], slots: usize, i: usize) -> Option<u64>
    requires long { nat_lt (length values.now) (slots * (bits_of integer.width / 8)) ≡ false }
    requires within { i < slots }
    ensures { result ≡ named_number (integer_at (bits_of integer.width / 8) integer.signed values.now i) }
{
    let rest = from_place(values, integer.width.bytes(), slots, i);
    let number = first_unsigned(integer.width, rest);
    if integer.signed && number >= least_negative(integer.width) {
        return None;
    }
    Some(number)
}

// Like `named_at`, but `None` unless the number is below a limit. A loop computes the limit for the unsigned comparison only once.
#[inline]
pub(crate) fn named_below(
    integer: IntegerType,
    values: &[u8],
    slots: usize,
    i: usize,
    limit: u64,
) -> Option<u64>
    requires long { nat_lt (length values.now) (slots * (bits_of integer.width / 8)) ≡ false }
    requires within { i < slots }
    ensures below { IfSome result (λ number. number < limit) }
    ensures named { IfSome result (λ number. named_number (integer_at (bits_of integer.width / 8) integer.signed values.now i) ≡ Some number) }
    ensures none { result ≡ None → (number : ℕ)
        → named_number (integer_at (bits_of integer.width / 8) integer.signed values.now i) ≡ Some number → limit ≤ number }
{
    let rest = from_place(values, integer.width.bytes(), slots, i);
    let number = first_unsigned(integer.width, rest);
    if number < limit_of(integer, limit) {
        Some(number)
    } else {
        None
    }
}

// Lowers a limit so that no negative integer, read as unsigned, is below it.
#[inline]
fn limit_of(integer: IntegerType, limit: u64) -> u64
    ensures unsigned { integer.signed ≡ false → result ≡ limit }
    ensures signed { integer.signed ≡ true → result ≡ min limit (2 ^ (bits_of integer.width - 1)) }
{
    if !integer.signed {
        return limit;
    }
    limit.min(least_negative(integer.width))
}

/// Returns the integer type of a date.
pub fn date_integer(unit: DateUnit) -> IntegerType
    ensures bits { bits_of result.width ≡ date_bits (date_kind unit) }
    ensures signed { result.signed ≡ true }
{
    let width = match unit {
        DateUnit::Day => BitWidth::ThirtyTwo,
        DateUnit::Millisecond => BitWidth::SixtyFour,
    };
    IntegerType {
        width,
        signed: true,
    }
}

/// Returns the integer type of a timestamp.
pub fn timestamp_integer() -> IntegerType
    ensures bits { bits_of result.width ≡ 64 }
    ensures bytes { bits_of result.width / 8 ≡ 8 }
    ensures signed { result.signed ≡ true }
{
    IntegerType {
        width: BitWidth::SixtyFour,
        signed: true,
    }
}
