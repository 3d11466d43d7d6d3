// Compares the integers in 64 bytes at once.
ghost use Rattle.std.specs.Prelude.{◌≡◌, ℕ, ◌≤◌, ◌<◌, ◌+◌, ◌*◌, ◌/◌, ◌%◌, ◌^◌, ◌==◌, length, map};
ghost use Rattle.std.specs.Int.{bit_at};
ghost use Rattle.std.specs.List.{range_with_len};
ghost use Rattle.std.specs.Simd.Lanes.{mask_l};
ghost use Rattle.arrow_schema.specs.View.{bits_of};
ghost use Rattle.query.specs.inner.OrderAnswers.{answer_at, block_slots};
ghost use Rattle.query.specs.inner.Slots.{is_valid_in};

use crate::order_answers::OrderAnswers;
use arrow_schema::BitWidth;
use byteorder::{ByteOrder, LittleEndian};
use std::simd::prelude::*;

/// Returns how many integers of a width are in 64 bytes.
pub(crate) fn slots_in_block(width: BitWidth) -> usize
    ensures value { result ≡ block_slots width }
    ensures size { result * (bits_of width / 8) ≡ 64 }
    ensures least { 8 ≤ result }
    ensures most { result ≤ 64 }
    ensures bytes { result % 8 ≡ 0 }
{
    match width {
        BitWidth::Eight => 64,
        BitWidth::Sixteen => 32,
        BitWidth::ThirtyTwo => 16,
        BitWidth::SixtyFour => 8,
    }
}

/// Returns the answers for the slots of a block, from a slot on, a bit each.
pub(crate) fn answers_of_block(
    width: BitWidth,
    by_order: OrderAnswers,
    values: &[u8],
    first: usize,
) -> u64
    requires room { (first + block_slots width) * (bits_of width / 8) ≤ length values.now }
    requires bias { by_order.bias < 256 ^ (bits_of width / 8) }
    requires key { by_order.key < 256 ^ (bits_of width / 8) }
    ensures { result ≡ mask_l (map (answer_at by_order (bits_of width / 8) values.now) (range_with_len first (block_slots width))) }
{
    match width {
        BitWidth::Eight => of_8_bits(by_order, values, first),
        BitWidth::Sixteen => of_16_bits(by_order, values, first),
        BitWidth::ThirtyTwo => of_32_bits(by_order, values, first),
        BitWidth::SixtyFour => of_64_bits(by_order, values, first),
    }
}

/// Returns the validity of the slots of a block, from a slot on, a bit each; further bits may be set.
pub(crate) fn valid_slots(validity: &[u8], first: usize, slots: usize) -> u64
    requires least { 8 ≤ slots }
    requires most { slots ≤ 64 }
    requires bytes { slots % 8 ≡ 0 }
    requires begins { first % 8 ≡ 0 }
    requires room { 0 < length validity.now → first + slots ≤ 8 * length validity.now }
    ensures { (j : ℕ) → j < slots → (bit_at result j == 1) ≡ is_valid_in validity.now (first + j) }
{
    if validity.is_empty() {
        return u64::MAX;
    }
    LittleEndian::read_uint(&validity[first / 8..], slots / 8)
}

// The answers for the numbers in the lanes of a vector of this type, a bit each. A lane has 1 where the answer is yes.
macro_rules! answers_of_lanes {
    ($vector:ident, $number:ident, $by_order:expr, $lanes:expr) => {{
        let numbers = $lanes + $vector::splat($by_order.bias as $number);
        let key = $vector::splat($by_order.key as $number);
        let below = $vector::splat($number::from($by_order.below));
        let equal = $vector::splat($number::from($by_order.equal));
        let above = $vector::splat($number::from($by_order.above));
        let others = numbers.simd_eq(key).select(equal, above);
        let answers = numbers.simd_lt(key).select(below, others);
        answers.simd_eq($vector::splat(1)).to_bitmask()
    }};
}

// Returns the answers for 64 numbers of 8 bits, from a slot on, a bit each.
fn of_8_bits(by_order: OrderAnswers, values: &[u8], first: usize) -> u64
    requires room { first + 64 ≤ length values.now }
    requires bias { by_order.bias < 2 ^ 8 }
    requires key { by_order.key < 2 ^ 8 }
    ensures { result ≡ mask_l (map (answer_at by_order 1 values.now) (range_with_len first 64)) }
{
    let lanes = u8x64::from_slice(&values[first..]);
    answers_of_lanes!(u8x64, u8, by_order, lanes)
}

// `of_8_bits` for 32 numbers of 16 bits.
fn of_16_bits(by_order: OrderAnswers, values: &[u8], first: usize) -> u64
    requires room { 2 * (first + 32) ≤ length values.now }
    requires bias { by_order.bias < 2 ^ 16 }
    requires key { by_order.key < 2 ^ 16 }
    ensures { result ≡ mask_l (map (answer_at by_order 2 values.now) (range_with_len first 32)) }
{
    let lanes = u16x32::from_le_bytes(u8x64::from_slice(&values[2 * first..]));
    answers_of_lanes!(u16x32, u16, by_order, lanes)
}

// `of_8_bits` for 16 numbers of 32 bits.
fn of_32_bits(by_order: OrderAnswers, values: &[u8], first: usize) -> u64
    requires room { 4 * (first + 16) ≤ length values.now }
    requires bias { by_order.bias < 2 ^ 32 }
    requires key { by_order.key < 2 ^ 32 }
    ensures { result ≡ mask_l (map (answer_at by_order 4 values.now) (range_with_len first 16)) }
{
    let lanes = u32x16::from_le_bytes(u8x64::from_slice(&values[4 * first..]));
    answers_of_lanes!(u32x16, u32, by_order, lanes)
}

// `of_8_bits` for 8 numbers of 64 bits.
fn of_64_bits(by_order: OrderAnswers, values: &[u8], first: usize) -> u64
    requires { 8 * (first + 8) ≤ length values.now }
    ensures { result ≡ mask_l (map (answer_at by_order 8 values.now) (range_with_len first 8)) }
{
    let lanes = u64x8::from_le_bytes(u8x64::from_slice(&values[8 * first..]));
    answers_of_lanes!(u64x8, u64, by_order, lanes)
}
