// Reads bits as numbers.
ghost use Rattle.std.specs.Prelude.{◌≡◌, ◌==◌, ℕ, ◌*◌, ◌+◌, ◌-◌, ◌<◌, ◌≤◌, ◌%◌, length, map, min};
ghost use Rattle.std.specs.Int.{bit_at};
ghost use Rattle.std.specs.List.{range_with_len};
ghost use Rattle.std.specs.Simd.Lanes.{mask_l};
ghost use Rattle.bitmap.specs.Bits.{bit};

use byteorder::{ByteOrder, LittleEndian};

/// Returns the bits from bit `from` on as a number, the first as its lowest bit: the rest of those in the 8 bytes that begin with the byte of
/// `from`, which are at least 57, or all that are left. The higher bits of the number are 0.
#[inline]
pub fn next_bits(bytes: &[u8], from: usize) -> u64
    requires { from < 8 * length bytes.now }
    ensures exact { result ≡ mask_l (map (bit bytes.now) (range_with_len from (min (64 - from % 8) (8 * length bytes.now - from)))) }
    ensures bits { (j : ℕ) → j < 57 → from + j < 8 * length bytes.now → (bit_at result j == 1) ≡ bit bytes.now (from + j) }
{
    let rest = &bytes[from / 8..];
    if rest.len() < 8 {
        return LittleEndian::read_uint(rest, rest.len()) >> (from % 8);
    }
    LittleEndian::read_u64(rest) >> (from % 8)
}

/// Returns the `count` bits from bit `from` on as a number, the first as its lowest bit.
#[inline]
pub fn bits_at(bytes: &[u8], from: usize, count: usize) -> u64
    requires some { 0 < count }
    requires few { count ≤ 57 }
    requires within { from + count ≤ 8 * length bytes.now }
    ensures { result ≡ mask_l (map (bit bytes.now) (range_with_len from count)) }
{
    next_bits(bytes, from) % (1 << count)
}
