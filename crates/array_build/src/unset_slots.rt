// Finds the bits of a bitmap that are not set.
ghost use Rattle.std.specs.Prelude.{◌≡◌, ℕ, ◌≤◌, ◌<◌, ◌+◌, ◌*◌, false, true, length};
ghost use Rattle.bitmap.specs.Bits.{bit};

use bitmap::{alike_end, get, next_bits};

// Returns how many consecutive bits are set from bit `from` on, if these are fewer than 57.
#[inline]
fn count_set_in_word(bits: &[u8], from: usize) -> usize
    requires { from + 57 ≤ 8 * length bits.now }
    ensures alike { (j : ℕ) → result < 57 → j < result → bit bits.now (from + j) ≡ true }
    ensures longest { result < 57 → bit bits.now (from + result) ≡ false }
{
    (!next_bits(bits, from)).trailing_zeros() as usize
}

/// Returns the index of the first bit from `from` on that is not set, or `to` if all are set before it. The next 57 bits are read as one number.
#[inline]
pub(crate) fn next_unset(bits: &[u8], from: usize, to: usize) -> usize
    requires within { to ≤ 8 * length bits.now }
    requires order { from ≤ to }
    ensures begins { from ≤ result }
    ensures ends { result ≤ to }
    ensures alike { (i : ℕ) → from ≤ i → i < result → bit bits.now i ≡ true }
    ensures longest { result < to → bit bits.now result ≡ false }
{
    if bits.len() - from / 8 >= 8 {
        let set = count_set_in_word(bits, from);
        if set < 57 {
            return from + set.min(to - from);
        }
    }
    alike_end(bits, true, from, to)
}

/// Returns what `bitmap::run_end` returns, but reads set bits 57 at a time: the end of the run of equal bits that begins at bit `from`, or `to` if the run is
/// longer.
#[inline]
pub(crate) fn run_to(bits: &[u8], from: usize, to: usize) -> usize
    requires within { to ≤ 8 * length bits.now }
    requires some { from < to }
    ensures begins { from < result }
    ensures ends { result ≤ to }
    ensures alike { (i : ℕ) → from ≤ i → i < result → bit bits.now i ≡ bit bits.now from }
{
    if get(bits, from) {
        next_unset(bits, from, to)
    } else {
        alike_end(bits, false, from, to)
    }
}
