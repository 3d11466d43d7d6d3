// Runs of equal bits.
ghost use Rattle.std.specs.Prelude.{◌≡◌, ◌≢◌, ℕ, ◌*◌, ◌+◌, ◌-◌, ◌<◌, ◌≤◌, ◌==◌, not, length, slice_index, if◌then◌else◌};
ghost use Rattle.std.specs.Int.{bit_at};
ghost use Rattle.bitmap.specs.Bits.{bit};

use crate::get;

/// Returns the end of the run of equal bits that begins at bit `from`, or `to` if the run is longer.
pub fn run_end(bytes: &[u8], from: usize, to: usize) -> usize
    requires within { to ≤ 8 * length bytes.now }
    requires some { from < to }
    ensures begins { from < result }
    ensures ends { result ≤ to }
    ensures alike { (i : ℕ) → from ≤ i → i < result → bit bytes.now i ≡ bit bytes.now from }
    ensures longest { result < to → bit bytes.now result ≡ not (bit bytes.now from) }
{
    alike_end(bytes, get(bytes, from), from, to)
}

/// Returns the index of the first bit from `from` on that differs from `set`, or `to` if there is none before it.
pub fn alike_end(bytes: &[u8], set: bool, from: usize, to: usize) -> usize
    requires within { to ≤ 8 * length bytes.now }
    requires order { from ≤ to }
    ensures begins { from ≤ result }
    ensures ends { result ≤ to }
    ensures alike { (i : ℕ) → from ≤ i → i < result → bit bytes.now i ≡ set }
    ensures longest { result < to → bit bytes.now result ≡ not set }
{
    if from == to {
        return to;
    }
    let left = 8 - from % 8;
    let first = alike_in_byte(bytes[from / 8], set, from % 8);
    if first < left || to - from <= left {
        return from + first.min(to - from);
    }
    let byte = alike_bytes(bytes, set, (from + left) / 8, to / 8);
    if 8 * byte == to {
        return to;
    }
    let last = alike_in_byte(bytes[byte], set, 0);
    8 * byte + last.min(to - 8 * byte)
}

// Returns a byte whose bits are set where those of `byte` differ from `set`.
fn differing(byte: u8, set: bool) -> u8
    ensures { (j : ℕ) → j < 8 → bit_at result j ≡ (if set then 1 - bit_at byte j else bit_at byte j) }
{
    if set { !byte } else { byte }
}

// Returns how many consecutive bits of a byte, from bit `from` on, are equal to `set`.
fn alike_in_byte(byte: u8, set: bool, from: usize) -> usize
    requires { from < 8 }
    ensures ends { from + result ≤ 8 }
    ensures alike { (j : ℕ) → j < result → bit_at byte (from + j) == 1 ≡ set }
    ensures longest { from + result < 8 → bit_at byte (from + result) == 1 ≡ not set }
{
    let rest = differing(byte, set) >> from;
    (rest.trailing_zeros() as usize).min(8 - from)
}

// Returns the index of the first byte with a bit that differs from `set`, or `to` if there is none before it.
fn alike_bytes(bytes: &[u8], set: bool, from: usize, to: usize) -> usize
    requires within { to ≤ length bytes.now }
    requires order { from ≤ to }
    ensures begins { from ≤ result }
    ensures ends { result ≤ to }
    ensures alike { (k : ℕ) → from ≤ k → k < result → slice_index bytes.now k ≡ (if set then 255 else 0) }
    ensures longest { result < to → slice_index bytes.now result ≢ (if set then 255 else 0) }
{
    let whole = if set { 255 } else { 0 };
    for k in from..to {
        if bytes[k] != whole {
            return k;
        }
    }
    to
}
