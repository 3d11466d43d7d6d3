// Finds the next row that a mask selects.
ghost use Rattle.std.specs.Prelude.{◌≡◌, ◌≤◌, ◌<◌, ◌*◌, ℕ, length, true, false};
ghost use Rattle.bitmap.specs.Bits.{bit};

/// Returns the first row from `from` on whose bit is set, or `end` if there is none.
pub fn next_set(mask: &[u8], from: usize, end: usize) -> usize
    requires within { end ≤ 8 * length mask.now }
    requires order { from ≤ end }
    ensures begins { from ≤ result }
    ensures ends { result ≤ end }
    ensures unset { (i : ℕ) → from ≤ i → i < result → bit mask.now i ≡ false }
    ensures set { result < end → bit mask.now result ≡ true }
{
    if from == end || bitmap::get(mask, from) {
        return from;
    }
    bitmap::run_end(mask, from, end)
}
