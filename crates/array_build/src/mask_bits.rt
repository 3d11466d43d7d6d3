// Appends bits of a mask to others.
ghost use Rattle.std.specs.Prelude.{◌≡◌, ◌≤◌, ◌+◌, ◌-◌, ◌*◌, ◌/◌, ◌++◌, OnOk, length, map};
ghost use Rattle.std.specs.List.{range_with_len};
ghost use Rattle.bitmap.specs.Bits.{bit};

use bitmap::{MaskBuilder, bits_at};
use std::alloc::AllocError;

/// Adds the bits of a mask from bit `from` up to bit `to`. Bits that don't begin with a byte are added as numbers of 56 bits, since the builder
/// would take them byte by byte.
pub(crate) fn push_mask_bits(
    bits: &mut MaskBuilder,
    mask: &[u8],
    from: usize,
    to: usize,
) -> Result<(), AllocError>
    requires within { to ≤ 8 * length mask.now }
    requires order { from ≤ to }
    ensures { OnOk result (bits.new ≡ bits.old ++ map (bit mask.now) (range_with_len from (to - from))) }
{
    if from % 8 == 0 {
        return bits.push_bits(mask, from, to);
    }
    let mut next = from;
    while next < to {
        let count = (to - next).min(56);
        bits.push_word(bits_at(mask, next, count), count)?;
        next += count;
    }
    Ok(())
}
