// Little-endian numbers, written over earlier bytes.
ghost use Rattle.std.specs.Prelude.{◌≡◌, ◌≤◌, ◌+◌, ◌++◌, drop, length, take};
ghost use Rattle.byteorder.specs.Endian.{little_bytes};

/// Overwrites `SIZE` bytes from `at` on with the low bytes of a number, the lowest first.
#[inline]
pub fn put_number<const SIZE: usize>(bytes: &mut [u8], at: usize, number: u64)
    requires size { SIZE ≤ 8 }
    requires room { at + SIZE ≤ length bytes.old }
    ensures { bytes.new ≡ take at bytes.old ++ (little_bytes SIZE number ++ drop (at + SIZE) bytes.old) }
{
    bytes[at..at + SIZE].copy_from_slice(&number.to_le_bytes()[..SIZE]);
}
