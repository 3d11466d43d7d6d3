// Little-endian numbers, written over existing bytes.
ghost use Rattle.std.specs.Prelude.{◌≡◌, ◌≤◌, ◌+◌, ◌++◌, ◌*◌, drop, length, take};
ghost use Rattle.byteorder.specs.Endian.{little_bytes};
ghost use Rattle.columns.specs.Offsets.{width_of};

use byteorder::{ByteOrder, LittleEndian};
use columns::OffsetWidth;
use dictionary_codes::put_number;

/// Overwrites the offset at an index.
#[inline]
pub(crate) fn put_offset(offsets: &mut [u8], width: OffsetWidth, place: usize, offset: u64)
    requires { width_of width * place + width_of width ≤ length offsets.old }
    ensures { offsets.new ≡ take (width_of width * place) offsets.old
        ++ (little_bytes (width_of width) offset ++ drop (width_of width * place + width_of width) offsets.old) }
{
    match width {
        OffsetWidth::Four => put_number::<4>(offsets, 4 * place, offset),
        OffsetWidth::Eight => put_number::<8>(offsets, 8 * place, offset),
    }
}

/// Returns the last of some offsets, or 0 if there is none: it is the number of bytes to allocate.
pub(crate) fn last_offset(offsets: &[u8], width: OffsetWidth) -> usize {
    let len = offsets.len();
    match width {
        OffsetWidth::Four if len >= 4 => LittleEndian::read_u32(&offsets[len - 4..]) as usize,
        OffsetWidth::Eight if len >= 8 => LittleEndian::read_u64(&offsets[len - 8..]) as usize,
        _ => 0,
    }
}
