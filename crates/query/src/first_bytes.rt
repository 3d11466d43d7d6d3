// The bytes of a string or a binary.
ghost use Rattle.std.specs.Prelude.{◌≡◌, ◌+◌, ◌*◌, ◌/◌, ◌≤◌, length, take};
ghost use Rattle.arrow_schema.specs.View.{bits_of};
ghost use Rattle.query.specs.inner.Contents.{span_in};

use crate::integer_slots::unsigned_at;
use arrow_schema::BitWidth;

/// Bytes of which the first `size` are meant.
#[derive(Clone, Copy)]
pub(crate) struct FirstBytes<'a> {
    pub(crate) bytes: &'a [u8],
    pub(crate) size: usize,
}

/// Returns the bytes of a slot by these offsets, followed by those after them.
#[inline]
pub(crate) fn first_bytes<'a>(
    width: BitWidth,
    offsets: &[u8],
    contents: &'a [u8],
    slot: usize,
) -> FirstBytes<'a>
    requires { (slot + 2) * (bits_of width / 8) ≤ length offsets.now }
    ensures within { result.size ≤ length result.bytes.now }
    ensures bytes { take result.size result.bytes.now ≡ span_in (bits_of width / 8) offsets.now contents.now slot }
{
    let start = unsigned_at(width, offsets, slot) as usize;
    let end = unsigned_at(width, offsets, slot + 1) as usize;
    let bytes = &contents[start.min(contents.len())..];
    FirstBytes {
        bytes,
        size: end.saturating_sub(start).min(bytes.len()),
    }
}
