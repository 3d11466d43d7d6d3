// Buffers that are made, but that the input has with the same bytes: as in a stream that was written by these crates. Then the input's bytes stay where
// they are, so that no other memory holds them until the stream is written.
ghost use Rattle.std.specs.Prelude.{◌≡◌};
ghost use Rattle.batch_build.specs.Batch.{built_bytes};

use crate::run_slots::only_run;
use batch_build::{Buffer, BuiltBuffer};
use columns::SlotRun;

// Returns `size` bytes of a buffer from the place of a value on, if it has them.
fn bytes_from(bytes: &[u8], place: usize, width: usize, size: usize) -> Option<&[u8]> {
    let start = place.saturating_mul(width);
    bytes.get(start..start.saturating_add(size))
}

/// Returns `size` bytes of the indices of the only run, if it has them.
pub(crate) fn own_indices<'a>(runs: &[SlotRun<'a>], width: usize, size: usize) -> Option<&'a [u8]> {
    match only_run(runs) {
        Some(SlotRun::Slots { array, from, .. }) => bytes_from(array.indices(), from, width, size),
        _ => None,
    }
}

/// Returns `size` bytes of the offsets of the only run, if it has them.
pub(crate) fn own_offsets<'a>(runs: &[SlotRun<'a>], width: usize, size: usize) -> Option<&'a [u8]> {
    match only_run(runs) {
        Some(SlotRun::Slots { array, from, .. }) => bytes_from(array.offsets(), from, width, size),
        _ => None,
    }
}

/// Returns the bytes that were made, as those of the input if these are equal.
pub(crate) fn kept_buffer<'a>(own: Option<&'a [u8]>, made: Vec<u8>) -> BuiltBuffer<'a>
    ensures { built_bytes result ≡ made.items }
{
    match own {
        Some(own) if own == made.as_slice() => BuiltBuffer::Whole(Buffer::Borrowed(own)),
        _ => BuiltBuffer::Whole(Buffer::Made(made)),
    }
}
