// Bytes, and the run that they are written into.
ghost use Rattle.std.specs.Prelude.{◌≡◌, ◌<◌, ◌^◌, length, true, is_some, IfSome};
ghost use Rattle.segments.specs.Pieces.{part_bytes, bytes_of_parts};

use crate::Run;

/// Some bytes of a piece, owned or borrowed.
#[derive(Drop)]
pub enum PiecePart<'a> {
    Made(Vec<u8>),
    Borrowed(&'a [u8]),
}

impl PiecePart<'_> {
    /// Returns the bytes.
    pub fn bytes(&self) -> &[u8]
        ensures { result.now ≡ part_bytes self.now }
    {
        match self {
            PiecePart::Made(bytes) => bytes,
            PiecePart::Borrowed(bytes) => bytes,
        }
    }
}

/// Bytes to be written into a run: those of its parts in order.
#[derive(Drop)]
pub struct Piece<'a> {
    pub run: Run,
    pub parts: Vec<PiecePart<'a>>,
}

/// Returns the number of bytes in these parts, or `None` if it does not fit in a `u64`.
pub fn byte_count(parts: &[PiecePart<'_>]) -> Option<u64>
    ensures some { IfSome result (λ count. count ≡ length (bytes_of_parts parts.now)) }
    ensures none { length (bytes_of_parts parts.now) < 2 ^ 64 → is_some result ≡ true }
{
    let mut count = 0u64;
    for part in parts {
        count = count.checked_add(part.bytes().len() as u64)?;
    }
    Some(count)
}
