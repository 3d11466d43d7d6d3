// The places of buffers.
ghost use Rattle.std.specs.Prelude.{◌≡◌};
ghost use Rattle.columns.specs.Places.{within};

/// The place of a buffer in some bytes: its start and its length.
#[derive(Clone, Copy, Debug)]
pub struct Span {
    pub start: usize,
    pub len: usize,
}

/// Returns the bytes of a buffer, cut off where `bytes` ends.
pub fn bytes_at(bytes: &[u8], span: Span) -> &[u8]
    ensures { result.now ≡ within bytes.now span }
{
    let rest = &bytes[span.start.min(bytes.len())..];
    &rest[..span.len.min(rest.len())]
}
