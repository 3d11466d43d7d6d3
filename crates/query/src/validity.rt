// Validity bitmaps.
ghost use Rattle.std.specs.Prelude.{◌≡◌, ◌*◌, ◌<◌, length};
ghost use Rattle.query.specs.inner.Slots.{is_valid_in};

/// Returns whether a slot is valid. Without a bitmap all are.
#[inline]
pub(crate) fn is_valid(validity: &[u8], slot: usize) -> bool
    requires { 0 < length validity.now → slot < 8 * length validity.now }
    ensures { result ≡ is_valid_in validity.now slot }
{
    validity.is_empty() || bitmap::get(validity, slot)
}
