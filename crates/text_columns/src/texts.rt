// Strings and binaries: where they end, and their bytes.
ghost use Rattle.std.specs.Prelude.{◌≡◌, ◌+◌, ◌++◌, true, length, IfOk, IfSome, OnOk};
ghost use Rattle.std.specs.Str.{is_utf8};
ghost use Rattle.byteorder.specs.Endian.{little_bytes};
ghost use Rattle.columns.specs.Offsets.{width_of};

use columns::{OffsetWidth, push_offset};
use std::alloc::AllocError;
use text_import::text_of;

/// Appends a string or a binary, and where it ends.
#[inline(always)]
pub(crate) fn extend(
    offsets: &mut Vec<u8>,
    contents: &mut Vec<u8>,
    width: OffsetWidth,
    bytes: &[u8],
) -> Result<(), AllocError>
    ensures more { OnOk result (contents.new.items ≡ contents.old.items ++ bytes.now) }
    ensures end { OnOk result (offsets.new.items
        ≡ offsets.old.items ++ little_bytes (width_of width) (length contents.old.items + length bytes.now)) }
{
    contents.extend_from_slice(bytes)?;
    push_offset(offsets, width, contents.len() as u64)
}

/// Appends a string and where it ends, and returns its weight; `None` if it is not UTF-8.
#[inline(always)]
pub(crate) fn push_contents(
    offsets: &mut Vec<u8>,
    contents: &mut Vec<u8>,
    width: OffsetWidth,
    text: &[u8],
) -> Result<Option<u64>, AllocError>
    ensures { IfOk result (λ taken. IfSome taken (λ weight. (weight ≡ 1 + length text.now) × (is_utf8 text.now ≡ true)
        × (contents.new.items ≡ contents.old.items ++ text.now)
        × (offsets.new.items ≡ offsets.old.items ++ little_bytes (width_of width) (length contents.old.items + length text.now)))) }
{
    if text_of(text).is_none() {
        return Ok(None);
    }
    extend(offsets, contents, width, text)?;
    Ok(Some(1 + text.len() as u64))
}

/// Appends a string that is known to be UTF-8 and where it ends, and returns its weight.
#[inline(always)]
pub(crate) fn push_utf8(
    offsets: &mut Vec<u8>,
    contents: &mut Vec<u8>,
    width: OffsetWidth,
    text: &[u8],
) -> Result<Option<u64>, AllocError>
    requires { is_utf8 text.now ≡ true }
    ensures { IfOk result (λ taken. IfSome taken (λ weight. (weight ≡ 1 + length text.now) × (is_utf8 text.now ≡ true)
        × (contents.new.items ≡ contents.old.items ++ text.now)
        × (offsets.new.items ≡ offsets.old.items ++ little_bytes (width_of width) (length contents.old.items + length text.now)))) }
{
    extend(offsets, contents, width, text)?;
    Ok(Some(1 + text.len() as u64))
}
