// Bytes that hexadecimal digits spell.
ghost use Rattle.std.specs.Prelude.{◌≡◌, ◌+◌, ◌++◌, length, IfOk, IfSome, Ok};
ghost use Rattle.hex.specs.Hex.{decode_of};
ghost use Rattle.text_columns.specs.inner.Kept.{AppendsBytes, AppendsDigits, AppendsFixed};

use columns::{OffsetWidth, push_offset};
use std::alloc::AllocError;

// Appends the bytes that digits of either case spell, two for each byte, and returns how many; `None` if these are not digits in pairs.
fn push_digits(contents: &mut Vec<u8>, digits: &[u8]) -> Result<Option<usize>, AllocError>
    ensures { IfOk result (λ taken. IfSome taken (λ count. AppendsDigits digits.now count contents.old.items contents.new.items)) }
{
    let start = contents.len();
    let count = digits.len() / 2;
    let Some(end) = start.checked_add(count) else {
        return Err(AllocError);
    };
    contents.resize(end, 0)?;
    match hex::decode_to_slice(digits, &mut contents[start..]) {
        Ok(()) => Ok(Some(count)),
        Err(_) => Ok(None),
    }
}

/// Appends the bytes that digits spell and where they end, and returns their weight; `None` if these are not digits in pairs.
pub(crate) fn push_bytes(
    offsets: &mut Vec<u8>,
    contents: &mut Vec<u8>,
    width: OffsetWidth,
    digits: &[u8],
) -> Result<Option<u64>, AllocError>
    ensures { IfOk result (λ taken. IfSome taken (λ weight.
        AppendsBytes width digits.now weight offsets.old.items contents.old.items offsets.new.items contents.new.items)) }
{
    let Some(count) = push_digits(contents, digits)? else {
        return Ok(None);
    };
    push_offset(offsets, width, contents.len() as u64)?;
    Ok(Some(1 + count as u64))
}

/// Appends the `width` bytes that digits spell, and returns their weight; `None` if these are not so many digits in pairs.
pub(crate) fn push_fixed(
    values: &mut Vec<u8>,
    width: u32,
    digits: &[u8],
) -> Result<Option<u64>, AllocError>
    ensures { IfOk result (λ taken. IfSome taken (λ weight. AppendsFixed width digits.now weight values.old.items values.new.items)) }
{
    match push_digits(values, digits)? {
        Some(count) => if count as u64 == width as u64 {
            Ok(Some(1 + width as u64))
        } else {
            Ok(None)
        },
        None => Ok(None),
    }
}
