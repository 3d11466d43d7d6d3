// Finds texts that need no escape in a JSON string. Two loads that overlap cover a short text.
ghost use Rattle.std.specs.Prelude.{◌+◌, ◌≡◌, ◌≤◌, length};
ghost use Rattle.std.specs.Bool.{OnTrue};
ghost use Rattle.json.specs.Print.{escape};
ghost use Rattle.json.specs.Written.{PlainBetween};

use std::simd::prelude::*;

#[inline]
fn are_8_plain(text: &[u8], at: usize) -> bool
    requires { at + 8 ≤ length text.now }
    ensures { OnTrue result (PlainBetween text.now at (at + 8)) }
{
    let bytes = u8x8::from_slice(&text[at..]);
    (bytes.simd_eq(u8x8::splat(b'"'))
        | bytes.simd_eq(u8x8::splat(b'\\'))
        | bytes.simd_lt(u8x8::splat(32))).to_bitmask()
        == 0
}

#[inline]
fn are_16_plain(text: &[u8], at: usize) -> bool
    requires { at + 16 ≤ length text.now }
    ensures { OnTrue result (PlainBetween text.now at (at + 16)) }
{
    let bytes = u8x16::from_slice(&text[at..]);
    (bytes.simd_eq(u8x16::splat(b'"'))
        | bytes.simd_eq(u8x16::splat(b'\\'))
        | bytes.simd_lt(u8x16::splat(32))).to_bitmask()
        == 0
}

#[inline]
fn are_few_plain(text: &[u8]) -> bool
    ensures { OnTrue result (PlainBetween text.now 0 (length text.now)) }
{
    for &byte in text {
        if byte == b'"' || byte == b'\\' || byte < 32 {
            return false;
        }
    }
    true
}

fn are_many_plain(text: &[u8]) -> bool
    requires { 16 ≤ length text.now }
    ensures { OnTrue result (PlainBetween text.now 0 (length text.now)) }
{
    let mut at = 0;
    while text.len() - at > 16 {
        if !are_16_plain(text, at) {
            return false;
        }
        at += 16;
    }
    are_16_plain(text, text.len() - 16)
}

#[inline]
fn are_all_plain(text: &[u8]) -> bool
    ensures { OnTrue result (PlainBetween text.now 0 (length text.now)) }
{
    let size = text.len();
    if size < 8 {
        are_few_plain(text)
    } else if size < 16 {
        are_8_plain(text, 0) && are_8_plain(text, size - 8)
    } else {
        are_many_plain(text)
    }
}

/// Returns whether bytes are the same in a JSON string, without an escape (RFC 8259, section 7).
#[inline]
pub(crate) fn are_plain(text: &[u8]) -> bool
    ensures { OnTrue result (escape text.now ≡ text.now) }
{
    are_all_plain(text)
}
