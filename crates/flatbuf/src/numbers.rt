// Reads numbers and vectors at positions that a malicious buffer may have chosen.

ghost use Rattle.std.specs.Prelude.{◌≡◌, ◌≤◌, ◌<◌, ◌+◌, ◌*◌, ◌^◌, length, IfOk, OnOk, Some, ℕ, [], ◌∷◌};
ghost use Rattle.flatbuf.specs.Lookup.{number, back, target, vector_of};
ghost use Rattle.flatbuf.specs.Walk.{run, reported, span, vector_at};

use crate::FlatError;
use byteorder::{ByteOrder, LittleEndian};

/// Reads the byte at a position.
#[tactic(auto, unfolding(crate::specs::Walk::run, crate::specs::Lookup::number))]
pub(crate) fn u8_at(bytes: &[u8], at: usize) -> Result<u8, FlatError>
    ensures walked { (n : ℕ) → run bytes.now (span at 1 ∷ []) n ≡ reported n result }
    ensures value { IfOk result (λ x. x ≡ number 1 bytes.now at) }
{
    bytes.get(at).copied().ok_or(FlatError::Bounds)
}

/// Reads the 16-bit number at a position.
#[tactic(auto, unfolding(crate::specs::Walk::run, crate::specs::Lookup::number))]
pub(crate) fn u16_at(bytes: &[u8], at: usize) -> Result<u16, FlatError>
    ensures walked { (n : ℕ) → run bytes.now (span at 2 ∷ []) n ≡ reported n result }
    ensures value { IfOk result (λ x. x ≡ number 2 bytes.now at) }
{
    if bytes.len() < 2 || at > bytes.len() - 2 {
        return Err(FlatError::Bounds);
    }
    Ok(LittleEndian::read_u16(&bytes[at..]))
}

/// Reads the 32-bit number at a position.
#[tactic(auto, unfolding(crate::specs::Walk::run, crate::specs::Lookup::number))]
pub(crate) fn u32_at(bytes: &[u8], at: usize) -> Result<u32, FlatError>
    ensures walked { (n : ℕ) → run bytes.now (span at 4 ∷ []) n ≡ reported n result }
    ensures value { IfOk result (λ x. x ≡ number 4 bytes.now at) }
    ensures within { OnOk result (at + 4 ≤ length bytes.now) }
{
    if bytes.len() < 4 || at > bytes.len() - 4 {
        return Err(FlatError::Bounds);
    }
    Ok(LittleEndian::read_u32(&bytes[at..]))
}

/// Reads the 64-bit number at a position.
#[tactic(auto, unfolding(crate::specs::Walk::run, crate::specs::Lookup::number))]
pub(crate) fn u64_at(bytes: &[u8], at: usize) -> Result<u64, FlatError>
    ensures walked { (n : ℕ) → run bytes.now (span at 8 ∷ []) n ≡ reported n result }
    ensures value { IfOk result (λ x. x ≡ number 8 bytes.now at) }
{
    if bytes.len() < 8 || at > bytes.len() - 8 {
        return Err(FlatError::Bounds);
    }
    Ok(LittleEndian::read_u64(&bytes[at..]))
}

/// Returns where the first element of the vector is that the reference at a position leads to, and how many elements of `width` bytes it has.
#[tactic(auto, using(crate::proofs::FirstThing::first_err, crate::proofs::FirstThing::first_ok), unfolding(crate::specs::Walk::run, crate::specs::Lookup::target))]
pub(crate) fn vector_from(bytes: &[u8], at: usize, width: u8) -> Result<(usize, usize), FlatError>
    requires small { length bytes.now < 2 ^ 32 }
    ensures walked { (n : ℕ) → run bytes.now (vector_at width bytes.now (Some at)) n ≡ reported n result }
    ensures value { IfOk result (λ x. (x.0, x.1) ≡ vector_of bytes.now (Some at)) }
    ensures within { IfOk result (λ x. x.0 + width * x.1 ≤ length bytes.now) }
{
    let distance = u32_at(bytes, at)?;
    let start = at + distance as usize;
    let count = u32_at(bytes, start)? as usize;
    let len = width as usize * count;
    if len > bytes.len() || start + 4 > bytes.len() - len {
        return Err(FlatError::Bounds);
    }
    Ok((start + 4, count))
}

/// Returns the position `distance` before `at`, where the distance is a signed 32-bit number.
pub(crate) fn position_before(distance: u32, at: usize) -> Option<usize>
    requires { at < 2 ^ 32 }
    ensures { result ≡ back distance at }
{
    let distance = distance as usize;
    if distance < 1 << 31 {
        if distance <= at {
            Some(at - distance)
        } else {
            None
        }
    } else {
        Some(at + ((1 << 32) - distance))
    }
}

/// Returns where the reference at a position leads to.
#[tactic(auto, unfolding(crate::specs::Lookup::target, crate::specs::Lookup::number))]
pub(crate) fn target_of(bytes: &[u8], at: usize) -> usize
    requires small { length bytes.now < 2 ^ 32 }
    requires within { at + 4 ≤ length bytes.now }
    ensures value { result ≡ target bytes.now at }
    ensures near { result < 2 ^ 40 }
{
    at + LittleEndian::read_u32(&bytes[at..]) as usize
}
