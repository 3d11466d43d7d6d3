//! SHA-256 (FIPS 180-4) of four messages at once, one in each lane of a vector.
//!
//! The definition is that of the crate `sha2`, which digests one message at a time. Four messages of about one length take
//! half the time here.
//!
//! ```
//! let [first, second, third, fourth] = four_digests(b"a", b"bc", b"", b"d");
//! let all = digests_of(alloc, &[b"a", b"bc"])?;
//! ```
#![tactic(auto)]

ghost use Rattle.std.specs.Prelude.{◌≡◌, ◌^◌, ◌<◌, ◌++◌, true, [], ◌∷◌, length, map, IfOk, OnOk};
ghost use Rattle.sha2.specs.Sha256.{sha256};

mod block;
mod constants;
mod lanes;
mod padding;

use lanes::digests_at_once;
use sha2::{Digest, Sha256};
use std::alloc::{AllocError, Global};

// The longest message that is digested beside others.
const LONGEST: usize = 1 << 32;

// Returns whether four messages of these lengths are digested faster at once: a lane whose message has ended works for
// nothing.
fn is_faster_at_once(first: usize, second: usize, third: usize, fourth: usize) -> bool
    ensures first { result ≡ true → first < 2 ^ 60 }
    ensures second { result ≡ true → second < 2 ^ 60 }
    ensures third { result ≡ true → third < 2 ^ 60 }
    ensures fourth { result ≡ true → fourth < 2 ^ 60 }
{
    if first > LONGEST || second > LONGEST || third > LONGEST || fourth > LONGEST {
        return false;
    }
    let longest = first.max(second).max(third.max(fourth));
    2 * longest <= first + second + third + fourth
}

/// Returns the SHA-256 of each of four messages: at once, or one after another if one of them is longer than the others
/// together.
pub fn four_digests(first: &[u8], second: &[u8], third: &[u8], fourth: &[u8]) -> [[u8; 32]; 4]
    ensures { result ≡ sha256 first.now ∷ sha256 second.now ∷ sha256 third.now ∷ sha256 fourth.now ∷ [] }
{
    if is_faster_at_once(first.len(), second.len(), third.len(), fourth.len()) {
        return digests_at_once(first, second, third, fourth);
    }
    let one = Sha256::digest(first);
    let two = Sha256::digest(second);
    let three = Sha256::digest(third);
    let four = Sha256::digest(fourth);
    [one, two, three, four]
}

// Appends the digests of four messages.
fn push_four(digests: &mut Vec<[u8; 32]>, messages: &[&[u8]]) -> Result<(), AllocError>
    requires { length messages.now ≡ 4 }
    ensures { OnOk result (digests.new.items ≡ digests.old.items ++ map (λ m. sha256 m.now) messages.now) }
{
    let four = four_digests(messages[0], messages[1], messages[2], messages[3]);
    digests.extend_from_slice(&four)
}

/// Returns the SHA-256 of each of these messages, of four at once as far as there are four.
///
/// # Errors
/// `AllocError` if memory is refused.
pub fn digests_of(alloc: Global, messages: &[&[u8]]) -> Result<Vec<[u8; 32]>, AllocError>
    ensures { IfOk result (λ digests. digests.items ≡ map (λ m. sha256 m.now) messages.now) }
{
    let mut digests = Vec::with_capacity(alloc, messages.len())?;
    for group in 0..messages.len() / 4 {
        let place = 4 * group;
        push_four(&mut digests, &messages[place..place + 4])?;
    }
    for place in digests.len()..messages.len() {
        digests.push(Sha256::digest(messages[place]))?;
    }
    Ok(digests)
}
