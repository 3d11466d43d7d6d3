// Reads lists of digests.
ghost use Rattle.std.specs.Prelude.{◌≡◌, List, ℕ, map, MatchOption, IfOk, IfErr, Some, None};
ghost use Rattle.facts.specs.Texts.{text_list};
ghost use Rattle.table_archive.specs.Digests.{StatesDigest, IsDigestLine, parts_of, ListsDigests, RefusesDigests};
ghost use Rattle.table_archive.specs.declared.digests.DigestsError.TheVariants.{OutOfMemory};

use hex::FromHex;
use std::alloc::{AllocError, AllocFailed, Global};
use thiserror::Error;

/// Why a list of digests is refused.
#[derive(Clone, Copy, Debug, PartialEq, Eq, Error)]
pub enum DigestsError {
    /// The number of the first line that states no digest, counted from 1.
    #[error("line {0} is no digest")]
    BadLine(u64),
    #[error("OutOfMemory")]
    OutOfMemory,
}

impl From<AllocError> for DigestsError {
    ghost from_gives = { λ _ e. e ≡ OutOfMemory };

    fn from(_: AllocError) -> DigestsError {
        DigestsError::OutOfMemory
    }
}

impl<T: Drop> From<AllocFailed<T>> for DigestsError {
    ghost from_gives = { λ _ e. e ≡ OutOfMemory };

    fn from(_: AllocFailed<T>) -> DigestsError {
        DigestsError::OutOfMemory
    }
}

// Returns the parts of a text before, between and after its line feeds.
fn parts_of(alloc: Global, text: &[u8]) -> Result<Vec<&[u8]>, AllocError>
    ensures { IfOk result (λ parts. text_list parts.items ≡ parts_of text.now) }
{
    text.split(|byte| *byte == b'\n').collect(alloc)
}

// Returns the digest that a line states.
fn digest_of(line: &[u8]) -> Option<[u8; 32]>
    ensures { MatchOption result (¬ IsDigestLine line.now) (λ digest. StatesDigest line.now digest) }
{
    <[u8; 32] as FromHex>::from_hex(line).ok()
}

/// Reads the digests that the lines of a text state: 64 hexadecimal digits each, of either case. The last line feed may lack.
///
/// # Errors
/// `BadLine` with the number of the first line that states none, counted from 1; `OutOfMemory`.
pub fn parse_digests(alloc: Global, text: &[u8]) -> Result<Vec<[u8; 32]>, DigestsError>
    ensures listed { IfOk result (λ digests. ListsDigests text.now digests.items) }
    ensures told { IfErr result (RefusesDigests text.now) }
{
    let parts = parts_of(alloc, text)?;
    let mut digests = Vec::new(alloc);
    for place in 0..parts.len() {
        let line = parts[place];
        match digest_of(line) {
            Some(digest) => digests.push(digest)?,
            None => {
                if line.is_empty() && place + 1 == parts.len() {
                    return Ok(digests);
                }
                return Err(DigestsError::BadLine(place as u64 + 1));
            }
        }
    }
    Ok(digests)
}
