// Digests of new segments, of four at a time.
ghost use Rattle.std.specs.Prelude.{◌≡◌, ◌*◌, ◌/◌, map, take, length, IfOk, Some};
ghost use Rattle.std.specs.Global.{Vec};
ghost use Rattle.sha2.specs.Sha256.{sha256};
ghost use Rattle.segments.specs.declared.piece.PiecePart.{PiecePart};
ghost use Rattle.segments.specs.Pieces.{bytes_of_parts};
ghost use Rattle.store_runs.specs.Changes.{digest_for};

use commit::FormatVersion;
use segments::{PiecePart, byte_count};
use sha2::{Digest, Sha256};
use sha256_lanes::four_digests;
use std::alloc::{AllocError, Global};

// The most bytes that are copied to digest four streams at once.
const MOST_GATHERED: u64 = 4 << 20;

// Returns the SHA-256 of parts one after another.
fn digest_of_parts(parts: &[PiecePart<'_>]) -> [u8; 32]
    ensures { result ≡ sha256 (bytes_of_parts parts.now) }
{
    let mut hasher = Sha256::new();
    for part in parts {
        hasher.update(part.bytes());
    }
    hasher.finalize()
}

// Returns the bytes of parts one after another.
fn gathered(alloc: Global, parts: &[PiecePart<'_>]) -> Result<Vec<u8>, AllocError>
    ensures { IfOk result (λ bytes. bytes.items ≡ bytes_of_parts parts.now) }
{
    let count = byte_count(parts).ok_or(AllocError)?;
    let mut bytes = Vec::with_capacity(alloc, count as usize)?;
    for part in parts {
        bytes.extend_from_slice(part.bytes())?;
    }
    Ok(bytes)
}

// Returns whether streams together are so short that they are copied.
fn are_short(streams: &[Vec<PiecePart<'_>>]) -> bool {
    let mut count = 0u64;
    for parts in streams {
        count = count.saturating_add(byte_count(parts).unwrap_or(u64::MAX));
    }
    count <= MOST_GATHERED
}

// Returns the digests of four streams.
fn digests_of_four(
    alloc: Global,
    streams: &[Vec<PiecePart<'_>>],
) -> Result<[[u8; 32]; 4], AllocError>
    requires { length streams.now ≡ 4 }
    ensures { IfOk result (λ four. four ≡ map (λ (parts : Vec PiecePart). sha256 (bytes_of_parts parts.items)) streams.now) }
{
    if !are_short(streams) {
        return Ok([
            digest_of_parts(&streams[0]),
            digest_of_parts(&streams[1]),
            digest_of_parts(&streams[2]),
            digest_of_parts(&streams[3]),
        ]);
    }
    let first = gathered(alloc, &streams[0])?;
    let second = gathered(alloc, &streams[1])?;
    let third = gathered(alloc, &streams[2])?;
    let fourth = gathered(alloc, &streams[3])?;
    Ok(four_digests(&first, &second, &third, &fourth))
}

// Returns the digests of all streams but the last ones that are fewer than four.
fn digests_by_fours(
    alloc: Global,
    streams: &[Vec<PiecePart<'_>>],
) -> Result<Vec<Option<[u8; 32]>>, AllocError>
    ensures { IfOk result (λ digests. digests.items
        ≡ map (λ (parts : Vec PiecePart). Some (sha256 (bytes_of_parts parts.items))) (take (4 * (length streams.now / 4)) streams.now)) }
{
    let mut digests = Vec::with_capacity(alloc, streams.len())?;
    for group in 0..streams.len() / 4 {
        let place = 4 * group;
        let [first, second, third, fourth] = digests_of_four(alloc, &streams[place..place + 4])?;
        digests.extend_from_slice(&[Some(first), Some(second), Some(third), Some(fourth)])?;
    }
    Ok(digests)
}

// Returns the digests of streams.
fn digests_of(
    alloc: Global,
    streams: &[Vec<PiecePart<'_>>],
) -> Result<Vec<Option<[u8; 32]>>, AllocError>
    ensures { IfOk result (λ digests. digests.items
        ≡ map (λ (parts : Vec PiecePart). Some (sha256 (bytes_of_parts parts.items))) streams.now) }
{
    let mut digests = digests_by_fours(alloc, streams)?;
    for place in digests.len()..streams.len() {
        digests.push(Some(digest_of_parts(&streams[place])))?;
    }
    Ok(digests)
}

/// Returns the digest of the segment of each stream, if the version has digests.
pub(crate) fn digests_for(
    alloc: Global,
    version: FormatVersion,
    streams: &[Vec<PiecePart<'_>>],
) -> Result<Vec<Option<[u8; 32]>>, AllocError>
    ensures { IfOk result (λ digests. digests.items
        ≡ map (λ (parts : Vec PiecePart). digest_for version (bytes_of_parts parts.items)) streams.now) }
{
    match version {
        FormatVersion::One => Vec::from_elem(alloc, None, streams.len()),
        FormatVersion::Two => digests_of(alloc, streams),
    }
}
