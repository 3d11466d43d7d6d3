// The nodes and buffers of a batch as the metadata has them, sixteen bytes each.
ghost use Rattle.std.specs.Prelude.{◌≡◌, ℕ, List, ◌+◌, ◌*◌, ◌/◌, ◌<◌, ◌≤◌, ◌^◌, length, drop, take};
ghost use Rattle.byteorder.specs.Endian.{little_number};
ghost use Rattle.ipc_message.specs.Raw.{nodes_in, buffers_in};
ghost use Rattle.columns.specs.Places.{within};
ghost use Rattle.arrays.specs.inner.Counted.{capped};

use byteorder::{ByteOrder, LittleEndian};
use columns::Span;

fn number_at(bytes: &[u8], at: usize) -> u64
    requires { at + 8 ≤ length bytes.now }
    ensures { result ≡ little_number 8 (drop at bytes.now) }
{
    LittleEndian::read_u64(&bytes[at..])
}

/// The two numbers of a node (length, null count) or of a buffer (offset, length).
pub(crate) fn pair_at(bytes: &[u8], i: usize) -> (u64, u64)
    requires { 16 * i + 16 ≤ length bytes.now }
    ensures first { result.0 ≡ little_number 8 (drop (16 * i) bytes.now) }
    ensures second { result.1 ≡ little_number 8 (drop (16 * i + 8) bytes.now) }
{
    (number_at(bytes, 16 * i), number_at(bytes, 16 * i + 8))
}

/// How many there are.
#[tactic(auto, using(crate::proofs::Raws::count_nodes, crate::proofs::Raws::count_buffers))]
pub(crate) fn count_of(bytes: &[u8]) -> usize
    ensures nodes { result ≡ length (nodes_in bytes.now) }
    ensures buffers { result ≡ length (buffers_in bytes.now) }
    ensures value { result ≡ length bytes.now / 16 }
    ensures few { result < 2 ^ 60 }
{
    bytes.len() / 16
}

/// Those after n.
#[tactic(auto, using(crate::proofs::Raws::nodes_left, crate::proofs::Raws::buffers_left, crate::proofs::Raws::no_nodes_left, crate::proofs::Raws::no_buffers_left))]
pub(crate) fn after(bytes: &[u8], count: usize) -> &[u8]
    ensures nodes { (n : ℕ) → count ≡ capped n → nodes_in result.now ≡ drop n (nodes_in bytes.now) }
    ensures buffers { (n : ℕ) → count ≡ capped n → buffers_in result.now ≡ drop n (buffers_in bytes.now) }
{
    let most = count_of(bytes);
    if count > most {
        return &[];
    }
    &bytes[16 * count..]
}

/// The place of a buffer in the bytes that hold a body. What would be past the end of the body is left out.
#[tactic(auto, using(crate::proofs::Raws::buffer_within))]
pub(crate) fn span_in(body: Span, offset: u64, len: u64) -> Span
    requires { body.start + body.len < 2 ^ 64 }
    ensures bytes { (bytes : List ℕ) → within bytes result ≡ take len (drop offset (within bytes body)) }
    ensures ends { result.start + result.len ≤ body.start + body.len }
{
    let skipped = body.len.min(offset as usize);
    let left = body.len - skipped;
    Span {
        start: body.start + skipped,
        len: left.min(len as usize),
    }
}
