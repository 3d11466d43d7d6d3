// What is left of a batch to be given to columns.
ghost use Rattle.std.specs.Prelude.{◌≡◌, ◌≤◌, true, ℕ, ◌+◌, ◌<◌, ◌^◌, drop};
ghost use Rattle.arrays.specs.inner.Counted.{capped};

use crate::counts::Counts;
use crate::raw::{after, count_of, pair_at, span_in};
use columns::{Dictionary, DictionaryPart, Span};

/// The nodes, buffers and dictionaries that are left, and the bytes that the body is in.
#[derive(Clone, Copy)]
pub(crate) struct Rest<'a> {
    pub(crate) nodes: &'a [u8],
    pub(crate) buffers: &'a [u8],
    pub(crate) parts: &'a [DictionaryPart],
    pub(crate) body: Span,
    pub(crate) bytes: &'a [u8],
    pub(crate) dictionaries: &'a [Dictionary],
    ghost fits: { body.start + body.len < 2 ^ 64 },
}

fn parts_after(parts: &[DictionaryPart], count: usize) -> &[DictionaryPart]
    ensures { (n : ℕ) → count ≡ capped n → result.now ≡ drop n parts.now }
{
    &parts[count.min(parts.len())..]
}

impl<'a> Rest<'a> {
    ghost use Rattle.columns.specs.FromBuffers.{first_slots, buffer_at};
    ghost use Rattle.columns.specs.Places.{within};
    ghost use Rattle.arrays.specs.inner.Rest.{rest_nodes, rest_buffers, IsFirstPart, IsInBody, PartEnds, IsLeft};

    /// The slots of the first node.
    #[tactic(auto, using(crate::proofs::Firsts::no_first, crate::proofs::Firsts::first_is))]
    pub(crate) fn slots(self) -> usize
        ensures { result ≡ first_slots (rest_nodes self.entry) }
    {
        if count_of(self.nodes) == 0 {
            return 0;
        }
        pair_at(self.nodes, 0).0 as usize
    }

    /// Where a buffer is; an empty one where there is none.
    #[tactic(auto, using(crate::proofs::Firsts::no_buffer, crate::proofs::Firsts::buffer_is))]
    pub(crate) fn buffer(self, k: usize) -> Span
        ensures bytes { within self.entry.bytes.now result ≡ buffer_at (rest_buffers self.entry) k }
        ensures ends { IsInBody self.entry result }
    {
        if k >= count_of(self.buffers) {
            return Span { start: 0, len: 0 };
        }
        let (offset, len) = pair_at(self.buffers, k);
        span_in(self.body, offset, len)
    }

    /// The first dictionary; one without arrays where there is none.
    pub(crate) fn part(self) -> DictionaryPart
        ensures first { IsFirstPart self.entry result }
        ensures ends { PartEnds self.entry result }
    {
        match self.parts.first() {
            Some(part) => *part,
            None => DictionaryPart {
                number: 0,
                count: 0,
            },
        }
    }

    /// What is left below an array with n buffers of its own.
    pub(crate) fn below(self, buffers: usize) -> Rest<'a>
        ensures { IsLeft self.entry result 1 buffers 0 }
    {
        Rest {
            nodes: after(self.nodes, 1),
            buffers: after(self.buffers, buffers),
            parts: self.parts,
            body: self.body,
            bytes: self.bytes,
            dictionaries: self.dictionaries,
        }
    }

    /// What is left after a column that takes so much.
    pub(crate) fn after(self, counts: Counts) -> Rest<'a>
        ensures { (n b d : ℕ) → counts.nodes ≡ capped n → counts.buffers ≡ capped b → counts.dictionaries ≡ capped d
            → IsLeft self.entry result n b d }
    {
        Rest {
            nodes: after(self.nodes, counts.nodes),
            buffers: after(self.buffers, counts.buffers),
            parts: parts_after(self.parts, counts.dictionaries),
            body: self.body,
            bytes: self.bytes,
            dictionaries: self.dictionaries,
        }
    }
}
