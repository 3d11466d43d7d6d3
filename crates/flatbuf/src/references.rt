// Vectors of references to tables.

ghost use Rattle.std.specs.Prelude.{◌≡◌, ◌≤◌, ◌+◌, ◌*◌, length};
ghost use Rattle.flatbuf.specs.declared.limits.TheConstants.{MAX_BUFFER_BYTES};

use crate::limits::MAX_BUFFER_BYTES;
use crate::numbers::{target_of, vector_from};
use crate::{Budget, FlatError, Table};

/// A vector of references to tables that lies entirely within the bytes.
#[derive(Clone, Copy)]
pub struct References<'a> {
    bytes: &'a [u8],
    first: usize,
    count: usize,
    left: u8,
    ghost small: { length bytes.now ≤ MAX_BUFFER_BYTES },
    ghost within: { first + 4 * count ≤ length bytes.now },
}

impl<'a> References<'a> {
    ghost use Rattle.std.specs.Prelude.{ℕ, ◌<◌, ◌-◌, ◌^◌, [], IfOk, Some, slice_index};
    ghost use Rattle.flatbuf.specs.Lookup.{target, table_at, elements};
    ghost use Rattle.flatbuf.specs.Seen.{tables_in, bytes_of, place_of, levels_of, bytes_behind, places_in, levels_behind};
    ghost use Rattle.flatbuf.specs.Walk.{run, reported, vector_at};
    ghost use Rattle.flatbuf.specs.Walked.{Walks, child_things};

    /// Returns an empty vector.
    pub(crate) fn none(bytes: &'a [u8], left: u8) -> References<'a>
        requires small { length bytes.now ≤ MAX_BUFFER_BYTES }
        ensures same { bytes_behind result ≡ bytes.now }
        ensures places { places_in result ≡ [] }
        ensures levels { levels_behind result ≡ left }
    {
        References {
            bytes,
            first: 0,
            count: 0,
            left,
        }
    }

    /// Reads the vector that the reference at a position leads to.
    #[tactic(auto, unfolding(crate::specs::Lookup::elements))]
    pub(crate) fn from(bytes: &'a [u8], at: usize, left: u8) -> Result<References<'a>, FlatError>
        requires small { length bytes.now ≤ MAX_BUFFER_BYTES }
        ensures walked { (n : ℕ) → run bytes.now (vector_at 4 bytes.now (Some at)) n ≡ reported n result }
        ensures same { IfOk result (λ r. bytes_behind r ≡ bytes.now) }
        ensures places { IfOk result (λ r. places_in r ≡ elements bytes.now (Some at)) }
        ensures levels { IfOk result (λ r. levels_behind r ≡ left) }
    {
        let (first, count) = vector_from(bytes, at, 4)?;
        Ok(References {
            bytes,
            first,
            count,
            left,
        })
    }

    /// Returns the number of references.
    #[tactic(auto, using(crate::proofs::Elements::length_targets))]
    pub fn len(&self) -> usize
        ensures { result ≡ length (places_in self.now) }
    {
        self.count
    }

    /// Enters the table that reference `i` leads to.
    ///
    /// # Errors
    /// The first bad thing: `Bounds`, `VtableSize` or `Budget`. The count of `budget` is then unspecified.
    #[tactic(auto, using(crate::proofs::Elements::length_targets, crate::proofs::Elements::target_at))]
    pub fn table(&self, i: usize, budget: &mut Budget) -> Result<Table<'a>, FlatError>
        requires { i < length (places_in self.now) }
        ensures walked { Walks (bytes_behind self.now) (child_things self.now i) budget.old budget.new result }
        ensures same { IfOk result (λ t. bytes_of t ≡ bytes_behind self.now) }
        ensures here { IfOk result (λ t. place_of t ≡ table_at (bytes_behind self.now) (slice_index (places_in self.now) i)) }
        ensures levels { IfOk result (λ t. levels_of t ≡ levels_behind self.now - 1) }
        ensures lower { IfOk result (λ t. levels_of t < levels_behind self.now) }
    {
        let at = target_of(self.bytes, self.first + 4 * i);
        Table::enter(self.bytes, at, self.left, budget)
    }
}
