// The bytes that are read, and the budget of tables.

ghost use Rattle.std.specs.Prelude.{◌≡◌, ◌≤◌, length, IfOk};
ghost use Rattle.flatbuf.specs.declared.limits.TheConstants.{MAX_BUFFER_BYTES, MAX_BUFFER_TABLES};

use crate::limits::{MAX_BUFFER_BYTES, MAX_BUFFER_TABLES, MAX_LEVELS};
use crate::numbers::u32_at;
use crate::{FlatError, Table};

/// The bytes of a FlatBuffers buffer, which may be malformed.
#[derive(Clone, Copy)]
pub struct Buf<'a> {
    bytes: &'a [u8],
    ghost small: { length bytes.now ≤ MAX_BUFFER_BYTES },
}

/// The number of tables that were entered.
#[derive(Clone, Copy)]
pub struct Budget {
    entered: u32,
    ghost within: { entered ≤ MAX_BUFFER_TABLES },
}

impl Budget {
    ghost use Rattle.std.specs.Prelude.{◌≡◌, ◌+◌, OnOk};
    ghost use Rattle.flatbuf.specs.Seen.{tables_in};
    ghost use Rattle.flatbuf.specs.Walk.{reported};
    ghost use Rattle.flatbuf.specs.Walked.{one_more};

    /// Returns a budget with no tables entered.
    pub fn new() -> Budget
        ensures { tables_in result ≡ 0 }
    {
        Budget { entered: 0 }
    }

    /// Counts one more table.
    pub(crate) fn enter(&mut self) -> Result<(), FlatError>
        ensures walked { reported (tables_in self.new) result ≡ one_more (tables_in self.old) }
        ensures counted { OnOk result (tables_in self.new ≡ tables_in self.old + 1) }
    {
        if self.entered >= MAX_BUFFER_TABLES {
            return Err(FlatError::Budget);
        }
        self.entered += 1;
        Ok(())
    }
}

impl<'a> Buf<'a> {
    ghost use Rattle.std.specs.Prelude.{◌+◌, ◌-◌, OnOk};
    ghost use Rattle.flatbuf.specs.Lookup.{target, table_at};
    ghost use Rattle.flatbuf.specs.Seen.{buffer_bytes, tables_in, bytes_of, place_of, levels_of};
    ghost use Rattle.flatbuf.specs.Walk.{root_things};
    ghost use Rattle.flatbuf.specs.Walked.{Walks};

    /// Wraps these bytes, of which there are at most `MAX_BUFFER_BYTES`.
    pub fn new(bytes: &'a [u8]) -> Buf<'a>
        requires { length bytes.now ≤ MAX_BUFFER_BYTES }
        ensures { buffer_bytes result ≡ bytes.now }
    {
        Buf { bytes }
    }

    /// Enters the root table, whose position is in the first four bytes.
    ///
    /// # Errors
    /// The first bad thing: `Bounds`, `VtableSize` or `Budget`. The count of `budget` is then unspecified.
    #[tactic(auto, using(crate::specs::laws::Walk::run_append), unfolding(crate::specs::Walk::run, crate::specs::Walk::root_things, crate::specs::Lookup::target))]
    pub fn root(&self, budget: &mut Budget) -> Result<Table<'a>, FlatError>
        ensures walked { Walks (buffer_bytes self.now) (root_things (buffer_bytes self.now)) budget.old budget.new result }
        ensures counted { OnOk result (tables_in budget.new ≡ tables_in budget.old + 1) }
        ensures same { IfOk result (λ t. bytes_of t ≡ buffer_bytes self.now) }
        ensures here { IfOk result (λ t. place_of t ≡ table_at (buffer_bytes self.now) (target (buffer_bytes self.now) 0)) }
        ensures levels { IfOk result (λ t. levels_of t ≡ MAX_LEVELS - 1) }
    {
        let at = u32_at(self.bytes, 0)? as usize;
        Table::enter(self.bytes, at, MAX_LEVELS, budget)
    }
}
