// Tables and the content of their slots.

ghost use Rattle.std.specs.Prelude.{◌≡◌, ◌≤◌, ◌<◌, ◌+◌, ◌^◌, length};
ghost use Rattle.flatbuf.specs.declared.limits.TheConstants.{MAX_BUFFER_BYTES};

use crate::limits::MAX_BUFFER_BYTES;
use crate::numbers::{position_before, u8_at, u16_at, u32_at, u64_at, vector_from};
use crate::{Budget, FlatError, References};
use byteorder::{ByteOrder, LittleEndian};

/// A table whose vtable lies within the bytes.
#[derive(Clone, Copy)]
pub struct Table<'a> {
    bytes: &'a [u8],
    at: usize,
    vtable: usize,
    size: usize,
    left: u8,
    ghost small: { length bytes.now ≤ MAX_BUFFER_BYTES },
    ghost at_in: { at + 4 ≤ length bytes.now },
    ghost vtable_in: { vtable + size ≤ length bytes.now },
    ghost size_is: { size < 2 ^ 16 },
}

/// The content of the two slots of a union: its kind, 0 for none, and the table that its reference leads to.
#[derive(Clone, Copy)]
pub struct Union<'a> {
    pub kind: u8,
    pub table: Option<Table<'a>>,
}

impl<'a> Table<'a> {
    ghost use Rattle.std.specs.Prelude.{ℕ, ◌*◌, ◌-◌, IfOk, OnOk, IfSome, Some, option_map, is_some};
    ghost use Rattle.flatbuf.specs.Lookup.{slot, target, table_at, table_behind, union_behind, text_of, structs_of, elements, scalar_of, is_set};
    ghost use Rattle.flatbuf.specs.Seen.{tables_in, bytes_of, place_of, levels_of, slot_of, bytes_behind, places_in, levels_behind};
    ghost use Rattle.flatbuf.specs.Walked.{Walks, slot_things};
    ghost use Rattle.flatbuf.specs.Walk.{run, reported, table_things, union_things, spans, vector_at};

    /// Enters the table at a position, with `left` levels left.
    #[tactic(auto, unfolding(crate::specs::Walk::run, crate::specs::Walk::table_things, crate::specs::Walk::head_things))]
    pub(crate) fn enter(
        bytes: &'a [u8],
        at: usize,
        left: u8,
        budget: &mut Budget,
    ) -> Result<Table<'a>, FlatError>
        requires small { length bytes.now ≤ MAX_BUFFER_BYTES }
        requires near { at < 2 ^ 40 }
        ensures walked { Walks bytes.now (table_things left bytes.now at) budget.old budget.new result }
        ensures counted { OnOk result (tables_in budget.new ≡ tables_in budget.old + 1) }
        ensures same { IfOk result (λ t. bytes_of t ≡ bytes.now) }
        ensures here { IfOk result (λ t. place_of t ≡ table_at bytes.now at) }
        ensures levels { IfOk result (λ t. levels_of t ≡ left - 1) }
        ensures lower { IfOk result (λ t. levels_of t < left) }
    {
        if left == 0 {
            return Err(FlatError::Budget);
        }
        budget.enter()?;
        let distance = u32_at(bytes, at)?;
        let vtable = position_before(distance, at).ok_or(FlatError::Bounds)?;
        let size = u16_at(bytes, vtable)?;
        if size < 4 || size % 2 != 0 {
            return Err(FlatError::VtableSize);
        }
        let size = size as usize;
        if size > bytes.len() || vtable > bytes.len() - size {
            return Err(FlatError::Bounds);
        }
        Ok(Table {
            bytes,
            at,
            vtable,
            size,
            left: left - 1,
        })
    }

    /// Returns where the content of slot `k` is, or `None` if the slot is absent.
    #[tactic(auto, unfolding(crate::specs::Lookup::number))]
    fn slot(&self, k: u16) -> Option<usize>
        ensures value { result ≡ slot_of self.now k }
        ensures near { IfSome result (λ p. p < 2 ^ 32) }
    {
        let k = k as usize;
        if 2 * k + 6 > self.size {
            return None;
        }
        let distance = LittleEndian::read_u16(&self.bytes[self.vtable + 2 * k + 4..]);
        if distance == 0 {
            None
        } else {
            Some(self.at + distance as usize)
        }
    }

    /// Returns whether slot `k` is present. Its content is not tested.
    pub fn has(&self, k: u16) -> bool
        ensures { result ≡ is_some (slot_of self.now k) }
    {
        self.slot(k).is_some()
    }

    /// Reads the byte of slot `k`, or returns the default if it is absent.
    ///
    /// # Errors
    /// `Bounds` if it lies outside the bytes.
    #[tactic(auto, unfolding(crate::specs::Walk::run))]
    pub fn scalar_u8(&self, k: u16, default: u8) -> Result<u8, FlatError>
        ensures walked { (n : ℕ) → run (bytes_of self.now) (spans 1 (slot_of self.now k)) n ≡ reported n result }
        ensures value { IfOk result (λ x. x ≡ scalar_of 1 default (bytes_of self.now) (slot_of self.now k)) }
    {
        match self.slot(k) {
            None => Ok(default),
            Some(at) => u8_at(self.bytes, at),
        }
    }

    /// Reads the 16-bit number of slot `k`, or returns the default if it is absent.
    ///
    /// # Errors
    /// `Bounds` if it lies outside the bytes.
    #[tactic(auto, unfolding(crate::specs::Walk::run))]
    pub fn scalar_u16(&self, k: u16, default: u16) -> Result<u16, FlatError>
        ensures walked { (n : ℕ) → run (bytes_of self.now) (spans 2 (slot_of self.now k)) n ≡ reported n result }
        ensures value { IfOk result (λ x. x ≡ scalar_of 2 default (bytes_of self.now) (slot_of self.now k)) }
    {
        match self.slot(k) {
            None => Ok(default),
            Some(at) => u16_at(self.bytes, at),
        }
    }

    /// Reads the 32-bit number of slot `k`, or returns the default if it is absent.
    ///
    /// # Errors
    /// `Bounds` if it lies outside the bytes.
    #[tactic(auto, unfolding(crate::specs::Walk::run))]
    pub fn scalar_u32(&self, k: u16, default: u32) -> Result<u32, FlatError>
        ensures walked { (n : ℕ) → run (bytes_of self.now) (spans 4 (slot_of self.now k)) n ≡ reported n result }
        ensures value { IfOk result (λ x. x ≡ scalar_of 4 default (bytes_of self.now) (slot_of self.now k)) }
    {
        match self.slot(k) {
            None => Ok(default),
            Some(at) => u32_at(self.bytes, at),
        }
    }

    /// Reads the 64-bit number of slot `k`, or returns the default if it is absent.
    ///
    /// # Errors
    /// `Bounds` if it lies outside the bytes.
    #[tactic(auto, unfolding(crate::specs::Walk::run))]
    pub fn scalar_u64(&self, k: u16, default: u64) -> Result<u64, FlatError>
        ensures walked { (n : ℕ) → run (bytes_of self.now) (spans 8 (slot_of self.now k)) n ≡ reported n result }
        ensures value { IfOk result (λ x. x ≡ scalar_of 8 default (bytes_of self.now) (slot_of self.now k)) }
    {
        match self.slot(k) {
            None => Ok(default),
            Some(at) => u64_at(self.bytes, at),
        }
    }

    /// Reads the bool of slot `k`: false if it is absent.
    ///
    /// # Errors
    /// `Bounds` if it lies outside the bytes.
    pub fn flag(&self, k: u16) -> Result<bool, FlatError>
        ensures walked { (n : ℕ) → run (bytes_of self.now) (spans 1 (slot_of self.now k)) n ≡ reported n result }
        ensures value { IfOk result (λ x. x ≡ is_set (scalar_of 1 0 (bytes_of self.now) (slot_of self.now k))) }
    {
        Ok(self.scalar_u8(k, 0)? != 0)
    }

    /// Returns the bytes of the string of slot `k`: empty if it is absent.
    ///
    /// # Errors
    /// `Bounds` if the reference to it or the string lies outside the bytes.
    #[tactic(auto, unfolding(crate::specs::Walk::run))]
    pub fn text(&self, k: u16) -> Result<&'a [u8], FlatError>
        ensures walked { (n : ℕ) → run (bytes_of self.now) (vector_at 1 (bytes_of self.now) (slot_of self.now k)) n ≡ reported n result }
        ensures value { IfOk result (λ x. x.now ≡ text_of (bytes_of self.now) (slot_of self.now k)) }
    {
        match self.slot(k) {
            None => Ok(&[]),
            Some(at) => {
                let (first, count) = vector_from(self.bytes, at, 1)?;
                Ok(&self.bytes[first..first + count])
            }
        }
    }

    /// Returns the elements, of `width` bytes each, of the vector of structs of slot `k`, one after another: none if it is absent.
    ///
    /// # Errors
    /// `Bounds` if the reference to it or the vector lies outside the bytes.
    #[tactic(auto, unfolding(crate::specs::Walk::run))]
    pub fn vector(&self, k: u16, width: u8) -> Result<&'a [u8], FlatError>
        ensures walked { (n : ℕ) → run (bytes_of self.now) (vector_at width (bytes_of self.now) (slot_of self.now k)) n ≡ reported n result }
        ensures value { IfOk result (λ x. x.now ≡ structs_of width (bytes_of self.now) (slot_of self.now k)) }
    {
        match self.slot(k) {
            None => Ok(&[]),
            Some(at) => {
                let (first, count) = vector_from(self.bytes, at, width)?;
                Ok(&self.bytes[first..first + width as usize * count])
            }
        }
    }

    /// Returns the vector of references to tables of slot `k`: empty if it is absent.
    ///
    /// # Errors
    /// `Bounds` if the reference to it or the vector lies outside the bytes.
    #[tactic(auto, unfolding(crate::specs::Walk::run, crate::specs::Lookup::elements))]
    pub fn references(&self, k: u16) -> Result<References<'a>, FlatError>
        ensures walked { (n : ℕ) → run (bytes_of self.now) (vector_at 4 (bytes_of self.now) (slot_of self.now k)) n ≡ reported n result }
        ensures same { IfOk result (λ r. bytes_behind r ≡ bytes_of self.now) }
        ensures places { IfOk result (λ r. places_in r ≡ elements (bytes_of self.now) (slot_of self.now k)) }
        ensures levels { IfOk result (λ r. levels_behind r ≡ levels_of self.now) }
    {
        match self.slot(k) {
            None => Ok(References::none(self.bytes, self.left)),
            Some(at) => References::from(self.bytes, at, self.left),
        }
    }

    /// Enters the table that the reference of slot `k` leads to, if the slot is present.
    ///
    /// # Errors
    /// The first bad thing: `Bounds`, `VtableSize` or `Budget`. The count of `budget` is then unspecified.
    #[tactic(auto, using(crate::proofs::FirstThing::first_err, crate::proofs::FirstThing::first_ok), unfolding(crate::specs::Walk::run, crate::specs::Lookup::target))]
    pub fn reference(&self, k: u16, budget: &mut Budget) -> Result<Option<Table<'a>>, FlatError>
        ensures walked { Walks (bytes_of self.now) (slot_things self.now k) budget.old budget.new result }
        ensures same { IfOk result (λ found. IfSome found (λ t. bytes_of t ≡ bytes_of self.now)) }
        ensures here { IfOk result (λ found. option_map place_of found ≡ table_behind (bytes_of self.now) (slot_of self.now k)) }
        ensures levels { IfOk result (λ found. IfSome found (λ t. levels_of t ≡ levels_of self.now - 1)) }
        ensures lower { IfOk result (λ found. IfSome found (λ t. levels_of t < levels_of self.now)) }
    {
        match self.slot(k) {
            None => Ok(None),
            Some(at) => {
                let distance = u32_at(self.bytes, at)?;
                let table = Table::enter(self.bytes, at + distance as usize, self.left, budget)?;
                Ok(Some(table))
            }
        }
    }

    /// Reads the union whose kind is in slot `k` and whose reference is in the next slot. No table is entered if the kind is 0.
    ///
    /// # Errors
    /// The first bad thing: `Bounds`, `VtableSize` or `Budget`. The count of `budget` is then unspecified.
    #[tactic(auto, using(crate::specs::laws::Walk::run_append), unfolding(crate::specs::Walk::run))]
    pub fn union(&self, k: u16, budget: &mut Budget) -> Result<Union<'a>, FlatError>
        requires { k + 1 < 2 ^ 16 }
        ensures walked { Walks (bytes_of self.now) (union_things (levels_of self.now) (bytes_of self.now) (place_of self.now) k) budget.old budget.new result }
        ensures kind { IfOk result (λ u. u.kind ≡ scalar_of 1 0 (bytes_of self.now) (slot_of self.now k)) }
        ensures same { IfOk result (λ u. IfSome u.table (λ t. bytes_of t ≡ bytes_of self.now)) }
        ensures here { IfOk result (λ u. option_map place_of u.table ≡ union_behind (bytes_of self.now) (place_of self.now) k) }
        ensures levels { IfOk result (λ u. IfSome u.table (λ t. levels_of t ≡ levels_of self.now - 1)) }
    {
        let kind = self.scalar_u8(k, 0)?;
        if kind == 0 {
            return Ok(Union { kind, table: None });
        }
        let table = self.reference(k + 1, budget)?;
        Ok(Union { kind, table })
    }
}
