// Conditions that the bytes of arrays answer, without borrowing a value.
ghost use Rattle.std.specs.Prelude.{◌≡◌, ◌++◌, true, map, IfOk, IfSome, OnOk};
ghost use Rattle.std.specs.List.{list_all, range_with_len};
ghost use Rattle.arrow_schema.specs.View.{column_of};
ghost use Rattle.columns.specs.View.{view_array};
ghost use Rattle.query.specs.inner.BoundView.{bound_in};
ghost use Rattle.query.specs.inner.Masks.{IsMask};
ghost use Rattle.query.specs.inner.SlotTests.{place_in, IsSlotTest, holds_at, has_slots, batch_flags, part_flags, parts_flags, batch_has_slots, part_has_slots};

use crate::bound::Bound;
use crate::contents_slots::{ContentsComparison, contents_comparison_of};
use crate::integer_slots::{IntegerComparison, integer_comparison_of};
use crate::null_slots::{NullTest, null_test_of};
use arrow_schema::Field;
use bitmap::MaskBuilder;
use columns::{ArrayView, array_or, no_array};
use std::alloc::{AllocError, Global};
use values::{Batch, TablePart};

/// A test of the slots of a column without a dictionary.
#[derive(Clone, Copy)]
pub(crate) enum SlotTest<'a> {
    Integers(IntegerComparison),
    Contents(ContentsComparison<'a>),
    Nulls(NullTest),
}

fn integer_test_of<'a>(fields: &[Field], bound: &'a Bound) -> Option<SlotTest<'a>>
    ensures { IfSome result (λ t. IsSlotTest (map column_of fields.now) (bound_in bound.now) t) }
{
    match integer_comparison_of(fields, bound) {
        Some(comparison) => Some(SlotTest::Integers(comparison)),
        None => None,
    }
}

fn contents_test_of<'a>(fields: &[Field], bound: &'a Bound) -> Option<SlotTest<'a>>
    ensures { IfSome result (λ t. IsSlotTest (map column_of fields.now) (bound_in bound.now) t) }
{
    match contents_comparison_of(fields, bound) {
        Some(comparison) => Some(SlotTest::Contents(comparison)),
        None => None,
    }
}

fn null_slot_test_of<'a>(fields: &[Field], bound: &'a Bound) -> Option<SlotTest<'a>>
    ensures { IfSome result (λ t. IsSlotTest (map column_of fields.now) (bound_in bound.now) t) }
{
    match null_test_of(fields, bound) {
        Some(test) => Some(SlotTest::Nulls(test)),
        None => None,
    }
}

/// Returns the test that a condition is, if the bytes of arrays answer it.
pub(crate) fn slot_test_of<'a>(fields: &[Field], bound: &'a Bound) -> Option<SlotTest<'a>>
    ensures { IfSome result (λ t. IsSlotTest (map column_of fields.now) (bound_in bound.now) t) }
{
    if let Some(test) = integer_test_of(fields, bound) {
        return Some(test);
    }
    match contents_test_of(fields, bound) {
        Some(test) => Some(test),
        None => null_slot_test_of(fields, bound),
    }
}

impl SlotTest<'_> {
    fn place(self) -> usize
        ensures { result ≡ place_in self.entry }
    {
        match self {
            SlotTest::Integers(comparison) => comparison.place,
            SlotTest::Contents(comparison) => comparison.place,
            SlotTest::Nulls(test) => test.place,
        }
    }

    // Appends the answer for each of the first slots of an array.
    fn push_slots(
        self,
        flags: &mut MaskBuilder,
        view: ArrayView<'_>,
        rows: usize,
    ) -> Result<(), AllocError>
        requires { has_slots self rows (view_array view) ≡ true }
        ensures { OnOk result (flags.new ≡ flags.old ++ map (holds_at self.entry (view_array view.entry)) (range_with_len 0 rows)) }
    {
        match self {
            SlotTest::Integers(comparison) => comparison.push_slots(flags, view, rows),
            SlotTest::Contents(comparison) => comparison.push_slots(flags, view, rows),
            SlotTest::Nulls(test) => test.push_slots(flags, view, rows),
        }
    }

    // Appends the answer for each row of a batch.
    fn push_batch(
        self,
        flags: &mut MaskBuilder,
        part: &TablePart,
        batch: &Batch,
    ) -> Result<(), AllocError>
        requires { batch_has_slots self part.now batch.now ≡ true }
        ensures { OnOk result (flags.new ≡ flags.old ++ batch_flags self.entry part.now batch.now) }
    {
        let none = no_array();
        let view = ArrayView {
            array: array_or(&batch.arrays, self.place(), &none),
            bytes: &part.bytes,
            dictionaries: &part.dictionaries,
        };
        self.push_slots(flags, view, batch.rows)
    }

    fn push_part(self, flags: &mut MaskBuilder, part: &TablePart) -> Result<(), AllocError>
        requires { part_has_slots self part.now ≡ true }
        ensures { OnOk result (flags.new ≡ flags.old ++ part_flags self.entry part.now) }
    {
        for batch in &part.batches {
            self.push_batch(flags, part, batch)?;
        }
        Ok(())
    }

    /// Returns a bit for each row of some record batches, which is set if the test holds.
    pub(crate) fn mask_of(
        self,
        alloc: Global,
        parts: &[TablePart],
        rows: usize,
    ) -> Result<Vec<u8>, AllocError>
        requires { list_all (part_has_slots self) parts.now ≡ true }
        ensures { IfOk result (λ mask. IsMask mask.items (parts_flags self.entry parts.now)) }
    {
        let mut flags = MaskBuilder::with_capacity(alloc, rows)?;
        for part in parts {
            self.push_part(&mut flags, part)?;
        }
        Ok(flags.into_mask())
    }
}
