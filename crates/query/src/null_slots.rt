// Tests for nulls with the validity bitmaps of the arrays of record batches.
ghost use Rattle.std.specs.Prelude.{◌≡◌, ◌++◌, true, not, map, IfSome, OnOk, if◌then◌else◌};
ghost use Rattle.std.specs.List.{range_with_len};
ghost use Rattle.arrow_schema.specs.Parts.{is_nulls};
ghost use Rattle.arrow_schema.specs.View.{kind_of, column_of};
ghost use Rattle.columns.specs.View.{view_array};
ghost use Rattle.query.specs.inner.BoundView.{bound_in};
ghost use Rattle.query.specs.inner.Nulls.{HasNullsAlone, IsNullTest, null_holds_at, has_validity};

use crate::bound::{Bound, Predicate, field_at};
use arrow_schema::{DataType, Field};
use bitmap::MaskBuilder;
use columns::ArrayView;
use std::alloc::AllocError;

/// The answer for the valid slots of the column at a place. The other slots have the opposite answer.
#[derive(Clone, Copy)]
pub(crate) struct NullTest {
    pub(crate) place: usize,
    valid: bool,
}

fn is_of_nulls(data_type: &DataType) -> bool
    ensures { result ≡ is_nulls (kind_of data_type.now) }
{
    matches!(data_type, DataType::Null)
}

// Returns whether the cells of a field are null exactly where its slots are not valid. The entries of a dictionary may be null too.
fn has_nulls_alone(field: &Field) -> bool
    ensures { result ≡ true → HasNullsAlone (column_of field.now) }
{
    match field.dictionary {
        None => !is_of_nulls(&field.data_type),
        Some(_) => false,
    }
}

/// Returns the test that a condition is, if it asks for nulls and the validity bitmaps of its column answer it.
pub(crate) fn null_test_of(fields: &[Field], bound: &Bound) -> Option<NullTest>
    ensures { IfSome result (λ t. IsNullTest (map column_of fields.now) (bound_in bound.now) t) }
{
    let field = field_at(fields, bound.place)?;
    if !has_nulls_alone(field) {
        return None;
    }
    match &bound.predicate {
        Predicate::IsNull => Some(NullTest {
            place: bound.place,
            valid: false,
        }),
        Predicate::IsValue => Some(NullTest {
            place: bound.place,
            valid: true,
        }),
        Predicate::Compares(_, _) => None,
    }
}

impl NullTest {
    fn answer(self, valid: bool) -> bool
        ensures { result ≡ (if valid then self.valid else not self.valid) }
    {
        if valid { self.valid } else { !self.valid }
    }

    /// Appends the answer for each of the first slots, run by run.
    pub(crate) fn push_slots(
        self,
        flags: &mut MaskBuilder,
        view: ArrayView<'_>,
        rows: usize,
    ) -> Result<(), AllocError>
        requires { has_validity rows (view_array view) ≡ true }
        ensures { OnOk result (flags.new ≡ flags.old ++ map (null_holds_at self (view_array view.entry)) (range_with_len 0 rows)) }
    {
        let validity = view.validity();
        if validity.is_empty() {
            return flags.push_alike(rows, self.valid);
        }
        let mut first = 0;
        while first < rows {
            let end = bitmap::run_end(validity, first, rows);
            let answer = self.answer(bitmap::get(validity, first));
            flags.push_alike(end - first, answer)?;
            first = end;
        }
        Ok(())
    }
}
