// The cells of one column without parts.
ghost use Rattle.std.specs.Prelude.{IfOk, IfSome, OnOk};
ghost use Rattle.text_columns.specs.declared.builder.ColumnBuilder.{Flat};
ghost use Rattle.text_columns.specs.inner.Kept.{AppendsNulls, KeepsField};
ghost use Rattle.text_columns.specs.inner.Lines.{KeepsNull};
ghost use Rattle.text_import.specs.FieldForm.{field_form};

use crate::coding::{self, Coding};
use crate::column_values::ColumnValues;
use cells::MAX_ROW_WEIGHT;
use std::alloc::AllocError;
use text_import::FieldForm;

/// The cells of a column without parts so far: which of them are not null, and their values, or the entries of a dictionary and what else it has.
#[derive(Drop)]
pub(crate) struct FlatBuilder {
    pub(crate) nullable: bool,
    pub(crate) valid: Vec<bool>,
    pub(crate) values: ColumnValues,
    pub(crate) coding: Option<Coding>,
}

impl FlatBuilder {
    ghost use Rattle.std.specs.Prelude.{◌≡◌, ◌&&◌, bytes_eq};

    /// Returns whether the text of a field is a null of the column.
    pub(crate) fn is_null(&self, null_text: &[u8], text: &[u8]) -> bool
        ensures { result ≡ (self.now.nullable && bytes_eq text.now null_text.now) }
    {
        self.nullable && text.len() == null_text.len() && text == null_text
    }

    /// Appends a null, and returns its weight; `None` if the column is not nullable, or a null is too heavy for a row.
    pub(crate) fn push_null(&mut self) -> Result<Option<u64>, AllocError>
        ensures { IfOk result (λ taken. IfSome taken (λ weight. KeepsNull weight (Flat self.old) (Flat self.new))) }
    {
        if !self.nullable {
            return Ok(None);
        }
        let weight = self.values.null_weight();
        if weight > MAX_ROW_WEIGHT {
            return Ok(None);
        }
        coding::push_null(&mut self.values, &mut self.coding)?;
        self.valid.push(false)?;
        Ok(Some(weight))
    }

    /// Appends the cell of a field, and returns its weight; `None` if its text is no cell of the column. The null text is a null if the column is nullable.
    #[inline(always)]
    pub(crate) fn push_field(
        &mut self,
        form: &FieldForm<'_>,
        text: &[u8],
    ) -> Result<Option<u64>, AllocError>
        ensures { IfOk result (λ taken. IfSome taken (λ weight. KeepsField (field_form form.now) text.now weight (Flat self.old) (Flat self.new))) }
    {
        if self.is_null(form.null_text, text) {
            return self.push_null();
        }
        let Some(weight) = coding::push_text(&mut self.values, &mut self.coding, form.dates, text)?
        else {
            return Ok(None);
        };
        self.valid.push(true)?;
        Ok(Some(weight))
    }

    /// Appends `count` nulls, even if the column is not nullable: what is below a null is null.
    pub(crate) fn push_nulls(&mut self, count: usize) -> Result<(), AllocError>
        ensures { OnOk result (AppendsNulls count (Flat self.old) (Flat self.new)) }
    {
        for _ in 0..count {
            coding::push_null(&mut self.values, &mut self.coding)?;
            self.valid.push(false)?;
        }
        Ok(())
    }
}
