// The cells of one column, while a text is read.
ghost use Rattle.std.specs.Prelude.{◌≡◌, ◌+◌, ◌*◌, ◌++◌, ◌∷◌, [], IfOk, IfSome, OnOk, true, false, replicate};
ghost use Rattle.byteorder.specs.Endian.{little_bytes};
ghost use Rattle.columns.specs.Offsets.{width_of};
ghost use Rattle.text_columns.specs.inner.Kept.{AllAppendNulls, AppendsNulls, KeepsField, PushesEmpty, PushesEnd, PushesThere, is_nullable, null_weight_of};
ghost use Rattle.text_columns.specs.inner.Batches.{has_room};
ghost use Rattle.text_columns.specs.inner.Lines.{KeepsNull};
ghost use Rattle.text_import.specs.FieldForm.{field_form};

use crate::flat::FlatBuilder;
use cells::MAX_ROW_WEIGHT;
use columns::{OffsetWidth, push_offset};
use indexmap::IndexSet;
use std::alloc::AllocError;
use text_import::FieldForm;

/// The cells of a column so far: those of a column without parts, of lists or lists of one size with the cells of their items, or of structs with those of
/// their fields.
#[derive(Drop)]
pub(crate) enum ColumnBuilder {
    Flat(FlatBuilder),
    List(Slots, ListOffsets, Box<ColumnBuilder>),
    FixedList(Slots, u32, Box<ColumnBuilder>),
    Struct(Slots, Names, Vec<ColumnBuilder>),
}

/// The names of the fields of structs; the places of the fields of the previous object's members; and the weights of the cells of this object.
#[derive(Drop)]
pub(crate) struct Names {
    pub(crate) names: IndexSet<Vec<u8>>,
    pub(crate) order: Vec<usize>,
    pub(crate) weights: Vec<Option<u64>>,
}

/// Which cells of a column with parts are not null, and the weight of a null.
#[derive(Drop)]
pub(crate) struct Slots {
    pub(crate) nullable: bool,
    pub(crate) valid: Vec<bool>,
    pub(crate) null_weight: u64,
}

/// Where lists end among the items of all lists, of which there are `count`.
#[derive(Drop)]
pub(crate) struct ListOffsets {
    pub(crate) width: OffsetWidth,
    pub(crate) offsets: Vec<u8>,
    pub(crate) count: u64,
}

impl Slots {
    /// Appends a cell that is not null.
    pub(crate) fn push_there(&mut self) -> Result<(), AllocError>
        ensures { OnOk result (PushesThere self.old self.new) }
    {
        self.valid.push(true)?;
        Ok(())
    }

    // Appends `count` nulls.
    fn push_nulls(&mut self, count: usize) -> Result<(), AllocError>
        ensures nullable { OnOk result (self.new.nullable ≡ self.old.nullable) }
        ensures null_weight { OnOk result (self.new.null_weight ≡ self.old.null_weight) }
        ensures valid { OnOk result (self.new.valid.items ≡ self.old.valid.items ++ replicate count false) }
    {
        match self.valid.len().checked_add(count) {
            Some(end) => self.valid.resize(end, false),
            None => Err(AllocError),
        }
    }
}

impl ListOffsets {
    /// Appends the end of a list of `items` items.
    pub(crate) fn push(&mut self, items: u64) -> Result<(), AllocError>
        ensures { OnOk result (PushesEnd items self.old self.new) }
    {
        let Some(count) = self.count.checked_add(items) else {
            return Err(AllocError);
        };
        self.count = count;
        push_offset(&mut self.offsets, self.width, count)
    }

    // Appends the ends of `lists` lists without items.
    fn push_empty(&mut self, lists: usize) -> Result<(), AllocError>
        ensures { OnOk result (PushesEmpty lists self.old self.new) }
    {
        for _ in 0..lists {
            self.push(0)?;
        }
        Ok(())
    }
}

// Returns how many items `lists` lists of `size` items have.
fn items_of(lists: usize, size: u32) -> Result<usize, AllocError>
    ensures { IfOk result (λ items. items ≡ lists * size) }
{
    match lists.checked_mul(size as usize) {
        Some(items) => Ok(items),
        None => Err(AllocError),
    }
}

// Appends `count` nulls to each column.
#[cycle(nulls)]
fn push_nulls_each(builders: &mut [ColumnBuilder], count: usize) -> Result<(), AllocError>
    ensures { OnOk result (AllAppendNulls count builders.old builders.new) }
{
    for i in 0..builders.len() {
        builders[i].push_nulls(count)?;
    }
    Ok(())
}

// Appends `count` nulls to each column of a vector.
#[cycle(nulls)]
fn push_nulls_all(builders: &mut Vec<ColumnBuilder>, count: usize) -> Result<(), AllocError>
    ensures { OnOk result (AllAppendNulls count builders.old.items builders.new.items) }
{
    push_nulls_each(builders.as_mut_slice(), count)
}

impl ColumnBuilder {
    fn is_nullable(&self) -> bool
        ensures { result ≡ is_nullable self.now }
    {
        match self {
            ColumnBuilder::Flat(flat) => flat.nullable,
            ColumnBuilder::List(slots, _, _) => slots.nullable,
            ColumnBuilder::FixedList(slots, _, _) => slots.nullable,
            ColumnBuilder::Struct(slots, _, _) => slots.nullable,
        }
    }

    /// Returns whether the dictionary of the column has room for one more entry; true if the column has none, or has parts.
    pub(crate) fn has_room(&self) -> bool
        ensures { result ≡ has_room self.now }
    {
        match self {
            ColumnBuilder::Flat(flat) => match &flat.coding {
                Some(coding) => coding.has_room(),
                None => true,
            },
            _ => true,
        }
    }

    /// Returns whether the column has neither parts nor a dictionary.
    pub(crate) fn is_plain(&self) -> bool {
        match self {
            ColumnBuilder::Flat(flat) => flat.coding.is_none(),
            _ => false,
        }
    }

    /// Returns the weight of a null.
    pub(crate) fn null_weight(&self) -> u64
        ensures { result ≡ null_weight_of self.now }
    {
        match self {
            ColumnBuilder::Flat(flat) => flat.values.null_weight(),
            ColumnBuilder::List(slots, _, _) => slots.null_weight,
            ColumnBuilder::FixedList(slots, _, _) => slots.null_weight,
            ColumnBuilder::Struct(slots, _, _) => slots.null_weight,
        }
    }

    /// Appends `count` nulls, even if the column is not nullable: nothing is below a null list, but nulls are below a null struct or list of one size.
    #[cycle(nulls)]
    pub(crate) fn push_nulls(&mut self, count: usize) -> Result<(), AllocError>
        ensures { OnOk result (AppendsNulls count self.old self.new) }
    {
        match self {
            ColumnBuilder::Flat(flat) => flat.push_nulls(count),
            ColumnBuilder::List(slots, offsets, _) => {
                slots.push_nulls(count)?;
                offsets.push_empty(count)
            }
            ColumnBuilder::FixedList(slots, size, items) => {
                slots.push_nulls(count)?;
                let below = items_of(count, *size)?;
                items.push_nulls(below)
            }
            ColumnBuilder::Struct(slots, _, fields) => {
                slots.push_nulls(count)?;
                push_nulls_all(fields, count)
            }
        }
    }

    /// Appends a null, and returns its weight; `None` if the column is not nullable, or a null is too heavy for a row.
    pub(crate) fn push_null(&mut self) -> Result<Option<u64>, AllocError>
        ensures { IfOk result (λ taken. IfSome taken (λ weight. KeepsNull weight self.old self.new)) }
    {
        if !self.is_nullable() {
            return Ok(None);
        }
        let weight = self.null_weight();
        if weight > MAX_ROW_WEIGHT {
            return Ok(None);
        }
        self.push_nulls(1)?;
        Ok(Some(weight))
    }

    /// Appends the cell of a field, and returns its weight; `None` if its text is no cell of the column, or the column has parts.
    pub(crate) fn push_field(
        &mut self,
        form: &FieldForm<'_>,
        text: &[u8],
    ) -> Result<Option<u64>, AllocError>
        ensures { IfOk result (λ taken. IfSome taken (λ weight. KeepsField (field_form form.now) text.now weight self.old self.new)) }
    {
        match self {
            ColumnBuilder::Flat(flat) => flat.push_field(form, text),
            _ => Ok(None),
        }
    }
}
