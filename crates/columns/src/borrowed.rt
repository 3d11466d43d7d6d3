// Borrowed values: those of stored cells, or of arrays.
ghost use Rattle.std.specs.Prelude.{◌≡◌, true};
ghost use Rattle.arrow_schema.specs.View.{column_of};
ghost use Rattle.columns.specs.inner.Readable.{is_run_readable, are_parts_readable};
ghost use Rattle.columns.specs.View.{view_array, placed_arrays, fields_of};

use crate::array::{Dictionary, PlacedArray};
use crate::view::ArrayView;
use arrow_schema::Field;
use cells::Value;

/// Consecutive slots of an array, as values of a field.
#[derive(Clone, Copy)]
pub(crate) struct ArraySlice<'a> {
    pub(crate) field: &'a Field,
    pub(crate) view: ArrayView<'a>,
    pub(crate) start: usize,
    pub(crate) count: usize,
    ghost readable: { is_run_readable (column_of field.now) (view_array view) start count ≡ true },
}

/// The values of several fields at one slot of their arrays.
#[derive(Clone, Copy)]
pub(crate) struct PartsAt<'a> {
    pub(crate) fields: &'a [Field],
    pub(crate) arrays: &'a [PlacedArray],
    pub(crate) bytes: &'a [u8],
    pub(crate) dictionaries: &'a [Dictionary],
    pub(crate) slots: usize,
    pub(crate) place: usize,
    ghost readable: { are_parts_readable (fields_of fields.now) (placed_arrays bytes.now dictionaries.now arrays.now) slots place ≡ true },
}

/// Where borrowed values are stored: as cells, or in arrays.
#[derive(Clone, Copy)]
pub(crate) enum Form<'a> {
    Cells(&'a [Value]),
    Slots(ArraySlice<'a>),
    Parts(PartsAt<'a>),
}

/// A borrowed sequence of values: the cells of a row, the items of a list or the parts of a struct.
#[derive(Clone, Copy)]
pub struct Values<'a> {
    pub(crate) form: Form<'a>,
}

/// A borrowed value. Integers, dates and timestamps are `Int`; strings and binaries of either width are `Text` and `Bytes`; a null of any type is
/// `Null`.
#[derive(Clone, Copy)]
pub enum ValueRef<'a> {
    Null,
    Bool(bool),
    Int(i128),
    Text(&'a str),
    Bytes(&'a [u8]),
    List(Values<'a>),
    Struct(Values<'a>),
}

/// An iterator over borrowed values.
#[derive(Drop)]
pub struct ValuesIter<'a> {
    pub(crate) values: Values<'a>,
    pub(crate) next: usize,
}
