// Every array of a batch with its field, each before those below it.
ghost use Rattle.std.specs.Prelude.{◌≡◌, ◌++◌, IfOk, map};
ghost use Rattle.arrow_schema.specs.Column.{columns_of};
ghost use Rattle.arrow_schema.specs.View.{kind_of, column_of};
ghost use Rattle.columns.specs.Tests.{arrays_at, arrays_below, every_array};
ghost use Rattle.columns.specs.View.{view_array, placed_arrays, IsNoArray};
ghost use Rattle.arrays.specs.inner.Every.{all_of};

use arrow_schema::{DataType, Field};
use columns::{ArrayView, Dictionary, PlacedArray, array_or};
use std::alloc::AllocError;

/// An array with its field.
#[derive(Clone, Copy)]
pub(crate) struct TypedView<'a> {
    pub(crate) field: &'a Field,
    pub(crate) view: ArrayView<'a>,
}

// After some arrays, an array and all below it.
#[tactic(auto, unfolding(columns::specs::Tests::arrays_at))]
#[cycle(every)]
fn add_array<'a>(
    every: Vec<TypedView<'a>>,
    field: &'a Field,
    view: ArrayView<'a>,
    none: &'a PlacedArray,
) -> Result<Vec<TypedView<'a>>, AllocError>
    requires { IsNoArray none.now }
    ensures { IfOk result (λ v. all_of v.items ≡ all_of every.entry.items ++ arrays_at (column_of field.now) (view_array view.entry)) }
{
    let mut every = every;
    every.push(TypedView { field, view })?;
    match &field.dictionary {
        Some(_) => Ok(every),
        None => add_below(every, &field.data_type, view, none),
    }
}

#[tactic(auto, using(arrow_schema::specs::declared::types::Field::the_lemmas), unfolding(columns::specs::Tests::arrays_below))]
#[cycle(every)]
fn add_below<'a>(
    every: Vec<TypedView<'a>>,
    data_type: &'a DataType,
    view: ArrayView<'a>,
    none: &'a PlacedArray,
) -> Result<Vec<TypedView<'a>>, AllocError>
    requires { IsNoArray none.now }
    ensures { IfOk result (λ v. all_of v.items ≡ all_of every.entry.items ++ arrays_below (kind_of data_type.now) (view_array view.entry)) }
{
    match data_type {
        DataType::List(item) => add_array(every, item, view.items_or(none), none),
        DataType::LargeList(item) => add_array(every, item, view.items_or(none), none),
        DataType::FixedSizeList(_, item) => add_array(every, item, view.items_or(none), none),
        DataType::Struct(fields) => {
            add_all(
                every,
                fields,
                view.children(),
                view.bytes,
                view.dictionaries,
                none,
            )
        }
        _ => Ok(every),
    }
}

/// After some arrays, these arrays of fields and all below them.
#[tactic(auto, unfolding(columns::specs::Tests::every_array))]
#[cycle(every)]
pub(crate) fn add_all<'a>(
    every: Vec<TypedView<'a>>,
    fields: &'a [Field],
    arrays: &'a [PlacedArray],
    bytes: &'a [u8],
    dictionaries: &'a [Dictionary],
    none: &'a PlacedArray,
) -> Result<Vec<TypedView<'a>>, AllocError>
    requires { IsNoArray none.now }
    ensures { let below = every_array (columns_of (map column_of fields.now)) (placed_arrays bytes.now dictionaries.now arrays.now) in
        IfOk result (λ v. all_of v.items ≡ all_of every.entry.items ++ below) }
{
    let mut every = every;
    for (i, field) in fields.iter().enumerate() {
        let view = ArrayView {
            array: array_or(arrays, i, none),
            bytes,
            dictionaries,
        };
        every = add_array(every, field, view, none)?;
    }
    Ok(every)
}
