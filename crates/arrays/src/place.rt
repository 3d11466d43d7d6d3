// The arrays that the nodes and buffers of a batch are (docs/definitions/arrays.md).
ghost use Rattle.std.specs.Prelude.{IfOk, map};
ghost use Rattle.arrow_schema.specs.Column.{columns_of};
ghost use Rattle.arrow_schema.specs.View.{kind_of, column_of};
ghost use Rattle.arrays.specs.inner.Rest.{IsPlaced, IsLaidOut, IsValidity, ArePlaced, IsPlacedBelow, ArePlacedBelow, IsInBody, LayoutEnds, ArrayEnds, ArraysEnd};

use crate::counts::column_counts;
use crate::null_type::is_of_nulls;
use crate::rest::Rest;
use arrow_schema::{DataType, Field};
use columns::{PlacedArray, PlacedLayout, Span};
use std::alloc::{AllocError, Global};

fn own_validity(data_type: &DataType, rest: Rest<'_>) -> Span
    ensures validity { IsValidity (kind_of data_type.now) rest.entry result }
    ensures ends { IsInBody rest.entry result }
{
    if is_of_nulls(data_type) {
        Span { start: 0, len: 0 }
    } else {
        rest.buffer(0)
    }
}

/// The array of a field.
#[cycle(place)]
fn place(alloc: Global, field: &Field, rest: Rest<'_>) -> Result<PlacedArray, AllocError>
    ensures placed { IfOk result (λ a. IsPlaced (column_of field.now) rest.entry a) }
    ensures ends { IfOk result (λ a. ArrayEnds rest.entry a) }
{
    match &field.dictionary {
        Some(_) => Ok(PlacedArray {
            slots: rest.slots(),
            validity: rest.buffer(0),
            layout: PlacedLayout::Dictionary(rest.buffer(1), rest.part()),
        }),
        None => Ok(PlacedArray {
            slots: rest.slots(),
            validity: own_validity(&field.data_type, rest),
            layout: place_layout(alloc, &field.data_type, rest)?,
        }),
    }
}

// The array of the items of lists, which have n buffers of their own.
#[cycle(place)]
fn place_items(
    alloc: Global,
    item: &Field,
    rest: Rest<'_>,
    buffers: usize,
) -> Result<Box<PlacedArray>, AllocError>
    ensures placed { IfOk result (λ b. IsPlacedBelow (column_of item.now) rest.entry buffers b.value) }
    ensures ends { IfOk result (λ b. ArrayEnds rest.entry b.value) }
{
    let array = place(alloc, item, rest.below(buffers))?;
    Ok(Box::new(alloc, array)?)
}

// The arrays of the fields of structs.
#[cycle(place)]
fn place_children(
    alloc: Global,
    fields: &[Field],
    rest: Rest<'_>,
) -> Result<Vec<PlacedArray>, AllocError>
    ensures placed { IfOk result (λ v. ArePlacedBelow (columns_of (map column_of fields.now)) rest.entry v.items) }
    ensures end { IfOk result (λ v. ArraysEnd rest.entry v.items) }
{
    place_all(alloc, fields, rest.below(1))
}

#[tactic(auto, using(crate::proofs::LayoutRules::layout_rules), unfolding(columns::specs::FromBuffers::kind_array_from))]
#[cycle(place)]
fn place_layout(
    alloc: Global,
    data_type: &DataType,
    rest: Rest<'_>,
) -> Result<PlacedLayout, AllocError>
    ensures laid_out { IfOk result (λ p. IsLaidOut (kind_of data_type.now) rest.entry p) }
    ensures ends { IfOk result (λ p. LayoutEnds rest.entry p) }
{
    match data_type {
        DataType::Null => Ok(PlacedLayout::Null),
        DataType::Bool => Ok(PlacedLayout::Bits(rest.buffer(1))),
        DataType::Int(_) => Ok(PlacedLayout::Fixed(rest.buffer(1))),
        DataType::Date(_) => Ok(PlacedLayout::Fixed(rest.buffer(1))),
        DataType::Timestamp(_, _) => Ok(PlacedLayout::Fixed(rest.buffer(1))),
        DataType::Utf8 => Ok(PlacedLayout::Binary(rest.buffer(1), rest.buffer(2))),
        DataType::LargeUtf8 => Ok(PlacedLayout::Binary(rest.buffer(1), rest.buffer(2))),
        DataType::Binary => Ok(PlacedLayout::Binary(rest.buffer(1), rest.buffer(2))),
        DataType::LargeBinary => Ok(PlacedLayout::Binary(rest.buffer(1), rest.buffer(2))),
        DataType::FixedSizeBinary(_) => Ok(PlacedLayout::Fixed(rest.buffer(1))),
        DataType::List(item) => Ok(PlacedLayout::List(
            rest.buffer(1),
            place_items(alloc, item, rest, 2)?,
        )),
        DataType::LargeList(item) => Ok(PlacedLayout::List(
            rest.buffer(1),
            place_items(alloc, item, rest, 2)?,
        )),
        DataType::FixedSizeList(_, item) => {
            Ok(PlacedLayout::FixedList(place_items(alloc, item, rest, 1)?))
        }
        DataType::Struct(fields) => Ok(PlacedLayout::Struct(place_children(alloc, fields, rest)?)),
    }
}

/// The arrays of fields, one after another.
#[cycle(place)]
pub(crate) fn place_all(
    alloc: Global,
    fields: &[Field],
    rest: Rest<'_>,
) -> Result<Vec<PlacedArray>, AllocError>
    ensures placed { IfOk result (λ v. ArePlaced (columns_of (map column_of fields.now)) rest.entry v.items) }
    ensures end { IfOk result (λ v. ArraysEnd rest.entry v.items) }
{
    let mut arrays = Vec::with_capacity(alloc, fields.len())?;
    let mut left = rest;
    for field in fields {
        let array = place(alloc, field, left)?;
        arrays.push_reserved(array);
        left = left.after(column_counts(field));
    }
    Ok(arrays)
}
