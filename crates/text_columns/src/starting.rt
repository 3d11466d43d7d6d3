// The columns of a schema before the first row.
ghost use Rattle.std.specs.Prelude.{◌≡◌, ◌+◌, true, false, sum_by, None, Some, [], map, IfOk, IfSome};
ghost use Rattle.arrow_schema.specs.Parts.{index_of_column};
ghost use Rattle.arrow_schema.specs.View.{column_of, kind_of};
ghost use Rattle.cells.specs.Dictionary.{has_limit};
ghost use Rattle.text_columns.specs.inner.Kept.{AreUnlimited, HoldContents, KeepAll, Keeps, StartsBinaries, StartsFixedLists, StartsLists, StartsStructs, StartsTexts, Takes, null_weight_of};

use crate::builder::{ColumnBuilder, ListOffsets, Names, Slots};
use crate::coding::Coding;
use crate::column_values::ColumnValues;
use crate::flat::FlatBuilder;
use crate::members::names_of;
use arrow_schema::{DataType, DictSpec, Field};
use cells::has_limit;
use civil_days::date_column_of;
use columns::{OffsetWidth, date_integer, push_offset, timestamp_integer};
use indexmap::IndexSet;
use std::alloc::{AllocError, Global};

// Returns the offsets and contents of no string or binary: the offset 0 is before the first one.
fn empty_contents(alloc: Global, width: OffsetWidth) -> Result<(Vec<u8>, Vec<u8>), AllocError>
    ensures { IfOk result (λ started. HoldContents width [] started.0.items started.1.items) }
{
    let mut offsets = Vec::new(alloc);
    push_offset(&mut offsets, width, 0)?;
    Ok((offsets, Vec::new(alloc)))
}

fn empty_texts(alloc: Global, width: OffsetWidth) -> Result<ColumnValues, AllocError>
    ensures { IfOk result (λ values. StartsTexts width values) }
{
    let (offsets, contents) = empty_contents(alloc, width)?;
    Ok(ColumnValues::Texts(width, offsets, contents))
}

fn empty_binaries(alloc: Global, width: OffsetWidth) -> Result<ColumnValues, AllocError>
    ensures { IfOk result (λ values. StartsBinaries width values) }
{
    let (offsets, contents) = empty_contents(alloc, width)?;
    Ok(ColumnValues::Binaries(width, offsets, contents))
}

// Returns the values of a type before the first cell; `None` if the type has parts.
fn empty_values(alloc: Global, data_type: &DataType) -> Result<Option<ColumnValues>, AllocError>
    ensures { IfOk result (λ started. IfSome started (Takes (kind_of data_type.now) [])) }
{
    let values = match data_type {
        DataType::Null => ColumnValues::Nulls,
        DataType::Bool => ColumnValues::Booleans(Vec::new(alloc)),
        DataType::Int(integer) => ColumnValues::Integers(*integer, None, Vec::new(alloc)),
        DataType::Date(unit) => {
            let counted = date_column_of(data_type);
            ColumnValues::Integers(date_integer(*unit), counted, Vec::new(alloc))
        }
        DataType::Timestamp(_, _) => {
            let counted = date_column_of(data_type);
            ColumnValues::Integers(timestamp_integer(), counted, Vec::new(alloc))
        }
        DataType::Utf8 => empty_texts(alloc, OffsetWidth::Four)?,
        DataType::LargeUtf8 => empty_texts(alloc, OffsetWidth::Eight)?,
        DataType::Binary => empty_binaries(alloc, OffsetWidth::Four)?,
        DataType::LargeBinary => empty_binaries(alloc, OffsetWidth::Eight)?,
        DataType::FixedSizeBinary(width) => ColumnValues::FixedBinaries(*width, Vec::new(alloc)),
        _ => return Ok(None),
    };
    Ok(Some(values))
}

fn empty_flat_column(alloc: Global, field: &Field) -> Result<Option<ColumnBuilder>, AllocError>
    requires { field.now.dictionary ≡ None }
    ensures { IfOk result (λ started. IfSome started (Keeps (column_of field.now) [])) }
{
    let Some(values) = empty_values(alloc, &field.data_type)? else {
        return Ok(None);
    };
    Ok(Some(ColumnBuilder::Flat(FlatBuilder {
        nullable: field.nullable,
        valid: Vec::new(alloc),
        values,
        coding: None,
    })))
}

fn empty_coded_column(
    alloc: Global,
    field: &Field,
    spec: DictSpec,
) -> Result<Option<ColumnBuilder>, AllocError>
    requires { field.now.dictionary ≡ Some spec }
    ensures { IfOk result (λ started. IfSome started (Keeps (column_of field.now) [])) }
{
    let Some(values) = empty_values(alloc, &field.data_type)? else {
        return Ok(None);
    };
    let Some(one) = empty_values(alloc, &field.data_type)? else {
        return Ok(None);
    };
    let coding = Coding {
        index: spec.index,
        indices: Vec::new(alloc),
        keys: IndexSet::new(alloc),
        one,
    };
    Ok(Some(ColumnBuilder::Flat(FlatBuilder {
        nullable: field.nullable,
        valid: Vec::new(alloc),
        values,
        coding: Some(coding),
    })))
}

// Returns a column of items without cells; `None` if its dictionary has a limit, or `empty_column` returns none.
#[cycle(starting)]
fn empty_items(alloc: Global, item: &Field) -> Result<Option<ColumnBuilder>, AllocError>
    ensures { IfOk result (λ started. IfSome started (λ items.
        (has_limit (index_of_column (column_of item.now)) ≡ false) × Keeps (column_of item.now) [] items)) }
{
    if has_limit(item.dictionary) {
        return Ok(None);
    }
    empty_column(alloc, item)
}

#[cycle(starting)]
fn empty_lists(
    alloc: Global,
    nullable: bool,
    width: OffsetWidth,
    item: &Field,
) -> Result<Option<ColumnBuilder>, AllocError>
    ensures { IfOk result (λ started. IfSome started (StartsLists nullable width (column_of item.now))) }
{
    let Some(items) = empty_items(alloc, item)? else {
        return Ok(None);
    };
    let slots = Slots {
        nullable,
        valid: Vec::new(alloc),
        null_weight: 1,
    };
    let mut offsets = Vec::new(alloc);
    push_offset(&mut offsets, width, 0)?;
    let ends = ListOffsets {
        width,
        offsets,
        count: 0,
    };
    Ok(Some(ColumnBuilder::List(slots, ends, Box::new(alloc, items)?)))
}

#[cycle(starting)]
fn empty_fixed_lists(
    alloc: Global,
    nullable: bool,
    size: u32,
    item: &Field,
) -> Result<Option<ColumnBuilder>, AllocError>
    ensures { IfOk result (λ started. IfSome started (StartsFixedLists nullable size (column_of item.now))) }
{
    let Some(items) = empty_items(alloc, item)? else {
        return Ok(None);
    };
    let Some(below) = items.null_weight().checked_mul(size as u64) else {
        return Ok(None);
    };
    let Some(null_weight) = below.checked_add(1) else {
        return Ok(None);
    };
    let slots = Slots {
        nullable,
        valid: Vec::new(alloc),
        null_weight,
    };
    Ok(Some(ColumnBuilder::FixedList(slots, size, Box::new(alloc, items)?)))
}

// Returns whether one of these fields itself has a dictionary with a limit.
fn have_own_limit(fields: &[Field]) -> bool
    ensures { result ≡ false → AreUnlimited (map column_of fields.now) }
{
    for field in fields {
        if has_limit(field.dictionary) {
            return true;
        }
    }
    false
}

// Returns the weight of a struct with a null in each column; `None` if that is no number of 64 bits.
fn nulls_weight(builders: &[ColumnBuilder]) -> Option<u64>
    ensures { IfSome result (λ weight. weight ≡ 1 + sum_by null_weight_of builders.now) }
{
    let mut weight: u64 = 1;
    for builder in builders {
        weight = weight.checked_add(builder.null_weight())?;
    }
    Some(weight)
}

// Returns the names of `count` fields, before the first object.
fn struct_names(alloc: Global, names: IndexSet<Vec<u8>>, count: usize) -> Result<Names, AllocError>
    ensures { IfOk result (λ own. own.names ≡ names) }
{
    Ok(Names {
        names,
        order: vec![in alloc; 0; count]?,
        weights: vec![in alloc; None; count]?,
    })
}

#[cycle(starting)]
fn empty_structs(
    alloc: Global,
    nullable: bool,
    fields: &[Field],
) -> Result<Option<ColumnBuilder>, AllocError>
    ensures { IfOk result (λ started. IfSome started (StartsStructs nullable (map column_of fields.now))) }
{
    if have_own_limit(fields) {
        return Ok(None);
    }
    let Some(builders) = empty_columns(alloc, fields)? else {
        return Ok(None);
    };
    let Some(names) = names_of(alloc, fields)? else {
        return Ok(None);
    };
    let Some(null_weight) = nulls_weight(&builders) else {
        return Ok(None);
    };
    let slots = Slots {
        nullable,
        valid: Vec::new(alloc),
        null_weight,
    };
    let own = struct_names(alloc, names, builders.len())?;
    Ok(Some(ColumnBuilder::Struct(slots, own, builders)))
}

#[cycle(starting)]
fn empty_plain_column(alloc: Global, field: &Field) -> Result<Option<ColumnBuilder>, AllocError>
    requires { field.now.dictionary ≡ None }
    ensures { IfOk result (λ started. IfSome started (Keeps (column_of field.now) [])) }
{
    match &field.data_type {
        DataType::List(item) => empty_lists(alloc, field.nullable, OffsetWidth::Four, item),
        DataType::LargeList(item) => empty_lists(alloc, field.nullable, OffsetWidth::Eight, item),
        DataType::FixedSizeList(size, item) => empty_fixed_lists(
            alloc,
            field.nullable,
            *size,
            item,
        ),
        DataType::Struct(fields) => empty_structs(alloc, field.nullable, fields),
        _ => empty_flat_column(alloc, field),
    }
}

#[cycle(starting)]
fn empty_column(alloc: Global, field: &Field) -> Result<Option<ColumnBuilder>, AllocError>
    ensures { IfOk result (λ started. IfSome started (Keeps (column_of field.now) [])) }
{
    match field.dictionary {
        None => empty_plain_column(alloc, field),
        Some(spec) => empty_coded_column(alloc, field, spec),
    }
}

/// Returns columns without cells; `None` if a dictionary below a list or a struct has a limit, if a struct has two fields of one name, or if the weight of a
/// null is no number of 64 bits.
#[cycle(starting)]
pub(crate) fn empty_columns(
    alloc: Global,
    fields: &[Field],
) -> Result<Option<Vec<ColumnBuilder>>, AllocError>
    ensures { IfOk result (λ started. IfSome started (λ builders. KeepAll (map column_of fields.now) [] builders.items)) }
{
    let mut builders = Vec::with_capacity(alloc, fields.len())?;
    for field in fields {
        let Some(builder) = empty_column(alloc, field)? else {
            return Ok(None);
        };
        builders.push_reserved(builder);
    }
    Ok(Some(builders))
}
