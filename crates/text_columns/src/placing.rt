// The arrays of columns, one after another in the same bytes.
ghost use Rattle.std.specs.Prelude.{◌≡◌, ◌≤◌, ◌++◌, true, [], ◌∷◌, List, length, IfOk};
ghost use Rattle.std.specs.List.{list_all};
ghost use Rattle.bitmap.specs.Bits.{packed};
ghost use Rattle.text_columns.specs.declared.builder.ColumnBuilder.{Flat};
ghost use Rattle.text_columns.specs.inner.Placed.{AreEntriesPlaced, ArePlaced, ArePlacedBehind, IsAppended, IsCodedLaid, IsLaid, IsLayoutPlaced, IsPlaced, has_bitmap, has_validity, validity_in};

use crate::builder::ColumnBuilder;
use crate::coding::Coding;
use crate::column_values::ColumnValues;
use crate::flat::FlatBuilder;
use columns::{Dictionary, DictionaryPart, PlacedArray, PlacedLayout, Span};
use std::alloc::{AllocError, Global};

// Appends a buffer, and returns where it is.
fn append(bytes: &mut Vec<u8>, buffer: &[u8]) -> Result<Span, AllocError>
    ensures { IfOk result (λ span. IsAppended bytes.old.items buffer.now bytes.new.items span) }
{
    let start = bytes.len();
    bytes.extend_from_slice(buffer)?;
    Ok(Span {
        start,
        len: buffer.len(),
    })
}

// Returns whether all bits are set.
fn are_set(bits: &[bool]) -> bool
    ensures { result ≡ list_all (λ bit. bit) bits.now }
{
    for bit in bits {
        if !*bit {
            return false;
        }
    }
    true
}

// Appends bits, packed, and returns where they are.
fn append_bits(alloc: Global, bytes: &mut Vec<u8>, bits: &[bool]) -> Result<Span, AllocError>
    ensures { IfOk result (λ span. IsAppended bytes.old.items (packed bits.now) bytes.new.items span) }
{
    let buffer = bitmap::pack(alloc, bits)?;
    append(bytes, &buffer)
}

// Returns whether a column has a validity bitmap: one of the type of nulls has none, unless it has a dictionary.
fn has_validity(column: &FlatBuilder) -> bool
    ensures { result ≡ has_validity column.now.coding column.now.values }
{
    match &column.coding {
        Some(_) => true,
        None => has_bitmap(&column.values),
    }
}

fn has_bitmap(values: &ColumnValues) -> bool
    ensures { result ≡ has_bitmap values.now }
{
    match values {
        ColumnValues::Nulls => false,
        _ => true,
    }
}

// Appends the validity bitmap of slots, and returns where it is: no byte if each is valid, or if there is no bitmap.
fn append_validity(
    alloc: Global,
    bytes: &mut Vec<u8>,
    has_validity: bool,
    valid: &[bool],
) -> Result<Span, AllocError>
    ensures { IfOk result (λ span. IsAppended bytes.old.items (validity_in has_validity valid.now) bytes.new.items span) }
{
    if !has_validity || are_set(valid) {
        append(bytes, &[])
    } else {
        append_bits(alloc, bytes, valid)
    }
}

// Appends the buffers of values, and returns where they are.
fn place_values(
    alloc: Global,
    bytes: &mut Vec<u8>,
    values: &ColumnValues,
) -> Result<PlacedLayout, AllocError>
    ensures { IfOk result (λ layout. IsLaid values.now bytes.old.items bytes.new.items layout) }
{
    match values {
        ColumnValues::Nulls => Ok(PlacedLayout::Null),
        ColumnValues::Booleans(bits) => Ok(PlacedLayout::Bits(append_bits(alloc, bytes, bits)?)),
        ColumnValues::Integers(_, _, values) => Ok(PlacedLayout::Fixed(append(bytes, values)?)),
        ColumnValues::Texts(_, offsets, contents) => {
            let offsets = append(bytes, offsets)?;
            let contents = append(bytes, contents)?;
            Ok(PlacedLayout::Binary(offsets, contents))
        }
        ColumnValues::Binaries(_, offsets, contents) => {
            let offsets = append(bytes, offsets)?;
            let contents = append(bytes, contents)?;
            Ok(PlacedLayout::Binary(offsets, contents))
        }
        ColumnValues::FixedBinaries(_, values) => Ok(PlacedLayout::Fixed(append(bytes, values)?)),
    }
}

// Appends the array of `count` entries as a dictionary of its own, and returns which part of it they are.
fn place_entries(
    alloc: Global,
    bytes: &mut Vec<u8>,
    dictionaries: &mut Vec<Dictionary>,
    entries: &ColumnValues,
    count: usize,
) -> Result<DictionaryPart, AllocError>
    ensures { IfOk result (λ part. AreEntriesPlaced entries.now count bytes.old.items bytes.new.items dictionaries.old.items dictionaries.new.items part) }
{
    let layout = place_values(alloc, bytes, entries)?;
    let mut dictionary = Dictionary::new(alloc);
    dictionary.push(PlacedArray {
        slots: count,
        validity: Span { start: 0, len: 0 },
        layout,
    })?;
    let number = dictionaries.len();
    dictionaries.push(dictionary)?;
    Ok(DictionaryPart { number, count: 1 })
}

// Appends the indices of a column and the entries that they name, and returns where they are.
fn place_coded(
    alloc: Global,
    bytes: &mut Vec<u8>,
    dictionaries: &mut Vec<Dictionary>,
    entries: &ColumnValues,
    coding: &Coding,
) -> Result<PlacedLayout, AllocError>
    ensures { IfOk result (λ layout. IsCodedLaid entries.now coding.now bytes.old.items bytes.new.items dictionaries.old.items dictionaries.new.items layout) }
{
    let indices = append(bytes, &coding.indices)?;
    let part = place_entries(alloc, bytes, dictionaries, entries, coding.keys.len())?;
    Ok(PlacedLayout::Dictionary(indices, part))
}

// Appends the values of a column, or its indices and entries, and returns where they are.
fn place_layout(
    alloc: Global,
    bytes: &mut Vec<u8>,
    dictionaries: &mut Vec<Dictionary>,
    column: &FlatBuilder,
) -> Result<PlacedLayout, AllocError>
    ensures { IfOk result (λ layout. IsLayoutPlaced column.now bytes.old.items bytes.new.items dictionaries.old.items dictionaries.new.items layout) }
{
    match &column.coding {
        None => place_values(alloc, bytes, &column.values),
        Some(coding) => place_coded(alloc, bytes, dictionaries, &column.values, coding),
    }
}

// Appends the buffers of a column without parts, and returns where they are.
fn place_flat(
    alloc: Global,
    bytes: &mut Vec<u8>,
    dictionaries: &mut Vec<Dictionary>,
    column: &FlatBuilder,
) -> Result<PlacedArray, AllocError>
    ensures { IfOk result (λ array. IsPlaced (Flat column.now) bytes.old.items bytes.new.items dictionaries.old.items dictionaries.new.items array) }
{
    let validity = append_validity(alloc, bytes, has_validity(column), &column.valid)?;
    let layout = place_layout(alloc, bytes, dictionaries, column)?;
    Ok(PlacedArray {
        slots: column.valid.len(),
        validity,
        layout,
    })
}

// Appends the buffers of a column, and returns where they are. Those of items and fields come after those of their lists and structs.
#[cycle(place)]
fn place(
    alloc: Global,
    bytes: &mut Vec<u8>,
    dictionaries: &mut Vec<Dictionary>,
    column: &ColumnBuilder,
) -> Result<PlacedArray, AllocError>
    ensures { IfOk result (λ array. IsPlaced column.now bytes.old.items bytes.new.items dictionaries.old.items dictionaries.new.items array) }
{
    match column {
        ColumnBuilder::Flat(flat) => place_flat(alloc, bytes, dictionaries, flat),
        ColumnBuilder::List(slots, ends, items) => {
            let validity = append_validity(alloc, bytes, true, &slots.valid)?;
            let offsets = append(bytes, &ends.offsets)?;
            let below = Box::new(alloc, place(alloc, bytes, dictionaries, items)?)?;
            Ok(PlacedArray {
                slots: slots.valid.len(),
                validity,
                layout: PlacedLayout::List(offsets, below),
            })
        }
        ColumnBuilder::FixedList(slots, _, items) => {
            let validity = append_validity(alloc, bytes, true, &slots.valid)?;
            let below = Box::new(alloc, place(alloc, bytes, dictionaries, items)?)?;
            Ok(PlacedArray {
                slots: slots.valid.len(),
                validity,
                layout: PlacedLayout::FixedList(below),
            })
        }
        ColumnBuilder::Struct(slots, _, fields) => {
            let validity = append_validity(alloc, bytes, true, &slots.valid)?;
            let children = place_fields(alloc, bytes, dictionaries, fields)?;
            Ok(PlacedArray {
                slots: slots.valid.len(),
                validity,
                layout: PlacedLayout::Struct(children),
            })
        }
    }
}

// Appends the buffers of the fields of structs, and returns where they are.
#[cycle(place)]
fn place_fields(
    alloc: Global,
    bytes: &mut Vec<u8>,
    dictionaries: &mut Vec<Dictionary>,
    fields: &[ColumnBuilder],
) -> Result<Vec<PlacedArray>, AllocError>
    ensures { IfOk result (λ arrays. ArePlacedBehind fields.now bytes.old.items bytes.new.items dictionaries.old.items dictionaries.new.items arrays.items) }
{
    let mut arrays = Vec::with_capacity(alloc, fields.len())?;
    for field in fields {
        let array = place(alloc, bytes, dictionaries, field)?;
        arrays.push(array)?;
    }
    Ok(arrays)
}

// Returns how many bytes values have, or somewhat more.
fn values_size(values: &ColumnValues) -> usize {
    match values {
        ColumnValues::Nulls => 0,
        ColumnValues::Booleans(bits) => bits.len() / 8 + 1,
        ColumnValues::Integers(_, _, values) => values.len(),
        ColumnValues::Texts(_, offsets, contents) => offsets.len().saturating_add(contents.len()),
        ColumnValues::Binaries(_, offsets, contents) => {
            offsets.len().saturating_add(contents.len())
        }
        ColumnValues::FixedBinaries(_, values) => values.len(),
    }
}

// Returns how many bytes a column without parts has, or somewhat more.
fn column_size(column: &FlatBuilder) -> usize {
    let indices = match &column.coding {
        Some(coding) => coding.indices.len(),
        None => 0,
    };
    let validity = column.valid.len() / 8 + 1;
    values_size(&column.values)
        .saturating_add(indices)
        .saturating_add(validity)
}

// Returns how many bytes all columns without parts have, or somewhat more. So much is reserved, so that their bytes are never moved to a larger buffer.
fn columns_size(columns: &[ColumnBuilder]) -> usize {
    let mut size: usize = 0;
    for column in columns {
        if let ColumnBuilder::Flat(flat) = column {
            size = size.saturating_add(column_size(flat));
        }
    }
    size
}

/// The arrays of columns, and the bytes and the dictionaries that they are in.
#[derive(Drop)]
pub(crate) struct Placed {
    pub(crate) bytes: Vec<u8>,
    pub(crate) dictionaries: Vec<Dictionary>,
    pub(crate) arrays: Vec<PlacedArray>,
}

/// Places the arrays of columns. The buffers of a column are freed once they are copied.
pub(crate) fn place_all(alloc: Global, columns: Vec<ColumnBuilder>) -> Result<Placed, AllocError>
    ensures { IfOk result (λ placed. ArePlaced columns.items placed.bytes.items placed.dictionaries.items placed.arrays.items) }
{
    let mut bytes = Vec::with_capacity(alloc, columns_size(&columns))?;
    let mut dictionaries = Vec::new(alloc);
    let mut arrays = Vec::with_capacity(alloc, columns.len())?;
    for column in columns {
        let array = place(alloc, &mut bytes, &mut dictionaries, &column)?;
        arrays.push(array)?;
        drop(column);
    }
    Ok(Placed {
        bytes,
        dictionaries,
        arrays,
    })
}
