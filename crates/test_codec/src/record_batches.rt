// Tests of batches that are read, and of the faults of their arrays and rows (arrays). The expected places and weights are worked out by hand from the
// standard (Arrow columnar format, "Physical Memory Layout") and from docs/formats.md, section 8.
ghost use Rattle.std.specs.Prelude.{◌+◌, ◌<◌, ◌^◌};

use crate::made::{NotMade, assert_no_row, schema_of_columns};
use Fault::{
    BufferRange, BufferShort, Compressed, DictionaryIndex, LayoutCount, NotUtf8, NullCount,
    NullForbidden, Offsets, RowCount, TooHeavy,
};
use arrays::{PlacedBatch, read, read_arrays};
use arrow_schema::Schema;
use columns::{PlacedArray, PlacedLayout, Span};
use ipc_message::{Fault, ImportError, RawBatch};
use std::alloc::{AllocError, Global};

type Pairs = &'static [(u64, u64)];

/// The length of a batch, its nodes, its buffers and its body.
pub type Batch = (u64, Pairs, Pairs, &'static [u8]);

/// Of each array the number of its slots, and the start and the length of its validity bitmap and of its other buffers; of one with a dictionary also the
/// number and the count of its part. Arrays below others come after them.
pub type Places = &'static [usize];

// The fields, a batch, and the weight of the rows before it; the places of its arrays and the weight of its rows, or the faults of both.
type Case = (
    &'static [&'static str],
    Batch,
    u64,
    Result<Places, Fault>,
    Result<u64, Fault>,
);

// What is before a body, and after it.
const BEFORE: [u8; 3] = [9; 3];

const AFTER: [u8; 1] = [9];

const INTEGER_NODES: Pairs = &[(2, 1)];

const INTEGER_BUFFERS: Pairs = &[(0, 1), (8, 2)];

const INTEGER_BODY: &[u8] = &[1, 0, 0, 0, 0, 0, 0, 0, 5, 9];

/// The integers 5 and null, of 8 bits.
pub const INTEGERS: Batch = (2, INTEGER_NODES, INTEGER_BUFFERS, INTEGER_BODY);

pub const INTEGER_PLACES: Places = &[2, 3, 1, 11, 2];

/// The texts é and an empty one.
pub const TEXTS: Batch = (
    2,
    &[(2, 0)],
    &[(0, 0), (0, 12), (16, 2)],
    &[0, 0, 0, 0, 2, 0, 0, 0, 2, 0, 0, 0, 0, 0, 0, 0, 195, 169],
);

pub const TEXT_PLACES: Places = &[2, 3, 0, 3, 12, 19, 2];

/// The same with a byte that begins a character in place of the last one, which ends it.
pub const BAD_TEXTS: Batch = (
    2,
    &[(2, 0)],
    &[(0, 0), (0, 12), (16, 2)],
    &[0, 0, 0, 0, 2, 0, 0, 0, 2, 0, 0, 0, 0, 0, 0, 0, 195, 195],
);

/// The same below a null.
pub const HIDDEN_TEXTS: Batch = (
    2,
    &[(2, 1)],
    &[(12, 1), (0, 12), (16, 2)],
    &[0, 0, 0, 0, 2, 0, 0, 0, 2, 0, 0, 0, 2, 0, 0, 0, 195, 195],
);

pub const HIDDEN_PLACES: Places = &[2, 15, 1, 3, 12, 19, 2];

const FLAT: &[Case] = &[
    (&["a:int8?"], INTEGERS, 0, Ok(INTEGER_PLACES), Ok(4)),
    (
        &["a:int8?"],
        INTEGERS,
        268_435_452,
        Ok(INTEGER_PLACES),
        Ok(4),
    ),
    (
        &["a:int8?"],
        INTEGERS,
        268_435_453,
        Ok(INTEGER_PLACES),
        Err(TooHeavy),
    ),
    (
        &["a:int8"],
        INTEGERS,
        0,
        Ok(INTEGER_PLACES),
        Err(NullForbidden),
    ),
    (&["s:utf8"], TEXTS, 0, Ok(TEXT_PLACES), Ok(6)),
    (&["s:utf8"], BAD_TEXTS, 0, Ok(TEXT_PLACES), Err(NotUtf8)),
    (&["s:utf8?"], HIDDEN_TEXTS, 0, Ok(HIDDEN_PLACES), Ok(4)),
];

// The list of true, null and true, and a null.
const LISTS: Batch = (
    2,
    &[(2, 1), (3, 1)],
    &[(0, 1), (4, 12), (1, 1), (2, 1)],
    &[1, 5, 5, 0, 0, 0, 0, 0, 3, 0, 0, 0, 3, 0, 0, 0],
);

const LIST_PLACES: Places = &[2, 3, 1, 7, 12, 3, 4, 1, 5, 1];

// A null beside a struct of null and true.
const STRUCTS: Batch = (
    1,
    &[(1, 1), (1, 0), (1, 1), (1, 0)],
    &[(0, 0), (0, 1), (0, 1), (0, 0), (1, 1)],
    &[0, 1],
);

const STRUCT_PLACES: Places = &[1, 0, 0, 1, 3, 0, 1, 3, 1, 3, 1, 1, 3, 0, 4, 1];

const NESTED: &[Case] = &[
    (&["l:list<bool?>?"], LISTS, 0, Ok(LIST_PLACES), Ok(7)),
    (
        &["n:null?", "p:struct<x:bool?,y:bool>"],
        STRUCTS,
        0,
        Ok(STRUCT_PLACES),
        Ok(5),
    ),
    // offsets that do not begin at 0, and then descend
    (
        &["s:utf8"],
        (
            1,
            &[(1, 0)],
            &[(0, 0), (0, 8), (0, 0)],
            &[1, 0, 0, 0, 0, 0, 0, 0],
        ),
        0,
        Err(Offsets),
        Err(Offsets),
    ),
    // a dictionary that is not there
    (
        &["d:dict<uint8,utf8>?"],
        (1, &[(1, 0)], &[(0, 0), (0, 1)], &[0]),
        0,
        Ok(&[1, 3, 0, 3, 1, 0, 0]),
        Err(DictionaryIndex),
    ),
];

// Batches of the column `a:int8?`, with the body of `INTEGERS`, and the fault of their arrays.
const FAULTY: &[(Batch, Fault)] = &[
    (
        (2, &[(2, 1), (2, 1)], INTEGER_BUFFERS, INTEGER_BODY),
        LayoutCount,
    ),
    ((3, INTEGER_NODES, INTEGER_BUFFERS, INTEGER_BODY), RowCount),
    (
        (2, INTEGER_NODES, &[(0, 1), (8, 3)], INTEGER_BODY),
        BufferRange,
    ),
    (
        (2, INTEGER_NODES, &[(0, 1), (8, 1)], INTEGER_BODY),
        BufferShort,
    ),
    ((2, &[(2, 0)], INTEGER_BUFFERS, INTEGER_BODY), NullCount),
];

/// Returns pairs as the metadata has them.
pub fn pair_bytes(alloc: Global, pairs: &[(u64, u64)]) -> Result<Vec<u8>, AllocError> {
    let mut bytes = Vec::new(alloc);
    for (first, second) in pairs {
        bytes.extend_from_slice(&first.to_le_bytes())?;
        bytes.extend_from_slice(&second.to_le_bytes())?;
    }
    Ok(bytes)
}

/// Returns the body of a batch with bytes around it.
pub fn bytes_around(alloc: Global, batch: &Batch) -> Result<Vec<u8>, AllocError> {
    let mut bytes = Vec::from_slice(alloc, &BEFORE)?;
    bytes.extend_from_slice(batch.3)?;
    bytes.extend_from_slice(&AFTER)?;
    Ok(bytes)
}

/// Returns where the body is in these bytes.
pub fn place_of(batch: &Batch) -> Span
    ensures { result.start + result.len < 2 ^ 64 }
{
    Span {
        start: BEFORE.len(),
        len: batch.3.len(),
    }
}

fn push_span(places: &mut Vec<usize>, span: Span) -> Result<(), AllocError> {
    places.push(span.start)?;
    places.push(span.len)?;
    Ok(())
}

fn push_spans(places: &mut Vec<usize>, layout: &PlacedLayout) -> Result<(), AllocError> {
    match layout {
        PlacedLayout::Null | PlacedLayout::FixedList(_) | PlacedLayout::Struct(_) => Ok(()),
        PlacedLayout::Bits(span) | PlacedLayout::Fixed(span) | PlacedLayout::List(span, _) => {
            push_span(places, *span)
        }
        PlacedLayout::Binary(offsets, contents) => {
            push_span(places, *offsets)?;
            push_span(places, *contents)
        }
        PlacedLayout::Dictionary(indices, part) => {
            push_span(places, *indices)?;
            places.push(part.number)?;
            places.push(part.count)?;
            Ok(())
        }
    }
}

fn push_array(places: &mut Vec<usize>, array: &PlacedArray) -> Result<(), AllocError> {
    places.push(array.slots)?;
    push_span(places, array.validity)?;
    push_spans(places, &array.layout)
}

fn push_below<'a>(
    every: &mut Vec<&'a PlacedArray>,
    array: &'a PlacedArray,
) -> Result<(), AllocError> {
    match &array.layout {
        PlacedLayout::List(_, items) | PlacedLayout::FixedList(items) => every.push(items)?,
        PlacedLayout::Struct(children) => {
            for child in children {
                every.push(child)?;
            }
        }
        _ => {}
    }
    Ok(())
}

// Returns the places of arrays of which there are at most ten, at every level.
fn places_of(alloc: Global, arrays: &[PlacedArray]) -> Result<Vec<usize>, AllocError> {
    let mut every: Vec<&PlacedArray> = Vec::new(alloc);
    for array in arrays {
        every.push(array)?;
    }
    let mut places = Vec::new(alloc);
    for place in 0..10 {
        if let Some(array) = every.get(place) {
            let array = *array;
            push_array(&mut places, array)?;
            push_below(&mut every, array)?;
        }
    }
    Ok(places)
}

/// Returns whether the arrays have these places.
pub fn have_places(
    alloc: Global,
    arrays: &[PlacedArray],
    want: &Result<Places, Fault>,
) -> Result<bool, NotMade> {
    match want {
        Ok(want) => Ok(places_of(alloc, arrays)?.as_slice() == *want),
        Err(_) => Ok(false),
    }
}

/// Returns whether an error is the fault that is wanted.
pub fn is_fault(error: ImportError, want: Option<Fault>) -> Result<bool, NotMade> {
    match error {
        ImportError::Fault(fault) => Ok(Some(fault) == want),
        ImportError::OutOfMemory => Err(NotMade),
    }
}

fn are_placed(
    alloc: Global,
    found: Result<Vec<PlacedArray>, ImportError>,
    case: &Case,
) -> Result<bool, NotMade> {
    match found {
        Ok(arrays) => have_places(alloc, &arrays, &case.3),
        Err(error) => is_fault(error, case.3.err()),
    }
}

fn is_weighed(
    alloc: Global,
    found: Result<PlacedBatch, ImportError>,
    case: &Case,
) -> Result<bool, NotMade> {
    match found {
        Ok(batch) => {
            Ok(have_places(alloc, &batch.arrays, &case.3)? && case.4 == Ok(batch.weight))
        }
        Err(error) => is_fault(error, case.4.err()),
    }
}

// Reads the batch of a case in both ways.
fn is_read(
    alloc: Global,
    schema: &Schema,
    raw: &RawBatch<'_>,
    bytes: &[u8],
    case: &Case,
) -> Result<bool, NotMade> {
    let body = place_of(&case.1);
    let arrays = read_arrays(alloc, &schema.fields, raw, body, bytes, &[], &[]);
    let batch = read(alloc, schema, case.2, raw, body, bytes, &[], &[]);
    Ok(are_placed(alloc, arrays, case)? && is_weighed(alloc, batch, case)?)
}

fn is_raw_read(
    alloc: Global,
    nodes: &[u8],
    buffers: &[u8],
    compressed: bool,
    case: &Case,
) -> Result<bool, NotMade> {
    let raw = RawBatch {
        length: case.1.0,
        nodes,
        buffers,
        compressed,
    };
    let schema = schema_of_columns(alloc, case.0)?;
    let bytes = bytes_around(alloc, &case.1)?;
    is_read(alloc, &schema, &raw, &bytes, case)
}

fn is_case(alloc: Global, case: &Case) -> Result<bool, NotMade> {
    let nodes = pair_bytes(alloc, case.1.1)?;
    let buffers = pair_bytes(alloc, case.1.2)?;
    let (fields, batch, before, _, _) = *case;
    let refused = (fields, batch, before, Err(Compressed), Err(Compressed));
    Ok(
        is_raw_read(alloc, &nodes, &buffers, false, case)?
            && is_raw_read(alloc, &nodes, &buffers, true, &refused)?,
    )
}

fn wrongly_read(alloc: Global, cases: &[Case]) -> Result<Option<usize>, NotMade> {
    for (place, case) in cases.iter().enumerate() {
        if !is_case(alloc, case)? {
            return Ok(Some(place));
        }
    }
    Ok(None)
}

#[test]
fn flat_batches_are_read(rt: HostRuntime) {
    assert_no_row(&rt, wrongly_read(rt.alloc(), FLAT));
}

#[test]
fn nested_batches_are_read(rt: HostRuntime) {
    assert_no_row(&rt, wrongly_read(rt.alloc(), NESTED));
}

fn wrongly_refused(alloc: Global) -> Result<Option<usize>, NotMade> {
    for (place, (batch, fault)) in FAULTY.iter().enumerate() {
        if !is_case(alloc, &(&["a:int8?"], *batch, 0, Err(*fault), Err(*fault)))? {
            return Ok(Some(place));
        }
    }
    Ok(None)
}

#[test]
fn faulty_batches_are_refused(rt: HostRuntime) {
    assert_no_row(&rt, wrongly_refused(rt.alloc()));
}
