// Tests of the columns of a schema that have dictionaries, and of dictionary batches that are read (arrays). The expected answers are worked out by hand
// from the standard (Schema.fbs, "DictionaryEncoding"; Message.fbs, "DictionaryBatch") and from docs/formats/reading.md.
use crate::made::{NotMade, assert_no_row};
use crate::record_batches::{
    BAD_TEXTS, Batch, HIDDEN_PLACES, HIDDEN_TEXTS, INTEGER_PLACES, INTEGERS, Places, TEXT_PLACES,
    TEXTS, bytes_around, have_places, is_fault, pair_bytes, place_of,
};
use Fault::{DeltaWithoutBase, DictionaryId, LayoutCount, NotUtf8};
use arrays::{DictionaryColumns, read_dictionary, read_dictionary_columns};
use arrow_schema::Field;
use columns::no_array;
use dictionary::Dictionaries;
use field_texts::{field_text, parse_fields};
use ipc_message::type_codes::{INT, LIST, UTF8};
use ipc_message::{
    Encoding, Fault, Parameters, RawBatch, RawDictionaryBatch, RawField, RawSchema, read_schema,
};
use std::alloc::{AllocError, Global};

// The type of a field and its parameters; the id of its dictionary and the width and the sign of its indices, if it has one; and whether it is the item
// of a list.
type Column = (u8, Parameters<'static>, Option<(u64, u32, bool)>, bool);

// The columns of a schema; the ids of its dictionaries, and their values as they are printed.
const SCHEMAS: &[(&[Column], &[u64], &[&str])] = &[
    (&[], &[], &[]),
    (
        &[
            (UTF8, Parameters::Nothing, Some((7, 8, true)), false),
            (INT, Parameters::Integer(32, true), None, false),
            (UTF8, Parameters::Nothing, Some((7, 16, false)), true),
            (
                INT,
                Parameters::Integer(16, false),
                Some((300, 64, true)),
                false,
            ),
        ],
        &[7, 7, 300],
        &["\"\":utf8?", "\"\":utf8?", "\"\":uint16?"],
    ),
];

fn raw_field(alloc: Global, code: u8, parameters: Parameters<'static>) -> RawField<'static> {
    RawField {
        name: b"a",
        nullable: false,
        code,
        parameters,
        dictionary: None,
        children: Vec::new(alloc),
        pairs: Vec::new(alloc),
    }
}

fn encoding_of(dictionary: Option<(u64, u32, bool)>) -> Option<Encoding> {
    let (id, width, signed) = dictionary?;
    Some(Encoding {
        id,
        width,
        signed,
        kind: 0,
    })
}

fn raw_column(alloc: Global, column: &Column) -> Result<RawField<'static>, AllocError> {
    let mut field = raw_field(alloc, column.0, column.1);
    field.dictionary = encoding_of(column.2);
    if !column.3 {
        return Ok(field);
    }
    let mut list = raw_field(alloc, LIST, Parameters::Nothing);
    list.children.push(field)?;
    Ok(list)
}

fn raw_schema(alloc: Global, columns: &[Column]) -> Result<RawSchema<'static>, AllocError> {
    let mut fields = Vec::new(alloc);
    for column in columns {
        fields.push(raw_column(alloc, column)?)?;
    }
    Ok(RawSchema {
        endianness: 0,
        fields,
        pairs: Vec::new(alloc),
    })
}

fn are_printed(alloc: Global, values: &[Field], want: &[&str]) -> Result<bool, AllocError> {
    let mut well = values.len() == want.len();
    for (field, text) in values.iter().zip(want) {
        well = field_text(alloc, field)?.as_str() == *text && well;
    }
    Ok(well)
}

fn has_dictionaries(
    alloc: Global,
    raw: &RawSchema<'_>,
    ids: &[u64],
    values: &[&str],
) -> Result<bool, NotMade> {
    let Ok(_schema) = read_schema(alloc, raw) else {
        return Err(NotMade);
    };
    let columns = read_dictionary_columns(alloc, raw)?;
    Ok(columns.ids.as_slice() == ids && are_printed(alloc, &columns.values, values)?)
}

fn wrong_schema(alloc: Global) -> Result<Option<usize>, NotMade> {
    for (place, (columns, ids, values)) in SCHEMAS.iter().enumerate() {
        if !has_dictionaries(alloc, &raw_schema(alloc, columns)?, ids, values)? {
            return Ok(Some(place));
        }
    }
    Ok(None)
}

#[test]
fn columns_with_dictionaries_are_found(rt: HostRuntime) {
    assert_no_row(&rt, wrong_schema(rt.alloc()));
}

// The ids of dictionary columns, and their values. The first column of an id has those of all.
const IDS: &[u64] = &[5, 300, 5];

const VALUES: &[&str] = &["x:int8?", "y:utf8?", "z:utf8?"];

// The ids that have a dictionary; the id of a batch, and whether it is a delta; and the places of its array, or its fault.
type Case = (&'static [u64], u64, bool, Batch, Result<Places, Fault>);

const CASES: &[Case] = &[
    (&[], 5, false, INTEGERS, Ok(INTEGER_PLACES)),
    (&[5], 5, true, INTEGERS, Ok(INTEGER_PLACES)),
    (&[], 300, false, TEXTS, Ok(TEXT_PLACES)),
    (&[], 300, false, HIDDEN_TEXTS, Ok(HIDDEN_PLACES)),
    (&[], 300, false, BAD_TEXTS, Err(NotUtf8)),
    (&[], 5, false, TEXTS, Err(LayoutCount)),
    (&[300], 5, true, TEXTS, Err(DeltaWithoutBase)),
    (&[7], 7, true, INTEGERS, Err(DictionaryId)),
];

fn dictionary_columns(alloc: Global) -> Result<DictionaryColumns, NotMade> {
    let values = parse_fields(alloc, VALUES)?;
    Ok(DictionaryColumns {
        ids: Vec::from_slice(alloc, IDS)?,
        values,
    })
}

fn dictionaries_of(alloc: Global, ids: &[u64]) -> Result<Dictionaries, AllocError> {
    let mut dictionaries = Dictionaries::new(alloc);
    for id in ids {
        dictionaries.replace(alloc, *id, no_array())?;
    }
    Ok(dictionaries)
}

fn is_read(
    alloc: Global,
    columns: &DictionaryColumns,
    before: &Dictionaries,
    raw: &RawDictionaryBatch<'_>,
    case: &Case,
) -> Result<bool, NotMade> {
    let bytes = bytes_around(alloc, &case.3)?;
    match read_dictionary(alloc, columns, before, raw, place_of(&case.3), &bytes) {
        Ok(array) => have_places(alloc, &[array], &case.4),
        Err(error) => is_fault(error, case.4.err()),
    }
}

fn is_raw_read(alloc: Global, nodes: &[u8], buffers: &[u8], case: &Case) -> Result<bool, NotMade> {
    let raw = RawDictionaryBatch {
        id: case.1,
        batch: RawBatch {
            length: case.3.0,
            nodes,
            buffers,
            compressed: false,
        },
        is_delta: case.2,
    };
    let columns = dictionary_columns(alloc)?;
    let before = dictionaries_of(alloc, case.0)?;
    is_read(alloc, &columns, &before, &raw, case)
}

fn is_case(alloc: Global, case: &Case) -> Result<bool, NotMade> {
    let nodes = pair_bytes(alloc, case.3.1)?;
    let buffers = pair_bytes(alloc, case.3.2)?;
    is_raw_read(alloc, &nodes, &buffers, case)
}

fn wrongly_read(alloc: Global) -> Result<Option<usize>, NotMade> {
    for (place, case) in CASES.iter().enumerate() {
        if !is_case(alloc, case)? {
            return Ok(Some(place));
        }
    }
    Ok(None)
}

#[test]
fn dictionary_batches_are_read(rt: HostRuntime) {
    assert_no_row(&rt, wrongly_read(rt.alloc()));
}
