// Tests of batches that are built from rows (batch_build). The expected values are worked out by hand from the standard (Arrow columnar format,
// "Physical Memory Layout").
use crate::made::{NotMade, assert_no_row, table_of_lines};
use batch_build::{BuiltBatch, BuiltBuffer, BuiltDictionary, build};
use columns::rows_can_be_built;
use std::alloc::Global;
use values::Table;

// The numbers of slots and of nulls of each node.
type Nodes = &'static [(u64, u64)];

type Buffers = &'static [&'static [u8]];

// Of each dictionary the number of its values, its nodes and its buffers.
type Dictionaries = &'static [(u64, Nodes, Buffers)];

// The fields, a row as a line of JSON, the nodes and buffers of its batch, and its dictionaries. The cases are split into parts, since the cost to
// prove a constant grows faster than its length.
type Case = (
    &'static [&'static str],
    &'static str,
    Nodes,
    Buffers,
    Dictionaries,
);

const NULLS: &[Case] = &[
    (&["a:null?"], "[null]", &[(1, 1)], &[], &[]),
    (&["a:bool?"], "[true]", &[(1, 0)], &[&[], &[1]], &[]),
    (&["a:bool?"], "[null]", &[(1, 1)], &[&[0], &[0]], &[]),
];

const INTEGERS: &[Case] = &[
    (&["a:uint8"], "[200]", &[(1, 0)], &[&[], &[200]], &[]),
    (&["a:int16?"], "[-2]", &[(1, 0)], &[&[], &[254, 255]], &[]),
    (
        &["a:int32?"],
        "[null]",
        &[(1, 1)],
        &[&[0], &[0, 0, 0, 0]],
        &[],
    ),
];

const TIMES: &[Case] = &[
    (
        &["a:date_day?"],
        "[-1]",
        &[(1, 0)],
        &[&[], &[255, 255, 255, 255]],
        &[],
    ),
    (
        &["a:date_ms?"],
        "[1]",
        &[(1, 0)],
        &[&[], &[1, 0, 0, 0, 0, 0, 0, 0]],
        &[],
    ),
    (
        &["a:timestamp_ns(UTC)?"],
        "[256]",
        &[(1, 0)],
        &[&[], &[0, 1, 0, 0, 0, 0, 0, 0]],
        &[],
    ),
];

const TEXTS: &[Case] = &[
    (
        &["a:utf8?"],
        "[\"é\"]",
        &[(1, 0)],
        &[&[], &[0, 0, 0, 0, 2, 0, 0, 0], &[195, 169]],
        &[],
    ),
    (
        &["a:large_utf8?"],
        "[null]",
        &[(1, 1)],
        &[&[0], &[0, 0, 0, 0, 0, 0, 0, 0, 0, 0, 0, 0, 0, 0, 0, 0], &[]],
        &[],
    ),
];

const BYTES: &[Case] = &[
    (
        &["a:binary?"],
        "[\"00ff\"]",
        &[(1, 0)],
        &[&[], &[0, 0, 0, 0, 2, 0, 0, 0], &[0, 255]],
        &[],
    ),
    (
        &["a:large_binary?"],
        "[\"07\"]",
        &[(1, 0)],
        &[&[], &[0, 0, 0, 0, 0, 0, 0, 0, 1, 0, 0, 0, 0, 0, 0, 0], &[7]],
        &[],
    ),
    (
        &["a:fixed_binary(2)?"],
        "[null]",
        &[(1, 1)],
        &[&[0], &[0, 0]],
        &[],
    ),
];

const LISTS: &[Case] = &[
    (
        &["a:list<utf8?>?"],
        "[[\"x\",null]]",
        &[(1, 0), (2, 1)],
        &[
            &[],
            &[0, 0, 0, 0, 2, 0, 0, 0],
            &[1],
            &[0, 0, 0, 0, 1, 0, 0, 0, 1, 0, 0, 0],
            &[120],
        ],
        &[],
    ),
    (
        &["a:large_list<bool?>?"],
        "[[true,null,true]]",
        &[(1, 0), (3, 1)],
        &[
            &[],
            &[0, 0, 0, 0, 0, 0, 0, 0, 3, 0, 0, 0, 0, 0, 0, 0],
            &[5],
            &[5],
        ],
        &[],
    ),
];

const FIXED_LISTS: &[Case] = &[(
    &["a:fixed_list(2,int8)?"],
    "[null]",
    &[(1, 1), (2, 2)],
    &[&[0], &[0], &[0, 0]],
    &[],
)];

const STRUCTS: &[Case] = &[(
    &["a:struct<x:bool?,y:struct<z:int8?>?>?", "b:uint8"],
    "[[true,null],9]",
    &[(1, 0), (1, 0), (1, 1), (1, 1), (1, 0)],
    &[&[], &[], &[1], &[0], &[0], &[0], &[], &[9]],
    &[],
)];

const DICTIONARIES: &[Case] = &[(
    &["a:list<dict<int16,utf8>?>?", "b:dict<uint8,int16>"],
    "[[\"b\",\"a\",null,\"b\"],7]",
    &[(1, 0), (4, 1), (1, 0)],
    &[
        &[],
        &[0, 0, 0, 0, 4, 0, 0, 0],
        &[11],
        &[0, 0, 1, 0, 0, 0, 0, 0],
        &[],
        &[0],
    ],
    &[
        (
            2,
            &[(2, 0)],
            &[&[], &[0, 0, 0, 0, 1, 0, 0, 0, 2, 0, 0, 0], &[98, 97]],
        ),
        (1, &[(1, 0)], &[&[], &[7, 0]]),
    ],
)];

fn batches(part: usize) -> Option<&'static [Case]> {
    Some(match part {
        0 => NULLS,
        1 => INTEGERS,
        2 => TIMES,
        3 => TEXTS,
        4 => BYTES,
        5 => LISTS,
        6 => FIXED_LISTS,
        7 => STRUCTS,
        8 => DICTIONARIES,
        _ => return None,
    })
}

// Builds the batch of the first row of a table.
fn batch_of_row(alloc: Global, table: &Table) -> Result<BuiltBatch<'_>, NotMade> {
    rows_can_be_built();
    match table.row(0) {
        None => Err(NotMade),
        Some(row) => Ok(build(alloc, &table.schema().fields, &[row])?),
    }
}

fn is_buffer(built: Option<&BuiltBuffer<'_>>, want: &[u8]) -> bool {
    match built {
        Some(BuiltBuffer::Whole(built)) => built.bytes() == want,
        _ => false,
    }
}

fn are_buffers(built: &[BuiltBuffer<'_>], want: Buffers) -> bool {
    let mut well = built.len() == want.len();
    let mut place = 0usize;
    for bytes in want {
        well = well && is_buffer(built.get(place), bytes);
        place = place.wrapping_add(1);
    }
    well
}

fn is_dictionary(
    built: Option<&BuiltDictionary<'_>>,
    slots: u64,
    nodes: Nodes,
    buffers: Buffers,
) -> bool {
    match built {
        Some(built) => {
            built.slots == slots
                && built.nodes.as_slice() == nodes
                && are_buffers(&built.buffers, buffers)
        }
        None => false,
    }
}

fn are_dictionaries(built: &[BuiltDictionary<'_>], want: Dictionaries) -> bool {
    let mut well = built.len() == want.len();
    let mut place = 0usize;
    for (slots, nodes, buffers) in want {
        well = well && is_dictionary(built.get(place), *slots, *nodes, *buffers);
        place = place.wrapping_add(1);
    }
    well
}

fn is_meant(built: &BuiltBatch<'_>, case: &Case) -> bool {
    built.nodes.as_slice() == case.2
        && are_buffers(&built.buffers, case.3)
        && are_dictionaries(&built.dictionaries, case.4)
}

fn is_built_of(alloc: Global, table: &Table, case: &Case) -> Result<bool, NotMade> {
    match batch_of_row(alloc, table) {
        Ok(batch) => Ok(is_meant(&batch, case)),
        Err(error) => Err(error),
    }
}

fn is_built(alloc: Global, case: &Case) -> Result<bool, NotMade> {
    is_built_of(alloc, &table_of_lines(alloc, case.0, case.1)?, case)
}

fn wrongly_built(alloc: Global, cases: &[Case]) -> Result<Option<usize>, NotMade> {
    for (place, case) in cases.iter().enumerate() {
        if !is_built(alloc, case)? {
            return Ok(Some(place));
        }
    }
    Ok(None)
}

// Returns the place of the first wrong case, counting a hundred for each part.
fn wrong_part(alloc: Global) -> Result<Option<usize>, NotMade> {
    for part in 0..usize::MAX {
        let Some(cases) = batches(part) else {
            return Ok(None);
        };
        if let Some(place) = wrongly_built(alloc, cases)? {
            return Ok(Some(part.wrapping_mul(100).wrapping_add(place)));
        }
    }
    Ok(None)
}

#[test]
fn rows_are_built_as_arrays(rt: HostRuntime) {
    assert_no_row(&rt, wrong_part(rt.alloc()));
}
