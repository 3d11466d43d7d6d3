// Tests of streams that are read whole (decode), in pieces (Decoder), and for the place of their first fault (place): ipc_stream.
use crate::made::{NotMade, assert_no_row, has_rows, is_one_well};
use crate::stream_bytes::{DEEP, DICTIONARY, LIST_OF_NULLS, NULL_LAST, SHORT_NULL_LAST, TEXTS};
use Fault::{
    AfterEnd, BadParameter, BigEndian, BodyLength, BufferRange, BufferShort, Compressed,
    DeltaWithoutBase, DictionaryId, DictionaryIndex, DictionaryOfNested, FlatBounds, FlatBudget,
    HeaderKind, LayoutCount, MetadataSize, MetadataVersion, NoContinuation, NoSchema, NotUtf8,
    NullCount, NullForbidden, Offsets, RowCount, SchemaLimit, SecondSchema, TooHeavy, Truncated,
    TypeNotHeld,
};
use ipc_message::{Fault, ImportError, TypeName};
use ipc_stream::{Decoder, FinishError, decode, place};
use std::alloc::Global;
use values::Table;

// The expected rows of the table, or its fault with the number of the faulty message and the place of its first byte.
type Wanted = Result<&'static [&'static [&'static str]], (Fault, usize, usize)>;

// Ranges of the bytes of a stream, each with how often it is repeated; the changed bytes of the result; and what is expected.
type Row<'a> = (&'a [(usize, usize, usize)], &'a [(usize, u8)], Wanted);

// A changed byte of a whole stream, and what is expected. A table of these has no other slices than the expected rows, and costs less to prove.
type Change = (usize, u8, Wanted);

const ALL: &[(usize, usize, usize)] = &[(0, 1000, 1)];

const ONE_NULL: Wanted = Ok(&[&["1"], &["null"]]);

const NO_ROWS: Wanted = Ok(&[]);

// Changes of `NULL_LAST`, whose schema ends at 152, and its record batch at 320.
const SCHEMA_CHANGED: &[Change] = &[
    (0, 0x00, Err((NoContinuation, 0, 0))),
    (6, 0x01, Err((Truncated, 0, 0))),
    (7, 0x01, Err((MetadataSize, 0, 0))),
    (7, 0x80, Err((MetadataSize, 0, 0))),
    (8, 0xff, Err((FlatBounds, 0, 0))),
    (28, 0x03, Err((MetadataVersion, 0, 0))),
    (30, 0x04, Err((HeaderKind, 0, 0))),
    (47, 0x80, Err((BodyLength, 0, 0))),
    (60, 0x01, Err((BigEndian, 0, 0))),
];

const TYPE_CHANGED: &[Change] = &[
    (105, 0x03, Err((TypeNotHeld(TypeName::FloatingPoint), 0, 0))),
    (105, 0x1b, Err((TypeNotHeld(TypeName::Unknown), 0, 0))),
    (105, 0x00, Err((BadParameter, 0, 0))),
    (105, 0x0c, Err((BadParameter, 0, 0))),
    (140, 0x21, Err((BadParameter, 0, 0))),
    (120, 0xff, Err((NotUtf8, 0, 0))),
];

const BATCH_CHANGED: &[Change] = &[
    (206, 0x0c, Err((Compressed, 1, 152))),
    (105, 0x05, Err((LayoutCount, 1, 152))),
    (288, 0x09, Err((BufferRange, 1, 152))),
    (296, 0x07, Err((BufferShort, 1, 152))),
    (224, 0x03, Err((RowCount, 1, 152))),
    (256, 0x00, Err((NullCount, 1, 152))),
    (304, 0x03, Err((NullCount, 1, 152))),
    (104, 0x00, Err((NullForbidden, 1, 152))),
];

const UNCHANGED: &[Row<'static>] = &[(ALL, &[], ONE_NULL)];

const CUT: &[Row<'static>] = &[
    // without bytes at the end or at the beginning
    (&[], &[], Err((NoSchema, 0, 0))),
    (&[(0, 151, 1)], &[], Err((Truncated, 0, 0))),
    (&[(0, 152, 1)], &[], NO_ROWS),
    (&[(0, 153, 1)], &[], Err((Truncated, 1, 152))),
    (&[(0, 319, 1)], &[], Err((Truncated, 1, 152))),
    (&[(0, 320, 1)], &[], ONE_NULL),
    (&[(0, 327, 1)], &[], Err((Truncated, 2, 320))),
    (&[(152, 328, 1)], &[], Err((NoSchema, 0, 0))),
    (&[(320, 328, 1)], &[], Err((NoSchema, 0, 0))),
];

const REPEATED: &[Row<'static>] = &[
    // with repeated parts
    (
        &[(0, 152, 2), (152, 328, 1)],
        &[],
        Err((SecondSchema, 1, 152)),
    ),
    (
        &[(0, 152, 1), (152, 320, 2), (320, 328, 1)],
        &[],
        Ok(&[&["1"], &["null"], &["1"], &["null"]]),
    ),
    (
        &[(0, 152, 1), (152, 320, 2)],
        &[(424, 0x00)],
        Err((NullCount, 2, 320)),
    ),
    (&[(0, 328, 1), (0, 1, 1)], &[], Err((AfterEnd, 2, 320))),
    (&[(0, 328, 1), (0, 328, 1)], &[], Err((AfterEnd, 2, 320))),
];

// Changes of `SHORT_NULL_LAST`: the nullability of the column is at 104, the null count at 256, the lengths of the buffers at 280 and 296, the
// validity at 304 and the last value at 314.
const SHORT_CHANGED: &[Change] = &[
    (104, 0, Err((NullForbidden, 1, 152))),
    (256, 0, Err((NullCount, 1, 152))),
    (280, 0, Err((NullCount, 1, 152))),
    (296, 2, Err((BufferShort, 1, 152))),
    (304, 0x07, Err((NullCount, 1, 152))),
    (304, 0x05, Ok(&[&["123"], &["null"], &["0"]])),
    (304, 0xfb, Ok(LAST_NULL)),
    (314, 9, Ok(LAST_NULL)),
];

const SHORT_UNCHANGED: &[Row<'static>] = &[(ALL, &[], Ok(LAST_NULL))];

const LAST_NULL: &[&[&str]] = &[&["123"], &["-20"], &["null"]];

// Changes of `TEXTS`, with the offsets at 312, 316, 320 and 324.
const TEXTS_CHANGED: &[Change] = &[
    (324, 0x07, Err((Offsets, 1, 136))),
    (316, 0x01, Err((Offsets, 1, 136))),
    (324, 0x02, Err((NotUtf8, 1, 136))),
    (324, 0x05, Ok(&[&["'"], &["null"], &["'héll"]])),
];

const TEXTS_UNCHANGED: &[Row<'static>] = &[(ALL, &[], Ok(&[&["'"], &["null"], &["'héllo"]]))];

const WITHOUT_DICTIONARY: &[(usize, usize, usize)] = &[(0, 200, 1), (432, 608, 1)];

const TWICE: &[(usize, usize, usize)] = &[(0, 200, 1), (200, 600, 2), (600, 608, 1)];

// Changes of `DICTIONARY`: the schema ends at 200, the dictionary batch at 432 and the record batch at 600.
const DICTIONARY_CHANGED: &[Change] = &[
    (105, 0x0d, Err((DictionaryOfNested, 0, 0))),
    (272, 0x01, Err((DictionaryId, 1, 200))),
    (284, 0x01, Err((DeltaWithoutBase, 1, 200))),
    (424, 0xff, Err((NotUtf8, 1, 200))),
    (593, 0xff, Err((DictionaryIndex, 2, 432))),
    (593, 0x02, Err((DictionaryIndex, 2, 432))),
    // below a null there may be any value
    (595, 0xff, Ok(CODED)),
];

const DICTIONARY_UNCHANGED: &[Row<'static>] = &[(ALL, &[], Ok(CODED))];

const CODED: &[&[&str]] = &[&["'b"], &["'a"], &["'b"], &["null"]];

const DICTIONARY_LEFT_OUT: &[Row<'static>] = &[
    (WITHOUT_DICTIONARY, &[], Err((DictionaryIndex, 1, 200))),
    (
        WITHOUT_DICTIONARY,
        &[(304, 0x04), (352, 0x00)],
        Ok(&[&["null"], &["null"], &["null"], &["null"]]),
    ),
];

const DICTIONARY_TWICE: &[Row<'static>] = &[
    // the texts of another dictionary, in place of the first one and after it
    (
        TWICE,
        &[(824, 0x63), (825, 0x64)],
        Ok(&[
            &["'b"],
            &["'a"],
            &["'b"],
            &["null"],
            &["'c"],
            &["'d"],
            &["'c"],
            &["null"],
        ]),
    ),
    (
        TWICE,
        &[(684, 0x01), (824, 0x63), (825, 0x64), (994, 0x03)],
        Ok(&[
            &["'b"],
            &["'a"],
            &["'b"],
            &["null"],
            &["'b"],
            &["'a"],
            &["'d"],
            &["null"],
        ]),
    ),
];

// Changes of `LIST_OF_NULLS`, whose schema ends at 208: the length of the batch is at 280, that of its lists at 304, that of the nulls at 320, and
// the offsets are at 368.
const LISTS_CHANGED: &[Row<'static>] = &[
    (ALL, &[], NO_ROWS),
    (ALL, &[(320, 0x01)], Err((RowCount, 1, 208))),
    (ALL, &[(323, 0x00), (327, 0x10)], Err((RowCount, 1, 208))),
];

// Parts of `DEEP`: a front, whose number of columns is at 64, a struct of one child, one that names its child twice, and nulls. The size of the
// metadata is at 4.
const DEEP_CHANGED: &[Row<'static>] = &[
    (
        &[(0, 104, 1), (104, 140, 31), (180, 204, 1)],
        &[(4, 0xd4), (5, 0x04)],
        NO_ROWS,
    ),
    (
        &[(0, 104, 1), (104, 140, 32), (180, 204, 1)],
        &[(4, 0xf8), (5, 0x04)],
        Err((SchemaLimit, 0, 0)),
    ),
    (
        &[(0, 104, 1), (104, 140, 37), (180, 204, 1)],
        &[(4, 0xac), (5, 0x05)],
        Err((SchemaLimit, 0, 0)),
    ),
    (
        &[(0, 104, 1), (104, 140, 38), (180, 204, 1)],
        &[(4, 0xd0), (5, 0x05)],
        Err((FlatBudget, 0, 0)),
    ),
];

// Parts of `DICTIONARY`: its field twice, both on the same arrays, and its texts repeated to 8,388,608 bytes, so that the record batch begins at
// 8,389,032.
const IN_TWO_COLUMNS: &[(usize, usize, usize)] = &[
    (0, 424, 1),
    (424, 432, 1_048_576),
    (432, 544, 1),
    (528, 584, 1),
    (552, 608, 1),
];

// With a first text of 8,388,606 bytes a row weighs 16,777,215; with one byte more it is too heavy.
const HEAVY: &[(usize, u8)] = &[
    // two fields, of which the second is the first
    (68, 0x02),
    (76, 0x14),
    // the lengths of the body and of the texts, and where the two texts end
    (240, 0x10),
    (242, 0x80),
    (400, 0x00),
    (402, 0x80),
    (412, 0xfe),
    (413, 0xff),
    (414, 0x7f),
    (416, 0xfe),
    (417, 0xff),
    (418, 0x7f),
    // the size of the metadata, where its buffers begin, two nodes and four buffers
    (8_389_036, 0xc0),
    (8_389_116, 0x30),
    (8_389_124, 0x02),
    (8_389_164, 0x04),
];

const TOO_HEAVY: &[(usize, u8)] = &[
    (68, 0x02),
    (76, 0x14),
    (240, 0x10),
    (242, 0x80),
    (400, 0x00),
    (402, 0x80),
    (412, 0xff),
    (413, 0xff),
    (414, 0x7f),
    (416, 0xff),
    (417, 0xff),
    (418, 0x7f),
    (8_389_036, 0xc0),
    (8_389_116, 0x30),
    (8_389_124, 0x02),
    (8_389_164, 0x04),
];

// A list of 16,777,216 nulls; structs of 21 levels, each of which names the next one twice; 2,048 fields, and 2,049; long texts, cut seven times within
// their dictionary and once within the record batch. Each takes a while.
const MANY_NULLS: &[Row<'static>] = &[(
    ALL,
    &[(280, 0x01), (304, 0x01), (368, 0x08)],
    Err((TooHeavy, 1, 208)),
)];

const DEEPEST: &[Row<'static>] = &[
    (
        &[(0, 104, 1), (140, 180, 20), (180, 204, 1)],
        &[(4, 0x98), (5, 0x03)],
        Err((FlatBudget, 0, 0)),
    ),
    (
        &[(0, 104, 1), (140, 180, 10), (180, 204, 1)],
        &[(4, 0x08), (5, 0x02), (64, 0x02)],
        NO_ROWS,
    ),
    (
        &[(0, 104, 1), (140, 180, 10), (180, 204, 1)],
        &[(4, 0x08), (5, 0x02), (64, 0x03)],
        Err((SchemaLimit, 0, 0)),
    ),
];

const HEAVIEST: &[Row<'static>] = &[
    (
        IN_TWO_COLUMNS,
        HEAVY,
        Ok(&[
            &["#8388606", "#8388606"],
            &["'", "'"],
            &["#8388606", "#8388606"],
            &["null", "null"],
        ]),
    ),
    (IN_TWO_COLUMNS, TOO_HEAVY, Err((TooHeavy, 2, 8_389_032))),
];

// What is read. Each part has rows of its own, since the cost to prove a constant grows faster than its length.
#[derive(Clone, Copy)]
enum Part {
    Schema,
    Type,
    Batch,
    Cut,
    Repeated,
    ShortIntegers,
    Texts,
    Dictionary,
    DictionaryLeftOut,
    DictionaryTwice,
    Lists,
    Structs,
    ManyNulls,
    Deepest,
    Heaviest,
}

fn stream_of(part: Part) -> &'static [u8] {
    match part {
        Part::Schema | Part::Type | Part::Batch | Part::Cut | Part::Repeated => &NULL_LAST,
        Part::ShortIntegers => &SHORT_NULL_LAST,
        Part::Texts => &TEXTS,
        Part::Dictionary | Part::DictionaryLeftOut | Part::DictionaryTwice | Part::Heaviest => {
            &DICTIONARY
        }
        Part::Lists | Part::ManyNulls => &LIST_OF_NULLS,
        Part::Structs | Part::Deepest => &DEEP,
    }
}

fn changes_of(part: Part) -> &'static [Change] {
    match part {
        Part::Schema => SCHEMA_CHANGED,
        Part::Type => TYPE_CHANGED,
        Part::Batch => BATCH_CHANGED,
        Part::ShortIntegers => SHORT_CHANGED,
        Part::Texts => TEXTS_CHANGED,
        Part::Dictionary => DICTIONARY_CHANGED,
        _ => &[],
    }
}

fn rows_of(part: Part) -> &'static [Row<'static>] {
    match part {
        Part::Schema => UNCHANGED,
        Part::Type | Part::Batch => &[],
        Part::Cut => CUT,
        Part::Repeated => REPEATED,
        Part::ShortIntegers => SHORT_UNCHANGED,
        Part::Texts => TEXTS_UNCHANGED,
        Part::Dictionary => DICTIONARY_UNCHANGED,
        Part::DictionaryLeftOut => DICTIONARY_LEFT_OUT,
        Part::DictionaryTwice => DICTIONARY_TWICE,
        Part::Lists => LISTS_CHANGED,
        Part::Structs => DEEP_CHANGED,
        Part::ManyNulls => MANY_NULLS,
        Part::Deepest => DEEPEST,
        Part::Heaviest => HEAVIEST,
    }
}

const SHORT: &[Part] = &[
    Part::Schema,
    Part::Type,
    Part::Batch,
    Part::Cut,
    Part::Repeated,
    Part::ShortIntegers,
    Part::Texts,
    Part::Dictionary,
    Part::DictionaryLeftOut,
    Part::DictionaryTwice,
    Part::Lists,
    Part::Structs,
];

const LARGE: &[Part] = &[Part::ManyNulls, Part::Deepest, Part::Heaviest];

// Returns the size of a piece.
fn piece_of(part: Part) -> usize {
    match part {
        Part::Heaviest => 1_048_640,
        _ => 1,
    }
}

// Returns the bytes of a row.
fn bytes_of(alloc: Global, stream: &[u8], row: &Row<'_>) -> Result<Vec<u8>, NotMade> {
    let mut bytes = Vec::new(alloc);
    for (from, to, times) in row.0 {
        let end = stream.len().min(*to);
        let part = stream.get(*from..end).unwrap_or_default();
        for _ in 0..*times {
            bytes.extend_from_slice(part)?;
        }
    }
    for (at, byte) in row.1 {
        if let Some(to) = bytes.get_mut(*at) {
            *to = *byte;
        }
    }
    Ok(bytes)
}

fn is_meant(table: &Table, wanted: &Wanted) -> bool {
    match wanted {
        Ok(rows) => has_rows(table, rows),
        Err(_) => false,
    }
}

fn is_told(fault: Fault, wanted: &Wanted) -> bool {
    match wanted {
        Ok(_) => false,
        Err((same, _, _)) => fault == *same,
    }
}

// Returns whether the table or the fault is the expected one.
fn is_wanted(found: Result<Table, ImportError>, wanted: &Wanted) -> Result<bool, NotMade> {
    match found {
        Ok(table) => Ok(is_meant(&table, wanted)),
        Err(ImportError::Fault(fault)) => Ok(is_told(fault, wanted)),
        Err(ImportError::OutOfMemory) => Err(NotMade),
    }
}

fn is_decoded(alloc: Global, bytes: &[u8], wanted: &Wanted) -> Result<bool, NotMade> {
    is_wanted(decode(alloc, Vec::from_slice(alloc, bytes)?), wanted)
}

fn is_placed(alloc: Global, bytes: &[u8], wanted: &Wanted) -> Result<bool, NotMade> {
    match (place(alloc, bytes)?, wanted) {
        (None, Ok(_)) => Ok(true),
        (Some(found), Err((_, number, start))) => Ok(found == (*number, *start)),
        _ => Ok(false),
    }
}

// Feeds a piece, and again if memory was refused.
fn feed(alloc: Global, decoder: &mut Decoder, piece: &[u8]) -> Result<(), ImportError> {
    match decoder.feed(alloc, piece) {
        Err(ImportError::OutOfMemory) => decoder.feed(alloc, piece),
        fed => fed,
    }
}

// Returns whether a decoder that is fed a piece may go on or reports what is expected.
fn is_fed(
    alloc: Global,
    decoder: &mut Decoder,
    piece: &[u8],
    wanted: &Wanted,
) -> Result<bool, NotMade> {
    match feed(alloc, decoder, piece) {
        Ok(()) => Ok(true),
        Err(ImportError::Fault(fault)) => Ok(is_told(fault, wanted)),
        Err(ImportError::OutOfMemory) => Err(NotMade),
    }
}

// Finishes, and again if memory was refused.
fn finish(alloc: Global, decoder: Decoder) -> Result<Table, ImportError> {
    match decoder.finish(alloc) {
        Ok(table) => Ok(table),
        Err(FinishError::Fault(fault)) => Err(ImportError::Fault(fault)),
        Err(FinishError::OutOfMemory(decoder)) => {
            decoder.finish(alloc).ok().ok_or(ImportError::OutOfMemory)
        }
    }
}

// Feeds the first bytes at once, and the others in pieces of this size.
fn are_pieces_fed(
    alloc: Global,
    decoder: &mut Decoder,
    first: usize,
    size: usize,
    bytes: &[u8],
    wanted: &Wanted,
) -> Result<bool, NotMade> {
    let (front, rest) = bytes.split_at_checked(first).ok_or(NotMade)?;
    let mut well = is_fed(alloc, decoder, front, wanted)?;
    for piece in rest.chunks(size.max(1)) {
        well = is_fed(alloc, decoder, piece, wanted)? && well;
    }
    Ok(well)
}

fn is_read_in_pieces(
    alloc: Global,
    first: usize,
    size: usize,
    bytes: &[u8],
    wanted: &Wanted,
) -> Result<bool, NotMade> {
    let mut decoder = Decoder::new(alloc);
    let well = are_pieces_fed(alloc, &mut decoder, first, size, bytes, wanted)?;
    Ok(is_wanted(finish(alloc, decoder), wanted)? && well)
}

// Reads a stream whole, for the place of its fault, and in pieces of this size.
fn is_read(alloc: Global, bytes: &[u8], size: usize, wanted: &Wanted) -> Result<bool, NotMade> {
    Ok(
        is_decoded(alloc, bytes, wanted)?
            && is_placed(alloc, bytes, wanted)?
            && is_read_in_pieces(alloc, 0, size, bytes, wanted)?,
    )
}

// Reads a stream cut in two at every byte.
fn is_read_in_two(alloc: Global, bytes: &[u8], wanted: &Wanted) -> Result<bool, NotMade> {
    let mut well = true;
    for first in 0..=bytes.len() {
        well = well && is_read_in_pieces(alloc, first, bytes.len(), bytes, wanted)?;
    }
    Ok(well)
}

// Reads a stream in each way, and a short one also cut in two.
fn is_read_each_way(
    alloc: Global,
    bytes: &[u8],
    size: usize,
    is_short: bool,
    wanted: &Wanted,
) -> Result<bool, NotMade> {
    let well = is_read(alloc, bytes, size, wanted)?;
    if is_short {
        return Ok(well && is_read_in_two(alloc, bytes, wanted)?);
    }
    Ok(well)
}

fn is_row_read(alloc: Global, part: Part, row: &Row<'_>, is_short: bool) -> Result<bool, NotMade> {
    let bytes = &bytes_of(alloc, stream_of(part), row)?;
    is_read_each_way(alloc, bytes, piece_of(part), is_short, &row.2)
}

fn wrongly_read(alloc: Global, part: Part, is_short: bool) -> Result<Option<usize>, NotMade> {
    for (place, row) in rows_of(part).iter().enumerate() {
        if !is_row_read(alloc, part, row, is_short)? {
            return Ok(Some(place));
        }
    }
    Ok(None)
}

// Returns the place of the first wrong change, counted from fifty on.
fn wrongly_told(alloc: Global, part: Part, is_short: bool) -> Result<Option<usize>, NotMade> {
    for (place, (at, byte, wanted)) in changes_of(part).iter().enumerate() {
        if !is_row_read(alloc, part, &(ALL, &[(*at, *byte)], *wanted), is_short)? {
            return Ok(Some(place.wrapping_add(50)));
        }
    }
    Ok(None)
}

// Returns the place of the first wrong row, counting a hundred for each part.
fn wrong_part(alloc: Global, parts: &[Part], is_short: bool) -> Result<Option<usize>, NotMade> {
    for (number, part) in parts.iter().enumerate() {
        let read = wrongly_read(alloc, *part, is_short)?;
        let told = wrongly_told(alloc, *part, is_short)?;
        if let Some(place) = read.or(told) {
            return Ok(Some(number.wrapping_mul(100).wrapping_add(place)));
        }
    }
    Ok(None)
}

#[test]
fn short_streams_are_read_or_have_their_fault(rt: HostRuntime) {
    assert_no_row(&rt, wrong_part(rt.alloc(), SHORT, true));
}

#[test]
fn large_streams_are_read_or_have_their_fault(rt: HostRuntime) {
    assert_no_row(&rt, wrong_part(rt.alloc(), LARGE, false));
}

// Ranges of the bytes of `NULL_LAST`, and how many of them wait for the rest of their message if they are fed one by one.
const HELD: &[(usize, usize, usize)] = &[
    (0, 0, 0),
    (0, 1, 1),
    (0, 151, 151),
    (0, 152, 0),
    (0, 319, 167),
    (0, 320, 0),
    (0, 327, 7),
    (0, 328, 0),
    (1, 4, 3),
    // after a fault none wait
    (1, 5, 0),
];

fn held_of(alloc: Global, bytes: &[u8]) -> usize {
    let mut decoder = Decoder::new(alloc);
    for byte in bytes {
        let _ = decoder.feed(alloc, &[*byte]);
    }
    decoder.held()
}

fn wrongly_held(alloc: Global) -> Option<usize> {
    for (place, (from, to, held)) in HELD.iter().enumerate() {
        if held_of(alloc, NULL_LAST.get(*from..*to).unwrap_or_default()) != *held {
            return Some(place);
        }
    }
    None
}

#[test]
fn what_is_left_of_a_message_waits(rt: HostRuntime) {
    assert_no_row(&rt, Ok(wrongly_held(rt.alloc())));
}

fn is_null_read(alloc: Global) -> Result<bool, NotMade> {
    is_read(alloc, &SHORT_NULL_LAST, 1, &Ok(LAST_NULL))
}

// tests/refused_memory_in_crates refuses each allocation in turn, so one of the two runs may get no memory.
#[test]
fn a_stream_with_nulls_is_read_also_without_memory(rt: HostRuntime) {
    assert!(rt; is_one_well(is_null_read(rt.alloc()), is_null_read(rt.alloc())));
}

// Reads a stream in pieces that end within messages.
fn is_read_on(alloc: Global) -> Result<bool, NotMade> {
    is_read_in_pieces(alloc, 0, 100, &DICTIONARY, &Ok(CODED))
}

// tests/refused_memory_in_crates refuses at most one allocation, after which a decoder must go on.
#[test]
fn a_decoder_that_was_refused_goes_on_also_without_memory(rt: HostRuntime) {
    assert!(rt; matches!(is_read_on(rt.alloc()), Ok(true)));
}
