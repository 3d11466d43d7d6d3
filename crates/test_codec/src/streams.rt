// Tests of streams of tables that are made from rows (ipc_encode, ipc_stream). What the built program shows of streams is tested by scripts,
// without a proof (tests/program, tests/refused_memory).
use crate::made::{
    NotMade, assert_no_row, has_rows, is_one_well, schema_of_columns, table_of_rows,
};
use crate::stream_bytes::{
    END, MINUS_ONE, NO_FIELDS, NUMBER_TEXTS, NUMBERS, SCHEMA, SEVEN, THREE_ROWS, TWO_COLUMNS,
    batch, joined,
};
use arrow_schema::same_shape;
use ipc_encode::{encode, encode_to};
use ipc_stream::decode;
use std::alloc::{AllocError, Global};
use std::io::{self, Write};
use values::{Row, Table, Value};

const COLUMNS: &[&str] = &["a:int8", "b:uint64?"];

// How a table is made: from the rows of `NUMBERS`, from their cells, with three rows without columns, or with 4,097 rows.
#[derive(Clone, Copy)]
enum Made {
    OfRows,
    WithoutColumns,
    OverAPiece,
}

fn rows_of_numbers(alloc: Global) -> Result<Vec<Row>, AllocError> {
    let mut rows = Vec::new(alloc);
    for (first, second) in NUMBERS {
        let cells = vec![in alloc; Value::Int(*first), Value::Int(*second)]?;
        rows.push(Row { cells })?;
    }
    Ok(rows)
}

// One row more than a full batch has: 7, -1, and 2 to 4,096.
const MANY: u32 = 4097;

fn rows_of_many(alloc: Global) -> Result<Vec<Row>, AllocError> {
    let mut rows = Vec::new(alloc);
    for number in 0..MANY {
        let value = Value::Int(match number {
            0 => 7,
            1 => -1,
            _ => i128::from(number),
        });
        let cells = vec![in alloc; value]?;
        rows.push(Row { cells })?;
    }
    Ok(rows)
}

fn empty_rows(alloc: Global, count: usize) -> Result<Vec<Row>, AllocError> {
    let mut rows = Vec::new(alloc);
    for _ in 0..count {
        let cells = Vec::new(alloc);
        rows.push(Row { cells })?;
    }
    Ok(rows)
}

// Returns the same numbers as a batch contains them.
fn many(alloc: Global) -> Result<Vec<u32>, AllocError> {
    let mut rows = Vec::new(alloc);
    for number in 0..MANY {
        rows.push(match number {
            0 => SEVEN,
            1 => MINUS_ONE,
            _ => number,
        })?;
    }
    Ok(rows)
}

fn add_batch(alloc: Global, stream: &mut Vec<u8>, rows: &[u32]) -> Result<(), AllocError> {
    stream.extend_from_slice(&batch(alloc, rows)?)
}

fn add_batches(alloc: Global, stream: &mut Vec<u8>, rows: &[u32]) -> Result<(), AllocError> {
    add_batch(alloc, stream, rows.get(..4096).unwrap_or(&[]))?;
    add_batch(alloc, stream, rows.get(4096..).unwrap_or(&[]))?;
    stream.extend_from_slice(&END)
}

// Returns the canonical stream of these rows.
fn stream_of_many(alloc: Global) -> Result<Vec<u8>, AllocError> {
    let mut stream = Vec::from_slice(alloc, &SCHEMA)?;
    add_batches(alloc, &mut stream, &many(alloc)?)?;
    Ok(stream)
}

fn table_of(alloc: Global, made: Made) -> Result<Table, NotMade> {
    match made {
        Made::OfRows => table_of_rows(alloc, COLUMNS, rows_of_numbers(alloc)?),
        Made::WithoutColumns => table_of_rows(alloc, &[], empty_rows(alloc, 3)?),
        Made::OverAPiece => table_of_rows(alloc, &["a:int32"], rows_of_many(alloc)?),
    }
}

// Returns the bytes that another writer makes of the table.
fn bytes_of(alloc: Global, made: Made) -> Result<Vec<u8>, AllocError> {
    match made {
        Made::OfRows => joined(alloc, &[&TWO_COLUMNS]),
        Made::WithoutColumns => joined(alloc, &[&NO_FIELDS, &THREE_ROWS, &END]),
        Made::OverAPiece => stream_of_many(alloc),
    }
}

fn is_stream_of(alloc: Global, table: &Table, bytes: &[u8]) -> Result<bool, NotMade> {
    Ok(encode(alloc, table)?.as_slice() == bytes)
}

fn is_written(alloc: Global, made: Made) -> Result<bool, NotMade> {
    let table = table_of(alloc, made)?;
    is_stream_of(alloc, &table, &bytes_of(alloc, made)?)
}

// A writer that counts the bytes that it was given, and those of them that were flushed.
#[derive(Clone, Copy)]
struct CountingWriter {
    written: usize,
    flushed: usize,
}

impl Write for CountingWriter {
    fn write(&mut self, buf: &[u8]) -> io::Result<usize> {
        self.written = self.written.saturating_add(buf.len());
        Ok(buf.len())
    }

    fn flush(&mut self) -> io::Result<()> {
        self.flushed = self.written;
        Ok(())
    }
}

// Returns whether all bytes of a stream are written and flushed.
fn goes_out(alloc: Global, made: Made) -> Result<bool, NotMade> {
    let table = table_of(alloc, made)?;
    let mut writer = CountingWriter {
        written: 0,
        flushed: 0,
    };
    let well = encode_to(alloc, &table, &mut writer).is_ok();
    Ok(well && writer.flushed == bytes_of(alloc, made)?.len())
}

const ALL: &[Made] = &[Made::OfRows, Made::WithoutColumns, Made::OverAPiece];

fn wrongly_written(alloc: Global) -> Result<Option<usize>, NotMade> {
    for (place, made) in ALL.iter().enumerate() {
        if !is_written(alloc, *made)? || !goes_out(alloc, *made)? {
            return Ok(Some(place));
        }
    }
    Ok(None)
}

#[test]
fn tables_are_written_as_another_writer_does(rt: HostRuntime) {
    assert_no_row(&rt, wrongly_written(rt.alloc()));
}

// tests/refused_memory_in_crates refuses each allocation in turn, so one of the two runs may get no memory.
#[test]
fn rows_are_written_also_without_memory(rt: HostRuntime) {
    let first = is_written(rt.alloc(), Made::OfRows);
    let second = is_written(rt.alloc(), Made::OfRows);
    assert!(rt; is_one_well(first, second));
}

// The numbers of rows of the record batches of a stream, and of those that are written. A piece has values of long runs, of short ones, of empty ones
// between, of runs that end within another piece, and more than are gathered before they are written.
type Batches = (&'static [u32], &'static [u32]);

const SHORT: &[Batches] = &[
    (&[100, 0, 65], &[165]),
    (&[64, 64], &[128]),
    (&[3, 0, 2], &[5]),
    (&[1023, 1024, 1025], &[3072]),
    (&[5000, 1, 5000], &[4096, 4096, 1809]),
    (&[1000; 20], &[4096, 4096, 4096, 4096, 3616]),
];

fn numbers(alloc: Global, from: u32, to: u32) -> Result<Vec<u32>, AllocError> {
    let mut numbers = Vec::new(alloc);
    for number in from..to {
        numbers.push(number)?;
    }
    Ok(numbers)
}

// Returns the stream of the numbers from 0 on, in batches of so many rows.
fn stream_of_batches(alloc: Global, batches: &[u32]) -> Result<Vec<u8>, AllocError> {
    let mut stream = Vec::from_slice(alloc, &SCHEMA)?;
    let mut from = 0u32;
    for rows in batches {
        let to = from.wrapping_add(*rows);
        add_batch(alloc, &mut stream, &numbers(alloc, from, to)?)?;
        from = to;
    }
    stream.extend_from_slice(&END)?;
    Ok(stream)
}

fn table_of_stream(alloc: Global, stream: Vec<u8>) -> Result<Table, NotMade> {
    decode(alloc, stream).map_err(|_| NotMade)
}

// Returns whether a table is written as these bytes, with its parts joined or one after another.
fn is_written_as(alloc: Global, table: &Table, bytes: &[u8]) -> Result<bool, NotMade> {
    let mut out = Vec::new(alloc);
    let well = encode_to(alloc, table, &mut out).is_ok();
    Ok(is_stream_of(alloc, table, bytes)? && well && out.as_slice() == bytes)
}

fn is_cut(alloc: Global, case: &Batches) -> Result<bool, NotMade> {
    let table = table_of_stream(alloc, stream_of_batches(alloc, case.0)?)?;
    is_written_as(alloc, &table, &stream_of_batches(alloc, case.1)?)
}

fn wrongly_cut(alloc: Global) -> Result<Option<usize>, NotMade> {
    for (place, case) in SHORT.iter().enumerate() {
        if !is_cut(alloc, case)? {
            return Ok(Some(place));
        }
    }
    Ok(None)
}

#[test]
fn batches_are_written_in_pieces(rt: HostRuntime) {
    assert_no_row(&rt, wrongly_cut(rt.alloc()));
}

fn are_numbers(alloc: Global, table: &Table) -> Result<bool, NotMade> {
    let schema = schema_of_columns(alloc, COLUMNS)?;
    Ok(has_rows(table, NUMBER_TEXTS) && same_shape(table.schema(), &schema))
}

fn is_read(alloc: Global) -> Result<bool, NotMade> {
    match decode(alloc, Vec::from_slice(alloc, &TWO_COLUMNS)?) {
        Ok(again) => are_numbers(alloc, &again),
        Err(_) => Err(NotMade),
    }
}

#[test]
fn what_is_written_of_rows_is_read_as_them(rt: HostRuntime) {
    assert!(rt; matches!(is_read(rt.alloc()), Ok(true)));
}
