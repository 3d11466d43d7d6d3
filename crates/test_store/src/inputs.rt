// Streams to import and append, and the schemas of new tables.
ghost use Rattle.std.specs.Prelude.{IfOk};
ghost use Rattle.arrow_schema.specs.View.{schema_of};
ghost use Rattle.arrow_schema.specs.Limits.{IsWithinLimits};

use crate::made::NotMade;
use arrow_schema::Schema;
use field_texts::parse_fields;
use ipc_encode::encode;
use ipc_write::{BatchContents, write_batch, write_end, write_schema};
use std::alloc::{AllocError, Global};
use values::{Row, Table, Value};

/// The one column of most tests.
pub const INT: &[&str] = &["a:int32?"];

/// A cell of a given row.
#[derive(Clone, Copy)]
pub enum Cell {
    Null,
    Number(i32),
    Text(&'static str),
}

/// Given rows.
pub type Given = &'static [&'static [Cell]];

fn value_of(alloc: Global, cell: Cell) -> Result<Value, AllocError> {
    match cell {
        Cell::Null => Ok(Value::Null),
        Cell::Number(number) => Ok(Value::Int(i128::from(number))),
        Cell::Text(text) => Ok(Value::Text(String::from_str(alloc, text)?)),
    }
}

fn row_of(alloc: Global, cells: &[Cell]) -> Result<Row, AllocError> {
    let mut row = Vec::with_capacity(alloc, cells.len())?;
    for cell in cells {
        row.push(value_of(alloc, *cell)?)?;
    }
    Ok(Row { cells: row })
}

/// Makes rows of these cells.
pub fn rows_of(alloc: Global, given: &[&[Cell]]) -> Result<Vec<Row>, AllocError> {
    let mut rows = Vec::with_capacity(alloc, given.len())?;
    for cells in given {
        rows.push(row_of(alloc, cells)?)?;
    }
    Ok(rows)
}

/// A stream.
#[derive(Clone, Copy)]
pub enum Input {
    /// A column `a:int32?` with these values.
    Ints(&'static [i32]),
    /// Such a column with this number of values, from 0 on.
    First(u32),
    /// One column of this field text, with these values.
    Column(&'static str, &'static [i32]),
    /// These columns and this number of rows: each value is that of the row's number, from this one on.
    Range(&'static [&'static str], i32, u32),
    /// One column `l:list<utf8>` with a row for each number: a list of that many distinct texts.
    Texts(&'static [u32]),
    /// This number of rows without a column.
    NoColumns(usize),
    /// The stream of 7 and -1, 320 bytes, with these bytes changed.
    Changed(&'static [(usize, u8)]),
    /// This number of its first bytes.
    Front(usize),
}

fn schema_of(alloc: Global, columns: &[&str]) -> Result<Schema, NotMade> {
    let fields = parse_fields(alloc, columns)?;
    Ok(Schema {
        fields,
        pairs: Vec::new(alloc),
    })
}

// Returns rows of one cell each.
fn rows_of_cells(alloc: Global, cells: Vec<Value>) -> Result<Vec<Row>, AllocError> {
    let mut rows = Vec::with_capacity(alloc, cells.len())?;
    for cell in cells {
        let cells = vec![in alloc; cell]?;
        rows.push(Row { cells })?;
    }
    Ok(rows)
}

fn table_of_rows(alloc: Global, schema: Schema, rows: Vec<Row>) -> Result<Table, NotMade> {
    if schema.check().is_err() {
        return Err(NotMade);
    }
    Table::new(alloc, schema, rows).map_err(|_| NotMade)
}

// Returns the canonical stream of a table with these values in its one column.
fn stream_of(alloc: Global, columns: &[&str], cells: Vec<Value>) -> Result<Vec<u8>, NotMade> {
    let rows = rows_of_cells(alloc, cells)?;
    let table = table_of_rows(alloc, schema_of(alloc, columns)?, rows)?;
    Ok(encode(alloc, &table)?)
}

// The maximum number of rows of a record batch.
const ROWS_IN_BATCH: usize = 16_777_216;

// Appends a record batch of rows without a column.
fn add_rows_alone(alloc: Global, stream: &mut Vec<u8>, rows: usize) -> Result<(), NotMade> {
    if rows > ROWS_IN_BATCH {
        return Err(NotMade);
    }
    let contents = BatchContents {
        rows: rows as u64,
        nodes: Vec::new(alloc),
        buffers: &[],
    };
    Ok(write_batch(alloc, stream, contents)?)
}

fn add_schema_alone(alloc: Global, stream: &mut Vec<u8>) -> Result<(), NotMade> {
    Ok(write_schema(alloc, stream, &new_schema(alloc, &[])?)?)
}

fn add_stream_alone(alloc: Global, stream: &mut Vec<u8>, rows: usize) -> Result<(), NotMade> {
    add_schema_alone(alloc, stream)?;
    for _ in 0..rows / ROWS_IN_BATCH {
        add_rows_alone(alloc, stream, ROWS_IN_BATCH)?;
    }
    let rest = rows % ROWS_IN_BATCH;
    if rest > 0 {
        add_rows_alone(alloc, stream, rest)?;
    }
    Ok(write_end(stream)?)
}

// Returns a stream of rows without a column, in as few record batches as possible: many rows take no longer to make than few.
fn rows_alone(alloc: Global, rows: usize) -> Result<Vec<u8>, NotMade> {
    let mut stream = Vec::new(alloc);
    add_stream_alone(alloc, &mut stream, rows)?;
    Ok(stream)
}

fn cells_of(alloc: Global, values: &[i32]) -> Result<Vec<Value>, AllocError> {
    let mut cells = Vec::with_capacity(alloc, values.len())?;
    for value in values {
        cells.push(Value::Int(i128::from(*value)))?;
    }
    Ok(cells)
}

fn first_cells(alloc: Global, count: u32) -> Result<Vec<Value>, AllocError> {
    let mut cells = Vec::with_capacity(alloc, count as usize)?;
    for number in 0..count {
        cells.push(Value::Int(i128::from(number)))?;
    }
    Ok(cells)
}

fn range(alloc: Global, first: i32, count: u32) -> Result<Vec<i32>, AllocError> {
    let mut values = Vec::with_capacity(alloc, count as usize)?;
    let mut value = first;
    for _ in 0..count {
        values.push(value)?;
        value = value.wrapping_add(1);
    }
    Ok(values)
}

// Makes a list of `count` texts.
fn list_of(alloc: Global, count: u32) -> Result<Value, NotMade> {
    let mut items = Vec::with_capacity(alloc, count as usize)?;
    for number in 0..count {
        items.push(Value::Text(format!(in alloc; "{number}")?))?;
    }
    Ok(Value::List(items))
}

fn lists_of(alloc: Global, counts: &[u32]) -> Result<Vec<Value>, NotMade> {
    let mut lists = Vec::with_capacity(alloc, counts.len())?;
    for count in counts {
        lists.push(list_of(alloc, *count)?)?;
    }
    Ok(lists)
}

fn changed(alloc: Global, changes: &[(usize, u8)]) -> Result<Vec<u8>, NotMade> {
    let mut stream = bytes_of_values(alloc, INT, &[7, -1])?;
    for (at, byte) in changes {
        if *at < stream.len() {
            stream[*at] = *byte;
        }
    }
    Ok(stream)
}

fn front(alloc: Global, len: usize) -> Result<Vec<u8>, NotMade> {
    let mut stream = bytes_of_values(alloc, INT, &[7, -1])?;
    stream.truncate(len);
    Ok(stream)
}

fn bytes_of_values(alloc: Global, columns: &[&str], values: &[i32]) -> Result<Vec<u8>, NotMade> {
    stream_of(alloc, columns, cells_of(alloc, values)?)
}

/// Returns the bytes of a stream.
pub fn bytes_of(alloc: Global, input: Input) -> Result<Vec<u8>, NotMade> {
    match input {
        Input::Ints(values) => bytes_of_values(alloc, INT, values),
        Input::First(count) => stream_of(alloc, INT, first_cells(alloc, count)?),
        Input::Column(text, values) => bytes_of_values(alloc, &[text], values),
        Input::Range(columns, first, count) => {
            bytes_of_values(alloc, columns, &range(alloc, first, count)?)
        }
        Input::Texts(counts) => stream_of(alloc, &["l:list<utf8>"], lists_of(alloc, counts)?),
        Input::NoColumns(rows) => rows_alone(alloc, rows),
        Input::Changed(changes) => changed(alloc, changes),
        Input::Front(len) => front(alloc, len),
    }
}

/// Returns the schema of columns with these field texts.
pub fn new_schema(alloc: Global, columns: &[&str]) -> Result<Schema, NotMade>
    ensures within { IfOk result (λ s. IsWithinLimits (schema_of s)) }
{
    let schema = schema_of(alloc, columns)?;
    if schema.check().is_err() {
        return Err(NotMade);
    }
    Ok(schema)
}
