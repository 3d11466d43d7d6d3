// Tests of queries and of the lines of rows (query). The expected answers are worked out by hand from docs/using.md, "Conditions" and "What `query`
// prints".
ghost use Rattle.std.specs.Prelude.{◌≡◌, true, IfSome};
ghost use Rattle.arrow_schema.specs.Column.{columns_of};
ghost use Rattle.query.specs.BatchArrays.{is_readable};
ghost use Rattle.values.specs.TableView.{table_of};

use crate::made::{NotMade, assert_no_row, schema_of_columns, table_of_lines};
use ipc_encode::encode;
use ipc_stream::decode;
use query::{
    BatchArrays, Condition, DateForm, Query, QueryError, RowForm, RowShape, are_named_apart,
    bind_query, choose_rows, next_set, push_line_in, push_set_lines,
};
use std::alloc::{AllocError, Global};
use values::Table;

const COLUMNS: &[&str] = &[
    "a:int16?",
    "s:dict<int8,utf8>?",
    "b:binary?",
    "l:list<bool?>?",
    "t:bool",
];

const LINES: &str = "[1,\"x\",\"00ff\",[true],true]
[null,\"é\",\"\",null,false]
[-5,null,null,[],true]
[300,\"x\",\"00\",[null,false],false]
[1,\"\",\"ff\",[true],true]
[2,\"xy\",null,null,true]";

// The columns and conditions of a query, and its limit; the places of the columns and of the rows that it selects, or the text of its refusal. The
// cases are split into parts, since the cost to prove a constant grows faster than its length.
type Case = (
    &'static [&'static str],
    &'static [&'static str],
    Option<u64>,
    Result<(&'static [usize], &'static [usize]), &'static str>,
);

const ALL: &[usize] = &[0, 1, 2, 3, 4];

const WANTED: &[Case] = &[
    (&[], &[], None, Ok((ALL, &[0, 1, 2, 3, 4, 5]))),
    (&["t", "a"], &[], Some(2), Ok((&[4, 0], &[0, 1]))),
    (&["l"], &["l is null"], Some(0), Ok((&[3], &[]))),
    (
        &[],
        &["a is not null", "t = true"],
        None,
        Ok((ALL, &[0, 2, 4, 5])),
    ),
    (&[], &["a = 1"], Some(1), Ok((ALL, &[0]))),
];

const NUMBERS: &[Case] = &[
    (&[], &["a != 1"], None, Ok((ALL, &[2, 3, 5]))),
    (&[], &["a < 70000"], None, Ok((ALL, &[0, 2, 3, 4, 5]))),
    (&[], &["a <= 1", "a > -5"], None, Ok((ALL, &[0, 4]))),
    (&[], &["a >= 2"], None, Ok((ALL, &[3, 5]))),
    (&[], &["t < true"], None, Ok((ALL, &[1, 3]))),
];

const TEXTS: &[Case] = &[
    (&[], &["s = x"], None, Ok((ALL, &[0, 3]))),
    (&[], &["s < xy"], None, Ok((ALL, &[0, 3, 4]))),
    (&[], &["s != "], None, Ok((ALL, &[0, 1, 3, 5]))),
    (&[], &["b > 00"], None, Ok((ALL, &[0, 4]))),
    (&[], &["b <= FF"], None, Ok((ALL, &[0, 1, 3, 4]))),
];

const NO_COLUMN: Result<(&[usize], &[usize]), &str> = Err("Q1 UnknownColumn");

const NO_CONDITION: Result<(&[usize], &[usize]), &str> = Err("Q2 BadCondition");

const NO_ORDER: Result<(&[usize], &[usize]), &str> = Err("Q3 NotComparable");

const REFUSED: &[Case] = &[
    (&["z"], &["l = 1"], None, NO_COLUMN),
    (&["a", "a"], &[], None, NO_COLUMN),
    (&[], &["z = 1"], None, NO_COLUMN),
    (&[], &["l = 1", "a = x"], None, NO_ORDER),
    (&[], &["a = 18446744073709551616"], None, NO_CONDITION),
    (&[], &["t = True"], None, NO_CONDITION),
    (&[], &["b = 0"], None, NO_CONDITION),
];

const NO_FORM: &[Case] = &[
    (&[], &["a=1"], None, NO_CONDITION),
    (&[], &["a == 1"], None, NO_CONDITION),
    (&[], &["a  = 1"], None, NO_CONDITION),
    (&[], &["a is Null"], None, NO_CONDITION),
];

fn cases(part: usize) -> Option<&'static [Case]> {
    Some(match part {
        0 => WANTED,
        1 => NUMBERS,
        2 => TEXTS,
        3 => REFUSED,
        4 => NO_FORM,
        _ => return None,
    })
}

fn names_of(alloc: Global, columns: &[&str]) -> Result<Vec<String>, AllocError> {
    let mut names = Vec::new(alloc);
    for column in columns {
        names.push(String::from_str(alloc, column)?)?;
    }
    Ok(names)
}

fn conditions_of(alloc: Global, texts: &[&str]) -> Result<Vec<Condition>, QueryError> {
    let mut conditions = Vec::new(alloc);
    for text in texts {
        let condition = Condition::parse(alloc, text)?;
        if conditions.push(condition).is_err() {
            return Err(QueryError::OutOfMemory);
        }
    }
    Ok(conditions)
}

fn query_of(alloc: Global, case: &Case) -> Result<Query, QueryError> {
    let conditions = conditions_of(alloc, case.1)?;
    Ok(Query {
        columns: names_of(alloc, case.0)?,
        conditions,
        limit: case.2,
        dates: DateForm::Numbers,
    })
}

// Returns the places of the first `most` rows whose bits are set, of at most eight rows.
fn first_set(alloc: Global, mask: &[u8], rows: usize, most: u64) -> Result<Vec<usize>, AllocError> {
    let mut selected = Vec::new(alloc);
    if rows > 8 || mask.len() < 1 {
        return Ok(selected);
    }
    for row in 0..rows {
        if next_set(mask, row, rows) == row && (selected.len() as u64) < most {
            selected.push(row)?;
        }
    }
    Ok(selected)
}

// Returns whether the columns and the rows that the query selects are these.
fn selects(
    alloc: Global,
    table: &Table,
    query: &Query,
    places: &[usize],
    rows: &[usize],
) -> Result<bool, QueryError> {
    let bound = bind_query(alloc, table.schema(), query)?;
    let mask = choose_rows(alloc, table, &bound)?;
    let most = bound.limit.unwrap_or(u64::MAX);
    let selected = first_set(alloc, &mask, table.len(), most)?;
    Ok(bound.places.as_slice() == places && selected.as_slice() == rows)
}

fn is_answered(alloc: Global, table: &Table, case: &Case) -> Result<bool, QueryError> {
    let (places, rows) = case.3.unwrap_or((&[], &[]));
    let query = query_of(alloc, case)?;
    Ok(selects(alloc, table, &query, places, rows)? && case.3.is_ok())
}

fn is_well(alloc: Global, table: &Table, case: &Case) -> Result<bool, NotMade> {
    match (is_answered(alloc, table, case), case.3) {
        (Ok(well), _) => Ok(well),
        (Err(error), Err(want)) => Ok(error.to_string(alloc)?.as_str() == want),
        (Err(_), Ok(_)) => Ok(false),
    }
}

fn wrongly_chosen(alloc: Global, table: &Table, cases: &[Case]) -> Result<Option<usize>, NotMade> {
    for (place, case) in cases.iter().enumerate() {
        if !is_well(alloc, table, case)? {
            return Ok(Some(place));
        }
    }
    Ok(None)
}

// Returns the place of the first wrong case, counting a hundred for each part.
fn wrong_part(alloc: Global, table: &Table) -> Result<Option<usize>, NotMade> {
    for part in 0..usize::MAX {
        let Some(cases) = cases(part) else {
            return Ok(None);
        };
        if let Some(place) = wrongly_chosen(alloc, table, cases)? {
            return Ok(Some(part.wrapping_mul(100).wrapping_add(place)));
        }
    }
    Ok(None)
}

fn wrong_of_rows(alloc: Global) -> Result<Option<usize>, NotMade> {
    wrong_part(alloc, &table_of_lines(alloc, COLUMNS, LINES)?)
}

// The same table, kept in one record batch.
fn table_in_arrays(alloc: Global) -> Result<Table, NotMade> {
    let stream = encode(alloc, &table_of_lines(alloc, COLUMNS, LINES)?)?;
    decode(alloc, stream).map_err(|_| NotMade)
}

fn wrong_of_arrays(alloc: Global) -> Result<Option<usize>, NotMade> {
    wrong_part(alloc, &table_in_arrays(alloc)?)
}

#[test]
fn queries_choose_from_rows(rt: HostRuntime) {
    assert_no_row(&rt, wrong_of_rows(rt.alloc()));
}

#[test]
fn queries_choose_from_arrays(rt: HostRuntime) {
    assert_no_row(&rt, wrong_of_arrays(rt.alloc()));
}

// Fields, the line of a row, and the row as an object.
const OBJECTS: &[(&[&str], &str, &str)] = &[
    (&[], "[]", "{}"),
    (&["a:int16"], "[-32768]", "{\"a\":-32768}"),
    (
        &["s:utf8", "b:binary?", "n:null?"],
        "[\"\\\"é\\n\\u0001\",\"00ff\",null]",
        "{\"s\":\"\\\"é\\n\\u0001\",\"b\":\"00ff\",\"n\":null}",
    ),
    (
        &["l:list<struct<x:bool?,y:utf8>?>?", "l:dict<int8,date_day>"],
        "[[[true,\"\"],null],20003]",
        "{\"l\":[[true,\"\"],null],\"l\":20003}",
    ),
];

fn is_line(
    alloc: Global,
    table: &Table,
    shape: RowShape,
    dates: DateForm,
    want: &str,
) -> Result<bool, NotMade> {
    let form = RowForm { shape, dates };
    let mut text = Vec::from_slice(alloc, b">")?;
    match table.row(0) {
        None => return Err(NotMade),
        Some(row) => push_line_in(alloc, &mut text, form, &table.schema().fields, row)?,
    }
    Ok(text.starts_with(b">") && text.get(1..) == Some(want.as_bytes()))
}

/// Returns whether the first row is printed as this array and this object.
pub fn are_lines(
    alloc: Global,
    table: &Table,
    dates: DateForm,
    line: &str,
    object: &str,
) -> Result<bool, NotMade> {
    Ok(
        is_line(alloc, table, RowShape::Array, dates, line)?
            && is_line(alloc, table, RowShape::Object, dates, object)?,
    )
}

fn wrongly_printed(alloc: Global) -> Result<Option<usize>, NotMade> {
    for (place, (columns, line, object)) in OBJECTS.iter().enumerate() {
        let table = table_of_lines(alloc, columns, line)?;
        if !are_lines(alloc, &table, DateForm::Numbers, line, object)? {
            return Ok(Some(place));
        }
    }
    Ok(None)
}

#[test]
fn rows_are_printed_in_both_forms(rt: HostRuntime) {
    assert_no_row(&rt, wrongly_printed(rt.alloc()));
}

// A mask, the place of the bit of the first row, and the maximum number of rows; and the places of the rows whose lines are printed.
const MASKS: &[(&[u8], usize, u64, &[usize])] = &[
    (&[0x2d, 0], 0, 9, &[0, 2, 3, 5]),
    (&[0xb4, 0], 2, 9, &[0, 2, 3, 5]),
    (&[0, 0x1e], 8, 9, &[1, 2, 3, 4]),
    (&[0x3f, 0], 0, 2, &[0, 1]),
    (&[0xc0, 0xff], 0, 9, &[]),
];

// Returns the arrays of the only record batch of a table.
fn only_batch(table: &Table) -> Option<BatchArrays<'_>>
    ensures { IfSome result (λ b. is_readable (columns_of (table_of table.now).schema.columns) b ≡ true) }
{
    // For the proof: a table is within all limits.
    let _schema = table.schema();
    let Some([part]) = table.parts() else {
        return None;
    };
    let [batch] = part.batches.as_slice() else {
        return None;
    };
    Some(BatchArrays {
        arrays: &batch.arrays,
        bytes: &part.bytes,
        dictionaries: &part.dictionaries,
        rows: batch.rows,
    })
}

// Appends the lines of the rows of the only record batch of a table, of at most eight, and returns their number.
fn push_lines(
    alloc: Global,
    text: &mut Vec<u8>,
    table: &Table,
    mask: &[u8],
    start: usize,
    most: u64,
) -> Result<u64, NotMade> {
    let fields = &table.schema().fields;
    let Some(batch) = only_batch(table) else {
        return Err(NotMade);
    };
    if batch.rows > 8 || start > 8 || mask.len() < 2 {
        return Err(NotMade);
    }
    let form = RowForm {
        shape: RowShape::Array,
        dates: DateForm::Numbers,
    };
    let count = push_set_lines(alloc, text, form, fields, batch, mask, start, most)?;
    Ok(count)
}

// Returns the lines of these rows.
fn lines_of(alloc: Global, rows: &[usize]) -> Result<String, AllocError> {
    let mut text = String::new(alloc);
    for row in rows {
        text.push_str(LINES.lines().nth(*row).unwrap_or_default())?;
        text.push_str("\n")?;
    }
    Ok(text)
}

fn wrongly_masked(alloc: Global, table: &Table) -> Result<Option<usize>, NotMade> {
    for (place, (mask, start, most, rows)) in MASKS.iter().enumerate() {
        let mut text = Vec::new(alloc);
        let count = push_lines(alloc, &mut text, table, mask, *start, *most)?;
        let want = lines_of(alloc, rows)?;
        if count != rows.len() as u64 || text.as_slice() != want.as_bytes() {
            return Ok(Some(place));
        }
    }
    Ok(None)
}

fn wrong_mask(alloc: Global) -> Result<Option<usize>, NotMade> {
    wrongly_masked(alloc, &table_in_arrays(alloc)?)
}

#[test]
fn rows_that_a_mask_selects_are_printed(rt: HostRuntime) {
    assert_no_row(&rt, wrong_mask(rt.alloc()));
}

// Fields, and whether no two have the same name: those below others do not count.
const NAMES: &[(&[&str], bool)] = &[
    (&[], true),
    (&["a:int8", "A:int8", "b:struct<a:int8,a:int8>"], true),
    (&["a:int8", "b:utf8", "a:utf8"], false),
];

fn wrongly_named(alloc: Global) -> Result<Option<usize>, NotMade> {
    for (place, (columns, want)) in NAMES.iter().enumerate() {
        if are_named_apart(&schema_of_columns(alloc, columns)?.fields) != *want {
            return Ok(Some(place));
        }
    }
    Ok(None)
}

#[test]
fn columns_are_named_apart(rt: HostRuntime) {
    assert_no_row(&rt, wrongly_named(rt.alloc()));
}
