// Tests of a table of several parts (values): that of a text whose column has more values than its indices can name (text_columns).
use crate::made::{NotMade, schema_of_columns, table_of_rows};
use civil_days::DateForm;
use ipc_encode::encode;
use std::alloc::{AllocError, Global};
use text_columns::csv_table;
use text_import::{FieldForm, csv_rows};
use values::{Table, ValueRef, Values};

const COLUMNS: &[&str] = &["a:dict<int8,utf8>", "b:int16"];

const FORM: FieldForm<'static> = FieldForm {
    null_text: b"",
    dates: DateForm::Numbers,
};

// More rows than the indices of two parts can name values, of which each has 128.
const ROWS: usize = 300;

// Each row has its number as a text and as an integer.
fn text_of_rows(alloc: Global) -> Result<String, AllocError> {
    let mut text = String::from_str(alloc, "a,b\n")?;
    for row in 0..ROWS {
        text.push_str(format!(in alloc; "{row},{row}\n")?.as_str())?;
    }
    Ok(text)
}

fn is_text(value: Option<ValueRef<'_>>, number: usize) -> bool {
    match value {
        Some(ValueRef::Text(text)) => text.parse::<usize>().ok() == Some(number),
        _ => false,
    }
}

fn is_integer(value: Option<ValueRef<'_>>, number: usize) -> bool {
    match value {
        Some(ValueRef::Int(value)) => value == number as i128,
        _ => false,
    }
}

fn is_row(row: Option<Values<'_>>, number: usize) -> bool {
    match row {
        Some(row) => is_text(row.get(0), number) && is_integer(row.get(1), number),
        None => false,
    }
}

// Returns whether the rows are there, one after another and from the last to the first.
fn has_rows(table: &Table) -> bool {
    let mut well = table.len() == ROWS && table.row(ROWS).is_none();
    let mut rows = table.rows();
    for number in 0..ROWS {
        let from_the_last = ROWS.saturating_sub(number).saturating_sub(1);
        well = is_row(rows.next(), number)
            && is_row(table.row(from_the_last), from_the_last)
            && well;
    }
    well && rows.next().is_none()
}

fn has_parts(table: &Table, count: usize) -> bool {
    match table.parts() {
        Some(parts) => parts.len() == count,
        None => false,
    }
}

// Makes the table of a text, which is kept in parts.
fn table_in_parts(alloc: Global, text: &str) -> Result<Table, NotMade> {
    let schema = schema_of_columns(alloc, COLUMNS)?;
    if schema.check().is_err() {
        return Err(NotMade);
    }
    match csv_table(alloc, &schema, text.as_bytes(), &FORM) {
        Ok(Some(weighed)) => Ok(weighed.table),
        _ => Err(NotMade),
    }
}

// Makes the table of the same rows, which is kept as rows.
fn table_as_rows(alloc: Global, text: &str) -> Result<Table, NotMade> {
    let schema = schema_of_columns(alloc, COLUMNS)?;
    match csv_rows(alloc, &schema, text.as_bytes(), &FORM) {
        Ok(rows) => table_of_rows(alloc, COLUMNS, rows),
        Err(_) => Err(NotMade),
    }
}

fn have_one_stream(alloc: Global, first: &Table, second: &Table) -> Result<bool, AllocError> {
    let stream = encode(alloc, first)?;
    Ok(encode(alloc, second)?.as_slice() == stream.as_slice())
}

fn is_well(alloc: Global, text: &str) -> Result<bool, NotMade> {
    let in_parts = table_in_parts(alloc, text)?;
    let as_rows = table_as_rows(alloc, text)?;
    let well = has_parts(&in_parts, 3) && has_rows(&in_parts) && has_rows(&as_rows);
    Ok(have_one_stream(alloc, &in_parts, &as_rows)? && well)
}

fn is_text_well(alloc: Global) -> Result<bool, NotMade> {
    is_well(alloc, text_of_rows(alloc)?.as_str())
}

#[test]
fn rows_of_several_parts_are_those_of_their_text(rt: HostRuntime) {
    assert!(rt; matches!(is_text_well(rt.alloc()), Ok(true)));
}
