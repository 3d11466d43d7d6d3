// Selections from a table that is made of rows, not read from a store (query). All others are made by commands, here and in scripts (tests/texts,
// tests/queries).
use crate::inputs::{Cell, Given, INT, new_schema, rows_of};
use crate::made::{NotMade, assert_no_row};
use crate::steps::{Asked, add_table, query};
use Cell::{Null, Number, Text};
use selection::select;
use std::alloc::Global;
use values::Table;

const TWO: &[&str] = &["a:int32?", "s:dict<int8,utf8>"];

const ROWS: Given = &[
    &[Number(1), Text("x")],
    &[Null, Text("")],
    &[Number(3), Text("y")],
    &[Number(4), Text("x")],
];

// The columns and the rows of a table, a query, and the selection or the refusal.
const SELECTED: &[(&[&str], Given, Asked, &str)] = &[
    (INT, &[], (&[], &[], None), "\"a\":int32?:"),
    (
        TWO,
        ROWS,
        (&[], &["a is null"], None),
        "\"a\":int32?, \"s\":dict<int8,utf8>: null/",
    ),
    (
        TWO,
        ROWS,
        (&["s", "a"], &["a >= 1", "s = x"], None),
        "\"s\":dict<int8,utf8>, \"a\":int32?: x/1 x/4",
    ),
    (
        TWO,
        ROWS,
        (&["a"], &["s < y"], Some(2)),
        "\"a\":int32?: 1 null",
    ),
    (TWO, ROWS, (&["b"], &["a = x"], None), "Q1 UnknownColumn"),
    (TWO, ROWS, (&[], &["a = x"], None), "Q2 BadCondition"),
];

fn table_of(alloc: Global, columns: &[&str], rows: Given) -> Result<Table, NotMade> {
    let schema = new_schema(alloc, columns)?;
    Table::new(alloc, schema, rows_of(alloc, rows)?).map_err(|_| NotMade)
}

fn add_selected(
    alloc: Global,
    text: &mut String,
    table: &Table,
    asked: Asked,
) -> Result<(), NotMade> {
    match select(alloc, table, &query(alloc, asked)?) {
        Ok(found) => add_table(alloc, text, &found),
        Err(refusal) => Ok(write!(text, "{refusal}")?),
    }
}

fn is_selected(alloc: Global, table: &Table, asked: Asked, want: &str) -> Result<bool, NotMade> {
    let mut text = String::new(alloc);
    add_selected(alloc, &mut text, table, asked)?;
    Ok(text.as_str() == want)
}

fn wrongly_selected(alloc: Global) -> Result<Option<usize>, NotMade> {
    for (place, (columns, rows, asked, want)) in SELECTED.iter().enumerate() {
        if !is_selected(alloc, &table_of(alloc, columns, rows)?, *asked, want)? {
            return Ok(Some(place));
        }
    }
    Ok(None)
}

#[test]
fn rows_that_meet_all_conditions_are_selected(rt: HostRuntime) {
    assert_no_row(&rt, wrongly_selected(rt.alloc()));
}
