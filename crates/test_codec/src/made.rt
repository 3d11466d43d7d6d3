// What the tests share: making schemas and tables, and comparing values with texts.
use arrow_schema::Schema;
use civil_days::DateForm;
use field_texts::{ParseError, parse_fields};
use std::alloc::{AllocError, AllocFailed, Global};
use std::process::Abort;
use text_import::jsonl_rows;
use values::{Row, Table, Value, ValueRef, Values};

/// Nothing was made: memory was refused, or a row of a test does not have its form.
#[derive(Clone, Copy)]
pub struct NotMade;

/// Asserts that no row of a table of cases is wrong. `wrong` is the place of the first wrong one, from 0.
pub fn assert_no_row(rt: &impl Abort, wrong: Result<Option<usize>, NotMade>) {
    match wrong {
        Ok(None) => {}
        Ok(Some(place)) => panic!(rt; "row {place}"),
        Err(NotMade) => panic!(rt; "not made"),
    }
}

/// Returns whether neither of two runs is wrong and at least one is done: the other may have got no memory.
pub fn is_one_well(first: Result<bool, NotMade>, second: Result<bool, NotMade>) -> bool {
    match (first, second) {
        (Ok(well), Err(NotMade)) | (Err(NotMade), Ok(well)) => well,
        (Ok(first), Ok(second)) => first && second,
        (Err(NotMade), Err(NotMade)) => false,
    }
}

impl From<AllocError> for NotMade {
    fn from(_: AllocError) -> Self {
        NotMade
    }
}

impl<T: Drop> From<AllocFailed<T>> for NotMade {
    fn from(_: AllocFailed<T>) -> Self {
        NotMade
    }
}

impl From<ParseError> for NotMade {
    fn from(_: ParseError) -> Self {
        NotMade
    }
}

/// Returns the schema of columns with these field texts.
pub fn schema_of_columns(alloc: Global, columns: &[&str]) -> Result<Schema, NotMade> {
    let fields = parse_fields(alloc, columns)?;
    Ok(Schema {
        fields,
        pairs: Vec::new(alloc),
    })
}

/// Makes the table of these rows.
pub fn table_of_rows(alloc: Global, columns: &[&str], rows: Vec<Row>) -> Result<Table, NotMade> {
    let schema = schema_of_columns(alloc, columns)?;
    if schema.check().is_err() {
        return Err(NotMade);
    }
    Table::new(alloc, schema, rows).map_err(|_| NotMade)
}

/// Makes the table of the rows of a text of JSON Lines.
pub fn table_of_lines(alloc: Global, columns: &[&str], text: &str) -> Result<Table, NotMade> {
    let schema = schema_of_columns(alloc, columns)?;
    match jsonl_rows(alloc, DateForm::Numbers, &schema, text.as_bytes()) {
        Ok(rows) => table_of_rows(alloc, columns, rows),
        Err(_) => Err(NotMade),
    }
}

// Returns whether a text is the one after `'`, or has the length in bytes that follows `#`.
fn is_text(text: &str, want: &str) -> bool {
    match want.strip_prefix("#") {
        Some(length) => length.parse::<i128>().ok() == Some(text.len() as i128),
        None => want.strip_prefix("'") == Some(text),
    }
}

// Returns whether a value is `null`, this number, or this text.
fn is_value(value: ValueRef<'_>, want: &str) -> bool {
    match value {
        ValueRef::Null => want == "null",
        ValueRef::Int(number) => want.parse::<i128>().ok() == Some(number),
        ValueRef::Text(text) => is_text(text, want),
        _ => false,
    }
}

fn is_next(found: Option<ValueRef<'_>>, want: &str) -> bool {
    match found {
        Some(value) => is_value(value, want),
        None => false,
    }
}

fn are_values(found: Values<'_>, want: &[&str]) -> bool {
    let mut well = found.len() == want.len() && found.get(want.len()).is_none();
    let mut values = found.iter();
    for text in want {
        well = well && is_next(values.next(), text);
    }
    well
}

fn is_row(found: Option<Values<'_>>, want: &[&str]) -> bool {
    match found {
        Some(values) => are_values(values, want),
        None => false,
    }
}

/// Returns whether the table has these rows, by each way to a row.
pub fn has_rows(made: &Table, want: &[&[&str]]) -> bool {
    let mut well = made.len() == want.len() && made.is_empty() == want.is_empty();
    let mut given = made.rows();
    let mut place = 0usize;
    for row in want {
        well = well && is_row(given.next(), row) && is_row(made.row(place), row);
        place = place.wrapping_add(1);
    }
    well && given.next().is_none() && made.row(want.len()).is_none()
}
