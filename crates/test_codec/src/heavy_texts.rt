// Tests of the weight of the rows of texts (text_import): that of a table's limit, and that of one row more.
use crate::made::{NotMade, assert_no_row, schema_of_columns};
use civil_days::DateForm;
use std::alloc::{AllocError, Global};
use text_import::{FieldForm, TextForm, are_too_heavy};

// A row of it weighs as much as a row may, 16,777,216, also if it is a null. Sixteen rows weigh as much as a table may.
const COLUMNS: &[&str] = &["a:fixed_binary(16777214)?"];

const CSV: TextForm<'static> = TextForm::Csv(FieldForm {
    null_text: b"-",
    dates: DateForm::Numbers,
});

struct Case {
    form: TextForm<'static>,
    header: &'static str,
    line: &'static str,
    rows: usize,
    heavy: bool,
}

const CASES: &[Case] = &[
    Case {
        form: CSV,
        header: "a\n",
        line: "-\n",
        rows: 16,
        heavy: false,
    },
    Case {
        form: CSV,
        header: "a\n",
        line: "-\n",
        rows: 17,
        heavy: true,
    },
    Case {
        form: TextForm::JsonLines(DateForm::Numbers),
        header: "",
        line: "[null]\n",
        rows: 16,
        heavy: false,
    },
    Case {
        form: TextForm::JsonLines(DateForm::Numbers),
        header: "",
        line: "[null]\n",
        rows: 17,
        heavy: true,
    },
];

fn text_of_rows(alloc: Global, case: &Case) -> Result<String, AllocError> {
    let mut text = String::from_str(alloc, case.header)?;
    for _row in 0..case.rows {
        text.push_str(case.line)?;
    }
    Ok(text)
}

fn is_well(alloc: Global, case: &Case) -> Result<bool, NotMade> {
    let schema = schema_of_columns(alloc, COLUMNS)?;
    let text = text_of_rows(alloc, case)?;
    match are_too_heavy(alloc, &case.form, &schema, text.as_bytes()) {
        Ok(heavy) => Ok(heavy == case.heavy),
        Err(_) => Err(NotMade),
    }
}

fn wrongly_weighed(alloc: Global) -> Result<Option<usize>, NotMade> {
    for (place, case) in CASES.iter().enumerate() {
        if !is_well(alloc, case)? {
            return Ok(Some(place));
        }
    }
    Ok(None)
}

#[test]
fn rows_above_the_limit_are_too_heavy(rt: HostRuntime) {
    assert_no_row(&rt, wrongly_weighed(rt.alloc()));
}
