// Tests of the text of each refusal of `values`. Which rows a table takes is tested by scripts, without a proof (tests/texts, tests/queries).
use super::made::{NotMade, assert_no_row};
use std::alloc::Global;
use values::TableError;

const REFUSALS: &[(TableError, &str)] = &[
    (
        TableError::Unfit(7),
        "row 7 does not fit the schema, is too heavy or fills a dictionary",
    ),
    (TableError::Weight, "the rows are too heavy for a table"),
    (TableError::OutOfMemory, "out of memory"),
];

fn wrongly_printed(alloc: Global) -> Result<Option<usize>, NotMade> {
    for (place, (refusal, want)) in REFUSALS.iter().enumerate() {
        if refusal.to_string(alloc)?.as_str() != *want {
            return Ok(Some(place));
        }
    }
    Ok(None)
}

#[test]
fn refusals_have_a_text(rt: HostRuntime) {
    assert_no_row(&rt, wrongly_printed(rt.alloc()));
}
