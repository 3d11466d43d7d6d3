// What the tests share.
use field_texts::ParseError;
use query::QueryError;
use std::alloc::{AllocError, AllocFailed};
use std::process::Abort;

/// Nothing was made: memory was refused, or a row of a test does not have its form.
#[derive(Clone, Copy)]
pub struct NotMade;

/// Asserts that no row of a table of cases is wrong. `wrong` is the place of the first wrong one, from 0.
pub fn assert_no_row(rt: &impl Abort, wrong: Result<Option<usize>, NotMade>) {
    match wrong {
        Ok(None) => {}
        Ok(Some(place)) => panic!(rt; "row {place}"),
        Err(NotMade) => panic!(rt; "not made"),
    }
}

impl From<AllocError> for NotMade {
    fn from(_: AllocError) -> Self {
        NotMade
    }
}

impl<T: Drop> From<AllocFailed<T>> for NotMade {
    fn from(_: AllocFailed<T>) -> Self {
        NotMade
    }
}

impl From<ParseError> for NotMade {
    fn from(_: ParseError) -> Self {
        NotMade
    }
}

impl From<QueryError> for NotMade {
    fn from(_: QueryError) -> Self {
        NotMade
    }
}
