// A query of a table.
use crate::condition::Condition;
use civil_days::DateForm;

/// The columns asked for, in order, where none means all; the conditions, all of which each row must meet; the maximum number of rows; and how
/// dates and timestamps stand in the literals of the conditions.
#[derive(Drop)]
pub struct Query {
    pub columns: Vec<String>,
    pub conditions: Vec<Condition>,
    pub limit: Option<u64>,
    pub dates: DateForm,
}
