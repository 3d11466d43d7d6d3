// Rows that are not part of a table.
use crate::value::Value;

/// An owned row: one value for each column, in order.
#[derive(Debug, Drop)]
pub struct Row {
    pub cells: Vec<Value>,
}
