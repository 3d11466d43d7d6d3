// How a table keeps its rows.
use crate::batches::Batches;
use cells::Row;

/// The rows of a table: each by itself, or record batches as they were read.
#[derive(Drop)]
pub(crate) enum Content {
    Rows(Vec<Row>),
    Batches(Batches),
}
