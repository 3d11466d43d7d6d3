use crate::bound::Bound;

/// A query that is bound to the columns of a table: it needs only the rows to select, and these may come one part after another.
#[derive(Drop)]
pub struct BoundQuery {
    /// The places of the columns asked for.
    pub places: Vec<usize>,
    /// The conditions, all of which each row must meet.
    pub(crate) bounds: Vec<Bound>,
    /// The maximum number of rows.
    pub limit: Option<u64>,
}
