// What a step of a compaction does.

/// The kind of a step of a compaction.
#[derive(Clone, Copy, Debug, PartialEq, Eq)]
pub enum Compaction {
    /// Two neighbouring segments of a table are joined.
    Merged,
    /// The segment with the greatest start is moved to a lower start.
    Moved,
    /// There is nothing to do.
    Nothing,
}
