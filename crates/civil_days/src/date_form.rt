// The form of dates in texts.

/// How dates and times stand in texts: as the numbers that are stored, or as people write them (ISO 8601, RFC 3339).
#[derive(Clone, Copy, Debug, PartialEq, Eq)]
pub enum DateForm {
    Numbers,
    Iso,
}
