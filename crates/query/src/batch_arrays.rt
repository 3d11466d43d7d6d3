// The arrays of a record batch, borrowed.
use columns::{Dictionary, PlacedArray};

/// The arrays of a record batch, the bytes in which they are, its dictionaries, and the number of its rows.
#[derive(Clone, Copy)]
pub struct BatchArrays<'a> {
    pub arrays: &'a [PlacedArray],
    pub bytes: &'a [u8],
    pub dictionaries: &'a [Dictionary],
    pub rows: usize,
}
