// Record batches, as they were read.
use columns::{Dictionary, PlacedArray};

/// The arrays of a record batch, one for each column, and how many rows it has.
#[derive(Drop)]
pub struct Batch {
    pub arrays: Vec<PlacedArray>,
    pub rows: usize,
}

/// Record batches whose arrays are places in the same bytes.
#[derive(Drop)]
pub struct TablePart {
    pub bytes: Vec<u8>,
    pub dictionaries: Vec<Dictionary>,
    pub batches: Vec<Batch>,
}
