// The contents of a batch that is written, and the limits of what a message has room for.

/// The maximum number of nodes of a written batch: one for each field that a schema may have.
pub const MAX_BATCH_NODES: usize = 2_048;
/// The maximum number of buffers of a written batch.
pub const MAX_BATCH_BUFFERS: usize = 65_536;

/// The contents of a record batch or of a dictionary's batch: its number of rows, a node for each array (length and null count), and its buffers.
///
/// A message has room for at most [`MAX_BATCH_NODES`] nodes, [`MAX_BATCH_BUFFERS`] buffers and a body below 2^62 bytes. The caller must keep these
/// limits.
#[derive(Drop)]
pub struct BatchContents<'a> {
    pub rows: u64,
    pub nodes: Vec<(u64, u64)>,
    pub buffers: &'a [&'a [u8]],
}

/// All of a batch's contents but the bytes of its buffers: a message without its body depends on nothing else. The limits are those of
/// [`BatchContents`].
#[derive(Drop)]
pub struct BatchShape<'a> {
    pub rows: u64,
    pub nodes: Vec<(u64, u64)>,
    /// How many bytes each buffer has.
    pub lengths: &'a [usize],
}
