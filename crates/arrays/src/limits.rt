// Limits of a batch.

/// The most slots of an array, and the most rows of a batch.
pub const MAX_SLOTS: u64 = 16_777_216;
