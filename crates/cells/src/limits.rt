// The limits of weights and of pieces, stated once for code and definitions.

/// The maximum weight of a row.
pub const MAX_ROW_WEIGHT: u64 = 16_777_216;

/// The maximum weight of all rows of a table, or of a stream, together.
pub const MAX_TABLE_WEIGHT: u64 = 268_435_456;

/// The value that represents every weight above `MAX_TABLE_WEIGHT`.
pub const TOO_HEAVY: u64 = MAX_TABLE_WEIGHT + 1;

/// The maximum number of rows in a piece: in one record batch of a canonical stream, or one segment of a store.
pub const MAX_PIECE_ROWS: usize = 4096;

/// The maximum weight of the rows of a piece together.
pub const MAX_PIECE_WEIGHT: u64 = 16_777_216;
