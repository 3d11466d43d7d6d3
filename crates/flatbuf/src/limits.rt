// The limits for reading bytes that may be malicious.

/// The maximum size of a buffer in bytes.
pub const MAX_BUFFER_BYTES: usize = 16_777_216;

/// The maximum number of tables that are entered, counting each visit.
pub const MAX_BUFFER_TABLES: u32 = 20_000;

/// The maximum depth of tables: the root table is one deep.
pub const MAX_LEVELS: u8 = 40;
