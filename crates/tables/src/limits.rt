// Limits of the tables of a store.

/// The maximum size in bytes of a stream that is imported or appended.
pub const MAX_IMPORT_BYTES: usize = 2_147_483_647;
