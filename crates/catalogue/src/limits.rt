// The limits of a catalogue.

/// The maximum size in bytes of a table's name.
pub const MAX_NAME_BYTES: usize = 64;
/// The maximum number of rows in a segment: that of a piece (`MAX_PIECE_ROWS` of `cells`), as `store`, which cuts tables into pieces, proves.
pub const MAX_SEGMENT_ROWS: u64 = 4096;
/// The maximum number of tables in a store.
pub const MAX_TABLES: usize = 1024;
/// The maximum number of segments of all tables in a store.
pub const MAX_SEGMENTS: u64 = 65_536;
