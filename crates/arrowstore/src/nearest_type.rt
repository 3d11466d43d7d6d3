// The type that an unknown one was probably meant to be.
use std::alloc::Global;
use strsim::levenshtein;

// Names of types in other systems, and what is held in their place.
const OTHER_NAMES: [(&str, &str); 22] = [
    ("string", "utf8"),
    ("str", "utf8"),
    ("text", "utf8"),
    ("varchar", "utf8"),
    ("int", "int64"),
    ("integer", "int64"),
    ("long", "int64"),
    ("bigint", "int64"),
    ("uint", "uint64"),
    ("int128", "int64"),
    ("uint128", "uint64"),
    ("short", "int16"),
    ("smallint", "int16"),
    ("tinyint", "int8"),
    ("boolean", "bool"),
    ("bytes", "binary"),
    ("blob", "binary"),
    ("date", "date_day"),
    ("date32", "date_day"),
    ("date64", "date_ms"),
    ("datetime", "timestamp_us"),
    ("timestamp", "timestamp_us"),
];

const TYPES: [&str; 20] = [
    "null",
    "bool",
    "int8",
    "int16",
    "int32",
    "int64",
    "uint8",
    "uint16",
    "uint32",
    "uint64",
    "utf8",
    "large_utf8",
    "binary",
    "large_binary",
    "date_day",
    "date_ms",
    "timestamp_s",
    "timestamp_ms",
    "timestamp_us",
    "timestamp_ns",
];

// More edits than these make another word.
const MOST_EDITS: usize = 2;

/// Returns the type that is held in place of one of another system, or the one whose name is nearest, if it is near.
pub(crate) fn nearest_type(alloc: Global, name: &str) -> Option<&'static str> {
    for (other, held) in OTHER_NAMES {
        if other == name {
            return Some(held);
        }
    }
    let mut nearest = None;
    let mut least = MOST_EDITS + 1;
    for held in TYPES {
        let edits = levenshtein(alloc, name, held).ok()?;
        if edits < least && edits < name.len() {
            nearest = Some(held);
            least = edits;
        }
    }
    nearest
}
