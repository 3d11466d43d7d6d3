// The faults of a stream.

/// The name of a type code (Schema.fbs, the union `Type`).
#[derive(Clone, Copy, Debug, PartialEq, Eq)]
pub enum TypeName {
    Null,
    Int,
    FloatingPoint,
    Binary,
    Utf8,
    Bool,
    Decimal,
    Date,
    Time,
    Timestamp,
    Interval,
    List,
    Struct,
    Union,
    FixedSizeBinary,
    FixedSizeList,
    Map,
    Duration,
    LargeBinary,
    LargeUtf8,
    LargeList,
    RunEndEncoded,
    BinaryView,
    Utf8View,
    ListView,
    LargeListView,
    Unknown,
}

/// Why a stream is refused: the first fault of its first faulty message.
#[derive(Clone, Copy, Debug, PartialEq, Eq)]
pub enum Fault {
    /// F1: the input ends within a message.
    Truncated,
    /// F2: a message does not begin with FF FF FF FF.
    NoContinuation,
    /// F3: the size of the metadata is negative or exceeds its limit.
    MetadataSize,
    /// F4: something lies outside the bytes, or a vtable is malformed.
    FlatBounds,
    /// F5: more than 20,000 tables, or a table more than 40 levels deep.
    FlatBudget,
    /// F6: the metadata version is not V5.
    MetadataVersion,
    /// F7: the header is neither a schema nor a dictionary batch nor a record batch.
    HeaderKind,
    /// F8: the body length is negative.
    BodyLength,
    /// F9: the stream ends before its schema, or a batch comes before it.
    NoSchema,
    /// F10: a second schema.
    SecondSchema,
    /// F11: the endianness is not little.
    BigEndian,
    /// F12: a type that is not supported.
    TypeNotHeld(TypeName),
    /// F13: a field without a type, or a width, size, unit, number of children or dictionary encoding that is not allowed.
    BadParameter,
    /// F14: the schema has too many fields, levels, pairs or bytes of text.
    SchemaLimit,
    /// F15: a name, key, value, timezone or visible string is not UTF-8.
    NotUtf8,
    /// F16: the body is compressed.
    Compressed,
    /// F17: the number of nodes or buffers is not what the layouts need.
    LayoutCount,
    /// F18: a buffer lies outside the body.
    BufferRange,
    /// F19: a buffer is shorter than its array needs.
    BufferShort,
    /// F20: a length is negative, exceeds its limit or is not what it must be.
    RowCount,
    /// F21: a null count differs from the number of unset validity bits.
    NullCount,
    /// F22: offsets are negative, decrease, or pass the end of the data.
    Offsets,
    /// F23: a visible null in a field that is not nullable.
    NullForbidden,
    /// F24: a dictionary id that no field has, or fields that share an id but not a value type.
    DictionaryId,
    /// F25: a delta for an id that has no dictionary yet.
    DeltaWithoutBase,
    /// F26: a visible index that names no entry.
    DictionaryIndex,
    /// F27: a dictionary whose values are lists or structs.
    DictionaryOfNested,
    /// F28: a row, or all rows so far, weigh too much.
    TooHeavy,
    /// F29: bytes after the end of stream.
    AfterEnd,
}
