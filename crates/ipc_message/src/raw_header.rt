// The header of a message as decoded from its metadata, before any test. Strings are borrowed; numbers are unsigned.

/// The content of the table of a field's type.
#[derive(Clone, Copy)]
pub enum Parameters<'a> {
    Nothing,
    /// The number of bits, and whether the integer is signed.
    Integer(u32, bool),
    ByteWidth(u32),
    ListSize(u32),
    DateUnit(u16),
    /// The unit and the timezone.
    Timestamp(u16, &'a [u8]),
}

/// A dictionary encoding: `width` and `signed` are those of its index type.
#[derive(Clone, Copy)]
pub struct Encoding {
    pub id: u64,
    pub width: u32,
    pub signed: bool,
    pub kind: u16,
}

/// A key/value pair.
#[derive(Clone, Copy)]
pub struct KeyValue<'a> {
    pub key: &'a [u8],
    pub value: &'a [u8],
}

/// A field.
#[derive(Drop)]
pub struct RawField<'a> {
    pub name: &'a [u8],
    pub nullable: bool,
    pub code: u8,
    pub parameters: Parameters<'a>,
    pub dictionary: Option<Encoding>,
    pub children: Vec<RawField<'a>>,
    pub pairs: Vec<KeyValue<'a>>,
}

/// A schema.
#[derive(Drop)]
pub struct RawSchema<'a> {
    pub endianness: u16,
    pub fields: Vec<RawField<'a>>,
    pub pairs: Vec<KeyValue<'a>>,
}

/// A record batch. Its nodes and buffers are raw structs of sixteen bytes each.
#[derive(Clone, Copy)]
pub struct RawBatch<'a> {
    pub length: u64,
    pub nodes: &'a [u8],
    pub buffers: &'a [u8],
    pub compressed: bool,
}

/// A dictionary batch.
#[derive(Clone, Copy)]
pub struct RawDictionaryBatch<'a> {
    pub id: u64,
    pub batch: RawBatch<'a>,
    pub is_delta: bool,
}

/// The header of a message.
#[derive(Drop)]
pub enum Header<'a> {
    Schema(RawSchema<'a>),
    DictionaryBatch(RawDictionaryBatch<'a>),
    RecordBatch(RawBatch<'a>),
}
