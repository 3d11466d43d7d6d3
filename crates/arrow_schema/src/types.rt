// The types that a column may have (Arrow columnar format, "Logical types"; Schema.fbs).

/// The width of an integer in bits.
#[derive(Clone, Copy, Debug, PartialEq, Eq)]
pub enum BitWidth {
    Eight,
    Sixteen,
    ThirtyTwo,
    SixtyFour,
}

impl BitWidth {
    ghost use Rattle.std.specs.Prelude.{◌≡◌, ◌≤◌, ◌/◌};
    ghost use Rattle.arrow_schema.specs.View.{bits_of};

    /// Returns the number of bits.
    pub fn bits(self) -> u32
        ensures { result ≡ bits_of self }
    {
        match self {
            BitWidth::Eight => 8,
            BitWidth::Sixteen => 16,
            BitWidth::ThirtyTwo => 32,
            BitWidth::SixtyFour => 64,
        }
    }

    /// Returns the number of bytes of a value, 1 to 8 (Arrow columnar format, "Fixed-size Primitive Layout").
    pub fn bytes(self) -> usize
        ensures value { result ≡ bits_of self / 8 }
        ensures low { 1 ≤ result }
        ensures high { result ≤ 8 }
    {
        match self {
            BitWidth::Eight => 1,
            BitWidth::Sixteen => 2,
            BitWidth::ThirtyTwo => 4,
            BitWidth::SixtyFour => 8,
        }
    }
}

/// One of the eight integer types.
#[derive(Clone, Copy, Debug, PartialEq, Eq)]
pub struct IntegerType {
    pub width: BitWidth,
    pub signed: bool,
}

/// The dictionary encoding of a field: the type of its indices.
#[derive(Clone, Copy, Debug, PartialEq, Eq)]
pub struct DictSpec {
    pub index: IntegerType,
}

/// The unit of a date: days in 32 bits, or milliseconds in 64 bits.
#[derive(Clone, Copy, Debug, PartialEq, Eq)]
pub enum DateUnit {
    Day,
    Millisecond,
}

/// The unit of a timestamp, which is a 64-bit number.
#[derive(Clone, Copy, Debug, PartialEq, Eq)]
pub enum TimeUnit {
    Second,
    Millisecond,
    Microsecond,
    Nanosecond,
}

/// The logical type of a field. Widths and sizes are 0 to 2,147,483,647, which [`Schema::check`] tests; the timezone of a timestamp without one is
/// empty.
#[derive(Debug, Drop)]
#[cycle(schema)]
pub enum DataType {
    Null,
    Bool,
    Int(IntegerType),
    Date(DateUnit),
    Timestamp(TimeUnit, String),
    Utf8,
    LargeUtf8,
    Binary,
    LargeBinary,
    FixedSizeBinary(u32),
    List(Box<Field>),
    LargeList(Box<Field>),
    FixedSizeList(u32, Box<Field>),
    Struct(Vec<Field>),
}

/// A column, or a part of one. Its name may be any string.
#[derive(Debug, Drop)]
#[cycle(schema)]
pub struct Field {
    pub name: String,
    pub nullable: bool,
    pub data_type: DataType,
    pub dictionary: Option<DictSpec>,
    pub pairs: Vec<(String, String)>,
}

/// The columns of a table, and the schema's own key/value pairs, in order.
#[derive(Debug, Drop)]
pub struct Schema {
    pub fields: Vec<Field>,
    pub pairs: Vec<(String, String)>,
}

impl Schema {
    ghost use Rattle.std.specs.Prelude.{◌≡◌, length};
    ghost use Rattle.arrow_schema.specs.View.{schema_of};

    /// Returns the number of columns.
    pub fn width(&self) -> usize
        ensures { result ≡ length (schema_of self.now).columns }
    {
        self.fields.len()
    }
}
