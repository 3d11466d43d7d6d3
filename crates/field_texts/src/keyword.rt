// The keywords at the start of a type, some with the bracket that follows.
ghost use Rattle.std.specs.Prelude.{◌≡◌};
ghost use Rattle.arrow_schema.specs.View.{bits_of, date_kind, time_kind};
ghost use Rattle.field_texts.specs.Keywords.{integer_text, date_text, time_text, keyword_text};

use arrow_schema::{BitWidth, DateUnit, IntegerType, TimeUnit};

#[derive(Clone, Copy)]
pub(crate) enum Keyword {
    Null,
    Bool,
    Int(IntegerType),
    Date(DateUnit),
    Timestamp(TimeUnit),
    Utf8,
    LargeUtf8,
    Binary,
    LargeBinary,
    FixedBinary,
    List,
    LargeList,
    FixedList,
    Struct,
    Dictionary,
}

/// Each keyword once. No keyword is a prefix of another.
pub(crate) const KEYWORDS: [Keyword; 26] = [
    Keyword::Null,
    Keyword::Bool,
    Keyword::Int(IntegerType {
        width: BitWidth::Eight,
        signed: true,
    }),
    Keyword::Int(IntegerType {
        width: BitWidth::Sixteen,
        signed: true,
    }),
    Keyword::Int(IntegerType {
        width: BitWidth::ThirtyTwo,
        signed: true,
    }),
    Keyword::Int(IntegerType {
        width: BitWidth::SixtyFour,
        signed: true,
    }),
    Keyword::Int(IntegerType {
        width: BitWidth::Eight,
        signed: false,
    }),
    Keyword::Int(IntegerType {
        width: BitWidth::Sixteen,
        signed: false,
    }),
    Keyword::Int(IntegerType {
        width: BitWidth::ThirtyTwo,
        signed: false,
    }),
    Keyword::Int(IntegerType {
        width: BitWidth::SixtyFour,
        signed: false,
    }),
    Keyword::Date(DateUnit::Day),
    Keyword::Date(DateUnit::Millisecond),
    Keyword::Timestamp(TimeUnit::Second),
    Keyword::Timestamp(TimeUnit::Millisecond),
    Keyword::Timestamp(TimeUnit::Microsecond),
    Keyword::Timestamp(TimeUnit::Nanosecond),
    Keyword::Utf8,
    Keyword::LargeUtf8,
    Keyword::Binary,
    Keyword::LargeBinary,
    Keyword::FixedBinary,
    Keyword::List,
    Keyword::LargeList,
    Keyword::FixedList,
    Keyword::Struct,
    Keyword::Dictionary,
];

#[tactic(auto, unfolding(crate::specs::Keywords::integer_text))]
fn integer_keyword(integer: IntegerType) -> &'static str
    ensures { result.now ≡ integer_text (bits_of integer.width) integer.signed }
{
    if integer.signed {
        match integer.width {
            BitWidth::Eight => "int8",
            BitWidth::Sixteen => "int16",
            BitWidth::ThirtyTwo => "int32",
            BitWidth::SixtyFour => "int64",
        }
    } else {
        match integer.width {
            BitWidth::Eight => "uint8",
            BitWidth::Sixteen => "uint16",
            BitWidth::ThirtyTwo => "uint32",
            BitWidth::SixtyFour => "uint64",
        }
    }
}

#[tactic(auto, unfolding(crate::specs::Keywords::date_text))]
fn date_keyword(unit: DateUnit) -> &'static str
    ensures { result.now ≡ date_text (date_kind unit) }
{
    match unit {
        DateUnit::Day => "date_day",
        DateUnit::Millisecond => "date_ms",
    }
}

#[tactic(auto, unfolding(crate::specs::Keywords::time_text))]
fn time_keyword(unit: TimeUnit) -> &'static str
    ensures { result.now ≡ time_text (time_kind unit) }
{
    match unit {
        TimeUnit::Second => "timestamp_s",
        TimeUnit::Millisecond => "timestamp_ms",
        TimeUnit::Microsecond => "timestamp_us",
        TimeUnit::Nanosecond => "timestamp_ns",
    }
}

impl Keyword {
    #[tactic(auto, unfolding(crate::specs::Keywords::keyword_text))]
    pub(crate) fn text(self) -> &'static str
        ensures { result.now ≡ keyword_text self }
    {
        match self {
            Keyword::Null => "null",
            Keyword::Bool => "bool",
            Keyword::Int(integer) => integer_keyword(integer),
            Keyword::Date(unit) => date_keyword(unit),
            Keyword::Timestamp(unit) => time_keyword(unit),
            Keyword::Utf8 => "utf8",
            Keyword::LargeUtf8 => "large_utf8",
            Keyword::Binary => "binary",
            Keyword::LargeBinary => "large_binary",
            Keyword::FixedBinary => "fixed_binary(",
            Keyword::List => "list<",
            Keyword::LargeList => "large_list<",
            Keyword::FixedList => "fixed_list(",
            Keyword::Struct => "struct<",
            Keyword::Dictionary => "dict<",
        }
    }
}
