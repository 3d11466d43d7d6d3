// The codes of types (Schema.fbs, the union `Type`), their names, and which of them are supported.
ghost use Rattle.std.specs.Prelude.{◌≡◌};
ghost use Rattle.ipc_message.specs.Header.{supported_codes};
ghost use Rattle.ipc_message.specs.Types.{type_name};

use crate::fault::TypeName;

/// The code of no type.
pub const NONE: u8 = 0;

pub const NULL: u8 = 1;

pub const INT: u8 = 2;

pub const FLOATING_POINT: u8 = 3;

pub const BINARY: u8 = 4;

pub const UTF8: u8 = 5;

pub const BOOL: u8 = 6;

pub const DECIMAL: u8 = 7;

pub const DATE: u8 = 8;

pub const TIME: u8 = 9;

pub const TIMESTAMP: u8 = 10;

pub const INTERVAL: u8 = 11;

pub const LIST: u8 = 12;

pub const STRUCT: u8 = 13;

pub const UNION: u8 = 14;

pub const FIXED_SIZE_BINARY: u8 = 15;

pub const FIXED_SIZE_LIST: u8 = 16;

pub const MAP: u8 = 17;

pub const DURATION: u8 = 18;

pub const LARGE_BINARY: u8 = 19;

pub const LARGE_UTF8: u8 = 20;

pub const LARGE_LIST: u8 = 21;

pub const RUN_END_ENCODED: u8 = 22;

pub const BINARY_VIEW: u8 = 23;

pub const UTF8_VIEW: u8 = 24;

pub const LIST_VIEW: u8 = 25;

pub const LARGE_LIST_VIEW: u8 = 26;

/// Returns the name of a type code.
#[tactic(auto, unfolding(crate::specs::Types::type_name))]
pub(crate) fn type_name(code: u8) -> TypeName
    ensures { result ≡ type_name code }
{
    match code {
        NULL => TypeName::Null,
        INT => TypeName::Int,
        FLOATING_POINT => TypeName::FloatingPoint,
        BINARY => TypeName::Binary,
        UTF8 => TypeName::Utf8,
        BOOL => TypeName::Bool,
        DECIMAL => TypeName::Decimal,
        DATE => TypeName::Date,
        TIME => TypeName::Time,
        TIMESTAMP => TypeName::Timestamp,
        INTERVAL => TypeName::Interval,
        LIST => TypeName::List,
        STRUCT => TypeName::Struct,
        UNION => TypeName::Union,
        FIXED_SIZE_BINARY => TypeName::FixedSizeBinary,
        FIXED_SIZE_LIST => TypeName::FixedSizeList,
        MAP => TypeName::Map,
        DURATION => TypeName::Duration,
        LARGE_BINARY => TypeName::LargeBinary,
        LARGE_UTF8 => TypeName::LargeUtf8,
        LARGE_LIST => TypeName::LargeList,
        RUN_END_ENCODED => TypeName::RunEndEncoded,
        BINARY_VIEW => TypeName::BinaryView,
        UTF8_VIEW => TypeName::Utf8View,
        LIST_VIEW => TypeName::ListView,
        LARGE_LIST_VIEW => TypeName::LargeListView,
        _ => TypeName::Unknown,
    }
}

/// Returns whether types of this code are supported.
pub(crate) fn is_supported(code: u8) -> bool
    ensures { result ≡ supported_codes code }
{
    matches!(
        code,
        NULL | INT
            | BINARY
            | UTF8
            | BOOL
            | DATE
            | TIMESTAMP
            | LIST
            | STRUCT
            | FIXED_SIZE_BINARY
            | FIXED_SIZE_LIST
            | LARGE_BINARY
            | LARGE_UTF8
            | LARGE_LIST
    )
}
