// Formats a fault: its code, its name, and the type that it carries.
use super::fault::{Fault, TypeName};
use std::fmt;

/// The name in Schema.fbs, or `Unknown` for a code that Schema.fbs does not have.
impl fmt::Display for TypeName {
    ghost use Rattle.std.specs.Prelude.{Some};
    ghost use Rattle.ipc_message.specs.FaultText.{type_text};

    ghost output = { λ name. Some (type_text name) };

    fn fmt<W: fmt::Write>(&self, f: &mut fmt::Formatter<W>) -> fmt::Result {
        f.write_str(match self {
            TypeName::Null => "Null",
            TypeName::Int => "Int",
            TypeName::FloatingPoint => "FloatingPoint",
            TypeName::Binary => "Binary",
            TypeName::Utf8 => "Utf8",
            TypeName::Bool => "Bool",
            TypeName::Decimal => "Decimal",
            TypeName::Date => "Date",
            TypeName::Time => "Time",
            TypeName::Timestamp => "Timestamp",
            TypeName::Interval => "Interval",
            TypeName::List => "List",
            TypeName::Struct => "Struct_",
            TypeName::Union => "Union",
            TypeName::FixedSizeBinary => "FixedSizeBinary",
            TypeName::FixedSizeList => "FixedSizeList",
            TypeName::Map => "Map",
            TypeName::Duration => "Duration",
            TypeName::LargeBinary => "LargeBinary",
            TypeName::LargeUtf8 => "LargeUtf8",
            TypeName::LargeList => "LargeList",
            TypeName::RunEndEncoded => "RunEndEncoded",
            TypeName::BinaryView => "BinaryView",
            TypeName::Utf8View => "Utf8View",
            TypeName::ListView => "ListView",
            TypeName::LargeListView => "LargeListView",
            TypeName::Unknown => "Unknown",
        })
    }
}

/// Code and name, as `F1 Truncated`; for an unsupported type also its name, as `F12 TypeNotHeld Decimal`.
impl fmt::Display for Fault {
    ghost use Rattle.std.specs.Prelude.{Some};
    ghost use Rattle.ipc_message.specs.FaultText.{fault_text};

    ghost output = { λ fault. Some (fault_text fault) };

    fn fmt<W: fmt::Write>(&self, f: &mut fmt::Formatter<W>) -> fmt::Result {
        f.write_str(match self {
            Fault::Truncated => "F1 Truncated",
            Fault::NoContinuation => "F2 NoContinuation",
            Fault::MetadataSize => "F3 MetadataSize",
            Fault::FlatBounds => "F4 FlatBounds",
            Fault::FlatBudget => "F5 FlatBudget",
            Fault::MetadataVersion => "F6 MetadataVersion",
            Fault::HeaderKind => "F7 HeaderKind",
            Fault::BodyLength => "F8 BodyLength",
            Fault::NoSchema => "F9 NoSchema",
            Fault::SecondSchema => "F10 SecondSchema",
            Fault::BigEndian => "F11 BigEndian",
            Fault::TypeNotHeld(name) => return write!(f, "F12 TypeNotHeld {name}"),
            Fault::BadParameter => "F13 BadParameter",
            Fault::SchemaLimit => "F14 SchemaLimit",
            Fault::NotUtf8 => "F15 NotUtf8",
            Fault::Compressed => "F16 Compressed",
            Fault::LayoutCount => "F17 LayoutCount",
            Fault::BufferRange => "F18 BufferRange",
            Fault::BufferShort => "F19 BufferShort",
            Fault::RowCount => "F20 RowCount",
            Fault::NullCount => "F21 NullCount",
            Fault::Offsets => "F22 Offsets",
            Fault::NullForbidden => "F23 NullForbidden",
            Fault::DictionaryId => "F24 DictionaryId",
            Fault::DeltaWithoutBase => "F25 DeltaWithoutBase",
            Fault::DictionaryIndex => "F26 DictionaryIndex",
            Fault::DictionaryOfNested => "F27 DictionaryOfNested",
            Fault::TooHeavy => "F28 TooHeavy",
            Fault::AfterEnd => "F29 AfterEnd",
        })
    }
}

impl std::error::Error for Fault {}
