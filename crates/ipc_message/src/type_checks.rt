// Tests whether a field decodes to a type: its width, size, unit and children.
ghost use Rattle.std.specs.Prelude.{◌≡◌, List, is_some, length, option_map};
ghost use Rattle.arrow_schema.specs.Column.{Column, is_bit_width};
ghost use Rattle.ipc_message.specs.Types.{integer, date, timestamp, fixed_binary, has_list_size, decoded_type};
ghost use Rattle.ipc_message.specs.Checks.{has_type, is_index_type, is_bad};
ghost use Rattle.ipc_message.specs.View.{raw_field_of, parameters_of, encoding_of};

use crate::fault::TypeName;
use crate::raw_header::{Encoding, Parameters, RawField};
use crate::type_codes::type_name;
use arrow_schema::NUMBER_END;

fn is_bit_width(width: u32) -> bool
    ensures { result ≡ is_bit_width width }
{
    width == 8 || width == 16 || width == 32 || width == 64
}

fn is_integer(parameters: &Parameters) -> bool
    ensures { result ≡ is_some (integer (parameters_of parameters.now)) }
{
    match parameters {
        Parameters::Integer(width, _) => is_bit_width(*width),
        _ => false,
    }
}

fn is_date(parameters: &Parameters) -> bool
    ensures { result ≡ is_some (date (parameters_of parameters.now)) }
{
    match parameters {
        Parameters::DateUnit(unit) => *unit < 2,
        _ => false,
    }
}

fn is_timestamp(parameters: &Parameters) -> bool
    ensures { result ≡ is_some (timestamp (parameters_of parameters.now)) }
{
    match parameters {
        Parameters::Timestamp(unit, _) => *unit < 4,
        _ => false,
    }
}

fn is_fixed_binary(parameters: &Parameters) -> bool
    ensures { result ≡ is_some (fixed_binary (parameters_of parameters.now)) }
{
    match parameters {
        Parameters::ByteWidth(width) => *width < NUMBER_END,
        _ => false,
    }
}

fn is_fixed_list(parameters: &Parameters) -> bool
    ensures { result ≡ has_list_size (parameters_of parameters.now) }
{
    match parameters {
        Parameters::ListSize(size) => *size < NUMBER_END,
        _ => false,
    }
}

#[tactic(auto, using(crate::proofs::Children::child_rules), unfolding(crate::specs::Types::decoded_type))]
fn is_type(name: TypeName, parameters: &Parameters, children: usize) -> bool
    ensures { (cs : List Column) → length cs ≡ children → result ≡ is_some (decoded_type name (parameters_of parameters.now) cs) }
{
    match name {
        TypeName::Null
        | TypeName::Bool
        | TypeName::Utf8
        | TypeName::Binary
        | TypeName::LargeUtf8
        | TypeName::LargeBinary => children == 0,
        TypeName::Int => children == 0 && is_integer(parameters),
        TypeName::Date => children == 0 && is_date(parameters),
        TypeName::Timestamp => children == 0 && is_timestamp(parameters),
        TypeName::FixedSizeBinary => children == 0 && is_fixed_binary(parameters),
        TypeName::List | TypeName::LargeList => children == 1,
        TypeName::FixedSizeList => children == 1 && is_fixed_list(parameters),
        TypeName::Struct => true,
        _ => false,
    }
}

fn has_type(field: &RawField) -> bool
    ensures { result ≡ has_type (raw_field_of field.now) }
{
    is_type(
        type_name(field.code),
        &field.parameters,
        field.children.len(),
    )
}

fn is_index_type(dictionary: &Option<Encoding>) -> bool
    ensures { result ≡ is_index_type (option_map encoding_of dictionary.now) }
{
    match dictionary {
        None => true,
        Some(encoding) => is_bit_width(encoding.width) && encoding.kind == 0,
    }
}

/// Returns whether a field decodes to no type, or its dictionary to no index type.
pub(crate) fn is_bad(field: &RawField) -> bool
    ensures { result ≡ is_bad (raw_field_of field.now) }
{
    !(has_type(field) && is_index_type(&field.dictionary))
}
