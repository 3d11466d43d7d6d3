// Converts a decoded header to the schema of a table.
ghost use Rattle.std.specs.Prelude.{◌≡◌, [], ◌∷◌, map, flat_map, true, false, is_some, Some, option_map, string_bytes, vec_len, IfOk};
ghost use Rattle.std.specs.List.{list_any, list_all};
ghost use Rattle.std.specs.Str.{is_utf8};
ghost use Rattle.arrow_schema.specs.View.{bits_of, index_of, date_kind, time_kind, kind_of, column_of, pair_of, schema_of};
ghost use Rattle.ipc_message.specs.Raw.{raw_fields_of};
ghost use Rattle.ipc_message.specs.Fields.{preorder, preorder_all};
ghost use Rattle.ipc_message.specs.Types.{integer, date, timestamp, fixed_binary, has_list_size, fixed_list, decoded_type};
ghost use Rattle.arrow_schema.specs.Column.{Column, fixed_lists, is_bit_width};
ghost use Rattle.ipc_message.specs.Types as decoded;
ghost use Rattle.ipc_message.specs.Convert.{column_of_field, columns_of_fields, plain_schema_of};
ghost use Rattle.ipc_message.specs.Convert as convert;
ghost use Rattle.arrow_schema.specs.Limits.{IsWithinLimits};
ghost use Rattle.ipc_message.specs.laws.Accepted.{IsAccepted};
ghost use Rattle.ipc_message.specs.Header.{supported_codes};
ghost use Rattle.ipc_message.specs.Outcome.{Gives};
ghost use Rattle.ipc_message.specs.inner.Readable.{AreReadable};
ghost use Rattle.ipc_message.specs.Checks.{timezone_of, texts_of_pairs, is_index_type, checked_schema};
ghost use Rattle.ipc_message.specs.View.{raw_field_of, raw_schema_of, key_value, parameters_of, encoding_of};

use crate::error::ImportError;
use crate::fault::TypeName;
use crate::raw_header::{Encoding, KeyValue, Parameters, RawField, RawSchema};
use crate::schema_checks::check_schema;
use crate::type_codes::type_name;
use arrow_schema::{BitWidth, DataType, DateUnit, DictSpec, Field, IntegerType, Schema, TimeUnit};
use std::alloc::{AllocError, Global};

fn copy_text(alloc: Global, bytes: &[u8]) -> Result<String, AllocError>
    requires { is_utf8 bytes.now ≡ true }
    ensures { IfOk result (λ text. string_bytes text ≡ bytes.now) }
{
    match std::str::from_utf8(bytes) {
        Ok(text) => String::from_str(alloc, text),
        Err(_) => unreachable!(),
    }
}

fn copy_pairs(alloc: Global, pairs: &[KeyValue]) -> Result<Vec<(String, String)>, AllocError>
    requires { list_all is_utf8 (texts_of_pairs (map key_value pairs.now)) ≡ true }
    ensures { IfOk result (λ copies. map pair_of copies.items ≡ map key_value pairs.now) }
{
    let mut copies = Vec::new(alloc);
    for pair in pairs {
        let key = copy_text(alloc, pair.key)?;
        let value = copy_text(alloc, pair.value)?;
        copies.push((key, value))?;
    }
    Ok(copies)
}

fn bit_width(width: u32) -> BitWidth
    requires { is_bit_width width ≡ true }
    ensures { bits_of result ≡ width }
{
    match width {
        8 => BitWidth::Eight,
        16 => BitWidth::Sixteen,
        32 => BitWidth::ThirtyTwo,
        _ => BitWidth::SixtyFour,
    }
}

fn integer_type(parameters: &Parameters) -> DataType
    requires { is_some (integer (parameters_of parameters.now)) ≡ true }
    ensures { integer (parameters_of parameters.now) ≡ Some (kind_of result) }
{
    match parameters {
        Parameters::Integer(width, signed) => DataType::Int(IntegerType {
            width: bit_width(*width),
            signed: *signed,
        }),
        _ => unreachable!(),
    }
}

fn date_type(parameters: &Parameters) -> DataType
    requires { is_some (date (parameters_of parameters.now)) ≡ true }
    ensures { date (parameters_of parameters.now) ≡ Some (kind_of result) }
{
    match parameters {
        Parameters::DateUnit(0) => DataType::Date(DateUnit::Day),
        Parameters::DateUnit(1) => DataType::Date(DateUnit::Millisecond),
        _ => unreachable!(),
    }
}

fn time_unit(unit: u16) -> TimeUnit
    requires { is_some (decoded.time_kind unit) ≡ true }
    ensures { decoded.time_kind unit ≡ Some (time_kind result) }
{
    match unit {
        0 => TimeUnit::Second,
        1 => TimeUnit::Millisecond,
        2 => TimeUnit::Microsecond,
        _ => TimeUnit::Nanosecond,
    }
}

fn timestamp_type(alloc: Global, parameters: &Parameters) -> Result<DataType, AllocError>
    requires unit { is_some (timestamp (parameters_of parameters.now)) ≡ true }
    requires timezone { is_utf8 (timezone_of (parameters_of parameters.now)) ≡ true }
    ensures { IfOk result (λ t. timestamp (parameters_of parameters.now) ≡ Some (kind_of t)) }
{
    match parameters {
        Parameters::Timestamp(unit, timezone) => Ok(DataType::Timestamp(
            time_unit(*unit),
            copy_text(alloc, timezone)?,
        )),
        _ => unreachable!(),
    }
}

fn fixed_binary_type(parameters: &Parameters) -> DataType
    requires { is_some (fixed_binary (parameters_of parameters.now)) ≡ true }
    ensures { fixed_binary (parameters_of parameters.now) ≡ Some (kind_of result) }
{
    match parameters {
        Parameters::ByteWidth(width) => DataType::FixedSizeBinary(*width),
        _ => unreachable!(),
    }
}

fn copy_index(dictionary: &Option<Encoding>) -> Option<DictSpec>
    requires { is_index_type (option_map encoding_of dictionary.now) ≡ true }
    ensures { option_map index_of result ≡ option_map convert.decoded_index (option_map encoding_of dictionary.now) }
{
    match dictionary {
        None => None,
        Some(encoding) => Some(DictSpec {
            index: IntegerType {
                width: bit_width(encoding.width),
                signed: encoding.signed,
            },
        }),
    }
}

fn list_size(parameters: &Parameters) -> u32
    requires { has_list_size (parameters_of parameters.now) ≡ true }
    ensures { (item : Column) → fixed_list (parameters_of parameters.now) item ≡ Some (fixed_lists result item) }
{
    match parameters {
        Parameters::ListSize(size) => *size,
        _ => unreachable!(),
    }
}

// Boxes the only field of a list.
fn boxed(alloc: Global, fields: Vec<Field>) -> Result<Box<Field>, AllocError>
    requires { vec_len fields ≡ 1 }
    ensures { IfOk result (λ item. map column_of fields.items ≡ column_of item.value ∷ []) }
{
    let mut fields = fields;
    match fields.pop() {
        Some(field) => Ok(Box::new(alloc, field)?),
        None => unreachable!(),
    }
}

#[tactic(auto, using(crate::proofs::Decoded::decoded_rules), unfolding(crate::specs::Types::decoded_type))]
fn data_type(
    alloc: Global,
    name: TypeName,
    parameters: &Parameters,
    children: Vec<Field>,
) -> Result<DataType, AllocError>
    requires decoded { is_some (decoded_type name (parameters_of parameters.now) (map column_of children.items)) ≡ true }
    requires timezone { is_utf8 (timezone_of (parameters_of parameters.now)) ≡ true }
    ensures { IfOk result (λ t. decoded_type name (parameters_of parameters.now) (map column_of children.items) ≡ Some (kind_of t)) }
{
    match name {
        TypeName::Null => Ok(DataType::Null),
        TypeName::Bool => Ok(DataType::Bool),
        TypeName::Int => Ok(integer_type(parameters)),
        TypeName::Date => Ok(date_type(parameters)),
        TypeName::Timestamp => timestamp_type(alloc, parameters),
        TypeName::Utf8 => Ok(DataType::Utf8),
        TypeName::LargeUtf8 => Ok(DataType::LargeUtf8),
        TypeName::Binary => Ok(DataType::Binary),
        TypeName::LargeBinary => Ok(DataType::LargeBinary),
        TypeName::FixedSizeBinary => Ok(fixed_binary_type(parameters)),
        TypeName::List => Ok(DataType::List(boxed(alloc, children)?)),
        TypeName::LargeList => Ok(DataType::LargeList(boxed(alloc, children)?)),
        TypeName::FixedSizeList => Ok(DataType::FixedSizeList(
            list_size(parameters),
            boxed(alloc, children)?,
        )),
        TypeName::Struct => Ok(DataType::Struct(children)),
        _ => unreachable!(),
    }
}

#[cycle(convert)]
pub(crate) fn copy_field(alloc: Global, raw: &RawField) -> Result<Field, AllocError>
    requires { AreReadable (preorder (raw_field_of raw.now)) }
    ensures { IfOk result (λ field. column_of field ≡ column_of_field (raw_field_of raw.now)) }
{
    let children = copy_fields(alloc, &raw.children)?;
    let name = copy_text(alloc, raw.name)?;
    let data_type = data_type(alloc, type_name(raw.code), &raw.parameters, children)?;
    let pairs = copy_pairs(alloc, &raw.pairs)?;
    Ok(Field {
        name,
        nullable: raw.nullable,
        data_type,
        dictionary: copy_index(&raw.dictionary),
        pairs,
    })
}

#[tactic(auto, unfolding(crate::specs::Fields::preorder_all, crate::specs::Convert::columns_of_fields))]
#[cycle(convert)]
fn copy_fields(alloc: Global, raw: &[RawField]) -> Result<Vec<Field>, AllocError>
    requires { AreReadable (preorder_all (raw_fields_of (map raw_field_of raw.now))) }
    ensures { IfOk result (λ fields. map column_of fields.items ≡ columns_of_fields (raw_fields_of (map raw_field_of raw.now))) }
{
    let mut fields = Vec::new(alloc);
    for field in raw {
        fields.push(copy_field(alloc, field)?)?;
    }
    Ok(fields)
}

#[tactic(auto, using(crate::proofs::Columns::accepted_readable, crate::proofs::Columns::accepted_pairs, crate::specs::laws::FieldLists::columns_of_list))]
fn copy_schema(alloc: Global, raw: &RawSchema) -> Result<Schema, AllocError>
    requires { IsAccepted (raw_schema_of raw.now) }
    ensures { IfOk result (λ schema. schema_of schema ≡ plain_schema_of (raw_schema_of raw.now)) }
{
    let fields = copy_fields(alloc, &raw.fields)?;
    let pairs = copy_pairs(alloc, &raw.pairs)?;
    Ok(Schema { fields, pairs })
}

/// Checks the schema of a header and converts it. Strings are copied only once all tests have passed.
///
/// # Errors
/// `Fault` with the fault of the first test that fails; `OutOfMemory` if memory was refused.
#[tactic(auto, using(crate::specs::laws::Accepted::accepted_outcome, crate::proofs::Columns::accepted_within), unfolding(crate::specs::Checks::checked_schema))]
pub fn read_schema(alloc: Global, raw: &RawSchema) -> Result<Schema, ImportError>
    ensures exact { Gives schema_of result (checked_schema supported_codes (raw_schema_of raw.now)) }
    ensures within { IfOk result (λ schema. IsWithinLimits (schema_of schema)) }
{
    check_schema(alloc, raw)?;
    Ok(copy_schema(alloc, raw)?)
}
