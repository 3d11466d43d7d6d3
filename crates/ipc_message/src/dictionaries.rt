// Lists the dictionaries of a schema that passed its tests, field by field.
ghost use Rattle.std.specs.Prelude.{◌≡◌, true, false, map, OnOk, IfOk};
ghost use Rattle.std.specs.List.{list_any, list_all};
ghost use Rattle.std.specs.Str.{is_utf8};
ghost use Rattle.arrow_schema.specs.Parts.{kind_of_column};
ghost use Rattle.arrow_schema.specs.View.{kind_of};
ghost use Rattle.ipc_message.specs.Raw.{raw_fields_of};
ghost use Rattle.ipc_message.specs.Fields.{every_field, preorder, preorder_all, dictionary_of};
ghost use Rattle.ipc_message.specs.Convert.{column_of_field};
ghost use Rattle.ipc_message.specs.Checks.{is_bad, texts_of};
ghost use Rattle.ipc_message.specs.View.{raw_field_of, raw_schema_of};
ghost use Rattle.ipc_message.specs.DictionaryTypes.{own_dictionary, dictionaries_in, dictionaries_of_schema, plain_dictionary_of};
ghost use Rattle.ipc_message.specs.inner.Appended.{Appends};
ghost use Rattle.ipc_message.specs.inner.Readable.{AreReadable};

use crate::convert::copy_field;
use crate::dictionary_type::DictionaryType;
use crate::raw_header::{RawField, RawSchema};
use arrow_schema::{DataType, Field};
use std::alloc::{AllocError, Global};

fn type_of(alloc: Global, raw: &RawField) -> Result<DataType, AllocError>
    requires { AreReadable (preorder (raw_field_of raw.now)) }
    ensures { IfOk result (λ data_type. kind_of data_type ≡ kind_of_column (column_of_field (raw_field_of raw.now))) }
{
    let field = copy_field(alloc, raw)?;
    let Field { data_type, .. } = field;
    Ok(data_type)
}

fn list_own(
    alloc: Global,
    list: &mut Vec<DictionaryType>,
    field: &RawField,
) -> Result<(), AllocError>
    requires { AreReadable (preorder (raw_field_of field.now)) }
    ensures { let f = raw_field_of field.now in OnOk result (Appends list.old.items list.new.items (own_dictionary (dictionary_of f) f)) }
{
    if let Some(encoding) = &field.dictionary {
        let id = encoding.id;
        let data_type = type_of(alloc, field)?;
        list.push(DictionaryType { id, data_type })?;
    }
    Ok(())
}

#[tactic(auto, unfolding(crate::specs::Fields::preorder_all))]
fn list_fields(
    alloc: Global,
    list: &mut Vec<DictionaryType>,
    fields: &[RawField],
) -> Result<(), AllocError>
    requires { AreReadable (preorder_all (raw_fields_of (map raw_field_of fields.now))) }
    ensures { OnOk result (Appends list.old.items list.new.items (dictionaries_in (preorder_all (raw_fields_of (map raw_field_of fields.now))))) }
{
    for field in fields {
        list_own(alloc, list, field)?;
        list_fields(alloc, list, &field.children)?;
    }
    Ok(())
}

/// Lists the dictionaries of a schema in preorder, each with its id and the type of its values. All fields must decode to types, and all strings must
/// be UTF-8.
///
/// # Errors
/// `AllocError` if memory was refused.
pub fn read_dictionary_types(
    alloc: Global,
    raw: &RawSchema,
) -> Result<Vec<DictionaryType>, AllocError>
    requires decoded { list_any is_bad (every_field (raw_schema_of raw.now)) ≡ false }
    requires utf8 { list_all is_utf8 (texts_of (raw_schema_of raw.now)) ≡ true }
    ensures { IfOk result (λ types. map plain_dictionary_of types.items ≡ dictionaries_of_schema (raw_schema_of raw.now)) }
{
    let mut list = Vec::new(alloc);
    list_fields(alloc, &mut list, &raw.fields)?;
    Ok(list)
}
