// The columns of a schema that have dictionaries, from its header.
ghost use Rattle.std.specs.Prelude.{◌≡◌, true, false, [], None, IfOk};
ghost use Rattle.std.specs.List.{list_any, list_all};
ghost use Rattle.std.specs.Str.{is_utf8};
ghost use Rattle.arrow_schema.specs.Column.{column};
ghost use Rattle.arrow_schema.specs.View.{kind_of, column_of};
ghost use Rattle.ipc_message.specs.Fields.{every_field};
ghost use Rattle.ipc_message.specs.Checks.{is_bad, texts_of};
ghost use Rattle.ipc_message.specs.View.{raw_schema_of};
ghost use Rattle.arrays.specs.Dictionaries.{dictionary_columns};
ghost use Rattle.arrays.specs.DictionaryColumns.{dictionary_columns_of};
ghost use Rattle.arrays.specs.inner.SchemaDictionaries.{columns_of_types};

use crate::dictionary_columns::DictionaryColumns;
use arrow_schema::{DataType, Field};
use ipc_message::{DictionaryType, RawSchema, read_dictionary_types};
use std::alloc::{AllocError, Global};

// The values of a dictionary as a field of their own.
fn value_field(alloc: Global, data_type: DataType) -> Field
    ensures { column_of result ≡ column [] true (kind_of data_type) None [] }
{
    Field {
        name: String::new(alloc),
        nullable: true,
        data_type,
        dictionary: None,
        pairs: Vec::new(alloc),
    }
}

fn columns_of(alloc: Global, types: Vec<DictionaryType>) -> Result<DictionaryColumns, AllocError>
    ensures { IfOk result (λ columns. dictionary_columns_of columns ≡ columns_of_types types.items) }
{
    let mut types = types;
    let mut ids = Vec::new(alloc);
    let mut values = Vec::new(alloc);
    while let Some(one) = types.pop() {
        ids.push(one.id)?;
        values.push(value_field(alloc, one.data_type))?;
    }
    ids.reverse();
    values.reverse();
    Ok(DictionaryColumns { ids, values })
}

/// The columns of a schema that have dictionaries, where all its fields decode to types and all its texts are UTF-8.
///
/// # Errors
/// `AllocError` where memory was refused.
pub fn read_dictionary_columns(
    alloc: Global,
    raw: &RawSchema,
) -> Result<DictionaryColumns, AllocError>
    requires decoded { list_any is_bad (every_field (raw_schema_of raw.now)) ≡ false }
    requires utf8 { list_all is_utf8 (texts_of (raw_schema_of raw.now)) ≡ true }
    ensures { IfOk result (λ columns. dictionary_columns_of columns ≡ dictionary_columns (raw_schema_of raw.now)) }
{
    columns_of(alloc, read_dictionary_types(alloc, raw)?)
}
