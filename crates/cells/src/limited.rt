// Which schemas have a dictionary that can become full.
ghost use Rattle.std.specs.Prelude.{◌≡◌, map, option_map};
ghost use Rattle.arrow_schema.specs.Column.{columns_of};
ghost use Rattle.arrow_schema.specs.View.{kind_of, column_of, index_of, schema_of};
ghost use Rattle.cells.specs.Dictionary.{has_limit, is_limited, is_kind_limited, is_any_limited};

use crate::holding::entry_limit;
use arrow_schema::{DataType, DictSpec, Field, Schema};

/// Returns whether there is a dictionary and its indices can name only a limited number of entries.
pub fn has_limit(dictionary: Option<DictSpec>) -> bool
    ensures { result ≡ has_limit (option_map index_of dictionary) }
{
    match dictionary {
        None => false,
        Some(dictionary) => entry_limit(dictionary.index).is_some(),
    }
}

#[tactic(auto, unfolding(crate::specs::Dictionary::is_limited))]
#[cycle(limited)]
fn is_limited(field: &Field) -> bool
    ensures { result ≡ is_limited (column_of field.now) }
{
    has_limit(field.dictionary) || is_type_limited(&field.data_type)
}

#[tactic(auto, unfolding(crate::specs::Dictionary::is_kind_limited))]
#[cycle(limited)]
fn is_type_limited(data_type: &DataType) -> bool
    ensures { result ≡ is_kind_limited (kind_of data_type.now) }
{
    match data_type {
        DataType::List(item) => is_limited(item),
        DataType::LargeList(item) => is_limited(item),
        DataType::FixedSizeList(_, item) => is_limited(item),
        DataType::Struct(fields) => is_any_limited(fields),
        _ => false,
    }
}

// Returns whether a dictionary at or below one of these fields has a limit.
#[tactic(auto, unfolding(crate::specs::Dictionary::is_any_limited))]
#[cycle(limited)]
fn is_any_limited(fields: &[Field]) -> bool
    ensures { result ≡ is_any_limited (columns_of (map column_of fields.now)) }
{
    for field in fields {
        if is_limited(field) {
            return true;
        }
    }
    false
}

/// Returns whether a dictionary of a schema has a limit. If none has, no row can fill a dictionary.
pub fn has_limits(schema: &Schema) -> bool
    ensures { result ≡ is_any_limited (columns_of (schema_of schema.now).columns) }
{
    is_any_limited(&schema.fields)
}
