// Which schemas have a dictionary that some rows can fill: its indices name fewer entries than there can be values in these rows.
ghost use Rattle.std.specs.Prelude.{◌≡◌, map, option_map};
ghost use Rattle.arrow_schema.specs.Column.{columns_of};
ghost use Rattle.arrow_schema.specs.View.{kind_of, column_of, index_of, schema_of};
ghost use Rattle.table_cut.specs.inner.Filling.{can_exceed, can_fill, can_kind_fill, can_any_fill, can_rows_fill};

use arrow_schema::{DataType, DictSpec, Field, Schema};
use cells::entry_limit;

// Returns whether so many values (`None` is any number) can be more than the indices of a dictionary name.
fn can_exceed(values: Option<usize>, dictionary: Option<DictSpec>) -> bool
    ensures { result ≡ can_exceed values (option_map index_of dictionary) }
{
    let Some(dictionary) = dictionary else {
        return false;
    };
    match (entry_limit(dictionary.index), values) {
        (None, _) => false,
        (Some(_), None) => true,
        (Some(most), Some(n)) => n > most,
    }
}

#[tactic(auto, unfolding(crate::specs::inner::Filling::can_fill))]
#[cycle(filling)]
fn can_fill(field: &Field, values: Option<usize>) -> bool
    ensures { result ≡ can_fill values (column_of field.now) }
{
    can_exceed(values, field.dictionary) || can_type_fill(&field.data_type, values)
}

// A list has any number of items.
#[tactic(auto, unfolding(crate::specs::inner::Filling::can_kind_fill))]
#[cycle(filling)]
fn can_type_fill(data_type: &DataType, values: Option<usize>) -> bool
    ensures { result ≡ can_kind_fill values (kind_of data_type.now) }
{
    match data_type {
        DataType::List(item) => can_fill(item, None),
        DataType::LargeList(item) => can_fill(item, None),
        DataType::FixedSizeList(_, item) => can_fill(item, None),
        DataType::Struct(fields) => can_any_fill(fields, values),
        _ => false,
    }
}

#[tactic(auto, unfolding(crate::specs::inner::Filling::can_any_fill))]
#[cycle(filling)]
fn can_any_fill(fields: &[Field], values: Option<usize>) -> bool
    ensures { result ≡ can_any_fill values (columns_of (map column_of fields.now)) }
{
    for field in fields {
        if can_fill(field, values) {
            return true;
        }
    }
    false
}

/// Returns whether `rows` rows can fill a dictionary of a schema. If not, they have no more values than its indices can name.
pub(crate) fn can_rows_fill(schema: &Schema, rows: usize) -> bool
    ensures { result ≡ can_rows_fill rows (columns_of (schema_of schema.now).columns) }
{
    can_any_fill(&schema.fields, Some(rows))
}
