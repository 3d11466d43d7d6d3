// Whether the arrays of some fields are read as those of others: their types and dictionaries are equal at every depth. Names, nullability and pairs may differ.
ghost use Rattle.std.specs.Prelude.{◌≡◌, true, option_map};
ghost use Rattle.arrow_schema.specs.View.{column_of, index_of, kind_of};
ghost use Rattle.columns.specs.View.{fields_of};
ghost use Rattle.ipc_encode.specs.inner.Encoding.{encoding, encodings, kind_encoding};

use arrow_schema::{DataType, DictSpec, Field};

fn is_same_dictionary(a: Option<DictSpec>, b: Option<DictSpec>) -> bool
    ensures { result ≡ true → option_map index_of a ≡ option_map index_of b }
{
    match (a, b) {
        (Some(a), Some(b)) => a == b,
        (None, None) => true,
        _ => false,
    }
}

#[tactic(auto, unfolding(crate::specs::inner::Encoding::encoding))]
#[cycle(encoding)]
fn has_same_encoding(a: &Field, b: &Field) -> bool
    ensures { result ≡ true → encoding (column_of a.now) ≡ encoding (column_of b.now) }
{
    is_same_dictionary(a.dictionary, b.dictionary) && is_same_type(&a.data_type, &b.data_type)
}

#[tactic(auto, unfolding(crate::specs::inner::Encoding::kind_encoding))]
#[cycle(encoding)]
fn is_same_type(a: &DataType, b: &DataType) -> bool
    ensures { result ≡ true → kind_encoding (kind_of a.now) ≡ kind_encoding (kind_of b.now) }
{
    match a {
        DataType::List(x) => match b {
            DataType::List(y) => has_same_encoding(x, y),
            _ => false,
        },
        DataType::LargeList(x) => match b {
            DataType::LargeList(y) => has_same_encoding(x, y),
            _ => false,
        },
        DataType::FixedSizeList(size, x) => match b {
            DataType::FixedSizeList(other_size, y) => size == other_size && has_same_encoding(x, y),
            _ => false,
        },
        DataType::Struct(xs) => match b {
            DataType::Struct(ys) => have_same_encodings(xs, ys),
            _ => false,
        },
        _ => a.equals(b),
    }
}

/// Returns whether the arrays of some fields are read as those of others.
#[tactic(auto, unfolding(crate::specs::inner::Encoding::encodings))]
#[cycle(encoding)]
pub(crate) fn have_same_encodings(fields: &[Field], others: &[Field]) -> bool
    ensures { result ≡ true → encodings (fields_of fields.now) ≡ encodings (fields_of others.now) }
{
    if fields.len() != others.len() {
        return false;
    }
    for (i, field) in fields.iter().enumerate() {
        if !has_same_encoding(field, &others[i]) {
            return false;
        }
    }
    true
}
