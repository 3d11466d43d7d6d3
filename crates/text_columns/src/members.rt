// Names of columns, and the places of those of members among them.
ghost use Rattle.std.specs.Prelude.{◌≡◌, true, false, map, slice_get, IfOk, IfSome, Some};
ghost use Rattle.arrow_schema.specs.Column.{columns_of};
ghost use Rattle.arrow_schema.specs.View.{column_of};
ghost use Rattle.text_import.specs.Objects.{names_of, repeats};
ghost use Rattle.text_columns.specs.inner.Kept.{key_list};

use crate::coding::{self, add_key};
use arrow_schema::Field;
use indexmap::IndexSet;
use std::alloc::{AllocError, Global};

/// Returns the set of the names of fields; `None` if two are equal.
pub(crate) fn names_of(
    alloc: Global,
    fields: &[Field],
) -> Result<Option<IndexSet<Vec<u8>>>, AllocError>
    ensures { IfOk result (λ found. IfSome found (λ names. (key_list names.keys ≡ names_of (columns_of (map column_of fields.now)))
        × (repeats (names_of (columns_of (map column_of fields.now))) ≡ false))) }
{
    let mut names = IndexSet::new(alloc);
    for field in fields {
        if !add_key(&mut names, field.name.as_bytes())? {
            return Ok(None);
        }
    }
    Ok(Some(names))
}

// Returns whether `name` stands at the place `at`.
fn stands_at(names: &IndexSet<Vec<u8>>, at: usize, name: &str) -> bool
    ensures { result ≡ true → slice_get (key_list names.now.keys) at ≡ Some name.now }
{
    match names.get_index(at) {
        Some(found) => found.as_slice() == name.as_bytes(),
        None => false,
    }
}

/// Returns the place of `name`; `None` if it has none. Members mostly come in the order of the previous object, so the place `before` from there is tested
/// first.
pub(crate) fn find(names: &IndexSet<Vec<u8>>, before: usize, name: &str) -> Option<usize>
    ensures { IfSome result (λ at. slice_get (key_list names.now.keys) at ≡ Some name.now) }
{
    if stands_at(names, before, name) {
        return Some(before);
    }
    match coding::find(names, name.as_bytes()) {
        Some(at) => if stands_at(names, at, name) {
            Some(at)
        } else {
            None
        },
        None => None,
    }
}
