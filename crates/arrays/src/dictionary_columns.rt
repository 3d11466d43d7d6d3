// The columns of a schema that have dictionaries.

use arrow_schema::Field;

/// The columns of a schema that have dictionaries, in preorder: the id of each dictionary, and its values as a field of its own, which takes nulls and has
/// no dictionary.
#[derive(Drop)]
pub struct DictionaryColumns {
    pub ids: Vec<u64>,
    pub values: Vec<Field>,
}
