// The dictionaries of a schema: their ids and value types.
use arrow_schema::DataType;

/// The dictionary of a field: its id and the type of its values.
#[derive(Drop)]
pub struct DictionaryType {
    pub id: u64,
    pub data_type: DataType,
}
