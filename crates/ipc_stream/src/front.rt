// The state of a stream after its first messages.

use arrays::DictionaryColumns;
use arrow_schema::Schema;
use dictionary::Dictionaries;
use values::Batch;

/// The state after some messages of a stream: the schema, its columns with dictionaries, the dictionaries and record batches so far, and the weight
/// of their rows.
#[derive(Drop)]
pub struct Front {
    pub(crate) schema: Schema,
    pub(crate) columns: DictionaryColumns,
    pub(crate) dictionaries: Dictionaries,
    pub(crate) batches: Vec<Batch>,
    pub(crate) weight: u64,
}
