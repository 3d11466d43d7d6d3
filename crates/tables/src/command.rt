// The commands that change a store's tables.
ghost use Rattle.arrow_schema.specs.View.{schema_of};
ghost use Rattle.arrow_schema.specs.Limits.{IsWithinLimits};

use arrow_schema::Schema;
use cells::Row;
use query::Query;
use values::WeighedTable;

/// A table to be created: its name, and its schema, which is within the limits. Fields of `field_texts::parse_fields` without pairs are within them; of any
/// other schema `Schema::check` says so.
#[derive(Drop)]
pub struct NewTable {
    pub name: String,
    pub schema: Schema,
    pub ghost within: { IsWithinLimits (schema_of schema) },
}

/// A change of the tables. Each variant lists its refusals in the order of its tests. Memory may be refused at any time.
///
/// ```
/// let fields = parse_fields(alloc, &["at:timestamp_s(UTC)", "value:int64", "note:utf8?"])?;
/// let schema = Schema { fields, pairs: Vec::new(alloc) };
/// store.apply(alloc, Command::Create(NewTable { name: String::from_str(alloc, "readings")?, schema }))?;
/// let cells = vec![in alloc; Value::Int(1_700_000_000), Value::Int(-250), Value::Null]?;
/// let rows = vec![in alloc; Row { cells }]?;
/// store.apply(alloc, Command::AppendRows { name: String::from_str(alloc, "readings")?, rows })?;
/// ```
#[derive(Drop)]
pub enum Command {
    /// Creates a table without rows. `BadName`, `NameTaken`, `TooMany(Tables)`.
    Create(NewTable),
    /// Puts the table that a stream means, replacing one of this name. `BadName`, `TooMany(Bytes)`, `Import`, `TooMany(Tables)`.
    ImportStream {
        name: String,
        bytes: Vec<u8>,
    },
    /// Appends the rows that a stream means. `NoTable`, `TooMany(Bytes)`, `Import`, `SchemaMismatch`, `RowUnfit`; then the table is read, and
    /// `TooMany(Weight)`.
    AppendStream {
        name: String,
        bytes: Vec<u8>,
    },
    /// Appends rows. `NoTable`, `RowUnfit`; then the table is read, and `TooMany(Weight)`.
    AppendRows {
        name: String,
        rows: Vec<Row>,
    },
    /// Appends the rows of a table with any schema, with the tests of `AppendRows`. If its schema is that of the stored table, the rows are not tested one by
    /// one. `ipc_stream::decode_weighed`, `text_columns::csv_table` and `jsonl_table` make such a table.
    AppendTable {
        name: String,
        new: WeighedTable,
    },
    /// Saves the selection of a table as a new table. `NoTable`, `Query`, `BadName`, `NameTaken`, `TooMany(Tables)`; then the table is read.
    SaveAs {
        from: String,
        to: String,
        query: Query,
    },
    /// Renames a table. `NoTable`, `BadName`, `NameTaken`, even if both names are equal.
    Rename {
        from: String,
        to: String,
    },
    /// Removes a table. `NoTable`.
    Drop {
        name: String,
    },
}
