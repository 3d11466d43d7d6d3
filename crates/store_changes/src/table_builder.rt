// Builds a table from its segments, which are read one after another.
ghost use Rattle.std.specs.Prelude.{◌≡◌, true, IfOk};
ghost use Rattle.arrow_schema.specs.Column.{columns_of};
ghost use Rattle.arrow_schema.specs.Limits.{IsWithinLimits};
ghost use Rattle.arrow_schema.specs.View.{schema_of};
ghost use Rattle.cells.specs.Weight.{table_weight};
ghost use Rattle.cells.specs.declared.limits.TheConstants.{MAX_TABLE_WEIGHT};
ghost use Rattle.values.specs.Parts.{parts_table, are_parts_sound};
ghost use Rattle.values.specs.Table.{IsTable};
ghost use Rattle.values.specs.TableView.{table_of, is_in_parts};

use arrow_schema::Schema;
use std::alloc::{AllocError, Global};
use values::{Table, TablePart, WeighedTable, tables_are_joined_and_cut};

/// A table while its segments are read: the record batches so far, which keep the bytes that were read.
#[derive(Drop)]
pub(crate) struct TableBuilder {
    pub(crate) schema: Schema,
    pub(crate) parts: Vec<TablePart>,
    pub(crate) weight: u64,
    ghost sound: { are_parts_sound (columns_of (schema_of schema).columns) parts.items ≡ true },
    ghost kept: { IsTable (parts_table (schema_of schema) parts.items) },
    ghost weighs: { weight ≡ table_weight (schema_of schema) (parts_table (schema_of schema) parts.items).rows },
}

impl TableBuilder {
    ghost use Rattle.std.specs.Prelude.{◌≤◌, ◌+◌, ◌++◌, []};
    ghost use Rattle.store_changes.specs.inner.TableBuilder.{table_so_far};

    /// Returns a builder without rows.
    pub(crate) fn empty(alloc: Global, schema: Schema) -> TableBuilder
        requires { IsWithinLimits (schema_of schema) }
        ensures { table_so_far result ≡ record { schema = schema_of schema; rows = [] } }
    {
        TableBuilder {
            schema,
            parts: Vec::new(alloc),
            weight: 0,
        }
    }

    /// Appends the rows of a table of the same schema. No cell is copied.
    ///
    /// # Errors
    /// `AllocError` if memory was refused.
    pub(crate) fn append(self, more: WeighedTable) -> Result<TableBuilder, AllocError>
        requires schema { (table_of more.table).schema ≡ (table_so_far self).schema }
        requires light { self.weight + more.weight ≤ MAX_TABLE_WEIGHT }
        requires in_parts { is_in_parts more.table ≡ true }
        ensures joined { IfOk result (λ g. table_so_far g
            ≡ record { schema = (table_so_far self).schema; rows = (table_so_far self).rows ++ (table_of more.table).rows }) }
    {
        tables_are_joined_and_cut();
        let WeighedTable { table, weight } = more;
        table.schema();
        let TableBuilder {
            schema,
            mut parts,
            weight: so_far,
        } = self;
        let mut new = table.into_parts();
        parts.append(&mut new)?;
        Ok(TableBuilder {
            schema,
            parts,
            weight: so_far + weight,
        })
    }

    /// Returns the table of the rows.
    pub(crate) fn finish(self, alloc: Global) -> Result<Table, AllocError>
        ensures { IfOk result (λ table. table_of table ≡ table_so_far self) }
    {
        let TableBuilder { schema, parts, .. } = self;
        Table::from_parts(alloc, schema, parts)
    }
}
