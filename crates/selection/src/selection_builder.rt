// Builds the selection of a table, whose rows come one part after another.
ghost use Rattle.std.specs.Prelude.{◌≡◌, Ok, true, IfOk, IfErr};
ghost use Rattle.arrow_schema.specs.Column.{columns_of};
ghost use Rattle.arrow_schema.specs.View.{schema_of};
ghost use Rattle.query.specs.Selection.{selection};
ghost use Rattle.query.specs.View.{query_in, Reports};
ghost use Rattle.values.specs.Parts.{are_parts_sound};
ghost use Rattle.values.specs.TableView.{is_in_parts, table_of};

use crate::limit::limit_after;
use crate::picked_schema::pick_schema;
use crate::selecting::select_part;
use arrow_schema::Schema;
use query::{BoundQuery, Query, QueryError, bind_query, selection_is_a_table};
use std::alloc::{AllocError, Global};
use values::{Table, TablePart, tables_are_joined_and_cut};

/// The selection of a table that is given one part after another: its record batches so far, in memory of their own.
#[derive(Drop)]
pub struct SelectionBuilder {
    // The schema of the selection.
    pub(crate) schema: Schema,
    pub(crate) parts: Vec<TablePart>,
    // What is asked of the rows that follow.
    pub(crate) query: BoundQuery,
    ghost sound: { are_parts_sound (columns_of (schema_of schema).columns) parts.items ≡ true },
}

impl SelectionBuilder {
    ghost use Rattle.std.specs.Prelude.{OnErr, OnOk};
    ghost use Rattle.cells.specs.Cell.{PlainTable};
    ghost use Rattle.selection.specs.SelectionBuilder.{SelectsOf, builder_in, builder_after, table_built};
    ghost use Rattle.values.specs.Table.{IsTable};

    /// Returns a builder of the selection of tables of a schema.
    ///
    /// ```ignore
    /// let mut builder = SelectionBuilder::new(alloc, &schema, &query)?;
    /// for part in &parts {
    ///     builder.append(alloc, part)?;
    /// }
    /// let selected = builder.finish(alloc)?;
    /// ```
    ///
    /// # Errors
    /// `UnknownColumn`, `BadCondition` or `NotComparable`, by the first test that fails; `OutOfMemory` if memory is refused.
    pub fn new(
        alloc: Global,
        schema: &Schema,
        query: &Query,
    ) -> Result<SelectionBuilder, QueryError>
        // Rows refuse no query: this is the answer for each table of the schema.
        ensures selects { IfOk result (λ b. (t : PlainTable) → schema_of schema.now ≡ t.schema
            → selection t (query_in query.now) ≡ Ok (table_built (builder_after (builder_in b) t.rows))) }
        ensures tables { IfOk result (λ b. SelectsOf (builder_in b) (schema_of schema.now)) }
        ensures refused { IfErr result (λ e. (t : PlainTable) → schema_of schema.now ≡ t.schema → Reports e (selection t (query_in query.now))) }
    {
        selection_is_a_table();
        let bound = bind_query(alloc, schema, query)?;
        Ok(SelectionBuilder {
            schema: pick_schema(alloc, schema, &bound.places)?,
            parts: Vec::new(alloc),
            query: bound,
        })
    }

    /// Appends the rows that are selected from the next part, which is a table of the schema that the builder was made for. Nothing of the part is
    /// kept. One that is kept as rows is written as a stream first.
    ///
    /// # Errors
    /// `AllocError` if memory is refused. The builder is then as before.
    pub fn append(&mut self, alloc: Global, part: &Table) -> Result<(), AllocError>
        requires tables { SelectsOf (builder_in self.old) (table_of part.now).schema }
        ensures ok { OnOk result (builder_in self.new ≡ builder_after (builder_in self.old) (table_of part.now).rows) }
        ensures err { OnErr result (builder_in self.new ≡ builder_in self.old) }
        ensures tables { OnOk result (SelectsOf (builder_in self.new) (table_of part.now).schema) }
    {
        tables_are_joined_and_cut();
        let Some(selected) = select_part(alloc, &self.schema, part, &self.query)? else {
            return Ok(());
        };
        let rows = selected.len() as u64;
        let mut more = selected.into_parts();
        self.parts.append(&mut more)?;
        self.query.limit = limit_after(self.query.limit, rows);
        Ok(())
    }

    /// Returns the table of the rows.
    ///
    /// # Errors
    /// `AllocError` if memory is refused.
    pub fn finish(self, alloc: Global) -> Result<Table, AllocError>
        requires table { IsTable (table_built (builder_in self)) }
        ensures ok { IfOk result (λ t. table_of t ≡ table_built (builder_in self)) }
        ensures in_parts { IfOk result (λ t. is_in_parts t ≡ true) }
    {
        let SelectionBuilder { schema, parts, .. } = self;
        Table::from_parts(alloc, schema, parts)
    }
}

/// Returns the rows for which all conditions hold, then of these the columns asked for, then the first rows. The columns asked for are tested
/// first, and then the conditions in order.
///
/// The result is kept in record batches, in the memory of its stream. It takes time linear in the mask, the runs of kept rows and the bytes of the
/// result; and in the cells of pieces of 4,096 rows that have rows under several dictionaries of 8 or 16 bit indices. A table that is kept as rows is
/// written as a stream first.
///
/// ```
/// let conditions = vec![in alloc; Condition::parse(alloc, "millidegrees < 0")?]?;
/// let cold = Query { columns: Vec::new(alloc), conditions, limit: None, dates: DateForm::Numbers };
/// let found = select(alloc, &table, &cold)?;
/// ```
///
/// # Errors
/// `UnknownColumn`, `BadCondition` or `NotComparable`, by the first test that fails; `OutOfMemory` if memory is refused.
pub fn select(alloc: Global, table: &Table, query: &Query) -> Result<Table, QueryError>
    ensures ok { IfOk result (λ t. selection (table_of table.now) (query_in query.now) ≡ Ok (table_of t)) }
    ensures in_parts { IfOk result (λ t. is_in_parts t ≡ true) }
    ensures refused { IfErr result (λ e. Reports e (selection (table_of table.now) (query_in query.now))) }
{
    selection_is_a_table();
    let mut builder = SelectionBuilder::new(alloc, table.schema(), query)?;
    builder.append(alloc, table)?;
    let selected = builder.finish(alloc)?;
    Ok(selected)
}
