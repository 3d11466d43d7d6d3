// A table in memory.
ghost use Rattle.std.specs.Prelude.{◌≡◌, IsTrue};
ghost use Rattle.values.specs.Table.{IsTable};
ghost use Rattle.values.specs.Content.{table_with, is_filled};

use crate::accept::weigh_rows;
use crate::batches::{BatchPlace, Batches, part_lengths};
use crate::content::Content;
use crate::errors::TableError;
use crate::rows::{Rows, given_row};
use crate::starts::total;
use crate::table_part::TablePart;
use arrow_schema::Schema;
use cells::{MAX_TABLE_WEIGHT, Row};
use columns::Values;
use std::alloc::{AllocError, Global};

/// A table: its schema, and its rows in order. Contracts see nothing else of it. Rows that were given one by one stay as
/// they are; else the table is kept in record batches, and a row takes no memory of its own.
#[derive(Drop)]
pub struct Table {
    schema: Schema,
    content: Content,
    rows: usize,
    ghost filled: { IsTrue (is_filled schema rows content) },
    ghost kept: { IsTable (table_with schema content) },
}

impl Table {
    ghost use Rattle.std.specs.Prelude.{true, ◌==◌, ◌↔◌, length, slice_get, option_map, map, IfOk, IfErr, IfSome, IsSome, Ok};
    ghost use Rattle.arrow_schema.specs.Column.{columns_of};
    ghost use Rattle.arrow_schema.specs.View.{schema_of};
    ghost use Rattle.arrow_schema.specs.Limits.{IsWithinLimits};
    ghost use Rattle.columns.specs.Borrowed.{borrowed_cells};
    ghost use Rattle.values.specs.Parts.{are_parts_sound, parts_table};
    ghost use Rattle.values.specs.Table.{table_from};
    ghost use Rattle.cells.specs.Dictionary.{is_any_limited};
    ghost use Rattle.cells.specs.Row.{row_of};
    ghost use Rattle.cells.specs.Weight.{table_weight};
    ghost use Rattle.values.specs.TableView.{table_of, rows_left, is_in_parts, Reports};
    ghost use Rattle.values.specs.declared.errors.TableError.TheVariants.{OutOfMemory};

    /// Makes the table of these rows.
    ///
    /// ```
    /// let row = Row { cells: vec![in alloc; Value::Int(7)]? };
    /// let table = Table::new(alloc, schema, vec![in alloc; row]?)?;
    /// ```
    ///
    /// # Errors
    /// `Unfit` with the first row, counted from 0, that does not fit, weighs more than `MAX_ROW_WEIGHT` or fills a dictionary; `Weight` if there
    /// is none, and the rows together weigh more than `MAX_TABLE_WEIGHT`; `OutOfMemory`, for which a dictionary must have indices of 8 or 16 bits.
    pub fn new(alloc: Global, schema: Schema, rows: Vec<Row>) -> Result<Table, TableError>
        requires { IsWithinLimits (schema_of schema) }
        ensures made { IfOk result (λ t. table_of t ≡ record { schema = schema_of schema; rows = map row_of rows.items }) }
        ensures taken { IfOk result (λ t. table_from (schema_of schema) (map row_of rows.items) ≡ Ok (table_of t)) }
        ensures refused { IfErr result (λ e. Reports e (table_from (schema_of schema) (map row_of rows.items))) }
        ensures memory { IfErr result (λ e. e ≡ OutOfMemory → is_any_limited (columns_of (schema_of schema).columns) ≡ true) }
    {
        let (table, _) = Table::weighed(alloc, schema, rows)?;
        Ok(table)
    }

    /// The same, and what its rows weigh.
    ///
    /// # Errors
    /// Those of [`Table::new`].
    pub fn weighed(
        alloc: Global,
        schema: Schema,
        rows: Vec<Row>,
    ) -> Result<(Table, u64), TableError>
        requires { IsWithinLimits (schema_of schema) }
        ensures made { IfOk result (λ t. table_of t.0 ≡ record { schema = schema_of schema; rows = map row_of rows.items }) }
        ensures weight { IfOk result (λ t. t.1 ≡ table_weight (schema_of schema) (map row_of rows.items)) }
        ensures taken { IfOk result (λ t. table_from (schema_of schema) (map row_of rows.items) ≡ Ok (table_of t.0)) }
        ensures refused { IfErr result (λ e. Reports e (table_from (schema_of schema) (map row_of rows.items))) }
        ensures memory { IfErr result (λ e. e ≡ OutOfMemory → is_any_limited (columns_of (schema_of schema).columns) ≡ true) }
    {
        let weight = weigh_rows(&schema, &rows, alloc)?;
        if weight > MAX_TABLE_WEIGHT {
            return Err(TableError::Weight);
        }
        let count = rows.len();
        let table = Table {
            schema,
            content: Content::Rows(rows),
            rows: count,
        };
        Ok((table, weight))
    }

    /// Makes the table of the rows of some record batches, in order. No cell is copied.
    ///
    /// # Errors
    /// `AllocError` if memory was refused.
    pub fn from_parts(
        alloc: Global,
        schema: Schema,
        parts: Vec<TablePart>,
    ) -> Result<Table, AllocError>
        requires sound { are_parts_sound (columns_of (schema_of schema).columns) parts.items ≡ true }
        requires table { IsTable (parts_table (schema_of schema) parts.items) }
        ensures made { IfOk result (λ t. table_of t ≡ parts_table (schema_of schema) parts.items) }
        ensures in_parts { IfOk result (λ t. is_in_parts t ≡ true) }
    {
        match Table::from_parts_or_back(alloc, schema, parts) {
            Ok(table) => Ok(table),
            Err(_) => Err(AllocError),
        }
    }

    /// The same, but the parts are returned if memory is refused.
    ///
    /// # Errors
    /// The parts, if memory was refused.
    pub fn from_parts_or_back(
        alloc: Global,
        schema: Schema,
        parts: Vec<TablePart>,
    ) -> Result<Table, Vec<TablePart>>
        requires sound { are_parts_sound (columns_of (schema_of schema).columns) parts.items ≡ true }
        requires table { IsTable (parts_table (schema_of schema) parts.items) }
        ensures made { IfOk result (λ t. table_of t ≡ parts_table (schema_of schema) parts.items) }
        ensures in_parts { IfOk result (λ t. is_in_parts t ≡ true) }
        ensures back { IfErr result (λ back. back.items ≡ parts.items) }
    {
        let Ok(lengths) = part_lengths(alloc, &parts) else {
            return Err(parts);
        };
        let rows = total(&lengths);
        let batches = Batches::new(alloc, parts, &lengths)?;
        Ok(Table {
            schema,
            content: Content::Batches(batches),
            rows,
        })
    }

    /// Returns the record batches, if the table is kept in these.
    pub fn parts(&self) -> Option<&[TablePart]>
        ensures sound { IfSome result (λ parts. are_parts_sound (columns_of (table_of self.now).schema.columns) parts.now ≡ true) }
        ensures rows { IfSome result (λ parts. table_of self.now ≡ parts_table (table_of self.now).schema parts.now) }
        ensures kept { IsSome result ↔ (is_in_parts self.now ≡ true) }
    {
        match &self.content {
            Content::Batches(batches) => Some(&batches.parts),
            _ => None,
        }
    }

    /// Returns the record batches of a table that is kept in these.
    pub fn into_parts(self) -> Vec<TablePart>
        requires in_parts { is_in_parts self ≡ true }
        ensures sound { are_parts_sound (columns_of (table_of self).schema.columns) result.items ≡ true }
        ensures rows { table_of self ≡ parts_table (table_of self).schema result.items }
    {
        let Table { content, .. } = self;
        match content {
            Content::Batches(batches) => {
                let Batches { parts, .. } = batches;
                parts
            }
            _ => unreachable!(),
        }
    }

    /// Returns the schema.
    pub fn schema(&self) -> &Schema
        ensures schema { schema_of result.now ≡ (table_of self.now).schema }
        ensures kept { IsTable (table_of self.now) }
    {
        &self.schema
    }

    /// Returns the number of rows.
    #[tactic(auto, using(crate::proofs::ContentLemmas::length_content))]
    pub fn len(&self) -> usize
        ensures { result ≡ length (table_of self.now).rows }
    {
        self.rows
    }

    /// Returns whether it has no row.
    pub fn is_empty(&self) -> bool
        ensures { result ≡ (length (table_of self.now).rows == 0) }
    {
        self.len() == 0
    }

    /// Returns the row at an index, counted from 0.
    pub fn row(&self, i: usize) -> Option<Values<'_>>
        ensures { option_map borrowed_cells result ≡ slice_get (table_of self.now).rows i }
    {
        let mut near = BatchPlace { part: 0, batch: 0 };
        self.row_near(i, &mut near)
    }

    // Returns the row and its batch, which is searched near the given one.
    pub(crate) fn row_near<'a>(&'a self, i: usize, near: &mut BatchPlace) -> Option<Values<'a>>
        ensures { option_map borrowed_cells result ≡ slice_get (table_of self.now).rows i }
    {
        if i >= self.len() {
            return None;
        }
        match &self.content {
            Content::Rows(rows) => Some(Values::of_cells(given_row(rows, i))),
            Content::Batches(batches) => {
                let place = batches.find(i, *near);
                *near = place;
                Some(batches.row(&self.schema.fields, place, i))
            }
        }
    }

    /// Returns the rows, in order.
    pub fn rows(&self) -> Rows<'_>
        ensures { rows_left result ≡ (table_of self.now).rows }
    {
        Rows {
            table: self,
            next: 0,
            near: BatchPlace { part: 0, batch: 0 },
        }
    }
}
