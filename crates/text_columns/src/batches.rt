// The record batches of a text. Each has dictionaries of its own, so a batch that ends when a dictionary is full leaves room for the next one.
ghost use Rattle.std.specs.Prelude.{◌≡◌, [], ℕ, List, length, true, IfOk, IfSome, OnOk};
ghost use Rattle.std.specs.List.{list_all};
ghost use Rattle.arrow_schema.specs.Column.{PlainSchema};
ghost use Rattle.arrow_schema.specs.View.{schema_of};
ghost use Rattle.cells.specs.Cell.{Cell};
ghost use Rattle.text_columns.specs.inner.Batches.{AddsRow, ArePartsOf, HoldRows, HoldsSame, has_room};
ghost use Rattle.text_columns.specs.inner.Tables.{IsPartOf};

use crate::builder::ColumnBuilder;
use crate::placing::{Placed, place_all};
use crate::starting::empty_columns;
use arrow_schema::Schema;
use cells::MAX_PIECE_ROWS;
use columns::{
    built_reads_back, dictionaries_are_written_alone, listed_reads_back, rows_can_be_built,
    written_arrays_have_their_shape, written_arrays_pass,
};
use std::alloc::{AllocError, Global};
use std::mem;
use values::{Batch, TablePart};

/// How many rows a record batch has if no column has parts or a dictionary: those of a piece of a stream. So its buffers are still in the processor's caches
/// when they are copied, the next batch takes their memory, and a piece is written from one batch.
const BATCH_ROWS: usize = MAX_PIECE_ROWS;

/// The record batches that have ended; the columns and the number of rows of the one that is being read; and how many rows it may have.
#[derive(Drop)]
pub(crate) struct Batches {
    pub(crate) parts: Vec<TablePart>,
    pub(crate) builders: Vec<ColumnBuilder>,
    pub(crate) rows: usize,
    pub(crate) most: usize,
}

// How many rows a record batch of such columns has. Those with dictionaries have one batch, so that each entry is kept once.
fn most_rows(builders: &[ColumnBuilder]) -> usize {
    for builder in builders {
        if !builder.is_plain() {
            return usize::MAX;
        }
    }
    BATCH_ROWS
}

// Makes the record batch of the buffers of columns, with `rows` rows.
fn build_part(
    alloc: Global,
    columns: Vec<ColumnBuilder>,
    rows: usize,
) -> Result<TablePart, AllocError>
    ensures { IfOk result (λ part. IsPartOf columns.items rows part) }
{
    built_reads_back();
    listed_reads_back();
    rows_can_be_built();
    written_arrays_pass();
    written_arrays_have_their_shape();
    dictionaries_are_written_alone();
    let placed = place_all(alloc, columns)?;
    let Placed {
        bytes,
        dictionaries,
        arrays,
    } = placed;
    let mut batches = Vec::with_capacity(alloc, 1)?;
    batches.push_reserved(Batch { arrays, rows });
    Ok(TablePart {
        bytes,
        dictionaries,
        batches,
    })
}

/// Ends the last record batch, and returns the parts of all.
pub(crate) fn end_batches(alloc: Global, batches: Batches) -> Result<Vec<TablePart>, AllocError>
    ensures { IfOk result (λ parts. (s : PlainSchema) (rows : List (List Cell)) → HoldRows s rows batches → ArePartsOf s rows parts.items) }
{
    let Batches {
        mut parts,
        builders,
        rows,
        most: _,
    } = batches;
    let part = build_part(alloc, builders, rows)?;
    parts.push(part)?;
    Ok(parts)
}

/// Begins the first record batch; `None` if no columns can be begun for the schema.
pub(crate) fn begin_batches(alloc: Global, schema: &Schema) -> Result<Option<Batches>, AllocError>
    ensures { IfOk result (λ started. IfSome started (HoldRows (schema_of schema.now) [])) }
{
    let Some(builders) = empty_columns(alloc, &schema.fields)? else {
        return Ok(None);
    };
    let most = most_rows(&builders);
    Ok(Some(Batches {
        parts: Vec::new(alloc),
        builders,
        rows: 0,
        most,
    }))
}

// Ends the record batch that is being read, and begins the next one.
fn next_batch(
    alloc: Global,
    schema: &Schema,
    batches: Batches,
) -> Result<Option<Batches>, AllocError>
    ensures { IfOk result (λ next. IfSome next (HoldsSame (schema_of schema.now) batches)) }
{
    let most = batches.most;
    let parts = end_batches(alloc, batches)?;
    let Some(builders) = empty_columns(alloc, &schema.fields)? else {
        return Ok(None);
    };
    Ok(Some(Batches {
        parts,
        builders,
        rows: 0,
        most,
    }))
}

// Returns whether the dictionary of each column has room for one more entry.
fn have_room(builders: &[ColumnBuilder]) -> bool
    ensures { result ≡ list_all has_room builders.now }
{
    for builder in builders {
        if !builder.has_room() {
            return false;
        }
    }
    true
}

impl Batches {
    /// Returns whether each dictionary of a column without parts has room for one more entry.
    pub(crate) fn has_room(&self) -> bool
        ensures { result ≡ list_all has_room self.now.builders.items }
    {
        have_room(&self.builders)
    }

    // Ends the record batch that is being read, and begins the next one. Returns false if no columns can be begun.
    #[inline(never)]
    fn begin_next(&mut self, alloc: Global, schema: &Schema) -> Result<bool, AllocError>
        ensures { IfOk result (λ done. done ≡ true → HoldsSame (schema_of schema.now) self.old self.new) }
    {
        let none = Batches {
            parts: Vec::new(alloc),
            builders: Vec::new(alloc),
            rows: 0,
            most: 0,
        };
        let ended = mem::replace(self, none);
        let Some(next) = next_batch(alloc, schema, ended)? else {
            return Ok(false);
        };
        *self = next;
        Ok(true)
    }

    /// If it has as many rows as it may have, or if `ends` and a dictionary has no room for one more entry, ends the record batch and begins the next one.
    /// Returns false if no columns can be begun.
    #[inline(always)]
    pub(crate) fn make_room(
        &mut self,
        alloc: Global,
        schema: &Schema,
        ends: bool,
    ) -> Result<bool, AllocError>
        ensures { IfOk result (λ done. done ≡ true → HoldsSame (schema_of schema.now) self.old self.new) }
    {
        if self.rows < self.most && (!ends || self.has_room()) {
            return Ok(true);
        }
        self.begin_next(alloc, schema)
    }

    /// Counts one more row of the record batch that is being read.
    pub(crate) fn count_row(&mut self) -> Result<(), AllocError>
        ensures adds { OnOk result (AddsRow self.old self.new) }
        ensures builders { self.new.builders ≡ self.old.builders }
    {
        let Some(rows) = self.rows.checked_add(1) else {
            return Err(AllocError);
        };
        self.rows = rows;
        Ok(())
    }
}
