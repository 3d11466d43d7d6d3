// Finds rows of record batches by the starts of the batches.
ghost use Rattle.std.specs.Prelude.{◌≡◌, ◌<◌, ◌^◌, List, true, map, length, take, sum, slice_get, Some, IfOk, IfErr};
ghost use Rattle.cells.specs.Cell.{Cell, cells_of};
ghost use Rattle.columns.specs.Borrowed.{borrowed_cells};
ghost use Rattle.columns.specs.Texts.{have_utf8_texts};
ghost use Rattle.columns.specs.View.{fields_of};
ghost use Rattle.values.specs.inner.Starts.{starts_from, batch_lengths, batch_lengths_at, part_lengths, IsInBatch};
ghost use Rattle.values.specs.Parts.{parts_rows, are_parts_sound};

use crate::starts::{run_near, starts_of};
use crate::table_part::TablePart;
use arrow_schema::Field;
use columns::Values;
use std::alloc::{AllocError, Global};

/// Record batches, and where the rows of each start: those of a part in the table, and those of a batch in its part.
#[derive(Drop)]
pub(crate) struct Batches {
    pub(crate) parts: Vec<TablePart>,
    pub(crate) part_starts: Vec<usize>,
    pub(crate) batch_starts: Vec<Vec<usize>>,
    ghost parts_start: { part_starts.items ≡ starts_from 0 (part_lengths parts.items) },
    ghost batches_start: { map (λ v. v.items) batch_starts.items ≡ map (λ p. starts_from 0 (batch_lengths p)) parts.items },
}

/// A batch, by its part and its place there.
#[derive(Clone, Copy)]
pub(crate) struct BatchPlace {
    pub(crate) part: usize,
    pub(crate) batch: usize,
}

fn batch_lengths(alloc: Global, part: &TablePart) -> Result<Vec<usize>, AllocError>
    ensures { IfOk result (λ v. v.items ≡ batch_lengths part.now) }
{
    part.batches.iter().map(|batch| batch.rows).collect(alloc)
}

fn rows_in(part: &TablePart) -> usize
    requires { sum (batch_lengths part.now) < 2 ^ 64 }
    ensures { result ≡ sum (batch_lengths part.now) }
{
    part.batches.iter().map(|batch| batch.rows).sum()
}

// How many rows each part has.
pub(crate) fn part_lengths(alloc: Global, parts: &[TablePart]) -> Result<Vec<usize>, AllocError>
    requires { sum (part_lengths parts.now) < 2 ^ 64 }
    ensures { IfOk result (λ v. v.items ≡ part_lengths parts.now) }
{
    let mut lengths = Vec::with_capacity(alloc, parts.len())?;
    for part in parts {
        lengths.push(rows_in(part))?;
    }
    Ok(lengths)
}

fn starts_in_part(alloc: Global, part: &TablePart) -> Result<Vec<usize>, AllocError>
    requires { sum (batch_lengths part.now) < 2 ^ 64 }
    ensures { IfOk result (λ v. v.items ≡ starts_from 0 (batch_lengths part.now)) }
{
    let lengths = batch_lengths(alloc, part)?;
    starts_of(alloc, &lengths)
}

fn batch_starts(alloc: Global, parts: &[TablePart]) -> Result<Vec<Vec<usize>>, AllocError>
    requires { sum (part_lengths parts.now) < 2 ^ 64 }
    ensures { IfOk result (λ v. map (λ s. s.items) v.items ≡ map (λ p. starts_from 0 (batch_lengths p)) parts.now) }
{
    let mut starts = Vec::with_capacity(alloc, parts.len())?;
    for part in parts {
        starts.push(starts_in_part(alloc, part)?)?;
    }
    Ok(starts)
}

impl Batches {
    // The parts are returned if memory is refused.
    pub(crate) fn new(
        alloc: Global,
        parts: Vec<TablePart>,
        lengths: &[usize],
    ) -> Result<Batches, Vec<TablePart>>
        requires lengths { lengths.now ≡ part_lengths parts.items }
        requires few { sum lengths.now < 2 ^ 64 }
        ensures parts { IfOk result (λ b. b.parts.items ≡ parts.items) }
        ensures back { IfErr result (λ back. back.items ≡ parts.items) }
    {
        let Ok(part_starts) = starts_of(alloc, lengths) else {
            return Err(parts);
        };
        let Ok(batch_starts) = batch_starts(alloc, &parts) else {
            return Err(parts);
        };
        Ok(Batches {
            parts,
            part_starts,
            batch_starts,
        })
    }

    // Returns the start of a part.
    fn part_start(&self, part: usize) -> usize
        requires { part < length self.now.parts.items }
        ensures { result ≡ sum (take part (part_lengths self.now.parts.items)) }
    {
        self.part_starts[part]
    }

    // Returns the starts of the batches of a part, in it.
    fn starts_in(&self, part: usize) -> &[usize]
        requires { part < length self.now.parts.items }
        ensures { result.now ≡ starts_from 0 (batch_lengths_at self.now.parts.items part) }
    {
        &self.batch_starts[part]
    }

    // Returns the start of a batch in its part.
    fn batch_start(&self, part: usize, batch: usize) -> usize
        requires in_parts { part < length self.now.parts.items }
        requires in_part { batch < length (batch_lengths_at self.now.parts.items part) }
        ensures { result ≡ sum (take batch (batch_lengths_at self.now.parts.items part)) }
    {
        self.batch_starts[part][batch]
    }

    // Returns the batch of a row: the given near one if it has the row, or else one that binary search finds.
    pub(crate) fn find(&self, row: usize, near: BatchPlace) -> BatchPlace
        requires { row < sum (part_lengths self.now.parts.items) }
        ensures { IsInBatch self.now.parts.items result.part result.batch row }
    {
        let part = run_near(&self.part_starts, near.part, row);
        let rest = row - self.part_start(part);
        let batch = run_near(self.starts_in(part), near.batch, rest);
        BatchPlace { part, batch }
    }

    // Returns a row of a known batch.
    pub(crate) fn row<'a>(
        &'a self,
        fields: &'a [Field],
        place: BatchPlace,
        row: usize,
    ) -> Values<'a>
        requires there { IsInBatch self.now.parts.items place.part place.batch row }
        requires sound { are_parts_sound (fields_of fields.now) self.now.parts.items ≡ true }
        requires texts { (cells : List Cell) → slice_get (parts_rows (fields_of fields.now) self.now.parts.items) row ≡ Some cells
            → have_utf8_texts (cells_of cells) ≡ true }
        ensures { Some (borrowed_cells result) ≡ slice_get (parts_rows (fields_of fields.now) self.now.parts.items) row }
    {
        let part = &self.parts[place.part];
        let batch = &part.batches[place.batch];
        let start = self.part_start(place.part) + self.batch_start(place.part, place.batch);
        columns::row(
            fields,
            &batch.arrays,
            &part.bytes,
            &part.dictionaries,
            batch.rows,
            row - start,
        )
    }
}
