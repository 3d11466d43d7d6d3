// The arrays of a record batch, or its first fault (docs/definitions/arrays.md).
ghost use Rattle.std.specs.Prelude.{◌≡◌, ◌<◌, ◌+◌, ◌^◌, true, false, map, IfOk, Ok};
ghost use Rattle.std.specs.List.{list_any};
ghost use Rattle.arrow_schema.specs.Column.{PlainSchema, columns_of};
ghost use Rattle.arrow_schema.specs.View.{column_of, schema_of};
ghost use Rattle.facts.specs.Checks.{first_some, unless};
ghost use Rattle.ipc_message.specs.Outcome.{Gives};
ghost use Rattle.ipc_message.specs.View.{raw_batch_of};
ghost use Rattle.columns.specs.Places.{within};
ghost use Rattle.columns.specs.Sound.{are_sound};
ghost use Rattle.columns.specs.Tests.{every_array};
ghost use Rattle.columns.specs.View.{arrays_in, placed_arrays};
ghost use Rattle.arrays.specs.Checks.{batch_read, batch_weight, slot_checks};
ghost use Rattle.arrays.specs.Entries.{has_bad_entry};
ghost use Rattle.arrays.specs.Known.{are_readable, dictionary_values};
ghost use Rattle.arrays.specs.Placed.{ArraysEndWithin};
ghost use Rattle.arrays.specs.inner.Read.{placed_in};

use crate::batch_arrays::{Placed, read_arrays};
use crate::heavy::weigh_rows;
use crate::visible::{has_bad_text, has_forbidden_null, names_no_entry_in};
use arrow_schema::Schema;
use columns::{Dictionary, DictionaryPart, PlacedArray, Span};
use ipc_message::{Fault, ImportError, RawBatch};
use std::alloc::Global;

/// What is read of a record batch: its arrays, and what its rows weigh.
#[derive(Drop)]
pub struct PlacedBatch {
    pub arrays: Vec<PlacedArray>,
    pub weight: u64,
}

// What the rows weigh, or the first fault of the checks of what is visible.
fn check_slots(before: u64, placed: Placed<'_>, rows: usize) -> Result<u64, Fault>
    requires sound { are_sound (columns_of (map column_of placed.fields.now)) rows (placed_in placed) ≡ true }
    requires entries { list_any has_bad_entry (every_array (columns_of (map column_of placed.fields.now)) (placed_in placed)) ≡ false }
    ensures { (s : PlainSchema) → s.columns ≡ map column_of placed.entry.fields.now
        → let arrays = placed_in placed.entry in
        result ≡ unless (first_some (slot_checks s before rows arrays)) (Ok (batch_weight s rows arrays)) }
{
    if names_no_entry_in(
        placed.fields,
        placed.arrays,
        placed.bytes,
        placed.dictionaries,
        rows,
    ) {
        return Err(Fault::DictionaryIndex);
    }
    if has_bad_text(
        placed.fields,
        placed.arrays,
        placed.bytes,
        placed.dictionaries,
        rows,
    ) {
        return Err(Fault::NotUtf8);
    }
    if has_forbidden_null(
        placed.fields,
        placed.arrays,
        placed.bytes,
        placed.dictionaries,
        rows,
    ) {
        return Err(Fault::NullForbidden);
    }
    match weigh_rows(before, placed, rows) {
        Some(weight) => Ok(weight),
        None => Err(Fault::TooHeavy),
    }
}

/// The arrays of a record batch whose body is in some bytes, or its first fault, where the rows before it weigh so much. A dictionary column takes
/// the next of `parts`, whose arrays were read with [`crate::read_dictionary`]. Nothing is copied: the arrays are places in the bytes. Their slots can be
/// looked up. The rows before the next batch weigh as much more as this one answers.
///
/// # Errors
/// `Fault` with the first fault of the batch: of the checks of its arrays in order, and then of its rows; `OutOfMemory`.
pub fn read(
    alloc: Global,
    schema: &Schema,
    before: u64,
    batch: &RawBatch,
    body: Span,
    bytes: &[u8],
    dictionaries: &[Dictionary],
    parts: &[DictionaryPart],
) -> Result<PlacedBatch, ImportError>
    requires fits { body.start + body.len < 2 ^ 64 }
    requires known { let known = map (arrays_in bytes.now dictionaries.now) parts.now in
        are_readable (dictionary_values (columns_of (schema_of schema.now).columns)) known ≡ true }
    ensures arrays { let known = map (arrays_in bytes.now dictionaries.now) parts.now in
        let exact = batch_read (schema_of schema.now) before (raw_batch_of batch.now) (within bytes.now body) known in
        Gives (λ v. placed_arrays bytes.now dictionaries.now v.arrays.items) result exact }
    ensures placed { IfOk result (λ v. ArraysEndWithin body dictionaries.now parts.now v.arrays.items) }
    ensures weight { let rows = (raw_batch_of batch.now).length in
        IfOk result (λ v. v.weight ≡ batch_weight (schema_of schema.now) rows (placed_arrays bytes.now dictionaries.now v.arrays.items)) }
    ensures sound { let columns = columns_of (schema_of schema.now).columns in
        IfOk result (λ v. are_sound columns (raw_batch_of batch.now).length (placed_arrays bytes.now dictionaries.now v.arrays.items) ≡ true) }
{
    let arrays = read_arrays(
        alloc,
        &schema.fields,
        batch,
        body,
        bytes,
        dictionaries,
        parts,
    )?;
    let placed = Placed {
        fields: &schema.fields,
        arrays: &arrays,
        bytes,
        dictionaries,
    };
    match check_slots(before, placed, batch.length as usize) {
        Ok(weight) => Ok(PlacedBatch { arrays, weight }),
        Err(fault) => Err(ImportError::Fault(fault)),
    }
}
