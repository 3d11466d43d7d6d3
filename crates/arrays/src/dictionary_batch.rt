// The array of a dictionary batch, or the first fault of its checks (docs/definitions/arrays.md).
ghost use Rattle.std.specs.Prelude.{◌≡◌, ◌+◌, ◌<◌, ◌^◌, ℕ, [], ◌∷◌, List, map, drop, option_map, IfOk};
ghost use Rattle.arrow_schema.specs.Column.{Column};
ghost use Rattle.arrow_schema.specs.View.{column_of};
ghost use Rattle.ipc_message.specs.Outcome.{Gives};
ghost use Rattle.ipc_message.specs.View.{raw_batch_of, raw_dictionary_of};
ghost use Rattle.columns.specs.Array.{first_array};
ghost use Rattle.columns.specs.Places.{within};
ghost use Rattle.columns.specs.View.{array_in, no_dictionary, placed_arrays};
ghost use Rattle.dictionary.specs.InEffect.{DictionaryBatch};
ghost use Rattle.dictionary.specs.Kept.{HasInEffect};
ghost use Rattle.arrays.specs.Dictionaries.{entries_read, has_no_base, batch_with, dictionary_read};
ghost use Rattle.columns.specs.declared.span.Span.{Span};
ghost use Rattle.arrays.specs.Placed.{ArraysEndWithin, ArrayEndsWithin};
ghost use Rattle.arrays.specs.DictionaryColumns.{dictionary_columns_of, columns_with, first_alone, values_of_id};

use crate::batch_arrays::read_arrays;
use crate::dictionary_columns::DictionaryColumns;
use crate::visible::has_bad_text;
use arrow_schema::Field;
use columns::{PlacedArray, PlacedLayout, Span};
use dictionary::Dictionaries;
use ipc_message::{Fault, ImportError, RawBatch, RawDictionaryBatch};
use std::alloc::Global;

// The field at a place by itself.
fn one_at(fields: &[Field], i: usize) -> Option<&[Field]>
    ensures { option_map (λ one. map column_of one.now) result ≡ first_alone (drop i (map column_of fields.now)) }
{
    if i < fields.len() {
        Some(&fields[i..i + 1])
    } else {
        None
    }
}

fn find_values<'a>(ids: &[u64], values: &'a [Field], id: u64) -> Option<&'a [Field]>
    ensures { option_map (λ one. map column_of one.now) result ≡ values_of_id id (columns_with ids.now (map column_of values.now)) }
{
    for (i, other) in ids.iter().enumerate() {
        if *other == id {
            return one_at(values, i);
        }
    }
    None
}

// The values of the first column that has an id.
fn find_values_of(columns: &DictionaryColumns, id: u64) -> Option<&[Field]>
    ensures { option_map (λ one. map column_of one.now) result ≡ values_of_id id (dictionary_columns_of columns.now) }
{
    find_values(&columns.ids, &columns.values, id)
}

// The first of some arrays, or one without slots.
fn first_of(arrays: Vec<PlacedArray>) -> PlacedArray
    ensures array { (bytes : List ℕ) → array_in bytes no_dictionary result ≡ first_array (placed_arrays bytes [] arrays.items) }
    ensures placed { (body : Span) → ArraysEndWithin body [] [] arrays.items → ArrayEndsWithin body result }
{
    let mut arrays = arrays;
    if arrays.len() == 0 {
        return PlacedArray {
            slots: 0,
            validity: Span { start: 0, len: 0 },
            layout: PlacedLayout::Null,
        };
    }
    arrays.swap_remove(0)
}

// The array of a batch of one column of values, all of whose slots are visible.
fn read_entries(
    alloc: Global,
    values: &[Field],
    batch: &RawBatch,
    body: Span,
    bytes: &[u8],
) -> Result<PlacedArray, ImportError>
    requires { body.start + body.len < 2 ^ 64 }
    ensures array { (c : Column) → map column_of values.now ≡ c ∷ []
        → Gives (array_in bytes.now no_dictionary) result (entries_read c (raw_batch_of batch.now) (within bytes.now body)) }
    ensures placed { IfOk result (λ a. ArrayEndsWithin body a) }
{
    match read_arrays(alloc, values, batch, body, bytes, &[], &[]) {
        Ok(arrays) => {
            if has_bad_text(values, &arrays, bytes, &[], batch.length as usize) {
                return Err(ImportError::Fault(Fault::NotUtf8));
            }
            Ok(first_of(arrays))
        }
        Err(error) => Err(error),
    }
}

// F25: a delta, and its id has no dictionary.
fn has_no_base(dictionaries: &Dictionaries, raw: &RawDictionaryBatch) -> bool
    ensures { (bytes : List ℕ) (before : List DictionaryBatch) → HasInEffect bytes dictionaries.now before
        → result ≡ has_no_base before (raw_dictionary_of raw.now) }
{
    raw.is_delta && !dictionaries.has(raw.id)
}

/// The array of a dictionary batch whose body is in some bytes, after the batches of which these are the dictionaries; or its first fault: F24 where
/// no column has its id, F25 where it is a delta and its id has no dictionary, then F16 to F22, and F15 of a text that is not UTF-8.
///
/// # Errors
/// `Fault` with the first of these checks that fails; `OutOfMemory`. The dictionaries stay as they are in any case.
pub fn read_dictionary(
    alloc: Global,
    columns: &DictionaryColumns,
    dictionaries: &Dictionaries,
    raw: &RawDictionaryBatch,
    body: Span,
    bytes: &[u8],
) -> Result<PlacedArray, ImportError>
    requires { body.start + body.len < 2 ^ 64 }
    ensures batch { (before : List DictionaryBatch) → HasInEffect bytes.now dictionaries.now before
        → let batch = raw_dictionary_of raw.now in
        let exact = dictionary_read (dictionary_columns_of columns.now) before batch (within bytes.now body) in
        Gives (λ a. batch_with batch (array_in bytes.now no_dictionary a)) result exact }
    ensures placed { IfOk result (λ a. ArrayEndsWithin body a) }
{
    match find_values_of(columns, raw.id) {
        None => Err(ImportError::Fault(Fault::DictionaryId)),
        Some(values) => {
            if has_no_base(dictionaries, raw) {
                return Err(ImportError::Fault(Fault::DeltaWithoutBase));
            }
            read_entries(alloc, values, &raw.batch, body, bytes)
        }
    }
}
