// Adds one message to the state of a stream.
ghost use Rattle.std.specs.Prelude.{◌≡◌, ◌≤◌, ◌+◌, ◌++◌, ℕ, length, map, take, List, [], ◌∷◌, IfOk, OnOk, Option, None, Some};
ghost use Rattle.columns.specs.Places.{within};
ghost use Rattle.columns.specs.View.{array_in, arrays_in, no_dictionary};
ghost use Rattle.columns.specs.declared.array.Dictionary.{Dictionary as DictionaryList};
ghost use Rattle.arrays.specs.Dictionaries.{dictionaries_after};
ghost use Rattle.arrays.specs.DictionaryColumns.{dictionary_columns_of};
ghost use Rattle.dictionary.specs.InEffect.{DictionaryBatch, in_effect};
ghost use Rattle.dictionary.specs.Kept.{HasInEffect, AreWithin, KeepsParts, StaysWithin, batch_of, lists_of};
ghost use Rattle.ipc_message.specs.Header.{supported_codes};
ghost use Rattle.ipc_message.specs.Messages.{envelope_of};
ghost use Rattle.ipc_message.specs.View.{raw_batch_of, raw_dictionary_of, raw_schema_of};
ghost use Rattle.ipc_message.specs.Raw.{schema_header, dictionary_header, batch_header};
ghost use Rattle.ipc_stream.specs.Meaning.{Known, read_header, read_next, read_after};
ghost use Rattle.ipc_stream.specs.Progress.{IsFront, IsBefore, GivesFront, GivesGrown, GivesArrays};

use crate::front::Front;
use arrays::{
    DictionaryColumns, PlacedBatch, read, read_dictionaries_are_readable,
    read_dictionaries_have_bytes, read_dictionary, read_dictionary_columns, read_rows_are_rows,
    schemas_give_dictionary_columns,
};
use columns::{DictionaryPart, PlacedArray, Span};
use dictionary::Dictionaries;
use ipc_message::{
    Fault, Header, HeaderType, ImportError, Message, RawBatch, RawDictionaryBatch, RawSchema,
    read_schema,
};
use std::alloc::{AllocError, Global};
use values::Batch;

/// Returns the state after the schema message.
fn begin(alloc: Global, raw: &RawSchema) -> Result<Front, ImportError>
    ensures { (bytes body : List ℕ) → GivesFront bytes result (read_header supported_codes None body (schema_header (raw_schema_of raw.now))) }
{
    schemas_give_dictionary_columns();
    let schema = read_schema(alloc, raw)?;
    let columns = read_dictionary_columns(alloc, raw)?;
    Ok(Front {
        schema,
        columns,
        dictionaries: Dictionaries::new(alloc),
        batches: Vec::new(alloc),
        weight: 0,
    })
}

// Returns the number of columns that have both an id and values.
#[tactic(auto, using(crate::proofs::Ids::all_values, crate::proofs::Ids::all_ids))]
fn column_count(columns: &DictionaryColumns) -> usize
    ensures within { result ≤ length columns.now.ids.items }
    ensures each { (before : List DictionaryBatch)
        → map (λ id. in_effect id before) (take result columns.now.ids.items) ≡ dictionaries_after before (dictionary_columns_of columns.now) }
{
    if columns.values.len() < columns.ids.len() {
        return columns.values.len();
    }
    columns.ids.len()
}

// Returns the dictionaries in effect for the columns of a record batch.
fn dictionary_parts(
    alloc: Global,
    columns: &DictionaryColumns,
    dictionaries: &Dictionaries,
) -> Result<Vec<DictionaryPart>, AllocError>
    ensures effect { (bytes : List ℕ) (before : List DictionaryBatch) (lists : List DictionaryList)
        → HasInEffect bytes dictionaries.now before → lists_of lists ≡ dictionaries.now.lists
        → IfOk result (λ parts. map (arrays_in bytes lists) parts.items ≡ dictionaries_after before (dictionary_columns_of columns.now)) }
    ensures within { IfOk result (λ parts. AreWithin dictionaries.now parts.items) }
{
    let count = column_count(columns);
    let parts = dictionaries.parts(alloc, &columns.ids[..count])?;
    Ok(parts)
}

// Reads the arrays of a record batch.
fn read_arrays(
    alloc: Global,
    front: &Front,
    raw: &RawBatch,
    body: Span,
    bytes: &[u8],
) -> Result<PlacedBatch, ImportError>
    requires front { (k : Known) × IsFront bytes.now front.now k }
    requires fits { body.start + body.len ≤ length bytes.now }
    ensures { (k : Known) → IsFront bytes.now front.now k
        → (lists : List DictionaryList) × (lists_of lists ≡ front.now.dictionaries.lists)
        × GivesArrays bytes.now lists k (raw_batch_of raw.now) (within bytes.now body) result }
{
    read_dictionaries_are_readable();
    let lists = front.dictionaries.lists();
    let parts = dictionary_parts(alloc, &front.columns, &front.dictionaries)?;
    read(
        alloc,
        &front.schema,
        front.weight,
        raw,
        body,
        bytes,
        lists,
        &parts,
    )
}

fn add_batch(
    alloc: Global,
    front: &mut Front,
    raw: &RawBatch,
    body: Span,
    bytes: &[u8],
) -> Result<(), ImportError>
    requires front { (k : Known) × IsFront bytes.now front.old k }
    requires fits { body.start + body.len ≤ length bytes.now }
    ensures { (k : Known) → IsFront bytes.now front.old k
        → GivesGrown bytes.now front.new result (read_after k (within bytes.now body) (batch_header (raw_batch_of raw.now))) }
{
    let placed = read_arrays(alloc, front, raw, body, bytes)?;
    read_rows_are_rows();
    read_dictionaries_are_readable();
    read_dictionaries_have_bytes();
    front.batches.push(Batch {
        arrays: placed.arrays,
        rows: raw.length as usize,
    })?;
    front.weight += placed.weight;
    Ok(())
}

// Keeps the array of a dictionary batch. A delta is appended; any other array replaces the entries of its dictionary.
fn keep_array(
    alloc: Global,
    dictionaries: &mut Dictionaries,
    id: u64,
    is_delta: bool,
    array: PlacedArray,
) -> Result<(), AllocError>
    ensures effect { OnOk result ((bytes : List ℕ) (before : List DictionaryBatch) → HasInEffect bytes dictionaries.old before
        → HasInEffect bytes dictionaries.new (before ++ batch_of id is_delta (array_in bytes no_dictionary array) ∷ [])) }
    ensures parts { OnOk result (KeepsParts dictionaries.old.lists dictionaries.new.lists) }
    ensures within { OnOk result (StaysWithin dictionaries.old array dictionaries.new) }
{
    if is_delta {
        dictionaries.append(alloc, id, array)
    } else {
        dictionaries.replace(alloc, id, array)
    }
}

// Gives a contract, where the dictionaries are only borrowed, that plain lists of them exist.
fn lists_are_kept(dictionaries: &Dictionaries)
    ensures { (lists : List DictionaryList) × (lists_of lists ≡ dictionaries.now.lists) }
{
    let _lists = dictionaries.lists();
}

fn add_dictionary(
    alloc: Global,
    front: &mut Front,
    raw: &RawDictionaryBatch,
    body: Span,
    bytes: &[u8],
) -> Result<(), ImportError>
    requires fits { body.start + body.len ≤ length bytes.now }
    ensures { (k : Known) → IsFront bytes.now front.old k
        → GivesGrown bytes.now front.new result (read_after k (within bytes.now body) (dictionary_header (raw_dictionary_of raw.now))) }
{
    read_dictionaries_are_readable();
    read_dictionaries_have_bytes();
    let array = read_dictionary(alloc, &front.columns, &front.dictionaries, raw, body, bytes)?;
    lists_are_kept(&front.dictionaries);
    keep_array(alloc, &mut front.dictionaries, raw.id, raw.is_delta, array)?;
    Ok(())
}

// Adds a message after the schema to the state.
fn grow(
    alloc: Global,
    front: &mut Front,
    message: &Message,
    body: Span,
    bytes: &[u8],
) -> Result<(), ImportError>
    requires front { (k : Known) × IsFront bytes.now front.old k }
    requires fits { body.start + body.len ≤ length bytes.now }
    requires body { within bytes.now body ≡ (envelope_of message.now).body }
    ensures { (k : Known) → IsFront bytes.now front.old k
        → GivesGrown bytes.now front.new result (read_next supported_codes (Some k) (envelope_of message.now)) }
{
    if let HeaderType::Schema = message.header_type() {
        return Err(ImportError::Fault(Fault::SecondSchema));
    }
    match message.header(alloc)? {
        Header::RecordBatch(raw) => add_batch(alloc, front, &raw, body, bytes),
        Header::DictionaryBatch(raw) => add_dictionary(alloc, front, &raw, body, bytes),
        Header::Schema(_) => unreachable!(),
    }
}

// Returns the state after a message that follows the schema.
fn add_after(
    alloc: Global,
    front: Front,
    message: &Message,
    body: Span,
    bytes: &[u8],
) -> Result<Front, ImportError>
    requires front { (k : Known) × IsFront bytes.now front k }
    requires fits { body.start + body.len ≤ length bytes.now }
    requires body { within bytes.now body ≡ (envelope_of message.now).body }
    ensures { (k : Known) → IsFront bytes.now front k → GivesFront bytes.now result (read_next supported_codes (Some k) (envelope_of message.now)) }
{
    let mut front = front;
    match grow(alloc, &mut front, message, body, bytes) {
        Ok(()) => Ok(front),
        Err(error) => Err(error),
    }
}

// Returns the state after the first message, which must be a schema.
fn add_first(alloc: Global, message: &Message) -> Result<Front, ImportError>
    ensures { (bytes : List ℕ) → GivesFront bytes result (read_next supported_codes None (envelope_of message.now)) }
{
    let HeaderType::Schema = message.header_type() else {
        return Err(ImportError::Fault(Fault::NoSchema));
    };
    match message.header(alloc)? {
        Header::Schema(raw) => begin(alloc, &raw),
        _ => unreachable!(),
    }
}

/// Returns the state after one more message, whose body lies at `body` in `bytes`.
///
/// # Errors
/// `Fault` with the first check of the message that fails; `OutOfMemory`.
pub fn add_message(
    alloc: Global,
    front: Option<Front>,
    message: &Message,
    body: Span,
    bytes: &[u8],
) -> Result<Front, ImportError>
    requires front { (before : Option Known) × IsBefore bytes.now front before }
    requires fits { body.start + body.len ≤ length bytes.now }
    requires body { within bytes.now body ≡ (envelope_of message.now).body }
    ensures { (before : Option Known) → IsBefore bytes.now front before
        → GivesFront bytes.now result (read_next supported_codes before (envelope_of message.now)) }
{
    match front {
        None => add_first(alloc, message),
        Some(front) => add_after(alloc, front, message, body, bytes),
    }
}
