// Decodes the header of a message.

ghost use Rattle.std.specs.Prelude.{◌≡◌, ◌<◌, ◌-◌, IfOk, Some};
ghost use Rattle.flatbuf.specs.Lookup.{table_behind, scalar_of};
ghost use Rattle.flatbuf.specs.Seen.{tables_in, bytes_of, place_of, levels_of, slot_of};
ghost use Rattle.ipc_message.specs.Header.{supported_codes, needed_things, schema_things, schema_in, batch_things, batch_in, dictionary_things, dictionary_in, things_by_type, header_by_type};
ghost use Rattle.ipc_message.specs.View.{raw_schema_of, raw_batch_of, raw_dictionary_of, raw_header_of};
ghost use Rattle.flatbuf.specs.Walked.{Walks};
ghost use Rattle.ipc_message.specs.inner.Tables.{in_table, in_slot};
ghost use Rattle.ipc_message.specs.inner.Walked.{WalksUnlessRefused};

use crate::read_fields::{fields_behind, pairs_at};
use crate::walk_error::WalkError;
use crate::{Header, HeaderType, RawBatch, RawDictionaryBatch, RawSchema};
use flatbuf::{Budget, FlatError, Table};
use std::alloc::Global;

/// Enters the table of a message's header, which must be present: slot 1 has its kind, which is not 0, and slot 2 its reference.
pub(crate) fn header_table<'a>(
    table: &Table<'a>,
    budget: &mut Budget,
) -> Result<Table<'a>, FlatError>
    requires { 0 < scalar_of 1 0 (bytes_of table.now) (slot_of table.now 1) }
    ensures walked { Walks (bytes_of table.now) (in_slot needed_things table.now 2) budget.old budget.new result }
    ensures same { IfOk result (λ t. bytes_of t ≡ bytes_of table.now) }
    ensures here { IfOk result (λ t. table_behind (bytes_of table.now) (slot_of table.now 2) ≡ Some (place_of t)) }
    ensures levels { IfOk result (λ t. levels_of t ≡ levels_of table.now - 1) }
{
    let header = table.union(1, budget)?;
    match header.table {
        None => Err(FlatError::Bounds),
        Some(found) => Ok(found),
    }
}

/// Enters the table that slot `k` refers to, which must be present.
#[tactic(auto, unfolding(flatbuf::specs::Walk::run))]
fn needed<'a>(table: &Table<'a>, k: u16, budget: &mut Budget) -> Result<Table<'a>, FlatError>
    ensures walked { Walks (bytes_of table.now) (in_slot needed_things table.now k) budget.old budget.new result }
    ensures same { IfOk result (λ t. bytes_of t ≡ bytes_of table.now) }
    ensures here { IfOk result (λ t. table_behind (bytes_of table.now) (slot_of table.now k) ≡ Some (place_of t)) }
    ensures levels { IfOk result (λ t. levels_of t ≡ levels_of table.now - 1) }
{
    match table.reference(k, budget)? {
        None => Err(FlatError::Bounds),
        Some(found) => Ok(found),
    }
}

/// Reads a Schema.
#[tactic(auto, using(flatbuf::specs::laws::Walk::run_append), unfolding(crate::specs::Header::schema_things, crate::specs::Header::schema_in))]
pub(crate) fn read_raw_schema<'a>(
    alloc: Global,
    table: &Table<'a>,
    budget: &mut Budget,
) -> Result<RawSchema<'a>, WalkError>
    ensures walked { WalksUnlessRefused (bytes_of table.now) (in_table (schema_things supported_codes) table.now) budget.old budget.new result }
    ensures value { IfOk result (λ s. raw_schema_of s ≡ in_table (schema_in supported_codes) table.now) }
{
    let endianness = table.scalar_u16(0, 0)?;
    let places = table.references(1)?;
    let fields = fields_behind(alloc, &places, budget)?;
    let pairs = pairs_at(alloc, table, 2, budget)?;
    Ok(RawSchema {
        endianness,
        fields,
        pairs,
    })
}

/// Reads a RecordBatch.
#[tactic(auto, using(flatbuf::specs::laws::Walk::run_append), unfolding(crate::specs::Header::batch_things, crate::specs::Header::batch_in))]
pub(crate) fn read_raw_batch<'a>(
    table: &Table<'a>,
    budget: &mut Budget,
) -> Result<RawBatch<'a>, FlatError>
    ensures walked { Walks (bytes_of table.now) (batch_things (bytes_of table.now) (Some (place_of table.now))) budget.old budget.new result }
    ensures value { IfOk result (λ b. raw_batch_of b ≡ batch_in (bytes_of table.now) (Some (place_of table.now))) }
{
    let length = table.scalar_u64(0, 0)?;
    let nodes = table.vector(1, 16)?;
    let buffers = table.vector(2, 16)?;
    let compressed = table.has(3);
    Ok(RawBatch {
        length,
        nodes,
        buffers,
        compressed,
    })
}

/// Reads a DictionaryBatch.
#[tactic(auto, using(flatbuf::specs::laws::Walk::run_append), unfolding(crate::specs::Header::dictionary_things, crate::specs::Header::dictionary_in))]
pub(crate) fn read_raw_dictionary<'a>(
    table: &Table<'a>,
    budget: &mut Budget,
) -> Result<RawDictionaryBatch<'a>, FlatError>
    ensures walked { Walks (bytes_of table.now) (in_table dictionary_things table.now) budget.old budget.new result }
    ensures value { IfOk result (λ d. raw_dictionary_of d ≡ dictionary_in (bytes_of table.now) (Some (place_of table.now))) }
{
    let id = table.scalar_u64(0, 0)?;
    let data = needed(table, 1, budget)?;
    let batch = read_raw_batch(&data, budget)?;
    let is_delta = table.flag(2)?;
    Ok(RawDictionaryBatch {
        id,
        batch,
        is_delta,
    })
}

/// Reads the header of this type from its table.
pub(crate) fn header_by_type<'a>(
    alloc: Global,
    header_type: HeaderType,
    table: &Table<'a>,
    budget: &mut Budget,
) -> Result<Header<'a>, WalkError>
    ensures walked { WalksUnlessRefused (bytes_of table.now) (in_table (things_by_type supported_codes) table.now header_type) budget.old budget.new result }
    ensures value { IfOk result (λ h. raw_header_of h ≡ in_table (header_by_type supported_codes) table.now header_type) }
{
    match header_type {
        HeaderType::Schema => Ok(Header::Schema(read_raw_schema(alloc, table, budget)?)),
        HeaderType::DictionaryBatch => Ok(Header::DictionaryBatch(read_raw_dictionary(
            table, budget,
        )?)),
        HeaderType::RecordBatch => Ok(Header::RecordBatch(read_raw_batch(table, budget)?)),
    }
}
