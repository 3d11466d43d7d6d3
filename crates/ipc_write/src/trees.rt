// The tables of a message as trees, before they are written (docs/formats/writing.md).
ghost use Rattle.std.specs.Prelude.{◌≡◌, ◌+◌, ◌^◌, ◌<◌, map, option_map, string_bytes, IfOk, OnOk};
ghost use Rattle.arrow_schema.specs.View.{schema_of, kind_of, column_of, pair_of, index_of, date_kind, time_kind, bits_of};
ghost use Rattle.arrow_schema.specs.Column.{columns_of, date_unit_of, time_unit_of};
ghost use Rattle.arrow_schema.specs.Limits.{IsWithinLimits};
ghost use Rattle.flatbuf.specs.Tree.{Slots, table, text, references, structs, scalar, refers, no_slot};
ghost use Rattle.flatbuf.specs.View.{node_of, slot_before, nodes_of};
ghost use Rattle.ipc_write.specs.Trees.{bit, code_of, int_tree, timezone_slot, type_tree, pair_tree, pair_nodes, pairs_slot, encoding_tree, dictionary_slot, ids_for, schema_tree, message_tree};
ghost use Rattle.ipc_write.specs.inner.Steps.{slots_then, field_table};

use crate::fields::field_nodes;
use arrow_schema::{DataType, DateUnit, DictSpec, Field, IntegerType, Schema, TimeUnit};
use flatbuf::{Node, Slot};
use ipc_message::V5;
use ipc_message::type_codes::{
    BINARY, BOOL, DATE, FIXED_SIZE_BINARY, FIXED_SIZE_LIST, INT, LARGE_BINARY, LARGE_LIST,
    LARGE_UTF8, LIST, NULL, STRUCT, TIMESTAMP, UTF8,
};
use std::alloc::{AllocError, Global};

fn flag(b: bool) -> u8
    ensures { result ≡ bit b }
{
    if b { 1 } else { 0 }
}

fn type_code(data_type: &DataType) -> u8
    ensures { result ≡ code_of (kind_of data_type.now) }
{
    match data_type {
        DataType::Null => NULL,
        DataType::Bool => BOOL,
        DataType::Int(_) => INT,
        DataType::Date(_) => DATE,
        DataType::Timestamp(_, _) => TIMESTAMP,
        DataType::Utf8 => UTF8,
        DataType::LargeUtf8 => LARGE_UTF8,
        DataType::Binary => BINARY,
        DataType::LargeBinary => LARGE_BINARY,
        DataType::FixedSizeBinary(_) => FIXED_SIZE_BINARY,
        DataType::List(_) => LIST,
        DataType::LargeList(_) => LARGE_LIST,
        DataType::FixedSizeList(_, _) => FIXED_SIZE_LIST,
        DataType::Struct(_) => STRUCT,
    }
}

/// Returns the number of a date unit (Schema.fbs, `DateUnit`).
fn date_unit(unit: DateUnit) -> u16
    ensures { result ≡ date_unit_of (date_kind unit) }
{
    match unit {
        DateUnit::Day => 0,
        DateUnit::Millisecond => 1,
    }
}

/// Returns the number of a time unit (Schema.fbs, `TimeUnit`).
fn time_unit(unit: TimeUnit) -> u16
    ensures { result ≡ time_unit_of (time_kind unit) }
{
    match unit {
        TimeUnit::Second => 0,
        TimeUnit::Millisecond => 1,
        TimeUnit::Microsecond => 2,
        TimeUnit::Nanosecond => 3,
    }
}

fn text_node(alloc: Global, content: &str) -> Result<Node, AllocError>
    ensures { IfOk result (λ n. node_of n ≡ text content.now) }
{
    Ok(Node::Text(Vec::from_slice(alloc, content.as_bytes())?))
}

/// Builds an Int of `bits` bits.
fn int_node(alloc: Global, bits: u32, signed: bool) -> Result<Node, AllocError>
    ensures { IfOk result (λ n. node_of n ≡ int_tree bits signed) }
{
    let slots = vec![in alloc; Slot::Word(bits), Slot::Byte(flag(signed))]?;
    Ok(Node::Table(slots))
}

/// Builds a table of one slot: a unit, a width or a size.
fn one_slot(alloc: Global, slot: Slot) -> Result<Node, AllocError>
    ensures { IfOk result (λ n. node_of n ≡ table (slot_before slot no_slot)) }
{
    let slots = vec![in alloc; slot]?;
    Ok(Node::Table(slots))
}

/// Builds a Timestamp: its unit, and its timezone if it has one.
fn timestamp_node(alloc: Global, unit: TimeUnit, timezone: &str) -> Result<Node, AllocError>
    ensures { IfOk result (λ n. node_of n ≡ table (scalar 2 (time_unit_of (time_kind unit)) (timezone_slot timezone.now))) }
{
    let unit = Slot::Short(time_unit(unit));
    if timezone.is_empty() {
        return one_slot(alloc, unit);
    }
    let timezone = text_node(alloc, timezone)?;
    let slots = vec![in alloc; unit, Slot::Refers(timezone)]?;
    Ok(Node::Table(slots))
}

/// Builds the table of a type, which has no slots if the type has no parameters.
fn type_node(alloc: Global, data_type: &DataType) -> Result<Node, AllocError>
    ensures { IfOk result (λ n. node_of n ≡ type_tree (kind_of data_type.now)) }
{
    match data_type {
        DataType::Int(IntegerType { width, signed }) => int_node(alloc, width.bits(), *signed),
        DataType::Date(unit) => one_slot(alloc, Slot::Short(date_unit(*unit))),
        DataType::Timestamp(unit, timezone) => timestamp_node(alloc, *unit, timezone),
        DataType::FixedSizeBinary(width) => one_slot(alloc, Slot::Word(*width)),
        DataType::FixedSizeList(size, _) => one_slot(alloc, Slot::Word(*size)),
        _ => Ok(Node::Table(Vec::new(alloc))),
    }
}

/// Builds a KeyValue.
fn pair_node(alloc: Global, key: &str, value: &str) -> Result<Node, AllocError>
    ensures { IfOk result (λ n. node_of n ≡ pair_tree (key.now, value.now)) }
{
    let key = text_node(alloc, key)?;
    let value = text_node(alloc, value)?;
    let slots = vec![in alloc; Slot::Refers(key), Slot::Refers(value)]?;
    Ok(Node::Table(slots))
}

fn pair_nodes(alloc: Global, pairs: &[(String, String)]) -> Result<Vec<Node>, AllocError>
    ensures { IfOk result (λ v. map node_of v.items ≡ map (λ p. pair_tree (pair_of p)) pairs.now) }
{
    let mut nodes = Vec::new(alloc);
    for (key, value) in pairs {
        nodes.push(pair_node(alloc, key, value)?)?;
    }
    Ok(nodes)
}

/// Builds a table with these slots, and then one for its key/value pairs if there are any.
fn table_with_pairs(
    alloc: Global,
    mut slots: Vec<Slot>,
    pairs: &[(String, String)],
) -> Result<Node, AllocError>
    ensures { IfOk result (λ n. node_of n ≡ table (slots_then (map slot_before slots.items) (pairs_slot (map pair_of pairs.now)))) }
{
    if pairs.is_empty() {
        return Ok(Node::Table(slots));
    }
    let nodes = pair_nodes(alloc, pairs)?;
    slots.push(Slot::Refers(Node::References(nodes)))?;
    Ok(Node::Table(slots))
}

/// Builds a DictionaryEncoding: its id and index type, not ordered, and of the kind DenseArray.
fn encoding_node(alloc: Global, id: u64, index: IntegerType) -> Result<Node, AllocError>
    ensures { IfOk result (λ n. node_of n ≡ encoding_tree id (record { bits = bits_of index.width; signed = index.signed })) }
{
    let index_type = int_node(alloc, index.width.bits(), index.signed)?;
    let slots = vec![in alloc;
        Slot::Long(id),
        Slot::Refers(index_type),
        Slot::Byte(0),
        Slot::Short(0),
    ]?;
    Ok(Node::Table(slots))
}

/// Builds the slot of a field's dictionary, which takes the next id.
pub(crate) fn dictionary_slot(
    alloc: Global,
    dictionary: Option<DictSpec>,
    next_id: &mut u64,
) -> Result<Slot, AllocError>
    requires { next_id.old + ids_for (option_map index_of dictionary) < 2 ^ 64 }
    ensures slot { IfOk result (λ s. (rest : Slots) → slot_before s rest ≡ dictionary_slot next_id.old (option_map index_of dictionary) rest) }
    ensures next { OnOk result (next_id.new ≡ next_id.old + ids_for (option_map index_of dictionary)) }
{
    match dictionary {
        None => Ok(Slot::Absent),
        Some(spec) => {
            let node = encoding_node(alloc, *next_id, spec.index)?;
            *next_id += 1;
            Ok(Slot::Refers(node))
        }
    }
}

/// Builds a Field with this dictionary slot and these children.
pub(crate) fn field_table(
    alloc: Global,
    field: &Field,
    dictionary: Slot,
    children: Vec<Node>,
) -> Result<Node, AllocError>
    ensures { IfOk result (λ n. node_of n ≡ field_table (column_of field.now) (slot_before dictionary) (nodes_of (map node_of children.items))) }
{
    let name = text_node(alloc, &field.name)?;
    let data_type = type_node(alloc, &field.data_type)?;
    let slots = vec![in alloc;
        Slot::Refers(name),
        Slot::Byte(flag(field.nullable)),
        Slot::Byte(type_code(&field.data_type)),
        Slot::Refers(data_type),
        dictionary,
        Slot::Refers(Node::References(children)),
    ]?;
    table_with_pairs(alloc, slots, &field.pairs)
}

/// The byte order of the values: little-endian (Schema.fbs, `Endianness`).
const LITTLE: u16 = 0;

/// Builds a Schema.
///
/// # Errors
/// `AllocError` if memory was refused.
pub fn schema_node(alloc: Global, schema: &Schema) -> Result<Node, AllocError>
    requires { IsWithinLimits (schema_of schema.now) }
    ensures { IfOk result (λ n. node_of n ≡ schema_tree (schema_of schema.now)) }
{
    let mut next_id = 0;
    let fields = field_nodes(alloc, &schema.fields, &mut next_id)?;
    let slots = vec![in alloc; Slot::Short(LITTLE), Slot::Refers(Node::References(fields))]?;
    table_with_pairs(alloc, slots, &schema.pairs)
}

/// Builds a Message with a header of this type.
///
/// # Errors
/// `AllocError` if memory was refused.
pub fn message_node(
    alloc: Global,
    header_type: u8,
    header: Node,
    body_length: u64,
) -> Result<Node, AllocError>
    ensures { IfOk result (λ n. node_of n ≡ message_tree header_type (node_of header) body_length) }
{
    let slots = vec![in alloc;
        Slot::Short(V5),
        Slot::Byte(header_type),
        Slot::Refers(header),
        Slot::Long(body_length),
    ]?;
    Ok(Node::Table(slots))
}

/// Builds a DictionaryBatch: its id, the batch of its entries, and whether they are appended to the earlier ones.
///
/// # Errors
/// `AllocError` if memory was refused.
pub fn dictionary_node(
    alloc: Global,
    id: u64,
    batch: Node,
    is_delta: bool,
) -> Result<Node, AllocError>
    ensures { IfOk result (λ n. node_of n ≡ table (scalar 8 id (refers (node_of batch) (scalar 1 (bit is_delta) no_slot)))) }
{
    let slots = vec![in alloc;
        Slot::Long(id),
        Slot::Refers(batch),
        Slot::Byte(flag(is_delta)),
    ]?;
    Ok(Node::Table(slots))
}

/// Builds a RecordBatch of `rows` rows with these field nodes and buffers.
///
/// # Errors
/// `AllocError` if memory was refused.
pub fn batch_node(
    alloc: Global,
    rows: u64,
    nodes: Vec<(u64, u64)>,
    buffers: Vec<(u64, u64)>,
) -> Result<Node, AllocError>
    ensures { IfOk result (λ n. node_of n ≡ table (scalar 8 rows (refers (structs nodes.items) (refers (structs buffers.items) no_slot)))) }
{
    let slots = vec![in alloc;
        Slot::Long(rows),
        Slot::Refers(Node::Structs(nodes)),
        Slot::Refers(Node::Structs(buffers)),
    ]?;
    Ok(Node::Table(slots))
}
