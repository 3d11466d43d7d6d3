// Parses the manifest of an archive. Of what it gives only the limits of the schemas are proved: the manifest is written again, and the bytes compared.
ghost use Rattle.std.specs.Prelude.{IfOk};
ghost use Rattle.arrow_schema.specs.Limits.{IsWithinLimits};
ghost use Rattle.arrow_schema.specs.View.{schema_of};
ghost use Rattle.table_archive.specs.Manifest.{AreWithin};

use crate::manifest::{ArchiveVersion, ListedSegment, ListedTable};
use crate::members::HEADER_BYTES;
use crate::reading::ArchiveFault;
use crate::texts::typed_fields;
use arrow_schema::Schema;
use hex::{FromHex, FromHexError};
use ipc_message::{Header, NextMessage, read_message, read_schema};
use serde_json::Value;
use std::alloc::Global;

// Splits off the first line.
fn split_line(text: &[u8]) -> Result<(&[u8], &[u8]), ArchiveFault> {
    match text.iter().position(|byte| *byte == b'\n') {
        Some(end) => Ok((&text[..end], &text[end + 1..])),
        None => Err(ArchiveFault::NotAnArchive),
    }
}

fn value_of(alloc: Global, line: &[u8]) -> Result<Value, ArchiveFault> {
    match Value::from_slice(alloc, line) {
        Ok(value) => Ok(value),
        Err(error) => Err(if error.is_memory() {
            ArchiveFault::OutOfMemory
        } else {
            ArchiveFault::NotAnArchive
        }),
    }
}

fn number_in(value: &Value, name: &str) -> Result<u64, ArchiveFault> {
    match value.get(name).and_then(Value::as_u64) {
        Some(number) => Ok(number),
        None => Err(ArchiveFault::NotAnArchive),
    }
}

// Returns the version that the first line states. An archive of a later one is not read.
fn version_in(first: &Value) -> Result<ArchiveVersion, ArchiveFault> {
    match number_in(first, "archive")? {
        1 => Ok(ArchiveVersion::One),
        2 => Ok(ArchiveVersion::Two),
        _ => Err(ArchiveFault::NotAnArchive),
    }
}

fn text_in<'a>(value: &'a Value, name: &str) -> Result<&'a str, ArchiveFault> {
    match value.get(name).and_then(Value::as_str) {
        Some(text) => Ok(text),
        None => Err(ArchiveFault::NotAnArchive),
    }
}

fn bytes_in(alloc: Global, text: &str) -> Result<Vec<u8>, ArchiveFault> {
    match hex::decode(alloc, text) {
        Ok(bytes) => Ok(bytes),
        Err(FromHexError::OutOfMemory) => Err(ArchiveFault::OutOfMemory),
        Err(_) => Err(ArchiveFault::NotAnArchive),
    }
}

// Reads the schema of a stream: that of its first message.
fn schema_in(alloc: Global, stream: &[u8]) -> Result<Schema, ArchiveFault>
    ensures { IfOk result (λ schema. IsWithinLimits (schema_of schema)) }
{
    let Ok((NextMessage::Message(message), _)) = read_message(stream) else {
        return Err(ArchiveFault::NotAnArchive);
    };
    match message.header(alloc)? {
        Header::Schema(raw) => Ok(read_schema(alloc, &raw)?),
        _ => Err(ArchiveFault::NotAnArchive),
    }
}

fn segment_in(value: &Value) -> Result<ListedSegment, ArchiveFault> {
    let Ok(digest) = <[u8; 32] as FromHex>::from_hex(text_in(value, "sha256")?) else {
        return Err(ArchiveFault::NotAnArchive);
    };
    Ok(ListedSegment {
        digest,
        bytes: number_in(value, "bytes")?,
        rows: number_in(value, "rows")?,
    })
}

fn segments_in(alloc: Global, value: &Value) -> Result<Vec<ListedSegment>, ArchiveFault> {
    let Some(items) = value.get("segments").and_then(Value::as_array) else {
        return Err(ArchiveFault::NotAnArchive);
    };
    let mut segments = Vec::new(alloc);
    for item in items {
        segments.push(segment_in(item)?)?;
    }
    Ok(segments)
}

// Reads the table that a line lists. The texts of its fields follow from its schema.
fn table_in(alloc: Global, line: &[u8]) -> Result<ListedTable, ArchiveFault>
    ensures { IfOk result (λ table. IsWithinLimits (schema_of table.schema)) }
{
    let value = value_of(alloc, line)?;
    let name = String::from_str(alloc, text_in(&value, "table")?)?;
    let stream = bytes_in(alloc, text_in(&value, "schema")?)?;
    let schema = schema_in(alloc, &stream)?;
    let fields = typed_fields(alloc, &schema)?;
    let segments = segments_in(alloc, &value)?;
    Ok(ListedTable {
        name,
        schema,
        fields,
        segments,
    })
}

fn tables_in(alloc: Global, count: u64, lines: &[u8]) -> Result<Vec<ListedTable>, ArchiveFault>
    ensures { IfOk result (λ tables. AreWithin tables.items) }
{
    let mut tables = Vec::new(alloc);
    let mut rest = lines;
    for _ in 0..count {
        let (line, after) = split_line(rest)?;
        tables.push(table_in(alloc, line)?)?;
        rest = after;
    }
    Ok(tables)
}

/// Reads the version, the epoch and the tables of the manifest at the head of an archive, whatever its header is.
pub(crate) fn manifest_in(
    alloc: Global,
    bytes: &[u8],
) -> Result<(ArchiveVersion, u64, Vec<ListedTable>), ArchiveFault>
    ensures { IfOk result (λ manifest. AreWithin manifest.2.items) }
{
    let Some(text) = bytes.get(HEADER_BYTES..) else {
        return Err(ArchiveFault::NotAnArchive);
    };
    let (first, lines) = split_line(text)?;
    let value = value_of(alloc, first)?;
    let version = version_in(&value)?;
    let epoch = number_in(&value, "epoch")?;
    let tables = tables_in(alloc, number_in(&value, "tables")?, lines)?;
    Ok((version, epoch, tables))
}
