// The manifest of an archive: lines of JSON.
ghost use Rattle.std.specs.Prelude.{◌≡◌, ◌++◌, ◌∷◌, [], map, flat_map, string_bytes, option_map, codes, length, OnOk, IfOk};
ghost use Rattle.json.specs.Token.{begin_object, key, string};
ghost use Rattle.hex.specs.Hex.{encode_lower};
ghost use Rattle.arrow_schema.specs.Limits.{IsWithinLimits};
ghost use Rattle.arrow_schema.specs.View.{schema_of};
ghost use Rattle.table_archive.specs.Manifest.{plain_listed, empty_stream, number_of, number_member, first_tokens, segment_tokens, fields_member, segments_member, table_tokens, line, table_lines, manifest, AreWithin};
ghost use Rattle.table_archive.specs.inner.Written.{WritesAll};

use crate::tar::push_bytes;
use arrow_schema::Schema;
use ipc_write::{encode_schema, write_end};
use json::Writer;
use std::alloc::{AllocError, Global};

/// The version of the form of an archive.
#[derive(Clone, Copy, Debug, PartialEq, Eq)]
pub enum ArchiveVersion {
    /// Its last member has no bytes, so an alteration of the manifest may not be noticed.
    One,
    /// Its last member has the SHA-256 of the manifest.
    Two,
}

impl ArchiveVersion {
    fn number(self) -> u64
        ensures { result ≡ number_of self }
    {
        match self {
            ArchiveVersion::One => 1,
            ArchiveVersion::Two => 2,
        }
    }
}

/// A segment as it is listed: the SHA-256 of its stream (FIPS 180-4), and the numbers of its bytes and its rows.
#[derive(Clone, Copy)]
pub struct ListedSegment {
    pub digest: [u8; 32],
    pub bytes: u64,
    pub rows: u64,
}

/// A table as it is listed: its name, its schema, the texts by which its fields are typed in, if there are such texts, and its segments in order.
#[derive(Drop)]
pub struct ListedTable {
    pub name: String,
    pub schema: Schema,
    pub fields: Option<Vec<String>>,
    pub segments: Vec<ListedSegment>,
}

fn write_number(writer: &mut Writer, name: &str, number: u64) -> Result<(), AllocError>
    ensures { WritesAll result writer.old writer.new (number_member name.now number) }
{
    writer.key(name)?;
    writer.u64(number)
}

fn write_first(
    writer: &mut Writer,
    version: ArchiveVersion,
    epoch: u64,
    tables: u64,
) -> Result<(), AllocError>
    ensures { WritesAll result writer.old writer.new (first_tokens version epoch tables) }
{
    writer.begin_object()?;
    write_number(writer, "archive", version.number())?;
    write_number(writer, "epoch", epoch)?;
    write_number(writer, "tables", tables)?;
    writer.end_object()
}

// Writes bytes as a string of hexadecimal digits.
fn write_hex(alloc: Global, writer: &mut Writer, bytes: &[u8]) -> Result<(), AllocError>
    ensures { WritesAll result writer.old writer.new (string (encode_lower bytes.now) ∷ []) }
{
    let text = hex::encode(alloc, bytes)?;
    writer.string(text.as_str())
}

fn write_segment(
    alloc: Global,
    writer: &mut Writer,
    segment: &ListedSegment,
) -> Result<(), AllocError>
    ensures { WritesAll result writer.old writer.new (segment_tokens segment.now) }
{
    writer.begin_object()?;
    writer.key("sha256")?;
    write_hex(alloc, writer, &segment.digest)?;
    write_number(writer, "bytes", segment.bytes)?;
    write_number(writer, "rows", segment.rows)?;
    writer.end_object()
}

fn write_segments(
    alloc: Global,
    writer: &mut Writer,
    segments: &[ListedSegment],
) -> Result<(), AllocError>
    ensures { WritesAll result writer.old writer.new (flat_map segment_tokens segments.now) }
{
    for segment in segments {
        write_segment(alloc, writer, segment)?;
    }
    Ok(())
}

fn write_texts(writer: &mut Writer, texts: &[String]) -> Result<(), AllocError>
    ensures { WritesAll result writer.old writer.new (map string (map string_bytes texts.now)) }
{
    for text in texts {
        writer.string(text.as_str())?;
    }
    Ok(())
}

fn write_fields(writer: &mut Writer, fields: &Option<Vec<String>>) -> Result<(), AllocError>
    ensures { WritesAll result writer.old writer.new (fields_member (option_map (λ texts. map string_bytes texts.items) fields.now)) }
{
    writer.key("fields")?;
    match fields {
        Some(texts) => {
            writer.begin_array()?;
            write_texts(writer, texts)?;
            writer.end_array()
        }
        None => writer.null(),
    }
}

fn write_list(
    alloc: Global,
    writer: &mut Writer,
    segments: &[ListedSegment],
) -> Result<(), AllocError>
    ensures { WritesAll result writer.old writer.new (segments_member segments.now) }
{
    writer.key("segments")?;
    writer.begin_array()?;
    write_segments(alloc, writer, segments)?;
    writer.end_array()
}

fn write_schema(alloc: Global, writer: &mut Writer, schema: &Schema) -> Result<(), AllocError>
    requires { IsWithinLimits (schema_of schema.now) }
    ensures { WritesAll result writer.old writer.new (key (codes "schema") ∷ string (encode_lower (empty_stream (schema_of schema.now))) ∷ []) }
{
    let mut stream = encode_schema(alloc, schema)?;
    write_end(&mut stream)?;
    writer.key("schema")?;
    write_hex(alloc, writer, &stream)
}

fn write_name(writer: &mut Writer, name: &str) -> Result<(), AllocError>
    ensures { WritesAll result writer.old writer.new (begin_object ∷ key (codes "table") ∷ string name.now ∷ []) }
{
    writer.begin_object()?;
    writer.key("table")?;
    writer.string(name)
}

fn write_table(alloc: Global, writer: &mut Writer, table: &ListedTable) -> Result<(), AllocError>
    requires { IsWithinLimits (schema_of table.now.schema) }
    ensures { WritesAll result writer.old writer.new (table_tokens (plain_listed table.now)) }
{
    write_name(writer, table.name.as_str())?;
    write_schema(alloc, writer, &table.schema)?;
    write_fields(writer, &table.fields)?;
    write_list(alloc, writer, &table.segments)?;
    writer.end_object()
}

// Appends what was written, and a line feed.
fn push_line(out: &mut Vec<u8>, writer: Writer) -> Result<(), AllocError>
    requires { writer.before ≡ [] }
    ensures { OnOk result (out.new.items ≡ out.old.items ++ line writer.tokens) }
{
    let text = writer.into_inner();
    push_bytes(out, &text)?;
    push_bytes(out, b"\n")
}

// Each line is written by itself, since a writer clears all the room that it is given.
fn push_table(alloc: Global, out: &mut Vec<u8>, table: &ListedTable) -> Result<(), AllocError>
    requires { IsWithinLimits (schema_of table.now.schema) }
    ensures { OnOk result (out.new.items ≡ out.old.items ++ line (table_tokens (plain_listed table.now))) }
{
    let mut writer = Writer::new(Vec::new(alloc));
    write_table(alloc, &mut writer, table)?;
    push_line(out, writer)
}

fn push_tables(alloc: Global, out: &mut Vec<u8>, tables: &[ListedTable]) -> Result<(), AllocError>
    requires { AreWithin tables.now }
    ensures { OnOk result (out.new.items ≡ out.old.items ++ table_lines (map plain_listed tables.now)) }
{
    for table in tables {
        push_table(alloc, out, table)?;
    }
    Ok(())
}

/// Returns the manifest of these tables.
#[tactic(auto, unfolding(crate::specs::Manifest::manifest))]
pub(crate) fn manifest_of(
    alloc: Global,
    version: ArchiveVersion,
    epoch: u64,
    tables: &[ListedTable],
) -> Result<Vec<u8>, AllocError>
    requires { AreWithin tables.now }
    ensures { IfOk result (λ text. text.items ≡ manifest version epoch (map plain_listed tables.now)) }
{
    let mut text = Vec::new(alloc);
    let mut writer = Writer::new(Vec::new(alloc));
    write_first(&mut writer, version, epoch, tables.len() as u64)?;
    push_line(&mut text, writer)?;
    push_tables(alloc, &mut text, tables)?;
    Ok(text)
}
