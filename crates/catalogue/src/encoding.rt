// Encodes the text of a catalogue or of a page.
ghost use Rattle.std.specs.Prelude.{◌≡◌, ◌≤◌, ◌<◌, ◌*◌, ◌^◌, ◌++◌, true, length, sum_by, OnOk, IfOk};
ghost use Rattle.std.specs.List.{list_all};
ghost use Rattle.byteorder.specs.Endian.{little_bytes};
ghost use Rattle.catalogue.specs.Entries.{plain_entry, is_segment, is_entry};
ghost use Rattle.catalogue.specs.Text.{sized, counted, extent_text, digest_text, segment_text, segment_size, table_text, table_size, entry_text, list_text};
ghost use Rattle.catalogue.specs.View.{catalogue_of};

use crate::{Catalogue, Segment, TableEntry};
use ipc_write::encode_schema;
use segments::Extent;
use std::alloc::{AllocError, Global};

fn put_number(out: &mut Vec<u8>, number: u64) -> Result<(), AllocError>
    ensures { OnOk result (out.new.items ≡ out.old.items ++ little_bytes 8 number) }
{
    out.extend_from_slice(&number.to_le_bytes())
}

pub(crate) fn put_count(out: &mut Vec<u8>, count: usize) -> Result<(), AllocError>
    requires { count < 2 ^ 32 }
    ensures { OnOk result (out.new.items ≡ out.old.items ++ little_bytes 4 count) }
{
    out.extend_from_slice(&(count as u32).to_le_bytes())
}

pub(crate) fn put_sized(out: &mut Vec<u8>, bytes: &[u8]) -> Result<(), AllocError>
    requires { length bytes.now < 2 ^ 32 }
    ensures { OnOk result (out.new.items ≡ out.old.items ++ sized bytes.now) }
{
    put_count(out, bytes.len())?;
    out.extend_from_slice(bytes)
}

pub(crate) fn put_extent(out: &mut Vec<u8>, extent: Extent) -> Result<(), AllocError>
    ensures { OnOk result (out.new.items ≡ out.old.items ++ extent_text extent) }
{
    put_number(out, extent.run.start)?;
    put_number(out, extent.run.count)?;
    put_number(out, extent.bytes)
}

fn put_digest(out: &mut Vec<u8>, digest: Option<[u8; 32]>) -> Result<(), AllocError>
    ensures { OnOk result (out.new.items ≡ out.old.items ++ digest_text digest) }
{
    match digest {
        Some(digest) => out.extend_from_slice(digest.as_slice()),
        None => Ok(()),
    }
}

fn put_segment(out: &mut Vec<u8>, segment: &Segment) -> Result<(), AllocError>
    ensures { OnOk result (out.new.items ≡ out.old.items ++ segment_text segment.now) }
{
    put_extent(out, segment.place)?;
    put_number(out, segment.rows)?;
    put_digest(out, segment.digest)
}

fn put_segments(out: &mut Vec<u8>, segments: &[Segment]) -> Result<(), AllocError>
    requires { length segments.now < 2 ^ 32 }
    ensures { OnOk result (out.new.items ≡ out.old.items ++ counted segment_text segments.now) }
{
    put_count(out, segments.len())?;
    for segment in segments {
        put_segment(out, segment)?;
    }
    Ok(())
}

// Appends the text of a table without its name.
#[tactic(auto, unfolding(crate::specs::Text::table_text))]
fn put_table(alloc: Global, out: &mut Vec<u8>, entry: &TableEntry) -> Result<(), AllocError>
    requires sound { is_entry (plain_entry entry.now) ≡ true }
    requires segments { length (plain_entry entry.now).segments < 2 ^ 32 }
    ensures { OnOk result (out.new.items ≡ out.old.items ++ table_text (plain_entry entry.now)) }
{
    let message = encode_schema(alloc, entry.schema())?;
    put_sized(out, &message)?;
    put_segments(out, entry.segments())
}

fn put_entry(alloc: Global, out: &mut Vec<u8>, entry: &TableEntry) -> Result<(), AllocError>
    requires sound { is_entry (plain_entry entry.now) ≡ true }
    requires segments { length (plain_entry entry.now).segments < 2 ^ 32 }
    ensures { OnOk result (out.new.items ≡ out.old.items ++ entry_text (plain_entry entry.now)) }
{
    put_sized(out, entry.name().as_bytes())?;
    put_table(alloc, out, entry)
}

/// Returns the text of a catalogue.
///
/// # Errors
/// `AllocError` if memory was refused.
pub fn encode(alloc: Global, catalogue: &Catalogue) -> Result<Vec<u8>, AllocError>
    ensures text { IfOk result (λ text. text.items ≡ list_text (catalogue_of catalogue.now)) }
{
    let entries = catalogue.entries();
    let mut out = Vec::new(alloc);
    put_count(&mut out, entries.len())?;
    for entry in entries {
        put_entry(alloc, &mut out, entry)?;
    }
    Ok(out)
}

/// Returns the text of a table's page: its schema and segments, without its name.
///
/// # Errors
/// `AllocError` if memory was refused.
pub fn encode_page(alloc: Global, entry: &TableEntry) -> Result<Vec<u8>, AllocError>
    requires sound { is_entry (plain_entry entry.now) ≡ true }
    requires segments { length (plain_entry entry.now).segments < 2 ^ 32 }
    ensures text { IfOk result (λ text. text.items ≡ table_text (plain_entry entry.now)) }
{
    let mut out = Vec::new(alloc);
    put_table(alloc, &mut out, entry)?;
    Ok(out)
}

fn segment_size(segment: &Segment) -> u64
    requires { is_segment segment.now ≡ true }
    ensures size { result ≡ segment_size segment.now }
    ensures most { result ≤ 64 }
{
    match segment.digest {
        Some(_) => 64,
        None => 32,
    }
}

fn segments_size(segments: &[Segment]) -> u64
    requires sound { list_all is_segment segments.now ≡ true }
    requires few { length segments.now < 2 ^ 32 }
    ensures size { result ≡ sum_by segment_size segments.now }
    ensures most { result ≤ 64 * length segments.now }
{
    let mut size = 0;
    for segment in segments {
        size += segment_size(segment);
    }
    size
}

/// Returns the size in bytes of the text of a table's page. It does not depend on where the segments lie.
///
/// # Errors
/// `AllocError` if memory was refused.
pub fn page_size(alloc: Global, entry: &TableEntry) -> Result<u64, AllocError>
    requires sound { is_entry (plain_entry entry.now) ≡ true }
    requires segments { length (plain_entry entry.now).segments < 2 ^ 32 }
    ensures size { IfOk result (λ size. size ≡ table_size (plain_entry entry.now)) }
    ensures short { IfOk result (λ size. size < 2 ^ 40) }
{
    let message = encode_schema(alloc, entry.schema())?;
    Ok(8 + message.len() as u64 + segments_size(entry.segments()))
}
