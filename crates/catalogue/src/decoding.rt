// Decodes the text of a catalogue or of a page.
ghost use Rattle.std.specs.Prelude.{◌≡◌, ◌≤◌, map, length, IfOk};
ghost use Rattle.catalogue.specs.Entries.{plain_entry};
ghost use Rattle.catalogue.specs.Reading.{Gives, front_number, sized_at, name_at, many_at, extent_in, digest_in, segment_at, raw_schema_in, schema_in, body_at, entry_at, catalogue_at, page_at};
ghost use Rattle.arrow_schema.specs.View.{schema_of};
ghost use Rattle.ipc_message.specs.View.{raw_schema_of};
ghost use Rattle.catalogue.specs.View.{catalogue_of};

use crate::entry::{are_sound, is_within_limits};
use crate::names::is_name;
use crate::{Catalogue, Segment, SegmentForm, TableEntry};
use arrow_schema::Schema;
use byteorder::{ByteOrder, LittleEndian};
use ipc_message::{Header, ImportError, NextMessage, RawSchema, read_message, read_schema};
use ipc_write::encode_schema;
use segments::{Extent, Run};
use std::alloc::{AllocError, AllocFailed, Global};
use thiserror::Error;

/// Why a text was not decoded.
#[derive(Clone, Copy, Debug, PartialEq, Eq, Error)]
pub enum DecodeError {
    #[error("no text of a catalogue")]
    NoText,
    #[error("out of memory")]
    OutOfMemory,
}

pub(crate) fn u32_at(bytes: &[u8]) -> Result<(u32, &[u8]), DecodeError>
    ensures { Gives (λ x. (x.0, x.1.now)) result (front_number 4 bytes.now) }
{
    if bytes.len() < 4 {
        return Err(DecodeError::NoText);
    }
    Ok((LittleEndian::read_u32(bytes), &bytes[4..]))
}

fn u64_at(bytes: &[u8]) -> Result<(u64, &[u8]), DecodeError>
    ensures { Gives (λ x. (x.0, x.1.now)) result (front_number 8 bytes.now) }
{
    if bytes.len() < 8 {
        return Err(DecodeError::NoText);
    }
    Ok((LittleEndian::read_u64(bytes), &bytes[8..]))
}

#[tactic(auto, unfolding(crate::specs::Reading::sized_at))]
fn sized_at(bytes: &[u8]) -> Result<(&[u8], &[u8]), DecodeError>
    ensures { Gives (λ x. (x.0.now, x.1.now)) result (sized_at bytes.now) }
{
    let (size, rest) = u32_at(bytes)?;
    let size = size as usize;
    if rest.len() < size {
        return Err(DecodeError::NoText);
    }
    Ok(rest.split_at(size))
}

// Reads the name of a table.
#[tactic(auto, unfolding(crate::specs::Reading::name_at))]
pub(crate) fn name_at(bytes: &[u8]) -> Result<(&str, &[u8]), DecodeError>
    ensures { Gives (λ x. (x.0.now, x.1.now)) result (name_at bytes.now) }
{
    let (name, rest) = sized_at(bytes)?;
    let Ok(name) = std::str::from_utf8(name) else {
        return Err(DecodeError::NoText);
    };
    if !is_name(name) {
        return Err(DecodeError::NoText);
    }
    Ok((name, rest))
}

#[tactic(auto, unfolding(crate::specs::Reading::extent_in))]
pub(crate) fn extent_in(bytes: &[u8]) -> Result<(Extent, &[u8]), DecodeError>
    ensures { Gives (λ x. (x.0, x.1.now)) result (extent_in bytes.now) }
{
    let (start, rest) = u64_at(bytes)?;
    let (count, rest) = u64_at(rest)?;
    let (bytes, rest) = u64_at(rest)?;
    let run = Run { start, count };
    Ok((Extent { run, bytes }, rest))
}

// Reads the digest of a segment, if the form has one.
#[tactic(auto, unfolding(crate::specs::Reading::digest_in))]
fn digest_in(form: SegmentForm, bytes: &[u8]) -> Result<(Option<[u8; 32]>, &[u8]), DecodeError>
    ensures { Gives (λ x. (x.0, x.1.now)) result (digest_in form bytes.now) }
{
    match form {
        SegmentForm::Bare => Ok((None, bytes)),
        SegmentForm::Digested => {
            if bytes.len() < 32 {
                return Err(DecodeError::NoText);
            }
            let (front, rest) = bytes.split_at(32);
            let mut digest = [0; 32];
            digest.copy_from_slice(front);
            Ok((Some(digest), rest))
        }
    }
}

#[tactic(auto, unfolding(crate::specs::Reading::segment_at))]
fn segment_at(form: SegmentForm, bytes: &[u8]) -> Result<(Segment, &[u8]), DecodeError>
    ensures { Gives (λ x. (x.0, x.1.now)) result (segment_at form bytes.now) }
{
    let (place, rest) = extent_in(bytes)?;
    let (rows, rest) = u64_at(rest)?;
    let (digest, rest) = digest_in(form, rest)?;
    let segment = Segment {
        place,
        rows,
        digest,
    };
    Ok((segment, rest))
}

fn segments_at(
    alloc: Global,
    form: SegmentForm,
    count: u32,
    bytes: &[u8],
) -> Result<(Vec<Segment>, &[u8]), DecodeError>
    ensures { Gives (λ x. (x.0.items, x.1.now)) result (many_at (segment_at form) count bytes.now) }
{
    let mut segments = Vec::new(alloc);
    let mut rest = bytes;
    for _ in 0..count {
        let (segment, after) = segment_at(form, rest)?;
        segments.push(segment)?;
        rest = after;
    }
    Ok((segments, rest))
}

#[tactic(auto, unfolding(crate::specs::Reading::raw_schema_in))]
fn raw_schema_in(alloc: Global, bytes: &[u8]) -> Result<RawSchema<'_>, DecodeError>
    ensures { Gives raw_schema_of result (raw_schema_in bytes.now) }
{
    let Ok((NextMessage::Message(message), _)) = read_message(bytes) else {
        return Err(DecodeError::NoText);
    };
    match message.header(alloc)? {
        Header::Schema(schema) => Ok(schema),
        _ => Err(DecodeError::NoText),
    }
}

#[tactic(auto, unfolding(crate::specs::Reading::schema_in))]
fn schema_in(alloc: Global, bytes: &[u8]) -> Result<Schema, DecodeError>
    ensures { Gives schema_of result (schema_in bytes.now) }
{
    let raw = raw_schema_in(alloc, bytes)?;
    let schema = read_schema(alloc, &raw)?;
    let message = encode_schema(alloc, &schema)?;
    if message.as_slice() == bytes {
        Ok(schema)
    } else {
        Err(DecodeError::NoText)
    }
}

// Reads a schema and segments, and returns the bytes after them.
#[tactic(auto, unfolding(crate::specs::Reading::body_at))]
fn body_at(
    alloc: Global,
    form: SegmentForm,
    bytes: &[u8],
) -> Result<(Schema, Vec<Segment>, &[u8]), DecodeError>
    ensures { Gives (λ x. ((schema_of x.0, x.1.items), x.2.now)) result (body_at form bytes.now) }
{
    let (message, rest) = sized_at(bytes)?;
    let schema = schema_in(alloc, message)?;
    let (count, rest) = u32_at(rest)?;
    let (segments, rest) = segments_at(alloc, form, count, rest)?;
    Ok((schema, segments, rest))
}

#[tactic(auto, unfolding(crate::specs::Reading::entry_at))]
fn entry_at(
    alloc: Global,
    form: SegmentForm,
    bytes: &[u8],
) -> Result<(TableEntry, &[u8]), DecodeError>
    ensures { Gives (λ x. (plain_entry x.0, x.1.now)) result (entry_at form bytes.now) }
{
    let (name, rest) = name_at(bytes)?;
    let name = String::from_str(alloc, name)?;
    let (schema, segments, rest) = body_at(alloc, form, rest)?;
    let entry = TableEntry::new(alloc, name, schema, segments, None)?;
    Ok((entry, rest))
}

fn entries_at(
    alloc: Global,
    form: SegmentForm,
    count: u32,
    bytes: &[u8],
) -> Result<(Vec<TableEntry>, &[u8]), DecodeError>
    ensures { Gives (λ x. (map plain_entry x.0.items, x.1.now)) result (many_at (entry_at form) count bytes.now) }
{
    let mut entries = Vec::new(alloc);
    let mut rest = bytes;
    for _ in 0..count {
        let (entry, after) = entry_at(alloc, form, rest)?;
        entries.push(entry)?;
        rest = after;
    }
    Ok((entries, rest))
}

/// Decodes the text of a catalogue in this form.
///
/// # Errors
/// `NoText` if the bytes are not the text of a catalogue; `OutOfMemory` if memory was refused.
#[tactic(auto, unfolding(crate::specs::Reading::catalogue_at))]
pub fn decode(alloc: Global, form: SegmentForm, bytes: &[u8]) -> Result<Catalogue, DecodeError>
    ensures exact { Gives catalogue_of result (catalogue_at form bytes.now) }
{
    let (count, rest) = u32_at(bytes)?;
    let (entries, rest) = entries_at(alloc, form, count, rest)?;
    if !rest.is_empty() {
        return Err(DecodeError::NoText);
    }
    Catalogue::of(entries).ok_or(DecodeError::NoText)
}

/// Decodes the text of a page in this form into its schema and its segments, of which there are at most `most`.
///
/// # Errors
/// `NoText` if the bytes are not the text of such a page; `OutOfMemory` if memory was refused.
#[tactic(auto, unfolding(crate::specs::Reading::page_at))]
pub fn decode_page(
    alloc: Global,
    form: SegmentForm,
    most: u64,
    bytes: &[u8],
) -> Result<(Schema, Vec<Segment>), DecodeError>
    ensures exact { Gives (λ x. (schema_of x.0, x.1.items)) result (page_at form most bytes.now) }
    ensures few { IfOk result (λ x. length x.1.items ≤ most) }
{
    let (schema, segments, rest) = body_at(alloc, form, bytes)?;
    if rest.is_empty()
        && is_within_limits(&schema)
        && are_sound(&segments)
        && segments.len() as u64 <= most
    {
        Ok((schema, segments))
    } else {
        Err(DecodeError::NoText)
    }
}

impl From<AllocError> for DecodeError {
    ghost use Rattle.std.specs.Prelude.{◌≡◌};
    ghost use Rattle.catalogue.specs.declared.decoding.DecodeError.TheVariants.{OutOfMemory};

    ghost from_gives = { λ _ e. e ≡ OutOfMemory };

    fn from(_: AllocError) -> Self {
        DecodeError::OutOfMemory
    }
}

impl<T: Drop> From<AllocFailed<T>> for DecodeError {
    ghost use Rattle.std.specs.Prelude.{◌≡◌};
    ghost use Rattle.catalogue.specs.declared.decoding.DecodeError.TheVariants.{OutOfMemory};

    ghost from_gives = { λ _ e. e ≡ OutOfMemory };

    fn from(_: AllocFailed<T>) -> Self {
        DecodeError::OutOfMemory
    }
}

impl From<ImportError> for DecodeError {
    ghost use Rattle.std.specs.Prelude.{◌≡◌};
    ghost use Rattle.catalogue.specs.Reading.{decode_error};

    ghost from_gives = { λ e r. r ≡ decode_error e };

    fn from(error: ImportError) -> Self {
        match error {
            ImportError::Fault(_) => DecodeError::NoText,
            ImportError::OutOfMemory => DecodeError::OutOfMemory,
        }
    }
}
