// The change that a command makes, before its new segments have places.
ghost use Rattle.std.specs.Prelude.{◌≡◌, ◌<◌, ◌^◌, ◌∷◌, [], length, map, get_or, IfOk, OnOk};
ghost use Rattle.ipc_encode.specs.View.{joined_parts, streams_in};
ghost use Rattle.commit.specs.Placing.{AreShort};
ghost use Rattle.store_changes.specs.Picked.{streams_at};
ghost use Rattle.store_changes.specs.Under.{table_under};
ghost use Rattle.values.specs.Table.{IsTable};

use crate::kept_message::{KeptMessage, keep_message};
use arrow_schema::Schema;
use batch_build::Buffer;
use catalogue::Catalogue;
use ipc_encode::{EncodedPieces, encode_own_pieces, encode_pieces_behind};
use segments::Run;
use std::alloc::{AllocError, Global};
use values::Table;

/// How the catalogue changes.
#[derive(Drop)]
pub enum Edit {
    /// A table with this name and the new segments, which replaces one with the same name.
    Put {
        name: String,
        schema: Schema,
    },
    /// The new segments, appended to those of the table.
    Extend {
        name: String,
    },
    /// Another name for the table.
    Move {
        from: String,
        to: String,
    },
    /// The removal of the table.
    Remove {
        name: String,
    },
    /// The new segments in place of `count` segments of the table, from `place` on.
    Exchange {
        name: String,
        place: usize,
        count: usize,
    },
    /// A digest for each segment of each table, in order. The catalogue is then of version 2.
    Digest {
        digests: Vec<[u8; 32]>,
    },
    /// The tables of `made` in place of those of `old`: its segments that start at the sector `from` or later are the new ones, in order. The runs in `gone` are
    /// no longer named.
    Rebuild {
        old: Catalogue,
        from: u64,
        made: Catalogue,
        gone: Vec<Run>,
    },
}

/// The rows of new segments: those of a table, under another schema instead of its own if one is given.
#[derive(Drop)]
pub struct SegmentRows {
    pub table: Table,
    pub schema: Option<Schema>,
    ghost kept: { IsTable (table_under schema table) },
}

/// The contents of new segments.
#[derive(Drop)]
pub enum NewSegments {
    /// The pieces of these rows.
    Rows(SegmentRows),
    /// These bytes, which are a stream of this number of rows.
    Copied {
        bytes: Vec<u8>,
        rows: u64,
    },
    /// Those of these streams that stand at these places, with the number of rows of each.
    Streams {
        streams: Vec<Vec<u8>>,
        places: Vec<usize>,
        rows: Vec<u64>,
    },
}

/// An edit, and the contents of its new segments.
#[derive(Drop)]
pub struct Change {
    pub edit: Edit,
    pub new: Option<NewSegments>,
}

impl SegmentRows {
    ghost use Rattle.ipc_canonical.specs.PieceStreams.{piece_streams, piece_counts};
    ghost use Rattle.store_changes.specs.Change.{rows_table};

    // Encodes the pieces of the rows. The message of a schema that is given is kept.
    fn pieces(
        &self,
        alloc: Global,
        kept: &mut Option<KeptMessage>,
    ) -> Result<EncodedPieces<'_>, AllocError>
        ensures streams { IfOk result (λ pieces. streams_in pieces ≡ piece_streams (rows_table self.now)) }
        ensures counts { IfOk result (λ pieces. pieces.rows.items ≡ piece_counts (rows_table self.now)) }
        ensures short { IfOk result (λ pieces. AreShort (streams_in pieces)) }
    {
        match &self.schema {
            Some(schema) => {
                let message = keep_message(alloc, kept, schema)?;
                encode_pieces_behind(alloc, message, schema, &self.table)
            }
            None => encode_own_pieces(alloc, &self.table),
        }
    }
}

// Borrows these bytes as a single stream.
fn copied_piece(alloc: Global, bytes: &[u8], rows: u64) -> Result<EncodedPieces<'_>, AllocError>
    ensures streams { IfOk result (λ pieces. streams_in pieces ≡ bytes.now ∷ []) }
    ensures counts { IfOk result (λ pieces. pieces.rows.items ≡ rows ∷ []) }
    ensures short { IfOk result (λ pieces. AreShort (streams_in pieces)) }
{
    let mut stream = Vec::with_capacity(alloc, 1)?;
    stream.push_reserved(Buffer::Borrowed(bytes));
    let mut parts = Vec::with_capacity(alloc, 1)?;
    parts.push_reserved(stream);
    let mut counts = Vec::with_capacity(alloc, 1)?;
    counts.push_reserved(rows);
    Ok(EncodedPieces {
        schema_message: Vec::new(alloc),
        parts,
        rows: counts,
    })
}

// Borrows these bytes as the only part of a stream.
fn borrowed_part(alloc: Global, bytes: &[u8]) -> Result<Vec<Buffer<'_>>, AllocError>
    ensures bytes { IfOk result (λ parts. joined_parts parts.items ≡ bytes.now) }
    ensures short { OnOk result (length bytes.now < 2 ^ 64) }
{
    let mut parts = Vec::with_capacity(alloc, 1)?;
    parts.push_reserved(Buffer::Borrowed(bytes));
    Ok(parts)
}

// Borrows the stream at a place; if there is none, it is empty.
fn stream_at(
    alloc: Global,
    streams: &[Vec<u8>],
    place: usize,
) -> Result<Vec<Buffer<'_>>, AllocError>
    ensures bytes { IfOk result (λ parts. joined_parts parts.items ≡ get_or (map (λ s. s.items) streams.now) place []) }
    ensures short { OnOk result (length (get_or (map (λ s. s.items) streams.now) place []) < 2 ^ 64) }
{
    match streams.get(place) {
        Some(stream) => borrowed_part(alloc, stream),
        None => borrowed_part(alloc, &[]),
    }
}

// Borrows the streams at these places.
fn stream_pieces<'a>(
    alloc: Global,
    streams: &'a [Vec<u8>],
    places: &[usize],
    rows: &[u64],
) -> Result<EncodedPieces<'a>, AllocError>
    ensures streams { IfOk result (λ pieces. streams_in pieces ≡ streams_at (map (λ s. s.items) streams.now) places.now) }
    ensures counts { IfOk result (λ pieces. pieces.rows.items ≡ rows.now) }
    ensures short { IfOk result (λ pieces. AreShort (streams_in pieces)) }
{
    let mut parts = Vec::with_capacity(alloc, places.len())?;
    for place in places {
        parts.push(stream_at(alloc, streams, *place)?)?;
    }
    Ok(EncodedPieces {
        schema_message: Vec::new(alloc),
        parts,
        rows: Vec::from_slice(alloc, rows)?,
    })
}

impl Change {
    ghost use Rattle.store_changes.specs.Change.{change_of};

    /// Returns the streams of the new segments, in order, and the number of rows of each.
    ///
    /// # Errors
    /// `AllocError` if memory was refused.
    pub fn pieces(&self, alloc: Global) -> Result<EncodedPieces<'_>, AllocError>
        ensures streams { IfOk result (λ pieces. streams_in pieces ≡ (change_of self.now).streams) }
        ensures counts { IfOk result (λ pieces. pieces.rows.items ≡ (change_of self.now).counts) }
        ensures short { IfOk result (λ pieces. AreShort (streams_in pieces)) }
    {
        self.pieces_and_message(alloc, &mut None)
    }

    // Returns the same. The message of the schema of new rows is copied if it is kept, and kept otherwise.
    pub(crate) fn pieces_and_message(
        &self,
        alloc: Global,
        kept: &mut Option<KeptMessage>,
    ) -> Result<EncodedPieces<'_>, AllocError>
        ensures streams { IfOk result (λ pieces. streams_in pieces ≡ (change_of self.now).streams) }
        ensures counts { IfOk result (λ pieces. pieces.rows.items ≡ (change_of self.now).counts) }
        ensures short { IfOk result (λ pieces. AreShort (streams_in pieces)) }
    {
        match &self.new {
            Some(NewSegments::Rows(rows)) => rows.pieces(alloc, kept),
            Some(NewSegments::Copied { bytes, rows }) => copied_piece(alloc, bytes, *rows),
            Some(
                NewSegments::Streams {
                    streams,
                    places,
                    rows,
                },
            ) => stream_pieces(alloc, streams, places, rows),
            None => Ok(EncodedPieces {
                schema_message: Vec::new(alloc),
                parts: Vec::new(alloc),
                rows: Vec::new(alloc),
            }),
        }
    }
}
