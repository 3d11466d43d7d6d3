// Encodes rows that are kept in record batches by runs of slots, as one stream or in pieces.
ghost use Rattle.std.specs.Prelude.{◌≡◌, ◌<◌, ◌^◌, ◌∷◌, ◌++◌, [], true, length, IfOk, OnOk};
ghost use Rattle.std.specs.List.{AllByRecursion};
ghost use Rattle.arrow_schema.specs.Column.{columns_of};
ghost use Rattle.arrow_schema.specs.View.{schema_of};
ghost use Rattle.ipc_canonical.specs.Canonical.{canonical, rows_messages};
ghost use Rattle.ipc_canonical.specs.Pieces.{IsPieceOf};
ghost use Rattle.ipc_canonical.specs.PieceStreams.{piece_stream, piece_streams, piece_counts};
ghost use Rattle.ipc_encode.specs.View.{joined_parts, streams_behind, streams_in};
ghost use Rattle.ipc_encode.specs.inner.Stream.{stream_in};
ghost use Rattle.ipc_write.specs.Written.{schema_message};
ghost use Rattle.table_cut.specs.Left.{runs_left, rows_left};
ghost use Rattle.table_cut.specs.Rows.{runs_rows, runs_table, are_runs_sound};
ghost use Rattle.table_cut.specs.Cut.{pieces};
ghost use Rattle.table_cut.specs.Piece.{within_piece};
ghost use Rattle.values.specs.Parts.{are_parts_sound, parts_rows, parts_table};
ghost use Rattle.values.specs.Table.{IsTable};

use crate::encoder::{EncodedPieces, no_pieces, push_stream};
use crate::front::BatchFront;
use crate::messages::write_run_piece;
use crate::stream::{Stream, begin_stream, end_stream, into_bytes, into_parts};
use arrow_schema::Schema;
use batch_build::Buffer;
use dictionary_codes::KnownEntries;
use ipc_canonical::pieces_can_be_built;
use ipc_write::encode_schema;
use std::alloc::{AllocError, Global};
use table_cut::{RowRun, RowsLeft, RunPiece};
use values::TablePart;

// Writes the messages of the remaining rows, of which there are `rows`. The caller owns the front that is kept for the next piece, so that no
// iteration does.
fn write_runs<'k, 'a: 'k>(
    alloc: Global,
    schema: &'k Schema,
    stream: &mut Stream<'a>,
    kept: &mut Option<BatchFront>,
    entries: &mut KnownEntries<'k>,
    left: &mut RowsLeft<'a>,
    rows: usize,
) -> Result<(), AllocError>
    requires table { IsTable (runs_table (schema_of schema.now) (runs_left left.old)) }
    requires sound { are_runs_sound (columns_of (schema_of schema.now).columns) (runs_left left.old) ≡ true }
    requires count { rows ≡ length (rows_left (columns_of (schema_of schema.now).columns) left.old) }
    ensures { OnOk result (stream_in stream.new ≡ stream_in stream.old
        ++ rows_messages (schema_of schema.now) (rows_left (columns_of (schema_of schema.now).columns) left.old)) }
{
    pieces_can_be_built();
    let mut from = 0;
    while from < rows {
        let piece = left.next_piece(alloc, schema)?;
        write_run_piece(alloc, stream, kept, entries, schema, &piece)?;
        from += piece.rows;
    }
    Ok(())
}

// Encodes the remaining rows, of which there are `rows`, as one stream.
fn encode_left<'a>(
    alloc: Global,
    schema: &Schema,
    all: RowsLeft<'a>,
    rows: usize,
) -> Result<Stream<'a>, AllocError>
    requires table { IsTable (runs_table (schema_of schema.now) (runs_left all)) }
    requires sound { are_runs_sound (columns_of (schema_of schema.now).columns) (runs_left all) ≡ true }
    requires count { rows ≡ length (rows_left (columns_of (schema_of schema.now).columns) all) }
    ensures { IfOk result (λ stream. stream_in stream ≡ canonical (runs_table (schema_of schema.now) (runs_left all.entry))) }
{
    let mut left = all;
    let first = encode_schema(alloc, schema)?;
    let mut stream = begin_stream(alloc, first);
    write_runs(
        alloc,
        schema,
        &mut stream,
        &mut None,
        &mut KnownEntries::none(alloc),
        &mut left,
        rows,
    )?;
    end_stream(&mut stream)?;
    Ok(stream)
}

/// Encodes the rows of record batches, of which there are `rows`, as one stream.
pub(crate) fn encode_parts<'a>(
    alloc: Global,
    schema: &Schema,
    parts: &'a [TablePart],
    rows: usize,
) -> Result<Stream<'a>, AllocError>
    requires table { IsTable (parts_table (schema_of schema.now) parts.now) }
    requires sound { are_parts_sound (columns_of (schema_of schema.now).columns) parts.now ≡ true }
    requires count { rows ≡ length (parts_rows (columns_of (schema_of schema.now).columns) parts.now) }
    ensures { IfOk result (λ stream. stream_in stream ≡ canonical (parts_table (schema_of schema.now) parts.now)) }
{
    let left = RowsLeft::new(alloc, parts)?;
    encode_left(alloc, schema, left, rows)
}

/// Encodes the rows of record batches, of which there are `rows`, as messages.
pub(crate) fn messages_of_parts<'a>(
    alloc: Global,
    schema: &Schema,
    parts: &'a [TablePart],
    rows: usize,
) -> Result<Stream<'a>, AllocError>
    requires table { IsTable (parts_table (schema_of schema.now) parts.now) }
    requires sound { are_parts_sound (columns_of (schema_of schema.now).columns) parts.now ≡ true }
    requires count { rows ≡ length (parts_rows (columns_of (schema_of schema.now).columns) parts.now) }
    ensures { IfOk result (λ stream. stream_in stream
        ≡ rows_messages (schema_of schema.now) (parts_rows (columns_of (schema_of schema.now).columns) parts.now)) }
{
    let mut left = RowsLeft::new(alloc, parts)?;
    let mut stream = begin_stream(alloc, Vec::new(alloc));
    write_runs(
        alloc,
        schema,
        &mut stream,
        &mut None,
        &mut KnownEntries::none(alloc),
        &mut left,
        rows,
    )?;
    Ok(stream)
}

/// Encodes the rows of some runs, `rows` in all, as one stream: that of [`crate::encode`] for a table with these rows.
///
/// The caller makes sure that the rows are a table. Fails only if memory is refused. Takes the memory of the stream and of the buffers that have to
/// be made, and time linear in the stream and in the runs; and in the cells of the pieces that have rows under several dictionaries that can be full
/// within a piece (8 bit indices, or 16 bit ones below a list), which are visited for each of their first such runs, to find where the pieces end.
///
/// # Errors
/// `AllocError` if memory is refused. The runs are freed.
pub fn encode_runs(
    alloc: Global,
    schema: &Schema,
    runs: Vec<RowRun<'_>>,
    rows: usize,
) -> Result<Vec<u8>, AllocError>
    requires table { IsTable (runs_table (schema_of schema.now) runs.items) }
    requires sound { are_runs_sound (columns_of (schema_of schema.now).columns) runs.items ≡ true }
    requires count { rows ≡ length (runs_rows (columns_of (schema_of schema.now).columns) runs.items) }
    ensures { IfOk result (λ out. out.items ≡ canonical (runs_table (schema_of schema.now) runs.entry.items)) }
{
    let stream = encode_left(alloc, schema, RowsLeft::of_runs(runs), rows)?;
    into_bytes(alloc, stream)
}

// Encodes a piece as a stream of its own, without the schema's message, which has `before` bytes.
fn encode_run_piece<'k, 'a: 'k>(
    alloc: Global,
    schema: &'k Schema,
    before: usize,
    kept: &mut Option<BatchFront>,
    entries: &mut KnownEntries<'k>,
    piece: &RunPiece<'a>,
) -> Result<Vec<Buffer<'a>>, AllocError>
    requires piece { IsPieceOf (schema_of schema.now) (runs_rows (columns_of (schema_of schema.now).columns) piece.now.runs.items) }
    requires alone { let rows = runs_rows (columns_of (schema_of schema.now).columns) piece.now.runs.items in
        pieces (within_piece (schema_of schema.now)) rows ≡ rows ∷ [] }
    requires sound { are_runs_sound (columns_of (schema_of schema.now).columns) piece.now.runs.items ≡ true }
    requires count { piece.now.rows ≡ length (runs_rows (columns_of (schema_of schema.now).columns) piece.now.runs.items) }
    requires before { before ≡ length (schema_message (schema_of schema.now)) }
    ensures stream { IfOk result (λ parts. schema_message (schema_of schema.now) ++ joined_parts parts.items
        ≡ piece_stream (schema_of schema.now) (runs_rows (columns_of (schema_of schema.now).columns) piece.now.runs.items)) }
    ensures short { IfOk result (λ parts. length (schema_message (schema_of schema.now) ++ joined_parts parts.items) < 2 ^ 64) }
{
    let mut stream = begin_stream(alloc, Vec::new(alloc));
    write_run_piece(alloc, &mut stream, kept, entries, schema, piece)?;
    end_stream(&mut stream)?;
    into_parts(before, stream)
}

// Appends the streams of the pieces of the remaining rows, of which there are `rows`, and the number of rows of each. Nothing was appended before.
// The caller owns the kept front here too.
fn push_left<'k, 'a: 'k>(
    alloc: Global,
    schema: &'k Schema,
    before: usize,
    kept: &mut Option<BatchFront>,
    entries: &mut KnownEntries<'k>,
    left: &mut RowsLeft<'a>,
    rows: usize,
    pieces: &mut EncodedPieces<'a>,
) -> Result<(), AllocError>
    requires before { before ≡ length (schema_message (schema_of schema.now)) }
    requires table { IsTable (runs_table (schema_of schema.now) (runs_left left.old)) }
    requires sound { are_runs_sound (columns_of (schema_of schema.now).columns) (runs_left left.old) ≡ true }
    requires count { rows ≡ length (rows_left (columns_of (schema_of schema.now).columns) left.old) }
    requires none { pieces.old.parts.items ≡ [] }
    requires uncounted { pieces.old.rows.items ≡ [] }
    ensures message { OnOk result (pieces.new.schema_message.items ≡ pieces.old.schema_message.items) }
    ensures streams { OnOk result (streams_behind (schema_message (schema_of schema.now)) pieces.new.parts.items
        ≡ piece_streams (runs_table (schema_of schema.now) (runs_left left.old))) }
    ensures rows { OnOk result (pieces.new.rows.items ≡ piece_counts (runs_table (schema_of schema.now) (runs_left left.old))) }
    ensures short { OnOk result (AllByRecursion (λ stream. length stream < 2 ^ 64)
        (streams_behind (schema_message (schema_of schema.now)) pieces.new.parts.items)) }
{
    pieces_can_be_built();
    let mut from = 0;
    while from < rows {
        let piece = left.next_piece(alloc, schema)?;
        let stream = encode_run_piece(alloc, schema, before, kept, entries, &piece)?;
        push_stream(pieces, stream, piece.rows)?;
        from += piece.rows;
    }
    Ok(())
}

/// Encodes the pieces of the rows of record batches as a stream each, behind the message of the schema.
pub(crate) fn encode_parts_pieces<'a>(
    alloc: Global,
    message: Vec<u8>,
    schema: &Schema,
    parts: &'a [TablePart],
    rows: usize,
) -> Result<EncodedPieces<'a>, AllocError>
    requires message { message.items ≡ schema_message (schema_of schema.now) }
    requires table { IsTable (parts_table (schema_of schema.now) parts.now) }
    requires sound { are_parts_sound (columns_of (schema_of schema.now).columns) parts.now ≡ true }
    requires count { rows ≡ length (parts_rows (columns_of (schema_of schema.now).columns) parts.now) }
    ensures streams { IfOk result (λ pieces. streams_in pieces ≡ piece_streams (parts_table (schema_of schema.now) parts.now)) }
    ensures rows { IfOk result (λ pieces. pieces.rows.items ≡ piece_counts (parts_table (schema_of schema.now) parts.now)) }
    ensures short { IfOk result (λ pieces. AllByRecursion (λ stream. length stream < 2 ^ 64) (streams_in pieces)) }
{
    let mut pieces = no_pieces(alloc, message);
    let before = pieces.schema_message.len();
    let mut left = RowsLeft::new(alloc, parts)?;
    push_left(
        alloc,
        schema,
        before,
        &mut None,
        &mut KnownEntries::none(alloc),
        &mut left,
        rows,
        &mut pieces,
    )?;
    Ok(pieces)
}
