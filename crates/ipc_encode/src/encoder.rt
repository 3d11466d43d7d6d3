// Encodes a table as one stream, and its pieces as a stream each.
ghost use Rattle.std.specs.Prelude.{◌≡◌, ◌<◌, ◌^◌, ◌∷◌, ◌++◌, [], true, IfOk, OnOk, length, map};
ghost use Rattle.std.specs.List.{AllByRecursion};
ghost use Rattle.arrow_schema.specs.View.{schema_of};
ghost use Rattle.ipc_canonical.specs.Canonical.{canonical, rows_messages};
ghost use Rattle.ipc_canonical.specs.Pieces.{IsPieceOf};
ghost use Rattle.ipc_canonical.specs.PieceStreams.{piece_stream, piece_streams, piece_counts};
ghost use Rattle.ipc_encode.specs.View.{joined_parts, streams_behind, streams_in, with_schema};
ghost use Rattle.ipc_encode.specs.inner.Stream.{stream_in};
ghost use Rattle.ipc_write.specs.Written.{schema_message};
ghost use Rattle.table_cut.specs.Cut.{pieces};
ghost use Rattle.table_cut.specs.Piece.{within_piece};
ghost use Rattle.columns.specs.Borrowed.{borrowed_cells};
ghost use Rattle.values.specs.Table.{IsTable};
ghost use Rattle.values.specs.TableView.{table_of};

use crate::by_runs::{encode_parts, encode_parts_pieces, messages_of_parts};
use crate::front::BatchFront;
use crate::messages::write_piece;
use crate::same_encoding::have_same_encodings;
use crate::stream::{Stream, begin_stream, end_stream, into_bytes, into_parts};
use arrow_schema::Schema;
use batch_build::Buffer;
use ipc_canonical::pieces_can_be_built;
use ipc_write::encode_schema;
use std::alloc::{AllocError, Global};
use table_cut::next_piece;
use values::{Table, Values};

/// The streams of a table's pieces, in order, and the number of rows of each. All begin with the schema's message, which is kept once; the rest is
/// parts one after another, made for the stream or borrowed from the table.
#[derive(Drop)]
pub struct EncodedPieces<'a> {
    pub schema_message: Vec<u8>,
    pub parts: Vec<Vec<Buffer<'a>>>,
    pub rows: Vec<u64>,
}

/// Makes a list of no pieces behind a message.
pub(crate) fn no_pieces<'a>(alloc: Global, message: Vec<u8>) -> EncodedPieces<'a>
    ensures message { result.schema_message.items ≡ message.items }
    ensures none { result.parts.items ≡ [] }
    ensures uncounted { result.rows.items ≡ [] }
{
    EncodedPieces {
        schema_message: message,
        parts: Vec::new(alloc),
        rows: Vec::new(alloc),
    }
}

// Writes the messages of the rows of a table, under a schema. The caller owns the front that is kept for the next piece, so that no iteration does.
fn write_rows(
    alloc: Global,
    schema: &Schema,
    table: &Table,
    kept: &mut Option<BatchFront>,
    stream: &mut Stream<'_>,
) -> Result<(), AllocError>
    requires { IsTable (with_schema (schema_of schema.now) (table_of table.now)) }
    ensures { OnOk result (stream_in stream.new ≡ stream_in stream.old ++ rows_messages (schema_of schema.now) (table_of table.now).rows) }
{
    pieces_can_be_built();
    let mut from = 0;
    while from < table.len() {
        let piece = next_piece(alloc, schema, table, from)?;
        write_piece(alloc, stream, kept, schema, &piece)?;
        from += piece.len();
    }
    Ok(())
}

// Encodes the rows of a table, under a schema, as one stream.
fn encode_rows<'a>(alloc: Global, schema: &Schema, table: &Table) -> Result<Stream<'a>, AllocError>
    requires { IsTable (with_schema (schema_of schema.now) (table_of table.now)) }
    ensures { IfOk result (λ stream. stream_in stream ≡ canonical (with_schema (schema_of schema.now) (table_of table.now))) }
{
    let first = encode_schema(alloc, schema)?;
    let mut stream = begin_stream(alloc, first);
    write_rows(alloc, schema, table, &mut None, &mut stream)?;
    end_stream(&mut stream)?;
    Ok(stream)
}

/// Encodes a table as one stream.
pub(crate) fn encode_table<'a>(alloc: Global, table: &'a Table) -> Result<Stream<'a>, AllocError>
    ensures { IfOk result (λ stream. stream_in stream ≡ canonical (table_of table.now)) }
{
    let schema = table.schema();
    if let Some(parts) = table.parts() {
        return encode_parts(alloc, schema, parts, table.len());
    }
    encode_rows(alloc, schema, table)
}

/// Encodes a table of any types as one stream: its schema, the dictionaries and the record batch of each of its pieces, and the end of stream
/// (docs/formats/writing.md).
///
/// Fails only if memory is refused. Takes the memory of the stream and of the buffers that have to be made, and time linear in the stream and in
/// the cells of the table. [`crate::encode_to`] takes only the memory of these buffers.
///
/// # Errors
/// `AllocError` if memory is refused.
pub fn encode(alloc: Global, table: &Table) -> Result<Vec<u8>, AllocError>
    ensures { IfOk result (λ out. out.items ≡ canonical (table_of table.now)) }
{
    let stream = encode_table(alloc, table)?;
    into_bytes(alloc, stream)
}

fn messages_of<'a>(alloc: Global, table: &'a Table) -> Result<Stream<'a>, AllocError>
    ensures { IfOk result (λ stream. stream_in stream ≡ rows_messages (table_of table.now).schema (table_of table.now).rows) }
{
    let schema = table.schema();
    if let Some(parts) = table.parts() {
        return messages_of_parts(alloc, schema, parts, table.len());
    }
    let mut stream = begin_stream(alloc, Vec::new(alloc));
    write_rows(alloc, schema, table, &mut None, &mut stream)?;
    Ok(stream)
}

/// Encodes the rows of a table as the messages of its stream, without the schema's message before them and the end of stream after them.
///
/// Takes the memory and the time of [`encode`].
///
/// # Errors
/// `AllocError` if memory is refused.
pub fn encode_messages(alloc: Global, table: &Table) -> Result<Vec<u8>, AllocError>
    ensures { IfOk result (λ out. out.items ≡ rows_messages (table_of table.now).schema (table_of table.now).rows) }
{
    let stream = messages_of(alloc, table)?;
    into_bytes(alloc, stream)
}

// Encodes a piece as a stream of its own, without the schema's message, which has `before` bytes.
fn encode_piece<'a>(
    alloc: Global,
    schema: &Schema,
    before: usize,
    kept: &mut Option<BatchFront>,
    rows: &[Values<'_>],
) -> Result<Vec<Buffer<'a>>, AllocError>
    requires piece { IsPieceOf (schema_of schema.now) (map borrowed_cells rows.now) }
    requires alone { pieces (within_piece (schema_of schema.now)) (map borrowed_cells rows.now) ≡ map borrowed_cells rows.now ∷ [] }
    requires before { before ≡ length (schema_message (schema_of schema.now)) }
    ensures stream { IfOk result (λ parts. schema_message (schema_of schema.now) ++ joined_parts parts.items
        ≡ piece_stream (schema_of schema.now) (map borrowed_cells rows.now)) }
    ensures short { IfOk result (λ parts. length (schema_message (schema_of schema.now) ++ joined_parts parts.items) < 2 ^ 64) }
{
    let mut stream = begin_stream(alloc, Vec::new(alloc));
    write_piece(alloc, &mut stream, kept, schema, rows)?;
    end_stream(&mut stream)?;
    into_parts(before, stream)
}

/// Appends the stream of a piece and its number of rows.
pub(crate) fn push_stream<'a>(
    pieces: &mut EncodedPieces<'a>,
    stream: Vec<Buffer<'a>>,
    rows: usize,
) -> Result<(), AllocError>
    ensures message { OnOk result (pieces.new.schema_message.items ≡ pieces.old.schema_message.items) }
    ensures streams { OnOk result (pieces.new.parts.items ≡ pieces.old.parts.items ++ stream.entry ∷ []) }
    ensures counts { OnOk result (pieces.new.rows.items ≡ pieces.old.rows.items ++ rows ∷ []) }
{
    pieces.parts.push(stream)?;
    pieces.rows.push(rows as u64)?;
    Ok(())
}

// Appends the streams of the pieces of rows that are borrowed one by one, and the number of rows of each. Nothing was appended before. The caller
// owns the kept front here too.
fn push_table<'a>(
    alloc: Global,
    schema: &Schema,
    before: usize,
    table: &Table,
    kept: &mut Option<BatchFront>,
    pieces: &mut EncodedPieces<'a>,
) -> Result<(), AllocError>
    requires before { before ≡ length (schema_message (schema_of schema.now)) }
    requires table { IsTable (with_schema (schema_of schema.now) (table_of table.now)) }
    requires none { pieces.old.parts.items ≡ [] }
    requires uncounted { pieces.old.rows.items ≡ [] }
    ensures message { OnOk result (pieces.new.schema_message.items ≡ pieces.old.schema_message.items) }
    ensures streams { OnOk result (streams_behind (schema_message (schema_of schema.now)) pieces.new.parts.items
        ≡ piece_streams (with_schema (schema_of schema.now) (table_of table.now))) }
    ensures rows { OnOk result (pieces.new.rows.items ≡ piece_counts (with_schema (schema_of schema.now) (table_of table.now))) }
    ensures short { OnOk result (AllByRecursion (λ stream. length stream < 2 ^ 64)
        (streams_behind (schema_message (schema_of schema.now)) pieces.new.parts.items)) }
{
    pieces_can_be_built();
    let mut from = 0;
    while from < table.len() {
        let piece = next_piece(alloc, schema, table, from)?;
        let stream = encode_piece(alloc, schema, before, kept, &piece)?;
        push_stream(pieces, stream, piece.len())?;
        from += piece.len();
    }
    Ok(())
}

// Encodes the pieces of rows that are borrowed one by one as a stream each, behind the message of the schema.
fn encode_rows_pieces<'a>(
    alloc: Global,
    message: Vec<u8>,
    schema: &Schema,
    table: &Table,
) -> Result<EncodedPieces<'a>, AllocError>
    requires table { IsTable (with_schema (schema_of schema.now) (table_of table.now)) }
    requires message { message.items ≡ schema_message (schema_of schema.now) }
    ensures streams { IfOk result (λ pieces. streams_in pieces ≡ piece_streams (with_schema (schema_of schema.now) (table_of table.now))) }
    ensures rows { IfOk result (λ pieces. pieces.rows.items ≡ piece_counts (with_schema (schema_of schema.now) (table_of table.now))) }
    ensures short { IfOk result (λ pieces. AllByRecursion (λ stream. length stream < 2 ^ 64) (streams_in pieces)) }
{
    let mut pieces = no_pieces(alloc, message);
    let before = pieces.schema_message.len();
    push_table(alloc, schema, before, table, &mut None, &mut pieces)?;
    Ok(pieces)
}

/// Encodes the same pieces as [`encode_pieces`], behind the message of the schema, which the caller has.
///
/// # Errors
/// `AllocError` if memory is refused. The message is freed.
pub fn encode_pieces_behind<'a>(
    alloc: Global,
    message: Vec<u8>,
    schema: &Schema,
    table: &'a Table,
) -> Result<EncodedPieces<'a>, AllocError>
    requires table { IsTable (with_schema (schema_of schema.now) (table_of table.now)) }
    requires message { message.items ≡ schema_message (schema_of schema.now) }
    ensures streams { IfOk result (λ pieces. streams_in pieces ≡ piece_streams (with_schema (schema_of schema.now) (table_of table.now))) }
    ensures rows { IfOk result (λ pieces. pieces.rows.items ≡ piece_counts (with_schema (schema_of schema.now) (table_of table.now))) }
    ensures short { IfOk result (λ pieces. AllByRecursion (λ stream. length stream < 2 ^ 64) (streams_in pieces)) }
{
    if let Some(parts) = table.parts() {
        if have_same_encodings(&schema.fields, &table.schema().fields) {
            return encode_parts_pieces(alloc, message, schema, parts, table.len());
        }
    }
    encode_rows_pieces(alloc, message, schema, table)
}

/// Encodes the pieces of the rows of a table of any types, under a schema, each as a stream of its own. Under the table's own schema they are cut
/// where [`encode`] cuts them.
///
/// The caller makes sure that the rows are a table under this schema, as they are under the table's own. Fails only if memory is refused. A buffer
/// that the table's bytes contain as it is written is not copied unless it is small. This takes the memory of all other buffers, and that of the
/// schema's message once; and time linear in these and in the cells of the table if it is not kept in record batches of columns of these types and
/// dictionaries, or of pieces that have rows under several dictionaries that can be full within a piece (8 bit indices, or 16 bit ones below a list). The law
/// [`crate::pieces_are_tables`] says what the streams mean.
///
/// # Errors
/// `AllocError` if memory is refused.
pub fn encode_pieces<'a>(
    alloc: Global,
    schema: &Schema,
    table: &'a Table,
) -> Result<EncodedPieces<'a>, AllocError>
    requires { IsTable (with_schema (schema_of schema.now) (table_of table.now)) }
    ensures streams { IfOk result (λ pieces. streams_in pieces ≡ piece_streams (with_schema (schema_of schema.now) (table_of table.now))) }
    ensures rows { IfOk result (λ pieces. pieces.rows.items ≡ piece_counts (with_schema (schema_of schema.now) (table_of table.now))) }
    ensures short { IfOk result (λ pieces. AllByRecursion (λ stream. length stream < 2 ^ 64) (streams_in pieces)) }
{
    let message = encode_schema(alloc, schema)?;
    encode_pieces_behind(alloc, message, schema, table)
}

/// Encodes the pieces of the rows of a table of any types under its own schema, as [`encode_pieces`] does.
///
/// # Errors
/// `AllocError` if memory is refused.
pub fn encode_own_pieces<'a>(
    alloc: Global,
    table: &'a Table,
) -> Result<EncodedPieces<'a>, AllocError>
    ensures streams { IfOk result (λ pieces. streams_in pieces ≡ piece_streams (table_of table.now)) }
    ensures rows { IfOk result (λ pieces. pieces.rows.items ≡ piece_counts (table_of table.now)) }
    ensures short { IfOk result (λ pieces. AllByRecursion (λ stream. length stream < 2 ^ 64) (streams_in pieces)) }
{
    encode_pieces(alloc, table.schema(), table)
}
