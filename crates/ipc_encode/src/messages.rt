// Writes the messages of a piece: those of its dictionaries, and then its record batch.
ghost use Rattle.std.specs.Prelude.{◌≡◌, ◌++◌, true, IfOk, OnOk, length, map};
ghost use Rattle.std.specs.List.{AllByRecursion};
ghost use Rattle.arrow_schema.specs.View.{schema_of};
ghost use Rattle.ipc_canonical.specs.Canonical.{piece_messages};
ghost use Rattle.ipc_canonical.specs.Pieces.{IsPieceOf};
ghost use Rattle.batch_build.specs.Batch.{buffers_in, dictionary_in, node_in};
ghost use Rattle.arrow_schema.specs.Column.{columns_of};
ghost use Rattle.table_cut.specs.Rows.{runs_rows, are_runs_sound};
ghost use Rattle.ipc_encode.specs.inner.Messages.{AreFew, HasFew, built_message, built_messages, built_batch, entries_of_piece, batch_of_piece};
ghost use Rattle.ipc_encode.specs.inner.Stream.{stream_in};
ghost use Rattle.ipc_write.specs.Written.{body};
ghost use Rattle.columns.specs.Borrowed.{borrowed_cells};

use crate::front::{BatchFront, lengths_of};
use crate::stream::{Stream, push_body};
use array_build::build_runs;
use arrow_schema::Schema;
use batch_build::{BuiltBatch, BuiltBuffer, BuiltDictionary, build};
use columns::{dictionaries_are_written_alone, written_arrays_have_their_shape};
use dictionary_codes::KnownEntries;
use ipc_canonical::{written_batches_pass, written_entries_are_read};
use ipc_write::{BatchShape, write_dictionary_front};
use std::alloc::{AllocError, Global};
use table_cut::{RowRun, RunPiece, column_runs};
use values::Values;

// Writes all but the body of the message of a dictionary's entries.
fn write_entries_front(
    alloc: Global,
    out: &mut Vec<u8>,
    id: u64,
    slots: u64,
    nodes: Vec<(u64, u64)>,
    buffers: &[BuiltBuffer<'_>],
) -> Result<(), AllocError>
    requires { AreFew (map node_in nodes.items) (buffers_in buffers.now) }
    ensures { OnOk result (out.new.items ++ body (buffers_in buffers.now)
        ≡ out.old.items ++ built_message id (record { slots = slots; nodes = map node_in nodes.items; buffers = buffers_in buffers.now })) }
{
    let lengths = lengths_of(alloc, buffers)?;
    let shape = BatchShape {
        rows: slots,
        nodes,
        lengths: &lengths,
    };
    write_dictionary_front(alloc, out, id, false, shape)
}

fn write_entries<'a>(
    alloc: Global,
    stream: &mut Stream<'a>,
    id: u64,
    dictionary: BuiltDictionary<'a>,
) -> Result<(), AllocError>
    requires { HasFew (dictionary_in dictionary) }
    ensures { OnOk result (stream_in stream.new ≡ stream_in stream.old ++ built_message id (dictionary_in dictionary.entry)) }
{
    let BuiltDictionary {
        slots,
        nodes,
        buffers,
    } = dictionary;
    write_entries_front(alloc, &mut stream.last, id, slots, nodes, &buffers)?;
    push_body(alloc, stream, buffers)
}

// Writes all entries of the dictionaries with the ids 0, 1, ..
fn write_all_entries<'a>(
    alloc: Global,
    stream: &mut Stream<'a>,
    dictionaries: Vec<BuiltDictionary<'a>>,
) -> Result<(), AllocError>
    requires { AllByRecursion HasFew (map dictionary_in dictionaries.items) }
    ensures { OnOk result (stream_in stream.new ≡ stream_in stream.old ++ built_messages 0 (map dictionary_in dictionaries.entry.items)) }
{
    let mut id: u64 = 0;
    for dictionary in dictionaries {
        write_entries(alloc, stream, id, dictionary)?;
        id += 1;
    }
    Ok(())
}

// Writes all but the body of the record batch of `rows` rows: the kept front if it is the same, or else a new one, which is then kept.
fn write_rows_front(
    alloc: Global,
    out: &mut Vec<u8>,
    kept: &mut Option<BatchFront>,
    rows: usize,
    nodes: Vec<(u64, u64)>,
    buffers: &[BuiltBuffer<'_>],
) -> Result<(), AllocError>
    requires { AreFew (map node_in nodes.items) (buffers_in buffers.now) }
    ensures { OnOk result (out.new.items ++ body (buffers_in buffers.now)
        ≡ out.old.items ++ built_batch rows (map node_in nodes.items) (buffers_in buffers.now)) }
{
    if let Some(front) = &*kept {
        if front.is_of(rows, &nodes, buffers) {
            return out.extend_from_slice(&front.bytes);
        }
    }
    let front = BatchFront::new(alloc, rows, nodes, buffers)?;
    let written = out.extend_from_slice(&front.bytes);
    *kept = Some(front);
    written
}

// Writes the record batch of `rows` rows.
fn write_rows<'a>(
    alloc: Global,
    stream: &mut Stream<'a>,
    kept: &mut Option<BatchFront>,
    rows: usize,
    nodes: Vec<(u64, u64)>,
    buffers: Vec<BuiltBuffer<'a>>,
) -> Result<(), AllocError>
    requires { AreFew (map node_in nodes.items) (buffers_in buffers.items) }
    ensures { OnOk result (stream_in stream.new
        ≡ stream_in stream.old ++ built_batch rows (map node_in nodes.items) (buffers_in buffers.entry.items)) }
{
    write_rows_front(alloc, &mut stream.last, kept, rows, nodes, &buffers)?;
    push_body(alloc, stream, buffers)
}

// Writes the messages of what was built from `rows` rows.
fn write_built<'a>(
    alloc: Global,
    stream: &mut Stream<'a>,
    kept: &mut Option<BatchFront>,
    rows: usize,
    built: BuiltBatch<'a>,
) -> Result<(), AllocError>
    requires few_entries { AllByRecursion HasFew (map dictionary_in built.dictionaries.items) }
    requires few_rows { AreFew (map node_in built.nodes.items) (buffers_in built.buffers.items) }
    ensures { OnOk result (stream_in stream.new ≡ stream_in stream.old ++ (built_messages 0 (map dictionary_in built.entry.dictionaries.items)
        ++ built_batch rows (map node_in built.entry.nodes.items) (buffers_in built.entry.buffers.items))) }
{
    let BuiltBatch {
        nodes,
        buffers,
        dictionaries,
    } = built;
    write_all_entries(alloc, stream, dictionaries)?;
    write_rows(alloc, stream, kept, rows, nodes, buffers)
}

// Builds the arrays of a piece, for which messages have room.
fn build_piece<'a>(
    alloc: Global,
    schema: &Schema,
    rows: &[Values<'_>],
) -> Result<BuiltBatch<'a>, AllocError>
    requires { IsPieceOf (schema_of schema.now) (map borrowed_cells rows.now) }
    ensures entries { IfOk result (λ piece. built_messages 0 (map dictionary_in piece.dictionaries.items)
        ≡ entries_of_piece (schema_of schema.now) (map borrowed_cells rows.now)) }
    ensures rows { IfOk result (λ piece. built_batch (length rows.now) (map node_in piece.nodes.items) (buffers_in piece.buffers.items)
        ≡ batch_of_piece (schema_of schema.now) (map borrowed_cells rows.now)) }
    ensures few_entries { IfOk result (λ piece. AllByRecursion HasFew (map dictionary_in piece.dictionaries.items)) }
    ensures few_rows { IfOk result (λ piece. AreFew (map node_in piece.nodes.items) (buffers_in piece.buffers.items)) }
{
    dictionaries_are_written_alone();
    written_arrays_have_their_shape();
    written_batches_pass();
    written_entries_are_read();
    build(alloc, &schema.fields, rows)
}

/// Appends the messages of a piece: a dictionary batch for each column with a dictionary, and the record batch of these rows, whose front is kept
/// for the next piece.
#[tactic(auto, unfolding(ipc_canonical::specs::Canonical::piece_messages))]
pub(crate) fn write_piece(
    alloc: Global,
    stream: &mut Stream<'_>,
    kept: &mut Option<BatchFront>,
    schema: &Schema,
    rows: &[Values<'_>],
) -> Result<(), AllocError>
    requires { IsPieceOf (schema_of schema.now) (map borrowed_cells rows.now) }
    ensures { OnOk result (stream_in stream.new ≡ stream_in stream.old ++ piece_messages (schema_of schema.now) (map borrowed_cells rows.now)) }
{
    let built = build_piece(alloc, schema, rows)?;
    write_built(alloc, stream, kept, rows.len(), built)
}

// Builds the arrays of a piece whose rows are runs, for which messages have room.
fn build_run_piece<'k, 'a: 'k>(
    alloc: Global,
    entries: &mut KnownEntries<'k>,
    schema: &'k Schema,
    runs: &[RowRun<'a>],
) -> Result<BuiltBatch<'a>, AllocError>
    requires piece { IsPieceOf (schema_of schema.now) (runs_rows (columns_of (schema_of schema.now).columns) runs.now) }
    requires sound { are_runs_sound (columns_of (schema_of schema.now).columns) runs.now ≡ true }
    ensures entries { IfOk result (λ piece. built_messages 0 (map dictionary_in piece.dictionaries.items)
        ≡ entries_of_piece (schema_of schema.now) (runs_rows (columns_of (schema_of schema.now).columns) runs.now)) }
    ensures rows { IfOk result (λ piece. let rows = runs_rows (columns_of (schema_of schema.now).columns) runs.now in
        built_batch (length rows) (map node_in piece.nodes.items) (buffers_in piece.buffers.items) ≡ batch_of_piece (schema_of schema.now) rows) }
    ensures few_entries { IfOk result (λ piece. AllByRecursion HasFew (map dictionary_in piece.dictionaries.items)) }
    ensures few_rows { IfOk result (λ piece. AreFew (map node_in piece.nodes.items) (buffers_in piece.buffers.items)) }
{
    dictionaries_are_written_alone();
    written_arrays_have_their_shape();
    written_batches_pass();
    written_entries_are_read();
    let columns = column_runs(alloc, &schema.fields, runs)?;
    build_runs(alloc, entries, &schema.fields, &columns)
}

/// [`write_piece`] for a piece whose rows are runs: no row is borrowed. What is known of the entries of dictionaries is kept for the next piece
/// too.
#[tactic(auto, unfolding(ipc_canonical::specs::Canonical::piece_messages))]
pub(crate) fn write_run_piece<'k, 'a: 'k>(
    alloc: Global,
    stream: &mut Stream<'a>,
    kept: &mut Option<BatchFront>,
    entries: &mut KnownEntries<'k>,
    schema: &'k Schema,
    piece: &RunPiece<'a>,
) -> Result<(), AllocError>
    requires piece { IsPieceOf (schema_of schema.now) (runs_rows (columns_of (schema_of schema.now).columns) piece.now.runs.items) }
    requires sound { are_runs_sound (columns_of (schema_of schema.now).columns) piece.now.runs.items ≡ true }
    requires count { piece.now.rows ≡ length (runs_rows (columns_of (schema_of schema.now).columns) piece.now.runs.items) }
    ensures { OnOk result (stream_in stream.new ≡ stream_in stream.old
        ++ piece_messages (schema_of schema.now) (runs_rows (columns_of (schema_of schema.now).columns) piece.now.runs.items)) }
{
    let built = build_run_piece(alloc, entries, schema, &piece.runs)?;
    write_built(alloc, stream, kept, piece.rows, built)
}
