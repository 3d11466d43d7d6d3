// Laws that what is written is read back. The functions do nothing: their contracts are the laws.
ghost use Rattle.std.specs.List.{AllByRecursion, AllPass, range_with_len};
ghost use Rattle.std.specs.Prelude.{◌≡◌, ◌≤◌, ◌+◌, ℕ, List, [], ◌∷◌, map, length, None, Ok, ◌++◌, false, Some};
ghost use Rattle.arrow_schema.specs.Column.{Columns, PlainSchema, columns_of};
ghost use Rattle.arrow_schema.specs.Preorder.{preorder_all};
ghost use Rattle.arrow_schema.specs.declared.limits.TheConstants.{MAX_FIELDS};
ghost use Rattle.cells.specs.Cell.{PlainTable, Cell};
ghost use Rattle.cells.specs.Row.{is_row};
ghost use Rattle.cells.specs.Weight.{table_weight};
ghost use Rattle.facts.specs.Checks.{first_some};
ghost use Rattle.values.specs.Table.{IsTable};
ghost use Rattle.values.specs.PlainTables.{plain_table};
ghost use Rattle.columns.specs.Alone.{own_column, own_array, IsBuiltAlone};
ghost use Rattle.columns.specs.Array.{slots_in, Array};
ghost use Rattle.columns.specs.Buffers.{buffers_of, dictionaries_of};
ghost use Rattle.columns.specs.Built.{built_parts};
ghost use Rattle.columns.specs.Layouts.{dictionary_arrays};
ghost use Rattle.columns.specs.Tests.{Typed};
ghost use Rattle.dictionary.specs.InEffect.{DictionaryBatch};
ghost use Rattle.ipc_message.specs.Raw.{RawDictionaryBatch};
ghost use Rattle.ipc_message.specs.Header.{supported_codes};
ghost use Rattle.ipc_write.specs.Written.{IsWritableBatch};
ghost use Rattle.ipc_write.specs.Decoded.{raw_schema};
ghost use Rattle.ipc_write.specs.Trees.{ids_of_all};
ghost use Rattle.ipc_stream.specs.Meaning.{meaning};
ghost use Rattle.arrays.specs.Checks.{array_checks, batch_arrays, batch_read};
ghost use Rattle.arrays.specs.Dictionaries.{entries_read, DictionaryColumn, dictionary_columns, column_of_id, dictionaries_after, dictionary_read, batch_with};
ghost use Rattle.arrays.specs.declared.limits.TheConstants.{MAX_SLOTS};
ghost use Rattle.table_cut.specs.Piece.{pieces_of};
ghost use Rattle.table_cut.specs.CutRows.{joined};
ghost use Rattle.ipc_canonical.specs.Pieces.{IsPieceOf};
ghost use Rattle.ipc_canonical.specs.laws.WorkedCases.{NoRows, NullableIntegers, Dictionary, NoEntries, TwoDictionaries};
ghost use Rattle.ipc_canonical.specs.WrittenBatch.{raw_nodes, written_batch, written_body, IsWritable};
ghost use Rattle.ipc_canonical.specs.Numbered.{replacing};
ghost use Rattle.ipc_canonical.specs.Canonical.{canonical, stream_parts};

use cells::MAX_TABLE_WEIGHT;

/// Worked cases of the canonical stream.
#[tactic(auto, unfolding(crate::specs::Canonical::canonical, crate::specs::Canonical::piece_messages, columns::specs::Built::built, columns::specs::Tests::arrays_at, cells::specs::Dictionary::with_entries))]
pub fn worked_cases()
    ensures no_rows { NoRows }
    ensures nullable_integers { NullableIntegers }
    ensures dictionary { Dictionary }
    ensures no_entries { NoEntries }
    ensures two_dictionaries { TwoDictionaries }
{}

/// Each piece of a table satisfies `IsPieceOf`: in particular, the arrays of its record batch can be built.
pub fn pieces_can_be_built()
    ensures { (t : PlainTable) → IsTable t → AllByRecursion (IsPieceOf t.schema) (pieces_of t) }
{
    columns::rows_can_be_built();
    values::tables_are_joined_and_cut();
}

/// The batch of rows that can be written. `writable`: a message can be framed of it; `checks`: no check refuses its arrays; `arrays`: with their own
/// dictionaries, its arrays are those that the rows were written as.
pub fn written_batches_pass()
    ensures writable { (columns : Columns) (rows : List (List Cell)) → IsWritable columns rows
        → let arrays = built_parts columns rows in IsWritableBatch (length rows) (raw_nodes columns arrays) (buffers_of columns arrays) }
    ensures checks { (columns : Columns) (rows : List (List Cell)) → IsWritable columns rows
        → let arrays = built_parts columns rows in
        first_some (array_checks columns (written_batch columns arrays (length rows)) (written_body columns arrays) arrays) ≡ None }
    ensures arrays { (columns : Columns) (rows : List (List Cell)) → IsWritable columns rows
        → let arrays = built_parts columns rows in
        batch_arrays columns (written_batch columns arrays (length rows)) (written_body columns arrays) (dictionary_arrays columns arrays) ≡ arrays }
{
    columns::written_arrays_pass();
    columns::written_arrays_have_their_shape();
    columns::listed_reads_back();
    ipc_write::buffers_stand_in_their_body();
}

/// The record batch of rows of a table is read back as the arrays it was written from, if the rows before it leave room for its weight.
pub fn written_rows_are_read()
    ensures { (s : PlainSchema) (before : ℕ) (rows : List (List Cell)) → IsWritable (columns_of s.columns) rows → AllPass (is_row s) rows
        → before + table_weight s rows ≤ MAX_TABLE_WEIGHT
        → let arrays = built_parts (columns_of s.columns) rows in
        batch_read s before (written_batch (columns_of s.columns) arrays (length rows)) (written_body (columns_of s.columns) arrays)
        (map (λ t. t.array ∷ []) (dictionaries_of (columns_of s.columns) arrays)) ≡ Ok arrays }
{
    written_batches_pass();
    columns::written_slots_pass();
    columns::built_reads_back();
    columns::dictionaries_are_written_alone();
}

/// The batch of a dictionary's entries can be framed, and is read back as the array it was written from if that has no dictionary of its own.
pub fn written_entries_are_read()
    ensures writable { (t : Typed) → IsBuiltAlone MAX_SLOTS t → length (preorder_all (own_column t)) ≤ MAX_FIELDS
        → IsWritableBatch (slots_in t.array) (raw_nodes (own_column t) (own_array t)) (buffers_of (own_column t) (own_array t)) }
    ensures read { (t : Typed) → IsBuiltAlone MAX_SLOTS t → length (preorder_all (own_column t)) ≤ MAX_FIELDS
        → dictionary_arrays (own_column t) (own_array t) ≡ []
        → entries_read t.column (written_batch (own_column t) (own_array t) (slots_in t.array)) (written_body (own_column t) (own_array t)) ≡ Ok t.array }
{
    columns::written_arrays_have_their_shape();
    columns::written_slots_pass();
    written_batches_pass();
}

/// The dictionaries of a written schema have the ids 0, 1, 2 .. in preorder; and if ids count like this, each id finds its own column.
pub fn written_ids_count_dictionaries()
    ensures ids { (s : PlainSchema) → map (λ c. c.id) (dictionary_columns (raw_schema s)) ≡ range_with_len 0 (ids_of_all (columns_of s.columns)) }
    ensures own { (columns : List DictionaryColumn) → map (λ c. c.id) columns ≡ range_with_len 0 (length columns)
        → AllByRecursion (λ (c : DictionaryColumn). column_of_id c.id columns ≡ Some c) columns }
{}

/// After each dictionary was replaced, only the new arrays are in effect, whatever came before.
pub fn replaced_dictionaries_are_in_effect()
    ensures { (columns : List DictionaryColumn) (before : List DictionaryBatch) (arrays : List Array)
        → map (λ c. c.id) columns ≡ range_with_len 0 (length arrays)
        → dictionaries_after (before ++ replacing 0 arrays) columns ≡ map (λ a. a ∷ []) arrays }
{}

/// A dictionary batch that is not a delta is read with the array of its entries, whatever came before.
pub fn replacing_batches_are_read()
    ensures { (columns : List DictionaryColumn) (before : List DictionaryBatch) (d : RawDictionaryBatch) (body : List ℕ) (c : DictionaryColumn) (a : Array)
        → column_of_id d.id columns ≡ Some c → d.is_delta ≡ false → entries_read c.values d.batch body ≡ Ok a
        → dictionary_read columns before d body ≡ Ok (batch_with d a) }
{}

/// A stream of several lists of rows, each cut into pieces by itself, means the table of all the rows.
pub fn joined_parts_mean_their_table()
    ensures { (s : PlainSchema) (lists : List (List (List Cell))) → IsTable (plain_table s (joined lists))
        → meaning supported_codes (joined (stream_parts s lists)) ≡ Ok (plain_table s (joined lists)) }
{
    arrays::schemas_give_dictionary_columns();
    pieces_can_be_built();
    columns::built_reads_back();
    columns::dictionaries_are_written_alone();
    columns::written_arrays_have_their_shape();
    ipc_write::schema_message_is_read_again();
    ipc_write::dictionary_message_is_read_again();
    ipc_write::batch_message_is_read_again();
    values::tables_are_joined_and_cut();
    written_batches_pass();
    written_entries_are_read();
    written_rows_are_read();
    replaced_dictionaries_are_in_effect();
    replacing_batches_are_read();
    written_ids_count_dictionaries();
}

/// The canonical stream of a table means that table: it is the stream of a single list of rows.
pub fn canonical_means_its_table()
    ensures { (t : PlainTable) → IsTable t → meaning supported_codes (canonical t) ≡ Ok t }
{
    joined_parts_mean_their_table();
}
