// What the definitions say. The functions do nothing: their contracts are the laws.
ghost use Rattle.std.specs.Prelude.{◌≡◌, ◌≤◌, ◌<◌, ◌+◌, ℕ, true, false, List, map, Ok};
ghost use Rattle.std.specs.List.{list_all, list_any, AllPass};
ghost use Rattle.arrow_schema.specs.Column.{Columns, PlainSchema, columns_of};
ghost use Rattle.arrow_schema.specs.Limits.{has_flat_dictionary, IsWithinLimits};
ghost use Rattle.arrow_schema.specs.Preorder.{every_column};
ghost use Rattle.cells.specs.Cell.{Cell};
ghost use Rattle.cells.specs.Dictionary.{dictionaries_fit};
ghost use Rattle.cells.specs.Row.{is_row};
ghost use Rattle.columns.specs.Array.{Array, Arrays};
ghost use Rattle.columns.specs.CellAt.{part_cells, rows_in};
ghost use Rattle.columns.specs.Texts.{have_utf8_texts};
ghost use Rattle.columns.specs.View.{placed_arrays};
ghost use Rattle.columns.specs.declared.array.Dictionary.{Dictionary};
ghost use Rattle.columns.specs.declared.array.PlacedArray.{PlacedArray};
ghost use Rattle.ipc_message.specs.Checks.{has_two_types, is_bad, is_dictionary_of_nested};
ghost use Rattle.ipc_message.specs.Convert.{plain_schema_of};
ghost use Rattle.ipc_message.specs.Fields.{every_field};
ghost use Rattle.ipc_message.specs.Raw.{RawBatch, RawDictionaryBatch, RawSchema};
ghost use Rattle.dictionary.specs.InEffect.{DictionaryBatch};
ghost use Rattle.arrays.specs.Bytes.{are_bytes, has_bytes, have_bytes};
ghost use Rattle.arrays.specs.Checks.{batch_read, batch_weight};
ghost use Rattle.arrays.specs.Dictionaries.{DictionaryColumn, dictionary_columns, dictionary_read, dictionaries_after};
ghost use Rattle.arrays.specs.Known.{are_readable, dictionary_values, is_readable_batch, HaveOneType};
ghost use Rattle.arrays.specs.Shared.{AreRowsSharing, ShareEntries};

use cells::MAX_TABLE_WEIGHT;

/// What is read of a dictionary batch is readable; and where all batches so far are, so are the dictionaries that a record batch takes after them.
pub fn read_dictionaries_are_readable()
    ensures batch { (columns : List DictionaryColumn) (before : List DictionaryBatch) (d : RawDictionaryBatch) (body : List ℕ) (b : DictionaryBatch)
        → dictionary_read columns before d body ≡ Ok b → is_readable_batch columns b ≡ true }
    ensures known { (columns : List DictionaryColumn) (batches : List DictionaryBatch)
        → HaveOneType columns → list_all (is_readable_batch columns) batches ≡ true
        → are_readable (map (λ c. c.values) columns) (dictionaries_after batches columns) ≡ true }
{}

/// What is read of a dictionary batch has bytes where its body has; and where all batches so far have, so have the dictionaries in effect after them.
pub fn read_dictionaries_have_bytes()
    ensures batch { (columns : List DictionaryColumn) (before : List DictionaryBatch) (d : RawDictionaryBatch) (body : List ℕ) (b : DictionaryBatch)
        → are_bytes body ≡ true → dictionary_read columns before d body ≡ Ok b → has_bytes b.array ≡ true }
    ensures known { (columns : List DictionaryColumn) (batches : List DictionaryBatch)
        → list_all (λ b. has_bytes b.array) batches ≡ true → list_all (list_all has_bytes) (dictionaries_after batches columns) ≡ true }
{}

/// The texts of each row of a batch that was read are UTF-8, at every level, where the values of dictionaries are flat.
pub fn read_texts_are_utf8()
    ensures { (s : PlainSchema) (before : ℕ) (b : RawBatch) (body : List ℕ) (known : List (List Array)) (arrays : Arrays) (i : ℕ)
        → list_all has_flat_dictionary (every_column s) ≡ true → batch_read s before b body known ≡ Ok arrays → i < b.length
        → have_utf8_texts (part_cells (columns_of s.columns) arrays i) ≡ true }
{}

/// The rows of a record batch that was read are rows that a table of its schema takes, and with those before they weigh no more than a table may.
pub fn read_rows_are_rows()
    ensures { (s : PlainSchema) (before : ℕ) (b : RawBatch) (body : List ℕ) (known : List (List Array)) (arrays : Arrays) → IsWithinLimits s
        → are_bytes body ≡ true → list_all (list_all has_bytes) known ≡ true → are_readable (dictionary_values (columns_of s.columns)) known ≡ true
        → batch_read s before b body known ≡ Ok arrays
        → AllPass (is_row s) (rows_in (columns_of s.columns) arrays b.length) × (before + batch_weight s b.length arrays ≤ MAX_TABLE_WEIGHT) }
{}

/// Where rows are of arrays that are in bytes, and all have the same entries in each dictionary whose indices can name only some, no dictionary column has
/// more values in them than its indices can name.
pub fn shared_entries_fit()
    ensures fit { (s : PlainSchema) (own : Arrays) (rows : List (List Cell)) → IsWithinLimits s → AreRowsSharing (columns_of s.columns) own rows
        → dictionaries_fit s rows ≡ true }
    ensures own { (columns : Columns) (arrays : Arrays) → ShareEntries columns arrays arrays }
    ensures bytes { (bytes : List ℕ) (dictionaries : List Dictionary) (arrays : List PlacedArray)
        → are_bytes bytes ≡ true → have_bytes (placed_arrays bytes dictionaries arrays) ≡ true }
{}

/// The dictionaries of a schema that passes its checks are those of its columns, in preorder; and all of one id have values of one type.
pub fn schemas_give_dictionary_columns()
    ensures values { (s : RawSchema) → list_any is_bad (every_field s) ≡ false → list_any is_dictionary_of_nested (every_field s) ≡ false
        → dictionary_values (columns_of (plain_schema_of s).columns) ≡ map (λ c. c.values) (dictionary_columns s) }
    ensures one_type { (s : RawSchema) → list_any is_bad (every_field s) ≡ false → list_any is_dictionary_of_nested (every_field s) ≡ false
        → has_two_types (every_field s) ≡ false → HaveOneType (dictionary_columns s) }
{}
