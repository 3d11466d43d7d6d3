// Laws of the definitions.
ghost use Rattle.std.specs.Prelude.{◌≡◌, ◌≤◌, ◌==◌, ◌++◌, ◌+◌, ◌*◌, ℕ, true, false, not, List, [], ◌∷◌, map, length, take, sum_by};
ghost use Rattle.std.specs.List.{AllByRecursion, AllPass, list_all, list_any};
ghost use Rattle.arrow_schema.specs.Column.{Column, Columns, PlainSchema, columns_of};
ghost use Rattle.arrow_schema.specs.Limits.{IsWithinLimits, has_flat_dictionary};
ghost use Rattle.arrow_schema.specs.Preorder.{preorder_all};
ghost use Rattle.cells.specs.Cell.{Cell, cells_of};
ghost use Rattle.cells.specs.Dictionary.{dictionaries_fit};
ghost use Rattle.cells.specs.Fit.{each_fits};
ghost use Rattle.cells.specs.Row.{is_row};
ghost use Rattle.cells.specs.Weight.{table_weight};
ghost use Rattle.columns.specs.Alone.{cells_weight, own_column, own_array, IsBuiltAlone};
ghost use Rattle.columns.specs.Array.{Arrays, no_array, array_list, slots_in};
ghost use Rattle.columns.specs.Buffers.{nodes_of, buffers_of, null_count, dictionaries_of};
ghost use Rattle.columns.specs.FromBuffers.{arrays_from};
ghost use Rattle.columns.specs.Layouts.{HaveLayouts, dictionary_arrays};
ghost use Rattle.columns.specs.Buildable.{can_build, can_build_rows};
ghost use Rattle.columns.specs.Built.{built, built_parts};
ghost use Rattle.columns.specs.CellAt.{cells_in, rows_in};
ghost use Rattle.columns.specs.Tests.{every_array, is_short, is_unordered, counts_wrong, has_short_child};
ghost use Rattle.columns.specs.Visible.{visible_in, names_no_entry, is_no_text, is_forbidden};
ghost use Rattle.columns.specs.Places.{within};
ghost use Rattle.columns.specs.View.{array_in, arrays_in, arrays_numbered};
ghost use Rattle.columns.specs.Within.{ends_within, is_placed_within};
ghost use Rattle.columns.specs.declared.array.Dictionary.{Dictionary};
ghost use Rattle.columns.specs.declared.array.DictionaryPart.{DictionaryPart};
ghost use Rattle.columns.specs.declared.array.PlacedArray.{PlacedArray};
ghost use Rattle.columns.specs.declared.span.Span.{Span};
ghost use Rattle.columns.specs.laws.WorkedCases.{Integers, PaddedBuffers, RightCount, WrongCount, Texts, Booleans, FixedBinaries, LargeTexts, Dates, Timestamps, Lists, SoundLists, FixedLists, Structs, HiddenNull, VisibleNull, Dictionaries, Replaced, Appended, NullBeforeDictionary, IndexBeforeDictionary, NegativeIndex, NullEntry, WrittenLists, WrittenFixedLists, WrittenStructs, WrittenDictionaries, WrittenWithoutEntries, ReadAgain};

use cells::MAX_TABLE_WEIGHT;

/// The worked examples of the definitions.
#[tactic(auto, unfolding(crate::specs::CellAt::cell_at, crate::specs::CellAt::kind_cell, crate::specs::CellAt::part_cells, crate::specs::Visible::visible, crate::specs::Visible::visible_below, crate::specs::Visible::visible_parts, crate::specs::Visible::visible_in, crate::specs::Sound::is_sound, crate::specs::Sound::has_sound_children, crate::specs::Tests::arrays_at, crate::specs::Built::built))]
pub fn worked_cases()
    ensures integers { Integers }
    ensures padded_buffers { PaddedBuffers }
    ensures right_count { RightCount }
    ensures wrong_count { WrongCount }
    ensures texts { Texts }
    ensures booleans { Booleans }
    ensures fixed_binaries { FixedBinaries }
    ensures large_texts { LargeTexts }
    ensures dates { Dates }
    ensures timestamps { Timestamps }
    ensures lists { Lists }
    ensures sound_lists { SoundLists }
    ensures fixed_lists { FixedLists }
    ensures structs { Structs }
    ensures hidden_null { HiddenNull }
    ensures visible_null { VisibleNull }
    ensures dictionaries { Dictionaries }
    ensures replaced { Replaced }
    ensures appended { Appended }
    ensures null_before_dictionary { NullBeforeDictionary }
    ensures index_before_dictionary { IndexBeforeDictionary }
    ensures negative_index { NegativeIndex }
    ensures null_entry { NullEntry }
    ensures written_lists { WrittenLists }
    ensures written_fixed_lists { WrittenFixedLists }
    ensures written_structs { WrittenStructs }
    ensures written_dictionaries { WrittenDictionaries }
    ensures written_without_entries { WrittenWithoutEntries }
    ensures read_again { ReadAgain }
{}

/// The array that is built from cells reads back as these cells, and the arrays that are built from rows read back as these rows.
pub fn built_reads_back()
    ensures cells { (c : Column) (cells : List Cell) → can_build c cells ≡ true → cells_in c (built c cells) ≡ cells }
    ensures rows { (columns : Columns) (rows : List (List Cell)) → can_build_rows columns rows ≡ true
        → rows_in columns (built_parts columns rows) (length rows) ≡ rows }
{
    bitmap::packed_reads_back();
    cells::entries_are_the_distinct_values();
    cells::one_entry_is_one_value();
}

/// Arrays that have the layouts of their columns are read back from their nodes, buffers and dictionaries; and built arrays have these layouts.
pub fn listed_reads_back()
    ensures arrays { (columns : Columns) (arrays : Arrays) → HaveLayouts columns arrays
        → arrays_from columns (nodes_of columns arrays) (buffers_of columns arrays) (dictionary_arrays columns arrays) ≡ arrays }
    ensures written { (columns : Columns) (rows : List (List Cell)) → HaveLayouts columns (built_parts columns rows) }
{}

/// Rows that a table accepts can be built if their dictionaries have room for the values of all of them.
pub fn rows_can_be_built()
    ensures { (s : PlainSchema) (rows : List (List Cell)) → IsWithinLimits s → AllPass (is_row s) rows → table_weight s rows ≤ MAX_TABLE_WEIGHT
        → dictionaries_fit s rows ≡ true → can_build_rows (columns_of s.columns) rows ≡ true }
{}

/// The arrays that are built from rows pass the tests of an array by itself: no buffer is short, no offset is out of order, and the null counts are
/// right.
pub fn written_arrays_pass()
    ensures long { (columns : Columns) (rows : List (List Cell)) → can_build_rows columns rows ≡ true
        → list_any (λ t. is_short t.column t.array) (every_array columns (built_parts columns rows)) ≡ false }
    ensures ordered { (columns : Columns) (rows : List (List Cell)) → can_build_rows columns rows ≡ true
        → list_any (λ t. is_unordered t.column t.array) (every_array columns (built_parts columns rows)) ≡ false }
    ensures counted { (columns : Columns) (arrays : Arrays)
        → list_any (λ t. counts_wrong (null_count t.column t.array) t.column t.array) (every_array columns arrays) ≡ false }
{}

/// The sizes of built arrays. `slots`: each array of a batch has one slot for each row; `children`: no child is too short; `nodes`, `buffers`: their
/// numbers depend on the columns alone; `few_nodes`, `few_buffers`: at most one node for each column at any level, and at most three buffers for each
/// node; `weight`: the cells weigh no more than their table; `few_slots`, `few_bytes`: no array has more slots than the cells weigh, nor more bytes
/// than ten times that plus 8.
pub fn written_arrays_have_their_shape()
    ensures slots { (columns : Columns) (rows : List (List Cell))
        → list_any (λ a. not (slots_in a == length rows)) (array_list (built_parts columns rows)) ≡ false }
    ensures children { (columns : Columns) (rows : List (List Cell)) → can_build_rows columns rows ≡ true
        → list_any (λ t. has_short_child t.column t.array) (every_array columns (built_parts columns rows)) ≡ false }
    ensures nodes { (columns : Columns) (arrays : Arrays) → length (nodes_of columns arrays) ≡ length (nodes_of columns no_array) }
    ensures buffers { (columns : Columns) (arrays : Arrays) → length (buffers_of columns arrays) ≡ length (buffers_of columns no_array) }
    ensures few_nodes { (columns : Columns) (arrays : Arrays) → length (nodes_of columns arrays) ≤ length (preorder_all columns) }
    ensures few_buffers { (columns : Columns) (arrays : Arrays) → length (buffers_of columns arrays) ≤ 3 * length (nodes_of columns arrays) }
    ensures weight { (s : PlainSchema) (rows : List (List Cell)) → cells_weight (columns_of s.columns) rows ≤ table_weight s rows }
    ensures few_slots { (most : ℕ) (columns : Columns) (rows : List (List Cell)) → can_build_rows columns rows ≡ true
        → cells_weight columns rows ≤ most
        → AllByRecursion (λ t. slots_in t.array ≤ most) (every_array columns (built_parts columns rows)) }
    ensures few_bytes { (most : ℕ) (columns : Columns) (rows : List (List Cell)) → can_build_rows columns rows ≡ true
        → cells_weight columns rows ≤ most
        → sum_by length (buffers_of columns (built_parts columns rows)) ≤ length (nodes_of columns (built_parts columns rows)) * (10 * most + 8) }
{}

/// The dictionaries of built arrays. `known`: a reader gets exactly these, each with one array; `alone`: each is written as a batch of its entries,
/// one to a row, which can be built, fits the column and weighs no more than the cells; `flat`: none has a dictionary of its own.
pub fn dictionaries_are_written_alone()
    ensures known { (columns : Columns) (rows : List (List Cell)) → can_build_rows columns rows ≡ true
        → dictionary_arrays columns (built_parts columns rows) ≡ map (λ t. t.array ∷ []) (dictionaries_of columns (built_parts columns rows)) }
    ensures alone { (most : ℕ) (columns : Columns) (rows : List (List Cell)) → can_build_rows columns rows ≡ true → cells_weight columns rows ≤ most
        → AllByRecursion (IsBuiltAlone most) (dictionaries_of columns (built_parts columns rows)) }
    ensures flat { (columns : Columns) (rows : List (List Cell)) → AllPass has_flat_dictionary (preorder_all columns) → can_build_rows columns rows ≡ true
        → AllByRecursion (λ t. dictionary_arrays (own_column t) (own_array t) ≡ []) (dictionaries_of columns (built_parts columns rows)) }
{}

/// No visible slot of arrays that are built from fitting rows is refused: each valid index names an entry, each string is UTF-8, and no null is
/// in a column that is not nullable.
pub fn written_slots_pass()
    ensures indices { (columns : Columns) (rows : List (List Cell)) → can_build_rows columns rows ≡ true
        → list_all (λ row. each_fits columns (cells_of row)) rows ≡ true
        → list_any names_no_entry (visible_in columns (built_parts columns rows) (length rows)) ≡ false }
    ensures texts { (columns : Columns) (rows : List (List Cell)) → can_build_rows columns rows ≡ true
        → list_all (λ row. each_fits columns (cells_of row)) rows ≡ true
        → list_any is_no_text (visible_in columns (built_parts columns rows) (length rows)) ≡ false }
    ensures nulls { (columns : Columns) (rows : List (List Cell)) → can_build_rows columns rows ≡ true
        → list_all (λ row. each_fits columns (cells_of row)) rows ≡ true
        → list_any is_forbidden (visible_in columns (built_parts columns rows) (length rows)) ≡ false }
{
    bitmap::packed_reads_back();
    cells::entries_are_the_distinct_values();
    cells::one_entry_is_one_value();
}

/// An array that was read stays the same when bytes are appended, as long as the dictionaries keep what it knows of them.
pub fn longer_bytes_keep_arrays()
    ensures spans { (bytes more : List ℕ) (span : Span) → ends_within (length bytes) span ≡ true → within (bytes ++ more) span ≡ within bytes span }
    ensures arrays { (bytes more : List ℕ) (old new : List Dictionary) (a : PlacedArray)
        → ((part : DictionaryPart) → part.count ≤ length (arrays_numbered old part.number)
        → take part.count (arrays_numbered new part.number) ≡ take part.count (arrays_numbered old part.number))
        → is_placed_within (length bytes) old a ≡ true → array_in (bytes ++ more) (arrays_in (bytes ++ more) new) a
        ≡ array_in bytes (arrays_in bytes old) a }
{}
