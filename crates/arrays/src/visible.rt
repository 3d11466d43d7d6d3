// The checks of visible slots, by spans of slots (docs/definitions/arrays.md). Each takes time for what is visible alone, and no memory.
ghost use Rattle.std.specs.Prelude.{◌≡◌, true, false};
ghost use Rattle.std.specs.List.{list_any};
ghost use Rattle.columns.specs.Sound.{are_sound};
ghost use Rattle.columns.specs.Tests.{every_array};
ghost use Rattle.columns.specs.View.{placed_arrays, fields_of};
ghost use Rattle.columns.specs.Visible.{visible_in, names_no_entry, is_no_text, is_forbidden};
ghost use Rattle.arrays.specs.Entries.{has_bad_entry};

mod indices;
mod joined_spans;
mod may_find;
mod nulls;
mod slot_test;
mod span_list;
mod spans;
mod texts;

use crate::visible::slot_test::SlotTest;
use crate::visible::span_list::SlotSpan;
use crate::visible::spans::any_part;
use arrow_schema::Field;
use columns::{Dictionary, PlacedArray, no_array};

/// F26: a visible slot of arrays of `rows` rows is valid, and its index is negative or past the entries.
pub fn names_no_entry_in(
    fields: &[Field],
    arrays: &[PlacedArray],
    bytes: &[u8],
    dictionaries: &[Dictionary],
    rows: usize,
) -> bool
    requires { are_sound (fields_of fields.now) rows (placed_arrays bytes.now dictionaries.now arrays.now) ≡ true }
    ensures { result ≡ list_any names_no_entry (visible_in (fields_of fields.now) (placed_arrays bytes.now dictionaries.now arrays.now) rows) }
{
    let none = no_array();
    any_part(
        SlotTest::NoEntry,
        fields,
        arrays,
        bytes,
        dictionaries,
        &[SlotSpan {
            from: 0,
            count: rows,
        }],
        &none,
    )
}

/// F15: a visible slot is a text that is not UTF-8. Those of dictionaries were looked at where their batches were read.
pub fn has_bad_text(
    fields: &[Field],
    arrays: &[PlacedArray],
    bytes: &[u8],
    dictionaries: &[Dictionary],
    rows: usize,
) -> bool
    requires sound { are_sound (fields_of fields.now) rows (placed_arrays bytes.now dictionaries.now arrays.now) ≡ true }
    requires entries { list_any has_bad_entry (every_array (fields_of fields.now) (placed_arrays bytes.now dictionaries.now arrays.now)) ≡ false }
    ensures { result ≡ list_any is_no_text (visible_in (fields_of fields.now) (placed_arrays bytes.now dictionaries.now arrays.now) rows) }
{
    let none = no_array();
    any_part(
        SlotTest::NotUtf8,
        fields,
        arrays,
        bytes,
        dictionaries,
        &[SlotSpan {
            from: 0,
            count: rows,
        }],
        &none,
    )
}

/// F23: a visible slot is a null, in a column that takes none.
pub fn has_forbidden_null(
    fields: &[Field],
    arrays: &[PlacedArray],
    bytes: &[u8],
    dictionaries: &[Dictionary],
    rows: usize,
) -> bool
    requires { are_sound (fields_of fields.now) rows (placed_arrays bytes.now dictionaries.now arrays.now) ≡ true }
    ensures { result ≡ list_any is_forbidden (visible_in (fields_of fields.now) (placed_arrays bytes.now dictionaries.now arrays.now) rows) }
{
    let none = no_array();
    any_part(
        SlotTest::Forbidden,
        fields,
        arrays,
        bytes,
        dictionaries,
        &[SlotSpan {
            from: 0,
            count: rows,
        }],
        &none,
    )
}
