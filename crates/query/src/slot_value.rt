// Prints the value at a slot of a column of a batch as JSON. An integer, a date, and a string without an escape, is printed from the bytes of the
// array, without borrowing a value.
ghost use Rattle.std.specs.Prelude.{◌≡◌, ◌++◌, ◌<◌, ◌≤◌, true, codes, length, take, OnOk};
ghost use Rattle.arrow_schema.specs.View.{column_of};
ghost use Rattle.columns.specs.Array.{slots_in};
ghost use Rattle.columns.specs.CellAt.{cell_at};
ghost use Rattle.columns.specs.Sound.{is_sound};
ghost use Rattle.columns.specs.Texts.{has_utf8_texts};
ghost use Rattle.columns.specs.View.{view_array};
ghost use Rattle.query.specs.Line.{json_of};
ghost use Rattle.query.specs.inner.ColumnSlots.{AreBuffers};
ghost use Rattle.query.specs.Shown.{shown_cell};
ghost use Rattle.query.specs.inner.Slots.{number_or_null, date_or_null};

use crate::column_slots::{Buffers, ColumnSlots};
use crate::first_bytes::FirstBytes;
use crate::line::{push_bytes, push_few_in_quotes, push_in_quotes, push_number};
use crate::shown::{push_date, push_shown};
use civil_days::{DateColumn, DateForm};
use columns::value;
use std::alloc::{AllocError, Global};

// Appends a number or a null.
fn push_integer(out: &mut Vec<u8>, number: Option<i128>) -> Result<(), AllocError>
    ensures { OnOk result (out.new.items ≡ out.old.items ++ json_of (number_or_null number)) }
{
    match number {
        Some(number) => push_number(out, number),
        None => push_bytes(out, b"null"),
    }
}

// Appends a date or a null.
fn push_date_or_null(
    out: &mut Vec<u8>,
    column: DateColumn,
    number: Option<i128>,
) -> Result<(), AllocError>
    ensures { OnOk result (out.new.items ≡ out.old.items ++ json_of (date_or_null column number)) }
{
    match number {
        Some(number) => push_date(out, column, number),
        None => push_bytes(out, b"null"),
    }
}

// Appends the value at a slot, borrowed from the array.
fn push_other(
    alloc: Global,
    out: &mut Vec<u8>,
    dates: DateForm,
    column: &ColumnSlots<'_>,
    slot: usize,
) -> Result<(), AllocError>
    requires sound { is_sound (column_of column.now.field.now) (view_array column.now.view) ≡ true }
    requires within { slot < slots_in (view_array column.now.view) }
    requires texts { has_utf8_texts (cell_at (column_of column.now.field.now) (view_array column.now.view) slot) ≡ true }
    ensures { OnOk result (out.new.items ≡ out.old.items ++ json_of (shown_cell dates (column_of column.now.field.now) (cell_at (column_of column.now.field.now) (view_array column.now.view) slot))) }
{
    push_shown(
        alloc,
        out,
        dates,
        column.field,
        value(column.field, column.view, slot),
    )
}

// Appends the first of some bytes between quotes.
#[inline]
fn push_first_bytes(out: &mut Vec<u8>, text: FirstBytes<'_>) -> Result<(), AllocError>
    requires { text.size ≤ length text.bytes.now }
    ensures { OnOk result (out.new.items ≡ out.old.items ++ (codes "\"" ++ take text.entry.size text.entry.bytes.now ++ codes "\"")) }
{
    if text.size <= 16 && text.bytes.len() >= 16 {
        return push_few_in_quotes(out, text.bytes, text.size);
    }
    push_in_quotes(out, &text.bytes[..text.size])
}

/// Appends the value at a slot.
pub(crate) fn push_slot(
    alloc: Global,
    out: &mut Vec<u8>,
    dates: DateForm,
    column: &ColumnSlots<'_>,
    slot: usize,
) -> Result<(), AllocError>
    requires buffers { AreBuffers dates (column_of column.now.field.now) (view_array column.now.view) column.now.buffers }
    requires sound { is_sound (column_of column.now.field.now) (view_array column.now.view) ≡ true }
    requires within { slot < slots_in (view_array column.now.view) }
    requires texts { has_utf8_texts (cell_at (column_of column.now.field.now) (view_array column.now.view) slot) ≡ true }
    ensures { OnOk result (out.new.items ≡ out.old.items ++ json_of (shown_cell dates (column_of column.now.field.now) (cell_at (column_of column.now.field.now) (view_array column.now.view) slot))) }
{
    match column.buffers {
        Buffers::Integers(buffers) => push_integer(out, buffers.number(slot)),
        Buffers::Dates(date, buffers) => push_date_or_null(out, date, buffers.number(slot)),
        Buffers::Texts(buffers) => match buffers.plain_text(slot) {
            Some(text) => push_first_bytes(out, text),
            None => push_other(alloc, out, dates, column, slot),
        },
        Buffers::Others => push_other(alloc, out, dates, column, slot),
    }
}
