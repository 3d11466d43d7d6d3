// The lines of the rows of a record batch, value by value from its columns, without borrowing a row.
ghost use Rattle.std.specs.Prelude.{◌≡◌, ◌++◌, ◌+◌, ◌<◌, ◌^◌, codes, map, OnOk};
ghost use Rattle.std.specs.List.{range_with_len};
ghost use Rattle.json.specs.Print.{quoted};
ghost use Rattle.arrow_schema.specs.Parts.{name_of_column};
ghost use Rattle.arrow_schema.specs.View.{column_of};
ghost use Rattle.query.specs.ObjectLine.{line_in, lines_text};
ghost use Rattle.query.specs.inner.ColumnSlots.{slot_columns, slot_cells, slot_row, AreReadable};
ghost use Rattle.query.specs.inner.SlotLines.{opening, closing, separator, lead, rest_of_line};

use crate::column_slots::ColumnSlots;
use crate::line::{push_bytes, push_text};
use crate::row_form::{RowForm, RowShape};
use crate::slot_value::push_slot;
use arrow_schema::Field;
use std::alloc::{AllocError, Global};

pub(crate) fn push_opening(out: &mut Vec<u8>, shape: RowShape) -> Result<(), AllocError>
    ensures { OnOk result (out.new.items ≡ out.old.items ++ opening shape) }
{
    match shape {
        RowShape::Array => push_bytes(out, b"["),
        RowShape::Object => push_bytes(out, b"{"),
    }
}

fn push_closing(out: &mut Vec<u8>, shape: RowShape) -> Result<(), AllocError>
    ensures { OnOk result (out.new.items ≡ out.old.items ++ (closing shape ++ codes "\n")) }
{
    match shape {
        RowShape::Array => push_bytes(out, b"]\n"),
        RowShape::Object => push_bytes(out, b"}\n"),
    }
}

fn push_separator(out: &mut Vec<u8>, place: usize) -> Result<(), AllocError>
    ensures { OnOk result (out.new.items ≡ out.old.items ++ separator place) }
{
    if place > 0 {
        return push_bytes(out, b",");
    }
    Ok(())
}

fn push_name(alloc: Global, out: &mut Vec<u8>, field: &Field) -> Result<(), AllocError>
    ensures { OnOk result (out.new.items ≡ out.old.items ++ (quoted (name_of_column (column_of field.now)) ++ codes ":")) }
{
    push_text(alloc, out, field.name.as_str())?;
    push_bytes(out, b":")
}

/// Appends what comes before the value of the column at a place.
pub(crate) fn push_lead(
    alloc: Global,
    out: &mut Vec<u8>,
    shape: RowShape,
    place: usize,
    field: &Field,
) -> Result<(), AllocError>
    ensures { OnOk result (out.new.items ≡ out.old.items ++ lead shape place (column_of field.now)) }
{
    push_separator(out, place)?;
    match shape {
        RowShape::Array => Ok(()),
        RowShape::Object => push_name(alloc, out, field),
    }
}

// Appends the values at a slot, each with what comes before it.
fn push_slots(
    alloc: Global,
    out: &mut Vec<u8>,
    form: RowForm,
    columns: &[ColumnSlots<'_>],
    slot: usize,
) -> Result<(), AllocError>
    requires { AreReadable form.dates columns.now (slot + 1) }
    ensures { OnOk result (out.new.items ≡ out.old.items ++ rest_of_line form 0 (slot_columns columns.now) (slot_cells columns.now slot)) }
{
    for place in 0..columns.len() {
        let column = &columns[place];
        push_lead(alloc, out, form.shape, place, column.field)?;
        push_slot(alloc, out, form.dates, column, slot)?;
    }
    Ok(())
}

// Appends the line of the row at a slot.
fn push_slot_line(
    alloc: Global,
    out: &mut Vec<u8>,
    form: RowForm,
    columns: &[ColumnSlots<'_>],
    slot: usize,
) -> Result<(), AllocError>
    requires { AreReadable form.dates columns.now (slot + 1) }
    ensures { OnOk result (out.new.items ≡ out.old.items ++ (line_in form (slot_columns columns.now) (slot_row columns.now slot) ++ codes "\n")) }
{
    push_opening(out, form.shape)?;
    push_slots(alloc, out, form, columns, slot)?;
    push_closing(out, form.shape)
}

/// Appends the lines of the rows at some slots, from one on.
pub(crate) fn push_slot_lines(
    alloc: Global,
    out: &mut Vec<u8>,
    form: RowForm,
    columns: &[ColumnSlots<'_>],
    from: usize,
    len: usize,
) -> Result<(), AllocError>
    requires readable { AreReadable form.dates columns.now (from + len) }
    requires ends { from + len < 2 ^ 64 }
    ensures { OnOk result (out.new.items ≡ out.old.items ++ lines_text form (slot_columns columns.now) (map (slot_row columns.now) (range_with_len from len))) }
{
    for slot in from..from + len {
        push_slot_line(alloc, out, form, columns, slot)?;
    }
    Ok(())
}
