// The lines of the rows of a record batch that a mask selects.
ghost use Rattle.std.specs.Prelude.{◌≡◌, ◌++◌, ◌+◌, ◌*◌, ◌^◌, ◌≤◌, ◌<◌, true, length, map, take, IfOk, OnOk};
ghost use Rattle.std.specs.List.{range_with_len};
ghost use Rattle.arrow_schema.specs.View.{column_of};
ghost use Rattle.columns.specs.View.{fields_of};
ghost use Rattle.query.specs.BatchArrays.{rows_of, is_readable};
ghost use Rattle.query.specs.Choice.{rows_set};
ghost use Rattle.query.specs.ObjectLine.{lines_text};
ghost use Rattle.query.specs.inner.ColumnSlots.{slot_columns, slot_row, AreReadable};

use crate::batch_arrays::BatchArrays;
use crate::column_slots::{ColumnSlots, columns_of};
use crate::row_form::RowForm;
use crate::set_rows::next_set;
use crate::slot_lines::push_slot_lines;
use arrow_schema::Field;
use columns::no_array;
use std::alloc::{AllocError, Global};

// Appends the lines of the first slots whose bits are set, at most `most`, and returns their number. The bit of the first slot is at `start`.
fn push_set_slots(
    alloc: Global,
    text: &mut Vec<u8>,
    form: RowForm,
    columns: &[ColumnSlots<'_>],
    slots: usize,
    mask: &[u8],
    start: usize,
    most: u64,
) -> Result<u64, AllocError>
    requires readable { AreReadable form.dates columns.now slots }
    requires within { start + slots ≤ 8 * length mask.now }
    requires few { start + slots < 2 ^ 64 }
    ensures lines { OnOk result (text.new.items ≡ text.old.items
        ++ lines_text form (slot_columns columns.now) (take most (rows_set mask.now start (map (slot_row columns.now) (range_with_len 0 slots))))) }
    ensures count { IfOk result (λ n. n ≡ length (take most (rows_set mask.now start (map (slot_row columns.now) (range_with_len 0 slots))))) }
{
    let end = start + slots;
    let mut left = most;
    let mut next = next_set(mask, start, end);
    while next < end && left > 0 {
        let stop = bitmap::run_end(mask, next, end);
        let len = ((stop - next) as u64).min(left) as usize;
        push_slot_lines(alloc, text, form, columns, next - start, len)?;
        left -= len as u64;
        next = next_set(mask, next + len, end);
    }
    Ok(most - left)
}

/// Appends a line in this form for each row of a record batch whose bit is set, at most `most`, and returns the number of lines. The bit of its first
/// row is at `start`. A line is the one that [`push_line_in`](crate::push_line_in) appends, and a line feed.
///
/// # Errors
/// `AllocError` if memory is refused: some lines may be appended.
pub fn push_set_lines(
    alloc: Global,
    text: &mut Vec<u8>,
    form: RowForm,
    fields: &[Field],
    batch: BatchArrays<'_>,
    mask: &[u8],
    start: usize,
    most: u64,
) -> Result<u64, AllocError>
    requires readable { is_readable (fields_of fields.now) batch ≡ true }
    requires within { start + batch.rows ≤ 8 * length mask.now }
    requires few { start + batch.rows < 2 ^ 64 }
    ensures lines { OnOk result (text.new.items ≡ text.old.items
        ++ lines_text form (map column_of fields.now) (take most (rows_set mask.now start (rows_of (fields_of fields.now) batch.entry)))) }
    ensures count { IfOk result (λ n. n ≡ length (take most (rows_set mask.now start (rows_of (fields_of fields.now) batch.entry)))) }
{
    let none = no_array();
    let columns = columns_of(alloc, form.dates, fields, batch, &none)?;
    push_set_slots(alloc, text, form, &columns, batch.rows, mask, start, most)
}
