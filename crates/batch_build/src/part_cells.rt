// The cells of one column of rows or of structs.
ghost use Rattle.std.specs.Prelude.{◌≡◌, ◌<◌, ◌+◌, ◌++◌, ◌∷◌, [], IfOk, map, drop, vec_len, vec_capacity};
ghost use Rattle.cells.specs.Dictionary.{part_list};
ghost use Rattle.cells.specs.View.{cell};
ghost use Rattle.columns.specs.Built.{first_cell};
ghost use Rattle.columns.specs.Borrowed.{borrowed_cell, borrowed_cells};

use cells::Value;
use std::alloc::{AllocError, Global};
use values::{ValueRef, Values, borrow_value};

// Returns the cell at an index of a row, or a null past its end.
#[tactic(auto, using(crate::proofs::FirstCells::part_found, crate::proofs::FirstCells::part_absent))]
fn cell_at<'a>(row: &Values<'a>, place: usize) -> ValueRef<'a>
    ensures { borrowed_cell result ≡ first_cell (drop place (borrowed_cells row.now)) }
{
    match row.get(place) {
        Some(cell) => cell,
        None => ValueRef::Null,
    }
}

// Adds the cell at an index of a row that is kept as cells: it is borrowed directly into the list, since a `ValueRef` is large.
fn push_stored<'a>(out: &mut Vec<ValueRef<'a>>, cells: &'a [Value], place: usize)
    requires room { vec_len out.old < vec_capacity out.old }
    ensures items { map borrowed_cell out.new.items ≡ map borrowed_cell out.old.items ++ first_cell (drop place (map cell cells.now)) ∷ [] }
    ensures len { vec_len out.new ≡ vec_len out.old + 1 }
    ensures capacity { vec_capacity out.new ≡ vec_capacity out.old }
{
    match cells.get(place) {
        Some(value) => out.push_reserved(borrow_value(value)),
        None => out.push_reserved(ValueRef::Null),
    }
}

// The same, for a row however it is kept.
fn push_cell<'a>(out: &mut Vec<ValueRef<'a>>, row: &Values<'a>, place: usize)
    requires room { vec_len out.old < vec_capacity out.old }
    ensures items { map borrowed_cell out.new.items ≡ map borrowed_cell out.old.items ++ first_cell (drop place (borrowed_cells row.now)) ∷ [] }
    ensures len { vec_len out.new ≡ vec_len out.old + 1 }
    ensures capacity { vec_capacity out.new ≡ vec_capacity out.old }
{
    match row.as_cells() {
        Some(cells) => push_stored(out, cells, place),
        None => out.push_reserved(cell_at(row, place)),
    }
}

/// Makes the cells at an index of the rows.
pub(crate) fn cells_at<'a>(
    alloc: Global,
    place: usize,
    rows: &[Values<'a>],
) -> Result<Vec<ValueRef<'a>>, AllocError>
    ensures { IfOk result (λ cells. map borrowed_cell cells.items ≡ map (λ r. first_cell (drop place r)) (map borrowed_cells rows.now)) }
{
    let mut cells = Vec::with_capacity(alloc, rows.len())?;
    for row in rows {
        push_cell(&mut cells, row, place);
    }
    Ok(cells)
}

// Returns the part of a struct at an index: a null if there is none.
#[tactic(auto, using(cells::specs::laws::Cells::cells_listed))]
fn part_at<'a>(cell: ValueRef<'a>, place: usize) -> ValueRef<'a>
    ensures { borrowed_cell result ≡ first_cell (drop place (part_list (borrowed_cell cell.entry))) }
{
    match cell {
        ValueRef::Struct(parts) => cell_at(&parts, place),
        _ => ValueRef::Null,
    }
}

/// Makes the parts at an index of structs; those of a null struct are nulls.
pub(crate) fn parts<'a>(
    alloc: Global,
    place: usize,
    cells: &[ValueRef<'a>],
) -> Result<Vec<ValueRef<'a>>, AllocError>
    ensures { IfOk result (λ parts. map borrowed_cell parts.items ≡ map (λ r. first_cell (drop place r)) (map part_list (map borrowed_cell cells.now))) }
{
    let mut parts = Vec::with_capacity(alloc, cells.len())?;
    for cell in cells {
        parts.push_reserved(part_at(*cell, place));
    }
    Ok(parts)
}
