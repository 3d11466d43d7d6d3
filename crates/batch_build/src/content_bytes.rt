// The bytes and offsets of strings and binaries.
ghost use Rattle.std.specs.Prelude.{◌≡◌, true, IfOk, length, map};
ghost use Rattle.std.specs.List.{flat_map};
ghost use Rattle.cells.specs.Dictionary.{item_list};
ghost use Rattle.columns.specs.Buildable.{contents_fit, items_fit, large_offset};
ghost use Rattle.columns.specs.Built.{contents_of, list_offsets, offsets_of};
ghost use Rattle.columns.specs.Offsets.{width_of};
ghost use Rattle.columns.specs.Borrowed.{borrowed_cell};

use crate::widths::offset_size;
use columns::{OffsetWidth, push_offset};
use std::alloc::{AllocError, Global};
use values::ValueRef;

// Returns the bytes of a string or binary: none for any other value.
fn contents_of<'a>(cell: ValueRef<'a>) -> &'a [u8]
    ensures { result.now ≡ contents_of (borrowed_cell cell.entry) }
{
    match cell {
        ValueRef::Text(text) => text.as_bytes(),
        ValueRef::Bytes(bytes) => bytes,
        _ => &[],
    }
}

/// Makes the bytes of all strings or binaries, one after another; a null has none.
pub(crate) fn contents(alloc: Global, cells: &[ValueRef<'_>]) -> Result<Vec<u8>, AllocError>
    ensures { IfOk result (λ bytes. bytes.items ≡ flat_map contents_of (map borrowed_cell cells.now)) }
{
    let mut contents = Vec::new(alloc);
    for cell in cells {
        contents.extend_from_slice(contents_of(*cell))?;
    }
    Ok(contents)
}

/// Makes the offsets of strings or binaries: 0, and then the end of each.
pub(crate) fn content_offsets(
    alloc: Global,
    width: OffsetWidth,
    cells: &[ValueRef<'_>],
) -> Result<Vec<u8>, AllocError>
    requires { contents_fit large_offset (map borrowed_cell cells.now) ≡ true }
    ensures { IfOk result (λ bytes. bytes.items ≡ offsets_of (width_of width) (map (λ c. length (contents_of c)) (map borrowed_cell cells.now))) }
{
    let size = cells
        .len()
        .saturating_add(1)
        .saturating_mul(offset_size(width));
    let mut offsets = Vec::with_capacity(alloc, size)?;
    let mut end = 0;
    for cell in cells {
        push_offset(&mut offsets, width, end)?;
        end += contents_of(*cell).len() as u64;
    }
    push_offset(&mut offsets, width, end)?;
    Ok(offsets)
}

#[tactic(auto, using(cells::specs::laws::Cells::cells_listed))]
fn item_count(cell: ValueRef<'_>) -> usize
    ensures { result ≡ length (item_list (borrowed_cell cell.entry)) }
{
    match cell {
        ValueRef::List(items) => items.len(),
        _ => 0,
    }
}

/// Makes the offsets of lists: 0, and then the end of the items of each.
pub(crate) fn item_offsets(
    alloc: Global,
    width: OffsetWidth,
    cells: &[ValueRef<'_>],
) -> Result<Vec<u8>, AllocError>
    requires { items_fit large_offset (map borrowed_cell cells.now) ≡ true }
    ensures { IfOk result (λ bytes. bytes.items ≡ list_offsets (width_of width) (map borrowed_cell cells.now)) }
{
    let size = cells
        .len()
        .saturating_add(1)
        .saturating_mul(offset_size(width));
    let mut offsets = Vec::with_capacity(alloc, size)?;
    let mut end = 0;
    for cell in cells {
        push_offset(&mut offsets, width, end)?;
        end += item_count(*cell) as u64;
    }
    push_offset(&mut offsets, width, end)?;
    Ok(offsets)
}
