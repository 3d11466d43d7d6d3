// Validity bitmaps.
ghost use Rattle.std.specs.Prelude.{◌≡◌, ◌≤◌, ◌*◌, ◌||◌, ◌==◌, nat_le, true, IfOk, map, length};
ghost use Rattle.std.specs.List.{list_all};
ghost use Rattle.cells.specs.Nulls.{is_there};
ghost use Rattle.columns.specs.Built.{validity_of};
ghost use Rattle.columns.specs.Tests.{unset_bits};
ghost use Rattle.columns.specs.Borrowed.{borrowed_cell};

use bitmap::{count_set, pack};
use std::alloc::{AllocError, Global};
use values::ValueRef;

fn is_there(cell: &ValueRef<'_>) -> bool
    ensures { result ≡ is_there (borrowed_cell cell.now) }
{
    match cell {
        ValueRef::Null => false,
        _ => true,
    }
}

// Returns whether there is no null.
fn are_all_there(cells: &[ValueRef<'_>]) -> bool
    ensures { result ≡ list_all is_there (map borrowed_cell cells.now) }
{
    for cell in cells {
        if !is_there(cell) {
            return false;
        }
    }
    true
}

/// Makes the validity bitmap of cells: empty if there is no null, and else with a bit for each cell, which is set if it is not null.
pub(crate) fn validity(alloc: Global, cells: &[ValueRef<'_>]) -> Result<Vec<u8>, AllocError>
    ensures bits { IfOk result (λ bytes. bytes.items ≡ validity_of (map borrowed_cell cells.now)) }
    ensures long { IfOk result (λ bytes. (length bytes.items == 0 || nat_le (length cells.now) (8 * length bytes.items)) ≡ true) }
{
    if are_all_there(cells) {
        return Ok(Vec::new(alloc));
    }
    let mut bits = Vec::with_capacity(alloc, cells.len())?;
    for cell in cells {
        bits.push_reserved(is_there(cell));
    }
    pack(alloc, &bits)
}

/// Returns how many slots are null by a validity bitmap, which is empty or has a bit for each slot.
pub(crate) fn unset_bits(validity: &[u8], slots: usize) -> usize
    requires { (length validity.now == 0 || nat_le slots (8 * length validity.now)) ≡ true }
    ensures { result ≡ unset_bits validity.now slots }
{
    if validity.is_empty() {
        return 0;
    }
    slots - count_set(validity, 0, slots)
}
