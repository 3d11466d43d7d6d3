// Values of booleans.
ghost use Rattle.std.specs.Prelude.{◌≡◌, IfOk, map};
ghost use Rattle.bitmap.specs.Bits.{packed};
ghost use Rattle.columns.specs.Built.{is_set};
ghost use Rattle.columns.specs.Borrowed.{borrowed_cell};

use bitmap::pack;
use std::alloc::{AllocError, Global};
use values::ValueRef;

fn is_set(cell: &ValueRef<'_>) -> bool
    ensures { result ≡ is_set (borrowed_cell cell.now) }
{
    match cell {
        ValueRef::Bool(boolean) => *boolean,
        _ => false,
    }
}

/// Makes a bit for each cell, which is set if it is the boolean true.
pub(crate) fn bits(alloc: Global, cells: &[ValueRef<'_>]) -> Result<Vec<u8>, AllocError>
    ensures { IfOk result (λ bytes. bytes.items ≡ packed (map is_set (map borrowed_cell cells.now))) }
{
    let mut bits = Vec::with_capacity(alloc, cells.len())?;
    for cell in cells {
        bits.push_reserved(is_set(cell));
    }
    pack(alloc, &bits)
}
