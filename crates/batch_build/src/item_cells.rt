// The cells of the items of fixed-size lists.
ghost use Rattle.std.specs.Prelude.{◌≡◌, ◌++◌, OnOk, IfOk, map, replicate};
ghost use Rattle.std.specs.List.{flat_map};
ghost use Rattle.cells.specs.Cell.{null};
ghost use Rattle.columns.specs.Built.{fixed_items};
ghost use Rattle.columns.specs.Borrowed.{borrowed_cell};

use std::alloc::{AllocError, Global};
use values::{ValueRef, push_all};

// Adds nulls.
#[tactic(auto, using(crate::proofs::Equals::one_more))]
fn add_nulls(items: &mut Vec<ValueRef<'_>>, count: usize) -> Result<(), AllocError>
    ensures { OnOk result (map borrowed_cell items.new.items ≡ map borrowed_cell items.old.items ++ replicate count null) }
{
    for _ in 0..count {
        items.push(ValueRef::Null)?;
    }
    Ok(())
}

// Adds the items of a list; a null list has `size` nulls.
#[tactic(auto, using(cells::specs::laws::Cells::cells_listed))]
fn add_fixed_items<'a>(
    items: &mut Vec<ValueRef<'a>>,
    size: usize,
    cell: ValueRef<'a>,
) -> Result<(), AllocError>
    ensures { OnOk result (map borrowed_cell items.new.items ≡ map borrowed_cell items.old.items ++ fixed_items size (borrowed_cell cell.entry)) }
{
    match cell {
        ValueRef::Null => add_nulls(items, size),
        ValueRef::List(values) => push_all(items, values),
        _ => Ok(()),
    }
}

/// Makes the items of fixed-size lists, in order; all items of a null list are nulls.
pub(crate) fn items_of_size<'a>(
    alloc: Global,
    size: usize,
    cells: &[ValueRef<'a>],
) -> Result<Vec<ValueRef<'a>>, AllocError>
    ensures { IfOk result (λ items. map borrowed_cell items.items ≡ flat_map (fixed_items size) (map borrowed_cell cells.now)) }
{
    let mut items = Vec::new(alloc);
    for cell in cells {
        add_fixed_items(&mut items, size, *cell)?;
    }
    Ok(items)
}
