// The items of borrowed lists.
ghost use Rattle.std.specs.Prelude.{◌≡◌, ◌++◌, OnOk, OnErr, IfOk, map};
ghost use Rattle.std.specs.List.{flat_map};
ghost use Rattle.cells.specs.Dictionary.{item_list};
ghost use Rattle.columns.specs.Borrowed.{borrowed_cell, borrowed_cells};

use columns::{ValueRef, Values};
use std::alloc::{AllocError, Global};

/// Appends borrowed values, in order.
///
/// # Errors
/// `AllocError` if memory was refused: nothing is appended.
pub fn push_all<'a>(cells: &mut Vec<ValueRef<'a>>, values: Values<'a>) -> Result<(), AllocError>
    ensures ok { OnOk result (map borrowed_cell cells.new.items ≡ map borrowed_cell cells.old.items ++ borrowed_cells values.entry) }
    ensures err { OnErr result (cells.new.items ≡ cells.old.items) }
{
    let before = cells.len();
    match cells.extend(values.iter()) {
        Ok(()) => Ok(()),
        Err(error) => {
            cells.truncate(before);
            Err(error)
        }
    }
}

// Returns the items of a list: another value has none.
#[tactic(auto, using(cells::specs::laws::Cells::cells_listed))]
fn push_items<'a>(items: &mut Vec<ValueRef<'a>>, cell: ValueRef<'a>) -> Result<(), AllocError>
    ensures { OnOk result (map borrowed_cell items.new.items ≡ map borrowed_cell items.old.items ++ item_list (borrowed_cell cell.entry)) }
{
    match cell {
        ValueRef::List(values) => push_all(items, values),
        _ => Ok(()),
    }
}

/// Makes the items of lists, in order: another value has none.
///
/// # Errors
/// `AllocError` if memory was refused.
pub fn items<'a>(alloc: Global, cells: &[ValueRef<'a>]) -> Result<Vec<ValueRef<'a>>, AllocError>
    ensures { IfOk result (λ items. map borrowed_cell items.items ≡ flat_map item_list (map borrowed_cell cells.now)) }
{
    let mut items = Vec::new(alloc);
    for cell in cells {
        push_items(&mut items, *cell)?;
    }
    Ok(items)
}
