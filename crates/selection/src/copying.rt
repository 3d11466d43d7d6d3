// Copies of arrays: of the places of their buffers, and of no bytes.
ghost use Rattle.std.specs.Prelude.{IfOk};
ghost use Rattle.selection.specs.inner.Copies.{IsSameLayout, IsSameArray, AreSameArrays};

use columns::{PlacedArray, PlacedLayout};
use std::alloc::{AllocError, Global};

#[cycle(copy)]
fn copy_layout(alloc: Global, layout: &PlacedLayout) -> Result<PlacedLayout, AllocError>
    ensures { IfOk result (λ l. IsSameLayout l layout.now) }
{
    match layout {
        PlacedLayout::Null => Ok(PlacedLayout::Null),
        PlacedLayout::Bits(bits) => Ok(PlacedLayout::Bits(*bits)),
        PlacedLayout::Fixed(values) => Ok(PlacedLayout::Fixed(*values)),
        PlacedLayout::Binary(offsets, contents) => Ok(PlacedLayout::Binary(*offsets, *contents)),
        PlacedLayout::List(offsets, items) => {
            Ok(PlacedLayout::List(*offsets, copy_boxed(alloc, items)?))
        }
        PlacedLayout::FixedList(items) => Ok(PlacedLayout::FixedList(copy_boxed(alloc, items)?)),
        PlacedLayout::Struct(children) => Ok(PlacedLayout::Struct(copy_arrays(alloc, children)?)),
        PlacedLayout::Dictionary(indices, part) => Ok(PlacedLayout::Dictionary(*indices, *part)),
    }
}

#[cycle(copy)]
fn copy_boxed(alloc: Global, array: &PlacedArray) -> Result<Box<PlacedArray>, AllocError>
    ensures { IfOk result (λ b. IsSameArray b.value array.now) }
{
    Ok(Box::new(alloc, copy_array(alloc, array)?)?)
}

/// Copies an array into memory of its own.
#[cycle(copy)]
pub(crate) fn copy_array(alloc: Global, array: &PlacedArray) -> Result<PlacedArray, AllocError>
    ensures { IfOk result (λ a. IsSameArray a array.now) }
{
    Ok(PlacedArray {
        slots: array.slots,
        validity: array.validity,
        layout: copy_layout(alloc, &array.layout)?,
    })
}

#[cycle(copy)]
fn copy_arrays(alloc: Global, arrays: &[PlacedArray]) -> Result<Vec<PlacedArray>, AllocError>
    ensures { IfOk result (λ v. AreSameArrays v.items arrays.now) }
{
    let mut copies = Vec::with_capacity(alloc, arrays.len())?;
    for array in arrays {
        copies.push(copy_array(alloc, array)?)?;
    }
    Ok(copies)
}
