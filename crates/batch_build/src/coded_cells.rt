// The node and the indices of cells of a dictionary column, and the batch of its entries.
ghost use Rattle.std.specs.Prelude.{◌≡◌, OnOk, IfOk, map};
ghost use Rattle.arrow_schema.specs.View.{bits_of};
ghost use Rattle.batch_build.specs.Batch.{batch_in, dictionary_in};
ghost use Rattle.batch_build.specs.Coded.{with_dictionary, with_indices};
ghost use Rattle.cells.specs.Dictionary.{entries_of};
ghost use Rattle.columns.specs.Borrowed.{borrowed_cell};

use crate::batch::{BuiltBatch, BuiltDictionary, push_buffer, push_slots};
use crate::dictionary_cells::{entry_set, indices};
use arrow_schema::IntegerType;
use std::alloc::{AllocError, Global};
use values::ValueRef;

/// Adds the node, the validity bitmap and the indices of cells, and returns the cells of the entries that they name.
pub(crate) fn push_indices<'a>(
    alloc: Global,
    batch: &mut BuiltBatch<'_>,
    index: IntegerType,
    cells: &[ValueRef<'a>],
) -> Result<Vec<ValueRef<'a>>, AllocError>
    ensures entries { IfOk result (λ entries. map borrowed_cell entries.items ≡ entries_of (map borrowed_cell cells.now)) }
    ensures batch { OnOk result (batch_in batch.new
        ≡ with_indices (batch_in batch.old) (record { bits = bits_of index.width; signed = index.signed }) (map borrowed_cell cells.now)) }
{
    push_slots(alloc, batch, cells)?;
    let mut firsts = Vec::new(alloc);
    let entries = entry_set(alloc, &mut firsts, cells)?;
    push_buffer(batch, indices(alloc, index, &entries, cells)?)?;
    Ok(firsts)
}

/// Makes a dictionary of a batch of values.
#[tactic(auto, unfolding(crate::specs::Batch::batch_in))]
pub fn values_of(count: usize, batch: BuiltBatch<'_>) -> BuiltDictionary<'_>
    ensures { dictionary_in result ≡ record { slots = count; nodes = (batch_in batch.entry).nodes; buffers = (batch_in batch.entry).buffers } }
{
    let BuiltBatch {
        nodes,
        buffers,
        dictionaries: _,
    } = batch;
    let slots = count as u64;
    BuiltDictionary {
        slots,
        nodes,
        buffers,
    }
}

/// Adds the batch of a dictionary's values, after those of the columns before (Arrow columnar format, "DictionaryBatch message").
///
/// # Errors
/// `AllocError` if memory was refused: the batch must not be used then.
#[tactic(auto, unfolding(crate::specs::Batch::batch_in, crate::specs::Coded::with_dictionary))]
pub fn push_dictionary<'a>(
    batch: &mut BuiltBatch<'a>,
    dictionary: BuiltDictionary<'a>,
) -> Result<(), AllocError>
    ensures { OnOk result (batch_in batch.new ≡ with_dictionary (batch_in batch.old) (dictionary_in dictionary.entry)) }
{
    batch.dictionaries.push(dictionary)?;
    Ok(())
}
