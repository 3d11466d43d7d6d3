// The node and the indices of runs of slots of a dictionary column.
ghost use Rattle.std.specs.Prelude.{◌≡◌, true, OnOk, IfOk, Some, map};
ghost use Rattle.std.specs.List.{list_all};
ghost use Rattle.arrow_schema.specs.View.{column_of, index_of};
ghost use Rattle.batch_build.specs.Batch.{batch_in};
ghost use Rattle.batch_build.specs.Coded.{with_indices};
ghost use Rattle.dictionary_codes.specs.Masks.{IsMask, masked_cells};
ghost use Rattle.dictionary_codes.specs.CodedCells.{is_coded};
ghost use Rattle.columns.specs.Runs.{are_runs_sound};
ghost use Rattle.cells.specs.Dictionary.{entries_of};
ghost use Rattle.cells.specs.Entry.{entry_cell};

use crate::kept_buffers::{kept_buffer, own_indices};
use crate::run_slots::push_bit_slots;
use arrow_schema::{DictSpec, Field};
use batch_build::{BuiltBatch, push_any_buffer};
use cells::Entry;
use columns::SlotRun;
use dictionary_codes::{KnownEntries, codes_of_runs};
use std::alloc::{AllocError, Global};

/// Adds the node, the validity bitmap and the indices of the cells of runs under a mask, and returns the entries that they name.
pub(crate) fn push_run_indices<'k, 'a: 'k>(
    alloc: Global,
    batch: &mut BuiltBatch<'a>,
    entries: &mut KnownEntries<'k>,
    field: &'k Field,
    spec: DictSpec,
    runs: &[SlotRun<'a>],
    mask: &[u8],
) -> Result<Vec<Entry<'k>>, AllocError>
    requires spec { field.now.dictionary ≡ Some spec }
    requires sound { are_runs_sound (column_of field.now) runs.now ≡ true }
    requires mask { IsMask mask.now runs.now }
    requires coded { list_all is_coded (masked_cells (column_of field.now) mask.now runs.now) ≡ true }
    ensures entries { IfOk result (λ entries. map entry_cell entries.items ≡ entries_of (masked_cells (column_of field.now) mask.now runs.now)) }
    ensures batch { OnOk result (batch_in batch.new
        ≡ with_indices (batch_in batch.old) (index_of spec) (masked_cells (column_of field.now) mask.now runs.now)) }
{
    let codes = codes_of_runs(alloc, entries, field, spec, &*runs, mask)?;
    push_bit_slots(alloc, batch, &codes.valid)?;
    let own = own_indices(runs, spec.index.width.bytes(), codes.indices.len());
    push_any_buffer(batch, kept_buffer(own, codes.indices))?;
    Ok(codes.entries)
}
