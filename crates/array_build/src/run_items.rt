// The items and offsets of lists, for runs that are already as they are written.
ghost use Rattle.std.specs.Prelude.{◌≡◌, true, IfOk};
ghost use Rattle.std.specs.List.{flat_map};
ghost use Rattle.batch_build.specs.Nodes.{list_kind};
ghost use Rattle.array_build.specs.inner.RunItems.{AreItems, list_column, run_lists};
ghost use Rattle.array_build.specs.inner.Runs.{AreAsWritten, is_run_as_written, kind_cells};
ghost use Rattle.columns.specs.Runs.{are_runs_sound, is_run_sound, runs_cells};
ghost use Rattle.arrow_schema.specs.View.{column_of};
ghost use Rattle.cells.specs.Dictionary.{item_list};
ghost use Rattle.columns.specs.Built.{list_offsets};
ghost use Rattle.columns.specs.Offsets.{width_of};

use crate::item_slots::item_slots;
use crate::run_offsets::run_offsets;
use arrow_schema::Field;
use columns::{OffsetWidth, SlotRun};
use std::alloc::{AllocError, Global};

/// Makes the offsets of lists: 0, and then the end of the items of each.
pub(crate) fn run_list_offsets(
    alloc: Global,
    item: &Field,
    width: OffsetWidth,
    runs: &[SlotRun<'_>],
) -> Result<Vec<u8>, AllocError>
    requires { AreAsWritten (list_kind width (column_of item.now)) runs.now }
    ensures { IfOk result (λ bytes. bytes.items ≡ list_offsets (width_of width) (kind_cells (list_kind width (column_of item.now)) runs.now)) }
{
    run_offsets(alloc, width, runs)
}

// Returns the items of a run, which are consecutive: a null has none.
fn item_run<'a>(item: &Field, width: OffsetWidth, run: &SlotRun<'a>) -> SlotRun<'a>
    requires sound { is_run_sound (list_column width (column_of item.now)) run.now ≡ true }
    requires written { is_run_as_written (list_kind width (column_of item.now)) run.now ≡ true }
    ensures { AreItems item_list (column_of item.now) result (run_lists width (column_of item.now) run.now) }
{
    match run {
        SlotRun::Slots { array, from, len } => {
            if *len == 0 {
                return SlotRun::Nulls(0);
            }
            let span = array.spanned(width, *from, *len);
            item_slots(*array, span.start, span.len)
        }
        SlotRun::Nulls(_) => SlotRun::Nulls(0),
    }
}

/// Makes the runs of the items of lists, in order; a null has none.
pub(crate) fn item_runs<'a>(
    alloc: Global,
    item: &Field,
    width: OffsetWidth,
    runs: &[SlotRun<'a>],
) -> Result<Vec<SlotRun<'a>>, AllocError>
    requires { AreAsWritten (list_kind width (column_of item.now)) runs.now }
    ensures cells { IfOk result (λ items. runs_cells (column_of item.now) items.items
        ≡ flat_map item_list (kind_cells (list_kind width (column_of item.now)) runs.now)) }
    ensures sound { IfOk result (λ items. are_runs_sound (column_of item.now) items.items ≡ true) }
{
    let mut items = Vec::with_capacity(alloc, runs.len())?;
    for run in runs {
        items.push_reserved(item_run(item, width, run));
    }
    Ok(items)
}
