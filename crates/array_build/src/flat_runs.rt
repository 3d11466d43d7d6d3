// Arrays of types without child fields, from runs under a mask or from runs that are already as they are written.
ghost use Rattle.std.specs.Prelude.{◌≡◌, true, OnOk, Some, None};
ghost use Rattle.array_build.specs.inner.Masked.{AddsMasked};
ghost use Rattle.dictionary_codes.specs.Masks.{IsMask};
ghost use Rattle.arrow_schema.specs.Column.{nulls, booleans};
ghost use Rattle.arrow_schema.specs.View.{kind_of};
ghost use Rattle.batch_build.specs.Batch.{plain_column};
ghost use Rattle.array_build.specs.inner.Runs.{AddsRuns, AreAsWritten, fixed_width};
ghost use Rattle.columns.specs.Offsets.{contents_width, width_of};
ghost use Rattle.columns.specs.Runs.{are_runs_sound};

use crate::run_bits::run_booleans;
use crate::run_contents::push_written_contents;
use crate::run_slots::push_run_slots;
use crate::run_values::masked_values;
use crate::slot_masks::{push_masked_slots, push_slots_under};
use arrow_schema::DataType;
use batch_build::{BuiltBatch, push_any_buffer, push_buffer, push_node};
use columns::{OffsetWidth, SlotRun};
use dictionary_codes::count_slots;
use std::alloc::{AllocError, Global};

/// Adds the array of nulls, which has only a node.
#[tactic(auto, using(crate::proofs::RunArrays::null_runs_are))]
pub(crate) fn build_run_nulls(
    batch: &mut BuiltBatch<'_>,
    data_type: &DataType,
    runs: &[SlotRun<'_>],
    mask: &[u8],
) -> Result<(), AllocError>
    requires nulls { kind_of data_type.now ≡ nulls }
    ensures { OnOk result (AddsMasked (kind_of data_type.now) runs.now mask.now batch.old batch.new) }
{
    let slots = count_slots(runs)?;
    push_node(batch, slots, slots)
}

/// Adds the array of booleans.
pub(crate) fn build_run_bits(
    alloc: Global,
    batch: &mut BuiltBatch<'_>,
    data_type: &DataType,
    runs: &[SlotRun<'_>],
    mask: &[u8],
) -> Result<(), AllocError>
    requires booleans { kind_of data_type.now ≡ booleans }
    requires sound { are_runs_sound (plain_column (kind_of data_type.now) None) runs.now ≡ true }
    requires mask { IsMask mask.now runs.now }
    ensures { OnOk result (AddsMasked (kind_of data_type.now) runs.now mask.now batch.old batch.new) }
{
    let below = push_masked_slots(alloc, batch, runs, mask)?;
    push_buffer(batch, run_booleans(alloc, runs, &below)?)
}

/// Adds the array of values of one width.
#[tactic(auto, using(crate::proofs::RunArrays::fixed_runs_are))]
pub(crate) fn build_run_values<'a>(
    alloc: Global,
    batch: &mut BuiltBatch<'a>,
    data_type: &DataType,
    width: usize,
    runs: &[SlotRun<'a>],
    mask: &[u8],
) -> Result<(), AllocError>
    requires width { fixed_width (kind_of data_type.now) ≡ Some width }
    requires sound { are_runs_sound (plain_column (kind_of data_type.now) None) runs.now ≡ true }
    requires mask { IsMask mask.now runs.now }
    ensures { OnOk result (AddsMasked (kind_of data_type.now) runs.now mask.now batch.old batch.new) }
{
    push_slots_under(alloc, batch, runs, mask)?;
    push_any_buffer(batch, masked_values(alloc, data_type, width, runs, mask)?)
}

/// Adds the array of strings or binaries that are already as they are written.
pub(crate) fn build_run_contents<'a>(
    alloc: Global,
    batch: &mut BuiltBatch<'a>,
    data_type: &DataType,
    width: OffsetWidth,
    runs: &[SlotRun<'a>],
) -> Result<(), AllocError>
    requires width { contents_width (kind_of data_type.now) ≡ Some (width_of width) }
    requires ready { AreAsWritten (kind_of data_type.now) runs.now }
    ensures { OnOk result (AddsRuns (kind_of data_type.now) runs.now batch.old batch.new) }
{
    push_run_slots(alloc, batch, runs)?;
    push_written_contents(alloc, batch, data_type, width, runs)
}
