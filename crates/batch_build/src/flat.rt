// Arrays of types without child fields.
ghost use Rattle.std.specs.Prelude.{◌≡◌, ◌/◌, true, OnOk, None, length, map};
ghost use Rattle.std.specs.List.{flat_map};
ghost use Rattle.arrow_schema.specs.Column.{nulls, booleans, integers, dates, timestamps, fixed_binaries};
ghost use Rattle.arrow_schema.specs.View.{bits_of, date_kind, time_kind};
ghost use Rattle.batch_build.specs.Batch.{batch_in, built_at, plain_column, with_arrays};
ghost use Rattle.batch_build.specs.Nodes.{binary_kind, text_kind, with_buffer, with_slots};
ghost use Rattle.columns.specs.Buildable.{are_nulls_or_fit, can_build, contents_fit, large_offset};
ghost use Rattle.columns.specs.Built.{contents_of, integer_bytes, offsets_of};
ghost use Rattle.columns.specs.Offsets.{width_of};
ghost use Rattle.columns.specs.Borrowed.{borrowed_cell};

use crate::batch::{BuiltBatch, push_buffer, push_node, push_slots};
use crate::boolean_bits::bits;
use crate::content_bytes::{content_offsets, contents};
use crate::value_bytes::{fixed_values, integer_values};
use arrow_schema::{BitWidth, DateUnit, IntegerType};
use columns::{OffsetWidth, date_integer};
use std::alloc::{AllocError, Global};
use values::ValueRef;

// Nulls have only a node.
#[tactic(auto, using(crate::specs::laws::Arrays::nulls_are))]
pub(crate) fn build_nulls(
    batch: &mut BuiltBatch<'_>,
    cells: &[ValueRef<'_>],
) -> Result<(), AllocError>
    ensures { OnOk result (batch_in batch.new ≡ with_arrays (batch_in batch.old) (built_at (plain_column nulls None) (map borrowed_cell cells.now))) }
{
    push_node(batch, cells.len(), cells.len())
}

#[tactic(auto, using(crate::specs::laws::Arrays::booleans_are))]
pub(crate) fn build_booleans(
    alloc: Global,
    batch: &mut BuiltBatch<'_>,
    cells: &[ValueRef<'_>],
) -> Result<(), AllocError>
    ensures { OnOk result (batch_in batch.new ≡ with_arrays (batch_in batch.old) (built_at (plain_column booleans None) (map borrowed_cell cells.now))) }
{
    push_slots(alloc, batch, cells)?;
    push_buffer(batch, bits(alloc, cells)?)
}

// The node, the validity bitmap and the values of integers.
fn push_integers(
    alloc: Global,
    batch: &mut BuiltBatch<'_>,
    integer: IntegerType,
    cells: &[ValueRef<'_>],
) -> Result<(), AllocError>
    requires { are_nulls_or_fit (integers (bits_of integer.width) integer.signed) (map borrowed_cell cells.now) ≡ true }
    ensures { OnOk result (batch_in batch.new ≡ with_buffer (with_slots (batch_in batch.old) (map borrowed_cell cells.now))
        (flat_map (integer_bytes (bits_of integer.width / 8)) (map borrowed_cell cells.now))) }
{
    push_slots(alloc, batch, cells)?;
    push_buffer(batch, integer_values(alloc, integer, cells)?)
}

#[tactic(auto, using(crate::specs::laws::Arrays::integers_are), unfolding(columns::specs::Buildable::can_build))]
pub(crate) fn build_integers(
    alloc: Global,
    batch: &mut BuiltBatch<'_>,
    integer: IntegerType,
    cells: &[ValueRef<'_>],
) -> Result<(), AllocError>
    requires { can_build (plain_column (integers (bits_of integer.width) integer.signed) None) (map borrowed_cell cells.now) ≡ true }
    ensures { OnOk result (batch_in batch.new ≡ with_arrays (batch_in batch.old)
        (built_at (plain_column (integers (bits_of integer.width) integer.signed) None) (map borrowed_cell cells.now))) }
{
    push_integers(alloc, batch, integer, cells)
}

#[tactic(auto, using(crate::specs::laws::Arrays::dates_are, crate::specs::laws::Premises::dates_fit))]
pub(crate) fn build_dates(
    alloc: Global,
    batch: &mut BuiltBatch<'_>,
    unit: DateUnit,
    cells: &[ValueRef<'_>],
) -> Result<(), AllocError>
    requires { can_build (plain_column (dates (date_kind unit)) None) (map borrowed_cell cells.now) ≡ true }
    ensures { OnOk result (batch_in batch.new ≡ with_arrays (batch_in batch.old)
        (built_at (plain_column (dates (date_kind unit)) None) (map borrowed_cell cells.now))) }
{
    push_integers(alloc, batch, date_integer(unit), cells)
}

/// Timestamps of any unit and timezone: integers of 64 bits with a sign.
pub(crate) fn build_timestamps(
    alloc: Global,
    batch: &mut BuiltBatch<'_>,
    cells: &[ValueRef<'_>],
) -> Result<(), AllocError>
    requires { are_nulls_or_fit (integers 64 true) (map borrowed_cell cells.now) ≡ true }
    ensures { OnOk result (batch_in batch.new ≡ with_buffer (with_slots (batch_in batch.old) (map borrowed_cell cells.now))
        (flat_map (integer_bytes 8) (map borrowed_cell cells.now))) }
{
    let integer = IntegerType {
        width: BitWidth::SixtyFour,
        signed: true,
    };
    push_integers(alloc, batch, integer, cells)
}

#[tactic(auto, using(crate::specs::laws::Arrays::fixed_binaries_are))]
pub(crate) fn build_fixed_binaries(
    alloc: Global,
    batch: &mut BuiltBatch<'_>,
    width: usize,
    cells: &[ValueRef<'_>],
) -> Result<(), AllocError>
    ensures { OnOk result (batch_in batch.new ≡ with_arrays (batch_in batch.old)
        (built_at (plain_column (fixed_binaries width) None) (map borrowed_cell cells.now))) }
{
    push_slots(alloc, batch, cells)?;
    push_buffer(batch, fixed_values(alloc, width, cells)?)
}

// Adds the node, the validity bitmap, the offsets and the bytes of strings or binaries.
fn push_contents(
    alloc: Global,
    batch: &mut BuiltBatch<'_>,
    width: OffsetWidth,
    cells: &[ValueRef<'_>],
) -> Result<(), AllocError>
    requires { contents_fit large_offset (map borrowed_cell cells.now) ≡ true }
    ensures { OnOk result (batch_in batch.new
        ≡ with_buffer (with_buffer (with_slots (batch_in batch.old) (map borrowed_cell cells.now))
        (offsets_of (width_of width) (map (λ c. length (contents_of c)) (map borrowed_cell cells.now))))
        (flat_map contents_of (map borrowed_cell cells.now))) }
{
    push_slots(alloc, batch, cells)?;
    push_buffer(batch, content_offsets(alloc, width, cells)?)?;
    push_buffer(batch, contents(alloc, cells)?)
}

#[tactic(auto, using(crate::specs::laws::Arrays::texts_are, crate::specs::laws::Premises::texts_fit))]
pub(crate) fn build_texts(
    alloc: Global,
    batch: &mut BuiltBatch<'_>,
    width: OffsetWidth,
    cells: &[ValueRef<'_>],
) -> Result<(), AllocError>
    requires { can_build (plain_column (text_kind width) None) (map borrowed_cell cells.now) ≡ true }
    ensures { OnOk result (batch_in batch.new ≡ with_arrays (batch_in batch.old)
        (built_at (plain_column (text_kind width) None) (map borrowed_cell cells.now))) }
{
    push_contents(alloc, batch, width, cells)
}

#[tactic(auto, using(crate::specs::laws::Arrays::binaries_are, crate::specs::laws::Premises::binaries_fit))]
pub(crate) fn build_binaries(
    alloc: Global,
    batch: &mut BuiltBatch<'_>,
    width: OffsetWidth,
    cells: &[ValueRef<'_>],
) -> Result<(), AllocError>
    requires { can_build (plain_column (binary_kind width) None) (map borrowed_cell cells.now) ≡ true }
    ensures { OnOk result (batch_in batch.new ≡ with_arrays (batch_in batch.old)
        (built_at (plain_column (binary_kind width) None) (map borrowed_cell cells.now))) }
{
    push_contents(alloc, batch, width, cells)
}
