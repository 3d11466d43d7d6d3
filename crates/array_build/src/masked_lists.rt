// Lists under a mask: a slot whose bit is not set has no items, whatever the array has there. Consecutive items are one run.
ghost use Rattle.std.specs.Prelude.{◌≡◌, ◌≤◌, ◌<◌, ◌+◌, ◌-◌, ◌*◌, ◌^◌, ◌++◌, [], true, OnOk, IfOk, length, if◌then◌else◌};
ghost use Rattle.std.specs.List.{flat_map, list_all, range_with_len};
ghost use Rattle.batch_build.specs.Batch.{batch_in};
ghost use Rattle.dictionary_codes.specs.Masks.{IsMask, mask_bits, run_bits};
ghost use Rattle.array_build.specs.inner.Masked.{are_below, masked_kind, masked_slots};
ghost use Rattle.array_build.specs.inner.MaskedContents.{AreUnder, run_under, runs_under};
ghost use Rattle.array_build.specs.inner.MaskedLists.{AreValidUnder, lists_under};
ghost use Rattle.batch_build.specs.Nodes.{list_kind, with_buffer};
ghost use Rattle.array_build.specs.inner.RunItems.{list_column};
ghost use Rattle.array_build.specs.inner.Runs.{with_run_slots};
ghost use Rattle.arrow_schema.specs.View.{column_of};
ghost use Rattle.cells.specs.Dictionary.{item_list};
ghost use Rattle.columns.specs.Array.{items_in, slots_in};
ghost use Rattle.columns.specs.Buildable.{can_build};
ghost use Rattle.columns.specs.Built.{list_offsets};
ghost use Rattle.columns.specs.CellAt.{cell_at, cells_from, is_valid};
ghost use Rattle.columns.specs.Offsets.{width_of};
ghost use Rattle.columns.specs.Runs.{are_runs_sound, is_run_sound, runs_cells};
ghost use Rattle.columns.specs.Sound.{is_sound};
ghost use Rattle.columns.specs.View.{view_array};

use crate::item_slots::item_slots;
use crate::run_items::{item_runs, run_list_offsets};
use crate::run_offsets::masked_run_offsets;
use crate::slot_masks::push_masked_slots;
use crate::unset_slots::run_to;
use arrow_schema::Field;
use batch_build::{BuiltBatch, push_buffer};
use bitmap::get;
use columns::{ArrayView, OffsetWidth, SlotRun, Span};
use dictionary_codes::{count_slots, run_len};
use std::alloc::{AllocError, Global};

// Makes the offsets of lists under a mask: 0, and then the end of the items of each.
fn masked_list_offsets(
    alloc: Global,
    item: &Field,
    width: OffsetWidth,
    runs: &[SlotRun<'_>],
    mask: &[u8],
) -> Result<Vec<u8>, AllocError>
    requires { AreUnder (list_kind width (column_of item.now)) mask.now runs.now }
    ensures { IfOk result (λ bytes. bytes.items
        ≡ list_offsets (width_of width) (runs_under (list_kind width (column_of item.now)) mask.now 0 runs.now)) }
{
    masked_run_offsets(alloc, width, runs, mask)
}

// Appends items of an array, if there are any.
fn push_items<'a>(
    items: &mut Vec<SlotRun<'a>>,
    item: &Field,
    array: ArrayView<'a>,
    start: usize,
    len: usize,
) -> Result<(), AllocError>
    requires sound { is_sound (column_of item.now) (items_in (view_array array)) ≡ true }
    requires within { start + len ≤ slots_in (items_in (view_array array)) }
    requires good { are_runs_sound (column_of item.now) items.old.items ≡ true }
    ensures good { OnOk result (are_runs_sound (column_of item.now) items.new.items ≡ true) }
    ensures cells { OnOk result (runs_cells (column_of item.now) items.new.items ≡ runs_cells (column_of item.now) items.old.items
        ++ cells_from (cell_at (column_of item.now) (items_in (view_array array.entry))) start len) }
{
    if len == 0 {
        return Ok(());
    }
    items.push(item_slots(array, start, len))?;
    Ok(())
}

// Appends items of an array, and returns the later ones that are not appended yet: if these follow directly, nothing is appended, and all are returned.
fn join_items<'a>(
    items: &mut Vec<SlotRun<'a>>,
    item: &Field,
    array: ArrayView<'a>,
    start: usize,
    len: usize,
    from: usize,
    count: usize,
) -> Result<Span, AllocError>
    requires sound { is_sound (column_of item.now) (items_in (view_array array)) ≡ true }
    requires within { start + len ≤ slots_in (items_in (view_array array)) }
    requires next { from + count ≤ slots_in (items_in (view_array array)) }
    requires good { are_runs_sound (column_of item.now) items.old.items ≡ true }
    ensures within { IfOk result (λ span. span.start + span.len ≤ slots_in (items_in (view_array array.entry))) }
    ensures good { OnOk result (are_runs_sound (column_of item.now) items.new.items ≡ true) }
    ensures cells { IfOk result (λ span. let own = cell_at (column_of item.now) (items_in (view_array array.entry)) in
        runs_cells (column_of item.now) items.new.items ++ cells_from own span.start span.len
        ≡ (runs_cells (column_of item.now) items.old.items ++ cells_from own start len) ++ cells_from own from count) }
{
    // For the proof: the number is below 2^64, so that each index is too.
    let _items = array.item_slots();
    let end = start + len;
    if from == end {
        return Ok(Span {
            start,
            len: len + count,
        });
    }
    push_items(items, item, array, start, len)?;
    Ok(Span {
        start: from,
        len: count,
    })
}

// Appends items of an array, and returns the later ones that are not appended yet, as `join_items`; the later ones are the items of `count` lists if their bits
// are set, otherwise there are none.
fn push_stretch<'a>(
    items: &mut Vec<SlotRun<'a>>,
    item: &Field,
    width: OffsetWidth,
    array: ArrayView<'a>,
    start: usize,
    len: usize,
    from: usize,
    count: usize,
    set: bool,
) -> Result<Span, AllocError>
    requires sound { is_sound (list_column width (column_of item.now)) (view_array array) ≡ true }
    requires within { start + len ≤ slots_in (items_in (view_array array)) }
    requires some { 0 < count }
    requires slots { from + count ≤ slots_in (view_array array) }
    requires valid { set ≡ true → list_all (is_valid (view_array array)) (range_with_len from count) ≡ true }
    requires good { are_runs_sound (column_of item.now) items.old.items ≡ true }
    ensures within { IfOk result (λ span. span.start + span.len ≤ slots_in (items_in (view_array array.entry))) }
    ensures good { OnOk result (are_runs_sound (column_of item.now) items.new.items ≡ true) }
    ensures cells { IfOk result (λ span. let own = cell_at (column_of item.now) (items_in (view_array array.entry)) in
        runs_cells (column_of item.now) items.new.items ++ cells_from own span.start span.len
        ≡ (runs_cells (column_of item.now) items.old.items ++ cells_from own start len)
        ++ (if set then flat_map item_list (cells_from (cell_at (list_column width (column_of item.now)) (view_array array.entry)) from count) else [])) }
{
    if !set {
        return Ok(Span { start, len });
    }
    let span = array.spanned(width, from, count);
    join_items(items, item, array, start, len, span.start, span.len)
}

// Appends the items of some lists under the mask bits from `at` up to `to`.
fn push_slot_items<'a>(
    items: &mut Vec<SlotRun<'a>>,
    item: &Field,
    width: OffsetWidth,
    array: ArrayView<'a>,
    from: usize,
    mask: &[u8],
    at: usize,
    to: usize,
) -> Result<(), AllocError>
    requires sound { is_sound (list_column width (column_of item.now)) (view_array array) ≡ true }
    requires order { at ≤ to }
    requires bits { to ≤ 8 * length mask.now }
    requires within { from + (to - at) ≤ slots_in (view_array array) }
    requires valid { AreValidUnder (view_array array) mask.now from at to }
    requires good { are_runs_sound (column_of item.now) items.old.items ≡ true }
    ensures good { OnOk result (are_runs_sound (column_of item.now) items.new.items ≡ true) }
    ensures cells { OnOk result (runs_cells (column_of item.now) items.new.items ≡ runs_cells (column_of item.now) items.old.items
        ++ lists_under (cell_at (list_column width (column_of item.now)) (view_array array.entry)) mask.now from at (to - at)) }
{
    // For the proof: the number is below 2^64, so that each index is too.
    let _slots = array.slots();
    let mut start = 0;
    let mut len = 0;
    let mut i = at;
    while i < to {
        let end = run_to(mask, i, to);
        let span = push_stretch(
            items,
            item,
            width,
            array,
            start,
            len,
            from + (i - at),
            end - i,
            get(mask, i),
        )?;
        start = span.start;
        len = span.len;
        i = end;
    }
    push_items(items, item, array, start, len)
}

// Appends the items of a run under the mask bits from `at` on.
fn push_run_items<'a>(
    items: &mut Vec<SlotRun<'a>>,
    item: &Field,
    width: OffsetWidth,
    run: &SlotRun<'a>,
    mask: &[u8],
    at: usize,
) -> Result<(), AllocError>
    requires sound { is_run_sound (list_column width (column_of item.now)) run.now ≡ true }
    requires counted { at + length (run_bits run.now) < 2 ^ 64 }
    requires long { at + length (run_bits run.now) ≤ 8 * length mask.now }
    requires below { are_below (mask_bits mask.now at (length (run_bits run.now))) (run_bits run.now) ≡ true }
    requires good { are_runs_sound (column_of item.now) items.old.items ≡ true }
    ensures good { OnOk result (are_runs_sound (column_of item.now) items.new.items ≡ true) }
    ensures cells { OnOk result (runs_cells (column_of item.now) items.new.items ≡ runs_cells (column_of item.now) items.old.items
        ++ flat_map item_list (run_under (list_kind width (column_of item.now)) mask.now at run.now)) }
{
    match run {
        SlotRun::Slots { array, from, len } => {
            push_slot_items(items, item, width, *array, *from, mask, at, at + *len)
        }
        SlotRun::Nulls(_) => Ok(()),
    }
}

// Makes the runs of the items of lists under a mask, in order.
fn masked_items<'a>(
    alloc: Global,
    item: &Field,
    width: OffsetWidth,
    runs: &[SlotRun<'a>],
    mask: &[u8],
) -> Result<Vec<SlotRun<'a>>, AllocError>
    requires { AreUnder (list_kind width (column_of item.now)) mask.now runs.now }
    ensures cells { IfOk result (λ items. runs_cells (column_of item.now) items.items
        ≡ flat_map item_list (runs_under (list_kind width (column_of item.now)) mask.now 0 runs.now)) }
    ensures sound { IfOk result (λ items. are_runs_sound (column_of item.now) items.items ≡ true) }
{
    // For the proof: the number of slots is below 2^64, so that each index is too.
    let _slots = count_slots(runs)?;
    let mut items = Vec::new(alloc);
    let mut at = 0;
    for run in runs {
        push_run_items(&mut items, item, width, run, mask, at)?;
        at += run_len(run);
    }
    Ok(items)
}

/// Adds the node, the validity bitmap and the offsets of lists under a mask, whatever is below their nulls, and returns the runs of their items.
pub(crate) fn push_masked_lists<'a>(
    alloc: Global,
    batch: &mut BuiltBatch<'_>,
    item: &Field,
    width: OffsetWidth,
    runs: &[SlotRun<'a>],
    mask: &[u8],
) -> Result<Vec<SlotRun<'a>>, AllocError>
    requires sound { are_runs_sound (list_column width (column_of item.now)) runs.now ≡ true }
    requires mask { IsMask mask.now runs.now }
    requires fits { can_build (list_column width (column_of item.now)) (masked_kind (list_kind width (column_of item.now)) mask.now runs.now) ≡ true }
    ensures batch { IfOk result (λ _. batch_in batch.new ≡ with_buffer (with_run_slots (batch_in batch.old) (masked_slots mask.now runs.now))
        (list_offsets (width_of width) (masked_kind (list_kind width (column_of item.now)) mask.now runs.now))) }
    ensures cells { IfOk result (λ items. runs_cells (column_of item.now) items.items
        ≡ flat_map item_list (masked_kind (list_kind width (column_of item.now)) mask.now runs.now)) }
    ensures sound { IfOk result (λ items. are_runs_sound (column_of item.now) items.items ≡ true) }
{
    let below = push_masked_slots(alloc, batch, runs, mask)?;
    if below.is_empty() {
        let items = item_runs(alloc, item, width, runs)?;
        push_buffer(batch, run_list_offsets(alloc, item, width, runs)?)?;
        return Ok(items);
    }
    let items = masked_items(alloc, item, width, runs, &below)?;
    push_buffer(
        batch,
        masked_list_offsets(alloc, item, width, runs, &below)?,
    )?;
    Ok(items)
}
