// The entries that slots name, up to the first slot for whose entry a dictionary has no room.
ghost use Rattle.std.specs.Prelude.{◌≡◌, ◌≤◌, ◌-◌, true, IfOk, OnOk, Some, length};
ghost use Rattle.std.specs.List.{list_all};
ghost use Rattle.arrow_schema.specs.View.{column_of};
ghost use Rattle.cells.specs.Dictionary.{with_entry};
ghost use Rattle.columns.specs.CellAt.{cells_from};
ghost use Rattle.columns.specs.Runs.{is_run_sound, run_cells};
ghost use Rattle.columns.specs.declared.slot_runs.SlotRun.TheVariants.{Slots};
ghost use Rattle.dictionary_codes.specs.CodedCells.{is_coded};
ghost use Rattle.dictionary_codes.specs.Named.{named_cells, seen_cells};
ghost use Rattle.dictionary_codes.specs.Room.{IsRoomFor};
ghost use Rattle.dictionary_codes.specs.inner.Codes.{AreCodedSlots, AreKnown, IsCodedSlot, coded_cell, own_entries};

use crate::known_entries::KnownEntries;
use crate::run_codes::{known_code, new_code};
use crate::stamped_numbers::StampedNumbers;
use arrow_schema::{DictSpec, Field};
use columns::{ArrayView, CodedSlots, SlotRun};
use std::alloc::{AllocError, Global};

// Names the entry of a slot, if it has one.
#[inline]
fn name_slot<'a>(
    entries: &mut KnownEntries<'a>,
    known: &mut StampedNumbers,
    field: &'a Field,
    slots: CodedSlots<'a>,
    i: usize,
) -> Result<(), AllocError>
    requires slot { IsCodedSlot field.now slots i }
    requires known { AreKnown (seen_cells entries.old) (own_entries field.now slots.view) known.old }
    ensures entries { OnOk result (named_cells entries.new ≡ with_entry (named_cells entries.old) (coded_cell field.now slots.entry i)) }
    ensures known { OnOk result (AreKnown (seen_cells entries.new) (own_entries field.now slots.entry.view) known.new) }
{
    if !slots.is_valid(i) {
        return Ok(());
    }
    let number = slots.number(i);
    if let Some(known) = known_code(known, number) {
        entries.place_of(known)?;
        return Ok(());
    }
    new_code(entries, known, field, slots, i)?;
    Ok(())
}

// Names the entries of slots of an array, up to the first one with which there would be more than `most`, and returns how many slots come before it.
fn name_coded_slots<'a>(
    entries: &mut KnownEntries<'a>,
    known: &mut StampedNumbers,
    field: &'a Field,
    slots: CodedSlots<'a>,
    from: usize,
    to: usize,
    most: usize,
) -> Result<usize, AllocError>
    requires order { from ≤ to }
    requires slots { AreCodedSlots field.now slots from to }
    requires known { AreKnown (seen_cells entries.old) (own_entries field.now slots.view) known.old }
    requires few { length (named_cells entries.old) ≤ most }
    ensures room { IfOk result (λ n. IsRoomFor most (named_cells entries.old) (named_cells entries.new)
        (cells_from (coded_cell field.now slots.entry) from (to - from)) n) }
    ensures known { OnOk result (AreKnown (seen_cells entries.new) (own_entries field.now slots.entry.view) known.new) }
{
    for i in from..to {
        name_slot(entries, known, field, slots, i)?;
        if entries.count() > most {
            return Ok(i - from);
        }
    }
    Ok(to - from)
}

fn name_array_slots<'a>(
    alloc: Global,
    entries: &mut KnownEntries<'a>,
    field: &'a Field,
    spec: DictSpec,
    array: ArrayView<'a>,
    from: usize,
    len: usize,
    most: usize,
) -> Result<usize, AllocError>
    requires spec { field.now.dictionary ≡ Some spec }
    requires sound { is_run_sound (column_of field.now) (Slots array from len) ≡ true }
    requires coded { list_all is_coded (run_cells (column_of field.now) (Slots array from len)) ≡ true }
    requires few { length (named_cells entries.old) ≤ most }
    ensures { IfOk result (λ n. IsRoomFor most (named_cells entries.old) (named_cells entries.new)
        (run_cells (column_of field.now) (Slots array.entry from len)) n) }
{
    let mut known = entries.take_numbers(alloc, field, array, len)?;
    let slots = CodedSlots::new(spec, array);
    // For the proof: the array has these slots, so that their number is below 2^64.
    let _slots = slots.view.slots();
    let count = name_coded_slots(entries, &mut known, field, slots, from, from + len, most)?;
    entries.keep_numbers(field, array, known)?;
    Ok(count)
}

/// Names the entries of the slots of a run, up to the first slot with which there would be more than `most`, and returns how many slots come before it: all
/// of them if there is none. Each entry of the run's own dictionary is looked up once.
///
/// # Errors
/// `AllocError` if memory was refused. Then it is not promised which entries are named.
pub fn name_slots<'a>(
    alloc: Global,
    entries: &mut KnownEntries<'a>,
    field: &'a Field,
    spec: DictSpec,
    run: SlotRun<'a>,
    most: usize,
) -> Result<usize, AllocError>
    requires spec { field.now.dictionary ≡ Some spec }
    requires sound { is_run_sound (column_of field.now) run ≡ true }
    requires coded { list_all is_coded (run_cells (column_of field.now) run) ≡ true }
    requires few { length (named_cells entries.old) ≤ most }
    ensures { IfOk result (λ n. IsRoomFor most (named_cells entries.old) (named_cells entries.new) (run_cells (column_of field.now) run.entry) n) }
{
    match run {
        SlotRun::Slots { array, from, len } => {
            name_array_slots(alloc, entries, field, spec, array, from, len, most)
        }
        SlotRun::Nulls(count) => Ok(count),
    }
}
