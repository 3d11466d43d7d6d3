// The indices of runs of slots. An entry of an array's own dictionary is looked up once, and then known by its number.
ghost use Rattle.std.specs.Prelude.{◌≡◌, ◌≢◌, ◌≤◌, ◌<◌, ◌+◌, ◌-◌, ◌*◌, ◌/◌, ◌++◌, List, true, false, OnOk, IfOk, IfSome, Some, drop, get_or, is_some, length, replicate, set, take};
ghost use Rattle.std.specs.List.{list_all};
ghost use Rattle.arrow_schema.specs.View.{bits_of, column_of, index_of};
ghost use Rattle.dictionary_codes.specs.inner.Codes.{AreCodedSlots, AreKnown, AreSetFrom, HasPlace, IsCodedSlot, IsNumber, IsPartWritten, IsPut, IsWritten, code_in, coded_cell, known_at, noted, own_entries, sized_code};
ghost use Rattle.dictionary_codes.specs.Named.{named_cells, seen_cells};
ghost use Rattle.dictionary_codes.specs.Masks.{IsMask, masked, masked_cells, run_bits, runs_bits};
ghost use Rattle.dictionary_codes.specs.inner.MaskParts.{part_bits};
ghost use Rattle.dictionary_codes.specs.inner.Places.{places_in, places_of};
ghost use Rattle.dictionary_codes.specs.CodedCells.{is_coded};
ghost use Rattle.columns.specs.Runs.{are_runs_sound, is_run_sound, run_cells, runs_cells};
ghost use Rattle.columns.specs.declared.slot_runs.SlotRun.TheVariants.{Slots};
ghost use Rattle.cells.specs.Dictionary.{with_entry};
ghost use Rattle.columns.specs.CellAt.{cells_from, is_valid};
ghost use Rattle.columns.specs.View.{view_array};
ghost use Rattle.cells.specs.Cell.{Cell};

use crate::entry_numbers::put_code;
use crate::known_entries::KnownEntries;
use crate::masked_codes::put_part_codes;
use crate::number_places::WrittenPlaces;
use crate::run_slots::run_len;
use crate::stamped_numbers::{NUMBER_LIMIT, StampedNumbers};
use arrow_schema::{BitWidth, DictSpec, Field};
use columns::{ArrayView, CodedSlots, SlotRun, value};
use std::alloc::{AllocError, Global};

// If fewer slots in a row than this have named entries, the loop over named ones is left at nearly each slot, and costs more than it saves.
const FEW_NAMED: usize = 16;

// How many slots are then written one by one before that loop is tried again.
const SLOTS_AT_ONCE: usize = 64;

#[inline]
pub(crate) fn known_code(known: &StampedNumbers, number: Option<u64>) -> Option<usize>
    ensures { result ≡ known_at known.now number }
{
    match number {
        Some(number) if number < known.len() as u64 => known.get(number as usize),
        _ => None,
    }
}

// Returns the number by which an entry was known before it was doubted.
fn guessed_code(known: &StampedNumbers, number: Option<u64>) -> Option<usize> {
    match number {
        Some(number) if number < known.len() as u64 => known.last_at(number as usize),
        _ => None,
    }
}

// Returns a number if it is below the limit. Larger ones are not noted.
fn small_code(code: Option<usize>) -> Option<u32>
    ensures same { IfSome result (λ small. code ≡ Some small) }
    ensures small { IfSome result (λ small. small < NUMBER_LIMIT) }
{
    match code {
        Some(code) if code < NUMBER_LIMIT as usize => Some(code as u32),
        _ => None,
    }
}

fn note_code(known: &mut StampedNumbers, number: Option<u64>, code: Option<u32>)
    requires { IfSome code (λ small. small < NUMBER_LIMIT) }
    ensures { known.new ≡ noted known.old number code }
{
    match (number, code) {
        (Some(number), Some(code)) if number < known.len() as u64 => {
            known.set(number as usize, code)
        }
        _ => (),
    }
}

// Returns the place of the entry with a number, if there is a number.
fn code_at(
    entries: &mut KnownEntries<'_>,
    number: Option<usize>,
) -> Result<Option<usize>, AllocError>
    requires { (c : Cell) × IsNumber (seen_cells entries.old) number c }
    ensures seen { OnOk result (seen_cells entries.new ≡ seen_cells entries.old) }
    ensures entries { OnOk result ((c : Cell) → IsNumber (seen_cells entries.old) number c
        → named_cells entries.new ≡ with_entry (named_cells entries.old) c) }
    ensures code { IfOk result (λ code. (c : Cell) → IsNumber (seen_cells entries.old) number c
        → code ≡ code_in (named_cells entries.new) c) }
{
    match number {
        Some(number) => Ok(Some(entries.place_of(number)?)),
        None => Ok(None),
    }
}

// Returns the code of a valid slot whose entry is not known.
pub(crate) fn new_code<'a>(
    entries: &mut KnownEntries<'a>,
    known: &mut StampedNumbers,
    field: &'a Field,
    slots: CodedSlots<'a>,
    i: usize,
) -> Result<Option<usize>, AllocError>
    requires slot { IsCodedSlot field.now slots i }
    requires valid { is_valid (view_array slots.view) i ≡ true }
    requires known { AreKnown (seen_cells entries.old) (own_entries field.now slots.view) known.old }
    ensures entries { OnOk result (named_cells entries.new ≡ with_entry (named_cells entries.old) (coded_cell field.now slots.entry i)) }
    ensures code { IfOk result (λ code. code ≡ code_in (named_cells entries.new) (coded_cell field.now slots.entry i)) }
    ensures known { OnOk result (AreKnown (seen_cells entries.new) (own_entries field.now slots.entry.view) known.new) }
{
    let place = slots.number(i);
    let guess = guessed_code(known, place);
    let number = entries.number_by_guess(value(field, slots.view, i), guess)?;
    note_code(known, place, small_code(number));
    code_at(entries, number)
}

// Writes the index of a code at the place of a slot.
#[inline]
fn put_index<const SIZE: usize>(indices: &mut [u8], place: usize, code: Option<usize>)
    requires small { SIZE ≤ 8 }
    requires room { SIZE * place + SIZE ≤ length indices.old }
    ensures { indices.new ≡ take (SIZE * place) indices.old ++ (sized_code SIZE code ++ drop (SIZE * place + SIZE) indices.old) }
{
    // For the proof: lengths are below 2^64, so that the place of the index is too.
    let _room = indices.len();
    put_code::<SIZE>(indices, SIZE * place, code);
}

// Writes the index of a code at the place of a slot, and whether there is a code.
#[inline]
fn put_at<const SIZE: usize>(
    indices: &mut [u8],
    valid: &mut [bool],
    place: usize,
    code: Option<usize>,
)
    requires { HasPlace SIZE place indices.old valid.old }
    ensures index { indices.new ≡ take (SIZE * place) indices.old ++ (sized_code SIZE code ++ drop (SIZE * place + SIZE) indices.old) }
    ensures valid { valid.new ≡ set valid.old place (is_some code) }
{
    put_index::<SIZE>(indices, place, code);
    valid[place] = code.is_some();
}

// Writes the index of a valid slot whose entry is not known. It is not compiled into the loop over slots, which would keep its variables in memory for it.
#[inline(never)]
fn put_new_code<'a, const SIZE: usize>(
    entries: &mut KnownEntries<'a>,
    known: &mut StampedNumbers,
    indices: &mut [u8],
    valid: &mut [bool],
    field: &'a Field,
    slots: CodedSlots<'a>,
    i: usize,
    place: usize,
) -> Result<(), AllocError>
    requires slot { IsCodedSlot field.now slots i }
    requires valid { is_valid (view_array slots.view) i ≡ true }
    requires known { AreKnown (seen_cells entries.old) (own_entries field.now slots.view) known.old }
    requires place { HasPlace SIZE place indices.old valid.old }
    ensures entries { OnOk result (named_cells entries.new ≡ with_entry (named_cells entries.old) (coded_cell field.now slots.entry i)) }
    ensures put { OnOk result (IsPut SIZE place (named_cells entries.new) (coded_cell field.now slots.entry i)
        indices.old indices.new valid.old valid.new) }
    ensures known { OnOk result (AreKnown (seen_cells entries.new) (own_entries field.now slots.entry.view) known.new) }
{
    let code = new_code(entries, known, field, slots, i)?;
    put_at::<SIZE>(indices, valid, place, code);
    Ok(())
}

// Writes the index of a slot, and whether it has one. Each branch writes by itself, so that none tests again whether there is a code.
#[inline]
fn put_slot_code<'a, const SIZE: usize, const SIGNED: bool>(
    entries: &mut KnownEntries<'a>,
    known: &mut StampedNumbers,
    indices: &mut [u8],
    valid: &mut [bool],
    field: &'a Field,
    slots: CodedSlots<'a>,
    i: usize,
    place: usize,
) -> Result<(), AllocError>
    requires size { SIZE ≡ (index_of slots.spec).bits / 8 }
    requires signed { SIGNED ≡ (index_of slots.spec).signed }
    requires slot { IsCodedSlot field.now slots i }
    requires known { AreKnown (seen_cells entries.old) (own_entries field.now slots.view) known.old }
    requires place { HasPlace SIZE place indices.old valid.old }
    ensures entries { OnOk result (named_cells entries.new ≡ with_entry (named_cells entries.old) (coded_cell field.now slots.entry i)) }
    ensures put { OnOk result (IsPut SIZE place (named_cells entries.new) (coded_cell field.now slots.entry i)
        indices.old indices.new valid.old valid.new) }
    ensures known { OnOk result (AreKnown (seen_cells entries.new) (own_entries field.now slots.entry.view) known.new) }
{
    if !slots.is_valid(i) {
        put_at::<SIZE>(indices, valid, place, None);
        return Ok(());
    }
    let number = slots.number_below::<SIZE, SIGNED>(i, known.len() as u64);
    if let Some(known) = known_code(known, number) {
        let code = entries.place_of(known)?;
        put_at::<SIZE>(indices, valid, place, Some(code));
        return Ok(());
    }
    put_new_code::<SIZE>(entries, known, indices, valid, field, slots, i, place)
}

// Returns the place of the entry of a valid slot; `None` if it is not named.
#[inline]
fn named_code<const SIZE: usize, const SIGNED: bool>(
    entries: &KnownEntries<'_>,
    places: WrittenPlaces<'_>,
    known: &StampedNumbers,
    field: &Field,
    slots: CodedSlots<'_>,
    i: usize,
) -> Option<usize>
    requires places { places_in places ≡ places_of entries.now.places }
    requires size { SIZE ≡ (index_of slots.spec).bits / 8 }
    requires signed { SIGNED ≡ (index_of slots.spec).signed }
    requires slot { IsCodedSlot field.now slots i }
    requires valid { is_valid (view_array slots.view) i ≡ true }
    requires known { AreKnown (seen_cells entries.now) (own_entries field.now slots.view) known.now }
    ensures entries { IfSome result (λ code. named_cells entries.now ≡ with_entry (named_cells entries.now) (coded_cell field.now slots.entry i)) }
    ensures code { IfSome result (λ code. Some code ≡ code_in (named_cells entries.now) (coded_cell field.now slots.entry i)) }
{
    let number = slots.number_below::<SIZE, SIGNED>(i, known.len() as u64);
    match known_code(known, number) {
        Some(number) => entries.named_place(places, number),
        None => None,
    }
}

// Writes the index of a slot, whose bit in `valid` is set before, if it is null or its entry is named. Returns whether it is written.
#[inline]
fn put_named_code<const SIZE: usize, const SIGNED: bool>(
    entries: &KnownEntries<'_>,
    places: WrittenPlaces<'_>,
    known: &StampedNumbers,
    indices: &mut [u8],
    valid: &mut [bool],
    field: &Field,
    slots: CodedSlots<'_>,
    i: usize,
    place: usize,
) -> bool
    requires places { places_in places ≡ places_of entries.now.places }
    requires size { SIZE ≡ (index_of slots.spec).bits / 8 }
    requires signed { SIGNED ≡ (index_of slots.spec).signed }
    requires slot { IsCodedSlot field.now slots i }
    requires known { AreKnown (seen_cells entries.now) (own_entries field.now slots.view) known.now }
    requires place { HasPlace SIZE place indices.old valid.old }
    requires set { get_or valid.old place true ≡ true }
    ensures entries { result ≡ true → named_cells entries.now ≡ with_entry (named_cells entries.now) (coded_cell field.now slots.entry i) }
    ensures put { result ≡ true → IsPut SIZE place (named_cells entries.now) (coded_cell field.now slots.entry i)
        indices.old indices.new valid.old valid.new }
    ensures valid { result ≡ false → is_valid (view_array slots.entry.view) i ≡ true }
    ensures indices { result ≡ false → indices.new ≡ indices.old }
    ensures bits { result ≡ false → valid.new ≡ valid.old }
{
    if !slots.is_valid(i) {
        put_at::<SIZE>(indices, valid, place, None);
        return true;
    }
    match named_code::<SIZE, SIGNED>(entries, places, known, field, slots, i) {
        Some(code) => {
            put_index::<SIZE>(indices, place, Some(code));
            true
        }
        None => false,
    }
}

// Writes the indices of slots from `first` on, up to the first slot whose entry is not named, and returns that slot. The bits in `valid` are set before, and
// written for nulls only.
fn put_named_codes<const SIZE: usize, const SIGNED: bool>(
    entries: &KnownEntries<'_>,
    known: &StampedNumbers,
    indices: &mut [u8],
    valid: &mut [bool],
    field: &Field,
    slots: CodedSlots<'_>,
    from: usize,
    first: usize,
    to: usize,
) -> usize
    requires small { SIZE ≤ 8 }
    requires size { SIZE ≡ (index_of slots.spec).bits / 8 }
    requires signed { SIGNED ≡ (index_of slots.spec).signed }
    requires order { from ≤ first }
    requires within { first ≤ to }
    requires slots { AreCodedSlots field.now slots first to }
    requires known { AreKnown (seen_cells entries.now) (own_entries field.now slots.view) known.now }
    requires room { length indices.old ≡ SIZE * (to - from) }
    requires places { length valid.old ≡ to - from }
    requires set { AreSetFrom (first - from) valid.old }
    ensures order { first ≤ result }
    ensures within { result ≤ to }
    ensures valid { result < to → is_valid (view_array slots.entry.view) result ≡ true }
    ensures slots { AreCodedSlots field.now slots.entry result to }
    ensures set { AreSetFrom (result - from) valid.new }
    ensures written { let cells = coded_cell field.now slots.entry in let entries = named_cells entries.now in (start all : List Cell)
        → IsPartWritten SIZE start all entries (cells_from cells first (to - first)) indices.old valid.old (first - from)
        → IsPartWritten SIZE start all entries (cells_from cells result (to - result)) indices.new valid.new (result - from) }
{
    let places = entries.places.all();
    for i in first..to {
        if !put_named_code::<SIZE, SIGNED>(
            entries,
            places,
            known,
            indices,
            valid,
            field,
            slots,
            i,
            i - from,
        ) {
            return i;
        }
    }
    to
}

// Writes the indices of slots from `first` up to `end`, whether their entries are named or not. It is not compiled into the loop over named ones either.
#[inline(never)]
fn put_each_code<'a, const SIZE: usize, const SIGNED: bool>(
    entries: &mut KnownEntries<'a>,
    known: &mut StampedNumbers,
    indices: &mut [u8],
    valid: &mut [bool],
    field: &'a Field,
    slots: CodedSlots<'a>,
    from: usize,
    first: usize,
    end: usize,
) -> Result<(), AllocError>
    requires small { SIZE ≤ 8 }
    requires size { SIZE ≡ (index_of slots.spec).bits / 8 }
    requires signed { SIGNED ≡ (index_of slots.spec).signed }
    requires order { from ≤ first }
    requires within { first ≤ end }
    requires slots { AreCodedSlots field.now slots first end }
    requires known { AreKnown (seen_cells entries.old) (own_entries field.now slots.view) known.old }
    requires room { SIZE * (end - from) ≤ length indices.old }
    requires places { end - from ≤ length valid.old }
    requires set { AreSetFrom (first - from) valid.old }
    ensures set { OnOk result (AreSetFrom (end - from) valid.new) }
    ensures known { OnOk result (AreKnown (seen_cells entries.new) (own_entries field.now slots.entry.view) known.new) }
    ensures written { OnOk result (let cells = coded_cell field.now slots.entry in (start all left : List Cell)
        → IsPartWritten SIZE start all (named_cells entries.old) (cells_from cells first (end - first) ++ left) indices.old valid.old (first - from)
        → IsPartWritten SIZE start all (named_cells entries.new) left indices.new valid.new (end - from)) }
{
    // For the proof: lengths are below 2^64, so that the places of all indices are too.
    let _room = indices.len();
    for i in first..end {
        put_slot_code::<SIZE, SIGNED>(entries, known, indices, valid, field, slots, i, i - from)?;
    }
    Ok(())
}

// Returns how many slots are written one by one after `named` slots with named entries: only one if these are many.
fn count_of_each(named: usize) -> usize
    ensures { 0 < result }
{
    if named < FEW_NAMED { SLOTS_AT_ONCE } else { 1 }
}

// Returns the end of the slots that are written one by one from `next` on, if those from `first` up to `next` have named entries.
fn end_of_each(first: usize, next: usize, to: usize) -> usize
    requires order { first ≤ next }
    requires within { next ≤ to }
    requires more { first < to }
    ensures order { next ≤ result }
    ensures within { result ≤ to }
    ensures later { first < result }
{
    let count = count_of_each(next - first);
    if to - next < count { to } else { next + count }
}

// Writes the indices, of `SIZE` bytes each, of some slots of an array, and whether each slot has one. The slices have room for exactly these slots.
fn put_sized_codes<'a, const SIZE: usize, const SIGNED: bool>(
    entries: &mut KnownEntries<'a>,
    known: &mut StampedNumbers,
    indices: &mut [u8],
    valid: &mut [bool],
    field: &'a Field,
    slots: CodedSlots<'a>,
    from: usize,
    to: usize,
) -> Result<(), AllocError>
    requires small { SIZE ≤ 8 }
    requires size { SIZE ≡ (index_of slots.spec).bits / 8 }
    requires signed { SIGNED ≡ (index_of slots.spec).signed }
    requires order { from ≤ to }
    requires slots { AreCodedSlots field.now slots from to }
    requires known { AreKnown (seen_cells entries.old) (own_entries field.now slots.view) known.old }
    requires room { length indices.old ≡ SIZE * (to - from) }
    requires places { length valid.old ≡ to - from }
    ensures written { OnOk result (IsWritten SIZE (named_cells entries.old) (named_cells entries.new)
        indices.new valid.new (cells_from (coded_cell field.now slots.entry) from (to - from))) }
    ensures known { OnOk result (AreKnown (seen_cells entries.new) (own_entries field.now slots.entry.view) known.new) }
{
    // For the proof: lengths are below 2^64, so that the places of all indices are too.
    let _room = indices.len();
    valid.fill(true);
    let mut i = from;
    while i < to {
        let next = put_named_codes::<SIZE, SIGNED>(
            entries, known, indices, valid, field, slots, from, i, to,
        );
        let end = end_of_each(i, next, to);
        put_each_code::<SIZE, SIGNED>(
            entries, known, indices, valid, field, slots, from, next, end,
        )?;
        i = end;
    }
    Ok(())
}

// Writes the indices of some slots, by a loop for indices with a sign or by one for those without.
fn put_codes_of_size<'a, const SIZE: usize>(
    entries: &mut KnownEntries<'a>,
    known: &mut StampedNumbers,
    indices: &mut [u8],
    valid: &mut [bool],
    field: &'a Field,
    slots: CodedSlots<'a>,
    from: usize,
    to: usize,
) -> Result<(), AllocError>
    requires small { SIZE ≤ 8 }
    requires size { SIZE ≡ (index_of slots.spec).bits / 8 }
    requires order { from ≤ to }
    requires slots { AreCodedSlots field.now slots from to }
    requires known { AreKnown (seen_cells entries.old) (own_entries field.now slots.view) known.old }
    requires room { length indices.old ≡ SIZE * (to - from) }
    requires places { length valid.old ≡ to - from }
    ensures written { OnOk result (IsWritten SIZE (named_cells entries.old) (named_cells entries.new)
        indices.new valid.new (cells_from (coded_cell field.now slots.entry) from (to - from))) }
    ensures known { OnOk result (AreKnown (seen_cells entries.new) (own_entries field.now slots.entry.view) known.new) }
{
    if slots.spec.index.signed {
        put_sized_codes::<SIZE, true>(entries, known, indices, valid, field, slots, from, to)
    } else {
        put_sized_codes::<SIZE, false>(entries, known, indices, valid, field, slots, from, to)
    }
}

/// Writes the indices of some slots of an array, by a loop for their width. The slices have room for exactly these slots.
pub(crate) fn put_slot_codes<'a>(
    entries: &mut KnownEntries<'a>,
    known: &mut StampedNumbers,
    indices: &mut [u8],
    valid: &mut [bool],
    field: &'a Field,
    slots: CodedSlots<'a>,
    from: usize,
    to: usize,
) -> Result<(), AllocError>
    requires order { from ≤ to }
    requires slots { AreCodedSlots field.now slots from to }
    requires known { AreKnown (seen_cells entries.old) (own_entries field.now slots.view) known.old }
    requires room { length indices.old ≡ bits_of slots.spec.index.width / 8 * (to - from) }
    requires places { length valid.old ≡ to - from }
    ensures written { OnOk result (IsWritten (bits_of slots.entry.spec.index.width / 8) (named_cells entries.old) (named_cells entries.new)
        indices.new valid.new (cells_from (coded_cell field.now slots.entry) from (to - from))) }
    ensures known { OnOk result (AreKnown (seen_cells entries.new) (own_entries field.now slots.entry.view) known.new) }
{
    match slots.spec.index.width {
        BitWidth::Eight => {
            put_codes_of_size::<1>(entries, known, indices, valid, field, slots, from, to)
        }
        BitWidth::Sixteen => {
            put_codes_of_size::<2>(entries, known, indices, valid, field, slots, from, to)
        }
        BitWidth::ThirtyTwo => {
            put_codes_of_size::<4>(entries, known, indices, valid, field, slots, from, to)
        }
        BitWidth::SixtyFour => {
            put_codes_of_size::<8>(entries, known, indices, valid, field, slots, from, to)
        }
    }
}

// Writes the indices of slots of an array, whose mask bits begin at `at`, and whether each slot has one.
fn put_array_codes<'a>(
    alloc: Global,
    entries: &mut KnownEntries<'a>,
    indices: &mut [u8],
    valid: &mut [bool],
    field: &'a Field,
    spec: DictSpec,
    array: ArrayView<'a>,
    from: usize,
    len: usize,
    mask: &[u8],
    at: usize,
) -> Result<(), AllocError>
    requires spec { field.now.dictionary ≡ Some spec }
    requires sound { is_run_sound (column_of field.now) (Slots array from len) ≡ true }
    requires coded { list_all is_coded (masked (part_bits mask.now at len) (run_cells (column_of field.now) (Slots array from len))) ≡ true }
    requires room { length indices.old ≡ bits_of spec.index.width / 8 * len }
    requires places { length valid.old ≡ len }
    requires counted { at + len < 18446744073709551616 }
    requires long { length mask.now ≢ 0 → at + len ≤ 8 * length mask.now }
    ensures { OnOk result (IsWritten (bits_of spec.index.width / 8) (named_cells entries.old) (named_cells entries.new) indices.new valid.new
        (masked (part_bits mask.now at len) (run_cells (column_of field.now) (Slots array.entry from len)))) }
{
    let mut known = entries.take_numbers(alloc, field, array, len)?;
    let slots = CodedSlots::new(spec, array);
    put_part_codes(
        entries, &mut known, indices, valid, field, slots, from, len, mask, at,
    )?;
    entries.keep_numbers(field, array, known)
}

/// Writes zeros for the indices of nulls, and that no slot has one.
pub(crate) fn put_null_codes(indices: &mut [u8], valid: &mut [bool])
    ensures indices { indices.new ≡ replicate (length indices.old) 0 }
    ensures valid { valid.new ≡ replicate (length valid.old) false }
{
    indices.fill(0);
    valid.fill(false);
}

// Writes the indices of the cells of a run, whose mask bits begin at `at`, and whether each slot has one.
fn put_run_codes<'a>(
    alloc: Global,
    entries: &mut KnownEntries<'a>,
    indices: &mut [u8],
    valid: &mut [bool],
    field: &'a Field,
    spec: DictSpec,
    run: &SlotRun<'a>,
    mask: &[u8],
    at: usize,
) -> Result<(), AllocError>
    requires spec { field.now.dictionary ≡ Some spec }
    requires sound { is_run_sound (column_of field.now) run.now ≡ true }
    requires coded { list_all is_coded (masked (part_bits mask.now at (length (run_bits run.now))) (run_cells (column_of field.now) run.now)) ≡ true }
    requires room { length indices.old ≡ bits_of spec.index.width / 8 * length (run_bits run.now) }
    requires places { length valid.old ≡ length (run_bits run.now) }
    requires counted { at + length (run_bits run.now) < 18446744073709551616 }
    requires long { length mask.now ≢ 0 → at + length (run_bits run.now) ≤ 8 * length mask.now }
    ensures { OnOk result (IsWritten (bits_of spec.index.width / 8) (named_cells entries.old) (named_cells entries.new) indices.new valid.new
        (masked (part_bits mask.now at (length (run_bits run.now))) (run_cells (column_of field.now) run.now))) }
{
    match run {
        SlotRun::Slots { array, from, len } => {
            put_array_codes(
                alloc, entries, indices, valid, field, spec, *array, *from, *len, mask, at,
            )
        }
        SlotRun::Nulls(_) => {
            put_null_codes(indices, valid);
            Ok(())
        }
    }
}

/// Writes the indices of the cells of runs under a mask, and whether each slot has one; adds the cells to the named entries. The slices have room for exactly
/// these slots. It is compiled by itself: within a large function the loop over slots has too few registers.
#[inline(never)]
pub(crate) fn put_codes<'a>(
    alloc: Global,
    entries: &mut KnownEntries<'a>,
    indices: &mut [u8],
    valid: &mut [bool],
    field: &'a Field,
    spec: DictSpec,
    runs: &[SlotRun<'a>],
    mask: &[u8],
) -> Result<(), AllocError>
    requires spec { field.now.dictionary ≡ Some spec }
    requires sound { are_runs_sound (column_of field.now) runs.now ≡ true }
    requires mask { IsMask mask.now runs.now }
    requires coded { list_all is_coded (masked_cells (column_of field.now) mask.now runs.now) ≡ true }
    requires room { length indices.old ≡ bits_of spec.index.width / 8 * length (runs_bits runs.now) }
    requires places { length valid.old ≡ length (runs_bits runs.now) }
    ensures { OnOk result (IsWritten (bits_of spec.index.width / 8) (named_cells entries.old) (named_cells entries.new) indices.new valid.new
        (masked_cells (column_of field.now) mask.now runs.now)) }
{
    // For the proof: lengths are below 2^64, so that all places are too.
    let _room = indices.len();
    let _places = valid.len();
    let width = spec.index.width.bytes();
    let mut at = 0;
    for run in runs {
        let end = at + run_len(run);
        let part = &mut indices[width * at..width * end];
        let bits = &mut valid[at..end];
        put_run_codes(alloc, entries, part, bits, field, spec, run, mask, at)?;
        at = end;
    }
    Ok(())
}
