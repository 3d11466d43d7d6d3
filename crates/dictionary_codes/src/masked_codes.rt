// The indices of slots of an array under a mask: a slot whose bit is not set is null, whatever it holds.
ghost use Rattle.std.specs.Prelude.{◌≡◌, ◌≢◌, ◌≤◌, ◌<◌, ◌+◌, ◌-◌, ◌*◌, ◌/◌, ℕ, true, OnOk, Some, length, replicate};
ghost use Rattle.std.specs.List.{list_all};
ghost use Rattle.arrow_schema.specs.View.{bits_of, column_of};
ghost use Rattle.dictionary_codes.specs.inner.Codes.{AreCodedSlots, AreKnown, IsWritten, coded_cell, own_entries};
ghost use Rattle.dictionary_codes.specs.Masks.{masked};
ghost use Rattle.dictionary_codes.specs.inner.MaskParts.{part_bit, part_bits};
ghost use Rattle.dictionary_codes.specs.Named.{named_cells, seen_cells};
ghost use Rattle.dictionary_codes.specs.CodedCells.{is_coded};
ghost use Rattle.columns.specs.Array.{slots_in};
ghost use Rattle.columns.specs.CellAt.{cells_from};
ghost use Rattle.columns.specs.Sound.{is_sound};
ghost use Rattle.columns.specs.View.{view_array};

use crate::known_entries::KnownEntries;
use crate::run_codes::{put_null_codes, put_slot_codes};
use crate::stamped_numbers::StampedNumbers;
use arrow_schema::Field;
use bitmap::{get, run_end};
use columns::CodedSlots;
use std::alloc::AllocError;

// Writes the indices of slots whose bits are all `set`, and whether each slot has one. The slices have room for exactly these slots.
fn put_alike_codes<'a>(
    entries: &mut KnownEntries<'a>,
    known: &mut StampedNumbers,
    indices: &mut [u8],
    valid: &mut [bool],
    field: &'a Field,
    slots: CodedSlots<'a>,
    from: usize,
    to: usize,
    set: bool,
) -> Result<(), AllocError>
    requires order { from ≤ to }
    requires slots { set ≡ true → AreCodedSlots field.now slots from to }
    requires known { AreKnown (seen_cells entries.old) (own_entries field.now slots.view) known.old }
    requires room { length indices.old ≡ bits_of slots.spec.index.width / 8 * (to - from) }
    requires places { length valid.old ≡ to - from }
    ensures written { OnOk result (IsWritten (bits_of slots.entry.spec.index.width / 8) (named_cells entries.old) (named_cells entries.new)
        indices.new valid.new (masked (replicate (to - from) set) (cells_from (coded_cell field.now slots.entry) from (to - from)))) }
    ensures known { OnOk result (AreKnown (seen_cells entries.new) (own_entries field.now slots.entry.view) known.new) }
{
    if set {
        put_slot_codes(entries, known, indices, valid, field, slots, from, to)
    } else {
        put_null_codes(indices, valid);
        Ok(())
    }
}

// Returns the end of the run of equal bits that begins at bit `from`, or `to` if the run is longer. In a mask without bytes all bits are set.
fn alike_to(mask: &[u8], from: usize, to: usize) -> usize
    requires some { from < to }
    requires long { length mask.now ≢ 0 → to ≤ 8 * length mask.now }
    ensures begins { from < result }
    ensures ends { result ≤ to }
    ensures alike { (i : ℕ) → from ≤ i → i < result → part_bit mask.now i ≡ part_bit mask.now from }
{
    if mask.is_empty() {
        return to;
    }
    run_end(mask, from, to)
}

// Returns whether a bit is set. In a mask without bytes all bits are set.
fn is_set(mask: &[u8], i: usize) -> bool
    requires { length mask.now ≢ 0 → i < 8 * length mask.now }
    ensures { result ≡ part_bit mask.now i }
{
    mask.is_empty() || get(mask, i)
}

/// Writes the indices of `len` slots of an array, whose mask bits begin at `at`, and whether each slot has one. The slices have room for exactly these slots.
pub(crate) fn put_part_codes<'a>(
    entries: &mut KnownEntries<'a>,
    known: &mut StampedNumbers,
    indices: &mut [u8],
    valid: &mut [bool],
    field: &'a Field,
    slots: CodedSlots<'a>,
    from: usize,
    len: usize,
    mask: &[u8],
    at: usize,
) -> Result<(), AllocError>
    requires spec { field.now.dictionary ≡ Some slots.spec }
    requires sound { is_sound (column_of field.now) (view_array slots.view) ≡ true }
    requires within { from + len ≤ slots_in (view_array slots.view) }
    requires coded { list_all is_coded (masked (part_bits mask.now at len) (cells_from (coded_cell field.now slots) from len)) ≡ true }
    requires known { AreKnown (seen_cells entries.old) (own_entries field.now slots.view) known.old }
    requires room { length indices.old ≡ bits_of slots.spec.index.width / 8 * len }
    requires places { length valid.old ≡ len }
    requires counted { at + len < 18446744073709551616 }
    requires long { length mask.now ≢ 0 → at + len ≤ 8 * length mask.now }
    ensures written { OnOk result (IsWritten (bits_of slots.entry.spec.index.width / 8) (named_cells entries.old) (named_cells entries.new)
        indices.new valid.new (masked (part_bits mask.now at len) (cells_from (coded_cell field.now slots.entry) from len))) }
    ensures known { OnOk result (AreKnown (seen_cells entries.new) (own_entries field.now slots.entry.view) known.new) }
{
    // For the proof: lengths are below 2^64, so that all places are too.
    let _room = indices.len();
    let _slots = slots.view.slots();
    let width = slots.spec.index.width.bytes();
    let mut done = 0;
    while done < len {
        let stop = alike_to(mask, at + done, at + len) - at;
        // This is the only call, so that it is compiled into the loop, and what is known of the slots stays in registers.
        put_alike_codes(
            entries,
            known,
            &mut indices[width * done..width * stop],
            &mut valid[done..stop],
            field,
            slots,
            from + done,
            from + stop,
            is_set(mask, at + done),
        )?;
        done = stop;
    }
    Ok(())
}
