// The codes of runs of slots of a column with a dictionary.
ghost use Rattle.std.specs.Prelude.{◌≡◌, ◌*◌, ◌/◌, true, IfOk, Some, [], length, map};
ghost use Rattle.std.specs.List.{flat_map, list_all};
ghost use Rattle.arrow_schema.specs.View.{bits_of, column_of, index_of};
ghost use Rattle.dictionary_codes.specs.Masks.{IsMask, masked_cells, runs_bits};
ghost use Rattle.dictionary_codes.specs.CodedCells.{is_coded};
ghost use Rattle.columns.specs.Runs.{are_runs_sound};
ghost use Rattle.cells.specs.Dictionary.{entries_of};
ghost use Rattle.cells.specs.Entry.{entry_cell};
ghost use Rattle.columns.specs.Built.{index_bytes};
ghost use Rattle.cells.specs.Nulls.{is_there};

use crate::known_entries::KnownEntries;
use crate::run_codes::put_codes;
use crate::run_slots::count_slots;
use arrow_schema::{BitWidth, DictSpec, Field};
use cells::Entry;
use columns::SlotRun;
use std::alloc::{AllocError, Global};

/// The codes of slots of a column with a dictionary: the bytes of the indices, zeros for nulls; whether each slot has an index, that is, is not null; and the
/// entries that the indices name (Arrow columnar format, "Dictionary-encoded Layout").
#[derive(Drop)]
pub struct RunCodes<'a> {
    pub indices: Vec<u8>,
    pub valid: Vec<bool>,
    pub entries: Vec<Entry<'a>>,
}

// Returns zeros for the indices of `slots` slots. If their number of bytes exceeds a `usize`, memory has no room for them.
fn room_for(alloc: Global, width: BitWidth, slots: usize) -> Result<Vec<u8>, AllocError>
    ensures { IfOk result (λ bytes. length bytes.items ≡ bits_of width / 8 * slots) }
{
    match width.bytes().checked_mul(slots) {
        Some(size) => vec![in alloc; 0; size],
        None => Err(AllocError),
    }
}

// Returns the codes of runs that have `slots` slots, if no entry is named yet.
fn new_codes<'a>(
    alloc: Global,
    entries: &mut KnownEntries<'a>,
    slots: usize,
    field: &'a Field,
    spec: DictSpec,
    runs: &[SlotRun<'a>],
    mask: &[u8],
) -> Result<RunCodes<'a>, AllocError>
    requires none { entries.old.named.items ≡ [] }
    requires count { slots ≡ length (runs_bits runs.now) }
    requires spec { field.now.dictionary ≡ Some spec }
    requires sound { are_runs_sound (column_of field.now) runs.now ≡ true }
    requires mask { IsMask mask.now runs.now }
    requires coded { list_all is_coded (masked_cells (column_of field.now) mask.now runs.now) ≡ true }
    ensures indices { IfOk result (λ codes. codes.indices.items
        ≡ flat_map (index_bytes (index_of spec) (entries_of (masked_cells (column_of field.now) mask.now runs.now)))
        (masked_cells (column_of field.now) mask.now runs.now)) }
    ensures valid { IfOk result (λ codes. codes.valid.items ≡ map is_there (masked_cells (column_of field.now) mask.now runs.now)) }
    ensures entries { IfOk result (λ codes. map entry_cell codes.entries.items ≡ entries_of (masked_cells (column_of field.now) mask.now runs.now)) }
{
    let mut indices = room_for(alloc, spec.index.width, slots)?;
    let mut valid = vec![in alloc; false; slots]?;
    put_codes(
        alloc,
        entries,
        indices.as_mut_slice(),
        valid.as_mut_slice(),
        field,
        spec,
        runs,
        mask,
    )?;
    let entries = entries.entries(alloc)?;
    Ok(RunCodes {
        indices,
        valid,
        entries,
    })
}

/// Returns the codes of runs of slots: the index of a slot is the place of its value among the distinct ones, in the order in which they are first seen. A slot
/// whose bit in the mask is not set is null, whatever it holds. What is known of dictionaries is used, and what is learned about them is kept.
///
/// # Errors
/// `AllocError` if memory was refused. What is known stays true.
pub fn codes_of_runs<'a>(
    alloc: Global,
    entries: &mut KnownEntries<'a>,
    field: &'a Field,
    spec: DictSpec,
    runs: &[SlotRun<'a>],
    mask: &[u8],
) -> Result<RunCodes<'a>, AllocError>
    requires spec { field.now.dictionary ≡ Some spec }
    requires sound { are_runs_sound (column_of field.now) runs.now ≡ true }
    requires mask { IsMask mask.now runs.now }
    requires coded { list_all is_coded (masked_cells (column_of field.now) mask.now runs.now) ≡ true }
    ensures indices { IfOk result (λ codes. codes.indices.items
        ≡ flat_map (index_bytes (index_of spec) (entries_of (masked_cells (column_of field.now) mask.now runs.now)))
        (masked_cells (column_of field.now) mask.now runs.now)) }
    ensures valid { IfOk result (λ codes. codes.valid.items ≡ map is_there (masked_cells (column_of field.now) mask.now runs.now)) }
    ensures entries { IfOk result (λ codes. map entry_cell codes.entries.items ≡ entries_of (masked_cells (column_of field.now) mask.now runs.now)) }
{
    entries.end();
    let slots = count_slots(runs)?;
    let codes = new_codes(alloc, entries, slots, field, spec, runs, mask)?;
    entries.end();
    Ok(codes)
}
