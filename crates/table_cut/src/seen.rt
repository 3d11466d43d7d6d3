// The entries that the dictionary columns have in the rows of a piece.
ghost use Rattle.std.specs.Prelude.{◌≡◌, [], ◌∷◌, ◌++◌, List, map, length, OnOk, IfOk};
ghost use Rattle.arrow_schema.specs.Column.{columns_of};
ghost use Rattle.arrow_schema.specs.View.{schema_of};
ghost use Rattle.cells.specs.Cell.{Cell};
ghost use Rattle.cells.specs.Dictionary.{with_entries, is_within, is_any_limited, dictionaries_fit};
ghost use Rattle.table_cut.specs.inner.Seen.{held_in, entries_in, entries_held, with_all, are_within, AreSeen};
ghost use Rattle.columns.specs.Borrowed.{borrowed_cell, borrowed_cells};

use crate::holding::{Held, held_in_row};
use arrow_schema::Schema;
use cells::{Entry, note};
use indexmap::IndexSet;
use std::alloc::{AllocError, Global};
use values::{ValueRef, Values};

#[tactic(auto, unfolding(cells::specs::Dictionary::with_entries))]
fn note_all<'a>(
    entries: &mut IndexSet<Entry<'a>>,
    values: &[ValueRef<'a>],
) -> Result<(), AllocError>
    ensures { OnOk result (entries_in entries.new ≡ with_entries (entries_in entries.old) (map borrowed_cell values.now)) }
{
    for value in values {
        note(entries, value.as_entry())?;
    }
    Ok(())
}

// Returns a set of the entries of each dictionary column.
fn begin<'a>(alloc: Global, held: &[Held<'a>]) -> Result<Vec<IndexSet<Entry<'a>>>, AllocError>
    ensures { IfOk result (λ sets. map entries_in sets.items ≡ map entries_held (map held_in held.now)) }
{
    let mut sets = Vec::new(alloc);
    for column in held {
        let mut entries = IndexSet::new(alloc);
        note_all(&mut entries, &column.cells)?;
        sets.push(entries)?;
    }
    Ok(sets)
}

fn note_each<'a>(sets: &mut [IndexSet<Entry<'a>>], held: &[Held<'a>]) -> Result<(), AllocError>
    requires { length sets.old ≡ length held.now }
    ensures { OnOk result (map entries_in sets.new ≡ with_all (map entries_in sets.old) (map held_in held.now)) }
{
    for (i, column) in held.iter().enumerate() {
        let entries = &mut sets[i];
        note_all(entries, &column.cells)?;
    }
    Ok(())
}

fn is_within(limit: Option<usize>, count: usize) -> bool
    ensures { result ≡ is_within limit count }
{
    match limit {
        None => true,
        Some(most) => count <= most,
    }
}

fn are_within(sets: &[IndexSet<Entry<'_>>], held: &[Held<'_>]) -> bool
    requires { length sets.now ≡ length held.now }
    ensures { result ≡ are_within (map held_in held.now) (map entries_in sets.now) }
{
    for (i, column) in held.iter().enumerate() {
        if !is_within(column.limit, sets[i].len()) {
            return false;
        }
    }
    true
}

/// Returns the entries of a piece's first row, a set for each dictionary column; no set if no dictionary has a limit.
pub(crate) fn first_entries<'a>(
    alloc: Global,
    schema: &Schema,
    row: Values<'a>,
    limited: bool,
) -> Result<Vec<IndexSet<Entry<'a>>>, AllocError>
    requires { limited ≡ is_any_limited (columns_of (schema_of schema.now).columns) }
    ensures { IfOk result (λ sets. AreSeen (schema_of schema.now) (borrowed_cells row.entry ∷ []) (map entries_in sets.items)) }
{
    if !limited {
        return Ok(Vec::new(alloc));
    }
    let held = held_in_row(alloc, &schema.fields, row)?;
    begin(alloc, &held)
}

/// Adds the entries of one more row, and returns whether the dictionaries have room for it.
pub(crate) fn takes_row<'a>(
    alloc: Global,
    schema: &Schema,
    sets: &mut [IndexSet<Entry<'a>>],
    row: Values<'a>,
    limited: bool,
) -> Result<bool, AllocError>
    requires limited { limited ≡ is_any_limited (columns_of (schema_of schema.now).columns) }
    requires seen { (rows : List (List Cell)) × AreSeen (schema_of schema.now) rows (map entries_in sets.old) }
    ensures fits { IfOk result (λ b. (rows : List (List Cell)) → AreSeen (schema_of schema.now) rows (map entries_in sets.old)
        → b ≡ dictionaries_fit (schema_of schema.now) (rows ++ borrowed_cells row.entry ∷ [])) }
    ensures seen { OnOk result ((rows : List (List Cell)) → AreSeen (schema_of schema.now) rows (map entries_in sets.old)
        → AreSeen (schema_of schema.now) (rows ++ borrowed_cells row.entry ∷ []) (map entries_in sets.new)) }
{
    if !limited {
        return Ok(true);
    }
    let held = held_in_row(alloc, &schema.fields, row)?;
    note_each(sets, &held)?;
    Ok(are_within(sets, &held))
}

/// Returns whether the dictionaries have room for a row by itself.
pub(crate) fn fits_dictionaries(
    alloc: Global,
    schema: &Schema,
    row: Values<'_>,
) -> Result<bool, AllocError>
    ensures { IfOk result (λ b. b ≡ dictionaries_fit (schema_of schema.now) (borrowed_cells row.entry ∷ [])) }
{
    let held = held_in_row(alloc, &schema.fields, row)?;
    let sets = begin(alloc, &held)?;
    Ok(are_within(&sets, &held))
}
