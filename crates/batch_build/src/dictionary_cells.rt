// The entries of a dictionary, and the indices that name them.
ghost use Rattle.std.specs.Prelude.{◌≡◌, OnOk, IfOk, map, []};
ghost use Rattle.std.specs.List.{flat_map};
ghost use Rattle.arrow_schema.specs.View.{bits_of};
ghost use Rattle.cells.specs.Dictionary.{entries_of, with_entry};
ghost use Rattle.cells.specs.Entry.{entry_cell};
ghost use Rattle.columns.specs.Built.{entry_index, index_bytes};
ghost use Rattle.columns.specs.Borrowed.{borrowed_cell};

use arrow_schema::IntegerType;
use cells::{Entry, note};
use columns::push_index;
use indexmap::IndexSet;
use std::alloc::{AllocError, Global};
use values::ValueRef;

// Adds the entry that a cell would be, and keeps the first cell with that entry.
fn note_cell<'a>(
    entries: &mut IndexSet<Entry<'a>>,
    firsts: &mut Vec<ValueRef<'a>>,
    cell: ValueRef<'a>,
) -> Result<(), AllocError>
    requires { map borrowed_cell firsts.old.items ≡ map entry_cell entries.old.keys }
    ensures firsts { OnOk result (map borrowed_cell firsts.new.items ≡ map entry_cell entries.new.keys) }
    ensures noted { OnOk result (map entry_cell entries.new.keys ≡ with_entry (map entry_cell entries.old.keys) (borrowed_cell cell.entry)) }
{
    note(entries, cell.as_entry())?;
    if firsts.len() < entries.len() {
        firsts.push(cell)?;
    }
    Ok(())
}

/// Returns the entries of a dictionary with these cells: the distinct values, in the order in which they first occur. The first cell with each is kept.
#[tactic(auto, unfolding(cells::specs::Dictionary::with_entries))]
pub(crate) fn entry_set<'a>(
    alloc: Global,
    firsts: &mut Vec<ValueRef<'a>>,
    cells: &[ValueRef<'a>],
) -> Result<IndexSet<Entry<'a>>, AllocError>
    requires { firsts.old.items ≡ [] }
    ensures entries { IfOk result (λ entries. map entry_cell entries.keys ≡ entries_of (map borrowed_cell cells.now)) }
    ensures firsts { OnOk result (map borrowed_cell firsts.new.items ≡ entries_of (map borrowed_cell cells.now)) }
{
    let mut entries = IndexSet::new(alloc);
    for cell in cells {
        note_cell(&mut entries, firsts, *cell)?;
    }
    Ok(entries)
}

// Returns the index of the entry that a cell is: 0 if it is none.
fn entry_index(entries: &IndexSet<Entry<'_>>, cell: ValueRef<'_>) -> usize
    ensures { result ≡ entry_index (map entry_cell entries.now.keys) (borrowed_cell cell.entry) }
{
    match cell.as_entry() {
        None => 0,
        Some(entry) => match entries.get_index_of(&entry) {
            None => 0,
            Some(index) => index,
        },
    }
}

/// Makes the indices of cells in a dictionary, each that of its entry; the index of a null is 0.
pub(crate) fn indices(
    alloc: Global,
    index: IntegerType,
    entries: &IndexSet<Entry<'_>>,
    cells: &[ValueRef<'_>],
) -> Result<Vec<u8>, AllocError>
    ensures { IfOk result (λ bytes. bytes.items
        ≡ flat_map (index_bytes (record { bits = bits_of index.width; signed = index.signed }) (map entry_cell entries.now.keys))
        (map borrowed_cell cells.now)) }
{
    let size = cells.len().saturating_mul(index.width.bytes());
    let mut indices = Vec::with_capacity(alloc, size)?;
    for cell in cells {
        let place = entry_index(entries, *cell) as u64;
        push_index(&mut indices, index.width, place)?;
    }
    Ok(indices)
}
