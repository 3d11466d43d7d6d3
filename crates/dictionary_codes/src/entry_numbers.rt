// The number of an entry among those that were seen, and the index that is written for its place.
ghost use Rattle.std.specs.Prelude.{◌≡◌, ◌≤◌, ◌+◌, ◌++◌, OnErr, OnOk, IfOk, drop, length, map, take};
ghost use Rattle.dictionary_codes.specs.inner.Codes.{IsNumber, sized_code};
ghost use Rattle.cells.specs.Dictionary.{with_entry};
ghost use Rattle.cells.specs.Entry.{entry_cell};
ghost use Rattle.columns.specs.Built.{place_or_zero};
ghost use Rattle.columns.specs.Borrowed.{borrowed_cell};

use crate::number_bytes::put_number;
use cells::Entry;
use indexmap::IndexSet;
use std::alloc::AllocError;
use values::ValueRef;

/// Adds a value to the entries that were seen, and returns its number among them; `None` if it is not an entry, as a null.
pub(crate) fn number_of<'a>(
    seen: &mut IndexSet<Entry<'a>>,
    cell: ValueRef<'a>,
) -> Result<Option<usize>, AllocError>
    ensures seen { OnOk result (map entry_cell seen.new.keys ≡ with_entry (map entry_cell seen.old.keys) (borrowed_cell cell.entry)) }
    ensures number { IfOk result (λ number. IsNumber (map entry_cell seen.new.keys) number (borrowed_cell cell.entry)) }
    ensures unchanged { OnErr result (seen.new.keys ≡ seen.old.keys) }
{
    match cell.as_entry() {
        None => Ok(None),
        Some(entry) => {
            let (number, _) = seen.insert_full(entry)?;
            Ok(Some(number))
        }
    }
}

// Returns the place that a code is, or 0 if there is no code.
#[inline]
fn place_or_zero(code: Option<usize>) -> u64
    ensures { result ≡ place_or_zero code }
{
    match code {
        Some(place) => place as u64,
        None => 0,
    }
}

/// Overwrites `SIZE` bytes from `at` on with the index of a code, or with zeros if there is no code.
#[inline]
pub(crate) fn put_code<const SIZE: usize>(indices: &mut [u8], at: usize, code: Option<usize>)
    requires size { SIZE ≤ 8 }
    requires room { at + SIZE ≤ length indices.old }
    ensures { indices.new ≡ take at indices.old ++ (sized_code SIZE code ++ drop (at + SIZE) indices.old) }
{
    put_number::<SIZE>(indices, at, place_or_zero(code));
}
