// Finds the places of entries, which are in order of their names: the search halves what is left.
ghost use Rattle.std.specs.Prelude.{◌≡◌, true, map};
ghost use Rattle.catalogue.specs.Entries.{plain_entry, names_of, ascends};
ghost use Rattle.catalogue.specs.inner.Places.{place_of, seat_of};

use crate::TableEntry;
use std::cmp::Ordering;

// Returns the place of the entry with this name, if there is one.
pub(crate) fn place_of(entries: &[TableEntry], name: &str) -> Option<usize>
    requires { ascends (names_of (map plain_entry entries.now)) ≡ true }
    ensures { result ≡ place_of name.now 0 (map plain_entry entries.now) }
{
    match seat_of(entries, name) {
        Ok(place) => Some(place),
        Err(_) => None,
    }
}

// Returns the place of the entry with this name as `Ok`, or the place to insert one as `Err`.
pub(crate) fn seat_of(entries: &[TableEntry], name: &str) -> Result<usize, usize>
    requires { ascends (names_of (map plain_entry entries.now)) ≡ true }
    ensures { result ≡ seat_of name.now 0 (map plain_entry entries.now) }
{
    let mut low = 0;
    let mut high = entries.len();
    while low < high {
        let middle = low + (high - low) / 2;
        match entries[middle].name().cmp(name) {
            Ordering::Less => low = middle + 1,
            Ordering::Equal => return Ok(middle),
            Ordering::Greater => high = middle,
        }
    }
    Err(low)
}
