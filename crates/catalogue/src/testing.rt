// Tests whether entries may form a catalogue.
ghost use Rattle.std.specs.Prelude.{◌≡◌, map, nat_le};
ghost use Rattle.std.specs.List.{list_all};
ghost use Rattle.catalogue.specs.Entries.{plain_entry, is_entry, names_of, comes_before, ascends, segment_count};

use crate::TableEntry;
use crate::limits::MAX_SEGMENTS;
use std::cmp::Ordering;

pub(crate) fn are_sound(entries: &[TableEntry]) -> bool
    ensures { result ≡ list_all is_entry (map plain_entry entries.now) }
{
    for entry in entries {
        if !entry.is_sound() {
            return false;
        }
    }
    true
}

// Returns whether the name sorts before that of the first entry.
fn comes_before(name: &str, entries: &[TableEntry]) -> bool
    ensures { result ≡ comes_before name.now (names_of (map plain_entry entries.now)) }
{
    match entries {
        [] => true,
        [first, ..] => name.cmp(first.name()) == Ordering::Less,
    }
}

// Returns whether the names strictly ascend.
pub(crate) fn are_in_order(entries: &[TableEntry]) -> bool
    ensures { result ≡ ascends (names_of (map plain_entry entries.now)) }
{
    for (place, entry) in entries.iter().enumerate() {
        if !comes_before(entry.name(), &entries[place + 1..]) {
            return false;
        }
    }
    true
}

pub(crate) fn have_few_segments(entries: &[TableEntry]) -> bool
    ensures { result ≡ nat_le (segment_count (map plain_entry entries.now)) MAX_SEGMENTS }
{
    let mut left = MAX_SEGMENTS;
    for entry in entries {
        let count = entry.segments().len() as u64;
        if count > left {
            return false;
        }
        left -= count;
    }
    true
}
