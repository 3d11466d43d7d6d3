// Tests the order of the names of tables.
ghost use Rattle.std.specs.Prelude.{◌≡◌, map};
ghost use Rattle.catalogue.specs.Entries.{comes_before, ascends};
ghost use Rattle.table_archive.specs.Manifest.{plain_listed, listed_names};

use crate::manifest::ListedTable;
use std::cmp::Ordering;

// Returns whether the name sorts before that of the first table.
fn comes_before(name: &str, tables: &[ListedTable]) -> bool
    ensures { result ≡ comes_before name.now (listed_names (map plain_listed tables.now)) }
{
    match tables {
        [] => true,
        [first, ..] => name.cmp(first.name.as_str()) == Ordering::Less,
    }
}

/// Returns whether the names strictly ascend.
pub(crate) fn are_in_order(tables: &[ListedTable]) -> bool
    ensures { result ≡ ascends (listed_names (map plain_listed tables.now)) }
{
    for (place, table) in tables.iter().enumerate() {
        if !comes_before(table.name.as_str(), &tables[place + 1..]) {
            return false;
        }
    }
    true
}
