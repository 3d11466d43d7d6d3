// The entries of dictionaries.
ghost use Rattle.std.specs.Prelude.{◌≡◌, map, OnOk, OnErr};
ghost use Rattle.cells.specs.View.{cell};
ghost use Rattle.cells.specs.Entry.{entry_cell, entry_cell_of};
ghost use Rattle.cells.specs.Dictionary.{with_option, entry_in};

use crate::value::Value;
use indexmap::IndexSet;
use std::alloc::AllocError;

/// An entry of a dictionary: a value that is neither a null nor a list nor a struct. It borrows strings and bytes.
#[derive(Clone, Copy, Debug, PartialEq, Eq, Hash)]
pub enum Entry<'a> {
    Bool(bool),
    Int(i128),
    Text(&'a str),
    Bytes(&'a [u8]),
}

/// Returns a value as an entry, or `None` if it can't be one.
pub fn entry_of(value: &Value) -> Option<Entry<'_>>
    ensures { entry_cell_of result ≡ entry_in (cell value.now) }
{
    match value {
        Value::Bool(boolean) => Some(Entry::Bool(*boolean)),
        Value::Int(number) => Some(Entry::Int(*number)),
        Value::Text(text) => Some(Entry::Text(text.as_str())),
        Value::Bytes(bytes) => Some(Entry::Bytes(bytes)),
        Value::Null => None,
        Value::List(_) => None,
        Value::Struct(_) => None,
    }
}

/// Adds an entry to those of a dictionary, if there is one and it is new.
///
/// # Errors
/// `AllocError` if memory was refused: the entries are unchanged.
pub fn note<'a>(
    entries: &mut IndexSet<Entry<'a>>,
    entry: Option<Entry<'a>>,
) -> Result<(), AllocError>
    ensures noted { OnOk result (map entry_cell entries.new.keys ≡ with_option (map entry_cell entries.old.keys) (entry_cell_of entry.entry)) }
    ensures unchanged { OnErr result (entries.new.keys ≡ entries.old.keys) }
{
    if let Some(entry) = entry {
        entries.insert(entry)?;
    }
    Ok(())
}
