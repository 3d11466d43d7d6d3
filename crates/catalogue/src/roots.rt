// Encodes and decodes the text of a root.
ghost use Rattle.std.specs.Prelude.{◌≡◌, ◌^◌, ◌<◌, ◌++◌, map, length, IfOk, OnOk};
ghost use Rattle.catalogue.specs.Entries.{plain_root, ascends, comes_before, root_names, is_name, IsRoot};
ghost use Rattle.catalogue.specs.Reading.{Gives, many_at, root_entry_at, root_at};
ghost use Rattle.catalogue.specs.Text.{root_entry_text, root_text};

use crate::decoding::{extent_in, name_at, u32_at};
use crate::encoding::{put_count, put_extent, put_sized};
use crate::limits::MAX_TABLES;
use crate::{DecodeError, RootEntry};
use std::alloc::{AllocError, Global};
use std::cmp::Ordering;

#[tactic(auto, unfolding(crate::specs::Reading::root_entry_at))]
fn root_entry_at(bytes: &[u8]) -> Result<(RootEntry<'_>, &[u8]), DecodeError>
    ensures { Gives (λ x. (plain_root x.0, x.1.now)) result (root_entry_at bytes.now) }
{
    let (name, rest) = name_at(bytes)?;
    let (page, rest) = extent_in(rest)?;
    Ok((RootEntry { name, page }, rest))
}

fn root_entries_at(
    alloc: Global,
    count: u32,
    bytes: &[u8],
) -> Result<(Vec<RootEntry<'_>>, &[u8]), DecodeError>
    ensures { Gives (λ x. (map plain_root x.0.items, x.1.now)) result (many_at root_entry_at count bytes.now) }
{
    let mut entries = Vec::new(alloc);
    let mut rest = bytes;
    for _ in 0..count {
        let (entry, after) = root_entry_at(rest)?;
        entries.push(entry)?;
        rest = after;
    }
    Ok((entries, rest))
}

// Returns whether the name sorts before that of the first entry.
fn comes_before(name: &str, entries: &[RootEntry<'_>]) -> bool
    ensures { result ≡ comes_before name.now (root_names (map plain_root entries.now)) }
{
    match entries {
        [] => true,
        [first, ..] => name.cmp(first.name) == Ordering::Less,
    }
}

// Returns whether the names strictly ascend.
fn are_in_order(entries: &[RootEntry<'_>]) -> bool
    ensures { result ≡ ascends (root_names (map plain_root entries.now)) }
{
    for (place, entry) in entries.iter().enumerate() {
        if !comes_before(entry.name, &entries[place + 1..]) {
            return false;
        }
    }
    true
}

/// Decodes the text of a root: the name of each table, and where its page lies.
///
/// # Errors
/// `NoText` if the bytes are not the text of a root; `OutOfMemory` if memory was refused.
#[tactic(auto, unfolding(crate::specs::Reading::root_at))]
pub fn decode_root(alloc: Global, bytes: &[u8]) -> Result<Vec<RootEntry<'_>>, DecodeError>
    ensures exact { Gives (λ x. map plain_root x.items) result (root_at bytes.now) }
{
    let (count, rest) = u32_at(bytes)?;
    let (entries, rest) = root_entries_at(alloc, count, rest)?;
    if rest.is_empty() && are_in_order(&entries) && entries.len() <= MAX_TABLES {
        Ok(entries)
    } else {
        Err(DecodeError::NoText)
    }
}

fn put_root_entry(out: &mut Vec<u8>, entry: &RootEntry<'_>) -> Result<(), AllocError>
    requires { length (plain_root entry.now).name < 2 ^ 32 }
    ensures { OnOk result (out.new.items ≡ out.old.items ++ root_entry_text (plain_root entry.now)) }
{
    put_sized(out, entry.name.as_bytes())?;
    put_extent(out, entry.page)
}

/// Returns the text of a root.
///
/// # Errors
/// `AllocError` if memory was refused.
pub fn encode_root(alloc: Global, entries: &[RootEntry<'_>]) -> Result<Vec<u8>, AllocError>
    requires { IsRoot (map plain_root entries.now) }
    ensures text { IfOk result (λ text. text.items ≡ root_text (map plain_root entries.now)) }
{
    let mut out = Vec::new(alloc);
    put_count(&mut out, entries.len())?;
    for entry in entries {
        put_root_entry(&mut out, entry)?;
    }
    Ok(out)
}
