// Changes and copies of a list of entries.
ghost use Rattle.std.specs.Prelude.{◌≡◌, ◌<◌, ◌≤◌, ◌+◌, ◌++◌, true, map, length, option_map, string_bytes, vec_len, OnOk, OnErr, IfOk, IsOk, IsSome};
ghost use Rattle.std.specs.Vec.{vec_capacity};
ghost use Rattle.catalogue.specs.Entries.{plain_entry, names_of, ascends, segment_count, runs_in};
ghost use Rattle.catalogue.specs.Edits.{entry_of, with_entry, without, renamed, with_more, with_others, with_exchanged, with_digests, entry_digested, digested};
ghost use Rattle.catalogue.specs.laws.Sums.{refilled};
ghost use Rattle.catalogue.specs.declared.entry.Segment.{Segment};

use crate::places::{place_of, seat_of};
use crate::{Segment, TableEntry};
use segments::Run;
use std::alloc::{AllocError, Global};

// Inserts an entry and returns the one it replaces. Fails only if there is no room.
pub(crate) fn put_entry(
    entries: &mut Vec<TableEntry>,
    entry: TableEntry,
) -> Result<Option<TableEntry>, AllocError>
    requires { ascends (names_of (map plain_entry entries.old.items)) ≡ true }
    ensures put { OnOk result (map plain_entry entries.new.items ≡ with_entry (map plain_entry entries.old.items) (plain_entry entry)) }
    ensures stood { IfOk result (λ stood. option_map plain_entry stood ≡ entry_of (map plain_entry entries.old.items) (plain_entry entry).name) }
    ensures err { OnErr result (map plain_entry entries.new.items ≡ map plain_entry entries.old.items) }
    ensures room { vec_len entries.old < vec_capacity entries.old → IsOk result }
{
    match seat_of(entries, entry.name()) {
        Ok(place) => Ok(Some(std::mem::replace(&mut entries[place], entry))),
        Err(place) => {
            entries.insert(place, entry)?;
            Ok(None)
        }
    }
}

pub(crate) fn take_entry(entries: &mut Vec<TableEntry>, name: &str) -> Option<TableEntry>
    requires { ascends (names_of (map plain_entry entries.old.items)) ≡ true }
    ensures removed { map plain_entry entries.new.items ≡ without (map plain_entry entries.old.items) name.now }
    ensures stood { option_map plain_entry result ≡ entry_of (map plain_entry entries.old.items) name.now }
    ensures room { IsSome result → vec_len entries.new < vec_capacity entries.new }
{
    match place_of(entries, name) {
        Some(place) => Some(entries.remove(place)),
        None => None,
    }
}

// Renames the entry of a name.
pub(crate) fn rename_entry(
    entries: &mut Vec<TableEntry>,
    from: &str,
    to: String,
) -> Result<(), AllocError>
    requires { ascends (names_of (map plain_entry entries.old.items)) ≡ true }
    ensures renamed { OnOk result (map plain_entry entries.new.items ≡ renamed (map plain_entry entries.old.items) from.now (string_bytes to)) }
    ensures err { OnErr result (map plain_entry entries.new.items ≡ map plain_entry entries.old.items) }
{
    match place_of(entries, from) {
        Some(place) => {
            let renamed = entries[place].named(to)?;
            entries.remove(place);
            put_entry(entries, renamed).unwrap();
            Ok(())
        }
        None => Ok(()),
    }
}

// Returns the segments followed by more.
fn joined(alloc: Global, segments: &[Segment], more: &[Segment]) -> Result<Vec<Segment>, AllocError>
    ensures { IfOk result (λ all. all.items ≡ segments.now ++ more.now) }
{
    segments.iter().chain(more.iter()).copied().collect(alloc)
}

// Appends segments to an entry, which loses its page: its text does not list them.
fn append_more(entry: &mut TableEntry, more: &[Segment]) -> Result<(), AllocError>
    ensures more { OnOk result (plain_entry entry.new ≡ refilled (plain_entry entry.old) ((plain_entry entry.old).segments ++ more.now)) }
    ensures err { OnErr result (plain_entry entry.new ≡ plain_entry entry.old) }
{
    if entry.append_own(more)? {
        return Ok(());
    }
    let all = joined(entry.alloc(), entry.segments(), more)?;
    *entry = entry.refilled(all)?;
    Ok(())
}

// Appends segments to the entry of a name.
pub(crate) fn append_to(
    entries: &mut Vec<TableEntry>,
    name: &str,
    more: &[Segment],
) -> Result<(), AllocError>
    requires { ascends (names_of (map plain_entry entries.old.items)) ≡ true }
    ensures appended { OnOk result (map plain_entry entries.new.items ≡ with_more (map plain_entry entries.old.items) name.now more.now) }
    ensures err { OnErr result (map plain_entry entries.new.items ≡ map plain_entry entries.old.items) }
{
    // An entry that gets no segments keeps its page.
    if more.is_empty() {
        return Ok(());
    }
    match place_of(entries, name) {
        Some(place) => append_more(&mut entries[place], more),
        None => Ok(()),
    }
}

// Returns the segments with `count` of them, from `place` on, replaced by others.
fn exchanged(
    alloc: Global,
    segments: &[Segment],
    place: usize,
    count: usize,
    others: &[Segment],
) -> Result<Vec<Segment>, AllocError>
    ensures { IfOk result (λ all. all.items ≡ with_others segments.now place count others.now) }
{
    let rest = segments.iter().skip(place).skip(count);
    segments
        .iter()
        .take(place)
        .chain(others.iter().chain(rest))
        .copied()
        .collect(alloc)
}

// Replaces `count` segments of an entry from `place` on. The entry loses its page, whose text does not list the new ones.
fn exchange(
    entry: &mut TableEntry,
    place: usize,
    count: usize,
    others: &[Segment],
) -> Result<(), AllocError>
    ensures exchanged { OnOk result
        (plain_entry entry.new ≡ refilled (plain_entry entry.old) (with_others (plain_entry entry.old).segments place count others.now)) }
    ensures err { OnErr result (plain_entry entry.new ≡ plain_entry entry.old) }
{
    let all = exchanged(entry.alloc(), entry.segments(), place, count, others)?;
    *entry = entry.refilled(all)?;
    Ok(())
}

// Replaces segments of the entry of a name.
pub(crate) fn exchange_in(
    entries: &mut Vec<TableEntry>,
    name: &str,
    place: usize,
    count: usize,
    others: &[Segment],
) -> Result<(), AllocError>
    requires { ascends (names_of (map plain_entry entries.old.items)) ≡ true }
    ensures exchanged { OnOk result (map plain_entry entries.new.items ≡ with_exchanged (map plain_entry entries.old.items) name.now place count others.now) }
    ensures err { OnErr result (map plain_entry entries.new.items ≡ map plain_entry entries.old.items) }
{
    match place_of(entries, name) {
        Some(at) => exchange(&mut entries[at], place, count, others),
        None => Ok(()),
    }
}

// Sets the digests of segments, in order.
fn digest_segments(segments: &mut Vec<Segment>, digests: &[[u8; 32]])
    requires { vec_len segments.old ≡ length digests.now }
    ensures { segments.new.items ≡ with_digests segments.old.items digests.now }
{
    for place in 0..segments.len() {
        segments[place].digest = Some(digests[place]);
    }
}

// Copies an entry with the digests of its segments. It keeps its page, whose text has no digests, only if it has no segments.
fn digested_entry(entry: &TableEntry, digests: &[[u8; 32]]) -> Result<TableEntry, AllocError>
    requires { length (plain_entry entry.now).segments ≡ length digests.now }
    ensures { IfOk result (λ e. plain_entry e ≡ entry_digested (plain_entry entry.now) digests.now) }
{
    if entry.segments().is_empty() {
        return entry.copy();
    }
    let mut segments = Vec::from_slice(entry.alloc(), entry.segments())?;
    digest_segments(&mut segments, digests);
    entry.refilled(segments)
}

// Copies the entries; the segments of each one take the next digests.
pub(crate) fn digested_entries(
    alloc: Global,
    entries: &[TableEntry],
    digests: &[[u8; 32]],
) -> Result<Vec<TableEntry>, AllocError>
    requires { segment_count (map plain_entry entries.now) ≡ length digests.now }
    ensures { IfOk result (λ all. map plain_entry all.items ≡ digested (map plain_entry entries.now) digests.now) }
{
    let mut all = Vec::with_capacity(alloc, entries.len())?;
    let mut rest = digests;
    for entry in entries {
        let (own, others) = rest.split_at(entry.segments().len());
        all.push(digested_entry(entry, own)?)?;
        rest = others;
    }
    Ok(all)
}

// Appends the runs that an entry names.
pub(crate) fn put_entry_runs(runs: &mut Vec<Run>, entry: &TableEntry) -> Result<(), AllocError>
    ensures { OnOk result (runs.new.items ≡ runs.old.items ++ runs_in (plain_entry entry.now)) }
{
    if let Some(page) = entry.page {
        runs.push(page.run)?;
    }
    put_runs(runs, entry.segments())
}

// Appends the runs of segments, for which there is room.
fn put_each_run(runs: &mut Vec<Run>, segments: &[Segment])
    requires { vec_len runs.old + length segments.now ≤ vec_capacity runs.old }
    ensures { runs.new.items ≡ runs.old.items ++ map (λ (s : Segment). s.place.run) segments.now }
{
    for segment in segments {
        runs.push_reserved(segment.place.run);
    }
}

/// Appends the runs of segments.
///
/// # Errors
/// `AllocError` if memory was refused: nothing is appended.
pub fn put_runs(runs: &mut Vec<Run>, segments: &[Segment]) -> Result<(), AllocError>
    ensures runs { OnOk result (runs.new.items ≡ runs.old.items ++ map (λ (s : Segment). s.place.run) segments.now) }
    ensures err { OnErr result (runs.new.items ≡ runs.old.items) }
{
    runs.reserve(segments.len())?;
    put_each_run(runs, segments);
    Ok(())
}

pub(crate) fn copy_entries(
    alloc: Global,
    entries: &[TableEntry],
) -> Result<Vec<TableEntry>, AllocError>
    ensures { IfOk result (λ copies. map plain_entry copies.items ≡ map plain_entry entries.now) }
{
    let mut copies = Vec::with_capacity(alloc, entries.len())?;
    for entry in entries {
        copies.push(entry.copy()?)?;
    }
    Ok(copies)
}
