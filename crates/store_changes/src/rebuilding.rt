// Gives the new segments of a catalogue their places.
ghost use Rattle.std.specs.Prelude.{◌≡◌, ◌≢◌, ◌<◌, ◌≤◌, ◌++◌, [], true, false, length, IfOk, OnOk};
ghost use Rattle.catalogue.specs.Entries.{plain_entry, IsCatalogue};
ghost use Rattle.catalogue.specs.View.{catalogue_of};
ghost use Rattle.store_runs.specs.Filling.{has_place, placed_in, new_in, new_segments, entry_filled, filled};

use catalogue::{Catalogue, Segment, TableEntry};
use std::alloc::{AllocError, Global};

// Returns whether a segment starts before this sector. The others are new.
fn has_place(from: u64, segment: Segment) -> bool
    ensures { result ≡ has_place from segment }
{
    segment.place.run.start < from
}

// Returns the number of new segments.
fn new_count(from: u64, segments: &[Segment]) -> usize
    ensures { result ≡ length (new_in from segments.now) }
{
    let mut count = 0;
    for segment in segments {
        if !has_place(from, *segment) {
            count += 1;
        }
    }
    count
}

// Returns whether the segment at a place is new.
fn is_new_at(from: u64, segments: &[Segment], place: usize) -> bool
    requires { place < length segments.now }
    ensures { result ≡ true → new_in from segments.now ≢ [] }
{
    !has_place(from, segments[place])
}

/// Returns whether a table has new segments, which start at this sector or later.
pub fn has_new(from: u64, entry: &TableEntry) -> bool
    ensures new { result ≡ true → new_in from (plain_entry entry.now).segments ≢ [] }
    ensures none { result ≡ false → new_in from (plain_entry entry.now).segments ≡ [] }
{
    let segments = entry.segments();
    let count = segments.len();
    // New segments stand behind all others.
    if count > 0 && is_new_at(from, segments, count - 1) {
        return true;
    }
    new_count(from, segments) != 0
}

// Appends the new ones among some segments.
fn put_new(from: u64, segments: &[Segment], all: &mut Vec<Segment>) -> Result<(), AllocError>
    ensures { OnOk result (all.new.items ≡ all.old.items ++ new_in from segments.now) }
{
    for segment in segments {
        if !has_place(from, *segment) {
            all.push(*segment)?;
        }
    }
    Ok(())
}

// Returns the new segments of all tables, in order.
pub(crate) fn new_segments(
    alloc: Global,
    from: u64,
    made: &Catalogue,
) -> Result<Vec<Segment>, AllocError>
    ensures { IfOk result (λ all. all.items ≡ new_segments from (catalogue_of made.now)) }
{
    let mut all = Vec::new(alloc);
    for entry in made.entries() {
        put_new(from, entry.segments(), &mut all)?;
    }
    Ok(all)
}

// Returns the segments that have places, followed by others.
fn placed_and(
    alloc: Global,
    from: u64,
    segments: &[Segment],
    others: &[Segment],
) -> Result<Vec<Segment>, AllocError>
    ensures { IfOk result (λ all. all.items ≡ placed_in from segments.now ++ others.now) }
{
    let mut all = Vec::new(alloc);
    for segment in segments {
        if has_place(from, *segment) {
            all.push(*segment)?;
        }
    }
    all.extend_from_slice(others)?;
    Ok(all)
}

// Copies a table with these segments, which are no more than it has new ones, in place of the new ones. It keeps its page if it has no new ones.
fn filled_entry(
    alloc: Global,
    from: u64,
    entry: &TableEntry,
    others: &[Segment],
) -> Result<TableEntry, AllocError>
    requires { length others.now ≤ length (new_in from (plain_entry entry.now).segments) }
    ensures { IfOk result (λ e. plain_entry e ≡ entry_filled from (plain_entry entry.now) others.now) }
{
    if new_count(from, entry.segments()) == 0 {
        return entry.copy();
    }
    let name = String::from_str(alloc, entry.name())?;
    let schema = entry.schema().copy(alloc)?;
    let segments = placed_and(alloc, from, entry.segments(), others)?;
    TableEntry::new(alloc, name, schema, segments, None)
}

// Copies a catalogue with these segments in place of its new ones, in order.
pub(crate) fn filled(
    alloc: Global,
    from: u64,
    made: &Catalogue,
    others: &[Segment],
) -> Result<Catalogue, AllocError>
    requires { IsCatalogue (filled from (catalogue_of made.now) others.now) }
    ensures { IfOk result (λ c. catalogue_of c ≡ filled from (catalogue_of made.now) others.now) }
{
    let mut entries = Vec::with_capacity(alloc, made.len())?;
    let mut rest = others;
    for entry in made.entries() {
        let count = new_count(from, entry.segments()).min(rest.len());
        let (own, behind) = rest.split_at(count);
        entries.push(filled_entry(alloc, from, entry, own)?)?;
        rest = behind;
    }
    Ok(Catalogue::of_entries(entries))
}
