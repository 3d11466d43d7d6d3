// Edits of a catalogue, and its new segments.
ghost use Rattle.std.specs.Prelude.{◌≡◌, ◌<◌, ◌≤◌, ◌+◌, ◌^◌, ◌++◌, ℕ, true, List, Some, map, flat_map, option_map, length, string_bytes, IfOk, OnOk};
ghost use Rattle.std.specs.List.{list_all};
ghost use Rattle.std.specs.Str.{bytes_eq};
ghost use Rattle.arrow_schema.specs.Limits.{IsWithinLimits};
ghost use Rattle.arrow_schema.specs.View.{schema_of};
ghost use Rattle.ipc_write.specs.Written.{schema_message};
ghost use Rattle.segments.specs.Pieces.{plain_pieces};
ghost use Rattle.segments.specs.Writing.{runs_of};
ghost use Rattle.commit.specs.Placing.{plain_contents};
ghost use Rattle.catalogue.specs.declared.entry.Segment.{Segment};
ghost use Rattle.catalogue.specs.Edits.{page_behind, entry_of, from_place};
ghost use Rattle.catalogue.specs.Entries.{plain_entry, is_segment, is_entry, segment_count, IsCatalogue};
ghost use Rattle.catalogue.specs.View.{catalogue_of};
ghost use Rattle.store_changes.specs.Change.{edit_of};
ghost use Rattle.store_runs.specs.Changes.{new_entry, page_over, page_instead, edited, page_lost, given_by, given_by_all, lost_page, name_edited, given_up, version_after, IsEdit};
ghost use Rattle.store_runs.specs.Carrying.{unplaced};
ghost use Rattle.store_changes.specs.Prepared.{in_runs, CanGive};
ghost use Rattle.store_changes.specs.laws.Edited.{segments_at};

use crate::change::Edit;
use crate::new_digests::digests_for;
use crate::rebuilding::filled;
use arrow_schema::Schema;
use catalogue::{Catalogue, MAX_SEGMENT_ROWS, Segment, TableEntry, put_runs};
use cells::MAX_PIECE_ROWS;
use commit::FormatVersion;
use ipc_write::encode_schema;
use sector_dev::SECTOR_BYTES;
use segments::{Extent, Piece, PiecePart, Run, byte_count};
use std::alloc::{AllocError, Global};

// A segment holds the rows of one piece.
const _: () = prove!(MAX_SEGMENT_ROWS == MAX_PIECE_ROWS as u64);

// Returns whether two schemas have the same message.
fn have_one_message(alloc: Global, a: &Schema, b: &Schema) -> Result<bool, AllocError>
    requires first { IsWithinLimits (schema_of a.now) }
    requires second { IsWithinLimits (schema_of b.now) }
    ensures { IfOk result (λ same. same ≡ bytes_eq (schema_message (schema_of a.now)) (schema_message (schema_of b.now))) }
{
    let one = encode_schema(alloc, a)?;
    let other = encode_schema(alloc, b)?;
    Ok(one.as_slice() == other.as_slice())
}

// Returns the page of a table after these segments were appended: it remains if there are none.
fn page_behind(segments: &[Segment], page: Option<Extent>) -> Option<Extent>
    ensures { result ≡ page_behind segments.now page }
{
    if segments.is_empty() { page } else { None }
}

// Returns the page of a table that replaces this one: it remains if its text does.
fn page_over(
    alloc: Global,
    old: &TableEntry,
    schema: &Schema,
    segments: &[Segment],
) -> Result<Option<Extent>, AllocError>
    requires old { is_entry (plain_entry old.now) ≡ true }
    requires schema { IsWithinLimits (schema_of schema.now) }
    ensures { IfOk result (λ page. page ≡ page_over (plain_entry old.now) (schema_of schema.now) segments.now) }
{
    if segments.is_empty() && have_one_message(alloc, old.schema(), schema)? {
        Ok(page_behind(old.segments(), old.page))
    } else {
        Ok(None)
    }
}

// Returns the page of a table with this name, which replaces one with the same name.
fn page_instead(
    alloc: Global,
    catalogue: &Catalogue,
    name: &str,
    schema: &Schema,
    segments: &[Segment],
) -> Result<Option<Extent>, AllocError>
    requires { IsWithinLimits (schema_of schema.now) }
    ensures { IfOk result (λ page. page
        ≡ page_instead (entry_of (catalogue_of catalogue.now) name.now) (schema_of schema.now) segments.now) }
{
    match catalogue.get(name) {
        Some(old) => page_over(alloc, old, schema, segments),
        None => Ok(None),
    }
}

fn new_entry(
    alloc: Global,
    name: &String,
    schema: &Schema,
    segments: &[Segment],
    page: Option<Extent>,
) -> Result<TableEntry, AllocError>
    ensures { IfOk result (λ e. plain_entry e ≡ new_entry (string_bytes name.now) (schema_of schema.now) segments.now page) }
{
    let name = name.clone()?;
    let schema = schema.copy(alloc)?;
    let segments = Vec::from_slice(alloc, segments)?;
    TableEntry::new(alloc, name, schema, segments, page)
}

// Edits a catalogue with these new segments. A table that no copy shares takes appended ones in place.
pub(crate) fn edited_in_place(
    alloc: Global,
    catalogue: Catalogue,
    edit: &Edit,
    segments: &[Segment],
) -> Result<Catalogue, AllocError>
    requires edit { (streams : List (List ℕ)) × IsEdit (catalogue_of catalogue) (edit_of edit.now) streams }
    requires sound { list_all is_segment segments.now ≡ true }
    requires stands { IsCatalogue (edited (catalogue_of catalogue) (edit_of edit.now) segments.now) }
    ensures { IfOk result (λ c. catalogue_of c ≡ edited (catalogue_of catalogue) (edit_of edit.now) segments.now) }
{
    let mut changed = catalogue;
    match edit {
        Edit::Put { name, schema } => {
            let page = page_instead(alloc, &changed, name, schema, segments)?;
            changed.put(new_entry(alloc, name, schema, segments, page)?)?;
        }
        Edit::Extend { name } => changed.append_segments(name, segments)?,
        Edit::Move { from, to } => changed.rename(from, to.clone()?)?,
        Edit::Remove { name } => {
            changed.remove(name);
        }
        Edit::Exchange { name, place, count } => {
            changed.exchange_segments(name, *place, *count, segments)?;
        }
        Edit::Digest { digests } => changed.set_digests(digests)?,
        Edit::Rebuild {
            old: _old,
            from,
            made,
            gone: _gone,
        } => changed = filled(alloc, *from, made, segments)?,
    }
    Ok(changed)
}

// Returns the catalogue after an edit with these new segments.
pub(crate) fn edited(
    alloc: Global,
    catalogue: &Catalogue,
    edit: &Edit,
    segments: &[Segment],
) -> Result<Catalogue, AllocError>
    requires edit { (streams : List (List ℕ)) × IsEdit (catalogue_of catalogue.now) (edit_of edit.now) streams }
    requires sound { list_all is_segment segments.now ≡ true }
    requires stands { IsCatalogue (edited (catalogue_of catalogue.now) (edit_of edit.now) segments.now) }
    ensures { IfOk result (λ c. catalogue_of c ≡ edited (catalogue_of catalogue.now) (edit_of edit.now) segments.now) }
{
    let changed = catalogue.copy(alloc)?;
    edited_in_place(alloc, changed, edit, segments)
}

// Returns `count` segments of a table, from a place on.
fn segments_from(entry: &TableEntry, place: usize, count: usize) -> &[Segment]
    requires { place + count ≤ length (plain_entry entry.now).segments }
    ensures { result.now ≡ from_place (plain_entry entry.now).segments place count }
{
    &entry.segments()[place..place + count]
}

// Appends the run of a page if another page or none replaces it.
fn put_lost(runs: &mut Vec<Run>, old: Option<Extent>, new: Option<Extent>) -> Result<(), AllocError>
    ensures { OnOk result (runs.new.items ≡ runs.old.items ++ page_lost old new) }
{
    match (old, new) {
        (Some(page), None) => Ok(runs.push(page.run)?),
        _ => Ok(()),
    }
}

// Returns the name of the table that an edit changes; `None` if it changes all tables.
fn name_edited(edit: &Edit) -> Option<&str>
    ensures { option_map (λ name. name.now) result ≡ name_edited (edit_of edit.now) }
{
    match edit {
        Edit::Put { name, schema: _ } => Some(name),
        Edit::Extend { name } => Some(name),
        Edit::Move { from, to: _ } => Some(from),
        Edit::Remove { name } => Some(name),
        Edit::Exchange {
            name,
            place: _,
            count: _,
        } => Some(name),
        Edit::Digest { digests: _ } => None,
        Edit::Rebuild {
            old: _,
            from: _,
            made: _,
            gone: _,
        } => None,
    }
}

// Returns the runs that an edit with these new segments removes from the table that it changes.
fn given_by(
    alloc: Global,
    edit: &Edit,
    segments: &[Segment],
    entry: &TableEntry,
) -> Result<Vec<Run>, AllocError>
    requires sound { is_entry (plain_entry entry.now) ≡ true }
    requires edit { CanGive (edit_of edit.now) (plain_entry entry.now) }
    ensures { IfOk result (λ runs. runs.items ≡ given_by (edit_of edit.now) segments.now (plain_entry entry.now)) }
{
    let mut runs = Vec::new(alloc);
    match edit {
        Edit::Put { name: _, schema } => {
            let page = page_over(alloc, entry, schema, segments)?;
            put_lost(&mut runs, entry.page, page)?;
            put_runs(&mut runs, entry.segments())?;
        }
        Edit::Extend { name: _ } => {
            put_lost(&mut runs, entry.page, page_behind(segments, entry.page))?;
        }
        Edit::Move { from: _, to: _ } => {}
        Edit::Remove { name: _ } => {
            put_lost(&mut runs, entry.page, None)?;
            put_runs(&mut runs, entry.segments())?;
        }
        Edit::Exchange {
            name: _,
            place,
            count,
        } => {
            put_lost(&mut runs, entry.page, None)?;
            put_runs(&mut runs, segments_from(entry, *place, *count))?;
        }
        Edit::Digest { digests: _ } => {
            put_lost(
                &mut runs,
                entry.page,
                page_behind(entry.segments(), entry.page),
            )?;
        }
        Edit::Rebuild {
            old: _,
            from: _,
            made: _,
            gone: _,
        } => {}
    }
    Ok(runs)
}

// Returns the runs of the pages that are replaced if all segments get digests.
fn lost_pages(alloc: Global, entries: &[TableEntry]) -> Result<Vec<Run>, AllocError>
    ensures { IfOk result (λ runs. runs.items ≡ flat_map lost_page (map plain_entry entries.now)) }
{
    let mut runs = Vec::new(alloc);
    for entry in entries {
        put_lost(
            &mut runs,
            entry.page,
            page_behind(entry.segments(), entry.page),
        )?;
    }
    Ok(runs)
}

// Returns the runs that an edit of all tables removes.
fn given_by_all(alloc: Global, catalogue: &Catalogue, edit: &Edit) -> Result<Vec<Run>, AllocError>
    ensures { IfOk result (λ runs. runs.items ≡ given_by_all (catalogue_of catalogue.now) (edit_of edit.now)) }
{
    match edit {
        Edit::Digest { digests: _ } => lost_pages(alloc, catalogue.entries()),
        Edit::Rebuild {
            old: _,
            from: _,
            made: _,
            gone,
        } => Vec::from_slice(alloc, gone),
        _ => Ok(Vec::new(alloc)),
    }
}

// Returns the runs that an edit with these new segments removes.
pub(crate) fn given_up(
    alloc: Global,
    catalogue: &Catalogue,
    edit: &Edit,
    segments: &[Segment],
) -> Result<Vec<Run>, AllocError>
    requires edit { (streams : List (List ℕ)) × IsEdit (catalogue_of catalogue.now) (edit_of edit.now) streams }
    ensures { IfOk result (λ runs. runs.items ≡ given_up (catalogue_of catalogue.now) (edit_of edit.now) segments.now) }
{
    match name_edited(edit) {
        Some(name) => match catalogue.get(name) {
            Some(entry) => given_by(alloc, edit, segments, entry),
            None => Ok(Vec::new(alloc)),
        },
        None => given_by_all(alloc, catalogue, edit),
    }
}

// Returns the number of segments of a table; 0 if there is no such table.
fn segments_at(catalogue: &Catalogue, name: &str) -> u64
    ensures number { result ≡ segments_at (catalogue_of catalogue.now) name.now }
    ensures kept { IsCatalogue (catalogue_of catalogue.now) }
{
    match catalogue.get(name) {
        Some(entry) => entry.segments().len() as u64,
        None => 0,
    }
}

// Returns the number of segments after an edit with this number of new ones.
pub(crate) fn segments_after(catalogue: &Catalogue, edit: &Edit, new: u64) -> u64
    requires edit { (streams : List (List ℕ)) × IsEdit (catalogue_of catalogue.now) (edit_of edit.now) streams × (length streams ≡ new) }
    requires few { new < 2 ^ 63 }
    ensures { (segments : List Segment) → length segments ≡ new
        → result ≡ segment_count (edited (catalogue_of catalogue.now) (edit_of edit.now) segments) }
{
    let count = catalogue.segment_count();
    match edit {
        Edit::Put { name, schema: _ } => count - segments_at(catalogue, name) + new,
        Edit::Extend { name: _ } => count + new,
        Edit::Move { from: _, to: _ } => count,
        Edit::Remove { name } => count - segments_at(catalogue, name),
        Edit::Exchange {
            name: _name,
            place: _place,
            count: exchanged,
        } => count - *exchanged as u64 + new,
        Edit::Digest { digests: _ } => count,
        Edit::Rebuild {
            old: _old,
            from: _from,
            made,
            gone: _gone,
        } => made.segment_count(),
    }
}

// Returns the version after an edit.
pub(crate) fn version_after(edit: &Edit, version: FormatVersion) -> FormatVersion
    ensures { result ≡ version_after (edit_of edit.now) version }
{
    match edit {
        Edit::Digest { digests: _ } => FormatVersion::Two,
        _ => version,
    }
}

// Returns the segments of streams, with the number of rows of each. They have no places yet.
pub(crate) fn unplaced(
    alloc: Global,
    version: FormatVersion,
    streams: &[Vec<PiecePart<'_>>],
    rows: &[u64],
) -> Result<Vec<Segment>, AllocError>
    requires { length streams.now ≡ length rows.now }
    ensures { IfOk result (λ segments. segments.items ≡ unplaced version (plain_contents streams.now) rows.now) }
{
    let digests = digests_for(alloc, version, streams)?;
    let mut segments = Vec::with_capacity(alloc, streams.len())?;
    for (place, parts) in streams.iter().enumerate() {
        let bytes = byte_count(parts).ok_or(AllocError)?;
        let run = Run {
            start: 0,
            count: bytes.div_ceil(SECTOR_BYTES as u64),
        };
        segments.push_reserved(Segment {
            place: Extent { run, bytes },
            rows: rows[place],
            digest: digests[place],
        });
    }
    Ok(segments)
}

// Returns the same segments in the runs of these pieces.
pub(crate) fn in_runs(
    alloc: Global,
    segments: &[Segment],
    pieces: &[Piece<'_>],
) -> Result<Vec<Segment>, AllocError>
    requires { length segments.now ≡ length pieces.now }
    ensures { IfOk result (λ placed. placed.items ≡ in_runs (runs_of (plain_pieces pieces.now)) segments.now) }
{
    let mut placed = Vec::with_capacity(alloc, pieces.len())?;
    for (place, piece) in pieces.iter().enumerate() {
        let segment = segments[place];
        let run = piece.run;
        let bytes = segment.place.bytes;
        placed.push_reserved(Segment {
            place: Extent { run, bytes },
            rows: segment.rows,
            digest: segment.digest,
        });
    }
    Ok(placed)
}
