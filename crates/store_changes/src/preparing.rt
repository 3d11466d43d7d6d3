// Prepares a change: takes runs for it, and makes the plan that is published.
ghost use Rattle.std.specs.Prelude.{◌≡◌, ◌≢◌, ◌≤◌, ◌++◌, ◌∷◌, [], ℕ, List, Ok, Err, OnErr, IfOk, IfErr, length, true};
ghost use Rattle.std.specs.List.{list_all};
ghost use Rattle.segments.specs.Usages.{IsUsedIn, SameUsages, GivesAll};
ghost use Rattle.segments.specs.Pieces.{bytes_of_parts, plain_pieces};
ghost use Rattle.segments.specs.Writing.{runs_of};
ghost use Rattle.ipc_encode.specs.View.{joined_parts, streams_in};
ghost use Rattle.catalogue.specs.declared.limits.TheConstants.{MAX_SEGMENTS};
ghost use Rattle.catalogue.specs.Entries.{is_segment, IsCatalogue, segment_count};
ghost use Rattle.catalogue.specs.View.{catalogue_of};
ghost use Rattle.commit.specs.Placing.{Takes, HasRoom, plain_contents};
ghost use Rattle.commit.specs.Standing.{is_size};
ghost use Rattle.pages.specs.Paging.{kind_of, page_sizes, text_size, ArePageRuns, settled, dropped_pages, page_texts, settled_text};
ghost use Rattle.store_changes.specs.Change.{change_of, edit_of};
ghost use Rattle.store_runs.specs.Changes.{IsChange, IsEdit, edited, given_up};
ghost use Rattle.store_runs.specs.Carrying.{HasNext, asked_sizes, IsCarried, unplaced, outline};
ghost use Rattle.store_changes.specs.Prepared.{in_runs, taking_refusal, IsPrepared};

use crate::change::{Change, Edit};
use crate::editing::{edited, given_up, in_runs, segments_after, unplaced, version_after};
use batch_build::Buffer;
use catalogue::{MAX_SEGMENTS, Segment, one_page_each};
use commit::{CatalogueKind, Commit, Opened, Places, Plan, place, plan_next};
use ipc_encode::EncodedPieces;
use pages::{
    Layout, StoredCatalogue, kept_catalogues_are_read, layout_of, pages_hold_what_was_read,
};
use segments::{FreeMap, Piece, PiecePart, Run, TakeError};
use std::alloc::{AllocError, Global};
use tables::{Limit, Refusal};

/// A plan to publish, and the runs that become free after it was published.
#[derive(Drop)]
pub struct Prepared<'a> {
    pub plan: Plan<'a, StoredCatalogue>,
    pub back: Vec<Run>,
}

// The room that a change needs besides its streams, and the runs that become free after it was published.
#[derive(Drop)]
struct Asked {
    layout: Layout,
    back: Vec<Run>,
}

// Returns the runs that were taken for pages: those after the runs of the pieces and before that of the text.
fn page_runs<'a>(places: &'a Places<'_>) -> &'a [Run]
    requires { (pages : ℕ) × HasRoom pages places.now }
    ensures { places.now.runs.items ≡ (runs_of (plain_pieces places.now.pieces.items) ++ result.now) ++ places.now.text ∷ [] }
{
    &places.runs[places.pieces.len()..places.runs.len() - 1]
}

// Borrows bytes and the parts after them.
fn borrowed_parts<'a>(
    alloc: Global,
    first: &'a [u8],
    parts: &'a [Buffer<'_>],
) -> Result<Vec<PiecePart<'a>>, AllocError>
    ensures { IfOk result (λ borrowed. bytes_of_parts borrowed.items ≡ first.now ++ joined_parts parts.now) }
{
    let mut borrowed = Vec::with_capacity(alloc, parts.len() + 1)?;
    borrowed.push_reserved(PiecePart::Borrowed(first));
    for part in parts {
        borrowed.push_reserved(PiecePart::Borrowed(part.bytes()));
    }
    Ok(borrowed)
}

// Borrows the streams of pieces.
fn borrowed_streams<'a>(
    alloc: Global,
    pieces: &'a EncodedPieces<'_>,
) -> Result<Vec<Vec<PiecePart<'a>>>, AllocError>
    ensures { IfOk result (λ borrowed. plain_contents borrowed.items ≡ streams_in pieces.now) }
{
    let mut borrowed = Vec::with_capacity(alloc, pieces.parts.len())?;
    for parts in &pieces.parts {
        borrowed.push_reserved(borrowed_parts(alloc, &pieces.schema_message, parts)?);
    }
    Ok(borrowed)
}

// Returns the room that a change needs besides its streams, and the runs that become free after it was published: those that its edit removes, the pages
// of a catalogue that is whole from then on, and the run of the current text. The places of its new segments make no difference.
fn ask(
    alloc: Global,
    commit: Commit,
    stored: &StoredCatalogue,
    change: &Change,
    segments: &[Segment],
) -> Result<Asked, AllocError>
    requires sound { IsChange (catalogue_of stored.now.list) (change_of change.now) }
    requires segments { segments.now ≡ unplaced commit.version (change_of change.now).streams (change_of change.now).counts }
    requires stands { IsCatalogue (outline commit.version (catalogue_of stored.now.list) (change_of change.now)) }
    ensures kind { IfOk result (λ asked.
        asked.layout.kind ≡ kind_of (outline commit.version (catalogue_of stored.now.list) (change_of change.now))) }
    ensures pages { IfOk result (λ asked.
        asked.layout.pages.items ≡ page_sizes (outline commit.version (catalogue_of stored.now.list) (change_of change.now))) }
    ensures text { IfOk result (λ asked.
        asked.layout.text_bytes ≡ text_size (outline commit.version (catalogue_of stored.now.list) (change_of change.now))) }
    ensures back { IfOk result (λ asked. asked.back.items
        ≡ given_up (catalogue_of stored.now.list) (change_of change.now).edit
        (unplaced commit.version (change_of change.now).streams (change_of change.now).counts)
        ++ (dropped_pages (outline commit.version (catalogue_of stored.now.list) (change_of change.now)) ++ commit.catalogue.run ∷ [])) }
{
    let list = edited(alloc, &stored.list, &change.edit, segments)?;
    let layout = layout_of(alloc, &list)?;
    let mut back = given_up(alloc, &stored.list, &change.edit, segments)?;
    back.extend_from_slice(&layout.dropped)?;
    back.push(commit.catalogue.run)?;
    Ok(Asked { layout, back })
}

// Returns the new catalogue, with its new segments in the runs of these pieces and its new pages in these runs, and the texts to write.
fn next_catalogue<'a>(
    alloc: Global,
    stored: &StoredCatalogue,
    edit: &Edit,
    segments: &[Segment],
    pieces: &[Piece<'_>],
    kind: CatalogueKind,
    pages: &[Run],
) -> Result<(StoredCatalogue, Vec<Vec<PiecePart<'a>>>), AllocError>
    requires count { length segments.now ≡ length pieces.now }
    requires sound { list_all is_segment (in_runs (runs_of (plain_pieces pieces.now)) segments.now) ≡ true }
    requires edit { (streams : List (List ℕ)) × IsEdit (catalogue_of stored.now.list) (edit_of edit.now) streams }
    requires stands { IsCatalogue (edited (catalogue_of stored.now.list) (edit_of edit.now) (in_runs (runs_of (plain_pieces pieces.now)) segments.now)) }
    requires kind { kind ≡ kind_of (edited (catalogue_of stored.now.list) (edit_of edit.now)
        (in_runs (runs_of (plain_pieces pieces.now)) segments.now)) }
    requires pages { ArePageRuns (edited (catalogue_of stored.now.list) (edit_of edit.now)
        (in_runs (runs_of (plain_pieces pieces.now)) segments.now)) pages.now }
    ensures catalogue { IfOk result (λ next. catalogue_of next.0.list
        ≡ settled (edited (catalogue_of stored.now.list) (edit_of edit.now)
        (in_runs (runs_of (plain_pieces pieces.now)) segments.now)) pages.now) }
    ensures texts { IfOk result (λ next. plain_contents next.1.items
        ≡ page_texts (edited (catalogue_of stored.now.list) (edit_of edit.now)
        (in_runs (runs_of (plain_pieces pieces.now)) segments.now))
        ++ settled_text (edited (catalogue_of stored.now.list) (edit_of edit.now)
        (in_runs (runs_of (plain_pieces pieces.now)) segments.now)) pages.now ∷ []) }
{
    let placed = in_runs(alloc, segments, pieces)?;
    let list = edited(alloc, &stored.list, edit, &placed)?;
    let (list, texts) = pages::settle(alloc, list, kind, pages)?;
    Ok((StoredCatalogue { list }, texts))
}

// Returns the refusal of a command for which no run is taken.
fn taking_refusal(error: TakeError) -> Refusal
    ensures { result ≡ taking_refusal error }
{
    match error {
        TakeError::NoRoom(count) => Refusal::NoRoom(count),
        TakeError::OutOfMemory => Refusal::OutOfMemory,
    }
}

// Takes runs for the streams, the pages and the text of the new catalogue, and makes the plan. After an error each run has its old use.
fn plan_change<'a>(
    alloc: Global,
    map: &mut FreeMap,
    commit: Commit,
    stored: &StoredCatalogue,
    change: &Change,
    pieces: &'a EncodedPieces<'_>,
) -> Result<Prepared<'a>, TakeError>
    requires limits { is_size map.old.size ≡ true }
    requires own { commit.device_sectors ≡ map.old.size }
    requires next { HasNext commit }
    requires sound { IsChange (catalogue_of stored.now.list) (change_of change.now) }
    requires streams { streams_in pieces.now ≡ (change_of change.now).streams }
    requires counts { pieces.now.rows.items ≡ (change_of change.now).counts }
    requires few { segment_count (outline commit.version (catalogue_of stored.now.list) (change_of change.now)) ≤ MAX_SEGMENTS }
    ensures ok { IfOk result (λ p. IsPrepared map.old map.new commit (catalogue_of stored.now.list) (change_of change.now) p.plan p.back.items) }
    ensures no_room { IfErr result (λ e. (n : ℕ) → e ≡ TakeError.NoRoom n
        → Takes map.old.size (IsUsedIn map.old.entries) (asked_sizes commit.version (catalogue_of stored.now.list) (change_of change.now)) (Err n)) }
    ensures size { map.new.size ≡ map.old.size }
    ensures err { OnErr result (SameUsages map.old.entries map.new.entries) }
{
    kept_catalogues_are_read();
    pages_hold_what_was_read();
    one_page_each();
    let streams = borrowed_streams(alloc, pieces)?;
    let segments = unplaced(alloc, commit.version, &streams, &pieces.rows)?;
    let asked = ask(alloc, commit, stored, change, &segments)?;
    let places = place(
        alloc,
        map,
        streams,
        &asked.layout.pages,
        asked.layout.text_bytes,
    )?;
    match next_catalogue(
        alloc,
        stored,
        &change.edit,
        &segments,
        &places.pieces,
        asked.layout.kind,
        page_runs(&places),
    ) {
        Ok((next, texts)) => Ok(Prepared {
            plan: plan_next(
                commit,
                version_after(&change.edit, commit.version),
                asked.layout.kind,
                next,
                places,
                texts,
                asked.layout.text_bytes as u64,
            ),
            back: asked.back,
        }),
        Err(error) => {
            map.give_each(&places.runs);
            Err(error.into())
        }
    }
}

/// Tests what can be tested before runs are taken, and then makes the plan. After an error each run has its old use.
///
/// # Errors
/// `TooMany(Epochs)`, `TooMany(Segments)`, `NoRoom`, `OutOfMemory`, in this order.
pub fn prepare<'a>(
    alloc: Global,
    map: &mut FreeMap,
    commit: Commit,
    stored: &StoredCatalogue,
    change: &Change,
    pieces: &'a EncodedPieces<'_>,
) -> Result<Prepared<'a>, Refusal>
    requires limits { is_size map.old.size ≡ true }
    requires own { commit.device_sectors ≡ map.old.size }
    requires sound { IsChange (catalogue_of stored.now.list) (change_of change.now) }
    requires streams { streams_in pieces.now ≡ (change_of change.now).streams }
    requires counts { pieces.now.rows.items ≡ (change_of change.now).counts }
    ensures ok { IfOk result (λ p. IsPrepared map.old map.new commit (catalogue_of stored.now.list) (change_of change.now) p.plan p.back.items) }
    ensures why { IfErr result (λ r. IsCarried map.old.size (IsUsedIn map.old.entries) commit (catalogue_of stored.now.list) (change_of change.now)
        (Err r) commit (catalogue_of stored.now.list)) }
    ensures device { IfErr result (λ r. r ≢ Refusal.Device) }
    ensures not_halted { IfErr result (λ r. r ≢ Refusal.Halted) }
    ensures size { map.new.size ≡ map.old.size }
    ensures err { OnErr result (SameUsages map.old.entries map.new.entries) }
{
    if commit.epoch == u64::MAX {
        return Err(Refusal::TooMany(Limit::Epochs));
    }
    let count = pieces.parts.len() as u64;
    if segments_after(&stored.list, &change.edit, count) > MAX_SEGMENTS {
        return Err(Refusal::TooMany(Limit::Segments));
    }
    match plan_change(alloc, map, commit, stored, change, pieces) {
        Ok(prepared) => Ok(prepared),
        Err(error) => Err(taking_refusal(error)),
    }
}

/// Makes what was published the state of the store, and frees the runs that it no longer needs. Allocates nothing.
pub fn settle(opened: &mut Opened<StoredCatalogue>, prepared: Prepared<'_>)
    ensures commit { opened.new.commit ≡ prepared.entry.plan.commit }
    ensures catalogue { opened.new.catalogue ≡ prepared.entry.plan.catalogue }
    ensures map { GivesAll opened.old.map opened.new.map prepared.entry.back.items }
{
    let Prepared { plan, back } = prepared;
    let Plan {
        commit,
        catalogue,
        pieces: _pieces,
        runs: _runs,
    } = plan;
    opened.commit = commit;
    opened.catalogue = catalogue;
    opened.map.give_each(&back);
}
