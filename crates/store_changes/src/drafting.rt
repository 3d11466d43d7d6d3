// Several commands on a catalogue, one after another, as one change. Nothing is written here, and the device is not read.
ghost use Rattle.std.specs.Prelude.{◌≡◌, ◌⊎◌, ◌++◌, ◌≤◌, ◌<◌, ◌^◌, ℕ, List, [], map, length, slice_get, Some, IfOk, IfErr};
ghost use Rattle.sector_dev.specs.Disk.{Image};
ghost use Rattle.catalogue.specs.declared.limits.TheConstants.{MAX_SEGMENTS};
ghost use Rattle.catalogue.specs.declared.entry.Segment.{Segment};
ghost use Rattle.catalogue.specs.Entries.{runs_of, segment_count};
ghost use Rattle.catalogue.specs.View.{catalogue_of};
ghost use Rattle.commit.specs.declared.sector.FormatVersion.TheVariants.{One};
ghost use Rattle.ipc_encode.specs.View.{joined_parts, streams_in};
ghost use Rattle.store_runs.specs.Changes.{CanChange, IsChange, placed_segments, edited};
ghost use Rattle.store_runs.specs.Deciding.{AreBefore, ExceedsSegments, IsWhole, Leaves};
ghost use Rattle.store_changes.specs.Change.{change_of};
ghost use Rattle.store_changes.specs.Draft.{end_of, starts_from, places_from, laid, ArePlaces, IsDraft, streams_of};
ghost use Rattle.store_changes.specs.laws.Drafting.{IsLine, low_runs, rows_in};
ghost use Rattle.store_changes.specs.laws.Laid.{HaveStreams};

use crate::change::{Change, Edit, NewSegments};
use crate::editing::{edited_in_place, given_up, segments_after};
use crate::kept_message::KeptMessage;
use crate::rebuilding::new_segments;
use batch_build::Buffer;
use catalogue::{Catalogue, MAX_SEGMENTS, Segment, one_page_each};
use ipc_encode::EncodedPieces;
use sector_dev::SECTOR_BYTES;
use segments::{Extent, Run};
use std::alloc::{AllocError, Global};
use tables::{Limit, Refusal};

/// The catalogue as several commands leave it, one after another, before anything is written.
#[derive(Drop)]
pub struct Draft {
    /// The catalogue before the first command.
    pub old: Catalogue,
    /// The segments of `made` that start at this sector or later are new.
    pub from: u64,
    pub made: Catalogue,
    /// The runs of `old` that `made` no longer names.
    pub gone: Vec<Run>,
    /// The streams of new segments. They count as placed one after another from the sector `from` on.
    pub streams: Vec<Vec<u8>>,
    /// Where each of them starts.
    pub starts: Vec<u64>,
    /// Where the next one would start.
    pub next: u64,
    /// The message with which the last of them begins, or one before it.
    pub message: Option<KeptMessage>,
}

// New segments, where each starts, and the sector behind them.
#[derive(Drop)]
struct Placed {
    segments: Vec<Segment>,
    starts: Vec<u64>,
    next: u64,
}

// Copies a stream that begins with these bytes and goes on with parts.
fn owned_stream(alloc: Global, front: &[u8], parts: &[Buffer<'_>]) -> Result<Vec<u8>, AllocError>
    ensures { IfOk result (λ stream. stream.items ≡ front.now ++ joined_parts parts.now) }
{
    let mut stream = Vec::from_slice(alloc, front)?;
    for part in parts {
        stream.extend_from_slice(part.bytes())?;
    }
    Ok(stream)
}

// Copies the streams of pieces.
fn owned_streams(alloc: Global, pieces: &EncodedPieces<'_>) -> Result<Vec<Vec<u8>>, AllocError>
    ensures { IfOk result (λ streams. map (λ s. s.items) streams.items ≡ streams_in pieces.now) }
{
    let mut streams = Vec::with_capacity(alloc, pieces.parts.len())?;
    for parts in &pieces.parts {
        streams.push(owned_stream(alloc, &pieces.schema_message, parts)?)?;
    }
    Ok(streams)
}

// Returns the segments of streams with the number of rows of each, one after another from a sector on.
fn place_streams(
    alloc: Global,
    from: u64,
    streams: &[Vec<u8>],
    rows: &[u64],
) -> Result<Placed, AllocError>
    requires { length streams.now ≡ length rows.now }
    ensures segments { IfOk result (λ placed. placed.segments.items
        ≡ placed_segments One (places_from from (map (λ s. s.items) streams.now)) (map (λ s. s.items) streams.now) rows.now) }
    ensures starts { IfOk result (λ placed. placed.starts.items ≡ starts_from from (map (λ s. s.items) streams.now)) }
    ensures next { IfOk result (λ placed. placed.next ≡ end_of from (map (λ s. s.items) streams.now)) }
    ensures counted { IfOk result (λ placed. placed.next < 2 ^ 64) }
{
    let mut segments = Vec::with_capacity(alloc, streams.len())?;
    let mut starts = Vec::with_capacity(alloc, streams.len())?;
    let mut next = from;
    for (place, stream) in streams.iter().enumerate() {
        let bytes = stream.len() as u64;
        let run = Run {
            start: next,
            count: bytes.div_ceil(SECTOR_BYTES as u64),
        };
        segments.push(Segment {
            place: Extent { run, bytes },
            rows: rows[place],
            digest: None,
        })?;
        starts.push(next)?;
        next = next.checked_add(run.count).ok_or(AllocError)?;
    }
    Ok(Placed {
        segments,
        starts,
        next,
    })
}

// Returns the runs that start before a sector.
fn low_runs(alloc: Global, from: u64, runs: &[Run]) -> Result<Vec<Run>, AllocError>
    ensures { IfOk result (λ low. low.items ≡ low_runs from runs.now) }
{
    let mut low = Vec::new(alloc);
    for run in runs {
        if run.start < from {
            low.push(*run)?;
        }
    }
    Ok(low)
}

// Returns the place of the stream that starts at this sector.
pub(crate) fn place_of(starts: &[u64], start: u64) -> usize
    requires { (from : ℕ) × (streams : List (List ℕ)) × (place : ℕ) × (starts.now ≡ starts_from from streams)
        × (slice_get starts.now place ≡ Some start) }
    ensures { slice_get starts.now result ≡ Some start }
{
    match starts.binary_search(&start) {
        Ok(place) | Err(place) => place,
    }
}

// Returns the places of the streams of new segments.
fn places_of(alloc: Global, starts: &[u64], segments: &[Segment]) -> Result<Vec<usize>, AllocError>
    requires { (from : ℕ) × (streams : List (List ℕ)) × (starts.now ≡ starts_from from streams) × HaveStreams starts.now streams segments.now }
    ensures { IfOk result (λ places. ArePlaces starts.now segments.now places.items) }
{
    let mut places = Vec::with_capacity(alloc, segments.len())?;
    for segment in segments {
        places.push(place_of(starts, segment.place.run.start))?;
    }
    Ok(places)
}

// Returns the number of rows of each segment.
fn rows_of(alloc: Global, segments: &[Segment]) -> Result<Vec<u64>, AllocError>
    ensures { IfOk result (λ rows. rows.items ≡ rows_in segments.now) }
{
    let mut rows = Vec::with_capacity(alloc, segments.len())?;
    for segment in segments {
        rows.push(segment.rows)?;
    }
    Ok(rows)
}

// Returns the draft after an edit with the streams of these pieces.
fn with_pieces(
    alloc: Global,
    draft: Draft,
    change: &Change,
    pieces: &EncodedPieces<'_>,
) -> Result<Draft, AllocError>
    requires draft { IsDraft draft }
    requires line { IsLine (change_of change.now).edit }
    requires sound { IsChange (catalogue_of draft.made) (change_of change.now) }
    requires streams { streams_in pieces.now ≡ (change_of change.now).streams }
    requires counts { pieces.now.rows.items ≡ (change_of change.now).counts }
    requires few { (segments : List Segment) → length segments ≡ length (change_of change.now).streams
        → segment_count (edited (catalogue_of draft.made) (change_of change.now).edit segments) ≤ MAX_SEGMENTS }
    ensures draft { IfOk result IsDraft }
    ensures same { IfOk result (λ next. (next.from ≡ draft.from) × (catalogue_of next.old ≡ catalogue_of draft.old)) }
    ensures leaves { IfOk result (λ next. (image : Image) → Leaves draft.next (laid draft.from (streams_of draft) image) (catalogue_of draft.made)
        (change_of change.now) next.next (laid next.from (streams_of next) image) (catalogue_of next.made)) }
{
    one_page_each();
    let Draft {
        old,
        from,
        made,
        mut gone,
        mut streams,
        mut starts,
        next,
        message,
    } = draft;
    let mut more = owned_streams(alloc, pieces)?;
    let placed = place_streams(alloc, next, &more, &pieces.rows)?;
    let lost = given_up(alloc, &made, &change.edit, &placed.segments)?;
    let low = low_runs(alloc, from, &lost)?;
    gone.extend_from_slice(&low)?;
    let made = edited_in_place(alloc, made, &change.edit, &placed.segments)?;
    streams.append(&mut more)?;
    starts.extend_from_slice(&placed.starts)?;
    Ok(Draft {
        old,
        from,
        made,
        gone,
        streams,
        starts,
        next: placed.next,
        message,
    })
}

impl Draft {
    /// Begins with a catalogue whose runs all lie before the end of a device of this size.
    ///
    /// # Errors
    /// `AllocError` if memory was refused.
    pub fn begin(alloc: Global, catalogue: &Catalogue, sectors: u64) -> Result<Draft, AllocError>
        requires { AreBefore sectors (runs_of (catalogue_of catalogue.now)) }
        ensures draft { IfOk result IsDraft }
        ensures old { IfOk result (λ draft. catalogue_of draft.old ≡ catalogue_of catalogue.now) }
        ensures made { IfOk result (λ draft. catalogue_of draft.made ≡ catalogue_of catalogue.now) }
        ensures from { IfOk result (λ draft. draft.from ≡ sectors) }
        ensures none { IfOk result (λ draft. streams_of draft ≡ []) }
    {
        let old = catalogue.copy(alloc)?;
        let made = catalogue.copy(alloc)?;
        Ok(Draft {
            old,
            from: sectors,
            made,
            gone: Vec::new(alloc),
            streams: Vec::new(alloc),
            starts: Vec::new(alloc),
            next: sectors,
            message: None,
        })
    }

    /// Adds the change of a single command, which was decided on `made`.
    ///
    /// # Errors
    /// `TooMany(Segments)`; `OutOfMemory`.
    pub fn add(self, alloc: Global, change: &Change) -> Result<Draft, Refusal>
        requires draft { IsDraft self }
        requires line { IsLine (change_of change.now).edit }
        requires can { CanChange (catalogue_of self.made) (change_of change.now) }
        ensures draft { IfOk result IsDraft }
        ensures same { IfOk result (λ next. (next.from ≡ self.from) × (catalogue_of next.old ≡ catalogue_of self.old)) }
        ensures leaves { IfOk result (λ next. (image : Image) → Leaves self.next (laid self.from (streams_of self) image) (catalogue_of self.made)
            (change_of change.now) next.next (laid next.from (streams_of next) image) (catalogue_of next.made)) }
        ensures told { IfErr result (λ e. (e ≡ Refusal.OutOfMemory)
            ⊎ ((e ≡ Refusal.TooMany Limit.Segments) × ExceedsSegments self.next (catalogue_of self.made) (change_of change.now))) }
    {
        let mut draft = self;
        let pieces = change.pieces_and_message(alloc, &mut draft.message)?;
        let count = pieces.parts.len() as u64;
        if segments_after(&draft.made, &change.edit, count) > MAX_SEGMENTS {
            return Err(Refusal::TooMany(Limit::Segments));
        }
        Ok(with_pieces(alloc, draft, change, &pieces)?)
    }

    /// Returns all changes as one: the streams are those of the new segments that are still named.
    ///
    /// # Errors
    /// `AllocError` if memory was refused.
    pub fn finish(self, alloc: Global) -> Result<Change, AllocError>
        requires { IsDraft self }
        ensures can { IfOk result (λ change. CanChange (catalogue_of self.old) (change_of change)) }
        ensures whole { IfOk result (λ change. (image : Image)
            → IsWhole self.from (catalogue_of self.old) (laid self.from (streams_of self) image) (catalogue_of self.made) (change_of change)) }
    {
        let new = new_segments(alloc, self.from, &self.made)?;
        let places = places_of(alloc, &self.starts, &new)?;
        let rows = rows_of(alloc, &new)?;
        let Draft {
            old,
            from,
            made,
            gone,
            streams,
            starts: _starts,
            next: _next,
            message: _message,
        } = self;
        Ok(Change {
            edit: Edit::Rebuild {
                old,
                from,
                made,
                gone,
            },
            new: Some(NewSegments::Streams {
                streams,
                places,
                rows,
            }),
        })
    }
}
