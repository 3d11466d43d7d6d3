// Takes runs for what is to be written.
ghost use Rattle.std.specs.Prelude.{◌≡◌, ◌≤◌, ◌<◌, ◌+◌, ◌++◌, ◌∷◌, [], ℕ, Ok, Err, OnOk, OnErr, IfOk, IfErr, length, take, slice_index, vec_len, vec_capacity};
ghost use Rattle.segments.specs.Pieces.{plain_pieces};
ghost use Rattle.segments.specs.Usages.{IsUsedIn, SameUsages};
ghost use Rattle.segments.specs.Writing.{runs_of};
ghost use Rattle.commit.specs.Placing.{Takes, AreSome, AreShort, AreWritten, HasRoom, contents_of, counts_of, plain_contents};
ghost use Rattle.commit.specs.laws.Taking.{TookAll};

use sector_dev::SECTOR_BYTES;
use segments::{FreeMap, Piece, PiecePart, Run, SearchCursor, TakeError, byte_count};
use std::alloc::{AllocError, Global};

/// The runs for contents, and for the text that will name them.
#[derive(Drop)]
pub struct Places<'a> {
    pub pieces: Vec<Piece<'a>>,
    pub text: Run,
    /// All runs that were taken, in order: those of the pieces, of the pages, and of the text.
    pub runs: Vec<Run>,
}

/// Takes runs of these numbers of sectors in order, each at the lowest place that is then free.
///
/// # Errors
/// `NoRoom(n)` if no n sectors in a row are free when they are requested; `OutOfMemory`. After an error each run has its earlier usage: those that
/// were taken are given back.
pub fn take_runs(alloc: Global, map: &mut FreeMap, counts: &[u64]) -> Result<Vec<Run>, TakeError>
    requires some { (i : ℕ) → i < length counts.now → 1 ≤ slice_index counts.now i }
    ensures ok { IfOk result (λ runs. Takes map.old.size (IsUsedIn map.old.entries) counts.now (Ok runs.items)) }
    ensures taken { IfOk result (λ runs. TookAll map.old map.new counts.now runs.items) }
    ensures no_room { IfErr result (λ e. (n : ℕ) → e ≡ TakeError.NoRoom n → Takes map.old.size (IsUsedIn map.old.entries) counts.now (Err n)) }
    ensures size { map.new.size ≡ map.old.size }
    ensures err { OnErr result (SameUsages map.old.entries map.new.entries) }
{
    let mut runs = Vec::with_capacity(alloc, counts.len())?;
    let mut searched = SearchCursor::nothing();
    for count in counts {
        match map.take_onward(*count, &mut searched) {
            Ok(run) => runs.push(run).unwrap(),
            Err(error) => {
                map.give_each(&runs);
                return Err(error);
            }
        }
    }
    Ok(runs)
}

// Returns the numbers of sectors for each of these contents, each of these pages, and a text of `text_bytes` bytes.
fn counts_for(
    alloc: Global,
    contents: &[Vec<PiecePart<'_>>],
    pages: &[u64],
    text_bytes: usize,
) -> Result<Vec<u64>, AllocError>
    ensures counts { IfOk result (λ counts. counts.items ≡ counts_of (plain_contents contents.now) pages.now text_bytes) }
    ensures short { OnOk result (AreShort (plain_contents contents.now)) }
{
    let mut counts = Vec::new(alloc);
    for parts in contents {
        let bytes = byte_count(parts).ok_or(AllocError)?;
        counts.push(bytes.div_ceil(SECTOR_BYTES as u64))?;
    }
    for bytes in pages {
        counts.push(bytes.div_ceil(SECTOR_BYTES as u64))?;
    }
    counts.push(text_bytes.div_ceil(SECTOR_BYTES) as u64)?;
    Ok(counts)
}

// Puts each of these contents into the run at its place, after those of the earlier pieces.
pub(crate) fn pieces_of<'a>(
    contents: Vec<Vec<PiecePart<'a>>>,
    runs: &[Run],
    pieces: Vec<Piece<'a>>,
) -> Vec<Piece<'a>>
    requires runs { vec_len pieces + vec_len contents ≤ length runs.now }
    requires room { vec_len pieces + vec_len contents ≤ vec_capacity pieces }
    requires front { runs_of (plain_pieces pieces.items) ≡ take (vec_len pieces) runs.now }
    ensures contents { contents_of (plain_pieces result.items) ≡ contents_of (plain_pieces pieces.entry.items) ++ plain_contents contents.entry.items }
    ensures runs { runs_of (plain_pieces result.items) ≡ take (vec_len result) runs.now }
    ensures count { vec_len result ≡ vec_len pieces.entry + vec_len contents.entry }
    ensures room { vec_capacity pieces.entry ≤ vec_capacity result }
{
    let mut pieces = pieces;
    for parts in contents {
        let run = runs[pieces.len()];
        pieces.push(Piece { run, parts }).unwrap();
    }
    pieces
}

/// Takes a run for each of these contents in order, then one for each page, of which the size in bytes is given, and then one for a text of
/// `text_bytes` bytes, each at the lowest place that is then free. The contents are given in parts.
///
/// # Errors
/// `NoRoom(n)` if no n sectors in a row are free when they are requested; `OutOfMemory`, also if contents have 2^64 bytes or more. After an error
/// each run has its earlier usage.
pub fn place<'a>(
    alloc: Global,
    map: &mut FreeMap,
    contents: Vec<Vec<PiecePart<'a>>>,
    pages: &[u64],
    text_bytes: usize,
) -> Result<Places<'a>, TakeError>
    requires some { AreSome (plain_contents contents.items) }
    requires pages { AreWritten pages.now }
    requires text { 1 ≤ text_bytes }
    ensures ok { IfOk result
        (λ places. Takes map.old.size (IsUsedIn map.old.entries) (counts_of (plain_contents contents.entry.items) pages.now text_bytes) (Ok places.runs.items)) }
    ensures taken { IfOk result (λ places. TookAll map.old map.new (counts_of (plain_contents contents.entry.items) pages.now text_bytes) places.runs.items) }
    ensures contents { IfOk result (λ places. contents_of (plain_pieces places.pieces.items) ≡ plain_contents contents.entry.items) }
    ensures short { OnOk result (AreShort (plain_contents contents.entry.items)) }
    ensures room { IfOk result (λ places. HasRoom (length pages.now) places) }
    ensures no_room { IfErr result
        (λ e. (n : ℕ) → e ≡ TakeError.NoRoom n
        → Takes map.old.size (IsUsedIn map.old.entries) (counts_of (plain_contents contents.entry.items) pages.now text_bytes) (Err n)) }
    ensures size { map.new.size ≡ map.old.size }
    ensures err { OnErr result (SameUsages map.old.entries map.new.entries) }
{
    let counts = counts_for(alloc, &contents, pages, text_bytes)?;
    let pieces = Vec::with_capacity(alloc, counts.len())?;
    let runs = take_runs(alloc, map, &counts)?;
    let text = runs[contents.len() + pages.len()];
    let pieces = pieces_of(contents, &runs, pieces);
    Ok(Places { pieces, text, runs })
}
