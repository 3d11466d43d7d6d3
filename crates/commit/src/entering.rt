// Marks the runs of a catalogue as in use.
ghost use Rattle.std.specs.Prelude.{◌≡◌, ◌≢◌, ◌∷◌, [], true, None, Some, OnOk, IfOk, IfErr, IsPermutation};
ghost use Rattle.commit.specs.Placing.{Uses};
ghost use Rattle.commit.specs.Standing.{is_on_device, all_on_device, runs_fault};
ghost use Rattle.commit.specs.laws.Apart.{HasEntered};

use crate::{Cause, OpenError};
use segments::{EnterError, FreeMap, Run};
use std::alloc::{AllocError, Global};

fn are_on_device(size: u64, runs: &[Run]) -> bool
    ensures { result ≡ all_on_device size runs.now }
{
    for run in runs {
        if !run.is_on_device(size) {
            return false;
        }
    }
    true
}

// Returns a map in which only this run is in use.
fn map_of(alloc: Global, sectors: u64, text: Run) -> Result<FreeMap, OpenError>
    requires { is_on_device sectors text ≡ true }
    ensures entered { IfOk result (λ map. HasEntered sectors map (text ∷ [])) }
    ensures err { IfErr result (λ e. e ≡ OpenError.OutOfMemory) }
{
    let mut map = FreeMap::new(alloc, sectors);
    match map.occupy(text) {
        Ok(()) => Ok(map),
        Err(_) => Err(OpenError::OutOfMemory),
    }
}

// Sorts the runs by their starts, so that each one comes into use after those before it.
fn by_start(alloc: Global, runs: &[Run]) -> Result<Vec<Run>, AllocError>
    ensures { IfOk result (λ sorted. IsPermutation runs.now sorted.items) }
{
    let mut sorted = Vec::from_slice(alloc, runs)?;
    sorted.sort_unstable_by_key(|run| run.start);
    Ok(sorted)
}

// Returns the map in which these runs are in use, entered one by one.
fn occupy_each(alloc: Global, sectors: u64, text: Run, runs: &[Run]) -> Result<FreeMap, OpenError>
    requires text { is_on_device sectors text ≡ true }
    requires runs { all_on_device sectors runs.now ≡ true }
    ensures size { IfOk result (λ map. map.size ≡ sectors) }
    ensures uses { IfOk result (λ map. Uses map.entries (text ∷ runs.now) []) }
    ensures fit { OnOk result (runs_fault sectors text runs.now ≡ None) }
    ensures damaged { IfErr result (λ e. (cause : Cause) → e ≡ OpenError.Damaged cause → runs_fault sectors text runs.now ≡ Some cause) }
    ensures errors { IfErr result (λ e. (e ≢ OpenError.NotAStore) × (e ≢ OpenError.Device)) }
{
    let mut map = map_of(alloc, sectors, text)?;
    for run in runs {
        map.occupy(*run)?;
    }
    Ok(map)
}

/// Returns the map in which the run of a catalogue's text and those that the catalogue names are in use. The running time does not depend on the
/// order of the runs.
///
/// # Errors
/// `Damaged(RunRange)` if a run lies outside the device, or else `Damaged(RunOverlap)` if two share a sector; `OutOfMemory`.
pub fn occupy_runs(
    alloc: Global,
    sectors: u64,
    text: Run,
    runs: &[Run],
) -> Result<FreeMap, OpenError>
    requires { is_on_device sectors text ≡ true }
    ensures size { IfOk result (λ map. map.size ≡ sectors) }
    ensures uses { IfOk result (λ map. Uses map.entries (text ∷ runs.now) []) }
    ensures fit { OnOk result (runs_fault sectors text runs.now ≡ None) }
    ensures damaged { IfErr result (λ e. (cause : Cause) → e ≡ OpenError.Damaged cause → runs_fault sectors text runs.now ≡ Some cause) }
    ensures errors { IfErr result (λ e. (e ≢ OpenError.NotAStore) × (e ≢ OpenError.Device)) }
{
    if !are_on_device(sectors, runs) {
        return Err(OpenError::Damaged(Cause::RunRange));
    }
    match by_start(alloc, runs) {
        Ok(sorted) => occupy_each(alloc, sectors, text, &sorted),
        Err(_) => Err(OpenError::OutOfMemory),
    }
}

impl From<EnterError> for OpenError {
    ghost use Rattle.std.specs.Prelude.{◌≡◌};
    ghost use Rattle.commit.specs.Opening.{open_error};

    ghost from_gives = { λ e r. r ≡ open_error e };

    fn from(error: EnterError) -> Self {
        match error {
            EnterError::Range => OpenError::Damaged(Cause::RunRange),
            EnterError::Overlap | EnterError::TooManyPins => OpenError::Damaged(Cause::RunOverlap),
            EnterError::OutOfMemory => OpenError::OutOfMemory,
        }
    }
}
