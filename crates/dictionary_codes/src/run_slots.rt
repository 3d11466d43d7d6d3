// How many slots runs have.
ghost use Rattle.std.specs.Prelude.{◌≡◌, ◌≤◌, ◌^◌, MatchResult, length};
ghost use Rattle.dictionary_codes.specs.Masks.{run_bits, runs_bits};

use columns::SlotRun;
use std::alloc::AllocError;

/// Returns how many slots a run has.
#[tactic(auto, using(crate::specs::laws::SlotCounts::slots_counted))]
pub fn run_len(run: &SlotRun<'_>) -> usize
    ensures { result ≡ length (run_bits run.now) }
{
    match run {
        SlotRun::Slots { len, .. } => *len,
        SlotRun::Nulls(count) => *count,
    }
}

/// Returns how many slots runs have.
///
/// # Errors
/// `AllocError` if their number exceeds a `usize`: memory has no room for them.
pub fn count_slots(runs: &[SlotRun<'_>]) -> Result<usize, AllocError>
    ensures { MatchResult result (λ count. count ≡ length (runs_bits runs.now)) (λ _. 2 ^ 64 ≤ length (runs_bits runs.now)) }
{
    let mut count = 0usize;
    for run in runs {
        match count.checked_add(run_len(run)) {
            Some(more) => count = more,
            None => return Err(AllocError),
        }
    }
    Ok(count)
}
