// The starts of consecutive runs of rows.
ghost use Rattle.std.specs.Prelude.{◌≡◌, ◌+◌, ◌<◌, ◌≤◌, ◌^◌, ℕ, List, true, length, sum, slice_index, IfOk};
ghost use Rattle.values.specs.inner.Starts.{starts_from, IsInRun};

use std::alloc::{AllocError, Global};

pub(crate) fn total(lengths: &[usize]) -> usize
    requires { sum lengths.now < 2 ^ 64 }
    ensures { result ≡ sum lengths.now }
{
    lengths.iter().sum()
}

// Returns the start of each run.
pub(crate) fn starts_of(alloc: Global, lengths: &[usize]) -> Result<Vec<usize>, AllocError>
    requires { sum lengths.now < 2 ^ 64 }
    ensures { IfOk result (λ v. v.items ≡ starts_from 0 lengths.now) }
{
    let mut starts = Vec::with_capacity(alloc, lengths.len())?;
    let mut start = 0;
    for count in lengths {
        starts.push(start)?;
        start += *count;
    }
    Ok(starts)
}

// Returns the run of a row, found by binary search.
fn run_by_halves(starts: &[usize], place: usize) -> usize
    ensures { (lengths : List ℕ) → starts.now ≡ starts_from 0 lengths → place < sum lengths → IsInRun lengths result place }
{
    starts
        .partition_point(|start| *start <= place)
        .saturating_sub(1)
}

fn has_place(starts: &[usize], run: usize, place: usize) -> bool
    ensures { (lengths : List ℕ) → starts.now ≡ starts_from 0 lengths → place < sum lengths → result ≡ true → IsInRun lengths run place }
{
    if run >= starts.len() || starts[run] > place {
        return false;
    }
    run + 1 == starts.len() || place < starts[run + 1]
}

// Returns the run of a row: the given near one, if it has the row.
pub(crate) fn run_near(starts: &[usize], near: usize, place: usize) -> usize
    ensures { (lengths : List ℕ) → starts.now ≡ starts_from 0 lengths → place < sum lengths → IsInRun lengths result place }
{
    if has_place(starts, near, place) {
        near
    } else {
        run_by_halves(starts, place)
    }
}
