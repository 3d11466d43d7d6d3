// The rows of record batches that a mask keeps, as runs of slots.
ghost use Rattle.std.specs.Prelude.{◌≡◌, ◌≤◌, ◌<◌, ◌+◌, ◌*◌, ◌^◌, ◌++◌, true, length, take, sum_by, IfOk, OnOk};
ghost use Rattle.std.specs.List.{flat_map, list_all};
ghost use Rattle.arrow_schema.specs.Column.{Columns};
ghost use Rattle.query.specs.Choice.{rows_set};
ghost use Rattle.table_cut.specs.Rows.{run_rows, runs_rows, is_run_sound, are_runs_sound};
ghost use Rattle.selection.specs.inner.Kept.{AreKept, Keeps};
ghost use Rattle.selection.specs.inner.Picked.{picked_rows, is_picked_sound};

use crate::picked::{PickedBatch, whole_run};
use query::next_set;
use std::alloc::{AllocError, Global};
use table_cut::RowRun;

/// Kept rows as runs, and their number.
#[derive(Drop)]
pub(crate) struct KeptRuns<'a> {
    pub(crate) runs: Vec<RowRun<'a>>,
    pub(crate) rows: usize,
}

// Keeps the first rows of a run, as many as there is room for, and returns their number.
fn keep_front<'a>(kept: &mut KeptRuns<'a>, run: RowRun<'a>, most: u64) -> Result<usize, AllocError>
    requires room { kept.old.rows < most }
    ensures within { IfOk result (λ n. n ≤ run.entry.len) }
    ensures some { IfOk result (λ n. 0 < run.entry.len → 0 < n) }
    ensures count { IfOk result (λ n. kept.new.rows ≡ kept.old.rows + n) }
    ensures few { OnOk result (kept.new.rows ≤ most) }
    ensures rows { IfOk result (λ n. (columns : Columns) → runs_rows columns kept.new.runs.items
        ≡ runs_rows columns kept.old.runs.items ++ take n (run_rows columns run.entry)) }
    ensures sound { OnOk result ((columns : Columns) → are_runs_sound columns kept.old.runs.items ≡ true → is_run_sound columns run.entry ≡ true
        → are_runs_sound columns kept.new.runs.items ≡ true) }
{
    let room = most - kept.rows as u64;
    let len = (run.len as u64).min(room) as usize;
    kept.runs.push(run.front(len))?;
    kept.rows += len;
    Ok(len)
}

// Keeps the rows of a batch whose bits are set. The bit of its first row is at `start`.
fn keep_batch<'a>(
    kept: &mut KeptRuns<'a>,
    whole: RowRun<'a>,
    mask: &[u8],
    start: usize,
    most: u64,
) -> Result<(), AllocError>
    requires within { start + whole.len ≤ 8 * length mask.now }
    requires few { start + whole.len < 2 ^ 64 }
    ensures { OnOk result ((columns : Columns) → is_run_sound columns whole.entry ≡ true
        → Keeps columns most kept.old kept.new (rows_set mask.now start (run_rows columns whole.entry))) }
{
    let end = start + whole.len;
    let mut next = next_set(mask, start, end);
    while next < end && (kept.rows as u64) < most {
        let stop = bitmap::run_end(mask, next, end);
        let run = whole.skip(next - start).front(stop - next);
        let len = keep_front(kept, run, most)?;
        next = next_set(mask, next + len, end);
    }
    Ok(())
}

/// Returns the rows of batches whose bits are set, at most `most`.
pub(crate) fn keep_batches<'a>(
    alloc: Global,
    batches: &'a [PickedBatch<'a>],
    mask: &[u8],
    most: u64,
) -> Result<KeptRuns<'a>, AllocError>
    requires within { sum_by (λ b. b.rows) batches.now ≤ 8 * length mask.now }
    requires few { sum_by (λ b. b.rows) batches.now < 2 ^ 64 }
    ensures { IfOk result (λ k. (columns : Columns) → list_all (is_picked_sound columns) batches.now ≡ true
        → AreKept columns (take most (rows_set mask.now 0 (flat_map (picked_rows columns) batches.now))) k) }
{
    let mut kept = KeptRuns {
        runs: Vec::new(alloc),
        rows: 0,
    };
    let mut start = 0;
    for batch in batches {
        keep_batch(&mut kept, whole_run(batch, batch.rows), mask, start, most)?;
        start += batch.rows;
    }
    Ok(kept)
}
