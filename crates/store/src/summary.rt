// Counts the tables, segments and sectors of a store.
ghost use Rattle.std.specs.Prelude.{◌≡◌, ◌≤◌, ◌<◌, ◌+◌, ◌^◌, ◌∷◌, true, None, sum_by, IfOk, IfErr};
ghost use Rattle.segments.specs.Usages.{IsUsedIn};
ghost use Rattle.commit.specs.Standing.{is_size, is_on_device, runs_fault};
ghost use Rattle.store.specs.Summary.{CountsKept, IsLargest};

use crate::Store;
use commit::occupy_runs;
use sector_dev::SectorDevice;
use segments::{FreeMap, Run};
use std::alloc::Global;
use tables::Refusal;

/// The numbers of a store. A sector has 512 bytes.
#[derive(Clone, Copy)]
pub struct Summary {
    pub format_version: u32,
    /// The epoch of the commit that rules. Each change of the tables has the next one.
    pub epoch: u64,
    /// All sectors of the device.
    pub sectors: u64,
    /// The sectors of the two commits, of the catalogue and of the segments that it names.
    pub used: u64,
    /// The sectors that a command can write now: neither used nor kept.
    pub free: u64,
    /// The sectors that only open exports keep, of segments that no table has any more.
    pub kept: u64,
    /// The sectors of the largest run that can be written.
    pub largest_free_run: u64,
    pub tables: u64,
    pub segments: u64,
}

fn sectors_of(runs: &[Run]) -> u64
    requires { sum_by (λ r. r.count) runs.now < 2 ^ 64 }
    ensures { result ≡ sum_by (λ r. r.count) runs.now }
{
    runs.iter().map(|run| run.count).sum()
}

// Returns the number of sectors of the runs that are kept but not used. Each run counts once.
fn sectors_kept(
    alloc: Global,
    sectors: u64,
    text: Run,
    used: &[Run],
    kept: &[Run],
) -> Result<u64, Refusal>
    requires size { is_size sectors ≡ true }
    requires placed { is_on_device sectors text ≡ true }
    requires fit { runs_fault sectors text used.now ≡ None }
    ensures kept { IfOk result (λ count. CountsKept (text ∷ used.now) kept.now count) }
    ensures fits { IfOk result (λ count. 2 + text.count + sum_by (λ r. r.count) used.now + count ≤ sectors) }
    ensures err { IfErr result (λ e. e ≡ Refusal.OutOfMemory) }
{
    if kept.is_empty() {
        return Ok(0);
    }
    let Ok(mut map) = occupy_runs(alloc, sectors, text, used) else {
        return Err(Refusal::OutOfMemory);
    };
    let mut count = 0;
    for run in kept {
        if !map.usage(*run).taken {
            // A kept run shares no sector with others, so the error is refused memory.
            let Ok(()) = map.occupy(*run) else {
                return Err(Refusal::OutOfMemory);
            };
            count += run.count;
        }
    }
    Ok(count)
}

// Returns the number of sectors of the largest free run, by bisection.
fn largest_free(map: &FreeMap, sectors: u64) -> u64
    requires { map.now.size ≡ sectors }
    ensures { IsLargest sectors (IsUsedIn map.now.entries) result }
{
    let mut some = 0;
    let mut most = sectors;
    while some < most {
        let count = most - (most - some) / 2;
        match map.find(count) {
            Some(_) => some = count,
            None => most = count - 1,
        }
    }
    some
}

impl<D: SectorDevice> Store<D> {
    ghost use Rattle.std.specs.Prelude.{◌≡◌, false, MatchResult};
    ghost use Rattle.store.specs.Fits.{device_of, is_halted};
    ghost use Rattle.store.specs.Listing.{RefusesTables};
    ghost use Rattle.store.specs.Summary.{IsSummary};

    /// Returns the numbers of the store. Makes no call of the device.
    ///
    /// ```
    /// let free_bytes = store.summary(alloc)?.free * 512;
    /// ```
    ///
    /// # Errors
    /// `Halted` after a failure of the device; `OutOfMemory`.
    pub fn summary(&self, alloc: Global) -> Result<Summary, Refusal>
        ensures { MatchResult result
            (λ summary. (is_halted self.now ≡ false) × IsSummary (D.size (device_of self.now)) self.now summary)
            (λ e. RefusesTables (is_halted self.now) e) }
    {
        if self.halted {
            return Err(Refusal::Halted);
        }
        let opened = &self.opened;
        let list = &opened.catalogue.list;
        let runs = list.runs(alloc)?;
        let sectors = self.device.sectors();
        let text = opened.commit.catalogue.run;
        let used = 2 + text.count + sectors_of(&runs);
        let kept = sectors_kept(alloc, sectors, text, &runs, &self.book.runs(alloc)?)?;
        Ok(Summary {
            format_version: opened.commit.version.number(),
            epoch: opened.commit.epoch,
            sectors,
            used,
            free: sectors - used - kept,
            kept,
            largest_free_run: largest_free(&opened.map, sectors),
            tables: list.len() as u64,
            segments: list.segment_count(),
        })
    }
}
