// The runs in use on a device, and the lowest free run.
ghost use Rattle.std.specs.Prelude.{◌≡◌, ◌≤◌, ◌+◌, ◌↔◌, ◌⊎◌, [], Err, None, Some, IfOk, IfErr, OnOk, OnErr, IsErrOf, IsTrue, true};
ghost use Rattle.segments.specs.Runs.{IsOnDevice, IsFree, IsLowest};
ghost use Rattle.segments.specs.Usages.{UNUSED, TAKEN, given, pinned, unpinned, is_used, usage_of, with_run, IsUsedIn, IsSearched};
ghost use Rattle.segments.specs.Usages.{is_among, times_among, Overlaps, IsUnused, Changes, GivesAll, PinsAll, UnpinsAll};
ghost use Rattle.segments.specs.declared.run.Run.{Run};

use crate::entries::{Holder, change, is_apart, let_go_each, lowest, place_of_run, place_of_start};
use crate::gap_buffer::GapBuffer;
use crate::{EnterError, Run, SearchCursor, TakeError, Usage, UsageEntry};
use std::alloc::{AllocError, Global};
use std::marker::Model;

/// The runs in use on a device: those that the ruling catalogue has taken, and those that snapshots pin. All other sectors after the two commit
/// sectors are free.
#[derive(Drop)]
pub struct FreeMap {
    size: u64,
    entries: GapBuffer,
}

impl Model for FreeMap {
    ghost use Rattle.segments.specs.Usages.{Space, IsSound};

    ghost Value = { Space };

    ghost view = { λ map. record { size = map.size; entries = map.entries } };

    ghost invariant = { λ map. IsSound (record { size = map.size; entries = map.entries }) };
}

impl FreeMap {
    /// Creates the map of a device of `size` sectors without runs in use.
    pub fn new(alloc: Global, size: u64) -> Self
        ensures { result ≡ record { size = size; entries = [] } }
    {
        FreeMap {
            size,
            entries: GapBuffer::new(alloc),
        }
    }

    /// Returns the usage of a run.
    pub fn usage(&self, run: Run) -> Usage
        ensures usage { result ≡ usage_of self.now.entries run }
        ensures on_device { is_used result ≡ true → IsOnDevice self.now.size run }
    {
        match place_of_run(&self.entries, run) {
            Some(place) => self.entries.get(place).usage,
            None => Usage {
                taken: false,
                pins: 0,
            },
        }
    }

    /// Returns the lowest free run of `count` sectors. Allocates no memory.
    pub fn find(&self, count: u64) -> Option<Run>
        requires { 1 ≤ count }
        ensures { IsLowest self.now.size (IsUsedIn self.now.entries) count result }
    {
        let mut searched = SearchCursor::nothing();
        lowest(self.size, &self.entries, count, &mut searched)
    }

    /// Takes the lowest free run of `count` sectors.
    ///
    /// # Errors
    /// `NoRoom(count)` exactly if there is no such run; `OutOfMemory`. Nothing has then changed.
    pub fn take(&mut self, count: u64) -> Result<Run, TakeError>
        requires { 1 ≤ count }
        ensures lowest { IfOk result (λ run. IsLowest self.old.size (IsUsedIn self.old.entries) count (Some run)) }
        ensures taken { IfOk result (λ run. self.new ≡ with_run self.old run TAKEN) }
        ensures changes { IfOk result (λ run. Changes self.old self.new run TAKEN) }
        ensures no_room { (result ≡ Err (TakeError.NoRoom count)) ↔ IsLowest self.old.size (IsUsedIn self.old.entries) count None }
        ensures err { OnErr result (self.new ≡ self.old) }
        ensures errors { IfErr result (λ e. (e ≡ TakeError.NoRoom count) ⊎ (e ≡ TakeError.OutOfMemory)) }
    {
        self.take_onward(count, &mut SearchCursor::nothing())
    }

    /// Takes the lowest free run of `count` sectors, as `take` does, but skips what earlier searches found too narrow. If `searched` is passed from
    /// call to call, the runs in use are searched only once in total, and moved only once, as long as no call requests so few sectors that a skipped
    /// gap may hold them; then the search restarts.
    ///
    /// # Errors
    /// Those of [`FreeMap::take`].
    pub fn take_onward(&mut self, count: u64, searched: &mut SearchCursor) -> Result<Run, TakeError>
        requires some { 1 ≤ count }
        requires searched { IsSearched self.old searched.old }
        ensures lowest { IfOk result (λ run. IsLowest self.old.size (IsUsedIn self.old.entries) count (Some run)) }
        ensures taken { IfOk result (λ run. self.new ≡ with_run self.old run TAKEN) }
        ensures changes { IfOk result (λ run. Changes self.old self.new run TAKEN) }
        ensures no_room { (result ≡ Err (TakeError.NoRoom count)) ↔ IsLowest self.old.size (IsUsedIn self.old.entries) count None }
        ensures err { OnErr result (self.new ≡ self.old) }
        ensures errors { IfErr result (λ e. (e ≡ TakeError.NoRoom count) ⊎ (e ≡ TakeError.OutOfMemory)) }
        ensures searched { IsSearched self.new searched.new }
    {
        let Some(run) = lowest(self.size, &self.entries, count, searched) else {
            return Err(TakeError::NoRoom(count));
        };
        let usage = Usage {
            taken: true,
            pins: 0,
        };
        self.insert(run, usage)?;
        searched.start = run.end();
        Ok(run)
    }

    /// Takes this run, as one that a catalogue names.
    ///
    /// # Errors
    /// `Range` exactly if the run is not on the device; `Overlap` if it is not free; `OutOfMemory`. Nothing has then changed.
    pub fn occupy(&mut self, run: Run) -> Result<(), EnterError>
        ensures fits { OnOk result (IsOnDevice self.old.size run × IsFree self.old.size (IsUsedIn self.old.entries) run) }
        ensures taken { OnOk result (self.new ≡ with_run self.old run TAKEN) }
        ensures changes { OnOk result (Changes self.old self.new run TAKEN) }
        ensures range { IsErrOf result EnterError.Range ↔ (IsOnDevice self.old.size run → ⊥) }
        ensures overlap { IsErrOf result EnterError.Overlap → IsFree self.old.size (IsUsedIn self.old.entries) run → ⊥ }
        ensures pins { IsErrOf result EnterError.TooManyPins → ⊥ }
        ensures memory { IsErrOf result EnterError.OutOfMemory → IsOnDevice self.old.size run × IsFree self.old.size (IsUsedIn self.old.entries) run }
        ensures err { OnErr result (self.new ≡ self.old) }
    {
        let usage = Usage {
            taken: true,
            pins: 0,
        };
        self.enter(run, usage)
    }

    /// Gives the run back. It stays in use while it is pinned. Allocates no memory.
    pub fn give(&mut self, run: Run)
        ensures given { self.new ≡ with_run self.old run (given (usage_of self.old.entries run)) }
        ensures changes { Changes self.old self.new run (given (usage_of self.old.entries run)) }
    {
        let usage = self.usage(run);
        let pins = usage.pins;
        self.set_usage(run, Usage { taken: false, pins });
    }

    /// Gives these runs back. A pinned run stays in use. Allocates no memory, and moves each entry of the map at most twice, whatever the number of
    /// runs.
    pub fn give_each(&mut self, runs: &[Run])
        ensures { GivesAll self.old self.new runs.now }
    {
        let_go_each(&mut self.entries, runs, Holder::Catalogue);
    }

    /// Adds a pin to the run, which stays in use until all its pins are removed. Allocates memory only if the run was not in use.
    ///
    /// # Errors
    /// `Range` exactly if the run is not on the device; `Overlap` if it meets another run in use; `TooManyPins` if it has `u32::MAX` pins;
    /// `OutOfMemory`. Nothing has then changed.
    pub fn pin(&mut self, run: Run) -> Result<(), EnterError>
        ensures fits { OnOk result (IsUsedIn self.old.entries run ⊎ IsFree self.old.size (IsUsedIn self.old.entries) run) }
        ensures pinned { OnOk result (self.new ≡ with_run self.old run (pinned (usage_of self.old.entries run))) }
        ensures changes { OnOk result (Changes self.old self.new run (pinned (usage_of self.old.entries run))) }
        ensures range { IsErrOf result EnterError.Range ↔ (IsOnDevice self.old.size run → ⊥) }
        ensures overlap { IsErrOf result EnterError.Overlap → Overlaps self.old run }
        ensures pins { IsErrOf result EnterError.TooManyPins → (usage_of self.old.entries run).pins ≡ u32.MAX }
        ensures memory { IsErrOf result EnterError.OutOfMemory → IsUnused self.old run }
        ensures err { OnErr result (self.new ≡ self.old) }
    {
        let usage = self.usage(run);
        let taken = usage.taken;
        if !usage.is_used() {
            return self.enter(run, Usage { taken, pins: 1 });
        }
        let Some(pins) = usage.pins.checked_add(1) else {
            return Err(EnterError::TooManyPins);
        };
        self.set_usage(run, Usage { taken, pins });
        Ok(())
    }

    /// Removes a pin from the run, if it has one. Allocates no memory.
    pub fn unpin(&mut self, run: Run)
        ensures unpinned { self.new ≡ with_run self.old run (unpinned (usage_of self.old.entries run)) }
        ensures changes { Changes self.old self.new run (unpinned (usage_of self.old.entries run)) }
    {
        let usage = self.usage(run);
        let taken = usage.taken;
        let pins = usage.pins.saturating_sub(1);
        self.set_usage(run, Usage { taken, pins });
    }

    /// Adds a pin to each of these runs, all of which are in use. Allocates no memory, and moves each entry of the map at most once, whatever the
    /// number of runs.
    pub fn pin_each(&mut self, runs: &[Run])
        requires used { (run : Run) → is_among runs.now run ≡ true → IsUsedIn self.old.entries run }
        requires few { (run : Run) → (usage_of self.old.entries run).pins + times_among runs.now run ≤ u32.MAX }
        ensures { PinsAll self.old self.new runs.now }
    {
        for run in runs {
            let run = *run;
            let usage = self.usage(run);
            let taken = usage.taken;
            let pins = usage.pins + 1;
            self.set_usage(run, Usage { taken, pins });
        }
    }

    /// Removes a pin from each of these runs. Allocates no memory, and moves each entry of the map at most twice, whatever the number of runs.
    pub fn unpin_each(&mut self, runs: &[Run])
        ensures { UnpinsAll self.old self.new runs.now }
    {
        let_go_each(&mut self.entries, runs, Holder::Snapshot);
    }

    // Sets the usage of a run in use. A run that is not in use stays so.
    fn set_usage(&mut self, run: Run, usage: Usage)
        requires { usage_of self.old.entries run ≡ UNUSED → usage ≡ UNUSED }
        ensures entries { self.new ≡ with_run self.old run usage }
        ensures changes { Changes self.old self.new run usage }
    {
        if let Some(place) = place_of_run(&self.entries, run) {
            change(&mut self.entries, run, place, usage);
        }
    }

    // Enters a run into the map, if it is free.
    fn enter(&mut self, run: Run, usage: Usage) -> Result<(), EnterError>
        requires { is_used usage ≡ true }
        ensures fits { OnOk result (IsOnDevice self.old.size run × IsFree self.old.size (IsUsedIn self.old.entries) run) }
        ensures entered { OnOk result (self.new ≡ with_run self.old run usage) }
        ensures changes { OnOk result (Changes self.old self.new run usage) }
        ensures range { IsErrOf result EnterError.Range ↔ (IsOnDevice self.old.size run → ⊥) }
        ensures overlap { IsErrOf result EnterError.Overlap → IsFree self.old.size (IsUsedIn self.old.entries) run → ⊥ }
        ensures pins { IsErrOf result EnterError.TooManyPins → ⊥ }
        ensures memory { IsErrOf result EnterError.OutOfMemory → IsOnDevice self.old.size run × IsFree self.old.size (IsUsedIn self.old.entries) run }
        ensures err { OnErr result (self.new ≡ self.old) }
    {
        if !run.is_on_device(self.size) {
            return Err(EnterError::Range);
        }
        if !is_apart(&self.entries, run) {
            return Err(EnterError::Overlap);
        }
        self.insert(run, usage)?;
        Ok(())
    }

    // Inserts the entry of a free run.
    fn insert(&mut self, run: Run, usage: Usage) -> Result<(), AllocError>
        requires used { is_used usage ≡ true }
        requires some { 1 ≤ run.count }
        requires free { IsFree self.old.size (IsUsedIn self.old.entries) run }
        ensures entered { OnOk result (self.new ≡ with_run self.old run usage) }
        ensures changes { OnOk result (Changes self.old self.new run usage) }
        ensures err { OnErr result (self.new ≡ self.old) }
    {
        let place = place_of_start(&self.entries, run.start);
        self.entries.insert(place, UsageEntry { run, usage })?;
        Ok(())
    }
}
