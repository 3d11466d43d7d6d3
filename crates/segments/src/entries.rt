// The runs in use as a sorted list.
ghost use Rattle.std.specs.Prelude.{◌≡◌, ◌≤◌, ◌↔◌, ℕ, IsTrue, IfNone, IfSome, length};
ghost use Rattle.segments.specs.Runs.{IsLowest};
ghost use Rattle.segments.specs.Usages.{is_used, usage_of, with_usage, UNUSED, Ordered, EndBy, IsUsedIn, IsSearched};
ghost use Rattle.segments.specs.inner.Places.{place_of, end_before, without, without_each, ApartEach, Ascending, HasEntryAt, LetGoAmong};

use crate::gap_buffer::GapBuffer;
use crate::{Run, SearchCursor};

/// The usage of a run: whether the ruling catalogue names it (`taken`), and how many snapshots pin it (`pins`).
#[derive(Clone, Copy, PartialEq, Eq)]
pub struct Usage {
    pub taken: bool,
    pub pins: u32,
}

/// A run in use.
#[derive(Clone, Copy)]
pub struct UsageEntry {
    pub run: Run,
    pub usage: Usage,
}

// The holder that releases a run: the ruling catalogue or a snapshot.
#[derive(Clone, Copy)]
pub(crate) enum Holder {
    Catalogue,
    Snapshot,
}

impl Usage {
    pub(crate) fn is_used(self) -> bool
        ensures { result ≡ is_used self }
    {
        self.taken || self.pins > 0
    }

    // Returns the usage after this holder releases the run.
    fn without(self, holder: Holder) -> Usage
        ensures { result ≡ without holder self }
    {
        let Usage { taken, pins } = self;
        match holder {
            Holder::Catalogue => Usage { taken: false, pins },
            Holder::Snapshot => Usage {
                taken,
                pins: pins.saturating_sub(1),
            },
        }
    }
}

// Returns the number of entries before one that starts here.
pub(crate) fn place_of_start(entries: &GapBuffer, start: u64) -> usize
    requires { Ascending 2 entries.now }
    ensures place { result ≡ place_of start entries.now }
    ensures within { result ≤ length entries.now }
{
    let mut low = 0;
    let mut high = entries.len();
    while low < high {
        let middle = low + (high - low) / 2;
        if entries.get(middle).run.start < start {
            low = middle + 1;
        } else {
            high = middle;
        }
    }
    low
}

// Returns the place of the run's entry, if it has one.
pub(crate) fn place_of_run(entries: &GapBuffer, run: Run) -> Option<usize>
    requires { Ascending 2 entries.now }
    ensures none { IfNone result (usage_of entries.now run ≡ UNUSED) }
    ensures place { IfSome result (λ i. i ≡ place_of run.start entries.now) }
    ensures found { IfSome result (λ i. HasEntryAt entries.now run i) }
{
    let place = place_of_start(entries, run.start);
    if place < entries.len() && entries.get(place).run == run {
        Some(place)
    } else {
        None
    }
}

// Returns whether the run meets none of the entries.
pub(crate) fn is_apart(entries: &GapBuffer, run: Run) -> bool
    requires ordered { Ordered 2 entries.now }
    requires some { 1 ≤ run.count }
    ensures { IsTrue result ↔ ApartEach run entries.now }
{
    let place = place_of_start(entries, run.start);
    if place > 0 && entries.get(place - 1).run.contains(run.start) {
        return false;
    }
    if place < entries.len() && run.contains(entries.get(place).run.start) {
        return false;
    }
    true
}

// Returns where the entries before this place end.
fn end_before(size: u64, entries: &GapBuffer, place: usize) -> u64
    requires within { EndBy size entries.now }
    requires place { place ≤ length entries.now }
    ensures { result ≡ end_before 2 entries.now place }
{
    if place > 0 {
        entries.get(place - 1).run.end()
    } else {
        2
    }
}

// Returns the lowest free run. The search continues where the last one ended, or restarts if an earlier gap may be wide enough.
pub(crate) fn lowest(
    size: u64,
    entries: &GapBuffer,
    count: u64,
    searched: &mut SearchCursor,
) -> Option<Run>
    requires ordered { Ordered 2 entries.now }
    requires within { EndBy size entries.now }
    requires some { 1 ≤ count }
    requires searched { IsSearched (record { size = size; entries = entries.now }) searched.old }
    ensures lowest { IsLowest size (IsUsedIn entries.now) count result }
    ensures searched { IsSearched (record { size = size; entries = entries.now }) searched.new }
    ensures start { IfSome result (λ run. searched.new.start ≡ run.start) }
{
    if count <= searched.widest {
        *searched = SearchCursor::nothing();
    }
    let place = place_of_start(entries, searched.start);
    searched.start = end_before(size, entries, place);
    for index in place..entries.len() {
        let run = entries.get(index).run;
        let gap = run.start - searched.start;
        if count <= gap {
            let start = searched.start;
            return Some(Run { start, count });
        }
        searched.widest = searched.widest.max(gap);
        searched.start = run.end();
    }
    let start = searched.start;
    if count <= size.saturating_sub(start) {
        Some(Run { start, count })
    } else {
        None
    }
}

// Changes the usage of the run, whose entry is at this place.
pub(crate) fn change(entries: &mut GapBuffer, run: Run, place: usize, usage: Usage)
    requires place { place ≡ place_of run.start entries.old }
    requires found { HasEntryAt entries.old run place }
    ensures { entries.new ≡ with_usage run usage entries.old }
{
    if usage.is_used() {
        entries.set(place, UsageEntry { run, usage });
    } else {
        entries.remove(place);
    }
}

// Releases each of these runs that has an entry. Entries that are no longer used are kept.
fn let_go_among(entries: &mut GapBuffer, runs: &[Run], holder: Holder)
    requires { Ascending 2 entries.old }
    ensures { LetGoAmong holder entries.old entries.new runs.now }
{
    for run in runs {
        if let Some(place) = place_of_run(entries, *run) {
            let run = *run;
            let entry = entries.get(place);
            let usage = entry.usage.without(holder);
            entries.set(place, UsageEntry { run, usage });
        }
    }
}

// Releases these runs. Each remaining entry is moved at most twice, whatever the number of runs.
pub(crate) fn let_go_each(entries: &mut GapBuffer, runs: &[Run], holder: Holder)
    requires { Ordered 2 entries.old }
    ensures ordered { Ordered 2 entries.new }
    ensures within { (size : ℕ) → EndBy size entries.old → EndBy size entries.new }
    ensures usages { (run : Run) → usage_of entries.new run ≡ without_each holder runs.now run (usage_of entries.old run) }
{
    let_go_among(entries, runs, holder);
    entries.keep_used();
}
