// A list of entries with fast insertion at neighbouring places.
ghost use Rattle.std.specs.Prelude.{◌≡◌, ◌≤◌, ◌<◌, ◌+◌, ◌++◌, ◌∷◌, [], OnOk, OnErr, filter, insert, length, remove, reverse, slice_index_or, slice_set, vec_capacity, vec_len};
ghost use Rattle.segments.specs.Usages.{is_used};

use crate::UsageEntry;
use std::alloc::{AllocError, Global};
use std::marker::Model;

/// Entries with a gap, where the next one is inserted: the entries before the gap, and those after it in reverse order.
#[derive(Drop)]
pub(crate) struct GapBuffer {
    before: Vec<UsageEntry>,
    behind: Vec<UsageEntry>,
}

impl Model for GapBuffer {
    ghost use Rattle.std.specs.Prelude.{◌+◌, ◌++◌, ◌≤◌, List, reverse, vec_capacity, vec_len};
    ghost use Rattle.segments.specs.declared.entries.UsageEntry.{UsageEntry};

    ghost Value = { List UsageEntry };

    ghost view = { λ buffer. buffer.before.items ++ reverse buffer.behind.items };

    // So the gap can be moved to the end without allocating.
    ghost invariant = { λ buffer. vec_len buffer.before + vec_len buffer.behind ≤ vec_capacity buffer.before };
}

impl GapBuffer {
    pub(crate) fn new(alloc: Global) -> Self
        ensures { result ≡ [] }
    {
        GapBuffer {
            before: Vec::new(alloc),
            behind: Vec::new(alloc),
        }
    }

    pub(crate) fn len(&self) -> usize
        ensures { result ≡ length self.now }
    {
        self.before.len() + self.behind.len()
    }

    pub(crate) fn get(&self, place: usize) -> UsageEntry
        requires { place < length self.now }
        ensures { (none : UsageEntry) → result ≡ slice_index_or self.now place none }
    {
        if place < self.before.len() {
            self.before[place]
        } else {
            self.behind[self.behind.len() - 1 - (place - self.before.len())]
        }
    }

    /// Inserts an entry at a place. Moves the gap there first; it ends up after the new entry.
    pub(crate) fn insert(&mut self, place: usize, entry: UsageEntry) -> Result<(), AllocError>
        requires { place ≤ length self.old }
        ensures ok { OnOk result (self.new ≡ insert self.old place entry) }
        ensures err { OnErr result (self.new ≡ self.old) }
    {
        let more = self.behind.len() + 1;
        self.before.reserve(more)?;
        let back = self.before.len().saturating_sub(place);
        self.behind.reserve(back)?;
        move_gap(&mut self.before, &mut self.behind, place);
        self.before.push_reserved(entry);
        Ok(())
    }

    /// Replaces the entry at a place. Allocates no memory.
    pub(crate) fn set(&mut self, place: usize, entry: UsageEntry)
        requires { place < length self.old }
        ensures { self.new ≡ slice_set self.old place entry }
    {
        settle(&mut self.before, &mut self.behind);
        self.before[place] = entry;
    }

    /// Removes the entry at a place. Allocates no memory.
    pub(crate) fn remove(&mut self, place: usize)
        requires { place < length self.old }
        ensures { self.new ≡ remove self.old place }
    {
        settle(&mut self.before, &mut self.behind);
        self.before.remove(place);
    }

    /// Keeps only the entries that are used. Allocates no memory.
    pub(crate) fn keep_used(&mut self)
        ensures { self.new ≡ filter (λ e. is_used e.usage) self.old }
    {
        settle(&mut self.before, &mut self.behind);
        retain_used(&mut self.before);
    }
}

// Moves the gap to a place.
fn move_gap(before: &mut Vec<UsageEntry>, behind: &mut Vec<UsageEntry>, place: usize)
    requires within { place ≤ vec_len before.old + vec_len behind.old }
    requires onward { vec_len before.old + vec_len behind.old ≤ vec_capacity before.old }
    requires back { vec_len before.old + vec_len behind.old ≤ place + vec_capacity behind.old }
    ensures entries { before.new.items ++ reverse behind.new.items ≡ before.old.items ++ reverse behind.old.items }
    ensures place { vec_len before.new ≡ place }
    ensures len { vec_len before.new + vec_len behind.new ≡ vec_len before.old + vec_len behind.old }
    ensures capacity { vec_capacity before.new ≡ vec_capacity before.old }
{
    while before.len() > place {
        behind.push_reserved(before.take_last());
    }
    while before.len() < place {
        before.push_reserved(behind.take_last());
    }
}

// Moves the gap to the end.
fn settle(before: &mut Vec<UsageEntry>, behind: &mut Vec<UsageEntry>)
    requires { vec_len before.old + vec_len behind.old ≤ vec_capacity before.old }
    ensures before { before.new.items ≡ before.old.items ++ reverse behind.old.items }
    ensures behind { behind.new.items ≡ [] }
{
    let len = before.len() + behind.len();
    move_gap(before, behind, len);
}

fn retain_used(entries: &mut Vec<UsageEntry>)
    ensures { entries.new.items ≡ filter (λ e. is_used e.usage) entries.old.items }
{
    entries.retain(|entry| entry.usage.is_used());
}
