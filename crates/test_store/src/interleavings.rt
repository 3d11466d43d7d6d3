// Random calls, in lists that `run` answers, compared with plain tables: each reply must be theirs, and a crash must leave the tables before the
// command in flight or after it.
use crate::chance::Chance;
use crate::made::{NotMade, assert_no_row};
use crate::plain_tables::Plain;
use crate::playing::{Slot, is_played, new_slot, replies_of_run, shut};
use crate::shown::contents;
use crate::steps::{Call, Step, Steps, call_of, says};
use Step::{
    Close, CloseExport, Compact, Export, ExportNext, Format, Open, OpenExport, Read, Schema,
    Tables, Together,
};
use sector_dev::{CrashChoice, SectorDevice};
use std::alloc::Global;
use store::{OpeningRefusal, Reply, StoreOrDevice};
use tables::Refusal;

impl Chance {
    // Returns the id of one of the last exports that were asked for.
    fn id(&mut self) -> u64 {
        let back = self.below(4);
        self.exports.saturating_sub(back)
    }

    fn reading(&mut self) -> Step {
        match self.below(4) {
            0 => Tables,
            1 => Schema(self.name()),
            2 => Read(self.name()),
            _ => Export(self.name()),
        }
    }

    fn export(&mut self) -> Step {
        match self.below(8) {
            0 | 1 => {
                self.exports = self.exports.saturating_add(1);
                OpenExport(self.name())
            }
            2 => CloseExport(self.id()),
            _ => ExportNext(self.id()),
        }
    }

    // Returns a step for an open store.
    fn of_open(&mut self) -> Step {
        match self.below(40) {
            0 => Open,
            1 => Close,
            2 => Format,
            3..=13 => self.change(),
            14..=16 => Together(self.state),
            17..=22 => self.reading(),
            23..=33 => self.export(),
            _ => Compact,
        }
    }

    // Returns the next step; a store that is shut is opened.
    fn step(&mut self, open: bool) -> Step {
        let step = if open { self.of_open() } else { Open };
        if matches!(step, Open) {
            self.exports = 0;
        }
        step
    }

    // Returns what a crash leaves.
    fn choice(&mut self) -> CrashChoice {
        match self.below(4) {
            0 => CrashChoice::Old,
            1 => CrashChoice::New,
            2 => CrashChoice::Bits(self.state),
            _ => CrashChoice::Lost(self.state),
        }
    }
}

// Draws steps for a place of which this is known.
fn drawn(
    alloc: Global,
    chance: &mut Chance,
    open: bool,
    count: usize,
) -> Result<Vec<Step>, NotMade> {
    let mut steps = Vec::new(alloc);
    let mut open = open;
    for _ in 0..count {
        let step = chance.step(open);
        open = !matches!(step, Close | Format);
        steps.push(step)?;
    }
    Ok(steps)
}

fn calls_of(alloc: Global, steps: &[Step]) -> Result<Vec<Call>, NotMade> {
    let mut calls = Vec::new(alloc);
    for step in steps {
        calls.push(call_of(alloc, *step)?)?;
    }
    Ok(calls)
}

fn is_failure(reply: &Reply) -> bool {
    matches!(
        reply,
        Reply::Refused(Refusal::Device) | Reply::NotOpened(OpeningRefusal::Device)
    )
}

// How often something happened.
#[derive(Clone, Copy)]
struct Seen {
    merged: u64,
    moved: u64,
    full: u64,
    // A command in flight was done or not done.
    kept: u64,
    lost: u64,
    // Several commands as one were done or refused.
    together: u64,
    refused_together: u64,
}

// A store and the plain tables that it is compared with.
#[derive(Drop)]
struct Pair {
    plain: Plain,
    // Whether a store is open, if its device did not stop.
    open: bool,
    stopped: bool,
    in_flight: Option<Step>,
    seen: Seen,
}

impl Seen {
    fn nothing() -> Seen {
        Seen {
            merged: 0,
            moved: 0,
            full: 0,
            kept: 0,
            lost: 0,
            together: 0,
            refused_together: 0,
        }
    }

    // Returns whether everything happened at least once.
    fn is_all(self) -> bool {
        self.merged > 0
            && self.moved > 0
            && self.full > 0
            && self.kept > 0
            && self.lost > 0
            && self.together > 0
            && self.refused_together > 0
    }
}

impl Pair {
    // Makes the plain tables of an empty open store, after this was seen.
    fn new(alloc: Global, seen: Seen) -> Result<Pair, NotMade> {
        Ok(Pair {
            plain: Plain::new(alloc)?,
            open: true,
            stopped: false,
            in_flight: None,
            seen,
        })
    }

    // Returns whether a call of a stopped device is answered rightly.
    fn is_refused(&mut self, alloc: Global, step: Step, reply: &Reply) -> Result<bool, NotMade> {
        let was_open = self.open;
        match step {
            Open | Format => {
                self.open = false;
                says(alloc, reply, "C4 Device")
            }
            Close if was_open => {
                self.open = false;
                says(alloc, reply, "ok")
            }
            _ => says(alloc, reply, "S10 Halted"),
        }
    }

    // Notes that the device stopped at this step, and returns whether the step makes a call of the device.
    fn stops_at(&mut self, step: Step) -> bool {
        let was_open = self.open;
        self.stopped = true;
        match step {
            Open | Format => {
                self.open = false;
                true
            }
            step => {
                self.in_flight = Some(step);
                was_open
            }
        }
    }

    fn is_stepped(&mut self, reply: &Reply) -> bool {
        match reply {
            Reply::Merged => self.seen.merged = self.seen.merged.saturating_add(1),
            Reply::Moved => self.seen.moved = self.seen.moved.saturating_add(1),
            Reply::Nothing | Reply::Refused(Refusal::NoRoom(_)) => {}
            _ => return false,
        }
        true
    }

    // Returns whether several commands as one are answered rightly.
    fn are_changed(&mut self, alloc: Global, seed: u64, reply: &Reply) -> Result<bool, NotMade> {
        match (self.plain.change_together(alloc, seed)?, reply) {
            (None, reply) => {
                self.seen.together = self.seen.together.saturating_add(1);
                says(alloc, reply, "ok")
            }
            (Some((place, answer)), Reply::RefusedAt { place: at, refusal }) => {
                self.seen.refused_together = self.seen.refused_together.saturating_add(1);
                Ok(*at == place && says(alloc, &Reply::Refused(*refusal), answer)?)
            }
            _ => Ok(false),
        }
    }

    // A command without enough room changes nothing.
    fn is_changed(&mut self, alloc: Global, step: Step, reply: &Reply) -> Result<bool, NotMade> {
        if matches!(reply, Reply::Refused(Refusal::NoRoom(_))) {
            self.seen.full = self.seen.full.saturating_add(1);
            return Ok(true);
        }
        match step {
            Together(seed) => self.are_changed(alloc, seed, reply),
            step => says(alloc, reply, self.plain.change(alloc, step)?),
        }
    }

    // Returns whether an open store answers rightly.
    fn is_answered(&mut self, alloc: Global, step: Step, reply: &Reply) -> Result<bool, NotMade> {
        match step {
            Compact => Ok(self.is_stepped(reply)),
            OpenExport(name) => self.plain.opens(alloc, name, reply),
            ExportNext(id) => self.plain.gives(alloc, id, reply),
            CloseExport(id) => self.plain.closes(alloc, id, reply),
            Tables | Schema(_) | Read(_) | Export(_) => {
                says(alloc, reply, &self.plain.reading(alloc, step)?)
            }
            step => self.is_changed(alloc, step, reply),
        }
    }

    // Returns whether a reply is the right one to this step.
    fn is_right(&mut self, alloc: Global, step: Step, reply: &Reply) -> Result<bool, NotMade> {
        if self.stopped {
            return self.is_refused(alloc, step, reply);
        }
        if is_failure(reply) {
            return Ok(self.stops_at(step));
        }
        match step {
            Open => {
                self.open = true;
                self.plain.is_opened_again();
                says(alloc, reply, "ok")
            }
            Format => {
                self.open = false;
                says(alloc, reply, "C2 AlreadyAStore")
            }
            Close if self.open => {
                self.open = false;
                says(alloc, reply, "ok")
            }
            step if self.open => self.is_answered(alloc, step, reply),
            _ => says(alloc, reply, "S10 Halted"),
        }
    }

    // Returns whether all replies are right.
    fn are_right(
        &mut self,
        alloc: Global,
        steps: &[Step],
        replies: &[Reply],
    ) -> Result<bool, NotMade> {
        let mut well = steps.len() == replies.len();
        for (step, reply) in steps.iter().zip(replies) {
            well = well && self.is_right(alloc, *step, reply)?;
        }
        Ok(well)
    }

    fn shows(&self, alloc: Global, found: &str) -> Result<bool, NotMade> {
        Ok(self.plain.contents(alloc)?.as_str() == found)
    }

    // Returns whether these are the tables after the command in flight.
    fn shows_next(&mut self, alloc: Global, found: &str) -> Result<bool, NotMade> {
        let Some(step) = self.in_flight else {
            return Ok(false);
        };
        self.seen.kept = self.seen.kept.saturating_add(1);
        match step {
            Together(seed) => {
                self.plain.change_together(alloc, seed)?;
            }
            step => {
                self.plain.change(alloc, step)?;
            }
        }
        self.shows(alloc, found)
    }

    // Returns whether a crash may leave tables with these values, which then become the current ones.
    fn is_left(&mut self, alloc: Global, found: &str) -> Result<bool, NotMade> {
        let well = if self.shows(alloc, found)? {
            self.seen.lost = self
                .seen
                .lost
                .saturating_add(u64::from(self.in_flight.is_some()));
            true
        } else {
            self.shows_next(alloc, found)?
        };
        self.open = false;
        self.stopped = false;
        self.in_flight = None;
        Ok(well)
    }
}

const FORMATTED: Steps = &[(Format, "ok")];

// Crashes the device, and lets the device that is left stop after some calls.
fn is_crashed(
    alloc: Global,
    slot: &mut Slot,
    pair: &mut Pair,
    chance: &mut Chance,
) -> Result<bool, NotMade> {
    let mut left = shut(slot)?.crash(chance.choice())?;
    let well = pair.is_left(alloc, &contents(alloc, &mut left)?)?;
    left.stop_at(chance.below(150));
    *slot = Some(StoreOrDevice::Shut(left));
    Ok(well)
}

// Runs a list of calls, now and then with a crash after it.
fn is_run(
    alloc: Global,
    slot: &mut Slot,
    pair: &mut Pair,
    chance: &mut Chance,
) -> Result<bool, NotMade> {
    chance.exports = pair.plain.exports_opened();
    let steps = drawn(alloc, chance, pair.open, 40)?;
    let replies = replies_of_run(alloc, slot, calls_of(alloc, &steps)?)?;
    if !pair.are_right(alloc, &steps, &replies)? {
        return Ok(false);
    }
    if pair.stopped || chance.below(3) == 0 {
        return is_crashed(alloc, slot, pair, chance);
    }
    Ok(true)
}

// Returns the first of the lists that goes wrong.
fn wrong_list(
    alloc: Global,
    slot: &mut Slot,
    pair: &mut Pair,
    seed: u64,
) -> Result<Option<usize>, NotMade> {
    let mut chance = Chance {
        state: seed,
        exports: 0,
    };
    for list in 0..LISTS {
        if !is_run(alloc, slot, pair, &mut chance)? {
            return Ok(Some(list));
        }
    }
    Ok(None)
}

const LISTS: usize = 125;

// The number of sectors of each device, and the seed. The smaller one is often full.
const DEVICES: &[(u64, u64)] = &[(24, 1), (64, 2)];

fn wrong_on(
    alloc: Global,
    slot: &mut Slot,
    pair: &mut Pair,
    seed: u64,
) -> Result<Option<usize>, NotMade> {
    if is_played(alloc, slot, FORMATTED)? {
        wrong_list(alloc, slot, pair, seed)
    } else {
        Err(NotMade)
    }
}

// Returns the first list that goes wrong, or the number of lists if something never happened.
fn wrong_device(alloc: Global) -> Result<Option<usize>, NotMade> {
    let mut seen = Seen::nothing();
    for (sectors, seed) in DEVICES {
        let mut pair = Pair::new(alloc, seen)?;
        let wrong = wrong_on(alloc, &mut new_slot(alloc, *sectors)?, &mut pair, *seed)?;
        seen = pair.seen;
        if wrong.is_some() {
            return Ok(wrong);
        }
    }
    Ok(if seen.is_all() { None } else { Some(LISTS) })
}

#[test]
fn calls_drawn_by_chance_are_answered_as_by_plain_tables(rt: HostRuntime) {
    assert_no_row(&rt, wrong_device(rt.alloc()));
}
