// Each call of the device fails, or stops it, in turn. Opened again it has the tables of what was acknowledged, perhaps with the command in flight,
// and goes on.
use crate::inputs::{Cell, INT, Input};
use crate::made::{NotMade, assert_no_row};
use crate::playing::{Slot, Way, is_played, play, replies_of, shut};
use crate::shown::contents;
use crate::steps::{Step, Steps, says};
use Input::Ints;
use Step::{
    Append, Close, Create, Export, Format, Give, Import, Open, Read, Remove, Rename, Save, Tables,
};
use sector_dev::{CrashChoice, ModelDevice};
use std::alloc::Global;
use store::{Reply, StoreOrDevice};

// A function that names a constant proves its contents, so only one function names this one. Others are kept so too.
const SCRIPT: Steps = &[
    (Format, "ok"),
    (Import("t", Ints(&[7, -1])), "ok"),
    (Create("u", INT), "ok"),
    (Append("u", Ints(&[5])), "ok"),
    (Give("t", &[&[Cell::Number(4)]]), "ok"),
    (Import("t", Ints(&[1, 2, 3])), "ok"),
    (Rename("u", "s"), "ok"),
    (Remove("t"), "ok"),
    (Save("s", "w", (&[], &[], None)), "ok"),
];

/// Returns the steps on a device of 16 sectors.
pub fn script() -> Steps {
    SCRIPT
}

pub const OPENING: Steps = &[(Open, "ok")];

// The values of the tables before the first step and after each step.
const STATES: &[&str] = &[
    "none",
    "",
    "t: 7 -1",
    "t: 7 -1, u:",
    "t: 7 -1, u: 5",
    "t: 7 -1 4, u: 5",
    "t: 1 2 3, u: 5",
    "s: 5, t: 1 2 3",
    "s: 5",
    "s: 5, w: 5",
];

// The number of writes and syncs after each step in version 1: a segment if there is one, the catalogue and its sync, the commit and its sync;
// formatting makes one more sync and writes one more sector before these.
const CALLS: &[u64] = &[6, 11, 15, 20, 25, 30, 34, 38, 43];

// In version 2 the catalogue of three segments is too long for a list: it has two pages and a root.
const CALLS_WITH_DIGESTS: &[u64] = &[6, 11, 15, 20, 27, 32, 36, 40, 45];

fn calls_after(way: Way) -> &'static [u64] {
    match way {
        Way::VersionOne => CALLS,
        Way::EachCall | Way::OneRun => CALLS_WITH_DIGESTS,
    }
}

/// What a stop leaves of the sectors that are not yet synced.
pub const CHOICES: &[CrashChoice] = &[
    CrashChoice::Old,
    CrashChoice::New,
    CrashChoice::Bits(0),
    CrashChoice::Bits(1),
    CrashChoice::Bits(2),
    CrashChoice::Bits(3),
    CrashChoice::Bits(4),
    CrashChoice::Bits(5),
    CrashChoice::Bits(6),
    CrashChoice::Bits(7),
    CrashChoice::Lost(0),
    CrashChoice::Lost(1),
    CrashChoice::Lost(2),
    CrashChoice::Lost(3),
    CrashChoice::Lost(4),
    CrashChoice::Lost(5),
    CrashChoice::Lost(6),
    CrashChoice::Lost(7),
    CrashChoice::Lost(u64::MAX),
];

// The write or sync that fails, counted from 1: this one alone, or each from it on.
#[derive(Clone, Copy)]
enum Fault {
    Fail(u64),
    Stop(u64),
}

/// Returns how many of these ascending numbers are below `end`.
pub fn count_below(numbers: &[u64], end: u64) -> usize {
    let mut count = 0;
    for (place, number) in numbers.iter().enumerate() {
        if *number < end {
            count = place.wrapping_add(1);
        }
    }
    count
}

// Makes a device of 16 sectors with these faults.
fn faulty(alloc: Global, faults: &[Fault]) -> Result<Slot, NotMade> {
    let mut device = ModelDevice::new(alloc, 16)?;
    for fault in faults {
        match fault {
            Fault::Fail(k) => device.fail_at(*k),
            Fault::Stop(k) => device.stop_at(*k),
        }
    }
    Ok(Some(StoreOrDevice::Shut(device)))
}

/// Returns whether the first reply is that of a failed device, and each other that of a store that is not open any more.
pub fn are_refused(alloc: Global, replies: &[Reply]) -> Result<bool, NotMade> {
    let [first, rest @ ..] = replies else {
        return Ok(true);
    };
    let mut well = says(alloc, first, "S9 Device")? || says(alloc, first, "C4 Device")?;
    for reply in rest {
        well = well && says(alloc, reply, "S10 Halted")?;
    }
    Ok(well)
}

// Returns whether exactly `done` steps are acknowledged, and the others refused.
fn are_done(alloc: Global, replies: &[Reply], done: usize) -> Result<bool, NotMade> {
    let (first, rest) = replies.split_at_checked(done).ok_or(NotMade)?;
    let mut well = are_refused(alloc, rest)?;
    for reply in first {
        well = well && says(alloc, reply, "ok")?;
    }
    Ok(well)
}

// Returns whether these are the values of the tables after `done` steps.
fn is_state(found: &str, done: usize) -> bool {
    match STATES.get(done) {
        Some(state) => *state == found,
        None => false,
    }
}

// Returns how many steps were taken, if these are `done` or one more.
fn steps_found(found: &str, done: usize) -> Option<usize> {
    let next = done.saturating_add(1);
    if is_state(found, done) {
        return Some(done);
    }
    if is_state(found, next) {
        Some(next)
    } else {
        None
    }
}

// Returns whether the tables of a device have these values.
fn has(alloc: Global, device: &mut ModelDevice, want: &str) -> Result<bool, NotMade> {
    Ok(contents(alloc, device)?.as_str() == want)
}

// Takes the steps after the first ones, and returns whether they are done.
fn goes_on(alloc: Global, slot: &mut Slot, from: usize) -> Result<bool, NotMade> {
    let rest = script().get(from..).unwrap_or_default();
    if from > 0 && !is_played(alloc, slot, OPENING)? || !is_played(alloc, slot, rest)? {
        return Ok(false);
    }
    has(alloc, &mut shut(slot)?, "s: 5, w: 5")
}

// Returns how many steps were taken, of which `done` were acknowledged.
fn steps_left(
    alloc: Global,
    device: &mut ModelDevice,
    done: usize,
) -> Result<Option<usize>, NotMade> {
    Ok(steps_found(&contents(alloc, device)?, done))
}

/// Returns whether a device has the tables after `done` steps or one more, and goes on.
pub fn is_whole(alloc: Global, device: ModelDevice, done: usize) -> Result<bool, NotMade> {
    let mut device = device;
    match steps_left(alloc, &mut device, done)? {
        Some(from) => goes_on(alloc, &mut Some(StoreOrDevice::Shut(device)), from),
        None => Ok(false),
    }
}

// Returns whether the device is whole whatever a stop leaves.
fn are_whole(alloc: Global, device: &ModelDevice, done: usize) -> Result<bool, NotMade> {
    let mut well = true;
    for choice in CHOICES {
        well = well && is_whole(alloc, device.crash(*choice)?, done)?;
    }
    Ok(well)
}

// Returns whether the device itself is whole too, if it goes on.
fn is_left_whole(
    alloc: Global,
    device: ModelDevice,
    done: usize,
    goes_on: bool,
) -> Result<bool, NotMade> {
    let mut device = device;
    let well = are_whole(alloc, &device, done)?;
    if well && goes_on {
        // no further call of it fails
        device.fail_at(0);
        is_whole(alloc, device, done)
    } else {
        Ok(well)
    }
}

// Returns whether exactly `done` steps of the script are acknowledged.
fn is_done(alloc: Global, slot: &mut Slot, done: usize, way: Way) -> Result<bool, NotMade> {
    are_done(alloc, &replies_of(alloc, slot, script(), way)?, done)
}

fn survives_on(
    alloc: Global,
    slot: &mut Slot,
    done: usize,
    way: Way,
    goes_on: bool,
) -> Result<bool, NotMade> {
    if is_done(alloc, slot, done, way)? {
        is_left_whole(alloc, shut(slot)?, done, goes_on)
    } else {
        Ok(false)
    }
}

// Runs the script with this fault, and returns whether each step was answered as expected and what a stop at its end leaves is whole, and so is the
// device itself if it goes on.
fn survives(alloc: Global, fault: Fault, way: Way) -> Result<bool, NotMade> {
    let (k, goes_on) = match fault {
        Fault::Fail(k) => (k, true),
        Fault::Stop(k) => (k, false),
    };
    let done = count_below(calls_after(way), k);
    survives_on(alloc, &mut faulty(alloc, &[fault])?, done, way, goes_on)
}

// Returns the first call whose failure or stop makes something wrong.
fn wrong_call(alloc: Global, way: Way) -> Result<Option<usize>, NotMade> {
    for k in 1..=46u64 {
        if !survives(alloc, Fault::Fail(k), way)? || !survives(alloc, Fault::Stop(k), way)? {
            return Ok(Some(k as usize));
        }
    }
    Ok(None)
}

#[test]
fn each_call_of_the_device_fails_or_stops_in_turn(rt: HostRuntime) {
    assert_no_row(&rt, wrong_call(rt.alloc(), Way::EachCall));
}

#[test]
fn each_call_of_the_device_fails_or_stops_in_version_1(rt: HostRuntime) {
    assert_no_row(&rt, wrong_call(rt.alloc(), Way::VersionOne));
}

#[test]
fn each_call_of_the_device_fails_or_stops_in_a_run(rt: HostRuntime) {
    assert_no_row(&rt, wrong_call(rt.alloc(), Way::OneRun));
}

// The faults of a device, the steps, and what a stop at the end leaves. The rows are split into parts (see `commands`).
type Row = (
    &'static [Fault],
    Steps,
    &'static [(CrashChoice, &'static str)],
);

const DOUBTFUL: Steps = &[
    (Format, "ok"),
    (Create("t", INT), "ok"),
    (Create("u", INT), "S9 Device"),
    (Create("a b", INT), "S10 Halted"),
    (Tables, "S10 Halted"),
    (Read("t"), "S10 Halted"),
    (Export("t"), "S10 Halted"),
    (Open, "ok"),
    (Tables, "t 0, u 0"),
    (Read("u"), "\"a\":int32?:"),
    (Create("v", INT), "S9 Device"),
];

const WITH_IT: &[(CrashChoice, &str)] = &[
    (CrashChoice::Bits(2), "t:, u:"),
    (CrashChoice::Old, "t:, u:"),
    (CrashChoice::New, "t:, u:"),
    (CrashChoice::Lost(u64::MAX), "t:, u:"),
];

// Formatting makes the first six calls, and making an empty table four.
const IN_DOUBT: &[Row] = &[
    // A command in doubt is settled by the opening that found it, also if the next write or the next sync is the last call.
    (&[Fault::Fail(14), Fault::Stop(16)], DOUBTFUL, WITH_IT),
    (&[Fault::Fail(14), Fault::Stop(17)], DOUBTFUL, WITH_IT),
];

const IN_COMMIT: &[Row] = &[
    // The commit is written but not yet synced.
    (
        &[Fault::Stop(9)],
        &[(Format, "ok"), (Create("t", INT), "S9 Device")],
        &[
            (CrashChoice::Old, ""),
            (CrashChoice::New, "t:"),
            (CrashChoice::Lost(u64::MAX), ""),
        ],
    ),
    // The commit is not yet written.
    (
        &[Fault::Stop(8)],
        &[(Format, "ok"), (Create("t", INT), "S9 Device")],
        &[
            (CrashChoice::Old, ""),
            (CrashChoice::New, ""),
            (CrashChoice::Lost(u64::MAX), ""),
        ],
    ),
];

const IN_IMPORT: &[Row] = &[
    // A stop within the commit of an import over a table, and within the sync after it: the table is the old one or the new one.
    (
        &[Fault::Stop(14)],
        &[
            (Format, "ok"),
            (Create("t", INT), "ok"),
            (Import("t", Ints(&[7, -1])), "S9 Device"),
        ],
        &[
            (CrashChoice::Old, "t:"),
            (CrashChoice::New, "t: 7 -1"),
            (CrashChoice::Lost(u64::MAX), "t:"),
        ],
    ),
    (
        &[Fault::Stop(15)],
        &[
            (Format, "ok"),
            (Create("t", INT), "ok"),
            (Import("t", Ints(&[7, -1])), "S9 Device"),
        ],
        &[
            (CrashChoice::Old, "t:"),
            (CrashChoice::New, "t: 7 -1"),
            (CrashChoice::Lost(u64::MAX), "t:"),
        ],
    ),
];

const IN_OPENING: &[Row] = &[
    // An opening whose sync fails does not report what it read.
    (
        &[Fault::Fail(10), Fault::Stop(11)],
        &[
            (Format, "ok"),
            (Create("t", INT), "S9 Device"),
            (Close, "ok"),
            (Open, "C4 Device"),
            (Create("u", INT), "S10 Halted"),
        ],
        &[(CrashChoice::Old, ""), (CrashChoice::New, "t:")],
    ),
    // A successful opening makes it safe.
    (
        &[Fault::Fail(10)],
        &[
            (Format, "ok"),
            (Create("t", INT), "S9 Device"),
            (Close, "ok"),
            (Open, "ok"),
            (Tables, "t 0"),
        ],
        &[
            (CrashChoice::Old, "t:"),
            (CrashChoice::New, "t:"),
            (CrashChoice::Lost(u64::MAX), "t:"),
        ],
    ),
];

const IN_FORMATTING: &[Row] = &[
    // A device on which formatting failed can be formatted again, or has a store.
    (
        &[Fault::Fail(5)],
        &[
            (Format, "C4 Device"),
            (Tables, "S10 Halted"),
            (Format, "C2 AlreadyAStore"),
            (Open, "ok"),
            (Tables, ""),
        ],
        &[(CrashChoice::Old, ""), (CrashChoice::New, "")],
    ),
    (
        &[Fault::Fail(4)],
        &[
            (Format, "C4 Device"),
            (Open, "C1 NotAStore"),
            (Format, "ok"),
            (Create("t", INT), "ok"),
        ],
        &[(CrashChoice::Old, "t:"), (CrashChoice::New, "t:")],
    ),
];

fn stopped(part: usize) -> Option<&'static [Row]> {
    Some(match part {
        0 => IN_DOUBT,
        1 => IN_COMMIT,
        2 => IN_IMPORT,
        3 => IN_OPENING,
        4 => IN_FORMATTING,
        _ => return None,
    })
}

fn leaves(
    alloc: Global,
    device: &ModelDevice,
    wants: &[(CrashChoice, &str)],
) -> Result<bool, NotMade> {
    let mut well = true;
    for (choice, want) in wants {
        well = well && has(alloc, &mut device.crash(*choice)?, want)?;
    }
    Ok(well)
}

fn is_answered(alloc: Global, slot: &mut Slot, row: &Row, way: Way) -> Result<bool, NotMade> {
    if play(alloc, slot, row.1, way)?.is_some() {
        return Ok(false);
    }
    leaves(alloc, &shut(slot)?, row.2)
}

fn wrong_row(alloc: Global, rows: &[Row], way: Way) -> Result<Option<usize>, NotMade> {
    for (place, row) in rows.iter().enumerate() {
        if !is_answered(alloc, &mut faulty(alloc, row.0)?, row, way)? {
            return Ok(Some(place));
        }
    }
    Ok(None)
}

// Returns the place of the first wrong row, counting a hundred for each part of the table.
fn wrong_part(alloc: Global, way: Way) -> Result<Option<usize>, NotMade> {
    for part in 0..usize::MAX {
        let Some(rows) = stopped(part) else {
            return Ok(None);
        };
        if let Some(place) = wrong_row(alloc, rows, way)? {
            return Ok(Some(part.wrapping_mul(100).wrapping_add(place)));
        }
    }
    Ok(None)
}

#[test]
fn what_is_in_doubt_is_settled_by_the_next_opening(rt: HostRuntime) {
    assert_no_row(&rt, wrong_part(rt.alloc(), Way::EachCall));
    assert_no_row(&rt, wrong_part(rt.alloc(), Way::VersionOne));
    assert_no_row(&rt, wrong_part(rt.alloc(), Way::OneRun));
}
