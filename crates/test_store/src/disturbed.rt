// Scripts with steps of a compaction, with exports, and with several commands as one. Each write or sync fails, or stops the
// device, in turn; each read fails in turn; and a second stop comes after a first one. The device then has the tables of what
// was acknowledged, perhaps with the step in flight, and goes on.
use crate::inputs::{INT, Input};
use crate::made::{NotMade, assert_no_row};
use crate::openings::device_after;
use crate::playing::{Slot, Way, is_played, replies_of, shut, wrong_reply};
use crate::shown::contents;
use crate::steps::{Step, Steps, says};
use crate::stops::{CHOICES, count_below};
use Input::Ints;
use Kind::{FailedRead, Failure, Stop};
use Step::{
    Append, CloseExport, Compact, Create, Export, ExportNext, Format, Import, Keep, Open,
    OpenExport, Remove,
};
use sector_dev::{CrashChoice, ModelDevice, SectorDevice};
use std::alloc::Global;
use store::{Reply, StoreOrDevice};

/// The steps on a device of 16 sectors with an empty store.
#[derive(Clone, Copy)]
pub struct Script {
    pub steps: Steps,
    /// The values of the tables before the first step and after each step.
    pub states: &'static [&'static str],
    /// The number of writes and syncs after each step.
    calls: &'static [u64],
    /// The step that opens the store once more. The tables are removed after it.
    opening: Option<usize>,
    /// The final layout of the store, in version 2.
    pub layout: &'static str,
}

const COMPACTED: Script = Script {
    steps: &[
        (Open, "ok"),
        (Create("t", INT), "ok"),
        (Import("t", Ints(&[7, -1])), "ok"),
        (Append("t", Ints(&[7, -1])), "ok"),
        (Compact, "merged"),
        (Compact, "moved"),
        (Open, "ok"),
        (Remove("t"), "ok"),
    ],
    states: &[
        "",
        "",
        "t:",
        "t: 7 -1",
        "t: 7 -1 7 -1",
        "t: 7 -1 7 -1",
        "t: 7 -1 7 -1",
        "t: 7 -1 7 -1",
        "",
    ],
    calls: &[1, 5, 10, 15, 20, 25, 26, 30],
    opening: Some(6),
    layout: "epoch 7, 4 in 4",
};

const EXPORTED: Script = Script {
    steps: &[
        (Open, "ok"),
        (Import("t", Ints(&[7, -1])), "ok"),
        (OpenExport("t"), "export 0"),
        (Append("t", Ints(&[5])), "ok"),
        (ExportNext(0), "152 bytes"),
        (Compact, "merged"),
        (Remove("t"), "ok"),
        (Import("u", Ints(&[1, 2])), "ok"),
        (ExportNext(0), "160 bytes"),
        (ExportNext(0), "8 bytes"),
        (ExportNext(0), "no piece"),
        (CloseExport(0), "ok"),
    ],
    states: &[
        "",
        "",
        "t: 7 -1",
        "t: 7 -1",
        "t: 7 -1 5",
        "t: 7 -1 5",
        "t: 7 -1 5",
        "",
        "u: 1 2",
        "u: 1 2",
        "u: 1 2",
        "u: 1 2",
        "u: 1 2",
    ],
    calls: &[1, 6, 6, 11, 11, 16, 20, 25, 25, 25, 25, 25],
    opening: None,
    layout: "epoch 6, 233 in 5, u: 4+1",
};

const TOGETHER: Script = Script {
    steps: &[
        (Open, "ok"),
        (Import("t", Ints(&[7, -1])), "ok"),
        (OpenExport("t"), "export 0"),
        (Keep("t", (&[], &["a >= 0"], None)), "ok"),
        (Keep("u", (&[], &[], None)), "S1 NoTable of 0"),
        (ExportNext(0), "152 bytes"),
        (ExportNext(0), "160 bytes"),
        (ExportNext(0), "8 bytes"),
        (ExportNext(0), "no piece"),
        (CloseExport(0), "ok"),
    ],
    states: &[
        "", "", "t: 7 -1", "t: 7 -1", "t: 7", "t: 7", "t: 7", "t: 7", "t: 7", "t: 7", "t: 7",
    ],
    calls: &[1, 6, 6, 11, 11, 11, 11, 11, 11, 11],
    opening: None,
    layout: "epoch 3, 233 in 5, t: 2+1",
};

/// Returns the script of a number; there are three.
pub fn script_of(number: usize) -> Option<Script> {
    match number {
        0 => Some(COMPACTED),
        1 => Some(EXPORTED),
        2 => Some(TOGETHER),
        _ => None,
    }
}

const FORMATTED: Steps = &[(Format, "ok")];

// How a device is disturbed, at a call counted from 1.
#[derive(Clone, Copy, PartialEq)]
enum Kind {
    // One write or sync fails.
    Failure,
    // Each call fails from a write or sync on.
    Stop,
    // One read fails.
    FailedRead,
}

const KINDS: &[Kind] = &[Failure, Stop, FailedRead];

/// Makes a device of 16 sectors with an empty store, in this way.
pub fn formatted(alloc: Global, made: Way) -> Result<ModelDevice, NotMade> {
    device_after(alloc, FORMATTED, made)
}

fn disturbed(alloc: Global, made: Way, kind: Kind, k: u64) -> Result<Slot, NotMade> {
    let mut device = formatted(alloc, made)?;
    match kind {
        Failure => device.fail_at(k),
        Stop => device.stop_at(k),
        FailedRead => device.fail_read_at(k),
    }
    Ok(Some(StoreOrDevice::Shut(device)))
}

// Returns whether the store is opened again after the failed step.
fn is_reopened(script: &Script, kind: Kind, done: usize) -> bool {
    match script.opening {
        Some(opening) => done < opening && kind != Stop,
        None => false,
    }
}

// Returns whether the reply to the step at this place is right, if the step after `done` others failed.
fn is_told(
    alloc: Global,
    script: &Script,
    kind: Kind,
    done: usize,
    place: usize,
    reply: &Reply,
) -> Result<bool, NotMade> {
    let reopened = is_reopened(script, kind, done);
    let opens = script.opening == Some(place);
    let behind = script.opening.is_some_and(|opening| place > opening);
    if place == done {
        return Ok(says(alloc, reply, "S9 Device")? || says(alloc, reply, "C4 Device")?);
    }
    if opens {
        return says(alloc, reply, if reopened { "ok" } else { "C4 Device" });
    }
    if behind && reopened {
        return Ok(says(alloc, reply, "ok")? || says(alloc, reply, "S1 NoTable")?);
    }
    says(alloc, reply, "S10 Halted")
}

// Returns whether each reply from the failure on is right.
fn are_told(
    alloc: Global,
    script: &Script,
    kind: Kind,
    done: usize,
    replies: &[Reply],
) -> Result<bool, NotMade> {
    let mut well = true;
    for (place, reply) in replies.iter().enumerate() {
        well = well && (place < done || is_told(alloc, script, kind, done, place, reply)?);
    }
    Ok(well)
}

fn is_state(states: &[&str], place: usize, found: &str) -> bool {
    match states.get(place) {
        Some(state) => *state == found,
        None => false,
    }
}

// Returns whether a device may then have these values. A step with a failed read is not done.
fn may_show(script: &Script, kind: Kind, done: usize, found: &str) -> bool {
    if is_reopened(script, kind, done) {
        return found.is_empty();
    }
    let next = done.saturating_add(1);
    is_state(script.states, done, found)
        || kind != FailedRead && is_state(script.states, next, found)
}

/// Returns whether these are the replies to a script of which `done` steps were done when one call of the device failed.
pub fn are_told_after_failure(
    alloc: Global,
    script: &Script,
    done: usize,
    replies: &[Reply],
) -> Result<bool, NotMade> {
    are_told(alloc, script, Failure, done, replies)
}

/// Returns whether the device may then have these values.
pub fn may_show_after_failure(script: &Script, done: usize, found: &str) -> bool {
    may_show(script, Failure, done, found)
}

// Steps that are possible whatever a device holds.
const AFTER: Steps = &[
    (Open, "ok"),
    (Import("t", Ints(&[9])), "ok"),
    (Export("t"), "stream of \"a\":int32?: 9"),
    (Remove("t"), "ok"),
];

fn goes_on(alloc: Global, device: ModelDevice) -> Result<bool, NotMade> {
    is_played(alloc, &mut Some(StoreOrDevice::Shut(device)), AFTER)
}

fn is_whole(
    alloc: Global,
    device: ModelDevice,
    script: &Script,
    kind: Kind,
    done: usize,
) -> Result<bool, NotMade> {
    let mut device = device;
    if may_show(script, kind, done, &contents(alloc, &mut device)?) {
        goes_on(alloc, device)
    } else {
        Ok(false)
    }
}

// Returns whether the device is whole whatever a stop leaves now.
fn are_whole(
    alloc: Global,
    device: &ModelDevice,
    script: &Script,
    kind: Kind,
    done: usize,
) -> Result<bool, NotMade> {
    let mut well = true;
    for choice in CHOICES {
        well = well && is_whole(alloc, device.crash(*choice)?, script, kind, done)?;
    }
    Ok(well)
}

// Returns whether `done` steps are done before this call.
fn is_counted(script: &Script, kind: Kind, k: u64, done: usize) -> bool {
    kind == FailedRead || count_below(script.calls, k) == done
}

// Returns whether no call was disturbed, or `None` if something is wrong.
fn is_undisturbed(
    alloc: Global,
    slot: &mut Slot,
    script: &Script,
    kind: Kind,
    k: u64,
) -> Result<Option<bool>, NotMade> {
    let replies = replies_of(alloc, slot, script.steps, Way::OneRun)?;
    let wrong = wrong_reply(alloc, &replies, script.steps)?;
    let done = wrong.unwrap_or(script.steps.len());
    let told = is_counted(script, kind, k, done) && are_told(alloc, script, kind, done, &replies)?;
    drop(replies);
    let well = told && are_whole(alloc, &shut(slot)?, script, kind, done)?;
    Ok(if well { Some(wrong.is_none()) } else { None })
}

// Returns the first call whose failure makes something wrong. In the last run none fails.
fn wrong_call(
    alloc: Global,
    made: Way,
    script: &Script,
    kind: Kind,
) -> Result<Option<usize>, NotMade> {
    for k in 1..100u64 {
        match is_undisturbed(
            alloc,
            &mut disturbed(alloc, made, kind, k)?,
            script,
            kind,
            k,
        )? {
            Some(true) => return Ok(None),
            Some(false) => {}
            None => return Ok(Some(k as usize)),
        }
    }
    Err(NotMade)
}

fn wrong_kind(alloc: Global, made: Way, script: &Script) -> Result<Option<usize>, NotMade> {
    for kind in KINDS {
        let wrong = wrong_call(alloc, made, script, *kind)?;
        if wrong.is_some() {
            return Ok(wrong);
        }
    }
    Ok(None)
}

// Returns the number of calls of the first script that goes wrong, plus a thousand for each script before it.
fn wrong_script(alloc: Global, made: Way) -> Result<Option<usize>, NotMade> {
    for number in 0..usize::MAX {
        let Some(script) = script_of(number) else {
            return Ok(None);
        };
        if let Some(k) = wrong_kind(alloc, made, &script)? {
            return Ok(Some(number.wrapping_mul(1000).wrapping_add(k)));
        }
    }
    Ok(None)
}

#[test]
fn each_call_of_a_script_fails_in_turn(rt: HostRuntime) {
    assert_no_row(&rt, wrong_script(rt.alloc(), Way::EachCall));
    assert_no_row(&rt, wrong_script(rt.alloc(), Way::VersionOne));
}

// The steps after a first stop, the number of calls that they make, and the tables then; before an import is done the tables are those that were
// left.
const SECOND: Steps = &[
    (Open, "ok"),
    (Import("t", Ints(&[1])), "ok"),
    (Append("t", Ints(&[2])), "ok"),
];

const SECOND_CALLS: &[u64] = &[1, 6, 11];

const SECOND_STATES: &[&str] = &["", "", "t: 1", "t: 1 2"];

// What the first and the second stop leave.
const FEW: &[CrashChoice] = &[
    CrashChoice::Old,
    CrashChoice::New,
    CrashChoice::Bits(5),
    CrashChoice::Lost(1),
    CrashChoice::Lost(u64::MAX),
];

fn is_second_state(first: &str, done: usize, found: &str) -> bool {
    if done < 2 {
        found == first
    } else {
        is_state(SECOND_STATES, done, found)
    }
}

fn is_whole_again(
    alloc: Global,
    device: ModelDevice,
    first: &str,
    done: usize,
) -> Result<bool, NotMade> {
    let mut device = device;
    let found = contents(alloc, &mut device)?;
    let well = is_second_state(first, done, &found)
        || is_second_state(first, done.saturating_add(1), &found);
    drop(found);
    if well {
        goes_on(alloc, device)
    } else {
        Ok(false)
    }
}

fn are_whole_again(
    alloc: Global,
    device: &ModelDevice,
    first: &str,
    done: usize,
) -> Result<bool, NotMade> {
    let mut well = true;
    for choice in FEW {
        well = well && is_whole_again(alloc, device.crash(*choice)?, first, done)?;
    }
    Ok(well)
}

// Returns whether a stop at this call leaves the tables before the step in flight or after it.
fn survives_second(
    alloc: Global,
    left: &ModelDevice,
    first: &str,
    k: u64,
) -> Result<bool, NotMade> {
    let mut device = left.crash(CrashChoice::Old)?;
    device.stop_at(k);
    let mut slot = Some(StoreOrDevice::Shut(device));
    let done = wrong_reply(
        alloc,
        &replies_of(alloc, &mut slot, SECOND, Way::OneRun)?,
        SECOND,
    )?;
    if done.unwrap_or(SECOND.len()) != count_below(SECOND_CALLS, k) {
        return Ok(false);
    }
    are_whole_again(
        alloc,
        &shut(&mut slot)?,
        first,
        count_below(SECOND_CALLS, k),
    )
}

// Returns what a device holds after it stopped at this call of the first script.
fn stopped(alloc: Global, k: u64) -> Result<ModelDevice, NotMade> {
    let mut slot = disturbed(alloc, Way::EachCall, Stop, k)?;
    let _ = replies_of(alloc, &mut slot, COMPACTED.steps, Way::OneRun)?;
    shut(&mut slot)
}

fn survives_each_second(alloc: Global, left: &ModelDevice) -> Result<bool, NotMade> {
    let first = contents(alloc, &mut left.crash(CrashChoice::Old)?)?;
    let mut well = true;
    for k in 1..=12u64 {
        well = well && survives_second(alloc, left, &first, k)?;
    }
    Ok(well)
}

// Returns the first stop, counting a hundred for each call, and what it leaves, after which a second stop goes wrong.
fn wrong_first_stop(alloc: Global) -> Result<Option<usize>, NotMade> {
    for k in 1..=30u64 {
        let device = stopped(alloc, k)?;
        for (place, choice) in FEW.iter().enumerate() {
            if !survives_each_second(alloc, &device.crash(*choice)?)? {
                return Ok(Some((k as usize).wrapping_mul(100).wrapping_add(place)));
            }
        }
    }
    Ok(None)
}

#[test]
fn a_second_stop_leaves_the_tables_too(rt: HostRuntime) {
    assert_no_row(&rt, wrong_first_stop(rt.alloc()));
}

// A call at which a device stops, and the tables if nothing or all of what was not synced was written.
const LEFT: &[(u64, &str, &str)] = &[
    (8, "t:", "t:"),
    (9, "t:", "t: 7 -1"),
    (10, "t:", "t: 7 -1"),
    (14, "t: 7 -1", "t: 7 -1 7 -1"),
    (19, "t: 7 -1 7 -1", "t: 7 -1 7 -1"),
    (24, "t: 7 -1 7 -1", "t: 7 -1 7 -1"),
    (29, "t: 7 -1 7 -1", ""),
];

fn is_left(alloc: Global, device: &ModelDevice, old: &str, new: &str) -> Result<bool, NotMade> {
    let lost = contents(alloc, &mut device.crash(CrashChoice::Lost(u64::MAX))?)?.as_str() == old;
    let old = contents(alloc, &mut device.crash(CrashChoice::Old)?)?.as_str() == old;
    Ok(lost && old && contents(alloc, &mut device.crash(CrashChoice::New)?)?.as_str() == new)
}

fn wrong_left(alloc: Global) -> Result<Option<usize>, NotMade> {
    for (place, (k, old, new)) in LEFT.iter().enumerate() {
        if !is_left(alloc, &stopped(alloc, *k)?, old, new)? {
            return Ok(Some(place));
        }
    }
    Ok(None)
}

#[test]
fn a_stop_in_a_compaction_leaves_the_tables(rt: HostRuntime) {
    assert_no_row(&rt, wrong_left(rt.alloc()));
}
