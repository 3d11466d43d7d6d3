// Scripts of which tests/refused_memory_in_crates refuses at most one allocation.
use crate::disturbed::{
    Script, are_told_after_failure, formatted, may_show_after_failure, script_of,
};
use crate::inputs::Input;
use crate::made::NotMade;
use crate::pieces::Pieces;
use crate::playing::{
    Slot, Way, new_slot, replies_of, replies_of_run, reply_to, shut, wrong_reply,
};
use crate::shown::{contents, is_laid_out};
use crate::steps::{Call, Step, Steps, call_of, says};
use crate::stops::{is_whole, script};
use Step::{
    AppendFrom, Close, CloseExport, Compact, Export, ExportNext, Format, Import, ImportFrom, Open,
    OpenExport, Read, Schema, Tables,
};
use sector_dev::{ModelDevice, SectorDevice};
use std::alloc::Global;
use store::{OpeningRefusal, Reply, StoreOrDevice};
use tables::Refusal;

// The layout of the store after the script.
const LAYOUT: &str = "epoch 9, 462 in 5, s: 4+1, w: 2+1";

// An export to a `Vec` fails if the `Vec` gets no memory.
fn wants_memory(reply: &Reply) -> bool {
    match reply {
        Reply::Refused(refusal) => matches!(refusal, Refusal::OutOfMemory | Refusal::Write),
        Reply::NotOpened(refusal) => matches!(refusal, OpeningRefusal::OutOfMemory),
        _ => false,
    }
}

// Returns the reply to a step, or the reply to the same step once more if memory was refused.
fn second_reply(alloc: Global, slot: &mut Slot, step: Step) -> Result<Reply, NotMade> {
    let first = reply_to(alloc, slot, step)?;
    if wants_memory(&first) {
        reply_to(alloc, slot, step)
    } else {
        Ok(first)
    }
}

fn is_answered(alloc: Global, slot: &mut Slot, step: Step, want: &str) -> Result<bool, NotMade> {
    says(alloc, &second_reply(alloc, slot, step)?, want)
}

// Returns the first step with a wrong reply: the device had no memory to keep a call.
fn steps_done(alloc: Global, slot: &mut Slot, steps: Steps) -> Result<usize, NotMade> {
    for (place, (step, want)) in steps.iter().enumerate() {
        if !is_answered(alloc, slot, *step, want)? {
            return Ok(place);
        }
    }
    Ok(steps.len())
}

// Returns whether a device that failed once, after `done` steps, is whole.
fn is_left_whole(alloc: Global, device: ModelDevice, done: usize) -> Result<bool, NotMade> {
    if device.failures() == 1 {
        is_whole(alloc, device, done)
    } else {
        Ok(false)
    }
}

// Returns whether a device that did not fail holds what the script leaves.
fn is_all_left(alloc: Global, device: &mut ModelDevice) -> Result<bool, NotMade> {
    if device.failures() == 0 {
        is_laid_out(alloc, device, LAYOUT)
    } else {
        Ok(false)
    }
}

fn are_done_on(alloc: Global, slot: &mut Slot) -> Result<bool, NotMade> {
    let done = steps_done(alloc, slot, script())?;
    if done < script().len() {
        is_left_whole(alloc, shut(slot)?, done)
    } else {
        is_all_left(alloc, &mut shut(slot)?)
    }
}

// A step that was refused because memory was has changed nothing: the final layout is the usual one. A step in which the device failed is done or
// not.
fn are_done(alloc: Global) -> Result<bool, NotMade> {
    are_done_on(alloc, &mut new_slot(alloc, 16)?)
}

// Returns whether neither of two runs is wrong, and at most one got no memory.
fn is_one_well(first: Result<bool, NotMade>, second: Result<bool, NotMade>) -> bool {
    match (first, second) {
        (Ok(well), Err(NotMade)) | (Err(NotMade), Ok(well)) => well,
        (Ok(first), Ok(second)) => first && second,
        (Err(NotMade), Err(NotMade)) => false,
    }
}

#[test]
fn commands_change_all_or_nothing_also_without_memory(rt: HostRuntime) {
    let first = are_done(rt.alloc());
    let second = are_done(rt.alloc());
    assert!(rt; is_one_well(first, second));
}

const LISTED: Steps = &[
    (Format, "ok"),
    (Import("t", Input::Ints(&[7, -1])), "ok"),
    (ImportFrom("u", Input::Ints(&[5]), Pieces::Whole), "ok"),
    (AppendFrom("u", Input::Ints(&[6]), Pieces::Whole), "ok"),
    (Close, "ok"),
    (Open, "ok"),
    (Tables, "t 2, u 2"),
    (Schema("t"), "\"a\":int32?"),
    (Read("t"), "\"a\":int32?: 7 -1"),
    (Export("t"), "stream of \"a\":int32?: 7 -1"),
    (OpenExport("u"), "export 0"),
    (ExportNext(0), "152 bytes"),
    (ExportNext(0), "160 bytes"),
    (ExportNext(0), "160 bytes"),
    (ExportNext(0), "8 bytes"),
    (ExportNext(0), "no piece"),
    (CloseExport(0), "ok"),
    (Compact, "merged"),
    (Read("u"), "\"a\":int32?: 5 6"),
];

fn listed() -> Steps {
    LISTED
}

// Returns whether a reply reports that memory was refused, to the store or to the device.
fn is_disturbed(reply: &Reply) -> bool {
    match reply {
        Reply::Refused(refusal) => matches!(refusal, Refusal::OutOfMemory | Refusal::Device),
        Reply::NotOpened(_) => true,
        _ => false,
    }
}

fn are_disturbed(replies: &[Reply]) -> bool {
    let mut disturbed = false;
    for reply in replies {
        disturbed = disturbed || is_disturbed(reply);
    }
    disturbed
}

fn are_listed_well(alloc: Global, replies: &[Reply]) -> Result<bool, NotMade> {
    if are_disturbed(replies) {
        return Err(NotMade);
    }
    Ok(wrong_reply(alloc, replies, listed())?.is_none())
}

fn is_run_on(alloc: Global, slot: &mut Slot) -> Result<bool, NotMade> {
    are_listed_well(alloc, &replies_of(alloc, slot, listed(), Way::OneRun)?)
}

fn is_run(alloc: Global) -> Result<bool, NotMade> {
    is_run_on(alloc, &mut new_slot(alloc, 16)?)
}

fn are_listed_on(alloc: Global, slot: &mut Slot) -> Result<bool, NotMade> {
    let done = steps_done(alloc, slot, listed())?;
    Ok(shut(slot)?.failures() == u64::from(done < listed().len()))
}

// A step that was refused because memory was is done when it is asked again, unless the device failed.
fn are_listed(alloc: Global) -> Result<bool, NotMade> {
    are_listed_on(alloc, &mut new_slot(alloc, 16)?)
}

#[test]
fn a_run_is_answered_also_without_memory(rt: HostRuntime) {
    let first = is_run(rt.alloc());
    let second = is_run(rt.alloc());
    assert!(rt; is_one_well(first, second));
}

#[test]
fn a_store_is_opened_and_read_also_without_memory(rt: HostRuntime) {
    let first = are_listed(rt.alloc());
    let second = are_listed(rt.alloc());
    assert!(rt; is_one_well(first, second));
}

fn one_call(alloc: Global, step: Step) -> Result<Vec<Call>, NotMade> {
    let mut calls = Vec::new(alloc);
    calls.push(call_of(alloc, step)?)?;
    Ok(calls)
}

// Returns the reply to a step that `run` takes alone.
fn reply_of_run(alloc: Global, slot: &mut Slot, step: Step) -> Result<Reply, NotMade> {
    let mut replies = replies_of_run(alloc, slot, one_call(alloc, step)?)?;
    replies.pop().ok_or(NotMade)
}

// Returns this reply, or the reply to the same step once more if memory was refused.
fn second_of_run(alloc: Global, slot: &mut Slot, step: Step) -> Result<Reply, NotMade> {
    let first = reply_of_run(alloc, slot, step)?;
    if wants_memory(&first) {
        reply_of_run(alloc, slot, step)
    } else {
        Ok(first)
    }
}

fn replies_again(alloc: Global, slot: &mut Slot, steps: Steps) -> Result<Vec<Reply>, NotMade> {
    let mut replies = Vec::new(alloc);
    for (step, _) in steps {
        replies.push(second_of_run(alloc, slot, *step)?)?;
    }
    Ok(replies)
}

// Returns how many steps of a script are done, if the others are refused as after one failure of the device; otherwise `None`.
fn steps_told(alloc: Global, slot: &mut Slot, script: &Script) -> Result<Option<usize>, NotMade> {
    let replies = replies_again(alloc, slot, script.steps)?;
    let done = wrong_reply(alloc, &replies, script.steps)?.unwrap_or(script.steps.len());
    let told = are_told_after_failure(alloc, script, done, &replies)?;
    Ok(if told { Some(done) } else { None })
}

// Returns whether a device holds what is then left: only the device had no memory, to keep a call.
fn is_script_left(
    alloc: Global,
    device: &mut ModelDevice,
    script: &Script,
    done: usize,
) -> Result<bool, NotMade> {
    let all = done == script.steps.len();
    if device.failures() != u64::from(!all) {
        return Ok(false);
    }
    if all {
        is_laid_out(alloc, device, script.layout)
    } else {
        Ok(may_show_after_failure(script, done, &contents(alloc, device)?))
    }
}

fn is_script_done_on(alloc: Global, slot: &mut Slot, script: &Script) -> Result<bool, NotMade> {
    match steps_told(alloc, slot, script)? {
        Some(done) => is_script_left(alloc, &mut shut(slot)?, script, done),
        None => Ok(false),
    }
}

fn is_script_done(alloc: Global, number: usize) -> Result<bool, NotMade> {
    let script = script_of(number).ok_or(NotMade)?;
    let device = formatted(alloc, Way::EachCall)?;
    is_script_done_on(alloc, &mut Some(StoreOrDevice::Shut(device)), &script)
}

#[test]
fn a_compaction_is_done_or_not_also_without_memory(rt: HostRuntime) {
    let first = is_script_done(rt.alloc(), 0);
    let second = is_script_done(rt.alloc(), 0);
    assert!(rt; is_one_well(first, second));
}

#[test]
fn an_export_gives_its_pieces_also_without_memory(rt: HostRuntime) {
    let first = is_script_done(rt.alloc(), 1);
    let second = is_script_done(rt.alloc(), 1);
    assert!(rt; is_one_well(first, second));
}

#[test]
fn several_commands_are_all_done_or_none_also_without_memory(rt: HostRuntime) {
    let first = is_script_done(rt.alloc(), 2);
    let second = is_script_done(rt.alloc(), 2);
    assert!(rt; is_one_well(first, second));
}
