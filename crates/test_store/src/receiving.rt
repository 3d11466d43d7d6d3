// Archives that are sent by one store, read, and received by another one, which then has the same tables.
use crate::inputs::{INT, Input};
use crate::made::{NotMade, assert_no_row};
use crate::openings::device_after;
use crate::playing::{Slot, Way, shut};
use crate::shown::contents;
use crate::steps::{Step, Steps};
use Had::{Nothing, OfReceiver, OfSender};
use Input::{Column, Ints};
use Step::{Append, Compact, Create, Format, Import, Rename};
use sector_dev::{CrashChoice, ModelDevice, SectorDevice};
use std::alloc::Global;
use store::{ReceiveRefusal, Store, StoreOrDevice};
use table_archive::read_archive;
use tables::Refusal;

/// The segments without which an archive is made.
#[derive(Clone, Copy)]
enum Had {
    Nothing,
    OfReceiver,
    OfSender,
}

/// A store that receives the archive of another one.
#[derive(Clone, Copy)]
struct Row {
    receiver: Steps,
    had: Had,
    delete: bool,
    answer: &'static str,
    /// The values of the receiver's tables after it.
    want: &'static str,
    /// How many commits it makes.
    commits: u64,
}

// Two segments of `t`, and `u` without rows.
const SENDER: Steps = &[
    (Format, "ok"),
    (Import("t", Ints(&[7, -1])), "ok"),
    (Append("t", Ints(&[5])), "ok"),
    (Create("u", INT), "ok"),
];

const TABLES: &str = "t: 7 -1 5, u:";

const EMPTY: Steps = &[(Format, "ok")];

const BEGUN: Steps = &[(Format, "ok"), (Import("t", Ints(&[7, -1])), "ok")];

const CHANGED: Steps = &[
    (Format, "ok"),
    (Import("t", Ints(&[1])), "ok"),
    (Append("t", Ints(&[5])), "ok"),
];

const LONGER: Steps = &[
    (Format, "ok"),
    (Import("t", Ints(&[7, -1])), "ok"),
    (Append("t", Ints(&[5])), "ok"),
    (Append("t", Ints(&[6])), "ok"),
];

const OTHER_FIELDS: Steps = &[
    (Format, "ok"),
    (Import("t", Column("a:int64?", &[7, -1])), "ok"),
    (Create("u", &["b:utf8"]), "ok"),
];

const RENAMED: Steps = &[
    (Format, "ok"),
    (Import("t", Ints(&[7, -1])), "ok"),
    (Append("t", Ints(&[5])), "ok"),
    (Rename("t", "w"), "ok"),
];

const JOINED: Steps = &[
    (Format, "ok"),
    (Import("t", Ints(&[7, -1])), "ok"),
    (Append("t", Ints(&[5])), "ok"),
    (Compact, "merged"),
];

// What a store with these steps makes of the archive: its values then, and its commits.
type Received = (Steps, Had, bool, &'static str, u64);

const RECEIVED: &[Received] = &[
    (EMPTY, Nothing, false, TABLES, 1),
    (EMPTY, OfReceiver, true, TABLES, 1),
    (BEGUN, Nothing, false, TABLES, 1),
    (BEGUN, OfReceiver, false, TABLES, 1),
    (CHANGED, Nothing, false, TABLES, 1),
    (CHANGED, OfReceiver, false, TABLES, 1),
    (LONGER, OfReceiver, false, TABLES, 1),
    (OTHER_FIELDS, OfReceiver, false, TABLES, 1),
    (JOINED, OfReceiver, false, TABLES, 1),
    // The segments are those of another table, which stays or goes.
    (RENAMED, OfReceiver, false, "t: 7 -1 5, u:, w: 7 -1 5", 1),
    (RENAMED, OfReceiver, true, TABLES, 1),
    // Nothing differs.
    (SENDER, OfReceiver, true, TABLES, 0),
    (SENDER, Nothing, false, TABLES, 0),
];

// A segment is in neither.
const LACKING: &[Row] = &[
    Row {
        receiver: BEGUN,
        had: OfSender,
        delete: true,
        answer: "lacks",
        want: "t: 7 -1",
        commits: 0,
    },
    Row {
        receiver: EMPTY,
        had: OfSender,
        delete: false,
        answer: "lacks",
        want: "",
        commits: 0,
    },
];

fn opened(alloc: Global, steps: Steps) -> Result<Store<ModelDevice>, NotMade> {
    Store::open(alloc, device_after(alloc, steps, Way::EachCall)?).map_err(|_| NotMade)
}

fn had_of(
    alloc: Global,
    had: Had,
    sender: &mut Store<ModelDevice>,
    receiver: &mut Store<ModelDevice>,
) -> Result<Vec<[u8; 32]>, NotMade> {
    match had {
        Nothing => Ok(Vec::new(alloc)),
        OfReceiver => receiver.digests(alloc).map_err(|_| NotMade),
        OfSender => sender.digests(alloc).map_err(|_| NotMade),
    }
}

fn sent(
    alloc: Global,
    had: Had,
    sender: &mut Store<ModelDevice>,
    receiver: &mut Store<ModelDevice>,
) -> Result<Vec<u8>, NotMade> {
    let digests = had_of(alloc, had, sender, receiver)?;
    let mut bytes = Vec::new(alloc);
    match sender.send(alloc, &digests, &mut bytes) {
        Ok(()) => Ok(bytes),
        Err(_) => Err(NotMade),
    }
}

fn text_of(answer: Result<(), ReceiveRefusal>) -> &'static str {
    match answer {
        Ok(()) => "ok",
        Err(ReceiveRefusal::Lacks(_)) => "lacks",
        Err(ReceiveRefusal::Store(Refusal::Device)) => "device",
        Err(ReceiveRefusal::Store(_)) => "refused",
    }
}

fn bytes_of_table(
    alloc: Global,
    store: &mut Store<ModelDevice>,
    name: &str,
) -> Result<Vec<u8>, NotMade> {
    let mut bytes = Vec::new(alloc);
    match store.export(alloc, name, &mut bytes) {
        Ok(_) => Ok(bytes),
        Err(_) => Err(NotMade),
    }
}

// Returns whether a store has each table of another one, and exports the same bytes of it.
fn has_each_table(
    alloc: Global,
    store: &mut Store<ModelDevice>,
    other: &mut Store<ModelDevice>,
) -> Result<bool, NotMade> {
    for (name, _) in other.tables(alloc).map_err(|_| NotMade)? {
        let own = bytes_of_table(alloc, store, name.as_str())?;
        if own.as_slice() != bytes_of_table(alloc, other, name.as_str())?.as_slice() {
            return Ok(false);
        }
    }
    Ok(true)
}

fn epoch_of(alloc: Global, store: &Store<ModelDevice>) -> Result<u64, NotMade> {
    match store.summary(alloc) {
        Ok(summary) => Ok(summary.epoch),
        Err(_) => Err(NotMade),
    }
}

fn is_received(alloc: Global, row: &Row) -> Result<bool, NotMade> {
    let mut sender = opened(alloc, SENDER)?;
    let mut receiver = opened(alloc, row.receiver)?;
    let bytes = sent(alloc, row.had, &mut sender, &mut receiver)?;
    let archive = read_archive(alloc, &bytes).map_err(|_| NotMade)?;
    let before = epoch_of(alloc, &receiver)?;
    let answer = text_of(receiver.receive(alloc, &archive, row.delete));
    let mut well = answer == row.answer
        && epoch_of(alloc, &receiver)?.wrapping_sub(before) == row.commits;
    if answer == "ok" {
        well = well && has_each_table(alloc, &mut receiver, &mut sender)?;
    }
    Ok(well && contents(alloc, &mut receiver.close())?.as_str() == row.want)
}

fn row_of(received: &Received) -> Row {
    let (receiver, had, delete, want, commits) = *received;
    Row {
        receiver,
        had,
        delete,
        answer: "ok",
        want,
        commits,
    }
}

fn wrong_received(alloc: Global) -> Result<Option<usize>, NotMade> {
    for (place, received) in RECEIVED.iter().enumerate() {
        if !is_received(alloc, &row_of(received))? {
            return Ok(Some(place));
        }
    }
    Ok(None)
}

fn wrong_lacking(alloc: Global) -> Result<Option<usize>, NotMade> {
    for (place, row) in LACKING.iter().enumerate() {
        if !is_received(alloc, row)? {
            return Ok(Some(place));
        }
    }
    Ok(None)
}

#[test]
fn tables_are_received(rt: HostRuntime) {
    assert_no_row(&rt, wrong_received(rt.alloc()));
}

#[test]
fn an_archive_without_a_segment_is_refused(rt: HostRuntime) {
    assert_no_row(&rt, wrong_lacking(rt.alloc()));
}

// Returns whether a store on this device, of which one call fails, receives the archive with these bytes, or none of it.
fn is_all_or_none(alloc: Global, device: ModelDevice, bytes: &[u8]) -> Result<bool, NotMade> {
    let archive = read_archive(alloc, bytes).map_err(|_| NotMade)?;
    let mut receiver = Store::open(alloc, device).map_err(|_| NotMade)?;
    let answer = text_of(receiver.receive(alloc, &archive, true));
    let left = receiver.close();
    for choice in [CrashChoice::Old, CrashChoice::New, CrashChoice::Bits(1)] {
        let found = contents(alloc, &mut left.crash(choice)?)?;
        let all = found.as_str() == TABLES;
        if !(all || answer == "device" && found.as_str() == "t: 7 -1, w: 2") {
            return Ok(false);
        }
    }
    Ok(true)
}

// The first call of the device is the sync of the opening, which is left as it is.
fn wrong_failure(alloc: Global, before: Steps, calls: u64) -> Result<Option<usize>, NotMade> {
    let mut sender = opened(alloc, SENDER)?;
    let mut bytes = Vec::new(alloc);
    sender.send(alloc, &[], &mut bytes).map_err(|_| NotMade)?;
    for call in 2..calls {
        let mut device = device_after(alloc, before, Way::EachCall)?;
        device.fail_at(call);
        if !is_all_or_none(alloc, device, &bytes)? {
            return Ok(Some(call as usize));
        }
    }
    Ok(None)
}

const WITH_ANOTHER: Steps = &[
    (Format, "ok"),
    (Import("t", Ints(&[7, -1])), "ok"),
    (Import("w", Ints(&[2])), "ok"),
];

#[test]
fn a_failure_leaves_all_or_none(rt: HostRuntime) {
    assert_no_row(&rt, wrong_failure(rt.alloc(), WITH_ANOTHER, 12));
}
