// A read of the device fails while a store is opened; while a table is read, exported, weighed for an append or selected from; or while its
// segments are joined or moved. The store is then halted, and once it is opened again it has everything that it had.
use crate::inputs::Input;
use crate::made::{NotMade, assert_no_row};
use crate::openings::{T, U, device_after, stored};
use crate::playing::{Slot, Way, is_played, play, replies_of, shut, wrong_reply};
use crate::steps::{Step, Steps};
use crate::stops::{OPENING, are_refused, count_below};
use Input::Column;
use Step::{
    Append, CloseExport, Compact, Export, ExportNext, Give, Open, OpenExport, Read, Remove, Save,
    Tables,
};
use sector_dev::ModelDevice;
use std::alloc::Global;
use std::io::{self, Write};
use store::{Reply, Store, StoreOrDevice};
use tables::Refusal;

const READING: Steps = &[
    (Open, "ok"),
    (Read("t"), T),
    (Read("v"), "\"a\":int32?:"),
    (Read("u"), U),
    (Export("t"), "stream of \"a\":int32?: 7 -1 5"),
    (Give("t", &[]), "ok"),
    (Save("t", "w", (&[], &[], None)), "ok"),
    (Remove("w"), "ok"),
    (Append("u", Column("b:int64", &[2])), "ok"),
    (Tables, "t 3, u 27, v 0"),
];

fn reading() -> Steps {
    READING
}

// The number of sectors read after each step: both commits, the root and three pages, and those of the table's segments.
const READS: &[u64] = &[6, 8, 8, 10, 12, 14, 16, 16, 18, 18];

// Returns whether exactly `done` steps are answered as expected, and the others refused.
fn are_answered(alloc: Global, replies: &[Reply], done: usize) -> Result<bool, NotMade> {
    let (first, rest) = replies.split_at_checked(done).ok_or(NotMade)?;
    let steps = reading().get(..done).unwrap_or_default();
    Ok(are_refused(alloc, rest)? && wrong_reply(alloc, first, steps)?.is_none())
}

// Returns a device with these tables, made in this way, whose read `k`, counted from 1, fails.
fn failing(alloc: Global, made: Way, k: u64) -> Result<ModelDevice, NotMade> {
    let mut device = device_after(alloc, stored(), made)?;
    device.fail_read_at(k);
    Ok(device)
}

// Returns whether each step is answered as expected, if `done` steps come before the failed read.
fn is_halted(alloc: Global, slot: &mut Slot, done: usize, way: Way) -> Result<bool, NotMade> {
    are_answered(alloc, &replies_of(alloc, slot, reading(), way)?, done)
}

// Returns whether the same device has lost nothing, if a step was refused.
fn is_read_again(alloc: Global, slot: &mut Slot, done: usize) -> Result<bool, NotMade> {
    Ok(done == reading().len() || is_played(alloc, slot, reading())?)
}

fn survives_on(alloc: Global, slot: &mut Slot, done: usize, way: Way) -> Result<bool, NotMade> {
    if !is_halted(alloc, slot, done, way)? {
        return Ok(false);
    }
    is_read_again(alloc, &mut Some(StoreOrDevice::Shut(shut(slot)?)), done)
}

fn survives(alloc: Global, made: Way, k: u64, way: Way) -> Result<bool, NotMade> {
    let done = count_below(READS, k);
    let device = failing(alloc, made, k)?;
    survives_on(alloc, &mut Some(StoreOrDevice::Shut(device)), done, way)
}

// Returns the first read whose failure makes something wrong. In the last run none fails.
fn wrong_read(alloc: Global, made: Way, way: Way) -> Result<Option<usize>, NotMade> {
    for k in 1..=19u64 {
        if !survives(alloc, made, k, way)? {
            return Ok(Some(k as usize));
        }
    }
    Ok(None)
}

#[test]
fn each_read_of_the_device_fails_in_turn(rt: HostRuntime) {
    assert_no_row(&rt, wrong_read(rt.alloc(), Way::EachCall, Way::EachCall));
    assert_no_row(&rt, wrong_read(rt.alloc(), Way::VersionOne, Way::OneRun));
}

// The segments of t are the seventh and eighth sector read. The segment that moves comes next: in version 2 that of t is the ninth, and in version
// 1 that of u is the ninth and tenth.
const IN_PIECES: Steps = &[
    (Open, "ok"),
    (OpenExport("t"), "export 0"),
    (ExportNext(0), "152 bytes"),
    (ExportNext(0), "160 bytes"),
    (ExportNext(0), "S9 Device"),
    (ExportNext(0), "S10 Halted"),
    (OpenExport("t"), "S10 Halted"),
    (CloseExport(0), "S10 Halted"),
    (Open, "ok"),
    (ExportNext(0), "S11 NoExport"),
    (OpenExport("t"), "export 0"),
    (ExportNext(0), "152 bytes"),
    (ExportNext(0), "160 bytes"),
    (ExportNext(0), "160 bytes"),
    (ExportNext(0), "8 bytes"),
    (CloseExport(0), "ok"),
];

const MERGING: Steps = &[
    (Open, "ok"),
    (Compact, "S9 Device"),
    (Compact, "S10 Halted"),
    (Open, "ok"),
    (Read("t"), T),
    (Compact, "merged"),
    (Read("t"), T),
];

const MOVING: Steps = &[
    (Open, "ok"),
    (Compact, "merged"),
    (Compact, "S9 Device"),
    (Compact, "S10 Halted"),
    (Open, "ok"),
    (Read("u"), U),
    (Compact, "moved"),
    (Read("u"), U),
];

// Returns the last read of the segment that moves.
fn last_read(made: Way) -> u64 {
    match made {
        Way::VersionOne => 10,
        _ => 9,
    }
}

// Returns which read fails, and the steps.
fn step_by_step(made: Way, number: usize) -> Option<(u64, Steps)> {
    Some(match number {
        0 => (8, IN_PIECES),
        1 => (7, MERGING),
        2 => (8, MERGING),
        3 => (9, MOVING),
        4 => (last_read(made), MOVING),
        _ => return None,
    })
}

// Returns the place of the first wrong step, counting a hundred for each script.
fn wrong_step(alloc: Global, made: Way, way: Way) -> Result<Option<usize>, NotMade> {
    for number in 0..usize::MAX {
        let Some((k, steps)) = step_by_step(made, number) else {
            return Ok(None);
        };
        let device = failing(alloc, made, k)?;
        if let Some(place) = play(alloc, &mut Some(StoreOrDevice::Shut(device)), steps, way)? {
            return Ok(Some(number.wrapping_mul(100).wrapping_add(place)));
        }
    }
    Ok(None)
}

#[test]
fn a_read_fails_in_an_export_and_in_a_compaction(rt: HostRuntime) {
    assert_no_row(&rt, wrong_step(rt.alloc(), Way::EachCall, Way::EachCall));
    assert_no_row(&rt, wrong_step(rt.alloc(), Way::VersionOne, Way::OneRun));
}

const EXPORTING: Steps = &[
    (Open, "ok"),
    (Export("t"), "S9 Device"),
    (Export("t"), "S10 Halted"),
];

// Returns the first read of a segment that fails and still lets something be written.
fn wrong_export(alloc: Global) -> Result<Option<usize>, NotMade> {
    for k in 7..=8u64 {
        let device = failing(alloc, Way::EachCall, k)?;
        if !is_played(alloc, &mut Some(StoreOrDevice::Shut(device)), EXPORTING)? {
            return Ok(Some(k as usize));
        }
    }
    Ok(None)
}

// How many bytes a writer takes before each further write fails, and the answer of the export of 328 bytes.
const ROOMS: &[(usize, Result<(), Refusal>)] = &[
    (0, Err(Refusal::Write)),
    (1, Err(Refusal::Write)),
    (327, Err(Refusal::Write)),
    (328, Ok(())),
];

// A writer that counts the bytes that it was given, and those of them that were flushed.
#[derive(Clone, Copy)]
struct CountingWriter {
    written: usize,
    flushed: usize,
}

impl Write for CountingWriter {
    fn write(&mut self, buf: &[u8]) -> io::Result<usize> {
        self.written = self.written.saturating_add(buf.len());
        Ok(buf.len())
    }

    fn flush(&mut self) -> io::Result<()> {
        self.flushed = self.written;
        Ok(())
    }
}

// Before anything is written.
const UNWRITTEN: CountingWriter = CountingWriter {
    written: 0,
    flushed: 0,
};

// Returns whether all bytes of a salvage are written and flushed.
fn is_salvaged_whole(alloc: Global, store: &mut Store<ModelDevice>) -> bool {
    let mut writer = UNWRITTEN;
    store.salvage(alloc, "t", &mut writer).is_ok()
        && writer.flushed > 0
        && writer.flushed == writer.written
}

// Returns whether all bytes of an export and of a salvage are written and flushed.
fn goes_out(alloc: Global, slot: &mut Slot) -> bool {
    let mut writer = UNWRITTEN;
    match slot {
        Some(StoreOrDevice::Open(store)) => {
            store.export(alloc, "t", &mut writer) == Ok(())
                && writer.flushed == 328
                && is_salvaged_whole(alloc, store)
        }
        _ => false,
    }
}

const STILL_THERE: Steps = &[(Read("t"), T)];

fn is_exported(
    alloc: Global,
    store: &mut Store<ModelDevice>,
    room: usize,
    want: Result<(), Refusal>,
) -> Result<bool, NotMade> {
    let mut bytes = [0; 328];
    let mut writer = bytes.get_mut(..room).ok_or(NotMade)?;
    Ok(store.export(alloc, "t", &mut writer) == want)
}

fn is_written(
    alloc: Global,
    slot: &mut Slot,
    room: usize,
    want: Result<(), Refusal>,
) -> Result<bool, NotMade> {
    let Some(StoreOrDevice::Open(store)) = slot else {
        return Err(NotMade);
    };
    Ok(is_exported(alloc, store, room, want)? && is_played(alloc, slot, STILL_THERE)?)
}

fn is_opened_and_written(
    alloc: Global,
    slot: &mut Slot,
    room: usize,
    want: Result<(), Refusal>,
) -> Result<bool, NotMade> {
    if is_played(alloc, slot, OPENING)? {
        is_written(alloc, slot, room, want)
    } else {
        Err(NotMade)
    }
}

// Returns the first writer with another answer, or after which the table can't be read.
fn wrong_writer(alloc: Global) -> Result<Option<usize>, NotMade> {
    for (place, (room, want)) in ROOMS.iter().enumerate() {
        let device = device_after(alloc, stored(), Way::EachCall)?;
        if !is_opened_and_written(alloc, &mut Some(StoreOrDevice::Shut(device)), *room, *want)? {
            return Ok(Some(place));
        }
    }
    Ok(None)
}

fn wrong_flush(alloc: Global) -> Result<Option<usize>, NotMade> {
    let mut slot = Some(StoreOrDevice::Shut(device_after(alloc, stored(), Way::EachCall)?));
    let well = is_played(alloc, &mut slot, OPENING)? && goes_out(alloc, &mut slot);
    Ok(if well { None } else { Some(0) })
}

#[test]
fn what_is_written_is_flushed(rt: HostRuntime) {
    assert_no_row(&rt, wrong_flush(rt.alloc()));
}

#[test]
fn an_export_that_fails_writes_nothing(rt: HostRuntime) {
    assert_no_row(&rt, wrong_export(rt.alloc()));
    assert_no_row(&rt, wrong_writer(rt.alloc()));
}
