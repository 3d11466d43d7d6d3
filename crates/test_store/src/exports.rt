// Exports that give their pieces one after another: the length of each piece, what they mean together, and how many may be open.
use crate::inputs::{Cell, INT, Input};
use crate::made::{NotMade, assert_no_row};
use crate::playing::{Slot, WAYS, Way, is_played, new_slot, play, replies_of, wrong_reply};
use crate::steps::{Step, Steps, add_table};
use Cell::{Null, Number};
use Input::{First, Ints};
use Step::{
    Append, Close, CloseExport, Compact, Create, ExportNext, Format, Give, Import, Open,
    OpenExport, Remove, Rename,
};
use ipc_stream::decode;
use sector_dev::ModelDevice;
use std::alloc::Global;
use store::{Reply, Store, StoreOrDevice};

const PIECES: Steps = &[
    (Format, "ok"),
    (Create("t", INT), "ok"),
    (Give("t", &[&[Number(1)], &[Null]]), "ok"),
    (Create("u", INT), "ok"),
    (OpenExport("t"), "export 0"),
    (ExportNext(0), "152 bytes"),
    (ExportNext(0), "168 bytes"),
    (ExportNext(0), "8 bytes"),
    (ExportNext(0), "no piece"),
    (ExportNext(0), "no piece"),
    (OpenExport("u"), "export 1"),
    (ExportNext(1), "152 bytes"),
    (ExportNext(1), "8 bytes"),
    (ExportNext(1), "no piece"),
    (OpenExport("v"), "S1 NoTable"),
];

const CLOSED: Steps = &[
    (Format, "ok"),
    (Create("t", INT), "ok"),
    (OpenExport("t"), "export 0"),
    (OpenExport("t"), "export 1"),
    (ExportNext(2), "S11 NoExport"),
    (CloseExport(2), "S11 NoExport"),
    (CloseExport(0), "ok"),
    (CloseExport(0), "S11 NoExport"),
    (ExportNext(0), "S11 NoExport"),
    (ExportNext(1), "152 bytes"),
    (OpenExport("t"), "export 2"),
    (Close, "ok"),
    (ExportNext(2), "S10 Halted"),
    (Open, "ok"),
    (ExportNext(2), "S11 NoExport"),
    (OpenExport("t"), "export 0"),
];

// A table is appended to, renamed, dropped and replaced while it is exported. An export that was opened later has more.
const MEANWHILE: Steps = &[
    (Format, "ok"),
    (Import("t", Ints(&[7, -1])), "ok"),
    (OpenExport("t"), "export 0"),
    (ExportNext(0), "152 bytes"),
    (Append("t", Ints(&[5])), "ok"),
    (OpenExport("t"), "export 1"),
    (Rename("t", "v"), "ok"),
    (Remove("v"), "ok"),
    (Import("t", First(100)), "ok"),
    (OpenExport("t"), "export 2"),
    (Import("t", First(50)), "ok"),
    (ExportNext(0), "160 bytes"),
    (ExportNext(0), "8 bytes"),
    (ExportNext(0), "no piece"),
    (CloseExport(0), "ok"),
    (ExportNext(1), "152 bytes"),
    (ExportNext(1), "160 bytes"),
    (ExportNext(1), "160 bytes"),
    (ExportNext(1), "8 bytes"),
    (ExportNext(2), "152 bytes"),
    (ExportNext(2), "552 bytes"),
    (ExportNext(2), "8 bytes"),
];

fn script(number: usize) -> Option<Steps> {
    Some(match number {
        0 => PIECES,
        1 => CLOSED,
        2 => MEANWHILE,
        _ => return None,
    })
}

// Returns the place of the first wrong step, counting a hundred for each script.
fn wrong_step(alloc: Global, way: Way) -> Result<Option<usize>, NotMade> {
    for number in 0..usize::MAX {
        let Some(steps) = script(number) else {
            return Ok(None);
        };
        if let Some(place) = play(alloc, &mut new_slot(alloc, 64)?, steps, way)? {
            return Ok(Some(number.wrapping_mul(100).wrapping_add(place)));
        }
    }
    Ok(None)
}

#[test]
fn exports_give_the_table_that_they_found(rt: HostRuntime) {
    assert_no_row(&rt, wrong_step(rt.alloc(), Way::EachCall));
    assert_no_row(&rt, wrong_step(rt.alloc(), Way::VersionOne));
    assert_no_row(&rt, wrong_step(rt.alloc(), Way::OneRun));
}

// The segments of t lie in the lowest sectors, 3 and 2. If they were free once it is dropped, the last step would move the other table there.
const DROPPED: Steps = &[
    (Format, "ok"),
    (Import("t", Ints(&[7, -1])), "ok"),
    (Append("t", Ints(&[5])), "ok"),
    (OpenExport("t"), "export 0"),
    (ExportNext(0), "152 bytes"),
    (Remove("t"), "ok"),
    (Import("u", Ints(&[9, 9])), "ok"),
    (Append("u", Ints(&[9])), "ok"),
    (Compact, "merged"),
    (Compact, "moved"),
    (ExportNext(0), "160 bytes"),
    (ExportNext(0), "160 bytes"),
    (ExportNext(0), "8 bytes"),
    (ExportNext(0), "no piece"),
];

fn dropped() -> Steps {
    DROPPED
}

fn joined(alloc: Global, replies: &[Reply]) -> Result<Vec<u8>, NotMade> {
    let mut bytes = Vec::new(alloc);
    for reply in replies {
        if let Reply::Piece(Some(piece)) = reply {
            bytes.extend_from_slice(piece)?;
        }
    }
    Ok(bytes)
}

// Returns the table that the pieces mean, as `"a":int32?: 7 -1`.
fn meant(alloc: Global, replies: &[Reply]) -> Result<String, NotMade> {
    let Ok(table) = decode(alloc, joined(alloc, replies)?) else {
        return Err(NotMade);
    };
    let mut text = String::new(alloc);
    add_table(alloc, &mut text, &table)?;
    Ok(text)
}

fn is_given_on(alloc: Global, slot: &mut Slot, way: Way) -> Result<bool, NotMade> {
    let replies = replies_of(alloc, slot, dropped(), way)?;
    let well = wrong_reply(alloc, &replies, dropped())?.is_none();
    Ok(well && meant(alloc, &replies)?.as_str() == "\"a\":int32?: 7 -1 5")
}

// Returns the place of the first way in which the table is not exported as it was.
fn wrong_way(alloc: Global) -> Result<Option<usize>, NotMade> {
    for (place, way) in WAYS.iter().enumerate() {
        if !is_given_on(alloc, &mut new_slot(alloc, 16)?, *way)? {
            return Ok(Some(place));
        }
    }
    Ok(None)
}

#[test]
fn a_table_that_is_dropped_is_given_to_its_end(rt: HostRuntime) {
    assert_no_row(&rt, wrong_way(rt.alloc()));
}

const EMPTY: Steps = &[(Format, "ok"), (Create("t", INT), "ok")];

// At most 64 exports may be open. No id is given twice.
const FULL: Steps = &[
    (OpenExport("t"), "S7 TooMany Exports"),
    (ExportNext(63), "152 bytes"),
    (CloseExport(5), "ok"),
    (OpenExport("t"), "export 64"),
    (OpenExport("t"), "S7 TooMany Exports"),
    (ExportNext(5), "S11 NoExport"),
    (ExportNext(64), "152 bytes"),
];

fn are_opened(alloc: Global, store: &mut Store<ModelDevice>, count: u64) -> bool {
    for id in 0..count {
        if store.open_export(alloc, "t") != Ok(id) {
            return false;
        }
    }
    true
}

fn is_full(alloc: Global, slot: &mut Slot) -> Result<bool, NotMade> {
    let Some(StoreOrDevice::Open(store)) = slot else {
        return Err(NotMade);
    };
    Ok(are_opened(alloc, store, 64) && is_played(alloc, slot, FULL)?)
}

fn wrong_count(alloc: Global, slot: &mut Slot) -> Result<Option<usize>, NotMade> {
    let well = is_played(alloc, slot, EMPTY)? && is_full(alloc, slot)?;
    Ok(if well { None } else { Some(0) })
}

fn wrong_when_full(alloc: Global) -> Result<Option<usize>, NotMade> {
    wrong_count(alloc, &mut new_slot(alloc, 64)?)
}

#[test]
fn exports_are_64_at_most(rt: HostRuntime) {
    assert_no_row(&rt, wrong_when_full(rt.alloc()));
}
