// Stores of both versions with a changed segment, or one in a sector that can't be read.
use crate::inputs::{Cell, Input};
use crate::made::{NotMade, assert_no_row};
use crate::openings::{Change, U, changed};
use crate::playing::{is_played, shut};
use crate::steps::{Step, Steps};
use crate::versions::formatted;
use Cell::Text;
use FormatVersion::{One, Two};
use Input::{Column, Ints};
use Step::{
    Append, CloseExport, Compact, Export, ExportNext, Give, Import, Open, OpenExport, Read, Save,
    Tables,
};
use sector_dev::CrashChoice;
use std::alloc::Global;
use store::{FormatVersion, StoreOrDevice};

// The table t has two segments, in sectors 3 and 2, and u one. The first value of a segment is at byte 304.
const STORED: Steps = &[
    (Import("t", Ints(&[7, -1])), "ok"),
    (Append("t", Ints(&[5])), "ok"),
    (Import("u", Column("b:int64", &[1; 26])), "ok"),
];

// The table t has one segment, in sector 4, and sector 2 is free.
const MERGED: Steps = &[
    (Import("t", Ints(&[7, -1])), "ok"),
    (Append("t", Ints(&[7, -1])), "ok"),
    (Compact, "merged"),
];

// The version of a store, the steps before, a changed byte, what a stop leaves of its sector, and the steps and replies after it.
type Row = (FormatVersion, Steps, Change, CrashChoice, Steps);

const OF_VERSION_1: &[Row] = &[
    // Another value is read, and compaction moves the bytes as they are.
    (
        One,
        STORED,
        (3, 304, 5),
        CrashChoice::New,
        &[(Open, "ok"), (Read("t"), "\"a\":int32?: 2 -1 5")],
    ),
    (
        One,
        MERGED,
        (4, 304, 5),
        CrashChoice::New,
        &[
            (Open, "ok"),
            (Compact, "moved"),
            (Read("t"), "\"a\":int32?: 2 -1 7 -1"),
        ],
    ),
];

const CHANGED_FIRST: Steps = &[
    (Open, "ok"),
    (Tables, "t 3, u 26"),
    (Read("t"), "S15 SegmentDamaged 0"),
    (Export("t"), "S15 SegmentDamaged 0"),
    (Append("t", Ints(&[])), "S15 SegmentDamaged 0"),
    (Give("t", &[]), "S15 SegmentDamaged 0"),
    (Give("t", &[&[Text("x")]]), "S6 RowUnfit 0"),
    (Save("t", "w", (&[], &[], None)), "S15 SegmentDamaged 0"),
    (Compact, "S15 SegmentDamaged 0"),
    (Read("u"), U),
    (Import("t", Ints(&[4])), "ok"),
    (Read("t"), "\"a\":int32?: 4"),
];

const CHANGED_SECOND: Steps = &[
    (Open, "ok"),
    (Read("t"), "S15 SegmentDamaged 1"),
    (OpenExport("t"), "export 0"),
    (ExportNext(0), "152 bytes"),
    (ExportNext(0), "160 bytes"),
    (ExportNext(0), "S15 SegmentDamaged 1"),
    (ExportNext(0), "S15 SegmentDamaged 1"),
    (CloseExport(0), "ok"),
    (Compact, "S15 SegmentDamaged 1"),
];

const OF_VERSION_2: &[Row] = &[
    (Two, STORED, (3, 304, 5), CrashChoice::New, CHANGED_FIRST),
    // The digest is tested before the meaning of the bytes.
    (Two, STORED, (3, 0, 1), CrashChoice::New, CHANGED_FIRST),
    (Two, STORED, (2, 304, 5), CrashChoice::New, CHANGED_SECOND),
    // Bytes after those of the segment are ignored.
    (
        Two,
        STORED,
        (3, 511, 1),
        CrashChoice::New,
        &[(Open, "ok"), (Read("t"), "\"a\":int32?: 7 -1 5")],
    ),
    (
        Two,
        MERGED,
        (4, 304, 5),
        CrashChoice::New,
        &[(Open, "ok"), (Compact, "S15 SegmentDamaged 0")],
    ),
    // A sector that can't be read gives no bytes.
    (
        Two,
        STORED,
        (3, 304, 5),
        CrashChoice::Lost(u64::MAX),
        &[(Open, "ok"), (Read("t"), "S13 SegmentUnread 0")],
    ),
];

fn is_right(alloc: Global, row: &Row) -> Result<bool, NotMade> {
    let (version, before, change, choice, steps) = row;
    let mut slot = formatted(alloc, *version)?;
    if !is_played(alloc, &mut slot, before)? {
        return Err(NotMade);
    }
    let left = changed(&shut(&mut slot)?, &[*change])?.crash(*choice)?;
    is_played(alloc, &mut Some(StoreOrDevice::Shut(left)), steps)
}

fn wrong_row(alloc: Global, rows: &[Row]) -> Result<Option<usize>, NotMade> {
    for (place, row) in rows.iter().enumerate() {
        if !is_right(alloc, row)? {
            return Ok(Some(place));
        }
    }
    Ok(None)
}

#[test]
fn changed_segments_are_told_by_their_digests(rt: HostRuntime) {
    assert_no_row(&rt, wrong_row(rt.alloc(), OF_VERSION_1));
    assert_no_row(&rt, wrong_row(rt.alloc(), OF_VERSION_2));
}
