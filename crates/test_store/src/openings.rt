// Devices that are formatted or opened: of other sizes, with a store, with changed bytes, and with sectors that can't be read.
use crate::inputs::{Cell, INT, Input};
use crate::made::{NotMade, assert_no_row};
use crate::playing::{Slot, VERSIONS, Way, is_played, new_slot, play, shut};
use crate::shown::contents;
use crate::steps::{Step, Steps};
use Cell::Text;
use Input::{Changed, Column, First, Ints};
use Step::{Append, Create, Export, Format, Give, Import, Open, Read, Remove, Save, Tables};
use sector_dev::{CrashChoice, ModelDevice, SectorDevice};
use std::alloc::Global;
use store::StoreOrDevice;

// The sizes of devices in sectors.
const SIZES: &[u64] = &[0, 15, 16, 4_194_304, 4_194_305];

const OF_THE_SMALLEST: Steps = &[(Open, "C1 NotAStore"), (Format, "ok"), (Open, "ok")];

const OF_THE_LARGEST: Steps = &[
    (Open, "C1 NotAStore"),
    (Format, "ok"),
    (Import("t", Ints(&[7])), "ok"),
];

const OF_ANOTHER_SIZE: Steps = &[
    (Format, "C3 Damaged DeviceSize"),
    (Open, "C3 Damaged DeviceSize"),
];

// Returns the steps on a device of this size, with their replies.
fn steps_of_size(sectors: u64) -> Steps {
    match sectors {
        16 => OF_THE_SMALLEST,
        4_194_304 => OF_THE_LARGEST,
        _ => OF_ANOTHER_SIZE,
    }
}

fn wrong_size(alloc: Global) -> Result<Option<usize>, NotMade> {
    for (place, sectors) in SIZES.iter().enumerate() {
        if !is_played(
            alloc,
            &mut new_slot(alloc, *sectors)?,
            steps_of_size(*sectors),
        )? {
            return Ok(Some(place));
        }
    }
    Ok(None)
}

#[test]
fn a_store_has_16_to_4194304_sectors(rt: HostRuntime) {
    assert_no_row(&rt, wrong_size(rt.alloc()));
}

// A store with two readable commits: epoch 2 in sector 0 has its segment in sector 3 and its catalogue in 4, and epoch 3 in sector 1 has its
// segment in 2 and its catalogue, of 201 bytes, in 5.
const TWICE: Steps = &[
    (Format, "ok"),
    (Import("t", Ints(&[7, -1])), "ok"),
    (Import("t", Ints(&[1, 2, 3])), "ok"),
];

const OLDER: &str = "t: 7 -1";

const NEWER: &str = "t: 1 2 3";

fn played(alloc: Global, slot: &mut Slot, steps: Steps, way: Way) -> Result<ModelDevice, NotMade> {
    if play(alloc, slot, steps, way)?.is_some() {
        return Err(NotMade);
    }
    shut(slot)
}

/// Returns the device of 16 sectors after these steps.
pub fn device_after(alloc: Global, steps: Steps, way: Way) -> Result<ModelDevice, NotMade> {
    played(alloc, &mut new_slot(alloc, 16)?, steps, way)
}

/// A byte of a sector: the sector's number, the byte's place, and the bits that are flipped.
pub type Change = (u64, usize, u8);

fn change(device: &mut ModelDevice, (n, at, bits): Change) -> Result<(), NotMade> {
    let mut sector = [0; 512];
    if n >= device.sectors() || device.read(n, &mut sector).is_err() || at >= 512 {
        return Err(NotMade);
    }
    sector[at] ^= bits;
    device.write(n, &sector).map_err(|_| NotMade)
}

fn change_all(device: &mut ModelDevice, changes: &[Change]) -> Result<(), NotMade> {
    for one in changes {
        change(device, *one)?;
    }
    Ok(())
}

/// Returns the device with these changes.
pub fn changed(device: &ModelDevice, changes: &[Change]) -> Result<ModelDevice, NotMade> {
    let mut left = device.crash(CrashChoice::New)?;
    change_all(&mut left, changes)?;
    Ok(left)
}

// The changes, and the steps after them with their replies. The rows are split into parts (see `commands`).
type Row = (&'static [Change], Steps);

// In a commit the epoch is at byte 8, the catalogue's first sector at 16 and the number of sectors of the device at 40; in the text the first
// sector of the segment is at 169.
const EITHER_EPOCH: &[Row] = &[
    (
        &[(3, 0, 1)],
        &[(Open, "ok"), (Read("t"), "\"a\":int32?: 1 2 3")],
    ),
    (
        &[(1, 0, 1)],
        &[(Open, "ok"), (Read("t"), "\"a\":int32?: 7 -1")],
    ),
];

const CHANGED_SEGMENT: &[Row] = &[
    // The store is open, but what is in the segment is not the table.
    (
        &[(2, 0, 1)],
        &[
            (Open, "ok"),
            (Tables, "t 3"),
            (Read("t"), "S13 SegmentUnread 0"),
            (Export("t"), "S13 SegmentUnread 0"),
            (Append("t", Ints(&[])), "S13 SegmentUnread 0"),
            (Append("t", Changed(&[(120, 98)])), "S4 SchemaMismatch"),
            (Give("t", &[]), "S13 SegmentUnread 0"),
            (Give("t", &[&[Text("x")]]), "S6 RowUnfit 0"),
            (Save("t", "w", (&[], &[], None)), "S13 SegmentUnread 0"),
            (Save("t", "a b", (&[], &[], None)), "S3 BadName"),
            (
                Save("t", "w", (&["b"], &[], None)),
                "S12 Query Q1 UnknownColumn",
            ),
            (Tables, "t 3"),
        ],
    ),
];

const DAMAGED_SEGMENT: &[Row] = &[
    // The same in version 2, where the segment has a digest.
    (
        &[(2, 0, 1)],
        &[
            (Open, "ok"),
            (Tables, "t 3"),
            (Read("t"), "S15 SegmentDamaged 0"),
            (Export("t"), "S15 SegmentDamaged 0"),
            (Append("t", Ints(&[])), "S15 SegmentDamaged 0"),
            (Append("t", Changed(&[(120, 98)])), "S4 SchemaMismatch"),
            (Give("t", &[]), "S15 SegmentDamaged 0"),
            (Save("t", "w", (&[], &[], None)), "S15 SegmentDamaged 0"),
            (Tables, "t 3"),
        ],
    ),
];

const CHANGED_COMMITS: &[Row] = &[
    (&[(0, 0, 1)], &[(Open, "ok"), (Tables, "t 3")]),
    (
        &[(0, 0, 1), (1, 0, 1)],
        &[
            (Open, "C1 NotAStore"),
            (Tables, "S10 Halted"),
            (Format, "ok"),
            (Tables, ""),
        ],
    ),
    (
        &[(1, 40, 1), (1, 16, 4)],
        &[
            (Open, "C3 Damaged DeviceSize"),
            (Format, "C2 AlreadyAStore"),
        ],
    ),
];

const CHANGED_CATALOGUE: &[Row] = &[
    (
        &[(1, 16, 4), (5, 0, 1)],
        &[
            (Open, "C3 Damaged CatalogueRange"),
            (Tables, "S10 Halted"),
            (Format, "C2 AlreadyAStore"),
        ],
    ),
    (
        &[(5, 0, 2), (5, 169, 3)],
        &[(Open, "C3 Damaged CatalogueText")],
    ),
    (&[(5, 169, 3)], &[(Open, "C3 Damaged RunRange")]),
    (&[(5, 170, 1)], &[(Open, "C3 Damaged RunRange")]),
    (&[(5, 169, 7)], &[(Open, "C3 Damaged RunOverlap")]),
];

fn changed_segment(made: Way) -> &'static [Row] {
    match made {
        Way::VersionOne => CHANGED_SEGMENT,
        _ => DAMAGED_SEGMENT,
    }
}

fn causes(part: usize, made: Way) -> Option<&'static [Row]> {
    Some(match part {
        0 => EITHER_EPOCH,
        1 => changed_segment(made),
        2 => CHANGED_COMMITS,
        3 => CHANGED_CATALOGUE,
        _ => return None,
    })
}

// The table t has two segments of a sector each, in 3 and 2, and u has one of two sectors, in 6 and 7: 312 bytes and 8 for each of 26 values. Epoch
// 5 in sector 1 has three pages, and its root in 10; epoch 4 in sector 0 is from before v was made. In version 1 the pages are in 5, 8 and 9, and
// epoch 4 has a list in 4. In version 2 epoch 4 has the pages of t and u too, in 4 and 8, and its root in 9, and the page of v is in 5.
const STORED: Steps = &[
    (Format, "ok"),
    (Import("t", Ints(&[7, -1])), "ok"),
    (Append("t", Ints(&[5])), "ok"),
    (Import("u", Column("b:int64", &[1; 26])), "ok"),
    (Create("v", INT), "ok"),
];

/// Returns the steps that make the tables t, u and v.
pub fn stored() -> Steps {
    STORED
}

/// The table t of these.
pub const T: &str = "\"a\":int32?: 7 -1 5";

/// The table u of these.
pub const U: &str = "\"b\":int64: 1 1 1 1 1 1 1 1 1 1 1 1 1 1 1 1 1 1 1 1 1 1 1 1 1 1";

const WHOLE: Steps = &[
    (Open, "ok"),
    (Tables, "t 3, u 26, v 0"),
    (Read("t"), T),
    (Read("u"), U),
];

const OF_EPOCH_4: Steps = &[(Open, "ok"), (Tables, "t 3, u 26"), (Read("t"), T)];

const UNREADABLE: Steps = &[
    (Open, "C3 Damaged CatalogueUnreadable"),
    (Tables, "S10 Halted"),
    (Format, "C2 AlreadyAStore"),
];

const WITHOUT_U: Steps = &[
    (Open, "ok"),
    (Read("u"), "S13 SegmentUnread 0"),
    (Export("u"), "S13 SegmentUnread 0"),
    (Read("t"), T),
    (Remove("u"), "ok"),
    (Tables, "t 3, v 0"),
];

// The sectors that were written but not synced when a stop came, so that they can't be read, and the steps after it with their replies.
const LOST_COMMITS: &[Row] = &[
    (&[(0, 0, 1)], WHOLE),
    (&[(1, 0, 1)], OF_EPOCH_4),
    (
        &[(0, 0, 1), (1, 0, 1)],
        &[(Open, "C1 NotAStore"), (Format, "ok"), (Tables, "")],
    ),
];

const LOST_LIST: &[Row] = &[
    (&[(4, 0, 1)], WHOLE),
    (&[(8, 0, 1)], UNREADABLE),
    (&[(9, 0, 1)], UNREADABLE),
    (&[(1, 0, 1), (4, 0, 1)], UNREADABLE),
];

const LOST_PAGES: &[Row] = &[
    (&[(9, 0, 1)], WHOLE),
    (&[(4, 0, 1)], UNREADABLE),
    (&[(5, 0, 1)], UNREADABLE),
    (&[(10, 0, 1)], UNREADABLE),
    (&[(1, 0, 1), (5, 0, 1)], OF_EPOCH_4),
    (&[(1, 0, 1), (9, 0, 1)], UNREADABLE),
    (&[(1, 0, 1), (8, 0, 1)], UNREADABLE),
];

fn lost_catalogue(made: Way) -> &'static [Row] {
    match made {
        Way::VersionOne => LOST_LIST,
        _ => LOST_PAGES,
    }
}

const LOST_SEGMENT: &[Row] = &[
    // The other tables can still be read.
    (
        &[(3, 0, 1)],
        &[
            (Open, "ok"),
            (Tables, "t 3, u 26, v 0"),
            (Read("t"), "S13 SegmentUnread 0"),
            (Export("t"), "S13 SegmentUnread 0"),
            (Append("t", Ints(&[])), "S13 SegmentUnread 0"),
            (Give("t", &[]), "S13 SegmentUnread 0"),
            (Save("t", "w", (&[], &[], None)), "S13 SegmentUnread 0"),
            (Read("u"), U),
            (Read("v"), "\"a\":int32?:"),
            (Append("v", Ints(&[4])), "ok"),
            (Tables, "t 3, u 26, v 1"),
        ],
    ),
];

const LOST_SECOND_SEGMENT: &[Row] = &[
    // A table replaces one that can't be read.
    (
        &[(2, 0, 1)],
        &[
            (Open, "ok"),
            (Read("t"), "S13 SegmentUnread 1"),
            (Export("t"), "S13 SegmentUnread 1"),
            (Export("v"), "stream of \"a\":int32?:"),
            (Import("t", Ints(&[4])), "ok"),
            (Read("t"), "\"a\":int32?: 4"),
            (Read("u"), U),
        ],
    ),
    (
        &[(2, 0, 1), (3, 0, 1)],
        &[(Open, "ok"), (Read("t"), "S13 SegmentUnread 0")],
    ),
];

const LOST_U: &[Row] = &[(&[(6, 0, 1)], WITHOUT_U), (&[(7, 0, 1)], WITHOUT_U)];

fn lost(part: usize, made: Way) -> Option<&'static [Row]> {
    Some(match part {
        0 => LOST_COMMITS,
        1 => lost_catalogue(made),
        2 => LOST_SEGMENT,
        3 => LOST_SECOND_SEGMENT,
        4 => LOST_U,
        _ => return None,
    })
}

fn is_told(alloc: Global, device: ModelDevice, steps: Steps) -> Result<bool, NotMade> {
    is_played(alloc, &mut Some(StoreOrDevice::Shut(device)), steps)
}

// Returns what a stop leaves of a device with these changes.
fn stopped(
    device: &ModelDevice,
    changes: &[Change],
    choice: CrashChoice,
) -> Result<ModelDevice, NotMade> {
    Ok(changed(device, changes)?.crash(choice)?)
}

// Why a store can't be used whole.
#[derive(Clone, Copy)]
enum Cause {
    // a changed byte
    Changed,
    // a sector that can't be read
    Lost,
}

fn rows_of(cause: Cause, part: usize, made: Way) -> Option<&'static [Row]> {
    match cause {
        Cause::Changed => causes(part, made),
        Cause::Lost => lost(part, made),
    }
}

// Returns the steps before.
fn steps_before(cause: Cause) -> Steps {
    match cause {
        Cause::Changed => TWICE,
        Cause::Lost => stored(),
    }
}

// Returns what a stop leaves of the sectors that were changed but not synced.
fn choice_of(cause: Cause) -> CrashChoice {
    match cause {
        Cause::Changed => CrashChoice::New,
        Cause::Lost => CrashChoice::Lost(u64::MAX),
    }
}

fn wrong_row(
    alloc: Global,
    device: &ModelDevice,
    choice: CrashChoice,
    rows: &[Row],
) -> Result<Option<usize>, NotMade> {
    for (place, (changes, steps)) in rows.iter().enumerate() {
        if !is_told(alloc, stopped(device, changes, choice)?, steps)? {
            return Ok(Some(place));
        }
    }
    Ok(None)
}

// Returns the place of the first wrong row, counting a hundred for each part of the table.
fn wrong_part(
    alloc: Global,
    device: &ModelDevice,
    cause: Cause,
    made: Way,
) -> Result<Option<usize>, NotMade> {
    for part in 0..usize::MAX {
        let Some(rows) = rows_of(cause, part, made) else {
            return Ok(None);
        };
        if let Some(place) = wrong_row(alloc, device, choice_of(cause), rows)? {
            return Ok(Some(part.wrapping_mul(100).wrapping_add(place)));
        }
    }
    Ok(None)
}

fn wrongly_told(alloc: Global, cause: Cause, made: Way) -> Result<Option<usize>, NotMade> {
    let device = device_after(alloc, steps_before(cause), made)?;
    wrong_part(alloc, &device, cause, made)
}

// Returns the place of the first wrong row, plus ten thousand in version 1.
fn wrong_in_each(alloc: Global, cause: Cause) -> Result<Option<usize>, NotMade> {
    for (number, made) in VERSIONS.iter().enumerate() {
        if let Some(place) = wrongly_told(alloc, cause, *made)? {
            return Ok(Some(number.wrapping_mul(10_000).wrapping_add(place)));
        }
    }
    Ok(None)
}

#[test]
fn the_first_cause_is_told(rt: HostRuntime) {
    assert_no_row(&rt, wrong_in_each(rt.alloc(), Cause::Changed));
    assert_no_row(&rt, wrong_in_each(rt.alloc(), Cause::Lost));
}

// The only byte whose change gives another table: the name `t`.
const NAME: (u64, usize) = (5, 8);

// Returns whether these are the tables of an epoch.
fn may_show(text: &str, (n, at, _): Change) -> bool {
    text == NEWER
        || text == "damaged"
        || text == OLDER && n < 2
        || (n, at) == NAME && text.as_bytes().ends_with(b": 1 2 3")
}

// Returns whether a device with one changed byte has the tables of an epoch. A segment may then not hold the rows that the catalogue says.
fn is_no_other(alloc: Global, device: &ModelDevice, one: Change) -> Result<bool, NotMade> {
    match contents(alloc, &mut changed(device, &[one])?) {
        Ok(text) => Ok(may_show(text.as_str(), one)),
        Err(NotMade) => Ok(one.0 == 5),
    }
}

const BITS: &[u8] = &[1, 2, 4, 8, 16, 32, 64, 128];

// Returns whether each bit of a byte may be changed.
fn is_sound(alloc: Global, device: &ModelDevice, n: u64, at: usize) -> Result<bool, NotMade> {
    let mut well = true;
    for bit in BITS {
        well = well && is_no_other(alloc, device, (n, at, *bit))?;
    }
    Ok(well)
}

// Returns the first byte of a sector in which a changed bit shows another table.
fn wrong_byte(alloc: Global, device: &ModelDevice, n: u64) -> Result<Option<usize>, NotMade> {
    for at in 0..512 {
        if !is_sound(alloc, device, n, at)? {
            return Ok(Some(at));
        }
    }
    Ok(None)
}

fn wrong_byte_of(alloc: Global, n: u64) -> Result<Option<usize>, NotMade> {
    let device = device_after(alloc, steps_before(Cause::Changed), Way::EachCall)?;
    wrong_byte(alloc, &device, n)
}

// Tests the commits, and the catalogue of the newer one.
#[test]
fn a_changed_byte_shows_no_other_table(rt: HostRuntime) {
    assert_no_row(&rt, wrong_byte_of(rt.alloc(), 0));
    assert_no_row(&rt, wrong_byte_of(rt.alloc(), 1));
    assert_no_row(&rt, wrong_byte_of(rt.alloc(), 5));
}

// The bytes of an epoch: all ones, and all ones but the lowest bit.
const LAST: &[Change] = &[
    (1, 8, 0xfe),
    (1, 9, 0xff),
    (1, 10, 0xff),
    (1, 11, 0xff),
    (1, 12, 0xff),
    (1, 13, 0xff),
    (1, 14, 0xff),
    (1, 15, 0xff),
];

const LAST_BUT_ONE: &[Change] = &[
    (0, 8, 0xfc),
    (0, 9, 0xff),
    (0, 10, 0xff),
    (0, 11, 0xff),
    (0, 12, 0xff),
    (0, 13, 0xff),
    (0, 14, 0xff),
    (0, 15, 0xff),
];

// A store of epoch 1 or 2, the changes in its commit, and the steps with their replies: once the greatest epoch rules, nothing more is published.
// That is tested after the tables, and before room.
const EPOCHS: &[(Steps, &[Change], Steps)] = &[
    (
        &[(Format, "ok")],
        LAST,
        &[
            (Open, "ok"),
            (Create("a b", INT), "S3 BadName"),
            (Import("t", Input::Front(0)), "S5 Import F9 NoSchema"),
            (Import("t", First(2000)), "S7 TooMany Epochs"),
            (Create("t", INT), "S7 TooMany Epochs"),
            (Remove("t"), "S1 NoTable"),
            (Tables, ""),
        ],
    ),
    (
        &[(Format, "ok"), (Create("t", INT), "ok")],
        LAST_BUT_ONE,
        &[
            (Open, "ok"),
            (Create("u", INT), "ok"),
            (Remove("t"), "S7 TooMany Epochs"),
            (Tables, "t 0, u 0"),
            (Open, "ok"),
            (Tables, "t 0, u 0"),
        ],
    ),
];

fn is_last(
    alloc: Global,
    before: Steps,
    changes: &[Change],
    steps: Steps,
) -> Result<bool, NotMade> {
    let device = device_after(alloc, before, Way::EachCall)?;
    is_told(alloc, changed(&device, changes)?, steps)
}

fn wrong_epoch(alloc: Global) -> Result<Option<usize>, NotMade> {
    for (place, (before, changes, steps)) in EPOCHS.iter().enumerate() {
        if !is_last(alloc, before, changes, steps)? {
            return Ok(Some(place));
        }
    }
    Ok(None)
}

#[test]
fn the_greatest_epoch_is_the_last(rt: HostRuntime) {
    assert_no_row(&rt, wrong_epoch(rt.alloc()));
}
