// Stores of each version of the format: all calls but an upgrade keep the version, and in version 2 the catalogue has 32 bytes more for each
// segment.
use crate::inputs::{INT, Input};
use crate::made::{NotMade, assert_no_row};
use crate::playing::{Slot, is_played, shut};
use crate::shown::is_laid_out;
use crate::steps::{Step, Steps};
use Input::{First, Ints};
use Step::{Append, Compact, Create, Import, Open, Read, Upgrade};
use sector_dev::ModelDevice;
use std::alloc::Global;
use store::{FormatVersion, Store, StoreOrDevice};

const TWO: Input = Ints(&[7, -1]);

const UPGRADED: Steps = &[
    (Import("t", TWO), "ok"),
    (Upgrade, "ok"),
    (Upgrade, "already"),
    (Open, "ok"),
    (Read("t"), "\"a\":int32?: 7 -1"),
];

const APPENDED_BEHIND: Steps = &[
    (Import("t", TWO), "ok"),
    (Append("t", TWO), "ok"),
    (Upgrade, "ok"),
    (Append("t", TWO), "ok"),
    (Open, "ok"),
    (Read("t"), "\"a\":int32?: 7 -1 7 -1 7 -1"),
];

// The version of a store on 16 sectors, the steps, and its final layout.
type Row = (FormatVersion, Steps, &'static str);

const IMPORTED: Steps = &[
    (Import("t", TWO), "ok"),
    (Open, "ok"),
    (Read("t"), "\"a\":int32?: 7 -1"),
];

const APPENDED: Steps = &[
    (Import("t", TWO), "ok"),
    (Append("t", TWO), "ok"),
    (Open, "ok"),
    (Read("t"), "\"a\":int32?: 7 -1 7 -1"),
];

const COMPACTED: Steps = &[
    (Import("t", TWO), "ok"),
    (Append("t", TWO), "ok"),
    (Compact, "merged"),
    (Compact, "moved"),
    (Open, "ok"),
    (Read("t"), "\"a\":int32?: 7 -1 7 -1"),
];

// Three segments: the list has 430 bytes in version 1, and more than 512 in version 2.
const LONG: Steps = &[
    (Import("t", TWO), "ok"),
    (Import("u", First(100)), "ok"),
    (Append("t", Ints(&[5])), "ok"),
    (Open, "ok"),
    (Read("t"), "\"a\":int32?: 7 -1 5"),
];

const PAGED: Steps = &[
    (Create("t", INT), "ok"),
    (Create("u", INT), "ok"),
    (Create("v", INT), "ok"),
    (Create("w", INT), "ok"),
    (Append("u", TWO), "ok"),
    (Open, "ok"),
    (Read("u"), "\"a\":int32?: 7 -1"),
];

const LONGER: &[Row] = &[
    (
        FormatVersion::One,
        LONG,
        "epoch 4, 430 in 7, t: 3+1 4+1, u: 5+2",
    ),
    (
        FormatVersion::Two,
        LONG,
        "epoch 4, 62 in 9, t page 7 of 288: 3+1 4+1, u page 8 of 224: 5+2",
    ),
    (
        FormatVersion::One,
        PAGED,
        "epoch 6, 120 in 9, t page 2 of 160:, u page 8 of 192: 3+1, v page 5 of 160:, w page 6 of 160:",
    ),
    (
        FormatVersion::Two,
        PAGED,
        "epoch 6, 120 in 9, t page 2 of 160:, u page 8 of 224: 3+1, v page 5 of 160:, w page 6 of 160:",
    ),
];

const ROWS: &[Row] = &[
    (FormatVersion::One, IMPORTED, "epoch 2, 201 in 4, t: 3+1"),
    (FormatVersion::Two, IMPORTED, "epoch 2, 233 in 4, t: 3+1"),
    (
        FormatVersion::One,
        APPENDED,
        "epoch 3, 233 in 5, t: 3+1 2+1",
    ),
    (
        FormatVersion::Two,
        APPENDED,
        "epoch 3, 297 in 5, t: 3+1 2+1",
    ),
    (FormatVersion::One, COMPACTED, "epoch 5, 201 in 3, t: 2+1"),
    // No segment is moved.
    (FormatVersion::One, UPGRADED, "epoch 3, 233 in 2, t: 3+1"),
    (
        FormatVersion::One,
        APPENDED_BEHIND,
        "epoch 5, 361 in 6, t: 3+1 2+1 5+1",
    ),
    (FormatVersion::Two, COMPACTED, "epoch 5, 233 in 3, t: 2+1"),
];

/// Makes a store of this version on 16 sectors.
pub fn formatted(alloc: Global, version: FormatVersion) -> Result<Slot, NotMade> {
    match Store::format_version(alloc, ModelDevice::new(alloc, 16)?, version) {
        Ok(store) => Ok(Some(StoreOrDevice::Open(store))),
        Err(_) => Err(NotMade),
    }
}

fn is_right(alloc: Global, row: &Row) -> Result<bool, NotMade> {
    let (version, steps, layout) = *row;
    let mut slot = formatted(alloc, version)?;
    let done = is_played(alloc, &mut slot, steps)?;
    Ok(done && is_laid_out(alloc, &mut shut(&mut slot)?, layout)?)
}

fn wrong_row(alloc: Global, rows: &[Row]) -> Result<Option<usize>, NotMade> {
    for (place, row) in rows.iter().enumerate() {
        if !is_right(alloc, row)? {
            return Ok(Some(place));
        }
    }
    Ok(None)
}

#[test]
fn a_store_keeps_its_version_until_it_is_upgraded(rt: HostRuntime) {
    assert_no_row(&rt, wrong_row(rt.alloc(), ROWS));
    assert_no_row(&rt, wrong_row(rt.alloc(), LONGER));
}
