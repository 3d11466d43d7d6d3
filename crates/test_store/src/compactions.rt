// Steps of a compaction: what each does, and the layout of the store after it.
use crate::inputs::{INT, Input};
use crate::made::{NotMade, assert_no_row};
use crate::playing::{Slot, is_played, new_slot, shut};
use crate::shown::is_laid_out;
use crate::steps::{Step, Steps};
use Input::{First, Ints};
use Step::{Append, Create, Format, Import};
use std::alloc::Global;
use store::{Compaction, StoreOrDevice};

const TWO: Input = Ints(&[7, -1]);

// The number of sectors of a device, the steps before, what the steps of a compaction then do, and the layout of the store after them.
type Row = (u64, Steps, &'static [Compaction], &'static str);

const APPENDED: Steps = &[
    (Format, "ok"),
    (Import("t", TWO), "ok"),
    (Append("t", TWO), "ok"),
];

const ONE_BY_ONE: &[Row] = &[
    (16, APPENDED, &[], "epoch 3, 297 in 5, t: 3+1 2+1"),
    (
        16,
        APPENDED,
        &[Compaction::Merged],
        "epoch 4, 233 in 6, t: 4+1",
    ),
    (
        16,
        APPENDED,
        &[Compaction::Merged, Compaction::Moved],
        "epoch 5, 233 in 3, t: 2+1",
    ),
    (
        16,
        APPENDED,
        &[Compaction::Merged, Compaction::Moved, Compaction::Nothing],
        "epoch 5, 233 in 3, t: 2+1",
    ),
];

const NOTHING: &[Row] = &[
    (
        16,
        &[(Format, "ok")],
        &[Compaction::Nothing],
        "epoch 1, 4 in 2",
    ),
    // A segment with the maximum number of rows of a piece is not joined with another.
    (
        128,
        &[
            (Format, "ok"),
            (Create("t", INT), "ok"),
            (Append("t", First(4096)), "ok"),
            (Append("t", Ints(&[5])), "ok"),
        ],
        &[Compaction::Nothing],
        "epoch 4, 297 in 37, t: 4+33 3+1",
    ),
];

fn step_of(alloc: Global, slot: &mut Slot) -> Option<Compaction> {
    match slot {
        Some(StoreOrDevice::Open(store)) => store.compact_step(alloc).ok(),
        _ => None,
    }
}

fn does(alloc: Global, slot: &mut Slot, wanted: &[Compaction]) -> bool {
    for want in wanted {
        if step_of(alloc, slot) != Some(*want) {
            return false;
        }
    }
    true
}

fn is_right(alloc: Global, row: &Row) -> Result<bool, NotMade> {
    let (sectors, steps, wanted, layout) = *row;
    let mut slot = new_slot(alloc, sectors)?;
    let done = is_played(alloc, &mut slot, steps)? && does(alloc, &mut slot, wanted);
    Ok(done && is_laid_out(alloc, &mut shut(&mut slot)?, layout)?)
}

fn wrong_row(alloc: Global, rows: &[Row]) -> Result<Option<usize>, NotMade> {
    for (place, row) in rows.iter().enumerate() {
        if !is_right(alloc, row)? {
            return Ok(Some(place));
        }
    }
    Ok(None)
}

#[test]
fn a_compaction_goes_step_by_step(rt: HostRuntime) {
    assert_no_row(&rt, wrong_row(rt.alloc(), ONE_BY_ONE));
}

#[test]
fn what_cannot_be_one_piece_stays_as_it_is(rt: HostRuntime) {
    assert_no_row(&rt, wrong_row(rt.alloc(), NOTHING));
}
