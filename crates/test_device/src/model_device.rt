// A device in memory: calls, and what its sectors then read as. Which images a crash may leave, and which calls fail, is proved.
use crate::calls::{fill_sector, filling, write_row};
use CrashChoice::{Lost, New, Old};
use Step::{Crash, Fail, FailRead, FailRow, Fill, Flush, Leaves, Shows, Stop};
use sector_dev::{CrashChoice, DevError, ModelDevice, SectorDevice};
use std::alloc::Global;

// What each sector reads as; `None` if it is unreadable.
type Sectors = [Option<u8>; 8];

#[derive(Clone, Copy)]
enum Step {
    Fill(u64, u8),
    Flush,
    Crash(CrashChoice),
    // the next read is of this sector, and fails
    FailRead(u64),
    // the next write is of this sector, and fails
    Fail(u64, u8),
    // the second write of a row of three, from this sector on, fails
    FailRow(u64),
    // every call fails from now on
    Stop,
    Shows(&'static Sectors),
    // a crash would leave this
    Leaves(CrashChoice, &'static Sectors),
}

const LOST: Sectors = [
    Some(0),
    Some(0),
    Some(0),
    Some(0),
    Some(0),
    Some(0),
    None,
    Some(0),
];

const WRITTEN: Sectors = [
    Some(0),
    Some(0),
    Some(0),
    Some(0),
    Some(0),
    Some(0),
    Some(3),
    Some(0),
];

const FAILED: Sectors = [
    Some(0),
    Some(4),
    Some(0),
    Some(0),
    Some(0),
    Some(0),
    Some(3),
    Some(0),
];

const CUT_SHORT: Sectors = [
    Some(0),
    Some(4),
    Some(6),
    Some(7),
    Some(0),
    Some(0),
    Some(3),
    Some(0),
];

// Returns whether each sector reads as this, and no read is counted as a failure.
fn shows(device: &mut ModelDevice, want: &Sectors) -> bool {
    let failures = device.failures();
    let mut same = true;
    for (n, want) in want.iter().enumerate() {
        same = same && filling(device, n as u64) == Some(want.ok_or(DevError::Unreadable));
    }
    same && device.failures() == failures
}

// Returns whether each kind of call fails.
fn is_stopped(device: &mut ModelDevice) -> bool {
    device.stop_at(1);
    let failed = Err(DevError::Failed);
    fill_sector(device, 3, 5) == failed
        && device.sync() == failed
        && filling(device, 3) == Some(Err(DevError::Failed))
}

// Replaces a device by what a crash leaves, if there is memory for it.
fn is_crashed(device: &mut ModelDevice, choice: CrashChoice) -> bool {
    match device.crash(choice) {
        Ok(left) => {
            *device = left;
            true
        }
        Err(_) => false,
    }
}

// Returns whether a crash would leave this.
fn leaves(device: &ModelDevice, choice: CrashChoice, want: &Sectors) -> bool {
    match device.crash(choice) {
        Ok(mut left) => shows(&mut left, want),
        Err(_) => false,
    }
}

// Takes a step, and returns whether its result is right.
fn goes_well(device: &mut ModelDevice, step: Step) -> bool {
    let well = match step {
        Fill(n, byte) => fill_sector(device, n, byte).is_ok(),
        Flush => device.sync().is_ok(),
        Crash(choice) => is_crashed(device, choice),
        FailRead(n) => {
            device.fail_read_at(1);
            filling(device, n) == Some(Err(DevError::Failed))
        }
        Fail(n, byte) => {
            device.fail_at(1);
            fill_sector(device, n, byte) == Err(DevError::Failed)
        }
        FailRow(start) => {
            device.fail_at(2);
            write_row(device, start, &[[6; 512], [7; 512], [8; 512]]) == Err(DevError::Failed)
        }
        Stop => is_stopped(device),
        Shows(want) => shows(device, want),
        Leaves(choice, want) => leaves(device, choice, want),
    };
    well && device.is_recorded()
}

const STEPS: &[Step] = &[
    Fill(3, 1),
    Fill(6, 2),
    // sector 6 is the second one that is not synced
    Crash(Lost(2)),
    Shows(&LOST),
    // a sync without a write changes nothing, and a read that is scheduled to fail fails
    Flush,
    FailRead(6),
    Leaves(New, &LOST),
    // a write makes it readable, and a crash may leave it unreadable again
    Fill(6, 3),
    Shows(&WRITTEN),
    Leaves(Lost(0), &LOST),
    Leaves(New, &WRITTEN),
    Flush,
    Leaves(Lost(u64::MAX), &WRITTEN),
    // a failed write is read, and a crash may leave it
    Fail(1, 4),
    Shows(&FAILED),
    Leaves(Old, &WRITTEN),
    Leaves(New, &FAILED),
    // the write that fails is the last one of its row
    FailRow(2),
    Shows(&CUT_SHORT),
    Leaves(Old, &WRITTEN),
    Leaves(New, &CUT_SHORT),
    Stop,
    Leaves(Old, &WRITTEN),
];

fn are_taken_on(device: &mut ModelDevice) -> bool {
    let mut well = true;
    for step in STEPS {
        well = well && goes_well(device, *step);
    }
    // the read, the write and the row that were scheduled to fail, and three calls after the stop
    well && device.failures() == 6
}

fn are_taken(alloc: Global) -> bool {
    match ModelDevice::new(alloc, 8) {
        Ok(mut device) => are_taken_on(&mut device),
        Err(_) => false,
    }
}

// tests/refused_memory_in_crates refuses at most one allocation, so at least one of two runs does not lack memory.
fn are_once_taken(alloc: Global) -> bool {
    are_taken(alloc) || are_taken(alloc)
}

#[test]
fn sectors_read_as_they_were_written_also_without_memory(rt: HostRuntime) {
    assert!(&rt; are_once_taken(rt.alloc()));
}

// Sectors that were never written take no memory.
fn is_made_at_once(alloc: Global) -> bool {
    match ModelDevice::new(alloc, u64::MAX) {
        Ok(mut device) => filling(&mut device, u64::MAX - 1) == Some(Ok(0)),
        Err(_) => false,
    }
}

#[test]
fn a_great_device_is_made_at_once(rt: HostRuntime) {
    assert!(&rt; is_made_at_once(rt.alloc()));
}
