// A device over a file in memory, which fails, crashes, and is opened anew.
use crate::calls::{filling, write_row};
use sector_dev::{CrashChoice, DevError, FileDevice, ModelFile, SectorDevice};
use std::alloc::Global;

// What reads of the sectors 3, 4 and 5 must answer.
type Row = [Result<u8, DevError>; 3];

const LOST: Result<u8, DevError> = Err(DevError::Failed);

// What each choice of a crash leaves of sectors that held 1 and were to hold 2.
const LEFT: [(CrashChoice, Row); 4] = [
    (CrashChoice::Old, [Ok(1), Ok(1), Ok(1)]),
    (CrashChoice::New, [Ok(2), Ok(2), Ok(2)]),
    (CrashChoice::Bits(2), [Ok(1), Ok(2), Ok(1)]),
    (CrashChoice::Lost(5), [LOST, Ok(1), LOST]),
];

fn is_row(device: &mut FileDevice<ModelFile>, row: &Row) -> bool {
    let mut well = true;
    for (i, want) in row.iter().enumerate() {
        well = well && filling(device, 3 + i as u64) == Some(*want);
    }
    well
}

// Returns whether a device over what the crash leaves has these sectors.
fn is_left(alloc: Global, file: &ModelFile, choice: CrashChoice, row: &Row) -> bool {
    match file.crash(choice) {
        Ok(left) => is_row(&mut FileDevice::over(alloc, left), row),
        Err(_) => false,
    }
}

fn are_left(alloc: Global, file: &ModelFile) -> bool {
    let mut well = true;
    for (choice, row) in LEFT.iter() {
        well = well && is_left(alloc, file, *choice, row);
    }
    well
}

// Returns whether a synced row is read, and a sync after the next one fails and stops the device.
fn is_stopped(device: &mut FileDevice<ModelFile>) -> bool {
    write_row(device, 3, &[[1; 512]; 3]).is_ok()
        && device.sync().is_ok()
        && is_row(device, &[Ok(1), Ok(1), Ok(1)])
        && write_row(device, 3, &[[2; 512]; 3]).is_ok()
        && is_row(device, &[Ok(2), Ok(2), Ok(2)])
        && device.sync() == Err(DevError::Failed)
        && is_row(device, &[LOST, LOST, LOST])
        && device.failures() == 4
}

// Tests a failure of this write or sync of the file: the third is the write of the buffer, the fourth its sync.
fn survives(alloc: Global, fails_at: u64) -> bool {
    let Ok(mut file) = ModelFile::new(alloc, 64) else {
        return false;
    };
    file.fail_at(fails_at);
    let mut device = FileDevice::over(alloc, file);
    is_stopped(&mut device) && are_left(alloc, &device.into_file())
}

fn both_survive(alloc: Global) -> bool {
    survives(alloc, 3) && survives(alloc, 4)
}

// After a failed write or sync a crash leaves each sector of the file old, new or unreadable, as it is chosen.
#[test]
fn a_crash_after_a_failure_leaves_each_sector_as_chosen(rt: HostRuntime) {
    assert!(&rt; both_survive(rt.alloc()));
}
