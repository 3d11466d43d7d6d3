// Stores with a sector that can't be read after a crash. Reports of changed bytes are tested on files (tests/stores).
use crate::calls::{read_sector, write_sector};
use crate::commits::run_script;
use crate::few::Few;
use commit::{Cause, OpenError, recover};
use sector_dev::{CrashChoice, DevError, ModelDevice};
use std::alloc::Global;

// Changes a byte of a sector.
fn change(device: &mut ModelDevice, n: u64) -> Result<(), DevError> {
    let mut sector = [0; 512];
    read_sector(device, n, &mut sector)?;
    sector[0] = 1;
    write_sector(device, n, &sector)
}

// Returns whether the store that a crash left is opened, or has this error. If its text was being written, the store is damaged only if its commit
// names this text.
fn is_told_after_stop(alloc: Global, device: &ModelDevice, want: Option<OpenError>) -> bool {
    match device.crash(CrashChoice::Lost(1)) {
        Ok(mut left) => recover::<Few, ModelDevice>(alloc, &mut left).err() == want,
        Err(_) => false,
    }
}

fn is_told_on(alloc: Global, device: &mut ModelDevice, n: u64, want: Option<OpenError>) -> bool {
    run_script(alloc, device) == 4
        && change(device, n).is_ok()
        && is_told_after_stop(alloc, device, want)
}

// Returns whether a store in which this sector can't be read is opened, or has this error.
fn is_told(alloc: Global, n: u64, want: Option<OpenError>) -> bool {
    match ModelDevice::new(alloc, 16) {
        Ok(mut device) => is_told_on(alloc, &mut device, n, want),
        Err(_) => false,
    }
}

// The commit of epoch 4 is in sector 0, that of epoch 3 in sector 1, and the text of epoch 4 in sector 5.
const UNREAD: &[(u64, Option<OpenError>)] = &[
    (0, None),
    (1, None),
    (2, None),
    (3, None),
    (5, Some(OpenError::Damaged(Cause::CatalogueUnreadable))),
];

fn wrongly_told(alloc: Global) -> Option<usize> {
    for (place, (n, want)) in UNREAD.iter().enumerate() {
        if !is_told(alloc, *n, *want) {
            return Some(place);
        }
    }
    None
}

#[test]
fn an_unreadable_sector_is_told_where_it_matters(rt: HostRuntime) {
    assert!(&rt; wrongly_told(rt.alloc()).is_none());
}
