// Tests of bitmaps (bitmap). What they hold is proved; here they are made.
use crate::made::{NotMade, is_one_well};
use bitmap::{and, count_set, pack};
use std::alloc::Global;

// Returns whether a mask of 130 bytes and one of 73 bits are made right.
fn are_made(alloc: Global) -> Result<bool, NotMade> {
    let mask = and(alloc, &[0xf3; 130], &[0x3f; 130], 1040)?;
    let packed = pack(alloc, &[true; 73])?;
    Ok(
        mask.as_slice() == [0x33; 130].as_slice()
            && packed.starts_with(&[0xff; 9])
            && packed.ends_with(&[1]),
    )
}

// tests/refused_memory_in_crates refuses each allocation in turn, so one of the two runs may get no memory.
#[test]
fn masks_are_made_also_without_memory(rt: HostRuntime) {
    assert!(rt; is_one_well(are_made(rt.alloc()), are_made(rt.alloc())));
}

// Returns whether bits are counted that begin within a byte: six of them, and all that are left.
fn are_counted() -> bool {
    count_set(&[0xff, 0x0f], 4, 6) == 6 && count_set(&[0xff, 0x0f], 4, 12) == 8
}

#[test]
fn set_bits_are_counted(rt: HostRuntime) {
    assert!(rt; are_counted());
}
