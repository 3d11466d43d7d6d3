// Worked rows of the free map, and one with many runs.
use segments::{EnterError, FreeMap, Run, SearchCursor, TakeError, Usage};
use std::alloc::Global;

// A call of a free map and its result. A run is given by its start and its count.
#[derive(Clone, Copy)]
enum Step {
    // a device of 16 sectors after formatting: the catalogue is in sector 2
    Format,
    Find(u64, Option<(u64, u64)>),
    // `None`: there is no room
    Take(u64, Option<(u64, u64)>),
    Give(u64, u64),
    GiveBoth((u64, u64), (u64, u64)),
    Occupy(u64, u64, Option<EnterError>),
    Pin(u64, u64, Option<EnterError>),
    Unpin(u64, u64),
    // whether a run is taken, and how often it is pinned
    Used(u64, u64, bool, u32),
}

use EnterError::{Overlap, Range};
use Step::{Find, Format, Give, GiveBoth, Occupy, Pin, Take, Unpin, Used};

fn is_formatted(alloc: Global, map: &mut FreeMap) -> bool {
    *map = FreeMap::new(alloc, 16);
    map.occupy(Run { start: 2, count: 1 }).is_ok()
}

fn run_of(run: Option<(u64, u64)>) -> Option<Run> {
    let (start, count) = run?;
    Some(Run { start, count })
}

// Makes the call, and returns whether its result is right.
fn answers(alloc: Global, map: &mut FreeMap, step: Step) -> bool {
    match step {
        Format => is_formatted(alloc, map),
        Find(count, want) => map.find(count.max(1)) == run_of(want),
        Take(count, want) => {
            let count = count.max(1);
            map.take(count) == run_of(want).ok_or(TakeError::NoRoom(count))
        }
        Give(start, count) => {
            map.give(Run { start, count });
            true
        }
        GiveBoth(one, other) => {
            let (start, count) = one;
            let one = Run { start, count };
            let (start, count) = other;
            let other = Run { start, count };
            map.give_each(&[one, other]);
            true
        }
        Occupy(start, count, want) => map.occupy(Run { start, count }).err() == want,
        Pin(start, count, want) => map.pin(Run { start, count }).err() == want,
        Unpin(start, count) => {
            map.unpin(Run { start, count });
            true
        }
        Used(start, count, taken, pins) => {
            map.usage(Run { start, count }) == Usage { taken, pins }
        }
    }
}

// Catalogues alternate.
const CATALOGUES_ALTERNATE: [Step; 6] = [
    // the first table
    Take(1, Some((3, 1))),
    Give(2, 1),
    // the second
    Take(1, Some((2, 1))),
    Give(3, 1),
    Find(1, Some((3, 1))),
    Find(13, Some((3, 13))),
];

// An import fits or not.
const IMPORT_FITS_OR_NOT: [Step; 8] = [
    // 6,144 bytes, and the catalogue
    Find(12, Some((3, 12))),
    Take(12, Some((3, 12))),
    Take(1, Some((15, 1))),
    Take(1, None),
    // 6,152 bytes, and no room for the catalogue
    Format,
    Take(13, Some((3, 13))),
    Take(1, None),
    Take(14, None),
];

// A table is imported again, and dropped.
const TABLE_IS_IMPORTED_AGAIN_AND_DROPPED: [Step; 8] = [
    // segment and catalogue
    Take(1, Some((3, 1))),
    Take(1, Some((4, 1))),
    Give(2, 1),
    // the same again
    Take(1, Some((2, 1))),
    Take(1, Some((5, 1))),
    Give(3, 1),
    Give(4, 1),
    // the table is dropped
    Take(1, Some((3, 1))),
];

// A snapshot keeps its segment.
const SNAPSHOT_KEEPS_ITS_SEGMENT: [Step; 11] = [
    // 562 values
    Take(5, Some((3, 5))),
    Take(1, Some((8, 1))),
    Give(2, 1),
    Pin(3, 5, None),
    // the table is dropped
    Take(1, Some((2, 1))),
    Give(3, 5),
    Give(8, 1),
    // 1,074 values
    Take(9, None),
    Unpin(3, 5),
    Take(9, Some((3, 9))),
    Take(1, Some((12, 1))),
];

// Runs are tested when they are entered.
const ENTERED_RUNS_ARE_TESTED: [Step; 25] = [
    Occupy(1, 1, Some(Range)),
    Occupy(3, 0, Some(Range)),
    Occupy(15, 2, Some(Range)),
    Occupy(3, u64::MAX, Some(Range)),
    Occupy(2, 1, Some(Overlap)),
    Occupy(2, 3, Some(Overlap)),
    Occupy(5, 4, None),
    Occupy(2, 4, Some(Overlap)),
    Pin(2, 2, Some(Overlap)),
    Occupy(3, 4, Some(Overlap)),
    Pin(3, 2, None),
    Occupy(4, 4, Some(Overlap)),
    Pin(4, 2, Some(Overlap)),
    Occupy(5, 4, Some(Overlap)),
    Pin(5, 2, Some(Overlap)),
    Occupy(6, 4, Some(Overlap)),
    Pin(6, 2, Some(Overlap)),
    Occupy(7, 4, Some(Overlap)),
    Pin(7, 2, Some(Overlap)),
    Occupy(8, 4, Some(Overlap)),
    Pin(8, 2, Some(Overlap)),
    Unpin(3, 2),
    Occupy(3, 2, None),
    Occupy(9, 7, None),
    Find(1, None),
];

// Runs are taken before others, and each call is made with entries on both sides of the last one that was entered.
const RUNS_ARE_TAKEN_IN_FRONT_OF_OTHERS: [Step; 39] = [
    Occupy(10, 1, None),
    Occupy(12, 1, None),
    Occupy(14, 1, None),
    Take(2, Some((3, 2))),
    Used(2, 1, true, 0),
    Used(3, 2, true, 0),
    Used(10, 1, true, 0),
    Used(11, 1, false, 0),
    Used(14, 1, true, 0),
    Used(14, 2, false, 0),
    Find(1, Some((5, 1))),
    Find(5, Some((5, 5))),
    Find(6, None),
    Pin(12, 1, None),
    Used(12, 1, true, 1),
    Take(2, Some((5, 2))),
    // a free run is pinned
    Pin(11, 1, None),
    Used(11, 1, false, 1),
    Take(3, Some((7, 3))),
    Take(1, Some((13, 1))),
    Take(1, Some((15, 1))),
    Take(1, None),
    Give(7, 3),
    Take(1, Some((7, 1))),
    GiveBoth((14, 1), (12, 1)),
    Used(12, 1, false, 1),
    Used(14, 1, false, 0),
    Take(1, Some((8, 1))),
    Unpin(12, 1),
    Unpin(11, 1),
    Used(11, 1, false, 0),
    Used(12, 1, false, 0),
    Find(2, Some((11, 2))),
    Find(3, None),
    Take(1, Some((9, 1))),
    Occupy(13, 2, Some(Overlap)),
    Occupy(11, 2, None),
    Occupy(14, 1, None),
    Find(1, None),
];

// Executes steps on a formatted device.
fn are_steps_answered(alloc: Global, steps: &[Step]) -> bool {
    let mut map = FreeMap::new(alloc, 16);
    let mut well = answers(alloc, &mut map, Format);
    for step in steps {
        well = well && answers(alloc, &mut map, *step);
    }
    well
}

const ROWS: &[&[Step]] = &[
    &CATALOGUES_ALTERNATE,
    &IMPORT_FITS_OR_NOT,
    &TABLE_IS_IMPORTED_AGAIN_AND_DROPPED,
    &SNAPSHOT_KEEPS_ITS_SEGMENT,
    &ENTERED_RUNS_ARE_TESTED,
    &RUNS_ARE_TAKEN_IN_FRONT_OF_OTHERS,
];

fn are_answered(alloc: Global) -> bool {
    let mut well = true;
    for steps in ROWS {
        well = well && are_steps_answered(alloc, steps);
    }
    well
}

// tests/refused_memory_in_crates refuses at most one allocation, so at least one of two runs does not lack memory.
fn are_once_answered(alloc: Global) -> bool {
    are_answered(alloc) || are_answered(alloc)
}

#[test]
fn worked_rows_are_answered_also_without_memory(rt: HostRuntime) {
    assert!(rt; are_once_answered(rt.alloc()));
}

// A free run is searched for after the last one, unless it may fit into an earlier gap. The sectors 3 to 4, 6 to 8 and 11 to 15 are free.
fn takes_onward(map: &mut FreeMap) -> bool {
    let mut searched = SearchCursor::nothing();
    let behind_two = map.take_onward(3, &mut searched) == Ok(Run { start: 6, count: 3 });
    let behind_three = map.take_onward(3, &mut searched)
        == Ok(Run {
            start: 11,
            count: 3,
        });
    let from_the_front = map.take_onward(2, &mut searched) == Ok(Run { start: 3, count: 2 });
    let last = map.take_onward(2, &mut searched)
        == Ok(Run {
            start: 14,
            count: 2,
        });
    let full = map.take_onward(1, &mut searched) == Err(TakeError::NoRoom(1));
    behind_two && behind_three && from_the_front && last && full
}

const TAKEN: &[Step] = &[Occupy(2, 1, None), Occupy(5, 1, None), Occupy(9, 2, None)];

fn are_taken_onward(alloc: Global) -> bool {
    let mut map = FreeMap::new(alloc, 16);
    let mut occupied = true;
    for step in TAKEN {
        occupied = occupied && answers(alloc, &mut map, *step);
    }
    occupied && takes_onward(&mut map)
}

#[test]
fn runs_are_taken_onward(rt: HostRuntime) {
    assert!(&rt; are_taken_onward(rt.alloc()));
}

// Returns whether every second sector can be occupied, and runs are then found. Each find must pass the runs only once: in quadratic time, this would
// take hours.
fn finds_among_65536(map: &mut FreeMap) -> bool {
    let mut well = true;
    for i in 0..65_536 {
        let start = 2 + 2 * i;
        well = well && map.occupy(Run { start, count: 1 }).is_ok();
    }
    for count in 2..1000 {
        let start = 131_073;
        well = well && map.find(count) == Some(Run { start, count });
    }
    well
}

// Returns whether a run can be taken before each of those but the first. The other runs must not be moved each time.
fn takes_among_65536(map: &mut FreeMap) -> bool {
    let mut searched = SearchCursor::nothing();
    let mut well = true;
    for i in 0..65_536 {
        let start = 3 + 2 * i;
        let taken = map.take_onward(1, &mut searched);
        well = well && taken == Ok(Run { start, count: 1 });
    }
    well
}

fn are_found_and_taken(alloc: Global) -> bool {
    let mut map = FreeMap::new(alloc, 4_194_304);
    finds_among_65536(&mut map) && takes_among_65536(&mut map)
}

#[test]
fn runs_are_found_and_taken_among_65536(rt: HostRuntime) {
    assert!(&rt; are_found_and_taken(rt.alloc()));
}
