// The maximum numbers of tables, segments and rows.
use crate::inputs::{INT, Input};
use crate::made::{NotMade, assert_no_row};
use crate::playing::{Slot, Way, answer, is_played, new_slot, play};
use crate::steps::{Call, Step, Steps, creation, says};
use Input::{Front, Ints, NoColumns};
use Step::{
    Append, Close, Compact, Create, Format, Give, Import, Open, Remove, Rename, Save, Tables,
};
use std::alloc::Global;

// Makes the table `t0`, `t1` and so on.
fn is_made(alloc: Global, slot: &mut Slot, number: u32) -> Result<bool, NotMade> {
    let name = format!(in alloc; "t{number}")?;
    let call = Call::Apply(creation(alloc, &name, INT)?);
    match answer(alloc, slot, call) {
        Some(reply) => says(alloc, &reply, "ok"),
        None => Err(NotMade),
    }
}

fn are_made(alloc: Global, slot: &mut Slot, count: u32) -> Result<bool, NotMade> {
    let mut well = true;
    for number in 0..count {
        well = well && is_made(alloc, slot, number)?;
    }
    Ok(well)
}

const EMPTY: Steps = &[(Format, "ok")];

// A store has at most 1,024 tables.
const FULL: Steps = &[
    (Create("t", INT), "S7 TooMany Tables"),
    (Create("t0", INT), "S2 NameTaken"),
    (Create("a b", INT), "S3 BadName"),
    (Import("t", Front(0)), "S5 Import F9 NoSchema"),
    (Import("t", Ints(&[7])), "S7 TooMany Tables"),
    (Import("t0", Ints(&[7])), "ok"),
    (Append("t0", Ints(&[7])), "ok"),
    (Save("t0", "t", (&[], &[], None)), "S7 TooMany Tables"),
    (Rename("t0", "t"), "ok"),
    (Remove("t"), "ok"),
    (Create("u", INT), "ok"),
    (Create("v", INT), "S7 TooMany Tables"),
];

fn wrong_when_full(alloc: Global, slot: &mut Slot) -> Result<Option<usize>, NotMade> {
    if !is_played(alloc, slot, EMPTY)? || !are_made(alloc, slot, 1024)? {
        return Err(NotMade);
    }
    play(alloc, slot, FULL, Way::EachCall)
}

fn wrong_table(alloc: Global) -> Result<Option<usize>, NotMade> {
    wrong_when_full(alloc, &mut new_slot(alloc, 4096)?)
}

#[test]
fn a_store_has_1024_tables_at_most(rt: HostRuntime) {
    assert_no_row(&rt, wrong_table(rt.alloc()));
}

// 268,435,456 rows without a column have the maximum weight of a table, and are 65,536 segments of 4,096 rows, the maximum of a store. Weight is
// tested before segments, and segments before room.
const HEAVY: Steps = &[
    (Format, "ok"),
    (Create("u", &[]), "ok"),
    (Import("t", NoColumns(268_435_456)), "ok"),
    (Tables, "t 268435456, u 0"),
    (Append("t", NoColumns(1)), "S7 TooMany Weight"),
    (Append("u", NoColumns(1)), "S7 TooMany Segments"),
    (Give("u", &[&[]]), "S7 TooMany Segments"),
    (Import("v", NoColumns(1)), "S7 TooMany Segments"),
    (Append("u", NoColumns(0)), "ok"),
    (Import("u", NoColumns(53_248_000)), "S7 TooMany Segments"),
    (Import("t", NoColumns(268_431_360)), "S8 NoRoom 1"),
    (Remove("t"), "ok"),
    (Append("u", NoColumns(1)), "ok"),
    (Tables, "u 1"),
];

// Segments of which the last two can be joined: the store is opened again and compacted.
const AT_THE_LIMIT: Steps = &[
    (Format, "ok"),
    (Import("t", NoColumns(268_427_264)), "ok"),
    (Append("t", NoColumns(1)), "ok"),
    (Append("t", NoColumns(1)), "ok"),
    (Append("t", NoColumns(1)), "S7 TooMany Segments"),
    (Close, "ok"),
    (Open, "ok"),
    (Tables, "t 268427266"),
    (Append("t", NoColumns(1)), "S7 TooMany Segments"),
    (Compact, "merged"),
    (Compact, "moved"),
    (Append("t", NoColumns(1)), "ok"),
    (Create("u", INT), "ok"),
    (Open, "ok"),
    (Tables, "t 268427267, u 0"),
];

fn wrong_when_heavy(alloc: Global, steps: Steps) -> Result<Option<usize>, NotMade> {
    play(alloc, &mut new_slot(alloc, 100_000)?, steps, Way::EachCall)
}

#[test]
fn a_table_and_a_store_have_their_greatest_size(rt: HostRuntime) {
    assert_no_row(&rt, wrong_when_heavy(rt.alloc(), HEAVY));
    assert_no_row(&rt, wrong_when_heavy(rt.alloc(), AT_THE_LIMIT));
}
