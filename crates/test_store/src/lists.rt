// Several commands as one: what is answered, and what the tables are then.
use crate::inputs::{INT, Input};
use crate::made::{NotMade, assert_no_row};
use crate::playing::{Slot, answer, is_played, new_slot, shut};
use crate::shown::contents;
use crate::steps::{Step, Steps, commands_of, says};
use crate::transactions::{reply_one_by_one, tells_each_schema};
use Input::Ints;
use Step::{Append, Create, Format, Import, Remove, Rename, Save};
use std::alloc::Global;
use store::Reply;

// The commands, the reply, and the values of the tables after it.
type Row = (&'static [Step], &'static str, &'static str);

const BEFORE: Steps = &[
    (Format, "ok"),
    (Import("t", Ints(&[7, -1])), "ok"),
    (Create("u", INT), "ok"),
];

const DONE: &[Row] = &[
    (&[], "ok", "t: 7 -1, u:"),
    (
        &[
            Save("t", "kept", (&[], &["a >= 0"], None)),
            Remove("t"),
            Rename("kept", "t"),
        ],
        "ok",
        "t: 7, u:",
    ),
    (
        &[
            Append("u", Ints(&[5])),
            Append("u", Ints(&[6])),
            Import("s", Ints(&[1])),
            Append("s", Ints(&[2])),
        ],
        "ok",
        "s: 1 2, t: 7 -1, u: 5 6",
    ),
    (
        &[
            Import("s", Ints(&[3, 1])),
            Save("s", "v", (&[], &["a >= 2"], None)),
            Append("v", Ints(&[8])),
            Save("v", "w", (&[], &[], None)),
            Remove("s"),
        ],
        "ok",
        "t: 7 -1, u:, v: 3 8, w: 3 8",
    ),
    (
        &[
            Append("t", Ints(&[-2, 4])),
            Save("t", "kept", (&[], &["a >= 0"], None)),
            Append("t", Ints(&[9])),
            Save("t", "s", (&[], &["a >= 5"], Some(1))),
            Rename("t", "x"),
            Save("x", "t", (&[], &["a < 0"], None)),
        ],
        "ok",
        "kept: 7 4, s: 7, t: -1 -2, u:, x: 7 -1 -2 4 9",
    ),
    (
        &[Import("s", Ints(&[1])), Remove("s"), Remove("t")],
        "ok",
        "u:",
    ),
    (
        &[Remove("u"), Rename("t", "u"), Create("t", INT)],
        "ok",
        "t:, u: 7 -1",
    ),
];

const REFUSED: &[Row] = &[
    (
        &[Remove("x"), Remove("t")],
        "S1 NoTable of 0",
        "t: 7 -1, u:",
    ),
    (
        &[Remove("t"), Remove("t")],
        "S1 NoTable of 1",
        "t: 7 -1, u:",
    ),
    (
        &[Append("u", Ints(&[5])), Remove("t"), Create("u", INT)],
        "S2 NameTaken of 2",
        "t: 7 -1, u:",
    ),
    (
        &[Import("s", Ints(&[1])), Save("s", "t", (&[], &[], None))],
        "S2 NameTaken of 1",
        "t: 7 -1, u:",
    ),
];

// How commands are given.
#[derive(Clone, Copy)]
enum Handing {
    Together,
    OneByOne,
}

// The commands that are added one by one, each with what is told then of the schema of the table `s`.
const SCHEMAS: &[Steps] = &[
    &[
        (Create("s", &["b:utf8"]), "\"b\":utf8"),
        (Rename("s", "r"), "S1 NoTable"),
        (Import("s", Ints(&[1])), "\"a\":int32?"),
        (Append("s", Ints(&[2])), "\"a\":int32?"),
        (Remove("s"), "S1 NoTable"),
        (Rename("r", "s"), "\"b\":utf8"),
        (Remove("t"), "\"b\":utf8"),
    ],
    &[
        (Append("t", Ints(&[3])), "S1 NoTable"),
        (Save("t", "s", (&[], &["a >= 0"], None)), "\"a\":int32?"),
        (Import("s", Ints(&[])), "\"a\":int32?"),
    ],
];

fn reply_of(
    alloc: Global,
    slot: &mut Slot,
    steps: &[Step],
    handing: Handing,
) -> Result<Reply, NotMade> {
    let commands = commands_of(alloc, steps)?;
    match handing {
        Handing::Together => { answer(alloc, slot, store::Call::ApplyAll(commands)).ok_or(NotMade) }
        Handing::OneByOne => reply_one_by_one(alloc, slot, commands),
    }
}

fn is_well_on(
    alloc: Global,
    slot: &mut Slot,
    row: &Row,
    handing: Handing,
) -> Result<bool, NotMade> {
    let (steps, want, after) = *row;
    if !is_played(alloc, slot, BEFORE)? {
        return Err(NotMade);
    }
    let told = says(alloc, &reply_of(alloc, slot, steps, handing)?, want)?;
    Ok(told && contents(alloc, &mut shut(slot)?)?.as_str() == after)
}

fn wrong_row(alloc: Global, rows: &[Row], handing: Handing) -> Result<Option<usize>, NotMade> {
    for (place, row) in rows.iter().enumerate() {
        if !is_well_on(alloc, &mut new_slot(alloc, 32)?, row, handing)? {
            return Ok(Some(place));
        }
    }
    Ok(None)
}

fn wrong_schemas(alloc: Global) -> Result<Option<usize>, NotMade> {
    for (place, steps) in SCHEMAS.iter().enumerate() {
        let mut slot = new_slot(alloc, 32)?;
        if !is_played(alloc, &mut slot, BEFORE)? {
            return Err(NotMade);
        }
        let told = tells_each_schema(alloc, &mut slot, "s", steps)?;
        // nothing of them is done
        if !told || contents(alloc, &mut shut(&mut slot)?)?.as_str() != "t: 7 -1, u:" {
            return Ok(Some(place));
        }
    }
    Ok(None)
}

#[test]
fn several_commands_are_done_as_one(rt: HostRuntime) {
    assert_no_row(&rt, wrong_row(rt.alloc(), DONE, Handing::Together));
}

#[test]
fn the_first_refused_command_refuses_all(rt: HostRuntime) {
    assert_no_row(&rt, wrong_row(rt.alloc(), REFUSED, Handing::Together));
}

#[test]
fn commands_that_are_added_one_by_one_are_done_as_one(rt: HostRuntime) {
    assert_no_row(&rt, wrong_row(rt.alloc(), DONE, Handing::OneByOne));
}

#[test]
fn a_refused_command_refuses_those_that_were_added(rt: HostRuntime) {
    assert_no_row(&rt, wrong_row(rt.alloc(), REFUSED, Handing::OneByOne));
}

#[test]
fn each_schema_is_told_before_anything_is_done(rt: HostRuntime) {
    assert_no_row(&rt, wrong_schemas(rt.alloc()));
}
