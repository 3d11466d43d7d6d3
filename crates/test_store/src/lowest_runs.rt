// Where changes put segments and the catalogue: in the lowest runs that fit.
use crate::commands::Row;
use crate::inputs::{INT, Input};
use crate::steps::Step;
use Input::{First, Ints};
use Step::{Append, Close, Create, Format, Import, Open, Remove, Rename, Schema, Tables};

const TWO: Input = Ints(&[7, -1]);

// The commit sectors are 0 and 1. Each change takes the lowest free runs while the old catalogue and its segments are still in use.
const CHANGED: &[Row] = &[
    (16, &[(Format, "ok"), (Tables, "")], "epoch 1, 4 in 2"),
    (
        16,
        &[(Format, "ok"), (Create("t", INT), "ok")],
        "epoch 2, 169 in 3, t:",
    ),
    (
        16,
        &[
            (Format, "ok"),
            (Create("t", INT), "ok"),
            (Create("u", INT), "ok"),
            (Tables, "t 0, u 0"),
        ],
        "epoch 3, 334 in 2, t:, u:",
    ),
    (
        16,
        &[
            (Format, "ok"),
            (Import("t", TWO), "ok"),
            (Tables, "t 2"),
            (Schema("t"), "\"a\":int32?"),
        ],
        "epoch 2, 233 in 4, t: 3+1",
    ),
];

const REPLACED: &[Row] = &[
    (
        16,
        &[
            (Format, "ok"),
            (Import("t", TWO), "ok"),
            (Import("t", TWO), "ok"),
            (Tables, "t 2"),
        ],
        "epoch 3, 233 in 5, t: 2+1",
    ),
    (
        16,
        &[
            (Format, "ok"),
            (Import("t", TWO), "ok"),
            (Import("t", TWO), "ok"),
            (Remove("t"), "ok"),
            (Tables, ""),
        ],
        "epoch 4, 4 in 3",
    ),
];

const FITTING: &[Row] = &[
    // The lowest run that fits, not the smallest: two sectors after a hole of one.
    (
        16,
        &[
            (Format, "ok"),
            (Import("t", TWO), "ok"),
            (Import("u", First(100)), "ok"),
        ],
        "epoch 3, 462 in 2, t: 3+1, u: 5+2",
    ),
    (
        16,
        &[
            (Format, "ok"),
            (Import("t", TWO), "ok"),
            (Import("u", First(100)), "ok"),
            (Append("t", Ints(&[5])), "ok"),
            (Tables, "t 3, u 100"),
        ],
        "epoch 4, 62 in 9, t page 7 of 288: 3+1 4+1, u page 8 of 224: 5+2",
    ),
];

const GIVEN_UP: &[Row] = &[
    // What is given up is free once the change is published.
    (
        16,
        &[
            (Format, "ok"),
            (Import("t", TWO), "ok"),
            (Import("u", First(100)), "ok"),
            (Append("t", Ints(&[5])), "ok"),
            (Remove("t"), "ok"),
            (Import("v", First(100)), "ok"),
            (Tables, "u 100, v 100"),
        ],
        "epoch 6, 462 in 7, u: 5+2, v: 3+2",
    ),
];

const RENAMED: &[Row] = &[
    // A rename keeps the segments.
    (
        16,
        &[
            (Format, "ok"),
            (Import("t", TWO), "ok"),
            (Rename("t", "a"), "ok"),
            (Tables, "a 2"),
            (Schema("t"), "S1 NoTable"),
            (Schema("a"), "\"a\":int32?"),
        ],
        "epoch 3, 233 in 2, a: 3+1",
    ),
];

const CUT: &[Row] = &[
    // A table without rows writes only the catalogue, and an append of no rows publishes an epoch too.
    (
        16,
        &[
            (Format, "ok"),
            (Import("t", Ints(&[])), "ok"),
            (Append("t", Ints(&[])), "ok"),
            (Tables, "t 0"),
        ],
        "epoch 3, 169 in 2, t:",
    ),
    // A segment has at most 4,096 rows: 16,696 bytes.
    (
        128,
        &[
            (Format, "ok"),
            (Import("t", First(4097)), "ok"),
            (Append("t", First(4096)), "ok"),
            (Tables, "t 8193"),
        ],
        "epoch 3, 361 in 2, t: 3+33 36+1 38+33",
    ),
];

const OPENED: &[Row] = &[
    // Neither opening nor closing a store publishes anything.
    (
        16,
        &[
            (Format, "ok"),
            (Import("t", TWO), "ok"),
            (Close, "ok"),
            (Open, "ok"),
            (Open, "ok"),
            (Tables, "t 2"),
            (Schema("t"), "\"a\":int32?"),
            (Append("t", Ints(&[5])), "ok"),
            (Tables, "t 3"),
        ],
        "epoch 3, 297 in 5, t: 3+1 2+1",
    ),
];

/// Returns the rows, part by part.
pub fn part(number: usize) -> Option<&'static [Row]> {
    Some(match number {
        0 => CHANGED,
        1 => REPLACED,
        2 => FITTING,
        3 => GIVEN_UP,
        4 => RENAMED,
        5 => CUT,
        6 => OPENED,
        _ => return None,
    })
}
