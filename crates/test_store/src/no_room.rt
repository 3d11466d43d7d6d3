// Commands without enough room.
use crate::commands::Row;
use crate::inputs::Input;
use crate::steps::Step;
use Input::{First, Ints};
use Step::{Append, CloseExport, Compact, ExportNext, Format, Import, OpenExport, Remove, Tables};

const TWO: Input = Ints(&[7, -1]);

// If no run is long enough for a part, the command is refused, and nothing is changed.
const FILLED: &[Row] = &[
    (
        16,
        &[(Format, "ok"), (Import("t", First(1458)), "ok")],
        "epoch 2, 233 in 15, t: 3+12",
    ),
    (
        16,
        &[
            (Format, "ok"),
            (Import("t", First(1459)), "S8 NoRoom 1"),
            (Tables, ""),
            (Import("t", First(1458)), "ok"),
        ],
        "epoch 2, 233 in 15, t: 3+12",
    ),
    (
        16,
        &[
            (Format, "ok"),
            (Import("t", First(1458)), "ok"),
            // the old rows are kept until the new ones are published
            (Import("t", First(1458)), "S8 NoRoom 12"),
            (Append("t", TWO), "S8 NoRoom 1"),
            (Tables, "t 1458"),
        ],
        "epoch 2, 233 in 15, t: 3+12",
    ),
];

const FULL: &[Row] = &[
    (
        16,
        &[
            (Format, "ok"),
            (Import("t", First(1458)), "ok"),
            (Remove("t"), "ok"),
            (Import("t", First(1458)), "ok"),
        ],
        "epoch 4, 233 in 15, t: 3+12",
    ),
    (
        16,
        &[
            (Format, "ok"),
            (Import("t", First(2000)), "S8 NoRoom 17"),
            (Import("t", First(4097)), "S8 NoRoom 33"),
            (Import("t", First(1700)), "S8 NoRoom 14"),
            (Import("t", TWO), "ok"),
        ],
        "epoch 2, 233 in 4, t: 3+1",
    ),
];

// Neither a command nor a step of a compaction writes sectors that an export keeps, until it is closed.
const KEPT: &[Row] = &[
    (
        16,
        &[
            (Format, "ok"),
            (Import("t", First(562)), "ok"),
            (OpenExport("t"), "export 0"),
            (Remove("t"), "ok"),
            (Import("u", First(1074)), "S8 NoRoom 9"),
            (CloseExport(0), "ok"),
            (Import("u", First(1074)), "ok"),
        ],
        "epoch 4, 233 in 12, u: 3+9",
    ),
    (
        16,
        &[
            (Format, "ok"),
            (Import("t", First(562)), "ok"),
            (OpenExport("t"), "export 0"),
            (Remove("t"), "ok"),
            (Import("u", First(250)), "ok"),
            (Append("u", First(250)), "ok"),
            (Compact, "S8 NoRoom 5"),
            (ExportNext(0), "152 bytes"),
            (ExportNext(0), "2400 bytes"),
            (CloseExport(0), "ok"),
            (Compact, "merged"),
        ],
        "epoch 6, 233 in 11, u: 3+5",
    ),
];

/// Returns the rows, part by part.
pub fn part(number: usize) -> Option<&'static [Row]> {
    Some(match number {
        0 => FILLED,
        1 => FULL,
        2 => KEPT,
        _ => return None,
    })
}
