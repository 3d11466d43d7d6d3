// Tables that are read and exported after each kind of change.
use crate::commands::Row;
use crate::inputs::{Cell, INT, Input};
use crate::pieces::Pieces;
use crate::steps::Step;
use Cell::{Null, Number, Text};
use Input::{Column, Ints, Texts};
use Pieces::{Failing, Single, Whole};
use Step::{
    Append, AppendFrom, Close, CloseExport, Compact, Create, Export, ExportNext, Format, Give,
    GiveTable, Import, ImportFrom, Open, OpenExport, Read, Remove, Rename, Save, Tables,
};

const TWO: Input = Ints(&[7, -1]);

// A table that is read is what was imported and appended, and an exported one is its canonical stream.
const READ_BACK: &[Row] = &[(
    16,
    &[
        (Format, "ok"),
        (Import("t", TWO), "ok"),
        (Read("t"), "\"a\":int32?: 7 -1"),
        (Export("t"), "stream of \"a\":int32?: 7 -1"),
        (Append("t", Ints(&[5, i32::MIN])), "ok"),
        (Read("t"), "\"a\":int32?: 7 -1 5 -2147483648"),
        (Export("t"), "stream of \"a\":int32?: 7 -1 5 -2147483648"),
        (Rename("t", "a"), "ok"),
        (Read("t"), "S1 NoTable"),
        (Export("t"), "S1 NoTable"),
        (Close, "ok"),
        (Open, "ok"),
        (Read("a"), "\"a\":int32?: 7 -1 5 -2147483648"),
        (Export("a"), "stream of \"a\":int32?: 7 -1 5 -2147483648"),
    ],
    "epoch 4, 297 in 4, a: 3+1 2+1",
)];

const READ_ANEW: &[Row] = &[(
    16,
    &[
        (Format, "ok"),
        (Create("t", INT), "ok"),
        (Read("t"), "\"a\":int32?:"),
        (Export("t"), "stream of \"a\":int32?:"),
        (Import("u", Column("b:int16?", &[-3])), "ok"),
        (Read("u"), "\"b\":int16?: -3"),
        (Export("u"), "stream of \"b\":int16?: -3"),
        (Import("u", TWO), "ok"),
        (Read("u"), "\"a\":int32?: 7 -1"),
        (Read("t"), "\"a\":int32?:"),
    ],
    "epoch 4, 398 in 5, t:, u: 3+1",
)];

const GIVEN: &[Row] = &[
    // Given rows follow those of the table, also if there are none.
    (
        16,
        &[
            (Format, "ok"),
            (Import("t", TWO), "ok"),
            (Give("t", &[&[Number(5)], &[Null]]), "ok"),
            (Read("t"), "\"a\":int32?: 7 -1 5 null"),
            (Give("t", &[]), "ok"),
            (Tables, "t 4"),
        ],
        "epoch 4, 297 in 4, t: 3+1 2+1",
    ),
    // So do the rows of another table: of the same schema, of one with another dictionary, and of one of another type, if the table takes them.
    (
        16,
        &[
            (Format, "ok"),
            (Create("t", &["a:dict<int8,int32>?"]), "ok"),
            (GiveTable("t", Column("a:dict<int8,int32>?", &[7, 7])), "ok"),
            (GiveTable("t", Column("a:dict<int16,int32>?", &[-1])), "ok"),
            (GiveTable("t", Column("b:int64", &[5])), "ok"),
            (GiveTable("t", Texts(&[1])), "S6 RowUnfit 0"),
            (Read("t"), "\"a\":dict<int8,int32>?: 7 7 -1 5"),
        ],
        "epoch 5, 417 in 2, t: 4+2 6+2 8+2",
    ),
];

const SAVED: &[Row] = &[
    // A saved query is a table of its own: changes of the other table do not change it.
    (
        16,
        &[
            (Format, "ok"),
            (Import("t", Ints(&[3, 1, 2, 5])), "ok"),
            (Save("t", "w", (&[], &["a >= 2"], Some(2))), "ok"),
            (Give("t", &[&[Number(9)]]), "ok"),
            (Read("w"), "\"a\":int32?: 3 2"),
            (Read("t"), "\"a\":int32?: 3 1 2 5 9"),
        ],
        "epoch 4, 62 in 8, t page 6 of 288: 3+1 4+1, w page 7 of 224: 2+1",
    ),
];

const SELECTED: &[Row] = &[(
    16,
    &[
        (Format, "ok"),
        (Create("t", &["a:int32?", "s:utf8"]), "ok"),
        (
            Give(
                "t",
                &[
                    &[Number(1), Text("x")],
                    &[Null, Text("")],
                    &[Number(3), Text("y")],
                ],
            ),
            "ok",
        ),
        (Save("t", "w", (&["s", "a"], &["a >= 1"], None)), "ok"),
        (Save("t", "v", (&[], &[], Some(0))), "ok"),
        (Read("w"), "\"s\":utf8, \"a\":int32?: x/1 y/3"),
        (Read("v"), "\"a\":int32?, \"s\":utf8:"),
        (Read("t"), "\"a\":int32?, \"s\":utf8: 1/x null/ 3/y"),
        (Remove("w"), "ok"),
        (Remove("v"), "ok"),
        (Remove("t"), "ok"),
    ],
    "epoch 8, 4 in 4",
)];

// If a reader fails midway nothing is taken, and the same bytes can be taken afterwards.
const FROM_READERS: &[Row] = &[
    (
        16,
        &[
            (Format, "ok"),
            (ImportFrom("t", TWO, Whole), "ok"),
            (AppendFrom("t", TWO, Single), "ok"),
            (Tables, "t 4"),
            (Export("t"), "stream of \"a\":int32?: 7 -1 7 -1"),
        ],
        "epoch 3, 297 in 5, t: 3+1 2+1",
    ),
    (
        16,
        &[
            (Format, "ok"),
            (ImportFrom("t", TWO, Failing(0)), "G1 Io"),
            (ImportFrom("t", TWO, Failing(200)), "G1 Io"),
            (Tables, ""),
            (ImportFrom("t", TWO, Failing(321)), "ok"),
            (AppendFrom("t", TWO, Failing(319)), "G1 Io"),
            (Read("t"), "\"a\":int32?: 7 -1"),
        ],
        "epoch 2, 233 in 4, t: 3+1",
    ),
];

// An export gives the table that it found, also once the table is gone. What it kept is free once it is closed.
const IN_PIECES: &[Row] = &[(
    16,
    &[
        (Format, "ok"),
        (Import("t", TWO), "ok"),
        (OpenExport("u"), "S1 NoTable"),
        (OpenExport("t"), "export 0"),
        (Remove("t"), "ok"),
        (ExportNext(0), "152 bytes"),
        (ExportNext(0), "160 bytes"),
        (ExportNext(0), "8 bytes"),
        (ExportNext(0), "no piece"),
        (CloseExport(0), "ok"),
        (CloseExport(0), "S11 NoExport"),
        (Create("t", INT), "ok"),
    ],
    "epoch 4, 169 in 3, t:",
)];

// Two segments become one, which then moves to the front. The table is read as before.
const COMPACTED: &[Row] = &[(
    16,
    &[
        (Format, "ok"),
        (Compact, "nothing"),
        (Import("t", TWO), "ok"),
        (Append("t", TWO), "ok"),
        (Compact, "merged"),
        (Read("t"), "\"a\":int32?: 7 -1 7 -1"),
        (Compact, "moved"),
        (Compact, "nothing"),
        (Read("t"), "\"a\":int32?: 7 -1 7 -1"),
    ],
    "epoch 5, 233 in 3, t: 2+1",
)];

/// Returns the rows, part by part.
pub fn part(number: usize) -> Option<&'static [Row]> {
    Some(match number {
        0 => READ_BACK,
        1 => READ_ANEW,
        2 => GIVEN,
        3 => SAVED,
        4 => SELECTED,
        5 => FROM_READERS,
        6 => IN_PIECES,
        7 => COMPACTED,
        _ => return None,
    })
}
