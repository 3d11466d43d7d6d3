// Refused commands, each by the first of its tests that fails.
use crate::commands::Row;
use crate::inputs::{Cell, INT, Input};
use crate::pieces::Pieces;
use crate::steps::Step;
use Cell::{Null, Number, Text};
use Input::{Changed, Column, Front, Ints, Texts};
use Pieces::{Failing, Single, Whole};
use Step::{
    Append, AppendFrom, Close, CloseExport, Compact, Create, Export, ExportNext, Format, Give,
    Import, ImportFrom, Open, OpenExport, Read, Remove, Rename, Save, Schema, Tables,
};

const TWO: Input = Ints(&[7, -1]);

// The tests of each command in their order: the first that fails is reported, and nothing is changed.
const FORMATTED: &[Row] = &[
    // An open store is not formatted: it is closed and stays as it was.
    (
        16,
        &[
            (Format, "ok"),
            (Import("t", TWO), "ok"),
            (Format, "C2 AlreadyAStore"),
            (Tables, "S10 Halted"),
            (Create("u", INT), "S10 Halted"),
            (Close, "S10 Halted"),
            (Format, "C2 AlreadyAStore"),
            (Open, "ok"),
            (Read("t"), "\"a\":int32?: 7 -1"),
            (Format, "C2 AlreadyAStore"),
            (Open, "ok"),
            (Tables, "t 2"),
        ],
        "epoch 2, 233 in 4, t: 3+1",
    ),
];

const CREATED: &[Row] = &[
    (
        16,
        &[
            (Format, "ok"),
            (Create("t", INT), "ok"),
            (Create("a b", INT), "S3 BadName"),
            (Create("", INT), "S3 BadName"),
            (Create("é", INT), "S3 BadName"),
            (Create("t/u", INT), "S3 BadName"),
            (Create("t", &["b:int8"]), "S2 NameTaken"),
            (Schema("t"), "\"a\":int32?"),
            (Tables, "t 0"),
        ],
        "epoch 2, 169 in 3, t:",
    ),
    // A name of 64 bytes, and one of 65.
    (
        16,
        &[
            (Format, "ok"),
            (
                Create(
                    "A-z_0.9-aaaaaaaaaaaaaaaaaaaaaaaaaaaaaaaaaaaaaaaaaaaaaaaaaaaaaaaa",
                    INT,
                ),
                "ok",
            ),
            (
                Create(
                    "A-z_0.9-aaaaaaaaaaaaaaaaaaaaaaaaaaaaaaaaaaaaaaaaaaaaaaaaaaaaaaaaa",
                    INT,
                ),
                "S3 BadName",
            ),
        ],
        "epoch 2, 232 in 3, A-z_0.9-aaaaaaaaaaaaaaaaaaaaaaaaaaaaaaaaaaaaaaaaaaaaaaaaaaaaaaaa:",
    ),
];

const ORDERED: &[Row] = &[
    // Names in byte order.
    (
        16,
        &[
            (Format, "ok"),
            (Create("b", INT), "ok"),
            (Create("a", INT), "ok"),
            (Create("B", INT), "ok"),
            (Create("a0", INT), "ok"),
            (Create("_", INT), "ok"),
            (Tables, "B 0, _ 0, a 0, a0 0, b 0"),
        ],
        "epoch 6, 150 in 8, B page 2 of 160:, _ page 3 of 160:, a page 4 of 160:, a0 page 5 of 160:, b page 6 of 160:",
    ),
];

const IMPORTED: &[Row] = &[(
    16,
    &[
        (Format, "ok"),
        (Create("t", INT), "ok"),
        (Import("a b", Front(0)), "S3 BadName"),
        (Import("t", Front(0)), "S5 Import F9 NoSchema"),
        (Import("t", Front(319)), "S5 Import F1 Truncated"),
        (
            Import("t", Changed(&[(0, 0)])),
            "S5 Import F2 NoContinuation",
        ),
        (
            Import("t", Changed(&[(28, 3)])),
            "S5 Import F6 MetadataVersion",
        ),
        (
            Import("t", Changed(&[(105, 3)])),
            "S5 Import F12 TypeNotHeld FloatingPoint",
        ),
        (
            Import("t", Changed(&[(206, 12)])),
            "S5 Import F16 Compressed",
        ),
        (Import("t", Front(152)), "ok"),
        (Tables, "t 0"),
    ],
    "epoch 3, 169 in 2, t:",
)];

const APPENDED: &[Row] = &[(
    16,
    &[
        (Format, "ok"),
        (Import("t", TWO), "ok"),
        (Append("u", Front(0)), "S1 NoTable"),
        (Append("t", Front(0)), "S5 Import F9 NoSchema"),
        (
            Append("t", Changed(&[(105, 3)])),
            "S5 Import F12 TypeNotHeld FloatingPoint",
        ),
        // another name, not nullable, another type, no column, two columns
        (Append("t", Changed(&[(120, 98)])), "S4 SchemaMismatch"),
        (Append("t", Column("a:int32", &[5])), "S4 SchemaMismatch"),
        (Append("t", Column("a:uint32?", &[5])), "S4 SchemaMismatch"),
        (Append("t", Column("a:int64?", &[5])), "S4 SchemaMismatch"),
        (Append("t", Input::NoColumns(1)), "S4 SchemaMismatch"),
        (Append("t", Column("a:int32?", &[5])), "ok"),
        (Tables, "t 3"),
    ],
    "epoch 3, 297 in 5, t: 3+1 2+1",
)];

const TEXTS_APPENDED: &[Row] = &[
    // The texts of a stream go into dictionaries; no row may have more than the 128 texts that indices of 8 bits can name.
    (
        32,
        &[
            (Format, "ok"),
            (Create("t", &["l:list<dict<int8,utf8>>"]), "ok"),
            (Append("t", Texts(&[128, 129])), "S6 RowUnfit 1"),
            (Append("t", Texts(&[128, 1])), "ok"),
            (Tables, "t 2"),
            (Remove("t"), "ok"),
        ],
        "epoch 4, 4 in 3",
    ),
];

const WITHOUT_CHANGE: &[Row] = &[(
    16,
    &[
        (Format, "ok"),
        (Create("t", INT), "ok"),
        (Create("u", INT), "ok"),
        // a row with too many cells, with another value, or with one that is too large
        (Give("v", &[&[Text("x")]]), "S1 NoTable"),
        (Give("t", &[&[Number(1)], &[]]), "S6 RowUnfit 1"),
        (
            Give("t", &[&[Null], &[Number(1)], &[Text("x")], &[]]),
            "S6 RowUnfit 2",
        ),
        (Save("v", "a b", (&["b"], &[], None)), "S1 NoTable"),
        (
            Save("t", "a b", (&["b"], &["a = x"], None)),
            "S12 Query Q1 UnknownColumn",
        ),
        (
            Save("t", "a b", (&["a", "a"], &[], None)),
            "S12 Query Q1 UnknownColumn",
        ),
        (
            Save("t", "a b", (&[], &["a = x"], None)),
            "S12 Query Q2 BadCondition",
        ),
        (Save("t", "a b", (&[], &[], None)), "S3 BadName"),
        (Save("t", "u", (&[], &[], None)), "S2 NameTaken"),
        (Save("t", "t", (&[], &[], None)), "S2 NameTaken"),
        (Rename("v", "a b"), "S1 NoTable"),
        (Rename("t", "a b"), "S3 BadName"),
        (Rename("t", "u"), "S2 NameTaken"),
        (Rename("t", "t"), "S2 NameTaken"),
        (Remove("v"), "S1 NoTable"),
        (Remove("a b"), "S1 NoTable"),
        (Schema("v"), "S1 NoTable"),
        (Read("v"), "S1 NoTable"),
        (Export("v"), "S1 NoTable"),
        (Tables, "t 0, u 0"),
    ],
    "epoch 3, 334 in 2, t:, u:",
)];

const HALTED: &[Row] = &[
    // That no store is open is reported before anything else.
    (
        16,
        &[
            (Create("a b", INT), "S10 Halted"),
            (Tables, "S10 Halted"),
            (Schema("t"), "S10 Halted"),
            (Read("t"), "S10 Halted"),
            (Export("t"), "S10 Halted"),
            (OpenExport("t"), "S10 Halted"),
            (ExportNext(0), "S10 Halted"),
            (CloseExport(0), "S10 Halted"),
            (Compact, "S10 Halted"),
            (Open, "C1 NotAStore"),
            (Close, "S10 Halted"),
            (Format, "ok"),
            (Close, "ok"),
            (Import("a b", Front(0)), "S10 Halted"),
            (Append("t", Front(0)), "S10 Halted"),
            (Give("t", &[]), "S10 Halted"),
            (Save("t", "a b", (&[], &[], None)), "S10 Halted"),
            (Rename("t", "a b"), "S10 Halted"),
            (Remove("t"), "S10 Halted"),
            (Open, "ok"),
            (Remove("t"), "S1 NoTable"),
        ],
        "epoch 1, 4 in 2",
    ),
];

// What is reported before anything is read, and what is reported of the bytes.
const FROM_REFUSED: &[Row] = &[(
    16,
    &[
        (ImportFrom("t", TWO, Failing(0)), "S10 Halted"),
        (AppendFrom("t", TWO, Failing(0)), "S10 Halted"),
        (Format, "ok"),
        (ImportFrom("", TWO, Failing(0)), "S3 BadName"),
        (AppendFrom("t", TWO, Failing(0)), "S1 NoTable"),
        (
            ImportFrom("t", Front(319), Single),
            "S5 Import F1 Truncated",
        ),
        (ImportFrom("t", TWO, Whole), "ok"),
        (
            AppendFrom("t", Column("b:int32?", &[1]), Whole),
            "S4 SchemaMismatch",
        ),
    ],
    "epoch 2, 233 in 4, t: 3+1",
)];

/// Returns the rows, part by part.
pub fn part(number: usize) -> Option<&'static [Row]> {
    Some(match number {
        0 => FORMATTED,
        1 => CREATED,
        2 => ORDERED,
        3 => IMPORTED,
        4 => APPENDED,
        5 => TEXTS_APPENDED,
        6 => WITHOUT_CHANGE,
        7 => HALTED,
        8 => FROM_REFUSED,
        _ => return None,
    })
}
