// Catalogues in pages, and where those lie.
use crate::commands::Row;
use crate::inputs::{INT, Input};
use crate::steps::Step;
use Input::{Front, Ints};
use Step::{Append, Compact, Create, Format, Import, Read, Remove, Rename, Tables};

const TWO: Input = Ints(&[7, -1]);

// A list of at most 512 bytes is kept whole. A longer one has a page for each table and a root that names the pages: a change writes the pages of
// the tables that it changes, and a new root.
const PAGED: &[Row] = &[
    (
        16,
        &[
            (Format, "ok"),
            (Create("t", INT), "ok"),
            (Create("u", INT), "ok"),
            (Create("v", INT), "ok"),
            (Create("w", INT), "ok"),
        ],
        "epoch 5, 120 in 7, t page 2 of 160:, u page 4 of 160:, v page 5 of 160:, w page 6 of 160:",
    ),
    (
        16,
        &[
            (Format, "ok"),
            (Create("t", INT), "ok"),
            (Create("u", INT), "ok"),
            (Create("v", INT), "ok"),
            (Create("w", INT), "ok"),
            (Create("x", INT), "ok"),
        ],
        "epoch 6, 149 in 8, t page 2 of 160:, u page 4 of 160:, v page 5 of 160:, w page 6 of 160:, x page 3 of 160:",
    ),
    (
        16,
        &[
            (Format, "ok"),
            (Create("t", INT), "ok"),
            (Create("u", INT), "ok"),
            (Create("v", INT), "ok"),
            (Create("w", INT), "ok"),
            (Create("x", INT), "ok"),
            (Rename("x", "y"), "ok"),
        ],
        "epoch 7, 149 in 7, t page 2 of 160:, u page 4 of 160:, v page 5 of 160:, w page 6 of 160:, y page 3 of 160:",
    ),
    (
        16,
        &[
            (Format, "ok"),
            (Create("t", INT), "ok"),
            (Create("u", INT), "ok"),
            (Create("v", INT), "ok"),
            (Create("w", INT), "ok"),
            (Create("x", INT), "ok"),
            (Rename("x", "y"), "ok"),
            (Remove("y"), "ok"),
        ],
        "epoch 8, 120 in 8, t page 2 of 160:, u page 4 of 160:, v page 5 of 160:, w page 6 of 160:",
    ),
    (
        16,
        &[
            (Format, "ok"),
            (Create("t", INT), "ok"),
            (Create("u", INT), "ok"),
            (Create("v", INT), "ok"),
            (Create("w", INT), "ok"),
            (Create("x", INT), "ok"),
            (Rename("x", "y"), "ok"),
            (Remove("y"), "ok"),
            (Remove("w"), "ok"),
            (Tables, "t 0, u 0, v 0"),
        ],
        "epoch 9, 499 in 3, t:, u:, v:",
    ),
];

// A page is written if the text of its table changed, and stays if it did not.
const PAGES_WRITTEN: &[Row] = &[
    (
        16,
        &[
            (Format, "ok"),
            (Create("t", INT), "ok"),
            (Create("u", INT), "ok"),
            (Create("v", INT), "ok"),
            (Create("w", INT), "ok"),
            (Append("u", TWO), "ok"),
        ],
        "epoch 6, 120 in 9, t page 2 of 160:, u page 8 of 224: 3+1, v page 5 of 160:, w page 6 of 160:",
    ),
    (
        16,
        &[
            (Format, "ok"),
            (Create("t", INT), "ok"),
            (Create("u", INT), "ok"),
            (Create("v", INT), "ok"),
            (Create("w", INT), "ok"),
            (Import("u", Front(152)), "ok"),
            (Append("u", Front(152)), "ok"),
        ],
        "epoch 7, 120 in 7, t page 2 of 160:, u page 4 of 160:, v page 5 of 160:, w page 6 of 160:",
    ),
    (
        32,
        &[
            (Format, "ok"),
            (Create("t", INT), "ok"),
            (Create("u", INT), "ok"),
            (Create("v", INT), "ok"),
            (Create("w", INT), "ok"),
            (Append("t", TWO), "ok"),
            (Append("t", TWO), "ok"),
            (Compact, "merged"),
            (Read("t"), "\"a\":int32?: 7 -1 7 -1"),
        ],
        "epoch 8, 120 in 11, t page 9 of 224: 8+1, u page 4 of 160:, v page 5 of 160:, w page 6 of 160:",
    ),
];

// Lists of 512 and of 513 bytes.
const LONGEST: &[Row] = &[
    (
        16,
        &[
            (Format, "ok"),
            (Create("abcde", INT), "ok"),
            (Create("fghij", INT), "ok"),
            (Create("klmnop", INT), "ok"),
        ],
        "epoch 4, 512 in 3, abcde:, fghij:, klmnop:",
    ),
    (
        16,
        &[
            (Format, "ok"),
            (Create("abcde", INT), "ok"),
            (Create("fghij", INT), "ok"),
            (Create("klmnopq", INT), "ok"),
        ],
        "epoch 4, 105 in 6, abcde page 3 of 160:, fghij page 4 of 160:, klmnopq page 5 of 160:",
    ),
];

/// Returns the rows, part by part.
pub fn part(number: usize) -> Option<&'static [Row]> {
    Some(match number {
        0 => PAGED,
        1 => PAGES_WRITTEN,
        2 => LONGEST,
        _ => return None,
    })
}
