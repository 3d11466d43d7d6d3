// The weight of a table of a store, which is read segment by segment.
use crate::inputs::Input;
use crate::made::{NotMade, assert_no_row};
use crate::playing::{Slot, Way, new_slot, play};
use crate::steps::Step::{Append, Compact, Create, Format, Import, Rename};
use crate::steps::Steps;
use Input::Ints;
use std::alloc::Global;
use store::StoreOrDevice;

// Steps, and what the table `t` of the store that is open then weighs, or why it is not weighed.
type Row = (Steps, &'static str);

// A row weighs 1 and its cells, and an integer weighs 1.
const WEIGHTS: &[Row] = &[
    (&[(Format, "ok")], "S1 NoTable"),
    (&[(Format, "ok"), (Create("t", &["a:int32?"]), "ok")], "0"),
    (&[(Format, "ok"), (Import("t", Ints(&[7, -1])), "ok")], "4"),
    (
        &[
            (Format, "ok"),
            (Import("t", Ints(&[7, -1])), "ok"),
            (Append("t", Ints(&[5])), "ok"),
            (Append("t", Ints(&[6, 8, 9])), "ok"),
        ],
        "12",
    ),
    (
        &[
            (Format, "ok"),
            (Import("t", Ints(&[7, -1])), "ok"),
            (Append("t", Ints(&[5])), "ok"),
            (Compact, "merged"),
        ],
        "6",
    ),
    (
        &[
            (Format, "ok"),
            (Import("t", Ints(&[7])), "ok"),
            (Rename("t", "u"), "ok"),
        ],
        "S1 NoTable",
    ),
];

fn weight_of(alloc: Global, slot: &mut Slot) -> Result<String, NotMade> {
    let Some(StoreOrDevice::Open(store)) = slot else {
        return Err(NotMade);
    };
    match store.weigh(alloc, "t") {
        Ok(weight) => Ok(format!(in alloc; "{weight}")?),
        Err(refusal) => Ok(format!(in alloc; "{refusal}")?),
    }
}

fn is_weighed(alloc: Global, slot: &mut Slot, row: &Row) -> Result<bool, NotMade> {
    let (steps, want) = *row;
    Ok(
        play(alloc, slot, steps, Way::EachCall)?.is_none()
            && weight_of(alloc, slot)?.as_str() == want,
    )
}

fn wrong_weight(alloc: Global, rows: &[Row]) -> Result<Option<usize>, NotMade> {
    for (place, row) in rows.iter().enumerate() {
        if !is_weighed(alloc, &mut new_slot(alloc, 16)?, row)? {
            return Ok(Some(place));
        }
    }
    Ok(None)
}

#[test]
fn a_table_is_weighed_with_all_of_its_segments(rt: HostRuntime) {
    assert_no_row(&rt, wrong_weight(rt.alloc(), WEIGHTS));
}
