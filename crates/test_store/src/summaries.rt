// The summary of a store, also while exports are open.
use crate::inputs::Input;
use crate::made::{NotMade, assert_no_row};
use crate::playing::{Slot, Way, new_slot, play};
use crate::steps::Step::{
    Append, CloseExport, Compact, ExportNext, Format, Import, OpenExport, Remove, Rename,
};
use crate::steps::Steps;
use Input::Ints;
use std::alloc::Global;
use std::fmt::Write as _;
use store::{StoreOrDevice, Summary};

const TWO: Input = Ints(&[7, -1]);

// How steps are taken on a device of 16 sectors, the steps, and the summary of the store that is open then.
type Row = (Way, Steps, &'static str);

// `compactions` has the layout: the segments are in sectors 3 and 2, and the catalogue in 5.
const SUMMARIES: &[Row] = &[
    (
        Way::EachCall,
        &[(Format, "ok")],
        "version 2, epoch 1, 16 sectors: 3 used, 13 free, 0 kept, 13 in a row; 0 tables, 0 segments",
    ),
    (
        Way::VersionOne,
        &[(Format, "ok")],
        "version 1, epoch 1, 16 sectors: 3 used, 13 free, 0 kept, 13 in a row; 0 tables, 0 segments",
    ),
    (
        Way::EachCall,
        &[
            (Format, "ok"),
            (Import("t", TWO), "ok"),
            (Append("t", TWO), "ok"),
        ],
        "version 2, epoch 3, 16 sectors: 5 used, 11 free, 0 kept, 10 in a row; 1 tables, 2 segments",
    ),
];

// A segment that an export keeps counts as kept once no table has it, also if the table was renamed.
const KEPT: &[Row] = &[
    (
        Way::EachCall,
        &[
            (Format, "ok"),
            (Import("t", TWO), "ok"),
            (OpenExport("t"), "export 0"),
            (Rename("t", "u"), "ok"),
        ],
        "version 2, epoch 3, 16 sectors: 4 used, 12 free, 0 kept, 12 in a row; 1 tables, 1 segments",
    ),
    (
        Way::EachCall,
        &[
            (Format, "ok"),
            (Import("t", TWO), "ok"),
            (OpenExport("t"), "export 0"),
            (Remove("t"), "ok"),
        ],
        "version 2, epoch 3, 16 sectors: 3 used, 12 free, 1 kept, 12 in a row; 0 tables, 0 segments",
    ),
    (
        Way::EachCall,
        &[
            (Format, "ok"),
            (Import("t", TWO), "ok"),
            (OpenExport("t"), "export 0"),
            (Remove("t"), "ok"),
            (CloseExport(0), "ok"),
        ],
        "version 2, epoch 3, 16 sectors: 3 used, 13 free, 0 kept, 13 in a row; 0 tables, 0 segments",
    ),
    (
        Way::EachCall,
        &[
            (Format, "ok"),
            (Import("t", TWO), "ok"),
            (OpenExport("t"), "export 0"),
            (Import("t", Ints(&[5])), "ok"),
        ],
        "version 2, epoch 3, 16 sectors: 4 used, 11 free, 1 kept, 10 in a row; 1 tables, 1 segments",
    ),
];

// An append leaves the old segments of the table, and a step of a compaction replaces them. What several exports keep counts once.
const KEPT_BY_SEVERAL: &[Row] = &[
    (
        Way::EachCall,
        &[
            (Format, "ok"),
            (Import("t", TWO), "ok"),
            (OpenExport("t"), "export 0"),
            (Append("t", TWO), "ok"),
        ],
        "version 2, epoch 3, 16 sectors: 5 used, 11 free, 0 kept, 10 in a row; 1 tables, 2 segments",
    ),
    (
        Way::VersionOne,
        &[
            (Format, "ok"),
            (Import("t", TWO), "ok"),
            (OpenExport("t"), "export 0"),
            (Append("t", TWO), "ok"),
            (OpenExport("t"), "export 1"),
            (ExportNext(1), "152 bytes"),
            (Compact, "merged"),
        ],
        "version 1, epoch 4, 16 sectors: 4 used, 10 free, 2 kept, 9 in a row; 1 tables, 1 segments",
    ),
    (
        Way::EachCall,
        &[
            (Format, "ok"),
            (Import("t", TWO), "ok"),
            (OpenExport("t"), "export 0"),
            (Append("t", TWO), "ok"),
            (OpenExport("t"), "export 1"),
            (Compact, "merged"),
            (CloseExport(1), "ok"),
        ],
        "version 2, epoch 4, 16 sectors: 4 used, 11 free, 1 kept, 9 in a row; 1 tables, 1 segments",
    ),
];

fn text_of(alloc: Global, summary: &Summary) -> Result<String, NotMade> {
    let Summary {
        format_version,
        epoch,
        sectors,
        used,
        free,
        kept,
        largest_free_run,
        tables,
        segments,
    } = *summary;
    let mut text = String::new(alloc);
    write!(
        text,
        "version {format_version}, epoch {epoch}, {sectors} sectors: {used} used, {free} free, {kept} kept, {largest_free_run} in a row; {tables} tables, {segments} segments"
    )?;
    Ok(text)
}

fn has_numbers(alloc: Global, slot: &Slot, want: &str) -> Result<bool, NotMade> {
    let Some(StoreOrDevice::Open(store)) = slot else {
        return Err(NotMade);
    };
    let summary = store.summary(alloc).map_err(|_| NotMade)?;
    Ok(text_of(alloc, &summary)?.as_str() == want)
}

fn is_summed(alloc: Global, slot: &mut Slot, row: &Row) -> Result<bool, NotMade> {
    let (way, steps, want) = *row;
    Ok(play(alloc, slot, steps, way)?.is_none() && has_numbers(alloc, slot, want)?)
}

fn wrong_summary(alloc: Global, rows: &[Row]) -> Result<Option<usize>, NotMade> {
    for (place, row) in rows.iter().enumerate() {
        if !is_summed(alloc, &mut new_slot(alloc, 16)?, row)? {
            return Ok(Some(place));
        }
    }
    Ok(None)
}

#[test]
fn a_store_in_numbers(rt: HostRuntime) {
    assert_no_row(&rt, wrong_summary(rt.alloc(), SUMMARIES));
}

#[test]
fn sectors_that_exports_keep_are_counted_apart(rt: HostRuntime) {
    assert_no_row(&rt, wrong_summary(rt.alloc(), KEPT));
    assert_no_row(&rt, wrong_summary(rt.alloc(), KEPT_BY_SEVERAL));
}
