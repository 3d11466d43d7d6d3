// Salvages of a table with changed sectors: the table that the stream means, and the segments that are left out.
use crate::made::{NotMade, assert_no_row};
use crate::openings::{Change, changed, device_after, stored};
use crate::playing::{VERSIONS, Way};
use crate::steps::add_table;
use ipc_stream::decode;
use sector_dev::ModelDevice;
use std::alloc::Global;
use std::fmt::Write as _;
use store::{LeftOut, Store};

// The first segment of t has two rows, in sector 3, and the second one row, in sector 2; that of u begins in sector 6.
const SALVAGED: &[(&[Change], &str, &str)] = &[
    (&[], "t", "\"a\":int32?: 7 -1 5"),
    (&[], "v", "\"a\":int32?:"),
    (&[], "x", "S1 NoTable"),
    (&[(3, 0, 1)], "t", "\"a\":int32?: 5, without 2 rows of 0"),
    (&[(2, 0, 1)], "t", "\"a\":int32?: 7 -1, without 1 rows of 1"),
    (
        &[(2, 0, 1), (3, 0, 1)],
        "t",
        "\"a\":int32?:, without 2 rows of 0, without 1 rows of 1",
    ),
    (&[(6, 0, 1)], "u", "\"b\":int64:, without 26 rows of 0"),
];

fn add_left_out(text: &mut String, left_out: &[LeftOut]) -> Result<(), NotMade> {
    for segment in left_out {
        let LeftOut { place, rows } = *segment;
        write!(text, ", without {rows} rows of {place}")?;
    }
    Ok(())
}

fn add_salvaged(
    alloc: Global,
    text: &mut String,
    store: &mut Store<ModelDevice>,
    name: &str,
) -> Result<(), NotMade> {
    let mut bytes = Vec::new(alloc);
    match store.salvage(alloc, name, &mut bytes) {
        Ok(left_out) => {
            let table = decode(alloc, bytes).map_err(|_| NotMade)?;
            add_table(alloc, text, &table)?;
            add_left_out(text, &left_out)
        }
        Err(refusal) => Ok(write!(text, "{refusal}")?),
    }
}

fn salvaged(alloc: Global, device: ModelDevice, name: &str) -> Result<String, NotMade> {
    let mut text = String::new(alloc);
    let mut store = Store::open(alloc, device).map_err(|_| NotMade)?;
    add_salvaged(alloc, &mut text, &mut store, name)?;
    Ok(text)
}

fn is_salvaged(
    alloc: Global,
    made: Way,
    changes: &[Change],
    name: &str,
    want: &str,
) -> Result<bool, NotMade> {
    let device = changed(&device_after(alloc, stored(), made)?, changes)?;
    Ok(salvaged(alloc, device, name)?.as_str() == want)
}

// Returns whether the salvage is right in both versions.
fn are_salvaged(
    alloc: Global,
    changes: &[Change],
    name: &str,
    want: &str,
) -> Result<bool, NotMade> {
    let mut well = true;
    for made in VERSIONS {
        well = well && is_salvaged(alloc, *made, changes, name, want)?;
    }
    Ok(well)
}

fn wrong_salvage(alloc: Global) -> Result<Option<usize>, NotMade> {
    for (place, (changes, name, want)) in SALVAGED.iter().enumerate() {
        if !are_salvaged(alloc, changes, name, want)? {
            return Ok(Some(place));
        }
    }
    Ok(None)
}

#[test]
fn a_salvage_gives_the_rows_of_each_segment_that_can_be_read(rt: HostRuntime) {
    assert_no_row(&rt, wrong_salvage(rt.alloc()));
}
