// Commands one after another: what is answered, and what the device holds then. The rows are in modules of their own.
use crate::made::{NotMade, assert_no_row};
use crate::playing::{Slot, WAYS, Way, new_slot, play, shut};
use crate::shown::is_laid_out;
use crate::steps::Steps;
use crate::{lowest_runs, no_room, paged_catalogues, read_tables, refused_commands};
use std::alloc::Global;

/// The number of sectors of a device, the steps, and the final layout of the store. The rows are split into parts, since the cost to prove a
/// constant grows faster than its length.
/// constant costs to prove grows faster than its length.
pub type Row = (u64, Steps, &'static str);

// Returns the place of the step with a wrong reply, or the number of steps if the layout is wrong.
fn wrong_step_on(
    alloc: Global,
    slot: &mut Slot,
    row: &Row,
    way: Way,
) -> Result<Option<usize>, NotMade> {
    let (_, steps, want) = *row;
    let wrong = play(alloc, slot, steps, way)?;
    if wrong.is_none() && !is_laid_out(alloc, &mut shut(slot)?, want)? {
        return Ok(Some(steps.len()));
    }
    Ok(wrong)
}

fn wrong_step(alloc: Global, row: &Row, way: Way) -> Result<Option<usize>, NotMade> {
    wrong_step_on(alloc, &mut new_slot(alloc, row.0)?, row, way)
}

// Returns the place of the first row with a wrong step, a hundred for each, plus that of the step.
fn wrong_row(alloc: Global, rows: &[Row]) -> Result<Option<usize>, NotMade> {
    for (place, row) in rows.iter().enumerate() {
        for way in WAYS {
            if let Some(step) = wrong_step(alloc, row, *way)? {
                return Ok(Some(place.wrapping_mul(100).wrapping_add(step)));
            }
        }
    }
    Ok(None)
}

// What is tested of commands.
#[derive(Clone, Copy)]
enum Topic {
    Places,
    Pages,
    Room,
    Read,
    Refused,
}

fn rows(topic: Topic, part: usize) -> Option<&'static [Row]> {
    match topic {
        Topic::Places => lowest_runs::part(part),
        Topic::Pages => paged_catalogues::part(part),
        Topic::Room => no_room::part(part),
        Topic::Read => read_tables::part(part),
        Topic::Refused => refused_commands::part(part),
    }
}

// Returns the place of the first wrong row, counting ten thousand for each part of the table.
fn wrong_part(alloc: Global, topic: Topic) -> Result<Option<usize>, NotMade> {
    for part in 0..usize::MAX {
        let Some(rows) = rows(topic, part) else {
            return Ok(None);
        };
        if let Some(place) = wrong_row(alloc, rows)? {
            return Ok(Some(part.wrapping_mul(10_000).wrapping_add(place)));
        }
    }
    Ok(None)
}

#[test]
fn changes_take_the_lowest_runs_that_fit(rt: HostRuntime) {
    assert_no_row(&rt, wrong_part(rt.alloc(), Topic::Places));
}

#[test]
fn a_long_list_of_tables_is_kept_in_pages(rt: HostRuntime) {
    assert_no_row(&rt, wrong_part(rt.alloc(), Topic::Pages));
}

#[test]
fn room_is_told_of_a_run_that_stands_nowhere(rt: HostRuntime) {
    assert_no_row(&rt, wrong_part(rt.alloc(), Topic::Room));
}

#[test]
fn a_table_is_read_as_it_was_written(rt: HostRuntime) {
    assert_no_row(&rt, wrong_part(rt.alloc(), Topic::Read));
}

#[test]
fn the_first_test_that_fails_is_told(rt: HostRuntime) {
    assert_no_row(&rt, wrong_part(rt.alloc(), Topic::Refused));
}
