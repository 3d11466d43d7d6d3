// What a device holds, as texts: the layout of its store, and the values of its tables, read without a store.
use crate::made::NotMade;
use crate::steps::{add_comma, add_values};
use arrow_schema::same_shape;
use catalogue::{Segment, TableEntry};
use commit::{Commit, OpenError, recover};
use ipc_stream::decode;
use sector_dev::{ModelDevice, SectorDevice};
use segments::read_run;
use std::alloc::Global;
use store::StoredCatalogue;
use values::Table;

// Returns the bytes of a segment on a device of at most 4,096 sectors.
fn bytes_at(alloc: Global, device: &mut ModelDevice, segment: Segment) -> Result<Vec<u8>, NotMade> {
    let sectors = device.sectors();
    let (start, bytes) = (segment.place.run.start, segment.place.bytes);
    if sectors > 4096 || start > sectors || bytes > 512 * (sectors - start) {
        return Err(NotMade);
    }
    read_run(alloc, device, start, bytes as usize).map_err(|_| NotMade)
}

// Returns the table of a segment.
fn table_at(alloc: Global, device: &mut ModelDevice, segment: Segment) -> Result<Table, NotMade> {
    let bytes = bytes_at(alloc, device, segment)?;
    decode(alloc, bytes).map_err(|_| NotMade)
}

// Returns whether a segment's table is the part of a table that the catalogue says.
fn is_part(entry: &TableEntry, segment: Segment, table: &Table) -> bool {
    table.len() as u64 == segment.rows && same_shape(entry.schema(), table.schema())
}

// Appends the values of a segment of a table.
fn add_segment(
    alloc: Global,
    text: &mut String,
    device: &mut ModelDevice,
    entry: &TableEntry,
    segment: Segment,
) -> Result<(), NotMade> {
    let table = table_at(alloc, device, segment)?;
    if is_part(entry, segment, &table) {
        add_values(text, &table)
    } else {
        Err(NotMade)
    }
}

// Appends the values of a table, as `t: 7 -1`.
fn add_values_of(
    alloc: Global,
    text: &mut String,
    device: &mut ModelDevice,
    entry: &TableEntry,
) -> Result<(), NotMade> {
    let name = entry.name();
    write!(text, "{name}:")?;
    for segment in entry.segments() {
        add_segment(alloc, text, device, entry, *segment)?;
    }
    Ok(())
}

fn add_all_values(
    alloc: Global,
    text: &mut String,
    device: &mut ModelDevice,
    entries: &[TableEntry],
) -> Result<(), NotMade> {
    for (place, entry) in entries.iter().enumerate() {
        add_comma(text, place)?;
        add_values_of(alloc, text, device, entry)?;
    }
    Ok(())
}

fn add_contents(alloc: Global, text: &mut String, device: &mut ModelDevice) -> Result<(), NotMade> {
    match recover::<StoredCatalogue, ModelDevice>(alloc, device) {
        Ok(store) => add_all_values(alloc, text, device, store.catalogue.list.entries()),
        Err(OpenError::NotAStore) => Ok(text.push_str("none")?),
        Err(OpenError::Damaged(_)) => Ok(text.push_str("damaged")?),
        Err(_) => Err(NotMade),
    }
}

/// Returns the values of each table, as `t: 7 -1, u:`; `none` if there is no store, and `damaged` if the store is.
pub fn contents(alloc: Global, device: &mut ModelDevice) -> Result<String, NotMade> {
    let mut text = String::new(alloc);
    add_contents(alloc, &mut text, device)?;
    Ok(text)
}

// Appends the places of a table, as `t: 3+1 5+2`: the first sector and the number of sectors of each segment. If the table has a page, its first
// sector and its bytes come first, as `t page 4 of 192: 3+1`.
fn add_places_of(text: &mut String, entry: &TableEntry) -> Result<(), NotMade> {
    text.push_str(entry.name())?;
    if let Some(page) = entry.page {
        let (start, bytes) = (page.run.start, page.bytes);
        write!(text, " page {start} of {bytes}")?;
    }
    text.push_str(":")?;
    for segment in entry.segments() {
        let (start, count) = (segment.place.run.start, segment.place.run.count);
        write!(text, " {start}+{count}")?;
    }
    Ok(())
}

// Appends all places, as `epoch 2, 201 in 4, t: 3+1`: the bytes of the list or the root, and where it lies.
fn add_places(text: &mut String, commit: Commit, entries: &[TableEntry]) -> Result<(), NotMade> {
    let (epoch, place) = (commit.epoch, commit.catalogue);
    let (bytes, start) = (place.bytes, place.run.start);
    write!(text, "epoch {epoch}, {bytes} in {start}")?;
    for entry in entries {
        text.push_str(", ")?;
        add_places_of(text, entry)?;
    }
    Ok(())
}

fn add_layout(alloc: Global, text: &mut String, device: &mut ModelDevice) -> Result<(), NotMade> {
    match recover::<StoredCatalogue, ModelDevice>(alloc, device) {
        Ok(store) => add_places(text, store.commit, store.catalogue.list.entries()),
        Err(OpenError::NotAStore) => Ok(text.push_str("none")?),
        Err(_) => Err(NotMade),
    }
}

/// Returns whether the epoch, the bytes and the first sector of the catalogue, and the segments of each table are these; `none` if there is no
/// store.
pub fn is_laid_out(alloc: Global, device: &mut ModelDevice, want: &str) -> Result<bool, NotMade> {
    let mut text = String::new(alloc);
    add_layout(alloc, &mut text, device)?;
    Ok(text.as_str() == want)
}
