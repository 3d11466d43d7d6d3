// Joins neighbouring segments of a table whose rows are one piece.
ghost use Rattle.std.specs.Prelude.{◌≡◌, ◌≤◌, ◌+◌, true, nat_le, length, map, IfOk, IfErr};
ghost use Rattle.sector_dev.specs.Disk.{now, shown_image};
ghost use Rattle.cells.specs.declared.limits.TheConstants.{MAX_PIECE_ROWS};
ghost use Rattle.values.specs.TableView.{table_of};
ghost use Rattle.catalogue.specs.Entries.{plain_entry, is_entry, row_count, runs_of, IsCatalogue, runs_in_segments};
ghost use Rattle.commit.specs.Standing.{is_size, all_on_device};
ghost use Rattle.store_changes.specs.Change.{change_of};
ghost use Rattle.store_runs.specs.Changes.{exchange};
ghost use Rattle.store_runs.specs.Deciding.{pieces_put};
ghost use Rattle.store_runs.specs.Reading.{IsRead, OnlyReadsDevice, ended};
ghost use Rattle.store_runs.specs.Compacting.{pair_of, is_one_piece, UnreadsPair, UnreadsInPairs};
ghost use Rattle.store_changes.specs.Finding.{IsPair, FindsIn, UnreadsFew, UnreadsIn, FindsPair};

use crate::change::{Change, Edit, NewSegments, SegmentRows};
use crate::reading::read_entry;
use catalogue::TableEntry;
use cells::MAX_PIECE_ROWS;
use sector_dev::SectorDevice;
use std::alloc::{AllocError, Global};
use table_cut::next_piece;
use tables::Refusal;
use values::Table;

// Returns whether a pair may be one piece by the numbers of its rows in the catalogue. Otherwise it is not read.
fn may_be_one(entry: &TableEntry, place: usize) -> bool
    requires sound { is_entry (plain_entry entry.now) ≡ true }
    requires within { place + 2 ≤ length (plain_entry entry.now).segments }
    ensures { result ≡ nat_le (row_count (pair_of (plain_entry entry.now) place)) MAX_PIECE_ROWS }
{
    let segments = entry.segments();
    let first = segments[place].rows;
    let second = segments[place + 1].rows;
    first + second <= MAX_PIECE_ROWS as u64
}

// Returns whether all rows are cut into one piece.
fn is_one_piece(alloc: Global, table: &Table) -> Result<bool, AllocError>
    requires { 1 ≤ length (table_of table.now).rows }
    ensures { IfOk result (λ one. one ≡ is_one_piece (table_of table.now)) }
{
    let piece = next_piece(alloc, table.schema(), table, 0)?;
    Ok(piece.len() == table.len())
}

// Returns two neighbours as the entry of a table of their own.
fn pair_of(alloc: Global, entry: &TableEntry, place: usize) -> Result<TableEntry, AllocError>
    requires within { place + 2 ≤ length (plain_entry entry.now).segments }
    ensures { IfOk result (λ pair. plain_entry pair ≡ pair_of (plain_entry entry.now) place) }
{
    let name = String::from_str(alloc, entry.name())?;
    let schema = entry.schema().copy(alloc)?;
    let segments = Vec::from_slice(alloc, &entry.segments()[place..place + 2])?;
    TableEntry::new(alloc, name, schema, segments, None)
}

// Reads the rows of a pair as a table.
fn read_pair<D: SectorDevice>(
    alloc: Global,
    device: &mut D,
    entry: &TableEntry,
    place: usize,
) -> Result<Table, Refusal>
    requires size { is_size (D.size device.old) ≡ true }
    requires placed { all_on_device (D.size device.old) (runs_in_segments (plain_entry entry.now).segments) ≡ true }
    requires sound { is_entry (plain_entry entry.now) ≡ true }
    requires within { place + 2 ≤ length (plain_entry entry.now).segments }
    ensures reads { OnlyReadsDevice D.size D.story D.failed D.tells (ended result) device.old device.new }
    ensures read { IfOk result (λ t. IsRead D.tells (shown_image (now (D.story device.old))) (pair_of (plain_entry entry.now) place) (table_of t)) }
    ensures unread { IfErr result (UnreadsPair D.tells (shown_image (now (D.story device.old))) (plain_entry entry.now) place) }
{
    match pair_of(alloc, entry, place) {
        Ok(pair) => match read_entry(alloc, device, &pair) {
            Ok(table) => Ok(table),
            Err(Refusal::SegmentUnread(at)) => Err(Refusal::SegmentUnread(place + at)),
            Err(Refusal::SegmentDamaged(at)) => Err(Refusal::SegmentDamaged(place + at)),
            Err(refusal) => Err(refusal),
        },
        Err(_) => Err(Refusal::OutOfMemory),
    }
}

// Returns the table of a pair whose rows are one piece; `None` if they stay two segments.
fn joined_at<D: SectorDevice>(
    alloc: Global,
    device: &mut D,
    entry: &TableEntry,
    place: usize,
) -> Result<Option<Table>, Refusal>
    requires size { is_size (D.size device.old) ≡ true }
    requires placed { all_on_device (D.size device.old) (runs_in_segments (plain_entry entry.now).segments) ≡ true }
    requires sound { is_entry (plain_entry entry.now) ≡ true }
    requires within { place + 2 ≤ length (plain_entry entry.now).segments }
    ensures reads { OnlyReadsDevice D.size D.story D.failed D.tells (ended result) device.old device.new }
    ensures pair { IfOk result (IsPair D.tells (shown_image (now (D.story device.old))) (plain_entry entry.now) place) }
    ensures unread { IfErr result (UnreadsFew D.tells (shown_image (now (D.story device.old))) (plain_entry entry.now) place) }
{
    if !may_be_one(entry, place) {
        return Ok(None);
    }
    match read_pair(alloc, device, entry, place) {
        Ok(table) => match is_one_piece(alloc, &table) {
            Ok(true) => Ok(Some(table)),
            Ok(false) => Ok(None),
            Err(_) => Err(Refusal::OutOfMemory),
        },
        Err(refusal) => Err(refusal),
    }
}

// Returns the change that joins the pair.
fn merge(
    alloc: Global,
    entry: &TableEntry,
    place: usize,
    table: Table,
) -> Result<Change, AllocError>
    ensures { IfOk result (λ change. change_of change ≡ pieces_put (exchange (plain_entry entry.now).name place 2) (table_of table)) }
{
    let name = String::from_str(alloc, entry.name())?;
    let rows = SegmentRows {
        table,
        schema: None,
    };
    Ok(Change {
        edit: Edit::Exchange {
            name,
            place,
            count: 2,
        },
        new: Some(NewSegments::Rows(rows)),
    })
}

// Returns the change that joins the first pair of a table whose rows are one piece.
fn first_pair_of<D: SectorDevice>(
    alloc: Global,
    device: &mut D,
    entry: &TableEntry,
) -> Result<Option<Change>, Refusal>
    requires size { is_size (D.size device.old) ≡ true }
    requires placed { all_on_device (D.size device.old) (runs_in_segments (plain_entry entry.now).segments) ≡ true }
    requires sound { is_entry (plain_entry entry.now) ≡ true }
    ensures reads { OnlyReadsDevice D.size D.story D.failed D.tells (ended result) device.old device.new }
    ensures found { IfOk result (FindsIn D.tells (shown_image (now (D.story device.old))) (plain_entry entry.now)) }
    ensures unread { IfErr result (UnreadsIn D.tells (shown_image (now (D.story device.old))) (plain_entry entry.now)) }
{
    for place in 0..entry.segments().len().saturating_sub(1) {
        match joined_at(alloc, device, entry, place) {
            Ok(Some(table)) => {
                return match merge(alloc, entry, place, table) {
                    Ok(change) => Ok(Some(change)),
                    Err(_) => Err(Refusal::OutOfMemory),
                };
            }
            Ok(None) => {}
            Err(refusal) => return Err(refusal),
        }
    }
    Ok(None)
}

/// Returns the change that joins the first pair of all tables, in order, whose rows are one piece. Only reads.
///
/// # Errors
/// `SegmentUnread`, `SegmentDamaged`, `Device`, `OutOfMemory`.
pub(crate) fn first_pair<D: SectorDevice>(
    alloc: Global,
    device: &mut D,
    entries: &[TableEntry],
) -> Result<Option<Change>, Refusal>
    requires size { is_size (D.size device.old) ≡ true }
    requires placed { all_on_device (D.size device.old) (runs_of (map plain_entry entries.now)) ≡ true }
    requires stands { IsCatalogue (map plain_entry entries.now) }
    ensures reads { OnlyReadsDevice D.size D.story D.failed D.tells (ended result) device.old device.new }
    ensures found { IfOk result (FindsPair D.tells (shown_image (now (D.story device.old))) (map plain_entry entries.now)) }
    ensures unread { IfErr result (UnreadsInPairs D.tells (shown_image (now (D.story device.old))) (map plain_entry entries.now)) }
{
    for entry in entries {
        match first_pair_of(alloc, device, entry) {
            Ok(Some(change)) => return Ok(Some(change)),
            Ok(None) => {}
            Err(refusal) => return Err(refusal),
        }
    }
    Ok(None)
}
