// Decides on a step of a compaction: two neighbouring segments are joined, or the last segment is moved to a lower start.
ghost use Rattle.std.specs.Prelude.{◌≡◌, true, map, Ok, Err, IfOk, IfErr};
ghost use Rattle.sector_dev.specs.Disk.{now, shown_image};
ghost use Rattle.segments.specs.Usages.{IsUsedIn};
ghost use Rattle.catalogue.specs.Entries.{plain_entry, runs_of, IsCatalogue};
ghost use Rattle.commit.specs.Standing.{is_size, all_on_device};
ghost use Rattle.store_runs.specs.Reading.{OnlyReadsDevice, ended};
ghost use Rattle.store_runs.specs.Compacting.{UnreadsStep};
ghost use Rattle.store_changes.specs.Finding.{FindsStep};

use crate::change::Change;
use crate::moving::decide_move;
use crate::pairs::first_pair;
use catalogue::TableEntry;
use sector_dev::SectorDevice;
use segments::FreeMap;
use std::alloc::Global;
use store_runs::Compaction;
use tables::Refusal;

/// A step of a compaction, and the change that does it.
#[derive(Drop)]
pub struct Step {
    pub done: Compaction,
    pub change: Change,
}

/// Returns the next step for these tables and these free runs; `None` if there is nothing to do. Only reads.
///
/// # Errors
/// `SegmentUnread` or `SegmentDamaged` with the place of a segment that can't be read; `Device`; `OutOfMemory`.
pub fn decide_step<D: SectorDevice>(
    alloc: Global,
    device: &mut D,
    free: &FreeMap,
    entries: &[TableEntry],
) -> Result<Option<Step>, Refusal>
    requires size { is_size (D.size device.old) ≡ true }
    requires placed { all_on_device (D.size device.old) (runs_of (map plain_entry entries.now)) ≡ true }
    requires stands { IsCatalogue (map plain_entry entries.now) }
    ensures reads { OnlyReadsDevice D.size D.story D.failed D.tells (ended result) device.old device.new }
    ensures found { IfOk result (FindsStep D.tells (shown_image (now (D.story device.old))) free.now.size (IsUsedIn free.now.entries)
        (map plain_entry entries.now)) }
    ensures unread { IfErr result (UnreadsStep D.tells (shown_image (now (D.story device.old))) (map plain_entry entries.now)) }
{
    match first_pair(alloc, device, entries) {
        Ok(Some(change)) => Ok(Some(Step {
            done: Compaction::Merged,
            change,
        })),
        Ok(None) => match decide_move(alloc, device, free, entries) {
            Ok(Some(change)) => Ok(Some(Step {
                done: Compaction::Moved,
                change,
            })),
            Ok(None) => Ok(None),
            Err(refusal) => Err(refusal),
        },
        Err(refusal) => Err(refusal),
    }
}
