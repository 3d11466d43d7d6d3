// Files that another program may have left in doubt.
ghost use Rattle.std.specs.Prelude.{◌≤◌};

use crate::SectorFile;

mod calls;
mod made;
mod ruling;

use ruling::RulingSectors;

/// A file that was there before it was opened. A write or a sync of it that failed earlier, perhaps in another program, may have left what reads show in
/// the system's memory alone, and the system would not write it again. So the first sync of this file has the system write the first two sectors, as reads
/// have shown them, unless they were written since: it brings them to the disk, or fails.
///
/// It tells no story, since what the other sectors hold stays in doubt. Its clauses say what the file below does.
#[derive(Drop)]
pub struct ConfirmedFile<F: SectorFile + Drop> {
    file: F,
    // until the first sync that succeeds
    ruling: Option<RulingSectors>,
    ghost room: { 2 ≤ F.size file },
}
