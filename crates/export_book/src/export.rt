// An open export.
ghost use Rattle.std.specs.Prelude.{◌≡◌};
ghost use Rattle.catalogue.specs.Entries.{plain_entry, runs_in_segments};

use catalogue::TableEntry;
use segments::Run;

/// An open export: the entry at its opening, the runs of its segments, and the number of its pieces that were given. The pieces are the schema, one for
/// each segment, and the end.
#[derive(Drop)]
pub struct OpenExport {
    pub id: u64,
    pub entry: TableEntry,
    /// Kept, so that closing allocates no memory.
    pub runs: Vec<Run>,
    pub given: u64,
    pub ghost listed: { runs.items ≡ runs_in_segments (plain_entry entry).segments },
}
