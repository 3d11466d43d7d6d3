// Bytes in a run of their own.
ghost use Rattle.std.specs.Prelude.{◌≡◌, ◌==◌};
ghost use Rattle.segments.specs.Sectors.{sector_count};

use crate::Run;
use sector_dev::SECTOR_BYTES;

/// A number of bytes at the start of a run of their own, which is zero-filled to its end.
#[derive(Clone, Copy, Debug, PartialEq, Eq)]
pub struct Extent {
    pub run: Run,
    pub bytes: u64,
}

impl Extent {
    /// Returns whether the run has exactly the sectors that the bytes need.
    pub fn fills_its_run(self) -> bool
        ensures { result ≡ (self.run.count == sector_count self.bytes) }
    {
        self.run.count == self.bytes.div_ceil(SECTOR_BYTES as u64)
    }
}
