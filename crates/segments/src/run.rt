// Runs of sectors.
ghost use Rattle.std.specs.Prelude.{◌≡◌, ◌+◌, ◌≤◌, ◌<◌, ◌^◌, ◌↔◌, IsTrue};
ghost use Rattle.segments.specs.Runs.{IsOnDevice};

/// Sectors in a row: the first one and their number.
#[derive(Clone, Copy, Debug, PartialEq, Eq)]
pub struct Run {
    pub start: u64,
    pub count: u64,
}

impl Run {
    /// Returns the number of the sector after the last one.
    pub fn end(self) -> u64
        requires { self.start + self.count < 2 ^ 64 }
        ensures { result ≡ self.start + self.count }
    {
        self.start + self.count
    }

    /// Returns whether this is a sector of the run.
    pub fn contains(self, sector: u64) -> bool
        ensures { IsTrue result ↔ ((self.start ≤ sector) × (sector < self.start + self.count)) }
    {
        self.start <= sector && sector - self.start < self.count
    }

    /// Returns whether the run has at least one sector, starts after the two commit sectors, and ends on a device of `size` sectors.
    pub fn is_on_device(self, size: u64) -> bool
        ensures { IsTrue result ↔ IsOnDevice size self }
    {
        self.start >= 2 && self.count >= 1 && self.start <= size && self.count <= size - self.start
    }
}
