// The bytes of a run that do not fill a sector yet.
ghost use Rattle.std.specs.Prelude.{◌≤◌};

use sector_dev::SECTOR_BYTES;

// The bytes after the last whole sector, and the sector that they go into.
#[derive(Drop)]
pub(crate) struct Tail {
    pub(crate) start: u64,
    sector: [u8; SECTOR_BYTES],
    count: usize,
    ghost within: { count ≤ 512 },
}

impl Tail {
    ghost use Rattle.std.specs.Prelude.{◌≡◌, ◌<◌, ◌+◌, ◌-◌, ◌^◌, ◌++◌, [], length, take, min, None, IfSome};
    ghost use Rattle.segments.specs.inner.Tails.{tail_bytes};

    // Creates a tail without bytes.
    pub(crate) fn new(start: u64) -> Tail
        ensures start { result.start ≡ start }
        ensures bytes { tail_bytes result ≡ [] }
    {
        Tail {
            start,
            sector: [0; SECTOR_BYTES],
            count: 0,
        }
    }

    pub(crate) fn bytes(&self) -> &[u8]
        ensures { result.now ≡ tail_bytes self.now }
    {
        &self.sector[..self.count]
    }

    // Adds bytes until the sector is full, and returns how many were added.
    pub(crate) fn fill(&mut self, bytes: &[u8]) -> usize
        ensures start { self.new.start ≡ self.old.start }
        ensures taken { result ≡ min (512 - length (tail_bytes self.old)) (length bytes.now) }
        ensures bytes { tail_bytes self.new ≡ tail_bytes self.old ++ take result bytes.now }
    {
        let taken = (SECTOR_BYTES - self.count).min(bytes.len());
        self.sector[self.count..self.count + taken].copy_from_slice(&bytes[..taken]);
        self.count += taken;
        taken
    }

    // Returns the sector if it is full.
    pub(crate) fn full(&self) -> Option<&[u8; SECTOR_BYTES]>
        ensures some { IfSome result (λ sector. sector.now ≡ tail_bytes self.now) }
        ensures whole { IfSome result (λ sector. length sector.now ≡ 512) }
        ensures none { result ≡ None → length (tail_bytes self.now) < 512 }
    {
        if self.count == SECTOR_BYTES {
            Some(&self.sector)
        } else {
            None
        }
    }

    // Restarts `count` sectors later with these bytes.
    pub(crate) fn restart(&mut self, count: u64, bytes: &[u8])
        requires count { self.old.start + count < 2 ^ 64 }
        requires bytes { length bytes.now ≤ 512 }
        ensures start { self.new.start ≡ self.old.start + count }
        ensures bytes { tail_bytes self.new ≡ bytes.now }
    {
        self.start += count;
        self.count = 0;
        self.fill(bytes);
    }
}
