// Which segments are sent.
ghost use Rattle.std.specs.Prelude.{◌≡◌, ◌∷◌, [], List, ℕ, not, true, false, OnOk, IfOk};
ghost use Rattle.table_archive.specs.Archive.{is_among};
ghost use Rattle.table_archive.specs.Wanted.{Knows};

use indexmap::IndexSet;
use std::alloc::{AllocError, Global};

/// The digests of the segments that a receiver has, or was sent.
#[derive(Drop)]
pub struct WantedDigests {
    known: IndexSet<[u8; 32]>,
}

impl WantedDigests {
    fn new(alloc: Global) -> WantedDigests
        ensures { Knows result [] }
    {
        WantedDigests {
            known: IndexSet::new(alloc),
        }
    }

    /// The receiver has the segments with these digests.
    ///
    /// # Errors
    /// `AllocError` if memory is refused.
    pub fn beside(alloc: Global, had: &[[u8; 32]]) -> Result<WantedDigests, AllocError>
        ensures { IfOk result (λ wanted. Knows wanted had.now) }
    {
        let mut wanted = WantedDigests::new(alloc);
        for digest in had {
            wanted.take(*digest)?;
        }
        Ok(wanted)
    }

    /// Returns whether the receiver lacks the segment with this digest. From then on it has it.
    ///
    /// # Errors
    /// `AllocError` if memory is refused.
    pub fn take(&mut self, digest: [u8; 32]) -> Result<bool, AllocError>
        ensures lacked { IfOk result (λ lacked. (had : List (List ℕ)) → Knows self.old had → lacked ≡ not (is_among digest had)) }
        ensures known { OnOk result ((had : List (List ℕ)) → Knows self.old had → Knows self.new (digest ∷ had)) }
        // Nothing changes where it is known already.
        ensures still { IfOk result (λ lacked. lacked ≡ false → (had : List (List ℕ)) → Knows self.old had → Knows self.new had) }
    {
        match self.known.insert(digest) {
            Ok(lacked) => Ok(lacked),
            Err(_) => Err(AllocError),
        }
    }
}
