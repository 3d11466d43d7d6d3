// A catalogue for the tests that names at most two runs. The type is not in a test module, because a definition uses it.
ghost use Rattle.std.specs.Prelude.{◌≡◌, ◌+◌, ◌<◌, List, length};
ghost use Rattle.segments.specs.declared.run.Run.{Run};
ghost use Rattle.test_device.specs.Few.{run_at, runs_of, reading_of};

use commit::{Cause, Commit, OpenError, ReadCatalogue};
use sector_dev::SectorDevice;
use segments::Run;
use std::alloc::{AllocError, Global};

/// The runs that it names. Its text has two bytes for each, the start and the count, after four other bytes.
#[derive(Clone, Copy, Drop)]
pub enum Few {
    Nothing,
    One(Run),
    Two(Run, Run),
}

// Returns the run of the two bytes at this place.
fn run_at(text: &[u8], at: usize) -> Run
    requires { at + 1 < length text.now }
    ensures { result ≡ run_at at text.now }
{
    Run {
        start: u64::from(text[at]),
        count: u64::from(text[at + 1]),
    }
}

impl ReadCatalogue for Few {
    ghost Plain = { List Run };

    ghost plain_of = { runs_of };

    ghost reading = { reading_of };

    ghost fits_commit = { λ k c. Unit {0} };

    fn read<D: SectorDevice>(
        _alloc: Global,
        _device: &mut D,
        _commit: Commit,
        text: &[u8],
    ) -> Result<Self, OpenError> {
        if text.len() == 4 {
            return Ok(Few::Nothing);
        }
        if text.len() == 6 {
            return Ok(Few::One(run_at(text, 4)));
        }
        if text.len() == 8 {
            return Ok(Few::Two(run_at(text, 4), run_at(text, 6)));
        }
        Err(OpenError::Damaged(Cause::CatalogueText))
    }

    fn runs(&self, alloc: Global) -> Result<Vec<Run>, AllocError> {
        match *self {
            Few::Nothing => Ok(Vec::new(alloc)),
            Few::One(run) => Vec::from_slice(alloc, &[run]),
            Few::Two(first, second) => Vec::from_slice(alloc, &[first, second]),
        }
    }

    ghost local = { λ size a b k text c is same. is };
}
