// The refusal of an opening.
ghost use Rattle.std.specs.Prelude.{◌≡◌};
ghost use Rattle.store.specs.Opening.{opening_of};

use commit::{OpenError, OpeningRefusal};

// Returns the refusal that is reported if a store is not opened.
pub(crate) fn opening_refusal(error: OpenError) -> OpeningRefusal
    ensures { result ≡ opening_of error }
{
    match error {
        OpenError::NotAStore => OpeningRefusal::NotAStore,
        OpenError::Damaged(cause) => OpeningRefusal::Damaged(cause),
        OpenError::Device => OpeningRefusal::Device,
        OpenError::OutOfMemory => OpeningRefusal::OutOfMemory,
    }
}
