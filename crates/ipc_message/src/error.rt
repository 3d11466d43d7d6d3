// The errors of reading.
ghost use Rattle.std.specs.Prelude.{◌≡◌};
ghost use Rattle.ipc_message.specs.declared.error.ImportError.TheVariants.{OutOfMemory};

use crate::fault::Fault;
use std::alloc::{AllocError, AllocFailed};
use thiserror::Error;

/// Why a stream was not read: it has a fault, or memory was refused.
#[derive(Clone, Copy, Debug, PartialEq, Eq, Error)]
pub enum ImportError {
    #[error(transparent)]
    Fault(Fault),
    #[error("OutOfMemory")]
    OutOfMemory,
}

impl From<AllocError> for ImportError {
    ghost from_gives = { λ _ e. e ≡ OutOfMemory };

    fn from(_e: AllocError) -> ImportError {
        ImportError::OutOfMemory
    }
}

impl<T: Drop> From<AllocFailed<T>> for ImportError {
    ghost from_gives = { λ _ e. e ≡ OutOfMemory };

    fn from(_e: AllocFailed<T>) -> ImportError {
        ImportError::OutOfMemory
    }
}
