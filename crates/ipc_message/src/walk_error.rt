// The errors of a walk that keeps what it reads.

ghost use Rattle.std.specs.Prelude.{◌≡◌};
ghost use Rattle.ipc_message.specs.Framing.{flat_fault};
ghost use Rattle.ipc_message.specs.declared.walk_error.WalkError.TheVariants.{Memory, Flat};

use crate::Fault;
use flatbuf::FlatError;
use std::alloc::{AllocError, AllocFailed};

/// Memory was refused, or something bad was met.
#[derive(Clone, Copy)]
pub(crate) enum WalkError {
    Memory,
    Flat(FlatError),
}

impl From<FlatError> for WalkError {
    ghost from_gives = { λ f e. e ≡ Flat f };

    fn from(f: FlatError) -> WalkError {
        WalkError::Flat(f)
    }
}

impl From<AllocError> for WalkError {
    ghost from_gives = { λ _ e. e ≡ Memory };

    fn from(_e: AllocError) -> WalkError {
        WalkError::Memory
    }
}

impl<T: Drop> From<AllocFailed<T>> for WalkError {
    ghost from_gives = { λ _ e. e ≡ Memory };

    fn from(_e: AllocFailed<T>) -> WalkError {
        WalkError::Memory
    }
}

/// F5 if the budget of tables or levels is spent, and F4 otherwise.
impl From<FlatError> for Fault {
    ghost from_gives = { λ f e. e ≡ flat_fault f };

    fn from(f: FlatError) -> Fault {
        match f {
            FlatError::Bounds | FlatError::VtableSize => Fault::FlatBounds,
            FlatError::Budget => Fault::FlatBudget,
        }
    }
}
