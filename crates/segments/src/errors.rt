// Why a run can't be taken or entered.
use std::alloc::AllocError;
use thiserror::Error;

/// Why no run was taken.
#[derive(Clone, Copy, Debug, PartialEq, Eq, Error)]
pub enum TakeError {
    /// No run of this many sectors is free.
    #[error("no room for {0} sectors")]
    NoRoom(u64),
    #[error("out of memory")]
    OutOfMemory,
}

/// Why a run did not come into use.
#[derive(Clone, Copy, Debug, PartialEq, Eq, Error)]
pub enum EnterError {
    /// The run is empty, starts before sector 2 or ends past the device.
    #[error("a run outside the device")]
    Range,
    /// The run meets another run in use.
    #[error("a run over another one")]
    Overlap,
    /// The run has as many pins as can be counted.
    #[error("a run pinned too often")]
    TooManyPins,
    #[error("out of memory")]
    OutOfMemory,
}

impl From<AllocError> for TakeError {
    ghost use Rattle.std.specs.Prelude.{◌≡◌};
    ghost use Rattle.segments.specs.declared.errors.TakeError.TheVariants.{OutOfMemory};

    ghost from_gives = { λ _ e. e ≡ OutOfMemory };

    fn from(_: AllocError) -> Self {
        TakeError::OutOfMemory
    }
}

impl From<AllocError> for EnterError {
    ghost use Rattle.std.specs.Prelude.{◌≡◌};
    ghost use Rattle.segments.specs.declared.errors.EnterError.TheVariants.{OutOfMemory};

    ghost from_gives = { λ _ e. e ≡ OutOfMemory };

    fn from(_: AllocError) -> Self {
        EnterError::OutOfMemory
    }
}
