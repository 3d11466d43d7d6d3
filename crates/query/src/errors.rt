use std::alloc::AllocError;
use thiserror::Error;

/// Why a query is refused.
#[derive(Clone, Copy, Debug, Error)]
pub enum QueryError {
    /// No column has this name, or several have, or it is asked for twice.
    #[error("Q1 UnknownColumn")]
    UnknownColumn,
    /// The string of a condition has another form, or its literal is not a value of the column's type.
    #[error("Q2 BadCondition")]
    BadCondition,
    /// Values of the column's type can't be compared.
    #[error("Q3 NotComparable")]
    NotComparable,
    #[error("OutOfMemory")]
    OutOfMemory,
}

impl From<AllocError> for QueryError {
    ghost use Rattle.std.specs.Prelude.{◌≡◌};
    ghost use Rattle.query.specs.declared.errors.QueryError.TheVariants.{OutOfMemory};

    ghost from_gives = { λ _ e. e ≡ OutOfMemory };

    fn from(_: AllocError) -> Self {
        QueryError::OutOfMemory
    }
}
