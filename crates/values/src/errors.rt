// Why rows are no table.
use std::alloc::AllocError;
use thiserror::Error;

/// Why rows are no table.
#[derive(Clone, Copy, Debug, Error)]
pub enum TableError {
    /// This row, counted from 0, is the first that does not fit, weighs more than a row may, or fills a dictionary.
    #[error("row {0} does not fit the schema, is too heavy or fills a dictionary")]
    Unfit(usize),
    /// All rows together weigh more than a table may.
    #[error("the rows are too heavy for a table")]
    Weight,
    #[error("out of memory")]
    OutOfMemory,
}

impl From<AllocError> for TableError {
    ghost use Rattle.std.specs.Prelude.{◌≡◌};
    ghost use Rattle.values.specs.declared.errors.TableError.TheVariants.{OutOfMemory};

    ghost from_gives = { λ _ e. e ≡ OutOfMemory };

    fn from(_: AllocError) -> Self {
        TableError::OutOfMemory
    }
}
