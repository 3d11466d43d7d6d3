// Why a call of an open store is refused.
use ipc_message::{Fault, ImportError};
use query::QueryError;
use std::alloc::{AllocError, AllocFailed};

/// A limit that would be exceeded.
#[derive(Clone, Copy, Debug, PartialEq, Eq)]
pub enum Limit {
    /// 1,024 tables.
    Tables,
    /// 65,536 segments of all tables.
    Segments,
    /// The ruling commit has the greatest epoch there is.
    Epochs,
    /// The weight of a table.
    Weight,
    /// The size in bytes of a stream that is imported or appended.
    Bytes,
    /// 64 open exports.
    Exports,
}

/// Why a query can't be executed on a table.
#[derive(Clone, Copy, Debug, PartialEq, Eq)]
pub enum QueryRefusal {
    /// Q1: a named column does not exist, exists twice, or is listed twice.
    UnknownColumn,
    /// Q2: the shape or the literal of a condition is wrong.
    BadCondition,
    /// Q3: a comparison on a type that has none.
    NotComparable,
}

/// Why a call of an open store is refused.
#[derive(Clone, Copy, Debug, PartialEq, Eq)]
pub enum Refusal {
    /// S1: no table has the name.
    NoTable,
    /// S2: a table has the name.
    NameTaken,
    /// S3: the name is not valid for a table.
    BadName,
    /// S4: names, nullability or types differ from the table's.
    SchemaMismatch,
    /// S5: the stream has a fault.
    Import(Fault),
    /// S6: this row, counted from 0, is the first new one that does not fit the table.
    RowUnfit(usize),
    /// S7: a limit would be exceeded.
    TooMany(Limit),
    /// S8: no run of this many sectors is free.
    NoRoom(u64),
    /// S9: the device failed. Reopening the store shows whether the command is done.
    Device,
    /// S10: no store is open, or the device failed before.
    Halted,
    /// S11: no such export is open.
    NoExport,
    /// S12: the query can't be executed on the table.
    Query(QueryRefusal),
    /// S13: this segment of the table, counted from 0, does not hold its rows.
    SegmentUnread(usize),
    /// The reader of the input failed; printed as `G1 Io`.
    Read,
    /// S15: the bytes of this segment of the table, counted from 0, are not those that were written.
    SegmentDamaged(usize),
    /// The writer of an export or of a salvage failed; printed as `G1 Io`.
    Write,
    /// Memory was refused.
    OutOfMemory,
}

impl From<AllocError> for Refusal {
    ghost use Rattle.std.specs.Prelude.{◌≡◌};
    ghost use Rattle.tables.specs.declared.refusal.Refusal.TheVariants.{OutOfMemory};

    ghost from_gives = { λ _ r. r ≡ OutOfMemory };

    fn from(_: AllocError) -> Self {
        Refusal::OutOfMemory
    }
}

impl<T: Drop> From<AllocFailed<T>> for Refusal {
    ghost use Rattle.std.specs.Prelude.{◌≡◌};
    ghost use Rattle.tables.specs.declared.refusal.Refusal.TheVariants.{OutOfMemory};

    ghost from_gives = { λ _ r. r ≡ OutOfMemory };

    fn from(_: AllocFailed<T>) -> Self {
        Refusal::OutOfMemory
    }
}

/// Converts the error of a stream into its refusal.
impl From<ImportError> for Refusal {
    ghost use Rattle.std.specs.Prelude.{◌≡◌};
    ghost use Rattle.tables.specs.Refusals.{import_refusal};

    ghost from_gives = { λ e r. r ≡ import_refusal e };

    fn from(error: ImportError) -> Self {
        match error {
            ImportError::Fault(fault) => Refusal::Import(fault),
            ImportError::OutOfMemory => Refusal::OutOfMemory,
        }
    }
}

/// Converts the error of a query into its refusal.
impl From<QueryError> for Refusal {
    ghost use Rattle.std.specs.Prelude.{◌≡◌};
    ghost use Rattle.tables.specs.Refusals.{select_refusal};

    ghost from_gives = { λ e r. r ≡ select_refusal e };

    fn from(error: QueryError) -> Self {
        match error {
            QueryError::UnknownColumn => Refusal::Query(QueryRefusal::UnknownColumn),
            QueryError::BadCondition => Refusal::Query(QueryRefusal::BadCondition),
            QueryError::NotComparable => Refusal::Query(QueryRefusal::NotComparable),
            QueryError::OutOfMemory => Refusal::OutOfMemory,
        }
    }
}
