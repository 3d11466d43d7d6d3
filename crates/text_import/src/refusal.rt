// Why a text is refused.
ghost use Rattle.std.specs.Prelude.{◌≡◌};
ghost use Rattle.text_import.specs.declared.refusal.TextError.TheVariants.{OutOfMemory};
ghost use Rattle.text_import.specs.declared.refusal.CellError.TheVariants as cell_errors;
ghost use Rattle.text_import.specs.RefusalText.{refusal_text};

use std::alloc::{AllocError, AllocFailed};
use std::fmt;
use thiserror::Error;

/// What is wrong with a text.
#[derive(Clone, Copy, Debug, PartialEq, Eq)]
pub enum Refusal {
    /// X1: the first record of a CSV text does not have the names of the columns, or there is no record.
    Header,
    /// X2: the number of fields or items is not that of the columns, or that of a fixed-size list.
    Width,
    /// X3: a string is not UTF-8.
    NotUtf8,
    /// X4: not an integer.
    NotANumber,
    /// X5: an integer out of the range of its type.
    OutOfRange,
    /// X6: neither true nor false.
    NotABool,
    /// X7: not pairs of hexadecimal digits.
    NotHex,
    /// X8: a null where none is allowed, or a value in a column of nulls.
    NullMismatch,
    /// X9: a CSV text for a schema with lists or structs.
    Nested,
    /// X10: a line is not a JSON value.
    Json,
    /// X11: a member that is not the name of a field.
    UnknownName,
    /// X12: a field that is not nullable has no member.
    MissingName,
    /// X13: an object for fields of which two have the same name.
    AmbiguousNames,
    /// X14: a number of bytes other than that of the type.
    FixedWidth,
    /// X15: a row that is too heavy.
    TooHeavy,
    /// X16: a row with more distinct values than a dictionary can name.
    DictionaryFull,
    /// X17: a kind of JSON value that the type does not accept.
    WrongKind,
    /// X18: no date or time of its type.
    NotADate,
    /// X19: an offset in a column without a time zone, or none in a column of a time zone other than UTC.
    WrongOffset,
}

/// A refusal, and the number of its record: counted from 1 after the header, and 0 if it has no record.
#[derive(Clone, Copy, Debug, PartialEq, Eq)]
pub struct Refused {
    pub refusal: Refusal,
    pub number: u64,
}

/// Why a text was not read: it was refused, or memory was refused.
#[derive(Clone, Copy, Debug, Error)]
pub enum TextError {
    #[error(transparent)]
    Refused(Refused),
    #[error("OutOfMemory")]
    OutOfMemory,
}

// Why a part of a record was not read; the number of the record is not known here.
#[derive(Clone, Copy)]
pub(crate) enum CellError {
    Refused(Refusal),
    OutOfMemory,
}

impl From<AllocError> for TextError {
    ghost from_gives = { λ _ e. e ≡ OutOfMemory };

    fn from(_e: AllocError) -> TextError {
        TextError::OutOfMemory
    }
}

impl<T: Drop> From<AllocFailed<T>> for TextError {
    ghost from_gives = { λ _ e. e ≡ OutOfMemory };

    fn from(_e: AllocFailed<T>) -> TextError {
        TextError::OutOfMemory
    }
}

impl From<AllocError> for CellError {
    ghost from_gives = { λ _ e. e ≡ cell_errors.OutOfMemory };

    fn from(_e: AllocError) -> CellError {
        CellError::OutOfMemory
    }
}

impl<T: Drop> From<AllocFailed<T>> for CellError {
    ghost from_gives = { λ _ e. e ≡ cell_errors.OutOfMemory };

    fn from(_e: AllocFailed<T>) -> CellError {
        CellError::OutOfMemory
    }
}

// Returns the code and the name.
fn refusal_text(refusal: Refusal) -> &'static str
    ensures { result.now ≡ refusal_text refusal }
{
    match refusal {
        Refusal::Header => "X1 Header",
        Refusal::Width => "X2 Width",
        Refusal::NotUtf8 => "X3 NotUtf8",
        Refusal::NotANumber => "X4 NotANumber",
        Refusal::OutOfRange => "X5 OutOfRange",
        Refusal::NotABool => "X6 NotABool",
        Refusal::NotHex => "X7 NotHex",
        Refusal::NullMismatch => "X8 NullMismatch",
        Refusal::Nested => "X9 Nested",
        Refusal::Json => "X10 Json",
        Refusal::UnknownName => "X11 UnknownName",
        Refusal::MissingName => "X12 MissingName",
        Refusal::AmbiguousNames => "X13 AmbiguousNames",
        Refusal::FixedWidth => "X14 FixedWidth",
        Refusal::TooHeavy => "X15 TooHeavy",
        Refusal::DictionaryFull => "X16 DictionaryFull",
        Refusal::WrongKind => "X17 WrongKind",
        Refusal::NotADate => "X18 NotADate",
        Refusal::WrongOffset => "X19 WrongOffset",
    }
}

/// The code and the name, for example `X4 NotANumber`.
impl fmt::Display for Refusal {
    ghost use Rattle.std.specs.Prelude.{Some};

    ghost output = { λ refusal. Some (refusal_text refusal) };

    fn fmt<W: fmt::Write>(&self, f: &mut fmt::Formatter<W>) -> fmt::Result {
        f.write_str(refusal_text(*self))
    }
}

/// The code, the name and the number, for example `X4 NotANumber 3`.
impl fmt::Display for Refused {
    ghost use Rattle.std.specs.Prelude.{Some};
    ghost use Rattle.text_import.specs.RefusalText.{refused_text};

    ghost output = { λ refused. Some (refused_text refused) };

    fn fmt<W: fmt::Write>(&self, f: &mut fmt::Formatter<W>) -> fmt::Result {
        write!(f, "{} {}", self.refusal, self.number)
    }
}

impl std::error::Error for Refused {}
