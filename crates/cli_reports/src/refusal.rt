ghost use Rattle.std.specs.Prelude.{◌≡◌};
ghost use Rattle.cli_reports.specs.declared.refusal.Refusal.TheVariants.{OutOfMemory};
ghost use Rattle.cli_reports.specs.declared.refusal.Refusal.TheVariants as refusals;
ghost use Rattle.cli_reports.specs.Refusals.{refusal_of, file_refusal, text_refusal, query_refusal};

use crate::digits::HexDigits;
use commit::OpeningRefusal;
use field_texts::ParseError;
use ipc_message::{Fault, ImportError};
use query::QueryError;
use sector_dev::FileError;
use std::alloc::AllocError;
use std::fmt;
use tables::QueryRefusal;
use text_import::{Refused, TextError};

/// On which side of a run a read or a write failed.
#[derive(Clone, Copy, Debug)]
pub enum Side {
    /// On a file that the command line or a script names. The command was not done.
    File,
    /// On the input. The command was not done.
    Input,
    /// On the output, which is written once the command is done.
    Output,
}

/// A member of an archive.
#[derive(Clone, Copy, Debug)]
pub enum ArchiveMember {
    /// The list of the tables.
    Manifest,
    /// The stream of the segment with this digest.
    Segment([u8; 32]),
    /// The member at this place; the manifest is at 0.
    At(u64),
    /// The end.
    End,
}

/// Prints the name of the member, or its place.
impl fmt::Display for ArchiveMember {
    ghost use Rattle.std.specs.Prelude.{Some};
    ghost use Rattle.cli_reports.specs.Refusals.{member_text};

    ghost output = { λ member. Some (member_text member) };

    fn fmt<W: fmt::Write>(&self, f: &mut fmt::Formatter<W>) -> fmt::Result {
        match self {
            ArchiveMember::Manifest => f.write_str("manifest.jsonl"),
            ArchiveMember::Segment(digest) => write!(f, "segments/{}.arrows", HexDigits { digest }),
            ArchiveMember::At(place) => write!(f, "member {place}"),
            ArchiveMember::End => f.write_str("end"),
        }
    }
}

/// Why a command was refused.
#[derive(Clone, Copy, Debug)]
pub enum Refusal {
    /// F: the input has no meaning as a stream.
    Fault(Fault),
    /// F30: the input ends without the end of stream that was asked for.
    NoEnd,
    /// S7: the input has too many bytes.
    TooManyBytes,
    /// G1: a read or a write on this side failed.
    Io(Side),
    /// G2: a store's file is not a whole number of sectors, or no store has this number of sectors.
    BadSize,
    /// G3: this line of a script, counted from 1, can't be played.
    BadScript(u64),
    /// P: the field texts state no schema.
    Fields(ParseError),
    /// P3: no text is taken for this field of a table, counted from 1; 0 if the table has pairs of its own.
    NoText(usize),
    /// A1: this line of a list of digests, counted from 1, states none.
    BadDigest(u64),
    /// A2: the input is no archive.
    NotAnArchive,
    /// A3: this member of an archive is cut short, altered or unknown.
    BadMember(ArchiveMember),
    /// A4: neither the archive nor the store has the segment with this digest.
    LacksSegment([u8; 32]),
    /// X: a record of the input is not a row of the table.
    Text(Refused),
    /// Q: the query is refused for the table.
    Query(QueryRefusal),
    /// C: no store was opened or made.
    Opening(OpeningRefusal),
    /// S: the open store refused.
    Store(tables::Refusal),
    /// T1: the open store refused this line of a script, counted from 1, and so all lines that are one commit with it.
    Line(u64, tables::Refusal),
    /// T1: the text of this line of a script, counted from 1, is refused, and so all lines.
    TextLine(u64, Refused),
    /// Memory was refused.
    OutOfMemory,
}

impl From<AllocError> for Refusal {
    ghost from_gives = { λ _ refusal. refusal ≡ OutOfMemory };

    fn from(_error: AllocError) -> Refusal {
        Refusal::OutOfMemory
    }
}

impl From<ImportError> for Refusal {
    ghost from_gives = { λ error refusal. refusal ≡ refusal_of error };

    fn from(error: ImportError) -> Refusal {
        match error {
            ImportError::Fault(fault) => Refusal::Fault(fault),
            ImportError::OutOfMemory => Refusal::OutOfMemory,
        }
    }
}

impl From<FileError> for Refusal {
    ghost from_gives = { λ error refusal. refusal ≡ file_refusal error };

    fn from(error: FileError) -> Refusal {
        match error {
            FileError::Io => Refusal::Io(Side::File),
            FileError::BadSize => Refusal::BadSize,
        }
    }
}

impl From<ParseError> for Refusal {
    ghost from_gives = { λ error refusal. refusal ≡ refusals.Fields error };

    fn from(error: ParseError) -> Refusal {
        Refusal::Fields(error)
    }
}

impl From<TextError> for Refusal {
    ghost from_gives = { λ error refusal. refusal ≡ text_refusal error };

    fn from(error: TextError) -> Refusal {
        match error {
            TextError::Refused(refused) => Refusal::Text(refused),
            TextError::OutOfMemory => Refusal::OutOfMemory,
        }
    }
}

impl From<QueryError> for Refusal {
    ghost from_gives = { λ error refusal. refusal ≡ query_refusal error };

    fn from(error: QueryError) -> Refusal {
        match error {
            QueryError::UnknownColumn => Refusal::Query(QueryRefusal::UnknownColumn),
            QueryError::BadCondition => Refusal::Query(QueryRefusal::BadCondition),
            QueryError::NotComparable => Refusal::Query(QueryRefusal::NotComparable),
            QueryError::OutOfMemory => Refusal::OutOfMemory,
        }
    }
}

impl From<tables::Refusal> for Refusal {
    ghost from_gives = { λ error refusal. refusal ≡ refusals.Store error };

    fn from(error: tables::Refusal) -> Refusal {
        Refusal::Store(error)
    }
}

/// Prints the code, the name and the carried values, separated by spaces, as `S7 TooMany Bytes`.
impl fmt::Display for Refusal {
    ghost use Rattle.std.specs.Prelude.{Some};
    ghost use Rattle.cli_reports.specs.Refusals.{refusal_text};

    ghost output = { λ refusal. Some (refusal_text refusal) };

    #[tactic(auto, unfolding(crate::specs::Refusals::refusal_text))]
    fn fmt<W: fmt::Write>(&self, f: &mut fmt::Formatter<W>) -> fmt::Result {
        match self {
            Refusal::Fault(fault) => write!(f, "{fault}"),
            Refusal::NoEnd => f.write_str("F30 NoEnd"),
            Refusal::TooManyBytes => f.write_str("S7 TooMany Bytes"),
            Refusal::Io(_) => f.write_str("G1 Io"),
            Refusal::BadSize => f.write_str("G2 BadSize"),
            Refusal::BadScript(line) => write!(f, "G3 BadScript {line}"),
            Refusal::Fields(error) => write!(f, "{error}"),
            Refusal::NoText(number) => write!(f, "P3 NoText {number}"),
            Refusal::BadDigest(line) => write!(f, "A1 NotADigest {line}"),
            Refusal::NotAnArchive => f.write_str("A2 NotAnArchive"),
            Refusal::BadMember(member) => write!(f, "A3 BadMember {member}"),
            Refusal::LacksSegment(digest) => write!(f, "A4 LacksSegment {}", HexDigits { digest }),
            Refusal::Text(refused) => write!(f, "{refused}"),
            Refusal::Query(refusal) => write!(f, "{refusal}"),
            Refusal::Opening(refusal) => write!(f, "{refusal}"),
            Refusal::Store(refusal) => write!(f, "{refusal}"),
            Refusal::Line(line, refusal) => write!(f, "T1 Line {line} {refusal}"),
            Refusal::TextLine(line, refused) => write!(f, "T1 Line {line} {refused}"),
            Refusal::OutOfMemory => f.write_str("OutOfMemory"),
        }
    }
}

impl std::error::Error for Refusal {}
