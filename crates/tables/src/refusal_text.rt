// The text of a refusal: its code, its name and its value, separated by spaces.
use crate::refusal::{Limit, QueryRefusal, Refusal};
use std::fmt;

impl fmt::Display for Limit {
    ghost use Rattle.std.specs.Prelude.{Some};
    ghost use Rattle.tables.specs.Refusals.{limit_text};

    ghost output = { λ limit. Some (limit_text limit) };

    fn fmt<W: fmt::Write>(&self, f: &mut fmt::Formatter<W>) -> fmt::Result {
        f.write_str(match self {
            Limit::Tables => "Tables",
            Limit::Segments => "Segments",
            Limit::Epochs => "Epochs",
            Limit::Weight => "Weight",
            Limit::Bytes => "Bytes",
            Limit::Exports => "Exports",
        })
    }
}

impl fmt::Display for QueryRefusal {
    ghost use Rattle.std.specs.Prelude.{Some};
    ghost use Rattle.tables.specs.Refusals.{query_text};

    ghost output = { λ refusal. Some (query_text refusal) };

    fn fmt<W: fmt::Write>(&self, f: &mut fmt::Formatter<W>) -> fmt::Result {
        f.write_str(match self {
            QueryRefusal::UnknownColumn => "Q1 UnknownColumn",
            QueryRefusal::BadCondition => "Q2 BadCondition",
            QueryRefusal::NotComparable => "Q3 NotComparable",
        })
    }
}

/// For example `S8 NoRoom 1`. A failed reader or writer is reported as failed input or output: `G1 Io`.
impl fmt::Display for Refusal {
    ghost use Rattle.std.specs.Prelude.{Some};
    ghost use Rattle.tables.specs.Refusals.{refusal_text};

    ghost output = { λ refusal. Some (refusal_text refusal) };

    fn fmt<W: fmt::Write>(&self, f: &mut fmt::Formatter<W>) -> fmt::Result {
        match self {
            Refusal::NoTable => f.write_str("S1 NoTable"),
            Refusal::NameTaken => f.write_str("S2 NameTaken"),
            Refusal::BadName => f.write_str("S3 BadName"),
            Refusal::SchemaMismatch => f.write_str("S4 SchemaMismatch"),
            Refusal::Import(fault) => write!(f, "S5 Import {fault}"),
            Refusal::RowUnfit(row) => write!(f, "S6 RowUnfit {row}"),
            Refusal::TooMany(limit) => write!(f, "S7 TooMany {limit}"),
            Refusal::NoRoom(sectors) => write!(f, "S8 NoRoom {sectors}"),
            Refusal::Device => f.write_str("S9 Device"),
            Refusal::Halted => f.write_str("S10 Halted"),
            Refusal::NoExport => f.write_str("S11 NoExport"),
            Refusal::Query(refusal) => write!(f, "S12 Query {refusal}"),
            Refusal::SegmentUnread(segment) => write!(f, "S13 SegmentUnread {segment}"),
            Refusal::SegmentDamaged(segment) => write!(f, "S15 SegmentDamaged {segment}"),
            Refusal::Read | Refusal::Write => f.write_str("G1 Io"),
            Refusal::OutOfMemory => f.write_str("OutOfMemory"),
        }
    }
}

impl std::error::Error for Refusal {}
