// The word that tells a script which refusal it is.
ghost use Rattle.std.specs.Prelude.{◌≡◌};
ghost use Rattle.cli_reports.specs.Words.{fault_word, fields_word, text_word, query_word, opening_word, store_word, file_word, output_word, io_word, word};

use crate::{FileCause, Known, Refusal, Side};
use commit::OpeningRefusal;
use field_texts::ParseError;
use ipc_message::Fault;
use tables::QueryRefusal;

const OUT_OF_MEMORY: &str = "out-of-memory";

#[tactic(auto, unfolding(crate::specs::Words::fault_word))]
fn fault_word(fault: Fault) -> &'static str
    ensures { result.now ≡ fault_word fault }
{
    match fault {
        Fault::Truncated => "truncated",
        Fault::NoContinuation => "no-stream",
        Fault::MetadataSize => "metadata-size",
        Fault::FlatBounds => "metadata-bounds",
        Fault::FlatBudget => "metadata-budget",
        Fault::MetadataVersion => "metadata-version",
        Fault::HeaderKind => "header-kind",
        Fault::BodyLength => "body-length",
        Fault::NoSchema => "no-schema",
        Fault::SecondSchema => "second-schema",
        Fault::BigEndian => "big-endian",
        Fault::TypeNotHeld(_) => "type-not-held",
        Fault::BadParameter => "bad-parameter",
        Fault::SchemaLimit => "schema-limit",
        Fault::NotUtf8 => "stream-not-utf8",
        Fault::Compressed => "compressed",
        Fault::LayoutCount => "layout-count",
        Fault::BufferRange => "buffer-range",
        Fault::BufferShort => "buffer-short",
        Fault::RowCount => "row-count",
        Fault::NullCount => "null-count",
        Fault::Offsets => "offsets",
        Fault::NullForbidden => "null-forbidden",
        Fault::DictionaryId => "dictionary-id",
        Fault::DeltaWithoutBase => "delta-without-base",
        Fault::DictionaryIndex => "dictionary-index",
        Fault::DictionaryOfNested => "dictionary-of-nested",
        Fault::TooHeavy => "stream-too-heavy",
        Fault::AfterEnd => "after-end",
    }
}

#[tactic(auto, unfolding(crate::specs::Words::fields_word))]
fn fields_word(error: ParseError) -> &'static str
    ensures { result.now ≡ fields_word error }
{
    match error {
        ParseError::BadText(_) => "bad-field",
        ParseError::Limit => "field-limit",
        ParseError::OutOfMemory => OUT_OF_MEMORY,
    }
}

#[tactic(auto, unfolding(crate::specs::Words::text_word))]
fn text_word(refusal: text_import::Refusal) -> &'static str
    ensures { result.now ≡ text_word refusal }
{
    match refusal {
        text_import::Refusal::Header => "header",
        text_import::Refusal::Width => "width",
        text_import::Refusal::NotUtf8 => "text-not-utf8",
        text_import::Refusal::NotANumber => "not-a-number",
        text_import::Refusal::OutOfRange => "out-of-range",
        text_import::Refusal::NotABool => "not-a-bool",
        text_import::Refusal::NotHex => "not-hex",
        text_import::Refusal::NullMismatch => "null-mismatch",
        text_import::Refusal::Nested => "nested-columns",
        text_import::Refusal::Json => "not-json",
        text_import::Refusal::UnknownName => "unknown-name",
        text_import::Refusal::MissingName => "missing-name",
        text_import::Refusal::AmbiguousNames => "ambiguous-names",
        text_import::Refusal::FixedWidth => "fixed-width",
        text_import::Refusal::TooHeavy => "row-too-heavy",
        text_import::Refusal::DictionaryFull => "dictionary-full",
        text_import::Refusal::WrongKind => "wrong-kind",
        text_import::Refusal::NotADate => "not-a-date",
        text_import::Refusal::WrongOffset => "wrong-offset",
    }
}

#[tactic(auto, unfolding(crate::specs::Words::query_word))]
fn query_word(refusal: QueryRefusal) -> &'static str
    ensures { result.now ≡ query_word refusal }
{
    match refusal {
        QueryRefusal::UnknownColumn => "unknown-column",
        QueryRefusal::BadCondition => "bad-condition",
        QueryRefusal::NotComparable => "not-comparable",
    }
}

#[tactic(auto, unfolding(crate::specs::Words::opening_word))]
fn opening_word(refusal: OpeningRefusal) -> &'static str
    ensures { result.now ≡ opening_word refusal }
{
    match refusal {
        OpeningRefusal::NotAStore => "not-a-store",
        OpeningRefusal::AlreadyAStore => "already-a-store",
        OpeningRefusal::Damaged(_) => "damaged",
        OpeningRefusal::Device => "device-at-opening",
        OpeningRefusal::OutOfMemory => OUT_OF_MEMORY,
    }
}

fn file_word(cause: FileCause) -> &'static str
    ensures { result.now ≡ file_word cause }
{
    match cause {
        FileCause::Locked => "locked",
        FileCause::Missing => "missing",
        FileCause::Denied => "denied",
        FileCause::Exists => "exists",
        FileCause::Other => "other",
    }
}

// Tells whether a command whose output failed was done.
fn output_word(changes: bool) -> &'static str
    ensures { result.now ≡ output_word changes }
{
    if changes {
        "output-after"
    } else {
        "output-before"
    }
}

fn io_word(side: Side, known: Known<'_>) -> &'static str
    ensures { result.now ≡ io_word side known.entry }
{
    match side {
        Side::File => file_word(known.cause),
        Side::Input => "input",
        Side::Output => output_word(known.changes),
    }
}

#[tactic(auto, unfolding(crate::specs::Words::store_word))]
fn store_word(refusal: tables::Refusal, known: Known<'_>) -> &'static str
    ensures { result.now ≡ store_word refusal known.entry }
{
    match refusal {
        tables::Refusal::NoTable => "no-table",
        tables::Refusal::NameTaken => "name-taken",
        tables::Refusal::BadName => "bad-name",
        tables::Refusal::SchemaMismatch => "schema-mismatch",
        tables::Refusal::Import(fault) => fault_word(fault),
        tables::Refusal::RowUnfit(_) => "row-unfit",
        tables::Refusal::TooMany(_) => "too-many",
        tables::Refusal::NoRoom(_) => "no-room",
        tables::Refusal::Device => "device",
        tables::Refusal::Halted => "halted",
        tables::Refusal::NoExport => "no-export",
        tables::Refusal::Query(reason) => query_word(reason),
        tables::Refusal::SegmentUnread(_) => "segment-unread",
        tables::Refusal::Read => "input",
        tables::Refusal::SegmentDamaged(_) => "segment-damaged",
        tables::Refusal::Write => output_word(known.changes),
        tables::Refusal::OutOfMemory => OUT_OF_MEMORY,
    }
}

impl Refusal {
    /// Returns the word of the refusal: one for each code, and for G1 one that says whether the command was done. A word never changes its meaning.
    #[tactic(auto, unfolding(crate::specs::Words::word))]
    pub fn word(self, known: Known<'_>) -> &'static str
        ensures { result.now ≡ word self known.entry }
    {
        match self {
            Refusal::Fault(fault) => fault_word(fault),
            Refusal::NoEnd => "no-end",
            Refusal::TooManyBytes => "too-many",
            Refusal::Io(side) => io_word(side, known),
            Refusal::BadSize => "bad-size",
            Refusal::BadScript(_) => "bad-script",
            Refusal::Fields(error) => fields_word(error),
            Refusal::NoText(_) => "no-text",
            Refusal::BadDigest(_) => "not-a-digest",
            Refusal::NotAnArchive => "not-an-archive",
            Refusal::BadMember(_) => "bad-member",
            Refusal::LacksSegment(_) => "lacks-segment",
            // A line of a script has the word of its own refusal.
            Refusal::Text(refused) | Refusal::TextLine(_, refused) => text_word(refused.refusal),
            Refusal::Query(reason) => query_word(reason),
            Refusal::Opening(refusal) => opening_word(refusal),
            Refusal::Store(refusal) | Refusal::Line(_, refusal) => store_word(refusal, known),
            Refusal::OutOfMemory => OUT_OF_MEMORY,
        }
    }
}
