// What to do about each refusal, in a sentence that the page of refusals and a terminal show.
ghost use Rattle.std.specs.Prelude.{◌≡◌};
ghost use Rattle.cli_reports.specs.Remedies.{fault_remedy, fields_remedy, text_remedy, query_remedy, opening_remedy, limit_remedy, store_remedy, remedy};

use crate::Refusal;
use commit::OpeningRefusal;
use field_texts::ParseError;
use ipc_message::Fault;
use tables::{Limit, QueryRefusal};

// ---- F: streams

pub const WRITE_AGAIN: &str =
    "Have the stream written again, by another writer or with other options.";

pub const GIVE_ALL: &str = "Give the whole stream.";

pub const GIVE_A_STREAM: &str =
    "Give an Arrow IPC stream, not an Arrow file (Feather), a Parquet file, or one before 0.15. For CSV and JSON Lines use `append` with `--as`.";

pub const WRITE_V5: &str = "Have the stream written with metadata of version V5.";

pub const LEAVE_OUT_MESSAGES: &str =
    "Leave tensors out: give only a schema, dictionary batches and record batches.";

pub const SCHEMA_FIRST: &str =
    "Give a stream from its beginning, where its schema is. An empty input is not a stream.";

pub const ONE_STREAM: &str = "Give each stream separately.";

pub const LITTLE_ENDIAN: &str = "Have the numbers written as little-endian.";

pub const CONVERT_COLUMN: &str = "Leave the column out, or convert it to another type.";

pub const FEWER_FIELDS: &str = "Give fewer fields or less metadata.";

pub const NO_COMPRESSION: &str = "Have the stream written without compression.";

pub const SHORTER_BATCHES: &str = "Have the stream written in shorter batches.";

pub const FEWER_ROWS: &str =
    "Give fewer rows. If one row alone is too heavy, give shorter texts, binaries and lists in it.";

pub const WHOLE_STREAM: &str =
    "Have the whole stream written again: whoever writes it may have ended early, or wrote nothing. If it ends streams without the marker, leave `--complete` out.";

// ---- G and C: files

pub const CHECK_FILES: &str =
    "Check the path, your rights to the file and to its folder, and the disk.";

pub const READ_INPUT: &str =
    "Check the input: give a file or a pipe that can be read, and run the command again.";

pub const DONE_ALREADY: &str = "The command is done: do not run it again.";

pub const NEW_OUTPUT: &str = "Check the output, and run the command again: it changes nothing.";

pub const WAIT: &str =
    "Wait until the other program is done with it, or give `--wait`. If this command runs under `flock` on the store's own file, lock another file.";

pub const NEW_PATH: &str =
    "Give a path where nothing is: no file is overwritten. A file there may be what an interrupted `format` or `copy` has left.";

pub const FOLDER_OF_A_NEW_FILE: &str =
    "Check the path: its folder must exist, and you need the right to make files in it.";

pub const PATH_AND_RIGHTS: &str = "Check the path, and your rights to the file and to its folders.";

pub const READABLE_FILE: &str = "Check that it is a file that can be read, and try again.";

pub const ROOM_ON_THE_DISK: &str =
    "Check the disk, its room and any limit on the size of files, and try again.";

pub const ROOM_FOR_THE_NEW_FILE: &str =
    "The new file was removed. Check the disk, its room and any limit on the size of files, and run the command again.";

pub const NUMBER_OF_SECTORS: &str = "Give 16 to 4194304 sectors.";

pub const WHOLE_FILE: &str =
    "Give the whole file of a store. If it is the new file of a `copy` that was interrupted, copy again, to another path.";

pub const UNFINISHED_COPY: &str =
    "If this is the new file of a `copy` that was interrupted, copy the old store again, to another path. If it was a store, a byte was appended to it.";

pub const LENGTH_OF_THE_STORE: &str =
    "Use an earlier copy of the file. Or give a copy of it the length of its store, as by `truncate -s`, `check` that, and `copy` it, since it has holes.";

pub const SIZE_OF_THE_DEVICE: &str =
    "Leave the number of sectors out, or give that of the device. If it does not have 16 to 4194304, make a partition or a volume of a size that fits.";

pub const BLANK_DEVICE: &str =
    "If nothing on the device is needed, run the command again with `--over`.";

pub const NO_FOLDER: &str = "Give the file of a store, or a disk that holds one.";

pub const LINES_OF_A_SCRIPT: &str =
    "Write `create NAME FIELD ..`, `import` or `append NAME FILE`, `save FROM TO CONDITION ..`, `rename FROM TO` or `drop NAME`. See `help apply`, `help replay`.";

pub const FILE_OF_A_STORE: &str =
    "Give the file of a store. If this is the new file of a `format` or `copy` that was interrupted, run the command again, with another path.";

pub const LATER_PROGRAM: &str = "Use a later version of the program, and keep the file as it is.";

pub const EARLIER_COPY: &str =
    "Use an earlier copy of the file. If there is none, see \"A store that does not open\" in `arrowstore help refusals`.";

pub const TRY_AGAIN: &str = "Check the disk, and try again.";

// ---- P: field texts

pub const FORM_OF_A_FIELD: &str =
    "Write a field without spaces as `NAME:TYPE`, or `NAME:TYPE?` if nulls are allowed, such as `id:uint64`. `help create` lists the types (no floats or decimals).";

pub const SMALLER_FIELDS: &str =
    "Give numbers of at most 2,147,483,647, and fewer, shorter or less deeply nested fields.";

pub const FIELDS_OF_ANOTHER: &str =
    "Use `create NAME --like TABLE`: it takes the fields of any table of the same store. `schema` without `--fields` shows them.";

// ---- A: archives

pub const LINES_OF_DIGESTS: &str =
    "Give the lines that `have` prints for the store of the receiver: 64 hexadecimal digits each, without spaces and empty lines.";

pub const GIVE_AN_ARCHIVE: &str =
    "Give what `send` has written, from its beginning: neither compressed, nor packed again by `tar`. An archive of a later version needs a later program.";

pub const SEND_AGAIN: &str =
    "Send the archive again, and give all of it: it was cut off or altered on its way, or `send` was refused.";

pub const SEND_WHAT_IS_LACKED: &str =
    "Run `have` on the store that receives, give what it prints to `send --have` of the other store, and receive that archive.";

// ---- X: texts

pub const CLOSE_QUOTATION_MARKS: &str =
    "Fix the record, and append the whole text again. In CSV a quotation mark that is not closed takes the lines after it into its field.";

pub const ITEMS_OF_A_LINE: &str =
    "Give an item for each column of the table, each field of the struct or each place of the list. Then append the whole text again.";

pub const WRITE_UTF_8: &str = "Write the text in UTF-8, and append the whole text again.";

pub const WRITE_DIGITS: &str =
    "Write digits, within 64 bits. Dates and timestamps count from 1970-01-01; with `--dates iso` they are texts, as 2026-11-30. Then append the whole text again.";

pub const GIVE_A_NUMBER: &str =
    "Give an integer. An empty field is a null only if the column allows nulls and `--null` names no other text. Then append the whole text again.";

pub const WITHIN_THE_RANGE: &str =
    "Give a value within its type: -128 to 127 for int8, with `--dates iso` 1677-09-21 to 2262-04-11 for timestamp_ns. Then append the whole text again.";

pub const WRITE_A_BOOLEAN: &str =
    "Write `true` or `false` in lower case, in JSON without quotation marks. Empty is null only if `--null` names no other text. Then append the whole text again.";

pub const WRITE_HEXADECIMAL: &str =
    "Write bytes as pairs of hexadecimal digits, as in `00ff`. Then append the whole text again.";

pub const GIVE_A_VALUE: &str =
    "Give a value where the field allows no null, and only a null where its type is null. Then append the whole text again.";

pub const ROW_ON_A_LINE: &str =
    "Fix the line. `jq -c .` makes a line of each row, `jq -c '.[]'` of an array; jq 1.6 rounds integers from 2^53 on. Then append the whole text again.";

pub const ESCAPE_CONTROLS: &str =
    "Fix the line, which has a control character: within a string write a tab as `\\t`, and others as in `\\u001b`. Then append the whole text again.";

pub const NAMES_OF_THE_SCHEMA: &str =
    "Give only the names of columns and fields that `schema` prints. Then append the whole text again.";

pub const GIVE_THE_NAME: &str =
    "Give the name with a value: only one that allows nulls can be left out. Then append the whole text again.";

pub const BYTES_OF_THE_TYPE: &str =
    "Give as many bytes as the type has, each as two hexadecimal digits. `schema` prints the type. Then append the whole text again.";

pub const SHORTER_VALUES: &str =
    "Give shorter texts, binaries and lists in the row. Then append the whole text again.";

pub const FEWER_VALUES: &str =
    "Give at most 128 distinct values of the column in one row if its dictionary has int8 indices, and 256 if uint8. Then append the whole text again.";

pub const KIND_OF_THE_TYPE: &str =
    "Give a string for a text or bytes, an array for a list, and an array or an object for a struct or the row. Then append the whole text again.";

pub const FORM_OF_A_DATE: &str =
    "Write a date as 2026-11-30, a timestamp as 2026-11-30T12:34:56 with at most as many digits of a second as its unit has. Then append the whole text again.";

pub const OFFSET_OF_THE_ZONE: &str =
    "Write an offset, as in 2026-11-30T12:34:56Z or +01:00, if the column has a time zone but UTC, and none if it has no zone. Then append the whole text again.";

pub const NAMES_FIRST: &str =
    "Begin the text with the names of the columns, in the order that `schema` prints, and give the fields of each record in that order.";

pub const GIVE_JSON_LINES: &str = "Give the rows as JSON Lines.";

pub const GIVE_ARRAYS: &str = "Give each row and struct as an array instead of an object.";

// ---- Q: queries

pub const NAMES_OF_COLUMNS: &str =
    "Give names as `schema` prints them, without quotation marks, in `--columns` each once. A name that two columns have can't be used, nor can `--objects` then.";

pub const FORM_OF_A_CONDITION: &str =
    "Write `NAME OP LITERAL`, `NAME is null` or `NAME is not null`. OP: = != < <= > >=. LITERAL: the column's type; dates as integers, but in `query --dates iso`.";

pub const TEST_FOR_NULL: &str = "Use `is null` or `is not null` for such a column.";

// ---- S: the open store

pub const NAME_OF_A_TABLE: &str =
    "Give the name of a table: `tables` prints them. In a script also what the lines before have done counts.";

pub const OTHER_NAME: &str =
    "Use another name: `tables` prints those in use. In a script also what the lines before have done counts.";

pub const FORM_OF_A_NAME: &str = "Use a name of 1 to 64 ASCII letters, digits, `_`, `-` and `.`.";

pub const FIELDS_OF_THE_TABLE: &str =
    "Give rows whose fields have the names, types and nullability of the table. `schema` prints them.";

pub const FIX_ROW: &str = "Fix the row, and append all rows again.";

pub const GIVE_LESS: &str = "Give less at once.";

pub const FEWER_TABLES: &str = "Drop a table first.";

pub const FEWER_SEGMENTS: &str =
    "Use `compact`, which joins segments, and append many rows at once.";

pub const OTHER_TABLE: &str = "Start another table.";

pub const NEW_STORE: &str = "Use `copy`: the new store counts from the beginning.";

pub const CLOSE_AN_EXPORT: &str = "Close an export first.";

pub const MORE_ROOM: &str =
    "Drop tables, or `copy` the store: the copy has longer free runs. `compact` helps if one step of it has room. If neither does, `copy` with more sectors.";

pub const LOOK_AGAIN: &str =
    "Check the disk, then run `check` as a user that may write the file: what it reads stays. `tables`, or `info` after a `compact`, then shows what is done.";

pub const IMPORT_AGAIN: &str =
    "Save the readable rows of the table with `salvage`, and replace it with `import --complete`. Then run `check` once more: other tables may be damaged too.";

pub const MORE_MEMORY: &str =
    "Give the program more memory: a stream or a table that is read needs a small multiple of its size.";

#[tactic(auto, unfolding(crate::specs::Remedies::fault_remedy))]
fn fault_remedy(fault: Fault) -> &'static str
    ensures { result.now ≡ fault_remedy fault }
{
    match fault {
        Fault::Truncated => GIVE_ALL,
        Fault::NoContinuation => GIVE_A_STREAM,
        Fault::MetadataVersion => WRITE_V5,
        Fault::HeaderKind => LEAVE_OUT_MESSAGES,
        Fault::NoSchema => SCHEMA_FIRST,
        Fault::SecondSchema | Fault::AfterEnd => ONE_STREAM,
        Fault::BigEndian => LITTLE_ENDIAN,
        Fault::TypeNotHeld(_) => CONVERT_COLUMN,
        Fault::SchemaLimit => FEWER_FIELDS,
        Fault::Compressed => NO_COMPRESSION,
        Fault::RowCount => SHORTER_BATCHES,
        Fault::TooHeavy => FEWER_ROWS,
        Fault::MetadataSize
        | Fault::FlatBounds
        | Fault::FlatBudget
        | Fault::BodyLength
        | Fault::BadParameter
        | Fault::NotUtf8
        | Fault::LayoutCount
        | Fault::BufferRange
        | Fault::BufferShort
        | Fault::NullCount
        | Fault::Offsets
        | Fault::NullForbidden
        | Fault::DictionaryId
        | Fault::DeltaWithoutBase
        | Fault::DictionaryIndex
        | Fault::DictionaryOfNested => WRITE_AGAIN,
    }
}

#[tactic(auto, unfolding(crate::specs::Remedies::fields_remedy))]
fn fields_remedy(error: ParseError) -> &'static str
    ensures { result.now ≡ fields_remedy error }
{
    match error {
        ParseError::BadText(_) => FORM_OF_A_FIELD,
        ParseError::Limit => SMALLER_FIELDS,
        ParseError::OutOfMemory => MORE_MEMORY,
    }
}

#[tactic(auto, unfolding(crate::specs::Remedies::text_remedy))]
pub(crate) fn text_remedy(refusal: text_import::Refusal) -> &'static str
    ensures { result.now ≡ text_remedy refusal }
{
    match refusal {
        text_import::Refusal::Header => NAMES_FIRST,
        text_import::Refusal::Nested => GIVE_JSON_LINES,
        text_import::Refusal::AmbiguousNames => GIVE_ARRAYS,
        text_import::Refusal::NotANumber => WRITE_DIGITS,
        text_import::Refusal::Json => ROW_ON_A_LINE,
        text_import::Refusal::Width | text_import::Refusal::TooHeavy => CLOSE_QUOTATION_MARKS,
        text_import::Refusal::NotUtf8 => WRITE_UTF_8,
        text_import::Refusal::OutOfRange => WITHIN_THE_RANGE,
        text_import::Refusal::NotABool => WRITE_A_BOOLEAN,
        text_import::Refusal::NotHex => WRITE_HEXADECIMAL,
        text_import::Refusal::NullMismatch => GIVE_A_VALUE,
        text_import::Refusal::UnknownName => NAMES_OF_THE_SCHEMA,
        text_import::Refusal::MissingName => GIVE_THE_NAME,
        text_import::Refusal::FixedWidth => BYTES_OF_THE_TYPE,
        text_import::Refusal::DictionaryFull => FEWER_VALUES,
        text_import::Refusal::WrongKind => KIND_OF_THE_TYPE,
        text_import::Refusal::NotADate => FORM_OF_A_DATE,
        text_import::Refusal::WrongOffset => OFFSET_OF_THE_ZONE,
    }
}

#[tactic(auto, unfolding(crate::specs::Remedies::query_remedy))]
fn query_remedy(refusal: QueryRefusal) -> &'static str
    ensures { result.now ≡ query_remedy refusal }
{
    match refusal {
        QueryRefusal::UnknownColumn => NAMES_OF_COLUMNS,
        QueryRefusal::BadCondition => FORM_OF_A_CONDITION,
        QueryRefusal::NotComparable => TEST_FOR_NULL,
    }
}

#[tactic(auto, unfolding(crate::specs::Remedies::opening_remedy))]
fn opening_remedy(refusal: OpeningRefusal) -> &'static str
    ensures { result.now ≡ opening_remedy refusal }
{
    match refusal {
        OpeningRefusal::NotAStore => FILE_OF_A_STORE,
        OpeningRefusal::AlreadyAStore => CHECK_FILES,
        OpeningRefusal::Damaged(_) => EARLIER_COPY,
        OpeningRefusal::Device => TRY_AGAIN,
        OpeningRefusal::OutOfMemory => MORE_MEMORY,
    }
}

#[tactic(auto, unfolding(crate::specs::Remedies::limit_remedy))]
fn limit_remedy(limit: Limit) -> &'static str
    ensures { result.now ≡ limit_remedy limit }
{
    match limit {
        Limit::Tables => FEWER_TABLES,
        Limit::Segments => FEWER_SEGMENTS,
        Limit::Epochs => NEW_STORE,
        Limit::Weight => OTHER_TABLE,
        Limit::Bytes => GIVE_LESS,
        Limit::Exports => CLOSE_AN_EXPORT,
    }
}

#[tactic(auto, unfolding(crate::specs::Remedies::store_remedy))]
fn store_remedy(refusal: tables::Refusal) -> &'static str
    ensures { result.now ≡ store_remedy refusal }
{
    match refusal {
        tables::Refusal::NoTable => NAME_OF_A_TABLE,
        tables::Refusal::NameTaken => OTHER_NAME,
        tables::Refusal::BadName => FORM_OF_A_NAME,
        tables::Refusal::SchemaMismatch => FIELDS_OF_THE_TABLE,
        tables::Refusal::Import(fault) => fault_remedy(fault),
        tables::Refusal::RowUnfit(_) => FIX_ROW,
        tables::Refusal::TooMany(limit) => limit_remedy(limit),
        tables::Refusal::NoRoom(_) => MORE_ROOM,
        tables::Refusal::Device | tables::Refusal::Halted => LOOK_AGAIN,
        tables::Refusal::Query(reason) => query_remedy(reason),
        tables::Refusal::SegmentUnread(_) | tables::Refusal::SegmentDamaged(_) => IMPORT_AGAIN,
        tables::Refusal::NoExport | tables::Refusal::Read | tables::Refusal::Write => CHECK_FILES,
        tables::Refusal::OutOfMemory => MORE_MEMORY,
    }
}

impl Refusal {
    /// Returns what to do about the refusal, in a sentence.
    #[tactic(auto, unfolding(crate::specs::Remedies::remedy))]
    pub fn remedy(self) -> &'static str
        ensures { result.now ≡ remedy self }
    {
        match self {
            Refusal::Fault(fault) => fault_remedy(fault),
            Refusal::NoEnd => WHOLE_STREAM,
            Refusal::TooManyBytes => GIVE_LESS,
            Refusal::Io(_) => CHECK_FILES,
            Refusal::BadSize => WHOLE_FILE,
            Refusal::BadScript(_) => LINES_OF_A_SCRIPT,
            Refusal::Fields(error) => fields_remedy(error),
            Refusal::NoText(_) => FIELDS_OF_ANOTHER,
            Refusal::BadDigest(_) => LINES_OF_DIGESTS,
            Refusal::NotAnArchive => GIVE_AN_ARCHIVE,
            Refusal::BadMember(_) => SEND_AGAIN,
            Refusal::LacksSegment(_) => SEND_WHAT_IS_LACKED,
            Refusal::Text(refused) | Refusal::TextLine(_, refused) => text_remedy(refused.refusal),
            Refusal::Query(reason) => query_remedy(reason),
            Refusal::Opening(refusal) => opening_remedy(refusal),
            Refusal::Store(refusal) | Refusal::Line(_, refusal) => store_remedy(refusal),
            Refusal::OutOfMemory => MORE_MEMORY,
        }
    }
}
