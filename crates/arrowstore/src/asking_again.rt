// What a terminal shows beside a refusal: the system call that failed, or what a second look at the store, its path, the script or the kept start
// of the input finds.
use crate::about_words::about_tables;
use crate::block_devices::unfit_device;
use crate::copying_files::open_to_read;
use crate::failing::report_of_failure;
use crate::in_place_of_store::{
    file_in_place_of_store, file_of_bad_size, refused_sectors, store_of,
};
use crate::input_again::{FoundField, field_of_no_table};
use crate::later_version::file_of_later_version;
use crate::noted::Failure;
use crate::script_again::{RefusedLine, found_in_script, line_without_end};
use crate::streams_again::{FoundOfStreams, found_in_stream};
use crate::unread_tables::unread_table;
use cli_reports::{Audience, FailedFile, Refusal, Side};
use cli_requests::{StoreCommand, StoreRequest};
use commit::{Cause, OpeningRefusal};
use sector_dev::LockFile;
use std::fs::OpenFile;
use std::io::{self, Read, Seek, Write};
use std::rt::Files;
use values::Table;

/// What a hint on a terminal can name.
#[derive(Drop)]
pub(crate) enum AskedAgain {
    Nothing,
    /// A number of sectors that no store has.
    Sectors(u64),
    /// The file on which a call failed, and why.
    File(FailedFile),
    /// What is wrong with the input or the output.
    Streams(FoundOfStreams),
    /// A sentence that lists the tables of the store, of which none has the refused name.
    Listed(String),
    /// An empty table with the schema of the table that the refused query was for.
    Queried(Table),
    /// The name of a table that can't be read.
    Unread(String),
    /// The refused line of a script.
    Line(RefusedLine),
    /// How the fields of the input differ from those of the table.
    Field(FoundField),
}

/// What is known of a served request besides its result.
#[derive(Clone, Copy)]
pub(crate) struct Served<'a> {
    /// The first bytes of the input, as far as they were kept.
    pub(crate) start: &'a [u8],
    /// Whether no byte of the input was read.
    pub(crate) is_input_empty: bool,
    /// The line on which the quotation begins that the input ends within, if it is watched for that.
    pub(crate) open_quotation: Option<u64>,
    /// How the last read of the input failed, if it did.
    pub(crate) input_failure: Option<io::Error>,
    /// Whether no byte of the output was written.
    pub(crate) is_output_empty: bool,
    /// How the last write of the output failed, if it did.
    pub(crate) output_failure: Option<io::Error>,
}

// Returns the path of the store and the name of the table that a request queries.
fn query_of<'a>(request: &StoreRequest<'a>) -> Option<(&'a str, &'a str)> {
    match request {
        StoreRequest::Command {
            path,
            command: StoreCommand::Query { name, .. } | StoreCommand::SaveAs { from: name, .. },
        } => Some((path, name)),
        _ => None,
    }
}

// Returns `None` if the store can't be opened again: another program may have locked it by now.
fn queried_table<
    F: Read + Write + Seek + OpenFile + LockFile + Drop,
    H: Files<File = F> + AllocGlobal,
>(rt: &H, request: &StoreRequest<'_>) -> Option<Table> {
    let (path, name) = query_of(request)?;
    let store = open_to_read(rt, path).ok()?;
    match store.schema(rt.alloc(), name) {
        Ok(schema) => Table::new(rt.alloc(), schema, Vec::new(rt.alloc())).ok(),
        Err(_) => None,
    }
}

// Returns the tables of the store that a request opens.
fn tables_of<F: Read + Write + Seek + OpenFile + LockFile + Drop, H: Files<File = F> + AllocGlobal>(
    rt: &H,
    request: &StoreRequest<'_>,
) -> Option<Vec<(String, u64)>> {
    let store = open_to_read(rt, store_of(request)?).ok()?;
    store.tables(rt.alloc()).ok()
}

// The file that is opened comes before the one that is made with a number of sectors. A block device without a number has its own.
fn found_of_size<F: Read + Seek + OpenFile + Drop, H: Files<File = F> + AllocGlobal>(
    rt: &H,
    request: &StoreRequest<'_>,
) -> Option<AskedAgain> {
    if let Some(file) = file_of_bad_size(rt, request) {
        return Some(AskedAgain::File(file));
    }
    match refused_sectors(request) {
        Some(sectors) => Some(AskedAgain::Sectors(sectors)),
        None => Some(AskedAgain::File(unfit_device(rt, request)?)),
    }
}

fn found_of<F: Read + Write + Seek + OpenFile + LockFile + Drop, H: Files<File = F> + AllocGlobal>(
    rt: &H,
    request: &StoreRequest<'_>,
    served: Served<'_>,
    failure: &Option<Failure>,
    refusal: &Refusal,
) -> Option<AskedAgain> {
    if let Some(found) = report_of_failure(rt, request, served, failure, refusal) {
        return Some(found);
    }
    match refusal {
        Refusal::Io(Side::File) => {
            let file = match unfit_device(rt, request) {
                Some(file) => file,
                None => file_in_place_of_store(rt, request)?,
            };
            Some(AskedAgain::File(file))
        }
        Refusal::BadSize | Refusal::Opening(OpeningRefusal::Damaged(Cause::DeviceSize)) => {
            found_of_size(rt, request)
        }
        Refusal::Opening(OpeningRefusal::NotAStore) => {
            let file = file_of_later_version(rt, request)?;
            Some(AskedAgain::File(file))
        }
        Refusal::Store(tables::Refusal::NoTable) => {
            let tables = tables_of(rt, request)?;
            Some(AskedAgain::Listed(about_tables(rt.alloc(), &tables)?))
        }
        Refusal::BadScript(number) | Refusal::Line(number, _) | Refusal::TextLine(number, _) => {
            found_in_script(rt, request, served, *number)
        }
        Refusal::NoEnd => line_without_end(rt, request, served),
        Refusal::Query(_) | Refusal::Store(tables::Refusal::Query(_)) => {
            let table = queried_table(rt, request)?;
            Some(AskedAgain::Queried(table))
        }
        Refusal::Store(
            refusal @ (tables::Refusal::SegmentUnread(place)
            | tables::Refusal::SegmentDamaged(place)),
        ) => {
            let name = unread_table(rt, request, *refusal, *place)?;
            Some(AskedAgain::Unread(name))
        }
        Refusal::NotAnArchive if served.is_input_empty => {
            Some(AskedAgain::Streams(FoundOfStreams::Empty))
        }
        Refusal::Store(tables::Refusal::Import(fault)) => {
            let found = found_in_stream(rt.alloc(), served.start, served.is_input_empty, *fault)?;
            Some(AskedAgain::Streams(found))
        }
        Refusal::Store(tables::Refusal::SchemaMismatch) => {
            let field = field_of_no_table(rt, request, served.start)?;
            Some(AskedAgain::Field(field))
        }
        _ => None,
    }
}

/// Looks for what a hint can name, if a person reads why the request was refused. `failure` is how the last system call on a file failed, if it did.
pub(crate) fn ask_again<
    F: Read + Write + Seek + OpenFile + LockFile + Drop,
    H: Files<File = F> + AllocGlobal,
>(
    rt: &H,
    request: &StoreRequest<'_>,
    served: Served<'_>,
    failure: &Option<Failure>,
    done: &Result<(), Refusal>,
    audience: Audience,
) -> AskedAgain {
    match (audience, done) {
        (Audience::Terminal | Audience::Script, Err(refusal)) => {
            match found_of(rt, request, served, failure, refusal) {
                Some(found) => found,
                None => AskedAgain::Nothing,
            }
        }
        _ => AskedAgain::Nothing,
    }
}
