// Calls of a place, and their replies, as values.
use crate::{OpeningRefusal, Store};
use arrow_schema::Schema;
use sector_dev::SectorDevice;
use std::io::Empty;
use tables::{Command, Refusal};
use values::Table;

/// A call of a place. `R` is the reader of the commands whose bytes come from a reader. Without such commands the type is `Call`.
#[derive(Drop)]
pub enum Call<R = Empty> {
    /// Applies a command to the tables.
    Apply(Command),
    /// Applies several commands as one.
    ApplyAll(Vec<Command>),
    /// Imports the table of a stream, which is all that the reader has left, under this name.
    ImportFrom { name: String, reader: R },
    /// Appends the rows of a stream, which is all that the reader has left, to this table.
    AppendFrom { name: String, reader: R },
    /// Makes a new store, in version 2 of the format, on a device without a store.
    Format,
    /// Opens the store on the device.
    Open,
    /// Closes the store. The device remains.
    Close,
    /// Returns the name and the number of rows of each table.
    Tables,
    /// Returns the schema of the table with this name.
    Schema(String),
    /// Returns the table with this name.
    Read(String),
    /// Returns the canonical stream of the table with this name.
    Export(String),
    /// Opens an export of the table with this name, which gives its pieces one after another.
    OpenExport(String),
    /// Returns the next piece of the export with this id.
    ExportNext(u64),
    /// Closes the export with this id. The sectors that only it kept become free.
    CloseExport(u64),
    /// Takes one step of a compaction.
    Compact,
    /// Gives all segments digests.
    Upgrade,
}

/// The reply to a call.
#[derive(Drop)]
pub enum Reply {
    /// A command was applied, a store was formatted, or a store or an export was opened or closed.
    Done,
    /// The name and the number of rows of each table.
    Tables(Vec<(String, u64)>),
    Schema(Schema),
    Table(Table),
    /// The bytes of a stream.
    Bytes(Vec<u8>),
    /// The id of an export.
    Export(u64),
    /// The next piece of an export; `None` after the last one.
    Piece(Option<Vec<u8>>),
    /// Two neighbouring segments were joined.
    Merged,
    /// The segment with the greatest start was moved to a lower start.
    Moved,
    /// A step of a compaction found nothing to do.
    Nothing,
    /// The store already had digests.
    Already,
    Refused(Refusal),
    /// The command of several at this place, counted from 0, was refused, and so are all of them.
    RefusedAt { place: usize, refusal: Refusal },
    /// The device was not opened or formatted.
    NotOpened(OpeningRefusal),
}

/// A device with or without an open store.
#[derive(Drop)]
pub enum StoreOrDevice<D: SectorDevice> {
    Open(Store<D>),
    Shut(D),
}
