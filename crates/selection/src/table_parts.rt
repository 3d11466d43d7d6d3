// The record batches of a table, which come from its stream where it is kept as rows.
ghost use Rattle.std.specs.Prelude.{◌≡◌, true, IfOk};
ghost use Rattle.arrow_schema.specs.Column.{columns_of};
ghost use Rattle.cells.specs.Cell.{PlainTable};
ghost use Rattle.ipc_canonical.specs.Canonical.{canonical};
ghost use Rattle.selection.specs.inner.TableParts.{parts_in};
ghost use Rattle.values.specs.Parts.{are_parts_sound, parts_table};
ghost use Rattle.values.specs.Table.{IsTable};
ghost use Rattle.values.specs.TableView.{is_in_parts, table_of};

use ipc_canonical::canonical_means_its_table;
use ipc_encode::encode;
use ipc_stream::decode;
use std::alloc::{AllocError, Global};
use values::{Table, TablePart};

/// The record batches of a table: its own, or those of its stream.
#[derive(Drop)]
pub(crate) enum TableParts<'a> {
    Own(&'a [TablePart]),
    OfStream(Vec<TablePart>),
}

impl TableParts<'_> {
    pub(crate) fn as_slice(&self) -> &[TablePart]
        ensures { result.now ≡ parts_in self.now }
    {
        match self {
            TableParts::Own(parts) => parts,
            TableParts::OfStream(parts) => parts,
        }
    }
}

/// Reads a table back from its canonical stream.
///
/// # Errors
/// `AllocError` if memory is refused.
pub(crate) fn table_of_stream(alloc: Global, bytes: Vec<u8>) -> Result<Table, AllocError>
    ensures ok { (t : PlainTable) → IsTable t → bytes.items ≡ canonical t → IfOk result (λ found. table_of found ≡ t) }
    ensures in_parts { IfOk result (λ found. is_in_parts found ≡ true) }
{
    canonical_means_its_table();
    match decode(alloc, bytes) {
        Ok(table) => Ok(table),
        // A canonical stream has no fault.
        Err(_) => Err(AllocError),
    }
}

/// Returns the record batches of a table. One that is kept as rows is written as a stream, which is read again.
pub(crate) fn parts_of<'a>(alloc: Global, table: &'a Table) -> Result<TableParts<'a>, AllocError>
    ensures rows { IfOk result (λ p. table_of table.now ≡ parts_table (table_of table.now).schema (parts_in p)) }
    ensures sound { IfOk result (λ p. are_parts_sound (columns_of (table_of table.now).schema.columns) (parts_in p) ≡ true) }
{
    if let Some(parts) = table.parts() {
        return Ok(TableParts::Own(parts));
    }
    // For the proof: a table is within all limits.
    let _schema = table.schema();
    let bytes = encode(alloc, table)?;
    let read = table_of_stream(alloc, bytes)?;
    Ok(TableParts::OfStream(read.into_parts()))
}
