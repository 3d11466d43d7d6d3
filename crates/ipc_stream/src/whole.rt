// Decodes a whole stream in memory.
ghost use Rattle.std.specs.Prelude.{◌≡◌, true, [], ◌∷◌, length, IfOk, IfErr};
ghost use Rattle.cells.specs.Weight.{table_weight};
ghost use Rattle.ipc_message.specs.Header.{supported_codes};
ghost use Rattle.ipc_message.specs.Outcome.{Gives};
ghost use Rattle.ipc_stream.specs.Meaning.{Known, known_table, meaning};
ghost use Rattle.ipc_stream.specs.Progress.{IsFront};
ghost use Rattle.values.specs.declared.table_part.TablePart.{TablePart as PlainPart};
ghost use Rattle.values.specs.TableView.{table_of, is_in_parts};

use crate::front::Front;
use crate::reading::read_front;
use ipc_message::ImportError;
use std::alloc::Global;
use values::{Table, TablePart, WeighedTable};

// Returns the bytes of the only part.
fn only_bytes(parts: Vec<TablePart>) -> Vec<u8>
    requires { length parts.items ≡ 1 }
    ensures { (p : PlainPart) → parts.items ≡ p ∷ [] → result.items ≡ p.bytes.items }
{
    let mut parts = parts;
    let TablePart { bytes, .. } = parts.swap_remove(0);
    bytes
}

// Returns the table whose arrays lie in these bytes. Returns the bytes if memory is refused.
pub(crate) fn table_of_front(alloc: Global, front: Front, bytes: Vec<u8>) -> Result<Table, Vec<u8>>
    requires { (k : Known) × IsFront bytes.items front k }
    ensures table { (k : Known) → IsFront bytes.items front k → IfOk result (λ table. table_of table ≡ known_table k) }
    ensures in_parts { IfOk result (λ table. is_in_parts table ≡ true) }
    ensures back { IfErr result (λ back. back.items ≡ bytes.items) }
{
    let Front {
        schema,
        dictionaries,
        batches,
        ..
    } = front;
    let Ok(mut parts) = Vec::with_capacity(alloc, 1) else {
        return Err(bytes);
    };
    parts.push_reserved(TablePart {
        bytes,
        dictionaries: dictionaries.into_lists(),
        batches,
    });
    match Table::from_parts_or_back(alloc, schema, parts) {
        Ok(table) => Ok(table),
        Err(parts) => Err(only_bytes(parts)),
    }
}

/// Returns the table that a stream means, and the weight of its rows. The table keeps the bytes as one part, so no cell is copied.
///
/// # Errors
/// `Fault` with the first fault of the stream; `OutOfMemory`. The bytes are freed.
pub fn decode_weighed(alloc: Global, bytes: Vec<u8>) -> Result<WeighedTable, ImportError>
    ensures exact { Gives (λ w. table_of w.table) result (meaning supported_codes bytes.items) }
    ensures weight { IfOk result (λ w. w.weight ≡ table_weight (table_of w.table).schema (table_of w.table).rows) }
    ensures in_parts { IfOk result (λ w. is_in_parts w.table ≡ true) }
{
    let front = read_front(alloc, &bytes)?;
    let weight = front.weight;
    match table_of_front(alloc, front, bytes) {
        Ok(table) => Ok(WeighedTable { table, weight }),
        Err(_) => Err(ImportError::OutOfMemory),
    }
}

/// Returns the table that a stream means, as [`decode_weighed`] does. A stream that names no later type code has the meaning that it had before these
/// codes were supported ([`crate::older_streams_keep_their_meaning`]).
///
/// ```
/// let rows = decode(alloc, bytes)?.len();
/// ```
///
/// # Errors
/// `Fault` with the first fault of the stream; `OutOfMemory`. The bytes are freed.
pub fn decode(alloc: Global, bytes: Vec<u8>) -> Result<Table, ImportError>
    ensures exact { Gives table_of result (meaning supported_codes bytes.items) }
    ensures in_parts { IfOk result (λ table. is_in_parts table ≡ true) }
{
    let WeighedTable { table, .. } = decode_weighed(alloc, bytes)?;
    Ok(table)
}
