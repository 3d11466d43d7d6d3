// Tests of written messages (ipc_write). The expected bytes are those of another writer. Schemas are written by the program
// (tests/vectors/streams).
use crate::made::{NotMade, is_one_well};
use crate::stream_bytes::{BATCH, END};
use ipc_write::{BatchContents, write_batch, write_dictionary, write_end};
use std::alloc::Global;

/// A dictionary batch with the one entry 32767 of 16 bits.
const ENTRIES: [u8; 200] = [
    0xff, 0xff, 0xff, 0xff, 0xb8, 0x00, 0x00, 0x00, 0x10, 0x00, 0x00, 0x00, 0x0c, 0x00, 0x18, 0x00,
    0x04, 0x00, 0x06, 0x00, 0x08, 0x00, 0x10, 0x00, 0x0c, 0x00, 0x00, 0x00, 0x04, 0x00, 0x02, 0x00,
    0x20, 0x00, 0x00, 0x00, 0x00, 0x00, 0x00, 0x00, 0x08, 0x00, 0x00, 0x00, 0x00, 0x00, 0x00, 0x00,
    0x00, 0x00, 0x00, 0x00, 0x00, 0x00, 0x0a, 0x00, 0x18, 0x00, 0x08, 0x00, 0x10, 0x00, 0x14, 0x00,
    0x0a, 0x00, 0x00, 0x00, 0x00, 0x00, 0x00, 0x00, 0x00, 0x00, 0x00, 0x00, 0x00, 0x00, 0x00, 0x00,
    0x18, 0x00, 0x00, 0x00, 0x00, 0x00, 0x00, 0x00, 0x00, 0x00, 0x00, 0x00, 0x00, 0x00, 0x0a, 0x00,
    0x18, 0x00, 0x08, 0x00, 0x10, 0x00, 0x14, 0x00, 0x0a, 0x00, 0x00, 0x00, 0x00, 0x00, 0x00, 0x00,
    0x01, 0x00, 0x00, 0x00, 0x00, 0x00, 0x00, 0x00, 0x0c, 0x00, 0x00, 0x00, 0x20, 0x00, 0x00, 0x00,
    0x00, 0x00, 0x00, 0x00, 0x01, 0x00, 0x00, 0x00, 0x01, 0x00, 0x00, 0x00, 0x00, 0x00, 0x00, 0x00,
    0x00, 0x00, 0x00, 0x00, 0x00, 0x00, 0x00, 0x00, 0x00, 0x00, 0x00, 0x00, 0x02, 0x00, 0x00, 0x00,
    0x00, 0x00, 0x00, 0x00, 0x00, 0x00, 0x00, 0x00, 0x00, 0x00, 0x00, 0x00, 0x00, 0x00, 0x00, 0x00,
    0x00, 0x00, 0x00, 0x00, 0x00, 0x00, 0x00, 0x00, 0x02, 0x00, 0x00, 0x00, 0x00, 0x00, 0x00, 0x00,
    0xff, 0x7f, 0x00, 0x00, 0x00, 0x00, 0x00, 0x00,
];

/// The place of the byte that says whether the entries are a delta.
const IS_DELTA: usize = 84;

/// A message to be written.
#[derive(Clone, Copy)]
enum Wanted {
    /// The entry 32767.
    Dictionary { is_delta: bool },
    /// The rows 7 and -1.
    Batch,
    End,
}

fn put(alloc: Global, out: &mut Vec<u8>, wanted: Wanted) -> Result<(), NotMade> {
    match wanted {
        Wanted::Dictionary { is_delta } => {
            let nodes = vec![in alloc; (1, 0)]?;
            let buffers: [&[u8]; 2] = [&[], &[255, 127]];
            let contents = BatchContents {
                rows: 1,
                nodes,
                buffers: &buffers,
            };
            Ok(write_dictionary(alloc, out, 0, is_delta, contents)?)
        }
        Wanted::Batch => {
            let nodes = vec![in alloc; (2, 0)]?;
            let buffers: [&[u8]; 2] = [&[], &[7, 0, 0, 0, 255, 255, 255, 255]];
            let contents = BatchContents {
                rows: 2,
                nodes,
                buffers: &buffers,
            };
            Ok(write_batch(alloc, out, contents)?)
        }
        Wanted::End => Ok(write_end(out)?),
    }
}

const BEFORE: [u8; 3] = [9, 8, 7];

// Writes the message after other bytes, which a refused call must leave alone.
fn is_written(alloc: Global, wanted: Wanted, bytes: &[u8]) -> Result<bool, NotMade> {
    let mut out = Vec::from_slice(alloc, &BEFORE)?;
    let is_refused = put(alloc, &mut out, wanted).is_err();
    let is_kept = !is_refused || out.as_slice() == BEFORE.as_slice();
    if is_refused {
        put(alloc, &mut out, wanted)?;
    }
    Ok(is_kept && out.starts_with(&BEFORE) && out.get(3..) == Some(bytes))
}

fn are_written(alloc: Global) -> Result<bool, NotMade> {
    let mut delta = ENTRIES;
    delta[IS_DELTA] = 1;
    Ok(
        is_written(alloc, Wanted::Dictionary { is_delta: false }, &ENTRIES)?
            && is_written(alloc, Wanted::Dictionary { is_delta: true }, &delta)?
            && is_written(alloc, Wanted::Batch, &BATCH)?
            && is_written(alloc, Wanted::End, &END)?,
    )
}

// tests/refused_memory_in_crates refuses each allocation in turn, so one of the two runs may get no memory.
#[test]
fn messages_are_written_also_without_memory(rt: HostRuntime) {
    assert!(rt; is_one_well(are_written(rt.alloc()), are_written(rt.alloc())));
}
