// An open export, to compare one of a store with: what its pieces must mean, and those that were given.
use crate::made::NotMade;
use crate::steps::add_table;
use ipc_stream::decode;
use std::alloc::Global;
use values::Table;

// The end of a stream.
const END: &[u8] = &[0xff, 0xff, 0xff, 0xff, 0, 0, 0, 0];

#[derive(Drop)]
pub struct Snapshot {
    // The table that the export found, as `"a":int32?: 7 -1`.
    text: String,
    // The pieces that were given, joined.
    bytes: Vec<u8>,
    ended: bool,
    closed: bool,
}

fn is_table(alloc: Global, table: &Table, want: &str) -> Result<bool, NotMade> {
    let mut text = String::new(alloc);
    add_table(alloc, &mut text, table)?;
    Ok(text.as_str() == want)
}

impl Snapshot {
    pub fn new(alloc: Global, text: String) -> Snapshot {
        Snapshot {
            text,
            bytes: Vec::new(alloc),
            ended: false,
            closed: false,
        }
    }

    pub fn is_open(&self) -> bool {
        !self.closed
    }

    pub fn close(&mut self) {
        self.closed = true;
    }

    // Returns whether the given pieces are a whole stream of the table that was found.
    fn is_whole(&self, alloc: Global) -> Result<bool, NotMade> {
        if !self.bytes.ends_with(END) {
            return Ok(false);
        }
        match decode(alloc, Vec::from_slice(alloc, &self.bytes)?) {
            Ok(table) => is_table(alloc, &table, &self.text),
            Err(_) => Ok(false),
        }
    }

    /// Takes the next piece, or the end, and returns whether it may come now.
    pub fn takes(&mut self, alloc: Global, piece: &Option<Vec<u8>>) -> Result<bool, NotMade> {
        match piece {
            Some(bytes) => {
                self.bytes.extend_from_slice(bytes)?;
                Ok(!self.ended && !self.closed)
            }
            None => {
                self.ended = true;
                Ok(!self.closed && self.is_whole(alloc)?)
            }
        }
    }
}
