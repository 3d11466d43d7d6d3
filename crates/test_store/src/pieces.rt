// A reader that gives its bytes in pieces and can be made to fail.
use std::io::{self, Cursor, ErrorKind, Read};

/// How bytes are given.
#[derive(Clone, Copy)]
pub enum Pieces {
    /// As many as are asked for.
    Whole,
    /// One by one.
    Single,
    /// This number, and then a read fails.
    Failing(usize),
}

/// A reader that gives bytes in pieces.
#[derive(Drop)]
pub struct PieceReader {
    bytes: Cursor<Vec<u8>>,
    pieces: Pieces,
}

impl PieceReader {
    pub fn new(bytes: Vec<u8>, pieces: Pieces) -> Self {
        PieceReader {
            bytes: Cursor::new(bytes),
            pieces,
        }
    }
}

impl Read for PieceReader {
    fn read(&mut self, buf: &mut [u8]) -> io::Result<usize> {
        let most = match self.pieces {
            Pieces::Whole => buf.len(),
            Pieces::Single => buf.len().min(1),
            Pieces::Failing(0) => return Err(io::Error::from(ErrorKind::Other)),
            Pieces::Failing(left) => buf.len().min(left),
        };
        let count = self.bytes.read(&mut buf[..most])?;
        if let Pieces::Failing(left) = self.pieces {
            self.pieces = Pieces::Failing(left.saturating_sub(count));
        }
        Ok(count)
    }
}
