// A file in memory with scheduled failures. All tests use it, because each type of file costs as much proof time as ten functions.
use std::cell::Cell;
use std::fs::{Metadata, OpenFile};
use std::io::{self, Cursor, ErrorKind, Read, Seek, SeekFrom, Write};

// A write of more bytes than this is that of a long row, which is not buffered.
const LONG: usize = 64 * 1024;

#[derive(Clone, Copy)]
pub(crate) enum Fault {
    Nothing,
    // the call with this number, counted from 1
    Call(u64),
    // each sync of the data
    Syncs,
    // the next long write writes only a part, and the write after it fails
    LongWrite,
    // the next write
    Write,
}

// A file of `BYTES` bytes.
#[derive(Drop)]
pub(crate) struct FaultyFile<const BYTES: usize> {
    bytes: Cursor<[u8; BYTES]>,
    calls: Cell<u64>,
    // how many writes began at one of the first two sectors
    first_writes: u64,
    fault: Fault,
}

impl<const BYTES: usize> FaultyFile<BYTES> {
    pub(crate) fn new(fault: Fault) -> Self {
        FaultyFile {
            bytes: Cursor::new([0; BYTES]),
            calls: Cell::new(0),
            first_writes: 0,
            fault,
        }
    }

    pub(crate) fn first_writes(&self) -> u64 {
        self.first_writes
    }

    // From now on no call fails.
    pub(crate) fn heal(&mut self) {
        self.fault = Fault::Nothing;
    }

    fn begin(&self) -> io::Result<()> {
        let call = self.calls.get().wrapping_add(1);
        self.calls.set(call);
        match self.fault {
            Fault::Call(number) if number == call => Err(io::Error::from(ErrorKind::Other)),
            _ => Ok(()),
        }
    }
}

impl<const BYTES: usize> Read for FaultyFile<BYTES> {
    fn read(&mut self, buf: &mut [u8]) -> io::Result<usize> {
        self.begin()?;
        self.bytes.read(buf)
    }
}

impl<const BYTES: usize> Write for FaultyFile<BYTES> {
    fn write(&mut self, buf: &[u8]) -> io::Result<usize> {
        self.begin()?;
        if self.bytes.position() < 2 * 512 {
            self.first_writes = self.first_writes.wrapping_add(1);
        }
        match self.fault {
            Fault::LongWrite if buf.len() > LONG => {
                self.fault = Fault::Write;
                let front = buf.len().min(LONG);
                self.bytes.write(&buf[..front])
            }
            Fault::Write => {
                self.fault = Fault::Nothing;
                Err(io::Error::from(ErrorKind::Other))
            }
            _ => self.bytes.write(buf),
        }
    }

    fn flush(&mut self) -> io::Result<()> {
        Ok(())
    }
}

impl<const BYTES: usize> Seek for FaultyFile<BYTES> {
    fn seek(&mut self, to: SeekFrom) -> io::Result<u64> {
        self.begin()?;
        self.bytes.seek(to)
    }
}

impl<const BYTES: usize> OpenFile for FaultyFile<BYTES> {
    fn metadata(&self) -> io::Result<Metadata> {
        Err(io::Error::from(ErrorKind::Unsupported))
    }

    fn set_len(&self, _size: u64) -> io::Result<()> {
        Err(io::Error::from(ErrorKind::Unsupported))
    }

    fn sync_all(&self) -> io::Result<()> {
        self.begin()
    }

    fn sync_data(&self) -> io::Result<()> {
        self.begin()?;
        match self.fault {
            Fault::Syncs => Err(io::Error::from(ErrorKind::Other)),
            _ => Ok(()),
        }
    }
}
