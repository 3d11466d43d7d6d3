// Runs on a device in memory.
use crate::calls::are_same;
use sector_dev::{ModelDevice, SectorDevice};
use segments::{Piece, PiecePart, Run, byte_count, read_run, write_run, write_runs};
use std::alloc::{AllocError, Global};

const BYTES: [u8; 1100] = [7; 1100];

// Returns whether the bytes are read from this sector on.
fn are_read(alloc: Global, device: &mut ModelDevice, start: u64) -> bool {
    if device.sectors() != 16 || start > 13 {
        return false;
    }
    match read_run(alloc, device, start, 1100) {
        Ok(bytes) => are_same(&bytes, &BYTES),
        Err(_) => false,
    }
}

// Returns the bytes in parts, none of which ends at the end of a sector.
fn parts_of<'a>(alloc: Global, bytes: &'a [u8]) -> Result<Vec<PiecePart<'a>>, AllocError> {
    let (front, back) = bytes.split_at_checked(700).unwrap_or((bytes, &[]));
    let mut parts = Vec::new(alloc);
    parts.push(PiecePart::Borrowed(front))?;
    parts.push(PiecePart::Borrowed(&[]))?;
    parts.push(PiecePart::Made(Vec::from_slice(alloc, back)?))?;
    Ok(parts)
}

// Writes the bytes, and writes them as a piece.
fn are_written(device: &mut ModelDevice, parts: Vec<PiecePart<'_>>) -> bool {
    let Some(count) = byte_count(&parts) else {
        return false;
    };
    if device.sectors() != 16 || count != 1100 {
        return false;
    }
    let written = write_run(device, 2, &BYTES).is_ok();
    let run = Run { start: 5, count: 3 };
    write_runs(device, &[Piece { run, parts }]).is_ok() && written
}

fn are_read_back(alloc: Global, device: &mut ModelDevice) -> bool {
    match parts_of(alloc, &BYTES) {
        Ok(parts) => {
            are_written(device, parts) && are_read(alloc, device, 2) && are_read(alloc, device, 5)
        }
        Err(_) => false,
    }
}

fn is_run_read_back(alloc: Global) -> bool {
    match ModelDevice::new(alloc, 16) {
        Ok(mut device) => are_read_back(alloc, &mut device),
        Err(_) => false,
    }
}

// tests/refused_memory_in_crates refuses at most one allocation, so at least one of two runs does not lack memory.
fn is_one_read_back(alloc: Global) -> bool {
    is_run_read_back(alloc) || is_run_read_back(alloc)
}

#[test]
fn a_run_is_written_and_read_also_without_memory(rt: HostRuntime) {
    assert!(&rt; is_one_read_back(rt.alloc()));
}
