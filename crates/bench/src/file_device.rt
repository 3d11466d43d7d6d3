// Measures a device that is a file: written and read sector by sector, and written by rows of sectors.
use anyhow::{Context, Result, bail};
use sector_dev::{DevError, FileDevice, FileError, SectorDevice, SystemFile};
use std::fs::{self, File};
use std::io;
use std::time::Instant;

const SECTORS_IN_A_MEBIBYTE: u64 = 2048;

// the sectors of 4,096 values of 4 bytes
const ROW: usize = 32;

// What is measured of a device.
#[derive(Clone, Copy)]
enum Step {
    Write,
    Read,
    Rows,
}

// Returns the content of a sector: its number, repeated.
fn content(n: u64) -> [u8; 512] {
    let mut content = [0; 512];
    for chunk in content.chunks_exact_mut(8) {
        chunk.copy_from_slice(&n.to_le_bytes());
    }
    content
}

fn write_all<D: SectorDevice>(device: &mut D) -> Result<(), DevError> {
    for n in 0..device.sectors() {
        device.write(n, &content(n))?;
    }
    device.sync()
}

fn write_rows<D: SectorDevice>(device: &mut D) -> Result<(), DevError> {
    let mut row = [[0; 512]; ROW];
    for i in 0..device.sectors() / ROW as u64 {
        let start = i * ROW as u64;
        for (k, sector) in row.iter_mut().enumerate() {
            *sector = content(start + k as u64);
        }
        device.write_sectors(start, &row)?;
    }
    device.sync()
}

// Returns whether each sector begins with its number: testing more would measure the test.
fn reads_all<D: SectorDevice>(device: &mut D) -> Result<bool, DevError> {
    let mut sector = [0; 512];
    let mut well = true;
    for n in 0..device.sectors() {
        device.read(n, &mut sector)?;
        well = well && &sector[..8] == &n.to_le_bytes()[..];
    }
    Ok(well)
}

// Does a step, and returns whether the right bytes were read.
fn is_done<D: SectorDevice>(device: &mut D, step: Step) -> Result<bool, DevError> {
    match step {
        Step::Write => write_all(device)?,
        Step::Rows => write_rows(device)?,
        Step::Read => return reads_all(device),
    }
    Ok(true)
}

// Returns the device for a step: a new one, unless it is read.
fn device_of(
    rt: &HostRuntime,
    path: &str,
    sectors: u64,
    step: Step,
) -> Result<FileDevice<SystemFile<File>>, FileError> {
    match step {
        Step::Read => FileDevice::open(rt, path),
        Step::Write | Step::Rows => FileDevice::create(rt, path, sectors),
    }
}

fn report(rt: &HostRuntime, step: Step, start: Instant) -> Result<()> {
    let microseconds = start.elapsed(rt)?.as_micros();
    let name = match step {
        Step::Write => "write",
        Step::Read => "read",
        Step::Rows => "rows",
    };
    eprintln!(rt; "device {name} {microseconds}")?;
    Ok(())
}

fn measure_on(
    rt: &HostRuntime,
    device: FileDevice<SystemFile<File>>,
    step: Step,
    start: Instant,
) -> Result<()> {
    let mut device = device;
    if !is_done(&mut device, step)? {
        bail!("other bytes were read");
    }
    report(rt, step, start)
}

fn measure_step(rt: &HostRuntime, path: &str, sectors: u64, step: Step) -> Result<()> {
    let start = Instant::now(rt)?;
    measure_on(rt, device_of(rt, path, sectors, step)?, step, start)
}

fn measure_sectors(rt: &HostRuntime, path: &str, sectors: u64) -> Result<()> {
    measure_step(rt, path, sectors, Step::Write)?;
    measure_step(rt, path, sectors, Step::Read)
}

// If a standard stream is closed, the next file opened takes its descriptor, and what is printed would go into the device. Files that can't be
// written take such descriptors first.
fn reserve_standard_descriptors(rt: &HostRuntime) -> io::Result<(File, File, File)> {
    Ok((
        fs::open(rt, "/dev/null")?,
        fs::open(rt, "/dev/null")?,
        fs::open(rt, "/dev/null")?,
    ))
}

/// Measures devices of this many mebibytes, each in a new file at the path.
pub fn measure(rt: &HostRuntime, path: &str, mebibytes: &str) -> Result<()> {
    let mebibytes = mebibytes.parse::<u64>().context("a number of mebibytes")?;
    let sectors = mebibytes.saturating_mul(SECTORS_IN_A_MEBIBYTE);
    let _reserved = reserve_standard_descriptors(rt)?;
    let measured = measure_sectors(rt, path, sectors);
    let _removed = fs::remove_file(rt, path);
    measured?;
    let measured = measure_step(rt, path, sectors, Step::Rows);
    let _removed = fs::remove_file(rt, path);
    measured
}
