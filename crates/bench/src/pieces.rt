// Exports a table piece by piece: one segment is in memory at a time.
use anyhow::{Result, bail};
use sector_dev::{FileDevice, SectorDevice, SystemFile};
use std::alloc::Global;
use std::fs::File;
use std::io::Write;
use store::Store;

// More than the pieces of a table of 65,536 segments: one for each segment, the schema and the end of stream.
const MOST_PIECES: u32 = 65_600;

fn write_pieces<D: SectorDevice, W: Write>(
    alloc: Global,
    store: &mut Store<D>,
    export: u64,
    output: &mut W,
) -> Result<()> {
    for _ in 0..MOST_PIECES {
        match store.export_next(alloc, export)? {
            Some(piece) => output.write_all(&piece)?,
            None => return Ok(()),
        }
    }
    bail!("a table has no such number of pieces")
}

fn write_table<D: SectorDevice + Drop>(rt: &HostRuntime, device: D, table: &str) -> Result<()> {
    let alloc = rt.alloc();
    let mut store = Store::open(alloc, device).map_err(|(refusal, _device)| refusal)?;
    let export = store.open_export(alloc, table)?;
    write_pieces(alloc, &mut store, export, &mut rt.stdout())?;
    store.close_export(export)?;
    let _device = store.close();
    Ok(())
}

/// Writes the stream of a table of the store in a file to standard output, piece by piece.
pub fn write(rt: &HostRuntime, path: &str, table: &str) -> Result<()> {
    write_table(
        rt,
        FileDevice::<SystemFile<File>>::open_to_read(rt, path)?,
        table,
    )
}
