//! Measures counting and joining bits against reading the same bytes, a device that is a file, and an export in pieces.
//!
//! `bench [bitmap MEGABYTES] [device PATH MEBIBYTES]` prints on standard output what it counted, and on standard error how long each step took.
//! `bitmap` takes two masks of that size. `device` writes that many mebibytes to a new file at the path, sector by sector, syncs it, reads it
//! again, writes as much to another new file by 32 sectors at a time, syncs that, and removes the file. `bench pieces STORE TABLE` writes the
//! stream of a table, with one segment in memory at a time.
#![tactic(auto)]

mod file_device;
mod masks;
mod pieces;

use anyhow::{Result, bail};
use std::env;

fn main(rt: HostRuntime) -> Result<()> {
    let words: Vec<String> = env::args(&rt)?.collect(rt.alloc())?;
    measure(&rt, words.get(1..).unwrap_or_default())
}

fn measure(rt: &HostRuntime, words: &[String]) -> Result<()> {
    let rest = match words {
        [what, megabytes, rest @ ..] if what.as_str() == "bitmap" => {
            masks::measure(rt, megabytes.as_str())?;
            rest
        }
        _ => words,
    };
    match rest {
        [] => Ok(()),
        [what, path, mebibytes] if what.as_str() == "device" => {
            file_device::measure(rt, path.as_str(), mebibytes.as_str())
        }
        [what, path, table] if what.as_str() == "pieces" => {
            pieces::write(rt, path.as_str(), table.as_str())
        }
        _ => bail!("usage: bench [bitmap MEGABYTES] [device PATH MEBIBYTES | pieces STORE TABLE]"),
    }
}
