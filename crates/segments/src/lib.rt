//! Runs of sectors on a device: which of them are free, and the bytes that they hold.
//!
//! `FreeMap` keeps the runs in use, and finds the lowest free run that fits. `write_runs` changes no sector outside its runs, and each run then reads
//! as its bytes. `read_run` returns the bytes of a run, and distinguishes an unreadable sector from a device failure.
//!
//! ```
//! let run = free_map.take(3)?;
//! write_run(&mut device, run.start, &bytes)?;
//! let same = read_run(alloc, &mut device, run.start, bytes.len())?;
//! ```
#![tactic(auto)]

mod entries;
mod errors;
mod extent;
mod free_map;
mod gap_buffer;
mod piece;
mod reading;
mod run;
mod search_cursor;
mod tail;
mod writing;

pub use entries::{Usage, UsageEntry};
pub use errors::{EnterError, TakeError};
pub use extent::Extent;
pub use free_map::FreeMap;
pub use piece::{Piece, PiecePart, byte_count};
pub use reading::{ReadError, read_run};
pub use run::Run;
pub use search_cursor::SearchCursor;
pub use writing::{write_run, write_runs};
