//! Devices of sectors of 512 bytes: what a store may rely on, a device in memory for tests, and a device over a file.
//!
//! `SectorDevice` says what reads return, what a crash may leave, and that failed calls are counted. `ModelDevice` is proved to implement all of it, and
//! so is `FileDevice`, over each file that keeps the laws of `SectorFile`. That a file of the system keeps them is trusted.
//!
//! ```
//! let mut device = FileDevice::create(&rt, "tables.store", 1024)?;
//! device.write(7, &[1; 512])?;
//! // only now it is safe from a crash
//! device.sync()?;
//! ```
#![tactic(auto)]

mod buffer;
mod confirmed_file;
mod contents;
mod crash_choice;
mod device;
mod faults;
mod file;
mod file_log;
mod log;
mod model;
mod model_file;
mod sector_file;
mod stored;
mod system_file;

pub use confirmed_file::ConfirmedFile;
pub use crash_choice::CrashChoice;
pub use device::{DevError, SECTOR_BYTES, SectorDevice};
pub use file::{FileDevice, FileError, LEAST_SECTORS, MOST_SECTORS};
pub use model::ModelDevice;
pub use model_file::ModelFile;
pub use sector_file::{FileFault, SectorFile};
pub use system_file::{FileHandle, LockFile, PlainFile, SystemFile};
