//! Scripts of commands that are played on a device in memory, where a call fails or the device stops, and what a crash then leaves; and the commands of
//! scripts that are applied as one commit, with the contents of the files that they name.
//!
//! ```
//! replay(&rt, "script", 64, FormatVersion::Two, faults, &mut output)?; // a stop in the third write, say
//! ```
#![tactic(auto)]

mod calls;
mod commands;
mod device;
mod files;
mod laws;
mod listed;
mod playing;
mod replaying;

pub use files::read_whole_file;
pub use laws::played_lines_are_a_run;
pub use listed::script_commands;
pub use replaying::{Faults, replay};
