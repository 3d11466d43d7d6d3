//! The open exports, and the runs that they protect from being overwritten.
//!
//! An export has the state of its opening: whatever happens to the table, the pieces are those of the segments at that time. An id is used only once.
//!
//! ```
//! let id = book.open(alloc, entry)?;
//! let export = book.get(id)?;
//! book.give(id);
//! let closed = book.close(id);
//! ```
#![tactic(auto)]

mod book;
mod export;
mod laws;

pub use book::{ExportBook, MAX_EXPORTS};
pub use export::OpenExport;
pub use laws::{ids_are_given_once, kept_runs_after_changes, runs_are_kept_few_times};
