//! How a command changes a catalogue: the command is decided, and its change is prepared for publishing. Nothing is published here.
//!
//! The catalogue decides on a command, and so do the segments that are read from a device if the command needs a table. The change, of names or with new
//! segments, takes runs and becomes a plan. A step of a compaction and the digests of an upgrade become plans in the same way.
#![tactic(auto)]

mod ahead;
mod appending;
mod change;
mod compacting;
mod deciding;
mod digests;
mod draft_source;
mod drafting;
mod editing;
mod kept_message;
mod laws;
mod lightness;
mod moving;
mod new_digests;
mod new_rows;
mod pairs;
mod preparing;
mod reading;
mod rebuilding;
mod source;
mod table_builder;
mod weighing;

pub use ahead::{ReadAhead, next_bytes};
pub use appending::{Known, append_to_entry};
pub use change::{Change, Edit, NewSegments, SegmentRows};
pub use compacting::{Step, decide_step};
pub use deciding::{
    decide_create, decide_drop, decide_import, decide_rename, has_table, put_table, test_create,
};
pub use digests::all_digests;
pub use draft_source::DraftSource;
pub use drafting::Draft;
pub use kept_message::KeptMessage;
pub use laws::{
    compactions_end, decisions_are_verdicts, laws_below, rows_have_their_digest, table_laws,
    what_is_done_is_the_verdict,
};
pub use new_rows::NewRows;
pub use preparing::{Prepared, prepare, settle};
pub use reading::{read_entry, read_next_segment, read_segment};
pub use rebuilding::has_new;
pub use source::SegmentSource;
pub use weighing::weigh_entry;
