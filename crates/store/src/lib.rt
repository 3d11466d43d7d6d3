//! The store: named tables on a device, through commands, failures and stops.
//!
//! [`run`] answers any list of calls as the model of runs says (`store_runs`: how a reply follows from the tables, and what a stop at any moment may
//! leave). A stop at any moment leaves the tables of all acknowledged commands.
//!
//! ```
//! match Store::open(alloc, device) {
//!     Ok(store) => store.close(), // it had the tables of all acknowledged commands
//!     Err((refusal, device)) => device, // `refusal` says why, as `C1 NotAStore`
//! }
//! ```
#![tactic(auto)]

mod agreeing;
mod appending;
mod applying;
mod applying_all;
mod beginning;
mod call;
mod carrying;
mod compacting;
mod drafting;
mod exporting;
mod exports;
mod formatting;
mod importing;
mod input;
mod laws;
mod lending;
mod listing;
mod opening_refusal;
mod reading;
mod receiving;
mod running;
mod salvaging;
mod saving;
mod segment_streams;
mod selecting;
mod sending;
mod sending_ahead;
mod store;
mod summary;
mod taking;
mod transacting;
mod upgrading;

pub use applying_all::ListRefusal;
pub use beginning::{crashed_devices_are_left, devices_fit, left_devices_fit, new_devices_fit};
pub use call::{Call, Reply, StoreOrDevice};
pub use commit::{Cause, FormatVersion, OpeningRefusal};
pub use input::read_at_most;
pub use laws::{segments_have_digests, used_runs_are_named};
pub use pages::StoredCatalogue;
pub use receiving::{ReceiveRefusal, digests_tell_streams, received_rows_are_of_the_streams};
pub use running::{answer, run};
pub use salvaging::LeftOut;
pub use segment_streams::{SegmentInfo, SegmentStream, streams_have_their_rows};
pub use store::Store;
pub use store_changes::{
    compactions_end, decisions_are_verdicts, rows_have_their_digest, what_is_done_is_the_verdict,
};
pub use store_runs::{
    Compaction, a_stop_keeps_what_was_acknowledged, acknowledged_commands_are_settled,
    each_stop_is_allowed, runs_go_on, runs_tell_no_damage, snapshots_give_their_table,
    tables_are_held_row_by_row, undisturbed_runs_settle_what_was_acknowledged,
    undisturbed_runs_tell_no_failure, undisturbed_runs_tell_no_halt,
};
pub use summary::Summary;
pub use transacting::Transaction;
pub use upgrading::Upgraded;
