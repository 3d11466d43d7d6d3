//! The model of a store's runs, as plain data: calls and their replies, how each call changes the tables, and what a stop may leave.
//!
//! `specs/Steps.antt` says how a reply follows from the tables, `specs/Machine.antt` what a stop at any moment may leave, `specs/Deciding.antt`,
//! `specs/Compacting.antt`, `specs/Digesting.antt` and `specs/Carrying.antt` how a command, a step of a compaction and an upgrade change a catalogue,
//! `specs/Rooms.antt` what a reply says of the room for it, and `specs/Runs.antt` what a run of calls is. The functions are laws of whole runs, and one of the
//! tables that an image holds.
#![tactic(auto)]

mod compacting;
mod laws;

pub use compacting::Compaction;
pub use laws::{
    a_stop_keeps_what_was_acknowledged, acknowledged_commands_are_settled, each_stop_is_allowed,
    runs_go_on, runs_tell_no_damage, snapshots_give_their_table, tables_are_held_row_by_row,
    undisturbed_runs_settle_what_was_acknowledged, undisturbed_runs_tell_no_failure,
    undisturbed_runs_tell_no_halt,
};
