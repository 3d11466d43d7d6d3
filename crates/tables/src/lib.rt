//! Named tables as a finite map, and the effect of commands on them. This crate knows no device.
//!
//! A command is judged by the tables alone: `verdict` (`specs/Verdict.antt`) is the tables after it, or the first of its tests that fails, and
//! `after` executes a list of commands. The crate provides laws of these definitions for the crates above ([`a_refused_command_changes_nothing`],
//! [`a_command_changes_its_names_alone`], [`commands_in_turn`], [`tables_stay_tables`]), and the text of a [`Refusal`].
//!
//! ```
//! assert_eq!(format!(in alloc; "refused {}", Refusal::NoRoom(1))?, "refused S8 NoRoom 1");
//! ```
#![tactic(auto)]

mod command;
mod laws;
mod limits;
mod refusal;
mod refusal_text;

pub use command::{Command, NewTable};
pub use laws::{
    a_command_changes_its_names_alone, a_list_is_its_commands_in_turn,
    a_refused_command_changes_nothing, commands_bring_tables, commands_in_turn,
    joined_rows_weigh_together, lists_bring_tables, tables_stay_tables, worked_commands,
};
pub use limits::MAX_IMPORT_BYTES;
pub use refusal::{Limit, QueryRefusal, Refusal};
