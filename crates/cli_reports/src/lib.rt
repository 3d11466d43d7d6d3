//! Why a command of the program was refused, how a run ends, and what is reported of both; and the program's own texts.
//!
//! A [`Refusal`] wraps the errors of the layers below, which convert to it by `?`. Its text (`specs/Refusals.antt`) and its [`Refusal::remedy`] are
//! promised; the remedy is a sentence that is also on the page of all refusals ([`refusals_page`]), and so is [`Refusal::word`], by which a script
//! tells one refusal from another. [`Known`] is what is known of a refused command besides: whether it changes a store, and a [`Hint`] at a word of the
//! command line, a file, the input or output, a part of the input, a table or a line of a script.
//!
//! [`end`] and [`report_arguments`] report on any writer how a run ended, and say which bytes are written: for a program the line of a
//! refusal, and on a terminal also what to do. [`end_output`] does the same for a run with an output, whose reader may be gone ([`Output`],
//! [`WatchedOutput`]), and [`end_text`] for one that only writes a text: a terminal is told why the output failed. [`ShownOutput`] gives a
//! terminal no control character. [`tell_left_out`] and [`tell_lacking`] report what a salvage leaves out, and [`tell_notes`] what a
//! command that is done has brought ([`Note`]) and what it leaves in doubt ([`Warning`]). [`write_own_text`] writes the version, the
//! meaning of each refusal, or the help that lists all commands, and [`write_entry`] the meaning of one.
//!
//! ```
//! assert_eq!(format!(in alloc; "{}", Refusal::Store(tables::Refusal::NoRoom(1)))?, "S8 NoRoom 1");
//! let ended = end(Err(Refusal::BadSize), Known::unchanging(None), Audience::Program, &mut errors); // `errors` has the line `refused G2 BadSize`
//! assert_eq!(ended.status.code(), 1);
//! ```
#![tactic(auto)]

pub mod abouts;
mod digits;
mod entry;
mod escaping;
mod failed_file;
mod form;
mod help;
mod hint;
mod known;
mod left_out;
mod notes;
mod output;
mod own_texts;
mod page;
mod part_about;
mod part_remedy;
mod part_shown;
mod reasons;
mod refusal;
mod refused_word;
mod remedies;
mod reports;
mod shown;
mod status;
mod telling;
mod unreadable;
mod warnings;
mod watched;
mod word;

pub use entry::{codes_with_entries, has_entry};
pub use escaping::{ShownOutput, escaped_bytes_are_clean};
pub use failed_file::{FailedFile, FileReason, OtherLength};
pub use help::{HELP, help_page};
pub use hint::{Hint, Hinted, HintedPart, report_table};
pub use known::{FileCause, Known};
pub use left_out::{tell_lacking, tell_left_out};
pub use notes::Note;
pub use output::write_whole;
pub use own_texts::{VERSION, is_own, is_version_word, write_own_text};
pub use page::{FILE_REFUSALS, TABLE_REFUSALS, refusals_page};
pub use part_about::about_part;
pub use reasons::{failure_of, system_text};
pub use refusal::{ArchiveMember, Refusal, Side};
pub use refused_word::{Role, Word};
pub use reports::{
    end, end_output, end_text, report_arguments, report_signed_number, report_stream_to_terminal,
    report_wrong_arguments, write_entry,
};
pub use shown::{MOST_SHOWN, has_unshown};
pub use status::{Ended, Status};
pub use telling::{Audience, Output, audience_after_output};
pub use unreadable::report_unreadable_arguments;
pub use warnings::{LiteralForm, Notes, Warning, tell_notes};
pub use watched::WatchedOutput;
