//! The commands of a script, one on each line.
//!
//! ```
//! let words = script_words(alloc, b"create t a:int32?\nbegin\nsave t kept \"a >= 1\"\ndrop t\ncommit\n")?;
//! let items = parse_script(alloc, &words)?; // a line by itself, and a list of two lines
//! ```
#![tactic(auto)]

mod append_options;
mod items;
mod laws;
mod line;
mod script;
mod words;

pub use items::{ScriptItem, ScriptList};
pub use laws::{a_line_has_one_list_of_words, written_words_are_read};
pub use line::{SavedRows, ScriptLine, line_of};
pub use script::{ScriptError, parse_changes, parse_script};
pub use words::{is_ended, script_words};
