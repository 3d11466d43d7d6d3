// What a command line asks of a store.
ghost use Rattle.std.specs.Prelude.{◌≡◌, true, map, IfSome};
ghost use Rattle.cli_requests.specs.Asked.{changes, is_for_device, only_reads};
ghost use Rattle.cli_requests.specs.StoreWords.{changes_by_input_word, takes_input_word, changes_word, makes_word, reads_table_word, reads_tables_word, reads_word, is_store_word, is_of_store, takes_input, is_help_word, ask_for_help, ask_help_of_command};

use crate::ReplayWords;
use commit::FormatVersion;
use query::{DateForm, RowShape};
use std::convert::AsStr;
use text_import::TextForm;

/// A query, as words of a command line.
#[derive(Drop)]
pub struct QueryWords<'a> {
    pub conditions: Vec<&'a str>,
    pub columns: Option<&'a str>,
    pub limit: Option<u64>,
    /// How dates stand in the conditions, and in the lines that are printed.
    pub dates: DateForm,
}

/// What is asked of the store in the file at a path.
#[derive(Drop)]
pub enum StoreRequest<'a> {
    /// Makes a new file with an empty store of `sectors` sectors of 512 bytes, in this version of the format.
    Format {
        path: &'a str,
        sectors: u64,
        version: FormatVersion,
    },
    /// Makes an empty store on the block device at the path, on all of its sectors of 512 bytes, which must be `sectors` where a number is given. With
    /// `over` it is made in place of whatever is on the device; without it there is no number.
    FormatDevice {
        path: &'a str,
        sectors: Option<u64>,
        over: bool,
        version: FormatVersion,
    },
    /// Makes a new file at `new` with a store of `sectors` sectors of 512 bytes and the tables of the store at `path`.
    Copy {
        path: &'a str,
        new: &'a str,
        sectors: u64,
    },
    /// Writes the stream of those rows of a table that can be read, if some are damaged.
    Salvage {
        path: &'a str,
        name: &'a str,
    },
    /// Plays a script on a device in memory.
    Replay(ReplayWords<'a>),
    /// Executes all lines of a script as one change of the store, or none. The script `-` is standard input.
    Apply {
        path: &'a str,
        script: &'a str,
    },
    /// Writes an archive of all tables, without the segments whose digests the file `have` lists. The file `-` is standard input.
    Send {
        path: &'a str,
        have: Option<&'a str>,
    },
    /// Makes the tables of the archive that is read those of the store, as one change. With `delete` other tables are dropped.
    Receive {
        path: &'a str,
        delete: bool,
    },
    /// Executes a command on an existing store.
    Command {
        path: &'a str,
        command: StoreCommand<'a>,
    },
}

/// A command of a store, as words of a command line.
#[derive(Drop)]
pub enum StoreCommand<'a> {
    /// Makes an empty table with the fields that the texts state.
    Create {
        name: &'a str,
        fields: Vec<&'a str>,
    },
    /// Makes an empty table with the schema of another one.
    CreateLike {
        name: &'a str,
        like: &'a str,
    },
    /// Makes the table of a stream, in place of one of this name.
    Import {
        name: &'a str,
    },
    /// Makes the table of a stream, if no table has this name.
    ImportNew {
        name: &'a str,
    },
    /// Makes the table of a stream that must have its end, in place of one of this name, or only if there is none.
    ImportComplete {
        name: &'a str,
        is_new: bool,
    },
    /// Appends the rows of a stream to the table.
    Append {
        name: &'a str,
    },
    /// Appends the rows of a stream that must have its end.
    AppendComplete {
        name: &'a str,
    },
    /// Appends the rows of a text to the table.
    AppendText {
        name: &'a str,
        form: TextForm<'a>,
    },
    /// Prints the rows that a query selects, a line each, of this shape.
    Query {
        name: &'a str,
        query: QueryWords<'a>,
        shape: RowShape,
    },
    /// Saves the rows that a query selects as a new table.
    SaveAs {
        from: &'a str,
        to: &'a str,
        query: QueryWords<'a>,
    },
    /// Gives a table another name.
    Rename {
        from: &'a str,
        to: &'a str,
    },
    /// Removes the table of this name.
    Drop {
        name: &'a str,
    },
    /// Prints the name and the number of rows of each table.
    Tables,
    /// Prints the fields of a table.
    Schema {
        name: &'a str,
    },
    /// Prints the texts by which the fields of a table are typed in.
    SchemaFields {
        name: &'a str,
    },
    /// Writes the stream of a table.
    Export {
        name: &'a str,
    },
    /// Checks that all tables can be read.
    Check,
    /// Prints the summary of the store, as lines or as JSON.
    Info {
        as_json: bool,
    },
    /// Joins small segments and moves them to the lowest free sectors, in as many steps as are left to do, or fewer.
    Compact {
        steps: Option<u64>,
    },
    /// Gives each segment the digest of its bytes.
    Upgrade,
    /// Prints the digest of each segment.
    Have,
}

impl StoreCommand<'_> {
    /// Returns whether the command writes nothing to the store.
    #[tactic(auto, unfolding(crate::specs::Asked::only_reads, crate::specs::StoreWords::reads_word, crate::specs::StoreWords::reads_table_word, crate::specs::StoreWords::reads_tables_word))]
    pub fn only_reads(&self) -> bool
        ensures { result ≡ only_reads self.now }
    {
        matches!(
            self,
            StoreCommand::Query { .. }
                | StoreCommand::Tables
                | StoreCommand::Schema { .. }
                | StoreCommand::SchemaFields { .. }
                | StoreCommand::Export { .. }
                | StoreCommand::Check
                | StoreCommand::Info { .. }
                | StoreCommand::Have
        )
    }
}

impl<'a> StoreRequest<'a> {
    /// Returns the path at which there must be a block device, if the request is for no other file.
    pub fn path_of_device(&self) -> Option<&'a str>
        ensures { IfSome result (λ _. is_for_device self.now ≡ true) }
    {
        match self {
            StoreRequest::FormatDevice { path, .. } => Some(path),
            _ => None,
        }
    }

    /// Returns whether the request makes a store or changes one: it is done before `ok` or its steps are written.
    pub fn changes(&self) -> bool
        ensures { result ≡ changes self.now }
    {
        match self {
            StoreRequest::Format { .. } | StoreRequest::FormatDevice { .. } => true,
            StoreRequest::Copy { .. } => true,
            StoreRequest::Apply { .. } => true,
            StoreRequest::Receive { .. } => true,
            StoreRequest::Salvage { .. } | StoreRequest::Replay(_) => false,
            StoreRequest::Send { .. } => false,
            StoreRequest::Command { command, .. } => !command.only_reads(),
        }
    }
}

#[tactic(auto, unfolding(crate::specs::StoreWords::changes_by_input_word))]
fn changes_by_input_word(word: &str) -> bool
    ensures { result ≡ changes_by_input_word word.now }
{
    matches!(word, "import" | "append" | "apply" | "receive")
}

#[tactic(auto, unfolding(crate::specs::StoreWords::takes_input_word))]
fn takes_input_word(word: &str) -> bool
    ensures { result ≡ takes_input_word word.now }
{
    changes_by_input_word(word) || word == "send"
}

#[tactic(auto, unfolding(crate::specs::StoreWords::changes_word))]
fn changes_word(word: &str) -> bool
    ensures { result ≡ changes_word word.now }
{
    changes_by_input_word(word)
        || matches!(word, "create" | "rename" | "drop" | "compact" | "upgrade")
}

#[tactic(auto, unfolding(crate::specs::StoreWords::makes_word))]
fn makes_word(word: &str) -> bool
    ensures { result ≡ makes_word word.now }
{
    matches!(word, "format" | "copy")
}

#[tactic(auto, unfolding(crate::specs::StoreWords::reads_table_word))]
fn reads_table_word(word: &str) -> bool
    ensures { result ≡ reads_table_word word.now }
{
    matches!(word, "schema" | "export" | "salvage" | "query")
}

#[tactic(auto, unfolding(crate::specs::StoreWords::reads_tables_word))]
fn reads_tables_word(word: &str) -> bool
    ensures { result ≡ reads_tables_word word.now }
{
    matches!(word, "tables" | "check" | "info" | "have" | "send")
}

#[tactic(auto, unfolding(crate::specs::StoreWords::reads_word))]
fn reads_word(word: &str) -> bool
    ensures { result ≡ reads_word word.now }
{
    reads_table_word(word) || reads_tables_word(word)
}

#[tactic(auto, unfolding(crate::specs::StoreWords::is_store_word))]
fn is_store_word(word: &str) -> bool
    ensures { result ≡ is_store_word word.now }
{
    changes_word(word) || makes_word(word) || word == "replay" || reads_word(word)
}

/// Returns whether the arguments, the first of which is the program's name, name a command of a store.
#[tactic(auto, unfolding(crate::specs::StoreWords::is_of_store))]
pub fn is_of_store<S: AsStr>(arguments: &[S]) -> bool
    ensures { result ≡ is_of_store (map S.text arguments.now) }
{
    match arguments {
        [_, word, ..] => is_store_word(word.as_str()),
        _ => false,
    }
}

/// Returns whether the arguments name a command that reads standard input, or may do so.
#[tactic(auto, unfolding(crate::specs::StoreWords::takes_input))]
pub fn takes_input<S: AsStr>(arguments: &[S]) -> bool
    ensures { result ≡ takes_input (map S.text arguments.now) }
{
    match arguments {
        [_, word, ..] => takes_input_word(word.as_str()),
        _ => false,
    }
}

#[tactic(auto, unfolding(crate::specs::StoreWords::is_help_word))]
pub(crate) fn is_help_word(word: &str) -> bool
    ensures { result ≡ is_help_word word.now }
{
    word == "--help" || word.as_bytes().starts_with(b"-h")
}

/// Returns whether some word asks for help.
#[tactic(auto, unfolding(crate::specs::StoreWords::ask_for_help))]
pub fn ask_for_help<S: AsStr>(arguments: &[S]) -> bool
    ensures { result ≡ ask_for_help (map S.text arguments.now) }
{
    for argument in arguments {
        if is_help_word(argument.as_str()) {
            return true;
        }
    }
    false
}

/// Returns whether the arguments ask by `help` for the help of a command of a store, or of `help` itself.
#[tactic(auto, unfolding(crate::specs::StoreWords::ask_help_of_command))]
pub fn ask_help_of_command<S: AsStr>(arguments: &[S]) -> bool
    ensures { result ≡ ask_help_of_command (map S.text arguments.now) }
{
    match arguments {
        [_, word, command, ..] => {
            word.as_str() == "help"
                && (is_store_word(command.as_str()) || is_help_word(command.as_str()))
        }
        _ => false,
    }
}
