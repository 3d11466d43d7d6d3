// The commands that the words of a line ask for.
ghost use Rattle.std.specs.Prelude.{◌≡◌, IfOk, option_map};
ghost use Rattle.std.specs.Option.{option_and_then, option_copied};
ghost use Rattle.facts.specs.Texts.{text_list};
ghost use Rattle.cli_scripts.specs.Plain.{plain_form, plain_line, plain_rows};
ghost use Rattle.cli_scripts.specs.Script.{list_bound, alone, with_name, with_two, complete_import, other_of, append_as, is_complete, append_of, append_or_other, create_of, option_at, option_or_at, limit_of, after_dashes, rows_of, save_of, save_or_other};
ghost use Rattle.cli_scripts.specs.Script.{command_of, is_long_option, names_option, without_options, named_line, line_of};

use crate::append_options::{form_of, options_of};
use cli_requests::number_of;
use std::alloc::{AllocError, Global};
use text_import::TextForm;

/// Which rows are saved.
#[derive(Drop)]
pub struct SavedRows<'a> {
    /// The names of the columns, with commas between them.
    pub columns: Option<&'a str>,
    /// The maximum number of rows.
    pub limit: Option<u64>,
    /// The texts of the conditions.
    pub conditions: Vec<&'a str>,
}

/// A line of a script: one command.
#[derive(Drop)]
pub enum ScriptLine<'a> {
    /// Makes an empty table with the fields that the texts state.
    Create {
        name: &'a str,
        fields: Vec<&'a str>,
    },
    /// Makes the table of the stream in a file, in place of one of this name. A stream that is to be complete must have its end.
    Import {
        name: &'a str,
        file: &'a str,
        is_complete: bool,
    },
    /// Appends the rows of the stream in a file to the table. A stream that is to be complete must have its end.
    Append {
        name: &'a str,
        file: &'a str,
        is_complete: bool,
    },
    /// Appends the rows of the text in a file to the table.
    AppendText {
        name: &'a str,
        file: &'a str,
        form: TextForm<'a>,
    },
    /// Saves selected rows of a table as another table.
    Save {
        from: &'a str,
        to: &'a str,
        rows: SavedRows<'a>,
    },
    Rename {
        from: &'a str,
        to: &'a str,
    },
    Drop {
        name: &'a str,
    },
    /// Takes one step of a compaction.
    Compact,
    /// Gives all segments digests.
    Upgrade,
    /// Closes the store and opens it again.
    Reopen,
    /// The lines after this one, up to `Commit`, are one commit.
    Begin,
    Commit,
}

#[tactic(auto, unfolding(crate::specs::Script::list_bound))]
fn list_bound<'a>(word: &str) -> Option<ScriptLine<'a>>
    ensures { option_map plain_line result ≡ list_bound word.now }
{
    if word == "begin" {
        Some(ScriptLine::Begin)
    } else if word == "commit" {
        Some(ScriptLine::Commit)
    } else {
        None
    }
}

#[tactic(auto, unfolding(crate::specs::Script::alone))]
fn alone<'a>(word: &str) -> Option<ScriptLine<'a>>
    ensures { option_map plain_line result ≡ alone word.now }
{
    if word == "compact" {
        Some(ScriptLine::Compact)
    } else if word == "upgrade" {
        Some(ScriptLine::Upgrade)
    } else if word == "reopen" {
        Some(ScriptLine::Reopen)
    } else {
        list_bound(word)
    }
}

#[tactic(auto, unfolding(crate::specs::Script::with_name))]
fn with_name<'a>(word: &str, name: &'a str) -> Option<ScriptLine<'a>>
    ensures { option_map plain_line result ≡ with_name word.now name.now }
{
    if word == "drop" {
        Some(ScriptLine::Drop { name })
    } else {
        None
    }
}

#[tactic(auto, unfolding(crate::specs::Script::with_two))]
fn with_two<'a>(word: &str, name: &'a str, other: &'a str) -> Option<ScriptLine<'a>>
    ensures { option_map plain_line result ≡ with_two word.now name.now other.now }
{
    if word == "import" {
        Some(ScriptLine::Import {
            name,
            file: other,
            is_complete: false,
        })
    } else if word == "rename" {
        Some(ScriptLine::Rename {
            from: name,
            to: other,
        })
    } else {
        None
    }
}

#[tactic(auto, unfolding(crate::specs::Script::complete_import))]
fn complete_import<'a>(
    word: &str,
    name: &'a str,
    file: &'a str,
    option: &str,
) -> Option<ScriptLine<'a>>
    ensures { option_map plain_line result ≡ complete_import word.now name.now file.now option.now }
{
    if word == "import" && option == "--complete" {
        Some(ScriptLine::Import {
            name,
            file,
            is_complete: true,
        })
    } else {
        None
    }
}

#[tactic(auto, unfolding(crate::specs::Script::other_of))]
fn other_of<'a>(word: &str, arguments: &[&'a str]) -> Option<ScriptLine<'a>>
    ensures { option_map plain_line result ≡ other_of word.now (text_list arguments.now) }
{
    match arguments {
        [] => alone(word),
        [name] => with_name(word, name),
        [name, other] => with_two(word, name, other),
        [name, file, option] => complete_import(word, name, file, option),
        _ => None,
    }
}

fn append_as<'a>(name: &'a str, file: &'a str, form: Option<TextForm<'a>>) -> ScriptLine<'a>
    ensures { plain_line result ≡ append_as name.now file.now (option_map plain_form form.entry) }
{
    match form {
        Some(form) => ScriptLine::AppendText { name, file, form },
        None => ScriptLine::Append {
            name,
            file,
            is_complete: false,
        },
    }
}

#[tactic(auto, unfolding(crate::specs::Script::is_complete))]
fn is_complete(words: &[&str]) -> bool
    ensures { result ≡ is_complete (text_list words.now) }
{
    match words {
        [] => false,
        [word] => *word == "--complete",
        [_, _, ..] => false,
    }
}

#[tactic(auto, unfolding(crate::specs::Script::append_of))]
fn append_of<'a>(arguments: &[&'a str]) -> Option<ScriptLine<'a>>
    ensures { option_map plain_line result ≡ append_of (text_list arguments.now) }
{
    match arguments {
        [name, file, words @ ..] => {
            if is_complete(words) {
                return Some(ScriptLine::Append {
                    name: *name,
                    file: *file,
                    is_complete: true,
                });
            }
            let form = form_of(options_of(words)?)?;
            Some(append_as(name, file, form))
        }
        [_] => None,
        [] => None,
    }
}

#[tactic(auto, unfolding(crate::specs::Script::append_or_other))]
fn append_or_other<'a>(word: &str, arguments: &[&'a str]) -> Option<ScriptLine<'a>>
    ensures { option_map plain_line result ≡ append_or_other word.now (text_list arguments.now) }
{
    if word == "append" {
        append_of(arguments)
    } else {
        other_of(word, arguments)
    }
}

#[tactic(auto, unfolding(crate::specs::Script::create_of))]
fn create_of<'a>(alloc: Global, arguments: &[&'a str]) -> Result<Option<ScriptLine<'a>>, AllocError>
    ensures { IfOk result (λ line. option_map plain_line line ≡ create_of (text_list arguments.now)) }
{
    match arguments {
        [name, texts @ ..] => {
            let fields = Vec::from_slice(alloc, texts)?;
            Ok(Some(ScriptLine::Create { name, fields }))
        }
        [] => Ok(None),
    }
}

// Returns the word behind an option at the beginning, and the words after that one.
#[tactic(auto, unfolding(crate::specs::Script::option_at))]
fn option_at<'r, 'a>(option: &str, words: &'r [&'a str]) -> (Option<&'a str>, &'r [&'a str])
    ensures { (option_copied result.0, text_list result.1.now) ≡ option_at option.now (text_list words.now) }
{
    match words {
        [word, value, more @ ..] => {
            if option == *word {
                (Some(*value), more)
            } else {
                (None, words)
            }
        }
        [_] => (None, words),
        [] => (None, words),
    }
}

#[tactic(auto, unfolding(crate::specs::Script::option_or_at))]
fn option_or_at<'r, 'a>(
    found: Option<&'a str>,
    option: &str,
    words: &'r [&'a str],
) -> (Option<&'a str>, &'r [&'a str])
    ensures { (option_copied result.0, text_list result.1.now) ≡ option_or_at (option_copied found.entry) option.now (text_list words.now) }
{
    match found {
        None => option_at(option, words),
        Some(value) => (Some(value), words),
    }
}

// Returns the limit that a text states, if there is one; `None` if it is no number.
#[tactic(auto, unfolding(crate::specs::Script::limit_of))]
fn limit_of(text: Option<&str>) -> Option<Option<u64>>
    ensures { result ≡ limit_of (option_copied text.entry) }
{
    let Some(text) = text else {
        return Some(None);
    };
    match number_of(text) {
        Some(number) => Some(Some(number)),
        None => None,
    }
}

#[tactic(auto, unfolding(crate::specs::Script::after_dashes))]
fn after_dashes<'r, 'a>(words: &'r [&'a str]) -> &'r [&'a str]
    ensures { text_list result.now ≡ after_dashes (text_list words.now) }
{
    match words {
        [word, more @ ..] => { if *word == "--" { more } else { words } }
        [] => words,
    }
}

#[tactic(auto, unfolding(crate::specs::Script::rows_of))]
fn rows_of<'a>(alloc: Global, words: &[&'a str]) -> Result<Option<SavedRows<'a>>, AllocError>
    ensures { IfOk result (λ rows. option_map plain_rows rows ≡ rows_of (text_list words.now)) }
{
    let (columns, others) = option_at("--columns", words);
    let (limit, others) = option_at("--limit", others);
    let (columns, others) = option_or_at(columns, "--columns", others);
    let Some(limit) = limit_of(limit) else {
        return Ok(None);
    };
    let conditions = Vec::from_slice(alloc, after_dashes(others))?;
    Ok(Some(SavedRows {
        columns,
        limit,
        conditions,
    }))
}

#[tactic(auto, unfolding(crate::specs::Script::save_of))]
fn save_of<'a>(alloc: Global, arguments: &[&'a str]) -> Result<Option<ScriptLine<'a>>, AllocError>
    ensures { IfOk result (λ line. option_map plain_line line ≡ save_of (text_list arguments.now)) }
{
    match arguments {
        [from, to, words @ ..] => match rows_of(alloc, words)? {
            Some(rows) => Ok(Some(ScriptLine::Save { from, to, rows })),
            None => Ok(None),
        },
        [_] => Ok(None),
        [] => Ok(None),
    }
}

#[tactic(auto, unfolding(crate::specs::Script::save_or_other))]
fn save_or_other<'a>(
    alloc: Global,
    word: &str,
    arguments: &[&'a str],
) -> Result<Option<ScriptLine<'a>>, AllocError>
    ensures { IfOk result (λ line. option_map plain_line line ≡ save_or_other word.now (text_list arguments.now)) }
{
    if word == "save" {
        save_of(alloc, arguments)
    } else {
        Ok(append_or_other(word, arguments))
    }
}

#[tactic(auto, unfolding(crate::specs::Script::command_of))]
fn command_of<'a>(
    alloc: Global,
    word: &str,
    arguments: &[&'a str],
) -> Result<Option<ScriptLine<'a>>, AllocError>
    ensures { IfOk result (λ line. option_map plain_line line ≡ command_of word.now (text_list arguments.now)) }
{
    if word == "create" {
        create_of(alloc, arguments)
    } else {
        save_or_other(alloc, word, arguments)
    }
}

fn is_long_option(word: &str) -> bool
    ensures { result ≡ is_long_option word.now }
{
    word.as_bytes().starts_with(b"--")
}

#[tactic(auto, unfolding(crate::specs::Script::names_option))]
fn names_option(line: &ScriptLine<'_>) -> bool
    ensures { result ≡ names_option (plain_line line.now) }
{
    match line {
        ScriptLine::Create { name, .. }
        | ScriptLine::Import { name, .. }
        | ScriptLine::Append { name, .. }
        | ScriptLine::AppendText { name, .. }
        | ScriptLine::Drop { name } => is_long_option(name),
        ScriptLine::Save { from, to, .. } | ScriptLine::Rename { from, to } => is_long_option(from)
            || is_long_option(to),
        ScriptLine::Compact
        | ScriptLine::Upgrade
        | ScriptLine::Reopen
        | ScriptLine::Begin
        | ScriptLine::Commit => false,
    }
}

// Returns the line, unless an option stands in place of the name of a table.
#[tactic(auto, unfolding(crate::specs::Script::without_options))]
fn without_options<'a>(line: Option<ScriptLine<'a>>) -> Option<ScriptLine<'a>>
    ensures { option_map plain_line result ≡ option_and_then without_options (option_map plain_line line.entry) }
{
    let line = line?;
    if names_option(&line) {
        None
    } else {
        Some(line)
    }
}

// Behind `--` the name of a table may look like an option.
#[tactic(auto, unfolding(crate::specs::Script::named_line))]
fn named_line<'a>(
    alloc: Global,
    word: &str,
    arguments: &[&'a str],
) -> Result<Option<ScriptLine<'a>>, AllocError>
    ensures { IfOk result (λ line. option_map plain_line line ≡ named_line word.now (text_list arguments.now)) }
{
    match arguments {
        [first, names @ ..] => {
            if *first == "--" {
                command_of(alloc, word, names)
            } else {
                Ok(without_options(command_of(alloc, word, arguments)?))
            }
        }
        [] => command_of(alloc, word, arguments),
    }
}

/// Returns the command that the words of a line ask for, whatever the texts of its fields or conditions are.
///
/// # Errors
/// `AllocError` if memory is refused.
#[tactic(auto, unfolding(crate::specs::Script::line_of))]
pub fn line_of<'a>(alloc: Global, words: &[&'a str]) -> Result<Option<ScriptLine<'a>>, AllocError>
    ensures { IfOk result (λ line. option_map plain_line line ≡ line_of (text_list words.now)) }
{
    match words {
        [word, arguments @ ..] => named_line(alloc, word, arguments),
        [] => Ok(None),
    }
}
