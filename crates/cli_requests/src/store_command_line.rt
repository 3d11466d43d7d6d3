// Parses a command line of a store with `clap`.
ghost use Rattle.std.specs.Prelude.{◌≡◌, true, false, codes, map, drop, IfOk, IfErr, IsOk};
ghost use Rattle.clap.specs.Words.{first_value, found_of};
ghost use Rattle.cli_requests.specs.declared.store_command_line.Mistake.TheVariants as mistakes;
ghost use Rattle.cli_requests.specs.Apps.{value_of, HasQuery, HasShape, HasFlag, HasDates, HasTextForm, HasNames, HasFound, IsOfMemory};
ghost use Rattle.cli_requests.specs.Asked.{command_word, request_word};
ghost use Rattle.cli_requests.specs.Numbers.{is_number, is_number_if_any};
ghost use Rattle.cli_requests.specs.Operands.{Names};
ghost use Rattle.cli_requests.specs.Right.{AreRightWords, IsFoundTakable, IsReadFrom};
ghost use Rattle.cli_requests.specs.StoreWords.{is_store_word, has_own_request, is_of_store, first_word};

use crate::command_parameters::{
    cli_commands, own_command, with_new_table, with_query, with_rows, with_sectors,
};
use crate::found_values::{number_if_any, sectors_of, version_in, word, words_of};
use crate::replaying::replay_request;
use crate::store_words::is_help_word;
use crate::{QueryWords, StoreCommand, StoreRequest};
use civil_days::DateForm;
use clap::error::ErrorKind;
use clap::{ArgMatches, Error};
use query::RowShape;
use std::alloc::{AllocError, Global};
use std::convert::AsStr;
use text_import::{FieldForm, TextForm};

/// Why a command line has no request.
#[derive(Drop)]
pub enum Mistake {
    /// The error of `clap`, which may also be a request for help.
    Words(Error),
    /// A number has a sign.
    SignedNumber,
}

impl From<Error> for Mistake {
    ghost from_gives = { λ error mistake. mistake ≡ mistakes.Words error };

    fn from(error: Error) -> Mistake {
        Mistake::Words(error)
    }
}

impl From<AllocError> for Mistake {
    ghost from_gives = { λ _ mistake. IsOfMemory mistake };

    fn from(error: AllocError) -> Mistake {
        Mistake::Words(Error::from(error))
    }
}

/// Parses a command line of a store.
///
/// # Errors
/// [`Mistake::Words`] if `clap` refuses the words, one of them asks for help, or memory is refused; [`Mistake::SignedNumber`] if a number has a
/// sign.
#[tactic(auto, using(crate::proofs::WordLemmas::first_of_store))]
pub fn request_of<'a, S: AsStr>(
    alloc: Global,
    arguments: &'a [S],
) -> Result<StoreRequest<'a>, Mistake>
    // It asks for the command of its first word, whatever words follow.
    ensures asked { is_of_store (map S.text arguments.now) ≡ true
        → IfOk result (λ request. request_word request ≡ first_word (map S.text arguments.now)) }
    // If only operands follow, they are its files, names, fields, conditions and numbers, and it has no option.
    ensures named { is_of_store (map S.text arguments.now) ≡ true → IfOk result (Names (map S.text arguments.now)) }
    // It has exactly what `clap` finds by its own definitions, options too; words in which `clap` finds a fault are refused.
    ensures read { IfOk result (IsReadFrom (map S.text arguments.now)) }
    // Operands that the command takes are right, and so are all words that `clap` accepts, with options too, if each number has digits alone.
    ensures taken { AreRightWords (map S.text arguments.now) → IfErr result IsOfMemory }
{
    let word = first_word(arguments);
    let command = own_command(alloc, program_name(arguments), word)?;
    let matches = command.try_get_matches_from(words_from_command(arguments))?;
    asked(alloc, word, &matches)
}

/// Looks for the help of the command that follows `help`, or of `help` itself if the word after it asks for help.
///
/// # Errors
/// Always if such a word follows: `clap` gives the help as an error, or memory is refused.
pub fn help_of_command<S: AsStr>(alloc: Global, arguments: &[S]) -> Result<(), Error> {
    if let [name, _, command, ..] = arguments {
        let words = words_for_help(name.as_str(), command.as_str());
        cli_commands(alloc)?.try_get_matches_from(&words)?;
    }
    Ok(())
}

// Returns the words that ask `clap` for the help of a command; `help` takes no `--help`.
fn words_for_help<'a>(name: &'a str, command: &'a str) -> [&'a str; 3] {
    if is_help_word(command) {
        [name, "help", "help"]
    } else {
        [name, command, "--help"]
    }
}

// Returns the request of a command with the words after it.
fn asked<'a>(
    alloc: Global,
    command: &str,
    words: &ArgMatches<'a>,
) -> Result<StoreRequest<'a>, Mistake>
    ensures word { is_store_word command.now ≡ true → IfOk result (λ request. request_word request ≡ command.now) }
    ensures named { IfOk result (HasFound (found_of words.now)) }
    ensures taken { IsFoundTakable command.now (found_of words.now) → IfErr result IsOfMemory }
{
    let path = word(words, "STORE");
    match command {
        "format" => format_request(path, words),
        "copy" => copy_request(path, words),
        "salvage" => Ok(salvage_request(path, words)),
        "replay" => replay_request(alloc, words),
        "apply" => Ok(apply_request(path, words)),
        "send" => Ok(send_request(path, words)),
        "receive" => Ok(receive_request(path, words)),
        _ => command_request(alloc, path, command, words),
    }
}

// Returns a request for an existing store.
fn command_request<'a>(
    alloc: Global,
    path: &'a str,
    command: &str,
    words: &ArgMatches<'a>,
) -> Result<StoreRequest<'a>, Mistake>
    requires { path.now ≡ value_of (found_of words.now) (codes "STORE") }
    ensures word { is_store_word command.now ≡ true → has_own_request command.now ≡ false → IfOk result (λ request. request_word request ≡ command.now) }
    ensures named { IfOk result (HasFound (found_of words.now)) }
    ensures taken { IsFoundTakable command.now (found_of words.now) → IfErr result IsOfMemory }
{
    let command = command_of(alloc, command, words)?;
    Ok(StoreRequest::Command { path, command })
}

#[tactic(auto, unfolding(crate::specs::StoreWords::first_word))]
fn first_word<S: AsStr>(arguments: &[S]) -> &str
    ensures { result.now ≡ first_word (map S.text arguments.now) }
{
    match arguments {
        [_, word, ..] => word.as_str(),
        _ => "",
    }
}

// Returns the name that the program was called by, without its folder.
fn program_name<S: AsStr>(arguments: &[S]) -> &str {
    match arguments {
        [name, ..] => match name.as_str().rsplit_once('/') {
            Some((_, name)) => name,
            None => name.as_str(),
        },
        _ => "arrowstore",
    }
}

fn words_from_command<S: AsStr>(arguments: &[S]) -> &[S]
    ensures { map S.text result.now ≡ drop 1 (map S.text arguments.now) }
{
    match arguments {
        [_, words @ ..] => words,
        _ => arguments,
    }
}

// A file gets its number of sectors. A block device has one, and only there may something be overwritten.
fn format_request<'a>(path: &'a str, words: &ArgMatches<'a>) -> Result<StoreRequest<'a>, Mistake>
    requires { path.now ≡ value_of (found_of words.now) (codes "STORE") }
    ensures word { IfOk result (λ request. request_word request ≡ codes "format") }
    ensures named { IfOk result (HasFound (found_of words.now)) }
    ensures taken { is_number_if_any (first_value (found_of words.now) (codes "SECTORS")) ≡ true
        → is_number_if_any (first_value (found_of words.now) (codes "format-version")) ≡ true → IsOk result }
{
    let sectors = number_if_any(words, "SECTORS")?;
    let version = version_in(words)?;
    let over = has_flag(words, "over");
    match (sectors, over) {
        (Some(sectors), false) => Ok(StoreRequest::Format {
            path,
            sectors,
            version,
        }),
        (None, _) | (_, true) => Ok(StoreRequest::FormatDevice {
            path,
            sectors,
            over,
            version,
        }),
    }
}

/// Returns what is wrong with a request for a block device ([`StoreRequest::path_of_device`]) if none is at its path.
///
/// # Errors
/// An error if memory is refused.
pub fn no_block_device(alloc: Global, request: &StoreRequest<'_>) -> Result<Mistake, AllocError> {
    let mut command = with_sectors(alloc, "format")?.bin_name("arrowstore format")?;
    let error = match request {
        StoreRequest::FormatDevice { over: true, .. } => command.error(
            ErrorKind::ArgumentConflict,
            "the argument '--over' can be used only for a block device, and <STORE> is none",
        )?,
        _ => command.error(
            ErrorKind::MissingRequiredArgument,
            "the argument '[SECTORS]' can be left out only for a block device, and <STORE> is none",
        )?,
    };
    Ok(Mistake::Words(error))
}

fn copy_request<'a>(path: &'a str, words: &ArgMatches<'a>) -> Result<StoreRequest<'a>, Mistake>
    requires { path.now ≡ value_of (found_of words.now) (codes "STORE") }
    ensures word { IfOk result (λ request. request_word request ≡ codes "copy") }
    ensures named { IfOk result (HasFound (found_of words.now)) }
    ensures taken { is_number (value_of (found_of words.now) (codes "SECTORS")) ≡ true → IsOk result }
{
    let sectors = sectors_of(words)?;
    let new = word(words, "NEW");
    Ok(StoreRequest::Copy { path, new, sectors })
}

fn salvage_request<'a>(path: &'a str, words: &ArgMatches<'a>) -> StoreRequest<'a>
    requires { path.now ≡ value_of (found_of words.now) (codes "STORE") }
    ensures word { request_word result ≡ codes "salvage" }
    ensures named { HasFound (found_of words.now) result }
{
    StoreRequest::Salvage {
        path,
        name: word(words, "NAME"),
    }
}

fn apply_request<'a>(path: &'a str, words: &ArgMatches<'a>) -> StoreRequest<'a>
    requires { path.now ≡ value_of (found_of words.now) (codes "STORE") }
    ensures word { request_word result ≡ codes "apply" }
    ensures named { HasFound (found_of words.now) result }
{
    let script = word(words, "SCRIPT");
    StoreRequest::Apply { path, script }
}

fn send_request<'a>(path: &'a str, words: &ArgMatches<'a>) -> StoreRequest<'a>
    requires { path.now ≡ value_of (found_of words.now) (codes "STORE") }
    ensures word { request_word result ≡ codes "send" }
    ensures named { HasFound (found_of words.now) result }
{
    let have = words.get_str("have");
    StoreRequest::Send { path, have }
}

fn receive_request<'a>(path: &'a str, words: &ArgMatches<'a>) -> StoreRequest<'a>
    requires { path.now ≡ value_of (found_of words.now) (codes "STORE") }
    ensures word { request_word result ≡ codes "receive" }
    ensures named { HasFound (found_of words.now) result }
{
    let delete = has_flag(words, "delete");
    StoreRequest::Receive { path, delete }
}

fn date_form(words: &ArgMatches<'_>) -> DateForm
    ensures { HasDates (found_of words.now) result }
{
    match word(words, "dates") {
        "iso" => DateForm::Iso,
        _ => DateForm::Numbers,
    }
}

fn text_form<'a>(form: &str, words: &ArgMatches<'a>) -> TextForm<'a>
    requires { form.now ≡ value_of (found_of words.now) (codes "as") }
    ensures { HasTextForm (found_of words.now) result }
{
    match form {
        "csv" => TextForm::Csv(FieldForm {
            null_text: word(words, "null").as_bytes(),
            dates: date_form(words),
        }),
        _ => TextForm::JsonLines(date_form(words)),
    }
}

fn has_flag(words: &ArgMatches<'_>, id: &str) -> bool
    ensures { HasFlag (found_of words.now) id.now result }
{
    words.get_flag(id)
}

// A table of this name is replaced, or its name is refused.
fn import_command<'a>(name: &'a str, words: &ArgMatches<'a>) -> StoreCommand<'a>
    requires { name.now ≡ value_of (found_of words.now) (codes "NAME") }
    ensures word { command_word result ≡ codes "import" }
    ensures named { HasNames (found_of words.now) result }
{
    let is_new = has_flag(words, "new");
    match (has_flag(words, "complete"), is_new) {
        (true, is_new) => StoreCommand::ImportComplete { name, is_new },
        (false, true) => StoreCommand::ImportNew { name },
        (false, false) => StoreCommand::Import { name },
    }
}

// Either the fields are printed as `create` takes them, or with the names of all parts.
fn schema_command<'a>(name: &'a str, words: &ArgMatches<'a>) -> StoreCommand<'a>
    requires { name.now ≡ value_of (found_of words.now) (codes "NAME") }
    ensures word { command_word result ≡ codes "schema" }
    ensures named { HasNames (found_of words.now) result }
{
    if has_flag(words, "fields") {
        StoreCommand::SchemaFields { name }
    } else {
        StoreCommand::Schema { name }
    }
}

fn complete_text(alloc: Global) -> Result<Mistake, AllocError> {
    let mut command = with_rows(alloc, "append")?.bin_name("arrowstore append")?;
    let error = command.error(
        ErrorKind::ArgumentConflict,
        "the argument '--complete' cannot be used with '--as <FORM>' for a text",
    )?;
    Ok(Mistake::Words(error))
}

// Rows are appended from a stream or from a text. A text has no end that could be asked for.
fn append_command<'a>(
    alloc: Global,
    name: &'a str,
    words: &ArgMatches<'a>,
) -> Result<StoreCommand<'a>, Mistake>
    requires { name.now ≡ value_of (found_of words.now) (codes "NAME") }
    ensures word { IfOk result (λ command. command_word command ≡ codes "append") }
    ensures named { IfOk result (HasNames (found_of words.now)) }
    ensures taken { IsFoundTakable (codes "append") (found_of words.now) → IfErr result IsOfMemory }
{
    let form = word(words, "as");
    match (form == "stream", has_flag(words, "complete")) {
        (true, false) => Ok(StoreCommand::Append { name }),
        (true, true) => Ok(StoreCommand::AppendComplete { name }),
        (false, false) => Ok(StoreCommand::AppendText {
            name,
            form: text_form(form, words),
        }),
        (false, true) => Err(complete_text(alloc)?),
    }
}

fn query_words<'a>(alloc: Global, words: &ArgMatches<'a>) -> Result<QueryWords<'a>, Mistake>
    ensures read { IfOk result (HasQuery (found_of words.now)) }
    ensures taken { is_number_if_any (first_value (found_of words.now) (codes "limit")) ≡ true → IfErr result IsOfMemory }
{
    Ok(QueryWords {
        conditions: words_of(alloc, words, "CONDITION")?,
        columns: words.get_str("columns"),
        limit: number_if_any(words, "limit")?,
        dates: date_form(words),
    })
}

fn row_shape(words: &ArgMatches<'_>) -> RowShape
    ensures { HasShape (found_of words.now) result }
{
    if words.get_flag("objects") {
        RowShape::Object
    } else {
        RowShape::Array
    }
}

fn saved_objects(alloc: Global) -> Result<Mistake, AllocError> {
    let mut command = with_query(alloc, "query")?.bin_name("arrowstore query")?;
    let error = command.error(
        ErrorKind::ArgumentConflict,
        "the argument '--objects' cannot be used with '--save <NEW>'",
    )?;
    Ok(Mistake::Words(error))
}

// What is selected is printed, or saved as a table.
fn query_command<'a>(
    alloc: Global,
    name: &'a str,
    words: &ArgMatches<'a>,
) -> Result<StoreCommand<'a>, Mistake>
    requires { name.now ≡ value_of (found_of words.now) (codes "NAME") }
    ensures word { IfOk result (λ command. command_word command ≡ codes "query") }
    ensures named { IfOk result (HasNames (found_of words.now)) }
    ensures taken { IsFoundTakable (codes "query") (found_of words.now) → IfErr result IsOfMemory }
{
    let query = query_words(alloc, words)?;
    let shape = row_shape(words);
    match (words.get_str("save"), shape) {
        (None, _) => Ok(StoreCommand::Query { name, query, shape }),
        (Some(to), RowShape::Array) => Ok(StoreCommand::SaveAs {
            from: name,
            to,
            query,
        }),
        // A saved table is not printed.
        (Some(_), RowShape::Object) => Err(saved_objects(alloc)?),
    }
}

fn fields_beside_a_table(alloc: Global) -> Result<Mistake, AllocError> {
    let mut command = with_new_table(alloc, "create")?.bin_name("arrowstore create")?;
    let error = command.error(
        ErrorKind::ArgumentConflict,
        "the argument '--like <TABLE>' cannot be used with '[FIELD]...'",
    )?;
    Ok(Mistake::Words(error))
}

// The fields of a table are given, or a table that has them.
fn create_command<'a>(
    alloc: Global,
    name: &'a str,
    words: &ArgMatches<'a>,
) -> Result<StoreCommand<'a>, Mistake>
    requires { name.now ≡ value_of (found_of words.now) (codes "NAME") }
    ensures word { IfOk result (λ command. command_word command ≡ codes "create") }
    ensures named { IfOk result (HasNames (found_of words.now)) }
    ensures taken { IsFoundTakable (codes "create") (found_of words.now) → IfErr result IsOfMemory }
{
    match (words.get_str("like"), words.get_str("FIELD")) {
        (None, _) => Ok(StoreCommand::Create {
            name,
            fields: words_of(alloc, words, "FIELD")?,
        }),
        (Some(like), None) => Ok(StoreCommand::CreateLike { name, like }),
        (Some(_), Some(_)) => Err(fields_beside_a_table(alloc)?),
    }
}

fn command_of<'a>(
    alloc: Global,
    command: &str,
    words: &ArgMatches<'a>,
) -> Result<StoreCommand<'a>, Mistake>
    ensures word { is_store_word command.now ≡ true → has_own_request command.now ≡ false → IfOk result (λ asked. command_word asked ≡ command.now) }
    ensures named { IfOk result (HasNames (found_of words.now)) }
    ensures taken { IsFoundTakable command.now (found_of words.now) → IfErr result IsOfMemory }
{
    let name = word(words, "NAME");
    match command {
        "create" => create_command(alloc, name, words),
        "import" => Ok(import_command(name, words)),
        "append" => append_command(alloc, name, words),
        "query" => query_command(alloc, name, words),
        "rename" => Ok(StoreCommand::Rename {
            from: name,
            to: word(words, "NEW"),
        }),
        "drop" => Ok(StoreCommand::Drop { name }),
        "schema" => Ok(schema_command(name, words)),
        "export" => Ok(StoreCommand::Export { name }),
        "check" => Ok(StoreCommand::Check),
        "info" => Ok(StoreCommand::Info {
            as_json: has_flag(words, "json"),
        }),
        "compact" => Ok(StoreCommand::Compact {
            steps: number_if_any(words, "steps")?,
        }),
        "upgrade" => Ok(StoreCommand::Upgrade),
        "have" => Ok(StoreCommand::Have),
        _ => Ok(StoreCommand::Tables),
    }
}
