// Parses the command line of `recode` and requests for help.
ghost use Rattle.std.specs.Prelude.{◌≡◌, ◌≢◌, true, false, map, codes, Some, IfOk, IfErr, OnOk, MatchResult};
ghost use Rattle.clap.specs.Words.{app_of, kind_of, subcommand_name_of};
ghost use Rattle.clap.specs.declared.error.kind.ErrorKind.TheVariants.{OutOfMemory, UnknownArgument};
ghost use Rattle.arrowstore.specs.Arguments.{asks_topic, program_command, have_extra_words, AreRecode, AskForHelp};
ghost use Rattle.cli_reports.specs.Ending.{GivesSome, IsOfOutput};
ghost use Rattle.cli_reports.specs.Reported.{IsRequest};

use crate::other_topic::{help_command, unknown_topic};
use clap::error::ErrorKind;
use clap::{ArgMatches, Command, Error};
use cli_reports::{Refusal, Side, abouts, has_entry, help_page, is_version_word, write_entry};
use cli_requests::{ask_help_of_command, cli_commands, help_of_command};
use std::alloc::{AllocError, Global};
use std::convert::AsStr;
use std::io::Write;

/// What a command line asks for.
#[derive(Clone, Copy)]
pub(crate) enum Action {
    /// Reads a stream from standard input and writes its canonical form to standard output.
    Recode,
}

#[tactic(auto, unfolding(crate::specs::Arguments::asks_topic))]
fn asks_topic<S: AsStr>(arguments: &[S]) -> bool
    ensures { result ≡ asks_topic (map S.text arguments.now) }
{
    match arguments {
        [_, word, _] => word.as_str() == "help",
        _ => false,
    }
}

/// Returns whether the arguments ask by `help` what a refusal means.
pub(crate) fn asks_code<S: AsStr>(arguments: &[S]) -> bool
    ensures { result ≡ true → asks_topic (map S.text arguments.now) ≡ true }
{
    match arguments {
        [_, _, code] => asks_topic(arguments) && has_entry(code.as_str()),
        _ => false,
    }
}

/// Writes what the refusal of the last argument means, and nothing else.
pub(crate) fn write_entry_asked<S: AsStr, W: Write>(
    alloc: Global,
    arguments: &[S],
    output: &mut W,
) -> Result<(), Refusal>
    ensures written { OnOk result (GivesSome (W.contents output.old) (W.contents output.new)) }
    ensures refused { IfErr result IsOfOutput }
    ensures silent { IfErr result (λ refusal. refusal ≢ Refusal.Io Side.Output → output.new ≡ output.old) }
{
    match arguments {
        [_, _, code] => write_entry(alloc, code.as_str(), output),
        _ => write_entry(alloc, "", output),
    }
}

/// Parses a command line, whose first argument is the program's name. An `Err` is a usage error or a request for help.
pub(crate) fn action_of<S: AsStr>(alloc: Global, arguments: &[S]) -> Result<Action, Error>
    ensures understood { AreRecode (map S.text arguments.now)
        → MatchResult result (λ action. action ≡ Action.Recode) (λ error. kind_of error ≡ OutOfMemory) }
    ensures asked { OnOk result (AreRecode (map S.text arguments.now)) }
    ensures request { IfErr result (λ error. IsRequest (kind_of error) → AskForHelp (map S.text arguments.now)) }
{
    if have_extra_words(arguments) {
        return Err(unexpected_word(alloc, arguments)?);
    }
    action_of_few(alloc, arguments)
}

#[tactic(auto, unfolding(crate::specs::Arguments::have_extra_words))]
fn have_extra_words<S: AsStr>(arguments: &[S]) -> bool
    ensures { result ≡ have_extra_words (map S.text arguments.now) }
{
    match arguments {
        [_, word, _] => is_version_word(word.as_str()),
        [_, word, _, _, ..] => is_version_word(word.as_str()) || word.as_str() == "help",
        _ => false,
    }
}

// No word may follow the one that asks for the version, and at most one may follow `help`, so the next one is the error.
fn unexpected_word<S: AsStr>(alloc: Global, arguments: &[S]) -> Result<Error, AllocError>
    ensures { IfOk result (λ error. kind_of error ≡ UnknownArgument) }
{
    match arguments {
        [_, _, word] => unexpected(alloc, version_command(alloc)?, word.as_str()),
        [_, first, word, ..] if is_version_word(first.as_str()) => {
            unexpected(alloc, version_command(alloc)?, word.as_str())
        }
        [_, _, _, word, ..] => unexpected(alloc, help_command(alloc)?, word.as_str()),
        _ => unexpected(alloc, help_command(alloc)?, ""),
    }
}

fn version_command<'a>(alloc: Global) -> Result<Command<'a>, AllocError> {
    Command::new(alloc, "version").bin_name("arrowstore --version")
}

fn unexpected(alloc: Global, mut command: Command<'_>, word: &str) -> Result<Error, AllocError>
    ensures { IfOk result (λ error. kind_of error ≡ UnknownArgument) }
{
    let message = format!(in alloc; "unexpected argument '{word}' found")?;
    command.error(ErrorKind::UnknownArgument, message.as_str())
}

// `action_of` for arguments without such a word.
fn action_of_few<S: AsStr>(alloc: Global, arguments: &[S]) -> Result<Action, Error>
    requires { have_extra_words (map S.text arguments.now) ≡ false }
    ensures understood { AreRecode (map S.text arguments.now)
        → MatchResult result (λ action. action ≡ Action.Recode) (λ error. kind_of error ≡ OutOfMemory) }
    ensures asked { OnOk result (AreRecode (map S.text arguments.now)) }
    ensures request { IfErr result (λ error. IsRequest (kind_of error) → AskForHelp (map S.text arguments.now)) }
{
    if ask_help_of_command(arguments) {
        help_of_command(alloc, arguments)?;
    }
    let help = help_page(alloc)?;
    match program(alloc, help.as_str())?.try_get_matches_from(arguments) {
        Ok(matches) => Ok(named(&matches)),
        Err(error) => Err(with_all_commands(alloc, arguments, error)),
    }
}

// Reports a missing or unknown command against all commands, so that the message lists them or suggests a similar one, and an unknown topic of help
// with all that there are.
fn with_all_commands<S: AsStr>(alloc: Global, arguments: &[S], error: Error) -> Error
    ensures { kind_of result ≡ kind_of error }
{
    let Some(other) = error_with_all(alloc, arguments) else {
        return error;
    };
    match (error.kind(), other.kind()) {
        (ErrorKind::InvalidSubcommand, ErrorKind::InvalidSubcommand)
        | (ErrorKind::MissingSubcommand, ErrorKind::MissingSubcommand) => other,
        _ => error,
    }
}

fn error_with_all<S: AsStr>(alloc: Global, arguments: &[S]) -> Option<Error> {
    match arguments {
        [_, word, topic] if word.as_str() == "help" => unknown_topic(alloc, topic.as_str()).ok(),
        _ => error_of_all(alloc, arguments),
    }
}

// Parses the arguments with all commands known, and returns the error.
fn error_of_all<S: AsStr>(alloc: Global, arguments: &[S]) -> Option<Error> {
    let commands = cli_commands(alloc)
        .ok()?
        .subcommand(Command::new(alloc, "recode"))
        .ok()?;
    commands.try_get_matches_from(arguments).err()
}

fn named(matches: &ArgMatches<'_>) -> Action
    requires { subcommand_name_of matches.now ≡ Some (codes "recode") }
    ensures { result ≡ Action.Recode }
{
    match matches.subcommand_name() {
        Some("recode") => Action::Recode,
        _ => unreachable!(),
    }
}

fn program<'a>(alloc: Global, help: &'a str) -> Result<Command<'a>, AllocError>
    ensures { IfOk result (λ command. app_of command ≡ program_command) }
{
    let recode = Command::new(alloc, "recode")
        .about(abouts::RECODE)
        .after_help(
            "Example: arrowstore recode < readings.arrows > canonical.arrows

Each table has one form, which export writes too, so equal tables are equal bytes.",
        );
    Command::new(alloc, "arrowstore")
        .override_help(help.trim_end())
        .subcommand_required(true)
        .subcommand(recode)
}
