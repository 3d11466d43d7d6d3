// The words of a `replay` command line.
ghost use Rattle.std.specs.Prelude.{◌≡◌, false, codes, IfSome, IsSome, IfOk, IfErr};
ghost use Rattle.clap.specs.Words.{app_of, found_of, rule_of};
ghost use Rattle.cli_requests.specs.Apps.{HasFound, IsOfMemory, number_rule, size_rule, choice_rule, script_app, replay_app};
ghost use Rattle.cli_requests.specs.Asked.{request_word};
ghost use Rattle.cli_requests.specs.Choices.{IsChoice};
ghost use Rattle.cli_requests.specs.Right.{IsLost, NamesChoice, IsFoundTakable};

use crate::command_parameters::{format_version, option, with_operand};
use crate::found_values::{number_in, number_of, version_in, word};
use crate::{Mistake, StoreRequest};
use clap::builder::ValueParser;
use clap::error::ErrorKind;
use clap::{Arg, ArgMatches, Command};
use commit::FormatVersion;
use sector_dev::CrashChoice;
use std::alloc::{AllocError, Global};

/// A script to be played on a device in memory, as words of a command line.
#[derive(Clone, Copy)]
pub struct ReplayWords<'a> {
    /// The path of the script.
    pub script: &'a str,
    /// The number of sectors of the device, of 512 bytes each.
    pub sectors: u64,
    /// The write or sync that fails once, counted from 1; 0 means none.
    pub fail: u64,
    /// The write or sync in which the device stops; 0 means none.
    pub stop: u64,
    /// What a crash then leaves.
    pub choice: CrashChoice,
    /// The version of the store on the device.
    pub version: FormatVersion,
}

// Parses which sectors are lost: all, or those whose bits are set.
fn lost_of(text: &str) -> Option<CrashChoice>
    ensures read { IfSome result (IsChoice text.now) }
    ensures taken { IsLost text.now → IsSome result }
{
    if text == "lost" {
        return Some(CrashChoice::Lost(u64::MAX));
    }
    Some(CrashChoice::Lost(number_of(text.strip_prefix("lost:")?)?))
}

// Parses what a crash leaves.
fn choice_of(text: &str) -> Option<CrashChoice>
    ensures read { IfSome result (IsChoice text.now) }
    ensures taken { NamesChoice text.now → IsSome result }
{
    match text {
        "old" => Some(CrashChoice::Old),
        "new" => Some(CrashChoice::New),
        _ => match number_of(text) {
            Some(bits) => Some(CrashChoice::Bits(bits)),
            None => lost_of(text),
        },
    }
}

fn wrong_choice(alloc: Global) -> Result<Mistake, AllocError> {
    let mut command = with_faults(alloc, "replay")?.bin_name("arrowstore replay")?;
    let error = command.error(
        ErrorKind::InvalidValue,
        "invalid value for '--choice <C>': it is none of old, new, lost, N and lost:N",
    )?;
    Ok(Mistake::Words(error))
}

/// Returns the script that the words name, and what goes wrong while it is played.
///
/// # Errors
/// `Words` if the choice is invalid or memory is refused; `SignedNumber` if a number has a sign.
pub(crate) fn replay_request<'a>(
    alloc: Global,
    words: &ArgMatches<'a>,
) -> Result<StoreRequest<'a>, Mistake>
    ensures word { IfOk result (λ request. request_word request ≡ codes "replay") }
    ensures named { IfOk result (HasFound (found_of words.now)) }
    ensures taken { IsFoundTakable (codes "replay") (found_of words.now) → IfErr result IsOfMemory }
{
    let Some(choice) = choice_of(word(words, "choice")) else {
        return Err(wrong_choice(alloc)?);
    };
    Ok(StoreRequest::Replay(ReplayWords {
        script: word(words, "SCRIPT"),
        sectors: number_in(words, "sectors")?,
        fail: number_in(words, "fail")?,
        stop: number_in(words, "stop")?,
        choice,
        version: version_in(words)?,
    }))
}

fn number<'a>(alloc: Global, id: &'a str, value: &'a str, help: &'a str) -> Arg<'a>
    ensures { (rule_of result ≡ number_rule id.entry.now) × (result.global ≡ false) }
{
    option(alloc, id, value, help).value_parser(ValueParser::unsigned(0, u64::MAX))
}

fn choice<'a>(alloc: Global) -> Arg<'a>
    ensures { (rule_of result ≡ choice_rule) × (result.global ≡ false) }
{
    option(
        alloc,
        "choice",
        "C",
        "What the crash leaves of sectors that are not yet synced: old, new, lost, N (new where a bit of N is 1) or lost:N (lost where a bit of N is 1)",
    )
    .default_value("old")
}

fn size<'a>(alloc: Global) -> Arg<'a>
    ensures { (rule_of result ≡ size_rule) × (result.global ≡ false) }
{
    number(
        alloc,
        "sectors",
        "S",
        "The number of sectors of the device, of 512 bytes each, 16 to 4194304",
    )
    .required(true)
}

fn with_script<'a>(alloc: Global, name: &'a str) -> Result<Command<'a>, AllocError>
    ensures { IfOk result (λ c. app_of c ≡ script_app name.now) }
{
    with_operand(alloc, name, "SCRIPT", "The file of the script")?.arg(size(alloc))
}

/// Makes the command with its script, the size of the device, and what goes wrong on it.
pub(crate) fn with_faults<'a>(alloc: Global, name: &'a str) -> Result<Command<'a>, AllocError>
    ensures { IfOk result (λ c. app_of c ≡ replay_app name.now) }
{
    let fail = number(
        alloc,
        "fail",
        "K",
        "The write or sync that fails once, counted from 1; 0, the default, means none",
    );
    let stop = number(
        alloc,
        "stop",
        "K",
        "The write or sync in which the device stops, counted from 1; 0, the default, means none",
    );
    with_script(alloc, name)?
        .arg(fail)?
        .arg(stop)?
        .arg(choice(alloc))?
        .arg(format_version(alloc))
}
