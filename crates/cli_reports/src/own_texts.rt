// The program's own texts: its version, the meaning of each refusal, and the help that lists all commands.
ghost use Rattle.std.specs.Prelude.{◌≡◌, ◌≢◌, map, IfErr, OnOk};
ghost use Rattle.std.specs.Io.KnownBytes.{Appends};
ghost use Rattle.cli_reports.specs.Ending.{IsOfOutput};
ghost use Rattle.cli_reports.specs.OwnTexts.{is_version_word, is_refusals_topic, is_help_alone};
ghost use Rattle.cli_reports.specs.OwnTexts.{asks_version, asks_refusals, asks_commands, is_own, own_text};

use crate::{Refusal, Side, help_page, refusals_page, write_whole};
use std::alloc::Global;
use std::convert::AsStr;
use std::io::Write;

/// The line that `--version` prints.
pub const VERSION: &str = "arrowstore 0.1.0\n";

/// Returns whether this word asks for the version.
#[tactic(auto, unfolding(crate::specs::OwnTexts::is_version_word))]
pub fn is_version_word(word: &str) -> bool
    ensures { result ≡ is_version_word word.now }
{
    word == "--version" || word == "-V"
}

#[tactic(auto, unfolding(crate::specs::OwnTexts::is_refusals_topic))]
fn is_refusals_topic(word: &str, topic: &str) -> bool
    ensures { result ≡ is_refusals_topic word.now topic.now }
{
    word == "help" && topic == "refusals"
}

#[tactic(auto, unfolding(crate::specs::OwnTexts::asks_version))]
fn asks_version<S: AsStr>(arguments: &[S]) -> bool
    ensures { result ≡ asks_version (map S.text arguments.now) }
{
    match arguments {
        [_, word] => is_version_word(word.as_str()),
        _ => false,
    }
}

#[tactic(auto, unfolding(crate::specs::OwnTexts::asks_refusals))]
fn asks_refusals<S: AsStr>(arguments: &[S]) -> bool
    ensures { result ≡ asks_refusals (map S.text arguments.now) }
{
    match arguments {
        [_, word, topic] => is_refusals_topic(word.as_str(), topic.as_str()),
        _ => false,
    }
}

#[tactic(auto, unfolding(crate::specs::OwnTexts::is_help_alone))]
fn is_help_alone(word: &str) -> bool
    ensures { result ≡ is_help_alone word.now }
{
    matches!(word, "help" | "--help" | "-h")
}

#[tactic(auto, unfolding(crate::specs::OwnTexts::asks_commands))]
fn asks_commands<S: AsStr>(arguments: &[S]) -> bool
    ensures { result ≡ asks_commands (map S.text arguments.now) }
{
    match arguments {
        [_, word] => is_help_alone(word.as_str()),
        [_, word, topic] => word.as_str() == "help" && is_help_alone(topic.as_str()),
        _ => false,
    }
}

/// Returns whether the arguments, the first of which is the program's name, ask for one of the program's own texts.
#[tactic(auto, unfolding(crate::specs::OwnTexts::is_own))]
pub fn is_own<S: AsStr>(arguments: &[S]) -> bool
    ensures { result ≡ is_own (map S.text arguments.now) }
{
    asks_version(arguments) || asks_refusals(arguments) || asks_commands(arguments)
}

/// Writes the text that such arguments ask for, and nothing else.
///
/// # Errors
/// `OutOfMemory`: nothing is written; `Io` if the output fails: some of the text may be written.
#[tactic(auto, unfolding(crate::specs::OwnTexts::own_text))]
pub fn write_own_text<S: AsStr, W: Write>(
    alloc: Global,
    arguments: &[S],
    output: &mut W,
) -> Result<(), Refusal>
    ensures written { OnOk result (Appends (W.contents output.old) (W.contents output.new) (own_text (map S.text arguments.now))) }
    ensures refused { IfErr result IsOfOutput }
    ensures silent { IfErr result (λ refusal. refusal ≢ Refusal.Io Side.Output → output.new ≡ output.old) }
{
    if asks_version(arguments) {
        return write_whole(output, VERSION.as_bytes());
    }
    if asks_refusals(arguments) {
        return write_whole(output, refusals_page(alloc)?.as_bytes());
    }
    write_whole(output, help_page(alloc)?.as_bytes())
}
