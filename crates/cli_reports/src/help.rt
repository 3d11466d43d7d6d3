// The help of the program: all commands in one list.
ghost use Rattle.std.specs.Prelude.{◌≡◌, string_bytes, IfOk};
ghost use Rattle.cli_reports.specs.OwnTexts.{help_page};

use crate::abouts;
use std::alloc::{AllocError, Global};

/// The help of the program: strings to be joined, among them what each command does.
pub const HELP: [&str; 45] = [
    "A crash-safe store of named tables in the Apache Arrow format

Usage: arrowstore <COMMAND>

Commands:
  format   ",
    abouts::FORMAT,
    "
  create   ",
    abouts::CREATE,
    "
  import   ",
    abouts::IMPORT,
    "
  append   ",
    abouts::APPEND,
    "
  query    ",
    abouts::QUERY,
    "
  export   ",
    abouts::EXPORT,
    "
  rename   ",
    abouts::RENAME,
    "
  drop     ",
    abouts::DROP,
    "
  apply    ",
    abouts::APPLY,
    "
  tables   ",
    abouts::TABLES,
    "
  schema   ",
    abouts::SCHEMA,
    "
  check    ",
    abouts::CHECK,
    "
  salvage  ",
    abouts::SALVAGE,
    "
  info     ",
    abouts::INFO,
    "
  compact  ",
    abouts::COMPACT,
    "
  upgrade  ",
    abouts::UPGRADE,
    "
  copy     ",
    abouts::COPY,
    "
  have     ",
    abouts::HAVE,
    "
  send     ",
    abouts::SEND,
    "
  receive  ",
    abouts::RECEIVE,
    "
  replay   ",
    abouts::REPLAY,
    "
  recode   ",
    abouts::RECODE,
    "
  help     Print this message or the help of the given command

Options:
  -h, --help  Print help

Each command has its own help, with an example: 'arrowstore COMMAND --help'
What each refusal means, and what to do: arrowstore help refusals, or help S8 for one
The version: arrowstore --version
",
];

/// Returns the strings of [`HELP`], joined.
///
/// # Errors
/// `AllocError` if memory is refused.
#[tactic(auto, unfolding(crate::specs::OwnTexts::help_page))]
pub fn help_page(alloc: Global) -> Result<String, AllocError>
    ensures { IfOk result (λ text. string_bytes text ≡ help_page) }
{
    HELP.concat(alloc)
}
