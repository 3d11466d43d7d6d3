// Reports a word after `help` that is neither a command nor a code, with what there is.
ghost use Rattle.std.specs.Prelude.{◌≡◌, IfOk};
ghost use Rattle.clap.specs.Words.{kind_of};
ghost use Rattle.clap.specs.declared.error.kind.ErrorKind.TheVariants.{InvalidSubcommand};

use clap::error::ErrorKind;
use clap::{Arg, Command, Error};
use cli_reports::codes_with_entries;
use std::alloc::{AllocError, Global};

/// Makes the command `help`, as messages show it.
pub(crate) fn help_command<'a>(alloc: Global) -> Result<Command<'a>, AllocError> {
    Command::new(alloc, "help")
        .arg(Arg::new(alloc, "COMMAND"))?
        .bin_name("arrowstore help")
}

/// Returns the error of a topic that there is no help of.
///
/// # Errors
/// `AllocError` if memory is refused.
pub(crate) fn unknown_topic(alloc: Global, topic: &str) -> Result<Error, AllocError>
    ensures { IfOk result (λ error. kind_of error ≡ InvalidSubcommand) }
{
    let codes = codes_with_entries(alloc)?;
    let message = format!(in alloc;
        "there is no help of '{topic}'

The commands: arrowstore help
The codes of refusals: {codes}"
    )?;
    help_command(alloc)?.error(ErrorKind::InvalidSubcommand, message.as_str())
}
