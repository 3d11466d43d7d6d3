// Reports arguments that can't be read.
ghost use Rattle.std.specs.Prelude.{◌≡◌, ◌≢◌, None, IsTrue, codes};
ghost use Rattle.std.specs.Io.KnownBytes.{Appends};
ghost use Rattle.std.specs.IoError.{error_kind};
ghost use Rattle.cli_reports.specs.Ending.{TellsRefusal};
ghost use Rattle.cli_reports.specs.Known.{unchanging};
ghost use Rattle.cli_reports.specs.Told.{told};

use crate::reports::end;
use crate::{Audience, Ended, Known, Refusal, Status};
use std::io;
use std::io::{ErrorKind, Write};

/// Reports that the arguments could not be read: memory is refused, or one of them is not UTF-8.
pub fn report_unreadable_arguments<E: Write>(
    error: &io::Error,
    errors: &mut E,
    audience: Audience,
) -> Ended
    ensures memory { error_kind error.now ≡ ErrorKind.OutOfMemory → result.status ≡ Status.Refused Refusal.OutOfMemory }
    ensures text { error_kind error.now ≢ ErrorKind.OutOfMemory → result.status ≡ Status.WrongArguments }
    ensures line { TellsRefusal (told audience (unchanging None)) result (E.contents errors.old) (E.contents errors.new) }
    ensures told { error_kind error.now ≢ ErrorKind.OutOfMemory → IsTrue result.is_reported
        → Appends (E.contents errors.old) (E.contents errors.new) (codes "error: an argument is not UTF-8\n") }
{
    if error.kind() == ErrorKind::OutOfMemory {
        let known = Known::unchanging(None);
        return end(Err(Refusal::OutOfMemory), known, audience, errors);
    }
    Ended {
        status: Status::WrongArguments,
        is_reported: writeln!(errors, "error: an argument is not UTF-8").is_ok(),
    }
}
