// Reports the segments that a salvage leaves out.
ghost use Rattle.std.specs.Prelude.{OnOk};
ghost use Rattle.std.specs.Io.KnownBytes.{Appends};
ghost use Rattle.cli_reports.specs.LeftOut.{left_out_line, lacking_line};

use crate::Audience;
use std::io::{self, Write};

/// What the segments that are left out mean for the stream, and what to do.
pub const STREAM_LACKS_THEM: &str =
    "The stream has all rows of the table except these. Take them from an earlier copy of the file.";

/// Reports a segment that is left out: its place in its table, counted from 0, and the number of rows that it is said to have.
///
/// # Errors
/// Those of the writer.
pub fn tell_left_out<E: Write>(place: u64, rows: u64, errors: &mut E) -> io::Result<()>
    ensures { OnOk result (Appends (E.contents errors.old) (E.contents errors.new) (left_out_line place rows)) }
{
    writeln!(errors, "left out segment {place} with {rows} rows")
}

/// Reports to a person or a script, after the segments that are left out, what the stream lacks.
///
/// # Errors
/// Those of the writer.
pub fn tell_lacking<E: Write>(audience: Audience, errors: &mut E) -> io::Result<()>
    ensures { OnOk result (Appends (E.contents errors.old) (E.contents errors.new) (lacking_line audience)) }
{
    match audience {
        Audience::Program | Audience::Departed => Ok(()),
        Audience::Terminal | Audience::Script => writeln!(errors, "{STREAM_LACKS_THEM}"),
    }
}
