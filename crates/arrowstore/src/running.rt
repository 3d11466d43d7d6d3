// The program over any input and output, without files.
ghost use Rattle.std.specs.Prelude.{◌≡◌, ◌⊎◌, true, map};
ghost use Rattle.std.specs.Io.KnownBytes.{Appends};
ghost use Rattle.arrowstore.specs.Arguments.{AreRecode, AreRight};
ghost use Rattle.arrowstore.specs.Running.{MayHint, Recodes};
ghost use Rattle.cli_reports.specs.Ending.{GivesSome, GivesText, HasReportedHint};
ghost use Rattle.cli_reports.specs.OwnTexts.{is_own, own_text};
ghost use Rattle.cli_reports.specs.Reported.{IsWrong};
ghost use Rattle.cli_reports.specs.Told.{audience_after_output};
ghost use Rattle.cli_reports.specs.declared.status.Status.TheVariants.{Done};

use crate::Input;
use crate::command_line::{Action, action_of, asks_code, write_entry_asked};
use crate::streams_again::end_recode;
use cli_commands::recode;
use cli_reports::{Audience, Ended, Output, end_text, is_own, report_arguments, write_own_text};
use std::alloc::Global;
use std::convert::AsStr;
use std::io::{Read, Write};

/// Executes the arguments, the first of which is the program's name, and reports on `errors` if that fails.
#[tactic(auto, using(crate::proofs::WordLemmas::recode_is_not_own))]
pub fn run<S: AsStr, R: Read + Input, W: Write + Output, E: Write>(
    alloc: Global,
    arguments: &[S],
    input: &mut R,
    output: &mut W,
    errors: &mut E,
    audience: Audience,
) -> Ended
    // `Done`: the command was right, or help or one of the program's own texts was asked for.
    ensures done { result.status ≡ Done → AreRight (map S.text arguments.now) }
    // The arguments of `recode` are accepted, and the output is as `Recodes` says.
    ensures recodes { AreRecode (map S.text arguments.now) → Recodes W.contents (R.remaining input.old) output.old output.new result.status }
    // That text is written, and nothing else.
    ensures own { is_own (map S.text arguments.now) ≡ true
        → GivesText (Appends (W.contents output.old) (W.contents output.new) (own_text (map S.text arguments.now))) result.status }
    // Wrong arguments are reported, unless memory runs out: nothing is read, and nothing but `errors` is written.
    ensures wrong_arguments { AreRight (map S.text arguments.now) ⊎ (IsWrong result.status × (output.new ≡ output.old)) }
    // Help that was asked for is written, and nothing else.
    ensures helps { result.status ≡ Done → AreRecode (map S.text arguments.now) ⊎ (is_own (map S.text arguments.now) ≡ true)
        ⊎ GivesSome (W.contents output.old) (W.contents output.new) }
    ensures only_recode_reads { AreRecode (map S.text arguments.now) ⊎ (input.new ≡ input.old) }
    // `errors` gets the report of a refusal for this audience, and nothing on success; nor, at a terminal, the failure of an output whose reader is
    // gone. At a terminal a refusal of `recode` may have a hint at its input or output, and a text that is not written one at the output.
    ensures reports { HasReportedHint (MayHint (map S.text arguments.now)) E.contents (audience_after_output audience (W.unread output.new))
        output.old output.new errors.old errors.new result }
{
    if is_own(arguments) {
        let written = write_own_text(alloc, arguments, output);
        return end_text(alloc, written, audience, output, errors);
    }
    if asks_code(arguments) {
        let written = write_entry_asked(alloc, arguments, output);
        return end_text(alloc, written, audience, output, errors);
    }
    match action_of(alloc, arguments) {
        Ok(Action::Recode) => {
            let done = recode(alloc, input, output);
            end_recode(alloc, done, audience, input, output, errors)
        }
        Err(error) => report_arguments(alloc, &error, output, errors, audience),
    }
}
