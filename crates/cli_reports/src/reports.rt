// Reports refusals, wrong arguments and requests for help.
ghost use Rattle.std.specs.Prelude.{◌≡◌, ◌≢◌, ◌⊎◌, Option, None, IsOk, IsTrue, IfErr, OnOk, codes};
ghost use Rattle.std.specs.Io.KnownBytes.{Appends};
ghost use Rattle.clap.specs.Words.{kind_of};
ghost use Rattle.cli_reports.specs.Known.{unchanging};
ghost use Rattle.cli_reports.specs.declared.hint.Hint.{Hint};
ghost use Rattle.cli_reports.specs.Reported.{IsRequest, IsWrong};
ghost use Rattle.cli_reports.specs.Ending.{GivesSome, HintsText, IsOfOutput, TellsRefusal, HasReportedHint};
ghost use Rattle.cli_reports.specs.Told.{audience_after_output, told};

use crate::entry::entry_of;
use crate::telling::{audience_after_output, tell};
use crate::{
    Audience, Ended, Hint, Known, Output, Refusal, Side, Status, system_text, write_whole,
};
use clap::error::ErrorKind;
use std::alloc::Global;
use std::io::Write;

// Writes a text that is not empty.
fn write_some<W: Write>(text: &str, output: &mut W) -> Result<(), Refusal>
    ensures written { OnOk result (GivesSome (W.contents output.old) (W.contents output.new)) }
    ensures refused { IfErr result IsOfOutput }
    ensures silent { IfErr result (λ refusal. refusal ≢ Refusal.Io Side.Output → output.new ≡ output.old) }
{
    if text.is_empty() {
        return Err(Refusal::Io(Side::Output));
    }
    write_whole(output, text.as_bytes())
}

// Writes a help text. `clap` does not promise that there is one, so an empty text is an error.
fn write_help<W: Write>(alloc: Global, error: &clap::Error, output: &mut W) -> Result<(), Refusal>
    ensures written { OnOk result (GivesSome (W.contents output.old) (W.contents output.new)) }
    ensures refused { IfErr result IsOfOutput }
    ensures silent { IfErr result (λ refusal. refusal ≢ Refusal.Io Side.Output → output.new ≡ output.old) }
{
    let help = format!(in alloc; "{error}")?;
    write_some(help.as_str(), output)
}

/// Writes what the page of refusals says of a code that it has an entry for, and nothing else.
///
/// # Errors
/// `OutOfMemory`: nothing is written; `Io` of the output if that fails: some of the text may be written.
pub fn write_entry<W: Write>(alloc: Global, code: &str, output: &mut W) -> Result<(), Refusal>
    ensures written { OnOk result (GivesSome (W.contents output.old) (W.contents output.new)) }
    ensures refused { IfErr result IsOfOutput }
    ensures silent { IfErr result (λ refusal. refusal ≢ Refusal.Io Side.Output → output.new ≡ output.old) }
{
    let entry = entry_of(alloc, code)?;
    write_some(entry.as_str(), output)
}

/// Reports an error of `clap`: a mistake goes to `errors`, and help to `output`.
pub fn report_arguments<W: Write + Output, E: Write>(
    alloc: Global,
    error: &clap::Error,
    output: &mut W,
    errors: &mut E,
    audience: Audience,
) -> Ended
    ensures request { IsRequest (kind_of error.now) ⊎ (IsWrong result.status × (output.new ≡ output.old)) }
    // Help that was asked for is written, and nothing else.
    ensures helps { result.status ≡ Status.Done → GivesSome (W.contents output.old) (W.contents output.new) }
    ensures memory { kind_of error.now ≡ ErrorKind.OutOfMemory → (result.status ≡ Status.Refused Refusal.OutOfMemory) × (output.new ≡ output.old) }
    // A terminal or a script may be told why the output failed.
    ensures reports { HasReportedHint HintsText E.contents (audience_after_output audience (W.unread output.new)) output.old output.new errors.old
        errors.new result }
{
    match error.kind() {
        ErrorKind::DisplayHelp | ErrorKind::DisplayVersion => {
            let written = write_help(alloc, error, output);
            end_text(alloc, written, audience, output, errors)
        }
        _ => report_wrong_arguments(error, output, errors, audience),
    }
}

/// Reports that the arguments are wrong, or that memory for the message is refused.
pub fn report_wrong_arguments<W: Output, E: Write>(
    error: &clap::Error,
    output: &W,
    errors: &mut E,
    audience: Audience,
) -> Ended
    ensures wrong { IsWrong result.status }
    ensures memory { kind_of error.now ≡ ErrorKind.OutOfMemory → result.status ≡ Status.Refused Refusal.OutOfMemory }
    ensures line { TellsRefusal (told (audience_after_output audience (W.unread output.now)) (unchanging None)) result (E.contents errors.old) (E.contents errors.new) }
{
    match error.kind() {
        ErrorKind::OutOfMemory => {
            end_output(Err(Refusal::OutOfMemory), None, audience, output, errors)
        }
        _ => Ended {
            status: Status::WrongArguments,
            is_reported: write!(errors, "{error}").is_ok(),
        },
    }
}

/// Reports that a number has a sign, which makes the arguments wrong.
pub fn report_signed_number<E: Write>(errors: &mut E) -> Ended
    ensures wrong { result.status ≡ Status.WrongArguments }
    ensures told { IsTrue result.is_reported
        → Appends (E.contents errors.old) (E.contents errors.new) (codes "error: a number is decimal digits, without a sign\n") }
{
    Ended {
        status: Status::WrongArguments,
        is_reported: writeln!(errors, "error: a number is decimal digits, without a sign").is_ok(),
    }
}

/// Reports that a stream was to be written to a terminal, which makes the arguments wrong.
pub fn report_stream_to_terminal<E: Write>(errors: &mut E) -> Ended
    ensures wrong { result.status ≡ Status.WrongArguments }
    ensures told { IsTrue result.is_reported
        → Appends (E.contents errors.old) (E.contents errors.new) (codes "error: no stream is written to a terminal: give `> FILE` or a pipe\n") }
{
    Ended {
        status: Status::WrongArguments,
        is_reported: writeln!(
            errors,
            "error: no stream is written to a terminal: give `> FILE` or a pipe"
        )
        .is_ok(),
    }
}

/// `end` for a run that has written to an output and changes nothing: if its reader is gone, nobody is told that the output failed, except a script.
pub fn end_output<W: Output, E: Write>(
    done: Result<(), Refusal>,
    hint: Option<Hint<'_>>,
    audience: Audience,
    output: &W,
    errors: &mut E,
) -> Ended
    ensures done { IsOk done → (result.status ≡ Status.Done) × (errors.new ≡ errors.old) × IsTrue result.is_reported }
    ensures refused { IfErr done (λ refusal. result.status ≡ Status.Refused refusal) }
    ensures line { TellsRefusal (told (audience_after_output audience (W.unread output.now)) (unchanging hint.entry)) result (E.contents errors.old)
        (E.contents errors.new) }
{
    let known = Known::unchanging(hint);
    end(done, known, audience_after_output(audience, output), errors)
}

// Returns the system's reason for a failed write, if a person reads it and memory is not refused.
fn reason_of_output<W: Output>(alloc: Global, audience: Audience, output: &W) -> Option<String> {
    if !audience_after_output(audience, output).is_advised() {
        return None;
    }
    system_text(alloc, &output.failure()?)
}

fn hint_of_output(reason: &Option<String>) -> Option<Hint<'_>>
    ensures { HintsText result (Refusal.Io Side.Output) }
{
    match reason {
        Some(reason) => Some(Hint::Output(reason.as_str())),
        None => None,
    }
}

/// `end_output` for a run that writes a text: a terminal or a script is told why the output failed.
pub fn end_text<W: Output, E: Write>(
    alloc: Global,
    written: Result<(), Refusal>,
    audience: Audience,
    output: &W,
    errors: &mut E,
) -> Ended
    ensures done { IsOk written → (result.status ≡ Status.Done) × (errors.new ≡ errors.old) × IsTrue result.is_reported }
    ensures refused { IfErr written (λ refusal. result.status ≡ Status.Refused refusal) }
    ensures line { (hint : Option Hint) × IfErr written (HintsText hint)
        × TellsRefusal (told (audience_after_output audience (W.unread output.now)) (unchanging hint)) result (E.contents errors.old) (E.contents errors.new) }
{
    match written {
        Err(Refusal::Io(Side::Output)) => {
            let reason = reason_of_output(alloc, audience, output);
            end_output(written, hint_of_output(&reason), audience, output, errors)
        }
        _ => end_output(written, None, audience, output, errors),
    }
}

/// Reports how a run ended: a refusal, with what is known of it.
pub fn end<E: Write>(
    done: Result<(), Refusal>,
    known: Known<'_>,
    audience: Audience,
    errors: &mut E,
) -> Ended
    ensures done { IsOk done → (result.status ≡ Status.Done) × (errors.new ≡ errors.old) × IsTrue result.is_reported }
    ensures refused { IfErr done (λ refusal. result.status ≡ Status.Refused refusal) }
    ensures line { TellsRefusal (told audience known.entry) result (E.contents errors.old) (E.contents errors.new) }
{
    match done {
        Ok(()) => Ended {
            status: Status::Done,
            is_reported: true,
        },
        Err(refusal) => Ended {
            status: Status::Refused(refusal),
            is_reported: tell(refusal, known, audience, errors).is_ok(),
        },
    }
}
