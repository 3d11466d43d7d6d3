// What a terminal shows beside a refusal of the input or the output: why a read or a write failed, or what the start of the input shows.
ghost use Rattle.std.specs.Prelude.{◌≡◌, Option, None, Some, IfSome, IfErr, IsOk, IsTrue};
ghost use Rattle.arrowstore.specs.OnFiles.{hinted_of};
ghost use Rattle.arrowstore.specs.Running.{HintsRecode, IsFoundFor};
ghost use Rattle.cli_reports.specs.Known.{unchanging};
ghost use Rattle.cli_reports.specs.declared.hint.Hint.{Hint};
ghost use Rattle.cli_reports.specs.declared.refusal.Refusal.{Refusal};
ghost use Rattle.cli_reports.specs.Ending.{TellsRefusal};
ghost use Rattle.cli_reports.specs.Told.{audience_after_output, told};

use crate::Input;
use crate::input_again::field_with_fault;
use cli_reports::{
    Audience, Ended, Hint, Output, Refusal, Side, Status, audience_after_output, end_output,
    system_text,
};
use ipc_message::Fault;
use std::alloc::Global;
use std::io::Write;

/// What is wrong with the input or the output.
#[derive(Drop)]
pub(crate) enum FoundOfStreams {
    /// The system's reason for a failed read of the input.
    Unread(String),
    /// The input is empty.
    Empty,
    /// The name of a refused field of the input.
    Field(Vec<u8>),
    /// The system's reason for a failed write of the output.
    Unwritten(String),
}

impl FoundOfStreams {
    /// Returns the hint that says so.
    pub(crate) fn hint(&self) -> Hint<'_>
        ensures later { hinted_of (Some result) ≡ None }
        ensures recode { (refusal : Refusal) → IsFoundFor self.now refusal → HintsRecode (Some result) refusal }
    {
        match self {
            FoundOfStreams::Unread(reason) => Hint::Input(reason.as_str()),
            FoundOfStreams::Empty => Hint::EmptyInput,
            FoundOfStreams::Field(name) => Hint::Field(name.as_slice()),
            FoundOfStreams::Unwritten(reason) => Hint::Output(reason.as_str()),
        }
    }
}

/// Returns whether the input is empty, or which of its fields has this fault. `start` are its first bytes.
pub(crate) fn found_in_stream(
    alloc: Global,
    start: &[u8],
    is_empty: bool,
    fault: Fault,
) -> Option<FoundOfStreams>
    ensures { IfSome result (λ found. IsFoundFor found (Refusal.Fault fault)) }
{
    if is_empty && matches!(fault, Fault::NoSchema) {
        return Some(FoundOfStreams::Empty);
    }
    let name = field_with_fault(alloc, start, fault)?;
    Some(FoundOfStreams::Field(name))
}

fn unread_input<R: Input>(alloc: Global, input: &R) -> Option<FoundOfStreams>
    ensures { IfSome result (λ found. IsFoundFor found (Refusal.Io Side.Input)) }
{
    Some(FoundOfStreams::Unread(system_text(alloc, &input.failure()?)?))
}

fn unwritten_output<W: Output>(alloc: Global, output: &W) -> Option<FoundOfStreams>
    ensures { IfSome result (λ found. IsFoundFor found (Refusal.Io Side.Output)) }
{
    Some(FoundOfStreams::Unwritten(system_text(alloc, &output.failure()?)?))
}

fn found_for<R: Input, W: Output>(
    alloc: Global,
    refusal: &Refusal,
    input: &R,
    output: &W,
) -> Option<FoundOfStreams>
    ensures { IfSome result (λ found. IsFoundFor found refusal.now) }
{
    match refusal {
        Refusal::Io(Side::Input) => unread_input(alloc, input),
        Refusal::Io(Side::Output) => unwritten_output(alloc, output),
        Refusal::Fault(fault) => found_in_stream(alloc, input.start(), input.is_empty(), *fault),
        _ => None,
    }
}

// Looks for what a hint can name, if a person reads why `recode` was refused.
fn found_of_recode<R: Input, W: Output>(
    alloc: Global,
    done: &Result<(), Refusal>,
    audience: Audience,
    input: &R,
    output: &W,
) -> Option<FoundOfStreams>
    ensures { IfErr done.now (λ refusal. IfSome result (λ found. IsFoundFor found refusal)) }
{
    match (audience_after_output(audience, output), done) {
        (Audience::Terminal | Audience::Script, Err(refusal)) => found_for(
            alloc, refusal, input, output,
        ),
        _ => None,
    }
}

fn hint_of(found: &Option<FoundOfStreams>) -> Option<Hint<'_>>
    ensures { (refusal : Refusal) → IfSome found.now (λ it. IsFoundFor it refusal) → HintsRecode result refusal }
{
    match found {
        Some(found) => Some(found.hint()),
        None => None,
    }
}

/// Reports how `recode` ended: a terminal or a script is told why a read or a write failed, that the input is empty, or which of its fields is refused.
pub(crate) fn end_recode<R: Input, W: Output, E: Write>(
    alloc: Global,
    done: Result<(), Refusal>,
    audience: Audience,
    input: &R,
    output: &W,
    errors: &mut E,
) -> Ended
    ensures done { IsOk done → (result.status ≡ Status.Done) × (errors.new ≡ errors.old) × IsTrue result.is_reported }
    ensures refused { IfErr done (λ refusal. result.status ≡ Status.Refused refusal) }
    ensures line { (hint : Option Hint) × IfErr done (HintsRecode hint)
        × TellsRefusal (told (audience_after_output audience (W.unread output.now)) (unchanging hint)) result (E.contents errors.old)
        (E.contents errors.new) }
{
    let found = found_of_recode(alloc, &done, audience, input, output);
    end_output(done, hint_of(&found), audience, output, errors)
}
