// The items of a script as calls of a store, each with the number of its first line.
ghost use Rattle.std.specs.Prelude.{◌≡◌, true, map, IfOk, IfErr};
ghost use Rattle.std.specs.List.{AllByRecursion};
ghost use Rattle.cli_scripts.specs.Items.{is_alone, number_of};
ghost use Rattle.cli_scripts.specs.Plain.{plain_item, plain_items, plain_line};
ghost use Rattle.cli_replay.specs.Listed.{IsPlayable, IsTested};
ghost use Rattle.cli_replay.specs.Replay.{IsCallOfItem, IsCallOfLine, AreCallsOfItems, IsOfStreams};

use crate::commands::{command_of, commands_of};
use cli_reports::Refusal;
use cli_scripts::{ScriptItem, ScriptLine};
use std::alloc::{AllocError, Global};
use std::fs::OpenFile;
use std::io::Read;
use std::rt::Files;
use store::Call;

fn call_of_line<F: Read + OpenFile + Drop, H: Files<File = F> + AllocGlobal>(
    rt: &H,
    line: &ScriptLine<'_>,
) -> Result<Call, Refusal>
    requires tested { IsTested (plain_line line.now) }
    requires alone { is_alone (plain_line line.now) ≡ true }
    ensures call { IfOk result (IsCallOfLine F.remaining (plain_line line.now)) }
    ensures told { IfErr result IsOfStreams }
{
    match line {
        ScriptLine::Compact => Ok(Call::Compact),
        ScriptLine::Upgrade => Ok(Call::Upgrade),
        ScriptLine::Reopen => Ok(Call::Open),
        ScriptLine::Create { .. }
        | ScriptLine::Import { .. }
        | ScriptLine::Append { .. }
        | ScriptLine::Save { .. }
        | ScriptLine::Rename { .. }
        | ScriptLine::Drop { .. } => Ok(Call::Apply(command_of(rt, line)?)),
        ScriptLine::AppendText { .. } | ScriptLine::Begin | ScriptLine::Commit => unreachable!(),
    }
}

fn call_of<F: Read + OpenFile + Drop, H: Files<File = F> + AllocGlobal>(
    rt: &H,
    item: &ScriptItem<'_>,
) -> Result<Call, Refusal>
    requires { IsPlayable (plain_item item.now) }
    ensures call { IfOk result (IsCallOfItem F.remaining (plain_item item.now)) }
    ensures told { IfErr result IsOfStreams }
{
    match item {
        ScriptItem::Line { line, .. } => call_of_line(rt, line),
        ScriptItem::List(list) => Ok(Call::ApplyAll(commands_of(rt, &list.lines)?)),
    }
}

/// Returns a call for each item. Reads all files that the lines name.
pub(crate) fn calls_of<F: Read + OpenFile + Drop, H: Files<File = F> + AllocGlobal>(
    rt: &H,
    items: &[ScriptItem<'_>],
) -> Result<Vec<Call>, Refusal>
    requires { AllByRecursion IsPlayable (plain_items items.now) }
    ensures calls { IfOk result (λ calls. AreCallsOfItems F.remaining (plain_items items.now) calls.items) }
    ensures told { IfErr result IsOfStreams }
{
    let mut calls = Vec::with_capacity(rt.alloc(), items.len())?;
    for item in items {
        let call = call_of(rt, item)?;
        if let Err(_) = calls.push(call) {
            return Err(Refusal::OutOfMemory);
        }
    }
    Ok(calls)
}

fn number_of(item: &ScriptItem<'_>) -> u64
    ensures { result ≡ number_of (plain_item item.now) }
{
    match item {
        ScriptItem::Line { number, .. } => *number,
        ScriptItem::List(list) => list.number,
    }
}

/// Returns the number of the first line of each item.
pub(crate) fn numbers_of(alloc: Global, items: &[ScriptItem<'_>]) -> Result<Vec<u64>, AllocError>
    ensures { IfOk result (λ numbers. numbers.items ≡ map number_of (plain_items items.now)) }
{
    let mut numbers = Vec::with_capacity(alloc, items.len())?;
    for item in items {
        numbers.push(number_of(item))?;
    }
    Ok(numbers)
}
