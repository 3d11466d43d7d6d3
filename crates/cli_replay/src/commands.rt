// The lines of a script as commands on tables, with the contents of their files.
ghost use Rattle.std.specs.Prelude.{◌≡◌, true, IfOk, IfErr};
ghost use Rattle.std.specs.List.{AllByRecursion};
ghost use Rattle.facts.specs.Texts.{text_list};
ghost use Rattle.cli_commands.specs.Changing.{StateSchema};
ghost use Rattle.tables.specs.Commands as commands;
ghost use Rattle.tables.specs.View.{command_of};
ghost use Rattle.cli_scripts.specs.Plain.{plain_line, plain_lines, plain_rows};
ghost use Rattle.cli_scripts.specs.Script.{StateFields, are_conditions};
ghost use Rattle.cli_replay.specs.Listed.{IsKnownChange};
ghost use Rattle.cli_replay.specs.Replay.{AreCommandsOfLines, IsCommandOfLine, IsOfStreams, SavesRows};

use crate::files::named_input;
use civil_days::DateForm;
use cli_commands::{drop_table, new_table, query_of, rename_table};
use cli_reports::Refusal;
use cli_scripts::{SavedRows, ScriptLine};
use field_texts::{ParseError, one_column_of_a_text};
use std::alloc::{AllocError, Global};
use std::fs::OpenFile;
use std::io::Read;
use std::rt::Files;
use tables::Command;

// The field texts were parsed when the script was read.
fn create(alloc: Global, name: &str, fields: &[&str]) -> Result<Command, AllocError>
    requires { StateFields true (text_list fields.now) }
    ensures { IfOk result (λ c. (s : _) × StateSchema (text_list fields.now) s × (command_of c ≡ commands.create name.now s)) }
{
    one_column_of_a_text();
    match new_table(alloc, name, fields) {
        Ok(new) => Ok(Command::Create(new)),
        Err(Refusal::Fields(ParseError::BadText(_))) => unreachable!(),
        Err(Refusal::Fields(ParseError::Limit)) => unreachable!(),
        // Nothing but memory is refused otherwise.
        Err(_) => Err(AllocError),
    }
}

// The conditions were parsed when the script was read.
fn save(alloc: Global, from: &str, to: &str, rows: &SavedRows<'_>) -> Result<Command, AllocError>
    requires { are_conditions (text_list rows.now.conditions.items) ≡ true }
    ensures { IfOk result (λ c. SavesRows from.now to.now (plain_rows rows.now) (command_of c)) }
{
    let query = match query_of(
        alloc,
        &rows.conditions,
        rows.columns,
        rows.limit,
        DateForm::Numbers,
    ) {
        Ok(query) => query,
        Err(Refusal::Query(_)) => unreachable!(),
        // Nothing but memory is refused otherwise.
        Err(_) => return Err(AllocError),
    };
    Ok(Command::SaveAs {
        from: String::from_str(alloc, from)?,
        to: String::from_str(alloc, to)?,
        query,
    })
}

/// Returns the command of a line that changes tables, if it is known before they are. Reads the file that it names.
pub(crate) fn command_of<F: Read + OpenFile + Drop, H: Files<File = F> + AllocGlobal>(
    rt: &H,
    line: &ScriptLine<'_>,
) -> Result<Command, Refusal>
    requires { IsKnownChange (plain_line line.now) }
    ensures command { IfOk result (λ c. IsCommandOfLine F.remaining (plain_line line.now) (command_of c)) }
    ensures told { IfErr result IsOfStreams }
{
    let command = match line {
        ScriptLine::Create { name, fields } => create(rt.alloc(), name, fields)?,
        ScriptLine::Import {
            name,
            file,
            is_complete,
        } => {
            let (name, bytes) = named_input(rt, name, file, *is_complete)?;
            Command::ImportStream { name, bytes }
        }
        ScriptLine::Append {
            name,
            file,
            is_complete,
        } => {
            let (name, bytes) = named_input(rt, name, file, *is_complete)?;
            Command::AppendStream { name, bytes }
        }
        ScriptLine::Save { from, to, rows } => save(rt.alloc(), from, to, rows)?,
        ScriptLine::Rename { from, to } => rename_table(rt.alloc(), from, to)?,
        ScriptLine::Drop { name } => drop_table(rt.alloc(), name)?,
        ScriptLine::AppendText { .. }
        | ScriptLine::Compact
        | ScriptLine::Upgrade
        | ScriptLine::Reopen
        | ScriptLine::Begin
        | ScriptLine::Commit => unreachable!(),
    };
    Ok(command)
}

/// Returns a command for each line. Reads all files that the lines name.
pub(crate) fn commands_of<F: Read + OpenFile + Drop, H: Files<File = F> + AllocGlobal>(
    rt: &H,
    lines: &[ScriptLine<'_>],
) -> Result<Vec<Command>, Refusal>
    requires { AllByRecursion IsKnownChange (plain_lines lines.now) }
    ensures commands { IfOk result (λ commands. AreCommandsOfLines F.remaining (plain_lines lines.now) commands.items) }
    ensures told { IfErr result IsOfStreams }
{
    let mut commands = Vec::with_capacity(rt.alloc(), lines.len())?;
    for line in lines {
        let command = command_of(rt, line)?;
        if let Err(_) = commands.push(command) {
            return Err(Refusal::OutOfMemory);
        }
    }
    Ok(commands)
}
