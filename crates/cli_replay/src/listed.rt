// The commands of a script that is applied as one commit.
ghost use Rattle.std.specs.Prelude.{ℕ, List, map, Ok, IfOk, IfErr};
ghost use Rattle.std.specs.List.{AllByRecursion};
ghost use Rattle.cli_scripts.specs.Plain.{plain_line, plain_lines, plain_words};
ghost use Rattle.cli_scripts.specs.Script.{IsScriptOfChanges};
ghost use Rattle.cli_scripts.specs.Words.{HaveWords, lines_of};
ghost use Rattle.cli_replay.specs.Listed.{AreListedOfLines, HasCommands, IsChange, IsListedOfLine, IsOfFiles, RefusesCommands};

use crate::commands::command_of;
use crate::files::read_whole_file;
use cli_commands::ListedCommand;
use cli_reports::Refusal;
use cli_scripts::{ScriptError, ScriptLine, is_ended, parse_changes};
use std::alloc::Global;
use std::fs::OpenFile;
use std::io::Read;
use std::rt::Files;

// Parses the lines of a script that have these words, with errors as the program reports them.
fn changes_of<'a>(
    alloc: Global,
    words: &'a [Option<Vec<String>>],
) -> Result<Vec<ScriptLine<'a>>, Refusal>
    ensures lines { IfOk result (λ lines. (script : List ℕ) → HaveWords (lines_of script) (map plain_words words.now)
        → IsScriptOfChanges script (Ok (plain_lines lines.items))) }
    ensures changes { IfOk result (λ lines. AllByRecursion IsChange (plain_lines lines.items)) }
    ensures told { IfErr result (λ refusal. (script : List ℕ) → HaveWords (lines_of script) (map plain_words words.now)
        → RefusesCommands script refusal) }
{
    match parse_changes(alloc, words) {
        Ok(lines) => Ok(lines),
        Err(ScriptError::BadLine(number)) => Err(Refusal::BadScript(number)),
        Err(ScriptError::OutOfMemory) => Err(Refusal::OutOfMemory),
    }
}

// Returns the command of a line that changes tables, as far as it is known before they are. Reads the file that it names.
fn listed_of<'a, F: Read + OpenFile + Drop, H: Files<File = F> + AllocGlobal>(
    rt: &H,
    line: &ScriptLine<'a>,
) -> Result<ListedCommand<'a>, Refusal>
    requires { IsChange (plain_line line.now) }
    ensures listed { IfOk result (IsListedOfLine F.remaining (plain_line line.now)) }
    ensures told { IfErr result IsOfFiles }
{
    match line {
        ScriptLine::AppendText { name, file, form } => Ok(ListedCommand::Text {
            name: *name,
            form: *form,
            text: read_whole_file(rt, file)?,
        }),
        line => Ok(ListedCommand::Known(command_of(rt, line)?)),
    }
}

// Returns a command for each line. Reads all files that the lines name.
fn listed_commands<'a, F: Read + OpenFile + Drop, H: Files<File = F> + AllocGlobal>(
    rt: &H,
    lines: &[ScriptLine<'a>],
) -> Result<Vec<ListedCommand<'a>>, Refusal>
    requires { AllByRecursion IsChange (plain_lines lines.now) }
    ensures commands { IfOk result (λ commands. AreListedOfLines F.remaining (plain_lines lines.now) commands.items) }
    ensures told { IfErr result IsOfFiles }
{
    let mut commands = Vec::with_capacity(rt.alloc(), lines.len())?;
    for line in lines {
        let command = listed_of(rt, line)?;
        if let Err(_) = commands.push(command) {
            return Err(Refusal::OutOfMemory);
        }
    }
    Ok(commands)
}

/// Returns the commands of the lines of a script, each of which changes tables, from the words of its lines, as [`cli_scripts::script_words`] returns them.
/// Reads all files that they name: of a stream as many bytes as it may have, and one more if it is longer, so that a store refuses it. A text is read for the
/// schema of its table only when its turn comes.
///
/// # Errors
/// `BadScript` with the number of the first line that is no command or changes no tables, counted from 1, or of the last one if it lacks its line feed, or 1
/// if there is no line, since the script may be cut off; `Io` of a file if one can't be read; `TooManyBytes` if a text is longer than a stream may be; `OutOfMemory`.
pub fn script_commands<'a, F: Read + OpenFile + Drop, H: Files<File = F> + AllocGlobal>(
    rt: &H,
    script: &[u8],
    words: &'a [Option<Vec<String>>],
) -> Result<Vec<ListedCommand<'a>>, Refusal>
    requires { HaveWords (lines_of script.now) (map plain_words words.now) }
    ensures commands { IfOk result (λ commands. HasCommands F.remaining script.now commands.items) }
    ensures told { IfErr result (RefusesCommands script.now) }
{
    let lines = changes_of(rt.alloc(), words)?;
    if !is_ended(script) {
        return Err(Refusal::BadScript(lines.len().max(1) as u64));
    }
    listed_commands(rt, &lines)
}
