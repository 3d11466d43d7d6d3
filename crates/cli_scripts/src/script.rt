// Parses the lines of a script.
ghost use Rattle.std.specs.Prelude.{◌≡◌, IfOk, IfErr, None, Some, option_map, map, string_bytes};
ghost use Rattle.std.specs.Result.{result_map_both};
ghost use Rattle.facts.specs.Texts.{text_list};
ghost use Rattle.cli_scripts.specs.Items.{AreParsed};
ghost use Rattle.cli_scripts.specs.Plain.{plain_grouping, plain_items, plain_words, plain_line, plain_lines};
ghost use Rattle.cli_scripts.specs.Script.{StateFields, are_conditions, AreTested, ReadsLine, ReadsChange, AreChanges};
ghost use Rattle.cli_scripts.specs.inner.Grouping.{AddsWords};
ghost use Rattle.cli_scripts.specs.declared.script.ScriptError.TheVariants.{OutOfMemory};

use crate::items::{Grouping, add_line, changes_tables};
use crate::line::line_of;
use crate::{ScriptItem, ScriptLine};
use field_texts::{ParseError, parse_fields};
use query::{Condition, QueryError};
use std::alloc::{AllocError, AllocFailed, Global};
use thiserror::Error;

/// Why a script is refused.
#[derive(Clone, Copy, Debug, PartialEq, Eq, Error)]
pub enum ScriptError {
    /// The number of the first invalid line, counted from 1.
    #[error("G3 BadScript {0}")]
    BadLine(u64),
    #[error("OutOfMemory")]
    OutOfMemory,
}

impl From<AllocError> for ScriptError {
    ghost from_gives = { λ _ e. e ≡ OutOfMemory };

    fn from(_: AllocError) -> ScriptError {
        ScriptError::OutOfMemory
    }
}

impl<T: Drop> From<AllocFailed<T>> for ScriptError {
    ghost from_gives = { λ _ e. e ≡ OutOfMemory };

    fn from(_: AllocFailed<T>) -> ScriptError {
        ScriptError::OutOfMemory
    }
}

fn state_fields(alloc: Global, texts: &[&str]) -> Result<bool, ScriptError>
    ensures tested { IfOk result (λ state. StateFields state (text_list texts.now)) }
    ensures memory { IfErr result (λ e. e ≡ ScriptError.OutOfMemory) }
{
    match parse_fields(alloc, texts) {
        Ok(_) => Ok(true),
        Err(ParseError::OutOfMemory) => Err(ScriptError::OutOfMemory),
        Err(ParseError::BadText(_) | ParseError::Limit) => Ok(false),
    }
}

fn are_conditions(alloc: Global, texts: &[&str]) -> Result<bool, ScriptError>
    ensures tested { IfOk result (λ are. are_conditions (text_list texts.now) ≡ are) }
    ensures memory { IfErr result (λ e. e ≡ ScriptError.OutOfMemory) }
{
    for text in texts {
        match Condition::parse(alloc, text) {
            Ok(_) => {}
            Err(QueryError::BadCondition) => return Ok(false),
            Err(QueryError::OutOfMemory) => return Err(ScriptError::OutOfMemory),
            Err(QueryError::UnknownColumn | QueryError::NotComparable) => unreachable!(),
        }
    }
    Ok(true)
}

// Returns whether the texts of the fields or conditions of a line can be parsed.
fn has_texts(alloc: Global, line: &ScriptLine<'_>) -> Result<bool, ScriptError>
    ensures tested { IfOk result (λ has. AreTested has (plain_line line.now)) }
    ensures memory { IfErr result (λ e. e ≡ ScriptError.OutOfMemory) }
{
    match line {
        ScriptLine::Create { fields, .. } => state_fields(alloc, fields),
        ScriptLine::Save { rows, .. } => are_conditions(alloc, &rows.conditions),
        _ => Ok(true),
    }
}

fn texts_of(alloc: Global, words: &[String]) -> Result<Vec<&str>, AllocError>
    ensures { IfOk result (λ texts. text_list texts.items ≡ map string_bytes words.now) }
{
    let mut texts = Vec::with_capacity(alloc, words.len())?;
    for word in words {
        texts.push(word.as_str())?;
    }
    Ok(texts)
}

fn read_line<'a>(
    alloc: Global,
    words: &'a Option<Vec<String>>,
) -> Result<Option<ScriptLine<'a>>, ScriptError>
    ensures read { IfOk result (λ found. ReadsLine (plain_words words.now) (option_map plain_line found)) }
    ensures memory { IfErr result (λ e. e ≡ ScriptError.OutOfMemory) }
{
    let Some(words) = words else {
        return Ok(None);
    };
    let texts = texts_of(alloc, words)?;
    let Some(found) = line_of(alloc, &texts)? else {
        return Ok(None);
    };
    if has_texts(alloc, &found)? {
        Ok(Some(found))
    } else {
        Ok(None)
    }
}

// Adds the line of these words to those that are grouped. `None` if they have none that may follow.
fn add_words<'a>(
    alloc: Global,
    grouping: Grouping<'a>,
    words: &'a Option<Vec<String>>,
    number: u64,
) -> Result<Option<Grouping<'a>>, ScriptError>
    ensures added { IfOk result (λ new. AddsWords (plain_grouping grouping.entry) number (plain_words words.now) (option_map plain_grouping new)) }
    ensures memory { IfErr result (λ e. e ≡ ScriptError.OutOfMemory) }
{
    let Some(line) = read_line(alloc, words)? else {
        return Ok(None);
    };
    Ok(add_line(alloc, grouping, line, number)?)
}

// Returns the items of all lines, unless a list is still open.
fn items_of<'a>(grouping: Grouping<'a>) -> Result<Vec<ScriptItem<'a>>, ScriptError>
    ensures ended { IfOk result (λ items. plain_grouping grouping.entry ≡ record { items = plain_items items.items; list = None }) }
    ensures open { IfErr result (λ e. (list : _) × ((plain_grouping grouping.entry).list ≡ Some list) × (e ≡ ScriptError.BadLine list.number)) }
{
    let Grouping { items, list } = grouping;
    match list {
        Some(list) => Err(ScriptError::BadLine(list.number)),
        None => Ok(items),
    }
}

/// Parses the lines of a script that is played from their words, as [`crate::script_words`] returns them.
///
/// # Errors
/// `BadLine` with a number counted from 1: of the first line that has no words, whose words are no command, or whose command may not follow the lines
/// before it, as `commit` without a `begin`; or of a `begin` without `commit`. `OutOfMemory`.
pub fn parse_script<'a>(
    alloc: Global,
    words: &'a [Option<Vec<String>>],
) -> Result<Vec<ScriptItem<'a>>, ScriptError>
    ensures { AreParsed (map plain_words words.now) (result_map_both (λ items. plain_items items.items) (λ e. e) result) }
{
    let mut grouping = Grouping {
        items: Vec::with_capacity(alloc, words.len())?,
        list: None,
    };
    for (place, found) in words.iter().enumerate() {
        let number = place as u64 + 1;
        match add_words(alloc, grouping, found, number)? {
            Some(longer) => grouping = longer,
            None => return Err(ScriptError::BadLine(number)),
        }
    }
    items_of(grouping)
}

// Reads a line that changes tables. Any other line is `None`.
fn read_change<'a>(
    alloc: Global,
    words: &'a Option<Vec<String>>,
) -> Result<Option<ScriptLine<'a>>, ScriptError>
    ensures read { IfOk result (λ found. ReadsChange (plain_words words.now) (option_map plain_line found)) }
    ensures memory { IfErr result (λ e. e ≡ ScriptError.OutOfMemory) }
{
    let Some(line) = read_line(alloc, words)? else {
        return Ok(None);
    };
    if changes_tables(&line) {
        Ok(Some(line))
    } else {
        Ok(None)
    }
}

/// Parses the lines of a script that is applied as one commit, from their words, as [`crate::script_words`] returns them.
///
/// # Errors
/// `BadLine` with the number of the first line that has no words, whose words are no command, or whose command does not change tables, counted from 1;
/// `OutOfMemory`.
pub fn parse_changes<'a>(
    alloc: Global,
    words: &'a [Option<Vec<String>>],
) -> Result<Vec<ScriptLine<'a>>, ScriptError>
    ensures { AreChanges (map plain_words words.now) (result_map_both (λ lines. plain_lines lines.items) (λ e. e) result) }
{
    let mut lines = Vec::with_capacity(alloc, words.len())?;
    for (place, found) in words.iter().enumerate() {
        match read_change(alloc, found)? {
            Some(line) => lines.push(line)?,
            None => return Err(ScriptError::BadLine(place as u64 + 1)),
        }
    }
    Ok(lines)
}
