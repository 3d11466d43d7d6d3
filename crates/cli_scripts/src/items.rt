// Groups the lines of a script into what is one commit each.
ghost use Rattle.std.specs.Prelude.{◌≡◌, IfOk, None, Some, option_map};
ghost use Rattle.cli_scripts.specs.Plain.{plain_grouping, plain_items, plain_line, plain_list};
ghost use Rattle.cli_scripts.specs.Script.{changes_tables};
ghost use Rattle.cli_scripts.specs.Items.{is_known_change};
ghost use Rattle.cli_scripts.specs.inner.Grouping.{AddsLine};

use crate::ScriptLine;
use std::alloc::{AllocError, Global};

/// The lines between `begin` and `commit`.
#[derive(Drop)]
pub struct ScriptList<'a> {
    /// The number of the line `begin`, counted from 1.
    pub number: u64,
    pub lines: Vec<ScriptLine<'a>>,
}

/// What is one commit in a script that is played.
#[derive(Drop)]
pub enum ScriptItem<'a> {
    /// A line by itself, and its number, counted from 1.
    Line { number: u64, line: ScriptLine<'a> },
    List(ScriptList<'a>),
}

/// The items of the first lines of a script, and the list that is open after them.
#[derive(Drop)]
pub(crate) struct Grouping<'a> {
    pub(crate) items: Vec<ScriptItem<'a>>,
    pub(crate) list: Option<ScriptList<'a>>,
}

pub(crate) fn changes_tables(line: &ScriptLine<'_>) -> bool
    ensures { result ≡ changes_tables (plain_line line.now) }
{
    match line {
        ScriptLine::Compact
        | ScriptLine::Upgrade
        | ScriptLine::Reopen
        | ScriptLine::Begin
        | ScriptLine::Commit => false,
        _ => true,
    }
}

// A text is read for the schema that its table has, so its command is not known before.
fn is_known_change(line: &ScriptLine<'_>) -> bool
    ensures { result ≡ is_known_change (plain_line line.now) }
{
    match line {
        ScriptLine::AppendText { .. } => false,
        line => changes_tables(line),
    }
}

// Adds a line where no list is open.
fn add_alone<'a>(
    alloc: Global,
    items: Vec<ScriptItem<'a>>,
    line: ScriptLine<'a>,
    number: u64,
) -> Result<Option<Grouping<'a>>, AllocError>
    ensures { IfOk result (λ new. AddsLine (record { items = plain_items items.entry.items; list = None }) number (plain_line line.entry) (option_map plain_grouping new)) }
{
    let mut items = items;
    match line {
        ScriptLine::Begin => {
            let lines = Vec::new(alloc);
            let list = Some(ScriptList { number, lines });
            Ok(Some(Grouping { items, list }))
        }
        ScriptLine::AppendText { .. } | ScriptLine::Commit => Ok(None),
        line => {
            items.push(ScriptItem::Line { number, line })?;
            Ok(Some(Grouping { items, list: None }))
        }
    }
}

// Adds a line where a list is open.
fn add_to_list<'a>(
    items: Vec<ScriptItem<'a>>,
    list: ScriptList<'a>,
    line: ScriptLine<'a>,
    number: u64,
) -> Result<Option<Grouping<'a>>, AllocError>
    ensures { IfOk result (λ new. AddsLine (record { items = plain_items items.entry.items; list = Some (plain_list list.entry) }) number (plain_line line.entry) (option_map plain_grouping new)) }
{
    if let ScriptLine::Commit = line {
        let mut items = items;
        items.push(ScriptItem::List(list))?;
        return Ok(Some(Grouping { items, list: None }));
    }
    if !is_known_change(&line) {
        return Ok(None);
    }
    let mut list = list;
    list.lines.push(line)?;
    Ok(Some(Grouping {
        items,
        list: Some(list),
    }))
}

/// Adds a line with this number to those that are grouped. `None` if it may not follow them.
///
/// # Errors
/// `AllocError` if memory is refused.
pub(crate) fn add_line<'a>(
    alloc: Global,
    grouping: Grouping<'a>,
    line: ScriptLine<'a>,
    number: u64,
) -> Result<Option<Grouping<'a>>, AllocError>
    ensures { IfOk result (λ new. AddsLine (plain_grouping grouping.entry) number (plain_line line.entry) (option_map plain_grouping new)) }
{
    let Grouping { items, list } = grouping;
    match list {
        Some(list) => add_to_list(items, list, line, number),
        None => add_alone(alloc, items, line, number),
    }
}
