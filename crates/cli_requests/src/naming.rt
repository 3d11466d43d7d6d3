// Finds the word of a command line that a refusal is about.
use crate::{QueryWords, StoreCommand, StoreRequest};
use cli_reports::{MOST_SHOWN, Refusal, Role, Word, has_unshown};
use field_texts::ParseError;
use query::{Condition, DateForm, Query, QueryError, bind_query};
use std::alloc::{AllocError, Global};
use tables::QueryRefusal;
use values::Table;

// Returns the name of the table that must exist.
fn name_of<'a>(command: &StoreCommand<'a>) -> Option<&'a str> {
    match command {
        StoreCommand::Append { name }
        | StoreCommand::AppendComplete { name }
        | StoreCommand::AppendText { name, .. }
        | StoreCommand::Query { name, .. }
        | StoreCommand::Drop { name }
        | StoreCommand::Schema { name }
        | StoreCommand::SchemaFields { name }
        | StoreCommand::Export { name } => Some(name),
        StoreCommand::SaveAs { from, .. } | StoreCommand::Rename { from, .. } => Some(from),
        StoreCommand::CreateLike { like, .. } => Some(like),
        _ => None,
    }
}

// Returns the name that a table is to get.
fn new_name_of<'a>(command: &StoreCommand<'a>) -> Option<&'a str> {
    match command {
        StoreCommand::Create { name, .. }
        | StoreCommand::CreateLike { name, .. }
        | StoreCommand::Import { name }
        | StoreCommand::ImportNew { name }
        | StoreCommand::ImportComplete { name, .. } => Some(name),
        StoreCommand::SaveAs { to, .. } | StoreCommand::Rename { to, .. } => Some(to),
        _ => None,
    }
}

// Returns the text of a field, counted from 1.
fn field_of<'a>(command: &StoreCommand<'a>, number: usize) -> Option<&'a str> {
    match command {
        StoreCommand::Create { fields, .. } => fields.get(number.checked_sub(1)?).copied(),
        _ => None,
    }
}

fn query_in<'r, 'a>(command: &'r StoreCommand<'a>) -> Option<&'r QueryWords<'a>> {
    match command {
        StoreCommand::Query { query, .. } | StoreCommand::SaveAs { query, .. } => Some(query),
        _ => None,
    }
}

// Returns the first text that does not have the form of a condition.
fn first_malformed<'a>(alloc: Global, texts: &[&'a str]) -> Option<&'a str> {
    for text in texts {
        if let Err(QueryError::BadCondition) = Condition::parse(alloc, text) {
            return Some(text);
        }
    }
    None
}

fn refuses(
    alloc: Global,
    table: &Table,
    query: &Query,
    reason: QueryRefusal,
) -> Result<bool, AllocError> {
    match bind_query(alloc, table.schema(), query) {
        Ok(_) => Ok(false),
        Err(QueryError::OutOfMemory) => Err(AllocError),
        Err(error) => Ok(tables::Refusal::from(error) == tables::Refusal::Query(reason)),
    }
}

fn refuses_column(alloc: Global, table: &Table, name: &str) -> Result<bool, AllocError> {
    let query = Query {
        columns: vec![in alloc; String::from_str(alloc, name)?]?,
        conditions: Vec::new(alloc),
        limit: None,
        dates: DateForm::Numbers,
    };
    refuses(alloc, table, &query, QueryRefusal::UnknownColumn)
}

fn refuses_condition(
    alloc: Global,
    table: &Table,
    text: &str,
    dates: DateForm,
    reason: QueryRefusal,
) -> Result<bool, AllocError> {
    // The texts were parsed before, unless memory was refused then.
    let Ok(condition) = Condition::parse(alloc, text) else {
        return Err(AllocError);
    };
    let query = Query {
        columns: Vec::new(alloc),
        conditions: vec![in alloc; condition]?,
        limit: None,
        dates,
    };
    refuses(alloc, table, &query, reason)
}

// Returns the first column of a list that a table refuses, or that the list has twice.
fn refused_column<'a>(
    alloc: Global,
    table: &Table,
    list: &'a str,
) -> Result<Option<&'a str>, AllocError> {
    let mut before = Vec::new(alloc);
    for name in list.split(',') {
        if before.contains(&name) || refuses_column(alloc, table, name)? {
            return Ok(Some(name));
        }
        before.push(name)?;
    }
    Ok(None)
}

fn refused_condition<'a>(
    alloc: Global,
    table: &Table,
    words: &QueryWords<'a>,
    reason: QueryRefusal,
) -> Result<Option<&'a str>, AllocError> {
    for text in &words.conditions {
        if refuses_condition(alloc, table, text, words.dates, reason)? {
            return Ok(Some(text));
        }
    }
    Ok(None)
}

// Returns the first column whose name an earlier one has, if a terminal may be shown it.
fn column_named_again(table: &Table) -> Option<&str> {
    let fields = &table.schema().fields;
    for (place, field) in fields.iter().enumerate() {
        let name = field.name.as_str();
        let is_again = fields[..place]
            .iter()
            .any(|other| other.name.as_str() == name);
        if is_again && name.len() <= MOST_SHOWN {
            return Some(name);
        }
    }
    None
}

// Returns what a table refuses of a query: the columns asked for are tested first, then the conditions, and last whether rows can be objects.
fn word_on_table<'a>(
    alloc: Global,
    query: &QueryWords<'a>,
    table: &'a Table,
    reason: QueryRefusal,
) -> Result<Option<Word<'a>>, AllocError> {
    let is_unknown = reason == QueryRefusal::UnknownColumn;
    let column = match query.columns {
        Some(list) if is_unknown => refused_column(alloc, table, list)?,
        _ => None,
    };
    if column.is_some() {
        return Ok(named(Role::Column, column));
    }
    let condition = refused_condition(alloc, table, query, reason)?;
    if condition.is_some() || !is_unknown {
        return Ok(named(Role::Condition, condition));
    }
    Ok(named(Role::Column, column_named_again(table)))
}

// A query does not say which of its texts is refused, so they are tried one by one, first for the form of a condition, which needs no table.
fn word_of_query<'a>(
    alloc: Global,
    query: &QueryWords<'a>,
    table: Option<&'a Table>,
    reason: QueryRefusal,
) -> Option<Word<'a>> {
    let text = first_malformed(alloc, &query.conditions);
    if text.is_some() {
        return named(Role::Condition, text);
    }
    word_on_table(alloc, query, table?, reason).ok()?
}

fn named<'a>(role: Role, text: Option<&'a str>) -> Option<Word<'a>> {
    Some(Word { role, text: text? })
}

fn word_of_command<'a>(
    alloc: Global,
    command: &StoreCommand<'a>,
    table: Option<&'a Table>,
    refusal: &Refusal,
) -> Option<Word<'a>> {
    match refusal {
        Refusal::Fields(ParseError::BadText(number)) => {
            named(Role::Field, field_of(command, *number))
        }
        Refusal::Store(tables::Refusal::NoTable) => named(Role::Name, name_of(command)),
        Refusal::Store(tables::Refusal::NameTaken | tables::Refusal::BadName) => {
            named(Role::Name, new_name_of(command))
        }
        Refusal::Query(reason) | Refusal::Store(tables::Refusal::Query(reason)) => {
            word_of_query(alloc, query_in(command)?, table, *reason)
        }
        _ => None,
    }
}

fn word_of<'a>(
    alloc: Global,
    request: &StoreRequest<'a>,
    table: Option<&'a Table>,
    refusal: &Refusal,
) -> Option<Word<'a>> {
    match (request, refusal) {
        (
            StoreRequest::Format { path, .. }
            | StoreRequest::FormatDevice { path, .. }
            | StoreRequest::Salvage { path, .. }
            | StoreRequest::Apply { path, .. }
            | StoreRequest::Send { path, .. }
            | StoreRequest::Receive { path, .. }
            | StoreRequest::Command { path, .. },
            Refusal::Opening(_),
        )
        // `format` is refused for its number of sectors
        | (
            StoreRequest::Salvage { path, .. }
            | StoreRequest::Apply { path, .. }
            | StoreRequest::Send { path, .. }
            | StoreRequest::Receive { path, .. }
            | StoreRequest::Command { path, .. },
            Refusal::BadSize,
        ) => named(Role::File, Some(path)),
        (StoreRequest::Salvage { name, .. }, Refusal::Store(tables::Refusal::NoTable)) => {
            named(Role::Name, Some(name))
        }
        (StoreRequest::Command { command, .. }, _) => {
            word_of_command(alloc, command, table, refusal)
        }
        _ => None,
    }
}

/// Returns the word of a request that a refusal is about, if it is known: for a query a condition of another form, or else what `table` refuses,
/// which has the schema of the queried table. A word with a character that is not shown on a terminal is not returned.
pub fn refused_word<'a>(
    alloc: Global,
    request: &StoreRequest<'a>,
    table: Option<&'a Table>,
    refusal: &Refusal,
) -> Option<Word<'a>> {
    let word = word_of(alloc, request, table, refusal)?;
    if has_unshown(word.text) {
        return None;
    }
    Some(word)
}
