// What is wrong with a refused word of the command line or with a line of a script, in sentences for a terminal.
use crate::nearest_type::nearest_type;
use arrow_schema::Field;
use cli_reports::{MOST_SHOWN, Refusal, Role, Word, has_unshown};
use cli_scripts::{ScriptLine, line_of, script_words};
use field_texts::{ParseError, field_text, parse_fields};
use query::{Condition, Test};
use std::alloc::Global;
use std::fmt::Write as _;
use tables::QueryRefusal;
use values::Table;

// The maximum number of names in a list.
const MOST_LISTED: usize = 20;

/// Returns whether a terminal is shown a text beside a refusal. A long one could hide the rest of the line.
pub(crate) fn is_shown(text: &str) -> bool {
    text.len() <= MOST_SHOWN && !has_unshown(text)
}

// Returns whether a text is one word of ASCII letters, digits and `_`, as the names of types are.
fn is_plain(text: &str) -> bool {
    text.bytes()
        .all(|byte| byte.is_ascii_alphanumeric() || byte == b'_')
}

fn about_unknown_type(alloc: Global, name: &str) -> Option<String> {
    match nearest_type(alloc, name) {
        Some(near) => {
            format!(in alloc; "The type `{name}` is unknown; did you mean `{near}`? ").ok()
        }
        None => format!(in alloc; "The type `{name}` is unknown. ").ok(),
    }
}

fn about_type(alloc: Global, name: &str) -> Option<String> {
    if !is_plain(name) || !is_shown(name) {
        return String::from_str(alloc, "Its type is unknown or has a wrong form. ").ok();
    }
    match name {
        "list" | "large_list" | "fixed_list" | "struct" | "dict" | "fixed_binary" => {
            format!(in alloc; "The type `{name}` lacks what it is made of. ").ok()
        }
        _ => about_unknown_type(alloc, name),
    }
}

// Returns what is wrong with a text that is not that of a field. Behind a right name a right type makes a field.
fn about_field(alloc: Global, text: &str) -> Option<String> {
    let Some((_, data_type)) = text.split_once(':') else {
        return String::from_str(alloc, "It has no colon before a type. ").ok();
    };
    let probe = format!(in alloc; "a:{data_type}").ok()?;
    match parse_fields(alloc, &[probe.as_str()]) {
        Ok(_) => String::from_str(alloc, "Its name is not that of a field. ").ok(),
        Err(ParseError::BadText(_)) => {
            about_type(alloc, data_type.strip_suffix('?').unwrap_or(data_type))
        }
        Err(_) => None,
    }
}

// Returns which text of a field is refused, and what is wrong with it.
fn about_fields(alloc: Global, texts: &[&str]) -> Option<String> {
    for text in texts {
        if parse_fields(alloc, &[text]).is_err() {
            if !is_shown(text) {
                return None;
            }
            let about = about_field(alloc, text)?;
            return format!(in alloc; "The field `{text}` is refused. {about}").ok();
        }
    }
    None
}

// Returns what is wrong with a text that is not a condition.
fn about_form(alloc: Global, text: &str) -> Option<String> {
    let Some((_, rest)) = text.split_once(' ') else {
        return String::from_str(alloc, "It has no space before an operator. ").ok();
    };
    let operator = match rest.split_once(' ') {
        Some((operator, _)) => operator,
        None => rest,
    };
    match operator {
        "" => String::from_str(alloc, "It has no operator after the first space. ").ok(),
        "=" | "!=" | "<" | "<=" | ">" | ">=" => {
            String::from_str(alloc, "It has no space after its operator. ").ok()
        }
        "is" => String::from_str(alloc, "It ends neither in `is null` nor in `is not null`. ").ok(),
        _ if is_shown(operator) => format!(in alloc; "`{operator}` is not an operator. ").ok(),
        _ => None,
    }
}

// Returns which text has not the form of a condition, and what is wrong with it.
fn about_conditions(alloc: Global, texts: &[&str]) -> Option<String> {
    for text in texts {
        if Condition::parse(alloc, text).is_err() {
            if !is_shown(text) {
                return None;
            }
            let about = about_form(alloc, text)?;
            return format!(in alloc; "The condition `{text}` is refused. {about}").ok();
        }
    }
    None
}

// Returns that an option stands in place of a name, if the words are a line once `--` stands before the names.
fn about_option(alloc: Global, words: &[&str]) -> Option<String> {
    let (command, names) = words.split_first()?;
    let (first, _) = names.split_first()?;
    if *first == "--" {
        return None;
    }
    let mut line = Vec::new(alloc);
    line.push(*command).ok()?;
    line.push("--").ok()?;
    for name in names {
        line.push(*name).ok()?;
    }
    line_of(alloc, &line).ok()??;
    String::from_str(
        alloc,
        "An option stands in place of the name of a table: if it is a name, write `--` before the names. ",
    )
    .ok()
}

// Returns where `begin` and `commit` may stand.
fn about_list(alloc: Global, is_applied: bool) -> Option<String> {
    String::from_str(
        alloc,
        if is_applied {
            "Leave `begin` and `commit` out: all lines of the script are one commit. "
        } else {
            "Each `begin` needs its `commit` behind it, before another `begin` and the end of the script. "
        },
    )
    .ok()
}

fn about_texts(alloc: Global, words: &[String], is_applied: bool) -> Option<String> {
    let texts: Vec<&str> = words.iter().map(|word| word.as_str()).collect(alloc).ok()?;
    let Some(line) = line_of(alloc, &texts).ok()? else {
        return about_option(alloc, &texts);
    };
    match line {
        ScriptLine::Create { fields, .. } => about_fields(alloc, &fields),
        ScriptLine::Save { rows, .. } => about_conditions(alloc, &rows.conditions),
        ScriptLine::Begin | ScriptLine::Commit => about_list(alloc, is_applied),
        _ => None,
    }
}

// Returns what is wrong with a line that has no words, if it is a text.
fn about_marks(alloc: Global, line: &[u8]) -> Option<String> {
    str::from_utf8(line).ok()?;
    String::from_str(
        alloc,
        "A quotation mark is not closed, or something else than a space follows the one that closes a word. ",
    )
    .ok()
}

/// Returns what is wrong with a line of a script: a text of a field or condition, an option in place of a name, the place of a `begin` or `commit`, or
/// its quotation marks.
pub(crate) fn about_line(alloc: Global, line: &[u8], is_applied: bool) -> Option<String> {
    let lines = script_words(alloc, line).ok()?;
    match lines.first()? {
        Some(words) => about_texts(alloc, words, is_applied),
        None => about_marks(alloc, line),
    }
}

/// Returns which record of the text that a line of a script appends is refused, by its number; 0 if the text as a whole is.
pub(crate) fn about_file(alloc: Global, number: u64) -> Option<String> {
    match number {
        0 => String::from_str(alloc, "The file of the line is refused as a whole. ").ok(),
        number => format!(in alloc; "Record {number} of the file of the line is refused. ").ok(),
    }
}

// Returns that a literal is not a value of the column's type.
fn about_literal(alloc: Global, table: &Table, condition: &Condition) -> Option<String> {
    let Test::Compared(_, literal) = &condition.test else {
        return None;
    };
    let fields = &table.schema().fields;
    let field = fields
        .iter()
        .find(|field| field.name.as_str() == condition.column.as_str())?;
    let wanted = field_text(alloc, field).ok()?;
    if !is_shown(literal) || !is_shown(&wanted) {
        return None;
    }
    format!(in alloc; "`{literal}` is not a value of `{wanted}`. ").ok()
}

fn about_condition(alloc: Global, text: &str, table: Option<&Table>) -> Option<String> {
    match Condition::parse(alloc, text) {
        Ok(condition) => about_literal(alloc, table?, &condition),
        Err(query::QueryError::BadCondition) => about_form(alloc, text),
        Err(_) => None,
    }
}

// Returns whether a name is that of a part of this list or struct, as `p.x` and `l[0]`.
fn is_below(field: &Field, name: &str) -> bool {
    match name.strip_prefix(field.name.as_str()) {
        Some(rest) => field.data_type.is_nested()
            && (rest.starts_with('.') || rest.starts_with('[')),
        None => false,
    }
}

// Appends a name to a list, after a comma if it is not the first one.
fn push_name(text: &mut String, number: usize, name: &str) -> Option<()> {
    if number > 0 {
        text.push_str(", ").ok()?;
    }
    text.push_str(name).ok()
}

// Ends a list of which some names were left out, and begins the next sentence.
fn end_list(text: &mut String, left_out: usize) -> Option<()> {
    if left_out > 0 {
        write!(text, " and {left_out} more").ok()?;
    }
    text.push_str(". ").ok()
}

fn about_columns(alloc: Global, table: &Table) -> Option<String> {
    let fields = &table.schema().fields;
    let mut text = String::from_str(alloc, "Columns: ").ok()?;
    for (number, field) in fields.iter().take(MOST_LISTED).enumerate() {
        if !is_shown(&field.name) {
            return None;
        }
        push_name(&mut text, number, &field.name)?;
    }
    end_list(&mut text, fields.len().saturating_sub(MOST_LISTED))?;
    Some(text)
}

/// Returns the names of the tables of a store, in a sentence.
pub(crate) fn about_tables(alloc: Global, tables: &[(String, u64)]) -> Option<String> {
    if tables.is_empty() {
        return String::from_str(alloc, "The store has no tables. ").ok();
    }
    let mut text = String::from_str(alloc, "Tables: ").ok()?;
    for (number, table) in tables.iter().take(MOST_LISTED).enumerate() {
        push_name(&mut text, number, &table.0)?;
    }
    end_list(&mut text, tables.len().saturating_sub(MOST_LISTED))?;
    Some(text)
}

// Returns the column that has a part of this name, unless a column has the name itself: then two of them have it.
fn column_of_part<'a>(fields: &'a [Field], name: &str) -> Option<&'a Field> {
    if fields.iter().any(|field| field.name.as_str() == name) {
        return None;
    }
    fields.iter().find(|field| is_below(field, name))
}

// Returns that a name is that of a part of a column, or which columns there are.
fn about_name(alloc: Global, table: &Table, name: &str) -> Option<String> {
    let Some(field) = column_of_part(&table.schema().fields, name) else {
        return about_columns(alloc, table);
    };
    let column = field.name.as_str();
    if !is_shown(column) {
        return None;
    }
    format!(in alloc; "Only the whole column `{column}` can be named, not a part of it. ").ok()
}

fn about_query(
    alloc: Global,
    word: Word<'_>,
    table: Option<&Table>,
    reason: QueryRefusal,
) -> Option<String> {
    match (word.role, reason) {
        (Role::Condition, QueryRefusal::BadCondition) => about_condition(alloc, word.text, table),
        (Role::Condition, QueryRefusal::UnknownColumn) => {
            let (name, _) = word.text.split_once(' ')?;
            about_name(alloc, table?, name)
        }
        (Role::Column, QueryRefusal::UnknownColumn) => about_name(alloc, table?, word.text),
        _ => None,
    }
}

/// Returns what is wrong with a refused word: with the text of a field, or with a condition or a column for a query of this table.
pub(crate) fn about_word(
    alloc: Global,
    word: Word<'_>,
    table: Option<&Table>,
    refusal: &Refusal,
) -> Option<String> {
    match refusal {
        Refusal::Fields(_) => about_field(alloc, word.text),
        Refusal::Query(reason) | Refusal::Store(tables::Refusal::Query(reason)) => {
            about_query(alloc, word, table, *reason)
        }
        _ => None,
    }
}
