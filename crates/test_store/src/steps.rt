// Calls of a place as data, and replies as texts.
use crate::chance::drawn_commands;
use crate::inputs::{Given, Input, bytes_of, new_schema, rows_of};
use crate::made::NotMade;
use crate::pieces::{PieceReader, Pieces};
use arrow_schema::Schema;
use field_texts::field_text;
use ipc_encode::encode;
use ipc_stream::{decode, decode_weighed};
use query::{Condition, DateForm, Query};
use std::alloc::Global;
use store::Reply;
use tables::{Command, NewTable};
use values::{Table, ValueRef, Values};

/// A call of a place, with such readers.
pub type Call = store::Call<PieceReader>;

/// A call.
#[derive(Clone, Copy)]
pub enum Step {
    Format,
    Open,
    Close,
    Create(&'static str, &'static [&'static str]),
    Import(&'static str, Input),
    Append(&'static str, Input),
    ImportFrom(&'static str, Input, Pieces),
    AppendFrom(&'static str, Input, Pieces),
    Give(&'static str, Given),
    GiveTable(&'static str, Input),
    Save(&'static str, &'static str, Asked),
    Rename(&'static str, &'static str),
    Remove(&'static str),
    /// Several commands as one, drawn by this number.
    Together(u64),
    /// Several commands as one, after which the table has only the rows that a query selects.
    Keep(&'static str, Asked),
    Tables,
    Schema(&'static str),
    Read(&'static str),
    Export(&'static str),
    OpenExport(&'static str),
    ExportNext(u64),
    CloseExport(u64),
    Compact,
    Upgrade,
}

/// The columns, the conditions and the limit of a query.
pub type Asked = (
    &'static [&'static str],
    &'static [&'static str],
    Option<u64>,
);

/// Calls, each with the expected reply.
pub type Steps = &'static [(Step, &'static str)];

/// Returns the command that makes an empty table.
pub fn creation(alloc: Global, name: &str, columns: &[&str]) -> Result<Command, NotMade> {
    let schema = new_schema(alloc, columns)?;
    let name = String::from_str(alloc, name)?;
    Ok(Command::Create(NewTable { name, schema }))
}

fn import(alloc: Global, name: &str, input: Input) -> Result<Command, NotMade> {
    let bytes = bytes_of(alloc, input)?;
    let name = String::from_str(alloc, name)?;
    Ok(Command::ImportStream { name, bytes })
}

fn append(alloc: Global, name: &str, input: Input) -> Result<Command, NotMade> {
    let bytes = bytes_of(alloc, input)?;
    let name = String::from_str(alloc, name)?;
    Ok(Command::AppendStream { name, bytes })
}

fn gift(alloc: Global, name: &str, given: Given) -> Result<Command, NotMade> {
    let rows = rows_of(alloc, given)?;
    let name = String::from_str(alloc, name)?;
    Ok(Command::AppendRows { name, rows })
}

// Returns the command that appends the rows of the table that a stream means.
fn table_gift(alloc: Global, name: &str, input: Input) -> Result<Command, NotMade> {
    let Ok(new) = decode_weighed(alloc, bytes_of(alloc, input)?) else {
        return Err(NotMade);
    };
    let name = String::from_str(alloc, name)?;
    Ok(Command::AppendTable { name, new })
}

fn texts(alloc: Global, all: &[&str]) -> Result<Vec<String>, NotMade> {
    let mut texts = Vec::with_capacity(alloc, all.len())?;
    for text in all {
        texts.push(String::from_str(alloc, text)?)?;
    }
    Ok(texts)
}

fn conditions(alloc: Global, all: &[&str]) -> Result<Vec<Condition>, NotMade> {
    let mut conditions = Vec::with_capacity(alloc, all.len())?;
    for text in all {
        conditions.push(Condition::parse(alloc, text)?)?;
    }
    Ok(conditions)
}

/// Makes the query that is asked for.
pub fn query(alloc: Global, asked: Asked) -> Result<Query, NotMade> {
    Ok(Query {
        columns: texts(alloc, asked.0)?,
        conditions: conditions(alloc, asked.1)?,
        limit: asked.2,
        dates: DateForm::Numbers,
    })
}

fn saving(alloc: Global, from: &str, to: &str, asked: Asked) -> Result<Command, NotMade> {
    let query = query(alloc, asked)?;
    let from = String::from_str(alloc, from)?;
    let to = String::from_str(alloc, to)?;
    Ok(Command::SaveAs { from, to, query })
}

fn renaming(alloc: Global, from: &str, to: &str) -> Result<Command, NotMade> {
    let from = String::from_str(alloc, from)?;
    let to = String::from_str(alloc, to)?;
    Ok(Command::Rename { from, to })
}

fn removal(alloc: Global, name: &str) -> Result<Command, NotMade> {
    let name = String::from_str(alloc, name)?;
    Ok(Command::Drop { name })
}

/// Returns the command of a step.
pub fn command_of(alloc: Global, step: Step) -> Result<Command, NotMade> {
    match step {
        Step::Create(name, columns) => creation(alloc, name, columns),
        Step::Import(name, input) => import(alloc, name, input),
        Step::Append(name, input) => append(alloc, name, input),
        Step::Give(name, given) => gift(alloc, name, given),
        Step::GiveTable(name, input) => table_gift(alloc, name, input),
        Step::Save(from, to, asked) => saving(alloc, from, to, asked),
        Step::Rename(from, to) => renaming(alloc, from, to),
        Step::Remove(name) => removal(alloc, name),
        // the other steps are no commands
        _ => Err(NotMade),
    }
}

/// Returns the commands of steps.
pub fn commands_of(alloc: Global, steps: &[Step]) -> Result<Vec<Command>, NotMade> {
    let mut commands = Vec::new(alloc);
    for step in steps {
        commands.push(command_of(alloc, *step)?)?;
    }
    Ok(commands)
}

// Returns the commands that keep only these rows of a table.
fn keeping(alloc: Global, name: &'static str, asked: Asked) -> Result<Vec<Command>, NotMade> {
    commands_of(
        alloc,
        &[
            Step::Save(name, "kept", asked),
            Step::Remove(name),
            Step::Rename("kept", name),
        ],
    )
}

fn reader(alloc: Global, input: Input, pieces: Pieces) -> Result<PieceReader, NotMade> {
    Ok(PieceReader::new(bytes_of(alloc, input)?, pieces))
}

/// Returns the call of a step.
pub fn call_of(alloc: Global, step: Step) -> Result<Call, NotMade> {
    Ok(match step {
        Step::Format => Call::Format,
        Step::Open => Call::Open,
        Step::Close => Call::Close,
        Step::Tables => Call::Tables,
        Step::Schema(name) => Call::Schema(String::from_str(alloc, name)?),
        Step::Read(name) => Call::Read(String::from_str(alloc, name)?),
        Step::Export(name) => Call::Export(String::from_str(alloc, name)?),
        Step::OpenExport(name) => Call::OpenExport(String::from_str(alloc, name)?),
        Step::ExportNext(id) => Call::ExportNext(id),
        Step::CloseExport(id) => Call::CloseExport(id),
        Step::Compact => Call::Compact,
        Step::Upgrade => Call::Upgrade,
        Step::ImportFrom(name, input, pieces) => Call::ImportFrom {
            name: String::from_str(alloc, name)?,
            reader: reader(alloc, input, pieces)?,
        },
        Step::AppendFrom(name, input, pieces) => Call::AppendFrom {
            name: String::from_str(alloc, name)?,
            reader: reader(alloc, input, pieces)?,
        },
        Step::Together(seed) => {
            Call::ApplyAll(commands_of(alloc, &drawn_commands(alloc, seed)?)?)
        }
        Step::Keep(name, asked) => Call::ApplyAll(keeping(alloc, name, asked)?),
        command => Call::Apply(command_of(alloc, command)?),
    })
}

/// Appends a comma, unless this is the first part.
pub fn add_comma(text: &mut String, place: usize) -> Result<(), NotMade> {
    if place > 0 {
        text.push_str(", ")?;
    }
    Ok(())
}

// Appends tables, as `t 2, u 0`.
fn add_tables(text: &mut String, tables: &[(String, u64)]) -> Result<(), NotMade> {
    for (place, (name, rows)) in tables.iter().enumerate() {
        add_comma(text, place)?;
        write!(text, "{name} {rows}")?;
    }
    Ok(())
}

// Appends a schema, as `"a":int32?, "b":int8`.
fn add_schema(alloc: Global, text: &mut String, schema: &Schema) -> Result<(), NotMade> {
    for (place, field) in schema.fields.iter().enumerate() {
        add_comma(text, place)?;
        text.push_str(&field_text(alloc, field)?)?;
    }
    Ok(())
}

fn add_value(text: &mut String, value: ValueRef<'_>) -> Result<(), NotMade> {
    match value {
        ValueRef::Null => Ok(text.push_str("null")?),
        ValueRef::Int(number) => Ok(write!(text, "{number}")?),
        ValueRef::Text(own) => Ok(text.push_str(own)?),
        _ => Err(NotMade),
    }
}

// Appends a row, as ` 7` if it has one column and ` 7/x` if it has two.
fn add_row(text: &mut String, row: Values<'_>) -> Result<(), NotMade> {
    let mut first = true;
    for value in row.iter() {
        text.push_str(if first { " " } else { "/" })?;
        add_value(text, value)?;
        first = false;
    }
    Ok(())
}

/// Appends the values of a table, row after row.
pub fn add_values(text: &mut String, table: &Table) -> Result<(), NotMade> {
    for row in table.rows() {
        add_row(text, row)?;
    }
    Ok(())
}

/// Appends a table, as `"a":int32?: 7 -1`.
pub fn add_table(alloc: Global, text: &mut String, table: &Table) -> Result<(), NotMade> {
    add_schema(alloc, text, table.schema())?;
    text.push_str(":")?;
    add_values(text, table)
}

fn is_canonical(alloc: Global, table: &Table, bytes: &[u8]) -> Result<bool, NotMade> {
    Ok(encode(alloc, table)?.as_slice() == bytes)
}

// Appends `stream of "a":int32?: 7 -1`, if the bytes are the canonical stream of the table that they mean.
fn add_stream_of(
    alloc: Global,
    text: &mut String,
    table: &Table,
    bytes: &[u8],
) -> Result<(), NotMade> {
    if !is_canonical(alloc, table, bytes)? {
        return Ok(text.push_str("another stream")?);
    }
    text.push_str("stream of ")?;
    add_table(alloc, text, table)
}

fn add_stream(alloc: Global, text: &mut String, bytes: &[u8]) -> Result<(), NotMade> {
    match decode(alloc, Vec::from_slice(alloc, bytes)?) {
        Ok(table) => add_stream_of(alloc, text, &table, bytes),
        Err(_) => Err(NotMade),
    }
}

fn add_reply(alloc: Global, text: &mut String, reply: &Reply) -> Result<(), NotMade> {
    match reply {
        Reply::Done => Ok(text.push_str("ok")?),
        Reply::Tables(tables) => add_tables(text, tables),
        Reply::Schema(schema) => add_schema(alloc, text, schema),
        Reply::Table(table) => add_table(alloc, text, table),
        Reply::Bytes(bytes) => add_stream(alloc, text, bytes),
        Reply::Export(id) => Ok(write!(text, "export {id}")?),
        Reply::Piece(Some(piece)) => Ok(write!(text, "{} bytes", piece.len())?),
        Reply::Piece(None) => Ok(text.push_str("no piece")?),
        Reply::Merged => Ok(text.push_str("merged")?),
        Reply::Moved => Ok(text.push_str("moved")?),
        Reply::Nothing => Ok(text.push_str("nothing")?),
        Reply::Already => Ok(text.push_str("already")?),
        Reply::Refused(refusal) => Ok(write!(text, "{refusal}")?),
        Reply::RefusedAt { place, refusal } => Ok(write!(text, "{refusal} of {place}")?),
        Reply::NotOpened(refusal) => Ok(write!(text, "{refusal}")?),
    }
}

/// Returns whether a reply has this text.
pub fn says(alloc: Global, reply: &Reply, want: &str) -> Result<bool, NotMade> {
    let mut text = String::new(alloc);
    add_reply(alloc, &mut text, reply)?;
    Ok(text.as_str() == want)
}
