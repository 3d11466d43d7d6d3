// Finds the field of an input stream that a refusal is about, to name it on a terminal.
ghost use Rattle.std.specs.Prelude.{◌≡◌, None, Some};
ghost use Rattle.arrowstore.specs.OnFiles.{hinted_of};

use crate::copying_files::open_to_read;
use arrow_schema::{Field, Schema, same_shape};
use cli_reports::Hint;
use cli_requests::{StoreCommand, StoreRequest};
use field_texts::field_text;
use ipc_message::{
    Fault, Header, ImportError, NextMessage, RawField, RawSchema, read_message, read_schema,
};
use sector_dev::LockFile;
use std::alloc::Global;
use std::fs::OpenFile;
use std::io::{Read, Seek, Write};
use std::rt::Files;

/// How the fields of the stream differ from those of the table.
#[derive(Drop)]
pub(crate) enum FoundField {
    /// The name and the text of a field, and the text of the different field that the table has in its place.
    Other {
        name: String,
        found: String,
        wanted: String,
    },
    /// The number of fields in the stream, and the number of columns in the table.
    Count {
        fields: usize,
        columns: usize,
    },
}

impl FoundField {
    /// Returns the hint that says so.
    pub(crate) fn hint(&self) -> Hint<'_>
        ensures { hinted_of (Some result) ≡ None }
    {
        match self {
            FoundField::Other {
                name,
                found,
                wanted,
            } => Hint::OtherField {
                name: name.as_str(),
                found: found.as_str(),
                wanted: wanted.as_str(),
            },
            FoundField::Count { fields, columns } => Hint::FieldCount {
                fields: *fields,
                columns: *columns,
            },
        }
    }
}

// Reads the schema at the start of a stream.
fn raw_schema_at<'a>(alloc: Global, start: &'a [u8]) -> Option<RawSchema<'a>> {
    let Ok((NextMessage::Message(message), _)) = read_message(start) else {
        return None;
    };
    match message.header(alloc) {
        Ok(Header::Schema(schema)) => Some(schema),
        _ => None,
    }
}

// Returns whether a schema of this field alone has the fault.
fn has_fault(alloc: Global, field: RawField<'_>, fault: Fault) -> Option<bool> {
    let mut fields = Vec::new(alloc);
    fields.push(field).ok()?;
    let schema = RawSchema {
        endianness: 0,
        fields,
        pairs: Vec::new(alloc),
    };
    match read_schema(alloc, &schema) {
        Ok(_) => Some(false),
        Err(ImportError::Fault(found)) => Some(found == fault),
        Err(ImportError::OutOfMemory) => None,
    }
}

/// Returns the name of the first field that has this fault by itself.
pub(crate) fn field_with_fault(alloc: Global, start: &[u8], fault: Fault) -> Option<Vec<u8>> {
    let schema = raw_schema_at(alloc, start)?;
    for field in schema.fields {
        let name = field.name;
        if has_fault(alloc, field, fault)? {
            return Vec::from_slice(alloc, name).ok();
        }
    }
    None
}

fn schema_of_field(alloc: Global, field: &Field) -> Option<Schema> {
    let mut fields = Vec::new(alloc);
    fields.push(field.copy(alloc).ok()?).ok()?;
    Some(Schema {
        fields,
        pairs: Vec::new(alloc),
    })
}

// Returns whether the two fields have the same shape.
fn are_alike(alloc: Global, found: &Field, wanted: &Field) -> Option<bool> {
    let found = schema_of_field(alloc, found)?;
    let wanted = schema_of_field(alloc, wanted)?;
    Some(same_shape(&found, &wanted))
}

fn other_field(alloc: Global, found: &Field, wanted: &Field) -> Option<FoundField> {
    Some(FoundField::Other {
        name: String::from_str(alloc, found.name.as_str()).ok()?,
        found: field_text(alloc, found).ok()?,
        wanted: field_text(alloc, wanted).ok()?,
    })
}

// Returns the first field that differs from the table's field in its place, or else the two counts if they differ. `None` is possible: another
// program may have replaced the table since the refusal.
fn first_other(alloc: Global, input: &Schema, table: &Schema) -> Option<FoundField> {
    for (found, wanted) in input.fields.iter().zip(&table.fields) {
        if !are_alike(alloc, found, wanted)? {
            return other_field(alloc, found, wanted);
        }
    }
    let (fields, columns) = (input.width(), table.width());
    if fields == columns {
        return None;
    }
    Some(FoundField::Count { fields, columns })
}

// Returns the path of the store and the name of the table that a stream is appended to.
fn appended_to<'a>(request: &StoreRequest<'a>) -> Option<(&'a str, &'a str)> {
    match request {
        StoreRequest::Command {
            path,
            command: StoreCommand::Append { name },
        } => Some((path, name)),
        _ => None,
    }
}

/// Returns the first field of the stream that differs from the table's field in its place, or else the two counts if they differ.
pub(crate) fn field_of_no_table<
    F: Read + Write + Seek + OpenFile + LockFile + Drop,
    H: Files<File = F> + AllocGlobal,
>(rt: &H, request: &StoreRequest<'_>, start: &[u8]) -> Option<FoundField> {
    let (path, name) = appended_to(request)?;
    let input = read_schema(rt.alloc(), &raw_schema_at(rt.alloc(), start)?).ok()?;
    let store = open_to_read(rt, path).ok()?;
    let table = store.schema(rt.alloc(), name).ok()?;
    first_other(rt.alloc(), &input, &table)
}
