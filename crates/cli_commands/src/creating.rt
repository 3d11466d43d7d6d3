// Commands that own their names: a new table from the texts of its fields, another name, and the removal of a table.
ghost use Rattle.std.specs.Prelude.{◌≡◌, map, string_bytes, IfOk, IfErr};
ghost use Rattle.arrow_schema.specs.View.{schema_of};
ghost use Rattle.tables.specs.Commands as commands;
ghost use Rattle.tables.specs.View.{command_of};
ghost use Rattle.cli_commands.specs.Changing.{StateSchema, RefusesFields};

use arrow_schema::Schema;
use cli_reports::Refusal;
use field_texts::parse_fields;
use std::alloc::{AllocError, Global};
use tables::{Command, NewTable};

/// Returns a new table of this name, with the fields that the texts state.
///
/// # Errors
/// `Fields` if the texts state no schema; `OutOfMemory`.
pub fn new_table(alloc: Global, name: &str, fields: &[&str]) -> Result<NewTable, Refusal>
    ensures made { IfOk result (λ new. (string_bytes new.name ≡ name.now) × StateSchema (map (λ t. t.now) fields.now) (schema_of new.schema)) }
    ensures refused { IfErr result (RefusesFields (map (λ t. t.now) fields.now)) }
{
    let fields = parse_fields(alloc, fields)?;
    let name = String::from_str(alloc, name)?;
    let schema = Schema {
        fields,
        pairs: Vec::new(alloc),
    };
    Ok(NewTable { name, schema })
}

/// Returns the command that gives a table another name.
///
/// # Errors
/// `AllocError` if memory is refused.
pub fn rename_table(alloc: Global, from: &str, to: &str) -> Result<Command, AllocError>
    ensures { IfOk result (λ c. command_of c ≡ commands.rename from.now to.now) }
{
    Ok(Command::Rename {
        from: String::from_str(alloc, from)?,
        to: String::from_str(alloc, to)?,
    })
}

/// Returns the command that removes a table.
///
/// # Errors
/// `AllocError` if memory is refused.
pub fn drop_table(alloc: Global, name: &str) -> Result<Command, AllocError>
    ensures { IfOk result (λ c. command_of c ≡ commands.drop_table name.now) }
{
    Ok(Command::Drop {
        name: String::from_str(alloc, name)?,
    })
}
