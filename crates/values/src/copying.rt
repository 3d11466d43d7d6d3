// Copies borrowed values.
ghost use Rattle.std.specs.Prelude.{◌≡◌, List, IfOk, map};
ghost use Rattle.cells.specs.Cell as plain;
ghost use Rattle.cells.specs.Cell.{Cell, cells_of};
ghost use Rattle.cells.specs.Row.{row_of};
ghost use Rattle.cells.specs.View.{cell};
ghost use Rattle.columns.specs.Borrowed.{borrowed_cell, borrowed_cells};

use cells::{Row, Value};
use columns::{ValueRef, Values};
use std::alloc::{AllocError, Global};

fn copy_text(alloc: Global, text: &str) -> Result<Value, AllocError>
    ensures { IfOk result (λ v. cell v ≡ plain.text text.now) }
{
    Ok(Value::Text(String::from_str(alloc, text)?))
}

fn copy_bytes(alloc: Global, bytes: &[u8]) -> Result<Value, AllocError>
    ensures { IfOk result (λ v. cell v ≡ plain.bytes bytes.now) }
{
    Ok(Value::Bytes(Vec::from_slice(alloc, bytes)?))
}

fn list_of(copies: Result<Vec<Value>, AllocError>) -> Result<Value, AllocError>
    ensures { (cells : List Cell) → IfOk copies (λ v. map cell v.items ≡ cells) → IfOk result (λ v. cell v ≡ plain.items (cells_of cells)) }
{
    match copies {
        Ok(copies) => Ok(Value::List(copies)),
        Err(error) => Err(error),
    }
}

fn struct_of(copies: Result<Vec<Value>, AllocError>) -> Result<Value, AllocError>
    ensures { (cells : List Cell) → IfOk copies (λ v. map cell v.items ≡ cells) → IfOk result (λ v. cell v ≡ plain.parts (cells_of cells)) }
{
    match copies {
        Ok(copies) => Ok(Value::Struct(copies)),
        Err(error) => Err(error),
    }
}

/// Copies a value into memory of its own.
#[cycle(copy)]
fn copy_value(alloc: Global, value: ValueRef<'_>) -> Result<Value, AllocError>
    ensures { IfOk result (λ v. cell v ≡ borrowed_cell value.entry) }
{
    match value {
        ValueRef::Null => Ok(Value::Null),
        ValueRef::Bool(boolean) => Ok(Value::Bool(boolean)),
        ValueRef::Int(number) => Ok(Value::Int(number)),
        ValueRef::Text(text) => copy_text(alloc, text),
        ValueRef::Bytes(bytes) => copy_bytes(alloc, bytes),
        ValueRef::List(items) => list_of(copy_values(alloc, items)),
        ValueRef::Struct(parts) => struct_of(copy_values(alloc, parts)),
    }
}

#[cycle(copy)]
fn copy_values(alloc: Global, values: Values<'_>) -> Result<Vec<Value>, AllocError>
    ensures { IfOk result (λ v. map cell v.items ≡ borrowed_cells values.entry) }
{
    let mut copies = Vec::with_capacity(alloc, values.len())?;
    for value in values.iter() {
        copies.push_reserved(copy_value(alloc, value)?);
    }
    Ok(copies)
}

/// Copies a row of a table into memory of its own.
///
/// # Errors
/// `AllocError` if memory is refused.
pub fn copy_row(alloc: Global, row: Values<'_>) -> Result<Row, AllocError>
    ensures { IfOk result (λ copy. row_of copy ≡ borrowed_cells row.entry) }
{
    let cells = copy_values(alloc, row)?;
    Ok(Row { cells })
}
