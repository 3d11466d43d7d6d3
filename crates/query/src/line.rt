// Prints a row as a line of JSON.
ghost use Rattle.std.specs.Prelude.{◌≡◌, ◌++◌, ◌^◌, ◌<◌, ◌≤◌, OnOk, codes, length, slice_index, take};
ghost use Rattle.std.specs.Fmt.{signed_decimal};
ghost use Rattle.json.specs.Print.{quoted};
ghost use Rattle.hex.specs.Hex.{encode_lower, lower_digits};
ghost use Rattle.cells.specs.Cell.{cells_of};
ghost use Rattle.columns.specs.Borrowed.{borrowed_cell, borrowed_cells};
ghost use Rattle.query.specs.Line.{json_of, json_of_all, line};

use crate::plain_text::are_plain;
use json::Writer;
use std::alloc::{AllocError, Global};
use values::{ValueRef, Values};

pub(crate) fn push_bytes(out: &mut Vec<u8>, bytes: &[u8]) -> Result<(), AllocError>
    ensures { OnOk result (out.new.items ≡ out.old.items ++ bytes.now) }
{
    out.extend_from_slice(bytes)
}

pub(crate) fn push_number(out: &mut Vec<u8>, number: i128) -> Result<(), AllocError>
    ensures { OnOk result (out.new.items ≡ out.old.items ++ signed_decimal number) }
{
    let mut digits = itoa::Buffer::new();
    out.extend_from_slice(digits.format(number).as_bytes())
}

/// Appends bytes between quotes.
pub(crate) fn push_in_quotes(out: &mut Vec<u8>, bytes: &[u8]) -> Result<(), AllocError>
    ensures { OnOk result (out.new.items ≡ out.old.items ++ (codes "\"" ++ bytes.now ++ codes "\"")) }
{
    out.reserve(bytes.len() + 2)?;
    out.push_reserved(b'"');
    out.extend_from_slice(bytes)?;
    out.push_reserved(b'"');
    Ok(())
}

/// Appends the first `size` of some bytes between quotes: 16 are copied, and the excess is cut off.
pub(crate) fn push_few_in_quotes(
    out: &mut Vec<u8>,
    bytes: &[u8],
    size: usize,
) -> Result<(), AllocError>
    requires long { 16 ≤ length bytes.now }
    requires few { size ≤ 16 }
    ensures { OnOk result (out.new.items ≡ out.old.items ++ (codes "\"" ++ take size bytes.now ++ codes "\"")) }
{
    out.reserve(18)?;
    out.push_reserved(b'"');
    let end = out.len() + size;
    out.extend_from_slice(&bytes[..16])?;
    out.truncate(end);
    out.push_reserved(b'"');
    Ok(())
}

// Appends a text that has a byte to be escaped. It is written by itself, since the writer clears all the room that it is given.
#[tactic(auto, unfolding(json::specs::Print::print_from))]
fn push_escaped(alloc: Global, out: &mut Vec<u8>, text: &str) -> Result<(), AllocError>
    ensures { OnOk result (out.new.items ≡ out.old.items ++ quoted text.now) }
{
    let mut writer = Writer::new(Vec::new(alloc));
    writer.string(text)?;
    let written = writer.into_inner();
    push_bytes(out, &written)
}

pub(crate) fn push_text(alloc: Global, out: &mut Vec<u8>, text: &str) -> Result<(), AllocError>
    ensures { OnOk result (out.new.items ≡ out.old.items ++ quoted text.now) }
{
    let bytes = text.as_bytes();
    if are_plain(bytes) {
        return push_in_quotes(out, bytes);
    }
    push_escaped(alloc, out, text)
}

// Returns the hexadecimal digit of four bits.
fn digit(bits: u8) -> u8
    requires { bits < 16 }
    ensures { result ≡ slice_index lower_digits bits }
{
    b"0123456789abcdef"[usize::from(bits)]
}

#[tactic(auto, unfolding(hex::specs::Hex::encode_with))]
fn push_hex(out: &mut Vec<u8>, bytes: &[u8]) -> Result<(), AllocError>
    ensures { OnOk result (out.new.items ≡ out.old.items ++ encode_lower bytes.now) }
{
    out.reserve(2 * bytes.len())?;
    for byte in bytes {
        out.push_reserved(digit(byte / 16));
        out.push_reserved(digit(byte % 16));
    }
    Ok(())
}

fn push_quoted_hex(out: &mut Vec<u8>, bytes: &[u8]) -> Result<(), AllocError>
    ensures { OnOk result (out.new.items ≡ out.old.items ++ (codes "\"" ++ encode_lower bytes.now ++ codes "\"")) }
{
    push_bytes(out, b"\"")?;
    push_hex(out, bytes)?;
    push_bytes(out, b"\"")
}

#[tactic(auto, unfolding(crate::specs::Line::json_of))]
#[cycle(line)]
pub(crate) fn push_value(
    alloc: Global,
    out: &mut Vec<u8>,
    value: ValueRef<'_>,
) -> Result<(), AllocError>
    ensures { OnOk result (out.new.items ≡ out.old.items ++ json_of (borrowed_cell value.entry)) }
{
    match value {
        ValueRef::Null => push_bytes(out, b"null"),
        ValueRef::Bool(true) => push_bytes(out, b"true"),
        ValueRef::Bool(false) => push_bytes(out, b"false"),
        ValueRef::Int(number) => push_number(out, number),
        ValueRef::Text(text) => push_text(alloc, out, text),
        ValueRef::Bytes(bytes) => push_quoted_hex(out, bytes),
        ValueRef::List(items) => push_array(alloc, out, items),
        ValueRef::Struct(parts) => push_array(alloc, out, parts),
    }
}

#[cycle(line)]
pub(crate) fn push_array(
    alloc: Global,
    out: &mut Vec<u8>,
    values: Values<'_>,
) -> Result<(), AllocError>
    ensures { OnOk result (out.new.items ≡ out.old.items ++ line (borrowed_cells values.entry)) }
{
    push_bytes(out, b"[")?;
    push_values(alloc, out, values)?;
    push_bytes(out, b"]")
}

// Appends the values, with a comma between two.
#[tactic(auto, unfolding(crate::specs::Line::json_of_all))]
#[cycle(line)]
fn push_values(alloc: Global, out: &mut Vec<u8>, values: Values<'_>) -> Result<(), AllocError>
    ensures { OnOk result (out.new.items ≡ out.old.items ++ json_of_all (cells_of (borrowed_cells values.entry))) }
{
    let mut others = values.iter();
    let Some(first) = others.next() else {
        return Ok(());
    };
    push_value(alloc, out, first)?;
    for value in others {
        push_bytes(out, b",")?;
        push_value(alloc, out, value)?;
    }
    Ok(())
}
