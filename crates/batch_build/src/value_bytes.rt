// Values of one width.
ghost use Rattle.std.specs.Prelude.{◌≡◌, ◌<◌, ◌≤◌, ◌+◌, ◌*◌, ◌/◌, ◌++◌, true, OnOk, IfOk, length, map, take, drop, get_or, replicate};
ghost use Rattle.std.specs.Int.{w128, cast_unsigned};
ghost use Rattle.std.specs.List.{flat_map};
ghost use Rattle.arrow_schema.specs.Column.{integers};
ghost use Rattle.arrow_schema.specs.View.{bits_of};
ghost use Rattle.batch_build.specs.inner.Stored.{low_bytes_of, number_or_zero};
ghost use Rattle.byteorder.specs.Endian.{little_bytes};
ghost use Rattle.cells.specs.Cell.{null};
ghost use Rattle.columns.specs.Buildable.{are_nulls_or_fit};
ghost use Rattle.columns.specs.Built.{fixed_bytes, integer_bytes};
ghost use Rattle.columns.specs.Borrowed.{borrowed_cell};

use arrow_schema::{BitWidth, IntegerType};
use std::alloc::{AllocError, Global};
use values::ValueRef;

#[tactic(auto, using(crate::proofs::Equals::one_more))]
fn push_zeros(values: &mut Vec<u8>, count: usize) -> Result<(), AllocError>
    ensures { OnOk result (values.new.items ≡ values.old.items ++ replicate count 0) }
{
    for _ in 0..count {
        values.push(0)?;
    }
    Ok(())
}

// Adds the bytes of a binary, or zeros for a null.
fn push_fixed(values: &mut Vec<u8>, width: usize, cell: ValueRef<'_>) -> Result<(), AllocError>
    ensures { OnOk result (values.new.items ≡ values.old.items ++ fixed_bytes width (borrowed_cell cell.entry)) }
{
    match cell {
        ValueRef::Bytes(bytes) => values.extend_from_slice(bytes),
        _ => push_zeros(values, width),
    }
}

/// Makes the values of binaries of one width, with zeros for nulls.
pub(crate) fn fixed_values(
    alloc: Global,
    width: usize,
    cells: &[ValueRef<'_>],
) -> Result<Vec<u8>, AllocError>
    ensures { IfOk result (λ bytes. bytes.items ≡ flat_map (fixed_bytes width) (map borrowed_cell cells.now)) }
{
    let mut values = Vec::with_capacity(alloc, cells.len().saturating_mul(width))?;
    for cell in cells {
        push_fixed(&mut values, width, *cell)?;
    }
    Ok(values)
}

// Returns the integer of a cell, or 0 for another value.
#[inline]
fn integer_at(cells: &[ValueRef<'_>], i: usize) -> i128
    requires { i < length cells.now }
    ensures { result ≡ number_or_zero (get_or (map borrowed_cell cells.now) i null) }
{
    match &cells[i] {
        ValueRef::Int(number) => *number,
        _ => 0,
    }
}

// Overwrites `n` bytes from an index on with the low bytes of an integer.
#[inline]
fn put_integer<const SIZE: usize>(values: &mut [u8], at: usize, integer: i128)
    requires size { SIZE ≤ 16 }
    requires room { at + SIZE ≤ length values.old }
    ensures { values.new ≡ take at values.old ++ (little_bytes SIZE (cast_unsigned w128 integer) ++ drop (at + SIZE) values.old) }
{
    values[at..at + SIZE].copy_from_slice(&integer.to_le_bytes()[..SIZE]);
}

// Writes the integers of cells, `n` bytes each, into a buffer of exactly that size.
fn put_integers<const SIZE: usize>(values: &mut [u8], cells: &[ValueRef<'_>])
    requires size { SIZE ≤ 16 }
    requires few { SIZE * length cells.now < 18446744073709551616 }
    requires room { length values.old ≡ SIZE * length cells.now }
    ensures { values.new ≡ flat_map (low_bytes_of SIZE) (map borrowed_cell cells.now) }
{
    for i in 0..cells.len() {
        let at = SIZE * i;
        let integer = integer_at(cells, i);
        put_integer::<SIZE>(values, at, integer);
    }
}

// The same, by a loop for each width.
fn put_integers_by_width(values: &mut [u8], width: BitWidth, cells: &[ValueRef<'_>])
    requires few { bits_of width / 8 * length cells.now < 18446744073709551616 }
    requires room { length values.old ≡ bits_of width / 8 * length cells.now }
    ensures { values.new ≡ flat_map (low_bytes_of (bits_of width / 8)) (map borrowed_cell cells.now) }
{
    match width {
        BitWidth::Eight => put_integers::<1>(values, cells),
        BitWidth::Sixteen => put_integers::<2>(values, cells),
        BitWidth::ThirtyTwo => put_integers::<4>(values, cells),
        BitWidth::SixtyFour => put_integers::<8>(values, cells),
    }
}

// The same, into a new buffer. More than 2^64 bytes are refused, since no memory has room for them.
fn low_values(alloc: Global, width: BitWidth, cells: &[ValueRef<'_>]) -> Result<Vec<u8>, AllocError>
    ensures { IfOk result (λ bytes. bytes.items ≡ flat_map (low_bytes_of (bits_of width / 8)) (map borrowed_cell cells.now)) }
{
    match width.bytes().checked_mul(cells.len()) {
        Some(size) => {
            let mut values = vec![in alloc; 0; size]?;
            put_integers_by_width(values.as_mut_slice(), width, cells);
            Ok(values)
        }
        None => Err(AllocError),
    }
}

/// Makes the values of integers of a type, with zeros for nulls; those of dates and timestamps are signed integers.
pub(crate) fn integer_values(
    alloc: Global,
    integer: IntegerType,
    cells: &[ValueRef<'_>],
) -> Result<Vec<u8>, AllocError>
    requires { are_nulls_or_fit (integers (bits_of integer.width) integer.signed) (map borrowed_cell cells.now) ≡ true }
    ensures { IfOk result (λ bytes. bytes.items ≡ flat_map (integer_bytes (bits_of integer.width / 8)) (map borrowed_cell cells.now)) }
{
    let values = low_values(alloc, integer.width, cells)?;
    Ok(values)
}
