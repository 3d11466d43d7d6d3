// Compares integers in the bytes of the arrays of record batches, without borrowing a value.
ghost use Rattle.std.specs.Prelude.{◌≡◌, ◌≤◌, ◌<◌, ◌+◌, ◌*◌, ◌/◌, ◌-ℤ◌, ◌++◌, pos, true, nat_lt, length, map, IfOk, IfSome, OnOk, if◌then◌else◌};
ghost use Rattle.std.specs.List.{range_with_len};
ghost use Rattle.byteorder.specs.Endian.{little_number, twos_complement};
ghost use Rattle.arrow_schema.specs.View.{kind_of, column_of, bits_of};
ghost use Rattle.columns.specs.CellAt.{number_at as plain_number_at, integer_at};
ghost use Rattle.columns.specs.View.{view_array};
ghost use Rattle.query.specs.inner.BoundView.{bound_in};
ghost use Rattle.query.specs.inner.Slots.{width_of, IsIntegerKind, IsIntegerColumn, IsIntegerComparison, integer_holds_in, integer_holds_at, has_integers};

use crate::blocks::{answers_of_block, slots_in_block, valid_slots};
use crate::bound::{Bound, Predicate, field_at};
use crate::operator::{Operator, accepts};
use crate::order_answers::OrderAnswers;
use crate::validity::is_valid;
use arrow_schema::{BitWidth, DataType, Field, IntegerType};
use bitmap::MaskBuilder;
use byteorder::{ByteOrder, LittleEndian};
use cells::Value;
use columns::{ArrayView, date_integer, least_negative, timestamp_integer};
use std::alloc::AllocError;

/// A comparison with the integers of the column at a place.
#[derive(Clone, Copy)]
pub(crate) struct IntegerComparison {
    pub(crate) place: usize,
    integer: IntegerType,
    operator: Operator,
    literal: i128,
}

// Returns the type of the integers that the values of a type are.
#[tactic(auto, unfolding(columns::specs::CellAt::kind_cell))]
fn integer_of(data_type: &DataType) -> Option<IntegerType>
    ensures { IfSome result (λ t. IsIntegerKind (kind_of data_type.now) t) }
{
    match data_type {
        DataType::Int(integer) => Some(*integer),
        DataType::Date(unit) => Some(date_integer(*unit)),
        DataType::Timestamp(_, _) => Some(timestamp_integer()),
        _ => None,
    }
}

/// Returns the type of the integers that the values of a field without a dictionary are.
pub(crate) fn field_integer(field: &Field) -> Option<IntegerType>
    ensures { IfSome result (λ t. IsIntegerColumn (column_of field.now) t) }
{
    match field.dictionary {
        None => integer_of(&field.data_type),
        Some(_) => None,
    }
}

/// Returns the comparison that a condition is, if its column has integers and no dictionary.
pub(crate) fn integer_comparison_of(fields: &[Field], bound: &Bound) -> Option<IntegerComparison>
    ensures { IfSome result (λ c. IsIntegerComparison (map column_of fields.now) (bound_in bound.now) c) }
{
    let field = field_at(fields, bound.place)?;
    let integer = field_integer(field)?;
    match &bound.predicate {
        Predicate::Compares(operator, Value::Int(literal)) => Some(IntegerComparison {
            place: bound.place,
            integer,
            operator: *operator,
            literal: *literal,
        }),
        _ => None,
    }
}

fn first_number(width: BitWidth, bytes: &[u8]) -> u64
    requires { bits_of width / 8 ≤ length bytes.now }
    ensures { result ≡ little_number (bits_of width / 8) bytes.now }
{
    match width {
        BitWidth::Eight => u64::from(bytes[0]),
        BitWidth::Sixteen => u64::from(LittleEndian::read_u16(bytes)),
        BitWidth::ThirtyTwo => u64::from(LittleEndian::read_u32(bytes)),
        BitWidth::SixtyFour => LittleEndian::read_u64(bytes),
    }
}

// The upper half of all numbers is negative.
fn folded(number: u64, half: u64) -> i128
    ensures { result ≡ (if nat_lt number half then pos number else pos number -ℤ pos (2 * half)) }
{
    if number < half {
        i128::from(number)
    } else {
        i128::from(number) - 2 * i128::from(half)
    }
}

fn signed_number(width: BitWidth, number: u64) -> i128
    ensures { result ≡ twos_complement (bits_of width / 8) number }
{
    folded(number, least_negative(width))
}

/// Returns the number at a slot, without a sign.
pub(crate) fn unsigned_at(width: BitWidth, values: &[u8], i: usize) -> u64
    requires { (i + 1) * (bits_of width / 8) ≤ length values.now }
    ensures { result ≡ plain_number_at (bits_of width / 8) values.now i }
{
    let start = i * width.bytes();
    first_number(width, &values[start..])
}

/// Returns the integer at a slot.
pub(crate) fn number_at(integer: IntegerType, values: &[u8], i: usize) -> i128
    requires { (i + 1) * width_of integer ≤ length values.now }
    ensures { result ≡ integer_at (width_of integer) integer.signed values.now i }
{
    let number = unsigned_at(integer.width, values, i);
    if integer.signed {
        signed_number(integer.width, number)
    } else {
        i128::from(number)
    }
}

impl IntegerComparison {
    // Returns whether the comparison holds for a slot, which it never does for a null.
    fn holds(self, validity: &[u8], values: &[u8], i: usize) -> bool
        requires valid { 0 < length validity.now → i < 8 * length validity.now }
        requires long { (i + 1) * width_of self.integer ≤ length values.now }
        ensures { result ≡ integer_holds_in self validity.now values.now i }
    {
        if !is_valid(validity, i) {
            return false;
        }
        let number = number_at(self.integer, values, i);
        accepts(self.operator, number.cmp(&self.literal))
    }

    // Appends whether the comparison holds for the slots of whole blocks, and returns the number of these slots.
    fn push_blocks(
        self,
        flags: &mut MaskBuilder,
        validity: &[u8],
        values: &[u8],
        rows: usize,
    ) -> Result<usize, AllocError>
        requires valid { 0 < length validity.now → rows ≤ 8 * length validity.now }
        requires long { rows * width_of self.integer ≤ length values.now }
        ensures within { IfOk result (λ n. n ≤ rows) }
        ensures flags { IfOk result (λ n. flags.new ≡ flags.old ++ map (integer_holds_in self validity.now values.now) (range_with_len 0 n)) }
    {
        let width = self.integer.width;
        let by_order = OrderAnswers::of(self.integer, self.operator, self.literal);
        let slots = slots_in_block(width);
        let blocks = rows / slots;
        for block in 0..blocks {
            let first = slots * block;
            let answers = answers_of_block(width, by_order, values, first);
            flags.push_word(answers & valid_slots(validity, first, slots), slots)?;
        }
        Ok(slots * blocks)
    }

    /// Appends whether the comparison holds for each of the first slots: block by block, and the rest one by one.
    pub(crate) fn push_slots(
        self,
        flags: &mut MaskBuilder,
        view: ArrayView<'_>,
        rows: usize,
    ) -> Result<(), AllocError>
        requires { has_integers self.integer rows (view_array view) ≡ true }
        ensures { OnOk result (flags.new ≡ flags.old ++ map (integer_holds_at self (view_array view.entry)) (range_with_len 0 rows)) }
    {
        let validity = view.validity();
        let values = view.values();
        let begun = self.push_blocks(flags, validity, values, rows)?;
        for i in begun..rows {
            flags.push_word(u64::from(self.holds(validity, values, i)), 1)?;
        }
        Ok(())
    }
}
