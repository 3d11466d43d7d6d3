// Compares strings and binaries in the bytes of the arrays of record batches, without borrowing a value.
ghost use Rattle.std.specs.Prelude.{◌≡◌, ◌≤◌, ◌<◌, ◌+◌, ◌*◌, ◌/◌, ◌++◌, true, length, map, IfSome, OnOk};
ghost use Rattle.std.specs.Cmp.Lexicographic.{slice_cmp};
ghost use Rattle.std.specs.List.{range_with_len};
ghost use Rattle.std.specs.Ordering.{nat_cmp};
ghost use Rattle.std.specs.Simd.Lanes.{mask_l};
ghost use Rattle.arrow_schema.specs.View.{kind_of, column_of, bits_of};
ghost use Rattle.cells.specs.View.{cell};
ghost use Rattle.columns.specs.View.{view_array};
ghost use Rattle.query.specs.Bound.{accepts};
ghost use Rattle.query.specs.inner.BoundView.{bound_in};
ghost use Rattle.query.specs.inner.Contents.{IsContentsKind, IsContentsColumn, IsContentsComparison, contents_hold_in, contents_hold_at, has_contents};

use crate::bound::{Bound, Predicate, field_at};
use crate::first_bytes::first_bytes;
use crate::operator::{Operator, accepts};
use crate::validity::is_valid;
use arrow_schema::{BitWidth, DataType, Field};
use bitmap::MaskBuilder;
use cells::Value;
use columns::ArrayView;
use std::alloc::AllocError;

/// A comparison with the strings or binaries of the column at a place, with offsets of a width.
#[derive(Clone, Copy)]
pub(crate) struct ContentsComparison<'a> {
    pub(crate) place: usize,
    width: BitWidth,
    operator: Operator,
    literal: &'a [u8],
}

// The bytes of a literal, and the width of the offsets of the values that it is compared with.
#[derive(Clone, Copy)]
pub(crate) struct ContentsLiteral<'a> {
    width: BitWidth,
    bytes: &'a [u8],
}

// Returns the bytes of a literal that values of a type are compared with.
fn literal_of<'a>(data_type: &DataType, literal: &'a Value) -> Option<ContentsLiteral<'a>>
    ensures { IfSome result (λ l. IsContentsKind (kind_of data_type.now) l.width (cell literal.now) l.bytes.now) }
{
    match (data_type, literal) {
        (DataType::Utf8, Value::Text(text)) => Some(ContentsLiteral {
            width: BitWidth::ThirtyTwo,
            bytes: text.as_bytes(),
        }),
        (DataType::LargeUtf8, Value::Text(text)) => Some(ContentsLiteral {
            width: BitWidth::SixtyFour,
            bytes: text.as_bytes(),
        }),
        (DataType::Binary, Value::Bytes(bytes)) => Some(ContentsLiteral {
            width: BitWidth::ThirtyTwo,
            bytes: bytes.as_slice(),
        }),
        (DataType::LargeBinary, Value::Bytes(bytes)) => Some(ContentsLiteral {
            width: BitWidth::SixtyFour,
            bytes: bytes.as_slice(),
        }),
        _ => None,
    }
}

// `literal_of` for a field without a dictionary.
fn field_literal<'a>(field: &Field, literal: &'a Value) -> Option<ContentsLiteral<'a>>
    ensures { IfSome result (λ l. IsContentsColumn (column_of field.now) l.width (cell literal.now) l.bytes.now) }
{
    match field.dictionary {
        None => literal_of(&field.data_type, literal),
        Some(_) => None,
    }
}

/// Returns the comparison that a condition is, if its column has strings or binaries and no dictionary.
pub(crate) fn contents_comparison_of<'a>(
    fields: &[Field],
    bound: &'a Bound,
) -> Option<ContentsComparison<'a>>
    ensures { IfSome result (λ c. IsContentsComparison (map column_of fields.now) (bound_in bound.now) c) }
{
    let field = field_at(fields, bound.place)?;
    match &bound.predicate {
        Predicate::Compares(operator, literal) => {
            let literal = field_literal(field, literal)?;
            Some(ContentsComparison {
                place: bound.place,
                width: literal.width,
                operator: *operator,
                literal: literal.bytes,
            })
        }
        _ => None,
    }
}

impl ContentsComparison<'_> {
    // Returns whether the comparison holds for these bytes. Where only equality matters, lengths are compared first.
    #[inline]
    fn accepts(self, bytes: &[u8]) -> bool
        ensures { result ≡ accepts self.entry.operator (slice_cmp nat_cmp bytes.now self.entry.literal.now) }
    {
        match self.operator {
            Operator::Equal => bytes == self.literal,
            Operator::NotEqual => bytes != self.literal,
            operator => accepts(operator, bytes.cmp(self.literal)),
        }
    }

    // Returns whether the comparison holds for a slot, which it never does for a null.
    #[inline]
    fn holds(self, validity: &[u8], offsets: &[u8], contents: &[u8], i: usize) -> bool
        requires valid { 0 < length validity.now → i < 8 * length validity.now }
        requires long { (i + 2) * (bits_of self.width / 8) ≤ length offsets.now }
        ensures { result ≡ contents_hold_in self.entry validity.now offsets.now contents.now i }
    {
        if !is_valid(validity, i) {
            return false;
        }
        let own = first_bytes(self.width, offsets, contents, i);
        self.accepts(&own.bytes[..own.size])
    }

    // Returns the answers for `count` slots from `first` on, a bit each.
    fn answers(
        self,
        validity: &[u8],
        offsets: &[u8],
        contents: &[u8],
        first: usize,
        count: usize,
    ) -> u64
        requires count { count ≤ 64 }
        requires valid { 0 < length validity.now → first + count ≤ 8 * length validity.now }
        requires long { 0 < count → (first + count + 1) * (bits_of self.width / 8) ≤ length offsets.now }
        ensures { result ≡ mask_l (map (contents_hold_in self.entry validity.now offsets.now contents.now) (range_with_len first count)) }
    {
        let mut answers = 0;
        for j in (0..count).rev() {
            let holds = self.holds(validity, offsets, contents, first + j);
            answers = 2 * answers + u64::from(holds);
        }
        answers
    }

    /// Appends whether the comparison holds for each of the first slots, 64 at a time.
    pub(crate) fn push_slots(
        self,
        flags: &mut MaskBuilder,
        view: ArrayView<'_>,
        rows: usize,
    ) -> Result<(), AllocError>
        requires { has_contents (bits_of self.width / 8) rows (view_array view) ≡ true }
        ensures { OnOk result (flags.new ≡ flags.old ++ map (contents_hold_at self.entry (view_array view.entry)) (range_with_len 0 rows)) }
    {
        let validity = view.validity();
        let offsets = view.offsets();
        let contents = view.contents();
        let mut first = 0;
        while first < rows {
            let count = (rows - first).min(64);
            let answers = self.answers(validity, offsets, contents, first, count);
            flags.push_word(answers, count)?;
            first += count;
        }
        Ok(())
    }
}
