// The columns of a batch for printing: what depends on a field and its array is found once for all slots.
ghost use Rattle.std.specs.Prelude.{◌≡◌, ◌+◌, ◌*◌, ◌/◌, ◌<◌, ◌≤◌, length, take, IfOk, IfSome, if◌then◌else◌};
ghost use Rattle.arrow_schema.specs.View.{bits_of, kind_of, column_of};
ghost use Rattle.cells.specs.Cell.{null, number};
ghost use Rattle.columns.specs.CellAt.{integer_at};
ghost use Rattle.columns.specs.View.{view_array, IsNoArray};
ghost use Rattle.query.specs.inner.ColumnSlots.{IsTextKind, IsTextColumn, IsPlainText, AreBuffers, array_at, IsColumn, AreColumns};
ghost use Rattle.query.specs.inner.Slots.{IsIntegerColumn, is_valid_in, number_or_null, width_of};

use crate::batch_arrays::BatchArrays;
use crate::first_bytes::{FirstBytes, first_bytes};
use crate::integer_slots::{field_integer, number_at};
use crate::plain_text::are_plain;
use crate::shown::dated;
use crate::validity::is_valid;
use arrow_schema::{BitWidth, DataType, Field, IntegerType};
use civil_days::{DateColumn, DateForm};
use columns::{ArrayView, PlacedArray, array_or};
use std::alloc::{AllocError, Global};

/// The buffers of integers.
#[derive(Clone, Copy)]
pub(crate) struct IntegerBuffers<'a> {
    integer: IntegerType,
    validity: &'a [u8],
    values: &'a [u8],
}

/// The buffers of strings, with offsets of a width.
#[derive(Clone, Copy)]
pub(crate) struct TextBuffers<'a> {
    width: BitWidth,
    validity: &'a [u8],
    offsets: &'a [u8],
    contents: &'a [u8],
}

/// The buffers that the values of a column are printed from, if they need not be borrowed. Dates are integers that stand in the lines as texts.
#[derive(Clone, Copy)]
pub(crate) enum Buffers<'a> {
    Integers(IntegerBuffers<'a>),
    Dates(DateColumn, IntegerBuffers<'a>),
    Texts(TextBuffers<'a>),
    Others,
}

/// A column of a batch.
#[derive(Clone, Copy)]
pub(crate) struct ColumnSlots<'a> {
    pub(crate) field: &'a Field,
    pub(crate) view: ArrayView<'a>,
    pub(crate) buffers: Buffers<'a>,
}

// Returns the width of the offsets of a type's strings.
#[tactic(auto, unfolding(columns::specs::CellAt::kind_cell))]
fn text_width(data_type: &DataType) -> Option<BitWidth>
    ensures { IfSome result (λ w. IsTextKind (kind_of data_type.now) (bits_of w / 8)) }
{
    match data_type {
        DataType::Utf8 => Some(BitWidth::ThirtyTwo),
        DataType::LargeUtf8 => Some(BitWidth::SixtyFour),
        _ => None,
    }
}

// `text_width` for a field without a dictionary.
fn field_text_width(field: &Field) -> Option<BitWidth>
    ensures { IfSome result (λ w. IsTextColumn (column_of field.now) (bits_of w / 8)) }
{
    match field.dictionary {
        None => text_width(&field.data_type),
        Some(_) => None,
    }
}

fn text_buffers<'a>(dates: DateForm, field: &Field, view: ArrayView<'a>) -> Buffers<'a>
    ensures { AreBuffers dates (column_of field.now) (view_array view.entry) result }
{
    match field_text_width(field) {
        Some(width) => Buffers::Texts(TextBuffers {
            width,
            validity: view.validity(),
            offsets: view.offsets(),
            contents: view.contents(),
        }),
        None => Buffers::Others,
    }
}

// Returns the buffers of a column of these integers.
fn number_buffers<'a>(
    dates: DateForm,
    field: &Field,
    integer: IntegerType,
    view: ArrayView<'a>,
) -> Buffers<'a>
    requires { IsIntegerColumn (column_of field.now) integer }
    ensures { AreBuffers dates (column_of field.now) (view_array view.entry) result }
{
    let buffers = IntegerBuffers {
        integer,
        validity: view.validity(),
        values: view.values(),
    };
    match dated(dates, &field.data_type) {
        Some(column) => Buffers::Dates(column, buffers),
        None => Buffers::Integers(buffers),
    }
}

fn buffers_of<'a>(dates: DateForm, field: &Field, view: ArrayView<'a>) -> Buffers<'a>
    ensures { AreBuffers dates (column_of field.now) (view_array view.entry) result }
{
    match field_integer(field) {
        Some(integer) => number_buffers(dates, field, integer, view),
        None => text_buffers(dates, field, view),
    }
}

fn column_at<'a>(
    dates: DateForm,
    field: &'a Field,
    batch: BatchArrays<'a>,
    none: &'a PlacedArray,
    place: usize,
) -> ColumnSlots<'a>
    requires { IsNoArray none.now }
    ensures { IsColumn dates field.now (array_at place batch.entry) result }
{
    let view = ArrayView {
        array: array_or(batch.arrays, place, none),
        bytes: batch.bytes,
        dictionaries: batch.dictionaries,
    };
    ColumnSlots {
        field,
        view,
        buffers: buffers_of(dates, field, view),
    }
}

/// Returns the columns of a batch, for printing dates in this form.
pub(crate) fn columns_of<'a>(
    alloc: Global,
    dates: DateForm,
    fields: &'a [Field],
    batch: BatchArrays<'a>,
    none: &'a PlacedArray,
) -> Result<Vec<ColumnSlots<'a>>, AllocError>
    requires { IsNoArray none.now }
    ensures { IfOk result (λ columns. AreColumns dates batch.entry 0 fields.now columns.items) }
{
    let mut columns = Vec::with_capacity(alloc, fields.len())?;
    for place in 0..fields.len() {
        columns.push_reserved(column_at(dates, &fields[place], batch, none, place));
    }
    Ok(columns)
}

impl IntegerBuffers<'_> {
    /// Returns the number at a slot, unless it is null.
    #[inline]
    pub(crate) fn number(self, slot: usize) -> Option<i128>
        requires valid { 0 < length self.validity.now → slot < 8 * length self.validity.now }
        requires long { (slot + 1) * width_of self.integer ≤ length self.values.now }
        ensures { number_or_null result ≡ (if is_valid_in self.entry.validity.now slot
            then number (integer_at (width_of self.entry.integer) self.entry.integer.signed self.entry.values.now slot) else null) }
    {
        if is_valid(self.validity, slot) {
            Some(number_at(self.integer, self.values, slot))
        } else {
            None
        }
    }
}

impl<'a> TextBuffers<'a> {
    /// Returns the bytes of the string at a slot, unless it is null or has a byte to be escaped.
    #[inline]
    pub(crate) fn plain_text(self, slot: usize) -> Option<FirstBytes<'a>>
        requires valid { 0 < length self.validity.now → slot < 8 * length self.validity.now }
        requires long { (slot + 2) * (bits_of self.width / 8) ≤ length self.offsets.now }
        ensures within { IfSome result (λ t. t.size ≤ length t.bytes.now) }
        ensures text { IfSome result (λ t. IsPlainText self.entry slot (take t.size t.bytes.now)) }
    {
        if !is_valid(self.validity, slot) {
            return None;
        }
        let text = first_bytes(self.width, self.offsets, self.contents, slot);
        if are_plain(&text.bytes[..text.size]) {
            Some(text)
        } else {
            None
        }
    }
}
