// Records without quotes, read in place: no byte of a field is copied before it goes into its column (RFC 4180, section 2).
ghost use Rattle.std.specs.Prelude.{◌≡◌, ◌<◌, ◌≤◌, [], ◌∷◌, ℕ, List, length, drop, IfOk, IfSome};
ghost use Rattle.csv.specs.Reading.{is_bom, strip_bom};
ghost use Rattle.csv.specs.declared.parser.State.TheVariants as st;
ghost use Rattle.arrow_schema.specs.View.{schema_of};
ghost use Rattle.text_import.specs.Records.{record_row, records_of};
ghost use Rattle.text_import.specs.Rows.{rows_from};
ghost use Rattle.text_import.specs.Stands.{Left};
ghost use Rattle.text_columns.specs.inner.Batches.{AddsRow, HasRows, HoldRows};
ghost use Rattle.text_columns.specs.inner.Plain.{IsFieldAt, PushesField, PushesPlain, SkipsEnds, SkipsHeader, begins_quoted, begins_with, ends_field, ends_line};
ghost use Rattle.text_import.specs.FieldForm.{field_form};

use crate::ascii_texts::text_field;
use crate::batches::Batches;
use crate::builder::ColumnBuilder;
use arrow_schema::Schema;
use cells::{MAX_ROW_WEIGHT, MAX_TABLE_WEIGHT};
use std::alloc::{AllocError, Global};
use text_import::FieldForm;

/// Where a record ends, with its line end, and the weight of its row.
#[derive(Clone, Copy)]
pub(crate) struct PlainRow {
    pub(crate) next: usize,
    pub(crate) weight: u64,
}

/// Where a field ends, and the weight of its cell.
#[derive(Clone, Copy)]
pub(crate) struct PlainField {
    pub(crate) end: usize,
    pub(crate) weight: u64,
}

fn ends_line(byte: u8) -> bool
    ensures { result ≡ ends_line byte }
{
    byte == b'\r' || byte == b'\n'
}

pub(crate) fn ends_field(byte: u8) -> bool
    ensures { result ≡ ends_field byte }
{
    byte == b',' || ends_line(byte)
}

fn is_mark(a: u8, b: u8, c: u8) -> bool
    ensures { result ≡ is_bom a b c }
{
    a == 0xef && b == 0xbb && c == 0xbf
}

// Returns where the byte order mark of a text ends, or 0 if it has none.
fn behind_mark(text: &[u8]) -> usize
    ensures within { result ≤ length text.now }
    ensures rest { drop result text.now ≡ strip_bom text.now }
{
    if text.len() < 3 {
        return 0;
    }
    if is_mark(text[0], text[1], text[2]) {
        return 3;
    }
    0
}

// Returns the first place from `from` on where no line ends.
fn skip_ends(text: &[u8], from: usize) -> usize
    requires { from ≤ length text.now }
    ensures { SkipsEnds text.now from result }
{
    for i in from..text.len() {
        if !ends_line(text[i]) {
            return i;
        }
    }
    text.len()
}

// Returns where the record after the header at `from` begins; `None` if the header has a quote, or no line end.
fn skip_header(text: &[u8], from: usize) -> Option<usize>
    requires { from ≤ length text.now }
    ensures { IfSome result (λ next. SkipsHeader text.now from next) }
{
    for i in from..text.len() {
        if ends_line(text[i]) {
            return Some(i + 1);
        }
        if text[i] == b'"' {
            return None;
        }
    }
    None
}

// Returns where the field at `from` ends.
fn field_end(text: &[u8], from: usize) -> usize
    requires { from ≤ length text.now }
    ensures { IsFieldAt text.now from result }
{
    for i in from..text.len() {
        if ends_field(text[i]) {
            return i;
        }
    }
    text.len()
}

// Returns whether there is a quote at `at`.
fn is_quoted(text: &[u8], at: usize) -> bool
    requires { at ≤ length text.now }
    ensures { result ≡ begins_quoted (drop at text.now) }
{
    at < text.len() && text[at] == b'"'
}

// Returns whether another field follows one that ends at `end`.
fn goes_on(text: &[u8], end: usize) -> bool
    requires { end ≤ length text.now }
    ensures { result ≡ begins_with 44 (drop end text.now) }
{
    end < text.len() && text[end] == b','
}

// Returns where the next record begins, after one whose last field ends at `end`.
fn behind_line(text: &[u8], end: usize) -> usize
    requires { end ≤ length text.now }
    ensures within { result ≤ length text.now }
    ensures rest { drop result text.now ≡ drop 1 (drop end text.now) }
{
    if end < text.len() { end + 1 } else { end }
}

// Appends the cell of the field at `from`, and returns its end and weight; `None` if the field is no cell of the column, or begins with a quote. It is read
// twice: for its end, and for its cell.
fn push_any_field(
    builder: &mut ColumnBuilder,
    form: &FieldForm<'_>,
    text: &[u8],
    from: usize,
) -> Result<Option<PlainField>, AllocError>
    requires { from ≤ length text.now }
    ensures { IfOk result (λ taken. IfSome taken (λ field. PushesField text.now (field_form form.now) from field builder.old builder.new)) }
{
    if is_quoted(text, from) {
        return Ok(None);
    }
    let end = field_end(text, from);
    match builder.push_field(form, &text[from..end])? {
        Some(weight) => Ok(Some(PlainField { end, weight })),
        None => Ok(None),
    }
}

// Appends the cell of the field at `from` to a column of strings, and returns its end and weight; `None` if the field is no cell of the column, or begins
// with a quote. ASCII is read once.
fn push_text_field(
    builder: &mut ColumnBuilder,
    form: &FieldForm<'_>,
    text: &[u8],
    from: usize,
) -> Result<Option<PlainField>, AllocError>
    requires { from ≤ length text.now }
    ensures { IfOk result (λ taken. IfSome taken (λ field. PushesField text.now (field_form form.now) from field builder.old builder.new)) }
{
    let field = text_field(text, from);
    if field.bits >= 128 || is_quoted(text, from) {
        return push_any_field(builder, form, text, from);
    }
    let end = field.end;
    match builder.push_utf8(form, &text[from..end])? {
        Some(weight) => Ok(Some(PlainField { end, weight })),
        None => Ok(None),
    }
}

// Appends the cell of the field at `from`, and returns its end and weight; `None` if the field is no cell of the column, or begins with a quote. A short
// integer and ASCII are read once.
fn push_plain_field(
    builder: &mut ColumnBuilder,
    form: &FieldForm<'_>,
    text: &[u8],
    from: usize,
) -> Result<Option<PlainField>, AllocError>
    requires { from ≤ length text.now }
    ensures { IfOk result (λ taken. IfSome taken (λ field. PushesField text.now (field_form form.now) from field builder.old builder.new)) }
{
    if builder.has_texts() {
        return push_text_field(builder, form, text, from);
    }
    let Some(short) = builder.short_integer(form.dates, text, from) else {
        return push_any_field(builder, form, text, from);
    };
    let end = short.end;
    match builder.push_short(form, &text[from..end], short)? {
        Some(weight) => Ok(Some(PlainField { end, weight })),
        None => Ok(None),
    }
}

// Appends the cells of the record at `from`, and returns its end and weight; `None` if it is no row of the columns, or a field begins with a quote.
#[inline(never)]
fn push_plain(
    builders: &mut [ColumnBuilder],
    form: &FieldForm<'_>,
    text: &[u8],
    from: usize,
) -> Result<Option<PlainRow>, AllocError>
    requires { from ≤ length text.now }
    ensures few { IfOk result (λ taken. IfSome taken (λ row. row.weight ≤ MAX_ROW_WEIGHT)) }
    ensures pushed { IfOk result (λ taken. IfSome taken (λ row. PushesPlain text.now (field_form form.now) from row builders.old builders.new)) }
{
    let mut at = from;
    let mut weight = 1;
    for i in 0..builders.len() {
        let builder = &mut builders[i];
        let Some(field) = push_plain_field(builder, form, text, at)? else {
            return Ok(None);
        };
        let cell_weight = field.weight;
        if cell_weight > MAX_ROW_WEIGHT - weight {
            return Ok(None);
        }
        weight += cell_weight;
        let end = field.end;
        if !goes_on(text, end) {
            if i + 1 < builders.len() {
                return Ok(None);
            }
            let next = behind_line(text, end);
            return Ok(Some(PlainRow { next, weight }));
        }
        at = end + 1;
    }
    Ok(None)
}

// Adds the record at `from` to the record batch that is being read, and returns its end and weight; `None` if it is no row of the columns, or a field
// begins with a quote.
fn push_plain_row(
    batches: &mut Batches,
    form: &FieldForm<'_>,
    text: &[u8],
    from: usize,
) -> Result<Option<PlainRow>, AllocError>
    requires { from ≤ length text.now }
    ensures few { IfOk result (λ taken. IfSome taken (λ row. row.weight ≤ MAX_ROW_WEIGHT)) }
    ensures pushed { IfOk result (λ taken. IfSome taken (λ row.
        PushesPlain text.now (field_form form.now) from row batches.old.builders.items batches.new.builders.items)) }
    ensures adds { IfOk result (λ taken. IfSome taken (λ row. AddsRow batches.old batches.new)) }
{
    batches.count_row()?;
    push_plain(batches.builders.as_mut_slice(), form, text, from)
}

// Appends the rows of the records from `from` on, and returns their weight; `None` if one is no row of the columns or has a field that begins with a quote,
// if a dictionary is full, or if they are too heavy for a table.
fn push_plain_rows(
    alloc: Global,
    schema: &Schema,
    batches: &mut Batches,
    ends: bool,
    form: &FieldForm<'_>,
    text: &[u8],
    from: usize,
) -> Result<Option<u64>, AllocError>
    requires { from ≤ length text.now }
    ensures { IfOk result (λ read. IfSome read (λ weight. (records : List (List (List ℕ)))
        → Left records st.StartRecord (drop from text.now) → HoldRows (schema_of schema.now) [] batches.old
        → HasRows (schema_of schema.now) (rows_from (record_row (schema_of schema.now) (field_form form.now)) 1 records) weight batches.new)) }
{
    let mut at = from;
    let mut weight = 0;
    for rows in 0..usize::MAX {
        let start = skip_ends(text, at);
        if start == text.len() {
            return Ok(Some(weight));
        }
        if !batches.make_room(alloc, schema, ends)? {
            return Ok(None);
        }
        let Some(row) = push_plain_row(batches, form, text, start)? else {
            return Ok(None);
        };
        if row.weight > MAX_TABLE_WEIGHT - weight {
            return Ok(None);
        }
        weight += row.weight;
        at = row.next;
    }
    Ok(None)
}

/// Appends the rows of a text whose header was tested, and returns their weight; `None` if the header has a quote, if a record is no row of the columns or
/// has a field that begins with a quote, if a dictionary is full, or if the rows are too heavy for a table. `ends` is whether a record batch ends if a
/// dictionary is full.
pub(crate) fn push_plain_text(
    alloc: Global,
    schema: &Schema,
    batches: &mut Batches,
    ends: bool,
    form: &FieldForm<'_>,
    text: &[u8],
) -> Result<Option<u64>, AllocError>
    ensures { IfOk result (λ read. IfSome read (λ weight. (header : List (List ℕ)) (records : List (List (List ℕ)))
        → records_of text.now ≡ header ∷ records → HoldRows (schema_of schema.now) [] batches.old
        → HasRows (schema_of schema.now) (rows_from (record_row (schema_of schema.now) (field_form form.now)) 1 records) weight batches.new)) }
{
    let header = skip_ends(text, behind_mark(text));
    let Some(from) = skip_header(text, header) else {
        return Ok(None);
    };
    let read = push_plain_rows(alloc, schema, batches, ends, form, text, from)?;
    Ok(read)
}
