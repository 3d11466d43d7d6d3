// Lines of JSON, member by member into the buffers of their columns.
ghost use Rattle.std.specs.Prelude.{◌≡◌, ◌≤◌, ◌<◌, ℕ, List, [], ◌∷◌, false, Some, IfOk, IfSome};
ghost use Rattle.arrow_schema.specs.Column.{columns_of};
ghost use Rattle.arrow_schema.specs.View.{schema_of};
ghost use Rattle.json.specs.Token as tokens;
ghost use Rattle.text_import.specs.inner.Lines.{lines_left, size_left};
ghost use Rattle.text_import.specs.Objects.{jsonl_rows_of, names_of, repeats};
ghost use Rattle.text_columns.specs.inner.Batches.{AddsRow, HasRows, HoldRows};
ghost use Rattle.text_columns.specs.inner.Kept.{key_list};
ghost use Rattle.text_columns.specs.inner.Lines.{KeepsLine, KeepsTokens};

use crate::batches::Batches;
use crate::builder::ColumnBuilder;
use crate::line_reader::{LineReader, has_escape};
use crate::next::{ValueForm, push_fields, push_items};
use arrow_schema::Schema;
use cells::{MAX_ROW_WEIGHT, MAX_TABLE_WEIGHT};
use civil_days::DateForm;
use indexmap::IndexSet;
use json::{Scratch, Token};
use memchr::memchr;
use std::alloc::{AllocError, Global};
use text_import::is_blank;

// How deep the values of a line's object or array may nest.
const MOST_DEPTH: u32 = 126;

// The first line of a text, and what follows its line feed, if it has one.
#[derive(Clone, Copy)]
struct FirstLine<'a> {
    line: &'a str,
    behind: Option<&'a str>,
}

fn first_line<'a>(text: &'a str) -> FirstLine<'a>
    ensures line { lines_left (Some text.entry) ≡ result.line.now ∷ lines_left result.behind }
    ensures less { size_left result.behind < size_left (Some text.entry) }
{
    match memchr(b'\n', text.as_bytes()) {
        Some(end) => FirstLine {
            line: &text[..end],
            behind: Some(&text[end + 1..]),
        },
        None => FirstLine {
            line: text,
            behind: None,
        },
    }
}

// Appends the cells of the object that a reader is in, and returns the weight of its row; `None` if it is no row of the columns.
fn push_object(
    date_form: DateForm,
    names: &IndexSet<Vec<u8>>,
    order: &mut [usize],
    builders: &mut [ColumnBuilder],
    weights: &mut [Option<u64>],
    reader: &mut LineReader<'_>,
) -> Result<Option<u64>, AllocError>
    ensures few { IfOk result (λ taken. IfSome taken (λ weight. weight ≤ MAX_ROW_WEIGHT)) }
    ensures kept { IfOk result (λ taken. IfSome taken (λ weight.
        KeepsTokens date_form (key_list names.now.keys) (tokens.begin_object ∷ reader.old) weight builders.old builders.new)) }
{
    let form = ValueForm {
        depth: MOST_DEPTH,
        dates: date_form,
    };
    let Some(weight) = push_fields(names, order, builders, weights, reader, form)? else {
        return Ok(None);
    };
    if !reader.is_at_end() {
        return Ok(None);
    }
    Ok(Some(weight))
}

// Appends the cells of the array that a reader is in, and returns the weight of its row; `None` if it is no row of the columns.
fn push_array(
    date_form: DateForm,
    builders: &mut [ColumnBuilder],
    reader: &mut LineReader<'_>,
) -> Result<Option<u64>, AllocError>
    ensures few { IfOk result (λ taken. IfSome taken (λ weight. weight ≤ MAX_ROW_WEIGHT)) }
    ensures kept { IfOk result (λ taken. IfSome taken (λ weight. (names : List (List ℕ))
        → KeepsTokens date_form names (tokens.begin_array ∷ reader.old) weight builders.old builders.new)) }
{
    let form = ValueForm {
        depth: MOST_DEPTH,
        dates: date_form,
    };
    let Some(weight) = push_items(builders, reader, form)? else {
        return Ok(None);
    };
    if !reader.is_at_end() {
        return Ok(None);
    }
    Ok(Some(weight))
}

// Appends the cells of the object or array that a reader is at, and returns the weight of its row; `None` if it is no row of the columns.
fn push_value(
    date_form: DateForm,
    names: &IndexSet<Vec<u8>>,
    order: &mut [usize],
    builders: &mut [ColumnBuilder],
    weights: &mut [Option<u64>],
    reader: &mut LineReader<'_>,
) -> Result<Option<u64>, AllocError>
    ensures few { IfOk result (λ taken. IfSome taken (λ weight. weight ≤ MAX_ROW_WEIGHT)) }
    ensures kept { IfOk result (λ taken. IfSome taken (λ weight. KeepsTokens date_form (key_list names.now.keys) reader.old weight builders.old builders.new)) }
{
    match reader.next() {
        Some(Token::BeginObject) => push_object(date_form, names, order, builders, weights, reader),
        Some(Token::BeginArray) => push_array(date_form, builders, reader),
        _ => Ok(None),
    }
}

// Appends the cells of a line, and returns the weight of its row; `None` if it is no row of the columns.
fn push_line(
    date_form: DateForm,
    names: &IndexSet<Vec<u8>>,
    order: &mut [usize],
    builders: &mut [ColumnBuilder],
    weights: &mut [Option<u64>],
    scratch: &mut Scratch,
    line: &str,
    escapes: bool,
) -> Result<Option<u64>, AllocError>
    ensures few { IfOk result (λ taken. IfSome taken (λ weight. weight ≤ MAX_ROW_WEIGHT)) }
    ensures kept { IfOk result (λ taken. IfSome taken (λ weight. KeepsLine date_form (key_list names.now.keys) line.now weight builders.old builders.new)) }
{
    let mut reader = LineReader::new(line, scratch, escapes)?;
    push_value(date_form, names, order, builders, weights, &mut reader)
}

// Adds a line to the record batch that is being read, and returns the weight of its row; `None` if it is no row of the columns.
fn push_row(
    date_form: DateForm,
    names: &IndexSet<Vec<u8>>,
    order: &mut [usize],
    batches: &mut Batches,
    weights: &mut [Option<u64>],
    scratch: &mut Scratch,
    line: &str,
    escapes: bool,
) -> Result<Option<u64>, AllocError>
    ensures few { IfOk result (λ taken. IfSome taken (λ weight. weight ≤ MAX_ROW_WEIGHT)) }
    ensures kept { IfOk result (λ taken. IfSome taken (λ weight.
        KeepsLine date_form (key_list names.now.keys) line.now weight batches.old.builders.items batches.new.builders.items)) }
    ensures adds { IfOk result (λ taken. IfSome taken (λ weight. AddsRow batches.old batches.new)) }
{
    batches.count_row()?;
    let builders = batches.builders.as_mut_slice();
    push_line(
        date_form, names, order, builders, weights, scratch, line, escapes,
    )
}

/// Appends the rows of the lines of a text that are not blank, and returns their weight; `None` if a line is no row of the columns, if a dictionary is full,
/// or if the rows are too heavy for a table. `ends` is whether a record batch ends if a dictionary is full.
pub(crate) fn push_lines(
    alloc: Global,
    date_form: DateForm,
    schema: &Schema,
    names: &IndexSet<Vec<u8>>,
    text: &str,
    batches: &mut Batches,
    ends: bool,
) -> Result<Option<u64>, AllocError>
    requires { repeats (key_list names.now.keys) ≡ false }
    ensures { names_of (columns_of (schema_of schema.now).columns) ≡ key_list names.now.keys → HoldRows (schema_of schema.now) [] batches.old
        → IfOk result (λ read. IfSome read (λ weight.
        HasRows (schema_of schema.now) (jsonl_rows_of date_form (schema_of schema.now) text.now) weight batches.new)) }
{
    let mut scratch = Scratch::new(alloc);
    let mut weights = vec![in alloc; None; schema.fields.len()]?;
    let mut order = vec![in alloc; 0; schema.fields.len()]?;
    let escapes = has_escape(text);
    let mut weight = 0;
    let mut left = Some(text);
    while let Some(rest) = left {
        let FirstLine { line, behind } = first_line(rest);
        left = behind;
        if is_blank(line.as_bytes()) {
            continue;
        }
        if !batches.make_room(alloc, schema, ends)? {
            return Ok(None);
        }
        let Some(row_weight) = push_row(
            date_form,
            names,
            order.as_mut_slice(),
            batches,
            weights.as_mut_slice(),
            &mut scratch,
            line,
            escapes,
        )?
        else {
            return Ok(None);
        };
        if row_weight > MAX_TABLE_WEIGHT - weight {
            return Ok(None);
        }
        weight += row_weight;
    }
    Ok(Some(weight))
}
