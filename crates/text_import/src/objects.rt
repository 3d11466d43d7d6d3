// Reads cells and rows from JSON values.
ghost use Rattle.std.specs.Prelude.{◌≡◌, [], ◌∷◌, ◌++◌, true, false, not, map, length, option_map, IfOk, Result};
ghost use Rattle.serde_json.specs.Find.{get_member};
ghost use Rattle.serde_json.specs.View.{view, items_view, members_view};
ghost use Rattle.arrow_schema.specs.Column.{columns_of};
ghost use Rattle.arrow_schema.specs.Parts.{is_nullable_column, kind_of_column};
ghost use Rattle.arrow_schema.specs.View.{column_of, schema_of};
ghost use Rattle.civil_days.specs.declared.date_form.DateForm.TheVariants.{Iso};
ghost use Rattle.cells.specs.Cell as plain;
ghost use Rattle.cells.specs.Cell.{Cells, cells_of};
ghost use Rattle.cells.specs.View.{cell};
ghost use Rattle.cells.specs.Row.{row_of};
ghost use Rattle.cells.specs.Dictionary.{is_any_limited};
ghost use Rattle.text_import.specs.declared.refusal.Refusal.{Refusal};
ghost use Rattle.text_import.specs.Refusals.{given, refusal_of};
ghost use Rattle.facts.specs.Outcomes.{Gives};
ghost use Rattle.text_import.specs.Objects.{boolean_in, number_in, dated_in, text_in, bytes_in, list_in, each_item, fixed_list_in, cell_in, kind_in, cells_by_place, cells_by_name, cells_in, absent, sized, column_count, has_name, names_of, keys_of, repeats, has_unknown, value_row};
ghost use Rattle.facts.specs.Texts.{text_list};
ghost use Rattle.text_import.specs.ValuePart.{first_repeated, first_unknown};
ghost use Rattle.text_import.specs.inner.Names.{IsText, member_of, tested};

use crate::flat::{hex_cell, number_cell, own_text, spelled_cell};
use crate::refusal::{CellError, Refusal};
use crate::rows::accepted;
use crate::texts::name_of;
use arrow_schema::{DataType, Field, Schema};
use cells::{Row, Value};
use civil_days::DateForm;
use indexmap::IndexSet;
use serde_json::{Map, Value as Json};
use std::alloc::{AllocError, Global};

fn boolean_in(value: &Json) -> Result<Value, CellError>
    ensures { Gives refusal_of cell result (boolean_in (view value.now)) }
{
    match value {
        Json::Bool(boolean) => Ok(Value::Bool(*boolean)),
        _ => Err(CellError::Refused(Refusal::NotABool)),
    }
}

fn number_in(field: &Field, value: &Json) -> Result<Value, CellError>
    ensures { Gives refusal_of cell result (number_in (kind_of_column (column_of field.now)) (view value.now)) }
{
    match value {
        Json::Number(number) => number_cell(field, number.as_i128()),
        _ => Err(CellError::Refused(Refusal::NotANumber)),
    }
}

// Returns the cell of the date or the time that a string spells.
fn spelled_in(field: &Field, value: &Json) -> Result<Value, CellError>
    ensures { Gives refusal_of cell result (dated_in Iso (kind_of_column (column_of field.now)) (view value.now)) }
{
    match value {
        Json::String(text) => spelled_cell(field, text.as_bytes()),
        _ => Err(CellError::Refused(Refusal::NotADate)),
    }
}

fn dated_in(date_form: DateForm, field: &Field, value: &Json) -> Result<Value, CellError>
    ensures { Gives refusal_of cell result (dated_in date_form (kind_of_column (column_of field.now)) (view value.now)) }
{
    match date_form {
        DateForm::Numbers => number_in(field, value),
        DateForm::Iso => spelled_in(field, value),
    }
}

fn text_in(alloc: Global, value: &Json) -> Result<Value, CellError>
    ensures { Gives refusal_of cell result (text_in (view value.now)) }
{
    match value {
        Json::String(text) => own_text(alloc, text.as_str()),
        _ => Err(CellError::Refused(Refusal::WrongKind)),
    }
}

fn bytes_in(alloc: Global, field: &Field, value: &Json) -> Result<Value, CellError>
    ensures { Gives refusal_of cell result (bytes_in (kind_of_column (column_of field.now)) (view value.now)) }
{
    match value {
        Json::String(text) => hex_cell(alloc, field, text.as_bytes()),
        _ => Err(CellError::Refused(Refusal::WrongKind)),
    }
}

// Adds a name, and returns whether it is new.
fn add_name<'a>(names: &mut IndexSet<&'a str>, name: &'a str) -> Result<bool, AllocError>
    ensures added { IfOk result (λ added. added ≡ not (has_name (text_list names.old.keys) name.now)) }
    ensures names { IfOk result (λ added. added ≡ true → text_list names.new.keys ≡ text_list names.old.keys ++ name.now ∷ []) }
{
    let (_, added) = names.insert_full(name)?;
    Ok(added)
}

// Adds the names of fields up to the first repeated one, and returns whether there was none.
fn add_names<'a>(names: &mut IndexSet<&'a str>, fields: &'a [Field]) -> Result<bool, AllocError>
    ensures repeated { IfOk result (λ distinct. distinct ≡ false
        → repeats (text_list names.old.keys ++ names_of (columns_of (map column_of fields.now))) ≡ true) }
    ensures added { IfOk result (λ distinct. distinct ≡ true → repeats (text_list names.old.keys) ≡ false
        → (text_list names.new.keys ≡ text_list names.old.keys ++ names_of (columns_of (map column_of fields.now)))
        × (repeats (text_list names.new.keys) ≡ false)) }
{
    for field in fields {
        if !add_name(names, name_of(field))? {
            return Ok(false);
        }
    }
    Ok(true)
}

fn has_unknown(names: &IndexSet<&str>, members: &Map<String, Json>) -> bool
    ensures { result ≡ has_unknown (text_list names.now.keys) (keys_of (members_view members.now.entries)) }
{
    for key in members.keys() {
        if !names.contains(key.as_str()) {
            return true;
        }
    }
    false
}

// Up to this number, names are compared one by one; beyond it a set is built.
const FEW_NAMES: usize = 8;

// Returns whether a field has this name.
fn has_name(fields: &[Field], name: &str) -> bool
    ensures { result ≡ has_name (names_of (columns_of (map column_of fields.now))) name.now }
{
    for field in fields {
        if name.as_bytes() == name_of(field).as_bytes() {
            return true;
        }
    }
    false
}

// Returns the first name that two fields have.
pub(crate) fn first_repeated(fields: &[Field]) -> Option<&str>
    ensures { IsText (first_repeated (names_of (columns_of (map column_of fields.now)))) result }
{
    for (i, field) in fields.iter().enumerate() {
        let name = name_of(field);
        if has_name(&fields[i + 1..], name) {
            return Some(name);
        }
    }
    None
}

// Returns whether two fields have the same name.
#[tactic(auto, using(crate::proofs::NameLemmas::repeated_found))]
fn repeat_names(fields: &[Field]) -> bool
    ensures { result ≡ repeats (names_of (columns_of (map column_of fields.now))) }
{
    first_repeated(fields).is_some()
}

// Returns the first key that is not the name of a field.
pub(crate) fn first_unknown<'a>(fields: &[Field], members: &'a Map<String, Json>) -> Option<&'a str>
    ensures { IsText (first_unknown (names_of (columns_of (map column_of fields.now))) (keys_of (members_view members.now.entries))) result }
{
    for key in members.keys() {
        let name = key.as_str();
        if !has_name(fields, name) {
            return Some(name);
        }
    }
    None
}

// Returns whether a key is not the name of a field.
#[tactic(auto, using(crate::proofs::PartLemmas::unknown_found))]
fn has_other_name(fields: &[Field], members: &Map<String, Json>) -> bool
    ensures { result ≡ has_unknown (names_of (columns_of (map column_of fields.now))) (keys_of (members_view members.now.entries)) }
{
    first_unknown(fields, members).is_some()
}

fn test_few_names(fields: &[Field], members: &Map<String, Json>) -> Result<(), CellError>
    ensures { Gives refusal_of (λ _. members_view members.now.entries) result
        (tested (names_of (columns_of (map column_of fields.now))) (members_view members.now.entries)) }
{
    if repeat_names(fields) {
        Err(CellError::Refused(Refusal::AmbiguousNames))
    } else if has_other_name(fields, members) {
        Err(CellError::Refused(Refusal::UnknownName))
    } else {
        Ok(())
    }
}

// `test_few_names` with a set of names, which is empty when it is passed in.
fn test_many_names<'a>(
    names: &mut IndexSet<&'a str>,
    fields: &'a [Field],
    members: &Map<String, Json>,
) -> Result<(), CellError>
    requires { names.old.keys ≡ [] }
    ensures { Gives refusal_of (λ _. members_view members.now.entries) result
        (tested (names_of (columns_of (map column_of fields.now))) (members_view members.now.entries)) }
{
    if !add_names(names, fields)? {
        return Err(CellError::Refused(Refusal::AmbiguousNames));
    }
    if has_unknown(names, members) {
        Err(CellError::Refused(Refusal::UnknownName))
    } else {
        Ok(())
    }
}

// Tests the names of an object's members against those of the fields.
pub(crate) fn test_names(
    alloc: Global,
    fields: &[Field],
    members: &Map<String, Json>,
) -> Result<(), CellError>
    ensures { Gives refusal_of (λ _. members_view members.now.entries) result
        (tested (names_of (columns_of (map column_of fields.now))) (members_view members.now.entries)) }
{
    if fields.len() <= FEW_NAMES {
        return test_few_names(fields, members);
    }
    let mut names = IndexSet::with_capacity(alloc, fields.len())?;
    test_many_names(&mut names, fields, members)
}

pub(crate) fn member<'a>(members: &'a Map<String, Json>, name: &str) -> Option<&'a Json>
    ensures { option_map (λ v. view v.now) result ≡ get_member name.now (members_view members.now.entries) }
{
    members.get(name)
}

// Returns the cell of a field without a member.
fn absent(field: &Field) -> Result<Value, CellError>
    ensures { Gives refusal_of cell result (absent (is_nullable_column (column_of field.now))) }
{
    if field.nullable {
        Ok(Value::Null)
    } else {
        Err(CellError::Refused(Refusal::MissingName))
    }
}

// Returns the list of the cells that were read.
fn list_cell(cells: Result<Vec<Value>, CellError>) -> Result<Value, CellError>
    ensures { (R : Result Cells Refusal) → Gives refusal_of (λ v. cells_of (map cell v.items)) cells R → Gives refusal_of cell result (given plain.items R) }
{
    match cells {
        Ok(cells) => Ok(Value::List(cells)),
        Err(error) => Err(error),
    }
}

// Returns the struct of the cells that were read.
fn struct_cell(cells: Result<Vec<Value>, CellError>) -> Result<Value, CellError>
    ensures { (R : Result Cells Refusal) → Gives refusal_of (λ v. cells_of (map cell v.items)) cells R → Gives refusal_of cell result (given plain.parts R) }
{
    match cells {
        Ok(cells) => Ok(Value::Struct(cells)),
        Err(error) => Err(error),
    }
}

#[tactic(auto, unfolding(crate::specs::Objects::cell_in))]
#[cycle(cells)]
fn cell_in(
    alloc: Global,
    date_form: DateForm,
    field: &Field,
    value: &Json,
) -> Result<Value, CellError>
    ensures { Gives refusal_of cell result (cell_in date_form (column_of field.now) (view value.now)) }
{
    match value {
        Json::Null => {
            if field.nullable {
                Ok(Value::Null)
            } else {
                Err(CellError::Refused(Refusal::NullMismatch))
            }
        }
        _ => typed_in(alloc, date_form, field, value),
    }
}

#[tactic(auto, using(arrow_schema::specs::declared::types::Field::the_lemmas), unfolding(crate::specs::Objects::kind_in))]
#[cycle(cells)]
pub(crate) fn typed_in(
    alloc: Global,
    date_form: DateForm,
    field: &Field,
    value: &Json,
) -> Result<Value, CellError>
    ensures { Gives refusal_of cell result (kind_in date_form (kind_of_column (column_of field.now)) (view value.now)) }
{
    match &field.data_type {
        DataType::Null => Err(CellError::Refused(Refusal::NullMismatch)),
        DataType::Bool => boolean_in(value),
        DataType::Int(_) => number_in(field, value),
        DataType::Date(_) => dated_in(date_form, field, value),
        DataType::Timestamp(_, _) => dated_in(date_form, field, value),
        DataType::Utf8 => text_in(alloc, value),
        DataType::LargeUtf8 => text_in(alloc, value),
        DataType::Binary => bytes_in(alloc, field, value),
        DataType::LargeBinary => bytes_in(alloc, field, value),
        DataType::FixedSizeBinary(_) => bytes_in(alloc, field, value),
        DataType::List(item) => list_in(alloc, date_form, item, value),
        DataType::LargeList(item) => list_in(alloc, date_form, item, value),
        DataType::FixedSizeList(size, item) => fixed_list_in(alloc, date_form, *size, item, value),
        DataType::Struct(fields) => struct_cell(cells_in(alloc, date_form, fields, value)),
    }
}

#[cycle(cells)]
fn list_in(
    alloc: Global,
    date_form: DateForm,
    item: &Field,
    value: &Json,
) -> Result<Value, CellError>
    ensures { Gives refusal_of cell result (list_in (cell_in date_form (column_of item.now)) (view value.now)) }
{
    match value {
        Json::Array(values) => list_cell(each_item(alloc, date_form, item, values)),
        _ => Err(CellError::Refused(Refusal::WrongKind)),
    }
}

#[cycle(cells)]
fn fixed_list_in(
    alloc: Global,
    date_form: DateForm,
    size: u32,
    item: &Field,
    value: &Json,
) -> Result<Value, CellError>
    ensures { Gives refusal_of cell result (fixed_list_in size (cell_in date_form (column_of item.now)) (view value.now)) }
{
    match value {
        Json::Array(values) => list_cell(sized_items(alloc, date_form, size, item, values)),
        _ => Err(CellError::Refused(Refusal::WrongKind)),
    }
}

#[tactic(auto, using(crate::proofs::ObjectLemmas::sized_rules))]
#[cycle(cells)]
fn sized_items(
    alloc: Global,
    date_form: DateForm,
    size: u32,
    item: &Field,
    values: &[Json],
) -> Result<Vec<Value>, CellError>
    ensures { Gives refusal_of (λ v. cells_of (map cell v.items)) result (sized size (each_item (cell_in date_form (column_of item.now))) (items_view values.now)) }
{
    if values.len() != size as usize {
        return Err(CellError::Refused(Refusal::Width));
    }
    each_item(alloc, date_form, item, values)
}

#[cycle(cells)]
fn each_item(
    alloc: Global,
    date_form: DateForm,
    item: &Field,
    values: &[Json],
) -> Result<Vec<Value>, CellError>
    ensures { Gives refusal_of (λ v. cells_of (map cell v.items)) result (each_item (cell_in date_form (column_of item.now)) (items_view values.now)) }
{
    let mut cells = Vec::with_capacity(alloc, values.len())?;
    for value in values {
        cells.push_reserved(cell_in(alloc, date_form, item, value)?);
    }
    Ok(cells)
}

// Reads the cells of fields, by position from an array or by name from an object.
#[cycle(cells)]
fn cells_in(
    alloc: Global,
    date_form: DateForm,
    fields: &[Field],
    value: &Json,
) -> Result<Vec<Value>, CellError>
    ensures { Gives refusal_of (λ v. cells_of (map cell v.items)) result (cells_in date_form (columns_of (map column_of fields.now)) (view value.now)) }
{
    match value {
        Json::Array(values) => sized_cells(alloc, date_form, fields, values),
        Json::Object(members) => {
            test_names(alloc, fields, members)?;
            cells_by_name(alloc, date_form, fields, members)
        }
        _ => Err(CellError::Refused(Refusal::WrongKind)),
    }
}

#[tactic(auto, using(crate::proofs::ObjectLemmas::sized_rules))]
#[cycle(cells)]
fn sized_cells(
    alloc: Global,
    date_form: DateForm,
    fields: &[Field],
    values: &[Json],
) -> Result<Vec<Value>, CellError>
    ensures { Gives refusal_of (λ v. cells_of (map cell v.items)) result
        (sized (column_count (columns_of (map column_of fields.now))) (cells_by_place date_form (columns_of (map column_of fields.now))) (items_view values.now)) }
{
    if values.len() != fields.len() {
        return Err(CellError::Refused(Refusal::Width));
    }
    cells_by_place(alloc, date_form, fields, values)
}

#[tactic(auto, unfolding(crate::specs::Objects::cells_by_place))]
#[cycle(cells)]
fn cells_by_place(
    alloc: Global,
    date_form: DateForm,
    fields: &[Field],
    values: &[Json],
) -> Result<Vec<Value>, CellError>
    requires { length values.now ≡ length fields.now }
    ensures { Gives refusal_of (λ v. cells_of (map cell v.items)) result (cells_by_place date_form (columns_of (map column_of fields.now)) (items_view values.now)) }
{
    let mut cells = Vec::with_capacity(alloc, fields.len())?;
    for (i, field) in fields.iter().enumerate() {
        cells.push_reserved(cell_in(alloc, date_form, field, &values[i])?);
    }
    Ok(cells)
}

#[tactic(auto, unfolding(crate::specs::Objects::cells_by_name))]
#[cycle(cells)]
fn cells_by_name(
    alloc: Global,
    date_form: DateForm,
    fields: &[Field],
    members: &Map<String, Json>,
) -> Result<Vec<Value>, CellError>
    ensures { Gives refusal_of (λ v. cells_of (map cell v.items)) result
        (cells_by_name date_form (columns_of (map column_of fields.now)) (members_view members.now.entries)) }
{
    let mut cells = Vec::with_capacity(alloc, fields.len())?;
    for field in fields {
        cells.push_reserved(member_in(alloc, date_form, field, members)?);
    }
    Ok(cells)
}

#[cycle(cells)]
fn member_in(
    alloc: Global,
    date_form: DateForm,
    field: &Field,
    members: &Map<String, Json>,
) -> Result<Value, CellError>
    ensures { Gives refusal_of cell result (member_of date_form (column_of field.now) (members_view members.now.entries)) }
{
    match member(members, name_of(field)) {
        Some(value) => cell_in(alloc, date_form, field, value),
        None => absent(field),
    }
}

pub(crate) fn value_row(
    alloc: Global,
    date_form: DateForm,
    schema: &Schema,
    limited: bool,
    value: &Json,
) -> Result<Row, CellError>
    requires { limited ≡ is_any_limited (columns_of (schema_of schema.now).columns) }
    ensures { Gives refusal_of row_of result (value_row date_form (schema_of schema.now) (view value.now)) }
{
    let cells = cells_in(alloc, date_form, &schema.fields, value)?;
    accepted(alloc, schema, limited, cells)
}
