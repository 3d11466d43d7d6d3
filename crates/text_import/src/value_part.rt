// Finds the part of a JSON value that is refused for a column.
ghost use Rattle.std.specs.Prelude.{◌≡◌, ◌++◌, [], ◌∷◌, length, map, option_map, IfOk, Result};
ghost use Rattle.std.specs.Option.{option_or};
ghost use Rattle.serde_json.specs.View.{view, items_view, members_view};
ghost use Rattle.arrow_schema.specs.Column.{columns_of};
ghost use Rattle.arrow_schema.specs.Parts.{kind_of_column};
ghost use Rattle.arrow_schema.specs.View.{column_of};
ghost use Rattle.cells.specs.Cell.{Cell};
ghost use Rattle.cells.specs.View.{cell};
ghost use Rattle.facts.specs.Outcomes.{Gives};
ghost use Rattle.text_import.specs.declared.refusal.Refusal.{Refusal};
ghost use Rattle.text_import.specs.Refusals.{refusal_of};
ghost use Rattle.text_import.specs.Objects.{column_count, kind_in, names_of};
ghost use Rattle.text_import.specs.ValuePart.{value_part_of, item_step, dot, below, itself, at_name, is_refused, flat_part, items_part, list_part, sized_part, fixed_list_part, names_part, struct_part, cell_part, kind_part, part_by_place, part_by_name};
ghost use Rattle.text_import.specs.inner.Names.{member_part_of};

use crate::objects::{first_repeated, first_unknown, member, test_names, typed_in};
use crate::refusal::CellError;
use crate::texts::name_of;
use arrow_schema::{DataType, Field};
use cells::Value;
use civil_days::DateForm;
use serde_json::{Map, Value as Json};
use std::alloc::{AllocError, Global};

/// What is refused at the end of a path.
#[derive(Clone, Copy)]
pub enum Reason {
    /// The value there.
    Value,
    /// A field that is not nullable and has no member in its object.
    Missing,
    /// A name in an object that is not that of a field.
    Unknown,
    /// A name that two fields of the struct have, which therefore takes no object.
    Repeated,
    /// An array whose number of items is not that of the fields of its struct, or that of its fixed-size list.
    Count { items: usize, wanted: usize },
}

/// The part of a value that is refused.
#[derive(Drop)]
pub struct ValuePart {
    /// The path to it: the names of fields with dots between them, and the places of items in brackets, counted from 0, as in `p.x[3]`.
    pub path: String,
    /// The place of its field: at each step from the field of the value, the index of a field of the struct, or 0 for the item of a list.
    pub place: Vec<usize>,
    pub reason: Reason,
}

// Returns whether reading a cell was refused.
pub(crate) fn is_refused(read: Result<Value, CellError>) -> Result<bool, AllocError>
    ensures { (R : Result Cell Refusal) → Gives refusal_of cell read R → IfOk result (λ refused. refused ≡ is_refused R) }
{
    match read {
        Ok(_) => Ok(false),
        Err(CellError::Refused(_)) => Ok(true),
        Err(CellError::OutOfMemory) => Err(AllocError),
    }
}

fn itself(alloc: Global, reason: Reason) -> ValuePart
    ensures { value_part_of result ≡ itself reason }
{
    ValuePart {
        path: String::new(alloc),
        place: Vec::new(alloc),
        reason,
    }
}

fn at_name(alloc: Global, reason: Reason, name: &str) -> Result<ValuePart, AllocError>
    ensures { IfOk result (λ part. value_part_of part ≡ at_name reason name.now) }
{
    Ok(ValuePart {
        path: format!(in alloc; ".{name}")?,
        place: Vec::new(alloc),
        reason,
    })
}

// Puts an index before a place.
fn place_below(alloc: Global, index: usize, place: &[usize]) -> Result<Vec<usize>, AllocError>
    ensures { IfOk result (λ v. v.items ≡ index ∷ place.now) }
{
    let mut longer = Vec::new(alloc);
    longer.push(index)?;
    longer.extend_from_slice(place)?;
    Ok(longer)
}

// Puts the step to the item at this place before the path.
fn below_item(alloc: Global, place: usize, part: &ValuePart) -> Result<ValuePart, AllocError>
    ensures { IfOk result (λ found. value_part_of found ≡ below (item_step place) 0 (value_part_of part.now)) }
{
    let path = part.path.as_str();
    Ok(ValuePart {
        path: format!(in alloc; "[{place}]{path}")?,
        place: place_below(alloc, 0, &part.place)?,
        reason: part.reason,
    })
}

// Puts the step to the field with this name and index before the path.
fn below_name(
    alloc: Global,
    before: &str,
    name: &str,
    index: usize,
    part: &ValuePart,
) -> Result<ValuePart, AllocError>
    ensures { IfOk result (λ found. value_part_of found ≡ below (before.now ++ name.now) index (value_part_of part.now)) }
{
    let path = part.path.as_str();
    Ok(ValuePart {
        path: format!(in alloc; "{before}{name}{path}")?,
        place: place_below(alloc, index, &part.place)?,
        reason: part.reason,
    })
}

#[tactic(auto, unfolding(crate::specs::ValuePart::cell_part))]
#[cycle(parts)]
pub(crate) fn cell_part(
    alloc: Global,
    date_form: DateForm,
    field: &Field,
    value: &Json,
) -> Result<Option<ValuePart>, AllocError>
    ensures { IfOk result (λ part. option_map value_part_of part ≡ cell_part date_form (column_of field.now) (view value.now)) }
{
    match value {
        Json::Null => {
            if field.nullable {
                Ok(None)
            } else {
                Ok(Some(itself(alloc, Reason::Value)))
            }
        }
        _ => kind_part(alloc, date_form, field, value),
    }
}

#[tactic(auto, unfolding(crate::specs::ValuePart::kind_part))]
#[cycle(parts)]
fn kind_part(
    alloc: Global,
    date_form: DateForm,
    field: &Field,
    value: &Json,
) -> Result<Option<ValuePart>, AllocError>
    ensures { IfOk result (λ part. option_map value_part_of part ≡ kind_part date_form (kind_of_column (column_of field.now)) (view value.now)) }
{
    match &field.data_type {
        DataType::List(item) => list_part(alloc, date_form, item, value),
        DataType::LargeList(item) => list_part(alloc, date_form, item, value),
        DataType::FixedSizeList(size, item) => fixed_list_part(
            alloc, date_form, *size, item, value,
        ),
        DataType::Struct(fields) => struct_part(alloc, date_form, fields, value),
        _ => flat_part(alloc, date_form, field, value),
    }
}

fn flat_part(
    alloc: Global,
    date_form: DateForm,
    field: &Field,
    value: &Json,
) -> Result<Option<ValuePart>, AllocError>
    ensures { IfOk result (λ part. option_map value_part_of part ≡ flat_part (kind_in date_form (kind_of_column (column_of field.now)) (view value.now))) }
{
    if is_refused(typed_in(alloc, date_form, field, value))? {
        Ok(Some(itself(alloc, Reason::Value)))
    } else {
        Ok(None)
    }
}

#[cycle(parts)]
fn list_part(
    alloc: Global,
    date_form: DateForm,
    item: &Field,
    value: &Json,
) -> Result<Option<ValuePart>, AllocError>
    ensures { IfOk result (λ part. option_map value_part_of part ≡ list_part (cell_part date_form (column_of item.now)) (view value.now)) }
{
    match value {
        Json::Array(values) => items_part(alloc, date_form, item, values),
        _ => Ok(Some(itself(alloc, Reason::Value))),
    }
}

#[cycle(parts)]
fn fixed_list_part(
    alloc: Global,
    date_form: DateForm,
    size: u32,
    item: &Field,
    value: &Json,
) -> Result<Option<ValuePart>, AllocError>
    ensures { IfOk result (λ part. option_map value_part_of part ≡ fixed_list_part size (cell_part date_form (column_of item.now)) (view value.now)) }
{
    match value {
        Json::Array(values) => sized_part(alloc, date_form, size, item, values),
        _ => Ok(Some(itself(alloc, Reason::Value))),
    }
}

#[tactic(auto, using(crate::proofs::ValuePartLemmas::sized_rules))]
#[cycle(parts)]
fn sized_part(
    alloc: Global,
    date_form: DateForm,
    size: u32,
    item: &Field,
    values: &[Json],
) -> Result<Option<ValuePart>, AllocError>
    ensures { IfOk result (λ part. option_map value_part_of part ≡ sized_part size (items_part 0 (cell_part date_form (column_of item.now))) (items_view values.now)) }
{
    let wanted = size as usize;
    if values.len() != wanted {
        let items = values.len();
        return Ok(Some(itself(alloc, Reason::Count { items, wanted })));
    }
    items_part(alloc, date_form, item, values)
}

#[cycle(parts)]
fn items_part(
    alloc: Global,
    date_form: DateForm,
    item: &Field,
    values: &[Json],
) -> Result<Option<ValuePart>, AllocError>
    ensures { IfOk result (λ part. option_map value_part_of part ≡ items_part 0 (cell_part date_form (column_of item.now)) (items_view values.now)) }
{
    for (place, value) in values.iter().enumerate() {
        if let Some(part) = cell_part(alloc, date_form, item, value)? {
            return Ok(Some(below_item(alloc, place, &part)?));
        }
    }
    Ok(None)
}

#[cycle(parts)]
fn struct_part(
    alloc: Global,
    date_form: DateForm,
    fields: &[Field],
    value: &Json,
) -> Result<Option<ValuePart>, AllocError>
    ensures { IfOk result (λ part. option_map value_part_of part
        ≡ struct_part (sized_part (column_count (columns_of (map column_of fields.now))) (part_by_place date_form dot 0 (columns_of (map column_of fields.now))))
        (λ ms. option_or (names_part (names_of (columns_of (map column_of fields.now))) ms) (part_by_name date_form dot 0 (columns_of (map column_of fields.now)) ms))
        (view value.now)) }
{
    match value {
        Json::Array(values) => placed_part(alloc, date_form, fields, values),
        Json::Object(members) => named_part(alloc, date_form, fields, members),
        _ => Ok(Some(itself(alloc, Reason::Value))),
    }
}

#[tactic(auto, using(crate::proofs::ValuePartLemmas::sized_rules))]
#[cycle(parts)]
fn placed_part(
    alloc: Global,
    date_form: DateForm,
    fields: &[Field],
    values: &[Json],
) -> Result<Option<ValuePart>, AllocError>
    ensures { IfOk result (λ part. option_map value_part_of part
        ≡ sized_part (column_count (columns_of (map column_of fields.now))) (part_by_place date_form dot 0 (columns_of (map column_of fields.now))) (items_view values.now)) }
{
    if values.len() != fields.len() {
        let (items, wanted) = (values.len(), fields.len());
        return Ok(Some(itself(alloc, Reason::Count { items, wanted })));
    }
    part_by_place(alloc, date_form, ".", fields, values)
}

#[cycle(parts)]
fn named_part(
    alloc: Global,
    date_form: DateForm,
    fields: &[Field],
    members: &Map<String, Json>,
) -> Result<Option<ValuePart>, AllocError>
    ensures { IfOk result (λ part. option_map value_part_of part
        ≡ option_or (names_part (names_of (columns_of (map column_of fields.now))) (members_view members.now.entries))
        (part_by_name date_form dot 0 (columns_of (map column_of fields.now)) (members_view members.now.entries))) }
{
    if let Some(part) = names_part(alloc, fields, members)? {
        return Ok(Some(part));
    }
    part_by_name(alloc, date_form, ".", fields, members)
}

// Returns what is refused of the names of an object's members. This is fast if nothing is.
fn names_part(
    alloc: Global,
    fields: &[Field],
    members: &Map<String, Json>,
) -> Result<Option<ValuePart>, AllocError>
    ensures { IfOk result (λ part. option_map value_part_of part
        ≡ names_part (names_of (columns_of (map column_of fields.now))) (members_view members.now.entries)) }
{
    match test_names(alloc, fields, members) {
        Ok(()) => Ok(None),
        Err(CellError::Refused(_)) => refused_names_part(alloc, fields, members),
        Err(CellError::OutOfMemory) => Err(AllocError),
    }
}

fn refused_names_part(
    alloc: Global,
    fields: &[Field],
    members: &Map<String, Json>,
) -> Result<Option<ValuePart>, AllocError>
    ensures { IfOk result (λ part. option_map value_part_of part
        ≡ names_part (names_of (columns_of (map column_of fields.now))) (members_view members.now.entries)) }
{
    if let Some(name) = first_repeated(fields) {
        return Ok(Some(at_name(alloc, Reason::Repeated, name)?));
    }
    match first_unknown(fields, members) {
        None => Ok(None),
        Some(name) => Ok(Some(at_name(alloc, Reason::Unknown, name)?)),
    }
}

// Returns the part of the first item that is refused for its field. `before` stands before the names of fields.
#[cycle(parts)]
pub(crate) fn part_by_place(
    alloc: Global,
    date_form: DateForm,
    before: &str,
    fields: &[Field],
    values: &[Json],
) -> Result<Option<ValuePart>, AllocError>
    requires { length values.now ≡ length fields.now }
    ensures { IfOk result (λ part. option_map value_part_of part ≡ part_by_place date_form before.now 0 (columns_of (map column_of fields.now)) (items_view values.now)) }
{
    for (i, field) in fields.iter().enumerate() {
        if let Some(part) = cell_part(alloc, date_form, field, &values[i])? {
            return Ok(Some(below_name(alloc, before, name_of(field), i, &part)?));
        }
    }
    Ok(None)
}

// Returns the part of the first member that is refused for its field.
#[cycle(parts)]
pub(crate) fn part_by_name(
    alloc: Global,
    date_form: DateForm,
    before: &str,
    fields: &[Field],
    members: &Map<String, Json>,
) -> Result<Option<ValuePart>, AllocError>
    ensures { IfOk result (λ part. option_map value_part_of part
        ≡ part_by_name date_form before.now 0 (columns_of (map column_of fields.now)) (members_view members.now.entries)) }
{
    for (i, field) in fields.iter().enumerate() {
        if let Some(part) = member_part(alloc, date_form, field, members)? {
            return Ok(Some(below_name(alloc, before, name_of(field), i, &part)?));
        }
    }
    Ok(None)
}

#[cycle(parts)]
fn member_part(
    alloc: Global,
    date_form: DateForm,
    field: &Field,
    members: &Map<String, Json>,
) -> Result<Option<ValuePart>, AllocError>
    ensures { IfOk result (λ part. option_map value_part_of part ≡ member_part_of date_form (column_of field.now) (members_view members.now.entries)) }
{
    match member(members, name_of(field)) {
        Some(value) => cell_part(alloc, date_form, field, value),
        None => {
            if field.nullable {
                Ok(None)
            } else {
                Ok(Some(itself(alloc, Reason::Missing)))
            }
        }
    }
}
