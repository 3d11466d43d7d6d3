// Finds the field of a schema at a place.
ghost use Rattle.std.specs.Prelude.{◌≡◌, [], ◌∷◌, map, option_map, slice_get};
ghost use Rattle.arrow_schema.specs.Parts.{kind_of_column};
ghost use Rattle.arrow_schema.specs.View.{column_of, schema_of};
ghost use Rattle.text_import.specs.Part.{part_of};
ghost use Rattle.text_import.specs.Place.{parts_of_kind, column_below, column_at, column_of_part};

use crate::part::{LinePart, RefusedPart};
use arrow_schema::{DataType, Field, Schema};

// Returns the only field, if the index is 0.
fn only(field: &Field, index: usize) -> Option<&Field>
    ensures { option_map (λ f. column_of f.now) result ≡ slice_get (column_of field.now ∷ []) index }
{
    if index == 0 { Some(field) } else { None }
}

fn listed(fields: &[Field], index: usize) -> Option<&Field>
    ensures { option_map (λ f. column_of f.now) result ≡ slice_get (map column_of fields.now) index }
{
    fields.get(index)
}

// Returns the field of the items of a list, or a field of a struct.
fn part_of_field(field: &Field, index: usize) -> Option<&Field>
    ensures { option_map (λ f. column_of f.now) result ≡ slice_get (parts_of_kind (kind_of_column (column_of field.now))) index }
{
    match &field.data_type {
        DataType::List(item) => only(item, index),
        DataType::LargeList(item) => only(item, index),
        DataType::FixedSizeList(_, item) => only(item, index),
        DataType::Struct(fields) => listed(fields, index),
        _ => None,
    }
}

// Returns the field at a place below this one.
#[tactic(auto, unfolding(crate::specs::Place::column_below))]
fn field_below<'a>(field: &'a Field, place: &[usize]) -> Option<&'a Field>
    ensures { option_map (λ f. column_of f.now) result ≡ column_below (column_of field.now) place.now }
{
    match place {
        [] => Some(field),
        [index, rest @ ..] => match part_of_field(field, *index) {
            Some(part) => field_below(part, rest),
            None => None,
        },
    }
}

/// Returns the field at a place of a schema: the index of a column, and at each further step the index of a field of a struct, or 0 for the item of a
/// list.
pub fn field_at<'a>(schema: &'a Schema, place: &[usize]) -> Option<&'a Field>
    ensures { option_map (λ f. column_of f.now) result ≡ column_at (schema_of schema.now).columns place.now }
{
    match place {
        [] => None,
        [index, rest @ ..] => match listed(&schema.fields, *index) {
            Some(field) => field_below(field, rest),
            None => None,
        },
    }
}

/// Returns the field of a schema that a refused part is for: the column of a field of a CSV record, or the field of a value in a line.
pub fn field_of_part<'a>(schema: &'a Schema, part: &RefusedPart) -> Option<&'a Field>
    ensures { option_map (λ f. column_of f.now) result ≡ column_of_part (schema_of schema.now).columns (part_of part.now) }
{
    match part {
        RefusedPart::Field { place, .. } => listed(&schema.fields, *place),
        RefusedPart::Line {
            part: Some(LinePart::Value(value)),
            ..
        } => field_at(schema, &value.place),
        _ => None,
    }
}
