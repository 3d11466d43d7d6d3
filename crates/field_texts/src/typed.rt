// Returns the texts by which fields are typed in.
ghost use Rattle.std.specs.Prelude.{◌≡◌, ◌↔◌, ◌∷◌, [], map, IsTrue, IfOk};
ghost use Rattle.arrow_schema.specs.View.{column_of};
ghost use Rattle.field_texts.specs.Reported.{IsTakenFor, IsTypedAs};

use crate::print::typed_form;
use crate::{ParseError, parse_fields};
use arrow_schema::Field;
use std::alloc::{AllocError, Global};
use std::slice;

// Returns whether these fields are this one alone.
fn is_alone(fields: &[Field], field: &Field) -> bool
    ensures { IsTrue result ↔ (map column_of fields.now ≡ column_of field.now ∷ []) }
{
    match fields {
        [other] => other.equals(field),
        _ => false,
    }
}

// Returns whether a text is taken for this field alone.
fn is_taken_for(alloc: Global, text: &str, field: &Field) -> Result<bool, AllocError>
    ensures { IfOk result (λ taken. IsTrue taken ↔ IsTakenFor text.now (column_of field.now)) }
{
    match parse_fields(alloc, slice::from_ref(&text)) {
        Ok(fields) => Ok(is_alone(&fields, field)),
        Err(ParseError::BadText(_)) => Ok(false),
        Err(ParseError::Limit) => Ok(false),
        Err(ParseError::OutOfMemory) => Err(AllocError),
    }
}

/// Returns the text by which a field is typed in, as [`parse_fields`] takes it, or `None` if it takes no text for this field: a name has one of the
/// characters `,<>()?":` or a space or is empty, the item of a list has another name than `item`, or a part has pairs.
///
/// # Errors
/// `AllocError` if memory was refused.
pub fn typed_text(alloc: Global, field: &Field) -> Result<Option<String>, AllocError>
    ensures { IfOk result (IsTypedAs (column_of field.now)) }
{
    let text = typed_form(alloc, field)?;
    if is_taken_for(alloc, text.as_str(), field)? {
        Ok(Some(text))
    } else {
        Ok(None)
    }
}
