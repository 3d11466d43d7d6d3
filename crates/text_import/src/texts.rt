// Conversions of texts, and the names of fields.
ghost use Rattle.std.specs.Prelude.{◌≡◌, ◌<◌, ◌↔◌, bytes_eq, option_map, slice_index, EachIndex, IsTrue};
ghost use Rattle.arrow_schema.specs.View.{column_of};
ghost use Rattle.arrow_schema.specs.Parts.{name_of_column};
ghost use Rattle.text_import.specs.inner.Names.{text_where_utf8};

use arrow_schema::Field;

// Returns whether all bytes are ASCII, testing them one by one because most texts are short.
fn are_ascii(bytes: &[u8]) -> bool
    ensures { IsTrue result ↔ EachIndex bytes.now (λ k. slice_index bytes.now k < 128) }
{
    bytes.iter().all(|byte| *byte < 128)
}

/// Returns the text of these bytes, if they are UTF-8.
pub fn text_of(bytes: &[u8]) -> Option<&str>
    ensures { option_map (λ t. t.now) result ≡ text_where_utf8 bytes.now }
{
    if are_ascii(bytes) {
        return Some(unsafe { str::from_utf8_unchecked(bytes) });
    }
    match simdutf8::basic::from_utf8(bytes) {
        Ok(text) => Some(text),
        Err(_) => None,
    }
}

pub(crate) fn name_of(field: &Field) -> &str
    ensures { result.now ≡ name_of_column (column_of field.now) }
{
    field.name.as_str()
}

pub(crate) fn is_name_of(field: &Field, text: &[u8]) -> bool
    ensures { result ≡ bytes_eq text.now (name_of_column (column_of field.now)) }
{
    text == name_of(field).as_bytes()
}
