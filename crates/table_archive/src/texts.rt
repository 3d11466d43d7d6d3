// The texts by which the fields of a schema are typed in.
ghost use Rattle.std.specs.Prelude.{◌≡◌, [], map, option_map, string_bytes, IfOk};
ghost use Rattle.arrow_schema.specs.Limits.{IsWithinLimits};
ghost use Rattle.arrow_schema.specs.View.{column_of, schema_of};
ghost use Rattle.table_archive.specs.Texts.{HasTexts};
ghost use Rattle.table_archive.specs.inner.Texts.{HasTextsOf};

use arrow_schema::{Field, Schema};
use field_texts::typed_text;
use std::alloc::{AllocError, Global};

// Returns the texts of these fields, if each has one.
fn texts_of(alloc: Global, fields: &[Field]) -> Result<Option<Vec<String>>, AllocError>
    ensures { IfOk result (λ found. HasTextsOf (map column_of fields.now) (option_map (λ texts. map string_bytes texts.items) found)) }
{
    let mut texts = Vec::new(alloc);
    for place in 0..fields.len() {
        let Some(text) = typed_text(alloc, &fields[place])? else {
            return Ok(None);
        };
        texts.push(text)?;
    }
    Ok(Some(texts))
}

/// Returns the texts by which the fields of a schema are typed in, or `None` if they can't be: the schema has pairs of its own, or a field has no text.
///
/// # Errors
/// `AllocError` if memory is refused.
pub fn typed_fields(alloc: Global, schema: &Schema) -> Result<Option<Vec<String>>, AllocError>
    requires { IsWithinLimits (schema_of schema.now) }
    ensures { IfOk result (λ found. HasTexts (schema_of schema.now) (option_map (λ texts. map string_bytes texts.items) found)) }
{
    if !schema.pairs.is_empty() {
        return Ok(None);
    }
    texts_of(alloc, &schema.fields)
}
