// The strings of a schema: names, timezones, keys and values.
ghost use Rattle.std.specs.Prelude.{◌≡◌, ◌++◌, ◌+◌, map, flat_map, length, sum_by, nat_lt, IfOk, OnOk};
ghost use Rattle.std.specs.List.{list_all};
ghost use Rattle.std.specs.Str.{is_utf8};
ghost use Rattle.ipc_message.specs.Raw.{raw_fields_of};
ghost use Rattle.ipc_message.specs.Fields.{preorder_all};
ghost use Rattle.ipc_message.specs.Checks.{texts_of_pairs, texts_of_field, texts_of, timezone_of};
ghost use Rattle.ipc_message.specs.View.{raw_field_of, raw_schema_of, key_value, parameters_of};
ghost use Rattle.facts.specs.Texts.{text_list};
ghost use Rattle.ipc_message.specs.inner.Listed.{listed};

use crate::fields::FieldRef;
use crate::raw_header::{KeyValue, Parameters, RawField};
use std::alloc::{AllocError, Global};

fn timezone<'a>(parameters: &Parameters<'a>) -> &'a [u8]
    ensures { result.now ≡ timezone_of (parameters_of parameters.now) }
{
    match parameters {
        Parameters::Timestamp(_, timezone) => timezone,
        _ => &[],
    }
}

fn list_pairs<'a>(texts: &mut Vec<&'a [u8]>, pairs: &[KeyValue<'a>]) -> Result<(), AllocError>
    ensures { OnOk result (text_list texts.new.items ≡ text_list texts.old.items ++ texts_of_pairs (map key_value pairs.now)) }
{
    for pair in pairs {
        texts.push(pair.key)?;
        texts.push(pair.value)?;
    }
    Ok(())
}

fn list_field<'a>(texts: &mut Vec<&'a [u8]>, field: &RawField<'a>) -> Result<(), AllocError>
    ensures { OnOk result (text_list texts.new.items ≡ text_list texts.old.items ++ texts_of_field (raw_field_of field.now)) }
{
    texts.push(field.name)?;
    texts.push(timezone(&field.parameters))?;
    list_pairs(texts, &field.pairs)
}

/// Lists the strings of a schema with these pairs and fields.
pub(crate) fn list_texts<'a>(
    alloc: Global,
    pairs: &[KeyValue<'a>],
    fields: &[FieldRef<'_, 'a>],
) -> Result<Vec<&'a [u8]>, AllocError>
    ensures { IfOk result (λ texts. text_list texts.items ≡ texts_of_pairs (map key_value pairs.now) ++ flat_map texts_of_field (listed fields.now)) }
{
    let mut texts = Vec::new(alloc);
    list_pairs(&mut texts, pairs)?;
    for place in fields {
        list_field(&mut texts, place.field)?;
    }
    Ok(texts)
}

/// Returns whether all strings together are longer than a limit.
pub(crate) fn are_longer(texts: &[&[u8]], limit: u64) -> bool
    ensures { result ≡ nat_lt limit (sum_by length (text_list texts.now)) }
{
    let mut total = 0u64;
    for text in texts {
        let length = text.len() as u64;
        if length > limit - total {
            return true;
        }
        total += length;
    }
    false
}

/// Returns whether the bytes are UTF-8.
pub fn is_utf8(text: &[u8]) -> bool
    ensures { result ≡ is_utf8 text.now }
{
    simdutf8::basic::from_utf8(text).is_ok()
}

/// Returns whether each string is UTF-8.
pub(crate) fn are_utf8(texts: &[&[u8]]) -> bool
    ensures { result ≡ list_all is_utf8 (text_list texts.now) }
{
    for text in texts {
        if !is_utf8(text) {
            return false;
        }
    }
    true
}
