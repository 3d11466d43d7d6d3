// The tests of a schema, in order. The first that fails is reported.
ghost use Rattle.std.specs.Prelude.{find, ◌≡◌, ◌+◌, ◌||◌, ◌==◌, not, map, length, sum_by, nat_le, nat_lt, option_map, is_some, IfOk};
ghost use Rattle.std.specs.BTreeMap.{get};
ghost use Rattle.std.specs.List.{list_any};
ghost use Rattle.std.specs.Ordering.{nat_cmp};
ghost use Rattle.ipc_message.specs.Raw.{raw_fields_of};
ghost use Rattle.ipc_message.specs.Fields.{every_field, depth, depth_all, pairs_of, dictionary_of};
ghost use Rattle.ipc_message.specs.Header.{supported_codes};
ghost use Rattle.ipc_message.specs.Framing.{first_some, unless};
ghost use Rattle.ipc_message.specs.Checks.{is_unsupported, name_of_type, is_bad, texts_of, count_of_pairs, exceeds_limit, has_two_types, is_nested, is_dictionary_of_nested, schema_checks};
ghost use Rattle.ipc_message.specs.View.{raw_field_of, raw_schema_of};
ghost use Rattle.ipc_message.specs.inner.Firsts.{Adds};
ghost use Rattle.facts.specs.Texts.{text_list};
ghost use Rattle.ipc_message.specs.inner.Listed.{listed};
ghost use Rattle.ipc_message.specs.Outcome.{Gives};

use crate::error::ImportError;
use crate::fault::{Fault, TypeName};
use crate::fields::{FieldRef, every_field};
use crate::raw_header::{RawField, RawSchema};
use crate::same::have_same_value_type;
use crate::texts::{are_longer, are_utf8, list_texts};
use crate::type_checks::is_bad;
use crate::type_codes::{NONE, is_supported, type_name};
use arrow_schema::{MAX_DEPTH, MAX_FIELDS, MAX_PAIRS, MAX_TEXT_BYTES};
use std::alloc::{AllocError, Global};
use std::collections::BTreeMap;

fn unsupported_type(fields: &[FieldRef]) -> Option<TypeName>
    ensures { result ≡ option_map name_of_type (find (is_unsupported supported_codes) (listed fields.now)) }
{
    for place in fields {
        let field = place.field;
        if field.code != NONE && !is_supported(field.code) {
            return Some(type_name(field.code));
        }
    }
    None
}

fn has_bad(fields: &[FieldRef]) -> bool
    ensures { result ≡ list_any is_bad (listed fields.now) }
{
    for place in fields {
        if is_bad(place.field) {
            return true;
        }
    }
    false
}

#[tactic(auto, using(crate::proofs::Levels::one_level, crate::proofs::Levels::no_level))]
#[cycle(depth)]
fn is_within_depth(field: &RawField, levels: u64) -> bool
    ensures { result ≡ nat_le (depth (raw_field_of field.now)) levels }
{
    levels != 0 && are_within_depth(&field.children, levels - 1)
}

#[tactic(auto, using(crate::proofs::Levels::depth_rules), unfolding(crate::specs::Fields::depth_all))]
#[cycle(depth)]
fn are_within_depth(fields: &[RawField], levels: u64) -> bool
    ensures { result ≡ nat_le (depth_all (raw_fields_of (map raw_field_of fields.now))) levels }
{
    for field in fields {
        if !is_within_depth(field, levels) {
            return false;
        }
    }
    true
}

fn has_more_pairs(first: usize, fields: &[FieldRef], limit: u64) -> bool
    ensures { result ≡ nat_lt limit (first + sum_by (λ f. length (pairs_of f)) (listed fields.now)) }
{
    let mut total = first as u64;
    for place in fields {
        let field = place.field;
        if total > limit {
            return true;
        }
        let count = field.pairs.len() as u64;
        if count > limit - total {
            return true;
        }
        total += count;
    }
    total > limit
}

fn exceeds_limit(schema: &RawSchema, fields: &[FieldRef], texts: &[&[u8]]) -> bool
    requires every_field { listed fields.now ≡ every_field (raw_schema_of schema.now) }
    requires every_text { text_list texts.now ≡ texts_of (raw_schema_of schema.now) }
    ensures { result ≡ exceeds_limit (raw_schema_of schema.now) }
{
    fields.len() as u64 > MAX_FIELDS
        || !are_within_depth(&schema.fields, MAX_DEPTH)
        || has_more_pairs(schema.pairs.len(), fields, MAX_PAIRS)
        || are_longer(texts, MAX_TEXT_BYTES)
}

// Returns the place of the first field with a dictionary id: that of an earlier field, or this one's.
fn first_of(firsts: &mut BTreeMap<u64, usize>, id: u64, place: usize) -> Result<usize, AllocError>
    ensures { IfOk result (λ first. Adds (get nat_cmp firsts.old) (get nat_cmp firsts.new) id place first) }
{
    if let Some(first) = firsts.get(&id) {
        return Ok(*first);
    }
    firsts.insert(id, place)?;
    Ok(place)
}

// Comparing each field with the first one of its dictionary id is enough.
fn has_two_types(alloc: Global, fields: &[FieldRef]) -> Result<bool, AllocError>
    ensures { IfOk result (λ b. b ≡ has_two_types (listed fields.now)) }
{
    let mut firsts = BTreeMap::new(alloc);
    for i in 0..fields.len() {
        let field = fields[i].field;
        if let Some(dictionary) = &field.dictionary {
            let first = first_of(&mut firsts, dictionary.id, i)?;
            if !have_same_value_type(fields[first].field, field) {
                return Ok(true);
            }
        }
    }
    Ok(false)
}

fn is_nested(name: TypeName) -> bool
    ensures { result ≡ is_nested name }
{
    matches!(
        name,
        TypeName::List | TypeName::LargeList | TypeName::FixedSizeList | TypeName::Struct
    )
}

fn has_dictionary_of_nested(fields: &[FieldRef]) -> bool
    ensures { result ≡ list_any is_dictionary_of_nested (listed fields.now) }
{
    for place in fields {
        let field = place.field;
        if field.dictionary.is_some() && is_nested(type_name(field.code)) {
            return true;
        }
    }
    false
}

#[tactic(auto, unfolding(crate::specs::Checks::schema_checks))]
fn first_fault(
    alloc: Global,
    schema: &RawSchema,
    fields: &[FieldRef],
    texts: &[&[u8]],
) -> Result<Option<Fault>, AllocError>
    requires every_field { listed fields.now ≡ every_field (raw_schema_of schema.now) }
    requires every_text { text_list texts.now ≡ texts_of (raw_schema_of schema.now) }
    ensures { IfOk result (λ fault. fault ≡ first_some (schema_checks supported_codes (raw_schema_of schema.now))) }
{
    if schema.endianness != 0 {
        Ok(Some(Fault::BigEndian))
    } else if let Some(name) = unsupported_type(fields) {
        Ok(Some(Fault::TypeNotHeld(name)))
    } else if has_bad(fields) {
        Ok(Some(Fault::BadParameter))
    } else if exceeds_limit(schema, fields, texts) {
        Ok(Some(Fault::SchemaLimit))
    } else if !are_utf8(texts) {
        Ok(Some(Fault::NotUtf8))
    } else if has_two_types(alloc, fields)? {
        Ok(Some(Fault::DictionaryId))
    } else if has_dictionary_of_nested(fields) {
        Ok(Some(Fault::DictionaryOfNested))
    } else {
        Ok(None)
    }
}

// Makes the tests, given the list of all fields.
fn check_fields<'a>(
    alloc: Global,
    schema: &RawSchema<'a>,
    fields: &[FieldRef<'_, 'a>],
) -> Result<(), ImportError>
    requires { listed fields.now ≡ every_field (raw_schema_of schema.now) }
    ensures { Gives (λ x. x) result (unless (first_some (schema_checks supported_codes (raw_schema_of schema.now))) (Ok tt)) }
{
    let texts = list_texts(alloc, &schema.pairs, fields)?;
    match first_fault(alloc, schema, fields, &texts)? {
        Some(fault) => Err(ImportError::Fault(fault)),
        None => Ok(()),
    }
}

/// Makes the tests of a schema and returns the fault of the first that fails. No string is copied.
pub(crate) fn check_schema(alloc: Global, schema: &RawSchema) -> Result<(), ImportError>
    ensures { Gives (λ x. x) result (unless (first_some (schema_checks supported_codes (raw_schema_of schema.now))) (Ok tt)) }
{
    let fields = every_field(alloc, &schema.fields)?;
    check_fields(alloc, schema, &fields)
}
