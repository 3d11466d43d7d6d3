// Compares the value types of two fields.
ghost use Rattle.std.specs.Prelude.{◌≡◌, map};
ghost use Rattle.ipc_message.specs.Raw.{raw_fields_of};
ghost use Rattle.ipc_message.specs.Same.{same_parameters, same_index, same_pairs, same_parts, same_field, same_fields, same_value_type};
ghost use Rattle.ipc_message.specs.View.{raw_field_of, key_value, parameters_of, encoding_of};
ghost use Rattle.std.specs.Prelude.{option_map};

use crate::raw_header::{Encoding, KeyValue, Parameters, RawField};

fn have_same_parameters(one: &Parameters, other: &Parameters) -> bool
    ensures { result ≡ same_parameters (parameters_of one.now) (parameters_of other.now) }
{
    match (one, other) {
        (Parameters::Nothing, Parameters::Nothing) => true,
        (Parameters::Integer(m, a), Parameters::Integer(n, b)) => m == n && a == b,
        (Parameters::ByteWidth(m), Parameters::ByteWidth(n)) => m == n,
        (Parameters::ListSize(m), Parameters::ListSize(n)) => m == n,
        (Parameters::DateUnit(m), Parameters::DateUnit(n)) => m == n,
        (Parameters::Timestamp(m, y), Parameters::Timestamp(n, z)) => m == n && y == z,
        _ => false,
    }
}

fn have_same_index(one: &Option<Encoding>, other: &Option<Encoding>) -> bool
    ensures { result ≡ same_index (option_map encoding_of one.now) (option_map encoding_of other.now) }
{
    match (one, other) {
        (None, None) => true,
        (Some(d), Some(e)) => d.width == e.width && d.signed == e.signed,
        _ => false,
    }
}

fn have_same_pairs(one: &[KeyValue], other: &[KeyValue]) -> bool
    ensures { result ≡ same_pairs (map key_value one.now) (map key_value other.now) }
{
    if one.len() != other.len() {
        return false;
    }
    for i in 0..one.len() {
        if one[i].key != other[i].key || one[i].value != other[i].value {
            return false;
        }
    }
    true
}

#[tactic(auto, unfolding(crate::specs::Same::same_parts))]
fn have_same_parts(one: &RawField, other: &RawField) -> bool
    ensures { result ≡ same_parts (raw_field_of one.now) (raw_field_of other.now) }
{
    one.name == other.name
        && one.nullable == other.nullable
        && one.code == other.code
        && have_same_parameters(&one.parameters, &other.parameters)
        && have_same_index(&one.dictionary, &other.dictionary)
        && have_same_pairs(&one.pairs, &other.pairs)
}

#[tactic(auto, using(crate::proofs::Compared::same_field_parts))]
#[cycle(same)]
fn is_same(one: &RawField, other: &RawField) -> bool
    ensures { result ≡ same_field (raw_field_of one.now) (raw_field_of other.now) }
{
    have_same_parts(one, other) && are_same(&one.children, &other.children)
}

#[tactic(auto, unfolding(crate::specs::Same::same_fields))]
#[cycle(same)]
fn are_same(one: &[RawField], other: &[RawField]) -> bool
    ensures { result ≡ same_fields (raw_fields_of (map raw_field_of one.now)) (raw_fields_of (map raw_field_of other.now)) }
{
    if one.len() != other.len() {
        return false;
    }
    for (i, field) in one.iter().enumerate() {
        if !is_same(field, &other[i]) {
            return false;
        }
    }
    true
}

/// Returns whether the values of both fields have the same type, with its parameters and all children; dictionary ids may differ.
pub(crate) fn have_same_value_type(one: &RawField, other: &RawField) -> bool
    ensures { result ≡ same_value_type (raw_field_of one.now) (raw_field_of other.now) }
{
    one.code == other.code
        && have_same_parameters(&one.parameters, &other.parameters)
        && are_same(&one.children, &other.children)
}
