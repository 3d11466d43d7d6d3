// Reads the fields and the key/value pairs of a schema. Strings are borrowed.

ghost use Rattle.std.specs.Prelude.{◌≡◌, ◌<◌, ◌++◌, length, map, IfOk, slice_index};
ghost use Rattle.std.specs.List.{flat_map};
ghost use Rattle.flatbuf.specs.Lookup.{elements};
ghost use Rattle.flatbuf.specs.Seen.{tables_in, bytes_of, place_of, levels_of, slot_of, bytes_behind, places_in, levels_behind};
ghost use Rattle.ipc_message.specs.Header.{supported_codes, pair_things, pair_at, pairs_things, pairs_in, field_things, field_at};
ghost use Rattle.ipc_message.specs.View.{key_value, raw_field_of};
ghost use Rattle.ipc_message.specs.inner.Tables.{in_slot, at_reference, over_references, fields_behind};
ghost use Rattle.ipc_message.specs.inner.Walked.{WalksUnlessRefused};

use crate::read_tables::{pair_behind, read_field_table};
use crate::walk_error::WalkError;
use crate::{KeyValue, RawField};
use flatbuf::{Budget, References, Table};
use std::alloc::Global;

/// Reads the key/value pairs of slot `k`.
#[tactic(auto, using(flatbuf::specs::laws::Walk::run_append), unfolding(crate::specs::Header::pairs_things, crate::specs::Header::pairs_in))]
pub(crate) fn pairs_at<'a>(
    alloc: Global,
    table: &Table<'a>,
    k: u16,
    budget: &mut Budget,
) -> Result<Vec<KeyValue<'a>>, WalkError>
    ensures walked { WalksUnlessRefused (bytes_of table.now) (in_slot pairs_things table.now k) budget.old budget.new result }
    ensures value { IfOk result (λ ps. map key_value ps.items ≡ pairs_in (bytes_of table.now) (slot_of table.now k)) }
{
    let pairs = table.references(k)?;
    pairs_behind(alloc, &pairs, budget)
}

/// Reads the pairs that these references lead to.
fn pairs_behind<'a>(
    alloc: Global,
    pairs: &References<'a>,
    budget: &mut Budget,
) -> Result<Vec<KeyValue<'a>>, WalkError>
    ensures walked { WalksUnlessRefused (bytes_behind pairs.now) (over_references pair_things pairs.now) budget.old budget.new result }
    ensures value { IfOk result (λ ps. map key_value ps.items ≡ map (pair_at (bytes_behind pairs.now)) (places_in pairs.now)) }
{
    let mut found = Vec::new(alloc);
    for i in 0..pairs.len() {
        let pair = pair_behind(pairs, i, budget)?;
        found.push(pair)?;
    }
    Ok(found)
}

/// Reads the field that reference `i` leads to, with its descendants: its own table, its children, its custom_metadata.
#[cycle(walk)]
fn field_behind<'a>(
    alloc: Global,
    fields: &References<'a>,
    i: usize,
    budget: &mut Budget,
) -> Result<RawField<'a>, WalkError>
    requires { i < length (places_in fields.now) }
    ensures walked { WalksUnlessRefused (bytes_behind fields.now) (at_reference (field_things supported_codes) fields.now i) budget.old budget.new result }
    ensures value { IfOk result (λ f. raw_field_of f ≡ at_reference (field_at supported_codes) fields.now i) }
{
    let table = fields.table(i, budget)?;
    let field_table = read_field_table(&table, budget)?;
    let children = fields_behind(alloc, &field_table.children, budget)?;
    let pairs = pairs_at(alloc, &table, 6, budget)?;
    Ok(RawField {
        name: field_table.name,
        nullable: field_table.nullable,
        code: field_table.code,
        parameters: field_table.parameters,
        dictionary: field_table.dictionary,
        children,
        pairs,
    })
}

/// Reads the fields that these references lead to.
#[cycle(walk)]
pub(crate) fn fields_behind<'a>(
    alloc: Global,
    fields: &References<'a>,
    budget: &mut Budget,
) -> Result<Vec<RawField<'a>>, WalkError>
    ensures walked { WalksUnlessRefused (bytes_behind fields.now) (over_references (field_things supported_codes) fields.now) budget.old budget.new result }
    ensures value { IfOk result (λ fs. map raw_field_of fs.items ≡ fields_behind fields.now) }
{
    let mut found = Vec::new(alloc);
    for i in 0..fields.len() {
        let field = field_behind(alloc, fields, i, budget)?;
        found.push(field)?;
    }
    Ok(found)
}
