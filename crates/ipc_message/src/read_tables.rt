// Reads the tables of a header that need no allocation.

ghost use Rattle.std.specs.Prelude.{◌≡◌, ◌<◌, ℕ, List, length, IfOk, option_map, slice_index};
ghost use Rattle.flatbuf.specs.Lookup.{slot, table_behind, elements, scalar_of, text_of};
ghost use Rattle.flatbuf.specs.Seen.{tables_in, bytes_of, place_of, levels_of, slot_of, bytes_behind, places_in, levels_behind};
ghost use Rattle.ipc_message.specs.Header.{supported_codes, slot_in, int_things, int_or, size_things, date_things, timestamp_things, type_things, parameters_in, encoding_things, encoding_in, pair_things, pair_at, field_table_things, field_with, pairs_in};
ghost use Rattle.ipc_message.specs.Raw.{RawField, raw_field, raw_fields_of};
ghost use Rattle.ipc_message.specs.View.{parameters_of, encoding_of, key_value};
ghost use Rattle.flatbuf.specs.Walked.{Walks};
ghost use Rattle.ipc_message.specs.inner.Tables.{at_place, in_slot, at_reference, behind, slot_behind, type_table, field_in, field_from};

use crate::type_codes::{DATE, FIXED_SIZE_BINARY, FIXED_SIZE_LIST, INT, TIMESTAMP};
use crate::{Encoding, KeyValue, Parameters};
use flatbuf::{Budget, FlatError, References, Table};

/// Reads the bitWidth and is_signed of the Int that slot `k` refers to.
#[tactic(auto, using(flatbuf::specs::laws::Walk::run_append), unfolding(crate::specs::Header::int_things))]
fn int_at(
    table: &Table,
    k: u16,
    absent: (u32, bool),
    budget: &mut Budget,
) -> Result<(u32, bool), FlatError>
    ensures walked { Walks (bytes_of table.now) (in_slot int_things table.now k) budget.old budget.new result }
    ensures value { IfOk result (λ x. x ≡ int_or absent (bytes_of table.now) (behind table.now k)) }
{
    match table.reference(k, budget)? {
        None => Ok(absent),
        Some(int) => {
            let width = int.scalar_u32(0, 0)?;
            let signed = int.flag(1)?;
            Ok((width, signed))
        }
    }
}

/// Reads the byteWidth of the FixedSizeBinary, or the listSize of the FixedSizeList, that slot `k` refers to.
#[tactic(auto, using(flatbuf::specs::laws::Walk::run_append), unfolding(crate::specs::Header::size_things))]
fn size_at(table: &Table, k: u16, budget: &mut Budget) -> Result<u32, FlatError>
    ensures walked { Walks (bytes_of table.now) (in_slot size_things table.now k) budget.old budget.new result }
    ensures value { IfOk result (λ x. x ≡ scalar_of 4 0 (bytes_of table.now) (slot_behind table.now k 0)) }
{
    match table.reference(k, budget)? {
        None => Ok(0),
        Some(sized) => sized.scalar_u32(0, 0),
    }
}

/// Reads the unit of the Date that slot `k` refers to: milliseconds if it is absent.
#[tactic(auto, using(flatbuf::specs::laws::Walk::run_append), unfolding(crate::specs::Header::date_things))]
fn date_unit_at(table: &Table, k: u16, budget: &mut Budget) -> Result<u16, FlatError>
    ensures walked { Walks (bytes_of table.now) (in_slot date_things table.now k) budget.old budget.new result }
    ensures value { IfOk result (λ x. x ≡ scalar_of 2 1 (bytes_of table.now) (slot_behind table.now k 0)) }
{
    match table.reference(k, budget)? {
        None => Ok(1),
        Some(date) => date.scalar_u16(0, 1),
    }
}

/// Reads the unit and the timezone of the Timestamp that slot `k` refers to.
#[tactic(auto, using(flatbuf::specs::laws::Walk::run_append), unfolding(crate::specs::Header::timestamp_things))]
fn timestamp_at<'a>(
    table: &Table<'a>,
    k: u16,
    budget: &mut Budget,
) -> Result<(u16, &'a [u8]), FlatError>
    ensures walked { Walks (bytes_of table.now) (in_slot timestamp_things table.now k) budget.old budget.new result }
    ensures unit { IfOk result (λ x. x.0 ≡ scalar_of 2 0 (bytes_of table.now) (slot_behind table.now k 0)) }
    ensures timezone { IfOk result (λ x. x.1.now ≡ text_of (bytes_of table.now) (slot_behind table.now k 1)) }
{
    match table.reference(k, budget)? {
        None => Ok((0, &[])),
        Some(timestamp) => {
            let unit = timestamp.scalar_u16(0, 0)?;
            let timezone = timestamp.text(1)?;
            Ok((unit, timezone))
        }
    }
}

/// Reads the table that slot 3 refers to, as the table of a type with this code.
#[tactic(auto, using(flatbuf::specs::laws::Walk::run_append), unfolding(crate::specs::Header::type_things, crate::specs::Header::parameters_in, flatbuf::specs::Walk::run))]
fn parameters_at<'a>(
    table: &Table<'a>,
    code: u8,
    budget: &mut Budget,
) -> Result<Parameters<'a>, FlatError>
    ensures walked { Walks (bytes_of table.now) (type_table table.now code) budget.old budget.new result }
    ensures value { IfOk result (λ x. parameters_of x ≡ parameters_in supported_codes (bytes_of table.now) code (behind table.now 3)) }
{
    match code {
        INT => {
            let (width, signed) = int_at(table, 3, (0, false), budget)?;
            Ok(Parameters::Integer(width, signed))
        }
        FIXED_SIZE_BINARY => Ok(Parameters::ByteWidth(size_at(table, 3, budget)?)),
        FIXED_SIZE_LIST => Ok(Parameters::ListSize(size_at(table, 3, budget)?)),
        DATE => Ok(Parameters::DateUnit(date_unit_at(table, 3, budget)?)),
        TIMESTAMP => {
            let (unit, timezone) = timestamp_at(table, 3, budget)?;
            Ok(Parameters::Timestamp(unit, timezone))
        }
        _ => Ok(Parameters::Nothing),
    }
}

/// Reads the DictionaryEncoding that slot 4 refers to, if it is present.
#[tactic(auto, using(flatbuf::specs::laws::Walk::run_append), unfolding(crate::specs::Header::encoding_things, crate::specs::Header::encoding_in, crate::specs::Header::int_things))]
fn encoding_at(table: &Table, budget: &mut Budget) -> Result<Option<Encoding>, FlatError>
    ensures walked { Walks (bytes_of table.now) (in_slot encoding_things table.now 4) budget.old budget.new result }
    ensures value { IfOk result (λ x. option_map encoding_of x ≡ option_map (encoding_in (bytes_of table.now)) (behind table.now 4)) }
{
    match table.reference(4, budget)? {
        None => Ok(None),
        Some(encoding) => {
            let id = encoding.scalar_u64(0, 0)?;
            let (width, signed) = int_at(&encoding, 1, (32, true), budget)?;
            let _is_ordered = encoding.flag(2)?;
            let kind = encoding.scalar_u16(3, 0)?;
            Ok(Some(Encoding {
                id,
                width,
                signed,
                kind,
            }))
        }
    }
}

/// Reads the KeyValue that reference `i` leads to.
#[tactic(auto, using(flatbuf::specs::laws::Walk::run_append), unfolding(crate::specs::Header::pair_things, crate::specs::Header::pair_at))]
pub(crate) fn pair_behind<'a>(
    pairs: &References<'a>,
    i: usize,
    budget: &mut Budget,
) -> Result<KeyValue<'a>, FlatError>
    requires { i < length (places_in pairs.now) }
    ensures walked { Walks (bytes_behind pairs.now) (at_reference pair_things pairs.now i) budget.old budget.new result }
    ensures value { IfOk result (λ p. key_value p ≡ pair_at (bytes_behind pairs.now) (slice_index (places_in pairs.now) i)) }
{
    let table = pairs.table(i, budget)?;
    let key = table.text(0)?;
    let value = table.text(1)?;
    Ok(KeyValue { key, value })
}

/// A field's own table, up to the vector of its children.
#[derive(Clone, Copy)]
pub(crate) struct FieldTable<'a> {
    pub(crate) name: &'a [u8],
    pub(crate) nullable: bool,
    pub(crate) code: u8,
    pub(crate) parameters: Parameters<'a>,
    pub(crate) dictionary: Option<Encoding>,
    pub(crate) children: References<'a>,
}

/// Reads a field's own table.
#[tactic(auto, using(flatbuf::specs::laws::Walk::run_append), unfolding(crate::specs::Header::field_table_things, crate::specs::Header::field_with))]
pub(crate) fn read_field_table<'a>(
    table: &Table<'a>,
    budget: &mut Budget,
) -> Result<FieldTable<'a>, FlatError>
    ensures walked { Walks (bytes_of table.now) (at_place (field_table_things supported_codes) table.now) budget.old budget.new result }
    ensures value { IfOk result (λ o. (children : List RawField) → field_from o table.now children ≡ field_in table.now children) }
    ensures same { IfOk result (λ o. bytes_behind o.children ≡ bytes_of table.now) }
    ensures children { IfOk result (λ o. places_in o.children ≡ elements (bytes_of table.now) (slot_of table.now 5)) }
    ensures levels { IfOk result (λ o. levels_behind o.children ≡ levels_of table.now) }
{
    let name = table.text(0)?;
    let nullable = table.flag(1)?;
    let code = table.scalar_u8(2, 0)?;
    let parameters = parameters_at(table, code, budget)?;
    let dictionary = encoding_at(table, budget)?;
    let children = table.references(5)?;
    Ok(FieldTable {
        name,
        nullable,
        code,
        parameters,
        dictionary,
        children,
    })
}
