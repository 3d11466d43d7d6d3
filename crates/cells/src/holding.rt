// Tests whether the values of a row leave each dictionary within its index type.
ghost use Rattle.std.specs.Prelude.{◌≡◌, ◌≤◌, ◌++◌, [], ◌∷◌, IfOk, map, length, nat_le, slice_get, option_to_list, option_map};
ghost use Rattle.std.specs.List.{flat_map, list_all};
ghost use Rattle.arrow_schema.specs.Column.{columns_of};
ghost use Rattle.arrow_schema.specs.View.{kind_of, column_of, bits_of, index_of};
ghost use Rattle.cells.specs.View.{cell, cell_behind, row_behind};
ghost use Rattle.cells.specs.Entry.{entry_cell};
ghost use Rattle.cells.specs.Dictionary.{entry_limit, has_few_entries, with_entries, entries_of, item_list, part_list, cells_at, own_holding, holdings, holdings_below, holdings_from};

use crate::entry::{Entry, entry_of, note};
use crate::value::Value;
use crate::weigh::{items_in, parts_in};
use arrow_schema::{BitWidth, DataType, DictSpec, Field, IntegerType};
use indexmap::IndexSet;
use std::alloc::{AllocError, Global};

/// Returns how many entries an index type can name, or `None` for indices of 32 bits and more, which count as unlimited.
pub fn entry_limit(index: IntegerType) -> Option<usize>
    ensures { result ≡ entry_limit (record { bits = bits_of index.width; signed = index.signed }) }
{
    match index.width {
        BitWidth::Eight => Some(if index.signed { 128 } else { 256 }),
        BitWidth::Sixteen => Some(if index.signed { 32_768 } else { 65_536 }),
        BitWidth::ThirtyTwo => None,
        BitWidth::SixtyFour => None,
    }
}

// Adds the entries of cells, and returns false as soon as there are more than `most`.
#[tactic(auto, using(crate::proofs::HoldingLemmas::entries_rules), unfolding(crate::specs::Dictionary::with_entries))]
fn stay_few<'a>(
    most: usize,
    entries: &mut IndexSet<Entry<'a>>,
    cells: &[&'a Value],
) -> Result<bool, AllocError>
    requires { length entries.old.keys ≤ most }
    ensures { IfOk result (λ b. b ≡ nat_le (length (with_entries (map entry_cell entries.old.keys) (map cell_behind cells.now))) most) }
{
    for value in cells {
        note(entries, entry_of(value))?;
        if entries.len() > most {
            return Ok(false);
        }
    }
    Ok(true)
}

// Returns whether cells have at most `most` distinct entries.
fn are_few(most: usize, cells: &[&Value], alloc: Global) -> Result<bool, AllocError>
    ensures { IfOk result (λ b. b ≡ nat_le (length (entries_of (map cell_behind cells.now))) most) }
{
    let mut entries = IndexSet::new(alloc);
    stay_few(most, &mut entries, cells)
}

#[tactic(auto, using(crate::proofs::HoldingLemmas::entries_rules))]
fn own_entries_fit(
    dictionary: DictSpec,
    cells: &[&Value],
    alloc: Global,
) -> Result<bool, AllocError>
    ensures { IfOk result (λ b. b ≡ has_few_entries (record { index = index_of dictionary; cells = map cell_behind cells.now })) }
{
    match entry_limit(dictionary.index) {
        None => Ok(true),
        Some(most) => {
            if cells.len() <= most {
                Ok(true)
            } else {
                are_few(most, cells, alloc)
            }
        }
    }
}

fn add_all<'a>(items: &mut Vec<&'a Value>, values: &'a [Value]) -> Result<(), AllocError>
    ensures { IfOk result (λ _. map cell_behind items.new.items ≡ map cell_behind items.old.items ++ map cell values.now) }
{
    for value in values {
        items.push(value)?;
    }
    Ok(())
}

fn add_part<'a>(cells: &mut Vec<&'a Value>, i: usize, row: &'a [Value]) -> Result<(), AllocError>
    ensures { IfOk result (λ _. map cell_behind cells.new.items ≡ map cell_behind cells.old.items ++ option_to_list (slice_get (map cell row.now) i)) }
{
    if let Some(value) = row.get(i) {
        cells.push(value)?;
    }
    Ok(())
}

fn item_list(value: &Value) -> &[Value]
    ensures { map cell result.now ≡ item_list (cell value.now) }
{
    items_in(value)
}

fn part_list(value: &Value) -> &[Value]
    ensures { map cell result.now ≡ part_list (cell value.now) }
{
    parts_in(value)
}

fn items_of<'a>(cells: &[&'a Value], alloc: Global) -> Result<Vec<&'a Value>, AllocError>
    ensures { IfOk result (λ v. map cell_behind v.items ≡ flat_map item_list (map cell_behind cells.now)) }
{
    let mut items = Vec::new(alloc);
    for cell in cells {
        add_all(&mut items, item_list(cell))?;
    }
    Ok(items)
}

fn rows_of<'a>(cells: &[&'a Value], alloc: Global) -> Result<Vec<&'a [Value]>, AllocError>
    ensures { IfOk result (λ v. map row_behind v.items ≡ map part_list (map cell_behind cells.now)) }
{
    let mut rows = Vec::new(alloc);
    for cell in cells {
        rows.push(part_list(cell))?;
    }
    Ok(rows)
}

fn cells_at<'a>(i: usize, rows: &[&'a [Value]], alloc: Global) -> Result<Vec<&'a Value>, AllocError>
    ensures { IfOk result (λ v. map cell_behind v.items ≡ cells_at i (map row_behind rows.now)) }
{
    let mut cells = Vec::new(alloc);
    for row in rows {
        add_part(&mut cells, i, row)?;
    }
    Ok(cells)
}

// Tests the field's own dictionary, if it has one.
fn dictionary_entries_fit(
    dictionary: Option<DictSpec>,
    cells: &[&Value],
    alloc: Global,
) -> Result<bool, AllocError>
    ensures { IfOk result (λ b. b ≡ list_all has_few_entries (own_holding (option_map index_of dictionary) (map cell_behind cells.now))) }
{
    match dictionary {
        None => Ok(true),
        Some(dictionary) => own_entries_fit(dictionary, cells, alloc),
    }
}

// Returns whether each dictionary at or below a field can name all its entries, if the field has these cells.
#[tactic(auto, using(crate::proofs::HoldingLemmas::holding_rules), unfolding(crate::specs::Dictionary::holdings))]
#[cycle(holdings)]
fn field_entries_fit(field: &Field, cells: &[&Value], alloc: Global) -> Result<bool, AllocError>
    ensures { IfOk result (λ b. b ≡ list_all has_few_entries (holdings (column_of field.now) (map cell_behind cells.now))) }
{
    if cells.is_empty() {
        return Ok(true);
    }
    let own = dictionary_entries_fit(field.dictionary, cells, alloc)?;
    if !own {
        return Ok(false);
    }
    entries_below_fit(&field.data_type, cells, alloc)
}

#[tactic(auto, unfolding(crate::specs::Dictionary::holdings_below))]
#[cycle(holdings)]
fn entries_below_fit(
    data_type: &DataType,
    cells: &[&Value],
    alloc: Global,
) -> Result<bool, AllocError>
    ensures { IfOk result (λ b. b ≡ list_all has_few_entries (holdings_below (kind_of data_type.now) (map cell_behind cells.now))) }
{
    match data_type {
        DataType::List(item) => item_entries_fit(item, cells, alloc),
        DataType::LargeList(item) => item_entries_fit(item, cells, alloc),
        DataType::FixedSizeList(_, item) => item_entries_fit(item, cells, alloc),
        DataType::Struct(fields) => {
            let rows = rows_of(cells, alloc)?;
            column_entries_fit(fields, &rows, alloc)
        }
        _ => Ok(true),
    }
}

#[cycle(holdings)]
fn item_entries_fit(item: &Field, cells: &[&Value], alloc: Global) -> Result<bool, AllocError>
    ensures { IfOk result (λ b. b ≡ list_all has_few_entries (holdings (column_of item.now) (flat_map item_list (map cell_behind cells.now)))) }
{
    let items = items_of(cells, alloc)?;
    field_entries_fit(item, &items, alloc)
}

// The same for the cells at one place of several rows.
#[cycle(holdings)]
fn place_entries_fit(
    field: &Field,
    i: usize,
    rows: &[&[Value]],
    alloc: Global,
) -> Result<bool, AllocError>
    ensures { IfOk result (λ b. b ≡ list_all has_few_entries (holdings (column_of field.now) (cells_at i (map row_behind rows.now)))) }
{
    let cells = cells_at(i, rows, alloc)?;
    field_entries_fit(field, &cells, alloc)
}

#[tactic(auto, using(crate::proofs::HoldingLemmas::holding_rules), unfolding(crate::specs::Dictionary::holdings_from))]
#[cycle(holdings)]
fn column_entries_fit(
    fields: &[Field],
    rows: &[&[Value]],
    alloc: Global,
) -> Result<bool, AllocError>
    ensures { IfOk result (λ b. b ≡ list_all has_few_entries (holdings_from 0 (columns_of (map column_of fields.now)) (map row_behind rows.now))) }
{
    for (i, field) in fields.iter().enumerate() {
        if !place_entries_fit(field, i, rows, alloc)? {
            return Ok(false);
        }
    }
    Ok(true)
}

// The same for the cell at one place of a single row.
fn part_entries_fit(
    field: &Field,
    i: usize,
    row: &[Value],
    alloc: Global,
) -> Result<bool, AllocError>
    ensures { IfOk result (λ b. b ≡ list_all has_few_entries (holdings (column_of field.now) (cells_at i (map cell row.now ∷ [])))) }
{
    match row.get(i) {
        Some(value) => field_entries_fit(field, &[value], alloc),
        None => Ok(true),
    }
}

// The same for a single row, without a list of its cells.
#[tactic(auto, using(crate::proofs::HoldingLemmas::holding_rules), unfolding(crate::specs::Dictionary::holdings_from))]
pub(crate) fn row_entries_fit(
    fields: &[Field],
    row: &[Value],
    alloc: Global,
) -> Result<bool, AllocError>
    ensures { IfOk result (λ b. b ≡ list_all has_few_entries (holdings_from 0 (columns_of (map column_of fields.now)) (map cell row.now ∷ []))) }
{
    for (i, field) in fields.iter().enumerate() {
        if !part_entries_fit(field, i, row, alloc)? {
            return Ok(false);
        }
    }
    Ok(true)
}
