// The cells that the dictionary columns have in a row that is borrowed.
ghost use Rattle.std.specs.Prelude.{◌≡◌, ◌++◌, [], ◌∷◌, OnOk, IfOk, map, slice_get, option_to_list, option_map};
ghost use Rattle.std.specs.List.{flat_map};
ghost use Rattle.arrow_schema.specs.Column.{columns_of};
ghost use Rattle.arrow_schema.specs.View.{kind_of, column_of, index_of};
ghost use Rattle.cells.specs.Dictionary.{item_list, part_list, cells_at, own_holding, holdings, holdings_below, holdings_from};
ghost use Rattle.table_cut.specs.inner.Seen.{held_of, held_in};
ghost use Rattle.columns.specs.Borrowed.{borrowed_cell, borrowed_cells};

use arrow_schema::{DataType, DictSpec, Field};
use cells::entry_limit;
use std::alloc::{AllocError, Global};
use values::{ValueRef, Values, items};

/// A dictionary column in a row: how many entries its indices can name, and its cells.
#[derive(Drop)]
pub(crate) struct Held<'a> {
    pub(crate) limit: Option<usize>,
    pub(crate) cells: Vec<ValueRef<'a>>,
}

fn add_at<'a>(cells: &mut Vec<ValueRef<'a>>, values: Values<'a>, i: usize) -> Result<(), AllocError>
    ensures { OnOk result (map borrowed_cell cells.new.items ≡ map borrowed_cell cells.old.items
        ++ option_to_list (slice_get (borrowed_cells values.entry) i)) }
{
    match values.get(i) {
        Some(value) => cells.push(value)?,
        None => {}
    }
    Ok(())
}

#[tactic(auto, using(cells::specs::laws::Cells::cells_listed, crate::proofs::SeenLemmas::append_none))]
fn add_part<'a>(
    parts: &mut Vec<ValueRef<'a>>,
    value: ValueRef<'a>,
    i: usize,
) -> Result<(), AllocError>
    ensures { OnOk result (map borrowed_cell parts.new.items ≡ map borrowed_cell parts.old.items
        ++ option_to_list (slice_get (part_list (borrowed_cell value.entry)) i)) }
{
    match value {
        ValueRef::Struct(values) => add_at(parts, values, i),
        _ => Ok(()),
    }
}

fn parts_at<'a>(
    alloc: Global,
    cells: &[ValueRef<'a>],
    i: usize,
) -> Result<Vec<ValueRef<'a>>, AllocError>
    ensures { IfOk result (λ v. map borrowed_cell v.items ≡ cells_at i (map part_list (map borrowed_cell cells.now))) }
{
    let mut parts = Vec::new(alloc);
    for cell in cells {
        add_part(&mut parts, *cell, i)?;
    }
    Ok(parts)
}

// Adds the cells of a field itself, if it has a dictionary.
fn hold_own<'a>(
    alloc: Global,
    held: &mut Vec<Held<'a>>,
    dictionary: Option<DictSpec>,
    cells: &[ValueRef<'a>],
) -> Result<(), AllocError>
    ensures { OnOk result (map held_in held.new.items ≡ map held_in held.old.items
        ++ map held_of (own_holding (option_map index_of dictionary) (map borrowed_cell cells.now))) }
{
    match dictionary {
        None => Ok(()),
        Some(dictionary) => {
            let limit = entry_limit(dictionary.index);
            let cells = Vec::from_slice(alloc, cells)?;
            held.push(Held { limit, cells })?;
            Ok(())
        }
    }
}

// Adds the cells of each dictionary column at and below a field that has these cells, in preorder.
#[tactic(auto, using(crate::proofs::SeenLemmas::held_append), unfolding(cells::specs::Dictionary::holdings))]
#[cycle(holdings)]
fn hold_field<'a>(
    alloc: Global,
    held: &mut Vec<Held<'a>>,
    field: &Field,
    cells: &[ValueRef<'a>],
) -> Result<(), AllocError>
    ensures { OnOk result (map held_in held.new.items ≡ map held_in held.old.items
        ++ map held_of (holdings (column_of field.now) (map borrowed_cell cells.now))) }
{
    hold_own(alloc, held, field.dictionary, cells)?;
    hold_below(alloc, held, &field.data_type, cells)
}

#[tactic(auto, using(arrow_schema::specs::declared::types::Field::the_lemmas), unfolding(cells::specs::Dictionary::holdings_below))]
#[cycle(holdings)]
fn hold_below<'a>(
    alloc: Global,
    held: &mut Vec<Held<'a>>,
    data_type: &DataType,
    cells: &[ValueRef<'a>],
) -> Result<(), AllocError>
    ensures { OnOk result (map held_in held.new.items ≡ map held_in held.old.items
        ++ map held_of (holdings_below (kind_of data_type.now) (map borrowed_cell cells.now))) }
{
    match data_type {
        DataType::List(item) => hold_items(alloc, held, item, cells),
        DataType::LargeList(item) => hold_items(alloc, held, item, cells),
        DataType::FixedSizeList(_, item) => hold_items(alloc, held, item, cells),
        DataType::Struct(fields) => hold_parts(alloc, held, fields, cells),
        _ => Ok(()),
    }
}

#[cycle(holdings)]
fn hold_items<'a>(
    alloc: Global,
    held: &mut Vec<Held<'a>>,
    item: &Field,
    cells: &[ValueRef<'a>],
) -> Result<(), AllocError>
    ensures { OnOk result (map held_in held.new.items ≡ map held_in held.old.items
        ++ map held_of (holdings (column_of item.now) (flat_map item_list (map borrowed_cell cells.now)))) }
{
    let items = items(alloc, cells)?;
    hold_field(alloc, held, item, &items)
}

#[tactic(auto, using(crate::proofs::SeenLemmas::held_append), unfolding(cells::specs::Dictionary::holdings_from))]
#[cycle(holdings)]
fn hold_parts<'a>(
    alloc: Global,
    held: &mut Vec<Held<'a>>,
    fields: &[Field],
    cells: &[ValueRef<'a>],
) -> Result<(), AllocError>
    ensures { OnOk result (map held_in held.new.items ≡ map held_in held.old.items
        ++ map held_of (holdings_from 0 (columns_of (map column_of fields.now)) (map part_list (map borrowed_cell cells.now)))) }
{
    for (i, field) in fields.iter().enumerate() {
        let parts = parts_at(alloc, cells, i)?;
        hold_field(alloc, held, field, &parts)?;
    }
    Ok(())
}

// Adds the cells of each dictionary column at and below a field in one row. No vector is made for the row's one value.
fn hold_cell<'a>(
    alloc: Global,
    held: &mut Vec<Held<'a>>,
    field: &Field,
    row: Values<'a>,
    i: usize,
) -> Result<(), AllocError>
    ensures { OnOk result (map held_in held.new.items ≡ map held_in held.old.items
        ++ map held_of (holdings (column_of field.now) (cells_at i (borrowed_cells row.entry ∷ [])))) }
{
    match row.get(i) {
        Some(value) => hold_field(alloc, held, field, &[value]),
        None => hold_field(alloc, held, field, &[]),
    }
}

/// Returns the cells of the dictionary columns of a row, in preorder.
#[tactic(auto, using(crate::proofs::SeenLemmas::held_append), unfolding(cells::specs::Dictionary::holdings_from))]
pub(crate) fn held_in_row<'a>(
    alloc: Global,
    fields: &[Field],
    row: Values<'a>,
) -> Result<Vec<Held<'a>>, AllocError>
    ensures { IfOk result (λ held. map held_in held.items
        ≡ map held_of (holdings_from 0 (columns_of (map column_of fields.now)) (borrowed_cells row.entry ∷ []))) }
{
    let mut held = Vec::new(alloc);
    for (i, field) in fields.iter().enumerate() {
        hold_cell(alloc, &mut held, field, row, i)?;
    }
    Ok(held)
}
