// The value that a reader of JSON is at, into its column: a list item by item, an object member by member.
ghost use Rattle.std.specs.Prelude.{◌≡◌, ◌≤◌, true, IfOk, IfSome};
ghost use Rattle.text_columns.specs.inner.Kept.{key_list};
ghost use Rattle.json.specs.Reads.{token_of};
ghost use Rattle.text_columns.specs.inner.Lines.{EndsFixedList, EndsList, EndsStruct, KeepsArray, KeepsFields, KeepsItems, KeepsListItems, KeepsNext, KeepsObject, PushesMember, PushesMembers};

use crate::builder::{ColumnBuilder, ListOffsets, Names, Slots};
use crate::complete::{clear, complete_row};
use crate::line_reader::LineReader;
use crate::members::find;
use cells::MAX_ROW_WEIGHT;
use civil_days::DateForm;
use indexmap::IndexSet;
use json::Token;
use std::alloc::AllocError;

/// How values are read: how deep they may nest, and how dates and times stand.
#[derive(Clone, Copy)]
pub(crate) struct ValueForm {
    pub(crate) depth: u32,
    pub(crate) dates: DateForm,
}

/// How many items were read, and the weight of their list.
#[derive(Clone, Copy)]
pub(crate) struct ItemsTaken {
    pub(crate) count: u64,
    pub(crate) weight: u64,
}

// Appends the slot of a list and where it ends, and returns its weight; `None` if its items were not taken.
fn end_list(
    slots: &mut Slots,
    offsets: &mut ListOffsets,
    taken: Option<ItemsTaken>,
) -> Result<Option<u64>, AllocError>
    ensures { IfOk result (λ ended. IfSome ended (λ weight. EndsList taken weight slots.old slots.new offsets.old offsets.new)) }
{
    let Some(taken) = taken else {
        return Ok(None);
    };
    slots.push_there()?;
    offsets.push(taken.count)?;
    Ok(Some(taken.weight))
}

// Appends the slot of a list of `size` items, and returns its weight; `None` if its items were not taken, or are more or fewer.
fn end_fixed_list(
    slots: &mut Slots,
    size: u32,
    taken: Option<ItemsTaken>,
) -> Result<Option<u64>, AllocError>
    ensures { IfOk result (λ ended. IfSome ended (λ weight. EndsFixedList taken size weight slots.old slots.new)) }
{
    let Some(taken) = taken else {
        return Ok(None);
    };
    if taken.count != size as u64 {
        return Ok(None);
    }
    slots.push_there()?;
    Ok(Some(taken.weight))
}

// Appends the slot of a struct, and returns its weight; `None` if its cells were not taken.
fn end_struct(slots: &mut Slots, taken: Option<u64>) -> Result<Option<u64>, AllocError>
    ensures { IfOk result (λ ended. IfSome ended (λ weight. EndsStruct taken weight slots.old slots.new)) }
{
    let Some(weight) = taken else {
        return Ok(None);
    };
    slots.push_there()?;
    Ok(Some(weight))
}

// Appends the items of the array that a reader is in; `None` if one is no cell of the column or nests too deep, or if they are too heavy for a
// row.
#[cycle(next)]
fn push_list_items(
    items: &mut ColumnBuilder,
    reader: &mut LineReader<'_>,
    form: ValueForm,
) -> Result<Option<ItemsTaken>, AllocError>
    ensures { IfOk result (λ found. IfSome found (λ taken. KeepsListItems form.dates form.depth reader.old reader.new taken items.old items.new)) }
{
    let mut weight = 1;
    for count in 0..MAX_ROW_WEIGHT {
        if reader.take_end_array() {
            return Ok(Some(ItemsTaken { count, weight }));
        }
        let Some(item_weight) = items.push_next(reader, form)? else {
            return Ok(None);
        };
        if item_weight > MAX_ROW_WEIGHT - weight {
            return Ok(None);
        }
        weight += item_weight;
    }
    Ok(None)
}

/// Appends the cells of the items that a reader is at, and returns the weight of their row; `None` if they are more or fewer than the columns, or one is no
/// cell of its column or nests too deep, or if the row is too heavy.
#[cycle(next)]
pub(crate) fn push_items(
    builders: &mut [ColumnBuilder],
    reader: &mut LineReader<'_>,
    form: ValueForm,
) -> Result<Option<u64>, AllocError>
    ensures few { IfOk result (λ taken. IfSome taken (λ weight. weight ≤ MAX_ROW_WEIGHT)) }
    ensures kept { IfOk result (λ taken. IfSome taken (λ weight. KeepsItems form.dates form.depth reader.old reader.new weight builders.old builders.new)) }
{
    let mut weight = 1;
    for i in 0..builders.len() {
        let builder = &mut builders[i];
        let Some(cell_weight) = builder.push_next(reader, form)? else {
            return Ok(None);
        };
        if cell_weight > MAX_ROW_WEIGHT - weight {
            return Ok(None);
        }
        weight += cell_weight;
    }
    if !reader.take_end_array() {
        return Ok(None);
    }
    Ok(Some(weight))
}

// Appends the value that a reader is at to the column at the place `at`, and keeps its weight. Returns false if the column already has a cell of this row,
// or if the value is no cell of it or nests too deep.
#[cycle(next)]
fn push_member(
    builders: &mut [ColumnBuilder],
    weights: &mut [Option<u64>],
    at: usize,
    reader: &mut LineReader<'_>,
    form: ValueForm,
) -> Result<bool, AllocError>
    ensures { IfOk result (λ done. done ≡ true → PushesMember form.dates form.depth at reader.old reader.new weights.old weights.new builders.old builders.new) }
{
    if at >= builders.len() || at >= weights.len() || weights[at].is_some() {
        return Ok(false);
    }
    let builder = &mut builders[at];
    let Some(weight) = builder.push_next(reader, form)? else {
        return Ok(false);
    };
    weights[at] = Some(weight);
    Ok(true)
}

// Appends the values of the members that a reader is at, and keeps the weight of each. Returns false if one is no cell of a column or nests too
// deep, or if two have one name. `order` has the places of the columns of the previous object's members, and then those of this one's.
#[cycle(next)]
fn push_members(
    names: &IndexSet<Vec<u8>>,
    order: &mut [usize],
    builders: &mut [ColumnBuilder],
    weights: &mut [Option<u64>],
    reader: &mut LineReader<'_>,
    form: ValueForm,
) -> Result<bool, AllocError>
    ensures { IfOk result (λ done. done ≡ true
        → PushesMembers form.dates form.depth (key_list names.now.keys) reader.old reader.new weights.old weights.new builders.old builders.new) }
{
    for k in 0..order.len() {
        let Ok(key) = reader.next_key() else {
            return Ok(false);
        };
        let Some(name) = key else {
            return Ok(true);
        };
        let Some(at) = find(names, order[k], name) else {
            return Ok(false);
        };
        order[k] = at;
        if !push_member(builders, weights, at, reader, form)? {
            return Ok(false);
        }
    }
    match reader.next_key() {
        Ok(None) => Ok(true),
        _ => Ok(false),
    }
}

/// Appends the cells of the members that a reader is at, and returns the weight of their row; `None` if they are no row of the columns, or one nests deeper
/// than `depth`.
#[cycle(next)]
pub(crate) fn push_fields(
    names: &IndexSet<Vec<u8>>,
    order: &mut [usize],
    builders: &mut [ColumnBuilder],
    weights: &mut [Option<u64>],
    reader: &mut LineReader<'_>,
    form: ValueForm,
) -> Result<Option<u64>, AllocError>
    ensures few { IfOk result (λ taken. IfSome taken (λ weight. weight ≤ MAX_ROW_WEIGHT)) }
    ensures kept { IfOk result (λ taken. IfSome taken (λ weight.
        KeepsFields form.dates form.depth (key_list names.now.keys) reader.old reader.new weight builders.old builders.new)) }
{
    if weights.len() != builders.len() {
        return Ok(None);
    }
    clear(weights);
    if !push_members(names, order, builders, weights, reader, form)? {
        return Ok(None);
    }
    complete_row(builders, weights)
}

// Appends the items of the array that a reader is in to the fields of structs, and returns their weight; `None` if they are no struct.
#[cycle(next)]
fn push_parts(
    fields: &mut Vec<ColumnBuilder>,
    reader: &mut LineReader<'_>,
    form: ValueForm,
) -> Result<Option<u64>, AllocError>
    ensures { IfOk result (λ taken. IfSome taken (λ weight. KeepsItems form.dates form.depth reader.old reader.new weight fields.old.items fields.new.items)) }
{
    push_items(fields.as_mut_slice(), reader, form)
}

// Appends the members of the object that a reader is in to the fields of structs, and returns their weight; `None` if they are no struct.
#[cycle(next)]
fn push_named(
    names: &mut Names,
    fields: &mut Vec<ColumnBuilder>,
    reader: &mut LineReader<'_>,
    form: ValueForm,
) -> Result<Option<u64>, AllocError>
    ensures kept { IfOk result (λ taken. IfSome taken (λ weight.
        KeepsFields form.dates form.depth (key_list names.old.names.keys) reader.old reader.new weight fields.old.items fields.new.items)) }
    ensures same { names.new.names ≡ names.old.names }
{
    push_fields(
        &names.names,
        names.order.as_mut_slice(),
        fields.as_mut_slice(),
        names.weights.as_mut_slice(),
        reader,
        form,
    )
}

impl ColumnBuilder {
    // Appends the cell of the array that a reader is in, and returns its weight; `None` if it is no cell of the column.
    #[cycle(next)]
    fn push_array(
        &mut self,
        reader: &mut LineReader<'_>,
        form: ValueForm,
    ) -> Result<Option<u64>, AllocError>
        ensures { IfOk result (λ taken. IfSome taken (λ weight. KeepsArray form.dates form.depth reader.old reader.new weight self.old self.new)) }
    {
        match self {
            ColumnBuilder::Flat(_) => Ok(None),
            ColumnBuilder::List(slots, offsets, items) => {
                let taken = push_list_items(items, reader, form)?;
                end_list(slots, offsets, taken)
            }
            ColumnBuilder::FixedList(slots, size, items) => {
                let taken = push_list_items(items, reader, form)?;
                end_fixed_list(slots, *size, taken)
            }
            ColumnBuilder::Struct(slots, _, fields) => {
                let taken = push_parts(fields, reader, form)?;
                end_struct(slots, taken)
            }
        }
    }

    // Appends the cell of the object that a reader is in, and returns its weight; `None` if it is no cell of the column.
    #[cycle(next)]
    fn push_object(
        &mut self,
        reader: &mut LineReader<'_>,
        form: ValueForm,
    ) -> Result<Option<u64>, AllocError>
        ensures { IfOk result (λ taken. IfSome taken (λ weight. KeepsObject form.dates form.depth reader.old reader.new weight self.old self.new)) }
    {
        match self {
            ColumnBuilder::Struct(slots, names, fields) => {
                let taken = push_named(names, fields, reader, form)?;
                end_struct(slots, taken)
            }
            _ => Ok(None),
        }
    }

    // Appends the cell of the value that a reader is at to a column with parts, and returns its weight; `None` if it is no cell of the column, or nests
    // too deep.
    #[cycle(next)]
    fn push_nested(
        &mut self,
        reader: &mut LineReader<'_>,
        form: ValueForm,
    ) -> Result<Option<u64>, AllocError>
        ensures { IfOk result (λ taken. IfSome taken (λ weight. KeepsNext form.dates form.depth reader.old reader.new weight self.old self.new)) }
    {
        if form.depth == 0 {
            return Ok(None);
        }
        let below = ValueForm {
            depth: form.depth - 1,
            dates: form.dates,
        };
        match reader.next() {
            Some(Token::Null) => self.push_null(),
            Some(Token::BeginArray) => self.push_array(reader, below),
            Some(Token::BeginObject) => self.push_object(reader, below),
            _ => Ok(None),
        }
    }

    /// Appends the cell of the value that a reader is at, and returns its weight; `None` if it is no cell of the column, or nests too deep.
    #[cycle(next)]
    pub(crate) fn push_next(
        &mut self,
        reader: &mut LineReader<'_>,
        form: ValueForm,
    ) -> Result<Option<u64>, AllocError>
        ensures { IfOk result (λ taken. IfSome taken (λ weight. KeepsNext form.dates form.depth reader.old reader.new weight self.old self.new)) }
    {
        match self {
            ColumnBuilder::Flat(flat) => match reader.next() {
                Some(token) => flat.push_token(form.dates, token),
                None => Ok(None),
            },
            _ => self.push_nested(reader, form),
        }
    }
}
