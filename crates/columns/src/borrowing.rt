// Access to borrowed values.
ghost use Rattle.std.specs.Prelude.{◌≡◌, ◌↔◌, ◌==◌, true, length, slice_get, map, option_map, IfSome, IsSome};
ghost use Rattle.cells.specs.Dictionary.{entry_in};
ghost use Rattle.cells.specs.Entry.{entry_cell_of};
ghost use Rattle.cells.specs.View.{cell};
ghost use Rattle.columns.specs.Borrowed.{are_stored, borrowed_cell, borrowed_cells, slice_cells, parts_cells, values_left};

use crate::borrowed::{ArraySlice, Form, PartsAt, ValueRef, Values, ValuesIter};
use crate::read::value;
use crate::view::ArrayView;
use cells::{Entry, Value};

/// Borrows a value.
pub fn borrow_value(value: &Value) -> ValueRef<'_>
    ensures { borrowed_cell result ≡ cell value.now }
{
    match value {
        Value::Null => ValueRef::Null,
        Value::Bool(boolean) => ValueRef::Bool(*boolean),
        Value::Int(number) => ValueRef::Int(*number),
        Value::Text(text) => ValueRef::Text(text.as_str()),
        Value::Bytes(bytes) => ValueRef::Bytes(bytes),
        Value::List(items) => ValueRef::List(Values::of_cells(items)),
        Value::Struct(parts) => ValueRef::Struct(Values::of_cells(parts)),
    }
}

#[tactic(auto, using(crate::proofs::Runs::count_cells))]
fn run_len(run: &ArraySlice<'_>) -> usize
    ensures { result ≡ length (slice_cells run.now) }
{
    run.count
}

fn run_get<'a>(run: &ArraySlice<'a>, i: usize) -> Option<ValueRef<'a>>
    ensures { option_map borrowed_cell result ≡ slice_get (slice_cells run.now) i }
{
    // for the proof: a `usize` is below 2^64, so `start + i` does not overflow
    let _slots = run.view.slots();
    if i >= run.count {
        return None;
    }
    Some(value(run.field, run.view, run.start + i))
}

#[tactic(auto, using(crate::proofs::Runs::count_parts))]
fn parts_len(parts: &PartsAt<'_>) -> usize
    ensures { result ≡ length (parts_cells parts.now) }
{
    parts.fields.len()
}

fn parts_get<'a>(parts: &PartsAt<'a>, i: usize) -> Option<ValueRef<'a>>
    ensures { option_map borrowed_cell result ≡ slice_get (parts_cells parts.now) i }
{
    if i >= parts.fields.len() {
        return None;
    }
    let field = &parts.fields[i];
    let view = ArrayView {
        array: &parts.arrays[i],
        bytes: parts.bytes,
        dictionaries: parts.dictionaries,
    };
    Some(value(field, view, parts.place))
}

impl<'a> ValueRef<'a> {
    /// Returns the value as an entry of a dictionary. A null, a list and a struct are none.
    pub fn as_entry(self) -> Option<Entry<'a>>
        ensures { entry_cell_of result ≡ entry_in (borrowed_cell self.entry) }
    {
        match self {
            ValueRef::Bool(boolean) => Some(Entry::Bool(boolean)),
            ValueRef::Int(number) => Some(Entry::Int(number)),
            ValueRef::Text(text) => Some(Entry::Text(text)),
            ValueRef::Bytes(bytes) => Some(Entry::Bytes(bytes)),
            ValueRef::Null => None,
            ValueRef::List(_) => None,
            ValueRef::Struct(_) => None,
        }
    }
}

impl<'a> Values<'a> {
    /// Borrows stored cells.
    pub fn of_cells(cells: &'a [Value]) -> Values<'a>
        ensures cells { borrowed_cells result ≡ map cell cells.now }
        ensures stored { are_stored result ≡ true }
    {
        Values {
            form: Form::Cells(cells),
        }
    }

    /// Returns the number of values.
    pub fn len(&self) -> usize
        ensures { result ≡ length (borrowed_cells self.now) }
    {
        match &self.form {
            Form::Cells(cells) => cells.len(),
            Form::Slots(run) => run_len(run),
            Form::Parts(parts) => parts_len(parts),
        }
    }

    /// Returns whether there are no values.
    pub fn is_empty(&self) -> bool
        ensures { result ≡ (length (borrowed_cells self.now) == 0) }
    {
        self.len() == 0
    }

    /// Returns the value at index `i`, if there is one.
    pub fn get(&self, i: usize) -> Option<ValueRef<'a>>
        ensures { option_map borrowed_cell result ≡ slice_get (borrowed_cells self.now) i }
    {
        match &self.form {
            Form::Cells(cells) => Some(borrow_value(cells.get(i)?)),
            Form::Slots(run) => run_get(run, i),
            Form::Parts(parts) => parts_get(parts, i),
        }
    }

    /// Returns the stored cells, if the values are not in arrays.
    pub fn as_cells(&self) -> Option<&'a [Value]>
        ensures cells { IfSome result (λ cells. map cell cells.now ≡ borrowed_cells self.now) }
        ensures stored { IsSome result ↔ (are_stored self.now ≡ true) }
    {
        match self.form {
            Form::Cells(cells) => Some(cells),
            Form::Slots(_) => None,
            Form::Parts(_) => None,
        }
    }

    /// Returns an iterator over the values.
    pub fn iter(&self) -> ValuesIter<'a>
        ensures { values_left result ≡ borrowed_cells self.now }
    {
        ValuesIter {
            values: *self,
            next: 0,
        }
    }
}

impl<'a> Iterator for ValuesIter<'a> {
    ghost use Rattle.std.specs.Iterator.{YieldsFirstBy, item_count};

    type Item = ValueRef<'a>;

    ghost next_gives = { YieldsFirstBy borrowed_cell values_left };

    ghost remaining = { item_count values_left };

    fn next(&mut self) -> Option<ValueRef<'a>> {
        // for the proof: a `usize` is below 2^64, so `next + 1` does not overflow
        let _len = self.values.len();
        match self.values.get(self.next) {
            None => None,
            Some(value) => {
                self.next += 1;
                Some(value)
            }
        }
    }
}
