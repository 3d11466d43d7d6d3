// Columns with a dictionary: each value is looked up among the entries that were seen, and its index is written.
ghost use Rattle.std.specs.Prelude.{◌≡◌, ◌+◌, ◌++◌, ◌/◌, ◌∷◌, [], ℕ, List, Some, true, false, position, bytes_eq, IfOk, IfSome, OnOk};
ghost use Rattle.std.specs.Str.{is_utf8};
ghost use Rattle.cells.specs.Dictionary.{entry_limit, is_within};
ghost use Rattle.cells.specs.Typed.{typed_integer};
ghost use Rattle.civil_days.specs.declared.date_form.DateForm.{DateForm};
ghost use Rattle.text_import.specs.Objects.{has_name};
ghost use Rattle.text_columns.specs.inner.Kept.{Codes, Places, PushesPlace, TakesField, TakesNullCell, index_type, key_list};

use crate::column_values::ColumnValues;
use crate::short_integers::ShortInteger;
use arrow_schema::IntegerType;
use cells::entry_limit;
use civil_days::DateForm;
use columns::push_index;
use indexmap::IndexSet;
use std::alloc::AllocError;

/// What a column with a dictionary has in addition to its entries: the indices of its cells, the bytes of each entry, in order, and the buffers of the one
/// value that is looked up.
#[derive(Drop)]
pub(crate) struct Coding {
    pub(crate) index: IntegerType,
    pub(crate) indices: Vec<u8>,
    pub(crate) keys: IndexSet<Vec<u8>>,
    pub(crate) one: ColumnValues,
}

// Returns whether indices of a type can name one more entry than `count`.
fn has_room(index: IntegerType, count: usize) -> bool
    ensures { result ≡ is_within (entry_limit (index_type index)) (count + 1) }
{
    match entry_limit(index) {
        Some(most) => count < most,
        None => true,
    }
}

/// Returns the place of the entry with the bytes `key`.
pub(crate) fn find(keys: &IndexSet<Vec<u8>>, key: &[u8]) -> Option<usize>
    ensures { result ≡ position (bytes_eq key.now) (key_list keys.now.keys) }
{
    keys.get_index_of(key)
}

/// Adds the bytes of an entry, and returns whether they are new.
pub(crate) fn add_key(keys: &mut IndexSet<Vec<u8>>, key: &[u8]) -> Result<bool, AllocError>
    ensures fresh { IfOk result (λ added. added ≡ true → has_name (key_list keys.old.keys) key.now ≡ false) }
    ensures keys { IfOk result (λ added. added ≡ true → key_list keys.new.keys ≡ key_list keys.old.keys ++ key.now ∷ []) }
{
    let mut owned = Vec::new(*keys.allocator());
    owned.extend_from_slice(key)?;
    let (_, added) = keys.insert_full(owned)?;
    Ok(added)
}

// Returns the place of the entry with the bytes `key`, which is added if it is new; `None` if no index can name it.
fn place_of(
    index: IntegerType,
    keys: &mut IndexSet<Vec<u8>>,
    entries: &mut ColumnValues,
    key: &[u8],
) -> Result<Option<usize>, AllocError>
    ensures { IfOk result (λ found. IfSome found (λ place. Places index key.now place keys.old.keys keys.new.keys entries.old entries.new)) }
{
    if let Some(place) = find(keys, key) {
        return Ok(Some(place));
    }
    let place = keys.len();
    if !has_room(index, place) {
        return Ok(None);
    }
    if !add_key(keys, key)? {
        return Ok(None);
    }
    entries.push_key(key)?;
    Ok(Some(place))
}

// Appends the index of the entry with the bytes `key`, which is added if it is new. Returns false if no index can name it.
fn push_place(
    index: IntegerType,
    indices: &mut Vec<u8>,
    keys: &mut IndexSet<Vec<u8>>,
    entries: &mut ColumnValues,
    key: &[u8],
) -> Result<bool, AllocError>
    ensures { IfOk result (λ done. done ≡ true
        → PushesPlace index key.now indices.old.items indices.new.items keys.old.keys keys.new.keys entries.old entries.new) }
{
    let Some(place) = place_of(index, keys, entries, key)? else {
        return Ok(false);
    };
    push_index(indices, index.width, place as u64)?;
    Ok(true)
}

impl Coding {
    ghost use Rattle.std.specs.Prelude.{length};

    /// Returns whether an index can name one more entry.
    pub(crate) fn has_room(&self) -> bool
        ensures { result ≡ is_within (entry_limit (index_type self.now.index)) (length self.now.keys.keys + 1) }
    {
        has_room(self.index, self.keys.len())
    }

    ghost use Rattle.text_columns.specs.inner.Kept.{TakesCodedText};

    /// Appends the index of the value in `one`, which becomes an entry if it is new. Returns false if no index can name it.
    pub(crate) fn code(&mut self, entries: &mut ColumnValues) -> Result<bool, AllocError>
        ensures { IfOk result (λ done. done ≡ true → Codes self.old entries.old self.new entries.new) }
    {
        let key = self.one.key();
        let done = push_place(self.index, &mut self.indices, &mut self.keys, entries, key)?;
        Ok(done)
    }

    // Appends the index of the value that a field spells, and returns its weight; `None` if it is no value of the type, or no index can name it.
    #[inline(always)]
    fn push_text(
        &mut self,
        entries: &mut ColumnValues,
        date_form: DateForm,
        text: &[u8],
    ) -> Result<Option<u64>, AllocError>
        ensures { IfOk result (λ taken. IfSome taken (λ weight. TakesCodedText date_form text.now weight self.old entries.old self.new entries.new)) }
    {
        self.one.clear()?;
        let Some(weight) = self.one.push_text(date_form, text)? else {
            return Ok(None);
        };
        if self.code(entries)? {
            Ok(Some(weight))
        } else {
            Ok(None)
        }
    }

    /// Appends the index of a string of UTF-8, and returns its weight; `None` if the entries are no strings, or no index can name it. The string is looked
    /// up in place, without a copy.
    pub(crate) fn push_utf8(
        &mut self,
        entries: &mut ColumnValues,
        text: &[u8],
    ) -> Result<Option<u64>, AllocError>
        requires { is_utf8 text.now ≡ true }
        ensures { (date_form : DateForm) → IfOk result (λ taken. IfSome taken (λ weight. TakesCodedText date_form text.now weight self.old entries.old self.new entries.new)) }
    {
        if !entries.has_texts() {
            return Ok(None);
        }
        if push_place(self.index, &mut self.indices, &mut self.keys, entries, text)? {
            Ok(Some(1 + text.len() as u64))
        } else {
            Ok(None)
        }
    }
}

/// Appends a null to the values, or to the indices if the column has a dictionary.
pub(crate) fn push_null(
    values: &mut ColumnValues,
    coding: &mut Option<Coding>,
) -> Result<(), AllocError>
    ensures { OnOk result (TakesNullCell values.old coding.old values.new coding.new) }
{
    match coding {
        None => values.push_null(),
        Some(coding) => push_index(&mut coding.indices, coding.index.width, 0),
    }
}

/// Appends the cell that a field spells, or its index, and returns its weight; `None` if it is no value of the type, or no index can name it.
#[inline(always)]
pub(crate) fn push_text(
    values: &mut ColumnValues,
    coding: &mut Option<Coding>,
    date_form: DateForm,
    text: &[u8],
) -> Result<Option<u64>, AllocError>
    ensures { IfOk result (λ taken. IfSome taken (λ weight. TakesField date_form text.now weight values.old coding.old values.new coding.new)) }
{
    match coding {
        None => values.push_text(date_form, text),
        Some(coding) => coding.push_text(values, date_form, text),
    }
}

/// Appends an integer, and returns its weight; `None` if the type does not hold it, if its texts are those of dates or times, or if the column has a
/// dictionary.
pub(crate) fn push_short(
    values: &mut ColumnValues,
    coding: &mut Option<Coding>,
    date_form: DateForm,
    short: ShortInteger,
) -> Result<Option<u64>, AllocError>
    ensures { (text : List ℕ) → typed_integer text ≡ Some short.number
        → IfOk result (λ taken. IfSome taken (λ weight. TakesField date_form text weight values.old coding.old values.new coding.new)) }
{
    match coding {
        None => values.push_short(date_form, short),
        Some(_) => Ok(None),
    }
}

/// Appends a string of UTF-8, or its index, and returns its weight; `None` if the type has no strings, or no index can name it.
pub(crate) fn push_utf8(
    values: &mut ColumnValues,
    coding: &mut Option<Coding>,
    text: &[u8],
) -> Result<Option<u64>, AllocError>
    requires { is_utf8 text.now ≡ true }
    ensures { (date_form : DateForm) → IfOk result (λ taken. IfSome taken (λ weight. TakesField date_form text.now weight values.old coding.old values.new coding.new)) }
{
    match coding {
        None => values.push_utf8(text),
        Some(coding) => coding.push_utf8(values, text),
    }
}
