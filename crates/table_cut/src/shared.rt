// Whether runs of rows have the same entries in the dictionaries whose indices can name only some.
ghost use Rattle.std.specs.Prelude.{◌≡◌, true, length, map};
ghost use Rattle.arrays.specs.Shared.{SharesEntries, SharesBelow, ShareEntries};
ghost use Rattle.arrow_schema.specs.Column.{columns_of};
ghost use Rattle.arrow_schema.specs.View.{kind_of, column_of};
ghost use Rattle.columns.specs.Array.{first_array, children_in};
ghost use Rattle.columns.specs.View.{view_array, placed_dictionary, IsNoArray};
ghost use Rattle.table_cut.specs.Rows.{arrays_of_run};
ghost use Rattle.table_cut.specs.inner.Columns.{arrays_from_place};

use crate::row_run::RowRun;
use arrow_schema::{DataType, Field};
use cells::entry_limit;
use columns::{ArrayView, PlacedArray, array_or, no_array};
use dictionary_codes::{Compared, is_same_dictionary};

// A buffer is compared only if it has at most `LEAST_COMPARED` bytes, and `COMPARED_PER_ROW` for each row. Otherwise the rows are visited.
const LEAST_COMPARED: usize = 16_384;

const COMPARED_PER_ROW: usize = 64;

// Returns the arrays below an array of structs, as those of a run without rows.
fn children_of<'a>(view: ArrayView<'a>) -> RowRun<'a>
    ensures { arrays_of_run result ≡ children_in (view_array view.entry) }
{
    RowRun {
        arrays: view.children(),
        bytes: view.bytes,
        dictionaries: view.dictionaries,
        from: 0,
        len: 0,
    }
}

fn view_at<'a>(run: RowRun<'a>, i: usize, none: &'a PlacedArray) -> ArrayView<'a>
    requires { IsNoArray none.now }
    ensures { view_array result ≡ first_array (arrays_from_place i run.entry) }
{
    ArrayView {
        array: array_or(run.arrays, i, none),
        bytes: run.bytes,
        dictionaries: run.dictionaries,
    }
}

// Returns whether an array is known to have the entries of another.
#[tactic(auto, unfolding(arrays::specs::Shared::SharesEntries))]
#[cycle(shared)]
fn shares_entries(
    field: &Field,
    own: ArrayView<'_>,
    others: ArrayView<'_>,
    none: &PlacedArray,
    most: usize,
) -> bool
    requires { IsNoArray none.now }
    ensures { result ≡ true → SharesEntries (column_of field.now) (view_array own.entry) (view_array others.entry) }
{
    match field.dictionary {
        None => shares_below(&field.data_type, own, others, none, most),
        Some(spec) => {
            let bytes = Compared {
                own: own.bytes,
                others: others.bytes,
                most,
            };
            entry_limit(spec.index).is_none()
                || is_same_dictionary(bytes, own.dictionary(), others.dictionary())
        }
    }
}

#[tactic(auto, using(arrow_schema::specs::declared::types::Field::the_lemmas), unfolding(arrays::specs::Shared::SharesBelow))]
#[cycle(shared)]
fn shares_below(
    data_type: &DataType,
    own: ArrayView<'_>,
    others: ArrayView<'_>,
    none: &PlacedArray,
    most: usize,
) -> bool
    requires { IsNoArray none.now }
    ensures { result ≡ true → SharesBelow (kind_of data_type.now) (view_array own.entry) (view_array others.entry) }
{
    match data_type {
        DataType::List(item) => {
            shares_entries(item, own.items_or(none), others.items_or(none), none, most)
        }
        DataType::LargeList(item) => {
            shares_entries(item, own.items_or(none), others.items_or(none), none, most)
        }
        DataType::FixedSizeList(_, item) => {
            shares_entries(item, own.items_or(none), others.items_or(none), none, most)
        }
        DataType::Struct(fields) => {
            share_entries(fields, children_of(own), children_of(others), none, most)
        }
        _ => true,
    }
}

#[tactic(auto, unfolding(arrays::specs::Shared::ShareEntries))]
#[cycle(shared)]
fn share_entries(
    fields: &[Field],
    own: RowRun<'_>,
    others: RowRun<'_>,
    none: &PlacedArray,
    most: usize,
) -> bool
    requires { IsNoArray none.now }
    ensures { result ≡ true → ShareEntries (columns_of (map column_of fields.now)) (arrays_of_run own.entry) (arrays_of_run others.entry) }
{
    for (i, field) in fields.iter().enumerate() {
        let a = view_at(own, i, none);
        let b = view_at(others, i, none);
        if !shares_entries(field, a, b, none, most) {
            return false;
        }
    }
    true
}

/// Returns whether the arrays of a run are known to have the entries of those of another. Dictionaries that are large beside the rows are not compared.
pub(crate) fn runs_share_entries(fields: &[Field], own: RowRun<'_>, others: RowRun<'_>) -> bool
    ensures { result ≡ true → ShareEntries (columns_of (map column_of fields.now)) (arrays_of_run own.entry) (arrays_of_run others.entry) }
{
    let none = no_array();
    let most = others
        .len
        .saturating_mul(COMPARED_PER_ROW)
        .saturating_add(LEAST_COMPARED);
    share_entries(fields, own, others, &none, most)
}
