// Chooses the columns and rows of a table that a query selects.
ghost use Rattle.std.specs.Prelude.{◌≡◌, ℕ, List, Ok, Some, IfOk, IfErr, map, length, string_bytes, replicate, slice_index_or, false, true};
ghost use Rattle.std.specs.List.{range_with_len};
ghost use Rattle.arrow_schema.specs.View.{column_of, schema_of};
ghost use Rattle.bitmap.specs.Bits.{bit, bytes_of};
ghost use Rattle.cells.specs.Cell.{PlainTable};
ghost use Rattle.values.specs.TableView.{table_of};
ghost use Rattle.query.specs.Bound.{bound, holds};
ghost use Rattle.query.specs.BoundQuery.{bound_query_in, rows_held, selected_by};
ghost use Rattle.query.specs.Selection.{chosen, all_ok, holds_all, pick, selection};
ghost use Rattle.query.specs.View.{condition_in, query_in, Reports, Unchosen};
ghost use Rattle.query.specs.inner.BoundView.{bound_in};
ghost use Rattle.query.specs.Choice.{rows_set};
ghost use Rattle.query.specs.inner.Masks.{IsMask};

use crate::bound::{Bound, bind, holds, place_of};
use crate::bound_query::BoundQuery;
use crate::condition::Condition;
use crate::errors::QueryError;
use crate::query::Query;
use crate::slot_test::slot_test_of;
use arrow_schema::{Field, Schema};
use bitmap::MaskBuilder;
use civil_days::DateForm;
use std::alloc::{AllocError, Global};
use values::Table;

#[tactic(auto, unfolding(crate::specs::Selection::chosen))]
fn places_of(alloc: Global, fields: &[Field], names: &[String]) -> Result<Vec<usize>, QueryError>
    ensures ok { IfOk result (λ v. chosen (map column_of fields.now) (map string_bytes names.now) ≡ Some v.items) }
    ensures refused { IfErr result (λ e. Unchosen e (chosen (map column_of fields.now) (map string_bytes names.now))) }
{
    if names.is_empty() {
        return Ok(all_places(alloc, fields.len())?);
    }
    let mut places = Vec::with_capacity(alloc, names.len())?;
    for name in names {
        let Some(place) = place_of(fields, name.as_str()) else {
            return Err(QueryError::UnknownColumn);
        };
        if places.contains(&place) {
            return Err(QueryError::UnknownColumn);
        }
        places.push_reserved(place);
    }
    Ok(places)
}

fn all_places(alloc: Global, count: usize) -> Result<Vec<usize>, AllocError>
    ensures { IfOk result (λ v. v.items ≡ range_with_len 0 count) }
{
    let mut places = Vec::with_capacity(alloc, count)?;
    for place in 0..count {
        places.push_reserved(place);
    }
    Ok(places)
}

// Binds conditions to the columns of a table, up to the first that is refused.
fn bind_all(
    alloc: Global,
    dates: DateForm,
    fields: &[Field],
    conditions: &[Condition],
) -> Result<Vec<Bound>, QueryError>
    ensures ok { IfOk result (λ v. all_ok (map (bound dates (map column_of fields.now)) (map condition_in conditions.now)) ≡ Ok (map bound_in v.items)) }
    ensures refused { IfErr result (λ e. Reports e (all_ok (map (bound dates (map column_of fields.now)) (map condition_in conditions.now)))) }
{
    let mut bounds = Vec::with_capacity(alloc, conditions.len())?;
    for condition in conditions {
        let bound = bind(alloc, dates, fields, condition)?;
        bounds.push_reserved(bound);
    }
    Ok(bounds)
}

// Returns a bit for each row, which is set if the condition holds, found row by row.
fn mask_of_rows(alloc: Global, table: &Table, bound: &Bound) -> Result<Vec<u8>, AllocError>
    ensures { IfOk result (λ mask. IsMask mask.items (map (holds (bound_in bound.now)) (table_of table.now).rows)) }
{
    let mut flags = Vec::with_capacity(alloc, table.len())?;
    for row in table.rows() {
        flags.push_reserved(holds(bound, row));
    }
    bitmap::pack(alloc, &flags)
}

// `mask_of_rows`, from the bytes of arrays where these suffice.
fn mask_of(alloc: Global, table: &Table, bound: &Bound) -> Result<Vec<u8>, AllocError>
    ensures { IfOk result (λ mask. IsMask mask.items (map (holds (bound_in bound.now)) (table_of table.now).rows)) }
{
    let schema = table.schema();
    match (table.parts(), slot_test_of(&schema.fields, bound)) {
        (Some(parts), Some(test)) => test.mask_of(alloc, parts, table.len()),
        _ => mask_of_rows(alloc, table, bound),
    }
}

// Returns a mask with the bit of each row set.
fn all_rows(alloc: Global, rows: usize) -> Result<Vec<u8>, AllocError>
    ensures { IfOk result (λ mask. IsMask mask.items (replicate rows true)) }
{
    let mut mask = MaskBuilder::with_capacity(alloc, rows)?;
    mask.push_alike(rows, true)?;
    Ok(mask.into_mask())
}

// Returns a bit for each row, which is set if all conditions hold.
fn mask_of_all(alloc: Global, table: &Table, bounds: &[Bound]) -> Result<Vec<u8>, AllocError>
    ensures { IfOk result (λ mask. IsMask mask.items (map (holds_all (map bound_in bounds.now)) (table_of table.now).rows)) }
{
    let rows = table.len();
    let Some((first, others)) = bounds.split_first() else {
        return all_rows(alloc, rows);
    };
    let mut mask = mask_of(alloc, table, first)?;
    for bound in others {
        let own = mask_of(alloc, table, bound)?;
        mask = bitmap::and(alloc, &mask, &own, rows)?;
    }
    Ok(mask)
}

/// Binds a query to the columns of a table. The columns asked for are tested first, and then the conditions in order.
///
/// # Errors
/// `UnknownColumn`, `BadCondition` or `NotComparable`, by the first test that fails. `OutOfMemory` if memory is refused.
pub fn bind_query(alloc: Global, schema: &Schema, query: &Query) -> Result<BoundQuery, QueryError>
    // Rows refuse no query: this is the answer for each table of the schema.
    ensures ok { IfOk result (λ b. (t : PlainTable) → schema_of schema.now ≡ t.schema → selection t (query_in query.now) ≡ Ok (selected_by (bound_query_in b) t)) }
    ensures refused { IfErr result (λ e. (t : PlainTable) → schema_of schema.now ≡ t.schema → Reports e (selection t (query_in query.now))) }
{
    let places = places_of(alloc, &schema.fields, &query.columns)?;
    let bounds = bind_all(alloc, query.dates, &schema.fields, &query.conditions)?;
    Ok(BoundQuery {
        places,
        bounds,
        limit: query.limit,
    })
}

/// Returns a bit for each row of a table, which is set if all conditions of a query hold; the bits past the last row are not set. The query is bound to
/// the columns of this table.
///
/// # Errors
/// `AllocError` if memory is refused.
pub fn choose_rows(alloc: Global, table: &Table, query: &BoundQuery) -> Result<Vec<u8>, AllocError>
    ensures rows { IfOk result (λ mask. (places : List ℕ) → rows_set mask.items 0 (map (pick places) (table_of table.now).rows)
        ≡ map (pick places) (rows_held (bound_query_in query.now) (table_of table.now).rows)) }
    ensures bits { IfOk result (λ mask. (i : ℕ) → bit mask.items i
        ≡ slice_index_or (map (holds_all (bound_query_in query.now).bounds) (table_of table.now).rows) i false) }
    ensures size { IfOk result (λ mask. length mask.items ≡ bytes_of (length (table_of table.now).rows)) }
{
    mask_of_all(alloc, table, &query.bounds)
}
