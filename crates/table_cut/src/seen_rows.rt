// The entries of dictionaries in rows that are visited one after another.
ghost use Rattle.std.specs.Prelude.{◌≡◌, true, List, [], ◌∷◌, ◌++◌, OnOk, IfOk};
ghost use Rattle.arrow_schema.specs.Column.{PlainSchema, columns_of};
ghost use Rattle.arrow_schema.specs.View.{schema_of};
ghost use Rattle.cells.specs.Cell.{Cell};
ghost use Rattle.cells.specs.Dictionary.{is_any_limited, dictionaries_fit};
ghost use Rattle.columns.specs.Borrowed.{borrowed_cells};

use crate::seen::{first_entries, fits_dictionaries, takes_row};
use arrow_schema::Schema;
use cells::Entry;
use indexmap::IndexSet;
use std::alloc::{AllocError, Global};
use values::Values;

/// The entries that the dictionaries of a schema have in some rows.
#[derive(Drop)]
pub struct SeenRows<'a> {
    pub(crate) sets: Option<Vec<IndexSet<Entry<'a>>>>,
}

impl<'a> SeenRows<'a> {
    ghost use Rattle.table_cut.specs.SeenRows.{HaveSeen};

    /// Returns the entries of no row.
    pub fn none() -> SeenRows<'a>
        ensures { (s : PlainSchema) → HaveSeen s [] result }
    {
        SeenRows { sets: None }
    }

    /// Adds the entries of one more row, and returns whether the dictionaries have room for all of these rows.
    ///
    /// # Errors
    /// `AllocError` if memory was refused. Then it is not promised which entries it has: a caller that tries again begins with [`SeenRows::none`].
    pub fn take(
        &mut self,
        alloc: Global,
        schema: &Schema,
        row: Values<'a>,
    ) -> Result<bool, AllocError>
        requires limited { is_any_limited (columns_of (schema_of schema.now).columns) ≡ true }
        requires seen { (rows : List (List Cell)) × HaveSeen (schema_of schema.now) rows self.old }
        ensures fits { IfOk result (λ b. (rows : List (List Cell)) → HaveSeen (schema_of schema.now) rows self.old
            → b ≡ dictionaries_fit (schema_of schema.now) (rows ++ borrowed_cells row.entry ∷ [])) }
        ensures seen { OnOk result ((rows : List (List Cell)) → HaveSeen (schema_of schema.now) rows self.old
            → HaveSeen (schema_of schema.now) (rows ++ borrowed_cells row.entry ∷ []) self.new) }
    {
        if let Some(sets) = &mut self.sets {
            return takes_row(alloc, schema, sets, row, true);
        }
        self.sets = Some(first_entries(alloc, schema, row, true)?);
        fits_dictionaries(alloc, schema, row)
    }
}
