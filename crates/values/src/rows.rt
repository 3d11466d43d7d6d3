// The rows of a table, one after another.
ghost use Rattle.std.specs.Prelude.{◌≡◌, ◌<◌, Some, map, length, slice_get};
ghost use Rattle.cells.specs.Row.{row_of};
ghost use Rattle.cells.specs.View.{cell};

use crate::batches::BatchPlace;
use crate::table::Table;
use cells::{Row, Value};
use columns::Values;

/// Gives the rows of a table in order.
#[derive(Drop)]
pub struct Rows<'a> {
    pub(crate) table: &'a Table,
    pub(crate) next: usize,
    // The batch of the row before, if the table has record batches.
    pub(crate) near: BatchPlace,
}

impl<'a> Iterator for Rows<'a> {
    ghost use Rattle.std.specs.Iterator.{YieldsFirstBy, item_count};
    ghost use Rattle.columns.specs.Borrowed.{borrowed_cells};
    ghost use Rattle.values.specs.TableView.{rows_left};

    type Item = Values<'a>;

    ghost next_gives = { YieldsFirstBy borrowed_cells rows_left };

    ghost remaining = { item_count rows_left };

    fn next(&mut self) -> Option<Values<'a>> {
        match self.table.row_near(self.next, &mut self.near) {
            None => None,
            Some(row) => {
                self.next += 1;
                Some(row)
            }
        }
    }
}

// Returns the cells of the row at an index, of rows that were given one by one.
pub(crate) fn given_row(rows: &[Row], i: usize) -> &[Value]
    requires { i < length rows.now }
    ensures { Some (map cell result.now) ≡ slice_get (map row_of rows.now) i }
{
    &rows[i].cells
}
