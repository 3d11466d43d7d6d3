// The next piece of a table's rows.
ghost use Rattle.std.specs.Prelude.{◌≡◌, ◌<◌, ◌≤◌, ◌+◌, ◌∷◌, Some, map, length, take, drop, slice_get, IfOk};
ghost use Rattle.arrow_schema.specs.View.{schema_of};
ghost use Rattle.table_cut.specs.Cut.{pieces};
ghost use Rattle.table_cut.specs.Piece.{within_piece};
ghost use Rattle.columns.specs.Borrowed.{borrowed_cells};
ghost use Rattle.values.specs.TableView.{table_of};

use crate::seen::{first_entries, takes_row};
use crate::weigh::row_weight;
use arrow_schema::Schema;
use cells::{MAX_PIECE_ROWS, MAX_PIECE_WEIGHT, add_weights, has_limits};
use std::alloc::{AllocError, Global};
use values::{Table, Values};

pub(crate) fn row_at(table: &Table, place: usize) -> Values<'_>
    requires { place < length (table_of table.now).rows }
    ensures { slice_get (table_of table.now).rows place ≡ Some (borrowed_cells result) }
{
    table.row(place).unwrap()
}

/// Returns the rows of the next piece, if those before row `from` are in pieces already: the longest front of the rows that are left which is within the limits
/// of a piece, as rows of this schema. A row must be left: `from` is less than `table.len()`.
///
/// # Errors
/// `AllocError` if memory was refused.
pub fn next_piece<'a>(
    alloc: Global,
    schema: &Schema,
    table: &'a Table,
    from: usize,
) -> Result<Vec<Values<'a>>, AllocError>
    requires left { from < length (table_of table.now).rows }
    ensures piece { IfOk result (λ piece. pieces (within_piece (schema_of schema.now)) (drop from (table_of table.now).rows)
        ≡ map borrowed_cells piece.items ∷ pieces (within_piece (schema_of schema.now)) (drop (from + length piece.items) (table_of table.now).rows)) }
    ensures some { IfOk result (λ piece. 1 ≤ length piece.items) }
    ensures within { IfOk result (λ piece. from + length piece.items ≤ length (table_of table.now).rows) }
    ensures rows { IfOk result (λ piece. map borrowed_cells piece.items ≡ take (length piece.items) (drop from (table_of table.now).rows)) }
{
    let limited = has_limits(schema);
    let rows = table.len();
    let first = row_at(table, from);
    // Room for as many rows as a piece may have, but not for more than are left.
    let mut piece = Vec::with_capacity(alloc, MAX_PIECE_ROWS.min(rows - from))?;
    piece.push(first).unwrap();
    let mut weight = row_weight(schema, first);
    let mut entries = first_entries(alloc, schema, first, limited)?;
    for place in from + 1..rows {
        let row = row_at(table, place);
        weight = add_weights(weight, row_weight(schema, row));
        if piece.len() >= MAX_PIECE_ROWS || weight > MAX_PIECE_WEIGHT {
            return Ok(piece);
        }
        if !takes_row(alloc, schema, &mut entries, row, limited)? {
            return Ok(piece);
        }
        piece.push(row).unwrap();
    }
    Ok(piece)
}
