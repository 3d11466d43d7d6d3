// A law about the streams of pieces. The function does nothing: its contract is the law.
ghost use Rattle.std.specs.Prelude.{◌≡◌};
ghost use Rattle.std.specs.List.{AllByRecursion};
ghost use Rattle.ipc_encode.specs.Pieces.{IsPiece};
ghost use Rattle.cells.specs.Cell.{PlainTable};
ghost use Rattle.table_cut.specs.CutRows.{joined};
ghost use Rattle.table_cut.specs.Piece.{pieces_of};
ghost use Rattle.values.specs.Table.{IsTable};

use ipc_canonical::{canonical_means_its_table, pieces_can_be_built};

/// The pieces of a table. `each`: a piece has few rows and is a table by itself, which its stream means (`IsPiece`); `whole`: the pieces joined are
/// the table's rows.
pub fn pieces_are_tables()
    ensures each { (t : PlainTable) → IsTable t → AllByRecursion (IsPiece t.schema) (pieces_of t) }
    ensures whole { (t : PlainTable) → joined (pieces_of t) ≡ t.rows }
{
    pieces_can_be_built();
    canonical_means_its_table();
}
