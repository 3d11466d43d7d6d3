// What the cut is. The functions do nothing: their contracts are the laws.
ghost use Rattle.std.specs.Prelude.{◌≡◌, ◌≢◌, true, false, List, [], ◌∷◌, ◌++◌};
ghost use Rattle.arrow_schema.specs.Column.{PlainSchema, columns_of};
ghost use Rattle.cells.specs.Cell.{Cell, PlainTable};
ghost use Rattle.cells.specs.Dictionary.{is_any_limited};
ghost use Rattle.cells.specs.Weight.{row_weight};
ghost use Rattle.cells.specs.declared.limits.TheConstants.{MAX_PIECE_ROWS, MAX_PIECE_WEIGHT};
ghost use Rattle.table_cut.specs.Cut.{pieces, within_limits};
ghost use Rattle.table_cut.specs.CutRows.{HasNoRoom, IsCut};
ghost use Rattle.table_cut.specs.Piece.{pieces_of, within_piece};
ghost use Rattle.values.specs.Table.{IsTable};

/// States what the cut of a table's rows is: joined, the pieces are the rows; none is empty, each is within the limits of a piece, and none has room for the
/// row that follows it. There is no other such cut.
pub fn pieces_are_the_cut()
    ensures cut { (t : PlainTable) → IsTable t → IsCut (within_piece t.schema) t.rows (pieces_of t) }
    ensures only { (t : PlainTable) (pieces : List (List (List Cell))) → IsCut (within_piece t.schema) t.rows pieces → pieces ≡ pieces_of t }
{}

/// States what the next piece is. `next`: rows within the limits of a piece that have no room for the row that follows them. `unlimited`: if no dictionary has
/// a limit, only the number of the rows counts, and their weight.
pub fn longest_fronts_are_pieces()
    ensures next { (s : PlainSchema) (piece rest : List (List Cell)) → piece ≢ [] → within_piece s piece ≡ true
        → HasNoRoom (within_piece s) piece rest
        → pieces (within_piece s) (piece ++ rest) ≡ piece ∷ pieces (within_piece s) rest }
    ensures unlimited { (s : PlainSchema) (rows : List (List Cell)) → is_any_limited (columns_of s.columns) ≡ false
        → within_piece s rows ≡ within_limits (row_weight s) MAX_PIECE_ROWS MAX_PIECE_WEIGHT rows }
{}
