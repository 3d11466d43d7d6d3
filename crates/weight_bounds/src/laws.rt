// What the definitions say. The function does nothing: its contract is the law.
ghost use Rattle.std.specs.Prelude.{◌≡◌, ◌≤◌, ◌*◌, ℕ, Bool, List, length, Some, Ok};
ghost use Rattle.cells.specs.Cell.{PlainTable};
ghost use Rattle.cells.specs.Weight.{table_weight};
ghost use Rattle.ipc_stream.specs.Meaning.{meaning};
ghost use Rattle.weight_bounds.specs.Bound.{row_more_in_eight, most_in_eight};

use ipc_message::next_message_is_framed;

/// The rows that a stream means weigh no more than the bound for their number and the bytes of the stream, if their schema has one.
pub fn streams_weigh_at_most()
    ensures { (supported : ℕ → Bool) (bytes : List ℕ) (t : PlainTable) (more : ℕ) → row_more_in_eight t.schema ≡ Some more → meaning supported bytes ≡ Ok t
        → 8 * table_weight t.schema t.rows ≤ most_in_eight t.schema more (length t.rows) (length bytes) }
{
    next_message_is_framed();
}
