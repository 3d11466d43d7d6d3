// Laws about the definitions. The functions do nothing: their contracts are the laws.
ghost use Rattle.std.specs.Prelude.{◌≡◌, Ok, Err};
ghost use Rattle.cells.specs.Cell.{PlainTable};
ghost use Rattle.values.specs.Table.{IsTable};
ghost use Rattle.query.specs.Bound.{SelectionRefusal};
ghost use Rattle.query.specs.Query.{PlainQuery};
ghost use Rattle.query.specs.Selection.{selection};

/// The selection of a table is a table: it is within all limits.
pub fn selection_is_a_table()
    ensures { (t : PlainTable) (q : PlainQuery) (s : PlainTable) → IsTable t → selection t q ≡ Ok s → IsTable s }
{}

/// Why a query is refused depends on the schema alone: tables of one schema refuse it alike, whatever their rows.
pub fn rows_refuse_no_query()
    ensures { (t u : PlainTable) (q : PlainQuery) (r : SelectionRefusal) → t.schema ≡ u.schema → selection t q ≡ Err r → selection u q ≡ Err r }
{}
