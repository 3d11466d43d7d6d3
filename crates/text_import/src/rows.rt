// Whole rows.
ghost use Rattle.std.specs.Prelude.{◌≡◌, List, map, Result};
ghost use Rattle.arrow_schema.specs.Column.{columns_of};
ghost use Rattle.arrow_schema.specs.View.{schema_of};
ghost use Rattle.cells.specs.Cell.{Cell};
ghost use Rattle.cells.specs.View.{cell};
ghost use Rattle.cells.specs.Row.{row_of};
ghost use Rattle.cells.specs.Dictionary.{is_any_limited};
ghost use Rattle.text_import.specs.declared.refusal.Refusal.{Refusal};
ghost use Rattle.text_import.specs.Refusals.{refusal_of, refused_by, numbered};
ghost use Rattle.facts.specs.Outcomes.{Gives};
ghost use Rattle.text_import.specs.Rows.{accepted};

use crate::refusal::{CellError, Refusal, Refused, TextError};
use arrow_schema::Schema;
use cells::{MAX_ROW_WEIGHT, Row, Value, dictionaries_fit, row_weight};
use std::alloc::Global;

// Returns the row of these cells. `limited` is the result of `cells::has_limits` for the schema.
pub(crate) fn accepted(
    alloc: Global,
    schema: &Schema,
    limited: bool,
    cells: Vec<Value>,
) -> Result<Row, CellError>
    requires { limited ≡ is_any_limited (columns_of (schema_of schema.now).columns) }
    ensures { Gives refusal_of row_of result (accepted (schema_of schema.now) (map cell cells.items)) }
{
    if row_weight(schema, &cells) > MAX_ROW_WEIGHT {
        return Err(CellError::Refused(Refusal::TooHeavy));
    }
    if !dictionaries_fit(schema, &cells, limited, alloc)? {
        return Err(CellError::Refused(Refusal::DictionaryFull));
    }
    Ok(Row { cells })
}

// Adds the record's number to a refusal.
pub(crate) fn numbered(number: u64, row: Result<Row, CellError>) -> Result<Row, TextError>
    ensures { (R : Result (List Cell) Refusal) → Gives refusal_of row_of row R → Gives refused_by row_of result (numbered number R) }
{
    match row {
        Ok(row) => Ok(row),
        Err(CellError::Refused(refusal)) => Err(TextError::Refused(Refused { refusal, number })),
        Err(CellError::OutOfMemory) => Err(TextError::OutOfMemory),
    }
}
