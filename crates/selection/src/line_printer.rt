// Prints the selection of a table, whose rows come one part after another.
ghost use Rattle.std.specs.Prelude.{◌≡◌, ◌≢◌, ◌++◌, Ok, IfOk, IfErr, OnErr, OnOk};
ghost use Rattle.cells.specs.Cell.{PlainTable};
ghost use Rattle.query.specs.Printed.{rows_text, printed_selection};
ghost use Rattle.query.specs.View.{query_in, Reports};
ghost use Rattle.query.specs.declared.errors.QueryError.TheVariants.{OutOfMemory};
ghost use Rattle.values.specs.TableView.{table_of};

use crate::limit::limit_after;
use crate::picked_schema::pick_fields;
use crate::printing::{append, can_be_printed, push_part};
use arrow_schema::{Field, Schema};
use query::{BoundQuery, Query, QueryError, RowForm, bind_query};
use std::alloc::{AllocError, Global};
use values::Table;

/// Prints a line in one form for each row that a query selects from a table, which is given one part after another.
#[derive(Drop)]
pub struct LinePrinter {
    // What is asked of the rows that follow.
    pub(crate) query: BoundQuery,
    // The columns asked for.
    pub(crate) fields: Vec<Field>,
    pub(crate) form: RowForm,
}

impl LinePrinter {
    ghost use Rattle.arrow_schema.specs.View.{schema_of};
    ghost use Rattle.selection.specs.LinePrinter.{PrintsOf, printer_in, printed_lines, printer_after};

    /// Returns a printer of the selection of tables of a schema.
    ///
    /// ```ignore
    /// let form = RowForm { shape: RowShape::Array, dates: DateForm::Numbers };
    /// let mut printer = LinePrinter::new(alloc, &schema, &query, form)?;
    /// for part in &parts {
    ///     printer.push_lines(alloc, &mut text, part)?;
    /// }
    /// ```
    ///
    /// # Errors
    /// `UnknownColumn`, `BadCondition` or `NotComparable`, by the first test that fails; `UnknownColumn` too if rows are objects and two of the chosen
    /// columns have the same name; `OutOfMemory` if memory is refused.
    pub fn new(
        alloc: Global,
        schema: &Schema,
        query: &Query,
        form: RowForm,
    ) -> Result<LinePrinter, QueryError>
        // Rows refuse no query: this is the answer for each table of the schema.
        ensures lines { IfOk result (λ p. (t : PlainTable) → schema_of schema.now ≡ t.schema → (selected : PlainTable)
            × (printed_selection form t (query_in query.now) ≡ Ok selected) × (printed_lines (printer_in p) t.rows ≡ rows_text form selected)) }
        ensures columns { IfOk result (λ p. PrintsOf (printer_in p) (schema_of schema.now).columns) }
        ensures refused { IfErr result (λ e. (t : PlainTable) → schema_of schema.now ≡ t.schema → Reports e (printed_selection form t (query_in query.now))) }
    {
        let bound = bind_query(alloc, schema, query)?;
        let fields = pick_fields(alloc, &schema.fields, &bound.places)?;
        if !can_be_printed(form, &fields) {
            return Err(QueryError::UnknownColumn);
        }
        Ok(LinePrinter {
            query: bound,
            fields,
            form,
        })
    }

    /// Appends the lines of the rows that are selected from the next part. It is a table with the columns that the printer was made for. One that is
    /// kept as rows is written as a stream first. The lines are made apart, and copied if there is a text before them.
    ///
    /// # Errors
    /// `AllocError` if memory is refused. The text and the printer are then as before.
    pub fn push_lines(
        &mut self,
        alloc: Global,
        text: &mut Vec<u8>,
        part: &Table,
    ) -> Result<(), AllocError>
        requires columns { PrintsOf (printer_in self.old) (table_of part.now).schema.columns }
        ensures lines { OnOk result (text.new.items ≡ text.old.items ++ printed_lines (printer_in self.old) (table_of part.now).rows) }
        ensures after { OnOk result (printer_in self.new ≡ printer_after (printer_in self.old) (table_of part.now).rows) }
        ensures kept { OnErr result (text.new.items ≡ text.old.items) }
        ensures same { OnErr result (printer_in self.new ≡ printer_in self.old) }
    {
        let mut lines = Vec::new(alloc);
        let count = push_part(
            alloc,
            &mut lines,
            self.form,
            &self.fields,
            part,
            &self.query,
        )?;
        append(text, lines)?;
        self.query.limit = limit_after(self.query.limit, count);
        Ok(())
    }
}

/// Appends a line in this form for each row that a query selects from a table: the lines of the table that [`select`](crate::select) makes of it.
/// A table that is kept as rows is written as a stream first. The lines are made apart, and copied if there is a text before them.
///
/// # Errors
/// `UnknownColumn`, `BadCondition` or `NotComparable`, by the first test that fails; `UnknownColumn` too if rows are objects and two of the chosen
/// columns have the same name; `OutOfMemory` if memory is refused. The text is then as before.
pub fn push_selected_lines(
    alloc: Global,
    text: &mut Vec<u8>,
    form: RowForm,
    table: &Table,
    query: &Query,
) -> Result<(), QueryError>
    ensures lines { OnOk result ((selected : PlainTable) × (printed_selection form (table_of table.now) (query_in query.now) ≡ Ok selected)
        × (text.new.items ≡ text.old.items ++ rows_text form selected)) }
    ensures refused { IfErr result (λ e. Reports e (printed_selection form (table_of table.now) (query_in query.now))) }
    ensures silent { IfErr result (λ e. e ≢ OutOfMemory → text.new ≡ text.old) }
    ensures kept { OnErr result (text.new.items ≡ text.old.items) }
{
    let mut printer = LinePrinter::new(alloc, table.schema(), query, form)?;
    printer.push_lines(alloc, text, table)?;
    Ok(())
}
