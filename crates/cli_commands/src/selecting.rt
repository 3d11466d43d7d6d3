// Queries the tables of an open store.
ghost use Rattle.std.specs.Prelude.{◌≡◌, ◌≢◌, map, string_bytes, Some, Ok, IfOk, IfErr, OnOk};
ghost use Rattle.std.specs.Option.{option_copied};
ghost use Rattle.std.specs.Io.KnownBytes.{Appends};
ghost use Rattle.sector_dev.specs.Disk.{now, shown_image};
ghost use Rattle.catalogue.specs.Edits.{entry_of};
ghost use Rattle.cells.specs.Cell.{PlainTable};
ghost use Rattle.query.specs.Printed.{rows_text};
ghost use Rattle.query.specs.View.{query_in, condition_in};
ghost use Rattle.cli_reports.specs.Output.{AppendsFront, IfOutput};
ghost use Rattle.store.specs.Fits.{device_of, is_halted, listed_in};
ghost use Rattle.store.specs.Reading.{OnlyReadsStore};
ghost use Rattle.cli_commands.specs.Reading.{store_ended};
ghost use Rattle.cli_commands.specs.Selecting.{named_columns, conditions_of, stated_query, RefusesWords, QueryAnswers, RefusesQuery};

use cli_reports::{Refusal, Side, write_whole};
use query::{Condition, DateForm, Query, RowForm};
use sector_dev::SectorDevice;
use std::alloc::{AllocError, Global};
use std::io::Write;
use store::Store;

fn words_between_commas(alloc: Global, word: &str) -> Result<Vec<&str>, AllocError>
    ensures { IfOk result (λ v. map (λ t. t.now) v.items ≡ named_columns (Some word.now)) }
{
    word.split(',').collect(alloc)
}

fn owned(alloc: Global, words: &[&str]) -> Result<Vec<String>, AllocError>
    ensures { IfOk result (λ v. map string_bytes v.items ≡ map (λ t. t.now) words.now) }
{
    let mut texts = Vec::with_capacity(alloc, words.len())?;
    for word in words {
        texts.push(String::from_str(alloc, word)?)?;
    }
    Ok(texts)
}

fn columns_of(alloc: Global, word: Option<&str>) -> Result<Vec<String>, AllocError>
    ensures { IfOk result (λ v. map string_bytes v.items ≡ named_columns (option_copied word.entry)) }
{
    match word {
        None => Ok(Vec::new(alloc)),
        Some(word) => owned(alloc, &words_between_commas(alloc, word)?),
    }
}

fn conditions_of(alloc: Global, texts: &[&str]) -> Result<Vec<Condition>, Refusal>
    ensures ok { IfOk result (λ v. conditions_of (map (λ t. t.now) texts.now) ≡ Some (map condition_in v.items)) }
    ensures refused { IfErr result (RefusesWords (conditions_of (map (λ t. t.now) texts.now))) }
{
    let mut conditions = Vec::with_capacity(alloc, texts.len())?;
    for text in texts {
        let condition = Condition::parse(alloc, text)?;
        conditions.push(condition).map_err(AllocError::from)?;
    }
    Ok(conditions)
}

/// Returns the query that the words state: conditions, column names separated by commas, and the maximum number of rows. Dates stand in the
/// conditions in this form.
///
/// # Errors
/// `Query` with `BadCondition` if a text does not have the form of a condition; `OutOfMemory`.
pub fn query_of(
    alloc: Global,
    conditions: &[&str],
    columns: Option<&str>,
    limit: Option<u64>,
    dates: DateForm,
) -> Result<Query, Refusal>
    ensures stated { IfOk result (λ q. stated_query (map (λ t. t.now) conditions.now) (option_copied columns.entry) limit dates ≡ Some (query_in q)) }
    ensures refused { IfErr result (RefusesWords (stated_query (map (λ t. t.now) conditions.now) (option_copied columns.entry) limit dates)) }
{
    let conditions = conditions_of(alloc, conditions)?;
    let columns = columns_of(alloc, columns)?;
    Ok(Query {
        columns,
        conditions,
        limit,
        dates,
    })
}

/// Prints each row that a query selects from a table as a line of JSON: an array, or an object with the names of the columns. The whole table is read
/// first, and all lines are made before the first is written; in memory are these lines, and one segment of the table.
///
/// # Errors
/// Those of [`Store::read`]; `Query` if the query is refused, or with `UnknownColumn` if rows are objects and two of the chosen columns have the
/// same name; `Io` if a write fails, and some first bytes of the lines may be written.
pub fn print_selection<D: SectorDevice, W: Write>(
    alloc: Global,
    store: &mut Store<D>,
    name: &str,
    query: &Query,
    form: RowForm,
    output: &mut W,
) -> Result<(), Refusal>
    // What is written is the lines of the selection from the table that reads show, and nothing else.
    ensures written { OnOk result ((selected : PlainTable) × QueryAnswers form (is_halted store.old) D.tells (shown_image (now (D.story (device_of store.old))))
        (entry_of (listed_in store.old) name.now) (query_in query.now) (Ok selected)
        × Appends (W.contents output.old) (W.contents output.new) (rows_text form selected)) }
    ensures told { IfErr result (RefusesQuery form (is_halted store.old) D.tells (shown_image (now (D.story (device_of store.old))))
        (entry_of (listed_in store.old) name.now) (query_in query.now)) }
    // The store is only read.
    ensures reads { OnlyReadsStore D.size D.story D.failed D.tells (store_ended result) store.old store.new }
    // A refusal writes nothing, unless a write failed; then what is written is a front of these lines.
    ensures silent { IfErr result (λ refusal. refusal ≢ Refusal.Io Side.Output → output.new ≡ output.old) }
    ensures front { IfErr result (IfOutput ((selected : PlainTable) × QueryAnswers form (is_halted store.old) D.tells
        (shown_image (now (D.story (device_of store.old)))) (entry_of (listed_in store.old) name.now) (query_in query.now) (Ok selected)
        × AppendsFront (W.contents output.old) (W.contents output.new) (rows_text form selected))) }
{
    let answer = store.selected_lines(alloc, name, query, form)?;
    match answer {
        Ok(text) => write_whole(output, &text),
        Err(error) => Err(Refusal::from(error)),
    }
}
