// Appends the rows of an input that is a text: CSV or JSON Lines.
ghost use Rattle.std.specs.Prelude.{◌≡◌, ◌≢◌, true, codes, string_bytes, List, option_map, Some, IfErr, IfOk, IfSome, Ok, OnOk};
ghost use Rattle.std.specs.Io.KnownBytes.{Appends};
ghost use Rattle.cells.specs.Cell.{Cell};
ghost use Rattle.catalogue.specs.Edits.{entry_of};
ghost use Rattle.tables.specs.Commands.{append_rows};
ghost use Rattle.tables.specs.Tables.{Tables};
ghost use Rattle.store.specs.Applying.{GoesOn};
ghost use Rattle.store_runs.specs.Calls.{apply_call};
ghost use Rattle.store.specs.Fits.{StoreFits, is_halted, listed_in};
ghost use Rattle.store_runs.specs.Machine.{Machine};
ghost use Rattle.store_runs.specs.Reading.{ended};
ghost use Rattle.cli_commands.specs.Changing.{Answered, AnswersCommand};
ghost use Rattle.arrow_schema.specs.Column.{PlainSchema};
ghost use Rattle.arrow_schema.specs.Limits.{IsWithinLimits};
ghost use Rattle.arrow_schema.specs.View.{schema_of};
ghost use Rattle.facts.specs.Outcomes.{Reports};
ghost use Rattle.text_import.specs.Form.{rows_of_text};
ghost use Rattle.text_import.specs.Refusals.{refused_by};
ghost use Rattle.values.specs.TableView.{table_of};
ghost use Rattle.cli_commands.specs.TextRows.{HandsRows, RefusesText, IfOfText, HintsAt, IfHinted};
ghost use Rattle.cli_commands.specs.inner.TextRows.{AppendsRows};

use crate::apply_command;
use crate::input::read_input;
use arrow_schema::Schema;
use cli_reports::{Hinted, HintedPart, Refusal, Side, about_part};
use sector_dev::SectorDevice;
use std::alloc::{AllocError, Global};
use std::io::{Read, Write};
use store::Store;
use tables::Command;
use text_columns::{csv_table, jsonl_table};
use text_import::{
    Refused, TextError, TextForm, are_too_heavy, refused_part, refused_parts_are_causes,
    rows_of_text, rows_of_texts_are_rows,
};
use values::WeighedTable;

// Returns the part of a text with this refusal that is refused, and what is said of its field, or `None` if there is none.
#[tactic(auto, using(crate::proofs::TextLemmas::hints_at))]
fn hinted_part(
    alloc: Global,
    form: &TextForm<'_>,
    schema: &Schema,
    text: &[u8],
    refused: &Refused,
) -> Result<Option<Hinted>, AllocError>
    ensures { IfOk result (λ hint. HintsAt hint form.now (schema_of schema.now) text.now (Some refused.now)) }
{
    match refused_part(alloc, form, schema, text, refused.number)? {
        Some(part) => {
            let about = about_part(alloc, schema, &part, refused.refusal)?;
            Ok(Some(Hinted::Part(HintedPart { part, about })))
        }
        None => Ok(None),
    }
}

// Returns the part of a refused text that is refused, or `None` if memory for it is refused.
fn refused_in(
    alloc: Global,
    form: &TextForm<'_>,
    schema: &Schema,
    text: &[u8],
    error: &TextError,
) -> Option<Hinted>
    ensures { HintsAt result form.now (schema_of schema.now) text.now (refused_by error.now) }
{
    match error {
        TextError::Refused(refused) => match hinted_part(alloc, form, schema, text, refused) {
            Ok(hint) => hint,
            Err(_) => None,
        },
        TextError::OutOfMemory => None,
    }
}

// Reads the rows of a text into arrays, if that is possible, and returns their table and weight.
fn read_table(
    alloc: Global,
    form: &TextForm<'_>,
    schema: &Schema,
    text: &[u8],
) -> Result<Option<WeighedTable>, TextError>
    requires { IsWithinLimits (schema_of schema.now) }
    ensures read { IfOk result (λ found. IfSome found (λ w. rows_of_text form.now (schema_of schema.now) text.now ≡ Ok (table_of w.table).rows)) }
    ensures refused { IfErr result (λ e. Reports (refused_by e) (rows_of_text form.now (schema_of schema.now) text.now)) }
{
    match form {
        TextForm::Csv(form) => csv_table(alloc, schema, text, form),
        TextForm::JsonLines(date_form) => Ok(jsonl_table(alloc, *date_form, schema, text)?),
    }
}

/// Returns the command that appends the rows of a text to a table, or `None` if they are too heavy for any table. The rows are read into arrays if that is
/// possible.
pub(crate) fn read_command(
    alloc: Global,
    form: &TextForm<'_>,
    schema: &Schema,
    text: &[u8],
    name: String,
) -> Result<Option<Command>, TextError>
    requires { IsWithinLimits (schema_of schema.now) }
    ensures read { IfOk result (λ found. (rows : List (List Cell)) × (rows_of_text form.now (schema_of schema.now) text.now ≡ Ok rows)
        × AppendsRows (string_bytes name) (schema_of schema.now) rows found) }
    ensures refused { IfErr result (λ e. Reports (refused_by e) (rows_of_text form.now (schema_of schema.now) text.now)) }
{
    if let Some(new) = read_table(alloc, form, schema, text)? {
        return Ok(Some(Command::AppendTable { name, new }));
    }
    rows_of_texts_are_rows();
    if are_too_heavy(alloc, form, schema, text)? {
        return Ok(None);
    }
    let rows = rows_of_text(alloc, form, schema, text)?;
    Ok(Some(Command::AppendRows { name, rows }))
}

// `read_command`, which also frees the text and, if the text is refused, sets `hint` to the refused part.
fn take_command(
    alloc: Global,
    form: &TextForm<'_>,
    schema: &Schema,
    text: Vec<u8>,
    name: String,
    hint: &mut Option<Hinted>,
) -> Result<Option<Command>, TextError>
    requires { IsWithinLimits (schema_of schema.now) }
    ensures read { IfOk result (λ found. (rows : List (List Cell)) × (rows_of_text form.now (schema_of schema.now) text.items ≡ Ok rows)
        × AppendsRows (string_bytes name) (schema_of schema.now) rows found) }
    ensures refused { IfErr result (λ e. Reports (refused_by e) (rows_of_text form.now (schema_of schema.now) text.items)) }
    ensures kept { OnOk result (hint.new ≡ hint.old) }
    ensures hint { IfErr result (λ error. HintsAt hint.new form.now (schema_of schema.now) text.items (refused_by error)) }
{
    match read_command(alloc, form, schema, &text, name) {
        Ok(command) => Ok(command),
        Err(error) => {
            *hint = refused_in(alloc, form, schema, &text, &error);
            Err(error)
        }
    }
}

// Executes the command that appends rows to a table and writes `ok`. Without a command, the rows are too heavy for any table, and the store refuses them.
fn append_or_refuse<D: SectorDevice, W: Write>(
    alloc: Global,
    store: &mut Store<D>,
    name: &str,
    command: Option<Command>,
    output: &mut W,
) -> Result<(), Refusal>
    ensures goes { (s : PlainSchema) (rows : List (List Cell)) → option_map (λ e. e.schema) (entry_of (listed_in store.old) name.now) ≡ Some s
        → AppendsRows name.now s rows command
        → D.tells ≡ true → (base : Tables) (m : Machine) → StoreFits D.size D.story base m store.old
        → Answered (λ answer. GoesOn D.size D.story D.failed base m (apply_call (append_rows name.now rows)) (ended answer) store.old store.new) result }
    ensures told { (s : PlainSchema) (rows : List (List Cell)) → option_map (λ e. e.schema) (entry_of (listed_in store.old) name.now) ≡ Some s
        → AppendsRows name.now s rows command
        → Answered (λ answer. AnswersCommand D.size D.story D.failed D.tells (append_rows name.now rows) answer store.old store.new) result }
    ensures written { OnOk result (Appends (W.contents output.old) (W.contents output.new) (codes "ok\n")) }
    ensures silent { IfErr result (λ refusal. refusal ≢ Refusal.Io Side.Output → output.new ≡ output.old) }
{
    match command {
        Some(command) => apply_command(alloc, store, command, output),
        None => Err(Refusal::Store(store.refuse_heavy_rows(alloc, name))),
    }
}

/// Reads the whole input as a text for the table's schema, appends its rows, and writes `ok`.
///
/// A missing table is reported before anything is read. If the text is refused, `hint` is set to the refused part of it, or to `None` if memory is
/// refused.
///
/// # Errors
/// `Text` if the text is refused, after all of it was read; `TooManyBytes` if it is longer than `LARGEST_INPUT`; `OutOfMemory`; `Store` if the
/// store refuses: the tables are unchanged, and nothing is written; after `Store(Device)` the store is halted, and the rows may or may not be
/// appended. `Io` of the input if that can't be read, and then nothing is changed, or of the output if that fails, and then the rows are appended.
#[tactic(auto, using(crate::proofs::TextLemmas::no_hint))]
pub fn append_text<D: SectorDevice, R: Read, W: Write>(
    alloc: Global,
    store: &mut Store<D>,
    name: &str,
    form: &TextForm<'_>,
    input: &mut R,
    output: &mut W,
    hint: &mut Option<Hinted>,
) -> Result<(), Refusal>
    // The store is given the rows of the input, as they are defined.
    ensures goes { D.tells ≡ true → (base : Tables) (m : Machine) → StoreFits D.size D.story base m store.old
        → HandsRows form.now (entry_of (listed_in store.old) name.now) (R.remaining input.old)
        (λ rows answer. GoesOn D.size D.story D.failed base m (apply_call (append_rows name.now rows)) (ended answer) store.old store.new)
        (λ refusal. store.new ≡ store.old) result }
    // On any store: it was given these rows, and its answer is reported; or there was a reason before that, and nothing is changed or written.
    ensures told { HandsRows form.now (entry_of (listed_in store.old) name.now) (R.remaining input.old)
        (λ rows answer. AnswersCommand D.size D.story D.failed D.tells (append_rows name.now rows) answer store.old store.new)
        (λ refusal. RefusesText R.remaining form.now (is_halted store.old) (entry_of (listed_in store.old) name.now) input.old input.new refusal
        × (store.new ≡ store.old) × (output.new ≡ output.old)) result }
    // A refusal of the text is the one that is defined for the whole input.
    ensures refused { IfErr result (IfOfText form.now (entry_of (listed_in store.old) name.now) (R.remaining input.old)) }
    // A hint is the refused part of the text, as it is defined, and says of the field of the table at its place what is defined; the place is where the
    // text is refused. Any other answer has no hint.
    ensures hint { IfHinted hint.new form.now (entry_of (listed_in store.old) name.now) (R.remaining input.old) result }
    ensures written { OnOk result (Appends (W.contents output.old) (W.contents output.new) (codes "ok\n")) }
    ensures silent { IfErr result (λ refusal. refusal ≢ Refusal.Io Side.Output → output.new ≡ output.old) }
{
    *hint = None;
    let schema = store.schema(alloc, name)?;
    let text = read_input(alloc, input)?;
    let own_name = String::from_str(alloc, name)?;
    refused_parts_are_causes();
    let command = take_command(alloc, form, &schema, text, own_name, hint)?;
    append_or_refuse(alloc, store, name, command, output)
}
